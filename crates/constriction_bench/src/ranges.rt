//! The measured loops of the range coder. They aren't inlined, so that no constant of a caller changes their code.

pub mod u16;
pub mod u32;

ghost use Rattle.constriction_base.specs.Steps.{IsSizes};

use crate::runs::copy_out;
use constriction_base::cursor::Cursor;
use constriction_base::model::{DecoderModel, EncoderModel, EntropyModel};
use constriction_queue::{RangeDecoder, RangeEncoder};
use constriction_stream::decoding::Decode;
use constriction_stream::encoding::Encode;
use constriction_words::{BitArray, WordOf};
use std::alloc::Global;

/// Encodes symbols in order with a new encoder, and returns the words that the encoder exports.
///
/// Returns `None` if the model has no entry for a symbol, or if there is no memory.
#[inline(never)]
fn encode_range<
    Word: WordOf<State>,
    State: BitArray,
    M: EncoderModel<PRECISION, Symbol = usize>,
    const PRECISION: usize,
>(alloc: Global, symbols: &[usize], model: &M) -> Option<Vec<Word>>
where
    M::Probability: WordOf<Word>,
    requires { IsSizes Word.BITS State.BITS }
{
    let mut encoder: RangeEncoder<Word, State, Vec<Word>> = RangeEncoder::new(alloc);
    for place in 0..symbols.len() {
        if encoder.encode_symbol(&symbols[place], model).is_err() {
            return None;
        }
    }
    encoder.into_compressed().ok()
}

/// Fills `symbols` with symbols decoded from `words`, in order. Returns `false` if a decode fails.
#[inline(never)]
fn decode_range<
    Word: WordOf<State>,
    State: BitArray,
    M: DecoderModel<PRECISION, Symbol = usize>,
    const PRECISION: usize,
>(words: Vec<Word>, symbols: &mut [usize], model: &M) -> bool
where
    M::Probability: WordOf<Word>,
    requires { IsSizes Word.BITS State.BITS }
{
    let Ok(mut decoder) = RangeDecoder::<Word, State, Cursor<Word, Vec<Word>>>::from_compressed(
        words,
    ) else {
        return false;
    };
    for symbol in symbols.iter_mut() {
        match decoder.decode_symbol(model) {
            Ok(decoded) => *symbol = decoded,
            Err(_) => return false,
        }
    }
    true
}

/// Encodes symbols as [`encode_range`] does, and copies the words to `out`, as many as fit.
///
/// Returns the total number of words, or 0 if [`encode_range`] returns `None`.
pub fn encode_range_out<
    Word: WordOf<State>,
    State: BitArray,
    M: EncoderModel<PRECISION, Symbol = usize>,
    const PRECISION: usize,
>(alloc: Global, symbols: &[usize], model: &M, out: &mut [Word]) -> usize
where
    M::Probability: WordOf<Word>,
    requires { IsSizes Word.BITS State.BITS }
{
    match encode_range::<Word, State, M, PRECISION>(alloc, symbols, model) {
        Some(words) => copy_out(&words, out),
        None => 0,
    }
}

/// Fills `symbols` with symbols decoded from a copy of `words`, in order.
///
/// Returns `false` if a decode fails, or if there is no memory.
pub fn decode_range_in<
    Word: WordOf<State>,
    State: BitArray,
    M: DecoderModel<PRECISION, Symbol = usize>,
    const PRECISION: usize,
>(alloc: Global, words: &[Word], symbols: &mut [usize], model: &M) -> bool
where
    M::Probability: WordOf<Word>,
    requires { IsSizes Word.BITS State.BITS }
{
    match words.to_vec(alloc) {
        Ok(words) => decode_range::<Word, State, M, PRECISION>(words, symbols, model),
        Err(_) => false,
    }
}
