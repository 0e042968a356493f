//! The measured loops of the stack coder. They aren't inlined, so that no constant of a caller changes their code. They
//! take models by value, so that a model's fields can stay in registers.

ghost use Rattle.std.specs.Prelude.{◌≡◌, ◌++◌, length, take, drop};
ghost use Rattle.constriction_base.specs.Steps.{IsSizes};

use constriction_base::errors::CoderError;
use constriction_base::model::{DecoderModel, EncoderModel, EntropyModel};
use constriction_stack::coder::AnsCoder;
use constriction_stream::decoding::Decode;
use constriction_stream::encoding::Encode;
use constriction_words::{BitArray, WordOf};
use std::alloc::Global;

/// Encodes symbols from the last to the first onto a new coder, and returns the words that the coder exports.
///
/// Returns `None` if the model has no entry for a symbol, or if there is no memory.
#[inline(never)]
pub fn encode_all<
    Word: WordOf<State>,
    State: BitArray,
    M: EncoderModel<PRECISION, Symbol = usize>,
    const PRECISION: usize,
>(alloc: Global, symbols: &[usize], model: M) -> Option<Vec<Word>>
where
    M::Probability: WordOf<Word>,
    requires { IsSizes Word.BITS State.BITS }
{
    let mut coder: AnsCoder<Word, State, Vec<Word>> = AnsCoder::new(alloc);
    for place in 0..symbols.len() {
        if coder
            .encode_symbol(&symbols[symbols.len() - 1 - place], &model)
            .is_err()
        {
            return None;
        }
    }
    coder.into_compressed().ok()
}

/// Fills `symbols` with symbols decoded from `words`. Returns `false` if the last word is 0.
#[inline(never)]
pub fn decode_all<
    Word: WordOf<State>,
    State: BitArray,
    M: DecoderModel<PRECISION, Symbol = usize>,
    const PRECISION: usize,
>(words: Vec<Word>, symbols: &mut [usize], model: M) -> bool
where
    M::Probability: WordOf<Word>,
    requires { IsSizes Word.BITS State.BITS }
{
    let Ok(mut coder) = AnsCoder::<Word, State, Vec<Word>>::from_compressed(words) else {
        return false;
    };
    for symbol in symbols.iter_mut() {
        match coder.decode_symbol(&model) {
            Ok(decoded) => *symbol = decoded,
            Err(CoderError::Frontend(never)) => match never {},
            Err(CoderError::Backend(never)) => match never {},
        }
    }
    true
}

/// Imports `words` into a coder, and exports them again.
///
/// Returns `None` if the last word is 0, or if there is no memory.
#[inline(never)]
pub fn reload_all<Word: WordOf<State>, State: BitArray>(words: Vec<Word>) -> Option<Vec<Word>>
    requires { IsSizes Word.BITS State.BITS }
{
    match AnsCoder::<Word, State, Vec<Word>>::from_compressed(words) {
        Ok(coder) => coder.into_compressed().ok(),
        Err(_) => None,
    }
}

/// Encodes symbols as [`encode_all`] does, and copies the words to `out`, as many as fit.
///
/// Returns the total number of words, or 0 if [`encode_all`] returns `None`.
pub fn encode_out<
    Word: WordOf<State>,
    State: BitArray,
    M: EncoderModel<PRECISION, Symbol = usize>,
    const PRECISION: usize,
>(alloc: Global, symbols: &[usize], model: M, out: &mut [Word]) -> usize
where
    M::Probability: WordOf<Word>,
    requires { IsSizes Word.BITS State.BITS }
{
    match encode_all::<Word, State, M, PRECISION>(alloc, symbols, model) {
        Some(words) => copy_out(&words, out),
        None => 0,
    }
}

/// Fills `symbols` with symbols decoded from a copy of `words`.
///
/// Returns `false` if the last word is 0, or if there is no memory.
pub fn decode_in<
    Word: WordOf<State>,
    State: BitArray,
    M: DecoderModel<PRECISION, Symbol = usize>,
    const PRECISION: usize,
>(alloc: Global, words: &[Word], symbols: &mut [usize], model: M) -> bool
where
    M::Probability: WordOf<Word>,
    requires { IsSizes Word.BITS State.BITS }
{
    match words.to_vec(alloc) {
        Ok(words) => decode_all::<Word, State, M, PRECISION>(words, symbols, model),
        Err(_) => false,
    }
}

/// Imports a copy of `words` into a coder, exports the words again, and copies them to `out`, as many as fit.
///
/// Returns the total number of words, or 0 if the last word is 0 or there is no memory.
pub fn reload_out<Word: WordOf<State>, State: BitArray>(
    alloc: Global,
    words: &[Word],
    out: &mut [Word],
) -> usize
    requires { IsSizes Word.BITS State.BITS }
{
    let Ok(words) = words.to_vec(alloc) else {
        return 0;
    };
    match reload_all::<Word, State>(words) {
        Some(words) => copy_out(&words, out),
        None => 0,
    }
}

/// Copies `words` to `out`, as many as fit. Returns the total number of words.
pub fn copy_out<Word: BitArray>(words: &[Word], out: &mut [Word]) -> usize
    ensures count { result ≡ length words.now }
    ensures copied { out.new ≡ take (length out.old) words.now ++ drop (length words.now) out.old }
{
    let count = words.len().min(out.len());
    out[..count].copy_from_slice(&words[..count]);
    words.len()
}
