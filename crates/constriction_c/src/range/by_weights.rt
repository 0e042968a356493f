//! Encoding and decoding with one table of weights for all symbols, for all sizes and types of symbols.

ghost use Rattle.constriction_base.specs.Steps.{IsSizes};
ghost use Rattle.constriction_calls.specs.RangeCalls.{RangeDecodesList, RangeEncodesListBy};
ghost use Rattle.constriction_inputs.specs.Weights.{by_weights, narrow_by_weights};
ghost use Rattle.std.specs.Prelude.{◌≤◌, length, map};

use constriction_calls::range::decoding::decode;
use constriction_calls::range::encoding::encode;
use constriction_calls::range::parts::{DecoderParts, EncoderParts};
use constriction_inputs::models::{NarrowWeights, Weights};
use constriction_inputs::refusal::Refusal;
use constriction_inputs::symbol::Symbol;
use constriction_inputs::symbols::Symbols;
use constriction_words::{BitArray, WordOf};
use std::alloc::Global;
use std::marker::PhantomData;

/// Encodes symbols in order, with one table of weights for all symbols.
///
/// Calls [`encode`] with the symbols and [`Weights`], and returns its result.
///
/// # Errors
///
/// The call returns the errors of [`encode`] except `WrongInterval`.
///
/// # Examples
///
/// ```
/// let mut encoder = EncoderParts { lower: 0u64, range: u64::MAX, held: 0, first: 0u32 };
/// let (mut words, mut len) = ([0u32; 4], 0);
/// let (weights, symbols) = ([8388608u32, 8388608], [1usize, 0]);
/// encode_by_weights::<_, _, u32, _, 24>(alloc, &mut encoder, &mut words, &mut len, &weights, &symbols) // Ok(())
/// ```
#[inline]
pub fn encode_by_weights<
    Word: WordOf<State>,
    State: BitArray,
    P: WordOf<Word>,
    S: Symbol,
    const PRECISION: usize,
>(
    alloc: Global,
    encoder: &mut EncoderParts<Word, State>,
    buffer: &mut [Word],
    len: &mut usize,
    weights: &[P],
    symbols: &[S],
) -> Result<(), Refusal>
    requires sizes { IsSizes Word.BITS State.BITS }
    requires precision { (1 ≤ PRECISION) × (PRECISION ≤ P.BITS) }
    ensures call { RangeEncodesListBy Word.Natural State.Natural PRECISION
        (by_weights (map P.number weights.now) (S.numbers symbols.now)) (length symbols.now)
        encoder.old buffer.old len.old encoder.new buffer.new len.new result }
{
    let models = Weights { weights };
    let items = Symbols { models, symbols };
    encode::<_, _, P, _, PRECISION>(alloc, encoder, buffer, len, &items)
}

/// Decodes symbols into `symbols`, with one table of weights for all symbols.
///
/// Calls [`decode`] with [`Weights`], and returns its result.
///
/// # Errors
///
/// The call returns the errors of [`decode`] except `WrongInterval`.
///
/// # Examples
///
/// ```
/// let mut decoder = DecoderParts { lower: 0u64, range: u64::MAX, point: 9, pos: 2 };
/// let (words, weights, mut symbols) = ([0u32, 9], [8388608u32, 8388608], [0usize; 2]);
/// decode_by_weights::<_, _, u32, 24>(alloc, &mut decoder, &words, &weights, &mut symbols) // Ok(())
/// ```
#[inline]
pub fn decode_by_weights<
    Word: WordOf<State>,
    State: BitArray,
    P: WordOf<Word>,
    const PRECISION: usize,
>(
    alloc: Global,
    decoder: &mut DecoderParts<State>,
    words: &[Word],
    weights: &[P],
    symbols: &mut [usize],
) -> Result<(), Refusal>
    requires sizes { IsSizes Word.BITS State.BITS }
    requires precision { (1 ≤ PRECISION) × (PRECISION ≤ P.BITS) }
    ensures call { RangeDecodesList State.number Word.BITS State.BITS PRECISION
        (by_weights (map P.number weights.now)) (map Word.number words.now) decoder.old decoder.new
        symbols.old symbols.new result }
{
    let models = Weights { weights };
    decode::<_, _, P, _, PRECISION>(alloc, decoder, words, &models, symbols)
}

/// Decodes symbols of a type such as `u8` into `symbols`, with one table of weights for all symbols.
///
/// Calls [`decode`] with [`NarrowWeights`], and returns its result.
///
/// # Errors
///
/// The call returns the errors of [`decode`] except `WrongInterval`.
///
/// # Examples
///
/// ```
/// let mut decoder = DecoderParts { lower: 0u64, range: u64::MAX, point: 9, pos: 2 };
/// let (words, weights, mut symbols) = ([0u32, 9], [8388608u32, 8388608], [0u8; 2]);
/// decode_narrow::<_, _, u32, _, 24>(alloc, &mut decoder, &words, &weights, &mut symbols) // Ok(())
/// ```
#[inline]
pub fn decode_narrow<
    Word: WordOf<State>,
    State: BitArray,
    P: WordOf<Word>,
    S: Symbol,
    const PRECISION: usize,
>(
    alloc: Global,
    decoder: &mut DecoderParts<State>,
    words: &[Word],
    weights: &[P],
    symbols: &mut [S],
) -> Result<(), Refusal>
    requires sizes { IsSizes Word.BITS State.BITS }
    requires precision { (1 ≤ PRECISION) × (PRECISION ≤ P.BITS) }
    ensures call { RangeDecodesList State.number Word.BITS State.BITS PRECISION
        (narrow_by_weights S.many (map P.number weights.now)) (map Word.number words.now) decoder.old decoder.new
        (S.numbers symbols.old) (S.numbers symbols.new) result }
{
    let models = NarrowWeights {
        weights,
        symbols: PhantomData,
    };
    decode::<_, _, P, _, PRECISION>(alloc, decoder, words, &models, symbols)
}
