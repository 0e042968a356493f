//! Encoding and decoding with one table of weights for all symbols, for all sizes and types of symbols.

ghost use Rattle.constriction_base.specs.Steps.{IsSizes};
ghost use Rattle.constriction_calls.specs.AnsCalls.{AnsDecodesListBy, AnsEncodesListBy};
ghost use Rattle.constriction_inputs.specs.Weights.{by_weights, narrow_by_weights};
ghost use Rattle.std.specs.Prelude.{◌≤◌, map};

use constriction_calls::ans::decoding::decode;
use constriction_calls::ans::encoding::encode_reverse;
use constriction_inputs::models::{NarrowWeights, Weights};
use constriction_inputs::refusal::Refusal;
use constriction_inputs::symbol::Symbol;
use constriction_inputs::symbols::Symbols;
use constriction_words::{BitArray, WordOf};
use std::alloc::Global;
use std::marker::PhantomData;

/// Encodes symbols from the last to the first, with one table of weights for all symbols.
///
/// Calls [`encode_reverse`] with the symbols and [`Weights`], and returns its result.
///
/// # Errors
///
/// The call returns the errors of [`encode_reverse`] except `WrongInterval`.
///
/// # Examples
///
/// ```
/// let (mut head, mut words, mut len) = (0u64, [0u32; 4], 0);
/// let (weights, symbols) = ([8388608u32, 8388608], [1usize, 0]);
/// encode_reverse_by_weights::<_, _, u32, _, 24>(alloc, &mut head, &mut words, &mut len, &weights, &symbols) // Ok(())
/// ```
#[inline]
pub fn encode_reverse_by_weights<
    Word: WordOf<State>,
    State: BitArray,
    P: WordOf<Word>,
    S: Symbol,
    const PRECISION: usize,
>(
    alloc: Global,
    head: &mut State,
    words: &mut [Word],
    len: &mut usize,
    weights: &[P],
    symbols: &[S],
) -> Result<(), Refusal>
    requires sizes { IsSizes Word.BITS State.BITS }
    requires precision { (1 ≤ PRECISION) × (PRECISION ≤ P.BITS) }
    ensures call { AnsEncodesListBy Word.Natural State.Natural PRECISION
        (by_weights (map P.number weights.now) (S.numbers symbols.now)) head.old words.old len.old
        head.new words.new len.new result }
{
    let models = Weights { weights };
    let items = Symbols { models, symbols };
    encode_reverse::<_, _, P, _, PRECISION>(alloc, head, words, len, &items)
}

/// Decodes symbols into `symbols`, with one table of weights for all symbols.
///
/// Calls [`decode`] with [`Weights`], and returns its result.
///
/// # Errors
///
/// The call returns the errors of [`decode`] except `WrongInterval`.
///
/// # Examples
///
/// ```
/// let (mut head, words, mut len) = (1u64 << 40, [7u32, 9], 2);
/// let (weights, mut symbols) = ([8388608u32, 8388608], [0usize; 2]);
/// decode_by_weights::<_, _, u32, 24>(alloc, &mut head, &words, &mut len, &weights, &mut symbols) // Ok(())
/// ```
#[inline]
pub fn decode_by_weights<
    Word: WordOf<State>,
    State: BitArray,
    P: WordOf<Word>,
    const PRECISION: usize,
>(
    alloc: Global,
    head: &mut State,
    words: &[Word],
    len: &mut usize,
    weights: &[P],
    symbols: &mut [usize],
) -> Result<(), Refusal>
    requires sizes { IsSizes Word.BITS State.BITS }
    requires precision { (1 ≤ PRECISION) × (PRECISION ≤ P.BITS) }
    ensures call { AnsDecodesListBy Word.Natural State.Natural PRECISION (by_weights (map P.number weights.now))
        words.now head.old len.old head.new len.new symbols.old symbols.new result }
{
    let models = Weights { weights };
    decode::<_, _, P, _, PRECISION>(alloc, head, words, len, &models, symbols)
}

/// Decodes symbols of a type such as `u8` into `symbols`, with one table of weights for all symbols.
///
/// Calls [`decode`] with [`NarrowWeights`], and returns its result.
///
/// # Errors
///
/// The call returns the errors of [`decode`] except `WrongInterval`.
///
/// # Examples
///
/// ```
/// let (mut head, words, mut len) = (1u64 << 40, [7u32, 9], 2);
/// let (weights, mut symbols) = ([8388608u32, 8388608], [0u8; 2]);
/// decode_narrow::<_, _, u32, _, 24>(alloc, &mut head, &words, &mut len, &weights, &mut symbols) // Ok(())
/// ```
#[inline]
pub fn decode_narrow<
    Word: WordOf<State>,
    State: BitArray,
    P: WordOf<Word>,
    S: Symbol,
    const PRECISION: usize,
>(
    alloc: Global,
    head: &mut State,
    words: &[Word],
    len: &mut usize,
    weights: &[P],
    symbols: &mut [S],
) -> Result<(), Refusal>
    requires sizes { IsSizes Word.BITS State.BITS }
    requires precision { (1 ≤ PRECISION) × (PRECISION ≤ P.BITS) }
    ensures call { AnsDecodesListBy Word.Natural State.Natural PRECISION
        (narrow_by_weights S.many (map P.number weights.now)) words.now head.old len.old head.new len.new
        (S.numbers symbols.old) (S.numbers symbols.new) result }
{
    let models = NarrowWeights {
        weights,
        symbols: PhantomData,
    };
    decode::<_, _, P, _, PRECISION>(alloc, head, words, len, &models, symbols)
}
