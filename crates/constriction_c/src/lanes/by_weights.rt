//! Encoding with one table of weights for all symbols, for all sizes and types of symbols.

ghost use Rattle.constriction_base.specs.Steps.{IsSizes};
ghost use Rattle.constriction_lanes.specs.LaneCalls.{LanesEncodeListBy};
ghost use Rattle.constriction_inputs.specs.Weights.{by_weights};
ghost use Rattle.std.specs.Prelude.{◌≤◌, length, map};

use constriction_inputs::models::Weights;
use constriction_inputs::refusal::Refusal;
use constriction_inputs::symbol::Symbol;
use constriction_inputs::symbols::Symbols;
use constriction_lanes::encoding::encode_reverse;
use constriction_words::{BitArray, WordOf};
use std::alloc::Global;

/// Encodes a row of symbols onto each coder, from the last to the first, with one table of weights for all symbols.
///
/// Calls [`encode_reverse`] with the symbols and [`Weights`], and returns its result.
///
/// # Errors
///
/// The call returns the errors of [`encode_reverse`] except `WrongInterval`.
///
/// # Examples
///
/// ```
/// let (mut heads, mut words, mut lens) = ([0u64; 2], [0u32; 8], [0; 2]); // two coders, with rows of four words
/// let (weights, symbols) = ([8388608u32, 8388608], [1usize, 0, 0, 1]);
/// // Ok(()):
/// encode_reverse_by_weights::<_, _, u32, _, 24>(alloc, &mut heads, &mut words, &mut lens, &weights, &symbols)
/// ```
#[inline]
pub fn encode_reverse_by_weights<
    Word: WordOf<State>,
    State: BitArray,
    P: WordOf<Word>,
    S: Symbol,
    const PRECISION: usize,
>(
    alloc: Global,
    heads: &mut [State],
    words: &mut [Word],
    lens: &mut [usize],
    weights: &[P],
    symbols: &[S],
) -> Result<(), Refusal>
    requires sizes { IsSizes Word.BITS State.BITS }
    requires precision { (1 ≤ PRECISION) × (PRECISION ≤ P.BITS) }
    ensures call { LanesEncodeListBy Word.Natural State.Natural PRECISION (length symbols.now)
        (by_weights (map P.number weights.now) (S.numbers symbols.now)) heads.old words.old lens.old
        heads.new words.new lens.new result }
{
    let models = Weights { weights };
    let items = Symbols { models, symbols };
    encode_reverse::<_, _, P, _, PRECISION>(alloc, heads, words, lens, &items)
}
