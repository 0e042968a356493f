//! Encoding and decoding with one table of weights for all symbols, for all sizes and types of symbols.

ghost use Rattle.constriction_calls.specs.ChainCalls.{ChainDecodesListBy, ChainEncodesListBy, chain_buffers};
ghost use Rattle.constriction_chain.specs.Chain.{IsSized};
ghost use Rattle.constriction_chain.specs.Fits.{CoderFits};
ghost use Rattle.constriction_inputs.specs.Weights.{by_weights, narrow_by_weights};
ghost use Rattle.std.specs.Prelude.{◌≤◌, map};

use constriction_calls::chain::{ChainHeads, decode, encode_reverse};
use constriction_inputs::models::{NarrowWeights, Weights};
use constriction_inputs::refusal::Refusal;
use constriction_inputs::symbol::Symbol;
use constriction_inputs::symbols::Symbols;
use constriction_words::{BitArray, WordOf};
use std::alloc::Global;
use std::marker::PhantomData;

/// Encodes symbols from the last to the first, with one table of weights for all symbols.
///
/// Calls [`encode_reverse`] with the symbols and [`Weights`], and returns its result.
///
/// # Errors
///
/// The call returns the errors of [`encode_reverse`] except `WrongInterval`.
///
/// # Examples
///
/// ```
/// let mut heads = ChainHeads { remainders: 1u64 << 39, compressed: 1u32 };
/// let (mut words, mut count, mut rest) = ([0u32; 4], 0, 2);
/// let (weights, symbols) = ([8388608u32, 8388608], [1usize, 0]);
/// encode_reverse_by_weights::<_, _, u32, _, 24>(
///     alloc, &mut heads, &mut words, &mut count, &[7, 9], &mut rest, &weights, &symbols,
/// ) // Ok(())
/// ```
#[inline]
pub fn encode_reverse_by_weights<
    Word: WordOf<State>,
    State: BitArray,
    P: WordOf<Word>,
    S: Symbol,
    const PRECISION: usize,
>(
    alloc: Global,
    heads: &mut ChainHeads<Word, State>,
    compressed: &mut [Word],
    count: &mut usize,
    remainders: &[Word],
    rest: &mut usize,
    weights: &[P],
    symbols: &[S],
) -> Result<(), Refusal>
    requires sized { IsSized Word.BITS State.BITS PRECISION }
    requires within { PRECISION ≤ P.BITS }
    requires fits { CoderFits Word.row State.row }
    ensures call { ChainEncodesListBy Word.Natural State.Natural PRECISION
        (by_weights (map P.number weights.now) (S.numbers symbols.now))
        (chain_buffers heads.old compressed.old count.old remainders.now rest.old)
        (chain_buffers heads.new compressed.new count.new remainders.now rest.new) result }
{
    let models = Weights { weights };
    let items = Symbols { models, symbols };
    encode_reverse::<_, _, P, _, PRECISION>(
        alloc, heads, compressed, count, remainders, rest, &items,
    )
}

/// Decodes symbols into `symbols`, with one table of weights for all symbols.
///
/// Calls [`decode`] with [`Weights`], and returns its result.
///
/// # Errors
///
/// The call returns the errors of [`decode`] except `WrongInterval`.
///
/// # Examples
///
/// ```
/// let mut heads = ChainHeads { remainders: 1u64 << 40, compressed: 1u32 };
/// let (compressed, mut len, mut remainders, mut rest) = ([7u32, 9], 2, [0u32; 4], 0);
/// let (weights, mut symbols) = ([8388608u32, 8388608], [0usize; 2]);
/// decode_by_weights::<_, _, u32, 24>(
///     alloc, &mut heads, &compressed, &mut len, &mut remainders, &mut rest, &weights, &mut symbols,
/// ) // Ok(())
/// ```
#[inline]
pub fn decode_by_weights<
    Word: WordOf<State>,
    State: BitArray,
    P: WordOf<Word>,
    const PRECISION: usize,
>(
    alloc: Global,
    heads: &mut ChainHeads<Word, State>,
    compressed: &[Word],
    len: &mut usize,
    remainders: &mut [Word],
    rest: &mut usize,
    weights: &[P],
    symbols: &mut [usize],
) -> Result<(), Refusal>
    requires sized { IsSized Word.BITS State.BITS PRECISION }
    requires within { PRECISION ≤ P.BITS }
    requires fits { CoderFits Word.row State.row }
    ensures call { ChainDecodesListBy Word.Natural State.Natural PRECISION (by_weights (map P.number weights.now))
        (chain_buffers heads.old compressed.now len.old remainders.old rest.old)
        (chain_buffers heads.new compressed.now len.new remainders.new rest.new) symbols.old symbols.new result }
{
    let models = Weights { weights };
    decode::<_, _, P, _, PRECISION>(
        alloc, heads, compressed, len, remainders, rest, &models, symbols,
    )
}

/// Decodes symbols of a type such as `u8` into `symbols`, with one table of weights for all symbols.
///
/// Calls [`decode`] with [`NarrowWeights`], and returns its result.
///
/// # Errors
///
/// The call returns the errors of [`decode`] except `WrongInterval`.
///
/// # Examples
///
/// ```
/// let mut heads = ChainHeads { remainders: 1u64 << 40, compressed: 1u32 };
/// let (compressed, mut len, mut remainders, mut rest) = ([7u32, 9], 2, [0u32; 4], 0);
/// let (weights, mut symbols) = ([8388608u32, 8388608], [0u8; 2]);
/// decode_narrow::<_, _, u32, _, 24>(
///     alloc, &mut heads, &compressed, &mut len, &mut remainders, &mut rest, &weights, &mut symbols,
/// ) // Ok(())
/// ```
#[inline]
pub fn decode_narrow<
    Word: WordOf<State>,
    State: BitArray,
    P: WordOf<Word>,
    S: Symbol,
    const PRECISION: usize,
>(
    alloc: Global,
    heads: &mut ChainHeads<Word, State>,
    compressed: &[Word],
    len: &mut usize,
    remainders: &mut [Word],
    rest: &mut usize,
    weights: &[P],
    symbols: &mut [S],
) -> Result<(), Refusal>
    requires sized { IsSized Word.BITS State.BITS PRECISION }
    requires within { PRECISION ≤ P.BITS }
    requires fits { CoderFits Word.row State.row }
    ensures call { ChainDecodesListBy Word.Natural State.Natural PRECISION
        (narrow_by_weights S.many (map P.number weights.now))
        (chain_buffers heads.old compressed.now len.old remainders.old rest.old)
        (chain_buffers heads.new compressed.now len.new remainders.new rest.new)
        (S.numbers symbols.old) (S.numbers symbols.new) result }
{
    let models = NarrowWeights {
        weights,
        symbols: PhantomData,
    };
    decode::<_, _, P, _, PRECISION>(
        alloc, heads, compressed, len, remainders, rest, &models, symbols,
    )
}
