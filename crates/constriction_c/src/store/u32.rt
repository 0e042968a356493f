//! Stores with 32-bit words, 64-bit states and a precision of 24 bits.

ghost use Rattle.constriction_c.specs.U32.{StoreBuildsU32, StoreDecodesU32};

use crate::codes::{code_of, code_without_space};
use constriction_calls::store::{build, chunk};
use std::alloc::Global;

/// Builds a store of chunks, and writes its words and its index. The index is `positions`, `lowers` and `ranges`.
///
/// Calls [`build`] and returns the code of its result ([`code_of`]).
#[unsafe(no_mangle)]
pub extern "C" fn constriction_store_build_u32(
    alloc: Global,
    words: &mut [u32],
    len: &mut usize,
    positions: &mut [usize],
    lowers: &mut [u64],
    ranges: &mut [u64],
    weights: &[u32],
    symbols: &[usize],
    lengths: &[usize],
    needed: &mut usize,
) -> u32
    ensures { StoreBuildsU32 result needed.old needed.new weights.now symbols.now lengths.now words.old len.old
        positions.old lowers.old ranges.old words.new len.new positions.new lowers.new ranges.new }
{
    code_of(
        build::<_, _, _, 24>(
            alloc, words, len, positions, lowers, ranges, weights, symbols, lengths,
        ),
        needed,
    )
}

/// Decodes one chunk of a store into `symbols`.
///
/// `pos`, `lower` and `range` are the chunk's numbers in the lists `positions`, `lowers` and `ranges`, as
/// `constriction_store_build_u32` writes them.
///
/// Calls [`chunk`] and returns the code of its result ([`code_of`]).
#[unsafe(no_mangle)]
pub extern "C" fn constriction_store_chunk_u32(
    alloc: Global,
    words: &[u32],
    pos: usize,
    lower: u64,
    range: u64,
    weights: &[u32],
    symbols: &mut [usize],
) -> u32
    ensures { StoreDecodesU32 result weights.now words.now pos lower range symbols.old symbols.new }
{
    code_without_space(chunk::<u32, _, _, 24>(alloc, words, pos, lower, range, weights, symbols))
}
