// Written by tools/sizes from u32.rt.
//! Benchmark cases of the range coder with words of 16 bits, states of 32 bits and a precision of 12 bits.

use crate::flat::Flat;
use crate::lookup::LookupTable;
use crate::ranges::{decode_range_in, encode_range_out};
use constriction_base::weights::WeightTable;
use std::alloc::Global;

/// Encodes symbols in order, with the table of `weights`.
///
/// Copies the words to `out`, as many as fit. Returns the total number of words, or 0 after a failure (see [`crate`]).
#[unsafe(no_mangle)]
pub extern "C" fn constriction_bench_range_encode_u16u32p12_table(
    alloc: Global,
    weights: &[u16],
    symbols: &[usize],
    out: &mut [u16],
) -> usize {
    let Ok(table) = WeightTable::<u16, 12>::new(alloc, weights) else {
        return 0;
    };
    encode_range_out::<u16, u32, _, 12>(alloc, symbols, &table, out)
}

/// Fills `symbols` with symbols decoded from `words`, with the table of `weights`.
///
/// Returns `false` after a failure (see [`crate`]).
#[unsafe(no_mangle)]
pub extern "C" fn constriction_bench_range_decode_u16u32p12_table(
    alloc: Global,
    weights: &[u16],
    words: &[u16],
    symbols: &mut [usize],
) -> bool {
    let Ok(table) = WeightTable::<u16, 12>::new(alloc, weights) else {
        return false;
    };
    decode_range_in::<u16, u32, _, 12>(alloc, words, symbols, &table)
}

/// Encodes symbols below `2^bits` in order, with equal weights.
///
/// Copies the words to `out`, as many as fit. Returns the total number of words, or 0 after a failure (see [`crate`]).
#[unsafe(no_mangle)]
pub extern "C" fn constriction_bench_range_encode_u16u32p12_flat(
    alloc: Global,
    bits: u32,
    symbols: &[usize],
    out: &mut [u16],
) -> usize {
    let Some(flat) = Flat::<u16, 12>::new(bits) else {
        return 0;
    };
    encode_range_out::<u16, u32, _, 12>(alloc, symbols, &flat, out)
}

/// Fills `symbols` with symbols below `2^bits`, decoded from `words` with equal weights.
///
/// Returns `false` after a failure (see [`crate`]).
#[unsafe(no_mangle)]
pub extern "C" fn constriction_bench_range_decode_u16u32p12_flat(
    alloc: Global,
    bits: u32,
    words: &[u16],
    symbols: &mut [usize],
) -> bool {
    let Some(flat) = Flat::<u16, 12>::new(bits) else {
        return false;
    };
    decode_range_in::<u16, u32, _, 12>(alloc, words, symbols, &flat)
}

/// Fills `symbols` with symbols decoded from `words`, with the [`LookupTable`] of `weights`.
///
/// Returns `false` after a failure (see [`crate`]).
#[unsafe(no_mangle)]
pub extern "C" fn constriction_bench_range_decode_u16u32p12_lookup(
    alloc: Global,
    weights: &[u16],
    words: &[u16],
    symbols: &mut [usize],
) -> bool {
    let Some(table) = LookupTable::new(alloc, weights) else {
        return false;
    };
    decode_range_in::<u16, u32, _, 12>(alloc, words, symbols, &table)
}
