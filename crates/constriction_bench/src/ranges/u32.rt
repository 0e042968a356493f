//! Benchmark cases of the range coder with words of 32 bits, states of 64 bits and a precision of 24 bits.

use crate::bucket::BucketTable;
use crate::flat::Flat;
use crate::ranges::{decode_range_in, encode_range_out};
use constriction_base::weights::WeightTable;
use std::alloc::Global;

/// Encodes symbols in order, with the table of `weights`.
///
/// Copies the words to `out`, as many as fit. Returns the total number of words, or 0 after a failure (see [`crate`]).
#[unsafe(no_mangle)]
pub extern "C" fn constriction_bench_range_encode_u32u64p24_table(
    alloc: Global,
    weights: &[u32],
    symbols: &[usize],
    out: &mut [u32],
) -> usize {
    let Ok(table) = WeightTable::<u32, 24>::new(alloc, weights) else {
        return 0;
    };
    encode_range_out::<u32, u64, _, 24>(alloc, symbols, &table, out)
}

/// Fills `symbols` with symbols decoded from `words`, with the table of `weights`.
///
/// Returns `false` after a failure (see [`crate`]).
#[unsafe(no_mangle)]
pub extern "C" fn constriction_bench_range_decode_u32u64p24_table(
    alloc: Global,
    weights: &[u32],
    words: &[u32],
    symbols: &mut [usize],
) -> bool {
    let Ok(table) = WeightTable::<u32, 24>::new(alloc, weights) else {
        return false;
    };
    decode_range_in::<u32, u64, _, 24>(alloc, words, symbols, &table)
}

/// Encodes symbols below `2^bits` in order, with equal weights.
///
/// Copies the words to `out`, as many as fit. Returns the total number of words, or 0 after a failure (see [`crate`]).
#[unsafe(no_mangle)]
pub extern "C" fn constriction_bench_range_encode_u32u64p24_flat(
    alloc: Global,
    bits: u32,
    symbols: &[usize],
    out: &mut [u32],
) -> usize {
    let Some(flat) = Flat::<u32, 24>::new(bits) else {
        return 0;
    };
    encode_range_out::<u32, u64, _, 24>(alloc, symbols, &flat, out)
}

/// Fills `symbols` with symbols below `2^bits`, decoded from `words` with equal weights.
///
/// Returns `false` after a failure (see [`crate`]).
#[unsafe(no_mangle)]
pub extern "C" fn constriction_bench_range_decode_u32u64p24_flat(
    alloc: Global,
    bits: u32,
    words: &[u32],
    symbols: &mut [usize],
) -> bool {
    let Some(flat) = Flat::<u32, 24>::new(bits) else {
        return false;
    };
    decode_range_in::<u32, u64, _, 24>(alloc, words, symbols, &flat)
}

/// Fills `symbols` with symbols decoded from `words`, with the [`BucketTable`] of `weights`.
///
/// Returns `false` after a failure (see [`crate`]).
#[unsafe(no_mangle)]
pub extern "C" fn constriction_bench_range_decode_u32u64p24_bucket(
    alloc: Global,
    weights: &[u32],
    words: &[u32],
    symbols: &mut [usize],
) -> bool {
    let Some(table) = BucketTable::new(alloc, weights) else {
        return false;
    };
    decode_range_in::<u32, u64, _, 24>(alloc, words, symbols, &table)
}
