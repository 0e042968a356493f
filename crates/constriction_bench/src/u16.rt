// Written by tools/sizes from u32.rt.
//! Benchmark cases of the stack coder with words of 16 bits, states of 32 bits and a precision of 12 bits.

use crate::flat::Flat;
use crate::lookup::LookupTable;
use crate::runs::{copy_out, decode_in, encode_out, reload_out};
use constriction_base::weights::WeightTable;
use std::alloc::Global;

/// Encodes symbols from the last to the first, with the table of `weights`.
///
/// Copies the words to `out`, as many as fit. Returns the total number of words, or 0 after a failure (see [`crate`]).
#[unsafe(no_mangle)]
pub extern "C" fn constriction_bench_ans_encode_u16u32p12_table(
    alloc: Global,
    weights: &[u16],
    symbols: &[usize],
    out: &mut [u16],
) -> usize {
    let Ok(table) = WeightTable::<u16, 12>::new(alloc, weights) else {
        return 0;
    };
    encode_out::<u16, u32, _, 12>(alloc, symbols, table, out)
}

/// Fills `symbols` with symbols decoded from `words`, with the table of `weights`.
///
/// Returns `false` after a failure (see [`crate`]).
#[unsafe(no_mangle)]
pub extern "C" fn constriction_bench_ans_decode_u16u32p12_table(
    alloc: Global,
    weights: &[u16],
    words: &[u16],
    symbols: &mut [usize],
) -> bool {
    let Ok(table) = WeightTable::<u16, 12>::new(alloc, weights) else {
        return false;
    };
    decode_in::<u16, u32, _, 12>(alloc, words, symbols, table)
}

/// Encodes symbols below `2^bits` from the last to the first, with equal weights.
///
/// Copies the words to `out`, as many as fit. Returns the total number of words, or 0 after a failure (see [`crate`]).
#[unsafe(no_mangle)]
pub extern "C" fn constriction_bench_ans_encode_u16u32p12_flat(
    alloc: Global,
    bits: u32,
    symbols: &[usize],
    out: &mut [u16],
) -> usize {
    let Some(flat) = Flat::<u16, 12>::new(bits) else {
        return 0;
    };
    encode_out::<u16, u32, _, 12>(alloc, symbols, flat, out)
}

/// Fills `symbols` with symbols below `2^bits`, decoded from `words` with equal weights.
///
/// Returns `false` after a failure (see [`crate`]).
#[unsafe(no_mangle)]
pub extern "C" fn constriction_bench_ans_decode_u16u32p12_flat(
    alloc: Global,
    bits: u32,
    words: &[u16],
    symbols: &mut [usize],
) -> bool {
    let Some(flat) = Flat::<u16, 12>::new(bits) else {
        return false;
    };
    decode_in::<u16, u32, _, 12>(alloc, words, symbols, flat)
}

/// Fills `symbols` with symbols decoded from `words`, with the [`LookupTable`] of `weights`.
///
/// Returns `false` after a failure (see [`crate`]).
#[unsafe(no_mangle)]
pub extern "C" fn constriction_bench_ans_decode_u16u32p12_lookup(
    alloc: Global,
    weights: &[u16],
    words: &[u16],
    symbols: &mut [usize],
) -> bool {
    let Some(table) = LookupTable::new(alloc, weights) else {
        return false;
    };
    decode_in::<u16, u32, _, 12>(alloc, words, symbols, table)
}

/// Imports `words` into a coder, and exports them again.
///
/// Copies the words to `out`, as many as fit. Returns the total number of words, or 0 after a failure (see [`crate`]).
#[unsafe(no_mangle)]
pub extern "C" fn constriction_bench_ans_reload_u16u32p12(
    alloc: Global,
    words: &[u16],
    out: &mut [u16],
) -> usize {
    reload_out::<u16, u32>(alloc, words, out)
}

/// Copies `words` to a new vector, and from there to `out`. The case `ans_reload` makes the same two copies.
///
/// `out` receives as many words as fit. Returns the total number of words, or 0 after a failure (see [`crate`]).
#[unsafe(no_mangle)]
pub extern "C" fn constriction_bench_copy_u16u32p12(
    alloc: Global,
    words: &[u16],
    out: &mut [u16],
) -> usize {
    match words.to_vec(alloc) {
        Ok(words) => copy_out(&words, out),
        Err(_) => 0,
    }
}
