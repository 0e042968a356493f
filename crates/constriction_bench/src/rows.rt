//! A benchmark case of a stack coder with the library's lookup model, at a precision of 12 bits.
//!
//! Words have 16 bits, and states have 32 bits.

use crate::runs::decode_in;
use constriction_base::weights::WeightTable;
use constriction_models::lookup::ContiguousLookupDecoderModel;
use std::alloc::Global;

/// Fills `symbols` with symbols that a stack coder decodes from `words`.
///
/// Returns `false` after a failure (see [`crate`]).
///
/// The model is the library's lookup model of `weights`, [`ContiguousLookupDecoderModel`].
#[unsafe(no_mangle)]
pub extern "C" fn constriction_bench_ans_decode_u16u32p12_rows(
    alloc: Global,
    weights: &[u16],
    words: &[u16],
    symbols: &mut [usize],
) -> bool {
    let Ok(table) = WeightTable::<u16, 12>::new(alloc, weights) else {
        return false;
    };
    match ContiguousLookupDecoderModel::new(alloc, table) {
        Ok(rows) => decode_in::<u16, u32, _, 12>(alloc, words, symbols, rows),
        Err(_) => false,
    }
}
