//! Symbols' intervals under a family of distributions, weights from counts or floats, and counts from floats, at a
//! precision of 24 bits.
//!
//! The interval starts, the interval lengths and the weights are 32-bit words.

ghost use Rattle.std.specs.Prelude.{map};
ghost use Rattle.constriction_c.specs.Codes.{answer_by_code};
ghost use Rattle.constriction_c.specs.U32.{WritesIntervalsU32};
ghost use Rattle.constriction_c.specs.Words.{lowest};
ghost use Rattle.constriction_inputs.specs.Floats.{WritesCountsOfFloats, WritesWeightsOfFloats};
ghost use Rattle.constriction_inputs.specs.QuantizedCalls.{WritesWeightsOfCounts};

use crate::codes::code_without_space;
use constriction_inputs::models::Families;
use constriction_inputs::quantized::counts::put_weights_of_counts;
use constriction_inputs::quantized::floats::{put_counts_of_floats, put_weights_of_floats};
use constriction_inputs::quantized::intervals::intervals_of_quantized;
use std::alloc::Global;

/// Writes the interval of each symbol under the family's distribution with that symbol's location and scale.
///
/// The interval of `symbols[i]` begins at quantile `lefts[i]` and has length `ps[i]`.
///
/// Calls [`intervals_of_quantized`] and returns the code of its result ([`code_of`](crate::codes::code_of)).
#[unsafe(no_mangle)]
pub extern "C" fn constriction_quantized_intervals_u32(
    family: u32,
    min: i32,
    max: i32,
    locations: &[i64],
    scales: &[u32],
    symbols: &[usize],
    lefts: &mut [u32],
    ps: &mut [u32],
) -> u32
    ensures { WritesIntervalsU32 result family min max locations.now scales.now symbols.now lefts.old ps.old lefts.new
        ps.new }
{
    let models = Families::new(family, min, max, locations, scales);
    code_without_space(intervals_of_quantized::<u32, 24>(&models, symbols, lefts, ps))
}

/// Writes a weight for each count into `weights`. The weights add up to `2^24`.
///
/// The weights are in proportion to the counts, apart from rounding. Each count above 0 gets a weight of at least 1,
/// and a count of 0 gets the weight 0.
///
/// Calls [`put_weights_of_counts`] and returns the code of its result ([`code_of`](crate::codes::code_of)).
#[unsafe(no_mangle)]
pub extern "C" fn constriction_weights_of_counts_u32(
    alloc: Global,
    counts: &[u64],
    weights: &mut [u32],
) -> u32
    ensures { WritesWeightsOfCounts 24 counts.now (map (lowest 32) weights.old) (map (lowest 32) weights.new)
        (answer_by_code result 0) }
{
    code_without_space(put_weights_of_counts::<u32, 24>(alloc, counts, weights))
}

/// Writes a weight for each float into `weights`. The weights add up to `2^24`.
///
/// Each float is given by its bits (IEEE 754 binary64), so C passes its `double`s as they are. The weights are in
/// proportion to the floats, apart from rounding, and each weight is at least 1.
///
/// Calls [`put_weights_of_floats`] and returns the code of its result ([`code_of`](crate::codes::code_of)).
#[unsafe(no_mangle)]
pub extern "C" fn constriction_weights_of_floats_u32(
    alloc: Global,
    floats: &[u64],
    weights: &mut [u32],
) -> u32
    ensures { WritesWeightsOfFloats 24 floats.now (map (lowest 32) weights.old) (map (lowest 32) weights.new)
        (answer_by_code result 0) }
{
    code_without_space(put_weights_of_floats::<u32, 24>(alloc, floats, weights))
}

/// Writes a count for each float into `counts`. `floats` has rows of `width` floats, one after another.
///
/// Each float is given by its bits (IEEE 754 binary64), so C passes its `double`s as they are. The counts of each row
/// are in proportion to its floats, apart from rounding.
///
/// Calls [`put_counts_of_floats`] and returns the code of its result ([`code_of`](crate::codes::code_of)).
#[unsafe(no_mangle)]
pub extern "C" fn constriction_counts_of_floats_u32(
    floats: &[u64],
    width: usize,
    counts: &mut [u32],
) -> u32
    ensures { WritesCountsOfFloats 24 width floats.now counts.old counts.new (answer_by_code result 0) }
{
    code_without_space(put_counts_of_floats::<24>(floats, width, counts))
}
