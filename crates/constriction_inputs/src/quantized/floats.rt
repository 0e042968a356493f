//! Writes weights or counts in proportion to probabilities that are floats into a caller's buffer.
//!
//! Each float is given by its bits (IEEE 754 binary64). The calls compute in integers, so every machine writes the
//! same numbers.

ghost use Rattle.std.specs.Prelude.{◌≡◌, ◌↔◌, ◌*◌, ◌<◌, ◌≤◌, ◌/◌, length, map, IsTrue};
ghost use Rattle.constriction_inputs.specs.Floats.{AreFloatRows, IsFloatRow, counts_of_rows};
ghost use Rattle.constriction_inputs.specs.Floats.{WritesCountsOfFloats, WritesWeightsOfFloats};
ghost use Rattle.constriction_models.specs.Floats.{quick_counts};

use crate::quantized::counts::put_weights_of_counts;
use crate::refusal::Refusal;
use constriction_models::floats::{
    FloatsError, counts_of_floats, find_greatest_float, put_quick_counts,
};
use constriction_words::{BitArray, WordOf};
use std::alloc::Global;

/// Writes a weight for each float into `weights`. The weights add up to `2 ^ PRECISION`.
///
/// The weights are in proportion to the floats, apart from rounding, and each weight is at least 1. They are the
/// weights of the counts that [`counts_of_floats`] returns.
///
/// # Errors
///
/// The call checks for errors in this order. After an error, `weights` is unchanged.
///
/// - `WrongLength`: `floats` and `weights` differ in length.
/// - `WrongWeights`: a float is negative, infinite or NaN, or none is above 0, or there are more than `2 ^ PRECISION`.
/// - `NoMemory`: there is no memory.
pub fn put_weights_of_floats<P: WordOf<u32>, const PRECISION: usize>(
    alloc: Global,
    floats: &[u64],
    weights: &mut [P],
) -> Result<(), Refusal>
    requires { (PRECISION < P.BITS) × (PRECISION ≤ 31) }
    ensures call { WritesWeightsOfFloats PRECISION floats.now (map P.number weights.old)
        (map P.number weights.new) result }
{
    if weights.len() != floats.len() {
        return Err(Refusal::WrongLength);
    }
    if floats.len() > 1usize << PRECISION {
        return Err(Refusal::WrongWeights);
    }
    match counts_of_floats(alloc, floats) {
        Ok(counts) => put_weights_of_counts::<P, PRECISION>(alloc, &counts, weights),
        Err(FloatsError::Memory) => Err(Refusal::NoMemory),
        Err(FloatsError::Empty) => Err(Refusal::WrongWeights),
        Err(FloatsError::Invalid) => Err(Refusal::WrongWeights),
    }
}

/// Writes a count for each float into `counts`. `floats` has rows of `width` floats, one after another.
///
/// The counts of each row are in proportion to its floats, apart from rounding. They are the counts that
/// [`put_quick_counts`] writes, and make a [`CategoricalCounts`](constriction_models::categorical::CategoricalCounts).
/// The call needs no memory.
///
/// # Errors
///
/// The call checks for errors in this order. After an error, `counts` is unchanged.
///
/// - `WrongLength`: `floats` and `counts` differ in length, or the number of floats isn't a multiple of `width`.
/// - `WrongWeights`: a row has a float that is negative, infinite or NaN, or no float above 0, or `2 ^ PRECISION` or
///   more floats.
pub fn put_counts_of_floats<const PRECISION: usize>(
    floats: &[u64],
    width: usize,
    counts: &mut [u32],
) -> Result<(), Refusal>
    requires { PRECISION ≤ 31 }
    ensures call { WritesCountsOfFloats PRECISION width floats.now counts.old counts.new result }
{
    let count = rows_in(floats.len(), width);
    if counts.len() != floats.len() || floats.len() != width * count {
        return Err(Refusal::WrongLength);
    }
    if !are_rows::<PRECISION>(floats, width, count) {
        return Err(Refusal::WrongWeights);
    }
    put_rows::<PRECISION>(floats, width, count, counts);
    Ok(())
}

/// Returns `number / width`, rounded down, or 0 if `width` is 0.
fn rows_in(number: usize, width: usize) -> usize
    ensures rows { result ≡ number / width }
    ensures within { width * result ≤ number }
{
    if width == 0 { 0 } else { number / width }
}

/// Returns whether each of `count` rows of `width` floats has counts.
///
/// `floats` has the rows one after another. The caller proves that `floats` has `count` rows.
fn are_rows<const PRECISION: usize>(floats: &[u64], width: usize, count: usize) -> bool
    requires precision { PRECISION ≤ 31 }
    requires counted { length floats.now ≡ width * count }
    ensures { IsTrue result ↔ AreFloatRows PRECISION width count floats.now }
{
    let mut start = 0;
    for _done in 0..count {
        let end = start + width;
        if !is_row::<PRECISION>(&floats[start..end]) {
            return false;
        }
        start = end;
    }
    true
}

/// Returns whether a row of floats has counts.
fn is_row<const PRECISION: usize>(row: &[u64]) -> bool
    requires { PRECISION ≤ 31 }
    ensures { IsTrue result ↔ IsFloatRow PRECISION row.now }
{
    if row.len() >= 1usize << PRECISION {
        return false;
    }
    find_greatest_float(row).is_ok()
}

/// Writes the counts of `count` rows of `width` floats into `counts`, one row after another.
///
/// The caller proves that `floats` has `count` rows, that each row has counts, and that `counts` has the same length.
fn put_rows<const PRECISION: usize>(floats: &[u64], width: usize, count: usize, counts: &mut [u32])
    requires counted { length floats.now ≡ width * count }
    requires room { length counts.now ≡ length floats.now }
    requires rows { AreFloatRows PRECISION width count floats.now }
    ensures { counts.new ≡ counts_of_rows width count floats.now }
{
    let mut start = 0;
    for _done in 0..count {
        let end = start + width;
        put_row::<PRECISION>(&floats[start..end], &mut counts[start..end]);
        start = end;
    }
}

/// Writes the counts of a row. The caller proves that the row has counts, and that both lists have the same length.
fn put_row<const PRECISION: usize>(row: &[u64], counts: &mut [u32])
    requires fit { IsFloatRow PRECISION row.now }
    requires room { length row.now ≡ length counts.now }
    ensures { counts.new ≡ quick_counts row.now }
{
    put_quick_counts(row, counts).unwrap()
}
