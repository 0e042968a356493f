//! Writes weights in proportion to counts into a caller's buffer.

ghost use Rattle.std.specs.Prelude.{◌≡◌, ◌<◌, ◌≤◌, ◌^◌, ℕ, length, map, slice_index};
ghost use Rattle.constriction_inputs.specs.QuantizedCalls.{WritesWeightsOfCounts};

use crate::refusal::Refusal;
use constriction_models::counts::{CountsError, weights_of_counts};
use constriction_words::{BitArray, WordOf};
use std::alloc::Global;

/// Writes a weight for each count into `weights`. The weights add up to `2 ^ PRECISION`.
///
/// The weights are in proportion to the counts, apart from rounding. Each count above 0 gets a weight of at least 1,
/// and a count of 0 gets the weight 0.
///
/// # Errors
///
/// The call checks for errors in this order. After an error, `weights` is unchanged.
///
/// - `WrongLength`: `counts` and `weights` differ in length.
/// - `WrongWeights`: all counts are 0, or more than `2 ^ PRECISION` counts are above 0.
/// - `NoMemory`: there is no memory.
pub fn put_weights_of_counts<P: WordOf<u32>, const PRECISION: usize>(
    alloc: Global,
    counts: &[u64],
    weights: &mut [P],
) -> Result<(), Refusal>
    requires { (PRECISION < P.BITS) × (PRECISION ≤ 31) }
    ensures call { WritesWeightsOfCounts PRECISION counts.now (map P.number weights.old)
        (map P.number weights.new) result }
{
    if weights.len() != counts.len() {
        return Err(Refusal::WrongLength);
    }
    match weights_of_counts(alloc, counts, PRECISION as u32) {
        Ok(made) => {
            put(&made, weights);
            Ok(())
        }
        Err(CountsError::Empty) => Err(Refusal::WrongWeights),
        Err(CountsError::TooMany) => Err(Refusal::WrongWeights),
        Err(CountsError::Memory) => Err(Refusal::NoMemory),
    }
}

/// Copies the numbers of `made` into `weights`.
///
/// The caller proves that both lists have the same length, and that each number fits `P`.
fn put<P: WordOf<u32>>(made: &[u32], weights: &mut [P])
    requires counted { length made.now ≡ length weights.now }
    requires fit { (k : ℕ) → k < length made.now → slice_index made.now k < 2 ^ P.BITS }
    ensures { map P.number weights.new ≡ made.now }
{
    for i in 0..made.len() {
        weights[i] = P::narrow(made[i]);
    }
}
