//! `interval`: converts an interval to the type of a model's probabilities.

ghost use Rattle.std.specs.Prelude.{◌≡◌, ◌-◌, ◌^◌, ◌<◌};

use constriction_words::{BitArray, WordOf};

/// Returns the start and the length of the interval `[left, end)`, as values of type `Probability`.
///
/// The caller proves that the interval isn't empty, and that its start and its length fit `Probability`.
#[inline(always)]
pub fn interval<Probability: WordOf<u32>>(
    left: u64,
    end: u64,
) -> (Probability, <Probability as BitArray>::NonZero)
    requires some { left < end }
    requires fits { left < 2 ^ Probability.BITS }
    requires long { end - left < 2 ^ Probability.BITS }
    ensures lower { Probability.number result.0 ≡ left }
    ensures long { Probability.nonzero_number result.1 ≡ end - left }
{
    (
        Probability::narrow(left as u32),
        Probability::narrow((end - left) as u32)
            .to_nonzero()
            .unwrap(),
    )
}
