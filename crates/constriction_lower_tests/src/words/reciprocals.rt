//! A test that compares quotients by a reciprocal with quotients of a division.

ghost use Rattle.std.specs.Prelude.{◌<◌};

use constriction_words::{BitArray, Reciprocal};

/// Returns whether the reciprocal's quotient of `number` equals `number / divisor`.
pub fn divides(reciprocal: Reciprocal, divisor: u64, number: u64) -> bool
    requires { 0 < divisor }
{
    reciprocal.quotient(number) == number / divisor
}

/// Checks the reciprocals of six divisors, from the least to the greatest.
#[test]
fn reciprocals_divide(rt: HostRuntime) {
    for divisor in [1u64, 2, 3, 10, 1 << 63, u64::MAX] {
        for number in [0u64, 1, 9, u64::MAX - 1, u64::MAX] {
            assert!(rt; divides(Reciprocal::new(divisor), divisor, number));
        }
    }
}
