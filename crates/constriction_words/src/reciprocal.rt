//! `Reciprocal`: exact division by a fixed number, with a multiplication instead of a division instruction.
//!
//! A reciprocal of a divisor `p` is a multiplier, an addend and a shift. For each `n` below `2^64`, the quotient
//! `n / p`, rounded down, is `(n * multiplier + addend) >> (64 + shift)`.
//!
//! Let `2^k` be the greatest power of two that is at most `p`. Let `q` and `r` be the quotient and the remainder of
//! `2^(64+k) - 1` divided by `p`. The shift is `k`. If `r < 2^k`, multiplier and addend are both `q`. Otherwise the
//! multiplier is `q + 1` and the addend is 0. Multiplier and addend fit 64 bits: `q + 1` is `2^64` only if `p` is a
//! power of two, and then `r < 2^k`.
//!
//! Reciprocals of 64 bits work for every coder state of at most 64 bits. On x86-64, one instruction computes the
//! 128-bit product of two 64-bit numbers. So reciprocals of 32 bits would save no multiplication there.

ghost use Rattle.std.specs.Prelude.{◌≡◌, ◌+◌, ◌*◌, ◌/◌, ◌<◌, ℕ};

use crate::division::div_rem_wide;

/// The reciprocal of a divisor above 0, for exact quotients (rounded down) of numbers below `2^64`.
///
/// A reciprocal consists of a multiplier, an addend and a shift. Use a reciprocal to divide many numbers by the same
/// number, for example coder states by a symbol's weight. The caller computes the reciprocal once. Each quotient then
/// takes one 128-bit product, an addition and a shift. On most machines this is several times as fast as a division.
///
/// # Examples
///
/// ```
/// let ten = Reciprocal::new(10);
/// ten.quotient(1239) // 123
/// ```
#[derive(Clone, Copy)]
pub struct Reciprocal {
    multiplier: u64,
    /// Equals `multiplier` if the multiplier is `q` of the module's description, or 0 if the multiplier is `q + 1`.
    addend: u64,
    shift: u32,
    ghost shift_fits: { shift < 64 },
}

impl Reciprocal {
    ghost use Rattle.constriction_words.specs.Reciprocals.{IsReciprocalOf};

    /// Computes the reciprocal of `divisor`. The caller proves that `divisor` is above 0.
    ///
    /// The call has no loop. If `divisor` is below `2^32`, the call takes no 128-bit division.
    ///
    /// # Examples
    ///
    /// ```
    /// let third = Reciprocal::new(3);
    /// assert!(third.quotient(18446744073709551615) == 6148914691236517205);
    /// ```
    pub fn new(divisor: u64) -> Reciprocal
        requires { 0 < divisor }
        ensures { IsReciprocalOf result divisor }
    {
        let shift = 63 - divisor.leading_zeros();
        let power = 1u64 << shift;
        let below = ((power as u128) << 64) - 1;
        let (quotient, rest) = div_rem_wide(below, divisor);
        if rest < power {
            Reciprocal {
                multiplier: quotient,
                addend: quotient,
                shift,
            }
        } else {
            Reciprocal {
                multiplier: quotient + 1,
                addend: 0,
                shift,
            }
        }
    }

    /// Returns `number` divided by the reciprocal's divisor, rounded down.
    #[inline]
    pub fn quotient(self, number: u64) -> u64
        ensures { (divisor : ℕ) → IsReciprocalOf self divisor → result ≡ number / divisor }
    {
        let product = number as u128 * self.multiplier as u128 + self.addend as u128;
        ((product >> 64) as u64) >> self.shift
    }
}
