//! `BitArray`: unsigned integers of a fixed number of bits, with exact arithmetic.
//!
//! Comparisons, sums, differences and products are methods of [`Natural`], which each `BitArray` implements. The impls
//! of both are written out, one file for each type, because the gate (continuous integration) refuses impls that a macro
//! of this repository writes. The impls call methods of `num_traits`, so the methods have other names.

ghost use Rattle.std.specs.Prelude.{◌≡◌, ◌*◌, ◌+◌, ◌/◌, ◌%◌, ◌^◌, ◌<◌, ◌≤◌, ℕ, MatchOption, reverse};
ghost use Rattle.constriction_words.specs.Bits.{bits_of};
ghost use Rattle.constriction_words.specs.Reciprocals.{IsReciprocalOf};

use crate::natural::Natural;
use crate::reciprocal::Reciprocal;

mod of_u128;
mod of_u16;
mod of_u32;
mod of_u64;
mod of_u8;
mod of_usize;

/// A word type: unsigned integers of `BITS` bits. `u8`, `u16`, `u32`, `u64`, `u128` and `usize` are word types.
///
/// A word stands for a natural number, and has the methods of [`Natural`]. Contracts describe a method's result by the
/// numbers of its arguments. A result loses bits only if the method's name says so.
///
/// Some methods have a condition, for example that a divisor is above 0. The caller proves the condition. The compiler
/// inlines each method as one or a few machine instructions, except two. [`BitArray::div_rem`] takes about twenty, and
/// [`BitArray::reversed_bits`] takes twelve to fifty, by the number of bits. Quotients and remainders of `u128` call a
/// function, because most machines have no instruction for them.
///
/// An implementor proves the contract of each method and one law: the number of a `NonZero` is above 0.
///
/// No method shares its name with a method of `num_traits`. Code that needs `BitArray` and a trait of `num_traits`
/// writes both bounds, as in `Word: BitArray + PrimInt`, and calls every method by its bare name.
///
/// # Examples
///
/// ```
/// 200u8.plus(55).bit_length() // 8, as the sum is 255
/// 200u8.low_bits(4) // 8, as 200 is 12 * 16 + 8
/// ```
pub trait BitArray: Natural {
    /// The type of the words that are above 0.
    type NonZero: Copy + Drop;

    // The number that a value of `NonZero` stands for.
    ghost nonzero_number: { Self.NonZero → ℕ };

    /// Returns `self` divided by `other`, rounded down. The caller proves that `other` is above 0.
    fn quotient(self, other: Self) -> Self
        requires { 0 < Self.number other }
        ensures { Self.number result ≡ Self.number self / Self.number other };

    /// Returns `self` divided by `other`, rounded down. An impl may use `reciprocal` to avoid the division.
    ///
    /// The caller proves that `reciprocal` is the reciprocal of `other`. The default method ignores `reciprocal` and
    /// divides. The impls of this crate, except the impl for `u128`, multiply and shift instead.
    fn quotient_by(self, other: Self, reciprocal: Reciprocal) -> Self
        requires { IsReciprocalOf reciprocal (Self.number other) }
        ensures { Self.number result ≡ Self.number self / Self.number other }
    {
        self.quotient(other)
    }

    /// Returns the remainder of `self` divided by `other`. The caller proves that `other` is above 0.
    fn remainder(self, other: Self) -> Self
        requires { 0 < Self.number other }
        ensures { Self.number result ≡ Self.number self % Self.number other };

    /// Returns the quotient, rounded down, and the remainder of `self` divided by `other`.
    ///
    /// The caller proves that `other` is above 0. If the caller knows `other` some time before `self`, this call is
    /// faster than [`BitArray::quotient`] for `u32`, `u64` and `usize`. For the latter two, `length` should be a bound
    /// of the quotient's length in bits. The results don't depend on it: a longer quotient only takes longer.
    fn div_rem(self, other: Self, length: u32) -> (Self, Self)
        requires { 0 < Self.number other }
        ensures quotient { Self.number result.0 ≡ Self.number self / Self.number other }
        ensures rest { Self.number result.1 ≡ Self.number self % Self.number other }
    {
        (self.quotient(other), self.remainder(other))
    }

    /// Returns `self` times `2 ^ by`.
    ///
    /// The caller proves that the product fits the type and that `by` is below `BITS`.
    fn shift_left(self, by: u32) -> Self
        requires within { by < Self.BITS }
        requires fits { Self.number self * 2 ^ by < 2 ^ Self.BITS }
        ensures { Self.number result ≡ Self.number self * 2 ^ by };

    /// Returns `self` divided by `2 ^ by`, rounded down. The caller proves that `by` is below `BITS`.
    fn shift_right(self, by: u32) -> Self
        requires { by < Self.BITS }
        ensures { Self.number result ≡ Self.number self / 2 ^ by };

    /// Returns the lowest `count` bits of `self`. The caller proves that `count` is below `BITS`.
    fn low_bits(self, count: u32) -> Self
        requires { count < Self.BITS }
        ensures { Self.number result ≡ Self.number self % 2 ^ count };

    /// Returns the word whose `BITS` bits are the bits of `self` in reverse order.
    fn reversed_bits(self) -> Self
        ensures { bits_of Self.BITS (Self.number result) ≡ reverse (bits_of Self.BITS (Self.number self)) };

    /// Returns the number of bits of `self`, not counting leading zero bits: 0 for 0, `BITS` for the greatest number.
    fn bit_length(self) -> u32
        ensures below { Self.number self < 2 ^ result }
        ensures least { 2 ^ result ≤ 2 * Self.number self + 1 }
        ensures within { result ≤ Self.BITS };

    /// Returns `self` as a `NonZero`, or `None` if `self` is 0.
    fn to_nonzero(self) -> Option<Self::NonZero>
        ensures { MatchOption result (Self.number self ≡ 0) (λ n. nonzero_number n ≡ Self.number self) };

    /// Returns `nonzero` as a word.
    fn from_nonzero(nonzero: Self::NonZero) -> Self
        ensures { Self.number result ≡ nonzero_number nonzero };

    // The number of a `NonZero` is above 0.
    ghost nonzero_law: { (n : Self.NonZero) → 0 < nonzero_number n };
}
