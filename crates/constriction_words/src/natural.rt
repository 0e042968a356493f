//! `Natural`: natural numbers of a fixed number of bits, with comparisons, sums, differences and products.
//!
//! These methods are a trait of their own because proofs about calls at concrete word types are several times as long
//! with a single trait of all methods of words.

ghost use Rattle.std.specs.Prelude.{◌≡◌, ◌↔◌, ◌+◌, ◌-◌, ◌*◌, ◌%◌, ◌^◌, ◌<◌, ◌≤◌, ℕ, IsTrue};

/// A type whose values are the natural numbers below `2 ^ BITS`. Each [`BitArray`](crate::BitArray) is one.
///
/// Contracts describe a value by its number, `number`, and a method's result by the numbers of its arguments. A result
/// wraps only if the method's name says so. By `number_law`, `number value < 2 ^ BITS` holds for every value. Generic
/// code may rely on this law, and its callers don't have to prove it.
///
/// Some methods have a condition, for example that a sum fits the type. The caller proves the condition. The compiler
/// inlines each method as one or a few machine instructions.
///
/// An implementor proves the contract of each method and two laws:
///
/// - The number of a value is below `2 ^ BITS`.
/// - `BITS` is at least 8 and at most 128.
///
/// # Examples
///
/// ```
/// 200u8.plus(55) // 255
/// 200u8.wrapping_plus(100) // 44, as the sum is 256 + 44
/// ```
pub trait Natural: Copy + Drop {
    // The number of bits of the type, as a natural number for contracts.
    ghost BITS: { ℕ };

    /// The number of bits of the type, from 8 to 128.
    const BITS: u32;

    // The number that a word stands for.
    ghost number: { Self → ℕ };

    /// Returns the number 0.
    fn nothing() -> Self
        ensures { number result ≡ 0 };

    /// Returns the number 1.
    fn unit() -> Self
        ensures { number result ≡ 1 };

    /// Returns the greatest number of the type, `2 ^ BITS - 1`.
    fn greatest() -> Self
        ensures { number result + 1 ≡ 2 ^ BITS };

    /// Returns whether `self` is 0.
    fn is_nothing(self) -> bool
        ensures { IsTrue result ↔ (number self ≡ 0) };

    /// Returns whether `self` is below `other`.
    fn is_below(self, other: Self) -> bool
        ensures { IsTrue result ↔ (number self < number other) };

    /// Returns the sum of `self` and `other`. The caller proves that the sum fits the type.
    fn plus(self, other: Self) -> Self
        requires { number self + number other < 2 ^ BITS }
        ensures { number result ≡ number self + number other };

    /// Returns `self` minus `other`. The caller proves that `other` is not greater than `self`.
    fn minus(self, other: Self) -> Self
        requires { number other ≤ number self }
        ensures { number result ≡ number self - number other };

    /// Returns the product of `self` and `other`. The caller proves that the product fits the type.
    fn times(self, other: Self) -> Self
        requires { number self * number other < 2 ^ BITS }
        ensures { number result ≡ number self * number other };

    /// Returns the sum of `self` and `other`, modulo `2 ^ BITS`.
    fn wrapping_plus(self, other: Self) -> Self
        ensures { number result ≡ (number self + number other) % 2 ^ BITS };

    /// Returns `self` minus `other`, modulo `2 ^ BITS`.
    ///
    /// If `other` is greater than `self`, the result is `self + 2 ^ BITS - other`.
    fn wrapping_minus(self, other: Self) -> Self
        ensures value { number result ≡ (number self + 2 ^ BITS - number other) % 2 ^ BITS }
        ensures back { (number result + number other) % 2 ^ BITS ≡ number self };

    /// Returns `self` as a `usize`. The caller proves that `self` is below `2 ^ 64`.
    fn to_index(self) -> usize
        requires { number self < 2 ^ 64 }
        ensures { result ≡ number self };

    // The number of a word is below `2 ^ BITS`.
    ghost number_law: { (x : Self) → number x < 2 ^ BITS };

    // A word has at least 8 and at most 128 bits.
    ghost bits_law: { (8 ≤ BITS) × (BITS ≤ 128) };
}
