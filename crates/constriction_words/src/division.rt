//! Division by a number that the caller knows before the number to divide.
//!
//! A processor multiplies faster than it divides. While the caller still computes the number to divide, the processor
//! can already estimate the inverse of the divisor. The quotient then takes two multiplications and a comparison.
//!
//! A float estimates the inverse, and whole numbers check it. So the float decides only how long a call takes. If the
//! quotient by the estimate isn't exact, a call divides.

ghost use Rattle.std.specs.Prelude.{◌≡◌, ◌*◌, ◌/◌, ◌%◌, ◌^◌, ◌<◌};

use std::num::f64_to_bits_with_nan;

/// `2^64`, less one part in `2^52`, so that an estimate isn't too large in spite of its rounding.
const NUMERATOR: f64 = 18446744073709547520.0;

/// The longest quotients, in bits, for which an estimate of 52 bits leaves the quotient exact or too small by 1.
const LONGEST: u32 = 50;

/// Returns the quotient, rounded down, and the remainder of `dividend` divided by `divisor`.
///
/// `length` is a bound of the quotient's length in bits, as far as the caller knows one. The results don't depend on
/// it. Above 50, the call divides at once, because an estimate would rarely be exact.
#[inline(always)]
pub(crate) fn div_rem(dividend: u64, divisor: u64, length: u32) -> (u64, u64)
    requires { 0 < divisor }
    ensures quotient { result.0 ≡ dividend / divisor }
    ensures rest { result.1 ≡ dividend % divisor }
{
    if length > LONGEST {
        return (dividend / divisor, dividend % divisor);
    }
    let inverse = inverse(divisor);
    let quotient = ((dividend as u128 * inverse as u128) >> 64) as u64;
    let rest = dividend - quotient * divisor;
    if rest < divisor {
        return (quotient, rest);
    }
    let beyond = rest - divisor;
    if beyond < divisor {
        return (quotient + 1, beyond);
    }
    div_rem_slowly(dividend, divisor)
}

/// Returns the quotient, rounded down, and the remainder, both by division.
#[cold]
#[inline(never)]
fn div_rem_slowly(dividend: u64, divisor: u64) -> (u64, u64)
    requires { 0 < divisor }
    ensures quotient { result.0 ≡ dividend / divisor }
    ensures rest { result.1 ≡ dividend % divisor }
{
    (dividend / divisor, dividend % divisor)
}

/// Returns the quotient, rounded down, and the remainder of a 128-bit number divided by `divisor`.
///
/// The caller proves that the quotient fits 64 bits. If `divisor` is below `2^32`, the call divides two 64-bit numbers
/// instead, as in long division with digits of 32 bits.
pub(crate) fn div_rem_wide(dividend: u128, divisor: u64) -> (u64, u64)
    requires some { 0 < divisor }
    requires fits { dividend < divisor * 2 ^ 64 }
    ensures quotient { result.0 ≡ dividend / divisor }
    ensures rest { result.1 ≡ dividend % divisor }
{
    if divisor > 0xffff_ffff {
        let quotient = dividend / divisor as u128;
        return (quotient as u64, (dividend % divisor as u128) as u64);
    }
    let low = (dividend % 0x1_0000_0000) as u64;
    let (first, left) = div_rem((dividend >> 32) as u64, divisor, 32);
    let (second, rest) = div_rem((left << 32) + low, divisor, 32);
    ((first << 32) + second, rest)
}

/// Returns an estimate of `2^64 / divisor` that isn't too large: the product with `divisor` is below `2^64`.
///
/// If `divisor` is below `2^32`, the estimate differs from the inverse by less than 2, or by less than one part in
/// `2^50`. Otherwise the estimate is 0.
#[inline(always)]
fn inverse(divisor: u64) -> u64
    ensures { result * divisor < 2 ^ 64 }
{
    if divisor > 0xffff_ffff {
        return 0;
    }
    let bits = f64_to_bits_with_nan(NUMERATOR / (divisor as u32 as f64));
    let digits = (bits << 11) | (1 << 63);
    let inverse = digits >> (62u64.wrapping_sub(bits >> 52) % 64);
    match inverse.checked_mul(divisor) {
        Some(_) => inverse,
        None => 0,
    }
}
