//! Counts in proportion to probabilities that are floats, computed in integers.
//!
//! Each float is given by its bits (IEEE 754 binary64), and each count is rounded once, half to even. So every machine
//! computes the same counts.
//!
//! - `counts_of_floats` computes the counts for [`weights_of_counts`](crate::counts::weights_of_counts).
//! - `put_quick_counts` computes the counts for [`CategoricalCounts`](crate::categorical::CategoricalCounts).

ghost use Rattle.std.specs.Prelude.{◌≡◌, ℕ, ◌-◌, ◌*◌, ◌^◌, ◌<◌, ◌≤◌, ◌↔◌, true, false, length, IfOk, IfErr, IsErrOf};
ghost use Rattle.std.specs.List.{list_all, sum};
ghost use Rattle.constriction_models.specs.Categorical.{MakeCategorical};
ghost use Rattle.constriction_models.specs.Floats.{float_bits, is_probability, significand, exponent, units, nearest};
ghost use Rattle.constriction_models.specs.Floats.{greatest_bits, greatest_units, binary_length, float_count, IsScale};
ghost use Rattle.constriction_models.specs.Floats.{weight_counts, counts_at, quick_bits, quick_counts};
ghost use Rattle.constriction_models.specs.declared.floats.FloatsError.TheVariants as errors;

use std::alloc::{AllocError, Global};
use thiserror::Error;

/// `2^52`, the leading bit of a normal float's significand. The bits of a float from this one on are its exponent.
const LEADING: u64 = 4503599627370496;

/// The bits of infinity. Negative floats and NaN have greater bits, except negative zero.
const INFINITY: u64 = 9218868437227405312;

/// The bits of negative zero.
const NEGATIVE_ZERO: u64 = 9223372036854775808;

/// `2^(63 - places)` for each number of places from 0 to 63.
#[rattlefmt::skip]
static POWERS: [u64; 64] = [
    0x8000000000000000, 0x4000000000000000, 0x2000000000000000, 0x1000000000000000,
    0x0800000000000000, 0x0400000000000000, 0x0200000000000000, 0x0100000000000000,
    0x0080000000000000, 0x0040000000000000, 0x0020000000000000, 0x0010000000000000,
    0x0008000000000000, 0x0004000000000000, 0x0002000000000000, 0x0001000000000000,
    0x0000800000000000, 0x0000400000000000, 0x0000200000000000, 0x0000100000000000,
    0x0000080000000000, 0x0000040000000000, 0x0000020000000000, 0x0000010000000000,
    0x0000008000000000, 0x0000004000000000, 0x0000002000000000, 0x0000001000000000,
    0x0000000800000000, 0x0000000400000000, 0x0000000200000000, 0x0000000100000000,
    0x0000000080000000, 0x0000000040000000, 0x0000000020000000, 0x0000000010000000,
    0x0000000008000000, 0x0000000004000000, 0x0000000002000000, 0x0000000001000000,
    0x0000000000800000, 0x0000000000400000, 0x0000000000200000, 0x0000000000100000,
    0x0000000000080000, 0x0000000000040000, 0x0000000000020000, 0x0000000000010000,
    0x0000000000008000, 0x0000000000004000, 0x0000000000002000, 0x0000000000001000,
    0x0000000000000800, 0x0000000000000400, 0x0000000000000200, 0x0000000000000100,
    0x0000000000000080, 0x0000000000000040, 0x0000000000000020, 0x0000000000000010,
    0x0000000000000008, 0x0000000000000004, 0x0000000000000002, 0x0000000000000001,
];

/// The error of computing counts from floats.
///
/// # Examples
///
/// ```
/// match counts_of_floats(alloc, &[0]) {
///     Ok(counts) => {}
///     Err(error) => {} // `Empty`: no float is above 0
/// }
/// ```
#[derive(Debug, Clone, Copy, PartialEq, Eq, Hash, Error)]
pub enum FloatsError {
    /// No float is above 0.
    #[error("no probability above 0")]
    Empty,
    /// A float is negative, infinite or NaN.
    #[error("a probability that is negative or not finite")]
    Invalid,
    /// There is no memory for the counts.
    #[error("out of memory")]
    Memory,
}

impl From<AllocError> for FloatsError {
    ghost from_gives = { λ _ error. error ≡ errors.Memory };

    fn from(_error: AllocError) -> FloatsError {
        FloatsError::Memory
    }
}

/// How to scale the floats of a row to counts, of which the greatest is from `2^(bits - 1)` to `2^bits`.
#[derive(Drop)]
struct Scale {
    /// The bits of the greatest float.
    most: u64,
    /// The number of bits of the greatest count.
    bits: u64,
    /// The number of bits by which each significand is moved up. Then the greatest float's significand has 62 bits.
    lift: u32,
    /// The number of bits by which it is then moved down, plus the float's exponent.
    rise: u64,
    ghost scaled: { IsScale most bits lift rise },
}

impl Scale {
    /// Returns the scale of a row whose greatest float has the bits `most`.
    fn new(most: u64, bits: u64) -> Scale
        requires some { 0 < most }
        requires finite { most < 2047 * 2 ^ 52 }
        requires few { bits ≤ 62 }
        ensures most { result.most ≡ most }
        ensures bits { result.bits ≡ bits }
    {
        let lift = read_significand(most).leading_zeros() - 2;
        let rise = read_exponent(most) + 62 - bits;
        Scale {
            most,
            bits,
            lift,
            rise,
        }
    }

    /// Returns the count of a float. The caller proves that the row's greatest float is at least as great.
    #[inline]
    fn count(&self, float: u64) -> u64
        requires { float_bits float ≤ self.now.most }
        ensures count { result ≡ float_count (binary_length 2098 (units self.now.most)) self.now.bits float }
        ensures fits { result ≤ 2 ^ self.now.bits }
    {
        let bits = float % NEGATIVE_ZERO;
        let lifted = read_significand(bits) << self.lift;
        let places = (self.rise - read_exponent(bits)).min(63);
        shift_to_nearest(lifted, places)
    }

    /// Writes the count of each float into `counts`.
    fn put(&self, floats: &[u64], counts: &mut [u32])
        requires most { self.now.most ≡ greatest_bits floats.now }
        requires few { self.now.bits ≤ 31 }
        requires len { length floats.now ≡ length counts.now }
        ensures { counts.new ≡ counts_at self.now.bits floats.now }
    {
        for i in 0..floats.len() {
            counts[i] = self.count(floats[i]) as u32;
        }
    }

    /// Writes the count of each float into `counts`, and 1 in place of a count of 0.
    fn put_all_above_0(&self, floats: &[u64], counts: &mut [u64])
        requires most { self.now.most ≡ greatest_bits floats.now }
        requires bits { self.now.bits ≡ 62 }
        requires len { length floats.now ≡ length counts.now }
        ensures { counts.new ≡ weight_counts floats.now }
    {
        for i in 0..floats.len() {
            counts[i] = self.count(floats[i]).max(1);
        }
    }
}

/// Returns the bits of a float, and 0 for negative zero.
#[inline]
fn clear_zero_sign(float: u64) -> u64
    ensures { result ≡ float_bits float }
{
    if float == NEGATIVE_ZERO { 0 } else { float }
}

/// Returns the significand of a finite float that is at least 0, as a whole number.
#[inline]
fn read_significand(bits: u64) -> u64
    ensures { result ≡ significand bits }
{
    if bits < LEADING {
        bits
    } else {
        LEADING + bits % LEADING
    }
}

/// Returns the exponent field of a finite float that is at least 0, or 1 if the float is subnormal.
#[inline]
fn read_exponent(bits: u64) -> u64
    ensures { result ≡ exponent bits }
{
    (bits / LEADING).max(1)
}

/// Returns `number / 2^places`, rounded to the nearest whole number, half to even.
///
/// The caller proves that the number is below `2^62`. A product moves the number down: on x86-64, this takes fewer
/// instructions than the shifts.
#[inline]
fn shift_to_nearest(number: u64, places: u64) -> u64
    requires small { number < 2 ^ 62 }
    requires few { places ≤ 63 }
    ensures { result ≡ nearest number (2 ^ places) }
{
    let product = (2 * number) as u128 * falling_power(places) as u128;
    let odd = (product >> 64) % 2;
    ((product + 0x7fff_ffff_ffff_ffff + odd) >> 64) as u64
}

/// Returns `2^(63 - places)`, from a table. The caller proves that `places` is at most 63.
#[inline]
fn falling_power(places: u64) -> u64
    requires { places ≤ 63 }
    ensures { result ≡ 2 ^ (63 - places) }
{
    POWERS[places as usize]
}

/// Returns the bits of the greatest float, or 0 if there are no floats.
///
/// If a float is negative, infinite or NaN, these bits are at least those of infinity.
fn find_greatest_bits(floats: &[u64]) -> u64
    ensures { result ≡ greatest_bits floats.now }
{
    let mut most = 0u64;
    for float in floats {
        most = most.max(clear_zero_sign(*float));
    }
    most
}

/// Returns the bits of the greatest float, which is finite and above 0.
///
/// # Errors
///
/// - `Invalid`: a float is negative, infinite or NaN.
/// - `Empty`: no float is above 0.
pub fn find_greatest_float(floats: &[u64]) -> Result<u64, FloatsError>
    ensures most { IfOk result (λ most. (most ≡ greatest_bits floats.now) × (0 < most) × (most < 2047 * 2 ^ 52)) }
    ensures invalid { IsErrOf result FloatsError.Invalid ↔ (list_all is_probability floats.now ≡ false) }
    ensures empty { IsErrOf result FloatsError.Empty
        ↔ ((list_all is_probability floats.now ≡ true) × (greatest_units floats.now ≡ 0)) }
    ensures memory { IsErrOf result FloatsError.Memory → ⊥ }
{
    let most = find_greatest_bits(floats);
    if most >= INFINITY {
        return Err(FloatsError::Invalid);
    }
    if most == 0 {
        return Err(FloatsError::Empty);
    }
    Ok(most)
}

/// Returns the sum of `counts`.
fn sum_of(counts: &[u32]) -> u128
    ensures { result ≡ sum counts.now }
{
    let mut total = 0u128;
    for count in counts {
        total += *count as u128;
    }
    total
}

/// Returns the number of bits of the greatest count, where the counts add up to `total` with 31 bits.
fn choose_bits(total: u128) -> u64
    ensures bits { result ≡ quick_bits total }
    ensures few { result ≤ 31 }
{
    if total < 1u128 << 40 {
        return 31;
    }
    31u64.saturating_sub((128 - total.leading_zeros()) as u64 - 39)
}

/// Returns a count for each float, in proportion to the floats, for
/// [`weights_of_counts`](crate::counts::weights_of_counts).
///
/// Each float is given by its bits (IEEE 754 binary64). A count is the float times a power of two, rounded to the
/// nearest whole number (half to even), and at least 1. The power of two is the same for all floats. It makes the
/// greatest count at least `2^61` and at most `2^62`.
///
/// # Errors
///
/// - `Invalid`: a float is negative, infinite or NaN.
/// - `Empty`: no float is above 0.
/// - `Memory`: there is no memory for the counts.
///
/// # Examples
///
/// ```
/// let floats = [0x3FF0_0000_0000_0000, 0x3FE0_0000_0000_0000, 0]; // 1.0, 0.5, 0.0
/// counts_of_floats(alloc, &floats)? // [2^61, 2^60, 1]
/// ```
pub fn counts_of_floats(alloc: Global, floats: &[u64]) -> Result<Vec<u64>, FloatsError>
    ensures counts { IfOk result (λ counts. counts.items ≡ weight_counts floats.now) }
    ensures invalid { IsErrOf result FloatsError.Invalid ↔ (list_all is_probability floats.now ≡ false) }
    ensures empty { IsErrOf result FloatsError.Empty
        ↔ ((list_all is_probability floats.now ≡ true) × (greatest_units floats.now ≡ 0)) }
    ensures memory { IsErrOf result FloatsError.Memory
        → (list_all is_probability floats.now ≡ true) × (0 < greatest_units floats.now) }
{
    let most = find_greatest_float(floats)?;
    let scale = Scale::new(most, 62);
    let mut counts = vec![in alloc; 0u64; floats.len()]?;
    scale.put_all_above_0(floats, &mut counts);
    Ok(counts)
}

/// Writes a count for each float, in proportion to the floats, for
/// [`CategoricalCounts`](crate::categorical::CategoricalCounts).
///
/// Each float is given by its bits (IEEE 754 binary64). The caller proves that both lists have the same length. A count
/// is the float times a power of two, rounded to the nearest whole number (half to even). The power of two is the same
/// for all floats. It makes the greatest count at least `2^30` and at most `2^31`. If the counts then add up to `2^40`
/// or more, the power of two is divided by the least power of two that brings this sum below `2^39` (but by at most
/// `2^31`), and the counts are computed from the floats again. Fewer than `2^precision` counts have a table at this
/// precision, because their sum is above 0 and below `2^40`.
///
/// # Errors
///
/// After an error, `counts` is unchanged.
///
/// - `Invalid`: a float is negative, infinite or NaN.
/// - `Empty`: no float is above 0.
///
/// # Examples
///
/// ```
/// let floats = [0x3FF0_0000_0000_0000, 0x3FE0_0000_0000_0000, 0]; // 1.0, 0.5, 0.0
/// let mut counts = [0; 3];
/// put_quick_counts(&floats, &mut counts)? // [2^30, 2^29, 0]
/// ```
pub fn put_quick_counts(floats: &[u64], counts: &mut [u32]) -> Result<(), FloatsError>
    requires { length floats.now ≡ length counts.now }
    ensures counts { IfOk result (λ _. counts.new ≡ quick_counts floats.now) }
    ensures table { IfOk result
        (λ _. (precision : ℕ) → precision ≤ 31 → length floats.now < 2 ^ precision
        → MakeCategorical precision counts.new) }
    ensures unchanged { IfErr result (λ _. counts.new ≡ counts.old) }
    ensures invalid { IsErrOf result FloatsError.Invalid ↔ (list_all is_probability floats.now ≡ false) }
    ensures empty { IsErrOf result FloatsError.Empty
        ↔ ((list_all is_probability floats.now ≡ true) × (greatest_units floats.now ≡ 0)) }
    ensures memory { IsErrOf result FloatsError.Memory → ⊥ }
{
    let most = find_greatest_float(floats)?;
    Scale::new(most, 31).put(floats, counts);
    let bits = choose_bits(sum_of(counts));
    if bits < 31 {
        Scale::new(most, bits).put(floats, counts);
    }
    Ok(())
}
