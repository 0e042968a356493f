//! Functions that call methods of `BitArray`.
//!
//! Each function that returns an `Option` returns `None` if the method's precondition doesn't hold.

ghost use Rattle.std.specs.Prelude.{◌≡◌, ◌+◌, ◌-◌, ◌*◌, ◌/◌, ◌%◌, ◌^◌, ◌<◌, ◌≤◌, MatchOption};

use constriction_words::{BitArray, Reciprocal};

/// Returns the sum of `first` and `second`, or `None` if the sum doesn't fit the type.
pub fn sum<W: BitArray>(first: W, second: W) -> Option<W>
    ensures { MatchOption result (2 ^ W.BITS ≤ W.number first + W.number second)
        (λ sum. W.number sum ≡ W.number first + W.number second) }
{
    if W::greatest().minus(first).is_below(second) {
        return None;
    }
    Some(first.plus(second))
}

/// Returns `first` minus `second`, or `None` if `second` is above `first`.
pub fn difference<W: BitArray>(first: W, second: W) -> Option<W> {
    if first.is_below(second) {
        return None;
    }
    Some(first.minus(second))
}

/// Returns the product of `first` and `second`, or `None` if the product doesn't fit the type.
#[tactic(auto, using(crate::proofs::Fitting::fits_by_quotient))]
pub fn product<W: BitArray>(first: W, second: W) -> Option<W> {
    if second.is_nothing() {
        return Some(W::nothing());
    }
    if W::greatest().quotient(second).is_below(first) {
        return None;
    }
    Some(first.times(second))
}

/// Returns `first` divided by `second`, rounded down, or `None` if `second` is 0.
pub fn quotient<W: BitArray>(first: W, second: W) -> Option<W> {
    if second.is_nothing() {
        return None;
    }
    Some(first.quotient(second))
}

/// Returns `first` divided by `second`, rounded down, or `None` if `second` is 0.
///
/// Calls the method `quotient_by` with a reciprocal if `second` is below `2^64`, and the method `quotient` otherwise.
#[tactic(auto, using(crate::proofs::Fitting::fits_by_length))]
pub fn quotient_by<W: BitArray>(first: W, second: W) -> Option<W> {
    if second.is_nothing() {
        return None;
    }
    if second.bit_length() > usize::BITS {
        return Some(first.quotient(second));
    }
    let reciprocal = Reciprocal::new(second.to_index() as u64);
    Some(first.quotient_by(second, reciprocal))
}

/// Returns the remainder of `first` divided by `second`, or `None` if `second` is 0.
pub fn remainder<W: BitArray>(first: W, second: W) -> Option<W> {
    if second.is_nothing() {
        return None;
    }
    Some(first.remainder(second))
}

/// Returns the quotient and the remainder of `first` divided by `second`, or twice `None` if `second` is 0.
///
/// `length` is the expected length of the quotient in bits, as for the method `div_rem`.
pub fn div_rem<W: BitArray>(first: W, second: W, length: u32) -> (Option<W>, Option<W>) {
    if second.is_nothing() {
        return (None, None);
    }
    let (quotient, rest) = first.div_rem(second, length);
    (Some(quotient), Some(rest))
}

/// Returns `number` shifted left by `by` bits, or `None` if the result doesn't fit the type.
///
/// The caller proves that `by` is below `W::BITS`.
#[tactic(auto, using(crate::proofs::Fitting::fits_by_quotient))]
pub fn shifted<W: BitArray>(number: W, by: u32) -> Option<W>
    requires { by < W.BITS }
{
    if W::greatest().shift_right(by).is_below(number) {
        return None;
    }
    Some(number.shift_left(by))
}

/// Converts `number` to its nonzero form and back. Returns 0 for 0, which has no nonzero form.
pub fn through_nonzero<W: BitArray>(number: W) -> W
    ensures { W.number result ≡ W.number number }
{
    match number.to_nonzero() {
        Some(nonzero) => W::from_nonzero(nonzero),
        None => W::nothing(),
    }
}

/// Returns `number` as a `usize`, or `None` if `number` is `2^64` or more.
#[tactic(auto, using(crate::proofs::Fitting::fits_by_length))]
pub fn index<W: BitArray>(number: W) -> Option<usize> {
    if number.bit_length() > usize::BITS {
        return None;
    }
    Some(number.to_index())
}
