//! Checks whether weights add up to `2 ^ PRECISION`, and computes the sum of the weights before a symbol.

ghost use Rattle.std.specs.Prelude.{◌≡◌, ◌↔◌, ◌+◌, ◌*◌, ◌^◌, ◌<◌, ◌≤◌, length, map, sum_by, take, IsTrue};
ghost use Rattle.constriction_inputs.specs.Rows.{AreTotals};
ghost use Rattle.constriction_inputs.specs.Weights.{IsTotal};

use constriction_base::weights::starts::ones;
use constriction_words::BitArray;

/// Returns whether `weights` add up to `2 ^ PRECISION`. The result is exact, even if the sum doesn't fit `P`.
pub fn is_total<P: BitArray, const PRECISION: usize>(weights: &[P]) -> bool
    requires { (1 ≤ PRECISION) × (PRECISION ≤ P.BITS) }
    ensures { IsTrue result ↔ IsTotal PRECISION (map P.number weights.now) }
{
    let one = P::unit();
    let mut rest = ones::<P>(PRECISION); // what is left of the total, minus 1
    let mut is_reached = false;
    for weight in weights {
        if !weight.is_nothing() {
            let less = weight.minus(one);
            if is_reached || rest.is_below(less) {
                return false;
            }
            if less.is_below(rest) {
                rest = rest.minus(*weight);
            } else {
                is_reached = true;
            }
        }
    }
    is_reached
}

/// Returns the sum of the weights before index `symbol`.
///
/// The caller proves that `symbol` is at most the number of weights, and that the sum fits `P`.
pub fn sum_before<P: BitArray>(weights: &[P], symbol: usize) -> P
    requires within { symbol ≤ length weights.now }
    requires fits { sum_by P.number (take symbol weights.now) < 2 ^ P.BITS }
    ensures { P.number result ≡ sum_by P.number (take symbol weights.now) }
{
    let mut sum = P::nothing();
    for i in 0..symbol {
        sum = sum.plus(weights[i]);
    }
    sum
}

/// Returns whether `number` is the product of `first` and `second`.
///
/// The result is exact, even if the product doesn't fit a `usize`.
pub fn is_product(number: usize, first: usize, second: usize) -> bool
    ensures { IsTrue result ↔ (number ≡ first * second) }
{
    match first.checked_mul(second) {
        Some(product) => product == number,
        None => false,
    }
}

/// Returns whether each of `count` rows of `width` weights adds up to `2 ^ PRECISION`.
///
/// `weights` has the rows one after another. The caller proves that `weights` has `count` rows.
pub fn are_totals<P: BitArray, const PRECISION: usize>(
    weights: &[P],
    width: usize,
    count: usize,
) -> bool
    requires sizes { (1 ≤ PRECISION) × (PRECISION ≤ P.BITS) }
    requires counted { length weights.now ≡ width * count }
    ensures { IsTrue result ↔ AreTotals PRECISION width count (map P.number weights.now) }
{
    let mut start = 0;
    for _done in 0..count {
        let end = start + width;
        if !is_total::<P, PRECISION>(&weights[start..end]) {
            return false;
        }
        start = end;
    }
    true
}
