//! Computes the starts of intervals from weights, and checks whether the weights add up to `2 ^ PRECISION`.

ghost use Rattle.std.specs.Prelude.{◌≡◌, ◌≢◌, ◌+◌, ◌-◌, ◌^◌, ◌<◌, ◌≤◌, length, map, sum_by, slice_index};
ghost use Rattle.std.specs.Prelude.{IfOk, IfSome, IfNone};
ghost use Rattle.constriction_base.specs.Tables.{IsLastSymbol, IsRising, Sums, weights_between};

use constriction_words::BitArray;
use std::alloc::{AllocError, Global};

/// Returns the number whose binary form is `count` ones. The caller proves that `count` is from 1 to `Word::BITS`.
pub fn ones<Word: BitArray>(count: usize) -> Word
    requires { (1 ≤ count) × (count ≤ Word.BITS) }
    ensures { Word.number result + 1 ≡ 2 ^ count }
{
    Word::greatest().shift_right(Word::BITS - count as u32)
}

/// Returns the number of weights up to and including the last nonzero weight.
///
/// Returns `None` if the weights don't add up to `2 ^ PRECISION`. The caller proves that `PRECISION` is at least 1 and
/// at most `Probability::BITS`.
pub fn known_symbols<Probability: BitArray, const PRECISION: usize>(
    weights: &[Probability],
) -> Option<usize>
    requires { (1 ≤ PRECISION) × (PRECISION ≤ Probability.BITS) }
    ensures ok { IfSome result (λ n.
        IsLastSymbol Probability.number weights.now n (2 ^ PRECISION) (2 ^ Probability.BITS)) }
    ensures none { IfNone result (sum_by Probability.number weights.now ≢ 2 ^ PRECISION) }
{
    let last = ones::<Probability>(PRECISION);
    let one = Probability::unit();
    let mut left = Probability::nothing();
    let mut known = 0;
    for (i, weight) in weights.iter().enumerate() {
        if !weight.is_nothing() {
            if known > 0 {
                return None; // nothing is left of the total
            }
            let rest = last.minus(left);
            let less = weight.minus(one);
            if rest.is_below(less) {
                return None; // less than `weight` is left of the total
            }
            if less.is_below(rest) {
                left = left.plus(*weight);
            } else {
                known = i + 1;
            }
        }
    }
    if known > 0 { Some(known) } else { None }
}

/// Returns the start of each weight's interval, followed by the sum of all weights.
///
/// The caller proves that this sum fits `Probability`, and that the number of weights plus 1 is below `2 ^ 64`. The
/// call returns `Err(AllocError)` if there is no memory for the result.
pub fn starts_of<Probability: BitArray>(
    alloc: Global,
    weights: &[Probability],
) -> Result<Vec<Probability>, AllocError>
    requires total { sum_by Probability.number weights.now < 2 ^ Probability.BITS }
    requires few { length weights.now + 1 < 2 ^ 64 }
    ensures { IfOk result (λ starts.
        Sums Probability.number weights.now (map Probability.number starts.items) (length weights.now + 1)) }
{
    let mut left = Probability::nothing();
    let mut starts = Vec::with_capacity(alloc, weights.len() + 1)?;
    starts.push_reserved(left);
    for weight in weights {
        left = left.plus(*weight);
        starts.push_reserved(left);
    }
    Ok(starts)
}

/// Returns the weight of `symbol`, which is the length of its interval.
///
/// `starts` holds the start of each symbol's interval. The caller proves that `starts` begins with 0, never falls and
/// stays below `2 ^ PRECISION`, that the last weight fits `Probability`, and that `starts` has a start for `symbol`.
pub fn weight_of<Probability: BitArray, const PRECISION: usize>(
    starts: &[Probability],
    symbol: usize,
) -> Probability
    requires sized { (1 ≤ PRECISION) × (PRECISION ≤ Probability.BITS) }
    requires within { symbol < length starts.now }
    requires rising { IsRising (map Probability.number starts.now) (2 ^ PRECISION) }
    requires last { 2 ^ PRECISION - slice_index (map Probability.number starts.now) (length starts.now - 1)
        < 2 ^ Probability.BITS }
    ensures { Probability.number result
        ≡ slice_index (weights_between (map Probability.number starts.now) (2 ^ PRECISION)) symbol }
{
    let start = starts[symbol];
    if symbol + 1 < starts.len() {
        starts[symbol + 1].minus(start)
    } else {
        ones::<Probability>(PRECISION)
            .minus(start)
            .plus(Probability::unit())
    }
}
