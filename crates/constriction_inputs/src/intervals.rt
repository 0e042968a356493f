//! [`Intervals`]: items that a caller passes as intervals, without the rest of their models.
//!
//! The item of an interval is symbol 1 in a table of three symbols: symbol 0 has the quantiles below the interval, and
//! symbol 2 the quantiles above it. No table is made.

ghost use Rattle.std.specs.Prelude.{◌≡◌, ◌↔◌, ◌≤◌, ◌<◌, ◌+◌, ◌^◌, ℕ, get_or, length, map, IsTrue};
ghost use Rattle.constriction_inputs.specs.Intervals.{IsIntervalWithin, AreIntervals, as_intervals, interval_items};

use crate::items::{ItemList, Items};
use crate::refusal::Refusal;
use constriction_base::weights::starts::ones;
use constriction_words::{BitArray, Reciprocal};
use std::alloc::Global;

/// Intervals of quantiles. Interval `i` begins at quantile `lefts[i]` and has the length `ps[i]`.
///
/// No interval may be empty or end past `2 ^ PRECISION`.
///
/// # Examples
///
/// ```
/// let items = Intervals { lefts: &[3u8, 0], ps: &[5, 16] }; // two intervals, at a precision of 4 bits or more
/// ```
#[derive(Clone, Copy, Drop)]
pub struct Intervals<'a, P> {
    pub lefts: &'a [P],
    pub ps: &'a [P],
}

/// Intervals that are checked. A look-up reads an interval, and needs no memory.
#[derive(Drop)]
pub struct CheckedIntervals<'a, P: BitArray, const PRECISION: usize> {
    lefts: &'a [P],
    ps: &'a [P],
    ghost positive: { 1 ≤ PRECISION },
    ghost fits: { PRECISION ≤ P.BITS },
    ghost same: { length lefts.now ≡ length ps.now },
    ghost some: { (k : ℕ) → k < length lefts.now → 0 < get_or (map P.number ps.now) k 0 },
    ghost inside: { (k : ℕ) → k < length lefts.now
        → get_or (map P.number lefts.now) k 0 + get_or (map P.number ps.now) k 0 ≤ 2 ^ PRECISION },
}

impl<'a, P: BitArray, const PRECISION: usize> Items<P, PRECISION> for Intervals<'a, P> {
    type List = CheckedIntervals<'a, P, PRECISION>;

    ghost coded = { λ given. as_intervals (map P.number given.lefts.now) (map P.number given.ps.now) };

    ghost item_count = { λ given. length given.ps.now };

    #[inline]
    fn count(&self) -> usize {
        self.ps.len()
    }

    fn check(&self) -> Result<(), Refusal> {
        if self.lefts.len() != self.ps.len() {
            return Err(Refusal::WrongLength);
        }
        if !are_intervals::<P, PRECISION>(self.lefts, self.ps) {
            return Err(Refusal::WrongInterval);
        }
        Ok(())
    }

    fn know(&self) -> bool {
        true
    }

    #[inline]
    fn list(&self, _alloc: Global, _divides: bool) -> Option<CheckedIntervals<'a, P, PRECISION>> {
        Some(CheckedIntervals {
            lefts: self.lefts,
            ps: self.ps,
        })
    }
}

impl<'a, P: BitArray, const PRECISION: usize> ItemList<P, PRECISION>
    for CheckedIntervals<'a, P, PRECISION> {
    // Looking ahead takes the same time here, and a stack coder that looks ahead requests memory for its words only.
    const LOOKS_AHEAD: bool = true;

    ghost list_items = { λ list. interval_items PRECISION (map P.number list.lefts.now) (map P.number list.ps.now) };

    #[inline]
    fn count(&self) -> usize {
        self.lefts.len()
    }

    #[inline(always)]
    fn interval(
        &mut self,
        place: usize,
    ) -> Option<(P, <P as BitArray>::NonZero, Option<Reciprocal>)> {
        match self.ps[place].to_nonzero() {
            Some(p) => Some((self.lefts[place], p, None)),
            None => None,
        }
    }
}

/// Returns whether the interval `[left, left + p)` isn't empty, and `left + p` is at most `2 ^ PRECISION`.
fn is_interval<P: BitArray, const PRECISION: usize>(left: P, p: P) -> bool
    requires { (1 ≤ PRECISION) × (PRECISION ≤ P.BITS) }
    ensures { IsTrue result ↔ IsIntervalWithin PRECISION (P.number left) (P.number p) }
{
    if p.is_nothing() {
        return false;
    }
    let last = ones::<P>(PRECISION);
    let behind = p.minus(P::unit());
    if last.is_below(behind) {
        return false;
    }
    !last.minus(behind).is_below(left)
}

/// Returns whether no interval `[lefts[i], lefts[i] + ps[i])` is empty or ends past `2 ^ PRECISION`.
///
/// The caller proves that the two lists have the same length.
fn are_intervals<P: BitArray, const PRECISION: usize>(lefts: &[P], ps: &[P]) -> bool
    requires sizes { (1 ≤ PRECISION) × (PRECISION ≤ P.BITS) }
    requires counted { length lefts.now ≡ length ps.now }
    ensures { IsTrue result ↔ AreIntervals PRECISION (map P.number lefts.now) (map P.number ps.now) }
{
    for i in 0..lefts.len() {
        if !is_interval::<P, PRECISION>(lefts[i], ps[i]) {
            return false;
        }
    }
    true
}
