//! Rounds shares by estimates, for `weights_of_counts`.
//!
//! An estimate is a whole number in units of `2^-32`, less than two units below the share. One product gives it.
//! A bound divides the fractions of the estimates: the fractions that reach the bound are rounded up. If no fraction
//! is just below the bound, the exact fractions are on the same sides of the bound as their estimates. If the weights
//! also add up to the total, they are the exact ones. Otherwise the caller has to compute the remainders.

ghost use Rattle.std.specs.Prelude.{◌≡◌, ℕ, ◌+◌, ◌*◌, ◌/◌, ◌%◌, ◌^◌, ◌<◌, ◌≤◌, length, map, slice_index};
ghost use Rattle.std.specs.Prelude.{IfOk, IfSome, IsTrue};
ghost use Rattle.std.specs.List.{sum_by};
ghost use Rattle.constriction_models.specs.Counts.{kept, share_estimate, rounded_share, AreRounded};

use super::{Share, keep_from_limit, raise_below_limit};
use std::alloc::{AllocError, Global};

/// One, in the unit of the estimates.
const ONE: u64 = 4294967296;

/// Estimates of all shares (`shares`), and where to look for the smallest fraction to round up.
///
/// This fraction should be among those whose highest 8 bits are `bucket`. The `wanted` largest of these should be
/// rounded up. No contract promises this.
#[derive(Drop)]
struct Estimates {
    shares: Vec<u64>,
    bucket: u64,
    /// The number of fractions in the bucket.
    room: usize,
    wanted: u64,
}

/// Estimates rounded by a bound (`weights`), and their sum (`total`).
///
/// `clear` is true only if no fraction is just below the bound.
#[derive(Drop)]
struct Rounded {
    weights: Vec<u32>,
    total: u64,
    clear: bool,
}

impl Share {
    /// Returns an estimate of the share of `count`. The estimate is at most the share.
    ///
    /// The caller proves that `count` is at most `self.rest`, and that `rate` is `self.rate`.
    #[inline]
    fn estimate(&self, count: u64, rate: u64) -> u64
        requires within { kept self.now.limit count ≤ self.now.rest }
        requires rated { rate ≡ self.now.rate }
        ensures { result ≡ share_estimate self.now.limit self.now.mass self.now.rest count }
    {
        let product = keep_from_limit(count, self.limit) as u128 * rate as u128;
        ((product >> 64) as u64) + raise_below_limit(count, self.limit) * ONE
    }

    /// Returns estimates of the shares of all counts, and where to look for the bound.
    fn estimates(
        &self,
        alloc: Global,
        counts: &[u64],
        rate: u64,
        all: u64,
    ) -> Result<Estimates, AllocError>
        requires kept { sum_by (kept self.now.limit) counts.now ≤ self.now.rest }
        requires rated { rate ≡ self.now.rate }
        ensures { IfOk result
            (λ e. e.shares.items ≡ map (share_estimate self.now.limit self.now.mass self.now.rest) counts.now) }
    {
        let mut shares = Vec::with_capacity(alloc, counts.len())?;
        let mut held = [0u64; 256];
        let mut total = 0u64;
        for count in counts {
            let share = self.estimate(*count, rate);
            total = total.wrapping_add(share / ONE);
            let bucket = ((share >> 24) % 256) as usize;
            held[bucket] = held[bucket].wrapping_add(1);
            shares.push(share)?;
        }
        let (bucket, wanted) = bucket_reaching(&held, all.wrapping_sub(total));
        Ok(Estimates {
            shares,
            bucket: bucket as u64,
            room: held[bucket] as usize,
            wanted,
        })
    }

    /// Returns the weights if estimates of the shares decide them, and the bucket of the smallest fraction to round up
    /// with the number of fractions in it.
    ///
    /// Estimates don't decide between equal remainders. The weights are `None` then. If no estimates were made, the
    /// bucket is `None` too. The call returns `Err(AllocError)` if there is no memory.
    pub(super) fn round_estimates(
        &self,
        alloc: Global,
        counts: &[u64],
        all: u64,
    ) -> Result<(Option<Vec<u32>>, Option<(u64, usize)>), AllocError>
        requires { sum_by (kept self.now.limit) counts.now ≤ self.now.rest }
        ensures { IfOk result (λ found. IfSome found.0
            (λ w. AreRounded counts.now self.now.limit self.now.mass self.now.rest all w.items)) }
    {
        if self.rate > 0xffff_ffff_ffff_ffff || counts.len() > 0x7fff_ffff {
            return Ok((None, None));
        }
        let estimates = self.estimates(alloc, counts, self.rate as u64, all)?;
        let bound = find_bound(alloc, &estimates)?;
        if bound == 0 {
            return Ok((None, Some((estimates.bucket, estimates.room))));
        }
        let made = round_all(alloc, &estimates.shares, ONE - bound)?;
        if made.clear && made.total == all {
            return Ok((Some(made.weights), None));
        }
        Ok((None, Some((estimates.bucket, estimates.room))))
    }
}

/// Returns the highest bucket that, with all buckets above it, holds at least `count` fractions. Also returns how many
/// of the `count` largest fractions are in this bucket.
///
/// If all buckets together hold fewer than `count` fractions, the call returns bucket 0.
fn bucket_reaching(held: &[u64], count: u64) -> (usize, u64)
    requires { 0 < length held.now }
    ensures { result.0 < length held.now }
{
    let mut wanted = count;
    for bucket in (0..held.len()).rev() {
        if held[bucket] >= wanted {
            return (bucket, wanted);
        }
        wanted -= held[bucket];
    }
    (0, wanted)
}

/// Returns the smallest fraction to round up, or 1 (in the unit of the estimates) if no fraction is to be rounded up.
///
/// If equal fractions are on both sides, or the bucket has so many fractions that this is likely, returns 0.
fn find_bound(alloc: Global, estimates: &Estimates) -> Result<u64, AllocError>
    ensures { IfOk result (λ bound. bound ≤ 2 ^ 32) }
{
    if estimates.wanted == 0 {
        return Ok(ONE);
    }
    if estimates.room > estimates.shares.len() / 64 + 4 {
        return Ok(0);
    }
    let mut near = Vec::with_capacity(alloc, estimates.room)?;
    for share in &estimates.shares {
        if (*share >> 24) % 256 == estimates.bucket {
            near.push((*share % ONE) as u32)?;
        }
    }
    Ok(largest(&mut near, estimates.wanted))
}

/// Returns the smallest of the `count` largest fractions, but at least 1. If another fraction is equal, or `count`
/// isn't from 1 to the number of fractions, returns 0.
fn largest(fractions: &mut [u32], count: u64) -> u64
    ensures { result ≤ 2 ^ 32 }
{
    if count == 0 || count > fractions.len() as u64 {
        return 0;
    }
    let first = fractions.len() - count as usize;
    let (smaller, fraction, _) = fractions.select_nth_unstable(first);
    for other in smaller {
        if *other == *fraction {
            return 0;
        }
    }
    (*fraction as u64).max(1)
}

/// Rounds each estimate up if its fraction is at least `ONE - lift`, and down otherwise.
fn round_all(alloc: Global, shares: &[u64], lift: u64) -> Result<Rounded, AllocError>
    requires small { lift < 2 ^ 32 }
    requires fit { (k : ℕ) → k < length shares.now → slice_index shares.now k ≤ 2 ^ 63 + 2 ^ 32 }
    requires short { length shares.now < 2 ^ 31 }
    ensures weights { IfOk result (λ r. r.weights.items ≡ map (rounded_share lift) shares.now) }
    ensures total { IfOk result (λ r. r.total ≡ sum_by (rounded_share lift) shares.now) }
    ensures clear { IfOk result (λ r. IsTrue r.clear
        → (k : ℕ) → k < length shares.now → (slice_index shares.now k + lift) % 2 ^ 32 < 4294967295) }
{
    let mut weights = vec![in alloc; 0u32; shares.len()]?;
    let mut total = 0u64;
    let mut clear = true;
    for i in 0..shares.len() {
        let lifted = shares[i] + lift;
        weights[i] = (lifted / ONE) as u32;
        total += lifted / ONE;
        clear = clear & (lifted % ONE != ONE - 1);
    }
    Ok(Rounded {
        weights,
        total,
        clear,
    })
}
