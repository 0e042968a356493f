//! Rows of buckets, in which a decoder looks up a quantile's symbol, and the rows of symbols for encoders.
//!
//! All quantiles with the same high bits form a bucket. A bucket's row holds the symbol of its first quantile, and the
//! symbol's weight. If the symbol's interval doesn't hold a quantile of the bucket, a search begins at the next symbol.
//! It ends at the symbol of the next row. The last row, which comes after those of the buckets, holds the last symbol.
//!
//! A decode loads the start of the interval from the list of starts. It needs the weight first, for a product, and the
//! start only after it. Without starts, and with symbols of 32 bits, there is room for twice as many rows.
//!
//! The number of buckets is a power of two. It is at least 2, at most `2 ^ PRECISION`, and at most 2^63. Let `n` be the
//! number of symbols up to and including the last symbol with a weight above 0. There are at most `8 * n` buckets if
//! `Probability` has at most 32 bits, at most `4 * n` if it has 64 bits, and at most `2 * n` if it has 128 bits. So the
//! rows of buckets take at most `64 * n` bytes. There are more than half as many buckets, unless their number is
//! `2 ^ PRECISION` or 2^63.

ghost use Rattle.std.specs.Prelude.{◌≡◌, ◌+◌, ◌-◌, ◌*◌, ◌^◌, ◌<◌, ◌≤◌, ◌⊎◌, length, map, slice_index, IfOk};
ghost use Rattle.constriction_base.specs.Tables.{IsRising};
ghost use Rattle.constriction_base.specs.Hints.{AreHints, AreBucketRows, IsBucketRow};

use crate::weights::starts::weight_of;
use constriction_words::{BitArray, Reciprocal};
use std::alloc::{AllocError, Global};

/// A symbol and its weight, which is the length of its interval.
#[derive(Drop, Clone, Copy)]
pub struct Row<Probability: Copy + Drop> {
    pub weight: Probability,
    pub symbol: u32,
}

/// The start of a symbol's interval, the interval's length, and the reciprocal of this length.
///
/// If the length is 0, the reciprocal is that of 1.
#[derive(Drop, Clone, Copy)]
pub struct SymbolRow<Probability: Copy + Drop> {
    pub left: Probability,
    pub weight: Probability,
    pub reciprocal: Reciprocal,
}

/// Returns the binary logarithm of the greatest number of buckets for each symbol, if `Probability` has `bits` bits.
///
/// A row takes 8 bytes if `Probability` has at most 32 bits, 16 bytes if it has 64 bits, and 32 bytes if it has 128
/// bits. With 8, 4 and 2 buckets for each symbol, the rows take at most 64 bytes for each symbol.
pub fn buckets_for(bits: u32) -> u32
    ensures value { (bits ≤ 32 → result ≡ 3) × (32 < bits → bits ≤ 64 → result ≡ 2) × (64 < bits → result ≡ 1) }
    ensures few { result ≤ 3 }
{
    if bits <= 32 {
        3
    } else if bits <= 64 {
        2
    } else {
        1
    }
}

/// Returns the number of low bits in which the quantiles of a bucket differ, in a table of `symbols` symbols.
///
/// All quantiles with the same higher bits form a bucket. `precision` is the table's precision in bits. `buckets` is
/// the binary logarithm of the greatest number of buckets for each symbol, from [`buckets_for`]. The caller proves that
/// it is at most 3.
///
/// The table has at least 2 buckets. It has more than half of the greatest number of buckets unless each bucket is a
/// single quantile, or there are 2^63 buckets.
pub fn shift_for(symbols: usize, precision: usize, buckets: u32) -> u32
    requires some { 0 < symbols }
    requires within { (1 ≤ precision) × (precision ≤ 128) }
    requires few { buckets ≤ 3 }
    ensures within { result < precision }
    ensures fits { precision - result ≤ 63 }
    ensures most { 2 ^ (precision - result) ≤ 8 * symbols }
    ensures few { (2 ^ (precision - result) ≤ 2 ^ buckets * symbols) ⊎ (precision - result ≡ 1) }
    ensures least { (2 ^ buckets * symbols < 2 * 2 ^ (precision - result)) ⊎ (result ≡ 0) ⊎ (precision - result ≡ 63) }
{
    let precision = precision as u32;
    let index_bits = (symbols.ilog2() + buckets).max(1);
    precision - precision.min(index_bits).min(63)
}

/// Returns the last symbol at or after `from` whose interval starts at or below `quantile`.
///
/// `starts` holds the start of each symbol's interval, in ascending order. The caller proves that the interval of
/// `from` starts at or below `quantile`.
fn symbol_from<Probability: BitArray>(
    starts: &[Probability],
    from: usize,
    quantile: Probability,
) -> usize
    requires within { from < length starts.now }
    requires above { slice_index (map Probability.number starts.now) from ≤ Probability.number quantile }
    ensures order { from ≤ result }
    ensures within { result < length starts.now }
    ensures above { slice_index (map Probability.number starts.now) result ≤ Probability.number quantile }
    ensures below { result + 1 < length starts.now
        → Probability.number quantile < slice_index (map Probability.number starts.now) (result + 1) }
{
    let mut symbol = from;
    while symbol + 1 < starts.len() && !quantile.is_below(starts[symbol + 1]) {
        symbol += 1;
    }
    symbol
}

/// Returns the row of `symbol`.
///
/// `starts` holds the start of each symbol's interval. The caller proves that `starts` begins with 0, never falls and
/// stays below `2 ^ PRECISION`, that the last weight fits `Probability`, that `starts` has a start for `symbol`, and
/// that `symbol` is below `2 ^ 32`.
fn make_row<Probability: BitArray, const PRECISION: usize>(
    starts: &[Probability],
    symbol: usize,
) -> Row<Probability>
    requires sized { (1 ≤ PRECISION) × (PRECISION ≤ Probability.BITS) }
    requires within { symbol < length starts.now }
    requires fits { symbol < 2 ^ 32 }
    requires rising { IsRising (map Probability.number starts.now) (2 ^ PRECISION) }
    requires last { 2 ^ PRECISION - slice_index (map Probability.number starts.now) (length starts.now - 1)
        < 2 ^ Probability.BITS }
    ensures symbol { result.symbol ≡ symbol }
    ensures row { IsBucketRow Probability.number (map Probability.number starts.now) (2 ^ PRECISION) result }
{
    Row {
        weight: weight_of::<Probability, PRECISION>(starts, symbol),
        symbol: symbol as u32,
    }
}

/// Returns the row of each bucket's first quantile, followed by the row of the last symbol.
///
/// A bucket consists of `2 ^ shift` quantiles that differ only in their lowest `shift` bits. `starts` holds the start
/// of each symbol's interval. The caller proves that `starts` begins with 0, never falls and stays below
/// `2 ^ PRECISION`, that the last weight fits `Probability`, that there are from 2 to `2 ^ 63` buckets, and that there
/// are at most `2 ^ 32` symbols. The call returns `Err(AllocError)` if there is no memory for the result.
pub fn make_rows<Probability: BitArray, const PRECISION: usize>(
    alloc: Global,
    starts: &[Probability],
    shift: u32,
) -> Result<Vec<Row<Probability>>, AllocError>
    requires sized { (1 ≤ PRECISION) × (PRECISION ≤ Probability.BITS) }
    requires some { 0 < length starts.now }
    requires few { length starts.now ≤ 2 ^ 32 }
    requires rising { IsRising (map Probability.number starts.now) (2 ^ PRECISION) }
    requires last { 2 ^ PRECISION - slice_index (map Probability.number starts.now) (length starts.now - 1)
        < 2 ^ Probability.BITS }
    requires within { (shift < PRECISION) × (PRECISION - shift ≤ 63) }
    ensures count { IfOk result (λ rows. length rows.items ≡ 2 ^ (PRECISION - shift) + 1) }
    ensures hints { IfOk result (λ rows. AreHints (map Probability.number starts.now) (2 ^ PRECISION) (2 ^ shift)
        (map (λ row. row.symbol) rows.items)) }
    ensures rows { IfOk result (λ rows.
        AreBucketRows Probability.number (map Probability.number starts.now) (2 ^ PRECISION) rows.items) }
{
    let count = 1usize << (PRECISION as u32 - shift);
    let width = Probability::unit().shift_left(shift);
    let mut first = Probability::nothing();
    let mut symbol = 0;
    let mut rows = Vec::with_capacity(alloc, count + 1)?;
    for bucket in 0..count {
        symbol = symbol_from(starts, symbol, first);
        rows.push_reserved(make_row::<Probability, PRECISION>(starts, symbol));
        first = first.wrapping_plus(width);
    }
    rows.push_reserved(make_row::<Probability, PRECISION>(starts, starts.len() - 1));
    Ok(rows)
}
