//! `CategoricalCounts`: a model of a row of counts, whose table is computed in integers at each look-up.
//!
//! Each symbol has one quantile of its own, and the counts share the other quantiles in proportion. So each symbol has
//! a weight of at least 1, and the start of a symbol's interval follows from the sum of the counts before the symbol. A
//! look-up adds up counts and divides twice. It needs no memory and stores no table. For a row with which many symbols
//! are coded, [`CumulativeCounts`](crate::cumulative::CumulativeCounts) keeps the sums.
//!
//! To find a quantile's symbol, a decoder compares starts with the quantile before they are divided, so the search
//! needs no division.

ghost use Rattle.std.specs.Prelude.{◌≡◌, ◌+◌, ◌-◌, ◌*◌, ◌/◌, ◌^◌, ◌<◌, ◌≤◌, ◌↔◌, length, take};
ghost use Rattle.std.specs.Prelude.{IfNone, IfOk, IfSome, IsErrOf, IsOk, IsTrue};
ghost use Rattle.std.specs.List.{sum, sum_by};
ghost use Rattle.constriction_base.specs.Tables.{Has, Impossible};
ghost use Rattle.constriction_models.specs.Categorical.{MakeCategorical, categorical, shared_start};
ghost use Rattle.constriction_models.specs.laws.Categorical.{below_is_within, categorical_is_table, categorical_two};

use crate::intervals::interval;
use constriction_base::model::{DecoderModel, EncoderModel, EntropyModel};
use constriction_words::{BitArray, WordOf};
use std::marker::PhantomData;
use thiserror::Error;

/// The error for counts that have no table.
///
/// # Examples
///
/// ```
/// CategoricalCounts::<u16, 12>::new(&[0, 0]) // Err(CategoricalError::Empty)
/// ```
#[derive(Debug, Clone, Copy, PartialEq, Eq, Hash, Error)]
pub enum CategoricalError {
    /// There are `2 ^ PRECISION` counts or more.
    #[error("as many counts as two to the precision, or more")]
    TooMany,
    /// No count is above 0.
    #[error("no count above 0")]
    Empty,
    /// The counts add up to `2^40` or more.
    #[error("counts that add up to two to 40 or more")]
    TooLarge,
}

/// A model of the symbols `0`, `1`, .. that borrows a count for each symbol.
///
/// Let `n` be the number of counts, and `total` their sum. Symbol `i` begins at `before * (2 ^ PRECISION - n) / total`,
/// rounded down, plus `i`, where `before` is the sum of the counts before `i`. A symbol ends where the next one begins,
/// and the last symbol ends at `2 ^ PRECISION`. A symbol whose count is 0 has a weight of 1.
///
/// # Examples
///
/// ```
/// let model = CategoricalCounts::<u16, 12>::new(&[3, 1, 0, 4])?;
/// model.left_cumulative_and_probability(&1) // Some((1535, 513))
/// model.quantile_function(2048) // (2, 2048, 1)
/// ```
#[derive(Drop)]
pub struct CategoricalCounts<'a, Probability: WordOf<u32>, const PRECISION: usize> {
    counts: &'a [u32],
    /// The sum of the counts.
    total: u64,
    /// The number of quantiles that the counts share: `2 ^ PRECISION` less one for each symbol.
    spare: u64,
    of: PhantomData<Probability>,
    ghost summed: { total ≡ sum counts.now },
    ghost shared: { spare + length counts.now ≡ 2 ^ PRECISION },
    ghost some: { 0 < sum counts.now },
    ghost most: { sum counts.now < 1099511627776 },
    ghost positive: { 1 ≤ PRECISION },
    ghost few: { PRECISION ≤ 24 },
    ghost fits: { PRECISION < Probability.BITS },
}

/// The number of counts that a search for a quantile's symbol adds up before it compares.
const BLOCK: usize = 32;

/// Returns the sum of `counts`. The caller proves that there are at most `2^24` counts.
#[inline]
fn sum_of(counts: &[u32]) -> u64
    requires { length counts.now ≤ 16777216 }
    ensures { result ≡ sum counts.now }
{
    let mut total = 0u64;
    for count in counts {
        total += *count as u64;
    }
    total
}

/// Returns the sum of all `count / 2^16`, each rounded down. The caller proves that there are at most `2^16` counts.
#[inline]
fn sum_of_high(counts: &[u32]) -> u32
    requires { length counts.now ≤ 65536 }
    ensures { result ≡ sum_by (λ count. count / 65536) counts.now }
{
    let mut total = 0u32;
    for count in counts {
        total += *count >> 16;
    }
    total
}

/// Returns whether a count is above 0.
#[inline]
fn is_some_above_0(counts: &[u32]) -> bool
    ensures { IsTrue result ↔ (0 < sum counts.now) }
{
    for count in counts {
        if *count > 0 {
            return true;
        }
    }
    false
}

/// Returns `number / divisor`, rounded down. The caller proves that `divisor` is above 0.
///
/// The call is faster for divisors below `2^32`. Two calls for one divisor share what takes most of the time.
#[inline(always)]
pub(crate) fn quotient(number: u64, divisor: u64) -> u64
    requires { 0 < divisor }
    ensures { result ≡ number / divisor }
{
    if divisor <= 0xffff_ffff {
        number.div_rem(divisor, 24).0
    } else {
        number / divisor
    }
}

impl<'a, Probability: WordOf<u32>, const PRECISION: usize> CategoricalCounts<
    'a,
    Probability,
    PRECISION,
> {
    /// Creates the model of `counts`.
    ///
    /// The caller proves that `PRECISION` is at least 1, at most 24, and below `Probability::BITS`. See the type's
    /// documentation for an example.
    ///
    /// # Errors
    ///
    /// - `TooMany`: there are `2 ^ PRECISION` counts or more.
    /// - `Empty`: there are fewer counts, and none is above 0.
    /// - `TooLarge`: there are fewer counts, and they add up to `2^40` or more.
    pub fn new(counts: &'a [u32]) -> Result<Self, CategoricalError>
        requires sizes { (1 ≤ PRECISION) × (PRECISION ≤ 24) × (PRECISION < Probability.BITS) }
        ensures ok { IfOk result
            (λ m. ⟦<CategoricalCounts<'a, Probability, PRECISION> as EntropyModel<PRECISION>>⟧.table m
            ≡ categorical PRECISION counts.now) }
        ensures fit { IsOk result ↔ MakeCategorical PRECISION counts.now }
        ensures too_many { IsErrOf result CategoricalError.TooMany ↔ (2 ^ PRECISION ≤ length counts.now) }
        ensures empty { IsErrOf result CategoricalError.Empty
            ↔ ((length counts.now < 2 ^ PRECISION) × (sum counts.now ≡ 0)) }
        ensures too_large { IsErrOf result CategoricalError.TooLarge
            ↔ ((length counts.now < 2 ^ PRECISION) × (1099511627776 ≤ sum counts.now)) }
    {
        let all = 1u64 << PRECISION as u32;
        let symbols = counts.len() as u64;
        if symbols >= all {
            return Err(CategoricalError::TooMany);
        }
        let total = sum_of(counts);
        if total == 0 {
            return Err(CategoricalError::Empty);
        }
        if total >= 1099511627776 {
            return Err(CategoricalError::TooLarge);
        }
        Ok(CategoricalCounts {
            counts,
            total,
            spare: all - symbols,
            of: PhantomData,
        })
    }

    /// Returns whether [`CategoricalCounts::new`] succeeds, in less time if there are at most 256 counts.
    ///
    /// The caller proves that `PRECISION` is at least 1, at most 24, and below `Probability::BITS`.
    ///
    /// # Examples
    ///
    /// ```
    /// CategoricalCounts::<u16, 12>::have_table(&[3, 1, 0, 4]) // true
    /// ```
    pub fn have_table(counts: &[u32]) -> bool
        requires sizes { (1 ≤ PRECISION) × (PRECISION ≤ 24) × (PRECISION < Probability.BITS) }
        ensures { IsTrue result ↔ MakeCategorical PRECISION counts.now }
    {
        if counts.len() as u64 >= 1u64 << PRECISION as u32 {
            return false;
        }
        if counts.len() <= 256 {
            return is_some_above_0(counts);
        }
        if counts.len() <= 65536 {
            let high = sum_of_high(counts) as u64;
            if high > 0 && high + counts.len() as u64 <= 16777216 {
                return true;
            }
        }
        let total = sum_of(counts);
        total > 0 && total < 1099511627776
    }

    /// Returns the start and the length of the interval of `symbol` in the table of `counts`, or `None` if there is no
    /// count for `symbol`.
    ///
    /// A look-up in a model adds up the counts before the symbol, and [`CategoricalCounts::new`] adds up all counts.
    /// This call adds up each count once. The caller proves that the counts have a table.
    ///
    /// # Examples
    ///
    /// ```
    /// CategoricalCounts::<u16, 12>::interval_of(&[3, 1, 0, 4], 1) // Some((1535, 513))
    /// ```
    #[inline(always)]
    pub fn interval_of(
        counts: &'a [u32],
        symbol: usize,
    ) -> Option<(Probability, <Probability as BitArray>::NonZero)>
        requires sizes { (1 ≤ PRECISION) × (PRECISION ≤ 24) × (PRECISION < Probability.BITS) }
        requires counts { MakeCategorical PRECISION counts.now }
        ensures found { IfSome result (λ found. Has (categorical PRECISION counts.now) symbol
            (Probability.number found.0) (Probability.nonzero_number found.1)) }
        ensures impossible { IfNone result (Impossible (categorical PRECISION counts.now) symbol) }
    {
        if symbol >= counts.len() {
            return None;
        }
        let before = sum_of(&counts[..symbol]);
        let total = before + sum_of(&counts[symbol..]);
        let model: Self = CategoricalCounts {
            counts,
            total,
            spare: (1u64 << PRECISION as u32) - counts.len() as u64,
            of: PhantomData,
        };
        Some(model.entry(symbol, before, before + counts[symbol] as u64))
    }

    /// Returns the start of the interval of `symbol`, where `before` is the sum of the counts before `symbol`.
    ///
    /// If `symbol` is the number of symbols, the call returns `2 ^ PRECISION`.
    #[inline(always)]
    fn start(&self, before: u64, symbol: usize) -> u64
        requires within { symbol ≤ length self.now.counts.now }
        requires total { before ≡ sum (take symbol self.now.counts.now) }
        ensures { result ≡ shared_start (2 ^ PRECISION) self.now.counts.now symbol }
    {
        let shared = before * self.spare;
        quotient(shared, self.total) + symbol as u64
    }

    /// Returns the start of the interval of `symbol` times the sum of the counts, before it is rounded down.
    ///
    /// `before` is the sum of the counts before `symbol`, which is at most the number of symbols.
    #[inline(always)]
    fn numerator(&self, before: u64, symbol: usize) -> u64
        requires within { symbol ≤ length self.now.counts.now }
        requires total { before ≤ sum self.now.counts.now }
        ensures { result ≡ before * self.now.spare + symbol * sum self.now.counts.now }
    {
        before * self.spare + symbol as u64 * self.total
    }

    /// Returns the start and the length of the interval of `symbol`.
    ///
    /// `before` is the sum of the counts before `symbol`, and `next` is the sum of the counts before the next symbol.
    /// The caller proves that the model has `symbol`.
    #[inline(always)]
    fn entry(
        &self,
        symbol: usize,
        before: u64,
        next: u64,
    ) -> (Probability, <Probability as BitArray>::NonZero)
        requires within { symbol < length self.now.counts.now }
        requires total { before ≡ sum (take symbol self.now.counts.now) }
        requires end { next ≡ sum (take (symbol + 1) self.now.counts.now) }
        ensures lower { Probability.number result.0 ≡ shared_start (2 ^ PRECISION) self.now.counts.now symbol }
        ensures long { Probability.nonzero_number result.1
            ≡ shared_start (2 ^ PRECISION) self.now.counts.now (symbol + 1)
            - shared_start (2 ^ PRECISION) self.now.counts.now symbol }
    {
        let left = self.start(before, symbol);
        let end = self.start(next, symbol + 1);
        interval(left, end)
    }

    /// Returns a symbol whose start has a numerator below `limit`, and the sum of the counts before the symbol.
    ///
    /// The symbol is the first of its block of 32 symbols, and the next block begins at or above `limit`, but no
    /// contract promises this. The caller proves that `limit` is above 0, and at most the numerator of the start past
    /// the last symbol.
    #[inline(always)]
    fn skip(&self, limit: u64) -> (usize, u64)
        requires some { 0 < limit }
        requires most { limit ≤ 2 ^ PRECISION * sum self.now.counts.now }
        ensures within { result.0 < length self.now.counts.now }
        ensures total { result.1 ≡ sum (take result.0 self.now.counts.now) }
        ensures low { result.1 * self.now.spare + result.0 * sum self.now.counts.now < limit }
    {
        let mut first = 0;
        let mut before = 0u64;
        for _block in 0..self.counts.len() / BLOCK {
            let end = first + BLOCK;
            let next = before + sum_of(&self.counts[first..end]);
            if self.numerator(next, end) >= limit {
                return (first, before);
            }
            first = end;
            before = next;
        }
        (first, before)
    }

    /// Returns the symbol whose interval holds `quantile`, and the sums of the counts before it and before the next
    /// symbol.
    ///
    /// The caller proves that `quantile` is below `2 ^ PRECISION`.
    #[inline(always)]
    fn symbol_at(&self, quantile: u64) -> (usize, u64, u64)
        requires { quantile < 2 ^ PRECISION }
        ensures within { result.0 < length self.now.counts.now }
        ensures total { result.1 ≡ sum (take result.0 self.now.counts.now) }
        ensures end { result.2 ≡ sum (take (result.0 + 1) self.now.counts.now) }
        ensures above { shared_start (2 ^ PRECISION) self.now.counts.now result.0 ≤ quantile }
        ensures below { quantile < shared_start (2 ^ PRECISION) self.now.counts.now (result.0 + 1) }
    {
        let limit = (quantile + 1) * self.total;
        let (first, mut before) = self.skip(limit);
        for symbol in first..self.counts.len() - 1 {
            let next = before + self.counts[symbol] as u64;
            if self.numerator(next, symbol + 1) >= limit {
                return (symbol, before, next);
            }
            before = next;
        }
        (self.counts.len() - 1, before, self.total)
    }
}

impl<'a, Probability: WordOf<u32>, const PRECISION: usize> EntropyModel<PRECISION>
    for CategoricalCounts<'a, Probability, PRECISION> {
    type Symbol = usize;

    type Probability = Probability;

    ghost table = { λ m. categorical PRECISION m.counts.now };

    ghost lawful = { λ m. categorical_is_table PRECISION m.spare m.counts.now m.shared m.some };

    ghost sized = { λ m. (m.positive, below_is_within PRECISION Probability.BITS m.fits) };

    ghost two_symbols = { λ m full. categorical_two PRECISION Probability.BITS m.counts.now m.fits full };
}

impl<'a, Probability: WordOf<u32>, const PRECISION: usize> EncoderModel<PRECISION>
    for CategoricalCounts<'a, Probability, PRECISION> {
    #[inline(always)]
    fn left_cumulative_and_probability(
        &self,
        symbol: &usize,
    ) -> Option<(Probability, <Probability as BitArray>::NonZero)> {
        let symbol = *symbol;
        if symbol >= self.counts.len() {
            return None;
        }
        let before = sum_of(&self.counts[..symbol]);
        let next = before + self.counts[symbol] as u64;
        Some(self.entry(symbol, before, next))
    }
}

impl<'a, Probability: WordOf<u32>, const PRECISION: usize> DecoderModel<PRECISION>
    for CategoricalCounts<'a, Probability, PRECISION> {
    #[inline(always)]
    fn quantile_function(
        &self,
        quantile: Probability,
    ) -> (usize, Probability, <Probability as BitArray>::NonZero) {
        let (symbol, before, next) = self.symbol_at(quantile.widen() as u64);
        let (left, p) = self.entry(symbol, before, next);
        (symbol, left, p)
    }
}
