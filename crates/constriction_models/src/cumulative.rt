//! `CumulativeCounts`: a model of a row of counts that keeps their sums, for rows with which many symbols are coded.
//!
//! [`CategoricalCounts`](crate::categorical::CategoricalCounts) borrows the counts, and each look-up adds up those
//! before the symbol. `CumulativeCounts` adds up all counts once, and keeps the sum before each count. It has the same
//! table. An encoder's look-up reads two sums and divides twice, whatever the number of symbols.
//!
//! To find a quantile's symbol, a decoder makes a binary search. It compares starts with the quantile before they are
//! divided, so the search needs no division.

ghost use Rattle.std.specs.Prelude.{◌≡◌, ◌+◌, ◌-◌, ◌*◌, ◌^◌, ◌<◌, ◌≤◌, ◌↔◌, length, map, take};
ghost use Rattle.std.specs.Prelude.{IfNone, IfOk, IfSome, IsErrOf};
ghost use Rattle.std.specs.List.{sum, sum_by};
ghost use Rattle.constriction_base.specs.Tables.{Sums};
ghost use Rattle.constriction_models.specs.Categorical.{MakeCategorical, categorical, shared_start};
ghost use Rattle.constriction_models.specs.Cumulative.{AreSums, differences};
ghost use Rattle.constriction_models.specs.laws.Categorical.{below_is_within, categorical_is_table, categorical_two};

use crate::categorical::quotient;
use crate::intervals::interval;
use constriction_base::model::{DecoderModel, EncoderModel, EntropyModel};
use constriction_words::{BitArray, WordOf};
use std::alloc::Global;
use std::marker::PhantomData;
use thiserror::Error;

/// The error for counts whose model can't be made.
///
/// # Examples
///
/// ```
/// CumulativeCounts::<u16, 12>::new(alloc, &[0u32, 0]) // Err(CumulativeError::Empty)
/// ```
#[derive(Debug, Clone, Copy, PartialEq, Eq, Hash, Error)]
pub enum CumulativeError {
    /// There are `2 ^ PRECISION` counts or more.
    #[error("as many counts as two to the precision, or more")]
    TooMany,
    /// No count is above 0.
    #[error("no count above 0")]
    Empty,
    /// The counts add up to `2^40` or more.
    #[error("counts that add up to two to 40 or more")]
    TooLarge,
    /// There is no memory for the sums.
    #[error("out of memory")]
    Memory,
}

/// A model of the symbols `0`, `1`, .. that keeps the sum of the counts before each symbol.
///
/// The table is that of [`CategoricalCounts`](crate::categorical::CategoricalCounts) for the same counts. Let `n` be
/// the number of counts, and `total` their sum. Symbol `i` begins at `before * (2 ^ PRECISION - n) / total`, rounded
/// down, plus `i`, where `before` is the sum of the counts before `i`. The model doesn't borrow the counts. It
/// allocates `8 * n + 8` bytes.
///
/// # Examples
///
/// ```
/// let model = CumulativeCounts::<u16, 12>::new(alloc, &[3u64, 1, 0, 4])?;
/// model.left_cumulative_and_probability(&1) // Some((1535, 513))
/// model.quantile_function(2048) // (2, 2048, 1)
/// ```
#[derive(Drop)]
pub struct CumulativeCounts<Probability: WordOf<u32>, const PRECISION: usize> {
    /// The sum of the counts before each symbol, followed by the sum of all counts.
    sums: Vec<u64>,
    /// The sum of all counts.
    total: u64,
    /// The number of quantiles that the counts share: `2 ^ PRECISION` less one for each symbol.
    spare: u64,
    of: PhantomData<Probability>,
    ghost listed: { AreSums (differences sums.items) sums.items },
    ghost summed: { total ≡ sum (differences sums.items) },
    ghost shared: { spare + length (differences sums.items) ≡ 2 ^ PRECISION },
    ghost some: { 0 < sum (differences sums.items) },
    ghost most: { sum (differences sums.items) < 1099511627776 },
    ghost positive: { 1 ≤ PRECISION },
    ghost few: { PRECISION ≤ 24 },
    ghost fits: { PRECISION < Probability.BITS },
}

/// Returns the sum of `counts`, or `None` if the sum is `2^40` or more.
fn checked_sum_of<C: WordOf<u64>>(counts: &[C]) -> Option<u64>
    ensures total { IfSome result (λ total. total ≡ sum_by C.number counts.now) }
    ensures fits { IfSome result (λ total. total < 1099511627776) }
    ensures none { IfNone result (1099511627776 ≤ sum_by C.number counts.now) }
{
    let mut total = 0u64;
    for count in counts {
        let more: u64 = (*count).widen();
        if more >= 1099511627776 - total {
            return None;
        }
        total += more;
    }
    Some(total)
}

/// Returns the sum of the counts before each count, followed by the sum of all counts.
///
/// The caller proves that there are fewer than `2^24` counts, and that they add up to less than `2^40`. The call
/// returns `None` if there is no memory for the sums.
fn sums_of<C: WordOf<u64>>(alloc: Global, counts: &[C]) -> Option<Vec<u64>>
    requires few { length counts.now < 16777216 }
    requires total { sum_by C.number counts.now < 1099511627776 }
    ensures { IfSome result (λ sums. Sums C.number counts.now sums.items (length counts.now + 1)) }
{
    let mut before = 0u64;
    let mut sums = Vec::with_capacity(alloc, counts.len() + 1).ok()?;
    sums.push_reserved(before);
    for count in counts {
        let more: u64 = (*count).widen();
        before += more;
        sums.push_reserved(before);
    }
    Some(sums)
}

impl<Probability: WordOf<u32>, const PRECISION: usize> CumulativeCounts<Probability, PRECISION> {
    /// Creates the model of `counts`, whose type is `u8`, `u16`, `u32` or `u64`.
    ///
    /// The call goes through the counts twice, and allocates the memory from `alloc`. The caller proves that
    /// `PRECISION` is at least 1, at most 24, and below `Probability::BITS`. See the type's documentation for an
    /// example.
    ///
    /// # Errors
    ///
    /// - `TooMany`: there are `2 ^ PRECISION` counts or more.
    /// - `Empty`: there are fewer counts, and none is above 0.
    /// - `TooLarge`: there are fewer counts, and they add up to `2^40` or more.
    /// - `Memory`: none of these errors applies, but there is no memory for the sums.
    pub fn new<C: WordOf<u64>>(alloc: Global, counts: &[C]) -> Result<Self, CumulativeError>
        requires sizes { (1 ≤ PRECISION) × (PRECISION ≤ 24) × (PRECISION < Probability.BITS) }
        ensures ok { IfOk result
            (λ m. ⟦<CumulativeCounts<Probability, PRECISION> as EntropyModel<PRECISION>>⟧.table m
            ≡ categorical PRECISION (map C.number counts.now)) }
        ensures fit { IfOk result (λ _. MakeCategorical PRECISION (map C.number counts.now)) }
        ensures too_many { IsErrOf result CumulativeError.TooMany ↔ (2 ^ PRECISION ≤ length counts.now) }
        ensures empty { IsErrOf result CumulativeError.Empty
            ↔ ((length counts.now < 2 ^ PRECISION) × (sum_by C.number counts.now ≡ 0)) }
        ensures too_large { IsErrOf result CumulativeError.TooLarge
            ↔ ((length counts.now < 2 ^ PRECISION) × (1099511627776 ≤ sum_by C.number counts.now)) }
        ensures memory { IsErrOf result CumulativeError.Memory
            → MakeCategorical PRECISION (map C.number counts.now) }
    {
        let all = 1u64 << PRECISION as u32;
        let symbols = counts.len() as u64;
        if symbols >= all {
            return Err(CumulativeError::TooMany);
        }
        let Some(total) = checked_sum_of(counts) else {
            return Err(CumulativeError::TooLarge);
        };
        if total == 0 {
            return Err(CumulativeError::Empty);
        }
        let Some(sums) = sums_of(alloc, counts) else {
            return Err(CumulativeError::Memory);
        };
        Ok(CumulativeCounts {
            sums,
            total,
            spare: all - symbols,
            of: PhantomData,
        })
    }

    /// Returns the sum of the counts before `symbol`, which is at most the number of symbols.
    #[inline(always)]
    fn sum_before(&self, symbol: usize) -> u64
        requires { symbol ≤ length (differences self.now.sums.items) }
        ensures { result ≡ sum (take symbol (differences self.now.sums.items)) }
    {
        self.sums[symbol]
    }

    /// Returns the start of the interval of `symbol`.
    ///
    /// If `symbol` is the number of symbols, the call returns `2 ^ PRECISION`.
    #[inline(always)]
    fn start(&self, symbol: usize) -> u64
        requires { symbol ≤ length (differences self.now.sums.items) }
        ensures { result ≡ shared_start (2 ^ PRECISION) (differences self.now.sums.items) symbol }
    {
        let shared = self.sum_before(symbol) * self.spare;
        quotient(shared, self.total) + symbol as u64
    }

    /// Returns the start of the interval of `symbol` times the sum of the counts, before it is rounded down.
    ///
    /// `symbol` is at most the number of symbols.
    #[inline(always)]
    fn numerator(&self, symbol: usize) -> u64
        requires { symbol ≤ length (differences self.now.sums.items) }
        ensures { result ≡ sum (take symbol (differences self.now.sums.items)) * self.now.spare
            + symbol * sum (differences self.now.sums.items) }
    {
        self.sum_before(symbol) * self.spare + symbol as u64 * self.total
    }

    /// Returns the start and the length of the interval of `symbol`. The caller proves that the model has `symbol`.
    #[inline(always)]
    fn entry(&self, symbol: usize) -> (Probability, <Probability as BitArray>::NonZero)
        requires { symbol < length (differences self.now.sums.items) }
        ensures lower { Probability.number result.0
            ≡ shared_start (2 ^ PRECISION) (differences self.now.sums.items) symbol }
        ensures long { Probability.nonzero_number result.1
            ≡ shared_start (2 ^ PRECISION) (differences self.now.sums.items) (symbol + 1)
            - shared_start (2 ^ PRECISION) (differences self.now.sums.items) symbol }
    {
        let left = self.start(symbol);
        let end = self.start(symbol + 1);
        interval(left, end)
    }

    /// Returns the symbol whose interval holds `quantile`. The caller proves that `quantile` is below `2 ^ PRECISION`.
    #[inline(always)]
    fn symbol_at(&self, quantile: u64) -> usize
        requires { quantile < 2 ^ PRECISION }
        ensures within { result < length (differences self.now.sums.items) }
        ensures above { shared_start (2 ^ PRECISION) (differences self.now.sums.items) result ≤ quantile }
        ensures below { quantile < shared_start (2 ^ PRECISION) (differences self.now.sums.items) (result + 1) }
    {
        let limit = (quantile + 1) * self.total;
        let mut low = 0;
        let mut high = self.sums.len() - 1;
        while high - low > 1 {
            let middle = low + (high - low) / 2;
            if self.numerator(middle) < limit {
                low = middle;
            } else {
                high = middle;
            }
        }
        low
    }
}

impl<Probability: WordOf<u32>, const PRECISION: usize> EntropyModel<PRECISION>
    for CumulativeCounts<Probability, PRECISION> {
    type Symbol = usize;

    type Probability = Probability;

    ghost table = { λ m. categorical PRECISION (differences m.sums.items) };

    ghost lawful = { λ m. categorical_is_table PRECISION m.spare (differences m.sums.items) m.shared m.some };

    ghost sized = { λ m. (m.positive, below_is_within PRECISION Probability.BITS m.fits) };

    ghost two_symbols = { λ m full.
        categorical_two PRECISION Probability.BITS (differences m.sums.items) m.fits full };
}

impl<Probability: WordOf<u32>, const PRECISION: usize> EncoderModel<PRECISION>
    for CumulativeCounts<Probability, PRECISION> {
    #[inline(always)]
    fn left_cumulative_and_probability(
        &self,
        symbol: &usize,
    ) -> Option<(Probability, <Probability as BitArray>::NonZero)> {
        let symbol = *symbol;
        if symbol >= self.sums.len() - 1 {
            return None;
        }
        Some(self.entry(symbol))
    }
}

impl<Probability: WordOf<u32>, const PRECISION: usize> DecoderModel<PRECISION>
    for CumulativeCounts<Probability, PRECISION> {
    #[inline(always)]
    fn quantile_function(
        &self,
        quantile: Probability,
    ) -> (usize, Probability, <Probability as BitArray>::NonZero) {
        let symbol = self.symbol_at(quantile.widen() as u64);
        let (left, p) = self.entry(symbol);
        (symbol, left, p)
    }
}
