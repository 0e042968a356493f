//! `LeakyQuantizer`: turns a distribution into a model of integers, by cutting it halfway between the integers.

mod indexed;

ghost use Rattle.std.specs.Prelude.{◌≡◌, ℕ, pos, ◌+◌, ◌-◌, ◌*◌, ◌^◌, ◌<◌, ◌≤◌, ◌+ℤ◌, ◌≤ℤ◌, ◌↔◌, IfOk};
ghost use Rattle.std.specs.Prelude.{IsErrOf, MatchOption};
ghost use Rattle.constriction_models.specs.Quantized.{symbol_of, below_edge, start_of, quantized};
ghost use Rattle.constriction_models.specs.laws.Quantizing.{quantized_is_table, quantized_two};

use crate::distribution::CumulativeDistribution;
use crate::errors::SupportError;
use crate::intervals::interval;
use constriction_base::model::{DecoderModel, EncoderModel, EntropyModel};
use constriction_words::{BitArray, Reciprocal, WordOf};
pub use indexed::IndexedDistribution;
use std::marker::PhantomData;

/// A quantizer that turns distributions into models of the integers in a range.
///
/// The quantizer cuts a distribution halfway between neighbouring symbols. Every symbol of the range gets a weight
/// above 0, however unlikely the symbol is. In this sense the quantizer leaks. All other symbols are impossible.
///
/// # Examples
///
/// ```
/// let quantizer = LeakyQuantizer::<u32, 24>::new(-127, 128)?;
/// if let Some(gaussian) = Gaussian::new(229376, 147456) {
///     // Mean 3.5 and standard deviation 2.25, as multiples of 2^-16.
///     coder.encode_symbol(&7, quantizer.quantize(gaussian))?;
/// }
/// ```
#[derive(Drop)]
pub struct LeakyQuantizer<Probability: WordOf<u32>, const PRECISION: usize> {
    min: i32,
    count: u64,
    of: PhantomData<Probability>,
    ghost some: { 2 ≤ count },
    ghost room: { count ≤ 2 ^ PRECISION },
    ghost ends: { (min +ℤ pos count) ≤ℤ pos 2147483648 },
    ghost positive: { 1 ≤ PRECISION },
    ghost fits: { PRECISION ≤ Probability.BITS },
}

impl<Probability: WordOf<u32>, const PRECISION: usize> LeakyQuantizer<Probability, PRECISION> {
    ghost use Rattle.constriction_models.specs.Quantizers.{first_symbol, symbol_count};

    /// Creates the quantizer of the symbols from `min` to `max`, both included.
    ///
    /// The caller proves that `PRECISION` is at least 1 and at most `Probability::BITS`. See the type's documentation
    /// for an example.
    ///
    /// # Errors
    ///
    /// - `TooFew`: `max` isn't above `min`.
    /// - `TooMany`: there are more than `2 ^ PRECISION` symbols.
    pub fn new(min: i32, max: i32) -> Result<Self, SupportError>
        requires { (1 ≤ PRECISION) × (PRECISION ≤ Probability.BITS) }
        ensures first { IfOk result (λ q. first_symbol q ≡ min) }
        ensures count { IfOk result (λ q. (min +ℤ pos (symbol_count q)) ≡ (max +ℤ pos 1)) }
        ensures too_few { IsErrOf result SupportError.TooFew ↔ (max ≤ℤ min) }
        ensures too_many { IsErrOf result SupportError.TooMany ↔ ((min +ℤ pos (2 ^ PRECISION)) ≤ℤ max) }
    {
        if max <= min {
            return Err(SupportError::TooFew);
        }
        let count = (max as i64 - min as i64) as u64 + 1;
        if count > 1u64 << PRECISION as u32 {
            return Err(SupportError::TooMany);
        }
        Ok(LeakyQuantizer {
            min,
            count,
            of: PhantomData,
        })
    }

    /// Cuts `distribution` halfway between the symbols of the quantizer's range, and returns the model.
    ///
    /// [`LeakilyQuantizedDistribution`] states the weights. See the documentation of [`LeakyQuantizer`] for an example.
    pub fn quantize<D: CumulativeDistribution>(
        &self,
        distribution: D,
    ) -> LeakilyQuantizedDistribution<D, Probability, PRECISION>
        ensures table { ⟦<LeakilyQuantizedDistribution<D, Probability, PRECISION> as EntropyModel<PRECISION>>⟧.table
            result ≡ quantized PRECISION (D.below distribution) (first_symbol self.now) (symbol_count self.now) }
    {
        LeakilyQuantizedDistribution {
            distribution,
            quantizer: LeakyQuantizer {
                min: self.min,
                count: self.count,
                of: PhantomData,
            },
        }
    }
}

/// A distribution cut halfway between symbols: a model in which every symbol of a range has an interval.
///
/// At a precision of `P` bits, each of the `n` symbols gets 1 of the `2^P` quantiles. The symbols share the other
/// quantiles in proportion to their probabilities, up to rounding. Let `k` be a symbol minus the first symbol of the
/// range. The interval of the symbol begins at `floor((2^P - n) * F / 2^32) + k`. Here `F` is the probability below the
/// edge between the symbol and the symbol before it, in units of `2^-32`. For the first symbol, `F` is 0. The last
/// interval ends at `2^P`, which is the value of the formula for `k = n` and `F = 2^32`.
///
/// # Examples
///
/// ```
/// let quantizer = LeakyQuantizer::<u32, 24>::new(0, 1)?;
/// if let Some(gaussian) = Gaussian::new(32768, 65536) {
///     // The mean 0.5 is the edge between the two symbols.
///     quantizer.quantize(gaussian).left_cumulative_and_probability(&1) // Some((8388608, 8388608))
/// }
/// ```
#[derive(Drop)]
pub struct LeakilyQuantizedDistribution<
    D: CumulativeDistribution,
    Probability: WordOf<u32>,
    const PRECISION: usize,
> {
    distribution: D,
    quantizer: LeakyQuantizer<Probability, PRECISION>,
}

impl<
    D: CumulativeDistribution,
    Probability: WordOf<u32>,
    const PRECISION: usize,
> LeakilyQuantizedDistribution<D, Probability, PRECISION> {
    /// Returns the probability below the edge between symbols `k - 1` and `k`, in units of `2^-32`.
    ///
    /// Symbol 0 is the first symbol of the range. The result is 0 if `k` is 0, and `2^32` if `k` is the number of
    /// symbols. The call asks the distribution in these cases too, so that the compiler can choose among the three
    /// results without a branch, which a processor would often mispredict.
    #[inline(always)]
    fn below(&self, k: u64) -> u64
        requires { k ≤ self.now.quantizer.count }
        ensures { result ≡ below_edge (D.below self.now.distribution) self.now.quantizer.min
            self.now.quantizer.count k }
    {
        let place = (self.quantizer.min as i64 + k as i64) * 65536 - 32768;
        let below = self.distribution.cumulative(place);
        if k == 0 {
            0
        } else if k >= self.quantizer.count {
            4294967296
        } else {
            below
        }
    }

    /// Returns `2 ^ PRECISION` minus the number of symbols.
    #[inline(always)]
    fn spare_quantiles(&self) -> u64
        ensures { result ≡ 2 ^ PRECISION - self.now.quantizer.count }
    {
        (1u64 << PRECISION as u32) - self.quantizer.count
    }

    /// Returns the start of the interval of symbol `k`, or `2 ^ PRECISION` if `k` is the number of symbols.
    ///
    /// Symbol 0 is the first symbol of the range. The last interval ends at `2 ^ PRECISION`.
    #[inline(always)]
    fn start(&self, k: u64) -> u64
        requires { k ≤ self.now.quantizer.count }
        ensures { result ≡ start_of PRECISION
            (D.below self.now.distribution) self.now.quantizer.min self.now.quantizer.count k }
    {
        self.spare_quantiles() * self.below(k) / 4294967296 + k
    }

    /// Returns the symbol that lies `k` above the first symbol of the range.
    ///
    /// The caller proves that `k` is below the number of symbols in the range.
    #[inline(always)]
    fn symbol(&self, k: u64) -> i32
        requires { k < self.now.quantizer.count }
        ensures { result ≡ symbol_of self.now.quantizer.min k }
    {
        (self.quantizer.min as i64 + k as i64) as i32
    }

    /// Estimates how far the symbol whose interval holds `quantile` lies above the first symbol of the range.
    ///
    /// The caller proves that `quantile` is below `2 ^ PRECISION`. The estimate may be wrong, and may lie above the
    /// last symbol.
    #[inline(always)]
    fn estimate(&self, quantile: u64) -> u64
        requires { quantile < 2 ^ PRECISION }
        ensures { result < 4294967296 }
    {
        let below = quantile << (32 - PRECISION as u32);
        let place = self.distribution.guess(below);
        if place > 281474976710656 || place < -281474976710656 {
            return 0;
        }
        let symbol = (place + 32768) / 65536 - self.quantizer.min as i64;
        if symbol < 0 || symbol > 4294967295 {
            return 0;
        }
        symbol as u64
    }

    /// Returns how far `symbol` lies above the first symbol of the range, or `None` if `symbol` isn't in the range.
    #[inline(always)]
    fn place(&self, symbol: i32) -> Option<u64>
        ensures { MatchOption result
            ((k : ℕ) → k < self.now.quantizer.count → symbol_of self.now.quantizer.min k ≡ symbol → ⊥)
            (λ k. (k < self.now.quantizer.count) × (symbol ≡ symbol_of self.now.quantizer.min k)) }
    {
        let from = symbol as i64 - self.quantizer.min as i64;
        if from < 0 || from as u64 >= self.quantizer.count {
            return None;
        }
        Some(from as u64)
    }
}

impl<D: CumulativeDistribution, Probability: WordOf<u32>, const PRECISION: usize> EntropyModel<
    PRECISION,
> for LeakilyQuantizedDistribution<D, Probability, PRECISION> {
    type Symbol = i32;

    type Probability = Probability;

    ghost table = { λ m. quantized PRECISION (D.below m.distribution) m.quantizer.min m.quantizer.count };

    ghost lawful = { λ m. quantized_is_table PRECISION (D.below m.distribution) m.quantizer.min m.quantizer.count
        (D.never_falls m.distribution) m.quantizer.some m.quantizer.room };

    ghost sized = { λ m. (m.quantizer.positive, m.quantizer.fits) };

    ghost two_symbols = { λ m _. quantized_two PRECISION
        (D.below m.distribution) m.quantizer.min m.quantizer.count m.quantizer.some };
}

impl<D: CumulativeDistribution, Probability: WordOf<u32>, const PRECISION: usize> EncoderModel<
    PRECISION,
> for LeakilyQuantizedDistribution<D, Probability, PRECISION> {
    #[inline(always)]
    fn left_cumulative_and_probability(
        &self,
        symbol: &i32,
    ) -> Option<(Probability, <Probability as BitArray>::NonZero)> {
        match self.place(*symbol) {
            None => None,
            Some(k) => {
                let left = self.start(k);
                let end = self.start(k + 1);
                Some(interval(left, end))
            }
        }
    }

    // The compiler doesn't inline the trait's own method, although an encode calls this one for each symbol.
    #[inline(always)]
    fn left_cumulative_and_reciprocal(
        &self,
        symbol: &i32,
    ) -> Option<
        (
            Probability,
            <Probability as BitArray>::NonZero,
            Option<Reciprocal>,
        ),
    > {
        let (left, p) = self.left_cumulative_and_probability(symbol)?;
        Some((left, p, None))
    }
}

impl<D: CumulativeDistribution, Probability: WordOf<u32>, const PRECISION: usize> DecoderModel<
    PRECISION,
> for LeakilyQuantizedDistribution<D, Probability, PRECISION> {
    #[inline(always)]
    fn quantile_function(
        &self,
        quantile: Probability,
    ) -> (i32, Probability, <Probability as BitArray>::NonZero) {
        let quantile = quantile.widen() as u64;
        let mut low = 0;
        let mut left = 0;
        let mut high = self.quantizer.count;
        let mut end = 1u64 << PRECISION as u32;
        let mut probe = self.estimate(quantile);
        while high - low > 1 {
            let middle = between(low, high, probe);
            let start = self.start(middle);
            if quantile < start {
                let first = high == self.quantizer.count;
                let mass = end.saturating_sub(start);
                let stride = stride(low > 0, first, start - quantile, mass, high - middle);
                high = middle;
                end = start;
                probe = middle.saturating_sub(stride);
            } else {
                let mass = start.saturating_sub(left);
                let turned = high < self.quantizer.count;
                let stride = stride(turned, low == 0, quantile - start, mass, middle - low);
                low = middle;
                left = start;
                probe = middle.saturating_add(stride);
            }
        }
        let (left, p) = interval(left, end);
        (self.symbol(low), left, p)
    }
}

/// Returns `wanted` if it lies strictly between `low` and `high`, and otherwise their mean, rounded down.
///
/// The caller proves that `low + 1` is below `high`, so the result always lies strictly between `low` and `high`.
#[inline(always)]
fn between(low: u64, high: u64, wanted: u64) -> u64
    requires { low + 1 < high }
    ensures above { low < result }
    ensures below { result < high }
{
    if wanted > low && wanted < high {
        wanted
    } else {
        low + (high - low) / 2
    }
}

/// Returns the distance, in symbols, from the last probe of a search to the next probe.
///
/// - If the search has `turned`, it has probed on both sides of the quantile. The result is `2^64 - 1`. The next probe
///   then lies outside the remaining range, so `between` halves that range.
/// - Otherwise, if this is the `first` move, the result is 1.
/// - Otherwise the last move passed `last` symbols with the total weight `mass`. The quantile lies `far` beyond the
///   start of the last probe. The result is `far * last / mass + 1`, but at most `8 * last`.
#[inline(always)]
fn stride(turned: bool, first: bool, far: u64, mass: u64, last: u64) -> u64 {
    if turned {
        return 18446744073709551615;
    }
    if first {
        return 1;
    }
    let likely = far.saturating_mul(last) / mass.max(1);
    likely.saturating_add(1).min(last.saturating_mul(8))
}
