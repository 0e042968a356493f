//! `UniformModel`: a model of equally likely symbols.
//!
//! Each weight is rounded down, and the last symbol also gets the remainder. An encode therefore needs no division, and
//! a decode needs one division. The last symbol's weight exceeds the weight of each other symbol by less than the
//! number of symbols.

ghost use Rattle.std.specs.Prelude.{◌≡◌, ◌+◌, ◌/◌, ◌^◌, ◌<◌, ◌≤◌, ◌↔◌, IfOk, IsErrOf};
ghost use Rattle.constriction_models.specs.Uniform.{even_start, uniform};
ghost use Rattle.constriction_models.specs.laws.Even.{uniform_is_table, uniform_two};

use crate::errors::SupportError;
use crate::intervals::interval;
use constriction_base::model::{DecoderModel, EncoderModel, EntropyModel};
use constriction_words::{BitArray, WordOf};
use std::marker::PhantomData;

/// A model of the symbols `0`, `1`, .. with equal weights, except that the last symbol also gets the remainder.
///
/// Each weight is `2 ^ PRECISION / count`, rounded down, where `count` is the number of symbols. The last weight also
/// includes the remainder of this division.
///
/// # Examples
///
/// ```
/// let model = UniformModel::<u8, 8>::new(10)?; // weights of 25, the last one 31
/// model.left_cumulative_and_probability(&9) // Some((225, 31))
/// ```
#[derive(Drop)]
pub struct UniformModel<Probability: WordOf<u32>, const PRECISION: usize> {
    count: u64,
    /// The weight of each symbol but the last.
    weight: u64,
    of: PhantomData<Probability>,
    ghost some: { 2 ≤ count },
    ghost room: { count ≤ 2 ^ PRECISION },
    ghost share: { weight ≡ 2 ^ PRECISION / count },
    ghost positive: { 1 ≤ PRECISION },
    ghost fits: { PRECISION ≤ Probability.BITS },
}

impl<Probability: WordOf<u32>, const PRECISION: usize> UniformModel<Probability, PRECISION> {
    /// Creates the model of the symbols below `count`.
    ///
    /// The caller proves that `PRECISION` is at least 1 and at most `Probability::BITS`. See the type's documentation
    /// for an example.
    ///
    /// # Errors
    ///
    /// - `TooFew`: `count` is below 2.
    /// - `TooMany`: `count` is above `2 ^ PRECISION`.
    pub fn new(count: usize) -> Result<Self, SupportError>
        requires { (1 ≤ PRECISION) × (PRECISION ≤ Probability.BITS) }
        ensures ok { IfOk result
            (λ m. ⟦<UniformModel<Probability, PRECISION> as EntropyModel<PRECISION>>⟧.table m
            ≡ uniform PRECISION count) }
        ensures too_few { IsErrOf result SupportError.TooFew ↔ (count < 2) }
        ensures too_many { IsErrOf result SupportError.TooMany ↔ (2 ^ PRECISION < count) }
    {
        if count < 2 {
            return Err(SupportError::TooFew);
        }
        let all = 1u64 << PRECISION as u32;
        let count = count as u64;
        if count > all {
            return Err(SupportError::TooMany);
        }
        Ok(UniformModel {
            count,
            weight: all / count,
            of: PhantomData,
        })
    }

    /// Returns the start of the interval of `symbol`, or `2 ^ PRECISION` if `symbol` is the number of symbols.
    ///
    /// The last interval ends at `2 ^ PRECISION`.
    #[inline(always)]
    fn start(&self, symbol: u64) -> u64
        requires { symbol ≤ self.now.count }
        ensures { result ≡ even_start (2 ^ PRECISION) self.now.count symbol }
    {
        if symbol < self.count {
            return symbol * self.weight;
        }
        1u64 << PRECISION as u32
    }

    /// Returns the symbol whose interval holds `quantile`. The caller proves that `quantile` is below `2 ^ PRECISION`.
    #[inline(always)]
    fn symbol_at(&self, quantile: u64) -> u64
        requires { quantile < 2 ^ PRECISION }
        ensures within { result < self.now.count }
        ensures above { even_start (2 ^ PRECISION) self.now.count result ≤ quantile }
        ensures below { quantile < even_start (2 ^ PRECISION) self.now.count (result + 1) }
    {
        let symbol = quantile / self.weight;
        if symbol < self.count {
            return symbol;
        }
        self.count - 1
    }
}

impl<Probability: WordOf<u32>, const PRECISION: usize> EntropyModel<PRECISION>
    for UniformModel<Probability, PRECISION> {
    type Symbol = usize;

    type Probability = Probability;

    ghost table = { λ m. uniform PRECISION m.count };

    ghost lawful = { λ m. uniform_is_table PRECISION m.count m.some m.room };

    ghost sized = { λ m. (m.positive, m.fits) };

    ghost two_symbols = { λ m _. uniform_two PRECISION m.count m.some };
}

impl<Probability: WordOf<u32>, const PRECISION: usize> EncoderModel<PRECISION>
    for UniformModel<Probability, PRECISION> {
    #[inline(always)]
    fn left_cumulative_and_probability(
        &self,
        symbol: &usize,
    ) -> Option<(Probability, <Probability as BitArray>::NonZero)> {
        let symbol = *symbol as u64;
        if symbol >= self.count {
            return None;
        }
        let left = self.start(symbol);
        let end = self.start(symbol + 1);
        Some(interval(left, end))
    }
}

impl<Probability: WordOf<u32>, const PRECISION: usize> DecoderModel<PRECISION>
    for UniformModel<Probability, PRECISION> {
    #[inline(always)]
    fn quantile_function(
        &self,
        quantile: Probability,
    ) -> (usize, Probability, <Probability as BitArray>::NonZero) {
        let symbol = self.symbol_at(quantile.widen() as u64);
        let (left, p) = interval(self.start(symbol), self.start(symbol + 1));
        (symbol as usize, left, p)
    }
}
