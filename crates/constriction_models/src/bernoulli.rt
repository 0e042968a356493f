//! `BernoulliModel`: a model of two symbols.

ghost use Rattle.std.specs.Prelude.{◌≡◌, ◌-◌, ◌^◌, ◌<◌, ◌≤◌, ◌⊎◌, ◌↔◌, IfSome, IsNone};
ghost use Rattle.constriction_base.specs.Tables.{Has};
ghost use Rattle.constriction_models.specs.Bernoulli.{bernoulli};
ghost use Rattle.constriction_models.specs.laws.Bernoulli.{bernoulli_is_table, bernoulli_two};

use crate::intervals::interval;
use constriction_base::model::{DecoderModel, EncoderModel, EntropyModel};
use constriction_words::{BitArray, WordOf};
use std::marker::PhantomData;

/// A model of the symbols `false` and `true`. The interval of `false` begins at 0.
///
/// # Examples
///
/// ```
/// // `true` has a probability of 3 in 256.
/// if let Some(model) = BernoulliModel::<u8, 8>::new(3) {
///     model.left_cumulative_and_probability(&true) // Some((253, 3))
/// }
/// ```
#[derive(Drop)]
pub struct BernoulliModel<Probability: WordOf<u32>, const PRECISION: usize> {
    /// The weight of `true`.
    weight: u64,
    of: PhantomData<Probability>,
    ghost some: { 0 < weight },
    ghost less: { weight < 2 ^ PRECISION },
    ghost positive: { 1 ≤ PRECISION },
    ghost fits: { PRECISION ≤ Probability.BITS },
}

impl<Probability: WordOf<u32>, const PRECISION: usize> BernoulliModel<Probability, PRECISION> {
    /// Creates the model in which `true` has the weight `weight`, and `false` has the rest of `2 ^ PRECISION`.
    ///
    /// The call returns `None` if and only if `weight` is 0 or at least `2 ^ PRECISION`. The caller proves that
    /// `PRECISION` is at least 1 and at most `Probability::BITS`.
    ///
    /// # Examples
    ///
    /// ```
    /// BernoulliModel::<u8, 8>::new(0).is_none() // true
    /// ```
    pub fn new(weight: Probability) -> Option<Self>
        requires { (1 ≤ PRECISION) × (PRECISION ≤ Probability.BITS) }
        ensures ok { IfSome result (λ m. ⟦<BernoulliModel<Probability, PRECISION> as EntropyModel<PRECISION>>⟧.table m
            ≡ bernoulli PRECISION (Probability.number weight)) }
        ensures none { IsNone result ↔ ((Probability.number weight ≡ 0) ⊎ (2 ^ PRECISION ≤ Probability.number weight)) }
    {
        let weight = weight.widen() as u64;
        if weight == 0 || weight >= 1u64 << PRECISION as u32 {
            return None;
        }
        Some(BernoulliModel {
            weight,
            of: PhantomData,
        })
    }

    /// Returns the start and the length of the interval of `symbol`.
    #[inline(always)]
    fn interval_of(&self, symbol: bool) -> (Probability, <Probability as BitArray>::NonZero)
        ensures { Has (bernoulli PRECISION self.now.weight) symbol (Probability.number result.0)
            (Probability.nonzero_number result.1) }
    {
        let all = 1u64 << PRECISION as u32;
        let rest = all - self.weight;
        if symbol {
            return interval(rest, all);
        }
        interval(0, rest)
    }
}

impl<Probability: WordOf<u32>, const PRECISION: usize> EntropyModel<PRECISION>
    for BernoulliModel<Probability, PRECISION> {
    type Symbol = bool;

    type Probability = Probability;

    ghost table = { λ m. bernoulli PRECISION m.weight };

    ghost lawful = { λ m. bernoulli_is_table PRECISION m.weight m.some m.less };

    ghost sized = { λ m. (m.positive, m.fits) };

    ghost two_symbols = { λ m _. bernoulli_two PRECISION m.weight };
}

impl<Probability: WordOf<u32>, const PRECISION: usize> EncoderModel<PRECISION>
    for BernoulliModel<Probability, PRECISION> {
    #[inline(always)]
    fn left_cumulative_and_probability(
        &self,
        symbol: &bool,
    ) -> Option<(Probability, <Probability as BitArray>::NonZero)> {
        Some(self.interval_of(*symbol))
    }
}

impl<Probability: WordOf<u32>, const PRECISION: usize> DecoderModel<PRECISION>
    for BernoulliModel<Probability, PRECISION> {
    #[inline(always)]
    fn quantile_function(
        &self,
        quantile: Probability,
    ) -> (bool, Probability, <Probability as BitArray>::NonZero) {
        let rest = (1u64 << PRECISION as u32) - self.weight;
        let symbol = quantile.widen() as u64 >= rest;
        let (left, p) = self.interval_of(symbol);
        (symbol, left, p)
    }
}
