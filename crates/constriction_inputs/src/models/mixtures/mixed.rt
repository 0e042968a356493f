//! [`MixedDistribution`]: the model of a mixture, which owns the mixture's components.

ghost use Rattle.std.specs.Prelude.{◌≡◌, ℕ, ◌+◌, ◌*◌, ◌<◌, ◌≤◌, Some, [], get_or, length, vec_capacity};
ghost use Rattle.constriction_models.specs.Mixtures.{mixed, total_weight, weighted};
ghost use Rattle.constriction_models.specs.Quantized.{indexed};
ghost use Rattle.constriction_models.specs.Quantizers.{symbol_count, first_symbol};
ghost use Rattle.constriction_models.specs.laws.Indexing.{indexed_is_table, indexed_two};
ghost use Rattle.constriction_models.specs.laws.Mixing.{mixed_is_distribution};
ghost use Rattle.constriction_inputs.specs.Mixtures.{IsMixable, components_of, or_lone, row_at_index};

use constriction_base::model::{DecoderModel, EncoderModel, EntropyModel};
use constriction_models::distribution::CumulativeDistribution;
use constriction_models::families::{Family, FamilyDistribution};
use constriction_models::mixture::{Component, Mixture};
use constriction_models::quantizer::{IndexedDistribution, LeakyQuantizer};
use constriction_words::{BitArray, WordOf};
use std::array;

/// The model of a mixture. The model owns the mixture's components.
///
/// Its symbols are indices into a quantizer's range of integers. While the list of components is empty, the mixture has
/// one component, which needs no memory of its own.
#[derive(Drop)]
pub struct MixedDistribution<D: CumulativeDistribution, P: WordOf<u32>, const PRECISION: usize> {
    pub(super) components: Vec<Component<D>>,
    pub(super) lone: Component<D>,
    pub(super) quantizer: LeakyQuantizer<P, PRECISION>,
    ghost some: { 0 < total_weight (weighted D.below (or_lone components.items lone)) },
    ghost most: { total_weight (weighted D.below (or_lone components.items lone)) ≤ 4294967296 },
}

impl<D: CumulativeDistribution, P: WordOf<u32>, const PRECISION: usize> MixedDistribution<
    D,
    P,
    PRECISION,
> {
    /// Creates the model of a mixture of the component `lone`, over the range of `quantizer`.
    ///
    /// `components` is an empty list. It has capacity for the components that later replace `lone`. The caller proves
    /// that the weight of `lone` isn't 0.
    pub(super) fn new(
        components: Vec<Component<D>>,
        lone: Component<D>,
        quantizer: LeakyQuantizer<P, PRECISION>,
    ) -> Self
        requires { (components.items ≡ []) × (0 < lone.weight) }
        ensures { (result.components ≡ components) × (result.quantizer ≡ quantizer) }
    {
        MixedDistribution {
            components,
            lone,
            quantizer,
        }
    }

    /// Returns the mixture's components.
    #[inline(always)]
    fn parts(&self) -> &[Component<D>]
        ensures { result.now ≡ or_lone self.now.components.items self.now.lone }
    {
        if self.components.is_empty() {
            array::from_ref(&self.lone)
        } else {
            &self.components
        }
    }

    /// Returns the same model, with components that are borrowed from `self`.
    #[inline(always)]
    fn borrowed<'b>(&'b self) -> IndexedDistribution<Mixture<'b, D>, P, PRECISION>
        ensures { ⟦<IndexedDistribution<Mixture<'b, D>, P, PRECISION> as EntropyModel<PRECISION>>⟧.table result
            ≡ indexed PRECISION (mixed (weighted D.below (or_lone self.now.components.items self.now.lone)))
            (first_symbol self.now.quantizer) (symbol_count self.now.quantizer) }
    {
        self.quantizer
            .quantize_indexed(Mixture::new(self.parts()).unwrap())
    }
}

impl<D: CumulativeDistribution, P: WordOf<u32>, const PRECISION: usize> EntropyModel<PRECISION>
    for MixedDistribution<D, P, PRECISION> {
    type Symbol = usize;

    type Probability = P;

    ghost table = { λ m. indexed PRECISION (mixed (weighted D.below (or_lone m.components.items m.lone)))
        (first_symbol m.quantizer) (symbol_count m.quantizer) };

    ghost lawful = { λ m. indexed_is_table PRECISION (mixed (weighted D.below (or_lone m.components.items m.lone)))
        m.quantizer.min m.quantizer.count
        (mixed_is_distribution D.below (or_lone m.components.items m.lone) D.never_falls m.some) m.quantizer.some
        m.quantizer.room };

    ghost sized = { λ m. (m.quantizer.positive, m.quantizer.fits) };

    ghost two_symbols = { λ m _. indexed_two PRECISION
        (mixed (weighted D.below (or_lone m.components.items m.lone))) m.quantizer.min m.quantizer.count
        m.quantizer.some };
}

impl<D: CumulativeDistribution, P: WordOf<u32>, const PRECISION: usize> EncoderModel<PRECISION>
    for MixedDistribution<D, P, PRECISION> {
    #[inline(always)]
    fn left_cumulative_and_probability(
        &self,
        symbol: &usize,
    ) -> Option<(P, <P as BitArray>::NonZero)> {
        self.borrowed().left_cumulative_and_probability(symbol)
    }
}

impl<D: CumulativeDistribution, P: WordOf<u32>, const PRECISION: usize> DecoderModel<PRECISION>
    for MixedDistribution<D, P, PRECISION> {
    #[inline(always)]
    fn quantile_function(&self, quantile: P) -> (usize, P, <P as BitArray>::NonZero) {
        self.borrowed().quantile_function(quantile)
    }
}

/// Returns a component of weight 1. The model of a `MixtureList` has only this component until the first `select`.
pub(super) fn first_component(family: Family) -> Component<FamilyDistribution>
    ensures { result.weight ≡ 1 }
{
    Component {
        weight: 1,
        distribution: family.distribution(0, 1).unwrap(),
    }
}

/// Replaces `components` with the components of row `place`.
///
/// `weights`, `locations` and `scales` have rows of `width` numbers, one row after another. The caller proves that
/// `components` has room for `width` components, so the call needs no memory.
#[inline]
pub(super) fn fill_from_row(
    components: &mut Vec<Component<FamilyDistribution>>,
    family: Family,
    width: usize,
    place: usize,
    weights: &[u32],
    locations: &[i64],
    scales: &[u32],
)
    requires within { width * place + width ≤ length weights.now }
    requires counted { (length locations.now ≡ length weights.now) × (length scales.now ≡ length weights.now) }
    requires scaled { (k : ℕ) → k < length scales.now → 0 < get_or scales.now k 0 }
    requires mixable { IsMixable (row_at_index width place weights.now) }
    requires room { width ≤ vec_capacity components.now }
    ensures components { weighted ⟦<FamilyDistribution as CumulativeDistribution>⟧.below components.new.items
        ≡ components_of (Some family)
        (row_at_index width place weights.now) (row_at_index width place locations.now)
        (row_at_index width place scales.now) }
    ensures some { 0
        < total_weight (weighted ⟦<FamilyDistribution as CumulativeDistribution>⟧.below components.new.items) }
    ensures most { total_weight (weighted ⟦<FamilyDistribution as CumulativeDistribution>⟧.below components.new.items)
        ≤ 4294967296 }
    ensures capacity { vec_capacity components.new ≡ vec_capacity components.old }
{
    let start = width * place;
    let end = start + width;
    fill(
        components,
        family,
        &weights[start..end],
        &locations[start..end],
        &scales[start..end],
    );
}

/// Replaces `components` with weighted distributions of `family`.
///
/// Component `i` has weight `weights[i]`, location `locations[i]` and scale `scales[i]`. The caller proves that these
/// three lists have the same length, and that all scales are above 0. The caller also proves that `components` has
/// capacity for the new components, so the call needs no memory.
#[inline]
fn fill(
    components: &mut Vec<Component<FamilyDistribution>>,
    family: Family,
    weights: &[u32],
    locations: &[i64],
    scales: &[u32],
)
    requires counted { (length locations.now ≡ length weights.now) × (length scales.now ≡ length weights.now) }
    requires scaled { (k : ℕ) → k < length scales.now → 0 < get_or scales.now k 0 }
    requires room { length weights.now ≤ vec_capacity components.now }
    ensures components { weighted ⟦<FamilyDistribution as CumulativeDistribution>⟧.below components.new.items
        ≡ components_of (Some family) weights.now locations.now scales.now }
    ensures capacity { vec_capacity components.new ≡ vec_capacity components.old }
{
    components.clear();
    for i in 0..weights.len() {
        components.push_reserved(Component {
            weight: weights[i],
            distribution: family.distribution(locations[i], scales[i]).unwrap(),
        });
    }
}
