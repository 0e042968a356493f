//! `Mixtures`: a mixture of distributions of one family for each symbol.

mod mixed;
mod weighing;

ghost use Rattle.std.specs.Prelude.{◌≡◌, ℕ, ◌*◌, ◌<◌, ◌≤◌, Some, get_or, length, vec_capacity};
ghost use Rattle.constriction_models.specs.Mixtures.{weighted};
ghost use Rattle.constriction_models.specs.Quantizers.{symbol_count, first_symbol};
ghost use Rattle.constriction_inputs.specs.Mixtures.{AreMixable, by_mixture, components_of, mixture_tables, or_lone};
ghost use Rattle.constriction_inputs.specs.Mixtures.{row_at_index};
ghost use Rattle.constriction_inputs.specs.Quantized.{family_of, symbols_in};
ghost use Rattle.std.proofs.Common.{refl};

use crate::models::families::are_places;
use crate::models::{
    DecoderModelList, DecoderModels, EncoderModels, Families, ModelList, Models, entry_of,
};
use crate::refusal::Refusal;
use crate::rows::adding::is_product;
use crate::symbol::Symbol;
use constriction_models::distribution::CumulativeDistribution;
use constriction_models::families::{Family, FamilyDistribution};
use constriction_models::mixture::Component;
use constriction_models::quantizer::LeakyQuantizer;
use constriction_words::{BitArray, Reciprocal, WordOf};
pub use mixed::MixedDistribution;
use mixed::{fill_from_row, first_component};
use std::alloc::Global;
use weighing::are_mixable;

/// Mixtures of distributions of one family, with one mixture for each symbol.
///
/// A mixture has `width` components, and each component has a location, a scale and a weight. The weights are in
/// `weights`. The locations and scales are in `components`, in multiples of `2^-16`. Each of these lists has
/// `width` numbers for the first symbol, then `width` numbers for the second symbol, and so on. The caller passes each
/// symbol as an index into the range of integers of `components`, as for [`Families`].
///
/// The weights of a mixture are relative. Their sum has to be at least 1 and at most `2^32`. A component of weight 0
/// doesn't change the mixture.
///
/// # Examples
///
/// ```
/// // Two symbols from 0 to 255, each with a mixture of two logistic distributions of weights 3 and 1.
/// let components = Families::new(
///     2,
///     0,
///     255,
///     &[6553600, 13107200, 6553600, 13107200],
///     &[65536, 262144, 65536, 262144],
/// );
/// let mixtures = Mixtures::new(components, &[3, 1, 3, 1], 2);
/// ```
#[derive(Clone, Copy, Drop)]
pub struct Mixtures<'a> {
    /// The family, the range of symbols, and the location and the scale of each component.
    pub components: Families<'a>,
    /// The weight of each component.
    pub weights: &'a [u32],
    /// The number of components of each mixture.
    pub width: usize,
}

impl<'a> Mixtures<'a> {
    /// Creates a `Mixtures` from its three fields, without checking them. See [`Mixtures`] for an example.
    #[inline]
    pub fn new(components: Families<'a>, weights: &'a [u32], width: usize) -> Self
        ensures { (result.components ≡ components.entry) × (result.weights.now ≡ weights.now) × (result.width ≡ width) }
    {
        Mixtures {
            components,
            weights,
            width,
        }
    }
}

impl<'a, P: WordOf<u32>, const PRECISION: usize> Models<P, PRECISION> for Mixtures<'a> {
    ghost coded = { λ given. by_mixture
        (record {
          components = record {
            family = given.components.family;
            min = given.components.min;
            max = given.components.max;
            locations = given.components.locations.now;
            scales = given.components.scales.now;
          };
          weights = given.weights.now;
          width = given.width;
        }) };

    fn check(&self, count: usize) -> Result<(), Refusal> {
        if !is_product(self.weights.len(), self.width, count) {
            return Err(Refusal::WrongLength);
        }
        if self.components.locations.len() != self.weights.len() {
            return Err(Refusal::WrongLength);
        }
        self.components.quantizer::<P, PRECISION>()?;
        if self.width == 0 || !are_mixable(self.weights, self.width, count) {
            return Err(Refusal::WrongWeights);
        }
        Ok(())
    }
}

impl<'a, P: WordOf<u32>, const PRECISION: usize> EncoderModels<P, PRECISION> for Mixtures<'a> {
    type List = MixtureList<'a, P, PRECISION>;

    fn know<S: Symbol>(&self, symbols: &[S]) -> bool {
        are_places::<S>(&self.components, symbols)
    }

    fn list(
        &self,
        alloc: Global,
        count: usize,
        _divides: bool,
    ) -> Option<MixtureList<'a, P, PRECISION>> {
        let Ok((family, quantizer)) = self.components.family_and_range::<P, PRECISION>() else {
            return None;
        };
        let room = if count == 0 { 0 } else { self.width };
        let Ok(components) = Vec::with_capacity(alloc, room) else {
            return None;
        };
        Some(MixtureList {
            mixtures: *self,
            family,
            count,
            place: count,
            mixed: MixedDistribution::new(components, first_component(family), quantizer),
        })
    }
}

impl<'a, P: WordOf<u32>, const PRECISION: usize> DecoderModels<P, PRECISION> for Mixtures<'a> {
    type Symbol = usize;

    type DecoderList = MixtureList<'a, P, PRECISION>;

    fn decoder_list(&self, alloc: Global, count: usize) -> Option<MixtureList<'a, P, PRECISION>> {
        EncoderModels::<P, PRECISION>::list(self, alloc, count, false)
    }

    ghost kept_law = { λ given ns fit known. refl };
}

/// A list of models of mixtures. The list keeps only one mixture's components in memory. A list of no models needs no
/// memory.
///
/// Each call of `interval` or `select` replaces these components with the components of the mixture at the index.
///
/// # Examples
///
/// ```
/// if let Some(mut list) = EncoderModels::<u32, 24>::list(&mixtures, alloc, 2, false) {
///     ModelList::<u32, 24>::interval(&mut list, 1, 100)
/// }
/// ```
#[derive(Drop)]
pub struct MixtureList<'a, P: WordOf<u32>, const PRECISION: usize> {
    mixtures: Mixtures<'a>,
    family: Family,
    count: usize,
    place: usize,
    mixed: MixedDistribution<FamilyDistribution, P, PRECISION>,
    ghost named: { family_of mixtures.components.family ≡ Some family },
    ghost first: { first_symbol mixed.quantizer ≡ mixtures.components.min },
    ghost symbols: { symbol_count mixed.quantizer ≡ symbols_in mixtures.components.min mixtures.components.max },
    ghost weighed: { length mixtures.weights.now ≡ mixtures.width * count },
    ghost located: { length mixtures.components.locations.now ≡ length mixtures.weights.now },
    ghost stretched: { length mixtures.components.scales.now ≡ length mixtures.weights.now },
    ghost scaled: { (k : ℕ) → k < length mixtures.components.scales.now
        → 0 < get_or mixtures.components.scales.now k 0 },
    ghost mixable: { AreMixable mixtures.width count mixtures.weights.now },
    ghost room: { 0 < count → mixtures.width ≤ vec_capacity mixed.components },
    ghost filled: { place < count →
        weighted ⟦<FamilyDistribution as CumulativeDistribution>⟧.below (or_lone mixed.components.items mixed.lone)
        ≡ components_of (Some family) (row_at_index mixtures.width place mixtures.weights.now)
        (row_at_index mixtures.width place mixtures.components.locations.now)
        (row_at_index mixtures.width place mixtures.components.scales.now) },
}

impl<'a, P: WordOf<u32>, const PRECISION: usize> ModelList<P, PRECISION>
    for MixtureList<'a, P, PRECISION> {
    const LOOKS_AHEAD: bool = true;

    ghost tables = { λ list. mixture_tables PRECISION
        (record {
          components = record {
            family = list.mixtures.components.family;
            min = list.mixtures.components.min;
            max = list.mixtures.components.max;
            locations = list.mixtures.components.locations.now;
            scales = list.mixtures.components.scales.now;
          };
          weights = list.mixtures.weights.now;
          width = list.mixtures.width;
        }) list.count };

    #[inline]
    fn count(&self) -> usize {
        self.count
    }

    #[inline]
    fn interval(
        &mut self,
        place: usize,
        symbol: usize,
    ) -> Option<(P, <P as BitArray>::NonZero, Option<Reciprocal>)> {
        DecoderModelList::<P, PRECISION>::select(self, place);
        let model = DecoderModelList::<P, PRECISION>::model(self);
        match entry_of::<P, MixedDistribution<FamilyDistribution, P, PRECISION>, PRECISION>(
            model, symbol,
        ) {
            Some(found) => Some(found),
            None => None,
        }
    }
}

impl<'a, P: WordOf<u32>, const PRECISION: usize> DecoderModelList<P, PRECISION>
    for MixtureList<'a, P, PRECISION> {
    type Model = MixedDistribution<FamilyDistribution, P, PRECISION>;

    ghost tables = { λ list. mixture_tables PRECISION
        (record {
          components = record {
            family = list.mixtures.components.family;
            min = list.mixtures.components.min;
            max = list.mixtures.components.max;
            locations = list.mixtures.components.locations.now;
            scales = list.mixtures.components.scales.now;
          };
          weights = list.mixtures.weights.now;
          width = list.mixtures.width;
        }) list.count };

    ghost turned_to = { λ list. list.place };

    #[inline]
    fn select(&mut self, place: usize) {
        fill_from_row(
            &mut self.mixed.components,
            self.family,
            self.mixtures.width,
            place,
            self.mixtures.weights,
            self.mixtures.components.locations,
            self.mixtures.components.scales,
        );
        self.place = place;
    }

    #[inline]
    fn model(&self) -> &MixedDistribution<FamilyDistribution, P, PRECISION> {
        &self.mixed
    }
}
