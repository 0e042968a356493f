//! `Families`: a family of distributions, with a location and a scale for each symbol.

ghost use Rattle.std.specs.Prelude.{◌≡◌, ◌↔◌, ℕ, ◌<◌, ◌≤◌, ◌<ℤ◌, Some, get_or, length, pos};
ghost use Rattle.std.specs.Prelude.{IfOk, IsSome, IsTrue};
ghost use Rattle.std.specs.List.{AllByRecursion};
ghost use Rattle.constriction_models.specs.Quantized.{indexed};
ghost use Rattle.constriction_models.specs.Quantizers.{symbol_count, first_symbol};
ghost use Rattle.constriction_inputs.specs.Quantized.{AreIndicesInRange, IsRange, below_by, by_family};
ghost use Rattle.constriction_inputs.specs.Quantized.{family_arguments, family_of, symbols_in, tables_by};
ghost use Rattle.constriction_inputs.specs.QuantizedCalls.{AsksFamily};
ghost use Rattle.constriction_inputs.specs.Refusals.{Asks, Otherwise, NoRefusal};
ghost use Rattle.constriction_inputs.specs.declared.refusal.Refusal.TheVariants as refusals;
ghost use Rattle.std.proofs.Common.{refl};

use crate::models::located_family::LocatedFamily;
use crate::models::{DecoderModelList, DecoderModels, EncoderModels, ModelList, Models, entry_of};
use crate::refusal::Refusal;
use crate::symbol::Symbol;
use constriction_base::model::EntropyModel;
use constriction_models::families::{Family, FamilyDistribution};
use constriction_models::quantizer::{IndexedDistribution, LeakyQuantizer};
use constriction_words::{BitArray, Reciprocal, WordOf};
use std::alloc::Global;

/// The model of a Gaussian, Laplace or logistic distribution. Its symbols are indices into a range of integers.
pub type FamilyModel<P, const PRECISION: usize> = IndexedDistribution<
    FamilyDistribution,
    P,
    PRECISION,
>;

/// Models of one family of distributions. Each symbol has its own location and scale, in multiples of `2^-16`.
///
/// Item `i` of `locations` and item `i` of `scales` belong to symbol `i` of the list to encode or decode. Each scale
/// has to be at least 1. The caller passes each symbol as an index into the range of integers from `min` to `max`.
/// Index 0 stands for `min`. `family` is 0 for `Gaussian`, 1 for `Laplace` and 2 for `Logistic`.
///
/// # Examples
///
/// ```
/// // Two symbols from -127 to 128: Gaussians of means 0 and 3.5, and standard deviations 1 and 2.25.
/// let families = Families::new(0, -127, 128, &[0, 229376], &[65536, 147456]);
/// ```
#[derive(Clone, Copy, Drop)]
pub struct Families<'a> {
    pub family: u32,
    pub min: i32,
    pub max: i32,
    pub locations: &'a [i64],
    pub scales: &'a [u32],
}

impl<'a, P: WordOf<u32>, const PRECISION: usize> Models<P, PRECISION> for Families<'a> {
    ghost coded = { λ given. by_family (family_arguments given) };

    fn check(&self, count: usize) -> Result<(), Refusal> {
        if self.locations.len() != count {
            return Err(Refusal::WrongLength);
        }
        match self.quantizer::<P, PRECISION>() {
            Ok(_) => Ok(()),
            Err(refusal) => Err(refusal),
        }
    }
}

impl<'a, P: WordOf<u32>, const PRECISION: usize> EncoderModels<P, PRECISION> for Families<'a> {
    type List = FamilyIntervals<'a, P, PRECISION>;

    fn know<S: Symbol>(&self, symbols: &[S]) -> bool {
        are_places::<S>(self, symbols)
    }

    fn list(
        &self,
        _alloc: Global,
        _count: usize,
        _divides: bool,
    ) -> Option<FamilyIntervals<'a, P, PRECISION>> {
        let Ok((family, quantizer)) = self.family_and_range::<P, PRECISION>() else {
            return None;
        };
        Some(FamilyIntervals {
            family,
            quantizer,
            locations: self.locations,
            scales: self.scales,
        })
    }
}

impl<'a, P: WordOf<u32>, const PRECISION: usize> DecoderModels<P, PRECISION> for Families<'a> {
    type Symbol = usize;

    type DecoderList = FamilyList<'a, P, PRECISION>;

    #[inline]
    fn decoder_list(&self, _alloc: Global, _count: usize) -> Option<FamilyList<'a, P, PRECISION>> {
        let Ok((family, quantizer)) = self.family_and_range::<P, PRECISION>() else {
            return None;
        };
        let (locations, scales) = (self.locations, self.scales);
        Some(FamilyList {
            locations,
            scales,
            place: locations.len(),
            model: LocatedFamily {
                family,
                quantizer,
                location: 0,
                scale: 1,
            },
        })
    }

    ghost kept_law = { λ given ns fit known. refl };
}

/// The models of a family, one for each symbol to encode. A look-up makes the model that it needs.
///
/// # Examples
///
/// ```
/// if let Some(mut list) = EncoderModels::<u32, 24>::list(&families, alloc, 2, false) {
///     ModelList::<u32, 24>::interval(&mut list, 1, 130)
/// }
/// ```
#[derive(Drop)]
pub struct FamilyIntervals<'a, P: WordOf<u32>, const PRECISION: usize> {
    family: Family,
    quantizer: LeakyQuantizer<P, PRECISION>,
    locations: &'a [i64],
    scales: &'a [u32],
    ghost counted: { length locations.now ≡ length scales.now },
    ghost scaled: { (k : ℕ) → k < length scales.now → 0 < get_or scales.now k 0 },
}

impl<'a, P: WordOf<u32>, const PRECISION: usize> ModelList<P, PRECISION>
    for FamilyIntervals<'a, P, PRECISION> {
    const LOOKS_AHEAD: bool = true;

    ghost tables = { λ list. tables_by PRECISION (Some list.family) (first_symbol list.quantizer)
        (symbol_count list.quantizer) list.locations.now list.scales.now };

    #[inline]
    fn count(&self) -> usize {
        self.locations.len()
    }

    #[inline(always)]
    fn interval(
        &mut self,
        place: usize,
        symbol: usize,
    ) -> Option<(P, <P as BitArray>::NonZero, Option<Reciprocal>)> {
        let model = model_at::<P, PRECISION>(
            self.family,
            &self.quantizer,
            self.locations,
            self.scales,
            place,
        );
        match entry_of::<P, FamilyModel<P, PRECISION>, PRECISION>(&model, symbol) {
            Some(found) => Some(found),
            None => None,
        }
    }
}

/// The list of the models of a family, one for each symbol to decode. It keeps the model that `select` selected last.
///
/// # Examples
///
/// ```
/// if let Some(mut list) = DecoderModels::<u32, 24>::decoder_list(&families, alloc, 2) {
///     DecoderModelList::<u32, 24>::select(&mut list, 1);
///     DecoderModelList::<u32, 24>::model(&list).quantile_function(8388608)
/// }
/// ```
#[derive(Drop)]
pub struct FamilyList<'a, P: WordOf<u32>, const PRECISION: usize> {
    locations: &'a [i64],
    scales: &'a [u32],
    place: usize,
    model: LocatedFamily<P, PRECISION>,
    ghost counted: { length locations.now ≡ length scales.now },
    ghost scaled: { (k : ℕ) → k < length scales.now → 0 < get_or scales.now k 0 },
    ghost selected: { place < length locations.now → (model.location ≡ get_or locations.now place (pos 0))
        × (model.scale ≡ get_or scales.now place 0) },
}

impl<'a, P: WordOf<u32>, const PRECISION: usize> DecoderModelList<P, PRECISION>
    for FamilyList<'a, P, PRECISION> {
    type Model = LocatedFamily<P, PRECISION>;

    ghost tables = { λ list. tables_by PRECISION (Some list.model.family) (first_symbol list.model.quantizer)
        (symbol_count list.model.quantizer) list.locations.now list.scales.now };

    ghost turned_to = { λ list. list.place };

    #[inline(always)]
    fn select(&mut self, place: usize) {
        self.model.move_to(self.locations, self.scales, place);
        self.place = place;
    }

    #[inline(always)]
    fn model(&self) -> &LocatedFamily<P, PRECISION> {
        &self.model
    }
}

impl<'a> Families<'a> {
    /// Creates a `Families` from its five fields, without checking them. See [`Families`] for an example.
    #[inline]
    pub fn new(family: u32, min: i32, max: i32, locations: &'a [i64], scales: &'a [u32]) -> Self
        ensures numbers { (result.family ≡ family) × (result.min ≡ min) × (result.max ≡ max) }
        ensures lists { (result.locations.now ≡ locations.now) × (result.scales.now ≡ scales.now) }
    {
        Families {
            family,
            min,
            max,
            locations,
            scales,
        }
    }

    /// Returns the family, and the quantizer of the range from `min` to `max`. The call needs no memory.
    ///
    /// # Errors
    ///
    /// The call returns the first of these errors whose condition holds, and no other error.
    ///
    /// - `WrongLength`: `locations` and `scales` differ in length.
    /// - `WrongInterval`: the range has fewer than two or more than `2 ^ PRECISION` symbols.
    /// - `WrongWeights`: `family` is above 2, so it stands for no family, or a scale is 0.
    pub fn quantizer<P: WordOf<u32>, const PRECISION: usize>(
        &self,
    ) -> Result<(Family, LeakyQuantizer<P, PRECISION>), Refusal>
        requires { (1 ≤ PRECISION) × (PRECISION ≤ P.BITS) }
        ensures family { IfOk result (λ made. family_of self.now.family ≡ Some made.0) }
        ensures first { IfOk result (λ made. first_symbol made.1 ≡ self.now.min) }
        ensures count { IfOk result (λ made. symbol_count made.1 ≡ symbols_in self.now.min self.now.max) }
        ensures asks { AsksFamily PRECISION (family_arguments self.now) result }
    {
        if self.locations.len() != self.scales.len() {
            return Err(Refusal::WrongLength);
        }
        let made = self.family_and_range::<P, PRECISION>()?;
        if !are_above_zero(self.scales) {
            return Err(Refusal::WrongWeights);
        }
        Ok(made)
    }

    /// Returns the family, and the quantizer of the range from `min` to `max`. The call looks at no location or scale.
    ///
    /// # Errors
    ///
    /// The call returns the first of these errors whose condition holds, and no other error.
    ///
    /// - `WrongInterval`: the range has fewer than two or more than `2 ^ PRECISION` symbols.
    /// - `WrongWeights`: `family` is above 2, so it stands for no family.
    pub(crate) fn family_and_range<P: WordOf<u32>, const PRECISION: usize>(
        &self,
    ) -> Result<(Family, LeakyQuantizer<P, PRECISION>), Refusal>
        requires { (1 ≤ PRECISION) × (PRECISION ≤ P.BITS) }
        ensures family { IfOk result (λ made. family_of self.now.family ≡ Some made.0) }
        ensures first { IfOk result (λ made. first_symbol made.1 ≡ self.now.min) }
        ensures count { IfOk result (λ made. symbol_count made.1 ≡ symbols_in self.now.min self.now.max) }
        ensures asks { Asks refusals.WrongInterval (IsRange PRECISION self.now.min self.now.max)
            (Asks refusals.WrongWeights (IsSome (family_of self.now.family)) (Otherwise NoRefusal)) result }
    {
        let Ok(quantizer) = LeakyQuantizer::<P, PRECISION>::new(self.min, self.max) else {
            return Err(Refusal::WrongInterval);
        };
        let Some(family) = family_at(self.family) else {
            return Err(Refusal::WrongWeights);
        };
        Ok((family, quantizer))
    }
}

/// Returns whether the number of each symbol is an index into the range from `min` to `max`.
pub(crate) fn are_places<'a, S: Symbol>(given: &Families<'a>, symbols: &[S]) -> bool
    requires { given.now.min <ℤ given.now.max }
    ensures { IsTrue result ↔ AreIndicesInRange given.now.min given.now.max (S.numbers symbols.now) }
{
    let count = count_of(given);
    are_below::<S>(symbols, count)
}

/// Returns the number of symbols in the range from `min` to `max`.
fn count_of<'a>(given: &Families<'a>) -> usize
    requires { given.now.min <ℤ given.now.max }
    ensures { result ≡ symbols_in given.now.min given.now.max }
{
    (given.max as i64 - given.min as i64) as usize + 1
}

/// Returns whether the number of each symbol is below `count`.
pub(super) fn are_below<S: Symbol>(symbols: &[S], count: usize) -> bool
    ensures { IsTrue result ↔ AllByRecursion (λ symbol. symbol < count) (S.numbers symbols.now) }
{
    for i in 0..symbols.len() {
        if S::number_at(symbols, i) >= count {
            return false;
        }
    }
    true
}

/// Returns the family that `code` stands for: 0 is `Gaussian`, 1 is `Laplace`, and 2 is `Logistic`.
///
/// Returns `None` if `code` is above 2.
fn family_at(code: u32) -> Option<Family>
    ensures { result ≡ family_of code }
{
    match code {
        0 => Some(Family::Gaussian),
        1 => Some(Family::Laplace),
        2 => Some(Family::Logistic),
        _ => None,
    }
}

/// Returns whether all scales are above 0.
fn are_above_zero(scales: &[u32]) -> bool
    ensures { IsTrue result ↔ AllByRecursion (λ scale. 0 < scale) scales.now }
{
    for scale in scales {
        if *scale == 0 {
            return false;
        }
    }
    true
}

/// Returns the model of `family` with this location and scale. The caller proves that `scale` is above 0.
#[inline(always)]
pub(super) fn model_of<P: WordOf<u32>, const PRECISION: usize>(
    family: Family,
    quantizer: &LeakyQuantizer<P, PRECISION>,
    location: i64,
    scale: u32,
) -> FamilyModel<P, PRECISION>
    requires { 0 < scale }
    ensures { ⟦<FamilyModel<P, PRECISION> as EntropyModel<PRECISION>>⟧.table result
        ≡ indexed PRECISION (below_by (Some family) location scale)
        (first_symbol quantizer.now) (symbol_count quantizer.now) }
{
    let distribution = family.distribution(location, scale).unwrap();
    quantizer.quantize_indexed(distribution)
}

/// Returns the model of `family` with the location and the scale at index `place`.
///
/// The caller proves that there is a location at this index, that there are as many scales as locations, and that this
/// scale is above 0.
#[inline(always)]
fn model_at<P: WordOf<u32>, const PRECISION: usize>(
    family: Family,
    quantizer: &LeakyQuantizer<P, PRECISION>,
    locations: &[i64],
    scales: &[u32],
    place: usize,
) -> FamilyModel<P, PRECISION>
    requires within { place < length locations.now }
    requires counted { length locations.now ≡ length scales.now }
    requires scaled { 0 < get_or scales.now place 0 }
    ensures { ⟦<FamilyModel<P, PRECISION> as EntropyModel<PRECISION>>⟧.table result
        ≡ indexed PRECISION (below_by (Some family) (get_or locations.now place (pos 0)) (get_or scales.now place 0))
        (first_symbol quantizer.now) (symbol_count quantizer.now) }
{
    model_of(family, quantizer, locations[place], scales[place])
}
