//! `Indexed`: tables of weights, and the index of a table for each symbol.

ghost use Rattle.std.specs.Prelude.{◌≡◌, ◌+◌, ◌*◌, ◌<◌, ◌≤◌, ℕ, [], get_or, length, map, IfSome};
ghost use Rattle.std.specs.List.{range_with_len};
ghost use Rattle.constriction_base.specs.Tables.{table_of};
ghost use Rattle.constriction_inputs.specs.Indexed.{by_indexes, row_count};
ghost use Rattle.constriction_inputs.specs.Mixtures.{row_at_index};
ghost use Rattle.constriction_inputs.specs.Rows.{AreTotals};
ghost use Rattle.constriction_inputs.specs.Weights.{IsTotal};
ghost use Rattle.constriction_inputs.specs.WeightsModels.{sized_of_either, two_of_either};
ghost use Rattle.constriction_inputs.specs.laws.Rows.{two_weights};
ghost use Rattle.std.proofs.Common.{refl};

use crate::known::is_known;
use crate::models::families::are_below;
use crate::models::guided::{Guided, guided_by};
use crate::models::weights_model::WeightsModel;
use crate::models::{DecoderModelList, DecoderModels, EncoderModels, ModelList, Models, entry_of};
use crate::refusal::Refusal;
use crate::rows::Row;
use crate::rows::adding::{are_totals, is_product};
use crate::symbol::Symbol;
use constriction_base::model::{DecoderModel, EncoderModel, EntropyModel};
use constriction_words::{BitArray, Reciprocal};
use std::alloc::Global;

/// A row of weights with rows of symbols or guesses, or a [`Row`] whose look-up adds up weights.
type EitherModel<'a, P, const PRECISION: usize> = WeightsModel<
    Guided<'a, P, PRECISION>,
    Row<'a, P, PRECISION>,
>;

/// The model of a row of weights: with rows of symbols or guesses, or a [`Row`] whose look-up adds up weights.
///
/// This type of its own hides the types of both models. Proofs about calls with this model don't mention them, and take
/// less time.
///
/// # Examples
///
/// ```
/// let indexed = Indexed { weights: &[255u8, 1], width: 2, indexes: &[0] };
/// if let Some(mut list) = DecoderModels::<u8, 8>::decoder_list(&indexed, alloc, 1) {
///     DecoderModelList::<u8, 8>::select(&mut list, 0);
///     DecoderModelList::<u8, 8>::model(&list).quantile_function(255) // (1, 255, 1)
/// }
/// ```
#[derive(Drop)]
pub struct GuidedOrRow<'a, P: BitArray, const PRECISION: usize> {
    model: EitherModel<'a, P, PRECISION>,
}

impl<'a, P: BitArray, const PRECISION: usize> EntropyModel<PRECISION>
    for GuidedOrRow<'a, P, PRECISION> {
    type Symbol = usize;

    type Probability = P;

    ghost table = { λ m. ⟦<EitherModel<'a, P, PRECISION> as EntropyModel<PRECISION>>⟧.table m.model };

    ghost lawful = { λ m. ⟦<EitherModel<'a, P, PRECISION> as EntropyModel<PRECISION>>⟧.lawful m.model };

    ghost sized = { λ m. sized_of_either (λ guided. (guided.row.positive, guided.row.fits))
        (λ row. (row.positive, row.fits)) m.model };

    ghost two_symbols = { λ m. two_of_either PRECISION P.BITS (λ guided. table_of (map P.number guided.row.weights.now))
        (λ row. table_of (map P.number row.weights.now))
        (λ guided all. two_weights P.number P.BITS P.number_law PRECISION guided.row.weights.now guided.row.total all)
        (λ row all. two_weights P.number P.BITS P.number_law PRECISION row.weights.now row.total all) m.model };
}

impl<'a, P: BitArray, const PRECISION: usize> EncoderModel<PRECISION>
    for GuidedOrRow<'a, P, PRECISION> {
    #[inline(always)]
    fn left_cumulative_and_probability(
        &self,
        symbol: &usize,
    ) -> Option<(P, <P as BitArray>::NonZero)> {
        self.model.left_cumulative_and_probability(symbol)
    }

    #[inline(always)]
    fn left_cumulative_and_reciprocal(
        &self,
        symbol: &usize,
    ) -> Option<(P, <P as BitArray>::NonZero, Option<Reciprocal>)> {
        self.model.left_cumulative_and_reciprocal(symbol)
    }
}

impl<'a, P: BitArray, const PRECISION: usize> DecoderModel<PRECISION>
    for GuidedOrRow<'a, P, PRECISION> {
    #[inline(always)]
    fn quantile_function(&self, quantile: P) -> (usize, P, <P as BitArray>::NonZero) {
        self.model.quantile_function(quantile)
    }
}

/// Tables of `width` weights, one after another in `weights`, and for each symbol the index of its table.
///
/// Each table has the weights of the symbols `0`, `1`, .., which have to add up to `2 ^ PRECISION`. Symbol `i` of the
/// list to encode or decode has the table `indexes[i]`.
///
/// A long list makes each table once. To encode, a table takes 32 bytes for each weight if `P` has at most 32 bits. To
/// decode, it takes at most 12 bytes. A list of at most 64 symbols for each table makes none to decode: a look-up adds
/// up the weights before the symbol. To encode, this holds for up to 128 symbols for each table. A table keeps
/// reciprocals only if the list has at least 8 symbols for each weight, because it takes time to compute them.
///
/// # Examples
///
/// ```
/// // at a precision of 8 bits, three symbols under two tables: the first and the last have table 1
/// let indexed = Indexed { weights: &[255u8, 1, 128, 128], width: 2, indexes: &[1, 0, 1] };
/// ```
#[derive(Clone, Copy, Drop)]
pub struct Indexed<'a, P> {
    pub weights: &'a [P],
    pub width: usize,
    pub indexes: &'a [usize],
}

impl<'a, P: BitArray, const PRECISION: usize> Models<P, PRECISION> for Indexed<'a, P> {
    ghost coded = { λ given. by_indexes given.width (map P.number given.weights.now) given.indexes.now };

    fn check(&self, count: usize) -> Result<(), Refusal> {
        let tables = rows_of(self.weights, self.width);
        if !is_product(self.weights.len(), self.width, tables)
            || self.indexes.len() != count
            || !are_below::<usize>(self.indexes, tables)
        {
            return Err(Refusal::WrongLength);
        }
        if are_totals::<P, PRECISION>(self.weights, self.width, tables) {
            Ok(())
        } else {
            Err(Refusal::WrongWeights)
        }
    }
}

impl<'a, P: BitArray, const PRECISION: usize> EncoderModels<P, PRECISION> for Indexed<'a, P> {
    type List = IndexedList<'a, P, PRECISION>;

    fn know<S: Symbol>(&self, symbols: &[S]) -> bool {
        for i in 0..symbols.len() {
            let row = weights_at(self.weights, self.width, self.indexes[i]);
            if !is_known::<P, PRECISION>(row, S::number_at(symbols, i)) {
                return false;
            }
        }
        true
    }

    fn list(
        &self,
        alloc: Global,
        count: usize,
        divides: bool,
    ) -> Option<IndexedList<'a, P, PRECISION>> {
        let tables = rows_of(self.weights, self.width);
        let searches = count / 128 <= tables;
        let divides = divides && count / 8 >= self.weights.len(); // fewer symbols don't pay for reciprocals
        match models_by(
            alloc,
            self.weights,
            tables,
            self.width,
            searches,
            divides,
            false,
        ) {
            Some(models) => Some(IndexedList {
                models,
                indexes: self.indexes,
                place: 0,
            }),
            None => None,
        }
    }
}

impl<'a, P: BitArray, const PRECISION: usize> DecoderModels<P, PRECISION> for Indexed<'a, P> {
    type Symbol = usize;

    type DecoderList = IndexedList<'a, P, PRECISION>;

    fn decoder_list(&self, alloc: Global, count: usize) -> Option<IndexedList<'a, P, PRECISION>> {
        let tables = rows_of(self.weights, self.width);
        let searches = count / 64 <= tables;
        match models_by(
            alloc,
            self.weights,
            tables,
            self.width,
            searches,
            false,
            true,
        ) {
            Some(models) => Some(IndexedList {
                models,
                indexes: self.indexes,
                place: 0,
            }),
            None => None,
        }
    }

    ghost kept_law = { λ given ns fit known. refl };
}

/// Models, and for each symbol the index of its model.
///
/// # Examples
///
/// ```
/// if let Some(mut list) = EncoderModels::<u8, 8>::list(&indexed, alloc, 3, false) {
///     ModelList::<u8, 8>::interval(&mut list, 2, 1) // Some((128, 128, None)), under table 1
/// }
/// ```
#[derive(Drop)]
pub struct IndexedList<'a, P: BitArray, const PRECISION: usize> {
    models: Vec<GuidedOrRow<'a, P, PRECISION>>,
    indexes: &'a [usize],
    place: usize,
    ghost within: { (k : ℕ) → k < length indexes.now → get_or indexes.now k 0 < length models.items },
}

impl<'a, P: BitArray, const PRECISION: usize> ModelList<P, PRECISION>
    for IndexedList<'a, P, PRECISION> {
    const LOOKS_AHEAD: bool = false;

    ghost tables = { λ list. map (λ index. get_or (map
        ⟦<GuidedOrRow<'a, P, PRECISION> as EntropyModel<PRECISION>>⟧.table list.models.items) index [])
        list.indexes.now };

    #[inline]
    fn count(&self) -> usize {
        self.indexes.len()
    }

    #[inline(always)]
    fn interval(
        &mut self,
        place: usize,
        symbol: usize,
    ) -> Option<(P, <P as BitArray>::NonZero, Option<Reciprocal>)> {
        let indexes = self.indexes;
        match entry_of::<P, _, PRECISION>(&self.models[indexes[place]], symbol) {
            Some(found) => Some(found),
            None => None,
        }
    }
}

impl<'a, P: BitArray, const PRECISION: usize> DecoderModelList<P, PRECISION>
    for IndexedList<'a, P, PRECISION> {
    type Model = GuidedOrRow<'a, P, PRECISION>;

    ghost tables = { λ list. map (λ index. get_or (map
        ⟦<GuidedOrRow<'a, P, PRECISION> as EntropyModel<PRECISION>>⟧.table list.models.items) index [])
        list.indexes.now };

    ghost turned_to = { λ list. list.place };

    #[inline]
    fn select(&mut self, place: usize) {
        self.place = place;
    }

    #[inline]
    fn model(&self) -> &GuidedOrRow<'a, P, PRECISION> {
        &self.models[self.indexes[self.place]]
    }
}

/// Returns how many rows of `width` weights `weights` has: none if `width` is 0.
fn rows_of<P: BitArray>(weights: &[P], width: usize) -> usize
    ensures { result ≡ row_count width (map P.number weights.now) }
{
    if width == 0 {
        return 0;
    }
    weights.len() / width
}

/// Returns the model of each of `tables` rows of `width` weights. `weights` has the rows one after another.
///
/// [`model_by`] makes each model. The caller proves that `weights` has `tables` rows, and that each row adds up to
/// `2 ^ PRECISION`. The call returns `None` if there is no memory.
fn models_by<'a, P: BitArray, const PRECISION: usize>(
    alloc: Global,
    weights: &'a [P],
    tables: usize,
    width: usize,
    searches: bool,
    divides: bool,
    decodes: bool,
) -> Option<Vec<GuidedOrRow<'a, P, PRECISION>>>
    requires sizes { (1 ≤ PRECISION) × (PRECISION ≤ P.BITS) }
    requires counted { length weights.now ≡ width * tables }
    requires totals { AreTotals PRECISION width tables (map P.number weights.now) }
    ensures { IfSome result (λ models.
        map ⟦<GuidedOrRow<'a, P, PRECISION> as EntropyModel<PRECISION>>⟧.table models.items
        ≡ map (λ index. table_of (row_at_index width index (map P.number weights.now))) (range_with_len 0 tables)) }
{
    let Ok(mut models) = Vec::with_capacity(alloc, tables) else {
        return None;
    };
    for index in 0..tables {
        let row = weights_at(weights, width, index);
        let Some(model) = model_by(alloc, row, searches, divides, decodes) else {
            return None;
        };
        models.push_reserved(model);
    }
    Some(models)
}

/// Returns the model of a row of weights.
///
/// If `searches` is true, the model is the row, whose look-up adds up weights. Otherwise it has guesses if `decodes` is
/// true, and a row for each symbol if not, with reciprocals if `divides` is true. The caller proves that the weights
/// add up to `2 ^ PRECISION`. The call returns `None` if there is no memory.
fn model_by<'a, P: BitArray, const PRECISION: usize>(
    alloc: Global,
    row: &'a [P],
    searches: bool,
    divides: bool,
    decodes: bool,
) -> Option<GuidedOrRow<'a, P, PRECISION>>
    requires sizes { (1 ≤ PRECISION) × (PRECISION ≤ P.BITS) }
    requires total { IsTotal PRECISION (map P.number row.now) }
    ensures { IfSome result (λ model. ⟦<GuidedOrRow<'a, P, PRECISION> as EntropyModel<PRECISION>>⟧.table model
        ≡ table_of (map P.number row.now)) }
{
    if searches {
        return Some(GuidedOrRow {
            model: WeightsModel::Rows(Row::of_total(row)),
        });
    }
    match guided_by(alloc, row, divides, decodes) {
        Some(table) => Some(GuidedOrRow {
            model: WeightsModel::Table(table),
        }),
        None => None,
    }
}

/// Returns row `index` of `weights`, which has rows of `width` weights, one after another.
///
/// The caller proves that there is such a row.
#[inline(always)]
fn weights_at<P: BitArray>(weights: &[P], width: usize, index: usize) -> &[P]
    requires { width * index + width ≤ length weights.now }
    ensures { map P.number result.now ≡ row_at_index width index (map P.number weights.now) }
{
    let start = width * index;
    let end = start + width;
    &weights[start..end]
}
