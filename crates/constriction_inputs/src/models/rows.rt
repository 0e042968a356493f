//! `Rows`: a row of weights for each symbol.

ghost use Rattle.std.specs.Prelude.{◌≡◌, ◌+◌, ◌*◌, ◌<◌, ◌≤◌, ℕ, Some, length, map};
ghost use Rattle.std.specs.Option.{option_map};
ghost use Rattle.constriction_inputs.specs.Mixtures.{row_at_index};
ghost use Rattle.constriction_inputs.specs.Rows.{by_rows, row_tables};
ghost use Rattle.constriction_inputs.specs.Weights.{IsTotal};
ghost use Rattle.std.proofs.Common.{refl};

use crate::known::all_known_in_rows;
use crate::models::{DecoderModelList, DecoderModels, EncoderModels, ModelList, Models, entry_of};
use crate::refusal::Refusal;
use crate::rows::Row;
use crate::rows::adding::{are_totals, is_product};
use crate::symbol::Symbol;
use constriction_words::{BitArray, Reciprocal};
use std::alloc::Global;

/// Rows of `width` weights, one after another in `weights`, with one row for each symbol to encode or decode.
///
/// Each row has the weights of the symbols `0`, `1`, .. The weights of a row have to add up to `2 ^ PRECISION`.
///
/// # Examples
///
/// ```
/// let rows = Rows { weights: &[255u8, 1, 128, 128], width: 2 }; // two rows, at a precision of 8 bits
/// ```
#[derive(Clone, Copy, Drop)]
pub struct Rows<'a, P> {
    pub weights: &'a [P],
    pub width: usize,
}

impl<'a, P: BitArray, const PRECISION: usize> Models<P, PRECISION> for Rows<'a, P> {
    ghost coded = { λ given. by_rows given.width (map P.number given.weights.now) };

    fn check(&self, count: usize) -> Result<(), Refusal> {
        if !is_product(self.weights.len(), self.width, count) {
            return Err(Refusal::WrongLength);
        }
        if are_totals::<P, PRECISION>(self.weights, self.width, count) {
            Ok(())
        } else {
            Err(Refusal::WrongWeights)
        }
    }
}

impl<'a, P: BitArray, const PRECISION: usize> EncoderModels<P, PRECISION> for Rows<'a, P> {
    type List = RowList<'a, P, PRECISION>;

    fn know<S: Symbol>(&self, symbols: &[S]) -> bool {
        all_known_in_rows::<P, S, PRECISION>(self.weights, self.width, symbols)
    }

    fn list(
        &self,
        _alloc: Global,
        count: usize,
        _divides: bool,
    ) -> Option<RowList<'a, P, PRECISION>> {
        Some(RowList {
            weights: self.weights,
            width: self.width,
            count,
            place: count,
            row: None,
        })
    }
}

impl<'a, P: BitArray, const PRECISION: usize> DecoderModels<P, PRECISION> for Rows<'a, P> {
    type Symbol = usize;

    type DecoderList = RowList<'a, P, PRECISION>;

    #[inline]
    fn decoder_list(&self, alloc: Global, count: usize) -> Option<RowList<'a, P, PRECISION>> {
        EncoderModels::<P, PRECISION>::list(self, alloc, count, false)
    }

    ghost kept_law = { λ given ns fit known. refl };
}

/// Rows of weights whose totals are checked. A look-up adds up weights of its row. The list needs no memory.
///
/// To decode, the list keeps the row that `select` selected. Before a row is selected, it keeps none.
///
/// # Examples
///
/// ```
/// let rows = Rows { weights: &[255u8, 1, 128, 128], width: 2 };
/// if let Some(mut list) = EncoderModels::<u8, 8>::list(&rows, alloc, 2, false) {
///     ModelList::<u8, 8>::interval(&mut list, 1, 1) // Some((128, 128, None))
/// }
/// ```
#[derive(Drop)]
pub struct RowList<'a, P: BitArray, const PRECISION: usize> {
    weights: &'a [P],
    width: usize,
    count: usize,
    place: usize,
    row: Option<Row<'a, P, PRECISION>>,
    ghost positive: { 1 ≤ PRECISION },
    ghost fits: { PRECISION ≤ P.BITS },
    ghost counted: { length weights.now ≡ width * count },
    ghost totals: { (k : ℕ) → k < count → IsTotal PRECISION (row_at_index width k (map P.number weights.now)) },
    ghost selected: { place < count → option_map (λ chosen. map P.number chosen.weights.now) row
        ≡ Some (row_at_index width place (map P.number weights.now)) },
}

impl<'a, P: BitArray, const PRECISION: usize> ModelList<P, PRECISION>
    for RowList<'a, P, PRECISION> {
    const LOOKS_AHEAD: bool = true;

    ghost tables = { λ list. row_tables list.width list.count (map P.number list.weights.now) };

    #[inline]
    fn count(&self) -> usize {
        self.count
    }

    #[inline]
    fn interval(
        &mut self,
        place: usize,
        symbol: usize,
    ) -> Option<(P, <P as BitArray>::NonZero, Option<Reciprocal>)> {
        let row = row_at::<P, PRECISION>(self.weights, self.width, place);
        match entry_of::<P, Row<'_, P, PRECISION>, PRECISION>(&row, symbol) {
            Some(found) => Some(found),
            None => None,
        }
    }
}

impl<'a, P: BitArray, const PRECISION: usize> DecoderModelList<P, PRECISION>
    for RowList<'a, P, PRECISION> {
    type Model = Row<'a, P, PRECISION>;

    ghost tables = { λ list. row_tables list.width list.count (map P.number list.weights.now) };

    ghost turned_to = { λ list. list.place };

    #[inline]
    fn select(&mut self, place: usize) {
        self.row = Some(row_at(self.weights, self.width, place));
        self.place = place;
    }

    #[inline]
    fn model(&self) -> &Row<'a, P, PRECISION> {
        match &self.row {
            Some(row) => row,
            None => unreachable!(),
        }
    }
}

/// Returns row `place` of `weights`, which has rows of `width` weights, one after another.
///
/// The caller proves that there is such a row, and that it adds up to `2 ^ PRECISION`.
#[inline]
fn row_at<'a, P: BitArray, const PRECISION: usize>(
    weights: &'a [P],
    width: usize,
    place: usize,
) -> Row<'a, P, PRECISION>
    requires sizes { (1 ≤ PRECISION) × (PRECISION ≤ P.BITS) }
    requires within { width * place + width ≤ length weights.now }
    requires total { IsTotal PRECISION (row_at_index width place (map P.number weights.now)) }
    ensures { map P.number result.weights.now ≡ row_at_index width place (map P.number weights.now) }
{
    let start = width * place;
    let end = start + width;
    Row::of_total(&weights[start..end])
}
