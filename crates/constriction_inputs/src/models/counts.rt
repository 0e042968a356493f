//! `Counts`: a row of counts for each symbol.

ghost use Rattle.std.specs.Prelude.{◌≡◌, ◌↔◌, ◌+◌, ◌*◌, ◌<◌, ◌≤◌, Some, length, IsTrue};
ghost use Rattle.std.specs.Option.{option_map};
ghost use Rattle.constriction_inputs.specs.Counts.{AreCountRows, IsCountPrecision, by_counts, count_tables};
ghost use Rattle.constriction_inputs.specs.Mixtures.{row_at_index};
ghost use Rattle.std.proofs.Common.{refl};

use crate::models::count_row::CountRow;
use crate::models::families::are_below;
use crate::models::{DecoderModelList, DecoderModels, EncoderModels, ModelList, Models};
use crate::refusal::Refusal;
use crate::rows::adding::is_product;
use crate::symbol::Symbol;
use constriction_models::categorical::CategoricalCounts;
use constriction_words::{BitArray, Reciprocal, WordOf};
use std::alloc::Global;
use std::marker::PhantomData;

/// Rows of `width` counts, one after another in `counts`, with one row for each symbol to encode or decode.
///
/// Each row has the counts of the symbols `0`, `1`, .. Each of these symbols has a weight of at least 1
/// ([`CategoricalCounts`]). A row needs fewer than `2 ^ PRECISION` counts, whose sum is above 0 and below `2^40`.
///
/// # Examples
///
/// ```
/// let rows = Counts { counts: &[3, 1, 0, 4], width: 2 }; // two rows
/// ```
#[derive(Clone, Copy, Drop)]
pub struct Counts<'a> {
    pub counts: &'a [u32],
    pub width: usize,
}

impl<'a, P: WordOf<u32>, const PRECISION: usize> Models<P, PRECISION> for Counts<'a> {
    ghost coded = { λ given. by_counts P.BITS given.width given.counts.now };

    fn check(&self, count: usize) -> Result<(), Refusal> {
        if !is_product(self.counts.len(), self.width, count) {
            return Err(Refusal::WrongLength);
        }
        if are_counts::<P, PRECISION>(self.counts, self.width, count) {
            Ok(())
        } else {
            Err(Refusal::WrongWeights)
        }
    }
}

impl<'a, P: WordOf<u32>, const PRECISION: usize> EncoderModels<P, PRECISION> for Counts<'a> {
    type List = CountList<'a, P, PRECISION>;

    fn know<S: Symbol>(&self, symbols: &[S]) -> bool {
        are_below::<S>(symbols, self.width)
    }

    fn list(
        &self,
        _alloc: Global,
        count: usize,
        _divides: bool,
    ) -> Option<CountList<'a, P, PRECISION>> {
        Some(CountList {
            counts: self.counts,
            width: self.width,
            count,
            place: count,
            row: None,
        })
    }
}

impl<'a, P: WordOf<u32>, const PRECISION: usize> DecoderModels<P, PRECISION> for Counts<'a> {
    type Symbol = usize;

    type DecoderList = CountList<'a, P, PRECISION>;

    #[inline]
    fn decoder_list(&self, alloc: Global, count: usize) -> Option<CountList<'a, P, PRECISION>> {
        EncoderModels::<P, PRECISION>::list(self, alloc, count, false)
    }

    ghost kept_law = { λ given ns fit known. refl };
}

/// Rows of counts that are checked. A look-up adds up the counts of its row. The list needs no memory.
///
/// To decode, the list keeps the row that `select` selected. Before a row is selected, it keeps none.
///
/// # Examples
///
/// ```
/// let rows = Counts { counts: &[3, 1, 0, 4], width: 2 };
/// if let Some(mut list) = EncoderModels::<u16, 12>::list(&rows, alloc, 2, false) {
///     ModelList::<u16, 12>::interval(&mut list, 1, 0) // Some((0, 1, None))
/// }
/// ```
#[derive(Drop)]
pub struct CountList<'a, P: WordOf<u32>, const PRECISION: usize> {
    counts: &'a [u32],
    width: usize,
    count: usize,
    place: usize,
    row: Option<CountRow<'a, P, PRECISION>>,
    ghost positive: { 1 ≤ PRECISION },
    ghost fits: { IsCountPrecision P.BITS PRECISION },
    ghost counted: { length counts.now ≡ width * count },
    ghost rows: { AreCountRows PRECISION width count counts.now },
    ghost selected: { place < count → option_map (λ chosen. chosen.counts.now) row
        ≡ Some (row_at_index width place counts.now) },
}

impl<'a, P: WordOf<u32>, const PRECISION: usize> ModelList<P, PRECISION>
    for CountList<'a, P, PRECISION> {
    const LOOKS_AHEAD: bool = true;

    ghost tables = { λ list. count_tables PRECISION list.width list.count list.counts.now };

    #[inline]
    fn count(&self) -> usize {
        self.count
    }

    #[inline]
    fn interval(
        &mut self,
        place: usize,
        symbol: usize,
    ) -> Option<(P, <P as BitArray>::NonZero, Option<Reciprocal>)> {
        let row = row_at(self.counts, self.width, place);
        match CategoricalCounts::<P, PRECISION>::interval_of(row, symbol) {
            Some(found) => Some((found.0, found.1, None)),
            None => None,
        }
    }
}

impl<'a, P: WordOf<u32>, const PRECISION: usize> DecoderModelList<P, PRECISION>
    for CountList<'a, P, PRECISION> {
    type Model = CountRow<'a, P, PRECISION>;

    ghost tables = { λ list. count_tables PRECISION list.width list.count list.counts.now };

    ghost turned_to = { λ list. list.place };

    #[inline]
    fn select(&mut self, place: usize) {
        let counts = row_at(self.counts, self.width, place);
        self.row = Some(CountRow {
            counts,
            of: PhantomData,
        });
        self.place = place;
    }

    #[inline]
    fn model(&self) -> &CountRow<'a, P, PRECISION> {
        match &self.row {
            Some(row) => row,
            None => unreachable!(),
        }
    }
}

/// Returns row `place` of `counts`, which has rows of `width` counts, one after another.
///
/// The caller proves that there is such a row.
#[inline(always)]
fn row_at(counts: &[u32], width: usize, place: usize) -> &[u32]
    requires { width * place + width ≤ length counts.now }
    ensures { result.now ≡ row_at_index width place counts.now }
{
    let start = width * place;
    let end = start + width;
    &counts[start..end]
}

/// Returns whether counts can have tables at this precision, and each of `count` rows of `width` counts has one.
///
/// `counts` has the rows one after another. The caller proves that `counts` has `count` rows.
fn are_counts<P: WordOf<u32>, const PRECISION: usize>(
    counts: &[u32],
    width: usize,
    count: usize,
) -> bool
    requires precision { 1 ≤ PRECISION }
    requires counted { length counts.now ≡ width * count }
    ensures { IsTrue result
        ↔ (IsCountPrecision P.BITS PRECISION × AreCountRows PRECISION width count counts.now) }
{
    if PRECISION > 24 || PRECISION >= P::BITS as usize {
        return false;
    }
    are_rows::<P, PRECISION>(counts, width, count)
}

/// Returns whether each of `count` rows of `width` counts has a table.
///
/// `counts` has the rows one after another. The caller proves that `counts` has `count` rows.
fn are_rows<P: WordOf<u32>, const PRECISION: usize>(
    counts: &[u32],
    width: usize,
    count: usize,
) -> bool
    requires precision { 1 ≤ PRECISION }
    requires sizes { IsCountPrecision P.BITS PRECISION }
    requires counted { length counts.now ≡ width * count }
    ensures { IsTrue result ↔ AreCountRows PRECISION width count counts.now }
{
    let mut start = 0;
    for _done in 0..count {
        let end = start + width;
        if !CategoricalCounts::<P, PRECISION>::have_table(&counts[start..end]) {
            return false;
        }
        start = end;
    }
    true
}
