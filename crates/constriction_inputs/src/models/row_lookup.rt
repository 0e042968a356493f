//! `RowLookup`: a row of weights, and a row for each quantile.

ghost use Rattle.std.specs.Prelude.{◌≡◌, ◌^◌, ◌≤◌, map, IfSome};
ghost use Rattle.constriction_base.specs.Tables.{table_of};
ghost use Rattle.constriction_base.specs.WeightTables.{entries};
ghost use Rattle.constriction_base.specs.laws.Weights.{weights_make_table};
ghost use Rattle.constriction_inputs.specs.Weights.{IsTotal};
ghost use Rattle.constriction_inputs.specs.laws.Rows.{two_weights};
ghost use Rattle.constriction_models.specs.Lookup.{AreRows};

use crate::rows::Row;
use constriction_base::model::{DecoderModel, EntropyModel};
use constriction_base::weights::WeightTable;
use constriction_models::lookup::LookupRows;
use constriction_words::BitArray;
use std::alloc::Global;

/// A row of weights, with the symbol and the interval of each quantile.
///
/// # Examples
///
/// ```
/// let table = WeightTable::<u8, 8>::for_decoding(alloc, &[255, 1])?;
/// if let Some(lookup) = RowLookup::new(alloc, &[255, 1], &table) {
///     lookup.quantile_function(255) // (1, 255, 1)
/// }
/// ```
#[derive(Drop)]
pub struct RowLookup<'a, P: BitArray, const PRECISION: usize> {
    row: Row<'a, P, PRECISION>,
    rows: LookupRows<P>,
    ghost found: { AreRows P.number P.nonzero_number (table_of (map P.number row.weights.now))
        rows.symbols.items rows.rows.items (2 ^ PRECISION) },
}

impl<'a, P: BitArray, const PRECISION: usize> RowLookup<'a, P, PRECISION> {
    /// Makes the rows of `weights`, with the table of these weights.
    ///
    /// The call returns `None` if a symbol above 65535 has a weight above 0, or if there is no memory for the rows. The
    /// caller proves that `PRECISION` is at most 16 bits, and that the weights add up to `2 ^ PRECISION`.
    pub fn new(alloc: Global, weights: &'a [P], table: &WeightTable<P, PRECISION>) -> Option<Self>
        requires sizes { (1 ≤ PRECISION) × (PRECISION ≤ P.BITS) × (PRECISION ≤ 16) }
        requires total { IsTotal PRECISION (map P.number weights.now) }
        requires table { entries table.now ≡ table_of (map P.number weights.now) }
        ensures { IfSome result (λ lookup. ⟦<RowLookup<'a, P, PRECISION> as EntropyModel<PRECISION>>⟧.table lookup
            ≡ table_of (map P.number weights.now)) }
    {
        let row = Row::of_total(weights);
        match LookupRows::new(alloc, table) {
            Some(rows) => Some(RowLookup { row, rows }),
            None => None,
        }
    }
}

impl<'a, P: BitArray, const PRECISION: usize> EntropyModel<PRECISION>
    for RowLookup<'a, P, PRECISION> {
    type Symbol = usize;

    type Probability = P;

    ghost table = { λ lookup. table_of (map P.number lookup.row.weights.now) };

    ghost lawful = { λ lookup. weights_make_table PRECISION (map P.number lookup.row.weights.now) lookup.row.total };

    ghost sized = { λ lookup. (lookup.row.positive, lookup.row.fits) };

    ghost two_symbols = { λ lookup all. two_weights P.number P.BITS P.number_law PRECISION lookup.row.weights.now
        lookup.row.total all };
}

impl<'a, P: BitArray, const PRECISION: usize> DecoderModel<PRECISION>
    for RowLookup<'a, P, PRECISION> {
    #[inline(always)]
    fn quantile_function(&self, quantile: P) -> (usize, P, <P as BitArray>::NonZero) {
        self.rows.find::<PRECISION>(quantile)
    }
}
