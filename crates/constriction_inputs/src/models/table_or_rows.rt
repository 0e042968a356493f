//! `TableOrRows`: the model of a table of weights to decode with.

ghost use Rattle.std.proofs.Common.{rules};
ghost use Rattle.constriction_base.specs.WeightTables.{entries_are_two};
ghost use Rattle.constriction_inputs.specs.WeightsModels.{two_of_either};
ghost use Rattle.constriction_inputs.specs.laws.Rows.{two_weights};

use crate::models::row_lookup::RowLookup;
use crate::models::table_or_row::TableOrRow;
use crate::models::weights_model::WeightsModel;
use crate::rows::Row;
use constriction_base::model::{DecoderModel, EntropyModel};
use constriction_base::weights::WeightTable;
use constriction_words::BitArray;

/// The two forms of the model.
type Forms<'a, P, const PRECISION: usize> = WeightsModel<
    TableOrRow<'a, P, PRECISION>,
    RowLookup<'a, P, PRECISION>,
>;

/// The model of a table of weights to decode with: a [`TableOrRow`], or a [`RowLookup`] with a row for each quantile.
///
/// A proof about a call with this model mentions this type, and none of the types that it is made of, which makes the
/// proof several times shorter.
///
/// # Examples
///
/// ```
/// if let Some(row) = Row::<u8, 8>::new(&[255, 1]) {
///     let model = TableOrRows { model: WeightsModel::Table(TableOrRow { model: WeightsModel::Rows(row) }) };
///     model.quantile_function(255) // (1, 255, 1)
/// }
/// ```
#[derive(Drop)]
pub struct TableOrRows<'a, P: BitArray, const PRECISION: usize> {
    pub model: WeightsModel<TableOrRow<'a, P, PRECISION>, RowLookup<'a, P, PRECISION>>,
}

impl<'a, P: BitArray, const PRECISION: usize> EntropyModel<PRECISION>
    for TableOrRows<'a, P, PRECISION> {
    type Symbol = usize;

    type Probability = P;

    ghost table = { λ m. ⟦<Forms<'a, P, PRECISION> as EntropyModel<PRECISION>>⟧.table m.model };

    ghost lawful = { λ m. ⟦<Forms<'a, P, PRECISION> as EntropyModel<PRECISION>>⟧.lawful m.model };

    ghost sized = { λ m. Prim.search rules };

    ghost two_symbols = { λ m all. two_of_either PRECISION P.BITS
        ⟦<TableOrRow<'a, P, PRECISION> as EntropyModel<PRECISION>>⟧.table
        ⟦<RowLookup<'a, P, PRECISION> as EntropyModel<PRECISION>>⟧.table
        (λ m is. two_of_either PRECISION P.BITS ⟦<WeightTable<P, PRECISION> as EntropyModel<PRECISION>>⟧.table
        ⟦<Row<'a, P, PRECISION> as EntropyModel<PRECISION>>⟧.table (λ table is. entries_are_two table is)
        (λ row is. two_weights P.number P.BITS P.number_law PRECISION row.weights.now row.total is) m.model is)
        (λ lookup is. two_weights P.number P.BITS P.number_law PRECISION lookup.row.weights.now lookup.row.total is)
        m.model all };
}

impl<'a, P: BitArray, const PRECISION: usize> DecoderModel<PRECISION>
    for TableOrRows<'a, P, PRECISION> {
    #[inline(always)]
    fn quantile_function(&self, quantile: P) -> (usize, P, <P as BitArray>::NonZero) {
        self.model.quantile_function(quantile)
    }
}
