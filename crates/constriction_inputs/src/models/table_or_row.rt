//! `TableOrRow`: a table of weights, or a row of weights in place of one.

ghost use Rattle.std.proofs.Common.{rules};
ghost use Rattle.constriction_base.specs.WeightTables.{entries_are_two};
ghost use Rattle.constriction_inputs.specs.WeightsModels.{two_of_either};
ghost use Rattle.constriction_inputs.specs.laws.Rows.{two_weights};

use crate::models::weights_model::WeightsModel;
use crate::rows::Row;
use constriction_base::model::{DecoderModel, EncoderModel, EntropyModel};
use constriction_base::weights::WeightTable;
use constriction_words::{BitArray, Reciprocal};

/// The two forms of the model.
type Forms<'a, P, const PRECISION: usize> = WeightsModel<
    WeightTable<P, PRECISION>,
    Row<'a, P, PRECISION>,
>;

/// A [`WeightTable`], or a [`Row`] whose look-up adds up weights.
///
/// A proof about a call with this model mentions this type, and none of the types that it is made of, which makes the
/// proof several times shorter.
///
/// # Examples
///
/// ```
/// if let Some(row) = Row::<u8, 8>::new(&[255, 1]) {
///     let model = TableOrRow { model: WeightsModel::Rows(row) };
///     model.quantile_function(255) // (1, 255, 1)
/// }
/// ```
#[derive(Drop)]
pub struct TableOrRow<'a, P: BitArray, const PRECISION: usize> {
    pub model: WeightsModel<WeightTable<P, PRECISION>, Row<'a, P, PRECISION>>,
}

impl<'a, P: BitArray, const PRECISION: usize> EntropyModel<PRECISION>
    for TableOrRow<'a, P, PRECISION> {
    type Symbol = usize;

    type Probability = P;

    ghost table = { λ m. ⟦<Forms<'a, P, PRECISION> as EntropyModel<PRECISION>>⟧.table m.model };

    ghost lawful = { λ m. ⟦<Forms<'a, P, PRECISION> as EntropyModel<PRECISION>>⟧.lawful m.model };

    ghost sized = { λ m. Prim.search rules };

    ghost two_symbols = { λ m all. two_of_either PRECISION P.BITS
        ⟦<WeightTable<P, PRECISION> as EntropyModel<PRECISION>>⟧.table
        ⟦<Row<'a, P, PRECISION> as EntropyModel<PRECISION>>⟧.table (λ table is. entries_are_two table is)
        (λ row is. two_weights P.number P.BITS P.number_law PRECISION row.weights.now row.total is) m.model all };
}

impl<'a, P: BitArray, const PRECISION: usize> EncoderModel<PRECISION>
    for TableOrRow<'a, P, PRECISION> {
    #[inline(always)]
    fn left_cumulative_and_probability(
        &self,
        symbol: &usize,
    ) -> Option<(P, <P as BitArray>::NonZero)> {
        self.model.left_cumulative_and_probability(symbol)
    }

    #[inline(always)]
    fn left_cumulative_and_reciprocal(
        &self,
        symbol: &usize,
    ) -> Option<(P, <P as BitArray>::NonZero, Option<Reciprocal>)> {
        self.model.left_cumulative_and_reciprocal(symbol)
    }
}

impl<'a, P: BitArray, const PRECISION: usize> DecoderModel<PRECISION>
    for TableOrRow<'a, P, PRECISION> {
    #[inline(always)]
    fn quantile_function(&self, quantile: P) -> (usize, P, <P as BitArray>::NonZero) {
        self.model.quantile_function(quantile)
    }
}
