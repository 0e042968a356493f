//! Implementations of the model traits for [`Row`], a row of weights.

ghost use Rattle.std.specs.Prelude.{map};
ghost use Rattle.constriction_base.specs.Tables.{table_of};
ghost use Rattle.constriction_base.specs.laws.Weights.{weights_make_table};
ghost use Rattle.constriction_inputs.specs.laws.Rows.{two_weights};

use crate::rows::Row;
use crate::rows::adding::sum_before;
use constriction_base::model::{DecoderModel, EncoderModel, EntropyModel};
use constriction_words::BitArray;

impl<'a, P: BitArray, const PRECISION: usize> EntropyModel<PRECISION> for Row<'a, P, PRECISION> {
    type Symbol = usize;

    type Probability = P;

    ghost table = { λ row. table_of (map P.number row.weights.now) };

    ghost lawful = { λ row. weights_make_table PRECISION (map P.number row.weights.now) row.total };

    ghost sized = { λ row. (row.positive, row.fits) };

    ghost two_symbols = { λ row all. two_weights P.number P.BITS P.number_law PRECISION row.weights.now row.total all };
}

impl<'a, P: BitArray, const PRECISION: usize> EncoderModel<PRECISION> for Row<'a, P, PRECISION> {
    fn left_cumulative_and_probability(
        &self,
        symbol: &usize,
    ) -> Option<(P, <P as BitArray>::NonZero)> {
        if *symbol >= self.weights.len() {
            return None;
        }
        match self.weights[*symbol].to_nonzero() {
            None => None,
            Some(p) => Some((sum_before(self.weights, *symbol), p)),
        }
    }
}

impl<'a, P: BitArray, const PRECISION: usize> DecoderModel<PRECISION> for Row<'a, P, PRECISION> {
    // Not inlined, so that the loop is compiled alike for all coders.
    #[inline(never)]
    fn quantile_function(&self, quantile: P) -> (usize, P, <P as BitArray>::NonZero) {
        let mut left = P::nothing();
        for symbol in 0..self.weights.len() {
            let weight = self.weights[symbol];
            if quantile.minus(left).is_below(weight) {
                return (symbol, left, weight.to_nonzero().unwrap());
            }
            left = left.plus(weight);
        }
        unreachable!()
    }
}
