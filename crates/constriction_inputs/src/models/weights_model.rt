//! `WeightsModel`: the model of a table of weights, in one of two forms.

ghost use Rattle.constriction_inputs.specs.WeightsModels.{lawful_of_either, of_either, sized_of_either};
ghost use Rattle.constriction_inputs.specs.WeightsModels.{two_of_either};

use constriction_base::model::{DecoderModel, EncoderModel, EntropyModel};
use constriction_words::{BitArray, Reciprocal};

/// A model in one of two forms, which a program chooses at run time.
///
/// [`Weights`](crate::models::Weights) chooses a table of weights, or a lookup model for long lists to decode, or the
/// caller's weights themselves for a single symbol. A lookup model decodes a symbol in less time than a table, but
/// takes more time and memory to make.
///
/// # Examples
///
/// ```
/// let table = WeightTable::<u8, 8>::for_decoding(alloc, &[255, 1])?;
/// let lookup = ContiguousLookupDecoderModel::new(alloc, table)?;
/// let model: WeightsModel<WeightTable<u8, 8>, _> = WeightsModel::Rows(lookup);
/// model.quantile_function(255) // (1, 255, 1)
/// ```
#[derive(Drop)]
pub enum WeightsModel<T, R> {
    /// A table or a row of weights.
    Table(T),
    /// A row of weights, or a model with a row for each quantile.
    Rows(R),
}

impl<
    P: BitArray,
    T: EntropyModel<PRECISION, Symbol = usize, Probability = P>,
    R: EntropyModel<PRECISION, Symbol = usize, Probability = P>,
    const PRECISION: usize,
> EntropyModel<PRECISION> for WeightsModel<T, R> {
    type Symbol = usize;

    type Probability = P;

    ghost table = { λ m. of_either T.table R.table m };

    ghost lawful = { λ m. lawful_of_either PRECISION T.table R.table T.lawful R.lawful m };

    ghost sized = { λ m. sized_of_either T.sized R.sized m };

    ghost two_symbols = { λ m. two_of_either PRECISION P.BITS T.table R.table T.two_symbols R.two_symbols m };
}

impl<
    P: BitArray,
    T: EncoderModel<PRECISION, Symbol = usize, Probability = P>,
    R: EncoderModel<PRECISION, Symbol = usize, Probability = P>,
    const PRECISION: usize,
> EncoderModel<PRECISION> for WeightsModel<T, R> {
    #[inline(always)]
    fn left_cumulative_and_probability(
        &self,
        symbol: &usize,
    ) -> Option<(P, <P as BitArray>::NonZero)> {
        match self {
            WeightsModel::Table(model) => model.left_cumulative_and_probability(symbol),
            WeightsModel::Rows(model) => model.left_cumulative_and_probability(symbol),
        }
    }

    #[inline(always)]
    fn left_cumulative_and_reciprocal(
        &self,
        symbol: &usize,
    ) -> Option<(P, <P as BitArray>::NonZero, Option<Reciprocal>)> {
        match self {
            WeightsModel::Table(model) => model.left_cumulative_and_reciprocal(symbol),
            WeightsModel::Rows(model) => model.left_cumulative_and_reciprocal(symbol),
        }
    }
}

impl<
    P: BitArray,
    T: DecoderModel<PRECISION, Symbol = usize, Probability = P>,
    R: DecoderModel<PRECISION, Symbol = usize, Probability = P>,
    const PRECISION: usize,
> DecoderModel<PRECISION> for WeightsModel<T, R> {
    #[inline(always)]
    fn quantile_function(&self, quantile: P) -> (usize, P, <P as BitArray>::NonZero) {
        match self {
            WeightsModel::Table(model) => model.quantile_function(quantile),
            WeightsModel::Rows(model) => model.quantile_function(quantile),
        }
    }
}
