//! `CountRow`: a row of counts as a model to decode with.

ghost use Rattle.std.specs.Prelude.{◌≤◌, length};
ghost use Rattle.constriction_inputs.specs.Counts.{IsCountPrecision};
ghost use Rattle.constriction_inputs.specs.laws.Counts.{made_is_table};
ghost use Rattle.constriction_models.specs.Categorical.{MakeCategorical, categorical};
ghost use Rattle.constriction_models.specs.laws.Categorical.{below_is_within, categorical_two};

use constriction_base::model::{DecoderModel, EntropyModel};
use constriction_models::categorical::CategoricalCounts;
use constriction_words::{BitArray, WordOf};
use std::marker::PhantomData;

/// A row of counts that has a table. The model stores the row alone, so a look-up adds up the row's counts.
///
/// # Examples
///
/// ```
/// let rows = Counts { counts: &[3, 1, 0, 4], width: 2 };
/// if let Some(mut list) = DecoderModels::<u16, 12>::decoder_list(&rows, alloc, 2) {
///     DecoderModelList::<u16, 12>::select(&mut list, 0);
///     DecoderModelList::<u16, 12>::model(&list).quantile_function(4095) // (1, 3071, 1025)
/// }
/// ```
#[derive(Drop)]
pub struct CountRow<'a, P: WordOf<u32>, const PRECISION: usize> {
    pub(crate) counts: &'a [u32],
    pub(crate) of: PhantomData<P>,
    ghost positive: { 1 ≤ PRECISION },
    ghost fits: { IsCountPrecision P.BITS PRECISION },
    ghost made: { MakeCategorical PRECISION counts.now },
}

impl<'a, P: WordOf<u32>, const PRECISION: usize> EntropyModel<PRECISION>
    for CountRow<'a, P, PRECISION> {
    type Symbol = usize;

    type Probability = P;

    ghost table = { λ row. categorical PRECISION row.counts.now };

    ghost lawful = { λ row. made_is_table PRECISION row.counts.now row.made };

    ghost sized = { λ row. (row.positive, below_is_within PRECISION P.BITS row.fits.1) };

    ghost two_symbols = { λ row full. categorical_two PRECISION P.BITS row.counts.now row.fits.1 full };
}

impl<'a, P: WordOf<u32>, const PRECISION: usize> DecoderModel<PRECISION>
    for CountRow<'a, P, PRECISION> {
    #[inline]
    fn quantile_function(&self, quantile: P) -> (usize, P, <P as BitArray>::NonZero) {
        let model = CategoricalCounts::<P, PRECISION>::new(self.counts).unwrap();
        model.quantile_function(quantile)
    }
}
