//! `NarrowWeights`: one table of weights for all symbols of a type with few values.

ghost use Rattle.std.specs.Prelude.{◌≡◌, length, map};
ghost use Rattle.constriction_inputs.specs.Weights.{narrow_by_weights};
ghost use Rattle.constriction_inputs.specs.laws.Weights.{known_below};

use crate::models::weights::WeightsDecoderList;
use crate::models::{DecoderModels, Models, Weights};
use crate::refusal::Refusal;
use crate::symbol::Symbol;
use constriction_words::BitArray;
use std::alloc::Global;
use std::marker::PhantomData;

/// [`Weights`] for symbols of a type `S`, such as bytes, that has a value for each index of the weights.
///
/// # Examples
///
/// ```
/// let models: NarrowWeights<'_, u8, u8> = NarrowWeights { weights: &[255, 1], symbols: PhantomData };
/// ```
#[derive(Drop)]
pub struct NarrowWeights<'a, P, S> {
    pub weights: &'a [P],
    pub symbols: PhantomData<S>,
}

impl<'a, P, S> NarrowWeights<'a, P, S> {
    /// Returns the same table for symbols of type `usize`.
    #[inline]
    fn table(&self) -> Weights<'a, P>
        ensures { result.weights.now ≡ self.now.weights.now }
    {
        Weights {
            weights: self.weights,
        }
    }
}

impl<'a, P: BitArray, S: Symbol, const PRECISION: usize> Models<P, PRECISION>
    for NarrowWeights<'a, P, S> {
    ghost coded = { λ given. narrow_by_weights S.many (map P.number given.weights.now) };

    fn check(&self, count: usize) -> Result<(), Refusal> {
        if !S::has_numbers(self.weights.len()) {
            return Err(Refusal::WrongLength);
        }
        Models::<P, PRECISION>::check(&self.table(), count)
    }
}

impl<'a, P: BitArray, S: Symbol, const PRECISION: usize> DecoderModels<P, PRECISION>
    for NarrowWeights<'a, P, S> {
    type Symbol = S;

    type DecoderList = WeightsDecoderList<'a, P, PRECISION>;

    fn decoder_list(
        &self,
        alloc: Global,
        count: usize,
    ) -> Option<WeightsDecoderList<'a, P, PRECISION>> {
        DecoderModels::<P, PRECISION>::decoder_list(&self.table(), alloc, count)
    }

    ghost kept_law = { λ given ns fit known. S.kept_law ns (known_below PRECISION S.many
        (map P.number given.weights.now) ns fit.0 known) };
}
