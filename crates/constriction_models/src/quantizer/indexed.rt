//! `IndexedDistribution`: a quantized distribution with symbols of type `usize`, counted from 0.

ghost use Rattle.std.specs.Prelude.{◌≡◌};
ghost use Rattle.constriction_models.specs.Quantized.{indexed};
ghost use Rattle.constriction_models.specs.laws.Indexing.{indexed_is_table, indexed_two};

use crate::distribution::CumulativeDistribution;
use crate::intervals::interval;
use crate::quantizer::{LeakilyQuantizedDistribution, LeakyQuantizer};
use constriction_base::model::{DecoderModel, EncoderModel, EntropyModel};
use constriction_words::{BitArray, Reciprocal, WordOf};
use std::marker::PhantomData;

/// A distribution cut halfway between symbols, as a model of the symbols `0`, `1`, ..
///
/// Symbol `k` of the model stands for the symbol `first + k`, where `first` is the first symbol of the range. The type
/// is for callers who need symbols of type `usize`, as in weight tables and in
/// [`crate::lookup::ContiguousLookupDecoderModel`].
///
/// # Examples
///
/// ```
/// let quantizer = LeakyQuantizer::<u32, 24>::new(-127, 128)?;
/// if let Some(gaussian) = Gaussian::new(229376, 147456) {
///     coder.encode_symbol(&134, quantizer.quantize_indexed(gaussian))?; // the symbol 7
/// }
/// ```
#[derive(Drop)]
pub struct IndexedDistribution<
    D: CumulativeDistribution,
    Probability: WordOf<u32>,
    const PRECISION: usize,
> {
    model: LeakilyQuantizedDistribution<D, Probability, PRECISION>,
}

impl<Probability: WordOf<u32>, const PRECISION: usize> LeakyQuantizer<Probability, PRECISION> {
    ghost use Rattle.constriction_models.specs.Quantizers.{first_symbol, symbol_count};

    /// Cuts `distribution` halfway between the symbols of the range, and returns a model with symbols counted from 0.
    ///
    /// Symbol `k` of the model stands for the symbol `first + k`, where `first` is the first symbol of the range. See
    /// the documentation of [`IndexedDistribution`] for an example.
    pub fn quantize_indexed<D: CumulativeDistribution>(
        &self,
        distribution: D,
    ) -> IndexedDistribution<D, Probability, PRECISION>
        ensures table { ⟦<IndexedDistribution<D, Probability, PRECISION> as EntropyModel<PRECISION>>⟧.table result
            ≡ indexed PRECISION (D.below distribution) (first_symbol self.now) (symbol_count self.now) }
    {
        IndexedDistribution {
            model: LeakilyQuantizedDistribution {
                distribution,
                quantizer: LeakyQuantizer {
                    min: self.min,
                    count: self.count,
                    of: PhantomData,
                },
            },
        }
    }
}

impl<D: CumulativeDistribution, Probability: WordOf<u32>, const PRECISION: usize> EntropyModel<
    PRECISION,
> for IndexedDistribution<D, Probability, PRECISION> {
    type Symbol = usize;

    type Probability = Probability;

    ghost table = { λ m. indexed PRECISION
        (D.below m.model.distribution) m.model.quantizer.min m.model.quantizer.count };

    ghost lawful = { λ m. indexed_is_table PRECISION (D.below m.model.distribution) m.model.quantizer.min
        m.model.quantizer.count (D.never_falls m.model.distribution) m.model.quantizer.some m.model.quantizer.room };

    ghost sized = { λ m. (m.model.quantizer.positive, m.model.quantizer.fits) };

    ghost two_symbols = { λ m _. indexed_two PRECISION
        (D.below m.model.distribution) m.model.quantizer.min m.model.quantizer.count m.model.quantizer.some };
}

impl<D: CumulativeDistribution, Probability: WordOf<u32>, const PRECISION: usize> EncoderModel<
    PRECISION,
> for IndexedDistribution<D, Probability, PRECISION> {
    #[inline(always)]
    fn left_cumulative_and_probability(
        &self,
        symbol: &usize,
    ) -> Option<(Probability, <Probability as BitArray>::NonZero)> {
        let place = *symbol as u64;
        if place >= self.model.quantizer.count {
            return None;
        }
        let left = self.model.start(place);
        let end = self.model.start(place + 1);
        Some(interval(left, end))
    }

    // The compiler doesn't inline the trait's own method, although an encode calls this one for each symbol.
    #[inline(always)]
    fn left_cumulative_and_reciprocal(
        &self,
        symbol: &usize,
    ) -> Option<
        (
            Probability,
            <Probability as BitArray>::NonZero,
            Option<Reciprocal>,
        ),
    > {
        let (left, p) = self.left_cumulative_and_probability(symbol)?;
        Some((left, p, None))
    }
}

impl<D: CumulativeDistribution, Probability: WordOf<u32>, const PRECISION: usize> DecoderModel<
    PRECISION,
> for IndexedDistribution<D, Probability, PRECISION> {
    #[inline(always)]
    fn quantile_function(
        &self,
        quantile: Probability,
    ) -> (usize, Probability, <Probability as BitArray>::NonZero) {
        let (symbol, left, p) = self.model.quantile_function(quantile);
        let place = symbol as i64 - self.model.quantizer.min as i64;
        (place as usize, left, p)
    }
}
