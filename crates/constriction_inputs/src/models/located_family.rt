//! `LocatedFamily`: a family with a location and a scale, as a model to decode with.

ghost use Rattle.std.specs.Prelude.{◌≡◌, ◌<◌, get_or, length, pos};
ghost use Rattle.constriction_models.specs.Families.{family_below};
ghost use Rattle.constriction_models.specs.Quantized.{indexed};
ghost use Rattle.constriction_models.specs.Quantizers.{first_symbol, symbol_count};
ghost use Rattle.constriction_models.specs.laws.Indexing.{indexed_is_table, indexed_two};
ghost use Rattle.constriction_inputs.specs.laws.Families.{family_is_distribution};

use crate::models::families::model_of;
use constriction_base::model::{DecoderModel, EntropyModel};
use constriction_models::families::Family;
use constriction_models::quantizer::LeakyQuantizer;
use constriction_words::{BitArray, WordOf};

/// A family's distribution with a location and a scale, over the range of a quantizer. Its symbols are indices into the
/// range. The model stores the location and the scale, so a look-up computes the inverse of the scale.
///
/// # Examples
///
/// ```
/// let families = Families::new(0, -127, 128, &[0, 229376], &[65536, 147456]);
/// if let Some(mut list) = DecoderModels::<u32, 24>::decoder_list(&families, alloc, 2) {
///     DecoderModelList::<u32, 24>::select(&mut list, 1);
///     DecoderModelList::<u32, 24>::model(&list).quantile_function(8388608)
/// }
/// ```
#[derive(Drop)]
pub struct LocatedFamily<P: WordOf<u32>, const PRECISION: usize> {
    pub(crate) family: Family,
    pub(crate) quantizer: LeakyQuantizer<P, PRECISION>,
    pub(crate) location: i64,
    pub(crate) scale: u32,
    ghost positive: { 0 < scale },
}

impl<P: WordOf<u32>, const PRECISION: usize> LocatedFamily<P, PRECISION> {
    /// Sets the location and the scale to those at index `place`.
    ///
    /// The caller proves that there is a location at this index, that there are as many scales as locations, and that
    /// this scale is above 0.
    #[inline(always)]
    pub(crate) fn move_to(&mut self, locations: &[i64], scales: &[u32], place: usize)
        requires within { place < length locations.now }
        requires counted { length locations.now ≡ length scales.now }
        requires scaled { 0 < get_or scales.now place 0 }
        ensures moved { (self.new.location ≡ get_or locations.now place (pos 0))
            × (self.new.scale ≡ get_or scales.now place 0) }
        ensures kept { (self.new.family ≡ self.old.family) × (self.new.quantizer ≡ self.old.quantizer) }
    {
        self.location = locations[place];
        self.scale = scales[place];
    }
}

impl<P: WordOf<u32>, const PRECISION: usize> EntropyModel<PRECISION>
    for LocatedFamily<P, PRECISION> {
    type Symbol = usize;

    type Probability = P;

    ghost table = { λ m. indexed PRECISION (family_below m.family m.location m.scale) (first_symbol m.quantizer)
        (symbol_count m.quantizer) };

    ghost lawful = { λ m. indexed_is_table PRECISION (family_below m.family m.location m.scale) m.quantizer.min
        m.quantizer.count (family_is_distribution m.family m.location m.scale) m.quantizer.some m.quantizer.room };

    ghost sized = { λ m. (m.quantizer.positive, m.quantizer.fits) };

    ghost two_symbols = { λ m _. indexed_two PRECISION (family_below m.family m.location m.scale) m.quantizer.min
        m.quantizer.count m.quantizer.some };
}

impl<P: WordOf<u32>, const PRECISION: usize> DecoderModel<PRECISION>
    for LocatedFamily<P, PRECISION> {
    #[inline(always)]
    fn quantile_function(&self, quantile: P) -> (usize, P, <P as BitArray>::NonZero) {
        let model = model_of(self.family, &self.quantizer, self.location, self.scale);
        model.quantile_function(quantile)
    }
}
