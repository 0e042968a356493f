//! A model of equal weights for benchmarks, without a table in memory.

ghost use Rattle.std.specs.Prelude.{◌≡◌, ◌+◌, ◌*◌, ◌^◌, ◌<◌, ◌≤◌, ◌-◌, ◌⊎◌, IfNone, IfSome};
ghost use Rattle.std.proofs.Common.{arith};
ghost use Rattle.constriction_bench.specs.Equal.{equal_table, equal_makes_table, equal_two};

use constriction_base::model::{DecoderModel, EncoderModel, EntropyModel};
use constriction_words::{BitArray, WordOf};

/// The model of the symbols below `2^bits`, each with the weight `2^shift`.
///
/// The model has no table in memory, so a measurement shows the coder's own cost. `weight` and `shift` are fields. A
/// compiler that doesn't know their values can't turn the coder's division by a weight into a bit shift.
#[derive(Drop)]
pub struct Flat<Probability: WordOf<u32>, const PRECISION: usize> {
    weight: Probability::NonZero,
    shift: u32,
    bits: u32,
    ghost is_power: { Probability.nonzero_number weight ≡ 2 ^ shift },
    ghost whole: { bits + shift ≡ PRECISION },
    ghost some_bits: { 1 ≤ bits },
    ghost few_bits: { bits < 32 },
    ghost fits: { PRECISION ≤ Probability.BITS },
}

impl<Probability: WordOf<u32>, const PRECISION: usize> Flat<Probability, PRECISION> {
    /// Creates the model of `2^bits` symbols. Returns `None` if `bits` is 0, above 31 or above `PRECISION`.
    pub fn new(bits: u32) -> Option<Self>
        requires { (1 ≤ PRECISION) × (PRECISION ≤ Probability.BITS) }
        ensures some { IfSome result
            (λ flat. ⟦<Flat<Probability, PRECISION> as EntropyModel<PRECISION>>⟧.table flat
            ≡ equal_table bits (PRECISION - bits)) }
        ensures none { IfNone result ((bits ≡ 0) ⊎ (32 ≤ bits) ⊎ (PRECISION < bits)) }
    {
        if bits == 0 || bits >= 32 || bits as usize > PRECISION {
            return None;
        }
        let shift = PRECISION as u32 - bits;
        let weight = Probability::narrow(1).shift_left(shift);
        Some(Flat {
            weight: weight.to_nonzero().unwrap(),
            shift,
            bits,
        })
    }
}

impl<Probability: WordOf<u32>, const PRECISION: usize> EntropyModel<PRECISION>
    for Flat<Probability, PRECISION> {
    type Symbol = usize;

    type Probability = Probability;

    ghost table = { λ flat. equal_table flat.bits flat.shift };

    ghost lawful = { λ flat. equal_makes_table PRECISION flat.bits flat.shift flat.whole };

    ghost sized = { λ flat. (Prim.omega arith, flat.fits) };

    ghost two_symbols = { λ flat _. equal_two flat.bits flat.shift flat.some_bits };
}

impl<Probability: WordOf<u32>, const PRECISION: usize> EncoderModel<PRECISION>
    for Flat<Probability, PRECISION> {
    #[inline(always)]
    fn left_cumulative_and_probability(
        &self,
        symbol: &usize,
    ) -> Option<(Probability, <Probability as BitArray>::NonZero)> {
        if *symbol >> self.bits != 0 {
            return None;
        }
        let left = Probability::narrow(*symbol as u32).shift_left(self.shift);
        Some((left, self.weight))
    }
}

impl<Probability: WordOf<u32>, const PRECISION: usize> DecoderModel<PRECISION>
    for Flat<Probability, PRECISION> {
    #[inline(always)]
    fn quantile_function(
        &self,
        quantile: Probability,
    ) -> (usize, Probability, <Probability as BitArray>::NonZero) {
        let symbol = quantile.shift_right(self.shift);
        (
            symbol.widen() as usize,
            symbol.shift_left(self.shift),
            self.weight,
        )
    }
}
