//! Writes the interval of each symbol in the symbol's own model, which has a location and a scale.
//!
//! A caller in another language can read a model's whole table with [`intervals_of_quantized`]. To do this, the caller
//! passes the indices of all symbols in order, with the same location and scale for each symbol. The caller can also
//! pass the intervals to a call that encodes intervals.

ghost use Rattle.std.specs.Prelude.{◌≡◌, ◌<◌, ◌≤◌, Some, length, map};
ghost use Rattle.std.specs.List.{AllByRecursion};
ghost use Rattle.constriction_base.specs.Models.{pairs_of};
ghost use Rattle.constriction_models.specs.Quantizers.{symbol_count, first_symbol};
ghost use Rattle.constriction_inputs.specs.Quantized.{AreIntervalsOf, family_arguments, tables_by};
ghost use Rattle.constriction_inputs.specs.QuantizedCalls.{WritesIntervals, intervals_in};

use crate::models::{EncoderModels, Families, Models};
use crate::refusal::Refusal;
use constriction_base::model::EncoderModel;
use constriction_models::families::Family;
use constriction_models::quantizer::LeakyQuantizer;
use constriction_words::{BitArray, WordOf};

/// Writes the start of each symbol's interval into `lefts`, and the interval's length into `ps`, in quantiles.
///
/// `families` has a model for each symbol. The call needs no memory.
///
/// # Errors
///
/// The call returns the first of these errors whose condition holds, and no other error. After an error, `lefts` and
/// `ps` are unchanged.
///
/// - `WrongLength`: `lefts`, `ps`, or a list of `families` doesn't have one item for each symbol.
/// - `WrongInterval`: the range of `families` has fewer than two or more than `2 ^ PRECISION` symbols.
/// - `WrongWeights`: `families.family` is above 2, so it stands for no family, or a scale is 0.
/// - `ImpossibleSymbol`: a symbol isn't an index into the range of `families`.
pub fn intervals_of_quantized<P: WordOf<u32>, const PRECISION: usize>(
    families: &Families<'_>,
    symbols: &[usize],
    lefts: &mut [P],
    ps: &mut [P],
) -> Result<(), Refusal>
    requires { (1 ≤ PRECISION) × (PRECISION ≤ P.BITS) }
    ensures call { WritesIntervals P.number PRECISION
        (family_arguments families.now) symbols.now
        (intervals_in lefts.old ps.old) (intervals_in lefts.new ps.new) result }
{
    if lefts.len() != symbols.len() || ps.len() != symbols.len() {
        return Err(Refusal::WrongLength);
    }
    if families.locations.len() != symbols.len() {
        return Err(Refusal::WrongLength);
    }
    let (family, quantizer) = families.quantizer::<P, PRECISION>()?;
    if !EncoderModels::<P, PRECISION>::know::<usize>(families, symbols) {
        return Err(Refusal::ImpossibleSymbol);
    }
    put_intervals(
        family,
        &quantizer,
        families.locations,
        families.scales,
        symbols,
        lefts,
        ps,
    );
    Ok(())
}

/// Writes the start of each symbol's interval into `lefts`, and the interval's length into `ps`, in quantiles.
///
/// The model of symbol `i` has location `locations[i]` and scale `scales[i]`. The caller proves that all lists have the
/// same length, that all scales are above 0, and that each symbol is an index into the range of `quantizer`.
fn put_intervals<P: WordOf<u32>, const PRECISION: usize>(
    family: Family,
    quantizer: &LeakyQuantizer<P, PRECISION>,
    locations: &[i64],
    scales: &[u32],
    symbols: &[usize],
    lefts: &mut [P],
    ps: &mut [P],
)
    requires counted { (length locations.now ≡ length symbols.now) × (length scales.now ≡ length symbols.now) }
    requires room { (length lefts.now ≡ length symbols.now) × (length ps.now ≡ length symbols.now) }
    requires scaled { AllByRecursion (λ scale. 0 < scale) scales.now }
    requires places { AllByRecursion (λ symbol. symbol < symbol_count quantizer.now) symbols.now }
    ensures { AreIntervalsOf
        (pairs_of PRECISION (λ table. table) symbols.now
        (tables_by PRECISION (Some family) (first_symbol quantizer.now)
        (symbol_count quantizer.now) locations.now scales.now))
        (map P.number lefts.new) (map P.number ps.new) }
{
    for i in 0..symbols.len() {
        let distribution = family.distribution(locations[i], scales[i]).unwrap();
        let model = quantizer.quantize_indexed(distribution);
        let (left, p) = model.left_cumulative_and_probability(&symbols[i]).unwrap();
        lefts[i] = left;
        ps[i] = P::from_nonzero(p);
    }
}
