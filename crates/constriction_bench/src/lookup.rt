//! A table of weights for benchmarks, with a list of the symbol of each quantile.

ghost use Rattle.std.specs.Prelude.{◌≡◌, ℕ, ◌+◌, ◌-◌, ◌^◌, ◌<◌, ◌%◌, length, map, slice_index, IfSome};
ghost use Rattle.constriction_base.specs.Tables.{table_of};
ghost use Rattle.std.proofs.Common.{arith, rules};
ghost use Rattle.constriction_bench.specs.Starts.{AreStarts, HoldsQuantile};

use crate::starts::starts_of;
use constriction_base::model::{DecoderModel, EncoderModel, EntropyModel};
use constriction_base::weights::WeightTable;
use constriction_words::BitArray;
use std::alloc::Global;
use std::num::NonZero;

/// A table of at most 256 weights above 0, at a precision of 12 bits, with a list of the symbol of each quantile.
///
/// A decode reads the symbol from the list, without a search.
#[derive(Drop)]
pub struct LookupTable {
    table: WeightTable<u16, 12>,
    count: usize,
    starts: Vec<u32>,
    symbols: Vec<u8>,
    ghost are_starts: { AreStarts 12 (⟦<WeightTable<u16, 12> as EntropyModel<12>>⟧.table table) starts.items count },
    ghost all: { length symbols.items ≡ 4096 },
    ghost finds: { (q : ℕ) → q < 4096 → HoldsQuantile starts.items count (slice_index symbols.items q) q },
}

impl LookupTable {
    /// Creates the table of `weights`.
    ///
    /// Returns `None` if a weight is 0, if the weights don't add up to `2^12`, if there are more than 256 weights, or
    /// if there is no memory.
    pub fn new(alloc: Global, weights: &[u16]) -> Option<Self>
        ensures { IfSome result
            (λ table. ⟦<LookupTable as EntropyModel<12>>⟧.table table
            ≡ table_of (map (λ weight. weight % 2 ^ 16) weights.now)) }
    {
        let count = weights.len();
        let table = WeightTable::<u16, 12>::new(alloc, weights).ok()?;
        let starts = starts_of::<WeightTable<u16, 12>, 12>(alloc, &table, count)?;
        let symbols = symbols_of(alloc, &table, &starts, count)?;
        Some(LookupTable {
            table,
            count,
            starts,
            symbols,
        })
    }
}

/// Returns the symbol of `quantile`.
///
/// Returns `None` if the symbol is at least `count` or above 255, or if `quantile` lies outside the symbol's interval
/// according to `starts`. The caller proves that `starts` has `count + 1` items, and that `quantile` is below 4096.
fn symbol_at(
    table: &WeightTable<u16, 12>,
    starts: &[u32],
    count: usize,
    quantile: u16,
) -> Option<u8>
    requires starts { length starts.now ≡ count + 1 }
    requires quantile { quantile < 4096 }
    ensures { IfSome result (λ symbol. HoldsQuantile starts.now count symbol quantile) }
{
    let (symbol, _, _) = table.quantile_function(quantile);
    if symbol >= count || symbol > 255 {
        return None;
    }
    if starts[symbol] > quantile as u32 || starts[symbol + 1] <= quantile as u32 {
        return None;
    }
    Some(symbol as u8)
}

/// Returns the list of the symbols of all 4096 quantiles.
///
/// Returns `None` if [`symbol_at`] returns `None` for a quantile, or if there is no memory. The caller proves that
/// `starts` has `count + 1` items.
fn symbols_of(
    alloc: Global,
    table: &WeightTable<u16, 12>,
    starts: &[u32],
    count: usize,
) -> Option<Vec<u8>>
    requires { length starts.now ≡ count + 1 }
    ensures all { IfSome result (λ symbols. length symbols.items ≡ 4096) }
    ensures finds { IfSome result
        (λ symbols. (q : ℕ) → q < 4096 → HoldsQuantile starts.now count (slice_index symbols.items q) q) }
{
    let mut symbols = Vec::new(alloc);
    for quantile in 0..4096u16 {
        let symbol = symbol_at(table, starts, count, quantile)?;
        if symbols.push(symbol).is_err() {
            return None;
        }
    }
    Some(symbols)
}

impl EntropyModel<12> for LookupTable {
    type Symbol = usize;

    type Probability = u16;

    ghost table = { λ t. ⟦<WeightTable<u16, 12> as EntropyModel<12>>⟧.table t.table };

    ghost lawful = { λ t. ⟦<WeightTable<u16, 12> as EntropyModel<12>>⟧.lawful t.table };

    ghost sized = { λ _. (Prim.search rules, Prim.search rules) };

    ghost two_symbols = { λ _ e. absurd (Prim.omega (arith, e)) };
}

impl DecoderModel<12> for LookupTable {
    #[inline(always)]
    fn quantile_function(&self, quantile: u16) -> (usize, u16, NonZero<u16>) {
        let symbol = self.symbols[quantile as usize] as usize;
        let left = self.starts[symbol];
        let p = self.starts[symbol + 1] - left;
        (symbol, left as u16, NonZero::<u16>::new(p as u16).unwrap())
    }
}
