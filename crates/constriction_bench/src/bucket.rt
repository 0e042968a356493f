//! A table of weights for benchmarks. A list of 4096 symbols shortens the search for a quantile's symbol.

ghost use Rattle.std.specs.Prelude.{◌≡◌, ℕ, ◌+◌, ◌-◌, ◌*◌, ◌^◌, ◌<◌, ◌%◌, length, map, slice_index, IfSome};
ghost use Rattle.constriction_base.specs.Tables.{table_of};
ghost use Rattle.std.proofs.Common.{arith, rules};
ghost use Rattle.constriction_bench.specs.Starts.{AreStarts, BeginsBefore};

use crate::starts::starts_of;
use constriction_base::model::{DecoderModel, EncoderModel, EntropyModel};
use constriction_base::weights::WeightTable;
use constriction_words::BitArray;
use std::alloc::Global;
use std::num::NonZero;

/// A table of weights at a precision of 24 bits, with a list that shortens the search for a quantile's symbol.
///
/// The quantiles are divided into 4096 parts of equal length. The list has the symbol of each part's first quantile. A
/// decode searches upward from the listed symbol of its quantile's part. All weights are above 0, and all listed
/// symbols are below 256.
#[derive(Drop)]
pub struct BucketTable {
    table: WeightTable<u32, 24>,
    count: usize,
    starts: Vec<u32>,
    firsts: Vec<u8>,
    ghost are_starts: { AreStarts 24 (⟦<WeightTable<u32, 24> as EntropyModel<24>>⟧.table table) starts.items count },
    ghost ends: { slice_index starts.items count ≡ 16777216 },
    ghost all: { length firsts.items ≡ 4096 },
    ghost begin: { (part : ℕ) → part < 4096 → BeginsBefore starts.items count (slice_index firsts.items part) part },
}

impl BucketTable {
    /// Creates the table of `weights`.
    ///
    /// Returns `None` if a weight is 0, if the weights don't add up to `2^24`, or if there is no memory. Also returns
    /// `None` if one of the symbols to list is above 255.
    pub fn new(alloc: Global, weights: &[u32]) -> Option<Self>
        ensures { IfSome result
            (λ table. ⟦<BucketTable as EntropyModel<24>>⟧.table table
            ≡ table_of (map (λ weight. weight % 2 ^ 32) weights.now)) }
    {
        let count = weights.len();
        let table = WeightTable::<u32, 24>::new(alloc, weights).ok()?;
        let starts = starts_of::<WeightTable<u32, 24>, 24>(alloc, &table, count)?;
        if starts[count] != 16777216 {
            return None;
        }
        let firsts = firsts_of(alloc, &table, &starts, count)?;
        Some(BucketTable {
            table,
            count,
            starts,
            firsts,
        })
    }
}

/// Returns the symbol of quantile `4096 * part`, the first quantile of part number `part`.
///
/// Returns `None` if the symbol is at least `count` or above 255, or if its start in `starts` is above this quantile.
/// The caller proves that `starts` has `count + 1` items, and that `part` is below 4096.
fn first_of(table: &WeightTable<u32, 24>, starts: &[u32], count: usize, part: u32) -> Option<u8>
    requires starts { length starts.now ≡ count + 1 }
    requires part { part < 4096 }
    ensures { IfSome result (λ symbol. BeginsBefore starts.now count symbol part) }
{
    let quantile = part * 4096;
    let (symbol, _, _) = table.quantile_function(quantile);
    if symbol >= count || symbol > 255 {
        return None;
    }
    if starts[symbol] > quantile {
        return None;
    }
    Some(symbol as u8)
}

/// Returns the symbol of the first quantile of each of the 4096 parts, in order.
///
/// Returns `None` if [`first_of`] returns `None` for a part, or if there is no memory. The caller proves that `starts`
/// has `count + 1` items.
fn firsts_of(
    alloc: Global,
    table: &WeightTable<u32, 24>,
    starts: &[u32],
    count: usize,
) -> Option<Vec<u8>>
    requires { length starts.now ≡ count + 1 }
    ensures all { IfSome result (λ firsts. length firsts.items ≡ 4096) }
    ensures begin { IfSome result
        (λ firsts. (part : ℕ) → part < 4096 → BeginsBefore starts.now count (slice_index firsts.items part) part) }
{
    let mut firsts = Vec::new(alloc);
    for part in 0..4096u32 {
        let symbol = first_of(table, starts, count, part)?;
        if firsts.push(symbol).is_err() {
            return None;
        }
    }
    Some(firsts)
}

impl EntropyModel<24> for BucketTable {
    type Symbol = usize;

    type Probability = u32;

    ghost table = { λ t. ⟦<WeightTable<u32, 24> as EntropyModel<24>>⟧.table t.table };

    ghost lawful = { λ t. ⟦<WeightTable<u32, 24> as EntropyModel<24>>⟧.lawful t.table };

    ghost sized = { λ _. (Prim.search rules, Prim.search rules) };

    ghost two_symbols = { λ _ e. absurd (Prim.omega (arith, e)) };
}

impl DecoderModel<24> for BucketTable {
    #[inline(always)]
    fn quantile_function(&self, quantile: u32) -> (usize, u32, NonZero<u32>) {
        let mut symbol = self.firsts[(quantile >> 12) as usize] as usize;
        while self.starts[symbol + 1] <= quantile {
            symbol += 1;
        }
        let left = self.starts[symbol];
        let p = self.starts[symbol + 1] - left;
        (symbol, left, NonZero::<u32>::new(p).unwrap())
    }
}
