//! Building a store: encoding chunks, and writing the words and the index.

ghost use Rattle.std.specs.Prelude.{◌↔◌, ◌≤◌, length, map, sum, IfSome, IsTrue};
ghost use Rattle.constriction_base.specs.Steps.{IsSizes};
ghost use Rattle.constriction_store.specs.Stores.{HoldsChunks, IsBuilt, entry_at};
ghost use Rattle.constriction_calls.specs.StoreCalls.{FitStore, StoreBuilds, chunks_by, store_in};
ghost use Rattle.constriction_inputs.specs.Weights.{weights_model};

use crate::store::cutting::{add_up, cut};
use crate::store::indexing::put_index;
use constriction_base::weights::WeightTable;
use constriction_inputs::buffers::append;
use constriction_inputs::models::weights::table_by;
use constriction_inputs::models::{EncoderModels, Weights};
use constriction_inputs::refusal::Refusal;
use constriction_inputs::rows::adding::is_total;
use constriction_queue::RangeCoderState;
use constriction_store::{MOST_SYMBOLS, Store};
use constriction_words::{BitArray, WordOf};
use std::alloc::Global;

/// Returns whether a caller's lists have the lengths that a store needs.
///
/// `symbols` is the number of symbols. It has to be the sum of `lengths`, and at most [`MOST_SYMBOLS`]. `positions`,
/// `lowers` and `ranges` are the lengths of the lists of the index. Each list has to be as long as `lengths`.
fn fit(symbols: usize, lengths: &[usize], positions: usize, lowers: usize, ranges: usize) -> bool
    ensures { IsTrue result ↔ FitStore symbols lengths.now positions lowers ranges }
{
    let count = lengths.len();
    if positions != count || lowers != count || ranges != count || symbols > MOST_SYMBOLS {
        return false;
    }
    add_up(lengths, symbols)
}

/// Cuts `symbols` into chunks of the lengths `lengths`, and returns the words and the index of their store.
///
/// Returns `None` if a symbol is impossible, or if there is no memory.
fn build_store<Word: WordOf<State>, State: BitArray, P: WordOf<Word>, const PRECISION: usize>(
    alloc: Global,
    weights: &[P],
    symbols: &[usize],
    lengths: &[usize],
) -> Option<(Vec<Word>, Vec<(usize, RangeCoderState<Word, State>, usize)>)>
    requires sizes { IsSizes Word.BITS State.BITS }
    requires precision { (1 ≤ PRECISION) × (PRECISION ≤ P.BITS) }
    requires all { sum lengths.now ≤ length symbols.now }
    ensures built { IfSome result (λ made. IsBuilt Word.BITS State.BITS
        (weights_model PRECISION (map P.number weights.now)) (chunks_by symbols.now lengths.now)
        (map entry_at made.1.items) (map Word.number made.0.items)) }
    ensures chunks { IfSome result (λ made. HoldsChunks Word.BITS State.BITS
        (weights_model PRECISION (map P.number weights.now)) (map Word.number made.0.items)
        (map entry_at made.1.items) (chunks_by symbols.now lengths.now)) }
{
    let table = table_by::<P, PRECISION>(alloc, weights, false)?;
    let Ok(chunks) = cut(alloc, symbols, lengths) else {
        return None;
    };
    match Store::<Word, State, WeightTable<P, PRECISION>, PRECISION>::build(alloc, &chunks, table) {
        Ok(store) => {
            let (words, index, _) = store.into_parts();
            Some((words, index))
        }
        Err(_) => None,
    }
}

/// Builds a store of chunks, and writes its words and its index into the caller's buffers.
///
/// `symbols` has the symbols of all chunks, one chunk after another. `lengths` has the number of symbols of each chunk.
/// The call writes the words at the beginning of `words`, and sets `len` to their number. It writes one number for each
/// chunk to each list of the index: `positions`, `lowers` and `ranges`.
///
/// # Errors
///
/// The call returns the first of these errors that applies, but it may return `NoMemory` in place of `NoSpace`. A call
/// that fails changes nothing.
///
/// - `WrongLength` in one of these cases:
///   - A list of the index isn't as long as `lengths`.
///   - The sum of `lengths` isn't the number of symbols.
///   - There are more than 1048576 symbols.
/// - `WrongWeights`: the weights don't add up to `2 ^ PRECISION`.
/// - `ImpossibleSymbol`: a symbol's weight is 0, or the symbol isn't below the number of weights.
/// - `NoSpace(needed)`: `words` is too short. `needed` is the number of words of the store.
/// - `NoMemory`: there is no memory.
pub fn build<Word: WordOf<State>, State: BitArray, P: WordOf<Word>, const PRECISION: usize>(
    alloc: Global,
    words: &mut [Word],
    len: &mut usize,
    positions: &mut [usize],
    lowers: &mut [State],
    ranges: &mut [State],
    weights: &[P],
    symbols: &[usize],
    lengths: &[usize],
) -> Result<(), Refusal>
    requires sizes { IsSizes Word.BITS State.BITS }
    requires precision { (1 ≤ PRECISION) × (PRECISION ≤ P.BITS) }
    ensures call { StoreBuilds Word.number State.number Word.BITS State.BITS PRECISION
        (map P.number weights.now) symbols.now lengths.now
        (store_in positions.old lowers.old ranges.old words.old len.old)
        (store_in positions.new lowers.new ranges.new words.new len.new) result }
{
    let (places, lows, widths) = (positions.len(), lowers.len(), ranges.len());
    if !fit(symbols.len(), lengths, places, lows, widths) {
        return Err(Refusal::WrongLength);
    }
    if !is_total::<P, PRECISION>(weights) {
        return Err(Refusal::WrongWeights);
    }
    let Some((made, index)) = build_store::<Word, State, P, PRECISION>(
        alloc, weights, symbols, lengths,
    ) else {
        if EncoderModels::<P, PRECISION>::know(&Weights { weights }, symbols) {
            return Err(Refusal::NoMemory);
        }
        return Err(Refusal::ImpossibleSymbol);
    };
    let mut count = 0;
    match append(&made, words, &mut count) {
        Ok(()) => {
            put_index(&index, positions, lowers, ranges);
            *len = count;
            Ok(())
        }
        Err(refusal) => Err(refusal),
    }
}
