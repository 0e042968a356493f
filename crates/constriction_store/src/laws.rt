//! Laws of stores: the words at an entry, and looking up chunks in any order.

ghost use Rattle.std.specs.Prelude.{◌≡◌, ◌+◌, ◌/◌, ℕ, List, IfOk, IfErr};
ghost use Rattle.constriction_base.specs.Models.{Model, IsModel};
ghost use Rattle.constriction_base.specs.Steps.{IsSizes, AreWords};
ghost use Rattle.constriction_queue.specs.Range.{Run};
ghost use Rattle.constriction_queue.specs.Symbols.{model_by};
ghost use Rattle.constriction_store.specs.Chunks.{lists_of};
ghost use Rattle.constriction_store.specs.LookedUp.{AreChunks, FailsFirst, StoreHoldsEach};
ghost use Rattle.constriction_store.specs.Stores.{Agree, Entry, FindsAt, HoldsChunk, HoldsNoChunk};
ghost use Rattle.constriction_store.specs.Stores.{StoreHoldsChunks};

use crate::{ChunkError, Store};
use constriction_base::model::{DecoderModel, EncoderModel, EntropyModel};
use constriction_words::{BitArray, WordOf};
use std::alloc::Global;

/// At any entry, a list of words holds at most one chunk.
///
/// An entry states a position, an interval and a number of symbols. Words hold a chunk at an entry if decoding that
/// number of symbols from that position and interval returns the chunk (`HoldsChunk`). If words hold a chunk at an
/// entry, this decoding can't also fail (`HoldsNoChunk`).
pub fn one_chunk_at_entry()
    ensures one { (w s : ℕ) (model : Model ℕ) (words : List ℕ) (entry : Entry) (symbols others : List ℕ) →
        IsModel w model → HoldsChunk w s model words entry symbols → HoldsChunk w s model words entry others →
        others ≡ symbols }
    ensures none_missing { (w s : ℕ) (model : Model ℕ) (words : List ℕ) (entry : Entry) (symbols : List ℕ) →
        IsModel w model → HoldsChunk w s model words entry symbols → HoldsNoChunk w s model words entry → ⊥ }
{}

/// The symbols of a look-up depend on no words except the words of its chunk and the `s / w` words after the chunk.
///
/// Here a word has `w` bits, and a state has `s` bits. If another list has the same words at these positions, decoding
/// that list from the chunk's entry returns the same symbols.
pub fn other_words_are_not_read()
    ensures { (w s : ℕ) (model : Model ℕ) (words others : List ℕ) (entry : Entry) (symbols : List ℕ) (last : Run) →
        IsSizes w s → AreWords w words → AreWords w others →
        FindsAt w s words model entry symbols last →
        Agree words others entry.place (last.moves + s / w) →
        FindsAt w s others model entry symbols last }
{}

/// Looks up the chunks with the numbers in `places`, and returns the chunks in the order of `places`.
///
/// Each returned chunk is the list of symbols that the store's words encode at the entry with the chunk's number. For a
/// store from [`Store::build`], each returned chunk equals the chunk with the same number in the argument of `build`.
///
/// # Errors
///
/// Returns the error of the first look-up that fails, or `Memory` if there is no memory for the list of chunks.
pub fn look_up<
    Word: WordOf<State>,
    State: BitArray,
    M: EncoderModel<PRECISION, Symbol = usize> + DecoderModel<PRECISION, Symbol = usize>,
    const PRECISION: usize,
>(
    alloc: Global,
    store: &Store<Word, State, M, PRECISION>,
    places: &[usize],
) -> Result<Vec<Vec<usize>>, ChunkError>
where
    M::Probability: WordOf<Word>,
    ensures each { IfOk result (λ found. StoreHoldsEach Word.BITS State.BITS PRECISION M.table store.now
        places.now (lists_of found.items)) }
    ensures err { IfErr result (FailsFirst Word.BITS State.BITS
        (model_by PRECISION M.table store.now.model) store.now.words store.now.index places.now) }
    ensures back { (chunks : List (List ℕ)) →
        StoreHoldsChunks Word.BITS State.BITS PRECISION M.table store.now chunks →
        AreChunks chunks places.now result }
{
    let mut found = Vec::new(alloc);
    for place in places {
        let chunk = match store.chunk(alloc, *place) {
            Ok(chunk) => chunk,
            Err(refusal) => return Err(refusal),
        };
        let Ok(()) = found.push(chunk) else {
            return Err(ChunkError::Memory);
        };
    }
    Ok(found)
}
