//! The command `store`, which builds a store of chunks and looks up some of them.
//!
//! The command outputs the words of the store, and the symbols of each chunk that it looks up.

ghost use Rattle.std.specs.Prelude.{◌≡◌, ◌++◌, List, ℕ, length, IfOk, IfErr, OnOk};
ghost use Rattle.constriction_base.specs.WeightTables.{entries, model_of};
ghost use Rattle.constriction_store.specs.Chunks.{lists_of};
ghost use Rattle.constriction_store.specs.Stores.{HoldsChunks};
ghost use Rattle.constriction_commands.specs.commands.Store.{AreThere, AreWordsOf, IsStored, LookingUpFails};
ghost use Rattle.constriction_commands.specs.commands.Store.{StoreFails, StoringFails, lines_at};

use crate::fault::Fault;
use crate::given::chunks::table_and_chunks;
use crate::output::{line_of_words, push_numbers};
use crate::weights::{PRECISION, Table};
use constriction_base::errors::DefaultEncoderFrontendError;
use constriction_base::model::{DecoderModel, EncoderModel, EntropyModel};
use constriction_store::{BuildError, ChunkError, Store};
use std::alloc::Global;

/// A store of 32-bit words, whose chunks are encoded with a [`Table`].
type Chunks = Store<u32, u64, Table, PRECISION>;

/// Builds the store of `chunks` with the model `table`.
///
/// # Errors
///
/// - `TooManySymbols` if the chunks have more than `2^20` symbols in total.
/// - `Encoder` if a symbol's weight in `table` is 0, or if `table` has no weight for a symbol.
/// - `OutOfMemory` if there is no memory for the store.
fn store_of(alloc: Global, chunks: &[Vec<usize>], table: Table) -> Result<Chunks, Fault>
    ensures words { IfOk result (λ store. AreWordsOf (entries table) (lists_of chunks.now) store.words) }
    ensures held { IfOk result (λ store. HoldsChunks 32 64 (model_of store.model) store.words store.index
        (lists_of chunks.now)) }
    ensures err { IfErr result (StoringFails (entries table) (lists_of chunks.now)) }
{
    match Store::build(alloc, chunks, table) {
        Ok(store) => Ok(store),
        Err(BuildError::TooLong) => Err(Fault::TooManySymbols),
        Err(BuildError::ImpossibleSymbol { chunk: _, index: _ }) => {
            Err(Fault::Encoder(DefaultEncoderFrontendError::ImpossibleSymbol))
        }
        Err(BuildError::Memory) => Err(Fault::OutOfMemory),
    }
}

/// Looks up the chunks with the indices `places`, and appends a line of symbols for each chunk to `lines`.
///
/// Returns `NoSuchChunk` if an index is at least the number of chunks, or `OutOfMemory` if there is no memory.
fn push_chunks(
    alloc: Global,
    lines: &mut Vec<u8>,
    store: &Chunks,
    places: &[usize],
) -> Result<(), Fault>
    requires { (chunks : List (List ℕ))
        × HoldsChunks 32 64 (model_of store.now.model) store.now.words store.now.index chunks }
    ensures ok { OnOk result ((chunks : List (List ℕ))
        → HoldsChunks 32 64 (model_of store.now.model) store.now.words store.now.index chunks
        → AreThere chunks places.now × (lines.new.items ≡ lines.old.items ++ lines_at chunks places.now)) }
    ensures err { IfErr result (LookingUpFails (length store.now.index) places.now) }
{
    for place in places {
        match store.chunk(alloc, *place) {
            Ok(symbols) => push_numbers(lines, symbols.as_slice())?,
            Err(ChunkError::NoSuchChunk) => return Err(Fault::NoSuchChunk),
            // A built store holds each of its chunks.
            Err(ChunkError::Invalid) => unreachable!(),
            Err(ChunkError::Memory) => return Err(Fault::OutOfMemory),
        }
    }
    Ok(())
}

/// Builds a store from the input `text`, looks up chunks, and returns lines of words and of symbols.
///
/// Line 1 of the input has the weights. Line 2 has the indices of the chunks to look up. The index of the first chunk
/// is 0. Each further line has the symbols of one chunk. The first line returned has the words of the store. Each
/// further line returned has the symbols of one chunk that the call looked up, in the order of line 2.
///
/// # Errors
///
/// Returns the faults of [`table_and_chunks`], and these faults:
///
/// - `TooManySymbols` if the chunks have more than `2^20` symbols in total.
/// - `Encoder` if a symbol's weight is 0, or if there is no weight for a symbol.
/// - `NoSuchChunk` if an index in line 2 is at least the number of chunks.
/// - `OutOfMemory` if there is no memory.
pub fn answer(alloc: Global, text: &[u8]) -> Result<Vec<u8>, Fault>
    ensures ok { IfOk result (λ answer. IsStored text.now answer.items) }
    ensures err { IfErr result (StoreFails text.now) }
{
    let (table, places, chunks) = table_and_chunks(alloc, text)?;
    let store = store_of(alloc, chunks.as_slice(), table)?;
    let mut lines = line_of_words(alloc, store.words())?;
    push_chunks(alloc, &mut lines, &store, places.as_slice())?;
    Ok(lines)
}
