//! Helpers that build the stores of the tests, and make the calls of a store.

use constriction_base::weights::{TableError, WeightTable};
use constriction_queue::RangeCoderState;
use constriction_store::{BuildError, ChunkError, Store};
use std::alloc::{AllocError, Global};
use std::test::Fail;

/// The table type that most tests use.
pub type Table = WeightTable<u32, 24>;

/// The store type that most tests use.
pub type Halves = Store<u32, u64, Table, 24>;

/// An entry of an index: the place, the range coder's state at this place, and the number of symbols.
pub type Entry = (usize, RangeCoderState<u32, u64>, usize);

/// An entry of an index as numbers: the place, the interval's lower end and length, and the number of symbols.
pub type Numbers = (usize, u64, u64, usize);

/// Makes the table of most tests: two symbols, equally likely.
pub fn halves(alloc: Global) -> Result<Table, TableError> {
    WeightTable::new(alloc, &[8388608, 8388608])
}

/// Returns `lists` as chunks.
pub fn chunks_of(alloc: Global, lists: &[&[usize]]) -> Result<Vec<Vec<usize>>, AllocError> {
    let mut chunks = Vec::new(alloc);
    for list in lists {
        chunks.push(list.to_vec(alloc)?)?;
    }
    Ok(chunks)
}

/// Builds the store of `chunks`.
pub fn store_of(alloc: Global, chunks: &[Vec<usize>]) -> Result<Halves, Fail> {
    let table = halves(alloc)?;
    Ok(Store::build(alloc, chunks, table)?)
}

/// Builds the store of `lists`, one chunk for each list.
pub fn store_of_lists(alloc: Global, lists: &[&[usize]]) -> Result<Halves, Fail> {
    let chunks = chunks_of(alloc, lists)?;
    store_of(alloc, chunks.as_slice())
}

/// Builds the store with three chunks that the test `store_program` uses.
pub fn three(alloc: Global) -> Result<Halves, Fail> {
    store_of_lists(alloc, &[&[1, 0], &[], &[1]])
}

/// Returns the error of building a store of `chunks`, or `None` if the store is built.
pub fn refusal_of(alloc: Global, chunks: &[Vec<usize>]) -> Result<Option<BuildError>, Fail> {
    let table = halves(alloc)?;
    match Halves::build(alloc, chunks, table) {
        Ok(_) => Ok(None),
        Err(refusal) => Ok(Some(refusal)),
    }
}

/// Returns whether a look-up of chunk `i` finds `chunk`.
pub fn gives(alloc: Global, store: &Halves, i: usize, chunk: &[usize]) -> bool {
    match store.chunk(alloc, i) {
        Ok(found) => found.as_slice() == chunk,
        Err(_) => false,
    }
}

/// Returns the error of a look-up of chunk `i`, or `None` if it finds a chunk.
pub fn refuses(alloc: Global, store: &Halves, i: usize) -> Option<ChunkError> {
    store.chunk(alloc, i).err()
}

/// Returns whether a store has exactly the chunks `chunks`, in this order.
pub fn gives_all(alloc: Global, store: &Halves, chunks: &[&[usize]]) -> bool {
    for i in 0..chunks.len() {
        if !gives(alloc, store, i, chunks[i]) {
            return false;
        }
    }
    store.num_chunks() == chunks.len()
}

/// Converts an entry's numbers to the entry. Returns `None` if the interval is too short.
pub fn entry_of((place, lower, range, len): Numbers) -> Option<Entry> {
    match RangeCoderState::new(lower, range) {
        Ok(state) => Some((place, state, len)),
        Err(()) => None,
    }
}

/// Returns an index of `entries`, without the entries whose interval is too short.
pub fn index_of(alloc: Global, entries: &[Numbers]) -> Result<Vec<Entry>, AllocError> {
    let mut index = Vec::new(alloc);
    for numbers in entries {
        match entry_of(*numbers) {
            Some(entry) => index.push(entry)?,
            None => {}
        }
    }
    Ok(index)
}

/// Makes a store from words and an index, or returns `None` if [`Store::from_parts`] refuses the index.
pub fn from_parts(
    alloc: Global,
    words: &[u32],
    entries: &[Numbers],
) -> Result<Option<Halves>, Fail> {
    let words = words.to_vec(alloc)?;
    let index = index_of(alloc, entries)?;
    let table = halves(alloc)?;
    Ok(Store::from_parts(words, index, table).ok())
}
