//! Tests that stores have the expected words and chunks, and that calls return the expected errors.

use super::stores::{
    Halves, chunks_of, from_parts, gives, gives_all, refusal_of, refuses, store_of, three,
};
use constriction_store::{BuildError, ChunkError};
use std::alloc::{AllocError, Global};
use std::test::Fail;

/// Returns whether a look-up of chunk `i` is refused because there is no such chunk.
fn has_no_chunk(alloc: Global, store: &Halves, i: usize) -> bool {
    refuses(alloc, store, i) == Some(ChunkError::NoSuchChunk)
}

#[test]
fn store_program(rt: HostRuntime) -> Result<(), Fail> {
    let store = three(rt.alloc())?;
    assert!(rt;
        store.words() == [2684354560u32].as_slice()
            && gives(rt.alloc(), &store, 2, &[1])
            && gives(rt.alloc(), &store, 1, &[])
            && gives(rt.alloc(), &store, 0, &[1, 0])
            && has_no_chunk(rt.alloc(), &store, 3)
    );
    Ok(())
}

/// Returns whether building a store of `lists` is refused with `expected`.
fn are_refused(alloc: Global, lists: &[&[usize]], expected: BuildError) -> Result<bool, Fail> {
    let chunks = chunks_of(alloc, lists)?;
    Ok(refusal_of(alloc, chunks.as_slice())? == Some(expected))
}

#[test]
fn store_build_refusals(rt: HostRuntime) -> Result<(), Fail> {
    let impossible = BuildError::ImpossibleSymbol { chunk: 1, index: 1 };
    assert!(rt; are_refused(rt.alloc(), &[&[0], &[1, 2]], impossible)?);
    let store = store_of(rt.alloc(), &[])?;
    assert!(rt;
        store.words().is_empty() && store.num_chunks() == 0 && has_no_chunk(rt.alloc(), &store, 0)
    );
    Ok(())
}

/// Returns the pseudorandom number after `number`.
fn next(number: u32) -> u32 {
    number.wrapping_mul(1664525).wrapping_add(1013904223)
}

/// Returns `count` pseudorandom symbols, with the seed `first`.
fn some_symbols(alloc: Global, count: usize, first: u32) -> Result<Vec<usize>, AllocError> {
    let mut symbols = Vec::new(alloc);
    let mut number = first;
    for _ in 0..count {
        number = next(number);
        symbols.push(if number < 2147483648 { 0 } else { 1 })?;
    }
    Ok(symbols)
}

/// Returns 100 chunks of at most 100 pseudorandom symbols each.
fn a_hundred(alloc: Global) -> Result<Vec<Vec<usize>>, AllocError> {
    let mut chunks = Vec::new(alloc);
    let mut number = 7u32;
    for _ in 0..100usize {
        number = next(number);
        let count = (number / 65536 % 101) as usize;
        chunks.push(some_symbols(alloc, count, number)?)?;
    }
    Ok(chunks)
}

/// Returns whether look-ups find each of `chunks`, in order, and then twice from the last to the first.
fn gives_each(alloc: Global, store: &Halves, chunks: &[Vec<usize>]) -> bool {
    let mut come = store.num_chunks() == chunks.len();
    for i in 0..chunks.len() {
        come = come && gives(alloc, store, i, chunks[i].as_slice());
    }
    for i in 0..chunks.len() {
        let place = chunks.len() - 1 - i;
        come = come && gives(alloc, store, place, chunks[place].as_slice());
        come = come && gives(alloc, store, place, chunks[place].as_slice());
    }
    come
}

/// Returns the total number of symbols in `chunks`.
fn count_of(chunks: &[Vec<usize>]) -> usize {
    let mut count = 0usize;
    for chunk in chunks {
        count = count.wrapping_add(chunk.len());
    }
    count
}

#[test]
fn store_many_chunks(rt: HostRuntime) -> Result<(), Fail> {
    let chunks = a_hundred(rt.alloc())?;
    let store = store_of(rt.alloc(), chunks.as_slice())?;
    assert!(rt;
        chunks.len() == 100
            && count_of(chunks.as_slice()) > 4000
            && gives_each(rt.alloc(), &store, chunks.as_slice())
    );
    Ok(())
}

#[test]
fn store_of_one_symbol_too_many(rt: HostRuntime) -> Result<(), Fail> {
    let symbols = some_symbols(rt.alloc(), 1048577, 7)?;
    assert!(rt; are_refused(rt.alloc(), &[symbols.as_slice()], BuildError::TooLong)?);
    Ok(())
}

/// Makes a store with one chunk of one symbol at `place`. Returns the error of looking up this chunk, or `None`.
fn one_symbol(alloc: Global, words: &[u32], place: usize) -> Result<Option<ChunkError>, Fail> {
    match from_parts(alloc, words, &[(place, 0, u64::MAX, 1)])? {
        Some(store) => Ok(refuses(alloc, &store, 0)),
        None => Err(Fail::from("bad index")),
    }
}

/// Makes the store of the test `store_program` from its words and its index.
fn three_from_parts(alloc: Global) -> Result<Halves, Fail> {
    let index = [
        (0, 0, u64::MAX, 2),
        (0, 9223372036846387200, 4611686018418999296, 0),
        (0, 9223372036846387200, 4611686018418999296, 1),
    ];
    match from_parts(alloc, &[2684354560], &index)? {
        Some(store) => Ok(store),
        None => Err(Fail::from("bad index")),
    }
}

#[test]
fn store_from_parts(rt: HostRuntime) -> Result<(), Fail> {
    let store = three_from_parts(rt.alloc())?;
    assert!(rt; gives_all(rt.alloc(), &store, &[&[1, 0], &[], &[1]]));
    Ok(())
}

#[test]
fn store_from_parts_of_a_stranger(rt: HostRuntime) -> Result<(), Fail> {
    let ones = [u32::MAX, u32::MAX];
    assert!(rt; one_symbol(rt.alloc(), &ones, 0)? == Some(ChunkError::Invalid));
    assert!(rt; one_symbol(rt.alloc(), &ones, 2)? == None);
    assert!(rt; from_parts(rt.alloc(), &ones, &[(3, 0, u64::MAX, 1)])?.is_none());
    Ok(())
}
