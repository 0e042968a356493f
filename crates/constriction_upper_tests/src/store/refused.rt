//! Tests a store whose requests for memory are refused, one at a time.
//!
//! `tests/refused_memory` runs the test once for each request for memory that the test makes, and refuses that request.
//! The call that made the request has to report the error, and has to succeed when it is made again. If it does both,
//! the test fails with the name of the call, as `tests/refused_memory` expects.

use super::stores::{Halves, chunks_of, halves};
use constriction_store::{BuildError, ChunkError};
use std::alloc::{AllocError, Global};
use std::test::Fail;

/// Looks up the first chunk. Returns whether it is the expected chunk, or an error if there is no memory.
fn looks_up(alloc: Global, store: &Halves) -> Result<bool, AllocError> {
    match store.chunk(alloc, 0) {
        Ok(found) => Ok(found.as_slice() == [1usize, 0, 1, 0, 1].as_slice()),
        Err(ChunkError::Memory) => Err(AllocError),
        Err(_) => Ok(false),
    }
}

/// Looks up the first chunk, and checks it. If memory is refused, the function repeats the look-up.
///
/// If the second look-up succeeds, the function returns the error `chunk`.
fn look_up(alloc: Global, store: &Halves) -> Result<(), Fail> {
    match looks_up(alloc, store) {
        Ok(true) => Ok(()),
        Err(AllocError) if matches!(looks_up(alloc, store), Ok(true)) => Err(Fail::from("chunk")),
        _ => Err(Fail::from("another chunk, or another refusal")),
    }
}

/// Builds a store of `chunks`, and looks up its first chunk.
///
/// If memory is refused for the build, the function builds the store again. If the second build and its look-up
/// succeed, the function returns the error `build`.
fn build(alloc: Global, chunks: &[Vec<usize>]) -> Result<(), Fail> {
    match Halves::build(alloc, chunks, halves(alloc)?) {
        Ok(store) => look_up(alloc, &store),
        Err(BuildError::Memory) => {
            build_again(alloc, chunks)?;
            Err(Fail::from("build"))
        }
        Err(_) => Err(Fail::from("another refusal of a build")),
    }
}

/// Builds a store of `chunks` after a refusal, and looks up its first chunk. Fails if the build is refused again.
fn build_again(alloc: Global, chunks: &[Vec<usize>]) -> Result<(), Fail> {
    match Halves::build(alloc, chunks, halves(alloc)?) {
        Ok(store) => look_up(alloc, &store),
        Err(_) => Err(Fail::from("no store where there is memory")),
    }
}

#[test]
fn refused_requests_of_a_store(rt: HostRuntime) -> Result<(), Fail> {
    let chunks = chunks_of(rt.alloc(), &[&[1, 0, 1, 0, 1], &[], &[0], &[], &[1]])?;
    build(rt.alloc(), chunks.as_slice())
}
