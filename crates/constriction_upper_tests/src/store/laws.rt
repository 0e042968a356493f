//! Tests that the laws of stores can be called, and that look-ups in any order return the chunks or the expected error.

use super::stores::{Halves, three};
use constriction_store::ChunkError;
use constriction_store::laws::{look_up, one_chunk_at_entry, other_words_are_not_read};
use std::alloc::Global;
use std::test::Fail;

/// Returns whether look-ups at the two `places` find exactly the chunks `first` and `second`.
fn finds(
    alloc: Global,
    store: &Halves,
    places: &[usize],
    first: &[usize],
    second: &[usize],
) -> bool {
    match look_up(alloc, store, places) {
        Ok(found) => match found.as_slice() {
            [one, other] => one.as_slice() == first && other.as_slice() == second,
            _ => false,
        },
        Err(_) => false,
    }
}

#[test]
fn chunks_are_looked_up_in_any_order(rt: HostRuntime) -> Result<(), Fail> {
    let store = three(rt.alloc())?;
    let missing = look_up(rt.alloc(), &store, &[0, 3]).err();
    assert!(rt; finds(rt.alloc(), &store, &[2, 0], &[1], &[1, 0]));
    assert!(rt; finds(rt.alloc(), &store, &[1, 1], &[], &[]));
    assert!(rt; missing == Some(ChunkError::NoSuchChunk));
    Ok(())
}

#[test]
fn each_law_is_a_call(_rt: HostRuntime) -> Result<(), Fail> {
    one_chunk_at_entry();
    other_words_are_not_read();
    Ok(())
}
