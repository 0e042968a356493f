//! Tests that a store made from the parts of another store has the same words and chunks.

use super::stores::{Halves, from_parts, gives_all, three};
use constriction_store::Store;
use std::test::Fail;

/// Takes a store apart, and makes a store from the parts. Returns `None` if that call fails.
fn again(store: Halves) -> Option<Halves> {
    let (words, index, table) = store.into_parts();
    Store::from_parts(words, index, table).ok()
}

#[test]
fn a_store_of_the_parts_of_a_store(rt: HostRuntime) -> Result<(), Fail> {
    let Some(store) = again(three(rt.alloc())?) else {
        return Err(Fail::from("bad index"));
    };
    assert!(rt;
        store.words() == [2684354560u32].as_slice()
            && store.num_chunks() == 3
            && store.index().len() == 3
            && gives_all(rt.alloc(), &store, &[&[1, 0], &[], &[1]])
    );
    Ok(())
}
