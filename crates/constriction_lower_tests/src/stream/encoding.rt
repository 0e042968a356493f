//! Tests that encode symbols onto a pile, one by one and in lists.

use super::callers::{
    encode_exactly, encode_last_first, encode_one, encode_two, encode_unless_full,
};
use super::calls::{Put, Table, how_put, how_tried, seems_full};
use super::pile::Pile;
use constriction_stream::encoding::Encode;
use std::test::Fail;

/// Encodes two symbols with a generic caller. Returns whether the pile then holds their quantiles.
fn through_the_bounds(pile: &mut Pile, table: &Table) -> bool {
    if pile.symbols_left() < 9 {
        return false;
    }
    matches!(how_put(encode_two(pile, &1, &0, table)), Put::Done) && pile.holds(&[255, 0])
}

/// Encodes with three other generic callers, each on its own pile. Returns whether each does what is expected.
fn through_more_bounds(first: &mut Pile, last: &mut Pile, exact: &mut Pile, table: &Table) -> bool {
    if first.symbols_left() < 3 || last.symbols_left() < 3 || exact.symbols_left() < 3 {
        return false;
    }
    let tried_one = encode_one(first, &1, table);
    let back = encode_last_first(last, [0usize, 1, 1].as_slice(), table);
    let exactly = encode_exactly(exact, &2, table);
    matches!(how_tried(tried_one), Put::Bad(7))
        && first.holds(&[255])
        && matches!(how_put(back), Put::Done)
        && last.holds(&[255, 255, 0])
        && matches!(how_put(exactly), Put::Impossible)
        && exact.holds(&[])
}

/// Encodes a symbol onto a pile with room for one. Returns whether this succeeds, and the pile may then be full.
fn until_it_is_full(pile: &mut Pile, table: &Table) -> bool {
    if pile.symbols_left() < 1 {
        return false;
    }
    let Some(first) = encode_unless_full(pile, &1, table) else {
        return false;
    };
    matches!(how_put(first), Put::Done) && pile.holds(&[255]) && seems_full(pile)
}

#[test]
fn callers_of_the_traits(rt: HostRuntime) -> Result<(), Fail> {
    let table = Table::new(rt.alloc(), &[255, 1])?;
    let mut pile = Pile::new(rt.alloc(), 9);
    let mut first = Pile::new(rt.alloc(), 3);
    let mut last = Pile::new(rt.alloc(), 3);
    let mut exact = Pile::new(rt.alloc(), 3);
    let mut one = Pile::new(rt.alloc(), 1);
    assert!(rt;
        through_the_bounds(&mut pile, &table)
            && through_more_bounds(&mut first, &mut last, &mut exact, &table)
            && until_it_is_full(&mut one, &table)
    );
    Ok(())
}
