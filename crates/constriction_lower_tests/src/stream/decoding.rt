//! Tests that decode symbols from a `Pile`, the coder of these tests, one by one and with iterators.

use super::callers::{
    decode_all, decode_unless_exhausted, encode_some, first_is_bad, first_of_models,
    first_of_three, there_and_back,
};
use super::calls::{
    Put, Table, Took, how_put, put_list, seems_exhausted, seems_full, what_came, what_came_or_bad,
};
use super::pile::Pile;
use constriction_stream::encoding::Encode;
use std::array;
use std::test::Fail;

/// Drops an iterator early. Returns whether the symbols that it didn't decode stay on the pile.
fn some_are_left(pile: &mut Pile, table: &Table) -> bool {
    if pile.symbols_left() < 3 {
        return false;
    }
    let answer = encode_some(pile, [0usize, 0, 1].as_slice(), table);
    matches!(how_put(answer), Put::Done)
        && matches!(what_came(first_of_three(pile, table)), Took::Symbol(1))
        && pile.holds(&[0, 0])
        && decode_all(pile, 3, table) == 2
        && pile.holds(&[])
}

/// Returns whether a symbol of the table comes back from a pile, and an impossible symbol doesn't.
fn comes_back(known: &mut Pile, impossible: &mut Pile, table: &Table) -> bool {
    if known.symbols_left() < 1 || impossible.symbols_left() < 1 {
        return false;
    }
    there_and_back(known, &1, table) == Some(1)
        && there_and_back(impossible, &2, table).is_none()
        && seems_exhausted(impossible)
        && !seems_full(impossible)
}

#[test]
fn iterators_dropped_early(rt: HostRuntime) -> Result<(), Fail> {
    let table = Table::new(rt.alloc(), &[255, 1])?;
    let mut pile = Pile::new(rt.alloc(), 9);
    let mut known = Pile::new(rt.alloc(), 1);
    let mut impossible = Pile::new(rt.alloc(), 1);
    assert!(rt;
        some_are_left(&mut pile, &table) && comes_back(&mut known, &mut impossible, &table)
    );
    Ok(())
}

/// Encodes two symbols onto `pile`, and decodes them with the generic functions of `callers`.
///
/// Returns whether every call has the expected outcome.
fn through_the_bounds(pile: &mut Pile, table: &Table) -> bool {
    matches!(put_list(pile, &[1, 0], table), Put::Done)
        && matches!(
            what_came(first_of_models(pile, array::from_ref(table))),
            Took::Symbol(0)
        )
        && pile.holds(&[255])
        && matches!(what_came_or_bad(first_is_bad(pile, table)), Took::Bad(7))
        && pile.holds(&[255])
        && matches!(
            what_came(decode_unless_exhausted(pile, table)),
            Took::Symbol(1)
        )
        && matches!(what_came(decode_unless_exhausted(pile, table)), Took::End)
}

#[test]
fn callers_of_the_traits(rt: HostRuntime) -> Result<(), Fail> {
    let table = Table::new(rt.alloc(), &[255, 1])?;
    let mut pile = Pile::new(rt.alloc(), 2);
    assert!(rt; through_the_bounds(&mut pile, &table));
    Ok(())
}
