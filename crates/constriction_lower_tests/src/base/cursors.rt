//! Tests of a cursor as a stack and as a queue. The generic helpers use only the traits that they name in their bounds.

use super::calls::{
    filled, pops, prepares, puts, queues, seeks, seems_full, seems_popped, seems_taken, stacks,
    stands, takes,
};
use constriction_base::backends::{
    BoundedReadWords, Pos, PosSeek, Queue, ReadWords, Seek, Stack, Words, WriteWords,
};
use constriction_base::cursor::Cursor;
use constriction_base::errors::BoundedWriteError;
use std::convert::Infallible;

/// Reads in both directions from a cursor before `[1, 2, 3]`. Returns whether all calls return what is expected.
fn goes_to_and_fro<B>(cursor: &mut B) -> bool
where
    B: BoundedReadWords<u32, Stack> + BoundedReadWords<u32, Queue>,
    B: ReadWords<u32, Stack, ReadError = Infallible>
        + ReadWords<u32, Queue, ReadError = Infallible>,
{
    seems_popped(cursor)
        & !seems_taken(cursor)
        & pops(cursor, None)
        & takes(cursor, Some(1))
        & takes(cursor, Some(2))
        & stacks(cursor, 2)
        & queues(cursor, 1)
        & pops(cursor, Some(2))
        & stacks(cursor, 1)
        & queues(cursor, 2)
}

/// Returns whether the cursor's buffer holds `words`.
pub fn lends<Buf: Words<u32> + Drop>(cursor: &Cursor<u32, Buf>, words: &[u32]) -> bool {
    cursor.buf().words() == words
}

/// Takes a cursor apart. Returns whether the parts are `words` and `position`.
fn parts_into<Buf: Words<u32> + Drop>(
    cursor: Cursor<u32, Buf>,
    words: &[u32],
    position: usize,
) -> bool {
    let (rest, found) = cursor.into_buf_and_pos();
    (rest.words() == words) & (found == position)
}

/// Fills a cursor. Returns whether three writes succeed, and the fourth is refused.
fn is_filled<B>(cursor: &mut B) -> bool
where
    B: WriteWords<u32, WriteError = BoundedWriteError>,
{
    prepares(cursor, 100)
        & !seems_full(cursor)
        & (filled(cursor) == 3)
        & seems_full(cursor)
        & matches!(cursor.write(9), Err(BoundedWriteError::OutOfSpace))
}

/// Replaces the last of the words `[0, 1, 2]` by 9. Returns whether all calls return what is expected.
fn writes_again<B>(cursor: &mut B) -> bool
where
    B: WriteWords<u32, WriteError = BoundedWriteError>,
    B: ReadWords<u32, Stack, ReadError = Infallible>
        + ReadWords<u32, Queue, ReadError = Infallible>,
{
    seems_taken(cursor)
        & takes(cursor, None)
        & pops(cursor, Some(2))
        & !seems_full(cursor)
        & puts(cursor, 9)
}

/// Seeks within the words `[4, 5, 6]`, from their end. Returns whether all calls return what is expected.
fn seeks_within<B>(cursor: &mut B) -> bool
where
    B: ReadWords<u32, Stack, ReadError = Infallible>
        + ReadWords<u32, Queue, ReadError = Infallible>,
    B: Pos + Seek + PosSeek<Position = usize>,
    requires { (backend : B) → B.can_tell backend }
{
    stands(cursor, 3)
        & seeks(cursor, 1)
        & stands(cursor, 1)
        & takes(cursor, Some(5))
        & !seeks(cursor, 4)
        & stands(cursor, 2)
        & seeks(cursor, 3)
        & pops(cursor, Some(6))
}

#[test]
fn a_cursor_parts_a_stack_from_a_queue(rt: HostRuntime) {
    let mut words = [1u32, 2, 3];
    let mut cursor = Cursor::new_at_write_beginning(words.as_mut_slice());
    let goes = goes_to_and_fro(&mut cursor) & lends(&cursor, &[1, 2, 3]);
    assert!(rt; goes & parts_into(cursor, &[1, 2, 3], 1));
}

#[test]
fn a_cursor_is_full_at_its_end(rt: HostRuntime) {
    let mut words = [0u32; 3];
    let mut cursor = Cursor::new_at_write_beginning(words.as_mut_slice());
    let is_right = is_filled(&mut cursor) & lends(&cursor, &[0, 1, 2]) & writes_again(&mut cursor);
    assert!(rt; is_right & (words == [0u32, 1, 9]));
}

#[test]
fn a_cursor_seeks_within_its_buffer(rt: HostRuntime) {
    let mut cursor = Cursor::new_at_write_end([4u32, 5, 6].as_slice());
    assert!(rt; seeks_within(&mut cursor));
}
