//! Tests of the 8-bit words of 16-bit numbers: counting the words, and moving words between a number and a backend.

use constriction_base::backends::{ReadWords, Stack, WriteWords};
use constriction_base::cursor::Cursor;
use constriction_base::errors::BoundedWriteError;
use constriction_base::head_words::{
    append_words, count_of_words, fill, words_below_one, write_words,
};
use std::convert::Infallible;

/// The outcome of a call that writes words.
#[derive(PartialEq, Eq, Drop)]
enum Wrote {
    All,
    OutOfSpaceAfter(usize),
}

/// Asks for room, and writes the lowest `count` words of `number`. Returns the outcome.
fn appends<B: WriteWords<u8, WriteError = BoundedWriteError>>(
    words: &mut B,
    number: u16,
    count: usize,
) -> Wrote {
    match append_words::<u8, u16, B>(words, number, count) {
        Ok(()) => Wrote::All,
        Err((before, _)) => Wrote::OutOfSpaceAfter(before),
    }
}

/// Writes the lowest `count` words of `number` without asking for room. Returns the outcome.
fn writes<B: WriteWords<u8, WriteError = BoundedWriteError>>(
    words: &mut B,
    number: u16,
    count: usize,
) -> Wrote {
    match write_words::<u8, u16, B>(words, number, count) {
        Ok(()) => Wrote::All,
        Err((before, _)) => Wrote::OutOfSpaceAfter(before),
    }
}

/// Appends words to `number` as its lowest words until the number is at least `2^8` or no word is left.
///
/// Returns the new number, and whether it is at least `2^8`. Returns the number 0 unchanged.
fn fills<B: ReadWords<u8, Stack, ReadError = Infallible>>(
    words: &mut B,
    number: u16,
) -> (u16, bool) {
    if number == 0 {
        return (0, false);
    }
    match fill::<u8, u16, B>(words, number, 8) {
        Ok(found) => found,
        Err(never) => match never {},
    }
}

/// Writes words of three numbers, first with [`appends`] and then with [`writes`]. Returns whether all calls succeed.
fn writes_three_numbers<B>(words: &mut B) -> bool
where
    B: WriteWords<u8, WriteError = BoundedWriteError>,
{
    appends(words, 0x0201, 2) == Wrote::All
        && appends(words, 0x0504, 0) == Wrote::All
        && writes(words, 0x0403, 1) == Wrote::All
}

/// Fills four numbers from the words `[5, 7]`, from their end. Returns whether the results are as expected.
fn fills_four_numbers<B: ReadWords<u8, Stack, ReadError = Infallible>>(words: &mut B) -> bool {
    fills(words, 1) == (0x0107, true)
        && fills(words, 0x0100) == (0x0100, true)
        && fills(words, 2) == (0x0205, true)
        && fills(words, 3) == (3, false)
}

/// Returns whether `number` has `words` words, and `below_one` words below its leading 1.
///
/// `below_one` is `None` if the bits below the leading 1 don't fill whole words, or if there is no leading 1.
fn counts(number: u16, words: usize, below_one: Option<usize>) -> bool {
    (count_of_words::<u8, u16>(number) == words) & (words_below_one::<u8, u16>(number) == below_one)
}

#[test]
fn words_of_a_number_are_counted(rt: HostRuntime) {
    assert!(rt; counts(0, 0, None) & counts(1, 1, Some(0)) & counts(2, 1, None));
    assert!(rt; counts(255, 1, None) & counts(256, 2, Some(1)) & counts(511, 2, Some(1)));
    assert!(rt; counts(512, 2, None));
}

#[test]
fn the_lowest_word_is_written_first(rt: HostRuntime) {
    let mut buffer = [9u8, 0, 0, 0];
    let mut cursor = Cursor::new_at_write_beginning(&mut buffer[1..]);
    assert!(rt; writes_three_numbers(&mut cursor));
    assert!(rt; buffer == [9, 1, 2, 3]);
}

#[test]
fn words_move_in_below_a_number(rt: HostRuntime) {
    let words = [5u8, 7];
    let mut cursor = Cursor::new_at_write_end(words.as_slice());
    assert!(rt; fills_four_numbers(&mut cursor));
}
