//! Tests of coders that can only decode: over slices, over words in reverse, and over iterators.

use super::coders::{Table, said};
use super::reading::follow_seeking;
use crate::scripts::script::Script;
use constriction_base::backends::Pos;
use constriction_base::cursor::Cursor;
use constriction_base::iterators::FallibleIteratorReadWords;
use constriction_base::reverse::Reverse;
use constriction_base::weights::WeightTable;
use constriction_stack::AnsCoder;
use constriction_stream::coder::Code;
use std::test::Fail;

/// A table, a script for words in the order of an export, and a script for words in reverse.
#[derive(Drop)]
struct Scripts {
    table: Table,
    there: Script,
    reversed: Script,
}

/// Runs a script with a coder over a slice. Returns the first act that failed.
fn go_over_slice(words: &[u8], scripts: &Scripts) -> Option<&'static str> {
    match AnsCoder::<u8, u16, Cursor<u8, &[u8]>>::from_compressed_slice(words) {
        Ok(mut coder) => follow_seeking(&mut coder, &scripts.table, &scripts.there),
        Err(_) => Some("no coder"),
    }
}

/// Runs scripts with a coder over reversed words, and again after each of two reversals of its backend.
///
/// Returns the first act that failed.
fn go_over_reversed(words: Vec<u8>, scripts: &Scripts) -> Option<&'static str> {
    match AnsCoder::<u8, u16, Reverse<Cursor<u8, Vec<u8>>>>::from_reversed_compressed(words) {
        Ok(mut coder) => {
            let first = follow_seeking(&mut coder, &scripts.table, &scripts.reversed);
            if first.is_some() {
                return first;
            }
            go_over_turned(coder.into_reversed(), scripts)
        }
        Err(_) => Some("no coder"),
    }
}

/// Runs scripts with a coder, and with the coder after it is reversed. Returns the first act that failed.
fn go_over_turned(
    mut coder: AnsCoder<u8, u16, Cursor<u8, Vec<u8>>>,
    scripts: &Scripts,
) -> Option<&'static str> {
    let turned = follow_seeking(&mut coder, &scripts.table, &scripts.there);
    if turned.is_some() {
        return turned;
    }
    let mut back = coder.into_reversed();
    follow_seeking(&mut back, &scripts.table, &scripts.reversed)
}

#[test]
fn ans_seekable_and_reversed(rt: HostRuntime) -> Result<(), Fail> {
    let scripts = Scripts {
        table: WeightTable::new(rt.alloc(), &[200, 55, 1])?,
        there: Script::read(
            rt.alloc(),
            "at 3 1284 take 0 1 0 0 0 0 0 0 1 head 2510
             seek 3 1284 take 0 1 0 0 0 0 0 0 1 head 2510
             seek 3 1284 seek!none 6 7 at 3 1284",
        )?,
        reversed: Script::read(
            rt.alloc(),
            "at 2 1284 take 0 1 0 0 0 0 0 0 1 head 2510
             seek 2 1284 take 0 1 0 0 0 0 0 0 1 head 2510
             seek 2 1284 seek!none 6 7 at 2 1284",
        )?,
    };
    let words = [5u8, 4, 3, 2, 1].to_vec(rt.alloc())?;
    said(go_over_slice(&[1, 2, 3, 4, 5], &scripts))?;
    said(go_over_reversed(words, &scripts))
}

/// Returns whether an import fails if the second word can't be read. The import must hand back an iterator at its end.
fn an_error_ends_words() -> bool {
    let words = [Ok(5u8), Err('e')].into_iter();
    match AnsCoder::<u8, u16, FallibleIteratorReadWords<_>>::from_reversed_compressed_iter(words) {
        Ok(_) => false,
        Err(mut rest) => rest.next().is_none(),
    }
}

/// Returns whether an import of words in binary form fails if the second word can't be read.
///
/// The head has room for the second word.
fn an_error_ends_binary_words() -> bool {
    let words = [Ok(0u32), Err('e')].into_iter();
    matches!(
        AnsCoder::<u32, u128, FallibleIteratorReadWords<_>>::from_reversed_binary_iter(words),
        Err('e')
    )
}

/// Returns whether an import doesn't read the second word if the first word fills the head.
fn a_head_of_one_word() -> bool {
    let words = [Ok(0u32), Err('e')].into_iter();
    match AnsCoder::<u32, u64, FallibleIteratorReadWords<_>>::from_reversed_binary_iter(words) {
        Ok(coder) => coder.state() == 4294967296,
        Err(_) => false,
    }
}

#[test]
fn ans_reversed_iterators(rt: HostRuntime) {
    assert!(rt; an_error_ends_words() & an_error_ends_binary_words() & a_head_of_one_word());
}

/// Returns whether coders of the words 5 and 0 in binary form, in order and in reverse, are at the position (1, 256).
fn binary_slices_stand_there() -> bool {
    let there = AnsCoder::<u8, u16, Cursor<u8, &[u8]>>::from_binary_slice(&[5, 0]);
    let reversed = AnsCoder::<u8, u16, Reverse<Cursor<u8, &[u8]>>>::from_reversed_binary([
        0u8, 5,
    ].as_slice());
    there.pos() == (1, 256) && reversed.pos() == (1, 256)
}

#[test]
fn slices_in_the_binary_form(rt: HostRuntime) {
    assert!(rt; binary_slices_stand_there());
}
