//! Tests of the stack coder's round-trip functions, with 8-bit words and 16-bit heads.

use super::given::{SYMBOLS, Table, are_back, tables_of, words_of};
use constriction_laws::stack::round_trips::binary::{
    binary_words_with_pairs, pairs_from_binary_words,
};
use constriction_laws::stack::round_trips::lent_words::decode_lent_words;
use constriction_laws::stack::round_trips::pairs::{pairs_from_words, words_with_pairs};
use constriction_laws::stack::round_trips::positions::pairs_at_position;
use constriction_laws::stack::round_trips::words::{pairs_from_items, pairs_from_reversed_words};
use constriction_stack::coder::AnsCoder;
use std::alloc::Global;
use std::convert::Infallible;
use std::iter::Once;
use std::test::Fail;

pub(crate) type Small = AnsCoder<u8, u16, Vec<u8>>;

fn put_on(alloc: Global, tables: &[Table; 2]) -> bool {
    match words_with_pairs::<u8, u16, Vec<u8>, _, 8>(Small::new(alloc), &SYMBOLS, tables) {
        Ok(words) => words.as_slice() == [16u8].as_slice(),
        Err(_) => false,
    }
}

fn from_words(alloc: Global, tables: &[Table; 2]) -> bool {
    let Some(words) = words_of(alloc, &[16]) else {
        return false;
    };
    match pairs_from_words::<u8, u16, Vec<u8>, _, 8>(alloc, words, tables) {
        Ok((again, _)) => are_back(again.as_slice()),
        Err(_) => false,
    }
}

fn from_reversed_words(alloc: Global, tables: &[Table; 2]) -> bool {
    let Some(words) = words_of(alloc, &[16]) else {
        return false;
    };
    match pairs_from_reversed_words::<u8, u16, _, 8>(alloc, words, tables) {
        Ok(again) => are_back(again.as_slice()),
        Err(_) => false,
    }
}

fn from_items(alloc: Global, tables: &[Table; 2]) -> bool {
    let items: Once<Result<u8, Infallible>> = std::iter::once(Ok(16));
    match pairs_from_items::<u8, u16, Infallible, Once<Result<u8, Infallible>>, _, 8>(
        alloc, items, tables,
    ) {
        Ok(again) => are_back(again.as_slice()),
        Err(_) => false,
    }
}

/// Imports a coder from `words`. Returns `None` if the last word is 0, or if there is no memory.
pub(crate) fn coder_of(alloc: Global, words: &[u8]) -> Option<Small> {
    Small::from_compressed(words_of(alloc, words)?).ok()
}

fn from_lent_words(alloc: Global, tables: &[Table; 2]) -> bool {
    let Some(mut coder) = coder_of(alloc, &[16]) else {
        return false;
    };
    match decode_lent_words::<u8, u16, Global, _, 8>(alloc, &mut coder, tables) {
        Ok(again) => are_back(again.as_slice()),
        Err(_) => false,
    }
}

/// Decodes from the position with the head 16 and no words. Returns whether the symbols equal `SYMBOLS`.
fn at_position(alloc: Global, tables: &[Table; 2]) -> bool {
    let coder = Small::new(alloc);
    match pairs_at_position::<u8, u16, _, 8>(alloc, &coder, (0, 16), tables) {
        Ok(again) => are_back(again.as_slice()),
        Err(_) => false,
    }
}

/// Decodes symbols from the word 16 in binary form, and encodes them again. Returns whether the word is the same.
fn from_any_word(alloc: Global, tables: &[Table; 2]) -> bool {
    let Some(words) = words_of(alloc, &[16]) else {
        return false;
    };
    match pairs_from_binary_words::<u8, u16, Vec<u8>, _, 8>(alloc, words, tables) {
        Ok((symbols, coder)) => back_to_any_word(coder, symbols.as_slice(), tables),
        Err(_) => false,
    }
}

fn back_to_any_word(coder: Small, symbols: &[usize], tables: &[Table; 2]) -> bool {
    if symbols.len() != tables.len() {
        return false;
    }
    match binary_words_with_pairs::<u8, u16, Vec<u8>, _, 8>(coder, symbols, tables) {
        Ok(words) => words.as_slice() == [16u8].as_slice(),
        Err(_) => false,
    }
}

fn are_all(alloc: Global, tables: &[Table; 2]) -> bool {
    put_on(alloc, tables)
        && from_words(alloc, tables)
        && from_reversed_words(alloc, tables)
        && from_items(alloc, tables)
        && from_lent_words(alloc, tables)
        && at_position(alloc, tables)
        && from_any_word(alloc, tables)
}

#[test]
fn symbols_come_back(rt: HostRuntime) -> Result<(), Fail> {
    let tables = tables_of(rt.alloc())?;
    assert!(rt; are_all(rt.alloc(), &tables));
    Ok(())
}
