//! Tests of the range coder's round-trip functions, with 8-bit words and 16-bit states.

use super::given::{SYMBOLS, Table, are_back, tables_of, words_of};
use constriction_base::backends::Pos;
use constriction_base::cursor::Cursor;
use constriction_laws::queue::flagged::decode_flagged;
use constriction_laws::queue::round_trips::lent_pairs::decode_lent_words_by_models;
use constriction_laws::queue::round_trips::pairs::{compressed_words_of_pairs, pairs_from_words};
use constriction_laws::queue::round_trips::positions_of_pairs::pairs_from_position;
use constriction_queue::{FlagSwitch, RangeDecoder, RangeEncoder};
use std::alloc::Global;
use std::test::Fail;

type Small = RangeEncoder<u8, u16, Vec<u8>>;

fn put_in(alloc: Global, tables: &[Table; 2]) -> bool {
    match compressed_words_of_pairs::<u8, u16, Vec<u8>, _, 8>(Small::new(alloc), &SYMBOLS, tables) {
        Ok(words) => words.as_slice() == [16u8].as_slice(),
        Err(_) => false,
    }
}

/// Decodes the word 16. Returns whether the symbols equal `SYMBOLS`, and `maybe_exhausted` is true after the decodes.
fn from_words(alloc: Global, tables: &[Table; 2]) -> bool {
    let Some(words) = words_of(alloc, &[16]) else {
        return false;
    };
    match pairs_from_words::<u8, u16, Vec<u8>, _, 8>(alloc, words, tables) {
        Ok((again, ended)) => are_back(again.as_slice()) && ended,
        Err(_) => false,
    }
}

/// Decodes the single word `16`, starting at a new encoder's position. Returns whether the symbols equal `SYMBOLS`.
fn from_position(alloc: Global, tables: &[Table; 2]) -> bool {
    let Some(words) = words_of(alloc, &[16]) else {
        return false;
    };
    let place = Small::new(alloc).pos();
    match pairs_from_position::<u8, u16, _, 8>(alloc, words, place, tables) {
        Ok(again) => are_back(again.as_slice()),
        Err(_) => false,
    }
}

/// Decodes two symbols from the words that a new encoder lends.
///
/// Returns whether both symbols are 0, because words past the end are read as zeros.
fn from_lent_words(alloc: Global, tables: &[Table; 2]) -> bool {
    let mut encoder = Small::new(alloc);
    match decode_lent_words_by_models::<u8, u16, Global, _, 8>(alloc, &mut encoder, tables) {
        Ok(again) => again.as_slice() == [0usize, 0].as_slice(),
        Err(_) => false,
    }
}

/// Decodes the word 16 with a switch. Returns whether the symbols equal `SYMBOLS`. The symbol 1 is the flag.
fn from_a_switch(alloc: Global, tables: &[Table; 2]) -> bool {
    let decoder = match RangeDecoder::<u8, u16, Cursor<u8, &[u8]>>::from_compressed([
        16u8,
    ].as_slice())
    {
        Ok(decoder) => decoder,
        Err(never) => match never {},
    };
    let mut switch: FlagSwitch<u8, u16, Cursor<u8, &[u8]>, 8, 8> = FlagSwitch::new(decoder, 1);
    match decode_flagged(alloc, &mut switch, 2, &tables[0], &tables[1]) {
        Ok(again) => are_back(again.as_slice()),
        Err(_) => false,
    }
}

fn are_all(alloc: Global, tables: &[Table; 2]) -> bool {
    put_in(alloc, tables)
        && from_words(alloc, tables)
        && from_position(alloc, tables)
        && from_lent_words(alloc, tables)
        && from_a_switch(alloc, tables)
}

#[test]
fn symbols_come_back(rt: HostRuntime) -> Result<(), Fail> {
    let tables = tables_of(rt.alloc())?;
    assert!(rt; are_all(rt.alloc(), &tables));
    Ok(())
}
