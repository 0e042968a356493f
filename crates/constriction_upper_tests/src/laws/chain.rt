//! Tests of the chain coder's round-trip functions, with 8-bit words and 16-bit states.
//!
//! The coder imports the words 20, 30 and 9. The last word, 9, begins the remainders. At 8 bits of precision, the first
//! symbol is decoded from the word 30, and the second symbol from the word 20. 30 is a quantile of symbol 1 under the
//! first table, and 20 is a quantile of symbol 0 under the second table.

use super::given::{SYMBOLS, Table, are_back, tables_of, words_of};
use constriction_chain::ChainCoder;
use constriction_laws::chain::round_trips::isolation::decode_by_two;
use constriction_laws::chain::round_trips::words::{put_back_pairs, take_pairs};
use std::alloc::Global;
use std::test::Fail;

type Small = ChainCoder<u8, u16, Vec<u8>, Vec<u8>, 8>;

/// Imports a coder from the words 20, 30 and 9.
fn coder_of(alloc: Global) -> Option<Small> {
    Small::from_compressed(alloc, words_of(alloc, &[20, 30, 9])?).ok()
}

/// Decodes two symbols from the words 20, 30 and 9. Returns whether symbols and remainders are as expected.
///
/// The first decode makes the remainders head `9 * 240 + 14`, and moves its low word out, which leaves 8. The second
/// decode makes the head `8 * 100 + 20`.
fn taken(alloc: Global, tables: &[Table; 2]) -> bool {
    let Some(coder) = coder_of(alloc) else {
        return false;
    };
    match take_pairs::<u8, u16, _, 8>(alloc, coder, tables) {
        Ok((again, _, suffix)) => {
            are_back(again.as_slice()) && suffix.as_slice() == [126u8, 52, 3, 1].as_slice()
        }
        Err(_) => false,
    }
}

fn put_back(alloc: Global, tables: &[Table; 2]) -> bool {
    let Some(remainders) = words_of(alloc, &[126, 52, 3, 1]) else {
        return false;
    };
    match put_back_pairs::<u8, u16, _, 8>(alloc, remainders, &SYMBOLS, tables) {
        Ok(_) => true,
        Err(_) => false,
    }
}

fn by_two(alloc: Global, coder: &mut Small, same: &mut Small, tables: &[Table; 2]) -> bool {
    match decode_by_two::<u8, u16, Vec<u8>, Vec<u8>, _, _, 8>(alloc, coder, tables, same, tables) {
        Ok((one, two)) => are_back(one.as_slice()) && are_back(two.as_slice()),
        Err(_) => false,
    }
}

fn of_two_coders(alloc: Global, tables: &[Table; 2]) -> bool {
    match (coder_of(alloc), coder_of(alloc)) {
        (Some(mut coder), Some(mut same)) => by_two(alloc, &mut coder, &mut same, tables),
        _ => false,
    }
}

fn are_all(alloc: Global, tables: &[Table; 2]) -> bool {
    taken(alloc, tables) && put_back(alloc, tables) && of_two_coders(alloc, tables)
}

#[test]
fn symbols_out_of_words_and_back(rt: HostRuntime) -> Result<(), Fail> {
    let tables = tables_of(rt.alloc())?;
    assert!(rt; are_all(rt.alloc(), &tables));
    Ok(())
}
