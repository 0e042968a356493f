//! Tests of symbols under two models in one stream, where symbol 1 is the flag.
//!
//! The first model has a precision of 8 bits, and codes the symbols up to the flag and the flag itself. The second
//! model has a precision of 4 bits, and codes the symbols after the flag.

use super::coders::{Coder, Table, small_of};
use crate::scripts::answers::{OTHER, answer_of};
use constriction_base::cursor::Cursor;
use constriction_base::weights::WeightTable;
use constriction_queue::{FlagSwitch, RangeDecoder, encode_flagged};
use constriction_stream::encoding::Encode;
use std::alloc::Global;
use std::test::Fail;

/// A flag switch that decodes from borrowed words.
pub type Switch<'a> = FlagSwitch<u8, u16, Cursor<u8, &'a [u8]>, 8, 4>;

/// The table of the symbols up to the flag, and the table of the symbols after it.
#[derive(Drop)]
pub struct Tables {
    pub first: Table,
    pub second: WeightTable<u8, 4>,
}

/// Makes the tables: `weights` up to the flag, and four equal weights after it.
pub fn tables_of(alloc: Global, weights: &[u8]) -> Result<Tables, Fail> {
    let first = WeightTable::new(alloc, weights)?;
    let second = WeightTable::new(alloc, &[4, 4, 4, 4])?;
    Ok(Tables { first, second })
}

/// Encodes `symbols` with the two tables.
///
/// Returns an empty string after a success, and otherwise the text for the error in scripts. If `symbols_left` of the
/// encoder is less than the number of symbols, the call returns `OTHER` and encodes nothing.
pub fn put_flagged(encoder: &mut Coder, tables: &Tables, symbols: &[usize]) -> &'static str {
    if Encode::<8>::symbols_left(encoder) < symbols.len() {
        return OTHER;
    }
    answer_of(encode_flagged(encoder, symbols, 1, &tables.first, &tables.second))
}

/// Returns a new switch that reads `words`. The result is never `None`.
pub fn switch_of(words: &[u8]) -> Option<Switch<'_>> {
    match RangeDecoder::with_backend(Cursor::new_at_write_beginning(words)) {
        Ok(decoder) => Some(FlagSwitch::new(decoder, 1)),
        Err(never) => match never {},
    }
}

/// Returns whether the next symbols that the switch decodes are `symbols`.
pub fn gives(switch: &mut Switch<'_>, tables: &Tables, symbols: &[usize]) -> bool {
    for symbol in symbols {
        match switch.next_symbol(&tables.first, &tables.second) {
            Ok(found) if found == *symbol => {}
            _ => return false,
        }
    }
    true
}

/// Returns whether a new switch decodes `symbols` from `words`.
///
/// The switch's method `switched` must return `false` before the decodes, and the parameter `switched` after them.
pub fn come_from(words: &[u8], tables: &Tables, symbols: &[usize], switched: bool) -> bool {
    match switch_of(words) {
        Some(mut switch) => {
            !switch.switched()
                && gives(&mut switch, tables, symbols)
                && switch.switched() == switched
        }
        None => false,
    }
}

/// Encodes `symbols` with a new encoder. Returns `true` if it exports `words` and [`come_from`] returns `true`.
pub fn come_back(
    alloc: Global,
    tables: &Tables,
    symbols: &[usize],
    words: &[u8],
    switched: bool,
) -> bool {
    let mut encoder = Coder::new(alloc);
    if !put_flagged(&mut encoder, tables, symbols).is_empty() {
        return false;
    }
    match encoder.into_compressed() {
        Ok(found) => found.as_slice() == words && come_from(words, tables, symbols, switched),
        Err(_) => false,
    }
}

#[test]
fn flag_switch(rt: HostRuntime) -> Result<(), Fail> {
    let tables = tables_of(rt.alloc(), &[128, 64, 64])?;
    assert!(rt;
        come_back(rt.alloc(), &tables, &[0, 1, 3], &[88], true)
            && come_back(rt.alloc(), &tables, &[0, 1, 1, 3], &[78], true)
    );
    small_of(rt.alloc(), &[88], &[(&[128, 64, 64], "take 0 1 2")])
}
