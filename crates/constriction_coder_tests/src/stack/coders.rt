//! Functions that run scripts at concrete types, so that most tests don't call the interpreter themselves.

ghost use Rattle.constriction_base.specs.Steps.{IsSizes};
ghost use Rattle.std.specs.Prelude.{◌≤◌};

use super::acts::follow;
use super::owning::follow_owning;
use crate::scripts::answers::MEMORY;
use crate::scripts::numbers::Number;
use crate::scripts::script::Script;
use constriction_base::cursor::Cursor;
use constriction_base::weights::WeightTable;
use constriction_stack::AnsCoder;
use constriction_words::{BitArray, WordOf};
use std::alloc::Global;
use std::test::Fail;

/// A coder of 8-bit words and 16-bit heads.
pub type Small = AnsCoder<u8, u16>;

/// A table with a precision of 8 bits.
pub type Table = WeightTable<u8, 8>;

/// Turns the text of the first act that failed into an error of the test. Returns `Ok` if no act failed.
pub fn said(failed: Option<&'static str>) -> Result<(), Fail> {
    match failed {
        Some(act) => Err(Fail::from(act)),
        None => Ok(()),
    }
}

/// Runs the script `text` with a new coder over a vector, and with a table of `weights`.
///
/// Returns the text of the first act that failed, or `None` if no act failed. If the table or the script can't be made,
/// returns [`MEMORY`].
pub fn go<Word, State, Probability, const PRECISION: usize>(
    alloc: Global,
    weights: &[Probability],
    text: &'static str,
) -> Option<&'static str>
where
    Word: WordOf<State> + Number,
    State: BitArray + Number,
    Probability: WordOf<Word>,
    requires sizes { IsSizes Word.BITS State.BITS }
    requires precision { (1 ≤ PRECISION) × (PRECISION ≤ Probability.BITS) }
{
    match (
        WeightTable::<Probability, PRECISION>::new(alloc, weights),
        Script::read(alloc, text),
    ) {
        (Ok(table), Ok(script)) => {
            let mut coder = AnsCoder::<Word, State>::new(alloc);
            follow_owning(alloc, &mut coder, &table, &script)
        }
        _ => Some(MEMORY),
    }
}

/// Runs the script `text` with a coder of 8-bit words and 16-bit heads, and with a table of `weights`.
///
/// If an act fails, the error is the text of this act.
pub fn small(alloc: Global, weights: &[u8], text: &'static str) -> Result<(), Fail> {
    said(go::<u8, u16, u8, 8>(alloc, weights, text))
}

/// Runs the script `text` with a coder of 32-bit words and 64-bit heads, and with a table of `weights`.
///
/// If an act fails, the error is the text of this act.
pub fn wide(alloc: Global, weights: &[u32], text: &'static str) -> Result<(), Fail> {
    said(go::<u32, u64, u32, 24>(alloc, weights, text))
}

/// Runs a script with a coder of 8-bit words and 16-bit heads over `buf`. The coder begins with `head` and no words.
pub fn small_over(
    alloc: Global,
    weights: &[u8],
    buf: &mut [u8],
    head: u16,
    text: &'static str,
) -> Result<(), Fail> {
    let table: Table = WeightTable::new(alloc, weights)?;
    let script = Script::read(alloc, text)?;
    let words: Cursor<u8, &mut [u8]> = Cursor::new_at_write_beginning(buf);
    let mut coder = AnsCoder::<u8, u16, Cursor<u8, &mut [u8]>>::from_raw_parts(words, head);
    said(follow(alloc, &mut coder, &table, &script))
}
