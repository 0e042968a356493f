//! Functions that run scripts at concrete types, so that most tests don't call the interpreters themselves.

ghost use Rattle.constriction_base.specs.Steps.{IsSizes};
ghost use Rattle.std.specs.Prelude.{◌≤◌};

use super::decoding::{Owning, follow_decoding};
use super::encoding::follow;
use crate::scripts::answers::MEMORY;
use crate::scripts::numbers::Number;
use crate::scripts::script::Script;
use constriction_base::cursor::Cursor;
use constriction_base::weights::{TableError, WeightTable};
use constriction_queue::{RangeDecoder, RangeEncoder};
use constriction_words::{BitArray, WordOf};
use std::alloc::Global;
use std::test::Fail;

/// The encoder of most tests, with 8-bit words and 16-bit states.
pub type Coder = RangeEncoder<u8, u16>;

/// The table of most tests, with a precision of 8 bits.
pub type Table = WeightTable<u8, 8>;

/// The weights of a table under which encoding symbol 1 with a new encoder leaves a word pending.
pub const INVERTING: &[u8] = &[127, 1, 127, 1];

/// A part of a test: the weights of a table, and the script to run with the table.
pub type Part<'a, Probability> = (&'a [Probability], &'static str);

/// Turns the text of the first act that failed into an error of the test. Returns `Ok` if no act failed.
pub fn said(failed: Option<&'static str>) -> Result<(), Fail> {
    match failed {
        Some(act) => Err(Fail::from(act)),
        None => Ok(()),
    }
}

/// Makes the table and reads the script of `part`.
fn read<Probability: BitArray, const PRECISION: usize>(
    alloc: Global,
    part: Part<'_, Probability>,
) -> Result<(WeightTable<Probability, PRECISION>, Script), TableError>
    requires { (1 ≤ PRECISION) × (PRECISION ≤ Probability.BITS) }
{
    let table = WeightTable::new(alloc, part.0)?;
    Ok((table, Script::read(alloc, part.1)?))
}

/// Runs the scripts of `parts` with a new encoder, each script with its own table.
///
/// Returns `None` if each act of the scripts succeeds. Otherwise returns the text of the first act that failed, or
/// another reason for stopping, such as no memory.
pub fn go<Word, State, Probability, const PRECISION: usize>(
    alloc: Global,
    parts: &[Part<'_, Probability>],
) -> Option<&'static str>
where
    Word: WordOf<State> + Number,
    State: BitArray + Number,
    Probability: WordOf<Word>,
    requires sizes { IsSizes Word.BITS State.BITS }
    requires precision { (1 ≤ PRECISION) × (PRECISION ≤ Probability.BITS) }
{
    let mut encoder = RangeEncoder::<Word, State>::new(alloc);
    for part in parts {
        let Ok((table, script)) = read::<Probability, PRECISION>(alloc, *part) else {
            return Some(MEMORY);
        };
        let failed = follow(alloc, &mut encoder, &table, &script);
        if failed.is_some() {
            return failed;
        }
    }
    None
}

/// Runs the scripts of `parts` with a decoder of `words`, each script with its own table.
///
/// Returns `None` if each act of the scripts succeeds. Otherwise returns the text of the first act that failed, or
/// another reason for stopping, such as no memory.
pub fn decode<Word, State, Probability, const PRECISION: usize>(
    alloc: Global,
    words: &[Word],
    parts: &[Part<'_, Probability>],
) -> Option<&'static str>
where
    Word: WordOf<State>,
    State: BitArray + Number,
    Probability: WordOf<Word>,
    requires sizes { IsSizes Word.BITS State.BITS }
    requires precision { (1 ≤ PRECISION) × (PRECISION ≤ Probability.BITS) }
{
    let Ok(words) = words.to_vec(alloc) else {
        return Some(MEMORY);
    };
    let Ok(mut decoder) = RangeDecoder::with_backend(Cursor::new_at_write_beginning(words)) else {
        return Some("no decoder");
    };
    for part in parts {
        let Ok((table, script)) = read::<Probability, PRECISION>(alloc, *part) else {
            return Some(MEMORY);
        };
        let failed = follow_decoding(alloc, &mut decoder, &table, &script);
        if failed.is_some() {
            return failed;
        }
    }
    None
}

/// Runs scripts with an encoder of 8-bit words and 16-bit states.
pub fn small(alloc: Global, parts: &[Part<'_, u8>]) -> Result<(), Fail> {
    said(go::<u8, u16, u8, 8>(alloc, parts))
}

/// Runs scripts with an encoder of 8-bit words and 32-bit states.
pub fn tall(alloc: Global, parts: &[Part<'_, u8>]) -> Result<(), Fail> {
    said(go::<u8, u32, u8, 8>(alloc, parts))
}

/// Runs scripts with an encoder of 32-bit words and 64-bit states.
pub fn wide(alloc: Global, parts: &[Part<'_, u32>]) -> Result<(), Fail> {
    said(go::<u32, u64, u32, 24>(alloc, parts))
}

/// Runs scripts with a decoder of `words`, with 8-bit words and 16-bit states.
pub fn small_of(alloc: Global, words: &[u8], parts: &[Part<'_, u8>]) -> Result<(), Fail> {
    said(decode::<u8, u16, u8, 8>(alloc, words, parts))
}

/// Runs scripts with a decoder of `words`, with 8-bit words and 32-bit states.
pub fn tall_of(alloc: Global, words: &[u8], parts: &[Part<'_, u8>]) -> Result<(), Fail> {
    said(decode::<u8, u32, u8, 8>(alloc, words, parts))
}

/// Runs scripts with a decoder of `words`, with 32-bit words and 64-bit states.
pub fn wide_of(alloc: Global, words: &[u32], parts: &[Part<'_, u32>]) -> Result<(), Fail> {
    said(decode::<u32, u64, u32, 24>(alloc, words, parts))
}
