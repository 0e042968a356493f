//! Functions that run scripts at concrete types, so that most tests don't call the interpreter themselves.

ghost use Rattle.constriction_chain.specs.Chain.{IsSized};
ghost use Rattle.std.specs.Prelude.{◌≤◌};

use super::acts::follow;
use crate::scripts::answers::MEMORY;
use crate::scripts::numbers::Number;
use crate::scripts::script::Script;
use constriction_base::weights::WeightTable;
use constriction_chain::{ChainCoder, ChainCoderHeads};
use constriction_words::{BitArray, WordOf};
use std::alloc::Global;
use std::test::Fail;

/// A chain coder whose compressed words and remainders are in vectors.
pub type Whole<Word, State, const PRECISION: usize> = ChainCoder<
    Word,
    State,
    Vec<Word>,
    Vec<Word>,
    PRECISION,
>;

/// A coder of 8-bit words and 16-bit states, at a precision of 8 bits.
pub type Fine = Whole<u8, u16, 8>;

/// A coder of 8-bit words and 16-bit states, at a precision of 4 bits.
pub type Coarse = Whole<u8, u16, 4>;

/// A table with a precision of 8 bits.
pub type Table = WeightTable<u8, 8>;

/// The weights of most tables with a precision of 8 bits.
pub const WEIGHTS: &[u8] = &[16, 240];

/// A part of a test: the weights of a table, and the script to run with the table.
pub type Part<'a, Probability> = (&'a [Probability], &'static str);

/// Turns the text of a failed act into the error of a test. Without a failed act, the test passes.
pub fn said(failed: Option<&'static str>) -> Result<(), Fail> {
    match failed {
        Some(act) => Err(Fail::from(act)),
        None => Ok(()),
    }
}

/// Makes a coder without words and without bits left over, with the remainders head `number`.
///
/// Returns `None` if `number` isn't in the window of a remainders head.
pub fn empty<Word, State, const PRECISION: usize>(
    alloc: Global,
    number: State,
) -> Option<Whole<Word, State, PRECISION>>
where
    Word: WordOf<State>,
    State: BitArray,
    requires { IsSized Word.BITS State.BITS PRECISION }
{
    match ChainCoderHeads::new(Word::unit(), number) {
        Some(heads) => Some(ChainCoder::from_raw_parts(Vec::new(alloc), Vec::new(alloc), heads)),
        None => None,
    }
}

/// Runs the scripts of `parts` with the coder in `found`, each script with its own table.
///
/// Returns `None` if each act of the scripts has its expected answer. Otherwise returns one of these texts:
///
/// - `no coder` if `found` is `None`.
/// - `MEMORY` if the call can't make a table or read a script.
/// - The error that [`follow`] returns for the first act that fails.
pub fn go<Word, State, Probability, const PRECISION: usize>(
    alloc: Global,
    found: Option<Whole<Word, State, PRECISION>>,
    parts: &[Part<'_, Probability>],
) -> Option<&'static str>
where
    Word: WordOf<State> + Number,
    State: BitArray + Number,
    Probability: WordOf<Word>,
    requires sized { IsSized Word.BITS State.BITS PRECISION }
    requires precision { (1 ≤ PRECISION) × (PRECISION ≤ Probability.BITS) }
{
    let Some(mut coder) = found else {
        return Some("no coder");
    };
    for part in parts {
        let Ok(table) = WeightTable::<Probability, PRECISION>::new(alloc, part.0) else {
            return Some(MEMORY);
        };
        let Ok(script) = Script::read(alloc, part.1) else {
            return Some(MEMORY);
        };
        let failed = follow(alloc, &mut coder, &table, &script);
        if failed.is_some() {
            return failed;
        }
    }
    None
}

/// Runs the script `text` with a coder of 8-bit words and 16-bit states, and the 8-bit table of [`WEIGHTS`].
pub fn fine(alloc: Global, text: &'static str) -> Result<(), Fail> {
    said(go::<u8, u16, u8, 8>(alloc, empty(alloc, 1), &[(WEIGHTS, text)]))
}

/// Runs the scripts of `parts`, each with its own 4-bit table, with a coder of 8-bit words and 16-bit states.
pub fn coarse(alloc: Global, parts: &[Part<'_, u8>]) -> Result<(), Fail> {
    said(go::<u8, u16, u8, 4>(alloc, empty(alloc, 16), parts))
}

/// Runs the script `text` with a coder of 16-bit words and 32-bit states, and the 12-bit table of `weights`.
pub fn small(alloc: Global, weights: &[u16], text: &'static str) -> Result<(), Fail> {
    said(go::<u16, u32, u16, 12>(alloc, empty(alloc, 16), &[(weights, text)]))
}

/// Runs the script `text` with a coder of 32-bit words and 64-bit states, and the 24-bit table of `weights`.
pub fn wide(alloc: Global, weights: &[u32], text: &'static str) -> Result<(), Fail> {
    said(go::<u32, u64, u32, 24>(alloc, empty(alloc, 256), &[(weights, text)]))
}
