//! The interpreter of scripts that change the precision.

ghost use Rattle.std.specs.Prelude.{◌≤◌};

use super::acts::{act_by, failure};
use super::coders::{Coarse, Fine, Table, Whole};
use crate::scripts::answers::{DONE, MEMORY, ScriptWord};
use crate::scripts::script::{Act, Script};
use constriction_base::weights::WeightTable;
use constriction_chain::ChangePrecisionError;
use constriction_words::{BitArray, WordOf};
use std::alloc::Global;

/// Returns a copy of the coder with the precision increased to `N`, or the text for the error in scripts.
pub fn increase<Word, State, const PRECISION: usize, const N: usize>(
    coder: &Whole<Word, State, PRECISION>,
) -> Result<Whole<Word, State, N>, &'static str>
where
    Word: WordOf<State>,
    State: BitArray,
    requires { (PRECISION ≤ N) × (N ≤ Word.BITS) }
{
    let Ok(copy) = coder.clone() else {
        return Err(MEMORY);
    };
    match copy.increase_precision() {
        Ok(made) => Ok(made),
        Err(error) => Err(error.told()),
    }
}

/// Returns a copy of the coder with the precision decreased to `N`, or the text for the error in scripts.
pub fn decrease<Word, State, const PRECISION: usize, const N: usize>(
    coder: &Whole<Word, State, PRECISION>,
) -> Result<Whole<Word, State, N>, &'static str>
where
    Word: WordOf<State>,
    State: BitArray,
    requires { (1 ≤ N) × (N ≤ PRECISION) }
{
    let Ok(copy) = coder.clone() else {
        return Err(MEMORY);
    };
    match copy.decrease_precision() {
        Ok(made) => Ok(made),
        Err(error) => Err(error.told()),
    }
}

/// Returns a copy with its precision changed to `N` by `change_precision`, or the answer that stands for the error.
fn change<Word, State, const PRECISION: usize, const N: usize>(
    coder: &Whole<Word, State, PRECISION>,
) -> Result<Whole<Word, State, N>, &'static str>
where
    Word: WordOf<State>,
    State: BitArray,
    requires { (1 ≤ N) × (N ≤ Word.BITS) }
{
    let Ok(copy) = coder.clone() else {
        return Err(MEMORY);
    };
    match copy.change_precision() {
        Ok(made) => Ok(made),
        Err(ChangePrecisionError::Increase(error)) => Err(error.told()),
        Err(ChangePrecisionError::Decrease(error)) => Err(error.told()),
    }
}

/// A coder at 4 or at 8 bits of precision.
#[derive(Drop)]
pub enum Either {
    Coarse(Coarse),
    Fine(Fine),
}

/// A table at 4 bits and a table at 8 bits of precision.
#[derive(Drop)]
pub struct Tables {
    pub coarse: WeightTable<u8, 4>,
    pub fine: Table,
}

/// Returns a copy at the precision that `verb` asks for, or `None` if `verb` names no change of the precision.
///
/// `increase` and `decrease` change to the other precision. `change` does so with `change_precision`, and `change-none`
/// calls `change_precision` with the coder's own precision.
fn changed(coder: &Either, verb: &str) -> Result<Option<Either>, &'static str> {
    Ok(Some(match (coder, verb) {
        (Either::Coarse(coder), "increase") => Either::Fine(increase(coder)?),
        (Either::Coarse(coder), "change") => Either::Fine(change(coder)?),
        (Either::Coarse(coder), "change-none") => Either::Coarse(change(coder)?),
        (Either::Fine(coder), "decrease") => Either::Coarse(decrease(coder)?),
        (Either::Fine(coder), "change") => Either::Coarse(change(coder)?),
        _ => return Ok(None),
    }))
}

/// Runs an act with a coder at 4 or 8 bits of precision. Returns the answer, as in [`crate::scripts::answers`].
pub fn change_by(
    alloc: Global,
    coder: &mut Either,
    tables: &Tables,
    act: &Act<'_>,
) -> &'static str {
    match changed(coder, act.verb) {
        Ok(Some(made)) => {
            *coder = made;
            DONE
        }
        Err(answer) => answer,
        Ok(None) => match coder {
            Either::Coarse(coder) => act_by(alloc, coder, &tables.coarse, act),
            Either::Fine(coder) => act_by(alloc, coder, &tables.fine, act),
        },
    }
}

/// Runs a script with a coder that changes its precision, up to the first act whose answer isn't the expected one.
///
/// Returns the error that [`failure`] reports for this act, or `None` if there is no such act.
pub fn follow_changes(
    alloc: Global,
    coder: &mut Either,
    tables: &Tables,
    script: &Script,
) -> Option<&'static str> {
    for at in 0..script.len() {
        let act = script.act(at);
        let answer = change_by(alloc, coder, tables, &act);
        if answer != act.answer {
            return failure(answer, &act);
        }
    }
    None
}
