//! The interpreter of scripts on coders over vectors.

ghost use Rattle.constriction_chain.specs.Chain.{IsSized};

use super::coders::Whole;
use super::reversed::back_by;
use crate::scripts::answers::{DONE, MEMORY, OTHER, ScriptWord, answer_if};
use crate::scripts::numbers::{Number, same, words_of};
use crate::scripts::putting::put_by;
use crate::scripts::script::{Act, Script, find};
use crate::scripts::taking::take_by;
use constriction_base::errors::CoderError;
use constriction_base::weights::WeightTable;
use constriction_chain::{ChainCoder, ChainCoderHeads};
use constriction_stream::coder::Code;
use constriction_stream::decoding::Decode;
use constriction_stream::encoding::Encode;
use constriction_words::{BitArray, WordOf};
use std::alloc::{AllocError, Global};

/// An act on a coder: a change of the coder, or a check.
#[derive(Clone, Copy)]
enum Verb {
    Import(Form),
    Clone,
    Again,
    Part(Parts, bool),
    Says(Says),
}

/// The form of the words that a coder is imported from.
#[derive(Clone, Copy)]
enum Form {
    Words,
    Binary,
    Remainders,
}

/// A way to take a copy of the coder apart into two lists of words.
#[derive(Clone, Copy)]
enum Parts {
    Raw,
    Remainders,
    Words,
    Binary,
}

/// A check that leaves the coder unchanged.
#[derive(Clone, Copy)]
enum Says {
    Heads,
    Whole,
    Full,
    Exhausted,
    Unfinished,
}

/// The verbs of scripts, besides the verbs that encode or decode symbols.
///
/// - `import`, `import-binary` and `import-remainders` import a coder from words. The answer of a refused import is the
///   number of words left, as in `import!leaves-one`.
/// - `clone` replaces the coder by a clone. `again` replaces it by a clone that was taken apart and put together again.
/// - `compressed` and `remainders` compare the words of the two sides in the raw parts of a clone.
/// - `prefix` and `suffix` compare the two lists of words that `into_remainders` returns for a clone.
/// - `export` compares the words that `into_compressed` exports from a clone, and `rest` compares the words of the
///   remainders. `export-binary` and `rest-binary` compare the two lists of words that `into_binary` returns.
/// - `heads` compares the two heads.
/// - `whole` checks that the coder is whole. `full` checks that it may be full. `exhausted` checks that it may be
///   exhausted, and `unfinished` that it isn't exhausted.
const VERBS: &[(&str, Verb)] = &[
    ("import", Verb::Import(Form::Words)),
    ("import-binary", Verb::Import(Form::Binary)),
    ("import-remainders", Verb::Import(Form::Remainders)),
    ("clone", Verb::Clone),
    ("again", Verb::Again),
    ("compressed", Verb::Part(Parts::Raw, true)),
    ("remainders", Verb::Part(Parts::Raw, false)),
    ("prefix", Verb::Part(Parts::Remainders, true)),
    ("suffix", Verb::Part(Parts::Remainders, false)),
    ("export", Verb::Part(Parts::Words, true)),
    ("rest", Verb::Part(Parts::Words, false)),
    ("export-binary", Verb::Part(Parts::Binary, true)),
    ("rest-binary", Verb::Part(Parts::Binary, false)),
    ("heads", Verb::Says(Says::Heads)),
    ("whole", Verb::Says(Says::Whole)),
    ("full", Verb::Says(Says::Full)),
    ("exhausted", Verb::Says(Says::Exhausted)),
    ("unfinished", Verb::Says(Says::Unfinished)),
];

/// Returns the answer of a refused import, which names the number of words `left` that the import handed back.
///
/// The answer is `OTHER` if there are more than two, or if `numbers`, the words to import, don't begin with them.
fn leaves<Word: Number>(left: &[Word], numbers: &[u128]) -> &'static str {
    if !same(left, numbers.get(..left.len()).unwrap_or(&[])) {
        return OTHER;
    }
    match left.len() {
        0 => "leaves-none",
        1 => "leaves-one",
        2 => "leaves-two",
        _ => OTHER,
    }
}

/// Imports a coder from the words `numbers`.
///
/// Returns the answer, a word of a script ([`crate::scripts::answers`]).
fn import<Word, State, const PRECISION: usize>(
    alloc: Global,
    coder: &mut Whole<Word, State, PRECISION>,
    form: Form,
    numbers: &[u128],
) -> &'static str
where
    Word: WordOf<State> + Number,
    State: BitArray,
    requires { IsSized Word.BITS State.BITS PRECISION }
{
    let Ok(words) = words_of::<Word>(alloc, numbers) else {
        return MEMORY;
    };
    let made = match form {
        Form::Words => ChainCoder::from_compressed(alloc, words),
        Form::Binary => ChainCoder::from_binary(alloc, words),
        Form::Remainders => ChainCoder::from_remainders(alloc, words),
    };
    match made {
        Ok(made) => {
            *coder = made;
            DONE
        }
        Err(CoderError::Frontend(left)) => leaves(&left, numbers),
        Err(CoderError::Backend(never)) => match never {},
    }
}

/// Takes a coder apart, and puts its parts together again. Returns `None` if the heads are invalid.
fn put_together<Word, State, const PRECISION: usize>(
    coder: Whole<Word, State, PRECISION>,
) -> Option<Whole<Word, State, PRECISION>>
where
    Word: WordOf<State>,
    State: BitArray,
    requires { IsSized Word.BITS State.BITS PRECISION }
{
    let (compressed, remainders, heads) = coder.into_raw_parts();
    let (left_over, number) = heads.parts();
    match ChainCoderHeads::new(left_over, number) {
        Some(heads) => Some(ChainCoder::from_raw_parts(compressed, remainders, heads)),
        None => None,
    }
}

/// Replaces the coder by a clone.
///
/// Returns the answer, a word of a script ([`crate::scripts::answers`]).
///
/// If `is_again` is true, the clone is taken apart and put together first.
fn copy<Word, State, const PRECISION: usize>(
    coder: &mut Whole<Word, State, PRECISION>,
    is_again: bool,
) -> &'static str
where
    Word: WordOf<State>,
    State: BitArray,
    requires { IsSized Word.BITS State.BITS PRECISION }
{
    let clone = match coder.clone() {
        Ok(clone) => clone,
        Err(error) => return error.told(),
    };
    match if is_again {
        put_together(clone)
    } else {
        Some(clone)
    } {
        Some(made) => {
            *coder = made;
            DONE
        }
        None => OTHER,
    }
}

/// Two lists of words, or the answer that stands for an error.
type Lists<Word> = Result<(Vec<Word>, Vec<Word>), &'static str>;

/// Returns the words of an export, and the words of remainders that the export leaves.
fn exported<Word, State, const PRECISION: usize>(
    answer: Result<(Vec<Word>, Vec<Word>), CoderError<Whole<Word, State, PRECISION>, AllocError>>,
) -> Lists<Word>
where
    Word: WordOf<State>,
    State: BitArray,
{
    match answer {
        Ok((rest, words)) => Ok((words, rest)),
        Err(CoderError::Frontend(_)) => Err("none"),
        Err(CoderError::Backend(error)) => Err(error.told()),
    }
}

/// Takes a coder apart into two lists of words, in the way that `how` names.
fn take_apart<Word, State, const PRECISION: usize>(
    coder: Whole<Word, State, PRECISION>,
    how: Parts,
) -> Lists<Word>
where
    Word: WordOf<State>,
    State: BitArray,
{
    match how {
        Parts::Raw => {
            let (compressed, remainders, _) = coder.into_raw_parts();
            Ok((compressed, remainders))
        }
        Parts::Remainders => match coder.into_remainders() {
            Ok(lists) => Ok(lists),
            Err(error) => Err(error.told()),
        },
        Parts::Words => exported(coder.into_compressed()),
        Parts::Binary => exported(coder.into_binary()),
    }
}

/// Takes a copy of the coder apart, and compares one of the two lists with `numbers`.
///
/// Returns the answer, a word of a script ([`crate::scripts::answers`]).
fn compare<Word, State, const PRECISION: usize>(
    coder: &Whole<Word, State, PRECISION>,
    (how, is_first): (Parts, bool),
    numbers: &[u128],
) -> &'static str
where
    Word: WordOf<State> + Number,
    State: BitArray,
{
    let Ok(copy) = coder.clone() else {
        return MEMORY;
    };
    match take_apart(copy, how) {
        Ok((first, second)) => {
            let is_same = if is_first {
                same(&first, numbers)
            } else {
                same(&second, numbers)
            };
            answer_if(is_same)
        }
        Err(answer) => answer,
    }
}

/// Returns whether the check `says` holds for the coder. `act` has the expected heads.
fn is_as_said<Word, State, const PRECISION: usize>(
    coder: &Whole<Word, State, PRECISION>,
    says: Says,
    act: &Act<'_>,
) -> bool
where
    Word: WordOf<State> + Number,
    State: BitArray + Number,
{
    match says {
        Says::Heads => {
            let (left_over, number) = coder.state().parts();
            act.numbers == [left_over.shown(), number.shown()].as_slice()
        }
        Says::Whole => coder.is_whole() & coder.state().is_whole(),
        Says::Full => Encode::<PRECISION>::maybe_full(coder),
        Says::Exhausted => Decode::<PRECISION>::maybe_exhausted(coder),
        Says::Unfinished => !Decode::<PRECISION>::maybe_exhausted(coder),
    }
}

/// Runs an act (a step of a script) with a coder. Returns the answer, as in [`crate::scripts::answers`].
pub fn act_by<Word, State, Probability, const PRECISION: usize>(
    alloc: Global,
    coder: &mut Whole<Word, State, PRECISION>,
    table: &WeightTable<Probability, PRECISION>,
    act: &Act<'_>,
) -> &'static str
where
    Word: WordOf<State> + Number,
    State: BitArray + Number,
    Probability: WordOf<Word>,
    requires { IsSized Word.BITS State.BITS PRECISION }
{
    if let Some(answer) = put_by(alloc, coder, table, act) {
        return answer;
    }
    if let Some(answer) = take_by(alloc, coder, table, act) {
        return answer;
    }
    match find(VERBS, act.verb) {
        None => back_by(coder, table, act),
        Some(Verb::Import(form)) => import(alloc, coder, form, act.numbers),
        Some(Verb::Clone) => copy(coder, false),
        Some(Verb::Again) => copy(coder, true),
        Some(Verb::Part(how, is_first)) => compare(coder, (how, is_first), act.numbers),
        Some(Verb::Says(says)) => answer_if(is_as_said(coder, says, act)),
    }
}

/// Returns the error to report for a failed act. `answer` is the answer that the act gave.
///
/// The error is `MEMORY` if `answer` is `MEMORY`, because the test itself then has no memory. Otherwise, the error is
/// the act's text. The call never returns `None`.
pub fn failure(answer: &'static str, act: &Act<'_>) -> Option<&'static str> {
    Some(if answer == MEMORY { MEMORY } else { act.text })
}

/// Runs a script with a coder, up to the first act whose answer isn't the expected one.
///
/// Returns the error that [`failure`] reports for this act, or `None` if there is no such act.
pub fn follow<Word, State, Probability, const PRECISION: usize>(
    alloc: Global,
    coder: &mut Whole<Word, State, PRECISION>,
    table: &WeightTable<Probability, PRECISION>,
    script: &Script,
) -> Option<&'static str>
where
    Word: WordOf<State> + Number,
    State: BitArray + Number,
    Probability: WordOf<Word>,
    requires { IsSized Word.BITS State.BITS PRECISION }
{
    for at in 0..script.len() {
        let act = script.act(at);
        let answer = act_by(alloc, coder, table, &act);
        if answer != act.answer {
            return failure(answer, &act);
        }
    }
    None
}
