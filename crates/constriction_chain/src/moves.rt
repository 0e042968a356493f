//! Moving words between the heads and a backend.

ghost use Rattle.constriction_base.specs.Steps.{IsSizes};
ghost use Rattle.constriction_base.specs.Writing.{NotWritten};
ghost use Rattle.constriction_base.specs.declared.errors.CoderError.TheVariants.{Frontend, Backend};
ghost use Rattle.constriction_chain.specs.Chain.{IsRemaindersHead, IsSized, least};
ghost use Rattle.constriction_chain.specs.Words.{BeginsNonzero, IfFound, NoStart, OnNone};
ghost use Rattle.std.specs.Int.Digits.{digits_of};
ghost use Rattle.std.specs.Prelude.{IfErr, MatchBool, OnOk, map, ◌-◌, ◌++◌, ◌<◌, ◌^◌, ◌≡◌, ◌≤◌, ◌∷◌};

use constriction_base::backends::{Holds, ReadWords, Stack, WriteWords};
use constriction_base::head_words::{count_of_words, fill, write_words};
use constriction_words::{BitArray, WordOf};

/// Returns whether `r` is below `2^(State::BITS - less)`.
#[inline]
pub fn is_below_power<State: BitArray>(r: State, less: u32) -> bool
    requires { (0 < less) × (less ≤ State.BITS) }
    ensures { MatchBool result (State.number r < 2 ^ (State.BITS - less)) (2 ^ (State.BITS - less) ≤ State.number r) }
{
    r.shift_right(State::BITS - less).is_nothing()
}

/// Reads words of `source` into a new remainders head until the head is in its window, and returns the head.
///
/// The window begins at `2^(State::BITS - Word::BITS - precision)`. The call returns `None` if the first word is 0, or
/// if there are too few words to reach the window. If a read fails, the call returns the error of the read.
pub fn begin_window<Word: WordOf<State>, State: BitArray, B: ReadWords<Word, Stack>>(
    source: &mut B,
    precision: u32,
) -> Result<Option<State>, B::ReadError>
    requires { IsSized Word.BITS State.BITS precision }
    ensures ok { IfFound result (λ x.
        BeginsNonzero Word.number B.Holds B.ReadWords.own Word.BITS source.old (State.number x) source.new) }
    ensures window { IfFound result (λ x. IsRemaindersHead Word.BITS State.BITS precision (State.number x)) }
    ensures none { OnNone result (NoStart Word.number B.Holds B.ReadWords.own Word.BITS
        (least Word.BITS State.BITS precision) source.old (Frontend source.new)) }
    ensures err { IfErr result (λ e. NoStart Word.number B.Holds B.ReadWords.own Word.BITS
        (least Word.BITS State.BITS precision) source.old (Backend e)) }
{
    let first = match source.read() {
        Ok(Some(word)) => word,
        Ok(None) => return Ok(None),
        Err(error) => return Err(error),
    };
    if first.is_nothing() {
        return Ok(None);
    }
    let bits = State::BITS - Word::BITS - precision;
    match fill::<Word, State, B>(source, first.widen(), bits) {
        Ok((r, full)) => { if full { Ok(Some(r)) } else { Ok(None) } }
        Err(refusal) => Err(refusal),
    }
}

/// Asks `backend` for room for all words of both heads, and then writes the heads to `backend`.
///
/// The words of the remainders head come first, lowest first and without leading zero words. The compressed head
/// follows.
///
/// # Errors
///
/// Returns the error of `backend` if `backend` refuses room for these words, or refuses to write one of these words.
pub fn append_heads<Word: WordOf<State>, State: BitArray, B: WriteWords<Word>>(
    backend: &mut B,
    h: Word,
    r: State,
) -> Result<(), B::WriteError>
    requires { IsSizes Word.BITS State.BITS }
    ensures ok { OnOk result (map Word.number (B.words backend.new)
        ≡ Word.number h ∷ (digits_of (2 ^ Word.BITS) (State.number r) ++ map Word.number (B.words backend.old))) }
    ensures err { IfErr result (NotWritten Word.number B.Holds B.WriteWords.own
        (Word.number h ∷ digits_of (2 ^ Word.BITS) (State.number r)) backend.old) }
{
    let count = count_of_words::<Word, State>(r);
    match backend.prepare(count + 1) {
        Ok(()) => {}
        Err(error) => return Err(error),
    }
    match write_words(backend, r, count) {
        Ok(()) => {}
        Err((_, refusal)) => return Err(refusal),
    }
    match backend.write(h) {
        Ok(()) => Ok(()),
        Err(last) => Err(last),
    }
}
