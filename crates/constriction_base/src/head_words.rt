//! Functions that move words between a coder's head and a backend.
//!
//! The head is the number on top of the coder's words. To export its compressed data, a coder writes the head's words
//! to the backend with [`append_words`]. To import compressed data, a coder reads words into the head with [`fill`].
//!
//! If the backend refuses a write, `append_words` returns how many words it wrote before that write. The stack coder's
//! guard needs this number to take the words off again, because generic code can't count the words on a backend.

ghost use Rattle.std.specs.Prelude.{IfErr, IfNone, IfOk, IfSome, Ok, ℕ, ◌+◌, ◌<◌};
ghost use Rattle.std.specs.Prelude.{true, ◌^◌, ◌≡◌, ◌≤◌};
ghost use Rattle.constriction_base.specs.Digits.{count_of_words};
ghost use Rattle.constriction_base.specs.Readings.{Fills};
ghost use Rattle.constriction_base.specs.Steps.{IsSizes};
ghost use Rattle.constriction_base.specs.Writing.{AppendsHead, IsOneAbove, LeavesBelow, RefusesHead, WritesHead};

use crate::backends::reading::{Holds, ReadWords};
use crate::backends::semantics::Stack;
use crate::backends::writing::WriteWords;
use constriction_words::{BitArray, WordOf};

/// Returns the number of words of `head`, not counting leading zero words.
///
/// The caller proves that the width of `State` is a whole number of words, at least two.
#[inline]
pub fn count_of_words<Word: WordOf<State>, State: BitArray>(head: State) -> usize
    requires { IsSizes Word.BITS State.BITS }
    ensures { result ≡ count_of_words Word.BITS (State.number head) }
{
    let mut count = 0;
    let mut rest = head;
    while !rest.is_nothing() {
        count += 1;
        rest = rest.shift_right(Word::BITS);
    }
    count
}

/// Returns the number of words that the bits of `head` below its highest set bit fill.
///
/// Returns `None` if these bits aren't a whole number of words, or if `head` is 0. The caller proves that the width of
/// `State` is a whole number of words, at least two.
pub fn words_below_one<Word: WordOf<State>, State: BitArray>(head: State) -> Option<usize>
    requires { IsSizes Word.BITS State.BITS }
    ensures value { IfSome result (λ m. IsOneAbove Word.BITS m (State.number head)) }
    ensures none { IfNone result ((m : ℕ) → IsOneAbove Word.BITS m (State.number head) → ⊥) }
{
    if head.is_nothing() {
        return None;
    }
    let bits = head.bit_length() - 1;
    if bits % Word::BITS != 0 {
        return None;
    }
    Some((bits / Word::BITS) as usize)
}

/// Writes the lowest `count` words of `head` to `bulk`, the lowest word first, without calling `prepare`.
///
/// The caller proves that the width of `State` is a whole number of words, at least two.
///
/// # Errors
///
/// Returns a pair: the number of words written before the refused write, and the error of that write. The words that
/// were written stay on the backend.
pub fn write_words<Word: WordOf<State>, State: BitArray, Backend: WriteWords<Word>>(
    bulk: &mut Backend,
    head: State,
    count: usize,
) -> Result<(), (usize, Backend::WriteError)>
    requires { IsSizes Word.BITS State.BITS }
    ensures written { WritesHead Word.number Backend.Holds Backend.WriteWords.own Word.BITS
        count (State.number head) bulk.old result bulk.new }
    ensures back { LeavesBelow Backend.Holds count bulk.old result bulk.new }
{
    let mut rest = head;
    let mut left = count;
    while left > 0 {
        match bulk.write(Word::narrow(rest)) {
            Ok(()) => {}
            Err(refusal) => return Err((count - left, refusal)),
        }
        rest = rest.shift_right(Word::BITS);
        left -= 1;
    }
    Ok(())
}

/// Asks for room for `count` words, and writes the lowest `count` words of `head` to `bulk`, the lowest word first.
///
/// If `count` is 0, the call doesn't use the backend. The caller proves that the width of `State` is a whole number of
/// words, at least two.
///
/// # Errors
///
/// Returns a pair: the number of words written, and the error of the refused `prepare` or write. The words that were
/// written stay on the backend. If `prepare` is refused, the number is 0.
pub fn append_words<Word: WordOf<State>, State: BitArray, Backend: WriteWords<Word>>(
    bulk: &mut Backend,
    head: State,
    count: usize,
) -> Result<(), (usize, Backend::WriteError)>
    requires { IsSizes Word.BITS State.BITS }
    ensures written { AppendsHead Word.number Backend.Holds Backend.WriteWords.own Word.BITS
        count (State.number head) bulk.old result bulk.new }
    ensures back { LeavesBelow Backend.Holds count bulk.old result bulk.new }
    // Words are written before an error only if a write was refused.
    ensures refused { IfErr result (λ refused. RefusesHead Word.number Backend.Holds Backend.WriteWords.own Word.BITS
        count (State.number head) bulk.old refused bulk.new) }
{
    if count == 0 {
        return Ok(());
    }
    match bulk.prepare(count) {
        Ok(()) => {}
        Err(error) => return Err((0, error)),
    }
    write_words(bulk, head, count)
}

/// Reads words from `bulk` into `head` until the head is at least `2 ^ bits` or no word is left.
///
/// Returns the new head, and whether it is at least `2 ^ bits`. For each word read, the call shifts the head up by one
/// word, and the word read becomes the head's lowest word. If `head` is at least `2 ^ bits`, the call reads no word.
/// The caller proves that `head` is above 0, and that `State` is wide enough for `bits` bits and one more word.
///
/// # Errors
///
/// Returns the error that the backend returned for a read. The words that the call read before this read are lost.
pub fn fill<Word: WordOf<State>, State: BitArray, Backend: ReadWords<Word, Stack>>(
    bulk: &mut Backend,
    head: State,
    bits: u32,
) -> Result<(State, bool), Backend::ReadError>
    requires some_bits { 1 ≤ Word.BITS }
    requires within { bits + Word.BITS ≤ State.BITS }
    requires some { 0 < State.number head }
    ensures moves { Fills Word.number State.number Backend.Holds Backend.ReadWords.own Word.BITS (2 ^ bits) head
        bulk.old result bulk.new }
    ensures below { State.number head < 2 ^ (bits + Word.BITS)
        → IfOk result (λ found. State.number found.0 < 2 ^ (bits + Word.BITS)) }
    ensures untouched { 2 ^ bits ≤ State.number head → (result ≡ Ok (head, true)) × (bulk.new ≡ bulk.old) }
{
    let mut full = head;
    while full.shift_right(bits).is_nothing() {
        match bulk.read() {
            Ok(Some(word)) => full = full.shift_left(Word::BITS).plus(word.widen()),
            Ok(None) => return Ok((full, false)),
            Err(error) => return Err(error),
        }
    }
    Ok((full, true))
}
