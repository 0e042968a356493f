//! Writing words to a backend.
//!
//! Most steps write at most one word. [`write_step`] is inlined, with the code for a step that releases at most one
//! pending word. If a step releases several pending words, `write_step` calls [`flush_words`], which isn't inlined. So
//! an encode usually makes no call, except when a vector grows.

ghost use Rattle.std.specs.Prelude.{◌≡◌, ◌+◌, ◌<◌, ◌≤◌, ◌^◌, ◌++◌, ◌∷◌, ◌⊎◌, [], None, Some, length, IfErr};
ghost use Rattle.constriction_base.specs.Writing.{Appends, WritesAll};
ghost use Rattle.constriction_queue.specs.Encoder.{released_of, word_of, flushed_of};

use crate::situation::ReleasedWords;
use constriction_base::backends::{Holds, Stack, WriteWords};
use constriction_words::BitArray;

/// Writes the words of `held`.
fn write_run<Word: BitArray, Backend: WriteWords<Word>>(
    bulk: &mut Backend,
    held: ReleasedWords<Word>,
) -> Result<(), Backend::WriteError>
    ensures { WritesAll Word.number Backend.Holds Backend.WriteWords.own
        (released_of Word.number (Some held)) bulk.old result bulk.new }
{
    bulk.write(held.first)?;
    for i in 1..held.count.get() {
        bulk.write(held.others)?;
    }
    Ok(())
}

/// Writes the words of `held`, if there are any.
fn write_released<Word: BitArray, Backend: WriteWords<Word>>(
    bulk: &mut Backend,
    held: Option<ReleasedWords<Word>>,
) -> Result<(), Backend::WriteError>
    ensures { WritesAll Word.number Backend.Holds Backend.WriteWords.own
        (released_of Word.number held) bulk.old result bulk.new }
{
    match held {
        Some(held) => write_run(bulk, held),
        None => Ok(()),
    }
}

/// Writes `word`, if there is one.
#[inline]
fn write_word<Word: BitArray, Backend: WriteWords<Word>>(
    bulk: &mut Backend,
    word: Option<Word>,
) -> Result<(), Backend::WriteError>
    ensures { WritesAll Word.number Backend.Holds Backend.WriteWords.own
        (word_of Word.number word) bulk.old result bulk.new }
{
    match word {
        Some(word) => bulk.write(word),
        None => Ok(()),
    }
}

/// Returns the number of words of `held`.
#[inline]
fn released_count<Word: BitArray>(held: &Option<ReleasedWords<Word>>) -> usize
    ensures { result ≡ length (released_of Word.number held.now) }
{
    match held {
        Some(held) => held.count.get(),
        None => 0,
    }
}

/// Returns 1 if there is a word, and otherwise 0.
#[inline]
fn count_in<Word: BitArray>(word: &Option<Word>) -> usize
    ensures count { result ≡ length (word_of Word.number word.now) }
    ensures few { result ≤ 1 }
{
    match word {
        Some(_) => 1,
        None => 0,
    }
}

/// Returns the number of words of `held`, `top` and `last` together.
#[inline]
pub fn flushed_count<Word: BitArray>(
    held: &Option<ReleasedWords<Word>>,
    top: &Option<Word>,
    last: &Option<Word>,
) -> usize
    requires { length (released_of Word.number held.now) + 2 < 2 ^ 64 }
    ensures { result ≡ length (flushed_of Word.number held.now top.now last.now) }
{
    released_count(held) + count_in(top) + count_in(last)
}

/// Writes the words of `held`, then `top`, then `last`, then the words of `behind`. Skips each `None`.
///
/// If there is any word to write, the call first asks for room for all of them. If the backend refuses room or a write,
/// the call returns the backend's error. Most steps don't call this function, so it isn't inlined.
#[cold]
#[inline(never)]
pub fn flush_words<Word: BitArray, Backend: WriteWords<Word>>(
    bulk: &mut Backend,
    held: Option<ReleasedWords<Word>>,
    top: Option<Word>,
    last: Option<Word>,
    behind: Option<ReleasedWords<Word>>,
) -> Result<(), Backend::WriteError>
    requires { length (released_of Word.number held) + 2 + length (released_of Word.number behind) < 2 ^ 64 }
    ensures { Appends Word.number Backend.Holds Backend.WriteWords.own
        (released_of Word.number behind ++ flushed_of Word.number held top last) bulk.old result bulk.new }
{
    let count = flushed_count(&held, &top, &last) + released_count(&behind);
    if count == 0 {
        return Ok(());
    }
    bulk.prepare(count)?;
    write_released(bulk, held)?;
    write_word(bulk, top)?;
    write_word(bulk, last)?;
    write_released(bulk, behind)
}

/// Writes the words of `held`, then `top` if there is one, after asking for room for all words to write.
///
/// Most steps don't call this function, so it isn't inlined. It has no argument that a step would have to store in
/// memory first. If the backend refuses room or a write, the call returns the backend's error.
#[cold]
#[inline(never)]
fn flush_released<Word: BitArray, Backend: WriteWords<Word>>(
    bulk: &mut Backend,
    held: ReleasedWords<Word>,
    top: Option<Word>,
) -> Result<(), Backend::WriteError>
    requires { length (released_of Word.number (Some held)) + 2 < 2 ^ 64 }
    ensures { Appends Word.number Backend.Holds Backend.WriteWords.own
        (flushed_of Word.number (Some held) top None) bulk.old result bulk.new }
{
    flush_words(bulk, Some(held), top, None, None)
}

/// Writes `first`, then `second` if there is one, after asking for room for all words to write.
#[inline(always)]
fn write_two<Word: BitArray, Backend: WriteWords<Word>>(
    bulk: &mut Backend,
    first: Word,
    second: Option<Word>,
) -> Result<(), Backend::WriteError>
    ensures written { Appends Word.number Backend.Holds Backend.WriteWords.own
        (word_of Word.number second ++ (Word.number first ∷ [])) bulk.old result bulk.new }
    ensures one { second ≡ None → IfErr result (λ e. Backend.prepare_fails bulk.old 1 e
        ⊎ ((Backend.makes_room → ⊥) × Backend.write_fails bulk.old e)) }
{
    let Some(second) = second else {
        bulk.prepare(1)?;
        return bulk.write(first);
    };
    bulk.prepare(2)?;
    bulk.write(first)?;
    bulk.write(second)
}

/// Writes the words of a step: the words of `held`, then `top`. Skips each argument that is `None`.
///
/// If there is any word to write, the call first asks for room for all of them. `held` contains the pending words that
/// no later carry can change. If `held` is `None`, the call writes at most one word. If the backend refuses room or a
/// write, the call returns the backend's error.
#[inline(always)]
pub fn write_step<Word: BitArray, Backend: WriteWords<Word>>(
    bulk: &mut Backend,
    held: Option<ReleasedWords<Word>>,
    top: Option<Word>,
) -> Result<(), Backend::WriteError>
    requires { length (released_of Word.number held) + 2 < 2 ^ 64 }
    ensures written { Appends Word.number Backend.Holds Backend.WriteWords.own
        (flushed_of Word.number held top None) bulk.old result bulk.new }
    ensures one { held ≡ None → IfErr result (λ e. Backend.prepare_fails bulk.old 1 e
        ⊎ ((Backend.makes_room → ⊥) × Backend.write_fails bulk.old e)) }
{
    let Some(held) = held else {
        let Some(word) = top else {
            return Ok(());
        };
        return write_two(bulk, word, None);
    };
    if held.count.get() == 1 {
        return write_two(bulk, held.first, top);
    }
    flush_released(bulk, held, top)
}
