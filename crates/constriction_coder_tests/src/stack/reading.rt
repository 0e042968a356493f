//! Heads, words and positions of coders as scripts write them, and an interpreter for coders that can decode and seek.

use crate::scripts::answers::{OTHER, ScriptWord, answer_if};
use crate::scripts::numbers::Number;
use crate::scripts::script::{Act, Script};
use crate::scripts::taking::take_each;
use constriction_base::backends::{
    BoundedReadWords, Holds, Pos, PosSeek, ReadWords, Seek, Stack, Words,
};
use constriction_base::cursor::Cursor;
use constriction_base::weights::WeightTable;
use constriction_stack::AnsCoder;
use constriction_stream::coder::Code;
use constriction_words::{BitArray, WordOf};
use std::alloc::Allocator;

/// A backend that lends the words of its stack, with the top word last.
pub trait Below<Word> {
    fn below(&self) -> &[Word];
}

impl<Word: BitArray, A: Allocator> Below<Word> for Vec<Word, A> {
    fn below(&self) -> &[Word] {
        self
    }
}

impl<'a, Word: BitArray + 'a> Below<Word> for Cursor<Word, &'a mut [Word]> {
    fn below(&self) -> &[Word] {
        let words: &[Word] = self.buf().words();
        let end = words
            .len()
            .min(BoundedReadWords::<Word, Stack>::remaining(self));
        &words[..end]
    }
}

/// Returns whether the coder's head equals the only number in `act.numbers`.
pub fn is_at_head<Word, State, Backend>(
    coder: &AnsCoder<Word, State, Backend>,
    act: &Act<'_>,
) -> bool
where
    Word: WordOf<State>,
    State: BitArray + Number,
    Backend: Holds<Word, Stack>,
{
    act.numbers == [coder.state().shown()].as_slice()
}

/// Returns the position that `act` gives, as a place and a head. Returns `None` if a number is missing.
fn place_of<State: Number>(act: &Act<'_>) -> Option<(usize, State)> {
    match (act.symbols.first(), act.numbers.get(1)) {
        (Some(place), Some(head)) => Some((*place, State::of(*head))),
        _ => None,
    }
}

/// Seeks to the place and the head of `act`. Returns the answer, which is `none` if the seek is refused.
pub fn seek<Word, State, Backend>(
    coder: &mut AnsCoder<Word, State, Backend>,
    act: &Act<'_>,
) -> &'static str
where
    Word: WordOf<State>,
    State: BitArray + Number,
    Backend: Holds<Word, Stack> + Seek + PosSeek<Position = usize>,
{
    match place_of(act) {
        Some(place) if coder.seek(place).is_ok() => "",
        Some(_) => "none",
        None => OTHER,
    }
}

/// Returns whether the coder's position is the place and the head of `act`.
pub fn stands_at<Word, State, Backend>(
    coder: &AnsCoder<Word, State, Backend>,
    act: &Act<'_>,
) -> bool
where
    Word: WordOf<State>,
    State: BitArray + Number,
    Backend: Holds<Word, Stack> + Pos + PosSeek<Position = usize>,
    requires { (backend : Backend) → Backend.can_tell backend }
{
    let (place, head) = coder.pos();
    act.symbols.first() == Some(&place) && act.numbers.get(1) == Some(&head.shown())
}

/// Runs an act with a coder that can only decode.
///
/// Returns the answer, a word of a script ([`crate::scripts::answers`]).
pub fn read_by<State, Backend>(
    coder: &mut AnsCoder<u8, State, Backend>,
    table: &WeightTable<u8, 8>,
    act: &Act<'_>,
) -> &'static str
where
    u8: WordOf<State>,
    State: BitArray + Number,
    Backend: ReadWords<u8, Stack>,
    Backend::ReadError: ScriptWord + Drop,
{
    match act.verb {
        "take" => take_each(coder, table, act.symbols),
        "head" => answer_if(is_at_head(coder, act)),
        _ => OTHER,
    }
}

/// Runs a script with a coder that can decode and seek, up to the first act with an unexpected answer.
///
/// Returns the text of this act, or `None` if every act has the expected answer.
pub fn follow_seeking<State, Backend>(
    coder: &mut AnsCoder<u8, State, Backend>,
    table: &WeightTable<u8, 8>,
    script: &Script,
) -> Option<&'static str>
where
    u8: WordOf<State>,
    State: BitArray + Number,
    Backend: ReadWords<u8, Stack> + Pos + Seek + PosSeek<Position = usize>,
    Backend::ReadError: ScriptWord + Drop,
    requires { (backend : Backend) → Backend.can_tell backend }
{
    for at in 0..script.len() {
        let act = script.act(at);
        let answer = match act.verb {
            "at" => answer_if(stands_at(coder, &act)),
            "seek" => seek(coder, &act),
            _ => read_by(coder, table, &act),
        };
        if answer != act.answer {
            return Some(act.text);
        }
    }
    None
}
