//! Exporting the words of a state that the caller keeps, and importing a state from words.

ghost use Rattle.std.specs.Prelude.{Ok};
ghost use Rattle.constriction_base.specs.Readings.{BeginsHigh};
ghost use Rattle.constriction_base.specs.Steps.{IsSizes};
ghost use Rattle.constriction_calls.specs.AnsCalls.{AnsExports, AnsImportsBy, coder_of};
ghost use Rattle.constriction_calls.specs.AnsCalls.{AreBinary, AreCompressed, HasBinary};
ghost use Rattle.constriction_stack.specs.Ans.{filled};
ghost use Rattle.constriction_stack.specs.Binary.{binary_state};

use constriction_base::cursor::Cursor;
use constriction_inputs::buffers::append;
use constriction_inputs::refusal::Refusal;
use constriction_stack::coder::AnsCoder;
use constriction_words::{BitArray, WordOf};
use std::alloc::Global;

/// Imports the state that [`into_compressed`] exports as `words`.
///
/// The call moves words into the head, starting with the last word, while the head is below
/// `2^(State::BITS - Word::BITS)`. It sets `head`, and sets `len` to the number of words that stay below the head.
///
/// # Errors
///
/// The call returns `InvalidData` if and only if the last word is 0.
pub fn from_compressed<Word: WordOf<State>, State: BitArray>(
    words: &[Word],
    len: &mut usize,
    head: &mut State,
) -> Result<(), Refusal>
    requires { IsSizes Word.BITS State.BITS }
    ensures { AnsImportsBy Word.Natural State.Natural (λ w s. filled w s 0) BeginsHigh
        words.now head.old len.old head.new len.new result }
{
    let Ok(coder) = AnsCoder::<Word, State, Cursor<Word, &[Word]>>::from_compressed_slice(words)
    else {
        return Err(Refusal::InvalidData);
    };
    let (below, new_head) = coder.into_raw_parts();
    *head = new_head;
    *len = below.into_buf_and_pos().1;
    Ok(())
}

/// Imports the state that [`into_binary`] exports as `words`. Every list of words is the binary form of a state.
///
/// The call starts with the head 1, and moves words into the head, starting with the last word, while the head is below
/// `2^(State::BITS - Word::BITS)`. It sets `head`, and sets `len` to the number of words that stay below the head.
pub fn from_binary<Word: WordOf<State>, State: BitArray>(
    words: &[Word],
    len: &mut usize,
    head: &mut State,
)
    requires { IsSizes Word.BITS State.BITS }
    ensures { AnsImportsBy Word.Natural State.Natural binary_state (λ all. Unit {0})
        words.now head.old len.old head.new len.new (Ok tt) }
{
    let coder = AnsCoder::<Word, State, Cursor<Word, &[Word]>>::from_binary_slice(words);
    let (cursor, new_head) = coder.into_raw_parts();
    *head = new_head;
    *len = cursor.into_buf_and_pos().1;
}

/// Exports the state: writes the words of the head, without leading zero words, after the first `len` words of `words`.
///
/// The call increases `len` by the number of words that it writes. The first `len` words are then the exported words.
///
/// # Errors
///
/// The call returns `WrongLength`, `NoSpace` or `NoMemory` in the cases that [`crate::ans`] lists.
pub fn into_compressed<Word: WordOf<State>, State: BitArray>(
    alloc: Global,
    head: State,
    words: &mut [Word],
    len: &mut usize,
) -> Result<(), Refusal>
    requires { IsSizes Word.BITS State.BITS }
    ensures { AnsExports Word.number State.number (AreCompressed Word.BITS) (λ state. Unit {0})
        (coder_of head words.old len.old) (coder_of head words.new len.new) result }
{
    if *len > words.len() {
        return Err(Refusal::WrongLength);
    }
    let coder: AnsCoder<Word, State, Vec<Word>> = AnsCoder::from_raw_parts(Vec::new(alloc), head);
    match coder.into_compressed() {
        Ok(added) => append(&added, words, len),
        Err(_) => Err(Refusal::NoMemory),
    }
}

/// Exports the binary form: writes the bits of the head below its leading 1 after the first `len` words of `words`.
///
/// The call increases `len` by the number of words that it writes. The first `len` words are then the exported words.
///
/// # Errors
///
/// The call returns the errors of [`into_compressed`]. It also returns `InvalidData` if the head is 0, or if the number
/// of bits below the head's leading 1 isn't a multiple of `Word::BITS`.
pub fn into_binary<Word: WordOf<State>, State: BitArray>(
    alloc: Global,
    head: State,
    words: &mut [Word],
    len: &mut usize,
) -> Result<(), Refusal>
    requires { IsSizes Word.BITS State.BITS }
    ensures { AnsExports Word.number State.number (AreBinary Word.BITS) (HasBinary Word.BITS)
        (coder_of head words.old len.old) (coder_of head words.new len.new) result }
{
    if *len > words.len() {
        return Err(Refusal::WrongLength);
    }
    let binary: AnsCoder<Word, State, Vec<Word>> = AnsCoder::from_raw_parts(Vec::new(alloc), head);
    match binary.into_binary() {
        Ok(added) => append(&added, words, len),
        Err(None) => Err(Refusal::InvalidData),
        Err(Some(_)) => Err(Refusal::NoMemory),
    }
}
