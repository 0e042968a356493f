//! Importing chain coders from a caller's words, and exporting the words of chain coders.
ghost use Rattle.constriction_chain.specs.Chain.{IsSized};
ghost use Rattle.constriction_chain.specs.Fits.{CoderFits};
ghost use Rattle.constriction_calls.specs.ChainWords.{ChainBeginsBy, ChainEndsBy};

use crate::chain::decoding::Taking;
use crate::chain::{ChainHeads, Form, keep};
use constriction_base::cursor::Cursor;
use constriction_base::errors::CoderError;
use constriction_chain::{ChainCoder, ChainCoderHeads};
use constriction_inputs::buffers::append;
use constriction_inputs::refusal::Refusal;
use constriction_words::{BitArray, WordOf};
use std::alloc::Global;

/// Imports a coder from words in a form. The coder has no words below the other head.
///
/// The call sets `heads`, and sets `len` to the number of words that stay in `words`, below the head of their kind:
///
/// - `InCompressed`: the last words become the remainders head. The compressed head becomes 1, so it has no bits left
///   over.
/// - `InBinary`: the last words become the remainders head, below a leading 1. The compressed head becomes 1.
/// - `InRemainders`: the last word becomes the compressed head, and the words before it become the remainders head.
///
/// # Errors
///
/// The call returns `InvalidData` in exactly these cases:
///
/// - There are too few words to fill the heads.
/// - `InCompressed`: the last word is 0.
/// - `InRemainders`: one of the last two words is 0.
pub fn from_words<Word: WordOf<State>, State: BitArray, const PRECISION: usize>(
    alloc: Global,
    form: Form,
    words: &[Word],
    heads: &mut ChainHeads<Word, State>,
    len: &mut usize,
) -> Result<(), Refusal>
    requires sized { IsSized Word.BITS State.BITS PRECISION }
    requires fits { CoderFits Word.row State.row }
    ensures call { ChainBeginsBy Word.Natural State.Natural PRECISION form words.now
        heads.old len.old heads.new len.new result }
{
    let lent = Cursor::new_at_write_end(words);
    match form {
        Form::InCompressed => {
            match Taking::<'_, Word, State, PRECISION>::from_compressed(alloc, lent) {
                Ok(coder) => {
                    let (rest, _, both) = coder.into_raw_parts();
                    keep(rest, both, heads, len);
                    Ok(())
                }
                Err(_) => Err(Refusal::InvalidData),
            }
        }
        Form::InBinary => match Taking::<'_, Word, State, PRECISION>::from_binary(alloc, lent) {
            Ok(coder) => {
                let (rest, _, both) = coder.into_raw_parts();
                keep(rest, both, heads, len);
                Ok(())
            }
            Err(_) => Err(Refusal::InvalidData),
        },
        Form::InRemainders => {
            match ChainCoder::<Word, State, Vec<Word>, _, PRECISION>::from_remainders(alloc, lent) {
                Ok(coder) => {
                    let (_, rest, both) = coder.into_raw_parts();
                    keep(rest, both, heads, len);
                    Ok(())
                }
                Err(_) => Err(Refusal::InvalidData),
            }
        }
    }
}

/// Exports a coder's words in a form: writes the words of its heads after the first `len` words of `words`.
///
/// The call increases `len` by the number of words that it writes. [`from_words`] imports the first `len` words. The
/// call doesn't use the words below the other head.
///
/// # Errors
///
/// The call returns the first of these errors that applies, but it may return `NoMemory` in place of `NoSpace`:
///
/// - `WrongLength`: `len` is past the buffer's end.
/// - `InvalidData` in one of these cases:
///   - `heads` aren't the heads of any coder.
///   - `InCompressed`, `InBinary`: the compressed head isn't 1, so it has bits left over.
///   - `InBinary`: the number of bits below the remainders head's leading 1 isn't a multiple of `Word::BITS`.
/// - `NoSpace(needed)`: the buffer is too short. `needed` is the number of words that the buffer has to hold.
/// - `NoMemory`: there is no memory.
pub fn into_words<Word: WordOf<State>, State: BitArray, const PRECISION: usize>(
    alloc: Global,
    form: Form,
    heads: &ChainHeads<Word, State>,
    words: &mut [Word],
    len: &mut usize,
) -> Result<(), Refusal>
    requires sized { IsSized Word.BITS State.BITS PRECISION }
    requires fits { CoderFits Word.row State.row }
    ensures call { ChainEndsBy Word.Natural State.Natural PRECISION form heads.now
        words.old len.old words.new len.new result }
{
    if *len > words.len() {
        return Err(Refusal::WrongLength);
    }
    let Some(both) = ChainCoderHeads::new(heads.compressed, heads.remainders) else {
        return Err(Refusal::InvalidData);
    };
    let coder: ChainCoder<Word, State, Vec<Word>, Vec<Word>, PRECISION> =
        ChainCoder::from_raw_parts(Vec::new(alloc), Vec::new(alloc), both);
    match form {
        Form::InCompressed => match coder.into_compressed() {
            Ok((_, added)) => append(&added, words, len),
            Err(CoderError::Frontend(_)) => Err(Refusal::InvalidData),
            Err(CoderError::Backend(_)) => Err(Refusal::NoMemory),
        },
        Form::InBinary => match coder.into_binary() {
            Ok((_, added)) => append(&added, words, len),
            Err(CoderError::Frontend(_)) => Err(Refusal::InvalidData),
            Err(CoderError::Backend(_)) => Err(Refusal::NoMemory),
        },
        Form::InRemainders => match coder.into_remainders() {
            Ok((_, added)) => append(&added, words, len),
            Err(_) => Err(Refusal::NoMemory),
        },
    }
}
