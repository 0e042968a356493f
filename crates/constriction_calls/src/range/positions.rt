//! Placing a decoder at the first symbol or at a recorded position, and testing whether the symbols may have ended.

ghost use Rattle.std.specs.Prelude.{map};
ghost use Rattle.constriction_base.specs.Steps.{IsSizes};
ghost use Rattle.constriction_calls.specs.RangeCalls.{RangeBegins, RangeMayEnd, RangeSeeks};

use crate::range::parts::{DecoderParts, decoder_of, decoder_parts};
use constriction_base::cursor::Cursor;
use constriction_inputs::refusal::Refusal;
use constriction_queue::{RangeCoderState, RangeDecoder};
use constriction_stream::decoding::Decode;
use constriction_words::{BitArray, WordOf};

/// Returns a decoder of sealed words, positioned before the first symbol.
pub fn from_compressed<Word: WordOf<State>, State: BitArray>(words: &[Word]) -> DecoderParts<State>
    requires { IsSizes Word.BITS State.BITS }
    ensures call { RangeBegins Word.number State.number Word.BITS State.BITS words.now result }
{
    let cursor = Cursor::new_at_write_beginning(words);
    match RangeDecoder::<Word, State, Cursor<Word, &[Word]>>::with_backend(cursor) {
        Ok(decoder) => decoder_parts(decoder, words.len()),
        Err(never) => match never {},
    }
}

/// Sets `decoder` to a decoder of `words` at a position that was recorded during encoding.
///
/// `pos` is the number of words that the encoder had written at this position, plus the number of its pending words.
/// `lower` and `range` are the lower end and the length of the encoder's interval at this position.
///
/// # Errors
///
/// The call checks for errors in this order:
///
/// - `WrongLength` if `pos` is past the buffer's end.
/// - `InvalidData` if `range` is below `2^(State::BITS - Word::BITS)`.
pub fn seek<Word: WordOf<State>, State: BitArray>(
    decoder: &mut DecoderParts<State>,
    words: &[Word],
    pos: usize,
    lower: State,
    range: State,
) -> Result<(), Refusal>
    requires { IsSizes Word.BITS State.BITS }
    ensures call { RangeSeeks Word.number State.number Word.BITS State.BITS words.now pos lower range
        decoder.old decoder.new result }
{
    if pos > words.len() {
        return Err(Refusal::WrongLength);
    }
    if RangeCoderState::<Word, State>::new(lower, range).is_err() {
        return Err(Refusal::InvalidData);
    }
    let begun = from_compressed::<Word, State>(&words[pos..]);
    *decoder = DecoderParts {
        lower,
        range,
        point: begun.point,
        pos: pos + begun.pos,
    };
    Ok(())
}

/// Sets `maybe` to 1 if the encoded symbols may have ended at the decoder's position, and to 0 if not.
///
/// The symbols may have ended if and only if no word is left to read, and one of these conditions holds:
///
/// - `range` is `2^State::BITS - 1`, as in a decoder that has decoded no symbol.
/// - `point - lower`, modulo `2^State::BITS`, is below `2^(State::BITS - Word::BITS + 1) - 1`, as in a decoder that has
///   decoded all symbols of an encoder.
///
/// # Errors
///
/// The call returns the errors of [`crate::range`].
pub fn maybe_exhausted<Word: WordOf<State>, State: BitArray>(
    decoder: &DecoderParts<State>,
    words: &[Word],
    maybe: &mut u32,
) -> Result<(), Refusal>
    requires { IsSizes Word.BITS State.BITS }
    ensures call { RangeMayEnd State.number Word.BITS State.BITS (map Word.number words.now) decoder.now
        maybe.old maybe.new result }
{
    if decoder.pos > words.len() {
        return Err(Refusal::WrongLength);
    }
    let Some(reading) = decoder_of(words, *decoder) else {
        return Err(Refusal::InvalidData);
    };
    *maybe = u32::from(Decode::<1>::maybe_exhausted(&reading));
    Ok(())
}
