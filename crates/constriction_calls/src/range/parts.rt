//! The numbers of a range coder that a caller keeps between two calls.

ghost use Rattle.std.specs.Prelude.{◌≡◌, ◌↔◌, ◌≤◌, ◌-◌, [], length, map, IfSome, IsSome};
ghost use Rattle.constriction_base.specs.Steps.{IsSizes};
ghost use Rattle.constriction_queue.specs.Encoder.{left_to_encode, run_by};
ghost use Rattle.constriction_calls.specs.RangeCalls.{CanEncode, ValidDecoder, ValidEncoder, IsRead};
ghost use Rattle.constriction_calls.specs.RangeCalls.{run_of_parts, run_over};

use constriction_base::backends::{Holds, Seek, Stack};
use constriction_base::cursor::Cursor;
use constriction_queue::{EncoderSituation, RangeCoderState, RangeDecoder, RangeEncoder};
use constriction_words::{BitArray, WordOf};
use std::num::NonZeroUsize;

/// A range encoder between two calls: its interval and its pending words.
///
/// `lower` is the lower end of the interval, modulo `2^State::BITS`, and `range` is the interval's length. The encoder
/// has `held` pending words. The first of them is `first`, and in every later one all bits are 1. Without pending
/// words, `first` is 0. The words that the encoder wrote are in the caller's buffer.
///
/// # Examples
///
/// ```
/// let mut encoder = EncoderParts { lower: 0u64, range: u64::MAX, held: 0, first: 0u32 }; // no symbols yet
/// let items = Symbols { models, symbols: &[1usize, 0] };
/// encode::<_, _, u32, _, 24>(alloc, &mut encoder, &mut words, &mut len, &items)?;
/// into_compressed(alloc, &encoder, &mut words, &mut len)?;
/// ```
#[derive(Debug, Drop, Clone, Copy)]
#[repr(C)]
pub struct EncoderParts<Word, State> {
    pub lower: State,
    pub range: State,
    pub held: usize,
    pub first: Word,
}

/// A range decoder between two calls: its interval, its point and its position.
///
/// `lower` is the lower end of the interval, modulo `2^State::BITS`, and `range` is the interval's length. `point` is
/// the number made of the last `State::BITS / Word::BITS` words that the decoder read. Past the end of the buffer, each
/// word that the decoder reads is 0. `pos` is the number of words that the decoder read from the buffer.
///
/// # Examples
///
/// ```
/// let mut decoder: DecoderParts<u64> = from_compressed(&words[..len]);
/// decode::<_, _, u32, _, 24>(alloc, &mut decoder, &words[..len], &models, &mut symbols)?; // symbols is [1, 0]
/// ```
#[derive(Debug, Drop, Clone, Copy)]
#[repr(C)]
pub struct DecoderParts<State> {
    pub lower: State,
    pub range: State,
    pub point: State,
    pub pos: usize,
}

/// Creates an encoder over an empty backend from `parts`. The call needs no memory.
///
/// The encoder can encode at least `count` symbols. Returns `None` in exactly two cases: no encoder can have the values
/// in `parts`, or `parts.held + count` is above `2^64 - 18`.
#[inline]
pub(crate) fn encoder_over<
    Word: WordOf<State>,
    State: BitArray,
    Backend: Holds<Word, Stack> + Drop,
>(
    bulk: Backend,
    parts: EncoderParts<Word, State>,
    count: usize,
) -> Option<RangeEncoder<Word, State, Backend>>
    requires sizes { IsSizes Word.BITS State.BITS }
    requires empty { Backend.words bulk ≡ [] }
    ensures run { IfSome result (λ encoder. run_by Word.BITS State.BITS encoder
        ≡ run_of_parts Word.number State.number Word.BITS State.BITS parts []) }
    ensures left { IfSome result (λ encoder. count ≤ left_to_encode encoder) }
    ensures variant { IsSome result ↔ CanEncode Word.number State.number Word.BITS State.BITS parts count }
{
    let Ok(state) = RangeCoderState::new(parts.lower, parts.range) else {
        return None;
    };
    let situation = match NonZeroUsize::new(parts.held) {
        Some(count) => EncoderSituation::Inverted(count, parts.first),
        None if parts.first.is_nothing() => EncoderSituation::Normal,
        None => return None,
    };
    if !RangeEncoder::<Word, State, Backend>::parts_fit(state, situation) {
        return None;
    }
    if count > usize::MAX - 17 - parts.held {
        return None;
    }
    Some(RangeEncoder::from_raw_parts(bulk, state, situation))
}

/// Splits an encoder into its backend and its [`EncoderParts`].
#[inline]
pub(crate) fn parts_over<Word: WordOf<State>, State: BitArray, Backend: Holds<Word, Stack>>(
    encoder: RangeEncoder<Word, State, Backend>,
) -> (Backend, EncoderParts<Word, State>)
    ensures run { run_by Word.BITS State.BITS encoder
        ≡ run_over Word.number State.number Word.BITS State.BITS result.1 (Backend.words result.0) }
    ensures coder { ValidEncoder Word.number State.number Word.BITS State.BITS result.1 }
{
    let (words, state, situation) = encoder.into_raw_parts();
    let (held, first) = match situation {
        EncoderSituation::Normal => (0, Word::nothing()),
        EncoderSituation::Inverted(count, first) => (count.get(), first),
    };
    let parts = EncoderParts {
        lower: state.lower(),
        range: State::from_nonzero(state.range()),
        held,
        first,
    };
    (words, parts)
}

/// A range decoder that reads borrowed words.
pub type Reading<'a, Word, State> = RangeDecoder<Word, State, Cursor<Word, &'a [Word]>>;

/// Creates a decoder from `parts`. The decoder next reads the word of `words` at the position `parts.pos`.
///
/// Returns `None` in exactly two cases: the interval is shorter than `2^(State::BITS - Word::BITS)`, or the point isn't
/// in the interval. The caller proves that the position isn't past the end of `words`.
pub fn decoder_of<'a, Word: WordOf<State>, State: BitArray>(
    words: &'a [Word],
    parts: DecoderParts<State>,
) -> Option<Reading<'a, Word, State>>
    requires sizes { IsSizes Word.BITS State.BITS }
    requires within { parts.pos ≤ length words.now }
    ensures read { IfSome result (λ decoder. IsRead State.number (map Word.number words.now) parts decoder) }
    ensures cursor { IfSome result (λ decoder. (decoder.bulk.pos ≡ parts.pos) × (decoder.bulk.buf.now ≡ words.now)) }
    ensures variant { IsSome result ↔ ValidDecoder State.number Word.BITS State.BITS parts }
{
    let Ok(state) = RangeCoderState::<Word, State>::new(parts.lower, parts.range) else {
        return None;
    };
    let mut cursor = Cursor::new_at_write_beginning(words);
    let Ok(()) = cursor.seek(parts.pos) else {
        return None;
    };
    match RangeDecoder::from_raw_parts(cursor, state, parts.point) {
        Ok(decoder) => Some(decoder),
        Err(_) => None,
    }
}

/// Returns the [`DecoderParts`] of a decoder.
///
/// `count` is the length of the decoder's buffer in words.
pub fn decoder_parts<'a, Word: WordOf<State>, State: BitArray>(
    decoder: Reading<'a, Word, State>,
    count: usize,
) -> DecoderParts<State>
    ensures lower { State.number result.lower ≡ decoder.entry.lower }
    ensures range { State.number result.range ≡ decoder.entry.range }
    ensures point { State.number result.point ≡ decoder.entry.point }
    ensures pos { result.pos ≡ count - length decoder.entry.words }
{
    let (bulk, state, point) = decoder.into_raw_parts();
    let (buffer, pos) = bulk.into_buf_and_pos();
    DecoderParts {
        lower: state.lower(),
        range: State::from_nonzero(state.range()),
        point,
        pos: count.saturating_sub(buffer.len() - pos),
    }
}
