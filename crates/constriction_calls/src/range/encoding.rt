//! Encoding items after the words in a caller's buffer.

ghost use Rattle.std.specs.Prelude.{◌≤◌, [], length, IfSome};
ghost use Rattle.constriction_base.specs.Steps.{IsSizes};
ghost use Rattle.constriction_queue.specs.Encoder.{left_to_encode, run_by};
ghost use Rattle.constriction_inputs.specs.Coded as arguments;
ghost use Rattle.constriction_inputs.specs.Coded.{AreFit};
ghost use Rattle.constriction_calls.specs.RangeCalls.{CanEncode, Narrowed, RangeEncodesListBy, run_of_parts};

use crate::finishing::finish_encoding;
use crate::range::parts::{EncoderParts, encoder_over, parts_over};
use constriction_base::cursor::Cursor;
use constriction_inputs::items::{ItemList, Items};
use constriction_inputs::refusal::Refusal;
use constriction_queue::RangeEncoder;
use constriction_words::{BitArray, WordOf};
use std::alloc::Global;

/// Encodes items in order: symbols with their models, or intervals.
///
/// The call writes new words after the first `len` words of `buffer`, and adds the number of new words to `len`. It
/// sets `encoder` to the encoder after these items. For one item, the call needs no memory for the words if at most
/// one word is pending.
///
/// # Errors
///
/// The call first checks for the errors of [`crate::range`]. Then it can return these:
///
/// - `ImpossibleSymbol` if and only if a model has no entry for its symbol.
/// - `NoSpace(needed)` if the buffer is too short. `needed` is the number of words that the buffer has to hold. There
///   is one exception: if the first `len` words and the pending words alone don't fit the buffer, `needed` is the
///   number of these words. The call then asks for no memory.
/// - `NoMemory` if there is no memory.
pub fn encode<
    Word: WordOf<State>,
    State: BitArray,
    P: WordOf<Word>,
    I: Items<P, PRECISION>,
    const PRECISION: usize,
>(
    alloc: Global,
    encoder: &mut EncoderParts<Word, State>,
    buffer: &mut [Word],
    len: &mut usize,
    items: &I,
) -> Result<(), Refusal>
    requires sizes { IsSizes Word.BITS State.BITS }
    requires precision { (1 ≤ PRECISION) × (PRECISION ≤ P.BITS) }
    ensures call { RangeEncodesListBy Word.Natural State.Natural PRECISION (I.coded items.now) (I.item_count items.now)
        encoder.old buffer.old len.old encoder.new buffer.new len.new result }
{
    if *len > buffer.len() {
        return Err(Refusal::WrongLength);
    }
    items.check()?;
    // The proof that two words fit in memory takes a bound on the size of one.
    let word = Word::nothing();
    if size_of_val(&word) <= 64 && encoder.held <= buffer.len() - *len {
        let mut room = [word, word];
        if let Some((words, now)) = encode_single(alloc, &mut room, *encoder, items) {
            return finish_encoding(words, now, encoder, buffer, len);
        }
    }
    let mut kept = *encoder; // a copy, so that a caller's numbers can stay in registers
    let answer = encode_list::<Word, State, P, I, PRECISION>(alloc, &mut kept, buffer, len, items);
    *encoder = kept;
    answer
}

/// Encodes as [`encode`] does, after the checks of `len` and of `items`.
///
/// # Errors
///
/// The call returns the errors of [`encode`].
#[inline(never)]
fn encode_list<
    Word: WordOf<State>,
    State: BitArray,
    P: WordOf<Word>,
    I: Items<P, PRECISION>,
    const PRECISION: usize,
>(
    alloc: Global,
    encoder: &mut EncoderParts<Word, State>,
    buffer: &mut [Word],
    len: &mut usize,
    items: &I,
) -> Result<(), Refusal>
    requires sizes { IsSizes Word.BITS State.BITS }
    requires precision { (1 ≤ PRECISION) × (PRECISION ≤ P.BITS) }
    requires within { len.now ≤ length buffer.now }
    requires fit { AreFit PRECISION (I.coded items.now) }
    ensures call { RangeEncodesListBy Word.Natural State.Natural PRECISION (I.coded items.now) (I.item_count items.now)
        encoder.old buffer.old len.old encoder.new buffer.new len.new result }
{
    let Some(made) = encoder_over(Vec::new(alloc), *encoder, items.count()) else {
        return Err(Refusal::InvalidData);
    };
    let held = encoder.held;
    let is_room = held <= buffer.len() - *len;
    if is_room
        && let Some(mut list) = items.list(alloc, false)
        && let Some((words, now)) = encode_to_list(made, &mut list)
    {
        return finish_encoding(&words, now, encoder, buffer, len);
    }
    if !items.know() {
        return Err(Refusal::ImpossibleSymbol);
    }
    if is_room {
        Err(Refusal::NoMemory)
    } else {
        Err(Refusal::NoSpace(len.saturating_add(held)))
    }
}

/// Encodes items in order. Returns the words written and the encoder's numbers.
///
/// Returns `None` if a model has no entry for its symbol, or if there is no memory. The function isn't inlined, so that
/// its loop keeps the encoder in registers.
#[inline(never)]
fn encode_to_list<
    Word: WordOf<State>,
    State: BitArray,
    P: WordOf<Word>,
    L: ItemList<P, PRECISION>,
    const PRECISION: usize,
>(
    encoder: RangeEncoder<Word, State, Vec<Word>>,
    list: &mut L,
) -> Option<(Vec<Word>, EncoderParts<Word, State>)>
    requires { length (L.list_items list.now) ≤ left_to_encode encoder }
    ensures { IfSome result (λ made. Narrowed Word.number State.number Word.BITS State.BITS (L.list_items list.old)
        (run_by Word.BITS State.BITS encoder) made.0.items made.1) }
{
    let (words, state, situation) = encoder.into_raw_parts();
    let mut encoder = RangeEncoder::from_raw_parts(words, state, situation);
    for i in 0..list.count() {
        let found = list.interval(i)?;
        let (left, p, _) = found;
        match encoder.encode_interval::<P, PRECISION>(left, p) {
            Ok(()) => {}
            Err(_) => return None,
        }
    }
    Some(parts_over(encoder))
}

/// Encodes a single item, and writes its words to `room`. The call needs no memory for these words.
///
/// Returns the words written and the encoder's numbers. Returns `None` if there isn't exactly one item, if more than
/// one word is pending, if `room` is too short, if no encoder has the numbers `parts`, if the model has no entry for
/// the symbol, or if there is no memory for the model.
#[inline]
fn encode_single<
    'a,
    Word: WordOf<State>,
    State: BitArray,
    P: WordOf<Word>,
    I: Items<P, PRECISION>,
    const PRECISION: usize,
>(
    alloc: Global,
    room: &'a mut [Word],
    parts: EncoderParts<Word, State>,
    items: &I,
) -> Option<(&'a [Word], EncoderParts<Word, State>)>
    requires sizes { IsSizes Word.BITS State.BITS }
    requires precision { (1 ≤ PRECISION) × (PRECISION ≤ P.BITS) }
    requires fit { AreFit PRECISION (I.coded items.now) }
    ensures can { IfSome result
        (λ _. CanEncode Word.number State.number Word.BITS State.BITS parts (I.item_count items.now)) }
    ensures narrowed { IfSome result (λ made. Narrowed Word.number State.number Word.BITS State.BITS
        (arguments.items PRECISION (I.coded items.now))
        (run_of_parts Word.number State.number Word.BITS State.BITS parts []) made.0.now made.1) }
{
    if items.count() != 1 || parts.held > 1 {
        return None;
    }
    let mut encoder = encoder_over(Cursor::new_at_write_beginning(room), parts, 1)?;
    let mut list = items.list(alloc, false)?;
    let found = list.interval(0)?;
    let (left, p, _) = found;
    match encoder.encode_interval::<P, PRECISION>(left, p) {
        Ok(()) => {
            let (written, now) = parts_over(encoder);
            let (words, count) = written.into_buf_and_pos();
            Some((&words[..count], now))
        }
        Err(_) => None,
    }
}
