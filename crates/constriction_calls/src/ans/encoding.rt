//! Encoding items onto a state that the caller keeps.
//!
//! The calls encode a list from the last item to the first, so that decoding returns the symbols in the list's order.

ghost use Rattle.std.specs.Prelude.{◌≡◌, ◌≤◌, length, take, IfSome};
ghost use Rattle.constriction_base.specs.Steps.{IsSizes};
ghost use Rattle.constriction_calls.specs.AnsCalls.{AnsEncodesListBy, CodesAlone};

use crate::finishing::finish_encoding;
use constriction_inputs::items::{ItemList, Items};
use constriction_inputs::refusal::Refusal;
use constriction_stack::coder::AnsCoder;
use constriction_stack::lanes::steps::encode_onto;
use constriction_words::{BitArray, WordOf};
use std::alloc::Global;

/// Encodes items from the last to the first: symbols with their models, or intervals.
///
/// The state is `head` and the first `len` words of `words`. The call writes new words after these, and sets `head` and
/// `len` to the state after the encodes.
///
/// # Errors
///
/// The call returns each error that [`crate::ans`] lists, except `InvalidData`.
pub fn encode_reverse<
    Word: WordOf<State>,
    State: BitArray,
    P: WordOf<Word>,
    I: Items<P, PRECISION>,
    const PRECISION: usize,
>(
    alloc: Global,
    head: &mut State,
    words: &mut [Word],
    len: &mut usize,
    items: &I,
) -> Result<(), Refusal>
    requires sizes { IsSizes Word.BITS State.BITS }
    requires precision { (1 ≤ PRECISION) × (PRECISION ≤ P.BITS) }
    ensures call { AnsEncodesListBy Word.Natural State.Natural PRECISION (I.coded items.now)
        head.old words.old len.old head.new words.new len.new result }
{
    if *len > words.len() {
        return Err(Refusal::WrongLength);
    }
    items.check()?;
    if let Some(mut list) = items.list(alloc, true) {
        // The proof that a word fits in memory takes a bound on its size.
        let word = Word::nothing();
        if size_of_val(&word) <= 64 && list.count() == 1 {
            let (mut room, mut new_head) = ([word], *head);
            if let Some(added) = encode_single_item(&mut new_head, &mut room, &mut list) {
                return finish_encoding(added, new_head, head, words, len);
            }
        } else if let Some((added, new_head)) = encode_items(alloc, *head, &mut list) {
            return finish_encoding(&added, new_head, head, words, len);
        }
    }
    if items.know() {
        Err(Refusal::NoMemory)
    } else {
        Err(Refusal::ImpossibleSymbol)
    }
}

/// Encodes items from the last to the first, onto a state of `head` and no words.
///
/// Returns the words that the encodes write, and the new head. Returns `None` if a model has no entry for its symbol,
/// or if there is no memory. An item writes at most one word. So a call that doesn't look ahead asks for memory for one
/// word for each item, once.
#[inline]
fn encode_items<
    Word: WordOf<State>,
    State: BitArray,
    P: WordOf<Word>,
    L: ItemList<P, PRECISION>,
    const PRECISION: usize,
>(alloc: Global, head: State, list: &mut L) -> Option<(Vec<Word>, State)>
    requires { IsSizes Word.BITS State.BITS }
    ensures { IfSome result (λ made. CodesAlone Word.number State.number Word.BITS State.BITS
        (L.list_items list.old) head made.0.items made.1) }
{
    if L::LOOKS_AHEAD {
        return encode_ahead::<Word, State, P, L, PRECISION>(alloc, head, list);
    }
    let Ok(mut words) = vec![in alloc; Word::nothing(); list.count()] else {
        return None;
    };
    let room = words.as_mut_slice();
    let made = encode_into::<Word, State, P, L, PRECISION>(head, room, list)?;
    let (new_head, len) = made;
    words.truncate(len);
    Some((words, new_head))
}

/// Encodes a single item onto a state of `head` and no words, with `room` for the word that the encode may write.
///
/// Sets `head` to the new head, and returns the words that the encode writes. Returns `None` if the model has no entry
/// for the symbol, or if `room` is empty. The call needs no memory.
#[inline(always)]
fn encode_single_item<
    'a,
    Word: WordOf<State>,
    State: BitArray,
    P: WordOf<Word>,
    L: ItemList<P, PRECISION>,
    const PRECISION: usize,
>(head: &mut State, room: &'a mut [Word], list: &mut L) -> Option<&'a [Word]>
    requires sizes { IsSizes Word.BITS State.BITS }
    requires one { length (L.list_items list.now) ≡ 1 }
    ensures { IfSome result (λ added. CodesAlone Word.number State.number Word.BITS State.BITS
        (L.list_items list.old) head.old added.now head.new) }
{
    if room.is_empty() {
        return None;
    }
    let found = list.interval(0)?;
    let (left, p, reciprocal) = found;
    let (begin, length) = (left.widen().widen(), P::from_nonzero(p).widen().widen());
    let bits = PRECISION as u32;
    let (new_head, count) = encode_onto::<Word, State>(
        *head, room, 0, begin, length, reciprocal, bits,
    );
    *head = new_head;
    Some(&room[..count])
}

/// Encodes all items of `list` from the last to the first, onto the head `head` and no words.
///
/// The call writes the words from the beginning of `room` on. Returns the new head and the number of these words, or
/// `None` if a model has no entry for its symbol. The caller proves that `room` has a word for each item.
///
/// Each step writes the next word in any case, and then selects whether it counts. So no branch of the loop depends on
/// the head. The function isn't inlined, so that its loop keeps the coder in registers.
#[inline(never)]
fn encode_into<
    Word: WordOf<State>,
    State: BitArray,
    P: WordOf<Word>,
    L: ItemList<P, PRECISION>,
    const PRECISION: usize,
>(head: State, room: &mut [Word], list: &mut L) -> Option<(State, usize)>
    requires sizes { IsSizes Word.BITS State.BITS }
    requires room { length room.now ≡ length (L.list_items list.now) }
    ensures { IfSome result (λ made. CodesAlone Word.number State.number Word.BITS State.BITS
        (L.list_items list.old) head (take made.1 room.new) made.0) }
{
    let (mut top, mut len) = (head, 0);
    let mut rest = room.len();
    while rest > 0 {
        let found = list.interval(rest - 1)?;
        let (left, p, reciprocal) = found;
        let (begin, length) = (left.widen().widen(), P::from_nonzero(p).widen().widen());
        let bits = PRECISION as u32;
        let (next, more) = encode_onto::<Word, State>(
            top, room, len, begin, length, reciprocal, bits,
        );
        top = next;
        len = more;
        rest -= 1;
    }
    Some((top, len))
}

/// Encodes as [`encode_items`] does, and finds the interval of an item before the step of the item behind it.
///
/// So the processor can look up one symbol while it divides by the weight of another. The function isn't inlined, so
/// that its loop keeps the coder in registers.
#[inline(never)]
fn encode_ahead<
    Word: WordOf<State>,
    State: BitArray,
    P: WordOf<Word>,
    L: ItemList<P, PRECISION>,
    const PRECISION: usize,
>(alloc: Global, head: State, list: &mut L) -> Option<(Vec<Word>, State)>
    requires { IsSizes Word.BITS State.BITS }
    ensures { IfSome result (λ made. CodesAlone Word.number State.number Word.BITS State.BITS
        (L.list_items list.old) head made.0.items made.1) }
{
    let mut coder = AnsCoder::<Word, State, Vec<Word>>::from_raw_parts(Vec::new(alloc), head);
    let mut rest = list.count();
    if rest == 0 {
        return Some(coder.into_raw_parts());
    }
    let mut found = list.interval(rest - 1)?;
    while rest > 1 {
        let next = list.interval(rest - 2)?;
        let (left, p, reciprocal) = found;
        match coder.encode_interval::<P, PRECISION>(left, p, reciprocal) {
            Ok(()) => {}
            Err(_) => return None,
        }
        found = next;
        rest -= 1;
    }
    let (left, p, reciprocal) = found;
    match coder.encode_interval::<P, PRECISION>(left, p, reciprocal) {
        Ok(()) => Some(coder.into_raw_parts()),
        Err(_) => None,
    }
}
