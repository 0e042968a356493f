//! Encoding a row of items onto each of many coders that the caller keeps.
//!
//! The calls encode each row from the last item to the first, so that decoding returns the symbols in the row's order.

ghost use Rattle.std.specs.Bool.{OnTrue};
ghost use Rattle.std.specs.Prelude.{◌≡◌, ◌*◌, ◌+◌, ◌<◌, ◌≤◌, ◌^◌, ℕ, drop, length, slice_index, take, IfErr, IfSome};
ghost use Rattle.std.specs.Prelude.{OnErr, OnOk};
ghost use Rattle.constriction_base.specs.Steps.{IsSizes, IsStep};
ghost use Rattle.constriction_inputs.specs.Refusals.{NoMemoryOrSpace};
ghost use Rattle.constriction_lanes.specs.LaneCalls.{AppendsRows, CodesRow, CodesRows, IsGreatestSum};
ghost use Rattle.constriction_lanes.specs.LaneCalls.{LanesEncodeListBy};
ghost use Rattle.constriction_stack.specs.Ans.{IsNormalized, IsPush};
ghost use Rattle.constriction_stack.specs.Lanes.{lane};
ghost use Rattle.constriction_words.specs.Reciprocals.{IsReciprocalOf};

use crate::rows::row_lengths;
use constriction_inputs::buffers::append;
use constriction_inputs::items::{ItemList, Items};
use constriction_inputs::refusal::Refusal;
use constriction_stack::lanes::steps::encode_onto;
use constriction_words::{BitArray, Reciprocal, WordOf};
use std::alloc::Global;

/// Encodes items onto each coder, from the last to the first: symbols with their models, or intervals.
///
/// With `n` coders, the items are `n` rows, one after another. Coder `j` is `heads[j]` and the first `lens[j]` words of
/// row `j` of `words`. The call encodes row `j` of the items onto coder `j`: it writes new words behind the words in
/// use, and sets `heads[j]` and `lens[j]` to the state after the encodes.
///
/// The call makes the list of the items once for all coders, such as a table of weights. It collects the new words of
/// all coders before it writes the first of them.
///
/// # Errors
///
/// The call returns each error that [the crate](crate) lists.
pub fn encode_reverse<
    Word: WordOf<State>,
    State: BitArray,
    P: WordOf<Word>,
    I: Items<P, PRECISION>,
    const PRECISION: usize,
>(
    alloc: Global,
    heads: &mut [State],
    words: &mut [Word],
    lens: &mut [usize],
    items: &I,
) -> Result<(), Refusal>
    requires sizes { IsSizes Word.BITS State.BITS }
    requires precision { (1 ≤ PRECISION) × (PRECISION ≤ P.BITS) }
    ensures call { LanesEncodeListBy Word.Natural State.Natural PRECISION (I.item_count items.now)
        (I.coded items.now) heads.old words.old lens.old heads.new words.new lens.new result }
{
    let Some((width, count)) = row_lengths(heads.len(), words.len(), lens, items.count()) else {
        return Err(Refusal::WrongLength);
    };
    items.check()?;
    if let Some(mut list) = items.list(alloc, true)
        && let Some((new_heads, added, counts)) = coded::<Word, State, P, I::List, PRECISION>(
            alloc, heads, &mut list, count,
        )
    {
        return put(
            heads, words, width, lens, &new_heads, &added, count, &counts,
        );
    }
    if items.know() {
        Err(Refusal::NoMemory)
    } else {
        Err(Refusal::ImpossibleSymbol)
    }
}

/// Encodes the items of `list` from the last to the first, each row onto its head and no words.
///
/// Returns the new heads, a matrix with a row of `count` words for each coder, and the number of words of each row that
/// the encodes wrote. Returns `None` if a model has no entry for its symbol, or if there is no memory. The caller
/// proves that the list has a row of `count` items for each head.
fn coded<
    Word: WordOf<State>,
    State: BitArray,
    P: WordOf<Word>,
    L: ItemList<P, PRECISION>,
    const PRECISION: usize,
>(
    alloc: Global,
    heads: &[State],
    list: &mut L,
    count: usize,
) -> Option<(Vec<State>, Vec<Word>, Vec<usize>)>
    requires sizes { IsSizes Word.BITS State.BITS }
    requires precision { (1 ≤ PRECISION) × (PRECISION ≤ P.BITS) }
    requires items { length (L.list_items list.now) ≡ length heads.now * count }
    ensures coded { IfSome result (λ made. CodesRows Word.number State.number Word.BITS State.BITS
        (L.list_items list.old) count heads.now made.0.items made.1.items made.2.items (length heads.now)) }
    ensures lengths { IfSome result (λ made. (length made.0.items ≡ length heads.now)
        × (length made.1.items ≡ length heads.now * count) × (length made.2.items ≡ length heads.now)) }
{
    let Ok(mut new_heads) = Vec::from_slice(alloc, heads) else {
        return None;
    };
    let Ok(mut words) = vec![in alloc; Word::nothing(); list.count()] else {
        return None;
    };
    let Ok(mut lens) = vec![in alloc; 0usize; heads.len()] else {
        return None;
    };
    let (all, room, written) = (
        new_heads.as_mut_slice(),
        words.as_mut_slice(),
        lens.as_mut_slice(),
    );
    if encode_rows::<_, _, P, L, PRECISION>(all, room, written, list, count) {
        Some((new_heads, words, lens))
    } else {
        None
    }
}

/// Encodes the items of `list` as [`coded`] does. Sets `heads`, and writes words from the beginning of each row of
/// `words` on. `lens` then has the numbers of these words.
///
/// Returns `false` if a model has no entry for its symbol. The lists may have changed then. The caller proves that the
/// lists have a row of `count` items and words for each head.
fn encode_rows<
    Word: WordOf<State>,
    State: BitArray,
    P: WordOf<Word>,
    L: ItemList<P, PRECISION>,
    const PRECISION: usize,
>(heads: &mut [State], words: &mut [Word], lens: &mut [usize], list: &mut L, count: usize) -> bool
    requires sizes { IsSizes Word.BITS State.BITS }
    requires precision { (1 ≤ PRECISION) × (PRECISION ≤ P.BITS) }
    requires words { length words.now ≡ length heads.now * count }
    requires lens { length lens.now ≡ length heads.now }
    requires items { length (L.list_items list.now) ≡ length heads.now * count }
    ensures { OnTrue result (CodesRows Word.number State.number Word.BITS State.BITS (L.list_items list.old) count
        heads.old heads.new words.new lens.new (length heads.old)) }
{
    for j in 0..heads.len() {
        let Some(made) = encode_row::<_, _, P, L, PRECISION>(
            heads[j],
            &mut words[j * count..j * count + count],
            list,
            j * count,
        ) else {
            return false;
        };
        let (head, len) = made;
        heads[j] = head;
        lens[j] = len;
    }
    true
}

/// Encodes items onto the head `head` and no words, from the last to the first. The items are as many as `row` has
/// words, from index `first` of the list on.
///
/// Each item writes at most one word. The call writes the words from the beginning of `row` on, and returns the new
/// head and the number of these words. Returns `None` if a model has no entry for its symbol. The caller proves that
/// the list has the items.
///
/// The function isn't inlined, so that its loop keeps the coder in registers.
#[inline(never)]
fn encode_row<
    Word: WordOf<State>,
    State: BitArray,
    P: WordOf<Word>,
    L: ItemList<P, PRECISION>,
    const PRECISION: usize,
>(head: State, row: &mut [Word], list: &mut L, first: usize) -> Option<(State, usize)>
    requires sizes { IsSizes Word.BITS State.BITS }
    requires precision { (1 ≤ PRECISION) × (PRECISION ≤ P.BITS) }
    requires items { first + length row.now ≤ length (L.list_items list.now) }
    requires fits { first + length row.now < 2 ^ 64 }
    ensures coded { IfSome result (λ made. CodesRow Word.number State.number Word.BITS State.BITS
        (take (length row.old) (drop first (L.list_items list.old))) head made.0 row.new made.1) }
    ensures items { L.list_items list.new ≡ L.list_items list.old }
{
    let (mut top, mut len) = (head, 0);
    let mut rest = row.len();
    while rest > 0 {
        let found = list.interval(first + rest - 1)?;
        let (left, p, reciprocal) = found;
        let (next, more) = encode_interval::<Word, State, P, PRECISION>(
            top, row, len, left, p, reciprocal,
        );
        top = next;
        len = more;
        rest -= 1;
    }
    Some((top, len))
}

/// Encodes the symbol of the interval `[left, left + p)` onto the coder of `head` and the first `len` words of `words`.
///
/// Returns the new head and the new number of words. The caller proves that `words` has room for one more word, that
/// the interval is a step, and that `reciprocal`, if there is one, is the reciprocal of `p`.
#[inline(always)]
fn encode_interval<Word: WordOf<State>, State: BitArray, P: WordOf<Word>, const PRECISION: usize>(
    head: State,
    words: &mut [Word],
    len: usize,
    left: P,
    p: P::NonZero,
    reciprocal: Option<Reciprocal>,
) -> (State, usize)
    requires sizes { IsSizes Word.BITS State.BITS }
    requires room { len < length words.old }
    requires reciprocal { IfSome reciprocal (λ r. IsReciprocalOf r (P.nonzero_number p)) }
    requires step { IsStep Word.BITS record { precision = PRECISION; left = P.number left; p = P.nonzero_number p } }
    ensures encoded { IsNormalized Word.BITS State.BITS (lane Word.number State.number head words.old len)
        → IsPush Word.BITS State.BITS record { precision = PRECISION; left = P.number left; p = P.nonzero_number p }
        (lane Word.number State.number head words.old len)
        (lane Word.number State.number result.0 words.new result.1) }
    ensures more { (len ≤ result.1) × (result.1 ≤ len + 1) }
{
    let p = P::from_nonzero(p);
    encode_onto::<Word, State>(
        head,
        words,
        len,
        left.widen().widen(),
        p.widen().widen(),
        reciprocal,
        PRECISION as u32,
    )
}

/// Writes the words of each row of `added` behind the words in use of the same row of `words`, and sets `heads`.
///
/// Row `j` of `added` begins at index `j * count` and has `counts[j]` words, and row `j` of `words` has `width` words,
/// of which `lens[j]` are in use. The call increases `lens[j]` by `counts[j]`. The caller proves that all rows lie
/// within their lists.
///
/// # Errors
///
/// After an error, the coders are unchanged.
///
/// - `NoSpace(needed)`: `width` is below `needed`, the greatest number of words that a coder has then.
/// - `NoMemory`: this number doesn't fit a `usize`.
fn put<Word: BitArray, State: BitArray>(
    heads: &mut [State],
    words: &mut [Word],
    width: usize,
    lens: &mut [usize],
    new_heads: &[State],
    added: &[Word],
    count: usize,
    counts: &[usize],
) -> Result<(), Refusal>
    requires words { length words.now ≡ length heads.now * width }
    requires lens { length lens.now ≡ length heads.now }
    requires within { (j : ℕ) → j < length lens.now → slice_index lens.now j ≤ width }
    requires heads { length new_heads.now ≡ length heads.now }
    requires added { length added.now ≡ length heads.now * count }
    requires counts { length counts.now ≡ length heads.now }
    requires few { (j : ℕ) → j < length counts.now → slice_index counts.now j ≤ count }
    ensures heads { OnOk result (heads.new ≡ new_heads.now) }
    ensures rows { OnOk result (AppendsRows width count words.old lens.old added.now counts.now words.new lens.new
        (length heads.old)) }
    ensures lengths { OnOk result ((length words.new ≡ length words.old) × (length lens.new ≡ length lens.old)) }
    ensures short { IfErr result (NoMemoryOrSpace (λ needed. (width < needed)
        × IsGreatestSum lens.old counts.now (length heads.old) needed)) }
    ensures kept { OnErr result ((heads.new ≡ heads.old) × (words.new ≡ words.old) × (lens.new ≡ lens.old)) }
{
    let Some(needed) = greatest_sum(lens, counts) else {
        return Err(Refusal::NoMemory);
    };
    if needed > width {
        return Err(Refusal::NoSpace(needed));
    }
    append_rows(words, width, lens, added, count, counts);
    heads.copy_from_slice(new_heads);
    Ok(())
}

/// Returns the greatest sum of an item of `lens` and the item of `counts` at the same index, or 0 for empty lists.
///
/// Returns `None` if one of the sums doesn't fit a `usize`. The caller proves that the lists have the same length.
fn greatest_sum(lens: &[usize], counts: &[usize]) -> Option<usize>
    requires { length counts.now ≡ length lens.now }
    ensures { IfSome result (λ needed. IsGreatestSum lens.now counts.now (length lens.now) needed) }
{
    let mut greatest = 0;
    for j in 0..lens.len() {
        let sum = lens[j].checked_add(counts[j])?;
        if sum > greatest {
            greatest = sum;
        }
    }
    Some(greatest)
}

/// Writes rows of words as [`put`] does. The caller proves that each row of `words` has room.
fn append_rows<Word: BitArray>(
    words: &mut [Word],
    width: usize,
    lens: &mut [usize],
    added: &[Word],
    count: usize,
    counts: &[usize],
)
    requires words { length words.now ≡ length lens.now * width }
    requires added { length added.now ≡ length lens.now * count }
    requires counts { length counts.now ≡ length lens.now }
    requires few { (j : ℕ) → j < length lens.now → slice_index counts.now j ≤ count }
    requires room { (j : ℕ) → j < length lens.now → slice_index lens.now j + slice_index counts.now j ≤ width }
    ensures rows { AppendsRows width count words.old lens.old added.now counts.now words.new lens.new
        (length lens.old) }
    ensures lengths { (length words.new ≡ length words.old) × (length lens.new ≡ length lens.old) }
{
    for j in 0..lens.len() {
        append(
            &added[j * count..j * count + counts[j]],
            &mut words[j * width..j * width + width],
            &mut lens[j],
        )
        .unwrap();
    }
}
