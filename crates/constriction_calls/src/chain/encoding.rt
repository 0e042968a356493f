//! Encoding items into compressed words.

ghost use Rattle.std.specs.Prelude.{◌≡◌, ◌⊎◌, ◌+◌, ◌<◌, ◌≤◌, ℕ, List, length, map, reverse};
ghost use Rattle.std.specs.Prelude.{IfErr, IfSome, OnErr, OnOk};
ghost use Rattle.constriction_base.specs.Steps.{IsStep};
ghost use Rattle.constriction_chain.specs.Chain.{ChainState, IsSized};
ghost use Rattle.constriction_inputs.specs.Buffers.{Appended};
ghost use Rattle.constriction_calls.specs.ChainCalls.{AreHeadsOf, AreInUse, ChainEncodesListBy, chain_buffers};
ghost use Rattle.constriction_chain.specs.Fits.{CoderFits};
ghost use Rattle.constriction_calls.specs.ChainItems.{ChainEncodesItems, PutsItem, PutsBackItems, PutsStep};
ghost use Rattle.constriction_inputs.specs.declared.refusal.Refusal.TheVariants as refusals;
ghost use Rattle.constriction_words.specs.Reciprocals.{IsReciprocalOf};

use crate::chain::{ChainHeads, keep};
use constriction_base::cursor::Cursor;
use constriction_base::errors::CoderError;
use constriction_chain::{ChainCoder, ChainCoderHeads};
use constriction_inputs::buffers::append;
use constriction_inputs::items::{ItemList, Items};
use constriction_inputs::refusal::Refusal;
use constriction_words::{BitArray, Reciprocal, WordOf};
use std::alloc::Global;

/// A chain coder that reads borrowed remainders, and writes compressed words to a borrowed buffer.
type Putting<'a, Word, State, const PRECISION: usize> = ChainCoder<
    Word,
    State,
    Cursor<Word, &'a mut [Word]>,
    Cursor<Word, &'a [Word]>,
    PRECISION,
>;

/// Encodes items from the last to the first.
///
/// An item is a symbol with its model, or an interval. The coder is `heads`, the first `len` words of `compressed`, and
/// the first `rest` words of `remainders`. The call reads these remainders from the last to the first, and writes new
/// words after these compressed words. It sets `heads`, `len` and `rest` to their values after the encodes.
///
/// # Errors
///
/// The call returns the errors that [`crate::chain`] lists.
pub fn encode_reverse<
    Word: WordOf<State>,
    State: BitArray,
    P: WordOf<Word>,
    I: Items<P, PRECISION>,
    const PRECISION: usize,
>(
    alloc: Global,
    heads: &mut ChainHeads<Word, State>,
    compressed: &mut [Word],
    len: &mut usize,
    remainders: &[Word],
    rest: &mut usize,
    items: &I,
) -> Result<(), Refusal>
    requires sized { IsSized Word.BITS State.BITS PRECISION }
    requires within { PRECISION ≤ P.BITS }
    requires fits { CoderFits Word.row State.row }
    ensures call { ChainEncodesListBy Word.Natural State.Natural PRECISION (I.coded items.now)
        (chain_buffers heads.old compressed.old len.old remainders.now rest.old)
        (chain_buffers heads.new compressed.new len.new remainders.now rest.new) result }
{
    if items.count() == 1 {
        encode_checked::<Word, State, P, I, PRECISION, true>(
            alloc, heads, compressed, len, remainders, rest, items,
        )
    } else {
        encode_checked::<Word, State, P, I, PRECISION, false>(
            alloc, heads, compressed, len, remainders, rest, items,
        )
    }
}

/// Does what [`encode_reverse`] does. `SINGLE` tells the compiler that there is a single item. It then makes code
/// without a loop, which keeps the coder in registers.
///
/// # Errors
///
/// The call returns the errors that [`crate::chain`] lists.
#[inline(always)]
fn encode_checked<
    Word: WordOf<State>,
    State: BitArray,
    P: WordOf<Word>,
    I: Items<P, PRECISION>,
    const PRECISION: usize,
    const SINGLE: bool,
>(
    alloc: Global,
    heads: &mut ChainHeads<Word, State>,
    compressed: &mut [Word],
    len: &mut usize,
    remainders: &[Word],
    rest: &mut usize,
    items: &I,
) -> Result<(), Refusal>
    requires sized { IsSized Word.BITS State.BITS PRECISION }
    requires within { PRECISION ≤ P.BITS }
    requires fits { CoderFits Word.row State.row }
    ensures call { ChainEncodesListBy Word.Natural State.Natural PRECISION (I.coded items.now)
        (chain_buffers heads.old compressed.old len.old remainders.now rest.old)
        (chain_buffers heads.new compressed.new len.new remainders.now rest.new) result }
{
    if *len > compressed.len() || *rest > remainders.len() {
        return Err(Refusal::WrongLength);
    }
    items.check()?;
    let Some(both) = ChainCoderHeads::new(heads.compressed, heads.remainders) else {
        return Err(Refusal::InvalidData);
    };
    let refusal = match items.list(alloc, true) {
        Some(list) => match encode_list::<Word, State, P, I::List, PRECISION, SINGLE>(
            alloc, both, heads, compressed, len, remainders, rest, list,
        ) {
            Ok(()) => return Ok(()),
            Err(refusal) => refusal,
        },
        None => Refusal::NoMemory,
    };
    if items.know() {
        Err(refusal)
    } else {
        Err(Refusal::ImpossibleSymbol)
    }
}

/// Encodes the items of `list` from the last to the first, with the coder that [`encode_reverse`] describes.
///
/// Each item writes at most one word, so the call collects the new words in a buffer of one word for each item. The
/// buffer of a single item needs no allocation. The call takes `list` by value, so that a single item stays in
/// registers. The caller proves that the numbers of words in use are within the buffers, and that `both` are the heads
/// in `heads`.
///
/// # Errors
///
/// - `ImpossibleSymbol`: a model has no entry for its symbol.
/// - `OutOfData`, `NoSpace` and `NoMemory`: see [`crate::chain`].
#[inline]
fn encode_list<
    Word: WordOf<State>,
    State: BitArray,
    P: WordOf<Word>,
    L: ItemList<P, PRECISION>,
    const PRECISION: usize,
    const SINGLE: bool,
>(
    alloc: Global,
    both: ChainCoderHeads<Word, State, PRECISION>,
    heads: &mut ChainHeads<Word, State>,
    compressed: &mut [Word],
    len: &mut usize,
    remainders: &[Word],
    rest: &mut usize,
    list: L,
) -> Result<(), Refusal>
    requires fits { CoderFits Word.row State.row }
    requires heads { both ≡ (heads.now.compressed, heads.now.remainders) }
    requires within { AreInUse (chain_buffers heads.now compressed.now len.now remainders.now rest.now) }
    ensures { ChainEncodesItems Word.number State.number Word.BITS State.BITS (L.list_items list)
        (chain_buffers heads.old compressed.old len.old remainders.now rest.old)
        (chain_buffers heads.new compressed.new len.new remainders.now rest.new) result }
{
    if SINGLE && list.count() == 1 {
        let (mut one, mut room) = (list, [Word::nothing()]);
        return encode_within(
            &mut room, both, heads, compressed, len, remainders, rest, &mut one,
        );
    }
    let Ok(mut room) = vec![in alloc; Word::nothing(); list.count()] else {
        return Err(Refusal::NoMemory);
    };
    let mut all = list;
    encode_within(
        &mut room, both, heads, compressed, len, remainders, rest, &mut all,
    )
}

/// Encodes items as [`encode_list`] does, and collects the new words in the buffer `room`.
///
/// # Errors
///
/// The call returns the errors of [`encode_list`]. It also returns `NoMemory` if `room` is too short for the new words.
#[inline(always)]
fn encode_within<
    Word: WordOf<State>,
    State: BitArray,
    P: WordOf<Word>,
    L: ItemList<P, PRECISION>,
    const PRECISION: usize,
>(
    room: &mut [Word],
    both: ChainCoderHeads<Word, State, PRECISION>,
    heads: &mut ChainHeads<Word, State>,
    compressed: &mut [Word],
    len: &mut usize,
    remainders: &[Word],
    rest: &mut usize,
    list: &mut L,
) -> Result<(), Refusal>
    requires fits { CoderFits Word.row State.row }
    requires heads { both ≡ (heads.now.compressed, heads.now.remainders) }
    requires within { AreInUse (chain_buffers heads.now compressed.now len.now remainders.now rest.now) }
    ensures { ChainEncodesItems Word.number State.number Word.BITS State.BITS (L.list_items list.old)
        (chain_buffers heads.old compressed.old len.old remainders.now rest.old)
        (chain_buffers heads.new compressed.new len.new remainders.now rest.new) result }
{
    let lent = Cursor::new_at_write_end(&remainders[..*rest]);
    let mut coder = ChainCoder::from_raw_parts(Cursor::new_at_write_beginning(room), lent, both);
    match encode_list_items(&mut coder, list) {
        Ok(()) => {}
        Err(refusal) => return Err(refusal),
    }
    match finish_encoding(coder, heads, compressed, len, rest) {
        Ok(()) => Ok(()),
        Err(error) => Err(error),
    }
}

/// Encodes items with `coder` from the last to the first.
///
/// # Errors
///
/// - `ImpossibleSymbol`: a model has no entry for its symbol.
/// - `OutOfData`: the coder needs a word of remainders, and no word is left.
/// - `NoMemory`: the coder's buffer for new words is full.
#[inline(always)]
fn encode_list_items<
    P: BitArray,
    C: Put<P, PRECISION>,
    L: ItemList<P, PRECISION>,
    const PRECISION: usize,
>(coder: &mut C, list: &mut L) -> Result<(), Refusal>
    ensures { PutsBackItems C.word_bits C.state_bits (L.list_items list.old)
        (C.chain coder.old) (C.chain coder.new) result }
{
    if list.count() == 1 {
        encode_item::<P, C, L, PRECISION>(coder, list, 0)
    } else {
        encode_many::<P, C, L, PRECISION>(coder, list)
    }
}

/// Encodes as [`encode_list_items`] does. This function isn't inlined, so that its loop keeps the coder's heads in
/// registers.
#[inline(never)]
fn encode_many<
    P: BitArray,
    C: Put<P, PRECISION>,
    L: ItemList<P, PRECISION>,
    const PRECISION: usize,
>(coder: &mut C, list: &mut L) -> Result<(), Refusal>
    ensures { PutsBackItems C.word_bits C.state_bits (L.list_items list.old)
        (C.chain coder.old) (C.chain coder.new) result }
{
    let mut left = list.count();
    while left > 0 {
        match encode_item::<P, C, L, PRECISION>(coder, list, left - 1) {
            Ok(()) => {}
            Err(refusal) => return Err(refusal),
        }
        left -= 1;
    }
    Ok(())
}

/// Encodes the item at index `place`. The caller proves that the list has that index.
///
/// # Errors
///
/// The call returns the errors of [`encode_list_items`].
#[inline(always)]
fn encode_item<
    P: BitArray,
    C: Put<P, PRECISION>,
    L: ItemList<P, PRECISION>,
    const PRECISION: usize,
>(coder: &mut C, list: &mut L, place: usize) -> Result<(), Refusal>
    requires { place < length (L.list_items list.now) }
    ensures put { PutsItem C.word_bits C.state_bits (L.list_items list.old) place
        (C.chain coder.old) (C.chain coder.new) result }
    ensures items { L.list_items list.new ≡ L.list_items list.old }
{
    let Some(found) = list.interval(place) else {
        return Err(Refusal::ImpossibleSymbol);
    };
    let (begin, p, reciprocal) = found;
    coder.put(begin, p, reciprocal)
}

/// A coder that [`encode_list_items`] encodes with.
///
/// The functions over a list of items are generic over this trait. If they named the type of the coder, the conditions
/// of its call would exceed the prover's limit of steps.
trait Put<P: BitArray, const PRECISION: usize> {
    // The number of bits of a word.
    ghost word_bits: { ℕ };

    // The number of bits of the remainders head.
    ghost state_bits: { ℕ };

    // The state of the chain coder.
    ghost chain: { Self → ChainState };

    /// Encodes the interval of length `p` that begins at quantile `begin`.
    ///
    /// `reciprocal` is the reciprocal of `p`, if there is one.
    ///
    /// # Errors
    ///
    /// The call returns the errors of [`encode_list_items`] except `ImpossibleSymbol`.
    fn put(
        &mut self,
        begin: P,
        p: <P as BitArray>::NonZero,
        reciprocal: Option<Reciprocal>,
    ) -> Result<(), Refusal>
        requires step { IsStep word_bits
            record { precision = PRECISION; left = P.number begin; p = P.nonzero_number p } }
        requires reciprocal { IfSome reciprocal (λ r. IsReciprocalOf r (P.nonzero_number p)) }
        ensures { PutsStep word_bits state_bits
            record { precision = PRECISION; left = P.number begin; p = P.nonzero_number p }
            (chain self.old) (chain self.new) result };

    ghost width_law: { P.BITS ≤ word_bits };
}

impl<'a, Word: WordOf<State>, State: BitArray, P: WordOf<Word>, const PRECISION: usize> Put<
    P,
    PRECISION,
> for Putting<'a, Word, State, PRECISION> {
    ghost word_bits = { Word.BITS };

    ghost state_bits = { State.BITS };

    ghost chain = { λ coder. coder.state };

    #[inline(always)]
    fn put(
        &mut self,
        begin: P,
        p: <P as BitArray>::NonZero,
        reciprocal: Option<Reciprocal>,
    ) -> Result<(), Refusal> {
        match self.encode_interval::<P>(begin, p, reciprocal) {
            Ok(()) => Ok(()),
            Err(CoderError::Frontend(_)) => Err(Refusal::OutOfData),
            Err(CoderError::Backend(_)) => Err(Refusal::NoMemory),
        }
    }

    ghost width_law = { P.width_law };
}

/// Appends the compressed words of `coder` to `compressed`, and adds their number to `len`.
///
/// The call also sets `heads` to the heads of `coder`, and `rest` to its number of words of remainders. The caller
/// proves that `len` is at most the length of `compressed`.
///
/// # Errors
///
/// A call that fails changes nothing.
///
/// - `NoSpace(needed)`: `compressed` is too short. `needed` is the number of words that `compressed` has to hold.
/// - `NoMemory`: the number of words that `compressed` has to hold doesn't fit a `usize`.
fn finish_encoding<'a, Word: WordOf<State>, State: BitArray, const PRECISION: usize>(
    coder: Putting<'a, Word, State, PRECISION>,
    heads: &mut ChainHeads<Word, State>,
    compressed: &mut [Word],
    len: &mut usize,
    rest: &mut usize,
) -> Result<(), Refusal>
    requires { len.now ≤ length compressed.now }
    ensures heads { OnOk result (AreHeadsOf Word.number State.number coder.entry.state heads.new) }
    ensures remainders { OnOk result (rest.new ≡ length coder.entry.state.remainders) }
    ensures compressed { OnOk result ((added : List Word)
        × (map Word.number (reverse added) ≡ coder.entry.state.compressed)
        × Appended compressed.old len.old added compressed.new len.new) }
    ensures err { IfErr result (λ e. (e ≡ refusals.NoMemory)
        ⊎ ((e ≡ refusals.NoSpace (len.old + length coder.entry.state.compressed))
        × (length compressed.old < len.old + length coder.entry.state.compressed))) }
    ensures kept { OnErr result ((heads.new ≡ heads.old) × (rest.new ≡ rest.old)
        × (compressed.new ≡ compressed.old) × (len.new ≡ len.old)) }
{
    let (written, words, both) = coder.into_raw_parts();
    let (room, count) = written.into_buf_and_pos();
    append(&room[..count], compressed, len)?;
    keep(words, both, heads, rest);
    Ok(())
}
