//! The two steps of a coder whose words are the first words of a slice, without a branch on the head.

ghost use Rattle.std.specs.Prelude.{◌≡◌, ◌+◌, ◌-◌, ◌^◌, ◌<◌, ◌≤◌, [], drop, length, map, reverse, take, IfSome};
ghost use Rattle.constriction_base.specs.Steps.{IsSizes, IsStep};
ghost use Rattle.constriction_words.specs.Reciprocals.{IsReciprocalOf};
ghost use Rattle.constriction_stack.specs.Ans.{IsPush, IsNormalized, refilled};
ghost use Rattle.constriction_stack.specs.Lanes.{MakesRoom, lane};
ghost use Rattle.constriction_stack.specs.Symbols.{Decodes};

use crate::steps::{pop_head, push_head};
use constriction_base::model::{DecoderModel, EntropyModel};
use constriction_words::{BitArray, Reciprocal, WordOf};

/// Decodes a symbol with `model` from the coder with the head `head` and the words `words[..len]`.
///
/// Returns the symbol, the new head, and the number of words that are left. Decoding from a coder without words returns
/// a symbol too.
///
/// The caller proves that `len` is at most the length of `words`, and that `words` isn't empty. The call reads a word
/// even if the head needs none.
#[inline(always)]
pub fn decode_from<
    Word: WordOf<State>,
    State: BitArray,
    M: DecoderModel<PRECISION, Symbol = usize>,
    const PRECISION: usize,
>(head: State, words: &[Word], len: usize, model: &M) -> (usize, State, usize)
where
    M::Probability: WordOf<Word>,
    requires sizes { IsSizes Word.BITS State.BITS }
    requires within { len ≤ length words.now }
    requires some { 0 < length words.now }
    ensures decoded { Decodes Word.BITS State.BITS record { precision = PRECISION; table = M.table model.now }
        result.0 (lane Word.number State.number head words.now len)
        (lane Word.number State.number result.1 words.now result.2) }
    ensures rest { result.2 ≤ len }
{
    let precision = PRECISION as u32;
    let quantile = head.low_bits(precision);
    let (symbol, left, p) = model.quantile_function(M::Probability::narrow(Word::narrow(quantile)));
    let p = M::Probability::from_nonzero(p);
    let popped = pop_head(
        head,
        quantile,
        left.widen().widen(),
        p.widen().widen(),
        precision,
    );
    let (new_head, new_len) = refill_from(popped, words, len);
    (symbol, new_head, new_len)
}

/// Moves the top word of `words[..len]` into `head` if `head` is below `2^(State::BITS - Word::BITS)`.
///
/// Returns the new head, and the number of words that are left. The call reads a word and computes the moved head in
/// any case. Then it selects the old or the moved head, so that the compiler needs no branch.
#[inline(always)]
fn refill_from<Word: WordOf<State>, State: BitArray>(
    head: State,
    words: &[Word],
    len: usize,
) -> (State, usize)
    requires sizes { IsSizes Word.BITS State.BITS }
    requires within { len ≤ length words.now }
    requires some { 0 < length words.now }
    ensures state { lane Word.number State.number result.0 words.now result.1
        ≡ refilled Word.BITS State.BITS (State.number head) (map Word.number (reverse (take len words.now))) }
    ensures rest { result.1 ≤ len }
{
    let below = State::BITS - Word::BITS;
    let top = len.saturating_sub(1);
    let word = words[top];
    let moved = head
        .low_bits(below)
        .shift_left(Word::BITS)
        .plus(word.widen());
    let takes = head.shift_right(below).is_nothing() & (len > 0);
    if takes { (moved, top) } else { (head, len) }
}

/// Encodes the symbol of the interval `[left, left + p)` onto the coder with the head `head` and the words
/// `words[..len]`. Returns the new head, and the new number of words, which is `len` or `len + 1`.
///
/// The new head and the word that moves out of the head depend on the head alone, even if the state isn't normalized.
///
/// The caller proves that `words` has room for one word behind the first `len`, that the interval is a step at
/// `precision` bits, and that `reciprocal`, if there is one, is the reciprocal of `p`. The call writes `words[len]`
/// even if no word moves out of the head, and no other word.
#[inline(always)]
pub fn encode_onto<Word: WordOf<State>, State: BitArray>(
    head: State,
    words: &mut [Word],
    len: usize,
    left: State,
    p: State,
    reciprocal: Option<Reciprocal>,
    precision: u32,
) -> (State, usize)
    requires sizes { IsSizes Word.BITS State.BITS }
    requires room { len < length words.old }
    requires reciprocal { IfSome reciprocal (λ r. IsReciprocalOf r (State.number p)) }
    requires step { IsStep Word.BITS record { precision = precision; left = State.number left; p = State.number p } }
    ensures encoded { IsNormalized Word.BITS State.BITS (lane Word.number State.number head words.old len)
        → IsPush Word.BITS State.BITS record { precision = precision; left = State.number left; p = State.number p }
        (lane Word.number State.number head words.old len)
        (lane Word.number State.number result.0 words.new result.1) }
    ensures alone { IsPush Word.BITS State.BITS
        record { precision = precision; left = State.number left; p = State.number p }
        (lane Word.number State.number head [] 0)
        (lane Word.number State.number result.0 (drop len words.new) (result.1 - len)) }
    ensures more { (len ≤ result.1) × (result.1 ≤ len + 1) }
    ensures kept { (take len words.new ≡ take len words.old) × (drop (len + 1) words.new ≡ drop (len + 1) words.old) }
{
    words[len] = Word::narrow(head);
    let (base, end) = make_room::<Word, State>(head, len, p, precision);
    (push_head(base, left, p, reciprocal, precision), end)
}

/// Returns the head and the number of words before a push of the interval's length `p`.
///
/// If the head has room for the step, both are unchanged. Otherwise the low word of `head` moves to the words.
#[inline(always)]
fn make_room<Word: WordOf<State>, State: BitArray>(
    head: State,
    len: usize,
    p: State,
    precision: u32,
) -> (State, usize)
    requires sizes { IsSizes Word.BITS State.BITS }
    requires precision { (1 ≤ precision) × (precision ≤ Word.BITS) }
    requires fits { len + 1 < 2 ^ 64 }
    ensures { MakesRoom Word.BITS State.BITS precision (State.number p) (State.number head) len
        (State.number result.0) result.1 }
{
    let above = head.shift_right(Word::BITS);
    let more = len + 1;
    if head.shift_right(State::BITS - precision).is_below(p) {
        (head, len)
    } else {
        (above, more)
    }
}
