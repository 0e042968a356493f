//! The arithmetic of encoding and decoding one symbol, on a head and a backend.
//!
//! A decode calls [`pop_head`] and then [`refill_head`]. An encode calls [`push_onto`].

ghost use Rattle.std.specs.Prelude.{◌≡◌, ◌+◌, ◌-◌, ◌*◌, ◌/◌, ◌%◌, ◌^◌, ◌<◌, ◌≤◌, IfOk, IfSome, OnErr};
ghost use Rattle.constriction_base.specs.Steps.{IsStep, IsSizes};
ghost use Rattle.constriction_words.specs.Reciprocals.{IsReciprocalOf};
ghost use Rattle.constriction_stack.specs.Ans.{PushesOnto, RefillsByReads, RefillsList};

use constriction_base::backends::{Holds, ReadWords, Stack, WriteWords};
use constriction_words::{BitArray, Reciprocal, WordOf};

/// Returns the head after decoding the symbol of the interval `[left, left + p)`, before renormalization.
///
/// The caller proves that `quantile` is the low `precision` bits of `head`, and that it is at least `left`. The caller
/// also proves that `precision` is below `State::BITS`, and that `left + p` is at most `2^precision`.
#[inline]
pub fn pop_head<State: BitArray>(
    head: State,
    quantile: State,
    left: State,
    p: State,
    precision: u32,
) -> State
    requires within { precision < State.BITS }
    requires quantile { State.number quantile ≡ State.number head % 2 ^ precision }
    requires above { State.number left ≤ State.number quantile }
    requires total { State.number left + State.number p ≤ 2 ^ precision }
    ensures { State.number result
        ≡ State.number head / 2 ^ precision * State.number p
        + (State.number head % 2 ^ precision - State.number left) }
{
    head.shift_right(precision)
        .times(p)
        .plus(quantile)
        .minus(left)
}

/// Moves the next word of `bulk` into `head` if `head` is below `2^(State::BITS - Word::BITS)`.
///
/// Returns the new head, and sets `low` to its low word, which is the word that moved in, if there is one. If no word
/// is left, the head is unchanged. If the read fails, `low` is unchanged, and the call returns the error of the read.
#[inline]
pub fn refill_head<Word: WordOf<State>, State: BitArray, Backend: ReadWords<Word, Stack>>(
    bulk: &mut Backend,
    head: State,
    low: &mut Word,
) -> Result<State, Backend::ReadError>
    requires { IsSizes Word.BITS State.BITS }
    ensures list { RefillsList Word.number State.number Backend.Holds Word.BITS State.BITS
        head bulk.old result bulk.new }
    ensures reads { RefillsByReads Word.number State.number Backend.reads Word.BITS State.BITS
        head bulk.old result bulk.new }
    ensures low { IfOk result (λ new. Word.number low.new ≡ State.number new % 2 ^ Word.BITS) }
    ensures kept { OnErr result (low.new ≡ low.old) }
{
    if !head.shift_right(State::BITS - Word::BITS).is_nothing() {
        *low = Word::narrow(head);
        return Ok(head);
    }
    let word = match bulk.read() {
        Err(error) => return Err(error),
        Ok(None) => {
            *low = Word::narrow(head);
            return Ok(head);
        }
        Ok(Some(word)) => word,
    };
    *low = word;
    Ok(head.shift_left(Word::BITS).plus(word.widen()))
}

/// Encodes the symbol of the interval `[left, left + p)` onto `head`, and returns the new head.
///
/// If `head` is at least `p * 2^(State::BITS - precision)`, the new head would not fit a `State`. The call then first
/// moves the low word of `head` to the backend: it asks for room for one word, and writes the word. If the backend
/// refuses, the call returns the backend's error.
#[inline(always)]
pub fn push_onto<Word: WordOf<State>, State: BitArray, Backend: WriteWords<Word>>(
    bulk: &mut Backend,
    head: State,
    left: State,
    p: State,
    reciprocal: Option<Reciprocal>,
    precision: u32,
) -> Result<State, Backend::WriteError>
    requires sizes { IsSizes Word.BITS State.BITS }
    requires reciprocal { IfSome reciprocal (λ r. IsReciprocalOf r (State.number p)) }
    requires step { IsStep Word.BITS record { precision = precision; left = State.number left; p = State.number p } }
    ensures { PushesOnto Word.number State.number Backend.Holds Backend.WriteWords.own Word.BITS State.BITS
        precision left p head bulk.old result bulk.new }
{
    if head.shift_right(State::BITS - precision).is_below(p) {
        return Ok(push_head(head, left, p, reciprocal, precision));
    }
    match bulk.prepare(1) {
        Ok(()) => {}
        Err(error) => return Err(error),
    }
    match bulk.write(Word::narrow(head)) {
        Ok(()) => {}
        Err(refusal) => return Err(refusal),
    }
    Ok(push_head(head.shift_right(Word::BITS), left, p, reciprocal, precision))
}

/// Encodes the symbol of the interval `[left, left + p)` onto `head`, and returns the new head.
///
/// The caller proves that `head` is below `p * 2^(State::BITS - precision)`, so the new head fits a `State`.
///
/// The new head is `head / p * 2^precision + left + head % p`. If `reciprocal` contains a reciprocal of `p`, the call
/// computes the same number as `head + left + head / p * (2^precision - p)`. This formula needs no remainder, and the
/// reciprocal replaces the division.
#[inline]
pub(crate) fn push_head<State: BitArray>(
    head: State,
    left: State,
    p: State,
    reciprocal: Option<Reciprocal>,
    precision: u32,
) -> State
    requires within { precision < State.BITS }
    requires some { 0 < State.number p }
    requires reciprocal { IfSome reciprocal (λ r. IsReciprocalOf r (State.number p)) }
    requires total { State.number left + State.number p ≤ 2 ^ precision }
    requires room { State.number head < State.number p * 2 ^ (State.BITS - precision) }
    ensures { State.number result
        ≡ State.number head / State.number p * 2 ^ precision
        + (State.number left + State.number head % State.number p) }
{
    match reciprocal {
        Some(reciprocal) => {
            let beside = State::unit().shift_left(precision).minus(p);
            let quotient = head.quotient_by(p, reciprocal);
            quotient.times(beside).plus(head.plus(left))
        }
        None => {
            let (quotient, rest) = head.div_rem(p, State::BITS - precision);
            let prefix = quotient.shift_left(precision);
            prefix.plus(left.plus(rest))
        }
    }
}
