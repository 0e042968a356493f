//! The arithmetic of encoding one symbol: [`step_onto`] narrows the interval, renormalizes it, and writes words.

ghost use Rattle.std.specs.Prelude.{◌≡◌, ◌↔◌, ◌+◌, ◌-◌, ◌*◌, ◌<◌, ◌≤◌, ◌^◌, ◌/◌, [], IsTrue, None, Some, length};
ghost use Rattle.std.specs.Int.NonZero.{non_zero_usize_get};
ghost use Rattle.constriction_base.specs.Steps.{IsStep, IsSizes};
ghost use Rattle.constriction_queue.specs.Range.{step_of};
ghost use Rattle.constriction_queue.specs.Encoder.{pending_of, released_of, words_with_carry};
ghost use Rattle.constriction_queue.specs.Encoder.{CutsRun, GrowsRun, CanHoldMore, PartsFit};
ghost use Rattle.constriction_queue.specs.Calls.{EncodesAtInterval};

use crate::situation::{EncoderSituation, ReleasedWords, nonzero_count};
use crate::writing::write_step;
use constriction_base::backends::{Holds, Stack, WriteWords};
use constriction_words::{BitArray, WordOf};
use std::num::NonZeroUsize;

/// Returns whether `lower + range`, the end of an interval, is at least `2^State::BITS`.
#[inline(always)]
pub fn reaches_over<State: BitArray>(lower: State, range: State) -> bool
    ensures { IsTrue result ↔ (2 ^ State.BITS ≤ State.number lower + State.number range) }
{
    State::greatest().minus(lower).is_below(range)
}

/// Returns the pending words, with a carry added to them if `carry` is true.
///
/// There are `count` pending words. The first is `first`, and each other word is all ones. The caller proves that
/// `first` isn't all ones.
#[inline]
pub fn add_carry<Word: BitArray>(
    count: NonZeroUsize,
    first: Word,
    carry: bool,
) -> ReleasedWords<Word>
    requires { Word.number first + 1 < 2 ^ Word.BITS }
    ensures { released_of Word.number (Some result)
        ≡ words_with_carry Word.BITS carry (non_zero_usize_get count) (Word.number first) }
{
    if carry {
        ReleasedWords {
            count,
            first: first.plus(Word::unit()),
            others: Word::nothing(),
        }
    } else {
        ReleasedWords {
            count,
            first,
            others: Word::greatest(),
        }
    }
}

/// A symbol's part of an interval, the words that stay pending (`situation`), and the words to write (`released`).
#[derive(Drop)]
pub struct Part<Word, State> {
    pub lower: State,
    pub range: State,
    pub situation: EncoderSituation<Word>,
    pub released: Option<ReleasedWords<Word>>,
}

/// Returns a symbol's part of an interval. The symbol has the quantiles `[left, left + p)`.
///
/// The result also contains the pending words that no later carry can change (`released`).
#[inline(always)]
pub fn narrow_interval<Word: WordOf<State>, State: BitArray>(
    lower: State,
    range: State,
    situation: EncoderSituation<Word>,
    left: State,
    p: State,
    precision: u32,
) -> Part<Word, State>
    requires sized { precision < State.BITS }
    requires total { State.number left + State.number p ≤ 2 ^ precision }
    requires fit { PartsFit Word.number Word.BITS State.BITS situation (State.number lower) (State.number range) }
    ensures fit { PartsFit Word.number Word.BITS State.BITS result.situation
        (State.number result.lower) (State.number result.range) }
    ensures place { CanHoldMore situation → CanHoldMore result.situation }
    ensures few { length (released_of Word.number result.released) + 2 < 2 ^ 64 }
    ensures held { length (pending_of Word.number Word.BITS result.situation)
        ≤ length (pending_of Word.number Word.BITS situation) }
    ensures none { pending_of Word.number Word.BITS situation ≡ [] → result.released ≡ None }
    ensures range { State.number result.range ≡ State.number range / 2 ^ precision * State.number p }
    ensures run { CutsRun Word.number State.number Word.BITS State.BITS
        (step_of precision (State.number left) (State.number p)) situation lower range result }
{
    let scale = range.shift_right(precision);
    let part = scale.times(p);
    let start = lower.wrapping_plus(scale.times(left));
    match situation {
        EncoderSituation::Normal => Part {
            lower: start,
            range: part,
            situation: EncoderSituation::Normal,
            released: None,
        },
        EncoderSituation::Inverted(count, first) => {
            if reaches_over::<State>(start, part) {
                return Part {
                    lower: start,
                    range: part,
                    situation: EncoderSituation::Inverted(count, first),
                    released: None,
                };
            }
            Part {
                lower: start,
                range: part,
                situation: EncoderSituation::Normal,
                released: Some(add_carry(count, first, start.is_below(lower))),
            }
        }
    }
}

/// The result of a renormalization: the interval, the pending words, and the word to write (`top`), if there is one.
#[derive(Drop)]
pub struct Shifted<Word, State> {
    pub lower: State,
    pub range: State,
    pub situation: EncoderSituation<Word>,
    pub top: Option<Word>,
}

/// Renormalizes the interval: shifts it by one word if `range` is below `2^(State::BITS - Word::BITS)`.
///
/// The word shifted out of `lower` becomes the word to write (`top`) or a pending word.
#[inline(always)]
pub fn grow<Word: WordOf<State>, State: BitArray>(
    lower: State,
    range: State,
    situation: EncoderSituation<Word>,
) -> Shifted<Word, State>
    requires sized { 2 * Word.BITS ≤ State.BITS }
    requires wide { 2 ^ (State.BITS - Word.BITS) ≤ State.number range * 2 ^ Word.BITS }
    requires fit { PartsFit Word.number Word.BITS State.BITS situation (State.number lower) (State.number range) }
    requires place { CanHoldMore situation }
    ensures wide { 2 ^ (State.BITS - Word.BITS) ≤ State.number result.range }
    ensures fit { PartsFit Word.number Word.BITS State.BITS result.situation
        (State.number result.lower) (State.number result.range) }
    ensures held { length (pending_of Word.number Word.BITS result.situation)
        ≤ length (pending_of Word.number Word.BITS situation) + 1 }
    ensures run { GrowsRun Word.number State.number Word.BITS State.BITS situation lower range result }
{
    let below = State::BITS - Word::BITS;
    if !range.shift_right(below).is_nothing() {
        return Shifted {
            lower,
            range,
            situation,
            top: None,
        };
    }
    let top = Word::narrow(lower.shift_right(below));
    let lower = lower.low_bits(below).shift_left(Word::BITS);
    let range = range.shift_left(Word::BITS);
    match situation {
        EncoderSituation::Inverted(count, first) => Shifted {
            lower,
            range,
            situation: EncoderSituation::Inverted(nonzero_count(count.get() + 1), first),
            top: None,
        },
        EncoderSituation::Normal => {
            if reaches_over(lower, range) {
                Shifted {
                    lower,
                    range,
                    situation: EncoderSituation::Inverted(nonzero_count(1), top),
                    top: None,
                }
            } else {
                Shifted {
                    lower,
                    range,
                    situation: EncoderSituation::Normal,
                    top: Some(top),
                }
            }
        }
    }
}

/// Encodes the symbol with the quantiles `[left, left + p)`, and returns the new interval and pending words.
///
/// The call writes the words that no later carry can change, after it has asked for room for them. If the backend
/// refuses room or a write, the call returns the backend's error.
#[inline(always)]
pub fn step_onto<Word: WordOf<State>, State: BitArray, Backend: WriteWords<Word>>(
    bulk: &mut Backend,
    lower: State,
    range: State,
    situation: EncoderSituation<Word>,
    left: State,
    p: State,
    precision: u32,
) -> Result<Shifted<Word, State>, Backend::WriteError>
    requires sizes { IsSizes Word.BITS State.BITS }
    requires step { IsStep Word.BITS (step_of precision (State.number left) (State.number p)) }
    requires wide { 2 ^ (State.BITS - Word.BITS) ≤ State.number range }
    requires fit { PartsFit Word.number Word.BITS State.BITS situation (State.number lower) (State.number range) }
    requires place { CanHoldMore situation }
    ensures { EncodesAtInterval Word.number State.number Backend.Holds Backend.WriteWords.own Word.BITS State.BITS
        lower range situation (step_of precision (State.number left) (State.number p))
        bulk.old result bulk.new }
{
    let part = narrow_interval(lower, range, situation, left, p, precision);
    let after = grow(part.lower, part.range, part.situation);
    write_step(bulk, part.released, after.top)?;
    Ok(after)
}
