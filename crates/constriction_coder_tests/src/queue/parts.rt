//! Intervals and pending words as lists of numbers, as test scripts give them.

ghost use Rattle.constriction_base.specs.Steps.{IsSizes};

use crate::scripts::numbers::Number;
use constriction_queue::{EncoderSituation, RangeCoderState};
use constriction_words::{BitArray, WordOf};
use std::num::NonZeroUsize;

/// Returns whether `numbers[at]` and `numbers[at + 1]` are the lower end and the length of the interval `state`.
pub fn is_interval<Word, State>(
    state: RangeCoderState<Word, State>,
    numbers: &[u128],
    at: usize,
) -> bool
where
    Word: WordOf<State>,
    State: BitArray + Number,
{
    numbers.get(at) == Some(&state.lower().shown())
        && numbers.get(at.saturating_add(1)) == Some(&State::from_nonzero(state.range()).shown())
}

/// Returns the interval with the lower end `numbers[at]` and the length in the next number.
///
/// Returns `None` if a number is missing, or if the interval is too short.
pub fn state_of<Word, State>(numbers: &[u128], at: usize) -> Option<RangeCoderState<Word, State>>
where
    Word: WordOf<State>,
    State: BitArray + Number,
    requires { IsSizes Word.BITS State.BITS }
{
    match (numbers.get(at), numbers.get(at.saturating_add(1))) {
        (Some(lower), Some(range)) => {
            RangeCoderState::new(State::of(*lower), State::of(*range)).ok()
        }
        _ => None,
    }
}

/// Returns the situation of an encoder with `numbers[0]` pending words, the first of which is `numbers[1]`.
///
/// If `numbers[0]` is 0 or a number is missing, no words are pending.
pub fn situation_of<Word: Number>(numbers: &[u128]) -> EncoderSituation<Word> {
    match (numbers.first(), numbers.get(1)) {
        (Some(count), Some(first)) => {
            match NonZeroUsize::new(usize::try_from(*count).unwrap_or(0)) {
                Some(count) => EncoderSituation::Inverted(count, Word::of(*first)),
                None => EncoderSituation::Normal,
            }
        }
        _ => EncoderSituation::Normal,
    }
}

/// Returns whether `numbers` are the number of pending words and the first pending word.
///
/// If no words are pending, `numbers` must be empty.
pub fn is_situation<Word: Number + Drop>(
    situation: EncoderSituation<Word>,
    numbers: &[u128],
) -> bool {
    match situation {
        EncoderSituation::Normal => numbers.is_empty(),
        EncoderSituation::Inverted(count, first) => {
            numbers == [count.get() as u128, first.shown()].as_slice()
        }
    }
}
