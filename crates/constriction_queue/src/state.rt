//! `RangeCoderState`: the interval of a range coder.
//!
//! The type keeps the interval's lower end and its length, each as a `State`. An invariant states that the length is at
//! least `2^(State::BITS - Word::BITS)`. [`RangeCoderState::new`] refuses every shorter length, including 0. Therefore
//! [`RangeCoderState::range`] can return the length as a nonzero number.

ghost use Rattle.std.specs.Prelude.{◌≡◌, ◌↔◌, ◌+◌, ◌-◌, ◌*◌, ◌<◌, ◌≤◌, ◌^◌, IfOk, IsOk};

use constriction_words::{BitArray, WordOf};
use std::alloc::AllocError;
use std::marker::PhantomData;

/// An interval of numbers, given by its lower end and its length.
///
/// The length is at least `2^(State::BITS - Word::BITS)`. Contracts refer to the lower end as `lower_of`, and to the
/// length as `range_of`.
///
/// # Examples
///
/// ```
/// RangeCoderState::<u8, u16>::new(7, 256) // Ok: 256 is 2^8
/// RangeCoderState::<u8, u16>::new(7, 255) // Err(())
/// ```
#[derive(Drop, Copy, Debug, PartialEq, Eq, Hash)]
pub struct RangeCoderState<Word: WordOf<State>, State: BitArray> {
    pub(crate) lower: State,
    pub(crate) range: State,
    phantom: PhantomData<Word>,
    ghost wide: { 2 ^ (State.BITS - Word.BITS) ≤ State.number range },
}

impl<Word: WordOf<State>, State: BitArray> Clone for RangeCoderState<Word, State> {
    ghost is_clone = { λ old new. new ≡ old };

    ghost is_infallible = { λ _. Unit {0} };

    /// Returns a copy of the interval. The call never fails.
    fn clone(&self) -> Result<Self, AllocError> {
        Ok(*self)
    }
}

/// Converts `number`, which isn't 0, to the nonzero type of `State`.
#[inline]
fn nonzero<State: BitArray>(number: State) -> State::NonZero
    requires { 0 < State.number number }
    ensures { State.nonzero_number result ≡ State.number number }
{
    match number.to_nonzero() {
        Some(nonzero) => nonzero,
        None => unreachable!(),
    }
}

impl<Word: WordOf<State>, State: BitArray> Default for RangeCoderState<Word, State> {
    ghost use Rattle.constriction_queue.specs.States.{lower_of, range_of};

    ghost is_default = { λ state. (lower_of state ≡ 0) × (range_of state + 1 ≡ 2 ^ State.BITS) };

    /// Returns the interval of a new coder: all numbers of `State` but the greatest.
    fn default() -> Self {
        RangeCoderState::start()
    }
}

impl<Word: WordOf<State>, State: BitArray> RangeCoderState<Word, State> {
    ghost use Rattle.constriction_queue.specs.States.{lower_of, range_of};

    /// Creates the interval `[lower, lower + range)`.
    ///
    /// Any `lower` is allowed. An interval that passes the greatest number of `State` continues at 0.
    ///
    /// # Errors
    ///
    /// Returns `Err(())` if and only if `range` is below `2^(State::BITS - Word::BITS)`.
    pub fn new(lower: State, range: State) -> Result<Self, ()>
        ensures variant { IsOk result ↔ (2 ^ (State.BITS - Word.BITS) ≤ State.number range) }
        ensures lower { IfOk result (λ state. lower_of state ≡ State.number lower) }
        ensures range { IfOk result (λ state. range_of state ≡ State.number range) }
    {
        if range.shift_right(State::BITS - Word::BITS).is_nothing() {
            return Err(());
        }
        Ok(RangeCoderState {
            lower,
            range,
            phantom: PhantomData,
        })
    }

    /// Creates the interval `[lower, lower + range)`.
    ///
    /// The caller proves that `range` is at least `2^(State::BITS - Word::BITS)`.
    #[inline]
    pub(crate) fn long(lower: State, range: State) -> Self
        requires { 2 ^ (State.BITS - Word.BITS) ≤ State.number range }
        ensures lower { lower_of result ≡ State.number lower }
        ensures range { range_of result ≡ State.number range }
    {
        RangeCoderState {
            lower,
            range,
            phantom: PhantomData,
        }
    }

    /// Returns the interval of a new coder: all numbers of `State` but the greatest.
    #[inline]
    pub(crate) fn start() -> Self
        ensures lower { lower_of result ≡ 0 }
        ensures range { range_of result + 1 ≡ 2 ^ State.BITS }
    {
        RangeCoderState {
            lower: State::nothing(),
            range: State::greatest(),
            phantom: PhantomData,
        }
    }

    /// Returns the lower end of the interval.
    #[inline]
    pub fn lower(&self) -> State
        ensures { State.number result ≡ lower_of self.now }
    {
        self.lower
    }

    /// Returns the length of the interval.
    #[inline]
    pub fn range(&self) -> State::NonZero
        ensures { State.nonzero_number result ≡ range_of self.now }
    {
        nonzero(self.range)
    }

    /// Returns the length of the interval as a `State`.
    #[inline]
    pub(crate) fn length(&self) -> State
        ensures value { State.number result ≡ range_of self.now }
        ensures wide { 2 ^ (State.BITS - Word.BITS) ≤ State.number result }
    {
        self.range
    }
}
