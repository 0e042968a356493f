//! The encoder of the range coder, and its constructors.
//!
//! - [`symbols`]: the step, `encode_symbol`.
//! - [`compressed`]: exporting an encoder's words, and counting them.
//! - [`guard`]: guards that lend the compressed words.
//! - [`lending`]: lending the compressed words to a function.
//! - [`through_guard`]: a decoder that borrows the encoder and reads its compressed words.
//! - [`decoders`]: turning an encoder into a decoder.
//! - [`positions`]: recording positions.

pub mod compressed;
pub mod decoders;
pub mod guard;
pub mod lending;
pub mod positions;
pub mod symbols;
pub mod through_guard;

ghost use Rattle.std.specs.Prelude.{◌≡◌, ◌↔◌, [], map, IsTrue, vec_capacity};
ghost use Rattle.constriction_base.specs.Steps.{IsSizes};
ghost use Rattle.constriction_queue.specs.Range.{initial};
ghost use Rattle.constriction_queue.specs.States.{lower_of, range_of};
ghost use Rattle.constriction_queue.specs.Encoder.{Encoder, IsEncoder, PartsFit, begun_over, encoder_of, run_by};

use crate::situation::EncoderSituation;
use crate::state::RangeCoderState;
use crate::step::reaches_over;
use constriction_base::backends::{Holds, Stack};
use constriction_words::{BitArray, WordOf};
use std::alloc::{AllocError, Allocator, Global};
use std::marker::Model;

/// An encoder that writes words of type `Word` and keeps an interval of numbers of type `State`.
///
/// The symbols form a queue: the symbol encoded first is decoded first.
///
/// The width of `State` is a whole number of words, at least two. Each symbol narrows the interval, and the encoder
/// writes the leading words that all numbers of the interval share. An interval that passes the greatest number of
/// `State` continues at 0. Then a later symbol may still add 1 to the next words to be written (a carry), so the
/// encoder keeps these words pending.
///
/// Contracts describe an encoder by an `Encoder`: the backend, the words written and pending, and the interval. In the
/// run of an encoder (`run_by`), the interval's lower end is an unbounded number. Each renormalization makes this
/// number one word longer. A run has no pending words and no carries.
///
/// # Examples
///
/// ```
/// let mut encoder = DefaultRangeEncoder::new(alloc);
/// encoder.encode_symbol(&1, &table)?;
/// encoder.encode_symbol(&0, &table)?;
/// let words = encoder.into_compressed()?; // a `Vec<u32>`
/// ```
#[derive(Debug, Drop)]
pub struct RangeEncoder<
    Word: WordOf<State>,
    State: BitArray,
    Backend: Holds<Word, Stack> = Vec<Word>,
> {
    bulk: Backend,
    state: RangeCoderState<Word, State>,
    situation: EncoderSituation<Word>,
}

/// An encoder with 32-bit words and 64-bit states, for precisions up to 32 bits.
pub type DefaultRangeEncoder<Backend = Vec<u32>> = RangeEncoder<u32, u64, Backend>;

/// An encoder with 16-bit words and 32-bit states, for precisions up to 16 bits.
pub type SmallRangeEncoder<Backend = Vec<u16>> = RangeEncoder<u16, u32, Backend>;

impl<Word: WordOf<State>, State: BitArray, Backend: Holds<Word, Stack>> Model
    for RangeEncoder<Word, State, Backend> {
    ghost use Rattle.std.specs.Prelude.{◌≤◌};
    ghost use Rattle.constriction_base.specs.Steps.{IsSizes};
    ghost use Rattle.constriction_queue.specs.States.{lower_of, range_of};
    ghost use Rattle.constriction_queue.specs.Encoder.{Encoder, encoder_of, PartsFit};

    ghost Value = { Encoder Backend };

    ghost view = { λ e. encoder_of Word.number Backend.Holds Word.BITS
        (lower_of e.state) (range_of e.state) e.bulk e.situation };

    ghost invariant = { λ e. IsSizes Word.BITS State.BITS
        × PartsFit Word.number Word.BITS State.BITS e.situation (lower_of e.state) (range_of e.state) };
}

impl<Word: WordOf<State>, State: BitArray> RangeEncoder<Word, State, Vec<Word>> {
    /// Creates an empty encoder.
    ///
    /// The call allocates no memory. The encoder allocates memory from `alloc` when it writes words.
    #[inline]
    pub fn new(alloc: Global) -> Self
        requires { IsSizes Word.BITS State.BITS }
        ensures run { run_by Word.BITS State.BITS result ≡ initial State.BITS }
        ensures held { result.held ≡ [] }
        ensures room { vec_capacity result.bulk ≡ 0 }
        ensures coder { IsEncoder Word.number ⟦<Vec<Word> as Holds<Word, Stack>>⟧ Word.BITS State.BITS result }
    {
        RangeEncoder::with_write_backend(Vec::new(alloc))
    }
}

impl<Word: WordOf<State>, State: BitArray, A: Allocator> RangeEncoder<Word, State, Vec<Word, A>> {
    /// Removes all symbols, written words and pending words, and keeps the allocated memory.
    ///
    /// The call removes the pending words too, because they would corrupt the next export. For example, take 8-bit
    /// words and the weights 127, 1, 127, 1. Encoding symbol 1 leaves the word 126 pending. After `clear`, an encoder
    /// that encodes symbol 0 exports `[0]`. If the word 126 stayed pending, the encoder would export `[126, 0]`.
    pub fn clear(&mut self)
        ensures run { run_by Word.BITS State.BITS self.new ≡ initial State.BITS }
        ensures held { self.new.held ≡ [] }
        ensures coder { IsEncoder Word.number ⟦<Vec<Word, A> as Holds<Word, Stack>>⟧ Word.BITS State.BITS self.new }
        ensures room { vec_capacity self.new.bulk ≡ vec_capacity self.old.bulk }
    {
        self.bulk.clear();
        self.state = RangeCoderState::start();
        self.situation = EncoderSituation::Normal;
    }
}

impl<Word: WordOf<State>, State: BitArray, Backend: Holds<Word, Stack>> RangeEncoder<
    Word,
    State,
    Backend,
> {
    /// Creates an encoder that writes after the words of a backend.
    ///
    /// The backend's words stay before the words that the encoder writes. If the backend holds no words, the encoder
    /// starts in the same state as an encoder that [`RangeEncoder::new`] creates.
    ///
    /// # Examples
    ///
    /// ```
    /// let header = [1u32, 2].to_vec(alloc)?;
    /// let encoder = DefaultRangeEncoder::with_write_backend(header); // exports 1, 2, and then its own words
    /// ```
    #[inline]
    pub fn with_write_backend(bulk: Backend) -> Self
        requires { IsSizes Word.BITS State.BITS }
        ensures parts { result ≡ begun_over Word.number Backend.Holds State.BITS bulk }
        ensures run { Backend.words bulk ≡ [] → run_by Word.BITS State.BITS result ≡ initial State.BITS }
        ensures coder { IsEncoder Word.number Backend.Holds Word.BITS State.BITS result }
    {
        RangeEncoder {
            bulk,
            state: RangeCoderState::start(),
            situation: EncoderSituation::Normal,
        }
    }

    /// Returns whether an interval and pending words fit together, as [`RangeEncoder::from_raw_parts`] requires.
    ///
    /// `situation` describes the pending words. The end of the interval is its lower end plus its length. If no words
    /// are pending, the parts fit if and only if the end is below `2^State::BITS`. If words are pending, the parts fit
    /// if and only if all of these conditions hold:
    ///
    /// - The end of the interval is at least `2^State::BITS`.
    /// - The first pending word isn't all ones.
    /// - The length of the interval isn't `2^State::BITS - 1`, the length in an encoder without symbols.
    /// - The number of pending words is at most `usize::MAX - 17`, so adding the words of a seal doesn't overflow.
    pub fn parts_fit(state: RangeCoderState<Word, State>, situation: EncoderSituation<Word>) -> bool
        ensures { IsTrue result
            ↔ PartsFit Word.number Word.BITS State.BITS situation (lower_of state) (range_of state) }
    {
        let over = reaches_over(state.lower(), state.length());
        match situation {
            EncoderSituation::Normal => !over,
            EncoderSituation::Inverted(count, first) => {
                if !over || !first.is_below(Word::greatest()) {
                    return false;
                }
                if !state.length().is_below(State::greatest()) {
                    return false;
                }
                count.get() <= usize::MAX - 17
            }
        }
    }

    /// Creates an encoder from a backend, an interval, and the words that are pending after the backend's words.
    ///
    /// The caller proves that the interval and the pending words fit together, as [`RangeEncoder::parts_fit`] tests.
    ///
    /// # Examples
    ///
    /// ```
    /// let (bulk, state, situation) = encoder.into_raw_parts();
    /// let encoder = RangeEncoder::from_raw_parts(bulk, state, situation); // the same encoder
    /// ```
    #[inline]
    pub fn from_raw_parts(
        bulk: Backend,
        state: RangeCoderState<Word, State>,
        situation: EncoderSituation<Word>,
    ) -> Self
        requires sizes { IsSizes Word.BITS State.BITS }
        requires fit { PartsFit Word.number Word.BITS State.BITS situation (lower_of state) (range_of state) }
        ensures parts { result ≡ encoder_of Word.number Backend.Holds Word.BITS
            (lower_of state) (range_of state) bulk situation }
        ensures coder { IsEncoder Word.number Backend.Holds Word.BITS State.BITS result }
    {
        RangeEncoder {
            bulk,
            state,
            situation,
        }
    }

    /// Splits the encoder into its backend, its interval, and its pending words.
    ///
    /// The backend holds the words written so far.
    #[inline]
    pub fn into_raw_parts(
        self,
    ) -> (
        Backend,
        RangeCoderState<Word, State>,
        EncoderSituation<Word>,
    )
        ensures parts { self ≡ encoder_of Word.number Backend.Holds Word.BITS
            (lower_of result.1) (range_of result.1) result.0 result.2 }
        ensures fit { PartsFit Word.number Word.BITS State.BITS result.2 (lower_of result.1) (range_of result.1) }
        ensures coder { IsEncoder Word.number Backend.Holds Word.BITS State.BITS self }
    {
        let RangeEncoder {
            bulk,
            state: interval,
            situation: held,
        } = self;
        (bulk, interval, held)
    }

    /// Returns the backend, which holds the words written so far, without the pending words.
    #[inline]
    pub fn bulk(&self) -> &Backend
        ensures backend { result.now ≡ self.now.bulk }
        ensures coder { IsEncoder Word.number Backend.Holds Word.BITS State.BITS self.now }
    {
        &self.bulk
    }
}

impl<Word: WordOf<State>, State: BitArray, Backend: Holds<Word, Stack> + Clone> Clone
    for RangeEncoder<Word, State, Backend> {
    ghost is_clone = { λ old new. Backend.is_clone old.bulk new.bulk
        × (new.held ≡ old.held) × (new.lower ≡ old.lower) × (new.range ≡ old.range)
        × IsEncoder Word.number Backend.Holds Word.BITS State.BITS new };

    ghost is_infallible = { λ encoder. Backend.is_infallible encoder.bulk };

    /// Clones the encoder: the same interval and pending words over a clone of the backend.
    ///
    /// # Errors
    ///
    /// Returns `AllocError` only if cloning the backend fails.
    fn clone(&self) -> Result<Self, AllocError> {
        let bulk = self.bulk.clone()?;
        Ok(RangeEncoder {
            bulk,
            state: self.state,
            situation: self.situation,
        })
    }
}
