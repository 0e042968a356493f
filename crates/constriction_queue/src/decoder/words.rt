//! Creating a decoder from words or from its parts, and splitting it into its parts.

ghost use Rattle.std.specs.Prelude.{◌≡◌, ◌↔◌, ◌+◌, ◌-◌, ◌%◌, ◌<◌, ◌^◌, map, IfOk, IfErr, IsOk, IsTrue};
ghost use Rattle.constriction_base.specs.Steps.{IsSizes};
ghost use Rattle.constriction_queue.specs.States.{lower_of, range_of};
ghost use Rattle.constriction_queue.specs.Decoder.{BeginsOver, IsDecoder, MayBeExhausted, RefusesPoint, StandsAtStart};
ghost use Rattle.constriction_queue.specs.Decoder.{decoder_of, distance};

use crate::decoder::RangeDecoder;
use crate::reading::{ends_here, read_point};
use crate::state::RangeCoderState;
use constriction_base::backends::{AsReadWords, Holds, IntoReadWords, Queue, ReadWords};
use constriction_words::{BitArray, WordOf};
use std::alloc::AllocError;

impl<Word: WordOf<State>, State: BitArray, Backend: ReadWords<Word, Queue>> RangeDecoder<
    Word,
    State,
    Backend,
> {
    /// Creates a decoder over a backend, and reads the first `State::BITS / Word::BITS` words.
    ///
    /// If the backend has fewer words, the decoder stops reading at the first read that finds no word. Each missing
    /// word counts as 0.
    ///
    /// # Errors
    ///
    /// Returns the error that the backend returned for a read. The call consumes the backend.
    ///
    /// # Examples
    ///
    /// ```
    /// let words = Cursor::new_at_write_beginning([7u32, 9].as_slice());
    /// let mut decoder = DefaultRangeDecoder::with_backend(words)?;
    /// ```
    pub fn with_backend(mut bulk: Backend) -> Result<Self, Backend::ReadError>
    where
        Backend: Drop,
        requires { IsSizes Word.BITS State.BITS }
        ensures ok { Backend.is_list → IfOk result (λ d.
            StandsAtStart Word.BITS State.BITS (map Word.number (Backend.words bulk)) d) }
        ensures reads { IfOk result (λ d. BeginsOver Word.number Backend.ReadWords.own Word.BITS State.BITS bulk d) }
        ensures err { IfErr result (λ e. (rest : Backend)
            × RefusesPoint Word.number Backend.ReadWords.own Word.BITS State.BITS bulk e rest) }
        ensures coder { IfOk result (λ d. IsDecoder Word.number Backend.Holds Word.BITS State.BITS d) }
    {
        match read_point::<Word, State, Backend>(&mut bulk) {
            Ok(point) => Ok(RangeDecoder {
                bulk,
                state: RangeCoderState::start(),
                distance: point,
            }),
            Err(error) => Err(error),
        }
    }

    /// Creates a decoder from words, for example the words that [`crate::RangeEncoder::into_compressed`] returns.
    ///
    /// # Errors
    ///
    /// Returns the error that the backend returned for a read. Reads from a cursor never fail.
    ///
    /// # Examples
    ///
    /// ```
    /// let mut decoder = DefaultRangeDecoder::from_compressed(words)?; // `words` is a `Vec<u32>`
    /// decoder.decode_symbol(&table)?; // the first symbol encoded
    /// ```
    pub fn from_compressed<Buf: IntoReadWords<Word, Queue, IntoReadWords = Backend>>(
        compressed: Buf,
    ) -> Result<Self, Backend::ReadError>
    where
        Backend: Drop,
        requires { IsSizes Word.BITS State.BITS }
        ensures ok { Backend.is_list → IfOk result (λ d.
            StandsAtStart Word.BITS State.BITS (map Word.number (Buf.words compressed)) d) }
        ensures place { IfOk result (λ d. (first : Backend) × Buf.becomes compressed first
            × BeginsOver Word.number Backend.ReadWords.own Word.BITS State.BITS first d) }
        ensures err { IfErr result (λ e. (first rest : Backend) × Buf.becomes compressed first
            × RefusesPoint Word.number Backend.ReadWords.own Word.BITS State.BITS first e rest) }
        ensures coder { IfOk result (λ d. IsDecoder Word.number Backend.Holds Word.BITS State.BITS d) }
    {
        Self::with_backend(compressed.into_read_words())
    }

    /// Creates a decoder that reads borrowed words.
    ///
    /// # Errors
    ///
    /// Returns the error that the backend returned for a read. Reads from a cursor never fail.
    ///
    /// # Examples
    ///
    /// ```
    /// let mut decoder = RangeDecoder::<u32, u64, _>::for_compressed(&words)?; // `words` is a `Vec<u32>`
    /// ```
    pub fn for_compressed<'a, Buf: AsReadWords<'a, Word, Queue, AsReadWords = Backend>>(
        compressed: &'a Buf,
    ) -> Result<Self, Backend::ReadError>
    where
        Backend: Drop,
        requires { IsSizes Word.BITS State.BITS }
        ensures ok { Backend.is_list → IfOk result (λ d.
            StandsAtStart Word.BITS State.BITS (map Word.number (Buf.words compressed.now)) d) }
        ensures place { IfOk result (λ d. (first : Backend) × Buf.becomes compressed.now first
            × BeginsOver Word.number Backend.ReadWords.own Word.BITS State.BITS first d) }
        ensures err { IfErr result (λ e. (first rest : Backend) × Buf.becomes compressed.now first
            × RefusesPoint Word.number Backend.ReadWords.own Word.BITS State.BITS first e rest) }
        ensures coder { IfOk result (λ d. IsDecoder Word.number Backend.Holds Word.BITS State.BITS d) }
    {
        Self::with_backend(compressed.as_read_words())
    }

    /// Returns whether all encoded symbols may have been decoded.
    ///
    /// At every precision, the decoder's `Decode::maybe_exhausted` returns the same value. The documentation of that
    /// implementation states the conditions.
    #[inline]
    pub fn maybe_exhausted(&self) -> bool
        ensures { IsTrue result ↔ MayBeExhausted Word.BITS State.BITS Backend.seems_exhausted self.now }
    {
        self.bulk.maybe_exhausted() && ends_here(self.state, self.distance)
    }
}

impl<Word: WordOf<State>, State: BitArray, Backend: Holds<Word, Queue>> RangeDecoder<
    Word,
    State,
    Backend,
> {
    /// Creates a decoder from an interval, a point, and a backend that holds the remaining words.
    ///
    /// The last `State::BITS / Word::BITS` words read form a number, the point.
    ///
    /// # Errors
    ///
    /// Returns `bulk` if and only if the point doesn't lie in the interval.
    ///
    /// # Examples
    ///
    /// ```
    /// let words = Cursor::new_at_write_beginning([7u32, 9].as_slice());
    /// let start = RangeCoderState::new(0u64, u64::MAX)?;
    /// let decoder = DefaultRangeDecoder::from_raw_parts(words, start, 5u64); // Ok: 5 is in the interval
    /// ```
    pub fn from_raw_parts(
        bulk: Backend,
        state: RangeCoderState<Word, State>,
        point: State,
    ) -> Result<Self, Backend>
        requires { IsSizes Word.BITS State.BITS }
        ensures variant { IsOk result ↔ (distance State.BITS (decoder_of Word.number Backend.Holds
            (lower_of state) (range_of state) (State.number point) bulk) < range_of state) }
        ensures parts { IfOk result (λ d.
            d ≡ decoder_of Word.number Backend.Holds (lower_of state) (range_of state) (State.number point) bulk) }
        ensures err { IfErr result (λ rest. rest ≡ bulk) }
        ensures coder { IfOk result (λ d. IsDecoder Word.number Backend.Holds Word.BITS State.BITS d) }
    {
        let distance = point.wrapping_minus(state.lower());
        if !distance.is_below(state.length()) {
            return Err(bulk);
        }
        Ok(RangeDecoder {
            bulk,
            state,
            distance,
        })
    }

    /// Splits the decoder into its backend, its interval, and its point.
    ///
    /// The backend holds the words that the decoder has not read yet. The point is the number that the last
    /// `State::BITS / Word::BITS` words read form.
    #[inline]
    pub fn into_raw_parts(self) -> (Backend, RangeCoderState<Word, State>, State)
        ensures parts { self ≡ decoder_of Word.number Backend.Holds
            (lower_of result.1) (range_of result.1) (State.number result.2) result.0 }
        ensures coder { IsDecoder Word.number Backend.Holds Word.BITS State.BITS self }
    {
        let RangeDecoder {
            bulk,
            state,
            distance,
        } = self;
        (bulk, state, distance.wrapping_plus(state.lower()))
    }

    /// Returns the backend, which holds the words that the decoder has not read yet.
    #[inline]
    pub fn bulk(&self) -> &Backend
        ensures backend { result.now ≡ self.now.bulk }
        ensures coder { IsDecoder Word.number Backend.Holds Word.BITS State.BITS self.now }
    {
        &self.bulk
    }
}

impl<Word: WordOf<State>, State: BitArray, Backend: Holds<Word, Queue> + Clone> Clone
    for RangeDecoder<Word, State, Backend> {
    ghost is_clone = { λ old new. Backend.is_clone old.bulk new.bulk
        × (new.lower ≡ old.lower) × (new.range ≡ old.range) × (new.point ≡ old.point)
        × IsDecoder Word.number Backend.Holds Word.BITS State.BITS new };

    ghost is_infallible = { λ decoder. Backend.is_infallible decoder.bulk };

    /// Clones the decoder: the same interval and point over a clone of the backend.
    ///
    /// # Errors
    ///
    /// Returns `AllocError` only if cloning the backend fails.
    fn clone(&self) -> Result<Self, AllocError> {
        let bulk = self.bulk.clone()?;
        Ok(RangeDecoder {
            bulk,
            state: self.state,
            distance: self.distance,
        })
    }
}
