//! Decoding one symbol with a range decoder.

ghost use Rattle.std.specs.Prelude.{◌≡◌, ◌↔◌, ◌≤◌, ◌^◌, Err, IsTrue};
ghost use Rattle.std.specs.Bool.{OnFalse};
ghost use Rattle.constriction_base.specs.Steps.{Step};
ghost use Rattle.constriction_base.specs.declared.errors.CoderError.TheVariants as coder_error;
ghost use Rattle.constriction_queue.specs.declared.decoder.symbols.DecoderFrontendError.TheVariants as frontend_error;
ghost use Rattle.constriction_stream.specs.Symbols.{ByBackend, DecodesSymbol, GoesOn};
ghost use Rattle.constriction_queue.specs.States.{lower_of, range_of};
ghost use Rattle.constriction_queue.specs.Decoder.{IsDecoder, quantile_read, MayBeExhausted};
ghost use Rattle.constriction_queue.specs.Calls.{DecodeCall};

use crate::decoder::RangeDecoder;
use crate::reading::{ends_here, narrow_and_read, quantile_at};
use crate::state::RangeCoderState;
use constriction_base::backends::{Holds, Queue, ReadWords};
use constriction_base::errors::CoderError;
use constriction_base::model::{DecoderModel, EntropyModel};
use constriction_stream::coder::Code;
use constriction_stream::decoding::Decode;
use constriction_words::{BitArray, WordOf};
use thiserror::Error;

/// An error that the decoder itself detects, as opposed to an error that its backend returns.
#[derive(Debug, Clone, Copy, PartialEq, Eq, Error)]
pub enum DecoderFrontendError {
    /// The words don't encode a symbol of any model with the precision of the decode.
    #[error("Tried to decode from compressed data that is invalid for the employed entropy model.")]
    InvalidData,
}

impl<Word: WordOf<State>, State: BitArray, Backend: Holds<Word, Queue>> Code
    for RangeDecoder<Word, State, Backend> {
    type Word = Word;

    type State = RangeCoderState<Word, State>;

    ghost shows = { λ decoder state. (lower_of state ≡ decoder.lower) × (range_of state ≡ decoder.range)
        × IsDecoder Word.number Backend.Holds Word.BITS State.BITS decoder };

    /// Returns the interval.
    #[inline]
    fn state(&self) -> RangeCoderState<Word, State> {
        self.state
    }
}

impl<
    Word: WordOf<State>,
    State: BitArray,
    Backend: ReadWords<Word, Queue>,
    const PRECISION: usize,
> Decode<PRECISION> for RangeDecoder<Word, State, Backend> {
    type FrontendError = DecoderFrontendError;

    type BackendError = Backend::ReadError;

    ghost decodes = { ByBackend (DecodeCall Word.number Backend.Holds Backend.ReadWords.own
        Word.BITS State.BITS) };

    ghost halts = { λ old error new. (error ≡ coder_error.Frontend frontend_error.InvalidData)
        × (2 ^ PRECISION ≤ quantile_read State.BITS PRECISION old) × (new ≡ old) };

    ghost has_data = { λ decoder. MayBeExhausted Word.BITS State.BITS Backend.seems_exhausted decoder → ⊥ };

    ghost is_end_of_data = { λ _. ⊥ };

    /// Decodes the next symbol with a model of `PRECISION` bits.
    ///
    /// `PRECISION` is at most the number of bits of a word. The decoder reads at most one word. If no word is left, it
    /// uses a zero word.
    ///
    /// # Errors
    ///
    /// - `Frontend(InvalidData)`: returned if and only if the words don't encode a symbol of any model with this
    ///   precision. The decoder is unchanged.
    /// - `Backend(error)`: returned only if the decoder had to read a word and the read returned `error`. The interval
    ///   and the point are unchanged. If the backend behaves as a fixed list of words (`Holds::is_list`), as cursors
    ///   do, the words are also unchanged.
    #[inline(always)]
    fn decode_symbol<M>(
        &mut self,
        model: M,
    ) -> Result<M::Symbol, CoderError<DecoderFrontendError, Backend::ReadError>>
    where
        M: DecoderModel<PRECISION>,
        M::Probability: WordOf<Word>,
        ensures step { DecodesSymbol (⟦<RangeDecoder<Word, State, Backend> as Decode<PRECISION>>⟧.decodes)
            (⟦<RangeDecoder<Word, State, Backend> as Decode<PRECISION>>⟧.halts)
            PRECISION (M.table model) self.old result self.new }
        ensures variant { (result ≡ Err (coder_error.Frontend frontend_error.InvalidData))
            ↔ (2 ^ PRECISION ≤ quantile_read State.BITS PRECISION self.old) }
    {
        let precision = PRECISION as u32;
        let (lower, range) = (self.state.lower, self.state.range);
        let quotient = quantile_at::<Word, State>(range, self.distance, precision);
        if !quotient.shift_right(precision).is_nothing() {
            return Err(CoderError::Frontend(DecoderFrontendError::InvalidData));
        }
        let quantile = M::Probability::narrow(Word::narrow(quotient));
        let (symbol, left, p) = model.quantile_function(quantile);
        let p = M::Probability::from_nonzero(p);
        let (left, p) = (left.widen().widen(), p.widen().widen());
        match narrow_and_read(
            &mut self.bulk,
            lower,
            range,
            self.distance,
            left,
            p,
            precision,
        ) {
            Ok(now) => {
                self.state = RangeCoderState::long(now.lower, now.range);
                self.distance = now.distance;
                Ok(symbol)
            }
            Err(error) => Err(CoderError::Backend(error)),
        }
    }

    /// Returns whether all encoded symbols may have been decoded.
    ///
    /// The call returns `true` if and only if the backend's `maybe_exhausted` returns `true` and one of these
    /// conditions holds:
    ///
    /// - The length of the interval is `2^State::BITS - 1`, as in a decoder that has decoded no symbol.
    /// - The distance of the point from the interval's lower end is below `2^(State::BITS - Word::BITS + 1) - 1`, as in
    ///   a decoder that has decoded all symbols of an encoder.
    #[inline]
    fn maybe_exhausted(&self) -> bool
        ensures value { IsTrue result ↔ MayBeExhausted Word.BITS State.BITS Backend.seems_exhausted self.now }
        ensures data { OnFalse result (⟦<RangeDecoder<Word, State, Backend> as Decode<PRECISION>>⟧.has_data self.now) }
        ensures goes_on { OnFalse result (GoesOn (⟦<RangeDecoder<Word, State, Backend> as Decode<PRECISION>>⟧.decodes)
            (⟦<RangeDecoder<Word, State, Backend> as Decode<PRECISION>>⟧.halts)
            (⟦<RangeDecoder<Word, State, Backend> as Decode<PRECISION>>⟧.is_end_of_data) self.now) }
    {
        self.bulk.maybe_exhausted() && ends_here(self.state, self.distance)
    }
}
