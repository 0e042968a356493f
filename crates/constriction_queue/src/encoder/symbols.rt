//! Encoding one symbol with a range encoder. The trait `Encode` also has methods that encode lists of symbols.

ghost use Rattle.std.specs.Prelude.{◌≡◌, ◌+◌, ◌≤◌, ◌<◌, []};
ghost use Rattle.std.specs.Bool.{OnFalse};
ghost use Rattle.constriction_base.specs.Steps.{IsStep};
ghost use Rattle.constriction_base.specs.declared.errors.DefaultEncoderFrontendError.TheVariants.{ImpossibleSymbol};
ghost use Rattle.constriction_stream.specs.Symbols.{ByBackend, EncodesSymbol, HasRoom, IsBackendError, never_frontend};
ghost use Rattle.constriction_queue.specs.States.{lower_of, range_of};
ghost use Rattle.constriction_queue.specs.Encoder.{IsEncoder, left_to_encode};
ghost use Rattle.constriction_queue.specs.Calls.{EncodeCall};

use crate::encoder::RangeEncoder;
use crate::situation::EncoderSituation;
use crate::state::RangeCoderState;
use crate::step::step_onto;
use constriction_base::backends::{Holds, Stack, WriteWords};
use constriction_base::errors::{CoderError, DefaultEncoderError, DefaultEncoderFrontendError};
use constriction_base::model::{EncoderModel, EntropyModel};
use constriction_stream::coder::Code;
use constriction_stream::encoding::Encode;
use constriction_words::{BitArray, WordOf};

impl<Word: WordOf<State>, State: BitArray, Backend: Holds<Word, Stack>> Code
    for RangeEncoder<Word, State, Backend> {
    type Word = Word;

    type State = RangeCoderState<Word, State>;

    ghost shows = { λ encoder state. (lower_of state ≡ encoder.lower) × (range_of state ≡ encoder.range)
        × IsEncoder Word.number Backend.Holds Word.BITS State.BITS encoder };

    /// Returns the interval.
    #[inline]
    fn state(&self) -> RangeCoderState<Word, State> {
        self.state
    }
}

impl<Word: WordOf<State>, State: BitArray, Backend: WriteWords<Word>> RangeEncoder<
    Word,
    State,
    Backend,
> {
    /// Encodes the symbol whose interval begins at quantile `left` and has the length `p`.
    ///
    /// `encode_symbol` asks a model for these numbers. A caller who already has them doesn't need a model.
    ///
    /// The caller proves that `PRECISION` is at least 1 and at most the number of bits of a word. The caller also
    /// proves that the interval ends at or below `2^PRECISION`, and that `symbols_left` is at least 1.
    ///
    /// # Errors
    ///
    /// Returns an error only if the encoder has to write words, and the backend refuses room for the words or refuses a
    /// write. The interval and the pending words are unchanged. The backend keeps the words that it took before it
    /// refused. If the backend is a vector, its words are unchanged.
    ///
    /// # Examples
    ///
    /// ```
    /// // The same step as that of symbol 1 under a model with the weights 255 and 1.
    /// if let Some(p) = NonZero::<u8>::new(1) {
    ///     encoder.encode_interval::<u8, 8>(255, p)?;
    /// }
    /// ```
    #[inline(always)]
    pub fn encode_interval<P: WordOf<Word>, const PRECISION: usize>(
        &mut self,
        left: P,
        p: P::NonZero,
    ) -> Result<(), Backend::WriteError>
        requires step { IsStep Word.BITS
            record { precision = PRECISION; left = P.number left; p = P.nonzero_number p } }
        requires symbols_left { 0 < left_to_encode self.old }
        ensures { EncodeCall Word.number Backend.Holds Backend.WriteWords.own Word.BITS State.BITS self.old
            record { precision = PRECISION; left = P.number left; p = P.nonzero_number p } result self.new }
    {
        let p = P::from_nonzero(p);
        let after = step_onto(
            &mut self.bulk,
            self.state.lower,
            self.state.range,
            self.situation,
            left.widen().widen(),
            p.widen().widen(),
            PRECISION as u32,
        )?;
        self.state = RangeCoderState::long(after.lower, after.range);
        self.situation = after.situation;
        Ok(())
    }
}

impl<
    Word: WordOf<State>,
    State: BitArray,
    Backend: WriteWords<Word>,
    const PRECISION: usize,
> Encode<PRECISION> for RangeEncoder<Word, State, Backend> {
    type FrontendError = DefaultEncoderFrontendError;

    type BackendError = Backend::WriteError;

    ghost encodes = { ByBackend (EncodeCall Word.number Backend.Holds Backend.WriteWords.own Word.BITS State.BITS) };

    ghost is_impossible_symbol = { λ error. error ≡ ImpossibleSymbol };

    ghost counts_symbols = { Unit {0} };

    ghost symbols_left = { left_to_encode };

    ghost is_lack_of_room = { λ error. IsBackendError error Backend.is_lack_of_room };

    ghost tells_room = { λ encoder. encoder.held ≡ [] };

    ghost never_impossible = { λ old step e new impossible step_gives. never_frontend step_gives.0 e step_gives.2 };

    ghost never_full = { λ e impossible lack. lack };

    /// Returns how many more symbols the encoder can encode: `usize::MAX - 17` minus the number of pending words.
    ///
    /// The limit exists because the number of pending words plus the number of words of a seal has to fit a `usize`. A
    /// seal has at most 16 words, and each encode adds at most one pending word.
    #[inline]
    fn symbols_left(&self) -> usize {
        match self.situation {
            EncoderSituation::Normal => usize::MAX - 17,
            EncoderSituation::Inverted(count, _) => usize::MAX - 17 - count.get(),
        }
    }

    /// Encodes the next symbol with a model of `PRECISION` bits.
    ///
    /// `PRECISION` is at most the number of bits of a word. If the encoder has to write words, it first asks the
    /// backend for room for all of them. It then writes the words, and updates its interval last. The caller proves
    /// that `symbols_left` is at least 1.
    ///
    /// # Errors
    ///
    /// - `Frontend(ImpossibleSymbol)`: returned if and only if the symbol is impossible under the model. The encoder
    ///   is unchanged.
    /// - `Backend(error)`: returned only if the encoder had to write words, and the backend refused room for the words
    ///   or refused a write. The interval and the pending words are unchanged. The backend keeps the words that it took
    ///   before it refused. If the backend is a vector, its words are unchanged.
    #[inline]
    fn encode_symbol<M>(
        &mut self,
        symbol: &M::Symbol,
        model: M,
    ) -> Result<(), DefaultEncoderError<Backend::WriteError>>
    where
        M: EncoderModel<PRECISION>,
        M::Probability: WordOf<Word>,
        requires { ⟦<RangeEncoder<Word, State, Backend> as Encode<PRECISION>>⟧.counts_symbols
            → 0 < ⟦<RangeEncoder<Word, State, Backend> as Encode<PRECISION>>⟧.symbols_left self.old }
        ensures step { EncodesSymbol (⟦<RangeEncoder<Word, State, Backend> as Encode<PRECISION>>⟧.encodes)
            (⟦<RangeEncoder<Word, State, Backend> as Encode<PRECISION>>⟧.is_impossible_symbol)
            PRECISION (M.table model) symbol.now self.old result self.new }
        ensures fewer_left { ⟦<RangeEncoder<Word, State, Backend> as Encode<PRECISION>>⟧.symbols_left self.old
            ≤ ⟦<RangeEncoder<Word, State, Backend> as Encode<PRECISION>>⟧.symbols_left self.new + 1 }
    {
        let Some((left, p)) = model.left_cumulative_and_probability(symbol) else {
            return Err(CoderError::Frontend(DefaultEncoderFrontendError::ImpossibleSymbol));
        };
        match self.encode_interval::<M::Probability, PRECISION>(left, p) {
            Ok(()) => Ok(()),
            Err(refusal) => Err(CoderError::Backend(refusal)),
        }
    }

    /// Returns whether the backend may be full.
    ///
    /// If the call returns `false` and no words are pending, the next encode doesn't fail for lack of room, because it
    /// writes at most one word.
    #[inline]
    fn maybe_full(&self) -> bool
        ensures value { result ≡ Backend.seems_full self.now.bulk }
        ensures room { OnFalse result (⟦<RangeEncoder<Word, State, Backend> as Encode<PRECISION>>⟧.tells_room self.now
            → HasRoom (⟦<RangeEncoder<Word, State, Backend> as Encode<PRECISION>>⟧.encodes)
            (⟦<RangeEncoder<Word, State, Backend> as Encode<PRECISION>>⟧.is_lack_of_room) self.now) }
    {
        self.bulk.maybe_full()
    }
}
