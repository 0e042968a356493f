//! The two steps of the coder: encoding and decoding one symbol.
//!
//! The trait `Encode` encodes lists of symbols from first to last. `EncodeReverse` encodes lists from last to first.

ghost use Rattle.constriction_base.specs.declared.errors.DefaultEncoderFrontendError.TheVariants.{ImpossibleSymbol};
ghost use Rattle.constriction_stack.specs.Ans.{DecodeCall, EncodeCall, IsCoder};
ghost use Rattle.constriction_stream.specs.Symbols.{ByBackend, EncodesSymbol, GoesOn, HasRoom, IsBackendError};
ghost use Rattle.constriction_stream.specs.Symbols.{never_frontend};
ghost use Rattle.constriction_base.specs.Steps.{IsStep};
ghost use Rattle.constriction_words.specs.Reciprocals.{IsReciprocalOf};
ghost use Rattle.std.specs.Bool.{OnFalse};
ghost use Rattle.std.specs.Prelude.{IfSome, IsTrue, ⊤, ◌+◌, ◌↔◌, ◌≡◌, ◌≤◌};

use crate::coder::AnsCoder;
use crate::steps::{pop_head, push_onto, refill_head};
use constriction_base::backends::{Holds, ReadWords, Stack, WriteWords};
use constriction_base::errors::{CoderError, DefaultEncoderError, DefaultEncoderFrontendError};
use constriction_base::model::{DecoderModel, EncoderModel, EntropyModel};
use constriction_stream::coder::Code;
use constriction_stream::decoding::Decode;
use constriction_stream::encoding::{Encode, EncodeReverse};
use constriction_words::{BitArray, Reciprocal, WordOf};
use std::convert::Infallible;

impl<Word: WordOf<State>, State: BitArray, Backend: Holds<Word, Stack>> Code
    for AnsCoder<Word, State, Backend> {
    type Word = Word;

    type State = State;

    ghost shows = { λ coder head. (State.number head ≡ coder.state.head)
        × IsCoder Word.number Backend.Holds Word.BITS State.BITS coder };

    /// Returns the head.
    #[inline]
    fn state(&self) -> State {
        self.state
    }
}

impl<Word: WordOf<State>, State: BitArray, Backend: WriteWords<Word>> AnsCoder<
    Word,
    State,
    Backend,
> {
    /// Encodes the symbol whose interval begins at quantile `left` and has the length `p`.
    ///
    /// `encode_symbol` asks a model for these numbers. A caller who already has them doesn't need a model. If the
    /// caller also has the reciprocal of `p`, the coder multiplies instead of dividing by `p`.
    ///
    /// The caller proves that `PRECISION` is at least 1 and at most the number of bits of a word. The caller also
    /// proves that the interval ends at or below `2^PRECISION`, and that `reciprocal`, if there is one, is the
    /// reciprocal of `p`.
    ///
    /// # Errors
    ///
    /// Returns an error only if the coder has to write a word, and the backend refuses room for this word or refuses
    /// the write. The head and the words are unchanged.
    ///
    /// # Examples
    ///
    /// ```
    /// // The same step as that of symbol 1 under a model with the weights 255 and 1.
    /// if let Some(p) = NonZero::<u8>::new(1) {
    ///     coder.encode_interval::<u8, 8>(255, p, None)?;
    /// }
    /// ```
    #[inline(always)]
    pub fn encode_interval<P: WordOf<Word>, const PRECISION: usize>(
        &mut self,
        left: P,
        p: P::NonZero,
        reciprocal: Option<Reciprocal>,
    ) -> Result<(), Backend::WriteError>
        requires step { IsStep Word.BITS
            record { precision = PRECISION; left = P.number left; p = P.nonzero_number p } }
        requires reciprocal { IfSome reciprocal (λ r. IsReciprocalOf r (P.nonzero_number p)) }
        ensures { EncodeCall Word.number Backend.Holds Backend.WriteWords.own Word.BITS State.BITS self.old
            record { precision = PRECISION; left = P.number left; p = P.nonzero_number p } result self.new }
    {
        let p = P::from_nonzero(p);
        match push_onto(
            &mut self.bulk,
            self.state,
            left.widen().widen(),
            p.widen().widen(),
            reciprocal,
            PRECISION as u32,
        ) {
            Ok(pushed) => {
                self.state = pushed;
                self.low = Word::narrow(pushed);
                Ok(())
            }
            Err(refusal) => Err(refusal),
        }
    }
}

impl<
    Word: WordOf<State>,
    State: BitArray,
    Backend: WriteWords<Word>,
    const PRECISION: usize,
> Encode<PRECISION> for AnsCoder<Word, State, Backend> {
    type FrontendError = DefaultEncoderFrontendError;

    type BackendError = Backend::WriteError;

    ghost encodes = { ByBackend (EncodeCall Word.number Backend.Holds Backend.WriteWords.own Word.BITS State.BITS) };

    ghost is_impossible_symbol = { λ error. error ≡ ImpossibleSymbol };

    ghost counts_symbols = { ⊥ };

    ghost symbols_left = { λ _. 0xffff_ffff_ffff_ffff };

    ghost is_lack_of_room = { λ error. IsBackendError error Backend.is_lack_of_room };

    ghost tells_room = { λ _. ⊤ };

    ghost never_impossible = { λ old step e new impossible step_gives. never_frontend step_gives.0 e step_gives.2 };

    ghost never_full = { λ e impossible lack. lack };

    /// Returns `usize::MAX`, because the stack coder has no limit on the number of symbols.
    #[inline]
    fn symbols_left(&self) -> usize {
        usize::MAX
    }

    /// Encodes a symbol under a model of `PRECISION` bits.
    ///
    /// `PRECISION` is at most the number of bits of a word. The coder writes at most one word (the renormalization of
    /// rANS). It asks the backend for room for one word only if it has to write a word.
    ///
    /// # Errors
    ///
    /// - `Frontend(ImpossibleSymbol)`: returned if and only if the symbol is impossible under the model. The coder is
    ///   unchanged.
    /// - `Backend(error)`: returned only if the coder has to write a word, and the backend refuses room for this word
    ///   or refuses the write. The head and the words are unchanged.
    #[inline(always)]
    fn encode_symbol<M>(
        &mut self,
        symbol: &M::Symbol,
        model: M,
    ) -> Result<(), DefaultEncoderError<Backend::WriteError>>
    where
        M: EncoderModel<PRECISION>,
        M::Probability: WordOf<Word>,
        ensures step { EncodesSymbol (⟦<AnsCoder<Word, State, Backend> as Encode<PRECISION>>⟧.encodes)
            (⟦<AnsCoder<Word, State, Backend> as Encode<PRECISION>>⟧.is_impossible_symbol)
            PRECISION (M.table model) symbol.now self.old result self.new }
        ensures fewer_left { ⟦<AnsCoder<Word, State, Backend> as Encode<PRECISION>>⟧.symbols_left self.old
            ≤ ⟦<AnsCoder<Word, State, Backend> as Encode<PRECISION>>⟧.symbols_left self.new + 1 }
    {
        let Some((left, p, reciprocal)) = model.left_cumulative_and_reciprocal(symbol) else {
            return Err(CoderError::Frontend(DefaultEncoderFrontendError::ImpossibleSymbol));
        };
        match self.encode_interval::<M::Probability, PRECISION>(left, p, reciprocal) {
            Ok(()) => Ok(()),
            Err(refusal) => Err(CoderError::Backend(refusal)),
        }
    }

    /// Returns whether the backend may be full.
    ///
    /// If the call returns `false`, encoding the next symbol doesn't fail for lack of room.
    #[inline]
    fn maybe_full(&self) -> bool
        ensures value { result ≡ Backend.seems_full self.now.backend }
        ensures room { OnFalse result (⟦<AnsCoder<Word, State, Backend> as Encode<PRECISION>>⟧.tells_room self.now
            → HasRoom (⟦<AnsCoder<Word, State, Backend> as Encode<PRECISION>>⟧.encodes)
            (⟦<AnsCoder<Word, State, Backend> as Encode<PRECISION>>⟧.is_lack_of_room) self.now) }
    {
        self.bulk.maybe_full()
    }
}

impl<
    Word: WordOf<State>,
    State: BitArray,
    Backend: ReadWords<Word, Stack>,
    const PRECISION: usize,
> Decode<PRECISION> for AnsCoder<Word, State, Backend> {
    type FrontendError = Infallible;

    type BackendError = Backend::ReadError;

    ghost decodes = { ByBackend (DecodeCall Word.number Backend.Holds Backend.ReadWords.own Word.BITS State.BITS) };

    ghost halts = { λ _ _ _. ⊥ };

    ghost has_data = { λ coder. coder.state.head ≡ 0 → ⊥ };

    ghost is_end_of_data = { λ _. ⊥ };

    /// Decodes a symbol under a model of `PRECISION` bits.
    ///
    /// `PRECISION` is at most the number of bits of a word. The coder reads at most one word. The coder never runs out
    /// of data: an empty coder decodes symbols without end.
    ///
    /// # Errors
    ///
    /// Returns `Backend(error)` only if the coder has to read a word and the read returns `error`. The head is
    /// unchanged. If the backend behaves as a fixed list of words (`Holds::is_list`), as vectors and cursors do, the
    /// words are unchanged too.
    #[inline(always)]
    fn decode_symbol<M>(
        &mut self,
        model: M,
    ) -> Result<M::Symbol, CoderError<Infallible, Backend::ReadError>>
    where
        M: DecoderModel<PRECISION>,
        M::Probability: WordOf<Word>,
    {
        let precision = PRECISION as u32;
        let quantile = self.low.widen().low_bits(precision);
        let (symbol, left, p) = model.quantile_function(M::Probability::narrow(Word::narrow(
            quantile,
        )));
        let p = M::Probability::from_nonzero(p);
        let head = pop_head(
            self.state,
            quantile,
            left.widen().widen(),
            p.widen().widen(),
            precision,
        );
        match refill_head(&mut self.bulk, head, &mut self.low) {
            Ok(head) => {
                self.state = head;
                Ok(symbol)
            }
            Err(error) => Err(CoderError::Backend(error)),
        }
    }

    /// Returns whether the head is 0.
    ///
    /// The head is 0 after the caller has decoded all symbols that it encoded onto an empty coder.
    #[inline]
    fn maybe_exhausted(&self) -> bool
        ensures value { IsTrue result ↔ (self.now.state.head ≡ 0) }
        ensures data { OnFalse result (⟦<AnsCoder<Word, State, Backend> as Decode<PRECISION>>⟧.has_data self.now) }
        ensures goes_on { OnFalse result (GoesOn (⟦<AnsCoder<Word, State, Backend> as Decode<PRECISION>>⟧.decodes)
            (⟦<AnsCoder<Word, State, Backend> as Decode<PRECISION>>⟧.halts)
            (⟦<AnsCoder<Word, State, Backend> as Decode<PRECISION>>⟧.is_end_of_data) self.now) }
    {
        self.state.is_nothing()
    }
}

impl<
    Word: WordOf<State>,
    State: BitArray,
    Backend: WriteWords<Word>,
    const PRECISION: usize,
> EncodeReverse<PRECISION> for AnsCoder<Word, State, Backend> {}
