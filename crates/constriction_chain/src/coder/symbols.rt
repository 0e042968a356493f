//! The two steps of the coder: decoding a symbol from the compressed words, and encoding it back.
//!
//! The traits `Encode` and `EncodeReverse` also have methods that encode lists of symbols. The methods of `Encode` go
//! from first to last, and the methods of `EncodeReverse` go from last to first.
//!
//! A decode may write a word without reading one. Such a decode doesn't ask for room, because the write is its only
//! call to a backend.

ghost use Rattle.constriction_base.specs.Steps.{Step};
ghost use Rattle.constriction_chain.specs.Steps.{DecodeCall, EncodeCall, Halted, IsEndOfData, IsLackOfRoom};
ghost use Rattle.constriction_chain.specs.Steps.{never_encoded, never_lack};
ghost use Rattle.constriction_chain.specs.declared.errors.EncoderFrontendError.TheVariants.{ImpossibleSymbol};
ghost use Rattle.constriction_stream.specs.Symbols.{EncodesSymbol, GoesOn, HasRoom};
ghost use Rattle.std.specs.Bool.{OnFalse};
ghost use Rattle.std.specs.Prelude.{[], ⊤, ◌≡◌, ◌||◌};

use crate::coder::ChainCoder;
use crate::errors::{
    BackendError, DecoderError, DecoderFrontendError, EncoderError, EncoderFrontendError,
};
use crate::halves::{give, keep, take};
use constriction_base::backends::{Holds, ReadWords, Stack, WriteWords};
use constriction_base::errors::CoderError;
use constriction_base::model::{DecoderModel, EncoderModel, EntropyModel};
use constriction_stream::decoding::Decode;
use constriction_stream::encoding::{Encode, EncodeReverse};
use constriction_words::{BitArray, WordOf};

impl<
    Word: WordOf<State>,
    State: BitArray,
    C: ReadWords<Word, Stack>,
    R: WriteWords<Word>,
    const PRECISION: usize,
> Decode<PRECISION> for ChainCoder<Word, State, C, R, PRECISION> {
    type FrontendError = DecoderFrontendError;

    type BackendError = BackendError<C::ReadError, R::WriteError>;

    ghost decodes = { DecodeCall Word.number C.Holds C.ReadWords.own R.Holds R.WriteWords.own Word.BITS State.BITS };

    ghost halts = { Halted Word.number C.Holds C.ReadWords.own R.Holds R.WriteWords.own
        Word.BITS State.BITS PRECISION };

    ghost has_data = { λ coder. C.is_list → C.words coder.compressed ≡ [] → ⊥ };

    ghost is_end_of_data = { IsEndOfData R.is_lack_of_room };

    /// Decodes a symbol from the compressed words, with a model of the coder's precision.
    ///
    /// The coder reads at most one compressed word and writes at most one word to the remainders. The coder needs a
    /// compressed word if fewer than `PRECISION` bits are left over. Before it reads that word, it asks the remainders'
    /// backend for room for one word.
    ///
    /// # Errors
    ///
    /// After an error, the heads are unchanged, and the remainders have at least as much room as before the call.
    ///
    /// - `Frontend(OutOfCompressedData)`: the coder needs a compressed word, and none is left. If the compressed
    ///   backend behaves as a fixed list of words (`is_list`), as vectors do, the state is unchanged.
    /// - `Backend(Compressed(error))`: the coder needs a compressed word, and the read returns `error`. If the
    ///   compressed backend behaves as a fixed list of words (`is_list`), the compressed words are unchanged.
    /// - `Backend(Remainders(error))`: the coder needs a compressed word, and the remainders' backend refuses room for
    ///   one word. The state is unchanged.
    /// - `Backend(Remainders(error))`: the remainders' backend refuses to write a word. The compressed backend has lost
    ///   at most one word. It has lost none if a successful `prepare` of the remainders' backend guarantees room
    ///   (`makes_room`), as for vectors.
    #[inline(always)]
    fn decode_symbol<M>(
        &mut self,
        model: M,
    ) -> Result<M::Symbol, DecoderError<C::ReadError, R::WriteError>>
    where
        M: DecoderModel<PRECISION>,
        M::Probability: WordOf<Word>,
    {
        let precision = PRECISION as u32;
        let (mut h, r) = self.heads.numbers();
        let quantile = take(
            &mut self.compressed,
            &mut self.remainders,
            &mut h,
            r,
            precision,
        )?;
        let (symbol, left, p) = model.quantile_function(M::Probability::narrow(quantile));
        let (left, p) = (left.widen(), M::Probability::from_nonzero(p).widen());
        match keep::<Word, State, R>(&mut self.remainders, r, quantile, left, p, precision) {
            Ok(r) => {
                self.heads.replace(h, r);
                Ok(symbol)
            }
            Err(error) => Err(CoderError::Backend(BackendError::Remainders(error))),
        }
    }

    /// Returns whether the compressed words may have ended, or the remainders may be full.
    ///
    /// If the call returns `false`, the next decode doesn't fail for lack of a compressed word or of room in the
    /// remainders.
    #[inline]
    fn maybe_exhausted(&self) -> bool
        ensures value { result ≡ C.seems_exhausted self.now.compressed || R.seems_full self.now.remainders }
        ensures data { OnFalse result (⟦<Self as Decode<PRECISION>>⟧.has_data self.now) }
        ensures goes_on { OnFalse result (GoesOn (⟦<Self as Decode<PRECISION>>⟧.decodes)
            (⟦<Self as Decode<PRECISION>>⟧.halts)
            (⟦<Self as Decode<PRECISION>>⟧.is_end_of_data) self.now) }
    {
        self.compressed.maybe_exhausted() || self.remainders.maybe_full()
    }
}

impl<
    Word: WordOf<State>,
    State: BitArray,
    C: WriteWords<Word>,
    R: ReadWords<Word, Stack>,
    const PRECISION: usize,
> Encode<PRECISION> for ChainCoder<Word, State, C, R, PRECISION> {
    type FrontendError = EncoderFrontendError;

    type BackendError = BackendError<C::WriteError, R::ReadError>;

    ghost encodes = { EncodeCall Word.number C.Holds C.WriteWords.own R.Holds R.ReadWords.own Word.BITS State.BITS };

    ghost is_impossible_symbol = { λ error. error ≡ ImpossibleSymbol };

    ghost counts_symbols = { ⊥ };

    ghost symbols_left = { λ _. 0xffff_ffff_ffff_ffff };

    ghost is_lack_of_room = { IsLackOfRoom C.is_lack_of_room };

    ghost tells_room = { λ _. ⊤ };

    ghost never_impossible = { λ old step e new impossible step_gives.
        never_encoded Word.number C.Holds C.WriteWords.own R.Holds R.ReadWords.own e impossible step_gives };

    ghost never_full = { λ e impossible lack.
        never_lack C.WriteError R.ReadError C.is_lack_of_room e impossible lack };

    /// Returns `usize::MAX`: the chain coder has no limit on the number of symbols.
    #[inline]
    fn symbols_left(&self) -> usize {
        usize::MAX
    }

    /// Encodes a symbol with a model of the coder's precision. Encoding is the inverse of decoding.
    ///
    /// The coder reads at most one word of the remainders and writes at most one compressed word. If it has to write a
    /// word, it first asks the compressed backend for room for one word.
    ///
    /// # Errors
    ///
    /// After an error, the heads are unchanged, and the compressed backend has at least as much room as before the
    /// call.
    ///
    /// - `Frontend(ImpossibleSymbol)`: returned if and only if the symbol is impossible under the model. The coder is
    ///   unchanged.
    /// - `Frontend(OutOfRemainders)`: the coder needs a word of the remainders, and none is left. If the remainders'
    ///   backend behaves as a fixed list of words (`is_list`), as vectors do, the state is unchanged.
    /// - `Backend(Remainders(error))`: the coder needs a word of the remainders, and the read returns `error`. If the
    ///   remainders' backend behaves as a fixed list of words (`is_list`), the remainders are unchanged.
    /// - `Backend(Compressed(error))`: the coder has to write a word, and the compressed backend refuses room for it.
    ///   The state is unchanged.
    /// - `Backend(Compressed(error))`: the compressed backend refuses to write that word. This happens only if a
    ///   successful `prepare` of the backend doesn't guarantee room (`makes_room` doesn't hold), as for cursors. The
    ///   remainders have lost at most one word.
    #[inline(always)]
    fn encode_symbol<M>(
        &mut self,
        symbol: &M::Symbol,
        model: M,
    ) -> Result<(), EncoderError<C::WriteError, R::ReadError>>
    where
        M: EncoderModel<PRECISION>,
        M::Probability: WordOf<Word>,
    {
        let (mut h, mut r) = self.heads.numbers();
        let Some((left, p, reciprocal)) = model.left_cumulative_and_reciprocal(symbol) else {
            return Err(CoderError::Frontend(EncoderFrontendError::ImpossibleSymbol));
        };
        let (left, p) = (left.widen(), M::Probability::from_nonzero(p).widen());
        match give(
            &mut self.compressed,
            &mut self.remainders,
            &mut h,
            &mut r,
            left,
            p,
            reciprocal,
            PRECISION as u32,
        ) {
            Ok(()) => {
                self.heads.replace(h, r);
                Ok(())
            }
            Err(error) => Err(error),
        }
    }

    /// Returns whether the remainders may have ended, or the compressed backend may be full.
    ///
    /// If the call returns `false`, the next encode doesn't fail for lack of a word of the remainders or of room in the
    /// compressed backend.
    #[inline]
    fn maybe_full(&self) -> bool
        ensures value { result ≡ R.seems_exhausted self.now.remainders || C.seems_full self.now.compressed }
        ensures room { OnFalse result (⟦<Self as Encode<PRECISION>>⟧.tells_room self.now
            → HasRoom (⟦<Self as Encode<PRECISION>>⟧.encodes)
            (IsLackOfRoom C.is_lack_of_room) self.now) }
    {
        self.remainders.maybe_exhausted() || self.compressed.maybe_full()
    }
}

impl<
    Word: WordOf<State>,
    State: BitArray,
    C: WriteWords<Word>,
    R: ReadWords<Word, Stack>,
    const PRECISION: usize,
> EncodeReverse<PRECISION> for ChainCoder<Word, State, C, R, PRECISION> {}
