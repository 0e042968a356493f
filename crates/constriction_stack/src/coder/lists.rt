//! Encoding lists of symbols from last to first, as methods of the coder, so that no trait has to be in scope.
//!
//! The contracts require that the iterator ends and that its `next_back` may be called. They refer to `next_back`
//! itself, so a caller needs no contract of the adapter `Rev`.

ghost use Rattle.constriction_stream.specs.CoderLists.{EncodesEachPair, EncodesSymbols, YieldsUpToLeft, LowersLeft};
ghost use Rattle.constriction_stream.specs.CoderLists.{TriesPairs};

use crate::coder::AnsCoder;
use constriction_base::backends::{Holds, Stack, WriteWords};
use constriction_base::errors::DefaultEncoderError;
use constriction_base::model::{EncoderModel, EntropyModel};
use constriction_stream::encoding::{Encode, EncodeReverse, Lent};
use constriction_stream::errors::TryCodingError;
use constriction_words::{BitArray, WordOf};

impl<Word: WordOf<State>, State: BitArray, Backend: WriteWords<Word>> AnsCoder<
    Word,
    State,
    Backend,
> {
    /// Encodes the symbols of a list from last to first, each under its own model.
    ///
    /// Decoding then returns the symbols in the order of the list.
    ///
    /// # Errors
    ///
    /// Returns the error of the first `encode_symbol` that fails, counted from the end of the list. The coder has
    /// encoded the symbols after the failing symbol in the list, and no other symbols. The call takes no further item
    /// from `symbols_and_models`.
    pub fn encode_symbols_reverse<S, M, I, const PRECISION: usize>(
        &mut self,
        symbols_and_models: I,
    ) -> Result<(), DefaultEncoderError<Backend::WriteError>>
    where
        M: EncoderModel<PRECISION>,
        M::Probability: WordOf<Word>,
        S: Lent<M::Symbol> + Drop,
        I: IntoIterator<Item = (S, M)>,
        I::IntoIter: DoubleEndedIterator + Drop,
        requires { YieldsUpToLeft ⟦<Self as Encode<PRECISION>>⟧ (I.into_iter_gives symbols_and_models)
            I.IntoIter.can_next_back I.IntoIter.remaining self.old }
        ensures steps { EncodesEachPair ⟦<Self as Encode<PRECISION>>⟧ PRECISION M.table S.lent
            (I.into_iter_gives symbols_and_models) I.IntoIter.next_back_gives self.old result self.new }
        ensures fewer_left { LowersLeft ⟦<Self as Encode<PRECISION>>⟧ (I.into_iter_gives symbols_and_models)
            I.IntoIter.remaining self.old self.new }
    {
        EncodeReverse::<PRECISION>::encode_symbols_reverse(self, symbols_and_models)
    }

    /// Encodes the symbols of a list from last to first. Each item is a symbol with its own model, or an error.
    ///
    /// # Errors
    ///
    /// The call stops at the first failing item, counted from the end of the list. The coder has encoded the symbols
    /// after that item in the list, and no other symbols. The call takes no further item from `symbols_and_models`.
    ///
    /// - `InvalidEntropyModel(error)`: the item is `Err(error)`.
    /// - `CodingError(error)`: encoding the item's symbol returned `error`.
    pub fn try_encode_symbols_reverse<S, M, E, I, const PRECISION: usize>(
        &mut self,
        symbols_and_models: I,
    ) -> Result<(), TryCodingError<DefaultEncoderError<Backend::WriteError>, E>>
    where
        M: EncoderModel<PRECISION>,
        M::Probability: WordOf<Word>,
        S: Lent<M::Symbol> + Drop,
        I: IntoIterator<Item = Result<(S, M), E>>,
        I::IntoIter: DoubleEndedIterator + Drop,
        requires { YieldsUpToLeft ⟦<Self as Encode<PRECISION>>⟧ (I.into_iter_gives symbols_and_models)
            I.IntoIter.can_next_back I.IntoIter.remaining self.old }
        ensures steps { TriesPairs ⟦<Self as Encode<PRECISION>>⟧ PRECISION M.table S.lent
            (I.into_iter_gives symbols_and_models) I.IntoIter.next_back_gives self.old result self.new }
        ensures fewer_left { LowersLeft ⟦<Self as Encode<PRECISION>>⟧ (I.into_iter_gives symbols_and_models)
            I.IntoIter.remaining self.old self.new }
    {
        EncodeReverse::<PRECISION>::try_encode_symbols_reverse(self, symbols_and_models)
    }

    /// Encodes the symbols of a list from last to first, all under the same model.
    ///
    /// Decoding then returns the symbols in the order of the list.
    ///
    /// # Errors
    ///
    /// Returns the error of the first `encode_symbol` that fails, counted from the end of the list. The coder has
    /// encoded the symbols after the failing symbol in the list, and no other symbols. The call takes no further symbol
    /// from `symbols`.
    ///
    /// # Examples
    ///
    /// ```
    /// coder.encode_iid_symbols_reverse([2usize, 0, 1].as_slice(), &table)?;
    /// coder.decode_symbol(&table)?; // 2
    /// ```
    pub fn encode_iid_symbols_reverse<S, M, I, const PRECISION: usize>(
        &mut self,
        symbols: I,
        model: M,
    ) -> Result<(), DefaultEncoderError<Backend::WriteError>>
    where
        M: EncoderModel<PRECISION> + Copy,
        M::Probability: WordOf<Word>,
        S: Lent<M::Symbol> + Drop,
        I: IntoIterator<Item = S>,
        I::IntoIter: DoubleEndedIterator + Drop,
        requires { YieldsUpToLeft ⟦<Self as Encode<PRECISION>>⟧ (I.into_iter_gives symbols)
            I.IntoIter.can_next_back I.IntoIter.remaining self.old }
        ensures steps { EncodesSymbols ⟦<Self as Encode<PRECISION>>⟧ PRECISION (M.table model) S.lent
            (I.into_iter_gives symbols) I.IntoIter.next_back_gives self.old result self.new }
        ensures fewer_left { LowersLeft ⟦<Self as Encode<PRECISION>>⟧ (I.into_iter_gives symbols)
            I.IntoIter.remaining self.old self.new }
    {
        EncodeReverse::<PRECISION>::encode_iid_symbols_reverse(self, symbols, model)
    }
}
