//! `EncodeReverse`, the trait of encoders that encode a list from the last symbol to the first.

ghost use Rattle.constriction_stream.specs.Symbols.{EncodesSymbol, EncodesPair};
ghost use Rattle.constriction_stream.specs.Lists.{StepsUntilFault, YieldsUpTo, LowersByItems, TriesItem};

use crate::encoding::{Encode, Lent};
use crate::errors::TryCodingError;
use constriction_base::errors::CoderError;
use constriction_base::model::{EncoderModel, EntropyModel};
use constriction_words::WordOf;

/// An encoder that is a stack: the symbol encoded last is decoded first.
///
/// If a list is encoded from the last symbol to the first, decoding returns the list in order. The trait has no members
/// to implement, so a coder that is a stack implements it in one line. The trait has no laws either: no contract
/// guarantees that an implementor is a stack.
pub trait EncodeReverse<const PRECISION: usize>: Encode<PRECISION> {
    /// Encodes symbols from the last to the first, each under its own model, and stops at the first error.
    ///
    /// A coder that is a stack then decodes the symbols in the order of the list. If the coder limits the number of
    /// symbols (`counts_symbols`), the caller proves that `symbols_left` is at least the number of items.
    ///
    /// # Errors
    ///
    /// Returns the error of the first symbol that the coder refuses, counted from the end of the list. The coder has
    /// encoded the symbols after this symbol in the list, and no other symbols. The call takes no further item from the
    /// iterator.
    ///
    /// # Examples
    ///
    /// ```
    /// coder.encode_symbols_reverse([(&3usize, &table), (&0, &other)])?;
    /// coder.decode_symbol(&table)?; // 3
    /// ```
    final fn encode_symbols_reverse<S, M, I>(
        &mut self,
        symbols_and_models: I,
    ) -> Result<(), CoderError<Self::FrontendError, Self::BackendError>>
    where
        M: EncoderModel<PRECISION>,
        M::Probability: WordOf<Self::Word>,
        S: Lent<M::Symbol> + Drop,
        I: IntoIterator<Item = (S, M)>,
        I::IntoIter: DoubleEndedIterator + Drop,
        requires { YieldsUpTo (I.into_iter_gives symbols_and_models) I.IntoIter.can_next_back I.IntoIter.remaining
            Self.counts_symbols (Self.symbols_left self.old) }
        ensures steps { StepsUntilFault (EncodesPair Self.encodes Self.is_impossible_symbol PRECISION M.table S.lent)
            (I.into_iter_gives symbols_and_models) I.IntoIter.next_back_gives self.old result self.new }
        ensures fewer_left { LowersByItems (I.into_iter_gives symbols_and_models) I.IntoIter.remaining
            (Self.symbols_left self.old) (Self.symbols_left self.new) }
    {
        for (symbol, model) in symbols_and_models.into_iter().rev() {
            match self.encode_symbol(symbol.lend(), model) {
                Ok(()) => {}
                Err(error) => return Err(error),
            }
        }
        Ok(())
    }

    /// Encodes symbols from the last to the first, where each item is a symbol with its own model, or an error.
    ///
    /// If the coder limits the number of symbols (`counts_symbols`), the caller proves that `symbols_left` is at least
    /// the number of items.
    ///
    /// # Errors
    ///
    /// The call stops at the first item that fails, counted from the end of the list. The coder has encoded the symbols
    /// of the items after this item in the list, and no other symbols. The call takes no further item from the
    /// iterator.
    ///
    /// - `InvalidEntropyModel(error)`: the item is `Err(error)`.
    /// - `CodingError(error)`: the coder refuses the item's symbol.
    final fn try_encode_symbols_reverse<S, M, E, I>(
        &mut self,
        symbols_and_models: I,
    ) -> Result<(), TryCodingError<CoderError<Self::FrontendError, Self::BackendError>, E>>
    where
        M: EncoderModel<PRECISION>,
        M::Probability: WordOf<Self::Word>,
        S: Lent<M::Symbol> + Drop,
        I: IntoIterator<Item = Result<(S, M), E>>,
        I::IntoIter: DoubleEndedIterator + Drop,
        requires { YieldsUpTo (I.into_iter_gives symbols_and_models) I.IntoIter.can_next_back I.IntoIter.remaining
            Self.counts_symbols (Self.symbols_left self.old) }
        ensures steps { StepsUntilFault
            (TriesItem (EncodesPair Self.encodes Self.is_impossible_symbol PRECISION M.table S.lent))
            (I.into_iter_gives symbols_and_models) I.IntoIter.next_back_gives self.old result self.new }
        ensures fewer_left { LowersByItems (I.into_iter_gives symbols_and_models) I.IntoIter.remaining
            (Self.symbols_left self.old) (Self.symbols_left self.new) }
    {
        for symbol_and_model in symbols_and_models.into_iter().rev() {
            let (symbol, model) = match symbol_and_model {
                Ok(pair) => pair,
                Err(error) => return Err(TryCodingError::InvalidEntropyModel(error)),
            };
            match self.encode_symbol(symbol.lend(), model) {
                Ok(()) => {}
                Err(error) => return Err(TryCodingError::CodingError(error)),
            }
        }
        Ok(())
    }

    /// Encodes symbols from the last to the first, all under one model, and stops at the first error.
    ///
    /// A coder that is a stack then decodes the symbols in the order of the list. If the coder limits the number of
    /// symbols (`counts_symbols`), the caller proves that `symbols_left` is at least the number of symbols.
    ///
    /// # Errors
    ///
    /// Returns the error of the first symbol that the coder refuses, counted from the end of the list. The coder has
    /// encoded the symbols after this symbol in the list, and no other symbols. The call takes no further symbol from
    /// the iterator.
    ///
    /// # Examples
    ///
    /// ```
    /// coder.encode_iid_symbols_reverse([2usize, 0, 1].as_slice(), &table)?;
    /// coder.decode_symbol(&table)?; // 2
    /// ```
    final fn encode_iid_symbols_reverse<S, M, I>(
        &mut self,
        symbols: I,
        model: M,
    ) -> Result<(), CoderError<Self::FrontendError, Self::BackendError>>
    where
        M: EncoderModel<PRECISION> + Copy,
        M::Probability: WordOf<Self::Word>,
        S: Lent<M::Symbol> + Drop,
        I: IntoIterator<Item = S>,
        I::IntoIter: DoubleEndedIterator + Drop,
        requires { YieldsUpTo (I.into_iter_gives symbols) I.IntoIter.can_next_back I.IntoIter.remaining
            Self.counts_symbols (Self.symbols_left self.old) }
        ensures steps { StepsUntilFault (λ old symbol result new. EncodesSymbol Self.encodes Self.is_impossible_symbol
            PRECISION (M.table model) (S.lent symbol) old result new)
            (I.into_iter_gives symbols) I.IntoIter.next_back_gives self.old result self.new }
        ensures fewer_left { LowersByItems (I.into_iter_gives symbols) I.IntoIter.remaining (Self.symbols_left self.old)
            (Self.symbols_left self.new) }
    {
        for symbol in symbols.into_iter().rev() {
            match self.encode_symbol(symbol.lend(), model) {
                Ok(()) => {}
                Err(refusal) => return Err(refusal),
            }
        }
        Ok(())
    }
}
