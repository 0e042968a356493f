//! `Encode`, the trait of encoders. Its calls encode one symbol or a list of symbols.

ghost use Rattle.std.specs.Prelude.{◌≡◌, ◌+◌, ◌<◌, ◌≤◌, ℕ, Result, Err};
ghost use Rattle.std.specs.Bool.{OnFalse};
ghost use Rattle.constriction_base.specs.Steps.{Step};
ghost use Rattle.constriction_base.specs.declared.errors.CoderError.{CoderError};
ghost use Rattle.constriction_base.specs.declared.errors.CoderError.TheVariants as coder_error;
ghost use Rattle.constriction_stream.specs.Symbols.{EncodesSymbol, EncodesPair, HasRoom};
ghost use Rattle.constriction_stream.specs.Lists.{StepsUntilFault, YieldsUpTo, LowersByItems, TriesItem};

mod reverse;

use crate::coder::Code;
use crate::errors::TryCodingError;
use constriction_base::errors::CoderError;
use constriction_base::model::{EncoderModel, EntropyModel};
use constriction_words::WordOf;
pub use reverse::EncodeReverse;

/// A value that lends a symbol, such as `&Symbol`. Calls that encode lists take symbols in this form.
///
/// An implementor chooses which symbol the value lends (`lent`), and proves that `lend` returns this symbol.
pub trait Lent<Symbol> {
    /// The symbol that the value lends.
    ghost lent: { Self → Symbol };

    /// Returns the symbol that the value lends.
    fn lend(&self) -> &Symbol
        ensures { result.now ≡ lent self.now };
}

impl<Symbol> Lent<Symbol> for &Symbol {
    ghost lent = { λ symbol. symbol.now };

    fn lend(&self) -> &Symbol {
        *self
    }
}

/// A coder that encodes symbols under models of `PRECISION` bits.
///
/// The models guarantee that `PRECISION` is at least 1 and at most the number of bits of a word.
///
/// An implementor chooses the ghost members and proves that each call obeys them. The implementor also proves two laws
/// about the errors that mean an impossible symbol:
///
/// - `encodes` allows none of these errors, because `encodes` describes only the steps of symbols with an entry.
/// - None of these errors means lack of room.
///
/// Generic code can rely only on the contracts of the calls and on these laws. If a caller needs stronger guarantees,
/// it must name the coder's type.
pub trait Encode<const PRECISION: usize>: Code {
    /// The error of a step that the coder itself refuses, for example because the symbol is impossible.
    type FrontendError;

    /// The error of a step that the backend refuses.
    type BackendError;

    /// Relates the coder before a step, the step, the step's result, and the coder after the step.
    ///
    /// A step consists of the precision, and the start and the length of the symbol's interval. With this relation, an
    /// implementor states what its coder does.
    ghost encodes: { Self → Step → Result (Unit {0}) (CoderError Self.FrontendError Self.BackendError)
        → Self → Type 0 };

    /// Holds for each error that means an impossible symbol.
    ///
    /// An implementor may choose any errors, provided that `encodes` allows none of them. The law `never_impossible`
    /// states this condition.
    ghost is_impossible_symbol: { Self.FrontendError → Type 0 };

    /// Holds if `symbols_left` limits the number of symbols that a caller may encode.
    ///
    /// An implementor chooses freely whether `counts_symbols` holds. If `counts_symbols` doesn't hold, no caller has to
    /// prove anything about `symbols_left`.
    ghost counts_symbols: { Type 0 };

    /// The number of symbols that a caller may still encode, if the coder limits this number (`counts_symbols`).
    ///
    /// An implementor chooses the number freely, but `encode_symbol` lowers it by at most 1.
    ghost symbols_left: { Self → ℕ };

    /// Holds for each error that means that the coder is full.
    ///
    /// An implementor may choose any errors, provided that none of them means an impossible symbol. The law
    /// `never_full` states this condition. If no error means that the coder is full, `maybe_full` guarantees nothing.
    ghost is_lack_of_room: { CoderError Self.FrontendError Self.BackendError → Type 0 };

    /// Holds if `maybe_full` can determine whether there is room.
    ///
    /// An implementor freely chooses the states in which `tells_room` holds. If `tells_room` doesn't hold, `maybe_full`
    /// guarantees nothing.
    ghost tells_room: { Self → Type 0 };

    /// Returns the number of symbols that the caller may still encode.
    ///
    /// Encoding a symbol lowers this number by at most 1. A coder without a limit can return `usize::MAX`.
    fn symbols_left(&self) -> usize
        ensures { result ≡ symbols_left self.now };

    /// Encodes a symbol under a model.
    ///
    /// If the coder limits the number of symbols (`counts_symbols`), the caller proves that `symbols_left` is above 0.
    ///
    /// # Errors
    ///
    /// - `Frontend(error)`: the symbol is impossible under the model. The coder is unchanged.
    /// - `Frontend(error)` or `Backend(error)`: the symbol is possible, but the coder or its backend refuses it. The
    ///   implementor states in `encodes` which errors are possible and how they change the coder.
    ///
    /// # Examples
    ///
    /// ```
    /// coder.encode_symbol(&1, &table)?;
    /// ```
    fn encode_symbol<M>(
        &mut self,
        symbol: &M::Symbol,
        model: M,
    ) -> Result<(), CoderError<Self::FrontendError, Self::BackendError>>
    where
        M: EncoderModel<PRECISION>,
        M::Probability: WordOf<Self::Word>,
        requires { counts_symbols → 0 < symbols_left self.old }
        ensures step { EncodesSymbol encodes is_impossible_symbol PRECISION
            (M.table model) symbol.now self.old result self.new }
        ensures fewer_left { symbols_left self.old ≤ symbols_left self.new + 1 };

    /// Encodes symbols in order, each under its own model, and stops at the first error.
    ///
    /// If the coder limits the number of symbols (`counts_symbols`), the caller proves that `symbols_left` is at least
    /// the number of items.
    ///
    /// # Errors
    ///
    /// Returns the error of the first symbol that the coder refuses. The coder has encoded the symbols before this
    /// symbol, and no other symbols. The call takes no further item from the iterator.
    ///
    /// # Examples
    ///
    /// ```
    /// coder.encode_symbols([(&3usize, &table), (&0, &other)])?;
    /// ```
    fn encode_symbols<S, M, I>(
        &mut self,
        symbols_and_models: I,
    ) -> Result<(), CoderError<Self::FrontendError, Self::BackendError>>
    where
        M: EncoderModel<PRECISION>,
        M::Probability: WordOf<Self::Word>,
        S: Lent<M::Symbol> + Drop,
        I: IntoIterator<Item = (S, M)>,
        I::IntoIter: Drop,
        requires { YieldsUpTo (I.into_iter_gives symbols_and_models) I.IntoIter.can_next I.IntoIter.remaining
            counts_symbols (symbols_left self.old) }
        ensures steps { StepsUntilFault (EncodesPair encodes is_impossible_symbol PRECISION M.table S.lent)
            (I.into_iter_gives symbols_and_models) I.IntoIter.next_gives self.old result self.new }
        ensures fewer_left { LowersByItems (I.into_iter_gives symbols_and_models) I.IntoIter.remaining
            (symbols_left self.old) (symbols_left self.new) }
    {
        for (symbol, model) in symbols_and_models {
            match self.encode_symbol(symbol.lend(), model) {
                Ok(()) => {}
                Err(error) => return Err(error),
            }
        }
        Ok(())
    }

    /// Encodes symbols in order, where each item is a symbol with its own model, or an error.
    ///
    /// If the coder limits the number of symbols (`counts_symbols`), the caller proves that `symbols_left` is at least
    /// the number of items.
    ///
    /// # Errors
    ///
    /// The call stops at the first item that fails. The coder has encoded the symbols of the items before this item,
    /// and no other symbols. The call takes no further item from the iterator.
    ///
    /// - `InvalidEntropyModel(error)`: the item is `Err(error)`.
    /// - `CodingError(error)`: the coder refuses the item's symbol.
    fn try_encode_symbols<S, M, E, I>(
        &mut self,
        symbols_and_models: I,
    ) -> Result<(), TryCodingError<CoderError<Self::FrontendError, Self::BackendError>, E>>
    where
        M: EncoderModel<PRECISION>,
        M::Probability: WordOf<Self::Word>,
        S: Lent<M::Symbol> + Drop,
        I: IntoIterator<Item = Result<(S, M), E>>,
        I::IntoIter: Drop,
        requires { YieldsUpTo (I.into_iter_gives symbols_and_models) I.IntoIter.can_next I.IntoIter.remaining
            counts_symbols (symbols_left self.old) }
        ensures steps { StepsUntilFault (TriesItem (EncodesPair encodes is_impossible_symbol PRECISION M.table S.lent))
            (I.into_iter_gives symbols_and_models) I.IntoIter.next_gives self.old result self.new }
        ensures fewer_left { LowersByItems (I.into_iter_gives symbols_and_models) I.IntoIter.remaining
            (symbols_left self.old) (symbols_left self.new) }
    {
        for symbol_and_model in symbols_and_models {
            let (symbol, model) = match symbol_and_model {
                Ok(pair) => pair,
                Err(error) => return Err(TryCodingError::InvalidEntropyModel(error)),
            };
            match self.encode_symbol(symbol.lend(), model) {
                Ok(()) => {}
                Err(error) => return Err(TryCodingError::CodingError(error)),
            }
        }
        Ok(())
    }

    /// Encodes symbols in order, all under one model, and stops at the first error.
    ///
    /// If the coder limits the number of symbols (`counts_symbols`), the caller proves that `symbols_left` is at least
    /// the number of symbols.
    ///
    /// # Errors
    ///
    /// Returns the error of the first symbol that the coder refuses. The coder has encoded the symbols before this
    /// symbol, and no other symbols. The call takes no further symbol from the iterator.
    ///
    /// # Examples
    ///
    /// ```
    /// coder.encode_iid_symbols([2usize, 0, 1].as_slice(), &table)?;
    /// ```
    fn encode_iid_symbols<S, M, I>(
        &mut self,
        symbols: I,
        model: M,
    ) -> Result<(), CoderError<Self::FrontendError, Self::BackendError>>
    where
        M: EncoderModel<PRECISION> + Copy,
        M::Probability: WordOf<Self::Word>,
        S: Lent<M::Symbol> + Drop,
        I: IntoIterator<Item = S>,
        I::IntoIter: Drop,
        requires { YieldsUpTo (I.into_iter_gives symbols) I.IntoIter.can_next I.IntoIter.remaining counts_symbols
            (symbols_left self.old) }
        ensures steps { StepsUntilFault
            (λ old symbol result new. EncodesSymbol encodes is_impossible_symbol PRECISION (M.table model)
            (S.lent symbol) old result new)
            (I.into_iter_gives symbols) I.IntoIter.next_gives self.old result self.new }
        ensures fewer_left { LowersByItems (I.into_iter_gives symbols) I.IntoIter.remaining (symbols_left self.old)
            (symbols_left self.new) }
    {
        for symbol in symbols {
            match self.encode_symbol(symbol.lend(), model) {
                Ok(()) => {}
                Err(refusal) => return Err(refusal),
            }
        }
        Ok(())
    }

    /// Returns whether the coder may refuse the next symbol for lack of room.
    ///
    /// Suppose that the coder can determine whether there is room (`tells_room`). If the call then returns `false`, the
    /// coder doesn't refuse the next symbol for lack of room. The default method always returns `true`.
    fn maybe_full(&self) -> bool
        ensures room { OnFalse result (tells_room self.now → HasRoom encodes is_lack_of_room self.now) }
    {
        true
    }

    // `encodes` allows no error that means an impossible symbol.
    ghost never_impossible: { (old : Self) (step : Step) (e : Self.FrontendError) (new : Self) → is_impossible_symbol e
        → encodes old step (Err (coder_error.Frontend e)) new → ⊥ };

    // No error that means an impossible symbol means that the coder is full.
    ghost never_full: { (e : Self.FrontendError) → is_impossible_symbol e
        → is_lack_of_room (coder_error.Frontend e) → ⊥ };
}
