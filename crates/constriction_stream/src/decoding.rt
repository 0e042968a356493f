//! `Decode`, the trait of decoders. Its calls decode one symbol, or return an iterator that decodes a list of symbols.

ghost use Rattle.std.specs.Prelude.{◌≡◌, Result};
ghost use Rattle.std.specs.Bool.{OnFalse};
ghost use Rattle.constriction_base.specs.Steps.{Step};
ghost use Rattle.constriction_base.specs.declared.errors.CoderError.{CoderError};
ghost use Rattle.constriction_stream.specs.Symbols.{DecodesSymbol, GoesOn};

use crate::coder::Code;
use crate::iterators::{DecodeIidSymbols, DecodeSymbols, TryDecodeSymbols};
use constriction_base::errors::CoderError;
use constriction_base::model::{DecoderModel, EntropyModel};
use constriction_words::WordOf;

/// A coder that decodes symbols under models of `PRECISION` bits.
///
/// The models guarantee that `PRECISION` is at least 1 and at most the number of bits of a word.
///
/// An implementor chooses the ghost members and proves two facts:
///
/// - `decode_symbol` finds an entry of the model's table, makes the entry's step as `decodes` allows, and returns the
///   entry's symbol. Otherwise it returns an error that `decodes` or `halts` allows.
/// - If `maybe_exhausted` returns `false`, the next decode doesn't fail for lack of data, and `has_data` holds.
///
/// Generic code can rely only on these facts. If a caller needs stronger guarantees, it must name the coder's type.
pub trait Decode<const PRECISION: usize>: Code {
    /// The error of a step that the coder itself refuses, for example because its data ended or is invalid.
    type FrontendError;

    /// The error of a step that the backend refuses.
    type BackendError;

    /// Relates the coder before a step, the step, the step's result, and the coder after the step.
    ///
    /// A step consists of the precision, and the start and the length of a symbol's interval. With this relation, an
    /// implementor states what its coder does.
    ghost decodes: { Self → Step → Result (Unit {0}) (CoderError Self.FrontendError Self.BackendError)
        → Self → Type 0 };

    /// Relates the coder before a call, an error returned before any use of the model, and the coder after the call.
    ///
    /// An implementor chooses this relation freely. If every call uses the model, choose a relation that never holds.
    ghost halts: { Self → CoderError Self.FrontendError Self.BackendError → Self → Type 0 };

    /// Holds whenever `maybe_exhausted` returns `false`. An implementor chooses this property freely.
    ghost has_data: { Self → Type 0 };

    /// Holds for each error that means that the data ended. An implementor chooses these errors freely.
    ///
    /// For a coder that continues past the end of its data, no error means that the data ended.
    ghost is_end_of_data: { CoderError Self.FrontendError Self.BackendError → Type 0 };

    /// Decodes a symbol under a model.
    ///
    /// The coder finds an entry of the model's table, makes the entry's step as `decodes` allows, and returns the
    /// entry's symbol. A step consists of the precision, and the start and the length of the entry's interval.
    ///
    /// # Errors
    ///
    /// The call returns `Frontend(error)` or `Backend(error)` in two cases:
    ///
    /// - The coder or its backend refuses the call before the coder uses the model. The implementor states in `halts`
    ///   which errors are possible and how they change the coder.
    /// - The coder or its backend refuses the step of an entry. The implementor states in `decodes` which errors are
    ///   possible and how they change the coder.
    ///
    /// # Examples
    ///
    /// ```
    /// let symbol = decoder.decode_symbol(&table)?;
    /// ```
    fn decode_symbol<M>(
        &mut self,
        model: M,
    ) -> Result<M::Symbol, CoderError<Self::FrontendError, Self::BackendError>>
    where
        M: DecoderModel<PRECISION>,
        M::Probability: WordOf<Self::Word>,
        ensures step { DecodesSymbol decodes halts PRECISION (M.table model) self.old result self.new };

    /// Returns an iterator that decodes one symbol for each model of `models`.
    ///
    /// The iterator is lazy: it decodes a symbol only when the caller calls `next`. An error doesn't end the iterator.
    ///
    /// # Examples
    ///
    /// ```
    /// for symbol in decoder.decode_symbols([&table, &other]) {
    ///     symbols.push(symbol?)?;
    /// }
    /// ```
    final fn decode_symbols<I>(
        &mut self,
        models: I,
    ) -> DecodeSymbols<'_, Self, I::IntoIter, PRECISION>
    where
        Self: Sized,
        I: IntoIterator,
        ensures same_reference { result.decoder.ghost_name ≡ self.entry.ghost_name }
        ensures decoder { result.decoder.now ≡ self.old }
        ensures models { I.into_iter_gives models result.models }
    {
        DecodeSymbols {
            decoder: self,
            models: models.into_iter(),
        }
    }

    /// Returns an iterator that decodes one symbol for each model, where each item is a model or an error.
    ///
    /// For an item `Err(error)`, the iterator returns `InvalidEntropyModel(error)` and leaves the decoder unchanged.
    /// For a model, it decodes a symbol as the iterator of [`decode_symbols`](Decode::decode_symbols) does. It returns
    /// an error of the decoder as `CodingError(error)`.
    final fn try_decode_symbols<I>(
        &mut self,
        models: I,
    ) -> TryDecodeSymbols<'_, Self, I::IntoIter, PRECISION>
    where
        Self: Sized,
        I: IntoIterator,
        ensures same_reference { result.decoder.ghost_name ≡ self.entry.ghost_name }
        ensures decoder { result.decoder.now ≡ self.old }
        ensures models { I.into_iter_gives models result.models }
    {
        TryDecodeSymbols {
            decoder: self,
            models: models.into_iter(),
        }
    }

    /// Returns an iterator that decodes `amt` symbols, all under one model.
    ///
    /// The iterator is lazy: it decodes a symbol only when the caller calls `next`. An error doesn't end the iterator.
    ///
    /// # Examples
    ///
    /// ```
    /// for symbol in decoder.decode_iid_symbols(1000, &table) {
    ///     symbols.push(symbol?)?;
    /// }
    /// ```
    final fn decode_iid_symbols<M>(
        &mut self,
        amt: usize,
        model: M,
    ) -> DecodeIidSymbols<'_, Self, M, PRECISION>
    where
        Self: Sized,
        M: DecoderModel<PRECISION> + Copy,
        M::Probability: WordOf<Self::Word>,
        ensures same_reference { result.decoder.ghost_name ≡ self.entry.ghost_name }
        ensures decoder { result.decoder.now ≡ self.old }
        ensures count { result.amt ≡ amt }
        ensures model { result.model ≡ model }
    {
        DecodeIidSymbols {
            decoder: self,
            model,
            amt,
        }
    }

    /// Returns whether the data may have ended.
    ///
    /// If the call returns `false`, the next decode doesn't fail for lack of data, and the ghost member `has_data`
    /// holds for the coder. The default method always returns `true`.
    fn maybe_exhausted(&self) -> bool
        ensures data { OnFalse result (has_data self.now) }
        ensures goes_on { OnFalse result (GoesOn decodes halts is_end_of_data self.now) }
    {
        true
    }
}
