//! `TryDecodeSymbols`, an iterator that decodes symbols from a caller's items. Each item is a model or an error.

ghost use Rattle.std.specs.Prelude.{◌≡◌};
ghost use Rattle.constriction_stream.specs.Symbols.{DecodesByModel};
ghost use Rattle.constriction_stream.specs.Lists.{AnswersNext, TriesItem};

use crate::decoding::Decode;
use crate::errors::TryCodingError;
use constriction_base::errors::CoderError;
use constriction_base::model::{DecoderModel, EntropyModel};
use constriction_words::WordOf;

/// An iterator that decodes one symbol for each model, and returns each error that replaces a model.
///
/// [`Decode::try_decode_symbols`](crate::decoding::Decode::try_decode_symbols) returns this iterator.
///
/// # Examples
///
/// ```
/// let mut symbols = decoder.try_decode_symbols([Ok(&table), Err("lost")]);
/// symbols.next(); // a symbol under `table`
/// symbols.next() // Some(Err(TryCodingError::InvalidEntropyModel("lost")))
/// ```
#[derive(Debug, Drop)]
pub struct TryDecodeSymbols<'a, Decoder, Models, const PRECISION: usize> {
    /// The decoder. If no decode failed, it is positioned after the symbols returned so far.
    pub decoder: &'a mut Decoder,
    /// The items that are left. Each item is a model, or an error instead of a model.
    pub models: Models,
}

impl<Decoder, Models, M, E, const PRECISION: usize> Iterator
    for TryDecodeSymbols<'_, Decoder, Models, PRECISION>
where
    Decoder: Decode<PRECISION>,
    Models: Iterator<Item = Result<M, E>>,
    M: DecoderModel<PRECISION>,
    M::Probability: WordOf<Decoder::Word>,
{
    type Item = Result<
        M::Symbol,
        TryCodingError<CoderError<Decoder::FrontendError, Decoder::BackendError>, E>,
    >;

    ghost can_next = { λ old. Models.can_next old.models };

    ghost next_gives = { λ old result new. (new.decoder.ghost_name ≡ old.decoder.ghost_name)
        × AnswersNext (TriesItem (DecodesByModel Decoder.decodes Decoder.halts PRECISION M.table))
        Models.next_gives old.models old.decoder.now result new.models new.decoder.now };

    ghost remaining = { λ old. Models.remaining old.models };

    fn next(
        &mut self,
    ) -> Option<
        Result<
            M::Symbol,
            TryCodingError<CoderError<Decoder::FrontendError, Decoder::BackendError>, E>,
        >,
    > {
        match self.models.next() {
            Some(Ok(model)) => match self.decoder.decode_symbol(model) {
                Ok(symbol) => Some(Ok(symbol)),
                Err(error) => Some(Err(TryCodingError::CodingError(error))),
            },
            Some(Err(error)) => Some(Err(TryCodingError::InvalidEntropyModel(error))),
            None => None,
        }
    }

    fn size_hint(&self) -> (usize, Option<usize>) {
        self.models.size_hint()
    }
}

impl<Decoder, Models, M, E, const PRECISION: usize> ExactSizeIterator
    for TryDecodeSymbols<'_, Decoder, Models, PRECISION>
where
    Decoder: Decode<PRECISION>,
    Models: ExactSizeIterator<Item = Result<M, E>>,
    M: DecoderModel<PRECISION>,
    M::Probability: WordOf<Decoder::Word>,
{
    fn len(&self) -> usize {
        self.models.len()
    }
}
