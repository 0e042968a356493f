//! `DecodeSymbols`, an iterator that decodes one symbol for each model.

ghost use Rattle.std.specs.Prelude.{◌≡◌};
ghost use Rattle.constriction_stream.specs.Symbols.{DecodesByModel};
ghost use Rattle.constriction_stream.specs.Lists.{AnswersNext};

use crate::decoding::Decode;
use constriction_base::errors::CoderError;
use constriction_base::model::{DecoderModel, EntropyModel};
use constriction_words::WordOf;

/// An iterator that decodes one symbol for each model.
///
/// [`Decode::decode_symbols`](crate::decoding::Decode::decode_symbols) returns this iterator.
///
/// # Examples
///
/// ```
/// let mut symbols = decoder.decode_symbols([&table, &other]);
/// symbols.next(); // a symbol under `table`
/// symbols.next(); // a symbol under `other`
/// symbols.next() // None
/// ```
#[derive(Debug, Drop)]
pub struct DecodeSymbols<'a, Decoder, Models, const PRECISION: usize> {
    /// The decoder. If no decode failed, it is positioned after the symbols returned so far.
    pub decoder: &'a mut Decoder,
    /// The models of the symbols that are left to decode.
    pub models: Models,
}

impl<Decoder, Models, M, const PRECISION: usize> Iterator
    for DecodeSymbols<'_, Decoder, Models, PRECISION>
where
    Decoder: Decode<PRECISION>,
    Models: Iterator<Item = M>,
    M: DecoderModel<PRECISION>,
    M::Probability: WordOf<Decoder::Word>,
{
    type Item = Result<M::Symbol, CoderError<Decoder::FrontendError, Decoder::BackendError>>;

    ghost can_next = { λ old. Models.can_next old.models };

    ghost next_gives = { λ old result new. (new.decoder.ghost_name ≡ old.decoder.ghost_name)
        × AnswersNext (DecodesByModel Decoder.decodes Decoder.halts PRECISION M.table)
        Models.next_gives old.models old.decoder.now result new.models new.decoder.now };

    ghost remaining = { λ old. Models.remaining old.models };

    fn next(
        &mut self,
    ) -> Option<Result<M::Symbol, CoderError<Decoder::FrontendError, Decoder::BackendError>>> {
        match self.models.next() {
            Some(model) => Some(self.decoder.decode_symbol(model)),
            None => None,
        }
    }

    fn size_hint(&self) -> (usize, Option<usize>) {
        self.models.size_hint()
    }
}

impl<Decoder, Models, M, const PRECISION: usize> ExactSizeIterator
    for DecodeSymbols<'_, Decoder, Models, PRECISION>
where
    Decoder: Decode<PRECISION>,
    Models: ExactSizeIterator<Item = M>,
    M: DecoderModel<PRECISION>,
    M::Probability: WordOf<Decoder::Word>,
{
    fn len(&self) -> usize {
        self.models.len()
    }
}
