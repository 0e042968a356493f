//! `DecodeIidSymbols`, an iterator that decodes a given number of symbols under one model.

ghost use Rattle.std.specs.Prelude.{◌≡◌, IfSome, Some};
ghost use Rattle.std.specs.Iterator.{UpTo, at_most};
ghost use Rattle.std.specs.Iterator.SizeHint.{IsWithinCount};
ghost use Rattle.constriction_stream.specs.Symbols.{DecodesSymbol};
ghost use Rattle.constriction_stream.specs.Lists.{CountsDown};

use crate::decoding::Decode;
use constriction_base::errors::CoderError;
use constriction_base::model::{DecoderModel, EntropyModel};
use constriction_words::WordOf;

/// An iterator that decodes a given number of symbols, all under one model.
///
/// [`Decode::decode_iid_symbols`](crate::decoding::Decode::decode_iid_symbols) returns this iterator.
///
/// # Examples
///
/// ```
/// let mut symbols = decoder.decode_iid_symbols(3, &table);
/// symbols.next(); // the first symbol, as `Some(Ok(symbol))`
/// symbols.len() // 2
/// ```
#[derive(Debug, Drop)]
pub struct DecodeIidSymbols<'a, Decoder, M, const PRECISION: usize> {
    /// The decoder. If no decode failed, it is positioned after the symbols returned so far.
    pub decoder: &'a mut Decoder,
    /// The model of every symbol that the iterator decodes.
    pub model: M,
    /// The number of symbols that are left to decode.
    pub amt: usize,
}

impl<Decoder, M, const PRECISION: usize> Iterator for DecodeIidSymbols<'_, Decoder, M, PRECISION>
where
    Decoder: Decode<PRECISION>,
    M: DecoderModel<PRECISION> + Copy,
    M::Probability: WordOf<Decoder::Word>,
{
    type Item = Result<M::Symbol, CoderError<Decoder::FrontendError, Decoder::BackendError>>;

    ghost next_gives = { λ old result new. (new.decoder.ghost_name ≡ old.decoder.ghost_name)
        × (new.model ≡ old.model)
        × CountsDown (DecodesSymbol Decoder.decodes Decoder.halts PRECISION (M.table old.model))
        old.amt old.decoder.now result new.amt new.decoder.now };

    ghost remaining = { λ old. at_most old.amt };

    fn next(
        &mut self,
    ) -> Option<Result<M::Symbol, CoderError<Decoder::FrontendError, Decoder::BackendError>>> {
        self.amt = self.amt.checked_sub(1)?;
        let answer = self.decoder.decode_symbol(self.model);
        Some(answer)
    }

    fn size_hint(&self) -> (usize, Option<usize>)
        ensures at_least { IsWithinCount result.0 (at_most self.now.amt) }
        ensures at_most { IfSome result.1 (UpTo (at_most self.now.amt)) }
        ensures exact { result ≡ (self.now.amt, Some self.now.amt) }
    {
        (self.amt, Some(self.amt))
    }
}

impl<Decoder, M, const PRECISION: usize> ExactSizeIterator
    for DecodeIidSymbols<'_, Decoder, M, PRECISION>
where
    Decoder: Decode<PRECISION>,
    M: DecoderModel<PRECISION> + Copy,
    M::Probability: WordOf<Decoder::Word>,
{
    fn len(&self) -> usize {
        self.amt
    }
}
