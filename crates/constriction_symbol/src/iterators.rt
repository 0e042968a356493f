//! Iterators over decoded symbols, and over a repeated codebook.
//!
//! `StackCoder` and `QueueDecoder` are iterators over bits. Their `size_hint` doesn't report the number of bits left,
//! because the backend may be an iterator, which doesn't know how many words are left. If a coder has `len`, a loop
//! over `0..coder.len()` can read each bit.

ghost use Rattle.constriction_stream.specs.Lists.{AnswersNext};
ghost use Rattle.constriction_symbol.specs.Codewords.{ReadsSymbol};
ghost use Rattle.std.specs.Prelude.{IfSome, None, Some, MatchOption, ◌+◌, ◌≡◌};
ghost use Rattle.std.specs.Iterator.{UpTo, at_most};
ghost use Rattle.std.specs.Iterator.SizeHint.{IsWithinCount};

use crate::codebooks::{Codebook, DecoderCodebook, SymbolCodeError};
use crate::reading::ReadBitStream;
use constriction_base::backends::Semantics;
use constriction_base::errors::CoderError;
use std::marker::PhantomData;

/// An iterator that decodes one symbol with each codebook of the iterator `I`.
///
/// The iterator is lazy: each call of `next` decodes one symbol. After an error, the iterator continues with the next
/// codebook. Dropping the iterator leaves the stream positioned after the last bit read.
/// [`ReadBitStream::decode_symbols`] and [`ReadBitStream::decode_iid_symbols`] return this iterator.
///
/// # Examples
///
/// ```
/// for symbol in decoder.decode_iid_symbols(3, &golomb) {
///     show(symbol?);
/// }
/// ```
#[derive(Debug, Drop)]
pub struct DecodeSymbols<'a, Stream, I, S: Semantics> {
    /// The stream, positioned after the last bit read.
    pub bit_stream: &'a mut Stream,
    /// The codebooks of the symbols still to come.
    pub codebooks: I,
    /// The order in which the stream returns its bits.
    pub semantics: PhantomData<S>,
}

impl<Stream, I, C, S: Semantics> Iterator for DecodeSymbols<'_, Stream, I, S>
where
    Stream: ReadBitStream<S>,
    C: DecoderCodebook,
    I: Iterator<Item = C>,
{
    type Item = Result<
        C::Symbol,
        CoderError<SymbolCodeError<C::InvalidCodeword>, Stream::ReadError>,
    >;

    ghost can_next = { λ old. I.can_next old.codebooks };

    ghost next_gives = { λ old result new. (new.bit_stream.ghost_name ≡ old.bit_stream.ghost_name)
        × AnswersNext (λ stream codebook answer after. ReadsSymbol Stream.gives
        (C.codeword codebook) (C.reads_on codebook) (C.is_invalid codebook) stream answer after)
        I.next_gives old.codebooks old.bit_stream.now result new.codebooks new.bit_stream.now };

    ghost remaining = { λ old. I.remaining old.codebooks };

    fn next(
        &mut self,
    ) -> Option<
        Result<C::Symbol, CoderError<SymbolCodeError<C::InvalidCodeword>, Stream::ReadError>>,
    > {
        match self.codebooks.next() {
            Some(codebook) => Some(self.bit_stream.decode_symbol(codebook)),
            None => None,
        }
    }

    fn size_hint(&self) -> (usize, Option<usize>) {
        self.codebooks.size_hint()
    }
}

impl<Stream, I, C, S: Semantics> ExactSizeIterator for DecodeSymbols<'_, Stream, I, S>
where
    Stream: ReadBitStream<S>,
    C: DecoderCodebook,
    I: ExactSizeIterator<Item = C>,
{
    fn len(&self) -> usize {
        self.codebooks.len()
    }
}

/// An iterator that returns one codebook `amt` times. [`ReadBitStream::decode_iid_symbols`] uses it.
#[derive(Debug, Drop)]
pub struct RepeatCodebook<'a, C> {
    /// The codebook that the iterator returns.
    pub codebook: &'a C,
    /// The number of times that the iterator will still return the codebook.
    pub amt: usize,
}

impl<'a, C> Iterator for RepeatCodebook<'a, C> {
    type Item = &'a C;

    ghost next_gives = { λ old result new. (new.codebook.now ≡ old.codebook.now)
        × MatchOption result ((old.amt ≡ 0) × (new.amt ≡ 0))
        (λ codebook. (codebook.now ≡ old.codebook.now) × (old.amt ≡ new.amt + 1)) };

    ghost remaining = { λ old. at_most old.amt };

    fn next(&mut self) -> Option<&'a C> {
        if self.amt != 0 {
            self.amt -= 1;
            Some(self.codebook)
        } else {
            None
        }
    }

    fn size_hint(&self) -> (usize, Option<usize>)
        ensures at_least { IsWithinCount result.0 (at_most self.now.amt) }
        ensures at_most { IfSome result.1 (UpTo (at_most self.now.amt)) }
        ensures exact { result ≡ (self.now.amt, Some self.now.amt) }
    {
        (self.amt, Some(self.amt))
    }
}

impl<C> ExactSizeIterator for RepeatCodebook<'_, C> {
    fn len(&self) -> usize {
        self.amt
    }
}
