//! `ReadBitStream`: streams of bits that decode symbols.
//!
//! [`StackCoder`] and [`QueueDecoder`] implement the trait. Its calls read a bit, decode a symbol, or return an
//! iterator over decoded symbols.

ghost use Rattle.constriction_symbol.specs.Bits.{YieldsBit, PopsBit, BitRead};
ghost use Rattle.constriction_symbol.specs.Codewords.{ReadsSymbol};
ghost use Rattle.constriction_base.specs.Iterators.{item_of_answer};
ghost use Rattle.std.specs.Prelude.{Bool, List, Option, Result, reverse, ◌≡◌};

use crate::codebooks::{Codebook, DecoderCodebook, SymbolCodeError};
use crate::coder::{StackCoder, SymbolCoder};
use crate::iterators::{DecodeSymbols, RepeatCodebook};
use crate::queue::QueueDecoder;
use constriction_base::backends::{Queue, ReadWords, Semantics, Stack};
use constriction_base::errors::CoderError;
use constriction_words::BitArray;
use std::marker::PhantomData;

/// A stream of bits that decodes symbols.
///
/// An implementor defines the list of unread bits (`unread`), what a read may return (`gives`), and whether reads
/// follow the list (`is_list`). The implementor proves that each call obeys these definitions.
///
/// The implementor also proves a law for reads that follow the list: each read returns the first unread bit, `None` if
/// no bit is left, or an error.
pub trait ReadBitStream<S: Semantics> {
    type ReadError;

    /// The bits that the next reads return, in order.
    ///
    /// If reads don't follow this list (`is_list`), the list has no meaning.
    ghost unread: { Self → List Bool };

    /// Holds if reads follow the list of unread bits: the next reads return the bits of `unread`, in order.
    ghost is_list: { Type 0 };

    /// Relates the stream before a read, the read's result, and the stream after the read.
    ghost gives: { Self → Option (Result Bool Self.ReadError) → Self → Type 0 };

    /// Reads the next bit, or returns `None` if no bit is left.
    ///
    /// # Errors
    ///
    /// Returns the error of the bits' source (for example a backend) if a read from the source fails. If reads follow
    /// the list of unread bits (`is_list`), a read that fails leaves the list unchanged.
    fn read_bit(&mut self) -> Result<Option<bool>, Self::ReadError>
        ensures { gives self.old (item_of_answer result) self.new };

    /// Reads the bits of a codeword, and returns the codeword's symbol.
    ///
    /// # Errors
    ///
    /// After an error, the stream continues after the last bit read.
    ///
    /// - `Frontend(OutOfCompressedData)` if the bits end before a codeword is complete.
    /// - `Frontend(InvalidCodeword(error))` if no codeword begins with the bits read.
    /// - `Backend(error)` if the read of a bit fails with this error.
    fn decode_symbol<C: DecoderCodebook>(
        &mut self,
        codebook: C,
    ) -> Result<C::Symbol, CoderError<SymbolCodeError<C::InvalidCodeword>, Self::ReadError>>
        ensures { ReadsSymbol gives (C.codeword codebook) (C.reads_on codebook) (C.is_invalid codebook)
            self.old result self.new };

    /// Returns a lazy iterator that decodes one symbol with each codebook of `codebooks`, in order.
    ///
    /// After an error, the iterator continues with the next codebook. See [`DecodeSymbols`] for an example.
    final fn decode_symbols<I>(&mut self, codebooks: I) -> DecodeSymbols<'_, Self, I::IntoIter, S>
    where
        Self: Sized,
        I: IntoIterator,
        ensures same_reference { result.bit_stream.ghost_name ≡ self.entry.ghost_name }
        ensures stream { result.bit_stream.now ≡ self.old }
        ensures codebooks { I.into_iter_gives codebooks result.codebooks }
    {
        DecodeSymbols {
            bit_stream: self,
            codebooks: codebooks.into_iter(),
            semantics: PhantomData,
        }
    }

    /// Returns a lazy iterator that decodes `amt` symbols, all with `codebook`.
    ///
    /// An error takes the place of one symbol, and the iterator continues. See [`DecodeSymbols`] for an example.
    final fn decode_iid_symbols<'a, C>(
        &'a mut self,
        amt: usize,
        codebook: &'a C,
    ) -> DecodeSymbols<'a, Self, RepeatCodebook<'a, C>, S>
    where
        Self: Sized,
        C: DecoderCodebook,
        ensures same_reference { result.bit_stream.ghost_name ≡ self.entry.ghost_name }
        ensures stream { result.bit_stream.now ≡ self.old }
        ensures codebook { result.codebooks.codebook.now ≡ codebook.now }
        ensures count { result.codebooks.amt ≡ amt }
    {
        DecodeSymbols {
            bit_stream: self,
            codebooks: RepeatCodebook { codebook, amt },
            semantics: PhantomData,
        }
    }

    // If `is_list` holds, a read returns the first unread bit, `None` if no bit is unread, or an error.
    ghost list_law: { is_list → (old : Self) (item : Option (Result Bool Self.ReadError)) (new : Self) →
        gives old item new → YieldsBit (unread old) item (unread new) };
}

impl<Word: BitArray, B: ReadWords<Word, Stack> + Drop> ReadBitStream<Stack>
    for StackCoder<Word, B> {
    type ReadError = B::ReadError;

    ghost unread = { λ c. reverse c.bits };

    ghost is_list = { B.is_list };

    ghost gives = { PopsBit Word.BITS Word.number B.is_list B.reads };

    /// Removes the last bit and returns it, or returns `None` if the stack is empty.
    ///
    /// If the word outside the backend has no bit left, the call first reads the next word from the backend.
    #[inline]
    fn read_bit(&mut self) -> Result<Option<bool>, B::ReadError> {
        SymbolCoder::<Word, Stack, B>::read_bit(self)
    }

    #[inline]
    fn decode_symbol<C: DecoderCodebook>(
        &mut self,
        codebook: C,
    ) -> Result<C::Symbol, CoderError<SymbolCodeError<C::InvalidCodeword>, B::ReadError>> {
        let bits = self.last.top_word();
        if let Some((symbol, count)) = codebook.symbol_at_once(bits, self.last.count()) {
            self.last.drop_last(count);
            return Ok(symbol);
        }
        C::decode_symbol(&codebook, self)
    }

    ghost list_law = { λ known old item new given. given.1 known };
}

impl<Word: BitArray, B: ReadWords<Word, Queue> + Drop> ReadBitStream<Queue>
    for QueueDecoder<Word, B> {
    type ReadError = B::ReadError;

    ghost unread = { λ c. c.bits };

    ghost is_list = { B.is_list };

    ghost gives = { BitRead Word.BITS Word.number B.is_list B.reads };

    /// Removes the first unread bit and returns it, or returns `None` if no bit is left.
    ///
    /// If the word read last has no bit left, the call first reads the next word from the backend.
    #[inline]
    fn read_bit(&mut self) -> Result<Option<bool>, B::ReadError> {
        QueueDecoder::<Word, B>::read_bit(self)
    }

    #[inline]
    fn decode_symbol<C: DecoderCodebook>(
        &mut self,
        codebook: C,
    ) -> Result<C::Symbol, CoderError<SymbolCodeError<C::InvalidCodeword>, B::ReadError>> {
        let bits = self.last.reversed_top();
        if let Some((symbol, count)) = codebook.symbol_at_once(bits, self.last.count()) {
            self.last.drop_first(count);
            return Ok(symbol);
        }
        codebook.decode_symbol(self)
    }

    ghost list_law = { λ known old item new given. given.1 known };
}
