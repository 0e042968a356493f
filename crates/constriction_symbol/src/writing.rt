//! `WriteBitStream`: streams of bits that encode symbols by appending codewords.
//!
//! [`SymbolCoder`] implements the trait for stacks and queues of bits. A stack can also encode a list from its last
//! symbol to its first, so that decoding returns the first symbol first.
//!
//! In contracts, `PutsLast`, `PutsBits`, `ClosesStack` and `ClosesQueue` of `specs/Bits.antt` state which word each
//! write passes to the backend. Their argument `write` is `IsWrite`. `IsWrite` relates the backend before a write, the
//! word, the write's result, and the backend after the write.

ghost use Rattle.constriction_base.specs.Backends.{IsWrite};
ghost use Rattle.constriction_symbol.specs.Bits.{PutsBit, PutsOnto};
ghost use Rattle.constriction_stream.specs.Lists.{StepsUntilFault};
ghost use Rattle.constriction_symbol.specs.Codewords.{LacksMemoryFor, WritesCodeword, WritesPair, WritesSymbol, formed};
ghost use Rattle.constriction_symbol.specs.Reversed.{StacksPair, StacksSymbol};
ghost use Rattle.std.specs.Iterator.{IsFiniteIterable};
ghost use Rattle.std.specs.Prelude.{Bool, List, Result};

use crate::codebooks::{BitOrder, Codebook, EncoderCodebook};
use crate::coder::{StackCoder, SymbolCoder};
use crate::steps::put_bits;
use constriction_base::backends::{Stack, WriteWords};
use constriction_base::errors::{CoderError, DefaultEncoderError};
use constriction_stream::encoding::Lent;
use constriction_words::BitArray;
use std::alloc::AllocError;

/// A stream of bits that encodes a symbol by appending its codeword.
///
/// A queue stores codewords in prefix form (first bit first). A stack stores codewords in suffix form (last bit first).
/// Writing a codeword has the effect of writing its bits one by one.
///
/// An implementor defines the list of bits (`bits`) and what a write may return (`puts`). The implementor proves that
/// each call obeys these definitions.
pub trait WriteBitStream<S: BitOrder> {
    type WriteError: From<AllocError>;

    /// The bits that the stream holds, in writing order.
    ghost bits: { Self → List Bool };

    /// Relates the stream before a write, the bit written, the write's result, and the stream after the write.
    ghost puts: { Self → Bool → Result (Unit {0}) Self.WriteError → Self → Type 0 };

    /// Appends a bit.
    ///
    /// # Errors
    ///
    /// Returns the stream's error if the stream refuses the bit. The bits are then unchanged.
    fn write_bit(&mut self, bit: bool) -> Result<(), Self::WriteError>
        ensures bits { PutsBit (bits self.old) bit result (bits self.new) }
        ensures puts { puts self.old bit result self.new };

    /// Writes the codeword of a symbol.
    ///
    /// # Errors
    ///
    /// - `Frontend(ImpossibleSymbol)` if and only if the symbol has no codeword. The stream is unchanged.
    /// - `Backend(error)` if the write of a bit fails with this error. The call has written exactly the codeword's bits
    ///   before that bit.
    /// - `Backend(Self::WriteError::from(AllocError))` if the codebook needs memory and there is none. The stream is
    ///   unchanged.
    fn encode_symbol<C: EncoderCodebook>(
        &mut self,
        symbol: &C::Symbol,
        codebook: C,
    ) -> Result<(), DefaultEncoderError<Self::WriteError>>
    where
        Self: Sized,
        ensures { WritesCodeword bits puts
            (LacksMemoryFor S.chosen C.prefix_wants C.suffix_wants Self.WriteError.from_gives codebook symbol.now)
            self.old (formed S.form (C.codeword codebook symbol.now)) result self.new }
    {
        let mut push = |bit: bool| -> Result<(), Self::WriteError> { self.write_bit(bit) };
        S::emit_symbol(&codebook, symbol, &mut push)
    }

    /// Writes the codewords of symbols in order, each with its own codebook.
    ///
    /// # Errors
    ///
    /// Returns the error of the first symbol that fails. The call has then written exactly the codewords of all earlier
    /// symbols, and the bits that [`WriteBitStream::encode_symbol`] writes before this error. The call takes no further
    /// item from the iterator.
    ///
    /// # Examples
    ///
    /// ```
    /// encoder.encode_symbols([(&3u32, &golomb), (&0, &golomb)])?;
    /// ```
    final fn encode_symbols<L, C, I>(
        &mut self,
        symbols_and_codebooks: I,
    ) -> Result<(), DefaultEncoderError<Self::WriteError>>
    where
        Self: Sized,
        C: EncoderCodebook,
        L: Lent<C::Symbol> + Drop,
        I: IntoIterator<Item = (L, C)>,
        I::IntoIter: Drop,
        requires { IsFiniteIterable I.into_iter_gives I.IntoIter.can_next I.IntoIter.remaining symbols_and_codebooks }
        ensures { StepsUntilFault (WritesPair bits puts
            (LacksMemoryFor S.chosen C.prefix_wants C.suffix_wants Self.WriteError.from_gives) C.codeword S.form L.lent)
            (I.into_iter_gives symbols_and_codebooks) I.IntoIter.next_gives self.old result self.new }
    {
        for (symbol, codebook) in symbols_and_codebooks {
            match self.encode_symbol(symbol.lend(), codebook) {
                Ok(()) => {}
                Err(error) => return Err(error),
            }
        }
        Ok(())
    }

    /// Writes the codewords of symbols in order, all with one codebook.
    ///
    /// # Errors
    ///
    /// Returns the error of the first symbol that fails, as [`WriteBitStream::encode_symbols`] does.
    final fn encode_iid_symbols<L, C, I>(
        &mut self,
        symbols: I,
        codebook: &C,
    ) -> Result<(), DefaultEncoderError<Self::WriteError>>
    where
        Self: Sized,
        C: EncoderCodebook,
        L: Lent<C::Symbol> + Drop,
        I: IntoIterator<Item = L>,
        I::IntoIter: Drop,
        requires { IsFiniteIterable I.into_iter_gives I.IntoIter.can_next I.IntoIter.remaining symbols }
        ensures { StepsUntilFault (WritesSymbol bits puts
            (LacksMemoryFor S.chosen C.prefix_wants C.suffix_wants Self.WriteError.from_gives codebook.now)
            (C.codeword codebook.now) S.form L.lent)
            (I.into_iter_gives symbols) I.IntoIter.next_gives self.old result self.new }
    {
        for symbol in symbols {
            match self.encode_symbol(symbol.lend(), codebook) {
                Ok(()) => {}
                Err(error) => return Err(error),
            }
        }
        Ok(())
    }
}

/// A receiver of bits, which accepts them one by one.
trait BitSink {
    type Refusal: From<AllocError>;

    /// The bits that the receiver holds, in writing order.
    ghost bits: { Self → List Bool };

    /// Relates the receiver before a write, the bit written, the write's result, and the receiver after the write.
    ghost puts: { Self → Bool → Result (Unit {0}) Self.Refusal → Self → Type 0 };

    /// Appends a bit.
    ///
    /// # Errors
    ///
    /// Returns the receiver's error if the receiver refuses the bit. The bits are then unchanged.
    fn put_bit(&mut self, bit: bool) -> Result<(), Self::Refusal>
        ensures bits { PutsBit (bits self.old) bit result (bits self.new) }
        ensures puts { puts self.old bit result self.new };
}

impl<Word: BitArray, S: BitOrder, B: WriteWords<Word>> BitSink for SymbolCoder<Word, S, B>
where
    B::WriteError: From<AllocError>,
{
    type Refusal = B::WriteError;

    ghost bits = { λ c. c.bits };

    ghost puts = { PutsOnto Word.BITS Word.number (IsWrite B.words B.room B.writes B.write_fails) };

    #[inline]
    fn put_bit(&mut self, bit: bool) -> Result<(), B::WriteError> {
        self.write_bit(bit)
    }
}

/// Writes the codeword of a symbol bit by bit. Returns the errors of [`WriteBitStream::encode_symbol`].
#[inline]
fn write_emitted<S: BitOrder, W: BitSink, C: EncoderCodebook>(
    stream: &mut W,
    symbol: &C::Symbol,
    codebook: C,
) -> Result<(), DefaultEncoderError<W::Refusal>>
    ensures { WritesCodeword W.bits W.puts
        (LacksMemoryFor S.chosen C.prefix_wants C.suffix_wants W.Refusal.from_gives codebook symbol.now)
        stream.old (formed S.form (C.codeword codebook symbol.now)) result stream.new }
{
    let mut push = |bit: bool| -> Result<(), W::Refusal> { stream.put_bit(bit) };
    S::emit_symbol(&codebook, symbol, &mut push)
}

impl<Word: BitArray, S: BitOrder, B: WriteWords<Word>> WriteBitStream<S> for SymbolCoder<Word, S, B>
where
    B::WriteError: From<AllocError>,
{
    type WriteError = B::WriteError;

    ghost bits = { λ c. c.bits };

    ghost puts = { PutsOnto Word.BITS Word.number (IsWrite B.words B.room B.writes B.write_fails) };

    /// Appends a bit.
    ///
    /// If the word outside the backend is full, the call first writes that word to the backend.
    #[inline]
    fn write_bit(&mut self, bit: bool) -> Result<(), B::WriteError> {
        SymbolCoder::<Word, S, B>::write_bit(self, bit)
    }

    /// Writes the codeword of a symbol.
    ///
    /// If [`EncoderCodebook::codeword_at_once`] returns the codeword, the call appends all bits at once.
    #[inline]
    fn encode_symbol<C: EncoderCodebook>(
        &mut self,
        symbol: &C::Symbol,
        codebook: C,
    ) -> Result<(), DefaultEncoderError<B::WriteError>> {
        if let Some(code) = codebook.codeword_at_once::<Word>(symbol) {
            let ordered = S::in_order(code.0, code.1);
            return match put_bits(&mut self.backend, &mut self.last, ordered, code.1) {
                Ok(()) => Ok(()),
                Err(error) => Err(CoderError::Backend(error)),
            };
        }
        write_emitted::<S, SymbolCoder<Word, S, B>, C>(self, symbol, codebook)
    }
}

impl<Word: BitArray, B: WriteWords<Word>> StackCoder<Word, B>
where
    B::WriteError: From<AllocError>,
{
    /// Writes the codewords of symbols from the last to the first, each with its own codebook.
    ///
    /// Decoding then returns the symbols in the order of the list.
    ///
    /// # Errors
    ///
    /// Returns the error of the first symbol that fails, counted from the end of the list. The call has then written
    /// exactly the codewords of all later symbols in the list, and the bits that [`WriteBitStream::encode_symbol`]
    /// writes before this error. The call takes no further item from `symbols_and_codebooks`.
    pub fn encode_symbols_reverse<L, C, I>(
        &mut self,
        symbols_and_codebooks: I,
    ) -> Result<(), DefaultEncoderError<B::WriteError>>
    where
        C: EncoderCodebook,
        L: Lent<C::Symbol> + Drop,
        I: IntoIterator<Item = (L, C)>,
        I::IntoIter: DoubleEndedIterator + Drop,
        requires { IsFiniteIterable
            I.into_iter_gives I.IntoIter.can_next_back I.IntoIter.remaining symbols_and_codebooks }
        ensures { StepsUntilFault (StacksPair Word.BITS Word.number (IsWrite B.words B.room B.writes B.write_fails)
            C.suffix_wants B.WriteError.from_gives C.codeword L.lent)
            (I.into_iter_gives symbols_and_codebooks) I.IntoIter.next_back_gives self.old result self.new }
    {
        for (symbol, codebook) in symbols_and_codebooks.into_iter().rev() {
            match WriteBitStream::<Stack>::encode_symbol(self, symbol.lend(), codebook) {
                Ok(()) => {}
                Err(error) => return Err(error),
            }
        }
        Ok(())
    }

    /// Writes the codewords of symbols from the last to the first, all with one codebook.
    ///
    /// Decoding then returns the symbols in the order of the list.
    ///
    /// # Errors
    ///
    /// Returns the error of the first symbol that fails, as [`StackCoder::encode_symbols_reverse`] does.
    pub fn encode_iid_symbols_reverse<L, C, I>(
        &mut self,
        symbols: I,
        codebook: &C,
    ) -> Result<(), DefaultEncoderError<B::WriteError>>
    where
        C: EncoderCodebook,
        L: Lent<C::Symbol> + Drop,
        I: IntoIterator<Item = L>,
        I::IntoIter: DoubleEndedIterator + Drop,
        requires { IsFiniteIterable I.into_iter_gives I.IntoIter.can_next_back I.IntoIter.remaining symbols }
        ensures { StepsUntilFault (StacksSymbol Word.BITS Word.number (IsWrite B.words B.room B.writes B.write_fails)
            (C.suffix_wants codebook.now) B.WriteError.from_gives (C.codeword codebook.now) L.lent)
            (I.into_iter_gives symbols) I.IntoIter.next_back_gives self.old result self.new }
    {
        for symbol in symbols.into_iter().rev() {
            match WriteBitStream::<Stack>::encode_symbol(self, symbol.lend(), codebook) {
                Ok(()) => {}
                Err(error) => return Err(error),
            }
        }
        Ok(())
    }
}
