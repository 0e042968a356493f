//! The traits of codebooks, which assign a codeword (a list of bits) to each symbol.
//!
//! A new codebook implements [`Codebook`], and [`EncoderCodebook`] or [`DecoderCodebook`] or both. [`SymbolCodeError`]
//! is the error of a decode.

ghost use Rattle.constriction_base.specs.declared.errors.CoderError.TheVariants as coder;
ghost use Rattle.constriction_symbol.specs.Bits.{bits_of};
ghost use Rattle.constriction_symbol.specs.Codewords.{BeginsTopBits, EmitsCodeword, EmitsSymbol, IsLowBits};
ghost use Rattle.constriction_symbol.specs.Codewords.{NoCodewordBegins};
ghost use Rattle.constriction_symbol.specs.Codewords.{LacksMemory, NoCodewordFits, ReadsSymbol, UnlessBitsEnd};
ghost use Rattle.constriction_symbol.specs.Codewords.{WantsMemory};
ghost use Rattle.std.specs.Iterator.{IsFinite};
ghost use Rattle.std.specs.Prelude.{Bool, IfSome, List, Option, Some, reverse, ◌++◌, ◌<◌, ◌^◌, ◌≡◌, ◌≤◌};

use crate::numbers::first_lowest;
use constriction_base::backends::{Queue, Semantics, Stack};
use constriction_base::errors::{CoderError, DefaultEncoderError};
use constriction_words::BitArray;
use std::alloc::AllocError;
use std::fmt::Display;
use thiserror::Error;

/// A codebook, which assigns a codeword (a list of bits) to each symbol that it can code.
///
/// An implementor defines which symbols mean the same, for example equal numbers. The implementor proves that symbols
/// that mean the same have the same codeword. The implementor also proves that the code is prefix-free: if a symbol's
/// codeword is a prefix of another symbol's codeword, the two symbols mean the same.
pub trait Codebook: Drop {
    type Symbol;

    /// The codeword of a symbol, first bit first (the prefix form), or `None` if the symbol has no codeword.
    ghost codeword: { Self → Self.Symbol → Option (List Bool) };

    /// Holds if two symbols mean the same.
    ghost is_same: { Self → Self.Symbol → Self.Symbol → Type 0 };

    // Symbols that mean the same have the same codeword.
    ghost same_law: { (c : Self) (s t : Self.Symbol) → is_same c s t → codeword c s ≡ codeword c t };

    // If a codeword begins another codeword, their symbols mean the same.
    ghost prefix_law: { (c : Self) (s t : Self.Symbol) (bits tail : List Bool) →
        codeword c s ≡ Some bits → codeword c t ≡ Some (bits ++ tail) → is_same c s t };
}

/// A codebook for encoding, which passes the bits of a codeword to a function, one by one.
///
/// An implementor proves that a successful call passes exactly the bits of the codeword, in the order that the call
/// states. The implementor also defines for which symbols a call may need memory (`prefix_wants`,
/// `suffix_wants`).
pub trait EncoderCodebook: Codebook {
    /// Holds if emitting the symbol's codeword from the first bit to the last (the prefix form) may need memory.
    ghost prefix_wants: { Self → Self.Symbol → Type 0 };

    /// Holds if emitting the symbol's codeword from the last bit to the first (the suffix form) may need memory.
    ghost suffix_wants: { Self → Self.Symbol → Type 0 };

    /// Passes the bits of the symbol's codeword to `emit`, from the first to the last (the prefix form).
    ///
    /// # Errors
    ///
    /// - `Frontend(ImpossibleSymbol)` if and only if the symbol has no codeword. The call emits nothing.
    /// - `Backend(error)` if `emit` returns this error. The call emits the codeword's bits up to and including the bit
    ///   that `emit` refused.
    /// - `Backend(E::from(AllocError))` if the call needs memory and there is none. The call emits nothing.
    fn encode_symbol_prefix<E: From<AllocError>, F: FnMut(bool) -> Result<(), E>>(
        &self,
        symbol: &Self::Symbol,
        emit: &mut F,
    ) -> Result<(), DefaultEncoderError<E>>
        requires { F.IsAlwaysCallable emit.old }
        ensures { EmitsCodeword F.FnMut (LacksMemory (prefix_wants self.now symbol.now) E.From.from_gives)
            emit.old (Self.codeword self.now symbol.now) result emit.new };

    /// Passes the bits of the symbol's codeword to `emit`, from the last to the first (the suffix form).
    ///
    /// # Errors
    ///
    /// Returns the errors of [`EncoderCodebook::encode_symbol_prefix`]: the symbol has no codeword, `emit` returns an
    /// error, or there is no memory.
    fn encode_symbol_suffix<E: From<AllocError>, F: FnMut(bool) -> Result<(), E>>(
        &self,
        symbol: &Self::Symbol,
        emit: &mut F,
    ) -> Result<(), DefaultEncoderError<E>>
        requires { F.IsAlwaysCallable emit.old }
        ensures { EmitsSymbol F.FnMut suffix_wants E.From.from_gives reverse Self.codeword
            self.now symbol.now emit.old result emit.new };

    /// Returns the whole codeword of the symbol in one word, and the codeword's length in bits.
    ///
    /// The codeword is in the lowest bits of the word, and its first bit is the highest of them. The codeword's length
    /// is at least 1 and below `Word::BITS`. So a coder can write the codeword with one shift. The default
    /// implementation returns `None`. A symbol for which the call returns `None` may still have a codeword.
    #[inline]
    fn codeword_at_once<Word: BitArray>(&self, symbol: &Self::Symbol) -> Option<(Word, u32)>
        ensures { IfSome result (λ found.
            IsLowBits Word.BITS (Self.codeword self.now symbol.now) (Word.number found.0) found.1) }
    {
        None
    }
}

/// The order in which a [`Queue`] or a [`Stack`] writes the bits of a codeword.
///
/// A queue writes the first bit first (the prefix form). A stack writes the last bit first (the suffix form).
pub trait BitOrder: Semantics {
    /// The bits of a codeword in writing order, given its bits in reading order.
    ghost form: { List Bool → List Bool };

    /// Converts a codeword in the lowest `count` bits of a word to writing order.
    ///
    /// In `bits` the codeword's first bit is the highest of the `count` bits. In the result the bit to write first is
    /// the lowest. The caller proves that `count` is at most `Word::BITS`, and that all higher bits of `bits` are 0.
    fn in_order<Word: BitArray>(bits: Word, count: u32) -> Word
        requires within { count ≤ Word.BITS }
        requires small { Word.number bits < 2 ^ count }
        ensures bits { bits_of count (Word.number result) ≡ form (reverse (bits_of count (Word.number bits))) }
        ensures small { Word.number result < 2 ^ count };

    /// Chooses between two statements by the form that the stream writes.
    ///
    /// The first argument is a statement about the prefix form, the second argument about the suffix form. The result
    /// is the first argument for a queue, and the second argument for a stack.
    ghost chosen: { Type 0 → Type 0 → Type 0 };

    /// Passes the bits of the symbol's codeword to `emit`, in writing order.
    ///
    /// # Errors
    ///
    /// Returns the errors of [`EncoderCodebook::encode_symbol_prefix`]: the symbol has no codeword, `emit` returns an
    /// error, or there is no memory.
    fn emit_symbol<C: EncoderCodebook, E: From<AllocError>, F: FnMut(bool) -> Result<(), E>>(
        codebook: &C,
        symbol: &C::Symbol,
        emit: &mut F,
    ) -> Result<(), DefaultEncoderError<E>>
        requires { F.IsAlwaysCallable emit.old }
        ensures { EmitsSymbol F.FnMut (WantsMemory chosen C.prefix_wants C.suffix_wants) E.From.from_gives form
            C.codeword codebook.now symbol.now emit.old result emit.new };
}

impl BitOrder for Queue {
    ghost form = { λ bits. bits };

    ghost chosen = { λ prefix suffix. prefix };

    /// Reverses the lowest `count` bits of `bits`, so that the codeword's first bit is the lowest.
    #[inline]
    fn in_order<Word: BitArray>(bits: Word, count: u32) -> Word {
        first_lowest(bits, count)
    }

    /// Emits the codeword from the first bit to the last (the prefix form).
    #[inline]
    fn emit_symbol<C: EncoderCodebook, E: From<AllocError>, F: FnMut(bool) -> Result<(), E>>(
        codebook: &C,
        symbol: &C::Symbol,
        emit: &mut F,
    ) -> Result<(), DefaultEncoderError<E>> {
        codebook.encode_symbol_prefix(symbol, emit)
    }
}

impl BitOrder for Stack {
    ghost form = { λ bits. reverse bits };

    ghost chosen = { λ prefix suffix. suffix };

    /// Returns `bits` unchanged: the codeword's last bit is the lowest.
    #[inline]
    fn in_order<Word: BitArray>(bits: Word, count: u32) -> Word {
        bits
    }

    /// Emits the codeword from the last bit to the first (the suffix form).
    #[inline]
    fn emit_symbol<C: EncoderCodebook, E: From<AllocError>, F: FnMut(bool) -> Result<(), E>>(
        codebook: &C,
        symbol: &C::Symbol,
        emit: &mut F,
    ) -> Result<(), DefaultEncoderError<E>> {
        codebook.encode_symbol_suffix(symbol, emit)
    }
}

/// The reason why a codebook can't decode a symbol from a stream of bits.
#[derive(Debug, Drop, Error)]
#[error_bound(InvalidCodeword: Display)]
pub enum SymbolCodeError<InvalidCodeword> {
    /// The bits ended before the codeword was complete.
    #[error("The compressed data ended before the current codeword was complete.")]
    OutOfCompressedData,
    /// No codeword begins with the bits read.
    #[error("Invalid codeword for this codebook: {0}")]
    InvalidCodeword(InvalidCodeword),
}

impl<InvalidCodeword> SymbolCodeError<InvalidCodeword> {
    /// Wraps the error in [`CoderError::Frontend`].
    pub fn into_coder_error<BackendError>(self) -> CoderError<Self, BackendError>
        ensures { result ≡ coder.Frontend self }
    {
        CoderError::Frontend(self)
    }
}

/// A codebook for decoding, which reads symbols from bits.
///
/// An implementor defines after which bits the codebook reads another bit (`reads_on`), and which bits are invalid
/// (`is_invalid`). The implementor proves two laws. The codebook reads on only while no codeword is complete. Bits
/// that begin with invalid bits don't begin with a codeword.
///
/// Suppose that the bits begin with a codeword, and that the source returns no error. Then a decode reads exactly this
/// codeword, and returns a symbol with this codeword.
pub trait DecoderCodebook: Codebook {
    /// The error of a decode that reads bits with which no codeword begins.
    type InvalidCodeword;

    /// Holds if a decode that has read these bits reads another bit.
    ghost reads_on: { Self → List Bool → Type 0 };

    /// Holds if a decode that has read these bits stops with this error.
    ghost is_invalid: { Self → List Bool → Self.InvalidCodeword → Type 0 };

    /// Reads the bits of the next codeword, and returns the codeword's symbol.
    ///
    /// The caller proves that `source.next` may be called. After any result but `Frontend(OutOfCompressedData)`, it may
    /// be called again and returns what follows the last bit read, and a finite source is still finite. After
    /// `Frontend(OutOfCompressedData)`, the source has returned `None`, and the contract promises neither.
    ///
    /// # Errors
    ///
    /// - `Frontend(OutOfCompressedData)` if the bits end before a codeword is complete.
    /// - `Frontend(InvalidCodeword(error))` if no codeword begins with the bits read.
    /// - `Backend(error)` if the source returns this error in place of a bit.
    fn decode_symbol<E, I: Iterator<Item = Result<bool, E>>>(
        &self,
        source: &mut I,
    ) -> Result<Self::Symbol, CoderError<SymbolCodeError<Self::InvalidCodeword>, E>>
        requires { I.can_next source.old }
        ensures reads { ReadsSymbol I.next_gives (Self.codeword self.now) (reads_on self.now) (is_invalid self.now)
            source.old result source.new }
        ensures can { UnlessBitsEnd result (I.can_next source.new) }
        ensures finite { IsFinite (I.remaining source.old) → UnlessBitsEnd result (IsFinite (I.remaining source.new)) };

    /// Looks up the codeword that the `count` highest bits of `bits` begin with. The highest bit comes first.
    ///
    /// Returns the codeword's symbol, and the codeword's length in bits. The length is at least 1 and below `count`. So
    /// a coder can drop the codeword's bits with one shift. The default implementation returns `None`. Bits for which
    /// the call returns `None` may still begin with a codeword. The caller proves that `count` is at most `Word::BITS`.
    #[inline]
    fn symbol_at_once<Word: BitArray>(&self, bits: Word, count: u32) -> Option<(Self::Symbol, u32)>
        requires { count ≤ Word.BITS }
        ensures { IfSome result (λ found.
            BeginsTopBits Word.BITS count (Word.number bits) (Self.codeword self.now found.0) found.1) }
    {
        None
    }

    // Bits after which the codebook reads on begin with no codeword.
    ghost on_law: { (c : Self) (bits : List Bool) → reads_on c bits → NoCodewordBegins (Self.codeword c) bits };

    // Invalid bits begin with no codeword, whatever bits follow them.
    ghost invalid_law: { (c : Self) (bits : List Bool) (e : Self.InvalidCodeword) →
        is_invalid c bits e → NoCodewordFits (Self.codeword c) bits };
}

impl<C: Codebook> Codebook for &C {
    type Symbol = C::Symbol;

    ghost codeword = { λ c s. C.codeword c.now s };

    ghost is_same = { λ c s t. C.is_same c.now s t };

    ghost same_law = { λ c s t same. C.same_law c.now s t same };

    ghost prefix_law = { λ c s t bits tail first second. C.prefix_law c.now s t bits tail first second };
}

impl<C: EncoderCodebook> EncoderCodebook for &C {
    ghost prefix_wants = { λ c s. C.prefix_wants c.now s };

    ghost suffix_wants = { λ c s. C.suffix_wants c.now s };

    #[inline]
    fn encode_symbol_prefix<E: From<AllocError>, F: FnMut(bool) -> Result<(), E>>(
        &self,
        symbol: &C::Symbol,
        emit: &mut F,
    ) -> Result<(), DefaultEncoderError<E>> {
        C::encode_symbol_prefix(*self, symbol, emit)
    }

    #[inline]
    fn encode_symbol_suffix<E: From<AllocError>, F: FnMut(bool) -> Result<(), E>>(
        &self,
        symbol: &C::Symbol,
        emit: &mut F,
    ) -> Result<(), DefaultEncoderError<E>> {
        C::encode_symbol_suffix(*self, symbol, emit)
    }

    #[inline]
    fn codeword_at_once<Word: BitArray>(&self, symbol: &C::Symbol) -> Option<(Word, u32)> {
        C::codeword_at_once(*self, symbol)
    }
}

impl<C: DecoderCodebook> DecoderCodebook for &C {
    type InvalidCodeword = C::InvalidCodeword;

    ghost reads_on = { λ c bits. C.reads_on c.now bits };

    ghost is_invalid = { λ c bits e. C.is_invalid c.now bits e };

    #[inline]
    fn decode_symbol<E, I: Iterator<Item = Result<bool, E>>>(
        &self,
        source: &mut I,
    ) -> Result<C::Symbol, CoderError<SymbolCodeError<C::InvalidCodeword>, E>> {
        C::decode_symbol(*self, source)
    }

    #[inline]
    fn symbol_at_once<Word: BitArray>(&self, bits: Word, count: u32) -> Option<(C::Symbol, u32)> {
        C::symbol_at_once(*self, bits, count)
    }

    ghost on_law = { λ c bits on. C.on_law c.now bits on };

    ghost invalid_law = { λ c bits e invalid. C.invalid_law c.now bits e invalid };
}
