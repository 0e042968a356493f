//! Import and export of the words of bit coders.
//!
//! The words of a stack mark the end of the bits with a 1. The words of a queue don't mark the end.

ghost use Rattle.constriction_base.specs.Backends.{IsWrite};
ghost use Rattle.constriction_base.specs.declared.errors.CoderError.TheVariants as coder_error;
ghost use Rattle.constriction_symbol.specs.Bits.{ClosesQueue, ClosesStack, HasStackWords, IsQueueWords, IsStackWords};
ghost use Rattle.constriction_symbol.specs.Bits.{LastIsZero, OpensStack, bits_of_words};
ghost use Rattle.std.specs.Prelude.{Err, IfErr, IfOk, Ok, [], map, reverse, ◌≡◌};

use crate::coder::{QueueEncoder, StackCoder, SymbolCoder};
use crate::steps::put_last;
use crate::top_bits::TopBits;
use constriction_base::backends::{Holds, ReadWords, Stack, WriteWords};
use constriction_base::errors::CoderError;
use constriction_words::BitArray;
use std::marker::PhantomData;

impl<Word: BitArray, B: WriteWords<Word>> StackCoder<Word, B> {
    /// Returns the words of the stack: its bits, a 1 that ends the bits, and zeros up to a whole word.
    ///
    /// An empty stack has the single word 1.
    ///
    /// # Errors
    ///
    /// Returns the backend's error if the backend refuses a word. The call consumes the coder even if it fails.
    pub fn into_compressed(self) -> Result<B, B::WriteError>
    where
        B: Drop,
        ensures ok { IfOk result (λ all. IsStackWords Word.BITS self.bits (map Word.number (reverse (B.words all)))) }
        ensures closes { ClosesStack Word.BITS Word.number (IsWrite B.words B.room B.writes B.write_fails)
            self.last self.backend result }
    {
        let SymbolCoder {
            mut backend,
            mut last,
            semantics: _,
        } = self;
        put_last(&mut backend, &mut last, true)?;
        match backend.write(last.word()) {
            Ok(()) => Ok(backend),
            Err(error) => Err(error),
        }
    }
}

impl<Word: BitArray, B: ReadWords<Word, Stack>> StackCoder<Word, B> {
    /// Creates a stack from the words that [`StackCoder::into_compressed`] returns.
    ///
    /// The highest set bit of the last word marks the end of the bits. If there are no words, the stack is empty.
    ///
    /// # Errors
    ///
    /// - `Frontend(backend)` if the last word is 0. `backend` is the backend after the read of that word.
    /// - `Backend(error)` if the read of the last word fails with this error. The call consumes the backend.
    ///
    /// # Examples
    ///
    /// ```
    /// if let Ok(mut stack) = DefaultStackCoder::from_compressed([6u32].to_vec(alloc)?) {
    ///     stack.read_bit()?; // Some(true): the word 6 holds the bits 0, 1 and the 1 that ends them
    /// }
    /// ```
    pub fn from_compressed(mut compressed: B) -> Result<Self, CoderError<B, B::ReadError>>
    where
        B: Drop,
        ensures ok { B.is_list → IfOk result (λ new.
            HasStackWords Word.BITS new.bits (map Word.number (reverse (B.words compressed)))) }
        ensures reads { IfOk result (λ new.
            OpensStack Word.BITS Word.number B.reads compressed new.last new.backend) }
        ensures frontend { (rest : B) → result ≡ Err (coder_error.Frontend rest) →
            LastIsZero Word.number B.is_list B.words B.reads compressed rest }
        ensures err { (e : B.ReadError) → result ≡ Err (coder_error.Backend e) →
            (rest : B) × B.reads compressed (Err e) rest }
    {
        let word = match compressed.read() {
            Err(error) => return Err(CoderError::Backend(error)),
            Ok(None) => {
                return Ok(SymbolCoder {
                    backend: compressed,
                    last: TopBits::none(),
                    semantics: PhantomData,
                });
            }
            Ok(Some(word)) => word,
        };
        let Some(last) = TopBits::below_highest(word) else {
            return Err(CoderError::Frontend(compressed));
        };
        Ok(SymbolCoder {
            backend: compressed,
            last,
            semantics: PhantomData,
        })
    }
}

impl<Word: BitArray, B: WriteWords<Word>> QueueEncoder<Word, B> {
    /// Returns the words of the queue: its bits, and zeros up to a whole word.
    ///
    /// An empty queue has no words.
    ///
    /// # Errors
    ///
    /// Returns the backend's error if there are bits outside the backend, and the backend refuses the word of these
    /// bits. The call consumes the coder even if it fails.
    pub fn into_compressed(self) -> Result<B, B::WriteError>
    where
        B: Drop,
        ensures ok { IfOk result (λ all. IsQueueWords Word.BITS self.bits (map Word.number (reverse (B.words all)))) }
        ensures closes { ClosesQueue Word.BITS Word.number (IsWrite B.words B.room B.writes B.write_fails)
            self.last self.backend result }
        ensures untouched { self.last ≡ [] → result ≡ Ok self.backend }
        ensures err { IfErr result (λ e. (self.last ≡ [] → ⊥) × B.write_fails self.backend e) }
    {
        let SymbolCoder {
            mut backend,
            last,
            semantics: _,
        } = self;
        if last.is_empty() {
            return Ok(backend);
        }
        match backend.write(last.word()) {
            Ok(()) => Ok(backend),
            Err(error) => Err(error),
        }
    }
}

impl<Word: BitArray, B: Holds<Word, Stack>> QueueEncoder<Word, B> {
    /// Creates a queue from all bits of a backend's words.
    ///
    /// The call treats no bit as padding. The zeros that complete the last word of an export become bits of the queue.
    pub fn from_compressed(compressed: B) -> Self
        ensures bits { result.bits ≡ bits_of_words Word.BITS (map Word.number (reverse (B.words compressed))) }
        ensures last { result.last ≡ [] }
        ensures backend { result.backend ≡ compressed }
    {
        let last = TopBits::none();
        SymbolCoder {
            backend: compressed,
            last,
            semantics: PhantomData,
        }
    }
}
