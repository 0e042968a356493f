//! Turns bit coders into decoders and iterators of the same bits.
//!
//! A decoder or an iterator of a queue also returns the zeros that complete the last word.

ghost use Rattle.constriction_symbol.specs.Bits.{PadsTo, ReadsWritten, bits_of_words};
ghost use Rattle.std.specs.Prelude.{IfErr, IfOk, [], map, ◌≡◌};

use crate::coder::{QueueEncoder, StackCoder, SymbolCoder};
use crate::queue::QueueDecoder;
use constriction_base::backends::{
    AsReadWords, BothWays, Holds, IntoReadWords, Queue, Stack, WriteWords, written_to_queue,
};
use constriction_words::BitArray;
use std::marker::PhantomData;

impl<
    Word: BitArray,
    B: WriteWords<Word> + IntoReadWords<Word, Queue> + BothWays<Word>,
> QueueEncoder<Word, B> {
    /// Turns the queue into a decoder of its bits.
    ///
    /// The decoder returns the bits from first to last, and then the zeros that complete the last word.
    ///
    /// # Errors
    ///
    /// Returns the backend's error if there are bits outside the backend, and the backend refuses the word of these
    /// bits. The call consumes the coder even if it fails.
    pub fn into_decoder(self) -> Result<QueueDecoder<Word, B::IntoReadWords>, B::WriteError>
    where
        B: Drop,
        ensures bits { IfOk result (λ decoder. PadsTo Word.BITS self.bits decoder.bits) }
        ensures last { IfOk result (λ decoder. decoder.last ≡ []) }
        ensures words { IfOk result (λ decoder. decoder.bits ≡ bits_of_words Word.BITS
            (map Word.number (⟦<B::IntoReadWords as Holds<Word, Queue>>⟧.words decoder.backend))) }
        ensures place { IfOk result (λ decoder. ReadsWritten Word.BITS Word.number ⟦<B as Holds<Word, Stack>>⟧.words
            B.room B.writes B.write_fails B.becomes self decoder.backend) }
        ensures err { IfErr result (λ e. (self.last ≡ [] → ⊥) × B.write_fails self.backend e) }
    {
        match self.into_compressed() {
            Ok(words) => Ok(QueueDecoder::from_compressed(written_to_queue(words))),
            Err(error) => Err(error),
        }
    }

    /// Turns the queue into an iterator over its bits, from first to last.
    ///
    /// After the bits, the iterator returns the zeros that complete the last word.
    ///
    /// # Errors
    ///
    /// Returns the backend's error in the same case as [`QueueEncoder::into_decoder`].
    pub fn into_overshooting_iter(
        self,
    ) -> Result<QueueDecoder<Word, B::IntoReadWords>, B::WriteError>
    where
        B: Drop,
        ensures bits { IfOk result (λ decoder. PadsTo Word.BITS self.bits decoder.bits) }
        ensures last { IfOk result (λ decoder. decoder.last ≡ []) }
        ensures words { IfOk result (λ decoder. decoder.bits ≡ bits_of_words Word.BITS
            (map Word.number (⟦<B::IntoReadWords as Holds<Word, Queue>>⟧.words decoder.backend))) }
        ensures place { IfOk result (λ decoder. ReadsWritten Word.BITS Word.number ⟦<B as Holds<Word, Stack>>⟧.words
            B.room B.writes B.write_fails B.becomes self decoder.backend) }
        ensures err { IfErr result (λ e. (self.last ≡ [] → ⊥) × B.write_fails self.backend e) }
    {
        QueueEncoder::into_decoder(self)
    }
}

impl<Word: BitArray, B: IntoReadWords<Word, Stack>> StackCoder<Word, B> {
    /// Turns the stack into a decoder with the same bits.
    ///
    /// The call turns the stack's backend into a backend for reading ([`IntoReadWords`]).
    pub fn into_decoder(self) -> StackCoder<Word, B::IntoReadWords>
        ensures bits { result.bits ≡ self.bits }
        ensures last { result.last ≡ self.last }
        ensures place { B.becomes self.backend result.backend }
    {
        let SymbolCoder {
            backend,
            last,
            semantics: _,
        } = self;
        SymbolCoder {
            backend: backend.into_read_words(),
            last,
            semantics: PhantomData,
        }
    }

    /// Turns the stack into an iterator over its bits, from last to first.
    pub fn into_iterator(self) -> StackCoder<Word, B::IntoReadWords>
        ensures bits { result.bits ≡ self.bits }
        ensures last { result.last ≡ self.last }
        ensures place { B.becomes self.backend result.backend }
    {
        StackCoder::into_decoder(self)
    }
}

impl<Word: BitArray, B: Holds<Word, Stack>> StackCoder<Word, B> {
    /// Returns a decoder that has the same bits and borrows this coder's words.
    ///
    /// # Examples
    ///
    /// ```
    /// let mut decoder = coder.as_decoder();
    /// decoder.decode_symbol(&codebook)?; // the last symbol encoded; `coder` still holds it
    /// ```
    pub fn as_decoder<'a>(&'a self) -> StackCoder<Word, B::AsReadWords>
    where
        B: AsReadWords<'a, Word, Stack>,
        ensures bits { result.bits ≡ self.now.bits }
        ensures last { result.last ≡ self.now.last }
        ensures place { B.becomes self.now.backend result.backend }
    {
        SymbolCoder {
            backend: self.backend.as_read_words(),
            last: self.last.copied(),
            semantics: PhantomData,
        }
    }

    /// Returns an iterator over the bits, from last to first. The iterator borrows this coder's words.
    pub fn iter<'a>(&'a self) -> StackCoder<Word, B::AsReadWords>
    where
        B: AsReadWords<'a, Word, Stack>,
        ensures bits { result.bits ≡ self.now.bits }
        ensures last { result.last ≡ self.now.last }
        ensures place { B.becomes self.now.backend result.backend }
    {
        self.as_decoder()
    }
}
