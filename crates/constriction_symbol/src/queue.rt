//! `QueueDecoder`: a decoder of bit queues, which reads the bits of a backend's words from the first to the last.

ghost use Rattle.constriction_base.specs.Iterators.{item_of_answer};
ghost use Rattle.constriction_symbol.specs.Bits.{AreZeros, BitsValue, BitRead, bits_behind, bits_of_words};
ghost use Rattle.std.specs.Prelude.{IsTrue, [], map, ◌↔◌, ◌≡◌};

use crate::steps::take_first;
use crate::word_bits::WordBits;
use constriction_base::backends::{Holds, Queue, ReadWords};
use constriction_base::cursor::Cursor;
use constriction_words::BitArray;
use std::alloc::AllocError;
use std::marker::Model;

/// A decoder for the bits of a backend's words, which reads each word from the lowest bit to the highest.
///
/// Contracts describe the decoder by a `BitsValue`: all unread bits, the unread bits of the word read last, and the
/// backend.
///
/// # Examples
///
/// ```
/// let mut encoder = DefaultQueueEncoder::new(alloc);
/// encoder.write_bit(true)?;
/// encoder.write_bit(false)?;
/// let mut decoder = encoder.into_decoder()?;
/// decoder.read_bit()?; // Some(true), the first bit written
/// ```
#[derive(Debug, Drop)]
pub struct QueueDecoder<Word: BitArray, B: Holds<Word, Queue>> {
    backend: B,
    pub(crate) last: WordBits<Word>,
}

/// A [`QueueDecoder`] with 32-bit words.
pub type DefaultQueueDecoder<B = Cursor<u32, Vec<u32>>> = QueueDecoder<u32, B>;

impl<Word: BitArray, B: Holds<Word, Queue>> Model for QueueDecoder<Word, B> {
    ghost use Rattle.constriction_symbol.specs.Bits.{BitsValue, bits_behind};

    ghost Value = { BitsValue B };

    ghost view = { λ c. record {
      bits = bits_behind Word.BITS Word.number c.last (B.words c.backend);
      last = c.last;
      backend = c.backend;
    } };
}

impl<Word: BitArray, B: ReadWords<Word, Queue>> QueueDecoder<Word, B> {
    /// Creates a decoder for all bits of a backend's words.
    ///
    /// The words don't mark the end of the bits. So the decoder also returns the zeros that complete the last word of
    /// an export.
    ///
    /// # Examples
    ///
    /// ```
    /// let mut decoder = DefaultQueueDecoder::from_compressed(Cursor::new_at_write_beginning(words)); // words is [6]
    /// decoder.read_bit()?; // Some(false): the bits of 6 are 0, 1, 1, and zeros
    /// ```
    pub fn from_compressed(compressed: B) -> Self
        ensures bits { result.bits ≡ bits_of_words Word.BITS (map Word.number (B.words compressed)) }
        ensures last { result.last ≡ [] }
        ensures backend { result.backend ≡ compressed }
    {
        QueueDecoder {
            backend: compressed,
            last: WordBits::none(),
        }
    }

    /// Removes the first unread bit and returns it, or returns `None` if no bit is left.
    ///
    /// If the word read last has no bit left, the call first reads the next word from the backend.
    ///
    /// # Errors
    ///
    /// Returns the backend's error if that read fails. If the backend's reads follow its list of words (`is_list`),
    /// the unread bits are then unchanged.
    #[inline]
    pub fn read_bit(&mut self) -> Result<Option<bool>, B::ReadError>
        ensures { BitRead Word.BITS Word.number B.is_list B.reads self.old (item_of_answer result) self.new }
    {
        take_first(&mut self.backend, &mut self.last)
    }

    /// Returns whether the unread bits may all be padding (zeros that complete the last word).
    ///
    /// Returns `true` if and only if both conditions hold:
    ///
    /// - The unread bits of the word read last are all 0.
    /// - The backend's `maybe_exhausted` returns `true`.
    pub fn maybe_exhausted(&self) -> bool
        ensures { IsTrue result ↔ (AreZeros self.now.last × IsTrue (B.seems_exhausted self.now.backend)) }
    {
        self.last.is_zeros() && self.backend.maybe_exhausted()
    }
}

/// Iterates over the bits, from first to last. The iteration continues after the backend returns an error.
impl<Word: BitArray, B: ReadWords<Word, Queue> + Drop> Iterator for QueueDecoder<Word, B> {
    type Item = Result<bool, B::ReadError>;

    ghost use Rattle.constriction_symbol.specs.Bits.{BitRead};

    ghost next_gives = { BitRead Word.BITS Word.number B.is_list B.reads };

    #[inline]
    fn next(&mut self) -> Option<Result<bool, B::ReadError>> {
        match self.read_bit() {
            Ok(Some(bit)) => Some(Ok(bit)),
            Ok(None) => None,
            Err(error) => Some(Err(error)),
        }
    }
}

impl<Word: BitArray, B: Holds<Word, Queue> + Clone> Clone for QueueDecoder<Word, B> {
    ghost use Rattle.constriction_symbol.specs.Bits.{bits_behind};

    ghost is_clone = { λ old new. B.is_clone old.backend new.backend × (new.last ≡ old.last)
        × (new.bits ≡ bits_behind Word.BITS Word.number new.last (B.words new.backend)) };

    ghost is_infallible = { λ decoder. B.is_infallible decoder.backend };

    /// Clones the decoder: the unread bits of the word read last, and the backend.
    ///
    /// # Errors
    ///
    /// Returns `AllocError` if cloning the backend fails.
    fn clone(&self) -> Result<Self, AllocError> {
        let backend = self.backend.clone()?;
        Ok(QueueDecoder {
            backend,
            last: self.last.copied(),
        })
    }
}

impl<Word: BitArray, B: Holds<Word, Queue> + PartialEq> PartialEq for QueueDecoder<Word, B> {
    ghost use Rattle.std.specs.Bool.{beq};
    ghost use Rattle.std.specs.Cmp.{and_per, bool_eq_equiv, on_per, partial_equiv_from_equiv};
    ghost use Rattle.std.specs.Cmp.Lexicographic.{lists_per, pointwise};
    ghost use Rattle.std.specs.Ordering.{eq_of_both, on};

    ghost eq = { eq_of_both (on (λ c. c.last) (pointwise beq)) (on (λ c. c.backend) B.eq) };

    ghost laws = { and_per (on_per (λ c. c.last) (lists_per (partial_equiv_from_equiv bool_eq_equiv)))
        (on_per (λ c. c.backend) B.laws) };

    /// Returns whether the decoders have equal backends and equal unread bits of the words read last.
    fn eq(&self, other: &Self) -> bool {
        self.last == other.last && self.backend == other.backend
    }
}

impl<Word: BitArray, B: Holds<Word, Queue> + Eq> Eq for QueueDecoder<Word, B> {
    ghost use Rattle.std.specs.Cmp.{and_equiv, bool_eq_equiv, on_equiv};
    ghost use Rattle.std.specs.Cmp.Lexicographic.{lists_equiv};

    ghost laws = { and_equiv (on_equiv (λ c. c.last) (lists_equiv bool_eq_equiv))
        (on_equiv (λ c. c.backend) B.Eq.laws) };
}
