//! `WordBits`: the bits of one word that a decoder of a queue hasn't read yet.

ghost use Rattle.constriction_symbol.specs.Bits.{AreZeros, bits_of, top_bits};
ghost use Rattle.std.specs.Prelude.{IsTrue, List, [], drop, length, reverse};
ghost use Rattle.std.specs.Prelude.{◌<◌, ◌≤◌, ◌∷◌, ◌^◌, ◌↔◌, ◌≡◌};

use crate::top_bits::TopBits;
use constriction_words::BitArray;
use std::marker::Model;

/// A list of at most `Word::BITS` bits. Calls remove bits from its front.
///
/// The list is stored in reverse order: its first bit is the highest bit of the stored word. So a call removes bits by
/// one shift, and a codebook finds a codeword in the highest bits. Contracts describe a `WordBits` by the list.
#[derive(Debug, Drop)]
pub struct WordBits<Word: BitArray> {
    reversed: TopBits<Word>,
}

impl<Word: BitArray> Model for WordBits<Word> {
    ghost use Rattle.std.specs.Prelude.{Bool, List, reverse};

    ghost Value = { List Bool };

    ghost view = { λ b. reverse b.reversed };
}

impl<Word: BitArray> WordBits<Word> {
    /// Creates an empty list.
    #[inline]
    pub fn none() -> Self
        ensures { result ≡ [] }
    {
        WordBits {
            reversed: TopBits::none(),
        }
    }

    /// Puts all bits of `word`, from the lowest to the highest, into the list, and removes the first and returns it.
    ///
    /// The caller proves that the list is empty.
    #[inline]
    pub fn refill(&mut self, word: Word) -> bool
        requires { self.old ≡ [] }
        ensures { bits_of Word.BITS (Word.number word) ≡ result ∷ self.new }
    {
        self.reversed = TopBits::all(word.reversed_bits());
        self.reversed.pop()
    }

    /// Returns a copy of the list.
    #[inline]
    pub fn copied(&self) -> Self
        ensures { result ≡ self.now }
    {
        WordBits {
            reversed: self.reversed.copied(),
        }
    }

    /// Returns the number of bits in the list.
    #[inline]
    pub fn count(&self) -> u32
        ensures value { result ≡ length self.now }
        ensures within { result ≤ Word.BITS }
    {
        self.reversed.count()
    }

    /// Returns whether the list is empty.
    #[inline]
    pub fn is_empty(&self) -> bool
        ensures { IsTrue result ↔ (self.now ≡ []) }
    {
        self.reversed.is_empty()
    }

    /// Returns a word that has the list in its lowest bits.
    ///
    /// The list's first bit is the highest of these bits. All other bits of the word are 0.
    #[inline]
    pub fn reversed_word(&self) -> Word
        ensures bits { reverse (bits_of (length self.now) (Word.number result)) ≡ self.now }
        ensures small { Word.number result < 2 ^ length self.now }
        ensures within { length self.now ≤ Word.BITS }
    {
        self.reversed.word()
    }

    /// Returns a word that has the list in its highest bits.
    ///
    /// The list's first bit is the highest bit of the word. All bits below the list are unspecified.
    #[inline]
    pub fn reversed_top(&self) -> Word
        ensures bits { top_bits Word.BITS (length self.now) (Word.number result) ≡ self.now }
        ensures within { length self.now ≤ Word.BITS }
    {
        self.reversed.top_word()
    }

    /// Removes the first bit of the list and returns it. The caller proves that the list isn't empty.
    #[inline]
    pub fn take_first(&mut self) -> bool
        requires { 0 < length self.old }
        ensures { self.old ≡ result ∷ self.new }
    {
        self.reversed.pop()
    }

    /// Removes the first `count` bits. The caller proves that `count` is at least 1 and below the list's length.
    #[inline]
    pub fn drop_first(&mut self, count: u32)
        requires some { 0 < count }
        requires within { count < length self.old }
        ensures { self.new ≡ drop count self.old }
    {
        self.reversed.drop_last(count);
    }

    /// Returns whether all bits of the list are 0. Returns `true` for an empty list.
    #[inline]
    pub fn is_zeros(&self) -> bool
        ensures { IsTrue result ↔ AreZeros self.now }
    {
        self.reversed.word().is_nothing()
    }
}
