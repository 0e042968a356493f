//! `TopBits`: the bits that a coder holds outside its backend, in the highest bits of one word.
//!
//! Appending or removing a bit shifts the word by one bit.

ghost use Rattle.constriction_symbol.specs.Bits.{TopWord, bits_of};
ghost use Rattle.std.specs.Prelude.{IsTrue, List, MatchOption, [], if◌then◌else◌, length, take};
ghost use Rattle.std.specs.Prelude.{◌+◌, ◌++◌, ◌-◌, ◌/◌, ◌<◌, ◌≤◌, ◌∷◌, ◌^◌, ◌↔◌, ◌≡◌};

use constriction_words::BitArray;
use std::marker::Model;

/// A list of at most `Word::BITS` bits, which grows and shrinks at its end.
///
/// The list is in the highest bits of `word`. The last bit of the list is the highest bit of `word`. The lowest `room`
/// bits of `word` are unspecified. Contracts describe a `TopBits` by the list.
#[derive(Debug, Drop)]
pub struct TopBits<Word: BitArray> {
    word: Word,
    room: usize,
}

impl<Word: BitArray> Model for TopBits<Word> {
    ghost use Rattle.std.specs.Prelude.{Bool, List, ◌-◌, ◌/◌, ◌≤◌, ◌^◌};
    ghost use Rattle.constriction_symbol.specs.Bits.{bits_of};

    ghost Value = { List Bool };

    ghost view = { λ b. bits_of (Word.BITS - b.room) (Word.number b.word / 2 ^ b.room) };

    ghost invariant = { λ b. b.room ≤ Word.BITS };
}

impl<Word: BitArray> TopBits<Word> {
    /// Creates an empty list.
    #[inline]
    pub fn none() -> Self
        ensures { result ≡ [] }
    {
        TopBits {
            word: Word::nothing(),
            room: Word::BITS as usize,
        }
    }

    /// Creates the list of all bits of `word`, from the lowest to the highest.
    #[inline]
    pub fn all(word: Word) -> Self
        ensures { result ≡ bits_of Word.BITS (Word.number word) }
    {
        TopBits { word, room: 0 }
    }

    /// Creates the list of the `count` highest bits of `word`, from the lowest of them to the highest.
    ///
    /// The caller proves that `count` is at most `Word::BITS`.
    #[inline]
    pub fn of_top(word: Word, count: u32) -> Self
        requires { count ≤ Word.BITS }
        ensures { result ≡ bits_of count (Word.number word / 2 ^ (Word.BITS - count)) }
    {
        TopBits {
            word,
            room: (Word::BITS - count) as usize,
        }
    }

    /// Creates the list of the bits of `word` below its highest 1. Returns `None` if `word` is 0.
    pub fn below_highest(word: Word) -> Option<Self>
        ensures { MatchOption result (Word.number word ≡ 0) (λ bits. TopWord Word.BITS bits (Word.number word)) }
    {
        if word.is_nothing() {
            return None;
        }
        let count = word.bit_length() - 1;
        Some(TopBits {
            word: at_top(word.low_bits(count), count),
            room: (Word::BITS - count) as usize,
        })
    }

    /// Returns a copy of the list.
    #[inline]
    pub fn copied(&self) -> Self
        ensures { result ≡ self.now }
    {
        TopBits {
            word: self.word,
            room: self.room,
        }
    }

    /// Returns the number of bits in the list.
    #[inline]
    pub fn count(&self) -> u32
        ensures value { result ≡ length self.now }
        ensures within { result ≤ Word.BITS }
    {
        Word::BITS - self.room as u32
    }

    /// Returns whether the list is empty.
    #[inline]
    pub fn is_empty(&self) -> bool
        ensures { IsTrue result ↔ (self.now ≡ []) }
    {
        self.room == Word::BITS as usize
    }

    /// Returns whether the list has `Word::BITS` bits, so that no further bit fits.
    #[inline]
    pub fn is_full(&self) -> bool
        ensures full { IsTrue result ↔ (length self.now ≡ Word.BITS) }
        ensures within { length self.now ≤ Word.BITS }
    {
        self.room == 0
    }

    /// Returns a word that has the list in its lowest bits.
    ///
    /// The list's last bit is the highest of these bits. All other bits of the word are 0.
    #[inline]
    pub fn word(&self) -> Word
        ensures bits { bits_of (length self.now) (Word.number result) ≡ self.now }
        ensures small { Word.number result < 2 ^ length self.now }
        ensures within { length self.now ≤ Word.BITS }
    {
        let room = self.room as u32;
        if room < Word::BITS {
            self.word.shift_right(room)
        } else {
            Word::nothing()
        }
    }

    /// Returns a word that has the list in its highest bits.
    ///
    /// The list's last bit is the highest bit of the word. All bits below the list are unspecified.
    #[inline]
    pub fn top_word(&self) -> Word
        ensures bits { bits_of (length self.now) (Word.number result / 2 ^ (Word.BITS - length self.now)) ≡ self.now }
        ensures within { length self.now ≤ Word.BITS }
    {
        self.word
    }

    /// Appends a bit. The caller proves that the list isn't full.
    #[inline]
    pub fn push(&mut self, bit: bool)
        requires { length self.old < Word.BITS }
        ensures { self.new ≡ self.old ++ bit ∷ [] }
    {
        self.word = self.word.shift_right(1).plus(highest(bit));
        self.room -= 1;
    }

    /// Removes the last bit of the list and returns it. The caller proves that the list isn't empty.
    #[inline]
    pub fn pop(&mut self) -> bool
        requires { 0 < length self.old }
        ensures { self.old ≡ self.new ++ result ∷ [] }
    {
        let bit = !self.word.shift_right(Word::BITS - 1).is_nothing();
        let rest = self.word.low_bits(Word::BITS - 1);
        self.word = rest.plus(rest);
        self.room += 1;
        bit
    }

    /// Returns the number of further bits that fit in the list.
    #[inline]
    pub fn room(&self) -> u32
        ensures { result + length self.now ≡ Word.BITS }
    {
        self.room as u32
    }

    /// Appends the lowest `count` bits of `bits`, lowest first.
    ///
    /// The caller proves that the list has room for `count` bits, and that `0 < count < Word::BITS`. The caller also
    /// proves that all higher bits of `bits` are 0.
    #[inline]
    pub fn push_all(&mut self, bits: Word, count: u32)
        requires some { 0 < count }
        requires part { count < Word.BITS }
        requires small { Word.number bits < 2 ^ count }
        requires fits { length self.old + count ≤ Word.BITS }
        ensures { self.new ≡ self.old ++ bits_of count (Word.number bits) }
    {
        let above = bits.shift_left(Word::BITS - count);
        self.word = self.word.shift_right(count).plus(above);
        self.room -= count as usize;
    }

    /// Appends the lowest bits of `bits`, lowest first, until the list is full.
    ///
    /// The caller proves that the list isn't empty.
    #[inline]
    pub fn fill(&mut self, bits: Word)
        requires { 0 < length self.old }
        ensures { self.new ≡ self.old ++ bits_of (Word.BITS - length self.old) (Word.number bits) }
    {
        let room = self.room();
        if room > 0 {
            self.push_all(bits.low_bits(room), room);
        }
    }

    /// Removes the last `count` bits. The caller proves that `count` is at least 1 and below the list's length.
    #[inline]
    pub fn drop_last(&mut self, count: u32)
        requires some { 0 < count }
        requires within { count < length self.old }
        ensures { self.new ≡ take (length self.old - count) self.old }
    {
        self.word = self.word.low_bits(Word::BITS - count).shift_left(count);
        // As a `usize`, `count` would have to be widened first, by one more instruction for each codeword read.
        self.room = (self.room as u32 + count) as usize;
    }
}

/// Returns a word with `word` in its highest `count` bits.
///
/// The caller proves that `count` is below `Word::BITS`, and that `word` is below `2^count`.
fn at_top<Word: BitArray>(word: Word, count: u32) -> Word
    requires within { count < Word.BITS }
    requires small { Word.number word < 2 ^ count }
    ensures { Word.number result / 2 ^ (Word.BITS - count) ≡ Word.number word }
{
    if count == 0 {
        return word;
    }
    word.shift_left(Word::BITS - count)
}

/// Returns a word with `bit` as the highest bit. All other bits are 0.
#[inline]
fn highest<Word: BitArray>(bit: bool) -> Word
    ensures { Word.number result ≡ (if bit then 2 ^ (Word.BITS - 1) else 0) }
{
    if bit {
        Word::unit().shift_left(Word::BITS - 1)
    } else {
        Word::nothing()
    }
}
