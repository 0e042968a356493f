//! [`CountedBits`]: a reader of the bits of words that counts the bits that are left.

ghost use Rattle.std.specs.Prelude.{◌≡◌, ◌↔◌, IsTrue, drop, length, map};
ghost use Rattle.constriction_base.specs.Iterators.{item_of_answer};
ghost use Rattle.constriction_symbol.specs.Bits.{YieldsBit, bits_of_words};
ghost use Rattle.constriction_calls.specs.SymbolBits.{IsBit};

use constriction_base::backends::Queue;
use constriction_base::cursor::Cursor;
use constriction_base::errors::CoderError;
use constriction_symbol::codebooks::{DecoderCodebook, SymbolCodeError};
use constriction_symbol::queue::QueueDecoder;
use constriction_symbol::reading::ReadBitStream;
use constriction_words::BitArray;
use std::convert::Infallible;
use std::marker::Model;

/// A reader of the bits of words. It starts at a given bit, and counts the bits that are left.
///
/// Contracts describe a `CountedBits` by the list of the bits that are left.
///
/// # Examples
///
/// ```
/// CountedBits::from(&[7u8, 0], 1).left() // 15
/// ```
#[derive(Drop)]
pub struct CountedBits<'a, Word: BitArray> {
    bits: QueueDecoder<Word, Cursor<Word, &'a [Word]>>,
    left: usize,
}

impl<'a, Word: BitArray> Model for CountedBits<'a, Word> {
    ghost use Rattle.std.specs.Prelude.{◌≡◌, Bool, List, length};

    ghost Value = { List Bool };

    ghost view = { λ c. c.bits.bits };

    ghost invariant = { λ c. c.left ≡ length c.bits.bits };
}

impl<'a, Word: BitArray> CountedBits<'a, Word> {
    /// Creates a reader that starts at bit `bit` of `words`.
    ///
    /// The caller proves that `words` has at least `bit` bits, and fewer than 2^64 bits.
    pub fn from(words: &'a [Word], bit: usize) -> Self
        requires { IsBit Word.BITS (length words.now) bit }
        ensures { result ≡ drop bit (bits_of_words Word.BITS (map Word.number words.now)) }
    {
        let width = Word::BITS as usize;
        let rest = &words[bit / width..];
        let mut bits = CountedBits {
            bits: QueueDecoder::from_compressed(Cursor::new_at_write_beginning(rest)),
            left: rest.len() * width,
        };
        bits.pass_over(bit % width);
        bits
    }

    /// Removes the first `count` bits, or all bits if there are fewer.
    fn pass_over(&mut self, count: usize)
        ensures { self.new ≡ drop count self.old }
    {
        for _done in 0..count {
            match self.next_bit() {
                Ok(_) => {}
                Err(never) => match never {},
            }
        }
    }

    /// Returns the number of bits that are left.
    #[inline]
    pub fn left(&self) -> usize
        ensures { result ≡ length self.now }
    {
        self.left
    }

    /// Removes the first bit and returns it, or returns `None` if no bit is left.
    #[inline]
    fn next_bit(&mut self) -> Result<Option<bool>, Infallible>
        ensures { YieldsBit self.old (item_of_answer result) self.new }
    {
        match self.bits.read_bit() {
            Ok(Some(bit)) => {
                self.left -= 1;
                Ok(Some(bit))
            }
            Ok(None) => Ok(None),
            Err(never) => match never {},
        }
    }
}

impl<'a, Word: BitArray> Iterator for CountedBits<'a, Word> {
    type Item = Result<bool, Infallible>;

    ghost use Rattle.constriction_symbol.specs.Bits.{YieldsBit};

    ghost next_gives = { λ old item new. YieldsBit old item new };

    #[inline]
    fn next(&mut self) -> Option<Result<bool, Infallible>> {
        match self.next_bit() {
            Ok(Some(bit)) => Some(Ok(bit)),
            Ok(None) => None,
            Err(never) => match never {},
        }
    }
}

impl<'a, Word: BitArray> ReadBitStream<Queue> for CountedBits<'a, Word> {
    type ReadError = Infallible;

    ghost unread = { λ bits. bits };

    ghost is_list = { Unit {0} };

    ghost gives = { λ old item new. YieldsBit old item new };

    #[inline]
    fn read_bit(&mut self) -> Result<Option<bool>, Infallible> {
        self.next_bit()
    }

    #[inline]
    fn decode_symbol<C: DecoderCodebook>(
        &mut self,
        codebook: C,
    ) -> Result<C::Symbol, CoderError<SymbolCodeError<C::InvalidCodeword>, Infallible>> {
        codebook.decode_symbol(self)
    }

    ghost list_law = { λ known old item new given. given };
}

/// Returns whether `words` has at least `bit` bits. Returns `false` if `words` has 2^64 bits or more.
pub fn is_bit<Word: BitArray>(words: &[Word], bit: usize) -> bool
    ensures { IsTrue result ↔ IsBit Word.BITS (length words.now) bit }
{
    match words.len().checked_mul(Word::BITS as usize) {
        Some(all) => bit <= all,
        None => false,
    }
}
