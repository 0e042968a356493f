//! A mutably borrowed slice of words as a buffer that can be written to.
//!
//! `reverse_words` reverses the slice in place, so `into_reversed` of a cursor takes a single pass over the words.

ghost use Rattle.std.specs.Prelude.{◌<◌, reverse};

use crate::backends::{Words, WordsMut};
use constriction_words::BitArray;

impl<'a, Word: BitArray + 'a> Words<Word> for &'a mut [Word] {
    ghost lent = { λ s. s.now };

    fn words(&self) -> &[Word] {
        self
    }
}

impl<'a, Word: BitArray + 'a> WordsMut<Word> for &'a mut [Word] {
    fn set_word(&mut self, index: usize, word: Word) {
        self[index] = word;
    }

    fn reverse_words(&mut self) {
        self.reverse();
    }
}
