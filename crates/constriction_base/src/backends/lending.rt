//! Buffers that lend their words as a slice.

ghost use Rattle.std.specs.Prelude.{◌≡◌, ◌<◌, List, length, reverse, slice_set};

/// A buffer that lends its words as a slice, in the order of the buffer.
///
/// An implementor chooses `lent`, the list of words, freely and proves that `words` returns exactly that list.
pub trait Words<Word> {
    /// The words that the buffer lends.
    ghost lent: { Self → List Word };

    /// Returns the words of the buffer.
    fn words(&self) -> &[Word]
        ensures { result.now ≡ lent self.now };
}

/// A buffer that can replace its words and reverse their order. The number of words stays the same.
///
/// An implementor proves what each call does to the lent words: `set_word` replaces a word, and `reverse_words`
/// reverses the order of the words.
pub trait WordsMut<Word>: Words<Word> {
    /// Replaces the word at `index` with `word`. The caller proves that `index` is below the number of words.
    fn set_word(&mut self, index: usize, word: Word)
        requires { index < length (Self.lent self.old) }
        ensures { Self.lent self.new ≡ slice_set (Self.lent self.old) index word };

    /// Reverses the order of the words.
    fn reverse_words(&mut self)
        ensures { Self.lent self.new ≡ reverse (Self.lent self.old) };
}
