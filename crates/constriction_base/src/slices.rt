//! A borrowed slice of words as a buffer, and as a value that turns into a cursor.
//!
//! A cursor that is read as a stack starts at the end of the words. A cursor that is read as a queue starts at their
//! beginning.

ghost use Rattle.std.specs.Prelude.{◌≡◌, length, reverse};
ghost use Rattle.std.proofs.Common.{sym};
ghost use Rattle.std.proofs.lemmas.List.{reverse-reverse};

use crate::backends::{BothWays, Holds, IntoReadWords, IntoSeekReadWords, Queue, Stack, Words};
use crate::cursor::Cursor;
use constriction_words::BitArray;

mod mutable;

impl<'a, Word: BitArray + 'a> Holds<Word, Stack> for &'a [Word] {
    ghost words = { λ s. reverse s.now };

    ghost is_list = { Unit {0} };
}

impl<'a, Word: BitArray + 'a> Holds<Word, Queue> for &'a [Word] {
    ghost words = { λ s. s.now };

    ghost is_list = { Unit {0} };
}

impl<'a, Word: BitArray + 'a> Words<Word> for &'a [Word] {
    ghost lent = { λ s. s.now };

    fn words(&self) -> &[Word] {
        self
    }
}

impl<'a, Word: BitArray + 'a> IntoReadWords<Word, Stack> for &'a [Word] {
    type IntoReadWords = Cursor<Word, &'a [Word]>;

    ghost becomes = { λ old new. (new.buf.now ≡ old.now) × (new.pos ≡ length old.now) };

    fn into_read_words(self) -> Cursor<Word, &'a [Word]> {
        Cursor::new_at_write_end(self)
    }
}

impl<'a, Word: BitArray + 'a> IntoReadWords<Word, Queue> for &'a [Word] {
    type IntoReadWords = Cursor<Word, &'a [Word]>;

    ghost becomes = { λ old new. (new.buf.now ≡ old.now) × (new.pos ≡ 0) };

    fn into_read_words(self) -> Cursor<Word, &'a [Word]> {
        Cursor::new_at_write_beginning(self)
    }
}

impl<'a, Word: BitArray + 'a> IntoSeekReadWords<Word, Stack> for &'a [Word] {
    type IntoSeekReadWords = Cursor<Word, &'a [Word]>;

    ghost becomes = { λ old new. (new.buf.now ≡ old.now) × (new.pos ≡ length old.now) };

    fn into_seek_read_words(self) -> Cursor<Word, &'a [Word]> {
        IntoReadWords::<Word, Stack>::into_read_words(self)
    }
}

impl<'a, Word: BitArray + 'a> IntoSeekReadWords<Word, Queue> for &'a [Word] {
    type IntoSeekReadWords = Cursor<Word, &'a [Word]>;

    ghost becomes = { λ old new. (new.buf.now ≡ old.now) × (new.pos ≡ 0) };

    fn into_seek_read_words(self) -> Cursor<Word, &'a [Word]> {
        IntoReadWords::<Word, Queue>::into_read_words(self)
    }
}

impl<'a, Word: BitArray + 'a> BothWays<Word> for &'a [Word] {
    ghost turned_law = { λ s. sym (reverse-reverse s.now) };
}
