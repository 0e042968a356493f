//! A borrowed vector of words as a buffer, and as a value that turns into a cursor over its words.

ghost use Rattle.std.specs.Prelude.{◌≡◌, length, reverse};
ghost use Rattle.std.proofs.Common.{sym};
ghost use Rattle.std.proofs.lemmas.List.{reverse-reverse};

use crate::backends::{BothWays, Holds, IntoReadWords, IntoSeekReadWords, Queue, Stack, Words};
use crate::cursor::Cursor;
use constriction_words::BitArray;
use std::alloc::Allocator;

impl<'a, Word: BitArray + 'a, A: Allocator + 'a> Holds<Word, Stack> for &'a Vec<Word, A> {
    ghost words = { λ v. reverse v.now.items };

    ghost is_list = { Unit {0} };
}

impl<'a, Word: BitArray + 'a, A: Allocator + 'a> Holds<Word, Queue> for &'a Vec<Word, A> {
    ghost words = { λ v. v.now.items };

    ghost is_list = { Unit {0} };
}

impl<'a, Word: BitArray + 'a, A: Allocator + 'a> Words<Word> for &'a Vec<Word, A> {
    ghost lent = { λ v. v.now.items };

    fn words(&self) -> &[Word] {
        self.as_slice()
    }
}

impl<'a, Word: BitArray + 'a, A: Allocator + 'a> IntoReadWords<Word, Stack> for &'a Vec<Word, A> {
    type IntoReadWords = Cursor<Word, &'a [Word]>;

    ghost becomes = { λ old new. (new.buf.now ≡ old.now.items) × (new.pos ≡ length old.now.items) };

    fn into_read_words(self) -> Cursor<Word, &'a [Word]> {
        Cursor::new_at_write_end(self.as_slice())
    }
}

impl<'a, Word: BitArray + 'a, A: Allocator + 'a> IntoReadWords<Word, Queue> for &'a Vec<Word, A> {
    type IntoReadWords = Cursor<Word, &'a [Word]>;

    ghost becomes = { λ old new. (new.buf.now ≡ old.now.items) × (new.pos ≡ 0) };

    fn into_read_words(self) -> Cursor<Word, &'a [Word]> {
        Cursor::new_at_write_beginning(self.as_slice())
    }
}

impl<'a, Word: BitArray + 'a, A: Allocator + 'a> IntoSeekReadWords<Word, Stack>
    for &'a Vec<Word, A> {
    type IntoSeekReadWords = Cursor<Word, &'a [Word]>;

    ghost becomes = { λ old new. (new.buf.now ≡ old.now.items) × (new.pos ≡ length old.now.items) };

    fn into_seek_read_words(self) -> Cursor<Word, &'a [Word]> {
        IntoReadWords::<Word, Stack>::into_read_words(self)
    }
}

impl<'a, Word: BitArray + 'a, A: Allocator + 'a> IntoSeekReadWords<Word, Queue>
    for &'a Vec<Word, A> {
    type IntoSeekReadWords = Cursor<Word, &'a [Word]>;

    ghost becomes = { λ old new. (new.buf.now ≡ old.now.items) × (new.pos ≡ 0) };

    fn into_seek_read_words(self) -> Cursor<Word, &'a [Word]> {
        IntoReadWords::<Word, Queue>::into_read_words(self)
    }
}

impl<'a, Word: BitArray + 'a, A: Allocator + 'a> BothWays<Word> for &'a Vec<Word, A> {
    ghost turned_law = { λ v. sym (reverse-reverse v.now.items) };
}
