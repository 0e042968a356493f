//! Vectors turn into cursors over themselves, and lend cursors over their words.
//!
//! A cursor that is read as a stack starts at the end of the words. A cursor that is read as a queue starts at their
//! beginning.

ghost use Rattle.std.specs.Prelude.{◌≡◌, length};

use crate::backends::{
    AsReadWords, AsSeekReadWords, IntoReadWords, IntoSeekReadWords, Queue, Stack,
};
use crate::cursor::Cursor;
use constriction_words::BitArray;
use std::alloc::Allocator;

impl<Word: BitArray, A: Allocator> IntoReadWords<Word, Stack> for Vec<Word, A> {
    type IntoReadWords = Cursor<Word, Vec<Word, A>>;

    ghost becomes = { λ old new. (new.buf ≡ old) × (new.pos ≡ length old.items) };

    fn into_read_words(self) -> Cursor<Word, Vec<Word, A>> {
        Cursor::new_at_write_end(self)
    }
}

impl<Word: BitArray, A: Allocator> IntoReadWords<Word, Queue> for Vec<Word, A> {
    type IntoReadWords = Cursor<Word, Vec<Word, A>>;

    ghost becomes = { λ old new. (new.buf ≡ old) × (new.pos ≡ 0) };

    fn into_read_words(self) -> Cursor<Word, Vec<Word, A>> {
        Cursor::new_at_write_beginning(self)
    }
}

impl<Word: BitArray, A: Allocator> IntoSeekReadWords<Word, Stack> for Vec<Word, A> {
    type IntoSeekReadWords = Cursor<Word, Vec<Word, A>>;

    ghost becomes = { λ old new. (new.buf ≡ old) × (new.pos ≡ length old.items) };

    fn into_seek_read_words(self) -> Cursor<Word, Vec<Word, A>> {
        IntoReadWords::<Word, Stack>::into_read_words(self)
    }
}

impl<Word: BitArray, A: Allocator> IntoSeekReadWords<Word, Queue> for Vec<Word, A> {
    type IntoSeekReadWords = Cursor<Word, Vec<Word, A>>;

    ghost becomes = { λ old new. (new.buf ≡ old) × (new.pos ≡ 0) };

    fn into_seek_read_words(self) -> Cursor<Word, Vec<Word, A>> {
        IntoReadWords::<Word, Queue>::into_read_words(self)
    }
}

impl<'a, Word: BitArray + 'a, A: Allocator + 'a> AsReadWords<'a, Word, Stack> for Vec<Word, A> {
    type AsReadWords = Cursor<Word, &'a [Word]>;

    ghost becomes = { λ old new. (new.buf.now ≡ old.items) × (new.pos ≡ length old.items) };

    fn as_read_words(&'a self) -> Cursor<Word, &'a [Word]> {
        Cursor::new_at_write_end(self.as_slice())
    }
}

impl<'a, Word: BitArray + 'a, A: Allocator + 'a> AsReadWords<'a, Word, Queue> for Vec<Word, A> {
    type AsReadWords = Cursor<Word, &'a [Word]>;

    ghost becomes = { λ old new. (new.buf.now ≡ old.items) × (new.pos ≡ 0) };

    fn as_read_words(&'a self) -> Cursor<Word, &'a [Word]> {
        Cursor::new_at_write_beginning(self.as_slice())
    }
}

impl<'a, Word: BitArray + 'a, A: Allocator + 'a> AsSeekReadWords<'a, Word, Stack> for Vec<Word, A> {
    type AsSeekReadWords = Cursor<Word, &'a [Word]>;

    ghost becomes = { λ old new. (new.buf.now ≡ old.items) × (new.pos ≡ length old.items) };

    fn as_seek_read_words(&'a self) -> Cursor<Word, &'a [Word]> {
        AsReadWords::<'a, Word, Stack>::as_read_words(self)
    }
}

impl<'a, Word: BitArray + 'a, A: Allocator + 'a> AsSeekReadWords<'a, Word, Queue> for Vec<Word, A> {
    type AsSeekReadWords = Cursor<Word, &'a [Word]>;

    ghost becomes = { λ old new. (new.buf.now ≡ old.items) × (new.pos ≡ 0) };

    fn as_seek_read_words(&'a self) -> Cursor<Word, &'a [Word]> {
        AsReadWords::<'a, Word, Queue>::as_read_words(self)
    }
}
