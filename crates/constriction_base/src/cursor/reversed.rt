//! `into_reversed`: reverses a cursor's buffer in place. The result holds the same words in the same reading orders.

ghost use Rattle.std.specs.Prelude.{◌≡◌, ◌+◌, ◌-◌, length, reverse, take, drop};

use crate::backends::{Holds, IntoReversed, Queue, Stack, Words, WordsMut};
use crate::cursor::Cursor;
use crate::reverse::Reverse;
use constriction_words::BitArray;
use std::marker::PhantomData;

impl<Word: BitArray, Buf: WordsMut<Word> + Drop> Cursor<Word, Buf> {
    /// Reverses the buffer and keeps the position between the same words, so that stack and queue swap.
    fn reverse_buffer(self) -> Self
        ensures buffer { Buf.lent result.buf ≡ reverse (Buf.lent self.buf) }
        ensures place { result.pos ≡ length (Buf.lent self.buf) - self.pos }
        ensures stack { drop result.pos (Buf.lent result.buf) ≡ reverse (take self.pos (Buf.lent self.buf)) }
        ensures queue { reverse (take result.pos (Buf.lent result.buf)) ≡ drop self.pos (Buf.lent self.buf) }
    {
        let Cursor {
            mut buf,
            pos,
            word: _,
        } = self;
        let pos = buf.words().len() - pos;
        buf.reverse_words();
        Cursor {
            buf,
            pos,
            word: PhantomData,
        }
    }

    /// Reverses the buffer and returns a `Reverse` that holds the same stack and the same queue.
    ///
    /// In the reversed buffer, the stack's words lie in the order in which the stack reads them.
    ///
    /// # Examples
    ///
    /// ```
    /// let mut words = [1u32, 2, 3];
    /// let cursor = Cursor::new_at_write_end(words.as_mut_slice());
    /// cursor.into_reversed() // still reads 3, 2, 1; the buffer is [3, 2, 1]
    /// ```
    pub fn into_reversed(self) -> Reverse<Self>
        ensures stack { ⟦<Reverse<Cursor<Word, Buf>> as Holds<Word, Stack>>⟧.words result
            ≡ ⟦<Cursor<Word, Buf> as Holds<Word, Stack>>⟧.words self }
        ensures queue { ⟦<Reverse<Cursor<Word, Buf>> as Holds<Word, Queue>>⟧.words result
            ≡ ⟦<Cursor<Word, Buf> as Holds<Word, Queue>>⟧.words self }
        ensures buffer { Buf.lent result.0.buf ≡ reverse (Buf.lent self.buf) }
        ensures place { result.0.pos ≡ length (Buf.lent self.buf) - self.pos }
    {
        Reverse(self.reverse_buffer())
    }
}

impl<Word: BitArray, Buf: WordsMut<Word> + Drop> Reverse<Cursor<Word, Buf>> {
    /// Reverses the buffer and returns a plain cursor over it.
    ///
    /// The cursor holds the same words as `self`, as a stack and as a queue.
    pub fn into_reversed(self) -> Cursor<Word, Buf>
        ensures stack { ⟦<Cursor<Word, Buf> as Holds<Word, Stack>>⟧.words result
            ≡ ⟦<Reverse<Cursor<Word, Buf>> as Holds<Word, Stack>>⟧.words self }
        ensures queue { ⟦<Cursor<Word, Buf> as Holds<Word, Queue>>⟧.words result
            ≡ ⟦<Reverse<Cursor<Word, Buf>> as Holds<Word, Queue>>⟧.words self }
        ensures buffer { Buf.lent result.buf ≡ reverse (Buf.lent self.0.buf) }
        ensures place { result.pos ≡ length (Buf.lent self.0.buf) - self.0.pos }
    {
        let Reverse(cursor) = self;
        cursor.reverse_buffer()
    }
}

impl<Word: BitArray, Buf: WordsMut<Word> + Drop> IntoReversed<Word> for Cursor<Word, Buf> {
    type IntoReversed = Reverse<Cursor<Word, Buf>>;

    ghost reverses = { λ old new. (Buf.lent new.0.buf ≡ reverse (Buf.lent old.buf))
        × (new.0.pos ≡ length (Buf.lent old.buf) - old.pos) };

    fn into_reversed_stack(self) -> Reverse<Cursor<Word, Buf>> {
        self.into_reversed()
    }
}

impl<Word: BitArray, Buf: WordsMut<Word> + Drop> IntoReversed<Word> for Reverse<Cursor<Word, Buf>> {
    type IntoReversed = Cursor<Word, Buf>;

    ghost reverses = { λ old new. (Buf.lent new.buf ≡ reverse (Buf.lent old.0.buf))
        × (new.pos ≡ length (Buf.lent old.0.buf) - old.0.pos) };

    fn into_reversed_stack(self) -> Cursor<Word, Buf> {
        self.into_reversed()
    }
}
