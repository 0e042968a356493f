//! `Cursor`: a buffer of words and a position in it.

ghost use Rattle.std.specs.Prelude.{◌≡◌, ◌+◌, ◌-◌, ◌<◌, ◌≤◌, Result, Ok, length, min};
ghost use Rattle.constriction_base.specs.Backends.{BufferPosition};

use crate::backends::Words;
use constriction_words::BitArray;
use std::alloc::AllocError;
use std::marker::{Model, PhantomData};

mod queue;
mod reversed;
mod seeking;
mod stack;
mod writing;

/// A buffer of words with a position between the words of a stack and the words of a queue.
///
/// As a stack, the cursor holds the words before the position. The word right before the position is read first. As a
/// queue, the cursor holds the words at and after the position. The word at the position is read first. A write
/// replaces the word at the position, and moves the position past this word. At the end of the buffer, the cursor
/// refuses a write. Contracts describe a cursor by its buffer and its position. The position never exceeds the buffer's
/// length.
///
/// # Examples
///
/// ```
/// let mut words = [0u32; 2];
/// let mut cursor = Cursor::new_at_write_beginning(words.as_mut_slice());
/// cursor.write(7)?; // the buffer is [7, 0]
/// ReadWords::<u32, Stack>::read(&mut cursor) // Ok(Some(7))
/// ```
#[derive(Debug, Drop)]
pub struct Cursor<Word: BitArray, Buf: Words<Word> + Drop> {
    buf: Buf,
    pos: usize,
    word: PhantomData<Word>,
}

impl<Word: BitArray, Buf: Words<Word> + Drop> Model for Cursor<Word, Buf> {
    ghost use Rattle.std.specs.Prelude.{◌≤◌, length};
    ghost use Rattle.constriction_base.specs.Backends.{BufferPosition};

    ghost Value = { BufferPosition Buf };

    ghost view = { λ c. record { buf = c.buf; pos = c.pos } };

    ghost invariant = { λ c. c.pos ≤ length (Buf.lent c.buf) };
}

impl<Word: BitArray, Buf: Words<Word> + Drop> Cursor<Word, Buf> {
    /// Creates a cursor at the beginning of `buf`. Its stack is empty, and its queue holds all words of `buf`.
    ///
    /// # Examples
    ///
    /// ```
    /// let mut cursor = Cursor::new_at_write_beginning([7u32, 9].as_slice());
    /// ReadWords::<u32, Queue>::read(&mut cursor) // Ok(Some(7))
    /// ```
    pub fn new_at_write_beginning(buf: Buf) -> Self
        ensures { result ≡ record { buf = buf; pos = 0 } }
    {
        Cursor {
            buf,
            pos: 0,
            word: PhantomData,
        }
    }

    /// Creates a cursor at the end of `buf`. Its stack holds all words of `buf`, and its queue is empty.
    ///
    /// # Examples
    ///
    /// ```
    /// let mut cursor = Cursor::new_at_write_end([7u32, 9].as_slice());
    /// ReadWords::<u32, Stack>::read(&mut cursor) // Ok(Some(9))
    /// ```
    pub fn new_at_write_end(buf: Buf) -> Self
        ensures { result ≡ record { buf = buf; pos = length (Buf.lent buf) } }
    {
        let pos = buf.words().len();
        Cursor {
            buf,
            pos,
            word: PhantomData,
        }
    }

    /// Returns the buffer. The cursor's position is at most the buffer's length.
    pub fn buf(&self) -> &Buf
        ensures buffer { result.now ≡ self.now.buf }
        ensures within { self.now.pos ≤ length (Buf.lent self.now.buf) }
    {
        &self.buf
    }

    /// Returns the buffer and the position, which is at most the buffer's length.
    pub fn into_buf_and_pos(self) -> (Buf, usize)
        ensures buffer { result.0 ≡ self.buf }
        ensures pos { result.1 ≡ self.pos }
        ensures within { self.pos ≤ length (Buf.lent self.buf) }
    {
        let Cursor { buf, pos, word: _ } = self;
        (buf, pos)
    }
}

impl<Word: BitArray, Buf: Words<Word> + Clone> Clone for Cursor<Word, Buf> {
    ghost is_clone = { λ old new. Buf.is_clone old.buf new.buf × (new.pos ≡ min old.pos (length (Buf.lent new.buf))) };

    ghost is_infallible = { λ c. Buf.is_infallible c.buf };

    fn clone(&self) -> Result<Self, AllocError> {
        let buf = self.buf.clone()?;
        let pos = self.pos.min(buf.words().len());
        Ok(Cursor {
            buf,
            pos,
            word: PhantomData,
        })
    }
}
