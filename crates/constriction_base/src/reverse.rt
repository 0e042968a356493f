//! `Reverse`: a cursor whose stack and queue are swapped.
//!
//! `Reverse(Cursor::new_at_write_beginning(words))` is a stack that reads the buffer `words` from first word to last.
//! Use `Reverse` for buffers that list the words of a stack in reading order, for example a file that is written from
//! its end. The impls cover only cursors. The prover would accept impls for every backend, but not code that calls
//! them.

ghost use Rattle.constriction_base.specs.laws.Room.{within};

use crate::backends::{
    BoundedReadWords, Holds, Pos, PosSeek, Queue, ReadWords, Seek, SeeksBack, Stack, Words,
};
use crate::cursor::Cursor;
use constriction_words::BitArray;
use std::convert::Infallible;

/// A backend that swaps the stack and the queue of the backend `B`.
///
/// Over a cursor, the stack consists of the words at and after the cursor's position. The word at the position is read
/// first. The queue consists of the words before the position. The word right before the position is read first. A
/// position of `Reverse` is the position of the cursor.
///
/// # Examples
///
/// ```
/// let mut backend = Reverse(Cursor::new_at_write_beginning([7u32, 9].as_slice()));
/// ReadWords::<u32, Stack>::read(&mut backend) // Ok(Some(7))
/// ```
#[derive(Clone, Debug, Drop)]
pub struct Reverse<B>(pub B);

impl<Word: BitArray, Buf: Words<Word> + Drop> Holds<Word, Stack> for Reverse<Cursor<Word, Buf>> {
    ghost words = { λ r. ⟦<Cursor<Word, Buf> as Holds<Word, Queue>>⟧.words r.0 };

    ghost is_list = { Unit {0} };
}

impl<Word: BitArray, Buf: Words<Word> + Drop> ReadWords<Word, Stack>
    for Reverse<Cursor<Word, Buf>> {
    type ReadError = Infallible;

    ghost reads = { λ old r new. ⟦<Cursor<Word, Buf> as ReadWords<Word, Queue>>⟧.reads old.0 r new.0 };

    ghost seems_exhausted = { λ r. ⟦<Cursor<Word, Buf> as ReadWords<Word, Queue>>⟧.seems_exhausted r.0 };

    fn read(&mut self) -> Result<Option<Word>, Infallible> {
        ReadWords::<Word, Queue>::read(&mut self.0)
    }

    fn maybe_exhausted(&self) -> bool {
        ReadWords::<Word, Queue>::maybe_exhausted(&self.0)
    }
}

impl<Word: BitArray, Buf: Words<Word> + Drop> BoundedReadWords<Word, Stack>
    for Reverse<Cursor<Word, Buf>> {
    fn remaining(&self) -> usize {
        BoundedReadWords::<Word, Queue>::remaining(&self.0)
    }

    ghost knows_words = { tt };
}

impl<Word: BitArray, Buf: Words<Word> + Drop> Holds<Word, Queue> for Reverse<Cursor<Word, Buf>> {
    ghost words = { λ r. ⟦<Cursor<Word, Buf> as Holds<Word, Stack>>⟧.words r.0 };

    ghost is_list = { Unit {0} };
}

impl<Word: BitArray, Buf: Words<Word> + Drop> ReadWords<Word, Queue>
    for Reverse<Cursor<Word, Buf>> {
    type ReadError = Infallible;

    ghost reads = { λ old r new. ⟦<Cursor<Word, Buf> as ReadWords<Word, Stack>>⟧.reads old.0 r new.0 };

    ghost seems_exhausted = { λ r. ⟦<Cursor<Word, Buf> as ReadWords<Word, Stack>>⟧.seems_exhausted r.0 };

    fn read(&mut self) -> Result<Option<Word>, Infallible> {
        ReadWords::<Word, Stack>::read(&mut self.0)
    }

    fn maybe_exhausted(&self) -> bool {
        ReadWords::<Word, Stack>::maybe_exhausted(&self.0)
    }
}

impl<Word: BitArray, Buf: Words<Word> + Drop> BoundedReadWords<Word, Queue>
    for Reverse<Cursor<Word, Buf>> {
    fn remaining(&self) -> usize {
        BoundedReadWords::<Word, Stack>::remaining(&self.0)
    }

    ghost knows_words = { tt };
}

impl<Word: BitArray, Buf: Words<Word> + Drop> PosSeek for Reverse<Cursor<Word, Buf>> {
    /// The number of words of the buffer before the position.
    type Position = usize;
}

impl<Word: BitArray, Buf: Words<Word> + Drop> Pos for Reverse<Cursor<Word, Buf>> {
    ghost stands_at = { λ r position. ⟦<Cursor<Word, Buf> as Pos>⟧.stands_at r.0 position };

    ghost can_tell = { λ r. ⟦<Cursor<Word, Buf> as Pos>⟧.can_tell r.0 };

    fn pos(&self) -> usize {
        self.0.pos()
    }
}

impl<Word: BitArray, Buf: Words<Word> + Drop> Seek for Reverse<Cursor<Word, Buf>> {
    ghost can_seek = { λ r position. ⟦<Cursor<Word, Buf> as Seek>⟧.can_seek r.0 position };

    ghost seek_fails = { λ r position. ⟦<Cursor<Word, Buf> as Seek>⟧.seek_fails r.0 position };

    ghost sought = { λ old position new. ⟦<Cursor<Word, Buf> as Seek>⟧.sought old.0 position new.0 };

    ghost stays = { λ old position new. ⟦<Cursor<Word, Buf> as Seek>⟧.stays old.0 position new.0 };

    fn seek(&mut self, position: usize) -> Result<(), ()> {
        self.0.seek(position)
    }
}

impl<Word: BitArray, Buf: Words<Word> + Drop> SeeksBack for Reverse<Cursor<Word, Buf>> {
    ghost reach_law = { λ r position stands. stands.1 };

    ghost accept_law = { λ r position stands past. within stands.1 past };
}
