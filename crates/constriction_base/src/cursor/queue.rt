//! A cursor as a queue: it reads the words from its position to the end of the buffer.

ghost use Rattle.std.specs.Prelude.{◌≡◌, ◌+◌, ◌-◌, ◌<◌, ◌==◌, Option, Result, Ok, None, length, drop};
ghost use Rattle.constriction_base.specs.Backends.{Reads};

use crate::backends::{BoundedReadWords, Holds, Queue, ReadWords, Words};
use crate::cursor::Cursor;
use constriction_words::BitArray;
use std::convert::Infallible;

impl<Word: BitArray, Buf: Words<Word> + Drop> Holds<Word, Queue> for Cursor<Word, Buf> {
    ghost words = { λ c. drop c.pos (Buf.lent c.buf) };

    ghost is_list = { Unit {0} };
}

impl<Word: BitArray, Buf: Words<Word> + Drop> ReadWords<Word, Queue> for Cursor<Word, Buf> {
    type ReadError = Infallible;

    ghost reads = { λ old r new. Reads (drop old.pos (Buf.lent old.buf)) r (drop new.pos (Buf.lent new.buf))
        × (new.buf ≡ old.buf) };

    ghost seems_exhausted = { λ c. c.pos == length (Buf.lent c.buf) };

    fn read(&mut self) -> Result<Option<Word>, Infallible> {
        if self.pos == self.buf.words().len() {
            return Ok(None);
        }
        let word = self.buf.words()[self.pos];
        self.pos += 1;
        Ok(Some(word))
    }

    #[tactic(auto, using(crate::proofs::Ends::at_end))]
    fn maybe_exhausted(&self) -> bool {
        self.pos == self.buf.words().len()
    }
}

impl<Word: BitArray, Buf: Words<Word> + Drop> BoundedReadWords<Word, Queue> for Cursor<Word, Buf> {
    fn remaining(&self) -> usize {
        self.buf.words().len() - self.pos
    }

    ghost knows_words = { tt };
}
