//! A cursor as a stack: it reads the words before its position, backward to the start of the buffer.

ghost use Rattle.std.specs.Prelude.{◌≡◌, ◌+◌, ◌-◌, ◌<◌, ◌==◌, Option, Result, Ok, None, reverse, take};
ghost use Rattle.constriction_base.specs.Backends.{Reads};

use crate::backends::{BoundedReadWords, Holds, ReadWords, Stack, Words};
use crate::cursor::Cursor;
use constriction_words::BitArray;
use std::convert::Infallible;

impl<Word: BitArray, Buf: Words<Word> + Drop> Holds<Word, Stack> for Cursor<Word, Buf> {
    ghost words = { λ c. reverse (take c.pos (Buf.lent c.buf)) };

    ghost is_list = { Unit {0} };
}

impl<Word: BitArray, Buf: Words<Word> + Drop> ReadWords<Word, Stack> for Cursor<Word, Buf> {
    type ReadError = Infallible;

    ghost reads = { λ old r new.
        Reads (reverse (take old.pos (Buf.lent old.buf))) r (reverse (take new.pos (Buf.lent new.buf)))
        × (new.buf ≡ old.buf) };

    ghost seems_exhausted = { λ c. c.pos == 0 };

    #[tactic(auto, using(crate::proofs::Ends::reverse_push))]
    fn read(&mut self) -> Result<Option<Word>, Infallible> {
        if self.pos == 0 {
            return Ok(None);
        }
        let word = self.buf.words()[self.pos - 1];
        self.pos -= 1;
        Ok(Some(word))
    }

    #[tactic(auto, using(crate::proofs::Ends::nothing_before))]
    fn maybe_exhausted(&self) -> bool {
        self.pos == 0
    }
}

impl<Word: BitArray, Buf: Words<Word> + Drop> BoundedReadWords<Word, Stack> for Cursor<Word, Buf> {
    #[tactic(auto, using(std::proofs::lemmas::Grind::common_steps))]
    fn remaining(&self) -> usize {
        self.pos
    }

    ghost knows_words = { tt };
}
