//! Positions of a cursor. A position is the number of words before it in the buffer.

ghost use Rattle.std.specs.Prelude.{◌≡◌, ◌+◌, ◌-◌, ◌<◌, ◌≤◌, Result, Ok, Err, length};
ghost use Rattle.constriction_base.specs.laws.Room.{within, words_before};

use crate::backends::{CountsWords, Pos, PosSeek, Seek, SeeksBack, Words};
use crate::cursor::Cursor;
use constriction_words::BitArray;

impl<Word: BitArray, Buf: Words<Word> + Drop> PosSeek for Cursor<Word, Buf> {
    /// The number of words of the buffer before the position.
    type Position = usize;
}

impl<Word: BitArray, Buf: Words<Word> + Drop> Pos for Cursor<Word, Buf> {
    ghost stands_at = { λ c position. (position ≡ c.pos) × (position ≤ length (Buf.lent c.buf)) };

    ghost can_tell = { λ _. Unit {0} };

    fn pos(&self) -> usize {
        self.pos
    }
}

impl<Word: BitArray, Buf: Words<Word> + Drop> Seek for Cursor<Word, Buf> {
    ghost can_seek = { λ c position. position ≤ length (Buf.lent c.buf) };

    ghost seek_fails = { λ c position. length (Buf.lent c.buf) < position };

    ghost sought = { λ old position new. new ≡ record { buf = old.buf; pos = position } };

    ghost stays = { λ old _ new. new ≡ old };

    fn seek(&mut self, position: usize) -> Result<(), ()> {
        if position > self.buf.words().len() {
            return Err(());
        }
        self.pos = position;
        Ok(())
    }
}

impl<Word: BitArray, Buf: Words<Word> + Drop> CountsWords<Word> for Cursor<Word, Buf> {
    ghost count_law = { λ c place stands. words_before (Buf.lent c.buf) c.pos place stands };

    ghost told_law = { λ _. tt };
}

impl<Word: BitArray, Buf: Words<Word> + Drop> SeeksBack for Cursor<Word, Buf> {
    ghost reach_law = { λ c position stands. stands.1 };

    ghost accept_law = { λ c position stands past. within stands.1 past };
}
