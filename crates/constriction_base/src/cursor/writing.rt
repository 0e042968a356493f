//! Writing to a cursor: each write replaces the word at the position, until the position is the end of the buffer.
//!
//! The contract of `write` here states more than the contract of `WriteWords::write`: one word and the position change,
//! and all other words stay the same.

ghost use Rattle.std.specs.Prelude.{◌≡◌, ◌+◌, ◌-◌, ◌∷◌, ◌<◌, ◌≤◌, ◌==◌, Result, Ok, Err, length, reverse, IsOk, OnOk};
ghost use Rattle.std.specs.Prelude.{OnErr, IfErr, slice_set, take};
ghost use Rattle.constriction_base.specs.laws.Room.{no_room_at};
ghost use Rattle.constriction_base.specs.declared.errors.BoundedWriteError.TheVariants.{OutOfSpace};

use crate::backends::{WordsMut, WriteWords};
use crate::cursor::Cursor;
use crate::errors::BoundedWriteError;
use constriction_words::BitArray;

impl<Word: BitArray, Buf: WordsMut<Word> + Drop> WriteWords<Word> for Cursor<Word, Buf> {
    type WriteError = BoundedWriteError;

    ghost writes = { λ old word r new. OnOk r (Buf.lent new.buf ≡ slice_set (Buf.lent old.buf) old.pos word)
        × OnOk r (new.pos ≡ old.pos + 1) × OnErr r (new ≡ old) };

    ghost write_fails = { λ c e. (e ≡ OutOfSpace) × (c.pos ≡ length (Buf.lent c.buf)) };

    ghost prepare_fails = { λ _ _ _. ⊥ };

    ghost room = { λ c. length (Buf.lent c.buf) - c.pos };

    ghost makes_room = { ⊥ };

    ghost is_lack_of_room = { λ e. e ≡ OutOfSpace };

    ghost seems_full = { λ c. c.pos == length (Buf.lent c.buf) };

    /// Replaces the word at the position with `word`, and moves the position past it. No other word changes.
    ///
    /// # Errors
    ///
    /// Returns `OutOfSpace` if the position is the end of the buffer. The cursor is then unchanged.
    #[tactic(auto, using(crate::proofs::Ends::reverse_push))]
    fn write(&mut self, word: Word) -> Result<(), BoundedWriteError>
        ensures ok { OnOk result (reverse (take self.new.pos (Buf.lent self.new.buf))
            ≡ word ∷ reverse (take self.old.pos (Buf.lent self.old.buf))) }
        ensures room { OnOk result (length (Buf.lent self.old.buf) - self.old.pos
            ≤ length (Buf.lent self.new.buf) - self.new.pos + 1) }
        ensures kept { OnErr result (reverse (take self.new.pos (Buf.lent self.new.buf))
            ≡ reverse (take self.old.pos (Buf.lent self.old.buf))) }
        ensures err { IfErr result (λ e. (e ≡ OutOfSpace) × (self.old.pos ≡ length (Buf.lent self.old.buf))) }
        ensures buffer { OnOk result (Buf.lent self.new.buf ≡ slice_set (Buf.lent self.old.buf) self.old.pos word) }
        ensures place { OnOk result (self.new.pos ≡ self.old.pos + 1) }
        ensures unchanged { OnErr result (self.new ≡ self.old) }
    {
        if self.pos == self.buf.words().len() {
            return Err(BoundedWriteError::OutOfSpace);
        }
        self.buf.set_word(self.pos, word);
        self.pos += 1;
        Ok(())
    }

    fn maybe_full(&self) -> bool {
        self.pos == self.buf.words().len()
    }

    /// Always returns `Ok` and changes nothing. `Ok` doesn't guarantee room.
    fn prepare(&mut self, _count: usize) -> Result<(), BoundedWriteError>
        ensures variant { IsOk result }
        ensures unchanged { self.new ≡ self.old }
    {
        // A cursor's room is what its buffer has.
        Ok(())
    }

    ghost room_law = { λ c e some fails. no_room_at (length (Buf.lent c.buf)) c.pos some fails.1 };

    ghost prepare_law = { λ _ _ _ _ fails. fails };

    ghost full_law = { λ _ _ _ _ fails. fails };

    ghost knows_words = { tt };
}
