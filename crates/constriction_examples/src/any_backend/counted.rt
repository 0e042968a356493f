//! A backend that counts the words written to another backend.

ghost use Rattle.std.specs.Prelude.{◌≡◌, ◌+◌, ◌-◌, ◌^◌, OnOk, OnErr, min};

use constriction::backends::{BothWays, CountsWords, Holds, IntoReadWords, WriteWords};
use constriction::{Pos, PosSeek, Queue, Semantics, Stack};

/// A backend that passes each call to the backend `inner`, and counts the words written.
///
/// The field `written` is the count of words. The count stops at `u64::MAX`.
#[derive(Drop)]
pub struct Counted<B> {
    pub inner: B,
    pub written: u64,
}

impl<B> Counted<B> {
    /// Wraps a backend, with a count of 0. Words that the backend already holds aren't counted.
    pub fn new(inner: B) -> Self
        ensures inner { result.inner ≡ inner }
        ensures none { result.written ≡ 0 }
    {
        Counted { inner, written: 0 }
    }
}

impl<S: Semantics, B: Holds<u32, S>> Holds<u32, S> for Counted<B> {
    ghost words = { λ b. ⟦<B as Holds<u32, S>>⟧.words b.inner };

    ghost is_list = { ⟦<B as Holds<u32, S>>⟧.is_list };
}

impl<B: BothWays<u32>> BothWays<u32> for Counted<B> {
    ghost turned_law = { λ b. B.turned_law b.inner };
}

impl<B: WriteWords<u32>> WriteWords<u32> for Counted<B> {
    type WriteError = B::WriteError;

    ghost writes = { λ old word result new. B.writes old.inner word result new.inner
        × OnOk result (new.written ≡ min (old.written + 1) (2 ^ 64 - 1))
        × OnErr result (new.written ≡ old.written) };

    ghost write_fails = { λ b. B.write_fails b.inner };

    ghost prepare_fails = { λ b. B.prepare_fails b.inner };

    ghost room = { λ b. B.room b.inner };

    ghost makes_room = { B.makes_room };

    ghost is_lack_of_room = { B.is_lack_of_room };

    ghost seems_full = { λ b. B.seems_full b.inner };

    fn write(&mut self, word: u32) -> Result<(), B::WriteError> {
        self.inner.write(word)?;
        self.written = self.written.saturating_add(1);
        Ok(())
    }

    fn maybe_full(&self) -> bool {
        self.inner.maybe_full()
    }

    fn prepare(&mut self, count: usize) -> Result<(), B::WriteError> {
        self.inner.prepare(count)
    }

    ghost room_law = { λ b. B.room_law b.inner };

    ghost prepare_law = { λ b. B.prepare_law b.inner };

    ghost full_law = { λ b. B.full_law b.inner };

    ghost knows_words = { B.knows_words };
}

impl<B: PosSeek> PosSeek for Counted<B> {
    type Position = B::Position;
}

impl<B: Pos> Pos for Counted<B> {
    ghost stands_at = { λ b. B.stands_at b.inner };

    ghost can_tell = { λ b. B.can_tell b.inner };

    fn pos(&self) -> B::Position {
        self.inner.pos()
    }
}

impl<B: CountsWords<u32>> CountsWords<u32> for Counted<B> {
    ghost count_law = { λ b. B.count_law b.inner };

    ghost told_law = { λ b. B.told_law b.inner };
}

impl<B: IntoReadWords<u32, Queue>> IntoReadWords<u32, Queue> for Counted<B> {
    type IntoReadWords = B::IntoReadWords;

    ghost becomes = { λ b reader. B.becomes b.inner reader };

    fn into_read_words(self) -> B::IntoReadWords {
        self.inner.into_read_words()
    }
}
