//! `Vec` as a stack of words: the last word of the vector is read first.
//!
//! Reads never fail, allocate nothing and keep the capacity. Writes and `prepare` fail only for lack of memory. The
//! impls are generic over the allocator.

ghost use Rattle.std.specs.Prelude.{◌≡◌, ◌+◌, ◌-◌, false, ◌<◌, ◌≤◌, ◌==◌, Option, Result, Ok, Err, reverse, vec_len};
ghost use Rattle.std.specs.Prelude.{vec_capacity, take};
ghost use Rattle.constriction_base.specs.Backends.{Reads, Writes};
ghost use Rattle.constriction_base.specs.laws.Room.{no_room_left, room_for, at_length, within, words_counted};
ghost use Rattle.std.proofs.Common.{sym};
ghost use Rattle.std.proofs.lemmas.List.{reverse-reverse};

use crate::backends::{
    BothWays, BoundedReadWords, CountsWords, Holds, Pos, PosSeek, Queue, ReadWords, Seek,
    SeeksBack, Stack, Words, WordsMut, WriteWords,
};
use constriction_words::BitArray;
use std::alloc::{AllocError, Allocator};
use std::convert::Infallible;

mod conversions;
mod references;

impl<Word: BitArray, A: Allocator> Holds<Word, Stack> for Vec<Word, A> {
    ghost words = { λ v. reverse v.items };

    ghost is_list = { Unit {0} };
}

impl<Word: BitArray, A: Allocator> Holds<Word, Queue> for Vec<Word, A> {
    ghost words = { λ v. v.items };

    ghost is_list = { Unit {0} };
}

impl<Word: BitArray, A: Allocator> ReadWords<Word, Stack> for Vec<Word, A> {
    type ReadError = Infallible;

    ghost reads = { λ old r new. Reads (reverse old.items) r (reverse new.items)
        × (vec_capacity new ≡ vec_capacity old) };

    ghost seems_exhausted = { λ v. vec_len v == 0 };

    #[tactic(auto, using(crate::proofs::Ends::reverse_push))]
    fn read(&mut self) -> Result<Option<Word>, Infallible> {
        Ok(self.pop())
    }

    #[tactic(auto, using(crate::proofs::Ends::reverse_empty))]
    fn maybe_exhausted(&self) -> bool {
        self.is_empty()
    }
}

impl<Word: BitArray, A: Allocator> BoundedReadWords<Word, Stack> for Vec<Word, A> {
    #[tactic(auto, using(std::proofs::lemmas::Grind::common_steps))]
    fn remaining(&self) -> usize {
        self.len()
    }

    ghost knows_words = { tt };
}

impl<Word: BitArray, A: Allocator> WriteWords<Word> for Vec<Word, A> {
    type WriteError = AllocError;

    ghost writes = { λ old word r new. Writes (reverse old.items) word r (reverse new.items)
        × (vec_capacity old ≤ vec_capacity new) };

    ghost write_fails = { λ v _. vec_capacity v ≤ vec_len v };

    ghost prepare_fails = { λ v n _. vec_capacity v - vec_len v < n };

    ghost room = { λ v. vec_capacity v - vec_len v };

    ghost makes_room = { Unit {0} };

    ghost is_lack_of_room = { λ _. ⊥ };

    ghost seems_full = { λ _. false };

    #[tactic(auto, using(crate::proofs::Ends::reverse_push))]
    fn write(&mut self, word: Word) -> Result<(), AllocError> {
        self.push(word)?;
        Ok(())
    }

    fn maybe_full(&self) -> bool {
        false
    }

    fn prepare(&mut self, count: usize) -> Result<(), AllocError> {
        self.reserve(count)
    }

    ghost room_law = { λ v e. no_room_left (vec_capacity v) (vec_len v) };

    ghost prepare_law = { λ v count e. room_for (vec_capacity v - vec_len v) count };

    ghost full_law = { λ _ _ _ never _. never };

    ghost knows_words = { tt };
}

impl<Word: BitArray, A: Allocator> PosSeek for Vec<Word, A> {
    /// The number of words before the position.
    type Position = usize;
}

impl<Word: BitArray, A: Allocator> Pos for Vec<Word, A> {
    ghost stands_at = { λ v position. position ≡ vec_len v };

    ghost can_tell = { λ _. Unit {0} };

    fn pos(&self) -> usize {
        self.len()
    }
}

impl<Word: BitArray, A: Allocator> Seek for Vec<Word, A> {
    ghost can_seek = { λ v position. position ≤ vec_len v };

    ghost seek_fails = { λ v position. vec_len v < position };

    ghost sought = { λ old position new. (new.items ≡ take position old.items)
        × (vec_capacity new ≡ vec_capacity old) };

    ghost stays = { λ old _ new. new ≡ old };

    fn seek(&mut self, position: usize) -> Result<(), ()> {
        if position > self.len() {
            return Err(());
        }
        self.truncate(position);
        Ok(())
    }
}

impl<Word: BitArray, A: Allocator> CountsWords<Word> for Vec<Word, A> {
    ghost count_law = { λ v place stands. words_counted v.items (vec_len v) place v.ok.0 stands };

    ghost told_law = { λ _. tt };
}

impl<Word: BitArray, A: Allocator> SeeksBack for Vec<Word, A> {
    ghost reach_law = { λ v position stands. at_length position (vec_len v) stands };

    ghost accept_law = { λ v position stands past. within (at_length position (vec_len v) stands) past };
}

impl<Word: BitArray, A: Allocator> BothWays<Word> for Vec<Word, A> {
    ghost turned_law = { λ v. sym (reverse-reverse v.items) };
}

impl<Word: BitArray, A: Allocator> Words<Word> for Vec<Word, A> {
    ghost lent = { λ v. v.items };

    fn words(&self) -> &[Word] {
        self.as_slice()
    }
}

impl<Word: BitArray, A: Allocator> WordsMut<Word> for Vec<Word, A> {
    fn set_word(&mut self, index: usize, word: Word) {
        self[index] = word;
    }

    fn reverse_words(&mut self) {
        self.as_mut_slice().reverse();
    }
}
