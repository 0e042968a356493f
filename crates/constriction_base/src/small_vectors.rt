//! `SmallVec` as a stack of words. The first word is stored in the value itself.
//!
//! The vector asks for memory only when it grows past its first word. Only then may a write or `prepare` fail, and only
//! for lack of memory. Reads never fail, allocate nothing and keep the capacity. The crate `constriction_symbol`
//! reverses a codeword on a bit stack over such a vector. The impls are generic over the allocator.

ghost use Rattle.std.specs.Prelude.{◌≡◌, ◌+◌, ◌-◌, false, ◌<◌, ◌≤◌, ◌==◌, Option, Result, Ok, Err, length, reverse};
ghost use Rattle.constriction_base.specs.Backends.{Reads, Writes};
ghost use Rattle.constriction_base.specs.laws.Room.{no_room_left, room_for};

use crate::backends::{BoundedReadWords, Holds, ReadWords, Stack, WriteWords};
use smallvec::SmallVec;
use std::alloc::{AllocError, Allocator};
use std::convert::Infallible;

impl<A: Allocator + Copy> Holds<usize, Stack> for SmallVec<usize, 1, A> {
    ghost words = { λ v. reverse v.items };

    ghost is_list = { Unit {0} };
}

impl<A: Allocator + Copy> ReadWords<usize, Stack> for SmallVec<usize, 1, A> {
    type ReadError = Infallible;

    ghost reads = { λ old r new. Reads (reverse old.items) r (reverse new.items) × (new.capacity ≡ old.capacity) };

    ghost seems_exhausted = { λ v. length v.items == 0 };

    #[tactic(auto, using(crate::proofs::Ends::reverse_push))]
    fn read(&mut self) -> Result<Option<usize>, Infallible> {
        Ok(self.pop())
    }

    #[tactic(auto, using(crate::proofs::Ends::reverse_empty))]
    fn maybe_exhausted(&self) -> bool {
        self.is_empty()
    }
}

impl<A: Allocator + Copy> BoundedReadWords<usize, Stack> for SmallVec<usize, 1, A> {
    #[tactic(auto, using(std::proofs::lemmas::Grind::common_steps))]
    fn remaining(&self) -> usize {
        self.len()
    }

    ghost knows_words = { tt };
}

impl<A: Allocator + Copy> WriteWords<usize> for SmallVec<usize, 1, A> {
    type WriteError = AllocError;

    ghost writes = { λ old word r new. Writes (reverse old.items) word r (reverse new.items)
        × (old.capacity ≤ new.capacity) };

    ghost write_fails = { λ v _. (v.capacity ≤ length v.items) × (1 ≤ length v.items) };

    ghost prepare_fails = { λ v n _. (v.capacity - length v.items < n) × (1 < length v.items + n) };

    ghost room = { λ v. v.capacity - length v.items };

    ghost makes_room = { Unit {0} };

    ghost is_lack_of_room = { λ _. ⊥ };

    ghost seems_full = { λ _. false };

    /// Writes a word onto the stack.
    ///
    /// # Errors
    ///
    /// Returns `AllocError` if the vector has to grow and there is no memory. A write onto an empty stack never fails.
    #[tactic(auto, using(crate::proofs::Ends::reverse_push))]
    fn write(&mut self, word: usize) -> Result<(), AllocError> {
        // The capacity is at least the one inline word.
        let _inline = self.capacity();
        self.push(word)?;
        Ok(())
    }

    fn maybe_full(&self) -> bool {
        false
    }

    /// Asks for room for `count` more words.
    ///
    /// # Errors
    ///
    /// Returns `AllocError` if the vector has to grow and there is no memory. The call never fails if the number of
    /// words on the stack plus `count` is at most 1.
    fn prepare(&mut self, count: usize) -> Result<(), AllocError> {
        // The capacity is at least one, and at least the number of words.
        let _inline = self.capacity();
        let _held = self.len();
        self.reserve(count)
    }

    ghost room_law = { λ v e some full. no_room_left v.capacity (length v.items) some full.0 };

    ghost prepare_law = { λ v count e some few. room_for (v.capacity - length v.items) count some few.0 };

    ghost full_law = { λ _ _ _ never _. never };

    ghost knows_words = { tt };
}
