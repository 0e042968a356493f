//! Writing words to a backend.
//!
//! The room of a backend is the number of writes that are sure to succeed. A refused `prepare` doesn't reduce the room,
//! so a caller that took words off the backend can write them back.
//!
//! The ghost member `writes` states how a write changes the backend. It has no default, because a default that holds
//! for every backend would be vacuous. For vectors, `writes` states the items, and that the capacity doesn't shrink.
//! For cursors, it states the buffer and the position. By its contract, `maybe_full` returns the ghost member
//! `seems_full`, so the prover refuses a body that returns anything else.

ghost use Rattle.std.specs.Prelude.{◌≡◌, ◌+◌, ℕ, Bool, false, ◌∷◌, ◌<◌, ◌≤◌, Result, OnOk, OnErr, IfErr};

use crate::backends::reading::Holds;
use crate::backends::semantics::Stack;

/// A backend for writing. Its words form a stack: each write puts a word on top.
///
/// The errors that a call may return depend only on the backend before the call. For `prepare`, they also depend on the
/// number of words that the caller asks for.
///
/// An implementor chooses:
///
/// - `writes`: how a write changes the backend.
/// - `write_fails` and `prepare_fails`: which errors the calls may return.
/// - `room`: how many writes are sure to succeed, possibly none.
/// - `makes_room`: whether a successful `prepare` makes room for the number of words that the caller asked for.
/// - `is_lack_of_room`: which errors mean lack of room.
/// - `seems_full`: what `maybe_full` returns.
///
/// It then proves that the calls obey these choices, and proves the laws that relate the choices to one another.
///
/// # Examples
///
/// ```
/// let mut words: Vec<u32> = Vec::new(alloc);
/// words.prepare(2)?;
/// words.write(7)?;
/// words.write(9)?; // neither write allocates memory
/// ```
pub trait WriteWords<Word>: Holds<Word, Stack> {
    /// The error of `write` and `prepare`.
    ///
    /// A vector's error means lack of memory. A cursor's error means lack of room.
    type WriteError;

    /// Relates the backend before a write, the word, the write's result, and the backend after the write.
    ///
    /// The relation includes state that `words` and `room` don't capture, such as a cursor's position and a vector's
    /// capacity. Contracts of calls that write several words chain this relation: each write starts from the backend
    /// that the previous write left.
    ghost writes: { Self → Word → Result (Unit {0}) Self.WriteError → Self → Type 0 };

    /// Holds for each error that the next write may return.
    ghost write_fails: { Self → Self.WriteError → Type 0 };

    /// Holds for each error that `prepare` may return when the caller asks for room for this number of words.
    ghost prepare_fails: { Self → ℕ → Self.WriteError → Type 0 };

    /// The number of writes that are sure to succeed.
    ghost room: { Self → ℕ };

    /// Holds if a successful `prepare` makes room for the number of words that the caller asked for.
    ghost makes_room: { Type 0 };

    /// Holds for each error that means that the backend is full. Lack of memory is a different error.
    ghost is_lack_of_room: { Self.WriteError → Type 0 };

    /// The value that `maybe_full` returns.
    ghost seems_full: { Self → Bool };

    /// Writes a word onto the stack, so that the next read returns this word.
    ///
    /// # Errors
    ///
    /// Returns the backend's error if the write fails, for example because a cursor is at the end of its buffer. The
    /// implementor states in `write_fails` which errors are possible. A write that fails leaves the words unchanged.
    fn write(&mut self, word: Word) -> Result<(), Self::WriteError>
        ensures writes { writes self.old word result self.new }
        ensures ok { OnOk result (Self.words self.new ≡ word ∷ Self.words self.old) }
        ensures room { OnOk result (room self.old ≤ room self.new + 1) }
        ensures kept { OnErr result (Self.words self.new ≡ Self.words self.old) }
        ensures err { IfErr result (λ e. write_fails self.old e) };

    /// Returns whether the backend may be full.
    ///
    /// If the call returns `false`, neither the next write nor a `prepare` for one word fails because the backend is
    /// full. A vector always returns `false`, because it grows as long as there is memory.
    fn maybe_full(&self) -> bool
        ensures value { result ≡ seems_full self.now }
        ensures room_left { result ≡ false → (e : Self.WriteError) → is_lack_of_room e → write_fails self.now e → ⊥ };

    /// Asks for room for `count` more words. No word changes.
    ///
    /// If a successful call makes room (`makes_room`), as for vectors, `Ok` guarantees that the next `count` writes
    /// succeed. For a cursor, `Ok` doesn't guarantee room. Every error that the next write may return after the call
    /// was also possible before the call.
    ///
    /// # Errors
    ///
    /// Returns the backend's error if the backend refuses the request, for example because a vector lacks memory. The
    /// implementor states in `prepare_fails` which errors are possible. A refused request doesn't reduce the room.
    fn prepare(&mut self, count: usize) -> Result<(), Self::WriteError>
        ensures words { Self.words self.new ≡ Self.words self.old }
        ensures room { OnOk result (room self.old ≤ room self.new) }
        ensures kept_room { OnErr result (room self.old ≤ room self.new) }
        ensures made { OnOk result (makes_room → count ≤ room self.new) }
        ensures fails { (e : Self.WriteError) → write_fails self.new e → write_fails self.old e }
        ensures err { IfErr result (λ e. prepare_fails self.old count e) };

    // If there is room, the next write isn't refused.
    ghost room_law: { (b : Self) (e : Self.WriteError) → 0 < room b → write_fails b e → ⊥ };

    // If the room is at least `count`, a request for `count` words isn't refused.
    ghost prepare_law: { (b : Self) (count : ℕ) (e : Self.WriteError) → count ≤ room b → prepare_fails b count e → ⊥ };

    // If `maybe_full` returns `false`, a request for one word isn't refused for lack of room.
    ghost full_law: { (b : Self) (e : Self.WriteError) → seems_full b ≡ false → is_lack_of_room e → prepare_fails b 1 e
        → ⊥ };

    ghost knows_words: { Self.is_list };
}
