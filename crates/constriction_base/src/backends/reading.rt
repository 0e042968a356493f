//! Reading words from a backend.

ghost use Rattle.std.specs.Prelude.{◌≡◌, ◌==◌, Bool, List, [], Option, Result, Ok, None, length, IsTrue};
ghost use Rattle.constriction_base.specs.Backends.{Reads};

use crate::backends::semantics::Semantics;

/// A value that holds words in the reading order `S`.
///
/// A type that implements the trait for both orders has one list of words for each order.
///
/// An implementor freely chooses `words`, the list of words, and `is_list`, which states whether reads follow this
/// list. If reads follow the list, the contracts of reading and writing state how each call changes the list.
pub trait Holds<Word, S: Semantics> {
    /// The words that the next reads return, in order. If `is_list` doesn't hold, the list has no meaning.
    ghost words: { Self → List Word };

    /// Holds if `words` is the list of words that the next reads return.
    ghost is_list: { Type 0 };
}

/// A backend whose words can be read, in the order `S`.
///
/// A `Stack` reads the word that was written last. A `Queue` reads the word that was written first.
///
/// An implementor chooses what a read may return and how the read changes the backend (`reads`). It also chooses what
/// `maybe_exhausted` returns (`seems_exhausted`). It proves four facts:
///
/// - The calls obey these choices.
/// - `maybe_exhausted` returns `true` if the next read may return `Ok(None)`.
/// - If reads follow the list of words (`is_list`), a read that returns a word takes the first word off the list. A
///   read returns `Ok(None)` only if the list is empty. A read that fails leaves the list unchanged.
/// - If reads follow the list of words, `maybe_exhausted` returns `true` if the list is empty.
///
/// # Examples
///
/// ```
/// let mut cursor = Cursor::new_at_write_end([7u32, 9].as_slice());
/// ReadWords::<u32, Stack>::read(&mut cursor) // Ok(Some(9))
/// ```
pub trait ReadWords<Word, S: Semantics>: Holds<Word, S> {
    /// The error of a read.
    ///
    /// For vectors and cursors, the type is `Infallible`. For `FallibleIteratorReadWords`, the type is the error type
    /// of the iterator's items.
    type ReadError;

    /// Relates the backend before a read, the read's result, and the backend after the read.
    ghost reads: { Self → Result (Option Word) Self.ReadError → Self → Type 0 };

    /// The value that `maybe_exhausted` returns.
    ghost seems_exhausted: { Self → Bool };

    /// Reads the next word, or returns `Ok(None)` if no word is left.
    ///
    /// If reads follow the list of words (`is_list`), a read that returns a word takes the first word off the list. A
    /// read returns `Ok(None)` only if the list is empty.
    ///
    /// # Errors
    ///
    /// Returns the backend's error if the read fails. The implementor states in `reads` which errors are possible. If
    /// reads follow the list of words, a read that fails leaves the list unchanged.
    fn read(&mut self) -> Result<Option<Word>, Self::ReadError>
        ensures reads { reads self.old result self.new }
        ensures words { Self.is_list → Reads (Self.words self.old) result (Self.words self.new) };

    /// Returns whether the backend may have run out of words.
    ///
    /// If the call returns `false`, the next read doesn't return `Ok(None)`. If the call returns `true`, a word may
    /// still be left.
    fn maybe_exhausted(&self) -> bool
        ensures value { result ≡ seems_exhausted self.now }
        ensures exhausted { Self.is_list → Self.words self.now ≡ [] → IsTrue result }
        ensures ended { (after : Self) → reads self.now (Ok None) after → IsTrue result };
}

/// A backend that can count the words left to read.
///
/// An implementor proves that reads follow the list of words (`is_list`), and that `remaining` returns the length of
/// this list.
pub trait BoundedReadWords<Word, S: Semantics>: ReadWords<Word, S> {
    /// Returns the number of words left to read in the order `S`.
    fn remaining(&self) -> usize
        ensures { result ≡ length (Self.words self.now) };

    /// Returns whether no word is left to read in the order `S`.
    fn is_exhausted(&self) -> bool
        ensures { result ≡ (length (Self.words self.now) == 0) }
    {
        self.remaining() == 0
    }

    ghost knows_words: { Self.is_list };
}
