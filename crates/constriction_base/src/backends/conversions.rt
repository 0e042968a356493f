//! Traits of values that turn into a backend for reading, or lend one.
//!
//! Each trait has the law that the new backend holds the same words as the value. This law alone doesn't keep recorded
//! positions valid. For example, the buffer of a new cursor could begin with an extra word, and the cursor could start
//! after that word. The words left to read would be equal, but recorded positions would lead to other words. Therefore
//! vectors and slices also state the buffer and the position of the new cursor, in the ghost member `becomes`.

ghost use Rattle.std.specs.Prelude.{◌≡◌};

use crate::backends::reading::{Holds, ReadWords};
use crate::backends::seeking::Seek;
use crate::backends::semantics::{Semantics, Stack};

/// A value that turns into a backend for reading.
///
/// An implementor chooses the relation `becomes` between the value and the new backend. It proves that the new backend
/// holds the same words as the value, in the order `S`. For vectors and slices, `becomes` states the buffer and the
/// position of the cursor that the value turns into.
pub trait IntoReadWords<Word, S: Semantics>: Holds<Word, S> {
    /// The backend that the value turns into.
    type IntoReadWords: ReadWords<Word, S> + Drop;

    /// Relates the value to the backend that it turns into.
    ghost becomes: { Self → Self.IntoReadWords → Type 0 };

    /// Turns the value into a backend that reads the same words.
    fn into_read_words(self) -> Self::IntoReadWords
        ensures words { ⟦<Self::IntoReadWords as Holds<Word, S>>⟧.words result ≡ Self.words self }
        ensures place { becomes self result };
}

/// A value that lends a backend for reading.
///
/// An implementor chooses the relation `becomes` between the value and the lent backend. It proves that the lent
/// backend holds the same words as the value, in the order `S`.
pub trait AsReadWords<'a, Word, S: Semantics>: Holds<Word, S> {
    /// The backend that the value lends.
    type AsReadWords: ReadWords<Word, S> + Drop;

    /// Relates the value to the backend that it lends.
    ghost becomes: { Self → Self.AsReadWords → Type 0 };

    /// Lends a backend that reads the same words.
    fn as_read_words(&'a self) -> Self::AsReadWords
        ensures words { ⟦<Self::AsReadWords as Holds<Word, S>>⟧.words result ≡ Self.words self.now }
        ensures place { becomes self.now result };
}

/// A value that turns into a backend that can read and seek.
///
/// An implementor chooses the relation `becomes` between the value and the new backend. It proves that the new backend
/// holds the same words as the value, in the order `S`.
pub trait IntoSeekReadWords<Word, S: Semantics>: Holds<Word, S> {
    /// The backend that the value turns into.
    type IntoSeekReadWords: ReadWords<Word, S> + Seek + Drop;

    /// Relates the value to the backend that it turns into.
    ghost becomes: { Self → Self.IntoSeekReadWords → Type 0 };

    /// Turns the value into a backend that reads the same words and can seek.
    fn into_seek_read_words(self) -> Self::IntoSeekReadWords
        ensures words { ⟦<Self::IntoSeekReadWords as Holds<Word, S>>⟧.words result ≡ Self.words self }
        ensures place { becomes self result };
}

/// A value that lends a backend that can read and seek.
///
/// An implementor chooses the relation `becomes` between the value and the lent backend. It proves that the lent
/// backend holds the same words as the value, in the order `S`.
pub trait AsSeekReadWords<'a, Word, S: Semantics>: Holds<Word, S> {
    /// The backend that the value lends.
    type AsSeekReadWords: ReadWords<Word, S> + Seek + Drop;

    /// Relates the value to the backend that it lends.
    ghost becomes: { Self → Self.AsSeekReadWords → Type 0 };

    /// Lends a backend that reads the same words and can seek.
    fn as_seek_read_words(&'a self) -> Self::AsSeekReadWords
        ensures words { ⟦<Self::AsSeekReadWords as Holds<Word, S>>⟧.words result ≡ Self.words self.now }
        ensures place { becomes self.now result };
}

/// A value that can reverse its buffer in place and still hold the same stack.
///
/// An implementor chooses the relation `reverses` between the value and the new value. It proves that the new value
/// holds the same stack. For cursors, `reverses` states the buffer and the position of the new cursor.
pub trait IntoReversed<Word>: Holds<Word, Stack> {
    /// The value over the reversed buffer.
    type IntoReversed: Holds<Word, Stack> + Drop;

    /// Relates the value to the new value over the reversed buffer.
    ghost reverses: { Self → Self.IntoReversed → Type 0 };

    /// Reverses the buffer and returns a value over it that holds the same stack of words.
    fn into_reversed_stack(self) -> Self::IntoReversed
        ensures stack { ⟦<Self::IntoReversed as Holds<Word, Stack>>⟧.words result ≡ Self.words self }
        ensures turned { reverses self result };
}
