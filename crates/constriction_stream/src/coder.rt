//! `Code`: the word type and the state of a coder.

use constriction_words::BitArray;

/// A coder: it holds words of compressed data, and a state besides these words.
///
/// An implementor chooses the ghost member `shows`, which relates the coder to each value that `state` may return. The
/// implementor proves that `state` returns one of these values.
pub trait Code {
    /// The word type of the compressed data.
    type Word: BitArray;

    /// The type of the coder's state, such as the stack coder's head or the range coder's interval.
    type State: Drop;

    /// Relates the coder to each value that `state` may return. An implementor chooses this relation freely.
    ghost shows: { Self → Self.State → Type 0 };

    /// Returns the coder's state, such as the stack coder's head or the range coder's interval.
    fn state(&self) -> Self::State
        ensures { shows self.now result };
}
