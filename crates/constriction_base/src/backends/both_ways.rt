//! Backends that hold the same words as a stack and as a queue.
//!
//! The law of `BothWays` states that the list of the queue is the reverse of the list of the stack. `Holds` doesn't
//! include this law, because the law is false for a cursor: a cursor's position separates its stack from its queue. A
//! coder that only lends its words to a decoder needs no `BothWays`, because the decoder reads the list of
//! `Holds<Word, Queue>`.

ghost use Rattle.std.specs.Prelude.{◌≡◌, reverse};

use crate::backends::conversions::IntoReadWords;
use crate::backends::reading::Holds;
use crate::backends::semantics::{Queue, Stack};
use crate::backends::writing::WriteWords;

/// A backend that holds the same words as a stack and as a queue, in opposite orders.
///
/// As a stack, it returns the words in the reverse of the order in which they were written. As a queue, it returns them
/// in the order in which they were written.
///
/// Coders require this trait of a backend that they write to as a stack and then pass to a decoder as a queue. Vectors
/// and immutable slices implement the trait. A cursor doesn't, because its position separates the words of its stack
/// from the words of its queue.
///
/// An implementor proves one law: the list of the queue is the reverse of the list of the stack.
pub trait BothWays<Word>: Holds<Word, Stack> + Holds<Word, Queue> {
    // The queue's list is the stack's list in reverse.
    ghost turned_law: { (b : Self)
        → ⟦<Self as Holds<Word, Queue>>⟧.words b ≡ reverse (⟦<Self as Holds<Word, Stack>>⟧.words b) };
}

/// Turns a backend into a queue, which reads the words in the order in which they were written.
///
/// # Examples
///
/// ```
/// let mut words: Vec<u32> = Vec::new(alloc);
/// words.write(7)?;
/// words.write(9)?;
/// ReadWords::<u32, Queue>::read(&mut written_to_queue(words)) // Ok(Some(7))
/// ```
pub fn written_to_queue<
    Word,
    Backend: WriteWords<Word> + IntoReadWords<Word, Queue> + BothWays<Word>,
>(backend: Backend) -> Backend::IntoReadWords
    ensures words { ⟦<Backend::IntoReadWords as Holds<Word, Queue>>⟧.words result
        ≡ reverse (⟦<Backend as Holds<Word, Stack>>⟧.words backend) }
    ensures place { Backend.becomes backend result }
{
    backend.into_read_words()
}
