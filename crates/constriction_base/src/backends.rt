//! Backends: where a coder keeps its words.
//!
//! Contracts describe a backend by the list of words that its next reads return, the next word first. A read takes the
//! first word off the list. Writes always go onto a stack: a write puts a word in front of the list that is read as a
//! stack, so the word written last is read first.
//!
//! - `semantics`: the two reading orders.
//! - `reading`: reading words, and counting the words left to read.
//! - `writing`: writing words, and asking for room.
//! - `seeking`: recording positions, and seeking to them.
//! - `lending`: buffers that lend their words as a slice.
//! - `conversions`: values that turn into a backend for reading, or lend one.
//! - `taking`: removing words that were written to a backend.
//! - `both_ways`: backends that hold the same words as a stack and as a queue.

pub mod both_ways;
pub mod conversions;
pub mod lending;
pub mod reading;
pub mod seeking;
pub mod semantics;
pub mod taking;
pub mod writing;

pub use both_ways::{BothWays, written_to_queue};
pub use conversions::{
    AsReadWords, AsSeekReadWords, IntoReadWords, IntoReversed, IntoSeekReadWords,
};
pub use lending::{Words, WordsMut};
pub use reading::{BoundedReadWords, Holds, ReadWords};
pub use seeking::{CountsWords, Pos, PosSeek, Seek, SeeksBack};
pub use semantics::{Queue, Semantics, Stack};
pub use taking::take_back;
pub use writing::WriteWords;
