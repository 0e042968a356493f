//! Stores of chunks over a caller's buffers. The caller keeps the words of the store, and its index.
//!
//! The index is three lists with one number for each chunk: the chunk's position in the words, and the lower end and
//! the length of the encoder's interval at that position.

mod building;
mod cutting;
mod indexing;
mod looking_up;

pub use building::build;
pub use looking_up::chunk;
