//! Laws of the stack coder.
//!
//! - [`steps`]: encoding and decoding one symbol undo each other, and each has exactly one result.
//! - [`words`]: a state and its words determine each other.
//! - [`lists`]: decoding exported words returns the encoded symbols, last symbol first.
//! - [`binary`]: encoding the symbols decoded from any words restores the words, in binary form.
//! - [`positions`]: a recorded position leads back to its state.
//! - [`readings`]: importing and decoding over backends that don't behave as a fixed list of words, such as iterators.
//! - [`guards`]: a guard lends the words of the export, and the guard's drop restores the coder.
//! - [`round_trips`]: functions that make the coder's calls for one half of a round trip: encoding or decoding.
//! - [`sizes`]: the numbers of words and bits of a state.

pub mod binary;
pub mod guards;
pub mod lists;
pub mod positions;
pub mod readings;
pub mod round_trips;
pub mod sizes;
pub mod steps;
pub mod words;
