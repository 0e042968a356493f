//! Laws of the chain coder.
//!
//! - [`steps`]: encoding and decoding one symbol undo each other. A second change of the precision can undo the first.
//! - [`errors`]: the error of encoding symbols onto remainders.
//! - [`isolation`]: a symbol depends only on the compressed words, the precisions and its own table.
//! - [`lists`]: encoding and decoding lists of symbols undo each other, from the last symbol to the first.
//! - [`words`]: a coder made from the remainders restores the words when it encodes the decoded symbols.
//! - [`round_trips`]: functions that decode symbols and return the remainders, or encode symbols onto remainders.

pub mod errors;
pub mod isolation;
pub mod lists;
pub mod round_trips;
pub mod steps;
pub mod words;
