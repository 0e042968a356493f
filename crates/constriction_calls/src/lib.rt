//! The coders as functions over a caller's buffers. No object of this crate outlives a call.
//!
//! Between calls the caller keeps all parts of a coder: a buffer of words, the number of words in use, and a few
//! numbers such as heads. So a caller in another language needs no handle. `constriction_c` exports the calls as C
//! functions.
//!
//! - [`ans`]: the stack coder.
//! - [`symbol`]: bit coders with codebooks, which are Exp-Golomb codewords and Huffman trees.
//! - [`range`]: the range coder.
//! - [`chain`]: the chain coder.
//! - [`store`]: stores of chunks.
#![tactic(auto)]

pub mod ans;
pub mod chain;
mod finishing;
pub mod range;
pub mod store;
pub mod symbol;
