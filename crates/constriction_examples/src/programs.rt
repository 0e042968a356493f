//! Small programs for the range coder, the chain coder, codebooks and models. `docs/EXAMPLES.md` lists them.

pub mod bits;
pub mod chain;
pub mod huffman;
pub mod models;
pub mod range;
