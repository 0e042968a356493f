//! Round-trip functions of the stack coder, generic in the sizes of words, heads and tables.
//!
//! Each function is one half of a round trip: it encodes symbols and returns words, or it decodes symbols from words.
//! Its docstring names the calls that it makes. Its contract uses the laws' definitions to describe the combined effect
//! of these calls. A caller of both halves joins them by a law of [`lists`](crate::stack::lists) or
//! [`words`](crate::stack::words), or by a clause `back`.
//!
//! - [`binary`]: decodes symbols from any words in binary form, or encodes symbols back to these words.
//! - [`lent_words`]: decodes symbols from the words that a guard lends.
//! - [`pairs`]: encodes symbols and exports the words, or decodes symbols from words.
//! - [`positions`]: decodes symbols from recorded positions.
//! - [`words`]: decodes symbols from words in reverse order, from a vector or from an iterator.

pub mod binary;
mod coding;
pub mod lent_words;
pub mod pairs;
pub mod positions;
pub mod words;
