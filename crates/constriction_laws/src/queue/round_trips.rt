//! Round-trip functions of the range coder, generic in the sizes of words, states and tables.
//!
//! Each function is one half of a round trip: it encodes symbols and returns words, or it decodes symbols from words.
//! Its docstring names the calls that it makes. Its contract uses the laws' definitions to describe the combined
//! effect of these calls. A caller of both halves joins them by a law of [`lists`](crate::queue::lists), or by a
//! clause of the half that decodes. The clause `err` of a function proves the reason for each error except `Refused`
//! and `NoMemory`.
//!
//! - [`lent_pairs`]: decodes symbols from the words that an encoder lends.
//! - [`pairs`]: encodes symbols and exports the words, or decodes symbols from any words.
//! - [`positions_of_pairs`]: decodes symbols from recorded positions.

mod coding;
pub mod lent_pairs;
pub mod pairs;
pub mod positions_of_pairs;
