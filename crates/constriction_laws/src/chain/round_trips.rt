//! Round-trip functions of the chain coder, generic in the sizes of words, heads and tables.
//!
//! The docstring of a function names the calls that the function makes. The function's contract uses the laws'
//! definitions to describe the combined effect of these calls. The errors are
//! [`RoundTripError`](crate::errors::RoundTripError) and [`PutBackError`](crate::chain::errors::PutBackError). The
//! clause `err` proves the reason that an error names, except for `Refused` and `NoMemory`. In [`isolation`], it proves
//! the reason of `OutOfData` only if the compressed backend behaves as a fixed list of words (`is_list`).
//!
//! - [`isolation`]: decodes symbols from two coders. It relates the results if `is_list` holds for the compressed
//!   backend, and both coders have the same compressed head and compressed words.
//! - [`words`]: decodes symbols and returns the remainders, or encodes the symbols onto the remainders.

mod coding;
pub mod isolation;
pub mod words;
