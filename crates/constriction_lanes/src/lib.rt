//! Many stack coders in one call, over a caller's buffers. No object of this crate outlives a call.
//!
//! The caller keeps the coders: a list of heads, a matrix of words with a row for each coder, and a list with the
//! number of words that each coder has in use. Row `j` of every argument belongs to coder `j`: with `n` coders, a list
//! of symbols, of intervals or of a model's parameters is `n` rows, one after another. So a call replaces `n` calls of
//! [`constriction_calls::ans`], and each coder has the same head and words after it. The words have no format of their
//! own.
//!
//! - [`decoding`]: decoding a row of symbols from each coder.
//! - [`encoding`]: encoding a row of items onto each coder.
//!
//! # Errors
//!
//! A call that fails changes no coder. It returns the first of these errors that applies, but it may return `NoMemory`
//! in place of `NoSpace`:
//!
//! - `WrongLength` in one of these cases:
//!   - There isn't a number of words in use for each head.
//!   - The words or the symbols aren't as many rows of the same length as there are heads.
//!   - A number of words in use is past the end of its row.
//!   - The arguments of the models don't match the number of symbols.
//! - `WrongInterval`, `WrongWeights` and `ImpossibleSymbol` as [`constriction_calls::ans`] says.
//! - `NoSpace(needed)`: the rows of words are too short. `needed` is the number of words that a row has to hold.
//! - `NoMemory`: there is no memory.
//!
//! # Examples
//!
//! ```
//! let models = Weights { weights: &[8388608u32, 8388608] };
//! let items = Symbols { models, symbols: &[1usize, 0, 0, 1] };
//! let (mut heads, mut words, mut lens) = ([0u64; 2], [0u32; 8], [0; 2]); // two coders, with rows of four words
//! encode_reverse::<_, _, u32, _, 24>(alloc, &mut heads, &mut words, &mut lens, &items)?;
//! let mut symbols = [0; 4];
//! decode::<_, _, u32, _, 24>(alloc, &mut heads, &words, &mut lens, &models, &mut symbols)?; // symbols is [1, 0, 0, 1]
//! ```
#![tactic(auto)]

pub mod decoding;
pub mod encoding;
mod rows;
