//! The stack coder over a caller's buffer.
//!
//! The caller keeps the coder's state: a head, and a buffer of the words below the head. The first `len` words of the
//! buffer are in use, and the last of them is the top word.
//!
//! - [`encoding`]: encoding items, which are symbols with models, or intervals.
//! - [`decoding`]: decoding symbols.
//! - [`words`]: exporting and importing the words of a state.
//!
//! # Errors
//!
//! A call that fails changes nothing. It returns the first of these errors that applies, but it may return `NoMemory`
//! in place of `NoSpace`:
//!
//! - `WrongLength` in one of these cases:
//!   - `len` is past the buffer's end.
//!   - The arguments of the models don't match the number of symbols.
//!   - The lengths of `lefts` and `ps` differ.
//!   - There are more weights than the type of the decoded symbols has values.
//! - `WrongInterval` in one of these cases:
//!   - An interval is empty or ends past `2 ^ PRECISION`.
//!   - A family's range has fewer than two or more than `2 ^ PRECISION` symbols.
//! - `WrongWeights`: the caller's weights or distributions are invalid. The variant
//!   [`constriction_inputs::refusal::Refusal::WrongWeights`] lists the cases.
//! - `InvalidData`: the last of the words to import is 0, or the state to export has no binary form.
//! - `ImpossibleSymbol`: a model has no entry for its symbol.
//! - `NoSpace(needed)`: the buffer is too short. `needed` is the number of words that the buffer has to hold.
//! - `NoMemory`: there is no memory.
//!
//! # Examples
//!
//! ```
//! let weights = [8388608u32, 8388608];
//! let models = Weights { weights: &weights };
//! let items = Symbols { models, symbols: &[1usize, 0] };
//! let (mut head, mut words, mut len) = (0u64, [0u32; 4], 0);
//! encode_reverse::<_, _, u32, _, 24>(alloc, &mut head, &mut words, &mut len, &items)?;
//! let mut symbols = [0; 2];
//! decode::<_, _, u32, _, 24>(alloc, &mut head, &words, &mut len, &models, &mut symbols)?; // symbols is [1, 0]
//! ```

pub mod decoding;
pub mod encoding;
pub mod words;
