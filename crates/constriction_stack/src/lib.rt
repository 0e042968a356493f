//! The stack coder: asymmetric numeral systems (ANS), a stack of symbols.
//!
//! An [`coder::AnsCoder`] holds a number, the head, above a stack of words. Encoding a symbol multiplies the head by
//! about the inverse of the symbol's probability. If the head lacks room for the step, the coder first moves the head's
//! lowest word onto the stack. Decoding removes the symbols in reverse order, and is the inverse of encoding on every
//! normalized state. A state is normalized if its head is at least `2^(State::BITS - Word::BITS)`, or if no words
//! are below the head. Each symbol may have its own model and precision, as long as the decoder gets the same models in
//! reverse order.
//!
//! ```
//! let table = WeightTable::<u32, 24>::new(alloc, &[16777211, 5])?;
//! let mut coder = DefaultAnsCoder::new(alloc);
//! coder.encode_symbol(&1, &table)?;
//! coder.encode_symbol(&0, &table)?;
//! let words = coder.into_compressed()?;                        // a `Vec<u32>`
//!
//! match DefaultAnsCoder::from_compressed(words) {
//!     Ok(mut coder) => {
//!         coder.decode_symbol(&table)?;                        // 0, which was encoded last
//!         coder.decode_symbol(&table)?;                        // 1
//!     }
//!     Err(words) => {}                                         // the last word was zero
//! }
//! ```
//!
//! The modules:
//!
//! - [`coder`]: the coder, its steps, its words, its positions and its guards.
//! - [`lanes`]: the steps of a coder side by side with others, over the words of a slice.
//! - `steps`: the arithmetic of encoding and decoding one symbol, on the head.
//!
//! Contracts cite the definitions of `specs/Ans.antt`: states, pop and push, the words of a state, and the possible
//! results of a step over a backend. Contracts describe words and heads as natural numbers. They describe the words
//! below the head as a list in reading order, top word first.
//!
//! `docs/CONTRACTS.md` has the contract of each call that the crate `constriction` exports.
#![tactic(auto)]

pub mod coder;
pub mod lanes;
mod steps;

pub use crate::coder::{AnsCoder, DefaultAnsCoder, SmallAnsCoder};
