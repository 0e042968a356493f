//! The coder traits: generic code uses them to encode and decode symbols with any coder.
//!
//! An encoder encodes symbols, each under a model that gives the symbol a probability. A decoder with the same models
//! returns the symbols. In each step, a coder gets only the start and the length of an interval of the numbers below
//! `2 ^ PRECISION`. Each coder states in `Encode::encodes` or `Decode::decodes` what it does with the interval. The
//! traits state what all coders have in common:
//!
//! - The interval of a step is the symbol's interval in the model's table.
//! - An encoder refuses an impossible symbol.
//! - A call that encodes a list makes one step for each item, and stops at the first error.
//!
//! The modules:
//!
//! - [`coder`]: `Code`, the word type and the state that every coder has.
//! - [`encoding`]: `Encode` encodes single symbols and lists of symbols. `EncodeReverse` encodes lists from the last
//!   symbol to the first.
//! - [`decoding`]: `Decode` decodes single symbols, and returns iterators that decode lists of symbols.
//! - [`iterators`]: the iterators that the calls of `Decode` return.
//! - [`conversions`]: `IntoDecoder` turns an encoder into a decoder, and `AsDecoder` lends an encoder's data to one.
//! - [`errors`]: the error of calls that take models or symbols as `Result`s.
//!
//! Code that works with any coder states what it requires of the coder:
//!
//! ```
//! fn send<C: Encode<24>, M: EncoderModel<24>>(
//!     coder: &mut C,
//!     symbols: &[M::Symbol],
//!     model: &M,
//! ) -> Result<(), CoderError<C::FrontendError, C::BackendError>>
//! where
//!     M::Probability: WordOf<C::Word>,
//!     requires { length symbols.now ≤ C.symbols_left coder.old }
//! {
//!     coder.encode_iid_symbols(symbols, model)
//! }
//! ```
//!
//! `docs/CONTRACTS.md` has the contract of each call that the crate `constriction` exports.
#![tactic(auto)]

pub mod coder;
pub mod conversions;
pub mod decoding;
pub mod encoding;
pub mod errors;
pub mod iterators;
