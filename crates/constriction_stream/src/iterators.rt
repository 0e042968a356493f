//! Iterators over the symbols that a decoder returns.
//!
//! The iterators are lazy: they decode a symbol only when the caller calls `next`. They return one result for each item
//! of the caller's iterator, or a given number of results under one model. An error doesn't end an iterator.
//!
//! After the caller drops an iterator, the decoder is in the state that the calls of `next` led to. If no decode
//! failed, the decoder is positioned after the symbols returned so far. A failed decode changes the decoder as
//! `decode_symbol` does.
//!
//! The fields are public, because contracts name the decoder and the models that are left. The methods of `Decode` that
//! return the iterators are `final`: if they were plain default methods, no impl of `Decode` could be proved.
//!
//! - [`decode_symbols`]: one symbol for each model.
//! - [`try_decode_symbols`]: one symbol for each model. If the caller's iterator returns an error in place of a model,
//!   the iterator returns this error.
//! - [`decode_iid_symbols`]: a given number of symbols under one model.

pub mod decode_iid_symbols;
pub mod decode_symbols;
pub mod try_decode_symbols;

pub use crate::iterators::decode_iid_symbols::DecodeIidSymbols;
pub use crate::iterators::decode_symbols::DecodeSymbols;
pub use crate::iterators::try_decode_symbols::TryDecodeSymbols;
