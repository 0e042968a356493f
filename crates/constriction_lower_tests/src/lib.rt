//! Tests of the crates below the coders: one module for each of `constriction_words`, `constriction_base`,
//! `constriction_stream` and `constriction_models`.
//!
//! The contracts are proved in these crates, for all values. The tests check what no contract can state:
//!
//! - The definitions give the expected values.
//! - Calls that need memory succeed if there is enough memory.
//! - A caller can make each call.
//!
//! The tests are a separate crate, so that no library is proved twice. `tests/run_unproved` runs more tests without a
//! proof: those of the module `NAME` are in `tests/unproved/NAME`.
#![tactic(auto)]

#[cfg(test)]
mod base;
#[cfg(test)]
mod models;
#[cfg(test)]
mod stream;
#[cfg(test)]
mod words;
