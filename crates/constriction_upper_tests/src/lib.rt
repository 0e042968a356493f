//! Tests of bit coders and of the crates above the coders: one module for each of `constriction_symbol`,
//! `constriction_store`, `constriction_laws` and `constriction_commands`.
//!
//! The contracts are proved in these crates, for all values. The tests check what no contract can state:
//!
//! - The definitions give the expected values.
//! - Calls that need memory succeed if there is enough memory.
//! - A caller can make each call.
//!
//! The tests are a separate crate, so that no library is proved twice. `tests/run_unproved` runs more tests without a
//! proof: those of the module `NAME` are in `tests/unproved/NAME`.
#![tactic(auto)]

#[cfg(test)]
mod commands;
#[cfg(test)]
mod laws;
#[cfg(test)]
mod store;
#[cfg(test)]
mod symbol;
