//! Tests of the stream coders at concrete types: worked examples with exact values, and a test of each public call.
//! There is one module for each of `constriction_stack`, `constriction_queue` and `constriction_chain`.
//!
//! The contracts are proved in these crates, for all values. The tests check what no contract can state:
//!
//! - The definitions give the expected values.
//! - Calls that need memory succeed if there is enough memory.
//! - A caller can make each call.
//!
//! The tests are a separate crate, so that no library is proved twice. `tests/run_unproved` runs more tests without a
//! proof: those of the module `NAME` are in `tests/unproved/NAME`.
//!
//! A test is a script ([`scripts`]), which is a list of acts. Each act has numbers, an expected answer, and a verb that
//! names a call or a check. Each coder has an interpreter, which runs scripts at the types of its module `coders`. Each
//! call has a helper without postconditions, which all tests share.
#![tactic(auto)]

#[cfg(test)]
mod chain;
#[cfg(test)]
mod queue;
#[cfg(test)]
mod scripts;
#[cfg(test)]
mod stack;
