//! Scripts: texts that list the calls that a test makes on a coder, and the results that the test expects.
//!
//! Each coder has an interpreter. This module has the parts that the interpreters share:
//!
//! - [`script`] reads a script.
//! - [`numbers`] converts words and states to and from numbers.
//! - [`answers`] names the results of calls, as scripts expect them.
//! - [`putting`] and [`taking`] make the calls of the coder traits, to encode and to decode.
//!
//! No function here has a contract. This keeps the clauses of the coders' calls out of a test's proof.

pub mod answers;
pub mod numbers;
pub mod putting;
pub mod script;
pub mod taking;
