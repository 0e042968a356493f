//! The parts that entropy coders share: backends, which hold words, and models, which hold probabilities.
//!
//! A stream coder depends on two things. Its backend is a list of words: a read takes the first word off, and a write
//! puts a word in front. Its model is a table: each symbol that can be coded has an interval, and the intervals
//! partition the numbers below `2 ^ PRECISION`. The contracts of the crates that depend on this one describe models as
//! tables, and backends mainly as lists of words.
//!
//! - [`backends`]: the backend traits (`ReadWords`, `WriteWords` and others) and the two reading orders, `Stack` and
//!   `Queue`.
//! - [`vectors`], [`slices`]: buffers that lend their words, and `Vec` as a stack that grows.
//! - [`small_vectors`]: `SmallVec` as a stack whose first word needs no allocation.
//! - [`cursor`]: `Cursor`, a buffer of fixed length with a position, readable in both directions.
//! - [`reverse`]: `Reverse`, which swaps the two reading directions of a cursor.
//! - [`iterators`]: a backend that reads words from an iterator of `Result`s.
//! - [`model`]: the model traits, with the law that a model is a table.
//! - [`weights`]: `WeightTable`, a model built from the weights of its symbols, with a fast search for a quantile.
//! - [`errors`]: the errors of coders and backends.
//! - [`head_words`]: functions that move words between a coder's head (the number above its words) and a backend.
//!
//! `docs/CONTRACTS.md` has the contract of each call that the crate `constriction` exports.
#![tactic(auto)]

pub mod backends;
pub mod cursor;
pub mod errors;
pub mod head_words;
pub mod iterators;
pub mod model;
pub mod reverse;
pub mod slices;
pub mod small_vectors;
pub mod vectors;
pub mod weights;
