//! Tests of the store at concrete types: worked values, chunks in any order, refusals and refused memory.
//!
//! Only these tests fail if a build or a look-up always reports that there is no memory. Unproved tests cover each word
//! width, and the texts of errors.
//!
//! The expected values come from a separate computation with an integer of unlimited size. The helpers of [`stores`]
//! have no contract, and make the calls of a store for most tests.

mod laws;
mod parts;
mod refused;
mod rows;
mod stores;
