//! Tests of the round-trip functions of `constriction_laws` at concrete types. These functions make a coder's calls.
//!
//! The tests show that the calls succeed if there is memory, and return the values written in the tests. Unproved tests
//! make the calls that take longer to prove.

mod bounds;
mod chain;
mod given;
mod queue;
mod stack;
mod symbol;
