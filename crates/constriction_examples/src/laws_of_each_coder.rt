//! Functions that apply a law of each coder. All definitions of coders in their contracts come from `constriction`.
//!
//! The program calls no function of these modules. The functions' proofs check that `constriction` re-exports the
//! definitions that another crate needs to state and use these laws.
//!
//! - [`stack`]: the cost of bits-back coding.
//! - [`queue`]: reading sealed words returns the encoded steps. A step is a precision and a symbol's interval.
//! - [`chain`]: isolation across a change of the precision, and the room of the backends after a failed step.
//! - [`symbol`]: the Huffman tree of two equal weights.

pub mod chain;
pub mod queue;
pub mod stack;
pub mod symbol;
