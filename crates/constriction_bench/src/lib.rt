//! Benchmark cases of the coders as C functions over numbers and slices, so that a program in C can time them.
//!
//! A case fails for one of these reasons, and its function then returns 0 or `false`:
//!
//! - There is no memory.
//! - A model refuses its arguments.
//! - A coder returns an error.
//! - The words end too early.
//!
//! The crate has these modules:
//!
//! - `runs`: the measured loops of the stack coder.
//! - `flat`, `lookup`, `bucket`: models that take little time, so that a measurement shows the coder's own time.
//! - `starts`: the list of interval starts that `lookup` and `bucket` keep.
//! - `u32`: the cases of the stack coder with words of 32 bits, states of 64 bits and a precision of 24 bits.
//! - `u16`: the same cases with words of 16 bits, states of 32 bits and a precision of 12 bits.
//! - `rows`: the case of the library's lookup model, at the sizes of `u16`.
//! - `ranges`: the measured loops of the range coder, and its cases at both sizes.
//! - `chains`: the measured loops of the chain coder, and its cases at both sizes.
//! - `bits`: the cases of bit coders, with words of 32 bits.
//! - `codewords`: the cases of Exp-Golomb codewords and Huffman trees, with words of 32 bits.
#![tactic(auto)]

pub mod bits;
mod bucket;
pub mod chains;
pub mod codewords;
mod flat;
mod lookup;
pub mod ranges;
pub mod rows;
mod runs;
mod starts;
pub mod u16;
pub mod u32;
