//! Tests of the range coder. [`encoding`] and [`decoding`] run scripts, at the types of [`coders`].
//!
//! The expected values come from a separate computation in unbounded numbers, which needs no pending words. It keeps
//! the lower end and the length of an interval. If the length is below `2^(s-w)`, the computation multiplies both by
//! `2^w`. Here words have `w` bits, and states have `s` bits.

mod calls;
mod coders;
mod decoding;
mod encoding;
mod flagged;
mod parts;
mod refused;
mod rows;
