//! Tests of each method of `BitArray` and `WordOf` at boundary values of 8 bits.
//!
//! The tests also cover generic functions that call these methods. The expected values are computed separately. The
//! tests also show that the machine's operations return the proved values. Unproved tests cover the methods at the
//! other types, and many reciprocals.

mod arithmetic;
mod callers;
mod pairs;
mod reciprocals;
mod singles;
mod widths;
