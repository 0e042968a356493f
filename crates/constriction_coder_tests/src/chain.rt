//! Tests of the chain coder. [`acts`] runs scripts, at the types of [`coders`], and [`changes`] runs scripts that
//! change the precision.
//!
//! The expected values are computed separately, on lists of bits: a coder is a list of the bits left over, and two
//! lists of words.

mod acts;
mod backends;
mod calls;
mod changes;
mod coders;
mod refused;
mod reversed;
mod rows;
