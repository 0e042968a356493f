//! Calls that write intervals or weights into a caller's buffers.
//!
//! - [`intervals`]: the interval of each symbol, in a model with the symbol's own location and scale.
//! - [`counts`]: weights in proportion to counts.
//! - [`floats`]: weights and counts in proportion to probabilities that are floats.

pub mod counts;
pub mod floats;
pub mod intervals;
