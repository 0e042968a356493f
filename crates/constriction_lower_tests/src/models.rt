//! Tests of models at concrete types: partitions of the quantiles, worked values, weights of counts, and coded lists.
//!
//! Unproved tests cover many ranges at each word width, and many symbols.
//!
//! `tests/models expected` prints the expected values of [`intervals`], [`mixtures`] and [`weights`]. It computes the
//! intervals from the formulas of the distributions. It computes the weights with its own code. It doesn't use this
//! library.

mod categorical;
mod cumulative;
mod cuts;
mod floats;
mod intervals;
mod lists;
mod lookups;
mod mixtures;
mod own;
mod small;
mod weights;
