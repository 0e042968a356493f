//! Tests of backends, models and errors at concrete types, on small lists and tables with results worked out by hand.
//!
//! Unproved tests cover refused memory, the texts of errors, clones, reversed cursors, iterators, small vectors,
//! conversions, and tables at other widths.
//!
//! Most helpers combine the functions of [`calls`]. These functions have no contract, so that the proof of a helper
//! doesn't use the contracts of the backend's calls.

mod calls;
mod cursors;
mod head_words;
mod laws;
mod models;
mod tables;
mod two_for_one;
mod vectors;
