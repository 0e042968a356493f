//! Tests of the coder traits, with a pile of quantiles as the coder, and with callers that are generic over coders.
//!
//! The tests show that calls that encode a list, and iterators that decode, can succeed. After an error, each of them
//! stops or continues as expected. Unproved tests cover three things:
//!
//! - Which items the calls and iterators request from the caller's iterator.
//! - The size hints.
//! - The texts of errors.
//!
//! [`calls`] wraps calls whose contracts are expensive in proofs. The wrappers have no contract, so the proofs of
//! their callers don't use the contracts of these calls.

mod callers;
mod calls;
mod decoding;
mod encoding;
mod pile;
mod sources;
