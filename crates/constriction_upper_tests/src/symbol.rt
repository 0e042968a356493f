//! Tests of bit coders and codebooks at concrete types: worked values, refusals and refused memory.
//!
//! Unproved tests cover each word width, other backends, clones, texts, forgotten guards and callers' iterators.
//!
//! The expected words come from a separate model of the definitions (lists of bits, and the Exp-Golomb grammar).
//! Helpers without a contract make the calls. Most helpers are generic over the stream of bits ([`bits`],
//! [`codewords`]). Each test creates the coders that it needs, and asserts once.

mod bits;
mod coders;
mod codewords;
mod decoders;
mod guards;
mod huffman;
mod lists;
mod refused;
mod reversed;
mod rows;
