//! Symbol codes: bits packed in words, and codebooks, which assign a list of bits to each symbol.
//!
//! A bit coder holds a list of bits in words. A codebook assigns a codeword, which is a list of bits, to each of its
//! symbols. No codeword is a prefix of another, so codewords need no separators. Encoding a symbol appends the symbol's
//! codeword. A queue returns the symbols in the order in which the caller encoded them. A stack returns the last symbol
//! first. One stream can mix codebooks.
//!
//! ```
//! let mut encoder = DefaultQueueEncoder::new(alloc);
//! let golomb = ExpGolomb::<u32>::new();
//! encoder.encode_iid_symbols([0u32, 5, 7].iter(), &golomb)?; // the bits 1, 00110, 0001000
//!
//! let mut decoder = encoder.into_decoder()?;
//! decoder.decode_symbol(&golomb)?; // 0; the next two calls return 5 and 7
//! ```
//!
//! # Modules
//!
//! - [`codebooks`]: the traits of codebooks, and the error of a decode.
//! - [`coder`]: `SymbolCoder`, which is either a stack of bits or the writing end of a queue of bits; import and export
//!   of words; guards.
//! - [`queue`]: `QueueDecoder`, which reads a queue of bits from words.
//! - [`writing`], [`reading`]: streams of bits that encode and decode symbols, one at a time or a whole list.
//! - [`reversed`]: emits codewords from the first bit to the last, for codebooks that find the last bit first.
//! - [`iterators`]: iterators over decoded symbols.
//! - [`exp_golomb`]: the Exp-Golomb codebook for numbers.
//! - [`huffman`]: Huffman trees for encoding and decoding. No prefix-free codebook for the same weights costs less. The
//!   cost is a sum over all symbols: the symbol's weight times the length of its codeword.
//!
//! # Definitions
//!
//! Contracts cite these files:
//!
//! - `specs/Bits.antt`: bits of words.
//! - `specs/Codewords.antt`: emitting, writing and reading codewords.
//! - `specs/Golomb.antt`: Exp-Golomb codewords.
//! - `specs/Huffman.antt`: the tree that results from merging the weights, and the tree's codewords.
//! - `specs/Merging.antt`: the weights from which a tree can be built, and the errors for other weights.
//!
//! `docs/CONTRACTS.md` has the contract of each call that the crate `constriction` exports.
#![tactic(auto)]

pub mod codebooks;
pub mod coder;
mod emitting;
mod equality;
pub mod exp_golomb;
pub mod huffman;
pub mod iterators;
mod numbers;
pub mod queue;
pub mod reading;
pub mod reversed;
mod steps;
mod taking;
mod top_bits;
mod word_bits;
pub mod writing;
