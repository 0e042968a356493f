//! Huffman trees: codebooks that cost at most as much as any prefix-free codebook for the given weights.
//!
//! The cost of a codebook is a sum over all symbols: the length of the symbol's codeword times the symbol's weight.
//! `constriction_laws` proves that no prefix-free codebook costs less (`symbol::huffman::least_cost`).

mod codewords;
mod collecting;
pub mod decoder;
pub mod encoder;
pub mod error;
mod first_bits;
mod merging;
mod parents;
mod weighed;

pub use decoder::DecoderHuffmanTree;
pub use encoder::EncoderHuffmanTree;
pub use error::HuffmanError;
pub use merging::total_fits;
