//! Laws of bit coders and codebooks.
//!
//! - [`lists`]: decoding bits that begin with codewords returns the codewords' symbols. All symbols share one codebook,
//!   or each symbol has its own.
//! - [`words`]: the words of a stack of bits determine its bits. The bits of a stack or a queue determine its words.
//! - [`codewords`]: the suffix form of a codeword is the reverse of its prefix form.
//! - [`huffman`]: merging weights leads to one tree. The tree's codewords are prefix-free. They cost at most as much as
//!   the codewords of any prefix-free codebook.
//! - [`costs`]: the tree that `EncoderHuffmanTree::from_probabilities` builds costs at most as much as any other
//!   codebook.
//! - [`golomb`]: no Exp-Golomb codeword is a prefix of another, and the suffix form of each codeword ends in zeros.
//! - [`round_trips`]: functions that make the coders' calls for one half of a round trip: encoding or decoding.

pub mod codewords;
pub mod costs;
pub mod golomb;
pub mod huffman;
pub mod lists;
pub mod round_trips;
pub mod words;
