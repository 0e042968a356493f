//! Huffman coding: one tree for encoding and one for decoding, both made from the same weights.

use anyhow::Result;
use constriction::symbol::huffman::{DecoderHuffmanTree, EncoderHuffmanTree};
use constriction::symbol::{DefaultQueueEncoder, ReadBitStream, WriteBitStream};
use std::alloc::Global;

/// The weights of the symbols 0 to 4.
///
/// The codewords 00, 01, 11, 100 and 101 follow from the weights.
const WEIGHTS: [u32; 5] = [2, 2, 4, 1, 1];

/// Encodes three symbols with a Huffman tree.
fn put(encoder: &mut DefaultQueueEncoder, tree: &EncoderHuffmanTree) -> Result<()> {
    encoder.encode_iid_symbols([3usize, 2, 0].as_slice(), tree)?;
    Ok(())
}

/// Makes a Huffman tree, encodes three symbols with it, and returns the encoder.
fn encoded(alloc: Global) -> Result<DefaultQueueEncoder> {
    let tree = EncoderHuffmanTree::from_probabilities(alloc, WEIGHTS.as_slice())?;
    let mut encoder = DefaultQueueEncoder::new(alloc);
    put(&mut encoder, &tree)?;
    Ok(encoder)
}

/// Encodes three symbols with a Huffman tree, decodes them, and prints the symbols decoded.
pub fn run(rt: &impl Print, alloc: Global) -> Result<()> {
    let mut decoder = encoded(alloc)?.into_decoder()?;

    // The decoder builds its tree from the same weights.
    let tree = DecoderHuffmanTree::from_probabilities(alloc, WEIGHTS.as_slice())?;
    for _ in 0..3 {
        let symbol = decoder.decode_symbol(&tree)?;
        println!(rt; "{symbol}")?; // 3, 2, 0
    }
    Ok(())
}
