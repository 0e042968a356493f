//! Tests of Huffman trees: the codewords of given weights, and the errors for weights that make no tree.

use constriction_base::errors::CoderError;
use constriction_symbol::codebooks::EncoderCodebook;
use constriction_symbol::coder::StackCoder;
use constriction_symbol::huffman::{DecoderHuffmanTree, EncoderHuffmanTree, HuffmanError};
use constriction_symbol::reading::ReadBitStream;
use constriction_symbol::writing::WriteBitStream;
use std::alloc::{AllocError, Global};
use std::convert::Infallible;

/// The bits of a codeword that a call emitted, or the reason why the call stopped.
///
/// `Bits` holds the bits as a number, with the first bit highest. The last field of each variant is the number of bits
/// emitted.
#[derive(Drop)]
pub enum Coded {
    Bits(u32, u32),
    Unknown(u32),
    Refused(u32),
}

/// Returns the bits of a symbol's codeword in prefix form.
pub fn prefix_of(tree: &EncoderHuffmanTree, symbol: usize) -> Coded {
    let mut code = 0u32;
    let mut count = 0u32;
    let mut emit = |bit: bool| -> Result<(), AllocError> {
        code = code.wrapping_mul(2).wrapping_add(bit as u32);
        count = count.wrapping_add(1);
        Ok(())
    };
    match tree.encode_symbol_prefix(&symbol, &mut emit) {
        Ok(()) => Coded::Bits(code, count),
        Err(CoderError::Frontend(_)) => Coded::Unknown(count),
        Err(CoderError::Backend(_)) => Coded::Refused(count),
    }
}

/// Returns the bits of a symbol's codeword, encoded in suffix form and then reversed into the order of prefix form.
pub fn suffix_of(tree: &EncoderHuffmanTree, symbol: usize) -> Coded {
    let mut code = 0u32;
    let mut count = 0u32;
    let mut emit = |bit: bool| -> Result<(), AllocError> {
        code = code.wrapping_add((bit as u32).wrapping_shl(count));
        count = count.wrapping_add(1);
        Ok(())
    };
    match tree.encode_symbol_suffix(&symbol, &mut emit) {
        Ok(()) => Coded::Bits(code, count),
        Err(CoderError::Frontend(_)) => Coded::Unknown(count),
        Err(CoderError::Backend(_)) => Coded::Refused(count),
    }
}

/// Returns whether both forms of a symbol's codeword are the `count` bits of `code`.
fn is_code(tree: &EncoderHuffmanTree, symbol: usize, code: u32, count: u32) -> bool {
    matches!(prefix_of(tree, symbol), Coded::Bits(bits, len) if bits == code && len == count)
        && matches!(suffix_of(tree, symbol), Coded::Bits(bits, len) if bits == code && len == count)
}

/// Encodes a symbol and decodes it. Returns whether the decoded symbol is the same, and no bit is left.
pub fn comes_back(
    coder: &mut StackCoder<u8>,
    encoder: &EncoderHuffmanTree,
    decoder: &DecoderHuffmanTree,
    symbol: usize,
) -> bool {
    coder.encode_symbol(&symbol, encoder).is_ok()
        && matches!(coder.decode_symbol(decoder), Ok(found) if found == symbol)
        && coder.is_empty()
}

/// Makes the encoder's tree of `weights`.
pub fn encoder_of(
    alloc: Global,
    weights: &[u8],
) -> Result<EncoderHuffmanTree, HuffmanError<Infallible>> {
    EncoderHuffmanTree::from_probabilities(alloc, weights.iter())
}

/// Makes the decoder's tree of `weights`.
pub fn decoder_of(
    alloc: Global,
    weights: &[u8],
) -> Result<DecoderHuffmanTree, HuffmanError<Infallible>> {
    DecoderHuffmanTree::from_probabilities(alloc, weights.iter())
}

/// Returns whether the trees of an encoder and a decoder both have exactly the codewords `codes`.
///
/// `codes` lists each symbol's codeword, as a binary number, and the codeword's length in bits.
pub fn have_codes(
    alloc: Global,
    encoder: &EncoderHuffmanTree,
    decoder: &DecoderHuffmanTree,
    codes: &[(u32, u32)],
) -> bool {
    let mut coder: StackCoder<u8> = StackCoder::new(alloc);
    for symbol in 0..codes.len() {
        let (code, count) = codes[symbol];
        if !is_code(encoder, symbol, code, count)
            || !comes_back(&mut coder, encoder, decoder, symbol)
        {
            return false;
        }
    }
    encoder.num_symbols() == codes.len() && decoder.num_symbols() == codes.len()
}

/// Returns whether the encoder's and the decoder's tree of `weights` both have exactly the codewords `codes`.
pub fn are_codes(alloc: Global, weights: &[u8], codes: &[(u32, u32)]) -> bool {
    match (encoder_of(alloc, weights), decoder_of(alloc, weights)) {
        (Ok(encoder), Ok(decoder)) => have_codes(alloc, &encoder, &decoder, codes),
        _ => false,
    }
}

/// Returns the cost of codewords: the sum of each weight times the length of its codeword.
pub fn cost_of_codes(weights: &[u8], codes: &[(u32, u32)]) -> u32 {
    let mut cost = 0u32;
    for (weight, code) in weights.iter().zip(codes.iter()) {
        cost = cost.wrapping_add((*weight as u32).wrapping_mul(code.1));
    }
    cost
}

/// Checks ties of weights: a leaf goes before a union, and the first of two leaves before the second.
///
/// The codewords are `10 11 0`.
#[test]
fn huffman_ties(rt: HostRuntime) {
    assert!(rt;
        are_codes(rt.alloc(), &[1, 1, 2], &[(2, 2), (3, 2), (0, 1)])
            && are_codes(rt.alloc(), &[0, 0, 0], &[(2, 2), (3, 2), (0, 1)])
    );
}

const DEEP: [(u32, u32); 5] = [(14, 4), (15, 4), (6, 3), (2, 2), (0, 1)];

/// Checks that the weights 1, 1, 2, 3, 5 have the codewords `1110 1111 110 10 0`, which cost 25.
#[test]
fn huffman_deep(rt: HostRuntime) {
    let weights = [1u8, 1, 2, 3, 5];
    assert!(rt; are_codes(rt.alloc(), &weights, &DEEP) && cost_of_codes(&weights, &DEEP) == 25);
}

/// Checks that the weights 2, 2, 4, 1, 1 have the codewords `00 01 11 100 101`.
///
/// Also checks that the weights 2, 1 have the codewords `1 0`, and that a single weight has the empty codeword.
#[test]
fn huffman_lines(rt: HostRuntime) {
    assert!(rt;
        are_codes(
            rt.alloc(),
            &[2, 2, 4, 1, 1],
            &[(0, 2), (1, 2), (3, 2), (4, 3), (5, 3)]
        ) && are_codes(rt.alloc(), &[2, 1], &[(1, 1), (0, 1)])
            && are_codes(rt.alloc(), &[1], &[(0, 0)])
    );
}

#[test]
fn huffman_refusals(rt: HostRuntime) {
    assert!(rt;
        matches!(encoder_of(rt.alloc(), &[]), Err(HuffmanError::Empty))
            && matches!(
                encoder_of(rt.alloc(), &[255, 1]),
                Err(HuffmanError::WeightOverflow)
            )
            && matches!(decoder_of(rt.alloc(), &[]), Err(HuffmanError::Empty))
            && matches!(
                decoder_of(rt.alloc(), &[255, 1]),
                Err(HuffmanError::WeightOverflow)
            )
    );
}

#[test]
fn huffman_zero_weight(rt: HostRuntime) {
    assert!(rt; are_codes(rt.alloc(), &[255, 0], &[(1, 1), (0, 1)]));
}

/// Makes the tree of the first 150 Fibonacci numbers. The codeword of symbol 0 has 149 bits.
pub fn deep_tree(alloc: Global) -> Result<EncoderHuffmanTree, HuffmanError<Infallible>> {
    let mut weights = [0u128; 150];
    let mut number = 1u128;
    let mut next = 1u128;
    for weight in weights.iter_mut() {
        *weight = number;
        number = next;
        next = next.wrapping_add(*weight);
    }
    EncoderHuffmanTree::from_probabilities(alloc, weights.iter())
}
