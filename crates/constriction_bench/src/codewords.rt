//! Benchmark cases of bit coders over words of 32 bits: Exp-Golomb codewords, and codewords of Huffman trees.

use crate::bits::give_out;
use constriction_base::cursor::Cursor;
use constriction_symbol::codebooks::{DecoderCodebook, EncoderCodebook};
use constriction_symbol::coder::{DefaultQueueEncoder, DefaultStackCoder};
use constriction_symbol::exp_golomb::ExpGolomb;
use constriction_symbol::huffman::{DecoderHuffmanTree, EncoderHuffmanTree};
use constriction_symbol::queue::QueueDecoder;
use constriction_symbol::reading::ReadBitStream;
use constriction_symbol::writing::WriteBitStream;
use std::alloc::Global;

/// Encodes symbols in order onto a new queue of bits, and returns the queue's words.
///
/// Returns `None` if a symbol has no codeword, or if there is no memory.
#[inline(never)]
fn encode_queue<C: EncoderCodebook>(
    alloc: Global,
    symbols: &[C::Symbol],
    codebook: &C,
) -> Option<Vec<u32>> {
    let mut coder = DefaultQueueEncoder::new(alloc);
    for place in 0..symbols.len() {
        if coder.encode_symbol(&symbols[place], codebook).is_err() {
            return None;
        }
    }
    coder.into_compressed().ok()
}

/// Encodes symbols from the last to the first onto a new stack of bits, and returns the stack's words.
///
/// Returns `None` if a symbol has no codeword, or if there is no memory.
#[inline(never)]
fn encode_stack<C: EncoderCodebook>(
    alloc: Global,
    symbols: &[C::Symbol],
    codebook: &C,
) -> Option<Vec<u32>> {
    let mut coder = DefaultStackCoder::new(alloc);
    for place in 0..symbols.len() {
        if coder
            .encode_symbol(&symbols[symbols.len() - 1 - place], codebook)
            .is_err()
        {
            return None;
        }
    }
    coder.into_compressed().ok()
}

/// Fills `symbols` with symbols decoded from a queue of bits. Returns `false` if a decode fails.
#[inline(never)]
fn decode_queue<C: DecoderCodebook>(words: &[u32], symbols: &mut [C::Symbol], codebook: &C) -> bool
where
    C::Symbol: Drop,
    C::InvalidCodeword: Drop,
{
    let cursor = Cursor::<u32, &[u32]>::new_at_write_beginning(words);
    let mut decoder = QueueDecoder::from_compressed(cursor);
    for symbol in symbols.iter_mut() {
        match decoder.decode_symbol(codebook) {
            Ok(decoded) => *symbol = decoded,
            Err(_) => return false,
        }
    }
    true
}

/// Fills `symbols` with symbols decoded from a stack of bits.
///
/// Returns `false` if the last word is 0, or if a decode fails.
#[inline(never)]
fn decode_stack<C: DecoderCodebook>(
    words: Vec<u32>,
    symbols: &mut [C::Symbol],
    codebook: &C,
) -> bool
where
    C::Symbol: Drop,
    C::InvalidCodeword: Drop,
{
    let Ok(mut coder) = DefaultStackCoder::from_compressed(words) else {
        return false;
    };
    for symbol in symbols.iter_mut() {
        match coder.decode_symbol(codebook) {
            Ok(decoded) => *symbol = decoded,
            Err(_) => return false,
        }
    }
    true
}

/// Encodes numbers in order onto a queue of bits, with Exp-Golomb codewords.
///
/// Copies the words to `out`, as many as fit. Returns the total number of words, or 0 after a failure (see [`crate`]).
#[unsafe(no_mangle)]
pub extern "C" fn constriction_bench_golomb_encode_queue(
    alloc: Global,
    numbers: &[u32],
    out: &mut [u32],
) -> usize {
    give_out(encode_queue(alloc, numbers, &ExpGolomb::<u32>::new()), out)
}

/// Encodes numbers from the last to the first onto a stack of bits, with Exp-Golomb codewords.
///
/// Copies the words to `out`, as many as fit. Returns the total number of words, or 0 after a failure (see [`crate`]).
#[unsafe(no_mangle)]
pub extern "C" fn constriction_bench_golomb_encode_stack(
    alloc: Global,
    numbers: &[u32],
    out: &mut [u32],
) -> usize {
    give_out(encode_stack(alloc, numbers, &ExpGolomb::<u32>::new()), out)
}

/// Fills `numbers` with numbers decoded from a queue of bits, with Exp-Golomb codewords.
///
/// Returns `false` after a failure (see [`crate`]).
#[unsafe(no_mangle)]
pub extern "C" fn constriction_bench_golomb_decode_queue(
    words: &[u32],
    numbers: &mut [u32],
) -> bool {
    decode_queue(words, numbers, &ExpGolomb::<u32>::new())
}

/// Fills `numbers` with numbers decoded from a stack of bits, with Exp-Golomb codewords.
///
/// Returns `false` after a failure (see [`crate`]).
#[unsafe(no_mangle)]
pub extern "C" fn constriction_bench_golomb_decode_stack(
    alloc: Global,
    words: &[u32],
    numbers: &mut [u32],
) -> bool {
    match words.to_vec(alloc) {
        Ok(words) => decode_stack(words, numbers, &ExpGolomb::<u32>::new()),
        Err(_) => false,
    }
}

/// Encodes symbols in order onto a queue of bits, with the Huffman tree of `weights`.
///
/// Copies the words to `out`, as many as fit. Returns the total number of words, or 0 after a failure (see [`crate`]).
#[unsafe(no_mangle)]
pub extern "C" fn constriction_bench_huffman_encode_queue(
    alloc: Global,
    weights: &[u32],
    symbols: &[usize],
    out: &mut [u32],
) -> usize {
    match EncoderHuffmanTree::from_probabilities(alloc, weights) {
        Ok(tree) => give_out(encode_queue(alloc, symbols, &tree), out),
        Err(_) => 0,
    }
}

/// Encodes symbols from the last to the first onto a stack of bits, with the Huffman tree of `weights`.
///
/// Copies the words to `out`, as many as fit. Returns the total number of words, or 0 after a failure (see [`crate`]).
#[unsafe(no_mangle)]
pub extern "C" fn constriction_bench_huffman_encode_stack(
    alloc: Global,
    weights: &[u32],
    symbols: &[usize],
    out: &mut [u32],
) -> usize {
    match EncoderHuffmanTree::from_probabilities(alloc, weights) {
        Ok(tree) => give_out(encode_stack(alloc, symbols, &tree), out),
        Err(_) => 0,
    }
}

/// Fills `symbols` with symbols decoded from a queue of bits, with the Huffman tree of `weights`.
///
/// Returns `false` after a failure (see [`crate`]).
#[unsafe(no_mangle)]
pub extern "C" fn constriction_bench_huffman_decode_queue(
    alloc: Global,
    weights: &[u32],
    words: &[u32],
    symbols: &mut [usize],
) -> bool {
    match DecoderHuffmanTree::from_probabilities(alloc, weights) {
        Ok(tree) => decode_queue(words, symbols, &tree),
        Err(_) => false,
    }
}

/// Fills `symbols` with symbols decoded from a stack of bits, with the Huffman tree of `weights`.
///
/// Returns `false` after a failure (see [`crate`]).
#[unsafe(no_mangle)]
pub extern "C" fn constriction_bench_huffman_decode_stack(
    alloc: Global,
    weights: &[u32],
    words: &[u32],
    symbols: &mut [usize],
) -> bool {
    let Ok(tree) = DecoderHuffmanTree::from_probabilities(alloc, weights) else {
        return false;
    };
    match words.to_vec(alloc) {
        Ok(words) => decode_stack(words, symbols, &tree),
        Err(_) => false,
    }
}

/// Builds the Huffman tree of `weights` for encoding.
///
/// Returns the tree's number of symbols, or 0 after a failure (see [`crate`]).
#[unsafe(no_mangle)]
pub extern "C" fn constriction_bench_huffman_make_encoder(alloc: Global, weights: &[u32]) -> usize {
    match EncoderHuffmanTree::from_probabilities(alloc, weights) {
        Ok(tree) => tree.num_symbols(),
        Err(_) => 0,
    }
}

/// Builds the Huffman tree of `weights` for decoding.
///
/// Returns the tree's number of symbols, or 0 after a failure (see [`crate`]).
#[unsafe(no_mangle)]
pub extern "C" fn constriction_bench_huffman_make_decoder(alloc: Global, weights: &[u32]) -> usize {
    match DecoderHuffmanTree::from_probabilities(alloc, weights) {
        Ok(tree) => tree.num_symbols(),
        Err(_) => 0,
    }
}
