// Written by tools/sizes from u32.rt.
//! More C functions for codewords: Exp-Golomb on a stack, and Huffman on a queue, on a stack and at a given bit.

ghost use Rattle.constriction_c.specs.U32.{DecodesAtBitU32, DecodesCodewordsU32, EncodesAtBitU32, EncodesCodewordsU32};
ghost use Rattle.constriction_c.specs.Words.{lowest};
ghost use Rattle.constriction_calls.specs.SymbolCalls.{AsQueue, AsStack, OfNumbers, OfWeights};
ghost use Rattle.std.specs.Prelude.{map};

use crate::codes::{code_of, code_without_space};
use constriction_calls::symbol::{
    Tree, decode_at, decode_queue, decode_stack, encode_at, encode_queue, encode_stack,
};
use constriction_symbol::exp_golomb::ExpGolomb;
use std::alloc::Global;

/// Encodes numbers from the last to the first as a stack of bits, with Exp-Golomb codewords.
///
/// Calls [`encode_stack`] and returns the code of its result ([`code_of`]).
#[unsafe(no_mangle)]
pub extern "C" fn constriction_exp_golomb_encode_stack_u32(
    alloc: Global,
    symbols: &[u32],
    words: &mut [u32],
    len: &mut usize,
    needed: &mut usize,
) -> u32
    ensures { EncodesCodewordsU32 result needed.old needed.new (lowest 32) AsStack (OfNumbers 32) symbols.now words.old
        len.old words.new len.new }
{
    let answer = encode_stack(alloc, &ExpGolomb::<u32>::new(), symbols, words, len);
    code_of(answer, needed)
}

/// Decodes numbers into `symbols` from a stack of bits, with Exp-Golomb codewords.
///
/// Calls [`decode_stack`] and returns the code of its result ([`code_of`]).
#[unsafe(no_mangle)]
pub extern "C" fn constriction_exp_golomb_decode_stack_u32(
    alloc: Global,
    words: &[u32],
    symbols: &mut [u32],
) -> u32
    ensures { DecodesCodewordsU32 result (lowest 32) AsStack (OfNumbers 32) words.now symbols.old symbols.new }
{
    code_without_space(decode_stack(alloc, &ExpGolomb::<u32>::new(), words, symbols))
}

/// Encodes symbols in order as a queue of bits, with the Huffman tree of `weights`.
///
/// Calls [`encode_queue`] and returns the code of its result ([`code_of`]).
#[unsafe(no_mangle)]
pub extern "C" fn constriction_huffman_encode_queue_u32(
    alloc: Global,
    weights: &[u32],
    symbols: &[usize],
    words: &mut [u32],
    len: &mut usize,
    needed: &mut usize,
) -> u32
    ensures { EncodesCodewordsU32 result needed.old needed.new (λ s. s) AsQueue
        (OfWeights 32 (map (lowest 32) weights.now)) symbols.now words.old len.old words.new len.new }
{
    let answer = encode_queue(alloc, &Tree { weights }, symbols, words, len);
    code_of(answer, needed)
}

/// Decodes symbols into `symbols` from a queue of bits, with the Huffman tree of `weights`.
///
/// Calls [`decode_queue`] and returns the code of its result ([`code_of`]).
#[unsafe(no_mangle)]
pub extern "C" fn constriction_huffman_decode_queue_u32(
    alloc: Global,
    weights: &[u32],
    words: &[u32],
    symbols: &mut [usize],
) -> u32
    ensures { DecodesCodewordsU32 result (λ s. s) AsQueue (OfWeights 32 (map (lowest 32) weights.now)) words.now
        symbols.old symbols.new }
{
    code_without_space(decode_queue(alloc, &Tree { weights }, words, symbols))
}

/// Encodes symbols in order with the Huffman tree of `weights`, starting at bit `bit` of `words`.
///
/// Calls [`encode_at`] and returns the code of its result ([`code_of`]).
#[unsafe(no_mangle)]
pub extern "C" fn constriction_huffman_encode_at_u32(
    alloc: Global,
    weights: &[u32],
    symbols: &[usize],
    words: &mut [u32],
    bit: &mut usize,
    needed: &mut usize,
) -> u32
    ensures { EncodesAtBitU32 result needed.old needed.new (λ s. s) (OfWeights 32 (map (lowest 32) weights.now))
        symbols.now words.old bit.old words.new bit.new }
{
    let answer = encode_at(alloc, &Tree { weights }, symbols, words, bit);
    code_of(answer, needed)
}

/// Decodes symbols into `symbols` with the Huffman tree of `weights`, starting at bit `bit` of `words`.
///
/// Calls [`decode_at`] and returns the code of its result ([`code_of`]).
#[unsafe(no_mangle)]
pub extern "C" fn constriction_huffman_decode_at_u32(
    alloc: Global,
    weights: &[u32],
    words: &[u32],
    bit: &mut usize,
    symbols: &mut [usize],
) -> u32
    ensures { DecodesAtBitU32 result (λ s. s) (OfWeights 32 (map (lowest 32) weights.now)) words.now bit.old symbols.old
        bit.new symbols.new }
{
    code_without_space(decode_at(alloc, &Tree { weights }, words, bit, symbols))
}

/// Encodes symbols from the last to the first as a stack of bits, with the Huffman tree of `weights`.
///
/// Calls [`encode_stack`] and returns the code of its result ([`code_of`]).
#[unsafe(no_mangle)]
pub extern "C" fn constriction_huffman_encode_stack_u32(
    alloc: Global,
    weights: &[u32],
    symbols: &[usize],
    words: &mut [u32],
    len: &mut usize,
    needed: &mut usize,
) -> u32
    ensures { EncodesCodewordsU32 result needed.old needed.new (λ s. s) AsStack
        (OfWeights 32 (map (lowest 32) weights.now)) symbols.now words.old len.old words.new len.new }
{
    let answer = encode_stack(alloc, &Tree { weights }, symbols, words, len);
    code_of(answer, needed)
}

/// Decodes symbols into `symbols` from a stack of bits, with the Huffman tree of `weights`.
///
/// Calls [`decode_stack`] and returns the code of its result ([`code_of`]).
#[unsafe(no_mangle)]
pub extern "C" fn constriction_huffman_decode_stack_u32(
    alloc: Global,
    weights: &[u32],
    words: &[u32],
    symbols: &mut [usize],
) -> u32
    ensures { DecodesCodewordsU32 result (λ s. s) AsStack (OfWeights 32 (map (lowest 32) weights.now)) words.now
        symbols.old symbols.new }
{
    code_without_space(decode_stack(alloc, &Tree { weights }, words, symbols))
}
