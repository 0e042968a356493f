//! Encoding and decoding with codebooks, over 32-bit words.
//!
//! A function sets `needed` only if it returns the code of the error `NoSpace`.

ghost use Rattle.constriction_c.specs.U32.{EncodesAtBitU32, EncodesCodewordsU32, DecodesAtBitU32, DecodesCodewordsU32};
ghost use Rattle.constriction_c.specs.Words.{lowest};
ghost use Rattle.constriction_calls.specs.SymbolCalls.{AsQueue, OfNumbers};

use crate::codes::{code_of, code_without_space};
use constriction_calls::symbol::{decode_at, decode_queue, encode_at, encode_queue};
use constriction_symbol::exp_golomb::ExpGolomb;
use std::alloc::Global;

/// Encodes numbers in order as a queue of bits, with Exp-Golomb codewords.
///
/// Calls [`encode_queue`] and returns the code of its result ([`code_of`]).
#[unsafe(no_mangle)]
pub extern "C" fn constriction_exp_golomb_encode_queue_u32(
    alloc: Global,
    symbols: &[u32],
    words: &mut [u32],
    len: &mut usize,
    needed: &mut usize,
) -> u32
    ensures { EncodesCodewordsU32 result needed.old needed.new (lowest 32) AsQueue (OfNumbers 32) symbols.now words.old
        len.old words.new len.new }
{
    let answer = encode_queue(alloc, &ExpGolomb::<u32>::new(), symbols, words, len);
    code_of(answer, needed)
}

/// Decodes numbers into `symbols` from a queue of bits, with Exp-Golomb codewords.
///
/// Calls [`decode_queue`] and returns the code of its result ([`code_of`]).
#[unsafe(no_mangle)]
pub extern "C" fn constriction_exp_golomb_decode_queue_u32(
    alloc: Global,
    words: &[u32],
    symbols: &mut [u32],
) -> u32
    ensures { DecodesCodewordsU32 result (lowest 32) AsQueue (OfNumbers 32) words.now symbols.old symbols.new }
{
    code_without_space(decode_queue(alloc, &ExpGolomb::<u32>::new(), words, symbols))
}

/// Encodes numbers in order with Exp-Golomb codewords, starting at bit `bit` of `words`.
///
/// Calls [`encode_at`] and returns the code of its result ([`code_of`]).
#[unsafe(no_mangle)]
pub extern "C" fn constriction_exp_golomb_encode_at_u32(
    alloc: Global,
    symbols: &[u32],
    words: &mut [u32],
    bit: &mut usize,
    needed: &mut usize,
) -> u32
    ensures { EncodesAtBitU32 result needed.old needed.new (lowest 32) (OfNumbers 32) symbols.now words.old bit.old
        words.new bit.new }
{
    let answer = encode_at(alloc, &ExpGolomb::<u32>::new(), symbols, words, bit);
    code_of(answer, needed)
}

/// Decodes numbers into `symbols` with Exp-Golomb codewords, starting at bit `bit` of `words`.
///
/// Calls [`decode_at`] and returns the code of its result ([`code_of`]).
#[unsafe(no_mangle)]
pub extern "C" fn constriction_exp_golomb_decode_at_u32(
    alloc: Global,
    words: &[u32],
    bit: &mut usize,
    symbols: &mut [u32],
) -> u32
    ensures { DecodesAtBitU32 result (lowest 32) (OfNumbers 32) words.now bit.old symbols.old bit.new symbols.new }
{
    code_without_space(decode_at(alloc, &ExpGolomb::<u32>::new(), words, bit, symbols))
}
