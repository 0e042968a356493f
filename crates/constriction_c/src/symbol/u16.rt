// Written by tools/sizes from u32.rt.
//! Encoding and decoding with codebooks, over 16-bit words.
//!
//! A function sets `needed` only if it returns the code of the error `NoSpace`.

ghost use Rattle.constriction_c.specs.U16.{EncodesAtBitU16, EncodesCodewordsU16, DecodesAtBitU16, DecodesCodewordsU16};
ghost use Rattle.constriction_c.specs.Words.{lowest};
ghost use Rattle.constriction_calls.specs.SymbolCalls.{AsQueue, OfNumbers};

use crate::codes::{code_of, code_without_space};
use constriction_calls::symbol::{decode_at, decode_queue, encode_at, encode_queue};
use constriction_symbol::exp_golomb::ExpGolomb;
use std::alloc::Global;

/// Encodes numbers in order as a queue of bits, with Exp-Golomb codewords.
///
/// Calls [`encode_queue`] and returns the code of its result ([`code_of`]).
#[unsafe(no_mangle)]
pub extern "C" fn constriction_exp_golomb_encode_queue_u16(
    alloc: Global,
    symbols: &[u16],
    words: &mut [u16],
    len: &mut usize,
    needed: &mut usize,
) -> u32
    ensures { EncodesCodewordsU16 result needed.old needed.new (lowest 16) AsQueue (OfNumbers 16) symbols.now words.old
        len.old words.new len.new }
{
    let answer = encode_queue(alloc, &ExpGolomb::<u16>::new(), symbols, words, len);
    code_of(answer, needed)
}

/// Decodes numbers into `symbols` from a queue of bits, with Exp-Golomb codewords.
///
/// Calls [`decode_queue`] and returns the code of its result ([`code_of`]).
#[unsafe(no_mangle)]
pub extern "C" fn constriction_exp_golomb_decode_queue_u16(
    alloc: Global,
    words: &[u16],
    symbols: &mut [u16],
) -> u32
    ensures { DecodesCodewordsU16 result (lowest 16) AsQueue (OfNumbers 16) words.now symbols.old symbols.new }
{
    code_without_space(decode_queue(alloc, &ExpGolomb::<u16>::new(), words, symbols))
}

/// Encodes numbers in order with Exp-Golomb codewords, starting at bit `bit` of `words`.
///
/// Calls [`encode_at`] and returns the code of its result ([`code_of`]).
#[unsafe(no_mangle)]
pub extern "C" fn constriction_exp_golomb_encode_at_u16(
    alloc: Global,
    symbols: &[u16],
    words: &mut [u16],
    bit: &mut usize,
    needed: &mut usize,
) -> u32
    ensures { EncodesAtBitU16 result needed.old needed.new (lowest 16) (OfNumbers 16) symbols.now words.old bit.old
        words.new bit.new }
{
    let answer = encode_at(alloc, &ExpGolomb::<u16>::new(), symbols, words, bit);
    code_of(answer, needed)
}

/// Decodes numbers into `symbols` with Exp-Golomb codewords, starting at bit `bit` of `words`.
///
/// Calls [`decode_at`] and returns the code of its result ([`code_of`]).
#[unsafe(no_mangle)]
pub extern "C" fn constriction_exp_golomb_decode_at_u16(
    alloc: Global,
    words: &[u16],
    bit: &mut usize,
    symbols: &mut [u16],
) -> u32
    ensures { DecodesAtBitU16 result (lowest 16) (OfNumbers 16) words.now bit.old symbols.old bit.new symbols.new }
{
    code_without_space(decode_at(alloc, &ExpGolomb::<u16>::new(), words, bit, symbols))
}
