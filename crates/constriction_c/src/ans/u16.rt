// Written by tools/sizes from u32.rt.
//! The stack coder with 16-bit words, 32-bit heads and a precision of 12 bits.

ghost use Rattle.std.specs.Prelude.{map};
ghost use Rattle.constriction_base.specs.Readings.{BeginsHigh};
ghost use Rattle.constriction_c.specs.U16.{AnsExportsU16, AnsImportsU16, AnsEncodesU16, AnsDecodesU16};
ghost use Rattle.constriction_c.specs.Words.{lowest};
ghost use Rattle.constriction_calls.specs.AnsCalls.{AreCompressed};
ghost use Rattle.constriction_inputs.specs.Weights.{by_weights};
ghost use Rattle.constriction_stack.specs.Ans.{filled};
ghost use Rattle.constriction_stack.specs.Binary.{binary_state};

use crate::ans::by_weights::{decode_by_weights, encode_reverse_by_weights};
use crate::codes::{code_of, code_without_space};
use constriction_calls::ans::words::{from_binary, from_compressed, into_compressed};
use std::alloc::Global;

/// Encodes symbols from the last to the first, with one table of weights for all symbols.
///
/// Calls [`encode_reverse_by_weights`] and returns the code of its result ([`code_of`]).
#[unsafe(no_mangle)]
pub extern "C" fn constriction_ans_encode_reverse_u16(
    alloc: Global,
    head: &mut u32,
    words: &mut [u16],
    len: &mut usize,
    weights: &[u16],
    symbols: &[usize],
    needed: &mut usize,
) -> u32
    ensures { AnsEncodesU16 result needed.old needed.new (by_weights (map (lowest 16) weights.now) symbols.now) head.old
        words.old len.old head.new words.new len.new }
{
    let answer = encode_reverse_by_weights::<_, _, u16, _, 12>(
        alloc, head, words, len, weights, symbols,
    );
    code_of(answer, needed)
}

/// Decodes symbols into `symbols`, with one table of weights for all symbols.
///
/// Calls [`decode_by_weights`] and returns the code of its result ([`code_of`]).
#[unsafe(no_mangle)]
pub extern "C" fn constriction_ans_decode_u16(
    alloc: Global,
    head: &mut u32,
    words: &[u16],
    len: &mut usize,
    weights: &[u16],
    symbols: &mut [usize],
) -> u32
    ensures { AnsDecodesU16 result (by_weights (map (lowest 16) weights.now)) words.now head.old len.old head.new
        len.new
        symbols.old symbols.new }
{
    let answer = decode_by_weights::<_, _, u16, 12>(alloc, head, words, len, weights, symbols);
    code_without_space(answer)
}

/// Imports the state that `constriction_ans_into_compressed_u16` exports as `words`.
///
/// Sets `head`, and sets `len` to the number of words that stay below the head.
///
/// Calls [`from_compressed`] and returns the code of its result ([`code_of`]).
#[unsafe(no_mangle)]
pub extern "C" fn constriction_ans_from_compressed_u16(
    words: &[u16],
    len: &mut usize,
    head: &mut u32,
) -> u32
    ensures { AnsImportsU16 result (filled 16 32 0) BeginsHigh words.now head.old len.old head.new len.new }
{
    code_without_space(from_compressed(words, len, head))
}

/// Imports the state whose binary form is `words`. Every list of words is the binary form of a state.
///
/// Sets `head`, and sets `len` to the number of words that stay below the head.
///
/// Calls [`from_binary`], which always succeeds, and returns 0.
#[unsafe(no_mangle)]
pub extern "C" fn constriction_ans_from_binary_u16(
    words: &[u16],
    len: &mut usize,
    head: &mut u32,
) -> u32
    ensures { AnsImportsU16 result (binary_state 16 32) (λ all. Unit {0}) words.now head.old len.old head.new len.new }
{
    from_binary(words, len, head);
    code_without_space(Ok(()))
}

/// Exports the state: writes the words of the head, without leading zero words, after the first `len` words of `words`.
///
/// Calls [`into_compressed`] and returns the code of its result ([`code_of`]).
#[unsafe(no_mangle)]
pub extern "C" fn constriction_ans_into_compressed_u16(
    alloc: Global,
    head: u32,
    words: &mut [u16],
    len: &mut usize,
    needed: &mut usize,
) -> u32
    ensures { AnsExportsU16 result needed.old needed.new (AreCompressed 16) (λ state. Unit {0}) head words.old len.old
        words.new len.new }
{
    code_of(into_compressed(alloc, head, words, len), needed)
}
