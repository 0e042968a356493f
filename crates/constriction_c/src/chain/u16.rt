// Written by tools/sizes from u32.rt.
//! The chain coder with 16-bit words, a 32-bit remainders head, a 16-bit compressed head and a precision of 12 bits.

ghost use Rattle.std.specs.Prelude.{map};
ghost use Rattle.constriction_c.specs.U16.{ChainBeginsU16, ChainEndsU16, ChainEncodesU16, ChainDecodesU16, chain_u16};
ghost use Rattle.constriction_c.specs.Words.{lowest};
ghost use Rattle.constriction_calls.specs.declared.chain.Form.TheVariants.{InCompressed};
ghost use Rattle.constriction_inputs.specs.Weights.{by_weights};

use crate::chain::by_weights::{decode_by_weights, encode_reverse_by_weights};
use crate::codes::{code_of, code_without_space};
use constriction_calls::chain::{Form, from_words, into_words};
use std::alloc::Global;

/// The two heads of a chain coder with 16-bit words, with the fields of [`ChainHeads`].
#[repr(C)]
#[derive(Drop, Clone, Copy)]
pub struct ChainHeadsU16 {
    pub remainders: u32,
    pub compressed: u16,
}

/// Decodes symbols into `symbols`, with one table of weights for all symbols.
///
/// Calls [`decode_by_weights`] and returns the code of its result ([`code_of`]).
#[unsafe(no_mangle)]
pub extern "C" fn constriction_chain_decode_u16(
    alloc: Global,
    heads: &mut ChainHeadsU16,
    compressed: &[u16],
    count: &mut usize,
    remainders: &mut [u16],
    rest: &mut usize,
    weights: &[u16],
    symbols: &mut [usize],
    needed: &mut usize,
) -> u32
    ensures { ChainDecodesU16 result needed.old needed.new (by_weights (map (lowest 16) weights.now))
        (chain_u16 heads.old compressed.now count.old remainders.old rest.old)
        (chain_u16 heads.new compressed.now count.new remainders.new rest.new) symbols.old symbols.new }
{
    let mut both = heads.parts();
    let answer = decode_by_weights::<_, _, u16, 12>(
        alloc, &mut both, compressed, count, remainders, rest, weights, symbols,
    );
    *heads = ChainHeadsU16::of(both);
    code_of(answer, needed)
}

/// Encodes symbols from the last to the first, with one table of weights for all symbols.
///
/// Calls [`encode_reverse_by_weights`] and returns the code of its result ([`code_of`]).
#[unsafe(no_mangle)]
pub extern "C" fn constriction_chain_encode_reverse_u16(
    alloc: Global,
    heads: &mut ChainHeadsU16,
    compressed: &mut [u16],
    count: &mut usize,
    remainders: &[u16],
    rest: &mut usize,
    weights: &[u16],
    symbols: &[usize],
    needed: &mut usize,
) -> u32
    ensures { ChainEncodesU16 result needed.old needed.new (by_weights (map (lowest 16) weights.now) symbols.now)
        (chain_u16 heads.old compressed.old count.old remainders.now rest.old)
        (chain_u16 heads.new compressed.new count.new remainders.now rest.new) }
{
    let mut both = heads.parts();
    let answer = encode_reverse_by_weights::<_, _, u16, _, 12>(
        alloc, &mut both, compressed, count, remainders, rest, weights, symbols,
    );
    *heads = ChainHeadsU16::of(both);
    code_of(answer, needed)
}

/// Imports a coder from compressed words. The coder has no words of remainders below its heads.
///
/// Sets `heads`, and sets `count` to the number of words that stay in `words`, below the heads.
///
/// Calls [`from_words`] and returns the code of its result ([`code_of`]).
#[unsafe(no_mangle)]
pub extern "C" fn constriction_chain_from_compressed_u16(
    alloc: Global,
    words: &[u16],
    count: &mut usize,
    heads: &mut ChainHeadsU16,
) -> u32
    ensures { ChainBeginsU16 result InCompressed words.now heads.old count.old heads.new count.new }
{
    let mut both = heads.parts();
    let answer = from_words::<_, _, 12>(alloc, Form::InCompressed, words, &mut both, count);
    *heads = ChainHeadsU16::of(both);
    code_without_space(answer)
}

/// Exports compressed words: writes the words of the remainders head after the first `count` words of `compressed`.
///
/// Calls [`into_words`] and returns the code of its result ([`code_of`]).
#[unsafe(no_mangle)]
pub extern "C" fn constriction_chain_into_compressed_u16(
    alloc: Global,
    heads: &ChainHeadsU16,
    compressed: &mut [u16],
    count: &mut usize,
    needed: &mut usize,
) -> u32
    ensures { ChainEndsU16 result needed.old needed.new InCompressed heads.now compressed.old count.old compressed.new
        count.new }
{
    let parts = heads.parts();
    let answer = into_words::<_, _, 12>(alloc, Form::InCompressed, &parts, compressed, count);
    code_of(answer, needed)
}
