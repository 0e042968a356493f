//! The chain coder with 32-bit words, a 64-bit remainders head, a 32-bit compressed head and a precision of 24 bits.

ghost use Rattle.std.specs.Prelude.{map};
ghost use Rattle.constriction_c.specs.U32.{ChainBeginsU32, ChainEndsU32, ChainEncodesU32, ChainDecodesU32, chain_u32};
ghost use Rattle.constriction_c.specs.Words.{lowest};
ghost use Rattle.constriction_calls.specs.declared.chain.Form.TheVariants.{InCompressed};
ghost use Rattle.constriction_inputs.specs.Weights.{by_weights};

use crate::chain::by_weights::{decode_by_weights, encode_reverse_by_weights};
use crate::codes::{code_of, code_without_space};
use constriction_calls::chain::{Form, from_words, into_words};
use std::alloc::Global;

/// The two heads of a chain coder with 32-bit words, with the fields of [`ChainHeads`].
#[repr(C)]
#[derive(Drop, Clone, Copy)]
pub struct ChainHeadsU32 {
    pub remainders: u64,
    pub compressed: u32,
}

/// Decodes symbols into `symbols`, with one table of weights for all symbols.
///
/// Calls [`decode_by_weights`] and returns the code of its result ([`code_of`]).
#[unsafe(no_mangle)]
pub extern "C" fn constriction_chain_decode_u32(
    alloc: Global,
    heads: &mut ChainHeadsU32,
    compressed: &[u32],
    count: &mut usize,
    remainders: &mut [u32],
    rest: &mut usize,
    weights: &[u32],
    symbols: &mut [usize],
    needed: &mut usize,
) -> u32
    ensures { ChainDecodesU32 result needed.old needed.new (by_weights (map (lowest 32) weights.now))
        (chain_u32 heads.old compressed.now count.old remainders.old rest.old)
        (chain_u32 heads.new compressed.now count.new remainders.new rest.new) symbols.old symbols.new }
{
    let mut both = heads.parts();
    let answer = decode_by_weights::<_, _, u32, 24>(
        alloc, &mut both, compressed, count, remainders, rest, weights, symbols,
    );
    *heads = ChainHeadsU32::of(both);
    code_of(answer, needed)
}

/// Encodes symbols from the last to the first, with one table of weights for all symbols.
///
/// Calls [`encode_reverse_by_weights`] and returns the code of its result ([`code_of`]).
#[unsafe(no_mangle)]
pub extern "C" fn constriction_chain_encode_reverse_u32(
    alloc: Global,
    heads: &mut ChainHeadsU32,
    compressed: &mut [u32],
    count: &mut usize,
    remainders: &[u32],
    rest: &mut usize,
    weights: &[u32],
    symbols: &[usize],
    needed: &mut usize,
) -> u32
    ensures { ChainEncodesU32 result needed.old needed.new (by_weights (map (lowest 32) weights.now) symbols.now)
        (chain_u32 heads.old compressed.old count.old remainders.now rest.old)
        (chain_u32 heads.new compressed.new count.new remainders.now rest.new) }
{
    let mut both = heads.parts();
    let answer = encode_reverse_by_weights::<_, _, u32, _, 24>(
        alloc, &mut both, compressed, count, remainders, rest, weights, symbols,
    );
    *heads = ChainHeadsU32::of(both);
    code_of(answer, needed)
}

/// Imports a coder from compressed words. The coder has no words of remainders below its heads.
///
/// Sets `heads`, and sets `count` to the number of words that stay in `words`, below the heads.
///
/// Calls [`from_words`] and returns the code of its result ([`code_of`]).
#[unsafe(no_mangle)]
pub extern "C" fn constriction_chain_from_compressed_u32(
    alloc: Global,
    words: &[u32],
    count: &mut usize,
    heads: &mut ChainHeadsU32,
) -> u32
    ensures { ChainBeginsU32 result InCompressed words.now heads.old count.old heads.new count.new }
{
    let mut both = heads.parts();
    let answer = from_words::<_, _, 24>(alloc, Form::InCompressed, words, &mut both, count);
    *heads = ChainHeadsU32::of(both);
    code_without_space(answer)
}

/// Exports compressed words: writes the words of the remainders head after the first `count` words of `compressed`.
///
/// Calls [`into_words`] and returns the code of its result ([`code_of`]).
#[unsafe(no_mangle)]
pub extern "C" fn constriction_chain_into_compressed_u32(
    alloc: Global,
    heads: &ChainHeadsU32,
    compressed: &mut [u32],
    count: &mut usize,
    needed: &mut usize,
) -> u32
    ensures { ChainEndsU32 result needed.old needed.new InCompressed heads.now compressed.old count.old compressed.new
        count.new }
{
    let parts = heads.parts();
    let answer = into_words::<_, _, 24>(alloc, Form::InCompressed, &parts, compressed, count);
    code_of(answer, needed)
}
