//! Many stack coders in one call, with 32-bit words, 64-bit heads and a precision of 24 bits.

ghost use Rattle.std.specs.Prelude.{length, map};
ghost use Rattle.constriction_c.specs.U32.{LanesDecodeU32, LanesEncodeU32};
ghost use Rattle.constriction_c.specs.Words.{lowest};
ghost use Rattle.constriction_inputs.specs.Weights.{by_weights};

use crate::codes::{code_of, code_without_space};
use crate::lanes::by_weights::encode_reverse_by_weights;
use constriction_lanes::decoding::decode_by_weights;
use std::alloc::Global;

/// Encodes symbols from the last to the first, with one table of weights for all symbols.
///
/// Calls [`encode_reverse_by_weights`] and returns the code of its result ([`code_of`]).
#[unsafe(no_mangle)]
pub extern "C" fn constriction_ans_lanes_encode_reverse_u32(
    alloc: Global,
    heads: &mut [u64],
    words: &mut [u32],
    lens: &mut [usize],
    weights: &[u32],
    symbols: &[usize],
    needed: &mut usize,
) -> u32
    ensures { LanesEncodeU32 result needed.old needed.new (length symbols.now)
        (by_weights (map (lowest 32) weights.now) symbols.now) heads.old words.old lens.old
        heads.new words.new lens.new }
{
    let answer = encode_reverse_by_weights::<_, _, u32, _, 24>(
        alloc, heads, words, lens, weights, symbols,
    );
    code_of(answer, needed)
}

/// Decodes symbols into `symbols`, with one table of weights for all symbols.
///
/// Calls [`decode_by_weights`] and returns the code of its result ([`code_of`]).
#[unsafe(no_mangle)]
pub extern "C" fn constriction_ans_lanes_decode_u32(
    alloc: Global,
    heads: &mut [u64],
    words: &[u32],
    lens: &mut [usize],
    weights: &[u32],
    symbols: &mut [usize],
) -> u32
    ensures { LanesDecodeU32 result (by_weights (map (lowest 32) weights.now)) words.now heads.old lens.old heads.new
        lens.new symbols.old symbols.new }
{
    let answer = decode_by_weights::<_, _, u32, 24>(alloc, heads, words, lens, weights, symbols);
    code_without_space(answer)
}
