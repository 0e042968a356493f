// Written by tools/sizes from u32.rt.
//! More C functions for many stack coders in one call: other models, and intervals.

ghost use Rattle.constriction_c.specs.U32.{LanesDecodeU32, LanesEncodeU32, intervals_from_u32};
ghost use Rattle.constriction_c.specs.Words.{lowest};
ghost use Rattle.constriction_inputs.specs.Counts.{by_counts};
ghost use Rattle.constriction_inputs.specs.Mixtures.{in_mixture};
ghost use Rattle.constriction_inputs.specs.Quantized.{in_family};
ghost use Rattle.constriction_inputs.specs.Rows.{by_rows};
ghost use Rattle.std.specs.Prelude.{length, map};

use crate::codes::{code_of, code_without_space};
use constriction_inputs::intervals::Intervals;
use constriction_inputs::models::{Counts, Families, Mixtures, Rows};
use constriction_inputs::symbols::Symbols;
use constriction_lanes::decoding::decode;
use constriction_lanes::encoding::encode_reverse;
use std::alloc::Global;

/// Encodes symbols from the last to the first, with a row of `width` weights for each symbol.
///
/// Calls [`encode_reverse`] and returns the code of its result ([`code_of`]).
#[unsafe(no_mangle)]
pub extern "C" fn constriction_ans_lanes_encode_each_reverse_u32(
    alloc: Global,
    heads: &mut [u64],
    words: &mut [u32],
    lens: &mut [usize],
    weights: &[u32],
    width: usize,
    symbols: &[usize],
    needed: &mut usize,
) -> u32
    ensures { LanesEncodeU32 result needed.old needed.new (length symbols.now)
        (by_rows width (map (lowest 32) weights.now) symbols.now) heads.old words.old lens.old heads.new words.new
        lens.new }
{
    let models = Rows { weights, width };
    let items = Symbols { models, symbols };
    let answer = encode_reverse::<_, _, u32, _, 24>(alloc, heads, words, lens, &items);
    code_of(answer, needed)
}

/// Decodes symbols into `symbols`, with a row of `width` weights for each symbol.
///
/// Calls [`decode`] and returns the code of its result ([`code_of`]).
#[unsafe(no_mangle)]
pub extern "C" fn constriction_ans_lanes_decode_each_u32(
    alloc: Global,
    heads: &mut [u64],
    words: &[u32],
    lens: &mut [usize],
    weights: &[u32],
    width: usize,
    symbols: &mut [usize],
) -> u32
    ensures { LanesDecodeU32 result (by_rows width (map (lowest 32) weights.now)) words.now heads.old lens.old heads.new
        lens.new symbols.old symbols.new }
{
    let models = Rows { weights, width };
    let answer = decode::<_, _, u32, _, 24>(alloc, heads, words, lens, &models, symbols);
    code_without_space(answer)
}

/// Encodes symbols from the last to the first, with a row of `width` counts for each symbol ([`Counts`]).
///
/// Calls [`encode_reverse`] and returns the code of its result ([`code_of`]).
#[unsafe(no_mangle)]
pub extern "C" fn constriction_ans_lanes_encode_counts_reverse_u32(
    alloc: Global,
    heads: &mut [u64],
    words: &mut [u32],
    lens: &mut [usize],
    counts: &[u32],
    width: usize,
    symbols: &[usize],
    needed: &mut usize,
) -> u32
    ensures { LanesEncodeU32 result needed.old needed.new (length symbols.now)
        (by_counts 32 width counts.now symbols.now) heads.old words.old lens.old heads.new words.new lens.new }
{
    let models = Counts { counts, width };
    let items = Symbols { models, symbols };
    let answer = encode_reverse::<_, _, u32, _, 24>(alloc, heads, words, lens, &items);
    code_of(answer, needed)
}

/// Decodes symbols into `symbols`, with a row of `width` counts for each symbol ([`Counts`]).
///
/// Calls [`decode`] and returns the code of its result ([`code_of`]).
#[unsafe(no_mangle)]
pub extern "C" fn constriction_ans_lanes_decode_counts_u32(
    alloc: Global,
    heads: &mut [u64],
    words: &[u32],
    lens: &mut [usize],
    counts: &[u32],
    width: usize,
    symbols: &mut [usize],
) -> u32
    ensures { LanesDecodeU32 result (by_counts 32 width counts.now) words.now heads.old lens.old heads.new lens.new
        symbols.old symbols.new }
{
    let models = Counts { counts, width };
    let answer = decode::<_, _, u32, _, 24>(alloc, heads, words, lens, &models, symbols);
    code_without_space(answer)
}

/// Encodes intervals from the last to the first. Interval `i` begins at quantile `lefts[i]` and has length `ps[i]`.
///
/// Calls [`encode_reverse`] and returns the code of its result ([`code_of`]).
#[unsafe(no_mangle)]
pub extern "C" fn constriction_ans_lanes_encode_intervals_reverse_u32(
    alloc: Global,
    heads: &mut [u64],
    words: &mut [u32],
    lens: &mut [usize],
    lefts: &[u32],
    ps: &[u32],
    needed: &mut usize,
) -> u32
    ensures { LanesEncodeU32 result needed.old needed.new (length ps.now)
        (intervals_from_u32 lefts.now (map (lowest 32) ps.now)) heads.old words.old lens.old heads.new words.new
        lens.new }
{
    let items = Intervals { lefts, ps };
    let answer = encode_reverse::<_, _, u32, _, 24>(alloc, heads, words, lens, &items);
    code_of(answer, needed)
}

/// Encodes symbols from the last to the first, each with the model of its own location and scale ([`Families`]).
///
/// Calls [`encode_reverse`] and returns the code of its result ([`code_of`]).
#[unsafe(no_mangle)]
pub extern "C" fn constriction_ans_lanes_encode_quantized_reverse_u32(
    alloc: Global,
    heads: &mut [u64],
    words: &mut [u32],
    lens: &mut [usize],
    family: u32,
    min: i32,
    max: i32,
    locations: &[i64],
    scales: &[u32],
    symbols: &[usize],
    needed: &mut usize,
) -> u32
    ensures { LanesEncodeU32 result needed.old needed.new (length symbols.now)
        (in_family family min max locations.now scales.now symbols.now) heads.old words.old lens.old heads.new words.new
        lens.new }
{
    let models = Families::new(family, min, max, locations, scales);
    let items = Symbols { models, symbols };
    let answer = encode_reverse::<_, _, u32, _, 24>(alloc, heads, words, lens, &items);
    code_of(answer, needed)
}

/// Decodes symbols into `symbols`, each with the model of its own location and scale ([`Families`]).
///
/// Calls [`decode`] and returns the code of its result ([`code_of`]).
#[unsafe(no_mangle)]
pub extern "C" fn constriction_ans_lanes_decode_quantized_u32(
    alloc: Global,
    heads: &mut [u64],
    words: &[u32],
    lens: &mut [usize],
    family: u32,
    min: i32,
    max: i32,
    locations: &[i64],
    scales: &[u32],
    symbols: &mut [usize],
) -> u32
    ensures { LanesDecodeU32 result (in_family family min max locations.now scales.now) words.now heads.old lens.old
        heads.new lens.new symbols.old symbols.new }
{
    let models = Families::new(family, min, max, locations, scales);
    let answer = decode::<_, _, u32, _, 24>(alloc, heads, words, lens, &models, symbols);
    code_without_space(answer)
}

/// Encodes symbols from the last to the first, each with its own mixture of a family's distributions ([`Mixtures`]).
///
/// Calls [`encode_reverse`] and returns the code of its result ([`code_of`]).
#[unsafe(no_mangle)]
pub extern "C" fn constriction_ans_lanes_encode_mixture_reverse_u32(
    alloc: Global,
    heads: &mut [u64],
    words: &mut [u32],
    lens: &mut [usize],
    family: u32,
    min: i32,
    max: i32,
    width: usize,
    component_weights: &[u32],
    locations: &[i64],
    scales: &[u32],
    symbols: &[usize],
    needed: &mut usize,
) -> u32
    ensures { LanesEncodeU32 result needed.old needed.new (length symbols.now)
        (in_mixture family min max width component_weights.now locations.now scales.now symbols.now) heads.old words.old
        lens.old heads.new words.new lens.new }
{
    let components = Families::new(family, min, max, locations, scales);
    let models = Mixtures::new(components, component_weights, width);
    let items = Symbols { models, symbols };
    let answer = encode_reverse::<_, _, u32, _, 24>(alloc, heads, words, lens, &items);
    code_of(answer, needed)
}

/// Decodes symbols into `symbols`, each with its own mixture of a family's distributions ([`Mixtures`]).
///
/// Calls [`decode`] and returns the code of its result ([`code_of`]).
#[unsafe(no_mangle)]
pub extern "C" fn constriction_ans_lanes_decode_mixture_u32(
    alloc: Global,
    heads: &mut [u64],
    words: &[u32],
    lens: &mut [usize],
    family: u32,
    min: i32,
    max: i32,
    width: usize,
    component_weights: &[u32],
    locations: &[i64],
    scales: &[u32],
    symbols: &mut [usize],
) -> u32
    ensures { LanesDecodeU32 result (in_mixture family min max width component_weights.now locations.now scales.now)
        words.now heads.old lens.old heads.new lens.new symbols.old symbols.new }
{
    let components = Families::new(family, min, max, locations, scales);
    let models = Mixtures::new(components, component_weights, width);
    let answer = decode::<_, _, u32, _, 24>(alloc, heads, words, lens, &models, symbols);
    code_without_space(answer)
}
