// Written by tools/sizes from u32.rt.
//! More C functions of the stack coder: other models, symbols of 8 and 16 bits, and words in binary form.

ghost use Rattle.constriction_c.specs.U32.{AnsDecodesU32, AnsEncodesU32, AnsExportsU32, intervals_from_u32};
ghost use Rattle.constriction_c.specs.U32.{narrow_from_u32};
ghost use Rattle.constriction_c.specs.Words.{lowest};
ghost use Rattle.constriction_calls.specs.AnsCalls.{AreBinary, HasBinary};
ghost use Rattle.constriction_inputs.specs.Counts.{by_counts};
ghost use Rattle.constriction_inputs.specs.Indexed.{by_indexes};
ghost use Rattle.constriction_inputs.specs.Mixtures.{in_mixture};
ghost use Rattle.constriction_inputs.specs.Quantized.{in_family};
ghost use Rattle.constriction_inputs.specs.Rows.{by_rows};
ghost use Rattle.constriction_inputs.specs.Weights.{by_weights};
ghost use Rattle.std.specs.Prelude.{map};

use crate::ans::by_weights::{decode_narrow, encode_reverse_by_weights};
use crate::codes::{code_of, code_without_space};
use constriction_calls::ans::decoding::decode;
use constriction_calls::ans::encoding::encode_reverse;
use constriction_calls::ans::words::into_binary;
use constriction_inputs::intervals::Intervals;
use constriction_inputs::models::{Counts, Families, Indexed, Mixtures, Rows};
use constriction_inputs::symbols::Symbols;
use std::alloc::Global;

/// Encodes symbols from the last to the first, with a row of `width` weights for each symbol.
///
/// Calls [`encode_reverse`] and returns the code of its result ([`code_of`]).
#[unsafe(no_mangle)]
pub extern "C" fn constriction_ans_encode_each_reverse_u32(
    alloc: Global,
    head: &mut u64,
    words: &mut [u32],
    len: &mut usize,
    weights: &[u32],
    width: usize,
    symbols: &[usize],
    needed: &mut usize,
) -> u32
    ensures { AnsEncodesU32 result needed.old needed.new (by_rows width (map (lowest 32) weights.now) symbols.now)
        head.old words.old len.old head.new words.new len.new }
{
    let models = Rows { weights, width };
    let items = Symbols { models, symbols };
    let answer = encode_reverse::<_, _, u32, _, 24>(alloc, head, words, len, &items);
    code_of(answer, needed)
}

/// Decodes symbols into `symbols`, with a row of `width` weights for each symbol.
///
/// Calls [`decode`] and returns the code of its result ([`code_of`]).
#[unsafe(no_mangle)]
pub extern "C" fn constriction_ans_decode_each_u32(
    alloc: Global,
    head: &mut u64,
    words: &[u32],
    len: &mut usize,
    weights: &[u32],
    width: usize,
    symbols: &mut [usize],
) -> u32
    ensures { AnsDecodesU32 result (by_rows width (map (lowest 32) weights.now)) words.now head.old len.old head.new
        len.new symbols.old symbols.new }
{
    let models = Rows { weights, width };
    let answer = decode::<_, _, u32, _, 24>(alloc, head, words, len, &models, symbols);
    code_without_space(answer)
}

/// Encodes symbols from the last to the first, with a row of `width` counts for each symbol ([`Counts`]).
///
/// Calls [`encode_reverse`] and returns the code of its result ([`code_of`]).
#[unsafe(no_mangle)]
pub extern "C" fn constriction_ans_encode_counts_reverse_u32(
    alloc: Global,
    head: &mut u64,
    words: &mut [u32],
    len: &mut usize,
    counts: &[u32],
    width: usize,
    symbols: &[usize],
    needed: &mut usize,
) -> u32
    ensures { AnsEncodesU32 result needed.old needed.new (by_counts 32 width counts.now symbols.now) head.old words.old
        len.old head.new words.new len.new }
{
    let models = Counts { counts, width };
    let items = Symbols { models, symbols };
    let answer = encode_reverse::<_, _, u32, _, 24>(alloc, head, words, len, &items);
    code_of(answer, needed)
}

/// Decodes symbols into `symbols`, with a row of `width` counts for each symbol ([`Counts`]).
///
/// Calls [`decode`] and returns the code of its result ([`code_of`]).
#[unsafe(no_mangle)]
pub extern "C" fn constriction_ans_decode_counts_u32(
    alloc: Global,
    head: &mut u64,
    words: &[u32],
    len: &mut usize,
    counts: &[u32],
    width: usize,
    symbols: &mut [usize],
) -> u32
    ensures { AnsDecodesU32 result (by_counts 32 width counts.now) words.now head.old len.old head.new len.new
        symbols.old symbols.new }
{
    let models = Counts { counts, width };
    let answer = decode::<_, _, u32, _, 24>(alloc, head, words, len, &models, symbols);
    code_without_space(answer)
}

/// Encodes intervals from the last to the first. Interval `i` begins at quantile `lefts[i]` and has length `ps[i]`.
///
/// Calls [`encode_reverse`] and returns the code of its result ([`code_of`]).
#[unsafe(no_mangle)]
pub extern "C" fn constriction_ans_encode_intervals_reverse_u32(
    alloc: Global,
    head: &mut u64,
    words: &mut [u32],
    len: &mut usize,
    lefts: &[u32],
    ps: &[u32],
    needed: &mut usize,
) -> u32
    ensures { AnsEncodesU32 result needed.old needed.new (intervals_from_u32 lefts.now (map (lowest 32) ps.now))
        head.old words.old len.old head.new words.new len.new }
{
    let items = Intervals { lefts, ps };
    let answer = encode_reverse::<_, _, u32, _, 24>(alloc, head, words, len, &items);
    code_of(answer, needed)
}

/// Encodes symbols from the last to the first, each with the model of its own location and scale ([`Families`]).
///
/// Calls [`encode_reverse`] and returns the code of its result ([`code_of`]).
#[unsafe(no_mangle)]
pub extern "C" fn constriction_ans_encode_quantized_reverse_u32(
    alloc: Global,
    head: &mut u64,
    words: &mut [u32],
    len: &mut usize,
    family: u32,
    min: i32,
    max: i32,
    locations: &[i64],
    scales: &[u32],
    symbols: &[usize],
    needed: &mut usize,
) -> u32
    ensures { AnsEncodesU32 result needed.old needed.new (in_family family min max locations.now scales.now symbols.now)
        head.old words.old len.old head.new words.new len.new }
{
    let models = Families::new(family, min, max, locations, scales);
    let items = Symbols { models, symbols };
    let answer = encode_reverse::<_, _, u32, _, 24>(alloc, head, words, len, &items);
    code_of(answer, needed)
}

/// Decodes symbols into `symbols`, each with the model of its own location and scale ([`Families`]).
///
/// Calls [`decode`] and returns the code of its result ([`code_of`]).
#[unsafe(no_mangle)]
pub extern "C" fn constriction_ans_decode_quantized_u32(
    alloc: Global,
    head: &mut u64,
    words: &[u32],
    len: &mut usize,
    family: u32,
    min: i32,
    max: i32,
    locations: &[i64],
    scales: &[u32],
    symbols: &mut [usize],
) -> u32
    ensures { AnsDecodesU32 result (in_family family min max locations.now scales.now) words.now head.old len.old
        head.new len.new symbols.old symbols.new }
{
    let models = Families::new(family, min, max, locations, scales);
    let answer = decode::<_, _, u32, _, 24>(alloc, head, words, len, &models, symbols);
    code_without_space(answer)
}

/// Encodes symbols from the last to the first, each with its own mixture of a family's distributions ([`Mixtures`]).
///
/// Calls [`encode_reverse`] and returns the code of its result ([`code_of`]).
#[unsafe(no_mangle)]
pub extern "C" fn constriction_ans_encode_mixture_reverse_u32(
    alloc: Global,
    head: &mut u64,
    words: &mut [u32],
    len: &mut usize,
    family: u32,
    min: i32,
    max: i32,
    width: usize,
    component_weights: &[u32],
    locations: &[i64],
    scales: &[u32],
    symbols: &[usize],
    needed: &mut usize,
) -> u32
    ensures { AnsEncodesU32 result needed.old needed.new
        (in_mixture family min max width component_weights.now locations.now scales.now symbols.now) head.old words.old
        len.old head.new words.new len.new }
{
    let components = Families::new(family, min, max, locations, scales);
    let models = Mixtures::new(components, component_weights, width);
    let items = Symbols { models, symbols };
    let answer = encode_reverse::<_, _, u32, _, 24>(alloc, head, words, len, &items);
    code_of(answer, needed)
}

/// Decodes symbols into `symbols`, each with its own mixture of a family's distributions ([`Mixtures`]).
///
/// Calls [`decode`] and returns the code of its result ([`code_of`]).
#[unsafe(no_mangle)]
pub extern "C" fn constriction_ans_decode_mixture_u32(
    alloc: Global,
    head: &mut u64,
    words: &[u32],
    len: &mut usize,
    family: u32,
    min: i32,
    max: i32,
    width: usize,
    component_weights: &[u32],
    locations: &[i64],
    scales: &[u32],
    symbols: &mut [usize],
) -> u32
    ensures { AnsDecodesU32 result (in_mixture family min max width component_weights.now locations.now scales.now)
        words.now head.old len.old head.new len.new symbols.old symbols.new }
{
    let components = Families::new(family, min, max, locations, scales);
    let models = Mixtures::new(components, component_weights, width);
    let answer = decode::<_, _, u32, _, 24>(alloc, head, words, len, &models, symbols);
    code_without_space(answer)
}

/// Encodes symbols from the last to the first, with the table of `width` weights at each symbol's index ([`Indexed`]).
///
/// Calls [`encode_reverse`] and returns the code of its result ([`code_of`]).
#[unsafe(no_mangle)]
pub extern "C" fn constriction_ans_encode_indexed_reverse_u32(
    alloc: Global,
    head: &mut u64,
    words: &mut [u32],
    len: &mut usize,
    weights: &[u32],
    width: usize,
    indexes: &[usize],
    symbols: &[usize],
    needed: &mut usize,
) -> u32
    ensures { AnsEncodesU32 result needed.old needed.new
        (by_indexes width (map (lowest 32) weights.now) indexes.now symbols.now) head.old words.old len.old head.new
        words.new len.new }
{
    let models = Indexed {
        weights,
        width,
        indexes,
    };
    let items = Symbols { models, symbols };
    let answer = encode_reverse::<_, _, u32, _, 24>(alloc, head, words, len, &items);
    code_of(answer, needed)
}

/// Decodes symbols into `symbols`, with the table of `width` weights at each symbol's index ([`Indexed`]).
///
/// Calls [`decode`] and returns the code of its result ([`code_of`]).
#[unsafe(no_mangle)]
pub extern "C" fn constriction_ans_decode_indexed_u32(
    alloc: Global,
    head: &mut u64,
    words: &[u32],
    len: &mut usize,
    weights: &[u32],
    width: usize,
    indexes: &[usize],
    symbols: &mut [usize],
) -> u32
    ensures { AnsDecodesU32 result (by_indexes width (map (lowest 32) weights.now) indexes.now) words.now head.old
        len.old head.new len.new symbols.old symbols.new }
{
    let models = Indexed {
        weights,
        width,
        indexes,
    };
    let answer = decode::<_, _, u32, _, 24>(alloc, head, words, len, &models, symbols);
    code_without_space(answer)
}

/// Encodes symbols of type `u8` from the last to the first, with one table of weights for all symbols.
///
/// Calls [`encode_reverse_by_weights`] and returns the code of its result ([`code_of`]).
#[unsafe(no_mangle)]
pub extern "C" fn constriction_ans_encode_bytes_reverse_u32(
    alloc: Global,
    head: &mut u64,
    words: &mut [u32],
    len: &mut usize,
    weights: &[u32],
    symbols: &[u8],
    needed: &mut usize,
) -> u32
    ensures { AnsEncodesU32 result needed.old needed.new (by_weights (map (lowest 32) weights.now) symbols.now) head.old
        words.old len.old head.new words.new len.new }
{
    let answer = encode_reverse_by_weights::<_, _, u32, _, 24>(
        alloc, head, words, len, weights, symbols,
    );
    code_of(answer, needed)
}

/// Decodes symbols of type `u8` into `symbols`, with one table of weights for all symbols.
///
/// Calls [`decode_narrow`] and returns the code of its result ([`code_of`]).
#[unsafe(no_mangle)]
pub extern "C" fn constriction_ans_decode_bytes_u32(
    alloc: Global,
    head: &mut u64,
    words: &[u32],
    len: &mut usize,
    weights: &[u32],
    symbols: &mut [u8],
) -> u32
    ensures { AnsDecodesU32 result (narrow_from_u32 8 weights.now) words.now head.old len.old head.new len.new
        symbols.old symbols.new }
{
    let answer = decode_narrow::<_, _, u32, u8, 24>(alloc, head, words, len, weights, symbols);
    code_without_space(answer)
}

/// Encodes symbols of type `u16` from the last to the first, with one table of weights for all symbols.
///
/// Calls [`encode_reverse_by_weights`] and returns the code of its result ([`code_of`]).
#[unsafe(no_mangle)]
pub extern "C" fn constriction_ans_encode_shorts_reverse_u32(
    alloc: Global,
    head: &mut u64,
    words: &mut [u32],
    len: &mut usize,
    weights: &[u32],
    symbols: &[u16],
    needed: &mut usize,
) -> u32
    ensures { AnsEncodesU32 result needed.old needed.new (by_weights (map (lowest 32) weights.now) symbols.now) head.old
        words.old len.old head.new words.new len.new }
{
    let answer = encode_reverse_by_weights::<_, _, u32, _, 24>(
        alloc, head, words, len, weights, symbols,
    );
    code_of(answer, needed)
}

/// Decodes symbols of type `u16` into `symbols`, with one table of weights for all symbols.
///
/// Calls [`decode_narrow`] and returns the code of its result ([`code_of`]).
#[unsafe(no_mangle)]
pub extern "C" fn constriction_ans_decode_shorts_u32(
    alloc: Global,
    head: &mut u64,
    words: &[u32],
    len: &mut usize,
    weights: &[u32],
    symbols: &mut [u16],
) -> u32
    ensures { AnsDecodesU32 result (narrow_from_u32 16 weights.now) words.now head.old len.old head.new len.new
        symbols.old symbols.new }
{
    let answer = decode_narrow::<_, _, u32, u16, 24>(alloc, head, words, len, weights, symbols);
    code_without_space(answer)
}

/// Exports the binary form: writes the bits of the head below its leading 1 after the first `len` words of `words`.
///
/// Calls [`into_binary`] and returns the code of its result ([`code_of`]).
#[unsafe(no_mangle)]
pub extern "C" fn constriction_ans_into_binary_u32(
    alloc: Global,
    head: u64,
    words: &mut [u32],
    len: &mut usize,
    needed: &mut usize,
) -> u32
    ensures { AnsExportsU32 result needed.old needed.new (AreBinary 32) (HasBinary 32) head words.old len.old words.new
        len.new }
{
    code_of(into_binary(alloc, head, words, len), needed)
}
