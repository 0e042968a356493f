// Written by tools/sizes from u32.rt.
//! More C functions of the range coder: other models, symbols of 8 and 16 bits, and self-delimiting words.

ghost use Rattle.constriction_c.specs.U32.{RangeDecodesU32, RangeEncodesU32, RangeEndsU32, intervals_from_u32};
ghost use Rattle.constriction_c.specs.U32.{narrow_from_u32};
ghost use Rattle.constriction_c.specs.Words.{lowest};
ghost use Rattle.constriction_calls.specs.RangeCalls.{IsSelfSealed, RangeSeals};
ghost use Rattle.constriction_inputs.specs.Counts.{by_counts};
ghost use Rattle.constriction_inputs.specs.Indexed.{by_indexes};
ghost use Rattle.constriction_inputs.specs.Mixtures.{in_mixture};
ghost use Rattle.constriction_inputs.specs.Quantized.{in_family};
ghost use Rattle.constriction_inputs.specs.Rows.{by_rows};
ghost use Rattle.constriction_inputs.specs.Weights.{by_weights};
ghost use Rattle.std.specs.Prelude.{length, map};

use crate::codes::{code_of, code_without_space};
use crate::range::by_weights::{decode_narrow, encode_by_weights};
use crate::range::u32::{RangeDecoderU32, RangeEncoderU32};
use constriction_calls::range::decoding::decode;
use constriction_calls::range::encoding::encode;
use constriction_calls::range::words::into_self_delimited;
use constriction_inputs::intervals::Intervals;
use constriction_inputs::models::{Counts, Families, Indexed, Mixtures, Rows};
use constriction_inputs::symbols::Symbols;
use std::alloc::Global;

/// Encodes symbols in order, with a row of `width` weights for each symbol.
///
/// Calls [`encode`] and returns the code of its result ([`code_of`]).
#[unsafe(no_mangle)]
pub extern "C" fn constriction_range_encode_each_u32(
    alloc: Global,
    encoder: &mut RangeEncoderU32,
    words: &mut [u32],
    len: &mut usize,
    weights: &[u32],
    width: usize,
    symbols: &[usize],
    needed: &mut usize,
) -> u32
    ensures { RangeEncodesU32 result needed.old needed.new (by_rows width (map (lowest 32) weights.now) symbols.now)
        (length symbols.now) encoder.old words.old len.old encoder.new words.new len.new }
{
    let models = Rows { weights, width };
    let items = Symbols { models, symbols };
    let mut parts = encoder.parts();
    let answer = encode::<_, _, u32, _, 24>(alloc, &mut parts, words, len, &items);
    *encoder = RangeEncoderU32::of(parts);
    code_of(answer, needed)
}

/// Decodes symbols into `symbols`, in order, with a row of `width` weights for each symbol.
///
/// Calls [`decode`] and returns the code of its result ([`code_of`]).
#[unsafe(no_mangle)]
pub extern "C" fn constriction_range_decode_each_u32(
    alloc: Global,
    decoder: &mut RangeDecoderU32,
    words: &[u32],
    weights: &[u32],
    width: usize,
    symbols: &mut [usize],
) -> u32
    ensures { RangeDecodesU32 result (by_rows width (map (lowest 32) weights.now)) words.now decoder.old decoder.new
        symbols.old symbols.new }
{
    let models = Rows { weights, width };
    let mut parts = decoder.parts();
    let answer = decode::<_, _, u32, _, 24>(alloc, &mut parts, words, &models, symbols);
    *decoder = RangeDecoderU32::of(parts);
    code_without_space(answer)
}

/// Encodes symbols in order, with a row of `width` counts for each symbol ([`Counts`]).
///
/// Calls [`encode`] and returns the code of its result ([`code_of`]).
#[unsafe(no_mangle)]
pub extern "C" fn constriction_range_encode_counts_u32(
    alloc: Global,
    encoder: &mut RangeEncoderU32,
    words: &mut [u32],
    len: &mut usize,
    counts: &[u32],
    width: usize,
    symbols: &[usize],
    needed: &mut usize,
) -> u32
    ensures { RangeEncodesU32 result needed.old needed.new (by_counts 32 width counts.now symbols.now)
        (length symbols.now) encoder.old words.old len.old encoder.new words.new len.new }
{
    let models = Counts { counts, width };
    let items = Symbols { models, symbols };
    let mut parts = encoder.parts();
    let answer = encode::<_, _, u32, _, 24>(alloc, &mut parts, words, len, &items);
    *encoder = RangeEncoderU32::of(parts);
    code_of(answer, needed)
}

/// Decodes symbols into `symbols`, in order, with a row of `width` counts for each symbol ([`Counts`]).
///
/// Calls [`decode`] and returns the code of its result ([`code_of`]).
#[unsafe(no_mangle)]
pub extern "C" fn constriction_range_decode_counts_u32(
    alloc: Global,
    decoder: &mut RangeDecoderU32,
    words: &[u32],
    counts: &[u32],
    width: usize,
    symbols: &mut [usize],
) -> u32
    ensures { RangeDecodesU32 result (by_counts 32 width counts.now) words.now decoder.old decoder.new symbols.old
        symbols.new }
{
    let models = Counts { counts, width };
    let mut parts = decoder.parts();
    let answer = decode::<_, _, u32, _, 24>(alloc, &mut parts, words, &models, symbols);
    *decoder = RangeDecoderU32::of(parts);
    code_without_space(answer)
}

/// Encodes intervals in order. Interval `i` begins at quantile `lefts[i]` and has length `ps[i]`.
///
/// Calls [`encode`] and returns the code of its result ([`code_of`]).
#[unsafe(no_mangle)]
pub extern "C" fn constriction_range_encode_intervals_u32(
    alloc: Global,
    encoder: &mut RangeEncoderU32,
    words: &mut [u32],
    len: &mut usize,
    lefts: &[u32],
    ps: &[u32],
    needed: &mut usize,
) -> u32
    ensures { RangeEncodesU32 result needed.old needed.new (intervals_from_u32 lefts.now (map (lowest 32) ps.now))
        (length ps.now) encoder.old words.old len.old encoder.new words.new len.new }
{
    let items = Intervals { lefts, ps };
    let mut parts = encoder.parts();
    let answer = encode::<_, _, u32, _, 24>(alloc, &mut parts, words, len, &items);
    *encoder = RangeEncoderU32::of(parts);
    code_of(answer, needed)
}

/// Encodes symbols in order, each with the model of its own location and scale ([`Families`]).
///
/// Calls [`encode`] and returns the code of its result ([`code_of`]).
#[unsafe(no_mangle)]
pub extern "C" fn constriction_range_encode_quantized_u32(
    alloc: Global,
    encoder: &mut RangeEncoderU32,
    words: &mut [u32],
    len: &mut usize,
    family: u32,
    min: i32,
    max: i32,
    locations: &[i64],
    scales: &[u32],
    symbols: &[usize],
    needed: &mut usize,
) -> u32
    ensures { RangeEncodesU32 result needed.old needed.new
        (in_family family min max locations.now scales.now symbols.now) (length symbols.now) encoder.old words.old
        len.old encoder.new words.new len.new }
{
    let models = Families::new(family, min, max, locations, scales);
    let items = Symbols { models, symbols };
    let mut parts = encoder.parts();
    let answer = encode::<_, _, u32, _, 24>(alloc, &mut parts, words, len, &items);
    *encoder = RangeEncoderU32::of(parts);
    code_of(answer, needed)
}

/// Decodes symbols into `symbols`, in order, each with the model of its own location and scale ([`Families`]).
///
/// Calls [`decode`] and returns the code of its result ([`code_of`]).
#[unsafe(no_mangle)]
pub extern "C" fn constriction_range_decode_quantized_u32(
    alloc: Global,
    decoder: &mut RangeDecoderU32,
    words: &[u32],
    family: u32,
    min: i32,
    max: i32,
    locations: &[i64],
    scales: &[u32],
    symbols: &mut [usize],
) -> u32
    ensures { RangeDecodesU32 result (in_family family min max locations.now scales.now) words.now decoder.old
        decoder.new symbols.old symbols.new }
{
    let models = Families::new(family, min, max, locations, scales);
    let mut parts = decoder.parts();
    let answer = decode::<_, _, u32, _, 24>(alloc, &mut parts, words, &models, symbols);
    *decoder = RangeDecoderU32::of(parts);
    code_without_space(answer)
}

/// Encodes symbols in order, each with its own mixture of a family's distributions ([`Mixtures`]).
///
/// Calls [`encode`] and returns the code of its result ([`code_of`]).
#[unsafe(no_mangle)]
pub extern "C" fn constriction_range_encode_mixture_u32(
    alloc: Global,
    encoder: &mut RangeEncoderU32,
    words: &mut [u32],
    len: &mut usize,
    family: u32,
    min: i32,
    max: i32,
    width: usize,
    component_weights: &[u32],
    locations: &[i64],
    scales: &[u32],
    symbols: &[usize],
    needed: &mut usize,
) -> u32
    ensures { RangeEncodesU32 result needed.old needed.new
        (in_mixture family min max width component_weights.now locations.now scales.now symbols.now)
        (length symbols.now) encoder.old words.old len.old encoder.new words.new len.new }
{
    let components = Families::new(family, min, max, locations, scales);
    let models = Mixtures::new(components, component_weights, width);
    let items = Symbols { models, symbols };
    let mut parts = encoder.parts();
    let answer = encode::<_, _, u32, _, 24>(alloc, &mut parts, words, len, &items);
    *encoder = RangeEncoderU32::of(parts);
    code_of(answer, needed)
}

/// Decodes symbols into `symbols`, in order, each with its own mixture of a family's distributions ([`Mixtures`]).
///
/// Calls [`decode`] and returns the code of its result ([`code_of`]).
#[unsafe(no_mangle)]
pub extern "C" fn constriction_range_decode_mixture_u32(
    alloc: Global,
    decoder: &mut RangeDecoderU32,
    words: &[u32],
    family: u32,
    min: i32,
    max: i32,
    width: usize,
    component_weights: &[u32],
    locations: &[i64],
    scales: &[u32],
    symbols: &mut [usize],
) -> u32
    ensures { RangeDecodesU32 result (in_mixture family min max width component_weights.now locations.now scales.now)
        words.now decoder.old decoder.new symbols.old symbols.new }
{
    let components = Families::new(family, min, max, locations, scales);
    let models = Mixtures::new(components, component_weights, width);
    let mut parts = decoder.parts();
    let answer = decode::<_, _, u32, _, 24>(alloc, &mut parts, words, &models, symbols);
    *decoder = RangeDecoderU32::of(parts);
    code_without_space(answer)
}

/// Encodes symbols in order, with the table of `width` weights at each symbol's index ([`Indexed`]).
///
/// Calls [`encode`] and returns the code of its result ([`code_of`]).
#[unsafe(no_mangle)]
pub extern "C" fn constriction_range_encode_indexed_u32(
    alloc: Global,
    encoder: &mut RangeEncoderU32,
    words: &mut [u32],
    len: &mut usize,
    weights: &[u32],
    width: usize,
    indexes: &[usize],
    symbols: &[usize],
    needed: &mut usize,
) -> u32
    ensures { RangeEncodesU32 result needed.old needed.new
        (by_indexes width (map (lowest 32) weights.now) indexes.now symbols.now) (length symbols.now) encoder.old
        words.old len.old encoder.new words.new len.new }
{
    let models = Indexed {
        weights,
        width,
        indexes,
    };
    let items = Symbols { models, symbols };
    let mut parts = encoder.parts();
    let answer = encode::<_, _, u32, _, 24>(alloc, &mut parts, words, len, &items);
    *encoder = RangeEncoderU32::of(parts);
    code_of(answer, needed)
}

/// Decodes symbols into `symbols`, in order, with the table of `width` weights at each symbol's index ([`Indexed`]).
///
/// Calls [`decode`] and returns the code of its result ([`code_of`]).
#[unsafe(no_mangle)]
pub extern "C" fn constriction_range_decode_indexed_u32(
    alloc: Global,
    decoder: &mut RangeDecoderU32,
    words: &[u32],
    weights: &[u32],
    width: usize,
    indexes: &[usize],
    symbols: &mut [usize],
) -> u32
    ensures { RangeDecodesU32 result (by_indexes width (map (lowest 32) weights.now) indexes.now) words.now decoder.old
        decoder.new symbols.old symbols.new }
{
    let models = Indexed {
        weights,
        width,
        indexes,
    };
    let mut parts = decoder.parts();
    let answer = decode::<_, _, u32, _, 24>(alloc, &mut parts, words, &models, symbols);
    *decoder = RangeDecoderU32::of(parts);
    code_without_space(answer)
}

/// Encodes symbols of type `u8` in order, with one table of weights for all symbols.
///
/// Calls [`encode_by_weights`] and returns the code of its result ([`code_of`]).
#[unsafe(no_mangle)]
pub extern "C" fn constriction_range_encode_bytes_u32(
    alloc: Global,
    encoder: &mut RangeEncoderU32,
    words: &mut [u32],
    len: &mut usize,
    weights: &[u32],
    symbols: &[u8],
    needed: &mut usize,
) -> u32
    ensures { RangeEncodesU32 result needed.old needed.new (by_weights (map (lowest 32) weights.now) symbols.now)
        (length symbols.now) encoder.old words.old len.old encoder.new words.new len.new }
{
    let mut parts = encoder.parts();
    let answer = encode_by_weights::<_, _, u32, _, 24>(
        alloc, &mut parts, words, len, weights, symbols,
    );
    *encoder = RangeEncoderU32::of(parts);
    code_of(answer, needed)
}

/// Decodes symbols of type `u8` into `symbols`, in order, with one table of weights for all symbols.
///
/// Calls [`decode_narrow`] and returns the code of its result ([`code_of`]).
#[unsafe(no_mangle)]
pub extern "C" fn constriction_range_decode_bytes_u32(
    alloc: Global,
    decoder: &mut RangeDecoderU32,
    words: &[u32],
    weights: &[u32],
    symbols: &mut [u8],
) -> u32
    ensures { RangeDecodesU32 result (narrow_from_u32 8 weights.now) words.now decoder.old decoder.new symbols.old
        symbols.new }
{
    let mut parts = decoder.parts();
    let answer = decode_narrow::<_, _, u32, u8, 24>(alloc, &mut parts, words, weights, symbols);
    *decoder = RangeDecoderU32::of(parts);
    code_without_space(answer)
}

/// Encodes symbols of type `u16` in order, with one table of weights for all symbols.
///
/// Calls [`encode_by_weights`] and returns the code of its result ([`code_of`]).
#[unsafe(no_mangle)]
pub extern "C" fn constriction_range_encode_shorts_u32(
    alloc: Global,
    encoder: &mut RangeEncoderU32,
    words: &mut [u32],
    len: &mut usize,
    weights: &[u32],
    symbols: &[u16],
    needed: &mut usize,
) -> u32
    ensures { RangeEncodesU32 result needed.old needed.new (by_weights (map (lowest 32) weights.now) symbols.now)
        (length symbols.now) encoder.old words.old len.old encoder.new words.new len.new }
{
    let mut parts = encoder.parts();
    let answer = encode_by_weights::<_, _, u32, _, 24>(
        alloc, &mut parts, words, len, weights, symbols,
    );
    *encoder = RangeEncoderU32::of(parts);
    code_of(answer, needed)
}

/// Decodes symbols of type `u16` into `symbols`, in order, with one table of weights for all symbols.
///
/// Calls [`decode_narrow`] and returns the code of its result ([`code_of`]).
#[unsafe(no_mangle)]
pub extern "C" fn constriction_range_decode_shorts_u32(
    alloc: Global,
    decoder: &mut RangeDecoderU32,
    words: &[u32],
    weights: &[u32],
    symbols: &mut [u16],
) -> u32
    ensures { RangeDecodesU32 result (narrow_from_u32 16 weights.now) words.now decoder.old decoder.new symbols.old
        symbols.new }
{
    let mut parts = decoder.parts();
    let answer = decode_narrow::<_, _, u32, u16, 24>(alloc, &mut parts, words, weights, symbols);
    *decoder = RangeDecoderU32::of(parts);
    code_without_space(answer)
}

/// Writes the encoder's pending words, and a self-delimiting seal, after the first `len` words of `words`.
///
/// A state is two words wide, so this function writes the same words as `constriction_range_into_compressed_u32`.
///
/// Calls [`into_self_delimited`] and returns the code of its result ([`code_of`]).
#[unsafe(no_mangle)]
pub extern "C" fn constriction_range_into_self_delimited_u32(
    alloc: Global,
    encoder: &RangeEncoderU32,
    words: &mut [u32],
    len: &mut usize,
    needed: &mut usize,
) -> u32
    ensures { RangeEndsU32 result needed.old needed.new (RangeSeals (lowest 32) (lowest 64) 32 64 (IsSelfSealed 32 64))
        encoder.now words.old len.old words.new len.new }
{
    let answer = into_self_delimited(alloc, &encoder.parts(), words, len);
    code_of(answer, needed)
}
