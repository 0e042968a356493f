// Written by tools/sizes from u32_kinds.rt.
//! More C functions of the range coder: other models, symbols of 8 and 16 bits, and self-delimiting words.

ghost use Rattle.constriction_c.specs.U16.{RangeDecodesU16, RangeEncodesU16, RangeEndsU16, intervals_from_u16};
ghost use Rattle.constriction_c.specs.U16.{narrow_from_u16};
ghost use Rattle.constriction_c.specs.Words.{lowest};
ghost use Rattle.constriction_calls.specs.RangeCalls.{IsSelfSealed, RangeSeals};
ghost use Rattle.constriction_inputs.specs.Counts.{by_counts};
ghost use Rattle.constriction_inputs.specs.Indexed.{by_indexes};
ghost use Rattle.constriction_inputs.specs.Mixtures.{in_mixture};
ghost use Rattle.constriction_inputs.specs.Quantized.{in_family};
ghost use Rattle.constriction_inputs.specs.Rows.{by_rows};
ghost use Rattle.constriction_inputs.specs.Weights.{by_weights};
ghost use Rattle.std.specs.Prelude.{length, map};

use crate::codes::{code_of, code_without_space};
use crate::range::by_weights::{decode_narrow, encode_by_weights};
use crate::range::u16::{RangeDecoderU16, RangeEncoderU16};
use constriction_calls::range::decoding::decode;
use constriction_calls::range::encoding::encode;
use constriction_calls::range::words::into_self_delimited;
use constriction_inputs::intervals::Intervals;
use constriction_inputs::models::{Counts, Families, Indexed, Mixtures, Rows};
use constriction_inputs::symbols::Symbols;
use std::alloc::Global;

/// Encodes symbols in order, with a row of `width` weights for each symbol.
///
/// Calls [`encode`] and returns the code of its result ([`code_of`]).
#[unsafe(no_mangle)]
pub extern "C" fn constriction_range_encode_each_u16(
    alloc: Global,
    encoder: &mut RangeEncoderU16,
    words: &mut [u16],
    len: &mut usize,
    weights: &[u16],
    width: usize,
    symbols: &[usize],
    needed: &mut usize,
) -> u32
    ensures { RangeEncodesU16 result needed.old needed.new (by_rows width (map (lowest 16) weights.now) symbols.now)
        (length symbols.now) encoder.old words.old len.old encoder.new words.new len.new }
{
    let models = Rows { weights, width };
    let items = Symbols { models, symbols };
    let mut parts = encoder.parts();
    let answer = encode::<_, _, u16, _, 12>(alloc, &mut parts, words, len, &items);
    *encoder = RangeEncoderU16::of(parts);
    code_of(answer, needed)
}

/// Decodes symbols into `symbols`, in order, with a row of `width` weights for each symbol.
///
/// Calls [`decode`] and returns the code of its result ([`code_of`]).
#[unsafe(no_mangle)]
pub extern "C" fn constriction_range_decode_each_u16(
    alloc: Global,
    decoder: &mut RangeDecoderU16,
    words: &[u16],
    weights: &[u16],
    width: usize,
    symbols: &mut [usize],
) -> u32
    ensures { RangeDecodesU16 result (by_rows width (map (lowest 16) weights.now)) words.now decoder.old decoder.new
        symbols.old symbols.new }
{
    let models = Rows { weights, width };
    let mut parts = decoder.parts();
    let answer = decode::<_, _, u16, _, 12>(alloc, &mut parts, words, &models, symbols);
    *decoder = RangeDecoderU16::of(parts);
    code_without_space(answer)
}

/// Encodes symbols in order, with a row of `width` counts for each symbol ([`Counts`]).
///
/// Calls [`encode`] and returns the code of its result ([`code_of`]).
#[unsafe(no_mangle)]
pub extern "C" fn constriction_range_encode_counts_u16(
    alloc: Global,
    encoder: &mut RangeEncoderU16,
    words: &mut [u16],
    len: &mut usize,
    counts: &[u32],
    width: usize,
    symbols: &[usize],
    needed: &mut usize,
) -> u32
    ensures { RangeEncodesU16 result needed.old needed.new (by_counts 16 width counts.now symbols.now)
        (length symbols.now) encoder.old words.old len.old encoder.new words.new len.new }
{
    let models = Counts { counts, width };
    let items = Symbols { models, symbols };
    let mut parts = encoder.parts();
    let answer = encode::<_, _, u16, _, 12>(alloc, &mut parts, words, len, &items);
    *encoder = RangeEncoderU16::of(parts);
    code_of(answer, needed)
}

/// Decodes symbols into `symbols`, in order, with a row of `width` counts for each symbol ([`Counts`]).
///
/// Calls [`decode`] and returns the code of its result ([`code_of`]).
#[unsafe(no_mangle)]
pub extern "C" fn constriction_range_decode_counts_u16(
    alloc: Global,
    decoder: &mut RangeDecoderU16,
    words: &[u16],
    counts: &[u32],
    width: usize,
    symbols: &mut [usize],
) -> u32
    ensures { RangeDecodesU16 result (by_counts 16 width counts.now) words.now decoder.old decoder.new symbols.old
        symbols.new }
{
    let models = Counts { counts, width };
    let mut parts = decoder.parts();
    let answer = decode::<_, _, u16, _, 12>(alloc, &mut parts, words, &models, symbols);
    *decoder = RangeDecoderU16::of(parts);
    code_without_space(answer)
}

/// Encodes intervals in order. Interval `i` begins at quantile `lefts[i]` and has length `ps[i]`.
///
/// Calls [`encode`] and returns the code of its result ([`code_of`]).
#[unsafe(no_mangle)]
pub extern "C" fn constriction_range_encode_intervals_u16(
    alloc: Global,
    encoder: &mut RangeEncoderU16,
    words: &mut [u16],
    len: &mut usize,
    lefts: &[u16],
    ps: &[u16],
    needed: &mut usize,
) -> u32
    ensures { RangeEncodesU16 result needed.old needed.new (intervals_from_u16 lefts.now (map (lowest 16) ps.now))
        (length ps.now) encoder.old words.old len.old encoder.new words.new len.new }
{
    let items = Intervals { lefts, ps };
    let mut parts = encoder.parts();
    let answer = encode::<_, _, u16, _, 12>(alloc, &mut parts, words, len, &items);
    *encoder = RangeEncoderU16::of(parts);
    code_of(answer, needed)
}

/// Encodes symbols in order, each with the model of its own location and scale ([`Families`]).
///
/// Calls [`encode`] and returns the code of its result ([`code_of`]).
#[unsafe(no_mangle)]
pub extern "C" fn constriction_range_encode_quantized_u16(
    alloc: Global,
    encoder: &mut RangeEncoderU16,
    words: &mut [u16],
    len: &mut usize,
    family: u32,
    min: i32,
    max: i32,
    locations: &[i64],
    scales: &[u32],
    symbols: &[usize],
    needed: &mut usize,
) -> u32
    ensures { RangeEncodesU16 result needed.old needed.new
        (in_family family min max locations.now scales.now symbols.now) (length symbols.now) encoder.old words.old
        len.old encoder.new words.new len.new }
{
    let models = Families::new(family, min, max, locations, scales);
    let items = Symbols { models, symbols };
    let mut parts = encoder.parts();
    let answer = encode::<_, _, u16, _, 12>(alloc, &mut parts, words, len, &items);
    *encoder = RangeEncoderU16::of(parts);
    code_of(answer, needed)
}

/// Decodes symbols into `symbols`, in order, each with the model of its own location and scale ([`Families`]).
///
/// Calls [`decode`] and returns the code of its result ([`code_of`]).
#[unsafe(no_mangle)]
pub extern "C" fn constriction_range_decode_quantized_u16(
    alloc: Global,
    decoder: &mut RangeDecoderU16,
    words: &[u16],
    family: u32,
    min: i32,
    max: i32,
    locations: &[i64],
    scales: &[u32],
    symbols: &mut [usize],
) -> u32
    ensures { RangeDecodesU16 result (in_family family min max locations.now scales.now) words.now decoder.old
        decoder.new symbols.old symbols.new }
{
    let models = Families::new(family, min, max, locations, scales);
    let mut parts = decoder.parts();
    let answer = decode::<_, _, u16, _, 12>(alloc, &mut parts, words, &models, symbols);
    *decoder = RangeDecoderU16::of(parts);
    code_without_space(answer)
}

/// Encodes symbols in order, each with its own mixture of a family's distributions ([`Mixtures`]).
///
/// Calls [`encode`] and returns the code of its result ([`code_of`]).
#[unsafe(no_mangle)]
pub extern "C" fn constriction_range_encode_mixture_u16(
    alloc: Global,
    encoder: &mut RangeEncoderU16,
    words: &mut [u16],
    len: &mut usize,
    family: u32,
    min: i32,
    max: i32,
    width: usize,
    component_weights: &[u32],
    locations: &[i64],
    scales: &[u32],
    symbols: &[usize],
    needed: &mut usize,
) -> u32
    ensures { RangeEncodesU16 result needed.old needed.new
        (in_mixture family min max width component_weights.now locations.now scales.now symbols.now)
        (length symbols.now) encoder.old words.old len.old encoder.new words.new len.new }
{
    let components = Families::new(family, min, max, locations, scales);
    let models = Mixtures::new(components, component_weights, width);
    let items = Symbols { models, symbols };
    let mut parts = encoder.parts();
    let answer = encode::<_, _, u16, _, 12>(alloc, &mut parts, words, len, &items);
    *encoder = RangeEncoderU16::of(parts);
    code_of(answer, needed)
}

/// Decodes symbols into `symbols`, in order, each with its own mixture of a family's distributions ([`Mixtures`]).
///
/// Calls [`decode`] and returns the code of its result ([`code_of`]).
#[unsafe(no_mangle)]
pub extern "C" fn constriction_range_decode_mixture_u16(
    alloc: Global,
    decoder: &mut RangeDecoderU16,
    words: &[u16],
    family: u32,
    min: i32,
    max: i32,
    width: usize,
    component_weights: &[u32],
    locations: &[i64],
    scales: &[u32],
    symbols: &mut [usize],
) -> u32
    ensures { RangeDecodesU16 result (in_mixture family min max width component_weights.now locations.now scales.now)
        words.now decoder.old decoder.new symbols.old symbols.new }
{
    let components = Families::new(family, min, max, locations, scales);
    let models = Mixtures::new(components, component_weights, width);
    let mut parts = decoder.parts();
    let answer = decode::<_, _, u16, _, 12>(alloc, &mut parts, words, &models, symbols);
    *decoder = RangeDecoderU16::of(parts);
    code_without_space(answer)
}

/// Encodes symbols in order, with the table of `width` weights at each symbol's index ([`Indexed`]).
///
/// Calls [`encode`] and returns the code of its result ([`code_of`]).
#[unsafe(no_mangle)]
pub extern "C" fn constriction_range_encode_indexed_u16(
    alloc: Global,
    encoder: &mut RangeEncoderU16,
    words: &mut [u16],
    len: &mut usize,
    weights: &[u16],
    width: usize,
    indexes: &[usize],
    symbols: &[usize],
    needed: &mut usize,
) -> u32
    ensures { RangeEncodesU16 result needed.old needed.new
        (by_indexes width (map (lowest 16) weights.now) indexes.now symbols.now) (length symbols.now) encoder.old
        words.old len.old encoder.new words.new len.new }
{
    let models = Indexed {
        weights,
        width,
        indexes,
    };
    let items = Symbols { models, symbols };
    let mut parts = encoder.parts();
    let answer = encode::<_, _, u16, _, 12>(alloc, &mut parts, words, len, &items);
    *encoder = RangeEncoderU16::of(parts);
    code_of(answer, needed)
}

/// Decodes symbols into `symbols`, in order, with the table of `width` weights at each symbol's index ([`Indexed`]).
///
/// Calls [`decode`] and returns the code of its result ([`code_of`]).
#[unsafe(no_mangle)]
pub extern "C" fn constriction_range_decode_indexed_u16(
    alloc: Global,
    decoder: &mut RangeDecoderU16,
    words: &[u16],
    weights: &[u16],
    width: usize,
    indexes: &[usize],
    symbols: &mut [usize],
) -> u32
    ensures { RangeDecodesU16 result (by_indexes width (map (lowest 16) weights.now) indexes.now) words.now decoder.old
        decoder.new symbols.old symbols.new }
{
    let models = Indexed {
        weights,
        width,
        indexes,
    };
    let mut parts = decoder.parts();
    let answer = decode::<_, _, u16, _, 12>(alloc, &mut parts, words, &models, symbols);
    *decoder = RangeDecoderU16::of(parts);
    code_without_space(answer)
}

/// Encodes symbols of type `u8` in order, with one table of weights for all symbols.
///
/// Calls [`encode_by_weights`] and returns the code of its result ([`code_of`]).
#[unsafe(no_mangle)]
pub extern "C" fn constriction_range_encode_bytes_u16(
    alloc: Global,
    encoder: &mut RangeEncoderU16,
    words: &mut [u16],
    len: &mut usize,
    weights: &[u16],
    symbols: &[u8],
    needed: &mut usize,
) -> u32
    ensures { RangeEncodesU16 result needed.old needed.new (by_weights (map (lowest 16) weights.now) symbols.now)
        (length symbols.now) encoder.old words.old len.old encoder.new words.new len.new }
{
    let mut parts = encoder.parts();
    let answer = encode_by_weights::<_, _, u16, _, 12>(
        alloc, &mut parts, words, len, weights, symbols,
    );
    *encoder = RangeEncoderU16::of(parts);
    code_of(answer, needed)
}

/// Decodes symbols of type `u8` into `symbols`, in order, with one table of weights for all symbols.
///
/// Calls [`decode_narrow`] and returns the code of its result ([`code_of`]).
#[unsafe(no_mangle)]
pub extern "C" fn constriction_range_decode_bytes_u16(
    alloc: Global,
    decoder: &mut RangeDecoderU16,
    words: &[u16],
    weights: &[u16],
    symbols: &mut [u8],
) -> u32
    ensures { RangeDecodesU16 result (narrow_from_u16 8 weights.now) words.now decoder.old decoder.new symbols.old
        symbols.new }
{
    let mut parts = decoder.parts();
    let answer = decode_narrow::<_, _, u16, u8, 12>(alloc, &mut parts, words, weights, symbols);
    *decoder = RangeDecoderU16::of(parts);
    code_without_space(answer)
}

/// Encodes symbols of type `u16` in order, with one table of weights for all symbols.
///
/// Calls [`encode_by_weights`] and returns the code of its result ([`code_of`]).
#[unsafe(no_mangle)]
pub extern "C" fn constriction_range_encode_shorts_u16(
    alloc: Global,
    encoder: &mut RangeEncoderU16,
    words: &mut [u16],
    len: &mut usize,
    weights: &[u16],
    symbols: &[u16],
    needed: &mut usize,
) -> u32
    ensures { RangeEncodesU16 result needed.old needed.new (by_weights (map (lowest 16) weights.now) symbols.now)
        (length symbols.now) encoder.old words.old len.old encoder.new words.new len.new }
{
    let mut parts = encoder.parts();
    let answer = encode_by_weights::<_, _, u16, _, 12>(
        alloc, &mut parts, words, len, weights, symbols,
    );
    *encoder = RangeEncoderU16::of(parts);
    code_of(answer, needed)
}

/// Decodes symbols of type `u16` into `symbols`, in order, with one table of weights for all symbols.
///
/// Calls [`decode_narrow`] and returns the code of its result ([`code_of`]).
#[unsafe(no_mangle)]
pub extern "C" fn constriction_range_decode_shorts_u16(
    alloc: Global,
    decoder: &mut RangeDecoderU16,
    words: &[u16],
    weights: &[u16],
    symbols: &mut [u16],
) -> u32
    ensures { RangeDecodesU16 result (narrow_from_u16 16 weights.now) words.now decoder.old decoder.new symbols.old
        symbols.new }
{
    let mut parts = decoder.parts();
    let answer = decode_narrow::<_, _, u16, u16, 12>(alloc, &mut parts, words, weights, symbols);
    *decoder = RangeDecoderU16::of(parts);
    code_without_space(answer)
}

/// Writes the encoder's pending words, and a self-delimiting seal, after the first `len` words of `words`.
///
/// A state is two words wide, so this function writes the same words as `constriction_range_into_compressed_u16`.
///
/// Calls [`into_self_delimited`] and returns the code of its result ([`code_of`]).
#[unsafe(no_mangle)]
pub extern "C" fn constriction_range_into_self_delimited_u16(
    alloc: Global,
    encoder: &RangeEncoderU16,
    words: &mut [u16],
    len: &mut usize,
    needed: &mut usize,
) -> u32
    ensures { RangeEndsU16 result needed.old needed.new (RangeSeals (lowest 16) (lowest 32) 16 32 (IsSelfSealed 16 32))
        encoder.now words.old len.old words.new len.new }
{
    let answer = into_self_delimited(alloc, &encoder.parts(), words, len);
    code_of(answer, needed)
}
