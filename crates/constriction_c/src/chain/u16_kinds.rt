// Written by tools/sizes from u32_kinds.rt.
//! More C functions of the chain coder: other models, symbols of 8 and 16 bits, binary form, and words of remainders.

ghost use Rattle.constriction_c.specs.U16.{ChainBeginsU16, ChainDecodesU16, ChainEncodesU16, ChainEndsU16, chain_u16};
ghost use Rattle.constriction_c.specs.U16.{intervals_from_u16, narrow_from_u16};
ghost use Rattle.constriction_c.specs.Words.{lowest};
ghost use Rattle.constriction_calls.specs.declared.chain.Form.TheVariants.{InBinary, InRemainders};
ghost use Rattle.constriction_inputs.specs.Counts.{by_counts};
ghost use Rattle.constriction_inputs.specs.Indexed.{by_indexes};
ghost use Rattle.constriction_inputs.specs.Mixtures.{in_mixture};
ghost use Rattle.constriction_inputs.specs.Quantized.{in_family};
ghost use Rattle.constriction_inputs.specs.Rows.{by_rows};
ghost use Rattle.constriction_inputs.specs.Weights.{by_weights};
ghost use Rattle.std.specs.Prelude.{map};

use crate::chain::by_weights::{decode_narrow, encode_reverse_by_weights};
use crate::chain::u16::ChainHeadsU16;
use crate::codes::{code_of, code_without_space};
use constriction_calls::chain::{Form, decode, encode_reverse, from_words, into_words};
use constriction_inputs::intervals::Intervals;
use constriction_inputs::models::{Counts, Families, Indexed, Mixtures, Rows};
use constriction_inputs::symbols::Symbols;
use std::alloc::Global;

/// Decodes symbols into `symbols`, with a row of `width` weights for each symbol.
///
/// Calls [`decode`] and returns the code of its result ([`code_of`]).
#[unsafe(no_mangle)]
pub extern "C" fn constriction_chain_decode_each_u16(
    alloc: Global,
    heads: &mut ChainHeadsU16,
    compressed: &[u16],
    count: &mut usize,
    remainders: &mut [u16],
    rest: &mut usize,
    weights: &[u16],
    width: usize,
    symbols: &mut [usize],
    needed: &mut usize,
) -> u32
    ensures { ChainDecodesU16 result needed.old needed.new (by_rows width (map (lowest 16) weights.now))
        (chain_u16 heads.old compressed.now count.old remainders.old rest.old)
        (chain_u16 heads.new compressed.now count.new remainders.new rest.new) symbols.old symbols.new }
{
    let models = Rows { weights, width };
    let mut both = heads.parts();
    let answer = decode::<_, _, u16, _, 12>(
        alloc, &mut both, compressed, count, remainders, rest, &models, symbols,
    );
    *heads = ChainHeadsU16::of(both);
    code_of(answer, needed)
}

/// Encodes symbols from the last to the first, with a row of `width` weights for each symbol.
///
/// Calls [`encode_reverse`] and returns the code of its result ([`code_of`]).
#[unsafe(no_mangle)]
pub extern "C" fn constriction_chain_encode_each_reverse_u16(
    alloc: Global,
    heads: &mut ChainHeadsU16,
    compressed: &mut [u16],
    count: &mut usize,
    remainders: &[u16],
    rest: &mut usize,
    weights: &[u16],
    width: usize,
    symbols: &[usize],
    needed: &mut usize,
) -> u32
    ensures { ChainEncodesU16 result needed.old needed.new (by_rows width (map (lowest 16) weights.now) symbols.now)
        (chain_u16 heads.old compressed.old count.old remainders.now rest.old)
        (chain_u16 heads.new compressed.new count.new remainders.now rest.new) }
{
    let models = Rows { weights, width };
    let items = Symbols { models, symbols };
    let mut both = heads.parts();
    let answer = encode_reverse::<_, _, u16, _, 12>(
        alloc, &mut both, compressed, count, remainders, rest, &items,
    );
    *heads = ChainHeadsU16::of(both);
    code_of(answer, needed)
}

/// Decodes symbols into `symbols`, with a row of `width` counts for each symbol ([`Counts`]).
///
/// Calls [`decode`] and returns the code of its result ([`code_of`]).
#[unsafe(no_mangle)]
pub extern "C" fn constriction_chain_decode_counts_u16(
    alloc: Global,
    heads: &mut ChainHeadsU16,
    compressed: &[u16],
    count: &mut usize,
    remainders: &mut [u16],
    rest: &mut usize,
    counts: &[u32],
    width: usize,
    symbols: &mut [usize],
    needed: &mut usize,
) -> u32
    ensures { ChainDecodesU16 result needed.old needed.new (by_counts 16 width counts.now)
        (chain_u16 heads.old compressed.now count.old remainders.old rest.old)
        (chain_u16 heads.new compressed.now count.new remainders.new rest.new) symbols.old symbols.new }
{
    let models = Counts { counts, width };
    let mut both = heads.parts();
    let answer = decode::<_, _, u16, _, 12>(
        alloc, &mut both, compressed, count, remainders, rest, &models, symbols,
    );
    *heads = ChainHeadsU16::of(both);
    code_of(answer, needed)
}

/// Encodes symbols from the last to the first, with a row of `width` counts for each symbol ([`Counts`]).
///
/// Calls [`encode_reverse`] and returns the code of its result ([`code_of`]).
#[unsafe(no_mangle)]
pub extern "C" fn constriction_chain_encode_counts_reverse_u16(
    alloc: Global,
    heads: &mut ChainHeadsU16,
    compressed: &mut [u16],
    count: &mut usize,
    remainders: &[u16],
    rest: &mut usize,
    counts: &[u32],
    width: usize,
    symbols: &[usize],
    needed: &mut usize,
) -> u32
    ensures { ChainEncodesU16 result needed.old needed.new (by_counts 16 width counts.now symbols.now)
        (chain_u16 heads.old compressed.old count.old remainders.now rest.old)
        (chain_u16 heads.new compressed.new count.new remainders.now rest.new) }
{
    let models = Counts { counts, width };
    let items = Symbols { models, symbols };
    let mut both = heads.parts();
    let answer = encode_reverse::<_, _, u16, _, 12>(
        alloc, &mut both, compressed, count, remainders, rest, &items,
    );
    *heads = ChainHeadsU16::of(both);
    code_of(answer, needed)
}

/// Encodes intervals from the last to the first. Interval `i` begins at quantile `lefts[i]` and has length `ps[i]`.
///
/// Calls [`encode_reverse`] and returns the code of its result ([`code_of`]).
#[unsafe(no_mangle)]
pub extern "C" fn constriction_chain_encode_intervals_reverse_u16(
    alloc: Global,
    heads: &mut ChainHeadsU16,
    compressed: &mut [u16],
    count: &mut usize,
    remainders: &[u16],
    rest: &mut usize,
    lefts: &[u16],
    ps: &[u16],
    needed: &mut usize,
) -> u32
    ensures { ChainEncodesU16 result needed.old needed.new (intervals_from_u16 lefts.now (map (lowest 16) ps.now))
        (chain_u16 heads.old compressed.old count.old remainders.now rest.old)
        (chain_u16 heads.new compressed.new count.new remainders.now rest.new) }
{
    let items = Intervals { lefts, ps };
    let mut both = heads.parts();
    let answer = encode_reverse::<_, _, u16, _, 12>(
        alloc, &mut both, compressed, count, remainders, rest, &items,
    );
    *heads = ChainHeadsU16::of(both);
    code_of(answer, needed)
}

/// Decodes symbols into `symbols`, each with the model of its own location and scale ([`Families`]).
///
/// Calls [`decode`] and returns the code of its result ([`code_of`]).
#[unsafe(no_mangle)]
pub extern "C" fn constriction_chain_decode_quantized_u16(
    alloc: Global,
    heads: &mut ChainHeadsU16,
    compressed: &[u16],
    count: &mut usize,
    remainders: &mut [u16],
    rest: &mut usize,
    family: u32,
    min: i32,
    max: i32,
    locations: &[i64],
    scales: &[u32],
    symbols: &mut [usize],
    needed: &mut usize,
) -> u32
    ensures { ChainDecodesU16 result needed.old needed.new (in_family family min max locations.now scales.now)
        (chain_u16 heads.old compressed.now count.old remainders.old rest.old)
        (chain_u16 heads.new compressed.now count.new remainders.new rest.new) symbols.old symbols.new }
{
    let models = Families::new(family, min, max, locations, scales);
    let mut both = heads.parts();
    let answer = decode::<_, _, u16, _, 12>(
        alloc, &mut both, compressed, count, remainders, rest, &models, symbols,
    );
    *heads = ChainHeadsU16::of(both);
    code_of(answer, needed)
}

/// Encodes symbols from the last to the first, each with the model of its own location and scale ([`Families`]).
///
/// Calls [`encode_reverse`] and returns the code of its result ([`code_of`]).
#[unsafe(no_mangle)]
pub extern "C" fn constriction_chain_encode_quantized_reverse_u16(
    alloc: Global,
    heads: &mut ChainHeadsU16,
    compressed: &mut [u16],
    count: &mut usize,
    remainders: &[u16],
    rest: &mut usize,
    family: u32,
    min: i32,
    max: i32,
    locations: &[i64],
    scales: &[u32],
    symbols: &[usize],
    needed: &mut usize,
) -> u32
    ensures { ChainEncodesU16 result needed.old needed.new
        (in_family family min max locations.now scales.now symbols.now)
        (chain_u16 heads.old compressed.old count.old remainders.now rest.old)
        (chain_u16 heads.new compressed.new count.new remainders.now rest.new) }
{
    let models = Families::new(family, min, max, locations, scales);
    let items = Symbols { models, symbols };
    let mut both = heads.parts();
    let answer = encode_reverse::<_, _, u16, _, 12>(
        alloc, &mut both, compressed, count, remainders, rest, &items,
    );
    *heads = ChainHeadsU16::of(both);
    code_of(answer, needed)
}

/// Decodes symbols into `symbols`, each with its own mixture of a family's distributions ([`Mixtures`]).
///
/// Calls [`decode`] and returns the code of its result ([`code_of`]).
#[unsafe(no_mangle)]
pub extern "C" fn constriction_chain_decode_mixture_u16(
    alloc: Global,
    heads: &mut ChainHeadsU16,
    compressed: &[u16],
    count: &mut usize,
    remainders: &mut [u16],
    rest: &mut usize,
    family: u32,
    min: i32,
    max: i32,
    width: usize,
    component_weights: &[u32],
    locations: &[i64],
    scales: &[u32],
    symbols: &mut [usize],
    needed: &mut usize,
) -> u32
    ensures { ChainDecodesU16 result needed.old needed.new
        (in_mixture family min max width component_weights.now locations.now scales.now)
        (chain_u16 heads.old compressed.now count.old remainders.old rest.old)
        (chain_u16 heads.new compressed.now count.new remainders.new rest.new) symbols.old symbols.new }
{
    let components = Families::new(family, min, max, locations, scales);
    let models = Mixtures::new(components, component_weights, width);
    let mut both = heads.parts();
    let answer = decode::<_, _, u16, _, 12>(
        alloc, &mut both, compressed, count, remainders, rest, &models, symbols,
    );
    *heads = ChainHeadsU16::of(both);
    code_of(answer, needed)
}

/// Encodes symbols from the last to the first, each with its own mixture of a family's distributions ([`Mixtures`]).
///
/// Calls [`encode_reverse`] and returns the code of its result ([`code_of`]).
#[unsafe(no_mangle)]
pub extern "C" fn constriction_chain_encode_mixture_reverse_u16(
    alloc: Global,
    heads: &mut ChainHeadsU16,
    compressed: &mut [u16],
    count: &mut usize,
    remainders: &[u16],
    rest: &mut usize,
    family: u32,
    min: i32,
    max: i32,
    width: usize,
    component_weights: &[u32],
    locations: &[i64],
    scales: &[u32],
    symbols: &[usize],
    needed: &mut usize,
) -> u32
    ensures { ChainEncodesU16 result needed.old needed.new
        (in_mixture family min max width component_weights.now locations.now scales.now symbols.now)
        (chain_u16 heads.old compressed.old count.old remainders.now rest.old)
        (chain_u16 heads.new compressed.new count.new remainders.now rest.new) }
{
    let components = Families::new(family, min, max, locations, scales);
    let models = Mixtures::new(components, component_weights, width);
    let items = Symbols { models, symbols };
    let mut both = heads.parts();
    let answer = encode_reverse::<_, _, u16, _, 12>(
        alloc, &mut both, compressed, count, remainders, rest, &items,
    );
    *heads = ChainHeadsU16::of(both);
    code_of(answer, needed)
}

/// Decodes symbols into `symbols`, with the table of `width` weights at each symbol's index ([`Indexed`]).
///
/// Calls [`decode`] and returns the code of its result ([`code_of`]).
#[unsafe(no_mangle)]
pub extern "C" fn constriction_chain_decode_indexed_u16(
    alloc: Global,
    heads: &mut ChainHeadsU16,
    compressed: &[u16],
    count: &mut usize,
    remainders: &mut [u16],
    rest: &mut usize,
    weights: &[u16],
    width: usize,
    indexes: &[usize],
    symbols: &mut [usize],
    needed: &mut usize,
) -> u32
    ensures { ChainDecodesU16 result needed.old needed.new (by_indexes width (map (lowest 16) weights.now) indexes.now)
        (chain_u16 heads.old compressed.now count.old remainders.old rest.old)
        (chain_u16 heads.new compressed.now count.new remainders.new rest.new) symbols.old symbols.new }
{
    let models = Indexed {
        weights,
        width,
        indexes,
    };
    let mut both = heads.parts();
    let answer = decode::<_, _, u16, _, 12>(
        alloc, &mut both, compressed, count, remainders, rest, &models, symbols,
    );
    *heads = ChainHeadsU16::of(both);
    code_of(answer, needed)
}

/// Encodes symbols from the last to the first, with the table of `width` weights at each symbol's index ([`Indexed`]).
///
/// Calls [`encode_reverse`] and returns the code of its result ([`code_of`]).
#[unsafe(no_mangle)]
pub extern "C" fn constriction_chain_encode_indexed_reverse_u16(
    alloc: Global,
    heads: &mut ChainHeadsU16,
    compressed: &mut [u16],
    count: &mut usize,
    remainders: &[u16],
    rest: &mut usize,
    weights: &[u16],
    width: usize,
    indexes: &[usize],
    symbols: &[usize],
    needed: &mut usize,
) -> u32
    ensures { ChainEncodesU16 result needed.old needed.new
        (by_indexes width (map (lowest 16) weights.now) indexes.now symbols.now)
        (chain_u16 heads.old compressed.old count.old remainders.now rest.old)
        (chain_u16 heads.new compressed.new count.new remainders.now rest.new) }
{
    let models = Indexed {
        weights,
        width,
        indexes,
    };
    let items = Symbols { models, symbols };
    let mut both = heads.parts();
    let answer = encode_reverse::<_, _, u16, _, 12>(
        alloc, &mut both, compressed, count, remainders, rest, &items,
    );
    *heads = ChainHeadsU16::of(both);
    code_of(answer, needed)
}

/// Decodes symbols of type `u8` into `symbols`, with one table of weights for all symbols.
///
/// Calls [`decode_narrow`] and returns the code of its result ([`code_of`]).
#[unsafe(no_mangle)]
pub extern "C" fn constriction_chain_decode_bytes_u16(
    alloc: Global,
    heads: &mut ChainHeadsU16,
    compressed: &[u16],
    count: &mut usize,
    remainders: &mut [u16],
    rest: &mut usize,
    weights: &[u16],
    symbols: &mut [u8],
    needed: &mut usize,
) -> u32
    ensures { ChainDecodesU16 result needed.old needed.new (narrow_from_u16 8 weights.now)
        (chain_u16 heads.old compressed.now count.old remainders.old rest.old)
        (chain_u16 heads.new compressed.now count.new remainders.new rest.new) symbols.old symbols.new }
{
    let mut both = heads.parts();
    let answer = decode_narrow::<_, _, u16, u8, 12>(
        alloc, &mut both, compressed, count, remainders, rest, weights, symbols,
    );
    *heads = ChainHeadsU16::of(both);
    code_of(answer, needed)
}

/// Encodes symbols of type `u8` from the last to the first, with one table of weights for all symbols.
///
/// Calls [`encode_reverse_by_weights`] and returns the code of its result ([`code_of`]).
#[unsafe(no_mangle)]
pub extern "C" fn constriction_chain_encode_bytes_reverse_u16(
    alloc: Global,
    heads: &mut ChainHeadsU16,
    compressed: &mut [u16],
    count: &mut usize,
    remainders: &[u16],
    rest: &mut usize,
    weights: &[u16],
    symbols: &[u8],
    needed: &mut usize,
) -> u32
    ensures { ChainEncodesU16 result needed.old needed.new (by_weights (map (lowest 16) weights.now) symbols.now)
        (chain_u16 heads.old compressed.old count.old remainders.now rest.old)
        (chain_u16 heads.new compressed.new count.new remainders.now rest.new) }
{
    let mut both = heads.parts();
    let answer = encode_reverse_by_weights::<_, _, u16, _, 12>(
        alloc, &mut both, compressed, count, remainders, rest, weights, symbols,
    );
    *heads = ChainHeadsU16::of(both);
    code_of(answer, needed)
}

/// Decodes symbols of type `u16` into `symbols`, with one table of weights for all symbols.
///
/// Calls [`decode_narrow`] and returns the code of its result ([`code_of`]).
#[unsafe(no_mangle)]
pub extern "C" fn constriction_chain_decode_shorts_u16(
    alloc: Global,
    heads: &mut ChainHeadsU16,
    compressed: &[u16],
    count: &mut usize,
    remainders: &mut [u16],
    rest: &mut usize,
    weights: &[u16],
    symbols: &mut [u16],
    needed: &mut usize,
) -> u32
    ensures { ChainDecodesU16 result needed.old needed.new (narrow_from_u16 16 weights.now)
        (chain_u16 heads.old compressed.now count.old remainders.old rest.old)
        (chain_u16 heads.new compressed.now count.new remainders.new rest.new) symbols.old symbols.new }
{
    let mut both = heads.parts();
    let answer = decode_narrow::<_, _, u16, u16, 12>(
        alloc, &mut both, compressed, count, remainders, rest, weights, symbols,
    );
    *heads = ChainHeadsU16::of(both);
    code_of(answer, needed)
}

/// Encodes symbols of type `u16` from the last to the first, with one table of weights for all symbols.
///
/// Calls [`encode_reverse_by_weights`] and returns the code of its result ([`code_of`]).
#[unsafe(no_mangle)]
pub extern "C" fn constriction_chain_encode_shorts_reverse_u16(
    alloc: Global,
    heads: &mut ChainHeadsU16,
    compressed: &mut [u16],
    count: &mut usize,
    remainders: &[u16],
    rest: &mut usize,
    weights: &[u16],
    symbols: &[u16],
    needed: &mut usize,
) -> u32
    ensures { ChainEncodesU16 result needed.old needed.new (by_weights (map (lowest 16) weights.now) symbols.now)
        (chain_u16 heads.old compressed.old count.old remainders.now rest.old)
        (chain_u16 heads.new compressed.new count.new remainders.now rest.new) }
{
    let mut both = heads.parts();
    let answer = encode_reverse_by_weights::<_, _, u16, _, 12>(
        alloc, &mut both, compressed, count, remainders, rest, weights, symbols,
    );
    *heads = ChainHeadsU16::of(both);
    code_of(answer, needed)
}

/// Imports a coder from compressed words in binary form. The coder has no words of remainders below its heads.
///
/// Sets `heads`, and sets `count` to the number of words that stay in `words`, below the heads.
///
/// Calls [`from_words`] and returns the code of its result ([`code_of`]).
#[unsafe(no_mangle)]
pub extern "C" fn constriction_chain_from_binary_u16(
    alloc: Global,
    words: &[u16],
    count: &mut usize,
    heads: &mut ChainHeadsU16,
) -> u32
    ensures { ChainBeginsU16 result InBinary words.now heads.old count.old heads.new count.new }
{
    let mut both = heads.parts();
    let answer = from_words::<_, _, 12>(alloc, Form::InBinary, words, &mut both, count);
    *heads = ChainHeadsU16::of(both);
    code_without_space(answer)
}

/// Exports the binary form: appends the remainders head's bits below its leading 1 to the compressed words.
///
/// Calls [`into_words`] and returns the code of its result ([`code_of`]).
#[unsafe(no_mangle)]
pub extern "C" fn constriction_chain_into_binary_u16(
    alloc: Global,
    heads: &ChainHeadsU16,
    compressed: &mut [u16],
    count: &mut usize,
    needed: &mut usize,
) -> u32
    ensures { ChainEndsU16 result needed.old needed.new InBinary heads.now compressed.old count.old compressed.new
        count.new }
{
    let parts = heads.parts();
    let answer = into_words::<_, _, 12>(alloc, Form::InBinary, &parts, compressed, count);
    code_of(answer, needed)
}

/// Imports a coder from the words of remainders. The coder has no compressed words below its heads.
///
/// Sets `heads`, and sets `rest` to the number of words that stay in `words`, below the heads.
///
/// Calls [`from_words`] and returns the code of its result ([`code_of`]).
#[unsafe(no_mangle)]
pub extern "C" fn constriction_chain_from_remainders_u16(
    alloc: Global,
    words: &[u16],
    rest: &mut usize,
    heads: &mut ChainHeadsU16,
) -> u32
    ensures { ChainBeginsU16 result InRemainders words.now heads.old rest.old heads.new rest.new }
{
    let mut both = heads.parts();
    let answer = from_words::<_, _, 12>(alloc, Form::InRemainders, words, &mut both, rest);
    *heads = ChainHeadsU16::of(both);
    code_without_space(answer)
}

/// Exports remainders: writes the words of both heads after the first `rest` words of `remainders`.
///
/// Calls [`into_words`] and returns the code of its result ([`code_of`]).
#[unsafe(no_mangle)]
pub extern "C" fn constriction_chain_into_remainders_u16(
    alloc: Global,
    heads: &ChainHeadsU16,
    remainders: &mut [u16],
    rest: &mut usize,
    needed: &mut usize,
) -> u32
    ensures { ChainEndsU16 result needed.old needed.new InRemainders heads.now remainders.old rest.old remainders.new
        rest.new }
{
    let parts = heads.parts();
    let answer = into_words::<_, _, 12>(alloc, Form::InRemainders, &parts, remainders, rest);
    code_of(answer, needed)
}
