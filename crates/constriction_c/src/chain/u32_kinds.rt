// Written by tools/sizes from u32.rt.
//! More C functions of the chain coder: other models, symbols of 8 and 16 bits, binary form, and words of remainders.

ghost use Rattle.constriction_c.specs.U32.{ChainBeginsU32, ChainDecodesU32, ChainEncodesU32, ChainEndsU32, chain_u32};
ghost use Rattle.constriction_c.specs.U32.{intervals_from_u32, narrow_from_u32};
ghost use Rattle.constriction_c.specs.Words.{lowest};
ghost use Rattle.constriction_calls.specs.declared.chain.Form.TheVariants.{InBinary, InRemainders};
ghost use Rattle.constriction_inputs.specs.Counts.{by_counts};
ghost use Rattle.constriction_inputs.specs.Indexed.{by_indexes};
ghost use Rattle.constriction_inputs.specs.Mixtures.{in_mixture};
ghost use Rattle.constriction_inputs.specs.Quantized.{in_family};
ghost use Rattle.constriction_inputs.specs.Rows.{by_rows};
ghost use Rattle.constriction_inputs.specs.Weights.{by_weights};
ghost use Rattle.std.specs.Prelude.{map};

use crate::chain::by_weights::{decode_narrow, encode_reverse_by_weights};
use crate::chain::u32::ChainHeadsU32;
use crate::codes::{code_of, code_without_space};
use constriction_calls::chain::{Form, decode, encode_reverse, from_words, into_words};
use constriction_inputs::intervals::Intervals;
use constriction_inputs::models::{Counts, Families, Indexed, Mixtures, Rows};
use constriction_inputs::symbols::Symbols;
use std::alloc::Global;

/// Decodes symbols into `symbols`, with a row of `width` weights for each symbol.
///
/// Calls [`decode`] and returns the code of its result ([`code_of`]).
#[unsafe(no_mangle)]
pub extern "C" fn constriction_chain_decode_each_u32(
    alloc: Global,
    heads: &mut ChainHeadsU32,
    compressed: &[u32],
    count: &mut usize,
    remainders: &mut [u32],
    rest: &mut usize,
    weights: &[u32],
    width: usize,
    symbols: &mut [usize],
    needed: &mut usize,
) -> u32
    ensures { ChainDecodesU32 result needed.old needed.new (by_rows width (map (lowest 32) weights.now))
        (chain_u32 heads.old compressed.now count.old remainders.old rest.old)
        (chain_u32 heads.new compressed.now count.new remainders.new rest.new) symbols.old symbols.new }
{
    let models = Rows { weights, width };
    let mut both = heads.parts();
    let answer = decode::<_, _, u32, _, 24>(
        alloc, &mut both, compressed, count, remainders, rest, &models, symbols,
    );
    *heads = ChainHeadsU32::of(both);
    code_of(answer, needed)
}

/// Encodes symbols from the last to the first, with a row of `width` weights for each symbol.
///
/// Calls [`encode_reverse`] and returns the code of its result ([`code_of`]).
#[unsafe(no_mangle)]
pub extern "C" fn constriction_chain_encode_each_reverse_u32(
    alloc: Global,
    heads: &mut ChainHeadsU32,
    compressed: &mut [u32],
    count: &mut usize,
    remainders: &[u32],
    rest: &mut usize,
    weights: &[u32],
    width: usize,
    symbols: &[usize],
    needed: &mut usize,
) -> u32
    ensures { ChainEncodesU32 result needed.old needed.new (by_rows width (map (lowest 32) weights.now) symbols.now)
        (chain_u32 heads.old compressed.old count.old remainders.now rest.old)
        (chain_u32 heads.new compressed.new count.new remainders.now rest.new) }
{
    let models = Rows { weights, width };
    let items = Symbols { models, symbols };
    let mut both = heads.parts();
    let answer = encode_reverse::<_, _, u32, _, 24>(
        alloc, &mut both, compressed, count, remainders, rest, &items,
    );
    *heads = ChainHeadsU32::of(both);
    code_of(answer, needed)
}

/// Decodes symbols into `symbols`, with a row of `width` counts for each symbol ([`Counts`]).
///
/// Calls [`decode`] and returns the code of its result ([`code_of`]).
#[unsafe(no_mangle)]
pub extern "C" fn constriction_chain_decode_counts_u32(
    alloc: Global,
    heads: &mut ChainHeadsU32,
    compressed: &[u32],
    count: &mut usize,
    remainders: &mut [u32],
    rest: &mut usize,
    counts: &[u32],
    width: usize,
    symbols: &mut [usize],
    needed: &mut usize,
) -> u32
    ensures { ChainDecodesU32 result needed.old needed.new (by_counts 32 width counts.now)
        (chain_u32 heads.old compressed.now count.old remainders.old rest.old)
        (chain_u32 heads.new compressed.now count.new remainders.new rest.new) symbols.old symbols.new }
{
    let models = Counts { counts, width };
    let mut both = heads.parts();
    let answer = decode::<_, _, u32, _, 24>(
        alloc, &mut both, compressed, count, remainders, rest, &models, symbols,
    );
    *heads = ChainHeadsU32::of(both);
    code_of(answer, needed)
}

/// Encodes symbols from the last to the first, with a row of `width` counts for each symbol ([`Counts`]).
///
/// Calls [`encode_reverse`] and returns the code of its result ([`code_of`]).
#[unsafe(no_mangle)]
pub extern "C" fn constriction_chain_encode_counts_reverse_u32(
    alloc: Global,
    heads: &mut ChainHeadsU32,
    compressed: &mut [u32],
    count: &mut usize,
    remainders: &[u32],
    rest: &mut usize,
    counts: &[u32],
    width: usize,
    symbols: &[usize],
    needed: &mut usize,
) -> u32
    ensures { ChainEncodesU32 result needed.old needed.new (by_counts 32 width counts.now symbols.now)
        (chain_u32 heads.old compressed.old count.old remainders.now rest.old)
        (chain_u32 heads.new compressed.new count.new remainders.now rest.new) }
{
    let models = Counts { counts, width };
    let items = Symbols { models, symbols };
    let mut both = heads.parts();
    let answer = encode_reverse::<_, _, u32, _, 24>(
        alloc, &mut both, compressed, count, remainders, rest, &items,
    );
    *heads = ChainHeadsU32::of(both);
    code_of(answer, needed)
}

/// Encodes intervals from the last to the first. Interval `i` begins at quantile `lefts[i]` and has length `ps[i]`.
///
/// Calls [`encode_reverse`] and returns the code of its result ([`code_of`]).
#[unsafe(no_mangle)]
pub extern "C" fn constriction_chain_encode_intervals_reverse_u32(
    alloc: Global,
    heads: &mut ChainHeadsU32,
    compressed: &mut [u32],
    count: &mut usize,
    remainders: &[u32],
    rest: &mut usize,
    lefts: &[u32],
    ps: &[u32],
    needed: &mut usize,
) -> u32
    ensures { ChainEncodesU32 result needed.old needed.new (intervals_from_u32 lefts.now (map (lowest 32) ps.now))
        (chain_u32 heads.old compressed.old count.old remainders.now rest.old)
        (chain_u32 heads.new compressed.new count.new remainders.now rest.new) }
{
    let items = Intervals { lefts, ps };
    let mut both = heads.parts();
    let answer = encode_reverse::<_, _, u32, _, 24>(
        alloc, &mut both, compressed, count, remainders, rest, &items,
    );
    *heads = ChainHeadsU32::of(both);
    code_of(answer, needed)
}

/// Decodes symbols into `symbols`, each with the model of its own location and scale ([`Families`]).
///
/// Calls [`decode`] and returns the code of its result ([`code_of`]).
#[unsafe(no_mangle)]
pub extern "C" fn constriction_chain_decode_quantized_u32(
    alloc: Global,
    heads: &mut ChainHeadsU32,
    compressed: &[u32],
    count: &mut usize,
    remainders: &mut [u32],
    rest: &mut usize,
    family: u32,
    min: i32,
    max: i32,
    locations: &[i64],
    scales: &[u32],
    symbols: &mut [usize],
    needed: &mut usize,
) -> u32
    ensures { ChainDecodesU32 result needed.old needed.new (in_family family min max locations.now scales.now)
        (chain_u32 heads.old compressed.now count.old remainders.old rest.old)
        (chain_u32 heads.new compressed.now count.new remainders.new rest.new) symbols.old symbols.new }
{
    let models = Families::new(family, min, max, locations, scales);
    let mut both = heads.parts();
    let answer = decode::<_, _, u32, _, 24>(
        alloc, &mut both, compressed, count, remainders, rest, &models, symbols,
    );
    *heads = ChainHeadsU32::of(both);
    code_of(answer, needed)
}

/// Encodes symbols from the last to the first, each with the model of its own location and scale ([`Families`]).
///
/// Calls [`encode_reverse`] and returns the code of its result ([`code_of`]).
#[unsafe(no_mangle)]
pub extern "C" fn constriction_chain_encode_quantized_reverse_u32(
    alloc: Global,
    heads: &mut ChainHeadsU32,
    compressed: &mut [u32],
    count: &mut usize,
    remainders: &[u32],
    rest: &mut usize,
    family: u32,
    min: i32,
    max: i32,
    locations: &[i64],
    scales: &[u32],
    symbols: &[usize],
    needed: &mut usize,
) -> u32
    ensures { ChainEncodesU32 result needed.old needed.new
        (in_family family min max locations.now scales.now symbols.now)
        (chain_u32 heads.old compressed.old count.old remainders.now rest.old)
        (chain_u32 heads.new compressed.new count.new remainders.now rest.new) }
{
    let models = Families::new(family, min, max, locations, scales);
    let items = Symbols { models, symbols };
    let mut both = heads.parts();
    let answer = encode_reverse::<_, _, u32, _, 24>(
        alloc, &mut both, compressed, count, remainders, rest, &items,
    );
    *heads = ChainHeadsU32::of(both);
    code_of(answer, needed)
}

/// Decodes symbols into `symbols`, each with its own mixture of a family's distributions ([`Mixtures`]).
///
/// Calls [`decode`] and returns the code of its result ([`code_of`]).
#[unsafe(no_mangle)]
pub extern "C" fn constriction_chain_decode_mixture_u32(
    alloc: Global,
    heads: &mut ChainHeadsU32,
    compressed: &[u32],
    count: &mut usize,
    remainders: &mut [u32],
    rest: &mut usize,
    family: u32,
    min: i32,
    max: i32,
    width: usize,
    component_weights: &[u32],
    locations: &[i64],
    scales: &[u32],
    symbols: &mut [usize],
    needed: &mut usize,
) -> u32
    ensures { ChainDecodesU32 result needed.old needed.new
        (in_mixture family min max width component_weights.now locations.now scales.now)
        (chain_u32 heads.old compressed.now count.old remainders.old rest.old)
        (chain_u32 heads.new compressed.now count.new remainders.new rest.new) symbols.old symbols.new }
{
    let components = Families::new(family, min, max, locations, scales);
    let models = Mixtures::new(components, component_weights, width);
    let mut both = heads.parts();
    let answer = decode::<_, _, u32, _, 24>(
        alloc, &mut both, compressed, count, remainders, rest, &models, symbols,
    );
    *heads = ChainHeadsU32::of(both);
    code_of(answer, needed)
}

/// Encodes symbols from the last to the first, each with its own mixture of a family's distributions ([`Mixtures`]).
///
/// Calls [`encode_reverse`] and returns the code of its result ([`code_of`]).
#[unsafe(no_mangle)]
pub extern "C" fn constriction_chain_encode_mixture_reverse_u32(
    alloc: Global,
    heads: &mut ChainHeadsU32,
    compressed: &mut [u32],
    count: &mut usize,
    remainders: &[u32],
    rest: &mut usize,
    family: u32,
    min: i32,
    max: i32,
    width: usize,
    component_weights: &[u32],
    locations: &[i64],
    scales: &[u32],
    symbols: &[usize],
    needed: &mut usize,
) -> u32
    ensures { ChainEncodesU32 result needed.old needed.new
        (in_mixture family min max width component_weights.now locations.now scales.now symbols.now)
        (chain_u32 heads.old compressed.old count.old remainders.now rest.old)
        (chain_u32 heads.new compressed.new count.new remainders.now rest.new) }
{
    let components = Families::new(family, min, max, locations, scales);
    let models = Mixtures::new(components, component_weights, width);
    let items = Symbols { models, symbols };
    let mut both = heads.parts();
    let answer = encode_reverse::<_, _, u32, _, 24>(
        alloc, &mut both, compressed, count, remainders, rest, &items,
    );
    *heads = ChainHeadsU32::of(both);
    code_of(answer, needed)
}

/// Decodes symbols into `symbols`, with the table of `width` weights at each symbol's index ([`Indexed`]).
///
/// Calls [`decode`] and returns the code of its result ([`code_of`]).
#[unsafe(no_mangle)]
pub extern "C" fn constriction_chain_decode_indexed_u32(
    alloc: Global,
    heads: &mut ChainHeadsU32,
    compressed: &[u32],
    count: &mut usize,
    remainders: &mut [u32],
    rest: &mut usize,
    weights: &[u32],
    width: usize,
    indexes: &[usize],
    symbols: &mut [usize],
    needed: &mut usize,
) -> u32
    ensures { ChainDecodesU32 result needed.old needed.new (by_indexes width (map (lowest 32) weights.now) indexes.now)
        (chain_u32 heads.old compressed.now count.old remainders.old rest.old)
        (chain_u32 heads.new compressed.now count.new remainders.new rest.new) symbols.old symbols.new }
{
    let models = Indexed {
        weights,
        width,
        indexes,
    };
    let mut both = heads.parts();
    let answer = decode::<_, _, u32, _, 24>(
        alloc, &mut both, compressed, count, remainders, rest, &models, symbols,
    );
    *heads = ChainHeadsU32::of(both);
    code_of(answer, needed)
}

/// Encodes symbols from the last to the first, with the table of `width` weights at each symbol's index ([`Indexed`]).
///
/// Calls [`encode_reverse`] and returns the code of its result ([`code_of`]).
#[unsafe(no_mangle)]
pub extern "C" fn constriction_chain_encode_indexed_reverse_u32(
    alloc: Global,
    heads: &mut ChainHeadsU32,
    compressed: &mut [u32],
    count: &mut usize,
    remainders: &[u32],
    rest: &mut usize,
    weights: &[u32],
    width: usize,
    indexes: &[usize],
    symbols: &[usize],
    needed: &mut usize,
) -> u32
    ensures { ChainEncodesU32 result needed.old needed.new
        (by_indexes width (map (lowest 32) weights.now) indexes.now symbols.now)
        (chain_u32 heads.old compressed.old count.old remainders.now rest.old)
        (chain_u32 heads.new compressed.new count.new remainders.now rest.new) }
{
    let models = Indexed {
        weights,
        width,
        indexes,
    };
    let items = Symbols { models, symbols };
    let mut both = heads.parts();
    let answer = encode_reverse::<_, _, u32, _, 24>(
        alloc, &mut both, compressed, count, remainders, rest, &items,
    );
    *heads = ChainHeadsU32::of(both);
    code_of(answer, needed)
}

/// Decodes symbols of type `u8` into `symbols`, with one table of weights for all symbols.
///
/// Calls [`decode_narrow`] and returns the code of its result ([`code_of`]).
#[unsafe(no_mangle)]
pub extern "C" fn constriction_chain_decode_bytes_u32(
    alloc: Global,
    heads: &mut ChainHeadsU32,
    compressed: &[u32],
    count: &mut usize,
    remainders: &mut [u32],
    rest: &mut usize,
    weights: &[u32],
    symbols: &mut [u8],
    needed: &mut usize,
) -> u32
    ensures { ChainDecodesU32 result needed.old needed.new (narrow_from_u32 8 weights.now)
        (chain_u32 heads.old compressed.now count.old remainders.old rest.old)
        (chain_u32 heads.new compressed.now count.new remainders.new rest.new) symbols.old symbols.new }
{
    let mut both = heads.parts();
    let answer = decode_narrow::<_, _, u32, u8, 24>(
        alloc, &mut both, compressed, count, remainders, rest, weights, symbols,
    );
    *heads = ChainHeadsU32::of(both);
    code_of(answer, needed)
}

/// Encodes symbols of type `u8` from the last to the first, with one table of weights for all symbols.
///
/// Calls [`encode_reverse_by_weights`] and returns the code of its result ([`code_of`]).
#[unsafe(no_mangle)]
pub extern "C" fn constriction_chain_encode_bytes_reverse_u32(
    alloc: Global,
    heads: &mut ChainHeadsU32,
    compressed: &mut [u32],
    count: &mut usize,
    remainders: &[u32],
    rest: &mut usize,
    weights: &[u32],
    symbols: &[u8],
    needed: &mut usize,
) -> u32
    ensures { ChainEncodesU32 result needed.old needed.new (by_weights (map (lowest 32) weights.now) symbols.now)
        (chain_u32 heads.old compressed.old count.old remainders.now rest.old)
        (chain_u32 heads.new compressed.new count.new remainders.now rest.new) }
{
    let mut both = heads.parts();
    let answer = encode_reverse_by_weights::<_, _, u32, _, 24>(
        alloc, &mut both, compressed, count, remainders, rest, weights, symbols,
    );
    *heads = ChainHeadsU32::of(both);
    code_of(answer, needed)
}

/// Decodes symbols of type `u16` into `symbols`, with one table of weights for all symbols.
///
/// Calls [`decode_narrow`] and returns the code of its result ([`code_of`]).
#[unsafe(no_mangle)]
pub extern "C" fn constriction_chain_decode_shorts_u32(
    alloc: Global,
    heads: &mut ChainHeadsU32,
    compressed: &[u32],
    count: &mut usize,
    remainders: &mut [u32],
    rest: &mut usize,
    weights: &[u32],
    symbols: &mut [u16],
    needed: &mut usize,
) -> u32
    ensures { ChainDecodesU32 result needed.old needed.new (narrow_from_u32 16 weights.now)
        (chain_u32 heads.old compressed.now count.old remainders.old rest.old)
        (chain_u32 heads.new compressed.now count.new remainders.new rest.new) symbols.old symbols.new }
{
    let mut both = heads.parts();
    let answer = decode_narrow::<_, _, u32, u16, 24>(
        alloc, &mut both, compressed, count, remainders, rest, weights, symbols,
    );
    *heads = ChainHeadsU32::of(both);
    code_of(answer, needed)
}

/// Encodes symbols of type `u16` from the last to the first, with one table of weights for all symbols.
///
/// Calls [`encode_reverse_by_weights`] and returns the code of its result ([`code_of`]).
#[unsafe(no_mangle)]
pub extern "C" fn constriction_chain_encode_shorts_reverse_u32(
    alloc: Global,
    heads: &mut ChainHeadsU32,
    compressed: &mut [u32],
    count: &mut usize,
    remainders: &[u32],
    rest: &mut usize,
    weights: &[u32],
    symbols: &[u16],
    needed: &mut usize,
) -> u32
    ensures { ChainEncodesU32 result needed.old needed.new (by_weights (map (lowest 32) weights.now) symbols.now)
        (chain_u32 heads.old compressed.old count.old remainders.now rest.old)
        (chain_u32 heads.new compressed.new count.new remainders.now rest.new) }
{
    let mut both = heads.parts();
    let answer = encode_reverse_by_weights::<_, _, u32, _, 24>(
        alloc, &mut both, compressed, count, remainders, rest, weights, symbols,
    );
    *heads = ChainHeadsU32::of(both);
    code_of(answer, needed)
}

/// Imports a coder from compressed words in binary form. The coder has no words of remainders below its heads.
///
/// Sets `heads`, and sets `count` to the number of words that stay in `words`, below the heads.
///
/// Calls [`from_words`] and returns the code of its result ([`code_of`]).
#[unsafe(no_mangle)]
pub extern "C" fn constriction_chain_from_binary_u32(
    alloc: Global,
    words: &[u32],
    count: &mut usize,
    heads: &mut ChainHeadsU32,
) -> u32
    ensures { ChainBeginsU32 result InBinary words.now heads.old count.old heads.new count.new }
{
    let mut both = heads.parts();
    let answer = from_words::<_, _, 24>(alloc, Form::InBinary, words, &mut both, count);
    *heads = ChainHeadsU32::of(both);
    code_without_space(answer)
}

/// Exports the binary form: appends the remainders head's bits below its leading 1 to the compressed words.
///
/// Calls [`into_words`] and returns the code of its result ([`code_of`]).
#[unsafe(no_mangle)]
pub extern "C" fn constriction_chain_into_binary_u32(
    alloc: Global,
    heads: &ChainHeadsU32,
    compressed: &mut [u32],
    count: &mut usize,
    needed: &mut usize,
) -> u32
    ensures { ChainEndsU32 result needed.old needed.new InBinary heads.now compressed.old count.old compressed.new
        count.new }
{
    let parts = heads.parts();
    let answer = into_words::<_, _, 24>(alloc, Form::InBinary, &parts, compressed, count);
    code_of(answer, needed)
}

/// Imports a coder from the words of remainders. The coder has no compressed words below its heads.
///
/// Sets `heads`, and sets `rest` to the number of words that stay in `words`, below the heads.
///
/// Calls [`from_words`] and returns the code of its result ([`code_of`]).
#[unsafe(no_mangle)]
pub extern "C" fn constriction_chain_from_remainders_u32(
    alloc: Global,
    words: &[u32],
    rest: &mut usize,
    heads: &mut ChainHeadsU32,
) -> u32
    ensures { ChainBeginsU32 result InRemainders words.now heads.old rest.old heads.new rest.new }
{
    let mut both = heads.parts();
    let answer = from_words::<_, _, 24>(alloc, Form::InRemainders, words, &mut both, rest);
    *heads = ChainHeadsU32::of(both);
    code_without_space(answer)
}

/// Exports remainders: writes the words of both heads after the first `rest` words of `remainders`.
///
/// Calls [`into_words`] and returns the code of its result ([`code_of`]).
#[unsafe(no_mangle)]
pub extern "C" fn constriction_chain_into_remainders_u32(
    alloc: Global,
    heads: &ChainHeadsU32,
    remainders: &mut [u32],
    rest: &mut usize,
    needed: &mut usize,
) -> u32
    ensures { ChainEndsU32 result needed.old needed.new InRemainders heads.now remainders.old rest.old remainders.new
        rest.new }
{
    let parts = heads.parts();
    let answer = into_words::<_, _, 24>(alloc, Form::InRemainders, &parts, remainders, rest);
    code_of(answer, needed)
}
