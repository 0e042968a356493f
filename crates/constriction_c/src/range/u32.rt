//! The range coder with 32-bit words, 64-bit states and a precision of 24 bits.

ghost use Rattle.std.specs.Prelude.{◌≡◌, length, map};
ghost use Rattle.constriction_c.specs.Codes.{answer_by_code};
ghost use Rattle.constriction_c.specs.U32.{RangeEndsU32, RangeEncodesU32, RangeDecodesU32, decoder_u32, encoder_u32};
ghost use Rattle.constriction_c.specs.Words.{lowest};
ghost use Rattle.constriction_calls.specs.RangeCalls.{IsNew, IsSealed, RangeBegins, RangeMayEnd, RangeSeals};
ghost use Rattle.constriction_calls.specs.RangeCalls.{RangeSeeks};
ghost use Rattle.constriction_inputs.specs.Weights.{by_weights};

use crate::codes::{code_of, code_without_space};
use crate::range::by_weights::{decode_by_weights, encode_by_weights};
use constriction_calls::range::positions::{from_compressed, maybe_exhausted, seek};
use constriction_calls::range::words::into_compressed;
use std::alloc::Global;

/// A range encoder between two calls, with the fields of [`EncoderParts`].
#[repr(C)]
#[derive(Drop, Clone, Copy)]
pub struct RangeEncoderU32 {
    pub lower: u64,
    pub range: u64,
    pub held: usize,
    pub first: u32,
}

/// A range decoder between two calls, with the fields of [`DecoderParts`].
#[repr(C)]
#[derive(Drop, Clone, Copy)]
pub struct RangeDecoderU32 {
    pub lower: u64,
    pub range: u64,
    pub point: u64,
    pub pos: usize,
}

/// Sets `encoder` to a new encoder, which has encoded no symbols.
///
/// Returns 0.
#[unsafe(no_mangle)]
pub extern "C" fn constriction_range_encoder_u32(encoder: &mut RangeEncoderU32) -> u32
    ensures done { result ≡ 0 }
    ensures call { IsNew (lowest 32) (lowest 64) 32 64 (encoder_u32 encoder.new) }
{
    *encoder = RangeEncoderU32 {
        lower: 0,
        range: u64::MAX,
        held: 0,
        first: 0,
    };
    0
}

/// Encodes symbols in order, with one table of weights for all symbols.
///
/// Calls [`encode_by_weights`] and returns the code of its result ([`code_of`]).
#[unsafe(no_mangle)]
pub extern "C" fn constriction_range_encode_u32(
    alloc: Global,
    encoder: &mut RangeEncoderU32,
    words: &mut [u32],
    len: &mut usize,
    weights: &[u32],
    symbols: &[usize],
    needed: &mut usize,
) -> u32
    ensures { RangeEncodesU32 result needed.old needed.new (by_weights (map (lowest 32) weights.now) symbols.now)
        (length symbols.now) encoder.old words.old len.old encoder.new words.new len.new }
{
    let mut parts = encoder.parts();
    let answer = encode_by_weights::<_, _, u32, _, 24>(
        alloc, &mut parts, words, len, weights, symbols,
    );
    *encoder = RangeEncoderU32::of(parts);
    code_of(answer, needed)
}

/// Writes the encoder's pending words, and a seal, after the first `len` words of `words`.
///
/// Calls [`into_compressed`] and returns the code of its result ([`code_of`]).
#[unsafe(no_mangle)]
pub extern "C" fn constriction_range_into_compressed_u32(
    alloc: Global,
    encoder: &RangeEncoderU32,
    words: &mut [u32],
    len: &mut usize,
    needed: &mut usize,
) -> u32
    ensures { RangeEndsU32 result needed.old needed.new (RangeSeals (lowest 32) (lowest 64) 32 64 (IsSealed 32 64))
        encoder.now words.old len.old words.new len.new }
{
    let answer = into_compressed(alloc, &encoder.parts(), words, len);
    code_of(answer, needed)
}

/// Sets `decoder` to a decoder of sealed words, positioned before the first symbol.
///
/// Calls [`from_compressed`], which always succeeds, and returns 0.
#[unsafe(no_mangle)]
pub extern "C" fn constriction_range_from_compressed_u32(
    words: &[u32],
    decoder: &mut RangeDecoderU32,
) -> u32
    ensures done { result ≡ 0 }
    ensures call { RangeBegins (lowest 32) (lowest 64) 32 64 words.now (decoder_u32 decoder.new) }
{
    *decoder = RangeDecoderU32::of(from_compressed(words));
    0
}

/// Decodes symbols into `symbols`, in order, with one table of weights for all symbols.
///
/// Calls [`decode_by_weights`] and returns the code of its result ([`code_of`]).
#[unsafe(no_mangle)]
pub extern "C" fn constriction_range_decode_u32(
    alloc: Global,
    decoder: &mut RangeDecoderU32,
    words: &[u32],
    weights: &[u32],
    symbols: &mut [usize],
) -> u32
    ensures { RangeDecodesU32 result (by_weights (map (lowest 32) weights.now)) words.now decoder.old decoder.new
        symbols.old symbols.new }
{
    let mut parts = decoder.parts();
    let answer = decode_by_weights::<_, _, u32, 24>(alloc, &mut parts, words, weights, symbols);
    *decoder = RangeDecoderU32::of(parts);
    code_without_space(answer)
}

/// Sets `decoder` to a decoder of `words` at a position that was recorded during encoding.
///
/// `pos` is the number of words that the encoder had written at this position, plus the number of its pending words.
/// `lower` and `range` are the lower end and the length of the encoder's interval.
///
/// Calls [`seek`] and returns the code of its result ([`code_of`]).
#[unsafe(no_mangle)]
pub extern "C" fn constriction_range_seek_u32(
    decoder: &mut RangeDecoderU32,
    words: &[u32],
    pos: usize,
    lower: u64,
    range: u64,
) -> u32
    ensures { RangeSeeks (lowest 32) (lowest 64) 32 64 words.now pos lower range (decoder_u32 decoder.old)
        (decoder_u32 decoder.new) (answer_by_code result 0) }
{
    let mut parts = decoder.parts();
    let answer = seek(&mut parts, words, pos, lower, range);
    *decoder = RangeDecoderU32::of(parts);
    code_without_space(answer)
}

/// Sets `maybe` to 1 if the encoded symbols may have ended at the decoder's position, and to 0 if not.
///
/// Calls [`maybe_exhausted`] and returns the code of its result ([`code_of`]).
#[unsafe(no_mangle)]
pub extern "C" fn constriction_range_maybe_exhausted_u32(
    decoder: &RangeDecoderU32,
    words: &[u32],
    maybe: &mut u32,
) -> u32
    ensures { RangeMayEnd (lowest 64) 32 64 (map (lowest 32) words.now) (decoder_u32 decoder.now) maybe.old maybe.new
        (answer_by_code result 0) }
{
    code_without_space(maybe_exhausted(&decoder.parts(), words, maybe))
}
