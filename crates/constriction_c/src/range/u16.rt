// Written by tools/sizes from u32.rt.
//! The range coder with 16-bit words, 32-bit states and a precision of 12 bits.

ghost use Rattle.std.specs.Prelude.{◌≡◌, length, map};
ghost use Rattle.constriction_c.specs.Codes.{answer_by_code};
ghost use Rattle.constriction_c.specs.U16.{RangeEndsU16, RangeEncodesU16, RangeDecodesU16, decoder_u16, encoder_u16};
ghost use Rattle.constriction_c.specs.Words.{lowest};
ghost use Rattle.constriction_calls.specs.RangeCalls.{IsNew, IsSealed, RangeBegins, RangeMayEnd, RangeSeals};
ghost use Rattle.constriction_calls.specs.RangeCalls.{RangeSeeks};
ghost use Rattle.constriction_inputs.specs.Weights.{by_weights};

use crate::codes::{code_of, code_without_space};
use crate::range::by_weights::{decode_by_weights, encode_by_weights};
use constriction_calls::range::positions::{from_compressed, maybe_exhausted, seek};
use constriction_calls::range::words::into_compressed;
use std::alloc::Global;

/// A range encoder between two calls, with the fields of [`EncoderParts`].
#[repr(C)]
#[derive(Drop, Clone, Copy)]
pub struct RangeEncoderU16 {
    pub lower: u32,
    pub range: u32,
    pub held: usize,
    pub first: u16,
}

/// A range decoder between two calls, with the fields of [`DecoderParts`].
#[repr(C)]
#[derive(Drop, Clone, Copy)]
pub struct RangeDecoderU16 {
    pub lower: u32,
    pub range: u32,
    pub point: u32,
    pub pos: usize,
}

/// Sets `encoder` to a new encoder, which has encoded no symbols.
///
/// Returns 0.
#[unsafe(no_mangle)]
pub extern "C" fn constriction_range_encoder_u16(encoder: &mut RangeEncoderU16) -> u32
    ensures done { result ≡ 0 }
    ensures call { IsNew (lowest 16) (lowest 32) 16 32 (encoder_u16 encoder.new) }
{
    *encoder = RangeEncoderU16 {
        lower: 0,
        range: u32::MAX,
        held: 0,
        first: 0,
    };
    0
}

/// Encodes symbols in order, with one table of weights for all symbols.
///
/// Calls [`encode_by_weights`] and returns the code of its result ([`code_of`]).
#[unsafe(no_mangle)]
pub extern "C" fn constriction_range_encode_u16(
    alloc: Global,
    encoder: &mut RangeEncoderU16,
    words: &mut [u16],
    len: &mut usize,
    weights: &[u16],
    symbols: &[usize],
    needed: &mut usize,
) -> u32
    ensures { RangeEncodesU16 result needed.old needed.new (by_weights (map (lowest 16) weights.now) symbols.now)
        (length symbols.now) encoder.old words.old len.old encoder.new words.new len.new }
{
    let mut parts = encoder.parts();
    let answer = encode_by_weights::<_, _, u16, _, 12>(
        alloc, &mut parts, words, len, weights, symbols,
    );
    *encoder = RangeEncoderU16::of(parts);
    code_of(answer, needed)
}

/// Writes the encoder's pending words, and a seal, after the first `len` words of `words`.
///
/// Calls [`into_compressed`] and returns the code of its result ([`code_of`]).
#[unsafe(no_mangle)]
pub extern "C" fn constriction_range_into_compressed_u16(
    alloc: Global,
    encoder: &RangeEncoderU16,
    words: &mut [u16],
    len: &mut usize,
    needed: &mut usize,
) -> u32
    ensures { RangeEndsU16 result needed.old needed.new (RangeSeals (lowest 16) (lowest 32) 16 32 (IsSealed 16 32))
        encoder.now words.old len.old words.new len.new }
{
    let answer = into_compressed(alloc, &encoder.parts(), words, len);
    code_of(answer, needed)
}

/// Sets `decoder` to a decoder of sealed words, positioned before the first symbol.
///
/// Calls [`from_compressed`], which always succeeds, and returns 0.
#[unsafe(no_mangle)]
pub extern "C" fn constriction_range_from_compressed_u16(
    words: &[u16],
    decoder: &mut RangeDecoderU16,
) -> u32
    ensures done { result ≡ 0 }
    ensures call { RangeBegins (lowest 16) (lowest 32) 16 32 words.now (decoder_u16 decoder.new) }
{
    *decoder = RangeDecoderU16::of(from_compressed(words));
    0
}

/// Decodes symbols into `symbols`, in order, with one table of weights for all symbols.
///
/// Calls [`decode_by_weights`] and returns the code of its result ([`code_of`]).
#[unsafe(no_mangle)]
pub extern "C" fn constriction_range_decode_u16(
    alloc: Global,
    decoder: &mut RangeDecoderU16,
    words: &[u16],
    weights: &[u16],
    symbols: &mut [usize],
) -> u32
    ensures { RangeDecodesU16 result (by_weights (map (lowest 16) weights.now)) words.now decoder.old decoder.new
        symbols.old symbols.new }
{
    let mut parts = decoder.parts();
    let answer = decode_by_weights::<_, _, u16, 12>(alloc, &mut parts, words, weights, symbols);
    *decoder = RangeDecoderU16::of(parts);
    code_without_space(answer)
}

/// Sets `decoder` to a decoder of `words` at a position that was recorded during encoding.
///
/// `pos` is the number of words that the encoder had written at this position, plus the number of its pending words.
/// `lower` and `range` are the lower end and the length of the encoder's interval.
///
/// Calls [`seek`] and returns the code of its result ([`code_of`]).
#[unsafe(no_mangle)]
pub extern "C" fn constriction_range_seek_u16(
    decoder: &mut RangeDecoderU16,
    words: &[u16],
    pos: usize,
    lower: u32,
    range: u32,
) -> u32
    ensures { RangeSeeks (lowest 16) (lowest 32) 16 32 words.now pos lower range (decoder_u16 decoder.old)
        (decoder_u16 decoder.new) (answer_by_code result 0) }
{
    let mut parts = decoder.parts();
    let answer = seek(&mut parts, words, pos, lower, range);
    *decoder = RangeDecoderU16::of(parts);
    code_without_space(answer)
}

/// Sets `maybe` to 1 if the encoded symbols may have ended at the decoder's position, and to 0 if not.
///
/// Calls [`maybe_exhausted`] and returns the code of its result ([`code_of`]).
#[unsafe(no_mangle)]
pub extern "C" fn constriction_range_maybe_exhausted_u16(
    decoder: &RangeDecoderU16,
    words: &[u16],
    maybe: &mut u32,
) -> u32
    ensures { RangeMayEnd (lowest 32) 16 32 (map (lowest 16) words.now) (decoder_u16 decoder.now) maybe.old maybe.new
        (answer_by_code result 0) }
{
    code_without_space(maybe_exhausted(&decoder.parts(), words, maybe))
}
