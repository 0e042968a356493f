// Written by tools/sizes from u32_parts.rt.
//! Converts the C functions' structs to the types that the calls of `constriction_calls` take, and back.

ghost use Rattle.constriction_c.specs.U16.{decoder_u16, encoder_u16};
ghost use Rattle.std.specs.Prelude.{◌≡◌};

use crate::range::u16::{RangeDecoderU16, RangeEncoderU16};
use constriction_calls::range::parts::{DecoderParts, EncoderParts};

impl RangeEncoderU16 {
    /// Returns the struct's fields as the type that the calls of `constriction_calls` take.
    #[inline]
    pub fn parts(&self) -> EncoderParts<u16, u32>
        ensures { result ≡ encoder_u16 self.now }
    {
        EncoderParts {
            lower: self.lower,
            range: self.range,
            held: self.held,
            first: self.first,
        }
    }

    /// Creates the struct from `parts`, which a call of `constriction_calls` has set or returned.
    #[inline]
    pub fn of(parts: EncoderParts<u16, u32>) -> Self
        ensures { encoder_u16 result ≡ parts }
    {
        RangeEncoderU16 {
            lower: parts.lower,
            range: parts.range,
            held: parts.held,
            first: parts.first,
        }
    }
}

impl RangeDecoderU16 {
    /// Returns the struct's fields as the type that the calls of `constriction_calls` take.
    #[inline]
    pub fn parts(&self) -> DecoderParts<u32>
        ensures { result ≡ decoder_u16 self.now }
    {
        DecoderParts {
            lower: self.lower,
            range: self.range,
            point: self.point,
            pos: self.pos,
        }
    }

    /// Creates the struct from `parts`, which a call of `constriction_calls` has set or returned.
    #[inline]
    pub fn of(parts: DecoderParts<u32>) -> Self
        ensures { decoder_u16 result ≡ parts }
    {
        RangeDecoderU16 {
            lower: parts.lower,
            range: parts.range,
            point: parts.point,
            pos: parts.pos,
        }
    }
}
