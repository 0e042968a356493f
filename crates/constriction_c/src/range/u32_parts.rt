// Written by tools/sizes from u32.rt.
//! Converts the C functions' structs to the types that the calls of `constriction_calls` take, and back.

ghost use Rattle.constriction_c.specs.U32.{decoder_u32, encoder_u32};
ghost use Rattle.std.specs.Prelude.{◌≡◌};

use crate::range::u32::{RangeDecoderU32, RangeEncoderU32};
use constriction_calls::range::parts::{DecoderParts, EncoderParts};

impl RangeEncoderU32 {
    /// Returns the struct's fields as the type that the calls of `constriction_calls` take.
    #[inline]
    pub fn parts(&self) -> EncoderParts<u32, u64>
        ensures { result ≡ encoder_u32 self.now }
    {
        EncoderParts {
            lower: self.lower,
            range: self.range,
            held: self.held,
            first: self.first,
        }
    }

    /// Creates the struct from `parts`, which a call of `constriction_calls` has set or returned.
    #[inline]
    pub fn of(parts: EncoderParts<u32, u64>) -> Self
        ensures { encoder_u32 result ≡ parts }
    {
        RangeEncoderU32 {
            lower: parts.lower,
            range: parts.range,
            held: parts.held,
            first: parts.first,
        }
    }
}

impl RangeDecoderU32 {
    /// Returns the struct's fields as the type that the calls of `constriction_calls` take.
    #[inline]
    pub fn parts(&self) -> DecoderParts<u64>
        ensures { result ≡ decoder_u32 self.now }
    {
        DecoderParts {
            lower: self.lower,
            range: self.range,
            point: self.point,
            pos: self.pos,
        }
    }

    /// Creates the struct from `parts`, which a call of `constriction_calls` has set or returned.
    #[inline]
    pub fn of(parts: DecoderParts<u64>) -> Self
        ensures { decoder_u32 result ≡ parts }
    {
        RangeDecoderU32 {
            lower: parts.lower,
            range: parts.range,
            point: parts.point,
            pos: parts.pos,
        }
    }
}
