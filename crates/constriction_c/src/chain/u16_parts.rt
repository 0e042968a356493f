// Written by tools/sizes from u32_parts.rt.
//! Converts the C functions' structs to the types that the calls of `constriction_calls` take, and back.

ghost use Rattle.constriction_c.specs.U16.{heads_u16};
ghost use Rattle.std.specs.Prelude.{◌≡◌};

use crate::chain::u16::ChainHeadsU16;
use constriction_calls::chain::ChainHeads;

impl ChainHeadsU16 {
    /// Returns the struct's fields as the type that the calls of `constriction_calls` take.
    #[inline]
    pub fn parts(&self) -> ChainHeads<u16, u32>
        ensures { result ≡ heads_u16 self.now }
    {
        ChainHeads {
            remainders: self.remainders,
            compressed: self.compressed,
        }
    }

    /// Creates the struct from `parts`, which a call of `constriction_calls` has set or returned.
    #[inline]
    pub fn of(parts: ChainHeads<u16, u32>) -> Self
        ensures { heads_u16 result ≡ parts }
    {
        ChainHeadsU16 {
            remainders: parts.remainders,
            compressed: parts.compressed,
        }
    }
}
