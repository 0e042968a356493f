// Written by tools/sizes from u32.rt.
//! Converts the C functions' structs to the types that the calls of `constriction_calls` take, and back.

ghost use Rattle.constriction_c.specs.U32.{heads_u32};
ghost use Rattle.std.specs.Prelude.{◌≡◌};

use crate::chain::u32::ChainHeadsU32;
use constriction_calls::chain::ChainHeads;

impl ChainHeadsU32 {
    /// Returns the struct's fields as the type that the calls of `constriction_calls` take.
    #[inline]
    pub fn parts(&self) -> ChainHeads<u32, u64>
        ensures { result ≡ heads_u32 self.now }
    {
        ChainHeads {
            remainders: self.remainders,
            compressed: self.compressed,
        }
    }

    /// Creates the struct from `parts`, which a call of `constriction_calls` has set or returned.
    #[inline]
    pub fn of(parts: ChainHeads<u32, u64>) -> Self
        ensures { heads_u32 result ≡ parts }
    {
        ChainHeadsU32 {
            remainders: parts.remainders,
            compressed: parts.compressed,
        }
    }
}
