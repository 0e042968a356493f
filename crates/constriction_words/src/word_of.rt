//! `WordOf`: conversions between words of a type and words of a type that is at least as wide.

ghost use Rattle.std.specs.Prelude.{◌≡◌, ◌%◌, ◌^◌, ◌≤◌};
ghost use Rattle.std.proofs.Common.{rules};

use crate::bit_array::BitArray;

/// A word type that is no wider than the word type `T`, so that widening a word to `T` loses no bits.
///
/// Each word type `T` is `WordOf<T>`. In addition:
///
/// - `u8` is `WordOf<T>` for every other word type `T`.
/// - `u16` is `WordOf<T>` for `T` = `u32`, `u64`, `u128` and `usize`.
/// - `u32` is `WordOf<T>` for `T` = `u64` and `u128`.
/// - `u64` is `WordOf<T>` for `T` = `u128`.
///
/// An implementor proves three facts:
///
/// - `widen` keeps the number.
/// - `narrow` keeps the lowest `Self::BITS` bits.
/// - `Self::BITS` is at most `T::BITS` (`width_law`). Generic code may rely on this law, and its callers don't have to
///   prove it.
///
/// # Examples
///
/// ```
/// let wide: u64 = 7u32.widen(); // 7
/// let low = <u32 as WordOf<u64>>::narrow(4294967303); // 7, as 4294967303 is 2^32 + 7
/// ```
pub trait WordOf<T: BitArray>: BitArray {
    /// Converts the word to a `T` with the same number.
    fn widen(self) -> T
        ensures { T.number result ≡ Self.number self };

    /// Returns `wide` modulo `2 ^ Self::BITS`, which keeps the lowest `Self::BITS` bits of `wide`.
    fn narrow(wide: T) -> Self
        ensures { Self.number result ≡ T.number wide % 2 ^ Self.BITS };

    // A word is no wider than `T`.
    ghost width_law: { Self.BITS ≤ T.BITS };
}

impl WordOf<u8> for u8 {
    fn widen(self) -> u8 {
        self
    }

    fn narrow(wide: u8) -> u8 {
        wide
    }

    ghost width_law = { Prim.search rules };
}

impl WordOf<u16> for u16 {
    fn widen(self) -> u16 {
        self
    }

    fn narrow(wide: u16) -> u16 {
        wide
    }

    ghost width_law = { Prim.search rules };
}

impl WordOf<u32> for u32 {
    fn widen(self) -> u32 {
        self
    }

    fn narrow(wide: u32) -> u32 {
        wide
    }

    ghost width_law = { Prim.search rules };
}

impl WordOf<u64> for u64 {
    fn widen(self) -> u64 {
        self
    }

    fn narrow(wide: u64) -> u64 {
        wide
    }

    ghost width_law = { Prim.search rules };
}

impl WordOf<u128> for u128 {
    fn widen(self) -> u128 {
        self
    }

    fn narrow(wide: u128) -> u128 {
        wide
    }

    ghost width_law = { Prim.search rules };
}

impl WordOf<usize> for usize {
    fn widen(self) -> usize {
        self
    }

    fn narrow(wide: usize) -> usize {
        wide
    }

    ghost width_law = { Prim.search rules };
}

impl WordOf<u16> for u8 {
    fn widen(self) -> u16 {
        self as u16
    }

    fn narrow(wide: u16) -> u8 {
        (wide & u8::MAX as u16) as u8
    }

    ghost width_law = { Prim.search rules };
}

impl WordOf<u32> for u8 {
    fn widen(self) -> u32 {
        self as u32
    }

    fn narrow(wide: u32) -> u8 {
        (wide & u8::MAX as u32) as u8
    }

    ghost width_law = { Prim.search rules };
}

impl WordOf<u64> for u8 {
    fn widen(self) -> u64 {
        self as u64
    }

    fn narrow(wide: u64) -> u8 {
        (wide & u8::MAX as u64) as u8
    }

    ghost width_law = { Prim.search rules };
}

impl WordOf<u128> for u8 {
    fn widen(self) -> u128 {
        self as u128
    }

    fn narrow(wide: u128) -> u8 {
        (wide & u8::MAX as u128) as u8
    }

    ghost width_law = { Prim.search rules };
}

impl WordOf<usize> for u8 {
    fn widen(self) -> usize {
        self as usize
    }

    fn narrow(wide: usize) -> u8 {
        (wide & u8::MAX as usize) as u8
    }

    ghost width_law = { Prim.search rules };
}

impl WordOf<u32> for u16 {
    fn widen(self) -> u32 {
        self as u32
    }

    fn narrow(wide: u32) -> u16 {
        (wide & u16::MAX as u32) as u16
    }

    ghost width_law = { Prim.search rules };
}

impl WordOf<u64> for u16 {
    fn widen(self) -> u64 {
        self as u64
    }

    fn narrow(wide: u64) -> u16 {
        (wide & u16::MAX as u64) as u16
    }

    ghost width_law = { Prim.search rules };
}

impl WordOf<u128> for u16 {
    fn widen(self) -> u128 {
        self as u128
    }

    fn narrow(wide: u128) -> u16 {
        (wide & u16::MAX as u128) as u16
    }

    ghost width_law = { Prim.search rules };
}

impl WordOf<usize> for u16 {
    fn widen(self) -> usize {
        self as usize
    }

    fn narrow(wide: usize) -> u16 {
        (wide & u16::MAX as usize) as u16
    }

    ghost width_law = { Prim.search rules };
}

impl WordOf<u64> for u32 {
    fn widen(self) -> u64 {
        self as u64
    }

    fn narrow(wide: u64) -> u32 {
        (wide & u32::MAX as u64) as u32
    }

    ghost width_law = { Prim.search rules };
}

impl WordOf<u128> for u32 {
    fn widen(self) -> u128 {
        self as u128
    }

    fn narrow(wide: u128) -> u32 {
        (wide & u32::MAX as u128) as u32
    }

    ghost width_law = { Prim.search rules };
}

impl WordOf<u128> for u64 {
    fn widen(self) -> u128 {
        self as u128
    }

    fn narrow(wide: u128) -> u64 {
        (wide & u64::MAX as u128) as u64
    }

    ghost width_law = { Prim.search rules };
}
