// Implements `Natural` and `BitArray` for `u32`, with the operations of the primitive type and of `num_traits`.

ghost use Rattle.std.specs.Prelude.{◌+◌, ◌-◌, ◌%◌, ◌^◌};
ghost use Rattle.std.proofs.Common.{rules};
ghost use Rattle.std.specs.Int.NonZero.{non_zero_u32_get};
ghost use Rattle.constriction_words.specs.Numbers.{above_zero, below_power};

use super::BitArray;
use crate::natural::Natural;
use crate::reciprocal::Reciprocal;
use num_traits::{PrimInt, WrappingAdd, WrappingSub};
use std::num::NonZero;

impl Natural for u32 {
    ghost BITS = { 32 };

    const BITS: u32 = u32::BITS;

    ghost number = { λ x. x % 2 ^ 32 };

    fn nothing() -> u32 {
        0
    }

    fn unit() -> u32 {
        1
    }

    fn greatest() -> u32 {
        u32::MAX
    }

    fn is_nothing(self) -> bool {
        self == 0
    }

    fn is_below(self, other: u32) -> bool {
        self < other
    }

    fn plus(self, other: u32) -> u32 {
        self + other
    }

    fn minus(self, other: u32) -> u32 {
        self - other
    }

    fn times(self, other: u32) -> u32 {
        self * other
    }

    fn wrapping_plus(self, other: u32) -> u32 {
        WrappingAdd::wrapping_add(&self, &other)
    }

    fn wrapping_minus(self, other: u32) -> u32 {
        WrappingSub::wrapping_sub(&self, &other)
    }

    fn to_index(self) -> usize {
        self as usize
    }

    ghost number_law = { below_power 32 };

    ghost bits_law = { Prim.search rules };
}

impl BitArray for u32 {
    type NonZero = NonZero<u32>;

    ghost nonzero_number = { λ n. (non_zero_u32_get n - 1) % (2 ^ 32 - 1) + 1 };

    fn quotient(self, other: u32) -> u32 {
        self / other
    }

    fn quotient_by(self, _other: u32, reciprocal: Reciprocal) -> u32 {
        reciprocal.quotient(self as u64) as u32
    }

    fn remainder(self, other: u32) -> u32 {
        self % other
    }

    fn div_rem(self, other: u32, _length: u32) -> (u32, u32) {
        // At most the exact quotient, and at least that minus 1.
        let inverse = u32::MAX / other;
        let quotient = ((self as u64 * inverse as u64) >> 32) as u32;
        let rest = self - quotient * other;
        if rest < other {
            (quotient, rest)
        } else {
            (quotient + 1, rest - other)
        }
    }

    fn shift_left(self, by: u32) -> u32 {
        self << by
    }

    fn shift_right(self, by: u32) -> u32 {
        self >> by
    }

    fn low_bits(self, count: u32) -> u32 {
        self & ((1 << count) - 1)
    }

    fn reversed_bits(self) -> u32 {
        u32::reverse_bits(self)
    }

    fn bit_length(self) -> u32 {
        u32::BITS - PrimInt::leading_zeros(self)
    }

    fn to_nonzero(self) -> Option<NonZero<u32>> {
        NonZero::<u32>::new(self)
    }

    fn from_nonzero(nonzero: NonZero<u32>) -> u32 {
        nonzero.get()
    }

    ghost nonzero_law = { λ n. above_zero ((non_zero_u32_get n - 1) % (2 ^ 32 - 1)) };
}
