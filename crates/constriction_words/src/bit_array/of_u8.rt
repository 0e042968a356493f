// Implements `Natural` and `BitArray` for `u8`, with the operations of the primitive type and of `num_traits`.

ghost use Rattle.std.specs.Prelude.{◌+◌, ◌-◌, ◌%◌, ◌^◌};
ghost use Rattle.std.proofs.Common.{rules};
ghost use Rattle.std.specs.Int.NonZero.{non_zero_u8_get};
ghost use Rattle.constriction_words.specs.Numbers.{above_zero, below_power};

use super::BitArray;
use crate::natural::Natural;
use crate::reciprocal::Reciprocal;
use num_traits::{PrimInt, WrappingAdd, WrappingSub};
use std::num::NonZero;

impl Natural for u8 {
    ghost BITS = { 8 };

    const BITS: u32 = u8::BITS;

    ghost number = { λ x. x % 2 ^ 8 };

    fn nothing() -> u8 {
        0
    }

    fn unit() -> u8 {
        1
    }

    fn greatest() -> u8 {
        u8::MAX
    }

    fn is_nothing(self) -> bool {
        self == 0
    }

    fn is_below(self, other: u8) -> bool {
        self < other
    }

    fn plus(self, other: u8) -> u8 {
        self + other
    }

    fn minus(self, other: u8) -> u8 {
        self - other
    }

    fn times(self, other: u8) -> u8 {
        self * other
    }

    fn wrapping_plus(self, other: u8) -> u8 {
        WrappingAdd::wrapping_add(&self, &other)
    }

    fn wrapping_minus(self, other: u8) -> u8 {
        WrappingSub::wrapping_sub(&self, &other)
    }

    fn to_index(self) -> usize {
        self as usize
    }

    ghost number_law = { below_power 8 };

    ghost bits_law = { Prim.search rules };
}

impl BitArray for u8 {
    type NonZero = NonZero<u8>;

    ghost nonzero_number = { λ n. (non_zero_u8_get n - 1) % (2 ^ 8 - 1) + 1 };

    fn quotient(self, other: u8) -> u8 {
        self / other
    }

    fn quotient_by(self, _other: u8, reciprocal: Reciprocal) -> u8 {
        reciprocal.quotient(self as u64) as u8
    }

    fn remainder(self, other: u8) -> u8 {
        self % other
    }

    fn shift_left(self, by: u32) -> u8 {
        self << by
    }

    fn shift_right(self, by: u32) -> u8 {
        self >> by
    }

    fn low_bits(self, count: u32) -> u8 {
        self & ((1 << count) - 1)
    }

    fn reversed_bits(self) -> u8 {
        u8::reverse_bits(self)
    }

    fn bit_length(self) -> u32 {
        u8::BITS - PrimInt::leading_zeros(self)
    }

    fn to_nonzero(self) -> Option<NonZero<u8>> {
        NonZero::<u8>::new(self)
    }

    fn from_nonzero(nonzero: NonZero<u8>) -> u8 {
        nonzero.get()
    }

    ghost nonzero_law = { λ n. above_zero ((non_zero_u8_get n - 1) % (2 ^ 8 - 1)) };
}
