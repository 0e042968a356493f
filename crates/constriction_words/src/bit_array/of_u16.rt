// Implements `Natural` and `BitArray` for `u16`, with the operations of the primitive type and of `num_traits`.

ghost use Rattle.std.specs.Prelude.{◌+◌, ◌-◌, ◌%◌, ◌^◌};
ghost use Rattle.std.proofs.Common.{rules};
ghost use Rattle.std.specs.Int.NonZero.{non_zero_u16_get};
ghost use Rattle.constriction_words.specs.Numbers.{above_zero, below_power};

use super::BitArray;
use crate::natural::Natural;
use crate::reciprocal::Reciprocal;
use num_traits::{PrimInt, WrappingAdd, WrappingSub};
use std::num::NonZero;

impl Natural for u16 {
    ghost BITS = { 16 };

    const BITS: u32 = u16::BITS;

    ghost number = { λ x. x % 2 ^ 16 };

    fn nothing() -> u16 {
        0
    }

    fn unit() -> u16 {
        1
    }

    fn greatest() -> u16 {
        u16::MAX
    }

    fn is_nothing(self) -> bool {
        self == 0
    }

    fn is_below(self, other: u16) -> bool {
        self < other
    }

    fn plus(self, other: u16) -> u16 {
        self + other
    }

    fn minus(self, other: u16) -> u16 {
        self - other
    }

    fn times(self, other: u16) -> u16 {
        self * other
    }

    fn wrapping_plus(self, other: u16) -> u16 {
        WrappingAdd::wrapping_add(&self, &other)
    }

    fn wrapping_minus(self, other: u16) -> u16 {
        WrappingSub::wrapping_sub(&self, &other)
    }

    fn to_index(self) -> usize {
        self as usize
    }

    ghost number_law = { below_power 16 };

    ghost bits_law = { Prim.search rules };
}

impl BitArray for u16 {
    type NonZero = NonZero<u16>;

    ghost nonzero_number = { λ n. (non_zero_u16_get n - 1) % (2 ^ 16 - 1) + 1 };

    fn quotient(self, other: u16) -> u16 {
        self / other
    }

    fn quotient_by(self, _other: u16, reciprocal: Reciprocal) -> u16 {
        reciprocal.quotient(self as u64) as u16
    }

    fn remainder(self, other: u16) -> u16 {
        self % other
    }

    fn shift_left(self, by: u32) -> u16 {
        self << by
    }

    fn shift_right(self, by: u32) -> u16 {
        self >> by
    }

    fn low_bits(self, count: u32) -> u16 {
        self & ((1 << count) - 1)
    }

    fn reversed_bits(self) -> u16 {
        u16::reverse_bits(self)
    }

    fn bit_length(self) -> u32 {
        u16::BITS - PrimInt::leading_zeros(self)
    }

    fn to_nonzero(self) -> Option<NonZero<u16>> {
        NonZero::<u16>::new(self)
    }

    fn from_nonzero(nonzero: NonZero<u16>) -> u16 {
        nonzero.get()
    }

    ghost nonzero_law = { λ n. above_zero ((non_zero_u16_get n - 1) % (2 ^ 16 - 1)) };
}
