// Implements `Natural` and `BitArray` for `u64`, with the operations of the primitive type and of `num_traits`.

ghost use Rattle.std.specs.Prelude.{◌+◌, ◌-◌, ◌%◌, ◌^◌};
ghost use Rattle.std.proofs.Common.{rules};
ghost use Rattle.std.specs.Int.NonZero.{non_zero_u64_get};
ghost use Rattle.constriction_words.specs.Numbers.{above_zero, below_power};

use super::BitArray;
use crate::natural::Natural;
use crate::reciprocal::Reciprocal;
use crate::{division, reversing};
use num_traits::{PrimInt, WrappingAdd, WrappingSub};
use std::num::NonZero;

impl Natural for u64 {
    ghost BITS = { 64 };

    const BITS: u32 = u64::BITS;

    ghost number = { λ x. x % 2 ^ 64 };

    fn nothing() -> u64 {
        0
    }

    fn unit() -> u64 {
        1
    }

    fn greatest() -> u64 {
        u64::MAX
    }

    fn is_nothing(self) -> bool {
        self == 0
    }

    fn is_below(self, other: u64) -> bool {
        self < other
    }

    fn plus(self, other: u64) -> u64 {
        self + other
    }

    fn minus(self, other: u64) -> u64 {
        self - other
    }

    fn times(self, other: u64) -> u64 {
        self * other
    }

    fn wrapping_plus(self, other: u64) -> u64 {
        WrappingAdd::wrapping_add(&self, &other)
    }

    fn wrapping_minus(self, other: u64) -> u64 {
        WrappingSub::wrapping_sub(&self, &other)
    }

    fn to_index(self) -> usize {
        self as usize
    }

    ghost number_law = { below_power 64 };

    ghost bits_law = { Prim.search rules };
}

impl BitArray for u64 {
    type NonZero = NonZero<u64>;

    ghost nonzero_number = { λ n. (non_zero_u64_get n - 1) % (2 ^ 64 - 1) + 1 };

    fn quotient(self, other: u64) -> u64 {
        self / other
    }

    fn quotient_by(self, _other: u64, reciprocal: Reciprocal) -> u64 {
        reciprocal.quotient(self)
    }

    fn remainder(self, other: u64) -> u64 {
        self % other
    }

    #[inline(always)]
    fn div_rem(self, other: u64, length: u32) -> (u64, u64) {
        division::div_rem(self, other, length)
    }

    fn shift_left(self, by: u32) -> u64 {
        self << by
    }

    fn shift_right(self, by: u32) -> u64 {
        self >> by
    }

    fn low_bits(self, count: u32) -> u64 {
        self & ((1 << count) - 1)
    }

    fn reversed_bits(self) -> u64 {
        reversing::reversed_long(self)
    }

    fn bit_length(self) -> u32 {
        u64::BITS - PrimInt::leading_zeros(self)
    }

    fn to_nonzero(self) -> Option<NonZero<u64>> {
        NonZero::<u64>::new(self)
    }

    fn from_nonzero(nonzero: NonZero<u64>) -> u64 {
        nonzero.get()
    }

    ghost nonzero_law = { λ n. above_zero ((non_zero_u64_get n - 1) % (2 ^ 64 - 1)) };
}
