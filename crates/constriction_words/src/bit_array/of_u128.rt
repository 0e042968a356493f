// Implements `Natural` and `BitArray` for `u128`. Its `quotient_by` is the default method, which divides.

ghost use Rattle.std.specs.Prelude.{◌+◌, ◌-◌, ◌%◌, ◌^◌};
ghost use Rattle.std.proofs.Common.{rules};
ghost use Rattle.std.specs.Int.NonZero.{non_zero_u128_get};
ghost use Rattle.constriction_words.specs.Numbers.{above_zero, below_power};

use super::BitArray;
use crate::natural::Natural;
use crate::reversing;
use num_traits::{PrimInt, WrappingAdd, WrappingSub};
use std::num::NonZero;

impl Natural for u128 {
    ghost BITS = { 128 };

    const BITS: u32 = u128::BITS;

    ghost number = { λ x. x % 2 ^ 128 };

    fn nothing() -> u128 {
        0
    }

    fn unit() -> u128 {
        1
    }

    fn greatest() -> u128 {
        u128::MAX
    }

    fn is_nothing(self) -> bool {
        self == 0
    }

    fn is_below(self, other: u128) -> bool {
        self < other
    }

    fn plus(self, other: u128) -> u128 {
        self + other
    }

    fn minus(self, other: u128) -> u128 {
        self - other
    }

    fn times(self, other: u128) -> u128 {
        self * other
    }

    fn wrapping_plus(self, other: u128) -> u128 {
        WrappingAdd::wrapping_add(&self, &other)
    }

    fn wrapping_minus(self, other: u128) -> u128 {
        WrappingSub::wrapping_sub(&self, &other)
    }

    fn to_index(self) -> usize {
        self as usize
    }

    ghost number_law = { below_power 128 };

    ghost bits_law = { Prim.search rules };
}

impl BitArray for u128 {
    type NonZero = NonZero<u128>;

    ghost nonzero_number = { λ n. (non_zero_u128_get n - 1) % (2 ^ 128 - 1) + 1 };

    fn quotient(self, other: u128) -> u128 {
        self / other
    }

    fn remainder(self, other: u128) -> u128 {
        self % other
    }

    fn shift_left(self, by: u32) -> u128 {
        self << by
    }

    fn shift_right(self, by: u32) -> u128 {
        self >> by
    }

    fn low_bits(self, count: u32) -> u128 {
        self & ((1 << count) - 1)
    }

    fn reversed_bits(self) -> u128 {
        reversing::reversed_longest(self)
    }

    fn bit_length(self) -> u32 {
        u128::BITS - PrimInt::leading_zeros(self)
    }

    fn to_nonzero(self) -> Option<NonZero<u128>> {
        NonZero::<u128>::new(self)
    }

    fn from_nonzero(nonzero: NonZero<u128>) -> u128 {
        nonzero.get()
    }

    ghost nonzero_law = { λ n. above_zero ((non_zero_u128_get n - 1) % (2 ^ 128 - 1)) };
}
