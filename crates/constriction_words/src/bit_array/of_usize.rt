// Implements `Natural` and `BitArray` for `usize`, with the operations of the primitive type and of `num_traits`.

ghost use Rattle.std.specs.Prelude.{◌+◌, ◌-◌, ◌%◌, ◌^◌};
ghost use Rattle.std.proofs.Common.{rules};
ghost use Rattle.std.specs.Int.NonZero.{non_zero_usize_get};
ghost use Rattle.constriction_words.specs.Numbers.{above_zero, below_power};

use super::BitArray;
use crate::natural::Natural;
use crate::reciprocal::Reciprocal;
use crate::{division, reversing};
use num_traits::{PrimInt, WrappingAdd, WrappingSub};
use std::num::NonZero;

impl Natural for usize {
    ghost BITS = { 64 };

    const BITS: u32 = usize::BITS;

    ghost number = { λ x. x % 2 ^ 64 };

    fn nothing() -> usize {
        0
    }

    fn unit() -> usize {
        1
    }

    fn greatest() -> usize {
        usize::MAX
    }

    fn is_nothing(self) -> bool {
        self == 0
    }

    fn is_below(self, other: usize) -> bool {
        self < other
    }

    fn plus(self, other: usize) -> usize {
        self + other
    }

    fn minus(self, other: usize) -> usize {
        self - other
    }

    fn times(self, other: usize) -> usize {
        self * other
    }

    fn wrapping_plus(self, other: usize) -> usize {
        WrappingAdd::wrapping_add(&self, &other)
    }

    fn wrapping_minus(self, other: usize) -> usize {
        WrappingSub::wrapping_sub(&self, &other)
    }

    fn to_index(self) -> usize {
        self
    }

    ghost number_law = { below_power 64 };

    ghost bits_law = { Prim.search rules };
}

impl BitArray for usize {
    type NonZero = NonZero<usize>;

    ghost nonzero_number = { λ n. (non_zero_usize_get n - 1) % (2 ^ 64 - 1) + 1 };

    fn quotient(self, other: usize) -> usize {
        self / other
    }

    fn quotient_by(self, _other: usize, reciprocal: Reciprocal) -> usize {
        reciprocal.quotient(self as u64) as usize
    }

    fn remainder(self, other: usize) -> usize {
        self % other
    }

    #[inline(always)]
    fn div_rem(self, other: usize, length: u32) -> (usize, usize) {
        let (quotient, rest) = division::div_rem(self as u64, other as u64, length);
        (quotient as usize, rest as usize)
    }

    fn shift_left(self, by: u32) -> usize {
        self << by
    }

    fn shift_right(self, by: u32) -> usize {
        self >> by
    }

    fn low_bits(self, count: u32) -> usize {
        self & ((1 << count) - 1)
    }

    fn reversed_bits(self) -> usize {
        reversing::reversed_long(self as u64) as usize
    }

    fn bit_length(self) -> u32 {
        usize::BITS - PrimInt::leading_zeros(self)
    }

    fn to_nonzero(self) -> Option<NonZero<usize>> {
        NonZero::<usize>::new(self)
    }

    fn from_nonzero(nonzero: NonZero<usize>) -> usize {
        nonzero.get()
    }

    ghost nonzero_law = { λ n. above_zero ((non_zero_usize_get n - 1) % (2 ^ 64 - 1)) };
}
