//! Generic functions that call methods of `BitArray` and need no preconditions.
//!
//! Each word is below `2^BITS`, so that all results fit.

ghost use Rattle.std.specs.Prelude.{◌≡◌, ◌+◌, ◌/◌, ◌^◌, ◌<◌};

use constriction_words::BitArray;
use num_traits::{PrimInt, WrappingAdd, WrappingSub};

/// Returns the mean of two words, rounded down. All sums fit, because each word is below `2^BITS`.
fn mean<Word: BitArray>(first: Word, second: Word) -> Word
    ensures { Word.number result ≡ (Word.number first + Word.number second) / 2 }
{
    let odd = first.low_bits(1).times(second.low_bits(1));
    first.shift_right(1).plus(second.shift_right(1)).plus(odd)
}

/// Returns a number of bits that `word` fits, computed with methods of `BitArray` and of `PrimInt`.
///
/// Each word fits `BITS` bits, because it is below `2^BITS`.
fn enough_bits<Word: BitArray + PrimInt>(word: Word) -> u32
    ensures { Word.number word < 2 ^ result }
{
    if word.leading_zeros() == 0 {
        Word::BITS
    } else {
        word.bit_length()
    }
}

/// Returns whether the methods of `BitArray` agree with the corresponding methods of `num_traits`.
fn agree<Word>(first: Word, second: Word) -> bool
where
    Word: BitArray + PrimInt + WrappingAdd + WrappingSub,
{
    Word::nothing() == Word::zero()
        && Word::unit() == Word::one()
        && Word::greatest() == Word::max_value()
        && first.is_nothing() == first.is_zero()
        && first.is_below(second) == (first < second)
        && first.wrapping_plus(second) == first.wrapping_add(&second)
        && first.wrapping_minus(second) == first.wrapping_sub(&second)
}

#[test]
fn means(rt: HostRuntime) {
    for (first, second, want) in [(0, 255, 127), (255, 255, 255), (3, 6, 4), (254, 255, 254)] {
        assert!(rt; mean::<u8>(first, second) == want);
    }
    assert!(rt; mean::<u128>(u128::MAX, 1) == 170141183460469231731687303715884105728);
}

#[test]
fn both_traits(rt: HostRuntime) {
    assert!(rt;
        agree::<u8>(0, 255)
            && agree::<u16>(256, 65535)
            && agree::<u64>(18446744073709551615, 1)
            && enough_bits::<u32>(4294967295) == 32
            && enough_bits::<u32>(65535) == 16
    );
}
