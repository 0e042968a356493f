//! Reverses the lowest bits of a word, and converts a number to another word type.
//!
//! `BitArray` has no conversion between word types, so [`same_number`] loops over the bits. The compiler turns a loop
//! of up to about twenty iterations into a move. So [`same_number`] runs four loops, and each loop goes over one
//! quarter of the bits of the smaller type.

ghost use Rattle.constriction_symbol.specs.Bits.{bits_of};
ghost use Rattle.constriction_symbol.specs.Golomb.{number_after};
ghost use Rattle.std.specs.Prelude.{[], reverse, ◌*◌, ◌+◌, ◌/◌, ◌<◌, ◌^◌, ◌∷◌, ◌≡◌, ◌≤◌};

use constriction_words::BitArray;

/// Returns the lowest `count` bits of `bits` in reverse order.
///
/// The caller proves that `count` is at most `Word::BITS`, and that all higher bits are 0.
#[inline]
pub fn first_lowest<Word: BitArray>(bits: Word, count: u32) -> Word
    requires within { count ≤ Word.BITS }
    requires small { Word.number bits < 2 ^ count }
    ensures bits { bits_of count (Word.number result) ≡ reverse (bits_of count (Word.number bits)) }
    ensures small { Word.number result < 2 ^ count }
{
    if count == 0 {
        return bits;
    }
    bits.reversed_bits().shift_right(Word::BITS - count)
}

/// Converts `number` to another word type. The caller proves that `number` fits that type.
#[inline]
pub fn same_number<From: BitArray, To: BitArray>(number: From) -> To
    requires { From.number number < 2 ^ To.BITS }
    ensures { To.number result ≡ From.number number }
{
    let bits = if To::BITS < From::BITS {
        To::BITS
    } else {
        From::BITS
    };
    let quarter = bits / 4;
    let first = same_down_to(number, To::nothing(), bits, 3 * quarter);
    let half = same_down_to(number, first, 3 * quarter, 2 * quarter);
    let most = same_down_to(number, half, 2 * quarter, quarter);
    same_down_to(number, most, quarter, 0)
}

/// Returns `number / 2^to`, rounded down, in the type `To`.
///
/// The caller proves that `done` is `number / 2^from`, rounded down, and that `number` fits the type `To`. The caller
/// also proves that `to` is at most `from`, and `from` at most `From::BITS`.
#[inline]
fn same_down_to<From: BitArray, To: BitArray>(number: From, done: To, from: u32, to: u32) -> To
    requires order { to ≤ from }
    requires within { from ≤ From.BITS }
    requires fits { From.number number < 2 ^ To.BITS }
    requires done { To.number done ≡ From.number number / 2 ^ from }
    ensures { To.number result ≡ From.number number / 2 ^ to }
{
    let mut same = done;
    let mut left = from;
    while left > to {
        left -= 1;
        same = doubled(same, !number.shift_right(left).low_bits(1).is_nothing());
    }
    same
}

/// Returns `2 * number`, plus 1 if `bit` is set. The caller proves that `2 * number + 1` fits the type.
#[inline]
pub fn doubled<N: BitArray>(number: N, bit: bool) -> N
    requires { 2 * N.number number + 1 < 2 ^ N.BITS }
    ensures { N.number result ≡ number_after (N.number number) (bit ∷ []) }
{
    let twice = number.plus(number);
    if bit { twice.plus(N::unit()) } else { twice }
}
