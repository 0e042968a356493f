//! Tests of the methods that take one word.

use super::arithmetic::{index, shifted, through_nonzero};
use constriction_words::{BitArray, Natural};

/// A word, and the results that the methods of [`Natural`] and [`BitArray`] should return for it.
#[derive(Drop)]
pub struct Single<W> {
    pub number: W,
    pub by: u32,
    /// `number` shifted left by `by` bits, or `None` if the result doesn't fit.
    pub left: Option<W>,
    /// `number` shifted right by `by` bits, and the lowest `by` bits of `number`.
    pub right_and_low: (W, W),
    pub length: u32,
    /// `number` with its bits in reverse order.
    pub reversed: W,
}

/// Returns whether the methods return the results of `single`.
fn is_single(single: &Single<u8>) -> bool {
    let number = single.number;
    single.by < <u8 as Natural>::BITS
        && shifted(number, single.by) == single.left
        && number.shift_right(single.by) == single.right_and_low.0
        && number.low_bits(single.by) == single.right_and_low.1
        && number.bit_length() == single.length
        && number.reversed_bits() == single.reversed
        && number.is_nothing() == (single.length == 0)
        && through_nonzero(number) == number
        && number.to_nonzero().is_none() == (single.length == 0)
}

/// Returns whether the constants of `u8` and the results of its methods are the expected ones.
///
/// Each of `singles` holds a word and the results that the methods should return for it.
/// `bits` is the expected `BITS`. `named` holds the expected `nothing()`, `unit()` and `greatest()`.
fn are_singles(bits: u32, named: (u8, u8, u8), singles: &[Single<u8>]) -> bool {
    for single in singles {
        if !is_single(single) {
            return false;
        }
    }
    <u8 as Natural>::BITS == bits && (u8::nothing(), u8::unit(), u8::greatest()) == named
}

/// Returns whether `index` returns `indices` for `words`.
fn are_indices<W: BitArray>(words: &[W], indices: &[Option<usize>]) -> bool {
    if words.len() != indices.len() {
        return false;
    }
    for at in 0..words.len() {
        if index(words[at]) != indices[at] {
            return false;
        }
    }
    true
}

/// Makes the `Single` of a byte from its fields.
fn byte(
    number: u8,
    by: u32,
    left: Option<u8>,
    right_and_low: (u8, u8),
    length: u32,
    reversed: u8,
) -> Single<u8> {
    Single {
        number,
        by,
        left,
        right_and_low,
        length,
        reversed,
    }
}

#[test]
fn singles_of_u8(rt: HostRuntime) {
    assert!(rt;
        are_singles(
            8,
            (0, 1, 255),
            &[
                byte(0, 7, Some(0), (0, 0), 0, 0),
                byte(1, 7, Some(128), (0, 1), 1, 128),
                byte(255, 1, None, (127, 1), 8, 255),
                byte(255, 0, Some(255), (255, 0), 8, 255),
                byte(254, 7, None, (1, 126), 8, 127),
                byte(16, 3, Some(128), (2, 0), 5, 8),
                byte(16, 4, None, (1, 0), 5, 8),
            ]
        )
    );
    assert!(rt;
        are_indices(
            &[0u8, 1, 16, 254, 255],
            &[Some(0), Some(1), Some(16), Some(254), Some(255)]
        )
    );
}
