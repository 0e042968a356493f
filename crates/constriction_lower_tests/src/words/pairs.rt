//! Tests of the methods that take two words.

use super::arithmetic::{difference, div_rem, product, quotient, quotient_by, remainder, sum};
use constriction_words::{BitArray, Natural};

/// Two words, and the results that the methods of [`Natural`] and [`BitArray`] should return for them.
#[derive(Drop)]
pub struct Pair<W> {
    pub numbers: (W, W),
    /// The sum, difference, product, quotient and remainder, each `None` if the precondition of its method fails.
    pub exact: [Option<W>; 5],
    pub is_below: bool,
    /// The wrapping sum and difference.
    pub wrapping: (W, W),
}

/// Returns whether the methods return the expected results for the two bytes of `pair`.
fn is_pair(pair: &Pair<u8>) -> bool {
    let (first, second) = pair.numbers;
    let [added, taken, times, ratio, left] = pair.exact;
    let (quickly, rest) = div_rem(first, second, 8);
    let (slowly, same_rest) = div_rem(first, second, <u8 as Natural>::BITS);
    let exact = [
        sum(first, second),
        difference(first, second),
        product(first, second),
        quotient(first, second),
        quotient_by(first, second),
        quickly,
        slowly,
        remainder(first, second),
        rest,
        same_rest,
    ];
    exact
        == [
            added, taken, times, ratio, ratio, ratio, ratio, left, left, left,
        ]
        && first.is_below(second) == pair.is_below
        && first.wrapping_plus(second) == pair.wrapping.0
        && first.wrapping_minus(second) == pair.wrapping.1
}

/// Returns whether the methods of `u8` return the expected results for each of `pairs`.
fn are_pairs(pairs: &[Pair<u8>]) -> bool {
    for pair in pairs {
        if !is_pair(pair) {
            return false;
        }
    }
    true
}

/// Makes a pair of bytes from its fields.
fn bytes(
    numbers: (u8, u8),
    exact: [Option<u8>; 5],
    is_below: bool,
    wrapping: (u8, u8),
) -> Pair<u8> {
    Pair {
        numbers,
        exact,
        is_below,
        wrapping,
    }
}

#[test]
fn pairs_of_u8(rt: HostRuntime) {
    assert!(rt;
        are_pairs(&[
            bytes(
                (0, 255),
                [Some(255), None, Some(0), Some(0), Some(0)],
                true,
                (255, 1)
            ),
            bytes(
                (1, 254),
                [Some(255), None, Some(254), Some(0), Some(1)],
                true,
                (255, 3)
            ),
            bytes(
                (255, 1),
                [None, Some(254), Some(255), Some(255), Some(0)],
                false,
                (0, 254)
            ),
            bytes(
                (255, 255),
                [None, Some(0), None, Some(1), Some(0)],
                false,
                (254, 0)
            ),
            bytes(
                (254, 16),
                [None, Some(238), None, Some(15), Some(14)],
                false,
                (14, 238)
            ),
            bytes(
                (16, 255),
                [None, None, None, Some(0), Some(16)],
                true,
                (15, 17)
            ),
            bytes(
                (16, 15),
                [Some(31), Some(1), Some(240), Some(1), Some(1)],
                false,
                (31, 1)
            ),
            bytes(
                (16, 16),
                [Some(32), Some(0), None, Some(1), Some(0)],
                false,
                (32, 0)
            ),
            bytes(
                (255, 0),
                [Some(255), Some(255), Some(0), None, None],
                false,
                (255, 255)
            ),
        ])
    );
}
