//! Tests that floats become the counts that exact fractions give, rounded half to even.

use constriction_models::categorical::CategoricalCounts;
use constriction_models::counts::weights_of_counts;
use constriction_models::floats::{FloatsError, counts_of_floats, put_quick_counts};
use std::alloc::Global;

/// Returns whether `expected` are the counts of `floats` for `weights_of_counts`.
fn are(alloc: Global, floats: &[u64], expected: &[u64]) -> bool {
    match counts_of_floats(alloc, floats) {
        Ok(counts) => counts.as_slice() == expected,
        Err(_) => false,
    }
}

/// Returns whether `counts`, which holds other counts, becomes `expected`, the counts of `floats` for
/// `CategoricalCounts`.
fn are_quick(floats: &[u64], counts: &mut [u32], expected: &[u32]) -> bool {
    if floats.len() != counts.len() {
        return false;
    }
    match put_quick_counts(floats, counts) {
        Ok(()) => *counts == *expected,
        Err(_) => false,
    }
}

/// Returns whether both calls refuse `floats` with `expected`. Then the counts are unchanged.
fn refuse(alloc: Global, floats: &[u64; 2], expected: FloatsError) -> bool {
    let mut counts = [7; 2];
    let first = match counts_of_floats(alloc, floats) {
        Ok(_) => false,
        Err(error) => error == expected,
    };
    match put_quick_counts(floats, &mut counts) {
        Ok(()) => false,
        Err(error) => first && error == expected && counts == [7; 2],
    }
}

#[test]
fn floats_have_counts(rt: HostRuntime) {
    let alloc = rt.alloc();
    // 1.0, 0.5, 0.0, 0.25
    assert!(rt;
        are(
            alloc,
            &[
                0x3FF0_0000_0000_0000,
                0x3FE0_0000_0000_0000,
                0,
                0x3FD0_0000_0000_0000
            ],
            &[
                2305843009213693952,
                1152921504606846976,
                1,
                576460752303423488
            ]
        )
    );
    // 0.1, 0.2, 0.3, 0.4
    assert!(rt;
        are(
            alloc,
            &[
                0x3FB9_9999_9999_999A,
                0x3FC9_9999_9999_999A,
                0x3FD3_3333_3333_3333,
                0x3FD9_9999_9999_999A
            ],
            &[
                922337203685477632,
                1844674407370955264,
                2767011611056432640,
                3689348814741910528
            ]
        )
    );
    // 1, 2 and 5 units of 2^-1074
    assert!(rt;
        are(
            alloc,
            &[1, 2, 5],
            &[576460752303423488, 1152921504606846976, 2882303761517117440]
        )
    );
    // 1.7e308, 1e-300, -0.0, 3.0
    assert!(rt;
        are(
            alloc,
            &[
                0x7FEE_42D1_3077_3B76,
                0x01A5_6E1F_C2F8_F359,
                0x8000_0000_0000_0000,
                0x4008_0000_0000_0000
            ],
            &[4361070351379524608, 1, 1, 1]
        )
    );
    // 2^-1022, the greatest subnormal float, 2^-1074, 2^-1060
    assert!(rt;
        are(
            alloc,
            &[0x0010_0000_0000_0000, 0x000F_FFFF_FFFF_FFFF, 1, 0x4000],
            &[2305843009213693952, 2305843009213693440, 512, 8388608]
        )
    );
}

#[test]
fn halves_go_to_even(rt: HostRuntime) {
    // 1.0, and 1, 3 and 5 times 2^-31, and the float above 2^-31, and 1, 3 and 5 times 2^-62
    let floats = [
        0x3FF0_0000_0000_0000,
        0x3E00_0000_0000_0000,
        0x3E18_0000_0000_0000,
        0x3E24_0000_0000_0000,
        0x3E00_0000_0000_0001,
        0x3C10_0000_0000_0000,
        0x3C28_0000_0000_0000,
        0x3C34_0000_0000_0000,
    ];
    let mut counts = [9; 8];
    assert!(rt; are_quick(&floats, &mut counts, &[1073741824, 0, 2, 2, 1, 0, 0, 0]));
    assert!(rt;
        are(
            rt.alloc(),
            &floats,
            &[
                2305843009213693952,
                1073741824,
                3221225472,
                5368709120,
                1073741824,
                1,
                2,
                2
            ]
        )
    );
}

#[test]
fn large_sums_have_fewer_bits(rt: HostRuntime) {
    // 520 times the float below 1.0, and then 2^-30, 0.7, 9 times 2^-33
    let mut floats = [0x3FEF_FFFF_FFFF_FFFF; 523];
    floats[520] = 0x3E10_0000_0000_0000;
    floats[521] = 0x3FE6_6666_6666_6666;
    floats[522] = 0x3E12_0000_0000_0000;
    let mut expected = [536870912; 523];
    expected[520] = 0;
    expected[521] = 375809638;
    expected[522] = 1;
    let mut counts = [9; 523];
    assert!(rt; are_quick(&floats, &mut counts, &expected));
    assert!(rt; CategoricalCounts::<u32, 24>::have_table(&counts));
}

#[test]
fn other_floats_are_refused(rt: HostRuntime) {
    let alloc = rt.alloc();
    assert!(rt; refuse(alloc, &[0, 0x8000_0000_0000_0000], FloatsError::Empty));
    assert!(rt;
        refuse(
            alloc,
            &[0x3FF0_0000_0000_0000, 0x7FF0_0000_0000_0000],
            FloatsError::Invalid
        )
    );
    assert!(rt; refuse(alloc, &[0x7FF8_0000_0000_0000, 0], FloatsError::Invalid));
    assert!(rt; refuse(alloc, &[0, 0x8000_0000_0000_0001], FloatsError::Invalid));
    assert!(rt; refuse(alloc, &[0, 0xFFF8_0000_0000_0000], FloatsError::Invalid));
    assert!(rt; refuse(alloc, &[0xBFF0_0000_0000_0000, 1], FloatsError::Invalid));
}

/// Returns whether the counts of `floats` make weights at a precision of 24 bits.
fn make_weights(alloc: Global, floats: &[u64]) -> bool {
    match counts_of_floats(alloc, floats) {
        Ok(counts) => weights_of_counts(alloc, counts.as_slice(), 24).is_ok(),
        Err(_) => false,
    }
}

#[test]
fn counts_make_weights(rt: HostRuntime) {
    assert!(rt;
        make_weights(
            rt.alloc(),
            &[0x3FB9_9999_9999_999A, 0, 0x3FC9_9999_9999_999A, 1]
        )
    );
}
