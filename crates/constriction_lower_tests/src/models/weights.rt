//! Tests that `weights_of_counts` returns the rounded shares of counts, and gives ties to the first counts.

use constriction_base::weights::WeightTable;
use constriction_models::counts::weights_of_counts;
use std::alloc::Global;
use std::test::Fail;

/// Returns whether `expected` are the weights of `counts` at `precision`.
pub fn are(alloc: Global, counts: &[u64], precision: u32, expected: &[u32]) -> bool {
    if precision > 31 {
        return false;
    }
    match weights_of_counts(alloc, counts, precision) {
        Ok(weights) => weights.as_slice() == expected,
        Err(_) => false,
    }
}

#[test]
fn weights_are_shares(rt: HostRuntime) {
    let cases: [(u32, &[u64], &[u32]); 6] = [
        (4, &[1, 2, 3], &[3, 5, 8]),
        (3, &[0, 5, 0, 0, 1], &[0, 7, 0, 0, 1]),
        (12, &[7], &[4096]),
        (0, &[0, 5], &[0, 1]),
        (31, &[1, 0], &[2147483648, 0]),
        (
            24,
            &[99, 1, 100, 50, 7, 3],
            &[6388248, 64528, 6452775, 3226388, 451694, 193583],
        ),
    ];
    for (precision, counts, expected) in cases {
        assert!(rt; are(rt.alloc(), counts, precision, expected), "{counts:?}");
    }
}

#[test]
fn ties_go_to_the_first(rt: HostRuntime) {
    assert!(rt; are(rt.alloc(), &[1, 1, 1], 3, &[3, 3, 2]));
    assert!(rt; are(rt.alloc(), &[u64::MAX, u64::MAX, 1], 8, &[128, 127, 1]));
}

/// Returns whether a table can be made with the weights of `counts`.
fn make_a_table(alloc: Global, counts: &[u64]) -> bool {
    match weights_of_counts(alloc, counts, 24) {
        Ok(weights) => WeightTable::<u32, 24>::new(alloc, weights.as_slice()).is_ok(),
        Err(_) => false,
    }
}

#[test]
fn weights_make_a_table(rt: HostRuntime) -> Result<(), Fail> {
    assert!(rt; make_a_table(rt.alloc(), &[17, 0, 3, 123456789, 1]));
    Ok(())
}
