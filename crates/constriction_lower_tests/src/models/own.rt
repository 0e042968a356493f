//! Tests that the quantizer accepts a user-defined distribution, and references to it.

ghost use Rattle.std.proofs.Common.{arith};

use super::cuts::{cuts, interval_of};
use constriction_models::distribution::CumulativeDistribution;
use constriction_models::quantizer::LeakyQuantizer;

/// A distribution with half of its probability far below all symbols, and the other half far above them.
#[derive(Clone, Copy)]
struct FarEnds;

impl CumulativeDistribution for FarEnds {
    ghost below = { λ _ _. 2147483648 };

    ghost never_falls = { λ _. record { rises = λ x y order. Prim.omega arith; within = λ x. Prim.omega arith } };

    fn cumulative(&self, _place: i64) -> u64 {
        2147483648
    }

    fn guess(&self, _below: u64) -> i64 {
        i64::MIN
    }
}

/// Returns whether five symbols share 256 quantiles as expected.
///
/// Each symbol gets one quantile. Of the other 251, the first symbol gets 125, and the last symbol gets 126.
fn ends_share<D: CumulativeDistribution>(distribution: &D) -> bool {
    match LeakyQuantizer::<u32, 8>::new(-2, 2) {
        Ok(quantizer) => {
            let model = quantizer.quantize(distribution);
            cuts(&model, 256, &[-2, -1, 0, 1, 2])
                && interval_of(&model, &-2) == Some((0, 126))
                && interval_of(&model, &-1) == Some((126, 1))
                && interval_of(&model, &2) == Some((129, 127))
        }
        Err(_) => false,
    }
}

#[test]
fn far_ends_share(rt: HostRuntime) {
    assert!(rt; ends_share(&FarEnds) && ends_share(&&FarEnds));
}
