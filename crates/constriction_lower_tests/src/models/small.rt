//! Tests of models of equally likely symbols, and of models of two symbols.

use super::cuts::{cuts, interval_of};
use constriction_models::bernoulli::BernoulliModel;
use constriction_models::errors::SupportError;
use constriction_models::uniform::UniformModel;

/// Returns whether a uniform model of `count` symbols is refused with `expected`, at a precision of 8 bits.
fn refuses(count: usize, expected: SupportError) -> bool {
    match UniformModel::<u16, 8>::new(count) {
        Ok(_) => false,
        Err(error) => error == expected,
    }
}

/// Returns whether ten symbols share 256 quantiles: 25 for each symbol, and 6 more for the last.
fn ten_share() -> bool {
    match UniformModel::<u32, 8>::new(10) {
        Ok(model) => {
            interval_of(&model, &0) == Some((0, 25))
                && interval_of(&model, &8) == Some((200, 25))
                && interval_of(&model, &9) == Some((225, 31))
        }
        Err(_) => false,
    }
}

#[test]
fn equal_symbols_share(rt: HostRuntime) {
    assert!(rt; ten_share());
    assert!(rt;
        refuses(0, SupportError::TooFew)
            && refuses(1, SupportError::TooFew)
            && refuses(257, SupportError::TooMany)
            && refuses(usize::MAX, SupportError::TooMany)
    );
}

/// Returns whether the symbol `true` has the weight `weight` of 256, in an interval after the interval of `false`.
fn has_weight(weight: u32) -> bool {
    match BernoulliModel::<u32, 8>::new(weight) {
        Some(model) => {
            cuts(&model, 256, &[false, true])
                && interval_of(&model, &true)
                    == Some((256u64.saturating_sub(weight as u64), weight as u64))
        }
        None => false,
    }
}

/// Returns whether `BernoulliModel::new` refuses to make a model in which `true` has the weight `weight` of 256.
fn has_nothing(weight: u32) -> bool {
    BernoulliModel::<u32, 8>::new(weight).is_none()
}

#[test]
fn two_symbols_share(rt: HostRuntime) {
    assert!(rt; has_weight(1) && has_weight(3) && has_weight(128) && has_weight(255));
    assert!(rt; has_nothing(0) && has_nothing(256) && has_nothing(u32::MAX));
}
