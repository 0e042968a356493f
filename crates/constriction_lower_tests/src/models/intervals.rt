//! Tests that symbols have the expected intervals under Gaussian, Laplace and logistic distributions.
//!
//! The symbols are the integers from -100 to 100. Probabilities are 32-bit words, and the precision is 24 bits.

use super::cuts::interval_of;
use constriction_models::distribution::CumulativeDistribution;
use constriction_models::gaussian::{Gaussian, StandardNormal};
use constriction_models::laplace::Laplace;
use constriction_models::location_scale::Scale;
use constriction_models::logistic::Logistic;
use constriction_models::quantizer::LeakyQuantizer;

/// A location and a scale in 65536ths, a symbol, and the start and the length of its interval.
type Case = (i64, u32, i32, (u64, u64));

/// Returns whether `expected` is the interval of `symbol` under `distribution`.
fn has<D: CumulativeDistribution>(distribution: &D, symbol: i32, expected: (u64, u64)) -> bool {
    match LeakyQuantizer::<u32, 24>::new(-100, 100) {
        Ok(quantizer) => interval_of(&quantizer.quantize(distribution), &symbol) == Some(expected),
        Err(_) => false,
    }
}

/// Returns whether `expected` is the interval of `symbol` under a Gaussian.
fn gaussian_has(location: i64, scale: u32, symbol: i32, expected: (u64, u64)) -> bool {
    match Gaussian::new(location, scale) {
        Some(distribution) => has(&distribution, symbol, expected),
        None => false,
    }
}

/// Returns whether `expected` is the interval of `symbol` under a Gaussian that is made from a [`Scale`].
fn kept_scale_has(location: i64, scale: u32, symbol: i32, expected: (u64, u64)) -> bool {
    match Scale::<StandardNormal>::new(scale) {
        Some(kept) => kept.get() == scale && has(&kept.at(location), symbol, expected),
        None => false,
    }
}

#[test]
fn intervals_of_gaussian(rt: HostRuntime) {
    let cases: [Case; 11] = [
        (0, 65536, 0, (5176438, 6424339)),
        (0, 65536, 1, (11600777, 4055514)),
        (0, 65536, -5, (95, 58)),
        (229376, 147456, 7, (15246844, 897428)),
        (229376, 147456, -100, (0, 1)),
        (229376, 147456, 100, (16777215, 1)),
        (10000000, 3, 100, (200, 16777016)),
        (10000000, 3, 99, (199, 1)),
        (-3, 2147483647, -37, (8380910, 205)),
        (32768, 1, 0, (100, 8388508)),
        (32768, 1, 1, (8388608, 8388509)),
    ];
    for (location, scale, symbol, expected) in cases {
        assert!(rt;
            gaussian_has(location, scale, symbol, expected)
                && kept_scale_has(location, scale, symbol, expected),
            "{symbol} at {location}"
        );
    }
}

/// Returns whether `expected` is the interval of `symbol` under a Laplace distribution.
fn laplace_has(location: i64, scale: u32, symbol: i32, expected: (u64, u64)) -> bool {
    match Laplace::new(location, scale) {
        Some(distribution) => has(&distribution, symbol, expected),
        None => false,
    }
}

#[test]
fn intervals_of_laplace(rt: HostRuntime) {
    let cases: [Case; 11] = [
        (0, 65536, 0, (5087986, 6601243)),
        (0, 65536, 1, (11689229, 3216158)),
        (0, 65536, -5, (34376, 58907)),
        (229376, 147456, 7, (14565693, 793591)),
        (229376, 147456, -100, (0, 1)),
        (229376, 147456, 100, (16777215, 1)),
        (10000000, 3, 100, (200, 16777016)),
        (10000000, 3, 99, (199, 1)),
        (-3, 2147483647, -37, (8379115, 253)),
        (32768, 1, 0, (100, 8388508)),
        (32768, 1, 1, (8388608, 8388509)),
    ];
    for (location, scale, symbol, expected) in cases {
        assert!(rt;
            laplace_has(location, scale, symbol, expected),
            "{symbol} at {location}"
        );
    }
}

/// Returns whether `expected` is the interval of `symbol` under a logistic distribution.
fn logistic_has(location: i64, scale: u32, symbol: i32, expected: (u64, u64)) -> bool {
    match Logistic::new(location, scale) {
        Some(distribution) => has(&distribution, symbol, expected),
        None => false,
    }
}

#[test]
fn intervals_of_logistic(rt: HostRuntime) {
    let cases: [Case; 11] = [
        (0, 65536, 0, (6334105, 4109005)),
        (0, 65536, 1, (10443110, 3273451)),
        (0, 65536, -5, (68379, 116045)),
        (229376, 147456, 7, (13277117, 1074351)),
        (229376, 147456, -100, (0, 1)),
        (229376, 147456, 100, (16777215, 1)),
        (10000000, 3, 100, (200, 16777016)),
        (10000000, 3, 99, (199, 1)),
        (-3, 2147483647, -37, (8383768, 129)),
        (32768, 1, 0, (100, 8388508)),
        (32768, 1, 1, (8388608, 8388509)),
    ];
    for (location, scale, symbol, expected) in cases {
        assert!(rt;
            logistic_has(location, scale, symbol, expected),
            "{symbol} at {location}"
        );
    }
}
