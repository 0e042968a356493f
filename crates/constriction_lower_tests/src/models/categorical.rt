//! Tests of models of a row of counts.

use constriction_base::model::{DecoderModel, EncoderModel};
use constriction_models::categorical::{CategoricalCounts, CategoricalError};
use constriction_words::BitArray;

/// Returns whether `counts` are refused with `expected`, at a precision of 3 bits.
fn refuses(counts: &[u32], expected: CategoricalError) -> bool {
    match CategoricalCounts::<u16, 3>::new(counts) {
        Ok(_) => false,
        Err(error) => error == expected,
    }
}

/// Returns whether `model` decodes `quantile` to `symbol`, with the interval of length `p` that begins at `left`.
fn is_found(
    model: &CategoricalCounts<u16, 8>,
    quantile: u16,
    symbol: usize,
    left: u16,
    p: u16,
) -> bool {
    if quantile >= 256 {
        return false;
    }
    let (found, begins, length) = model.quantile_function(quantile);
    found == symbol && begins == left && u16::from_nonzero(length) == p
}

/// Returns whether `symbol` has the interval of length `p` that begins at `left`, and the first and the last quantile
/// of the interval decode to `symbol`.
fn is_interval(model: &CategoricalCounts<u16, 8>, symbol: usize, left: u16, p: u16) -> bool {
    let last = left.saturating_add(p).saturating_sub(1);
    match model.left_cumulative_and_probability(&symbol) {
        Some((begins, length)) => {
            begins == left
                && u16::from_nonzero(length) == p
                && is_found(model, left, symbol, left, p)
                && is_found(model, last, symbol, left, p)
        }
        None => false,
    }
}

/// Returns whether the counts 3, 1, 0 and 4 share 252 of 256 quantiles: the symbol whose count is 0 has one quantile.
fn four_share() -> bool {
    match CategoricalCounts::<u16, 8>::new(&[3, 1, 0, 4]) {
        Ok(model) => {
            is_interval(&model, 0, 0, 95)
                && is_interval(&model, 1, 95, 33)
                && is_interval(&model, 2, 128, 1)
                && is_interval(&model, 3, 129, 127)
                && model.left_cumulative_and_probability(&4).is_none()
        }
        Err(_) => false,
    }
}

/// Returns whether a single count has all quantiles.
fn one_has_all() -> bool {
    match CategoricalCounts::<u16, 8>::new(&[7]) {
        Ok(model) => is_interval(&model, 0, 0, 256),
        Err(_) => false,
    }
}

#[test]
fn counts_share(rt: HostRuntime) {
    assert!(rt; four_share() && one_has_all());
    assert!(rt;
        refuses(&[], CategoricalError::Empty)
            && refuses(&[0, 0], CategoricalError::Empty)
            && refuses(&[1, 1, 1, 1, 1, 1, 1, 1], CategoricalError::TooMany)
    );
}
