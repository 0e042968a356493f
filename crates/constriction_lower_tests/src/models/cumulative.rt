//! Tests of a model that keeps the sums of a row of counts.

use constriction_base::model::{DecoderModel, EncoderModel};
use constriction_models::cumulative::{CumulativeCounts, CumulativeError};
use constriction_words::BitArray;
use std::alloc::{AllocError, Global};
use std::test::Fail;

/// Returns whether `model` decodes `quantile` to `symbol`, with the interval of length `p` that begins at `left`.
fn is_found(
    model: &CumulativeCounts<u16, 8>,
    quantile: u16,
    symbol: usize,
    left: u16,
    p: u16,
) -> bool {
    if quantile >= 256 {
        return false;
    }
    let (found, begins, length) = model.quantile_function(quantile);
    found == symbol && begins == left && u16::from_nonzero(length) == p
}

/// Returns whether `symbol` has the interval of length `p` that begins at `left`, and the first and the last quantile
/// of the interval decode to `symbol`.
fn is_interval(model: &CumulativeCounts<u16, 8>, symbol: usize, left: u16, p: u16) -> bool {
    let last = left.saturating_add(p).saturating_sub(1);
    match model.left_cumulative_and_probability(&symbol) {
        Some((begins, length)) => {
            begins == left
                && u16::from_nonzero(length) == p
                && is_found(model, left, symbol, left, p)
                && is_found(model, last, symbol, left, p)
        }
        None => false,
    }
}

/// Returns whether the counts 3, 1, 0 and 4 share 252 of 256 quantiles, or an error if there was no memory.
fn four_share(alloc: Global) -> Result<bool, AllocError> {
    match CumulativeCounts::<u16, 8>::new(alloc, &[3u64, 1, 0, 4]) {
        Ok(model) => Ok(
            is_interval(&model, 0, 0, 95)
                && is_interval(&model, 1, 95, 33)
                && is_interval(&model, 2, 128, 1)
                && is_interval(&model, 3, 129, 127)
                && model.left_cumulative_and_probability(&4).is_none(),
        ),
        Err(CumulativeError::Memory) => Err(AllocError),
        Err(_) => Ok(false),
    }
}

/// Checks that making a model reports refused memory, and succeeds when tried again.
///
/// `tests/refused_memory` refuses each request for memory of this test, one at a time.
#[test]
fn refused_requests_of_sums(rt: HostRuntime) -> Result<(), Fail> {
    match four_share(rt.alloc()) {
        Ok(true) => Ok(()),
        Err(AllocError) if matches!(four_share(rt.alloc()), Ok(true)) => {
            Err(Fail::from("CumulativeCounts::new"))
        }
        _ => Err(Fail::from("another table, or another error")),
    }
}
