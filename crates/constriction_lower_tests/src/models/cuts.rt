//! Checks that the intervals of a model partition the quantiles, symbol by symbol.

ghost use Rattle.std.specs.Prelude.{◌≡◌, ◌^◌};

use constriction_base::model::{DecoderModel, EncoderModel};
use constriction_words::{BitArray, WordOf};

/// Returns whether `model` decodes `quantile` to `expected`: a symbol, its interval's start and its length.
fn finds<S, M, const PRECISION: usize>(
    model: &M,
    all: u64,
    quantile: u64,
    expected: (&S, u64, u64),
) -> bool
where
    S: PartialEq,
    M: EncoderModel<PRECISION, Symbol = S> + DecoderModel<PRECISION, Symbol = S>,
    M::Probability: WordOf<u32>,
    requires { all ≡ 2 ^ PRECISION }
{
    if quantile >= all {
        return false;
    }
    let quantile = M::Probability::narrow(quantile as u32);
    let (symbol, left, p) = model.quantile_function(quantile);
    let p = M::Probability::from_nonzero(p);
    *expected.0 == symbol && left.widen() as u64 == expected.1 && p.widen() as u64 == expected.2
}

/// Returns the end of the interval of `symbol`, or `None` if a check fails.
///
/// The call checks that the interval begins at `left`, and that its first and last quantiles decode to `symbol`.
fn end_of<S, M, const PRECISION: usize>(model: &M, all: u64, left: u64, symbol: &S) -> Option<u64>
where
    S: PartialEq,
    M: EncoderModel<PRECISION, Symbol = S> + DecoderModel<PRECISION, Symbol = S>,
    M::Probability: WordOf<u32>,
    requires { all ≡ 2 ^ PRECISION }
{
    let (begins, p) = model.left_cumulative_and_probability(symbol)?;
    let begins = begins.widen() as u64;
    let p = M::Probability::from_nonzero(p).widen() as u64;
    let end = begins + p;
    let last = end.saturating_sub(1);
    if begins == left
        && finds(model, all, begins, (symbol, begins, p))
        && finds(model, all, last, (symbol, begins, p))
    {
        return Some(end);
    }
    None
}

/// Returns whether the intervals of `symbols`, one after another, cover the numbers from 0 to `all - 1`.
pub fn cuts<S, M, const PRECISION: usize>(model: &M, all: u64, symbols: &[S]) -> bool
where
    S: PartialEq,
    M: EncoderModel<PRECISION, Symbol = S> + DecoderModel<PRECISION, Symbol = S>,
    M::Probability: WordOf<u32>,
    requires { all ≡ 2 ^ PRECISION }
{
    let mut end = 0;
    for symbol in symbols {
        match end_of(model, all, end, symbol) {
            Some(next) => end = next,
            None => return false,
        }
    }
    end == all
}

/// Returns whether the model has no interval for `symbol`.
pub fn is_unknown<S, M, const PRECISION: usize>(model: &M, symbol: &S) -> bool
where
    M: EncoderModel<PRECISION, Symbol = S>,
{
    model.left_cumulative_and_probability(symbol).is_none()
}

/// Returns the start and the length of the interval of `symbol`, or `None` if the model has no interval for `symbol`.
pub fn interval_of<S, M, const PRECISION: usize>(model: &M, symbol: &S) -> Option<(u64, u64)>
where
    M: EncoderModel<PRECISION, Symbol = S>,
    M::Probability: WordOf<u32>,
{
    let (left, p) = model.left_cumulative_and_probability(symbol)?;
    Some((
        left.widen() as u64,
        M::Probability::from_nonzero(p).widen() as u64,
    ))
}
