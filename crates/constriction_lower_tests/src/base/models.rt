//! Tests of models behind references.

ghost use Rattle.std.specs.Prelude.{◌<◌, ◌^◌};

use constriction_base::model::{DecoderModel, EncoderModel};
use constriction_base::weights::WeightTable;
use constriction_words::BitArray;
use std::test::Fail;

/// Returns whether the symbol at `quantile` is `expected`, and the model has an interval for it.
fn finds_again<const PRECISION: usize, M>(
    model: M,
    quantile: M::Probability,
    expected: usize,
) -> bool
where
    M: EncoderModel<PRECISION> + DecoderModel<PRECISION, Symbol = usize>,
    requires { M.Probability.number quantile < 2 ^ PRECISION }
{
    let (symbol, _, _) = model.quantile_function(quantile);
    symbol == expected && knows(model, symbol)
}

/// Returns whether the model has an interval for `symbol`.
fn knows<const PRECISION: usize, M: EncoderModel<PRECISION, Symbol = usize>>(
    model: M,
    symbol: usize,
) -> bool {
    model.left_cumulative_and_probability(&symbol).is_some()
}

/// Returns whether `finds_again` holds for the model behind one reference and behind two references.
fn finds_behind_references<const PRECISION: usize, M>(
    model: &M,
    quantile: M::Probability,
    expected: usize,
) -> bool
where
    M: EncoderModel<PRECISION> + DecoderModel<PRECISION, Symbol = usize>,
    requires { M.Probability.number quantile < 2 ^ PRECISION }
{
    finds_again(model, quantile, expected) && finds_again(&model, quantile, expected)
}

/// Returns whether the model has no interval for `symbol`, behind one reference and behind two references.
fn is_unknown<const PRECISION: usize, M: EncoderModel<PRECISION, Symbol = usize>>(
    model: &M,
    symbol: usize,
) -> bool {
    !knows(model, symbol) && !knows(&model, symbol)
}

/// Returns whether the table of the weights `[1000, 0, 3096]` has the symbols 0 and 2, and neither 1 nor 3.
fn are_models(table: &WeightTable<u16, 12>) -> bool {
    finds_behind_references(table, 999, 0)
        && finds_behind_references(table, 1000, 2)
        && finds_behind_references(table, 4095, 2)
        && is_unknown(table, 1)
        && is_unknown(table, 3)
}

#[test]
fn references_are_models(rt: HostRuntime) -> Result<(), Fail> {
    let table = WeightTable::<u16, 12>::new(rt.alloc(), &[1000, 0, 3096])?;
    assert!(rt; are_models(&table));
    assert!(rt; finds_again(table, 0, 0));
    Ok(())
}
