//! Tests of weight tables while one request for memory is refused, for each request in turn.

ghost use Rattle.std.specs.Prelude.{◌<◌, ◌^◌};

use constriction_base::model::DecoderModel;
use constriction_base::weights::{TableError, WeightTable};
use constriction_words::BitArray;
use std::alloc::{AllocError, Global};
use std::test::Fail;

/// Returns whether `table` maps `quantile` to `expected`: a symbol, its interval's start and its interval's length.
pub fn finds<Probability: BitArray + PartialEq, const PRECISION: usize>(
    table: &WeightTable<Probability, PRECISION>,
    quantile: Probability,
    expected: (usize, Probability, Probability),
) -> bool
    requires { Probability.number quantile < 2 ^ PRECISION }
{
    let (symbol, left, p) = table.quantile_function(quantile);
    symbol == expected.0 && left == expected.1 && Probability::from_nonzero(p) == expected.2
}

/// Returns whether the table maps quantile 254 to the expected interval, or an error if there was no memory.
fn table_went(table: Result<WeightTable<u8, 8>, TableError>) -> Result<bool, AllocError> {
    match table {
        Ok(table) => Ok(finds(&table, 254, (1, 200, 55))),
        Err(TableError::Memory) => Err(AllocError),
        Err(_) => Ok(false),
    }
}

/// Makes a table of three weights with `new` or `for_decoding`. Returns whether quantile 254 has the expected interval.
fn table_of_three(alloc: Global, is_for_decoding: bool) -> Result<bool, AllocError> {
    if is_for_decoding {
        table_went(WeightTable::for_decoding(alloc, &[200, 55, 1]))
    } else {
        table_went(WeightTable::new(alloc, &[200, 55, 1]))
    }
}

/// Makes a table. If memory is refused, makes the table again, and returns the error `name` if this succeeds.
fn table_comes(alloc: Global, is_for_decoding: bool, name: &'static str) -> Result<(), Fail> {
    match table_of_three(alloc, is_for_decoding) {
        Ok(true) => Ok(()),
        Err(AllocError) if matches!(table_of_three(alloc, is_for_decoding), Ok(true)) => {
            Err(Fail::from(name))
        }
        _ => Err(Fail::from("another table, or another error")),
    }
}

/// Checks that making a table reports refused memory, and succeeds when tried again.
///
/// `tests/refused_memory` refuses each request for memory of this test, one at a time.
#[test]
fn refused_requests_of_tables(rt: HostRuntime) -> Result<(), Fail> {
    table_comes(rt.alloc(), false, "WeightTable::new")?;
    table_comes(rt.alloc(), true, "WeightTable::for_decoding")
}
