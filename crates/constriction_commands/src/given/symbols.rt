//! Parses the input of the commands that encode symbols: weights, and symbols.

ghost use Rattle.std.specs.Prelude.{IfOk, IfErr};
ghost use Rattle.constriction_commands.specs.Inputs.{TextHasSymbols, NoSymbols};

use crate::fault::Fault;
use crate::given::two_lines;
use crate::input::parse_numbers;
use crate::weights::{PRECISION, Table, make_table};
use constriction_base::model::EntropyModel;
use std::alloc::Global;

/// Parses line 1 as the weights of a table, and line 2 as symbols.
///
/// # Errors
///
/// Returns `OutOfMemory` if there is no memory. The call checks for the other errors in this order:
///
/// - `BadNumber` if a line isn't a list of numbers that fit their type (32 bits for weights, 64 bits for symbols).
/// - `NoWeights` if there is no weight.
/// - `WrongTotal` if the weights don't add up to `2^24`.
pub fn table_and_symbols(alloc: Global, text: &[u8]) -> Result<(Table, Vec<usize>), Fault>
    ensures ok { IfOk result
        (λ given. TextHasSymbols text.now (⟦<Table as EntropyModel<PRECISION>>⟧.table given.0) given.1.items) }
    ensures err { IfErr result (NoSymbols text.now) }
{
    let (first, second) = two_lines(text);
    let weights = parse_numbers::<u32>(alloc, first)?;
    let symbols = parse_numbers::<usize>(alloc, second)?;
    let table = make_table(alloc, weights.as_slice())?;
    Ok((table, symbols))
}
