//! Parses the input of the command `store`: weights, the indices of chunks to look up, and chunks.

ghost use Rattle.std.specs.Prelude.{IfOk, IfErr};
ghost use Rattle.constriction_store.specs.Chunks.{lists_of};
ghost use Rattle.constriction_commands.specs.Inputs.{TextHasChunks, NoChunks};

use crate::fault::Fault;
use crate::input::{parse_lines, parse_numbers, split_line};
use crate::weights::{PRECISION, Table, make_table};
use constriction_base::model::EntropyModel;
use std::alloc::Global;

/// The parts of an input for `store`: a table, the indices of the chunks to look up, and all chunks.
pub type Given = (Table, Vec<usize>, Vec<Vec<usize>>);

/// Parses line 1 as weights, line 2 as the indices of the chunks to look up, and each further line as a chunk.
///
/// # Errors
///
/// Returns `OutOfMemory` if there is no memory. The call checks for the other errors in this order:
///
/// - `BadNumber` if a line isn't a list of numbers that fit their type (32 bits for weights, 64 bits for the others).
/// - `NoWeights` if there is no weight.
/// - `WrongTotal` if the weights don't add up to `2^24`.
pub fn table_and_chunks(alloc: Global, text: &[u8]) -> Result<Given, Fault>
    ensures ok { IfOk result (λ given. TextHasChunks text.now (⟦<Table as EntropyModel<PRECISION>>⟧.table given.0)
        given.1.items (lists_of given.2.items)) }
    ensures err { IfErr result (NoChunks text.now) }
{
    let (first, behind) = split_line(text);
    let (second, rest) = split_line(behind);
    let weights = parse_numbers::<u32>(alloc, first)?;
    let places = parse_numbers::<usize>(alloc, second)?;
    let chunks = parse_lines::<usize>(alloc, rest)?;
    let table = make_table(alloc, weights.as_slice())?;
    Ok((table, places, chunks))
}
