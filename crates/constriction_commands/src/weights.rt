//! The model with which commands encode and decode symbols: a table of weights that add up to `2^24`.

ghost use Rattle.std.specs.Prelude.{◌≡◌, ◌≢◌, ◌⊎◌, ◌^◌, [], sum, IfOk, IfErr, OnOk, IsErrOf};
ghost use Rattle.constriction_base.specs.Tables.{table_of};
ghost use Rattle.constriction_commands.specs.Inputs.{Total};
ghost use Rattle.constriction_commands.specs.declared.fault.Fault.TheVariants.{NoWeights, WrongTotal, OutOfMemory};

use crate::fault::Fault;
use constriction_base::model::EntropyModel;
use constriction_base::weights::{TableError, WeightTable};
use std::alloc::Global;

/// The precision of the weights, in bits. The weights add up to `2^24`.
pub const PRECISION: usize = 24;

/// A table of the symbols 0, 1, .., with one weight for each symbol.
pub type Table = WeightTable<u32, PRECISION>;

/// Builds the table of the symbols 0, 1, .. with the weights `weights`.
///
/// # Errors
///
/// - `NoWeights` if there is no weight.
/// - `WrongTotal` if the weights don't add up to `2^24`.
/// - `OutOfMemory` if there is no memory for the table.
pub fn make_table(alloc: Global, weights: &[u32]) -> Result<Table, Fault>
    ensures ok { IfOk result (λ table. ⟦<Table as EntropyModel<PRECISION>>⟧.table table ≡ table_of weights.now) }
    ensures total { OnOk result (Total weights.now) }
    ensures empty { IsErrOf result NoWeights → weights.now ≡ [] }
    ensures wrong_total { IsErrOf result WrongTotal → (weights.now ≢ []) × (sum weights.now ≢ 2 ^ 24) }
    ensures err { IfErr result (λ fault. (fault ≡ NoWeights) ⊎ (fault ≡ WrongTotal) ⊎ (fault ≡ OutOfMemory)) }
{
    match WeightTable::new(alloc, weights) {
        Ok(table) => Ok(table),
        Err(TableError::Empty) => Err(Fault::NoWeights),
        Err(TableError::WrongTotal) => Err(Fault::WrongTotal),
        Err(TableError::Memory) => Err(Fault::OutOfMemory),
    }
}
