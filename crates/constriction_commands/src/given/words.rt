//! Parses the input of the commands that decode words: weights, the number of symbols, and the words.

ghost use Rattle.std.specs.Prelude.{◌≡◌, ◌⊎◌, ◌<◌, ◌≤◌, ℕ, List, ◌∷◌, [], IfOk, IfErr};
ghost use Rattle.constriction_commands.specs.Inputs.{TextHasWords, NoWords, most};
ghost use Rattle.constriction_commands.specs.declared.fault.Fault.TheVariants.{BadNumber, NoCount};

use crate::fault::Fault;
use crate::given::two_lines;
use crate::input::parse_numbers;
use crate::weights::{PRECISION, Table, make_table};
use constriction_base::model::EntropyModel;
use std::alloc::Global;

/// The greatest number of symbols that an input can ask a command to decode: `2^24`.
///
/// A greater number gives the fault `BadNumber`, even if it fits 32 bits.
const MOST: u32 = 16_777_216;

/// Removes the first number from `numbers`, and returns it as the number of symbols to decode.
///
/// # Errors
///
/// - `NoCount` if `numbers` is empty.
/// - `BadNumber` if the first number is above [`MOST`].
fn take_count(numbers: &mut Vec<u32>) -> Result<u32, Fault>
    ensures ok { IfOk result (λ count. (numbers.old.items ≡ count ∷ numbers.new.items) × (count ≤ most)) }
    ensures err { IfErr result (λ fault. ((fault ≡ NoCount) × (numbers.old.items ≡ []))
        ⊎ ((fault ≡ BadNumber)
        × ((count : ℕ) × (words : List ℕ) × (numbers.old.items ≡ count ∷ words) × (most < count)))) }
{
    if numbers.is_empty() {
        return Err(Fault::NoCount);
    }
    let count = numbers.remove(0);
    if count > MOST {
        return Err(Fault::BadNumber);
    }
    Ok(count)
}

/// Parses line 1 as the weights of a table, and line 2 as the number of symbols followed by the words.
///
/// # Errors
///
/// Returns `OutOfMemory` if there is no memory. The call checks for the other errors in this order:
///
/// - `BadNumber` if a line isn't a list of 32-bit numbers.
/// - `NoCount` if line 2 has no numbers.
/// - `BadNumber` if the number of symbols is above `2^24` ([`MOST`]).
/// - `NoWeights` if there is no weight.
/// - `WrongTotal` if the weights don't add up to `2^24`.
pub fn table_and_words(alloc: Global, text: &[u8]) -> Result<(Table, u32, Vec<u32>), Fault>
    ensures ok { IfOk result
        (λ given. TextHasWords text.now (⟦<Table as EntropyModel<PRECISION>>⟧.table given.0) given.1 given.2.items) }
    ensures err { IfErr result (NoWords text.now) }
{
    let (first, second) = two_lines(text);
    let weights = parse_numbers::<u32>(alloc, first)?;
    let mut words = parse_numbers::<u32>(alloc, second)?;
    let count = take_count(&mut words)?;
    let table = make_table(alloc, weights.as_slice())?;
    Ok((table, count, words))
}
