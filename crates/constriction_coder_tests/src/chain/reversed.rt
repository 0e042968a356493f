//! Runs script steps that encode a list from the last symbol to the first, with `ChainCoder`'s inherent methods.

use super::coders::Whole;
use crate::scripts::answers::{OTHER, answer_of};
use crate::scripts::script::{Act, error_at};
use constriction_base::weights::WeightTable;
use constriction_words::{BitArray, WordOf};

/// Returns an item of a list: the error if there is one, or else the symbol with its table.
fn item_of<'a, M>(
    error: Option<u8>,
    symbol: &'a usize,
    table: &'a M,
) -> Result<(&'a usize, &'a M), u8> {
    match error {
        Some(error) => Err(error),
        None => Ok((symbol, table)),
    }
}

/// Encodes symbols from last to first, with the call that `act` names. Returns the call's answer.
///
/// - `back` encodes a list of symbols with one table.
/// - `pairs-back` encodes two pairs of a symbol and its table.
/// - `items-back` encodes two pairs as `Result`s. If the act's first number is `bad7`, the first `Result` is `Err(7)`.
///
/// For any other act, the call does nothing and returns `OTHER`.
pub fn back_by<Word, State, Probability, const PRECISION: usize>(
    coder: &mut Whole<Word, State, PRECISION>,
    table: &WeightTable<Probability, PRECISION>,
    act: &Act<'_>,
) -> &'static str
where
    Word: WordOf<State>,
    State: BitArray,
    Probability: WordOf<Word>,
{
    match (act.verb, act.symbols) {
        ("back", symbols) => answer_of(coder.encode_iid_symbols_reverse(symbols, table)),
        ("pairs-back", [first, second]) => {
            answer_of(coder.encode_symbols_reverse([(first, table), (second, table)]))
        }
        ("items-back", [first, second]) => {
            let first = item_of(error_at(act.numbers, 0), first, table);
            answer_of(coder.try_encode_symbols_reverse([first, Ok((second, table))]))
        }
        _ => OTHER,
    }
}
