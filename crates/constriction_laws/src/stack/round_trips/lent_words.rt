//! Decoding symbols from the words that a coder lends through a guard. The coder's state is unchanged afterwards.

ghost use Rattle.std.specs.Prelude.{◌≡◌, length, IfOk, IfErr, OnOk};
ghost use Rattle.constriction_base.specs.Readings.{BeginsHigh};
ghost use Rattle.constriction_laws.specs.Outcomes.{IfItems, UnlessInvalid};
ghost use Rattle.constriction_laws.specs.stack.Exporting.{ReturnsEncoded};
ghost use Rattle.constriction_laws.specs.stack.Lists.{HoldsItems};
ghost use Rattle.constriction_stack.specs.Ans.{exported};

use crate::errors::RoundTripError;
use crate::stack::guards::shown_words_are_exported;
use crate::stack::round_trips::coding::decode_pairs;
use constriction_base::cursor::Cursor;
use constriction_base::model::{DecoderModel, EntropyModel};
use constriction_stack::coder::AnsCoder;
use constriction_words::{BitArray, WordOf};
use std::alloc::{Allocator, Global};

/// Decodes one symbol for each model from the words that a coder lends.
///
/// Calls `get_compressed`, `from_compressed_slice` and `decode_symbols`. Suppose that encoding one symbol with each
/// model, from last to first, led to the coder's state. Then the call returns these symbols in order. The coder's state
/// is unchanged in every case.
///
/// # Errors
///
/// - `InvalidData`: the last word that the coder would export is 0. In a valid state this never happens.
/// - `Refused`: there was no memory.
pub fn decode_lent_words<
    Word: WordOf<State>,
    State: BitArray,
    A: Allocator,
    M: DecoderModel<PRECISION>,
    const PRECISION: usize,
>(
    alloc: Global,
    coder: &mut AnsCoder<Word, State, Vec<Word, A>>,
    models: &[M],
) -> Result<Vec<M::Symbol>, RoundTripError>
where
    M::Probability: WordOf<Word>,
    ensures count { IfOk result (λ again. length again.items ≡ length models.now) }
    ensures read { IfItems PRECISION M.table models.now result (HoldsItems Word.BITS State.BITS (exported Word.BITS
        coder.old.state)) }
    ensures back { ReturnsEncoded Word.BITS State.BITS PRECISION M.table models.now coder.old.state result }
    ensures high { OnOk result (BeginsHigh (exported Word.BITS coder.old.state)) }
    ensures kept { coder.new.state ≡ coder.old.state }
    ensures err { IfErr result (UnlessInvalid (BeginsHigh (exported Word.BITS coder.old.state) → ⊥)) }
{
    let Ok(guard) = coder.get_compressed() else {
        return Err(RoundTripError::Refused);
    };
    let words = guard.backend();
    let Ok(mut decoder) = AnsCoder::<Word, State, Cursor<Word, &[Word]>>::from_compressed_slice(
        words.as_slice(),
    ) else {
        return Err(RoundTripError::InvalidData);
    };
    shown_words_are_exported();
    decode_pairs(alloc, &mut decoder, models)
}
