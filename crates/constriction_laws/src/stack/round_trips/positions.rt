//! Decoding symbols from recorded positions.

ghost use Rattle.std.specs.Prelude.{◌≡◌, ◌≤◌, ◌<◌, length, IfOk, IfErr, OnOk};
ghost use Rattle.constriction_laws.specs.Outcomes.{IfItems, UnlessInvalid};
ghost use Rattle.constriction_laws.specs.stack.Exporting.{ReturnsBehind, HoldsBehind, recorded};

use crate::errors::RoundTripError;
use crate::stack::round_trips::coding::decode_pairs;
use constriction_base::backends::{Pos, Seek};
use constriction_base::model::{DecoderModel, EntropyModel};
use constriction_stack::coder::AnsCoder;
use constriction_words::{BitArray, WordOf};
use std::alloc::Global;

/// Decodes one symbol for each model, from a recorded position of a coder.
///
/// Calls `as_seekable_decoder`, `seek` and `decode_symbols`. Suppose that the position was recorded after encoding one
/// symbol with each model, from last to first. If the coder still has all words that were then below its head, the call
/// returns these symbols in order.
///
/// # Errors
///
/// - `InvalidData`: the coder holds fewer words below its head than the position requires.
/// - `Refused`: there was no memory.
pub fn pairs_at_position<
    Word: WordOf<State>,
    State: BitArray,
    M: DecoderModel<PRECISION>,
    const PRECISION: usize,
>(
    alloc: Global,
    coder: &AnsCoder<Word, State, Vec<Word>>,
    position: (usize, State),
    models: &[M],
) -> Result<Vec<M::Symbol>, RoundTripError>
where
    M::Probability: WordOf<Word>,
    ensures place { OnOk result (position.0 ≤ length coder.now.state.words) }
    ensures count { IfOk result (λ again. length again.items ≡ length models.now) }
    ensures read { IfItems PRECISION M.table models.now result (HoldsBehind Word.BITS State.BITS (recorded State.number
        position) coder.now.state) }
    ensures back { ReturnsBehind Word.BITS State.BITS PRECISION M.table models.now (recorded State.number position)
        coder.now.state result }
    ensures err { IfErr result (UnlessInvalid (length coder.now.state.words < position.0)) }
{
    let mut decoder = coder.as_seekable_decoder();
    let Ok(()) = decoder.seek(position) else {
        return Err(RoundTripError::InvalidData);
    };
    decode_pairs(alloc, &mut decoder, models)
}
