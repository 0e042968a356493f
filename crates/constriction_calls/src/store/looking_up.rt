//! Decoding one chunk of a store.

ghost use Rattle.std.specs.Prelude.{◌≤◌, map};
ghost use Rattle.constriction_base.specs.Steps.{IsSizes};
ghost use Rattle.constriction_calls.specs.StoreCalls.{StoreDecodesList};

use crate::range::decoding::decode_count;
use constriction_inputs::models::Weights;
use constriction_inputs::refusal::Refusal;
use constriction_inputs::rows::adding::is_total;
use constriction_queue::RangeCoderState;
use constriction_store::decoder_at;
use constriction_words::{BitArray, WordOf};
use std::alloc::Global;

/// Decodes one chunk of a store into `symbols`.
///
/// `pos`, `lower` and `range` are the chunk's numbers in the lists `positions`, `lowers` and `ranges` of the index. The
/// length of `symbols` is the number of symbols to decode. The symbols depend on no words except the words of the chunk
/// and the `State::BITS / Word::BITS` words after them. The arguments may have any values: they need not come from a
/// store.
///
/// # Errors
///
/// The call returns the first of these errors that applies. If the words don't encode `symbols.len()` symbols, it may
/// return `NoMemory` in place of `InvalidData`. After an error `symbols` is unchanged.
///
/// - `WrongLength`: the position is past the end of `words`.
/// - `WrongWeights`: the weights don't add up to `2 ^ PRECISION`.
/// - `InvalidData`: `range` is below `2^(State::BITS - Word::BITS)`, or the words don't encode `symbols.len()` symbols.
///   The call never returns this error for a chunk of a store that [`build`](super::build) wrote with the same weights.
/// - `NoMemory`: there is no memory.
pub fn chunk<Word: WordOf<State>, State: BitArray, P: WordOf<Word>, const PRECISION: usize>(
    alloc: Global,
    words: &[Word],
    pos: usize,
    lower: State,
    range: State,
    weights: &[P],
    symbols: &mut [usize],
) -> Result<(), Refusal>
    requires sizes { IsSizes Word.BITS State.BITS }
    requires precision { (1 ≤ PRECISION) × (PRECISION ≤ P.BITS) }
    ensures call { StoreDecodesList State.number Word.BITS State.BITS PRECISION
        (map P.number weights.now) (map Word.number words.now) pos lower range symbols.old symbols.new result }
{
    if pos > words.len() {
        return Err(Refusal::WrongLength);
    }
    if !is_total::<P, PRECISION>(weights) {
        return Err(Refusal::WrongWeights);
    }
    let Ok(state) = RangeCoderState::<Word, State>::new(lower, range) else {
        return Err(Refusal::InvalidData);
    };
    let models = Weights { weights };
    let decoder = decoder_at::<Word, State>(words, pos, state);
    match decode_count::<Word, State, P, _, PRECISION>(alloc, decoder, &models, symbols.len()) {
        Ok((again, _)) => {
            symbols.copy_from_slice(&again);
            Ok(())
        }
        Err(refusal) => Err(refusal),
    }
}
