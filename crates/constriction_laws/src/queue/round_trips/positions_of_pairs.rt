//! Decoding symbols, each with its own model, from a recorded position.
//!
//! The law [`symbols_after_a_position`](crate::queue::positions::symbols_after_a_position) says which symbols the
//! decoder returns.

ghost use Rattle.std.specs.Prelude.{◌≡◌, ◌≤◌, length, map, IfOk, IfErr};
ghost use Rattle.constriction_base.specs.Steps.{IsSizes};
ghost use Rattle.constriction_queue.specs.Range.{Run};
ghost use Rattle.constriction_laws.specs.Outcomes.{IfItems};
ghost use Rattle.constriction_laws.specs.queue.Pairs.{ReturnsFrom, HoldFrom, IsRecorded, NoPairsAt};

use crate::errors::RoundTripError;
use crate::queue::concatenated::DecodeError;
use crate::queue::round_trips::coding::decode_pairs;
use constriction_base::backends::{Pos, Seek};
use constriction_base::cursor::Cursor;
use constriction_base::model::{DecoderModel, EntropyModel};
use constriction_queue::{RangeCoderState, RangeDecoder};
use constriction_words::{BitArray, WordOf};
use std::alloc::Global;

/// Decodes one symbol for each model, from a position in words.
///
/// Calls `from_compressed`, `seek` and `decode_symbols`. `position` consists of the number of words before the
/// position, and the interval (`lower` and `range`) at the position. Suppose that an encoder recorded the position,
/// encoded one symbol with each model in order, and exported `words`. Then the call returns these symbols in order.
///
/// # Errors
///
/// - `NoSuchPlace`: the words end before the position.
/// - `InvalidData`: starting at the position, the words don't encode symbols of these models.
/// - `NoMemory`: there was no memory.
pub fn pairs_from_position<
    Word: WordOf<State>,
    State: BitArray,
    M: DecoderModel<PRECISION>,
    const PRECISION: usize,
>(
    alloc: Global,
    words: Vec<Word>,
    position: (usize, RangeCoderState<Word, State>),
    models: &[M],
) -> Result<Vec<M::Symbol>, DecodeError>
where
    M::Probability: WordOf<Word>,
    requires { IsSizes Word.BITS State.BITS }
    ensures place { IfOk result (λ _. position.0 ≤ length words.items) }
    ensures count { IfOk result (λ again. length again.items ≡ length models.now) }
    ensures read { (there : Run) → IsRecorded State.BITS there position → IfItems PRECISION M.table models.now result
        (HoldFrom Word.number Word.BITS State.BITS words.items there) }
    ensures back { ReturnsFrom Word.BITS State.BITS PRECISION M.table (map Word.number words.items) models.now position
        result }
    ensures err { IfErr result (NoPairsAt Word.BITS State.BITS PRECISION M.table (map Word.number words.items)
        models.now position) }
{
    let mut decoder = match RangeDecoder::<Word, State, Cursor<Word, Vec<Word>>>::from_compressed(
        words,
    ) {
        Ok(decoder) => decoder,
        Err(never) => match never {},
    };
    match decoder.seek(position) {
        Ok(()) => {}
        Err(()) => return Err(DecodeError::NoSuchPlace),
    }
    match decode_pairs(alloc, &mut decoder, models) {
        Ok(again) => Ok(again),
        Err(RoundTripError::InvalidData) => Err(DecodeError::InvalidData),
        Err(_) => Err(DecodeError::NoMemory),
    }
}
