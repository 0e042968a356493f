//! Decoding symbols, each with its own model, from the words that an encoder lends.
//!
//! A caller can also decode from [`RangeEncoder::decoder`]. By the contract of that call, the decoder begins with the
//! words that the encoder would export. The law [`symbols_come_back`](crate::queue::lists::symbols_come_back) says
//! which symbols the decoder then returns.

ghost use Rattle.std.specs.Prelude.{◌≡◌, List, length, IfOk, IfErr};
ghost use Rattle.constriction_base.specs.Models.{pairs_of};
ghost use Rattle.constriction_queue.specs.Encoder.{sealed_by, HasHeads};
ghost use Rattle.constriction_laws.specs.Outcomes.{ReturnsSymbols};
ghost use Rattle.constriction_laws.specs.queue.Concatenated.{ReadsItems};
ghost use Rattle.constriction_laws.specs.queue.Outcomes.{NotRead};
ghost use Rattle.constriction_laws.specs.queue.Pairs.{HasEncoded, NoPairs};

use crate::errors::RoundTripError;
use crate::queue::lists::symbols_come_back;
use crate::queue::round_trips::coding::decode_pairs;
use constriction_base::cursor::Cursor;
use constriction_base::model::{DecoderModel, EntropyModel};
use constriction_queue::{RangeDecoder, RangeEncoder};
use constriction_words::{BitArray, WordOf};
use std::alloc::{Allocator, Global};

/// Decodes one symbol for each model from the words that an encoder lends.
///
/// Calls `get_compressed`, `from_compressed` and `decode_symbols`. If the encoder started from the initial interval and
/// encoded one symbol with each model in order, the call returns these symbols. The encoder is unchanged in every case.
///
/// # Errors
///
/// - `InvalidData`: the words that the encoder would export don't encode symbols of these models.
/// - `Refused`: there was no memory.
pub fn decode_lent_words_by_models<
    Word: WordOf<State>,
    State: BitArray,
    A: Allocator,
    M: DecoderModel<PRECISION>,
    const PRECISION: usize,
>(
    alloc: Global,
    encoder: &mut RangeEncoder<Word, State, Vec<Word, A>>,
    models: &[M],
) -> Result<Vec<M::Symbol>, RoundTripError>
where
    M::Probability: WordOf<Word>,
    ensures count { IfOk result (λ again. length again.items ≡ length models.now) }
    ensures read { IfOk result (λ again. ReadsItems Word.BITS State.BITS (sealed_by Word.BITS State.BITS encoder.old)
        (pairs_of PRECISION M.table again.items models.now)) }
    ensures back { (symbols : List M.Symbol) → HasEncoded Word.BITS State.BITS (pairs_of PRECISION M.table symbols
        models.now) encoder.old → ReturnsSymbols models.now symbols result }
    ensures heads { HasHeads encoder.old encoder.new }
    ensures kept { encoder.new.words ≡ encoder.old.words }
    ensures err { IfErr result (NotRead (NoPairs Word.BITS State.BITS PRECISION M.table (sealed_by Word.BITS
        State.BITS encoder.old) models.now)) }
{
    let Ok(guard) = encoder.get_compressed() else {
        return Err(RoundTripError::Refused);
    };
    let Ok(mut decoder) = RangeDecoder::<Word, State, Cursor<Word, &[Word]>>::from_compressed(
        guard.words(),
    ) else {
        return Err(RoundTripError::Refused);
    };
    symbols_come_back::<M::Symbol>();
    decode_pairs(alloc, &mut decoder, models)
}
