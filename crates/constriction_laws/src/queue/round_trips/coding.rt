//! Functions that encode or decode a list of symbols on a range coder, or test whether a decoder may be exhausted.
//!
//! The contracts use the laws' definitions to relate the coder's intervals before and after a call.

ghost use Rattle.std.specs.Prelude.{◌≡◌, ◌↔◌, ◌+◌, ◌<◌, ◌≤◌, ℕ, List, length, IfOk, IfErr, IsTrue};
ghost use Rattle.constriction_base.specs.Models.{pairs_of};
ghost use Rattle.constriction_laws.specs.Outcomes.{HasImpossibleItem};
ghost use Rattle.constriction_queue.specs.Decoder.{IsDecoder, MayBeExhausted, StandsAt};
ghost use Rattle.constriction_queue.specs.Encoder.{left_to_encode};
ghost use Rattle.constriction_queue.specs.Range.{Run};
ghost use Rattle.constriction_laws.specs.queue.Outcomes.{NoListFrom, NotCoded, NotRead};
ghost use Rattle.constriction_laws.specs.queue.Pairs.{ReturnsFound, NarrowsBy, ReadsOnward, pairs_by};
ghost use Rattle.constriction_queue.specs.Symbols.{MayEnd};

use crate::errors::{RoundTripError, Stopped};
use crate::round_trips as any_coder;
use constriction_base::backends::{BoundedReadWords, Holds, Queue, ReadWords, WriteWords};
use constriction_base::errors::CoderError;
use constriction_base::model::{DecoderModel, EncoderModel, EntropyModel};
use constriction_queue::{RangeDecoder, RangeEncoder};
use constriction_stream::decoding::Decode;
use constriction_stream::encoding::Encode;
use constriction_words::{BitArray, WordOf};
use std::alloc::Global;

/// Encodes symbols in order, each with its own model.
///
/// Each symbol narrows the encoder's interval. The caller proves that there are as many models as symbols.
///
/// # Errors
///
/// - `ImpossibleSymbol`: a model has no entry for its symbol.
/// - `TooManySymbols`: there are more symbols than `symbols_left` returns.
/// - `Refused`: the backend refused a word of a symbol.
pub fn encode_pairs<
    Word: WordOf<State>,
    State: BitArray,
    Backend: WriteWords<Word>,
    M: EncoderModel<PRECISION>,
    const PRECISION: usize,
>(
    encoder: &mut RangeEncoder<Word, State, Backend>,
    symbols: &[M::Symbol],
    models: &[M],
) -> Result<(), RoundTripError>
where
    M::Probability: WordOf<Word>,
    Backend::WriteError: Drop,
    requires { length symbols.now ≡ length models.now }
    ensures narrowed { IfOk result (λ _. NarrowsBy Word.BITS State.BITS (pairs_of PRECISION M.table symbols.now
        models.now) encoder.old encoder.new) }
    ensures fewer_left { left_to_encode encoder.old ≤ left_to_encode encoder.new + length symbols.now }
    ensures err { IfErr result (NotCoded (HasImpossibleItem (pairs_of PRECISION M.table symbols.now models.now))
        (left_to_encode encoder.old < length symbols.now)) }
{
    if Encode::<PRECISION>::symbols_left(encoder) < symbols.len() {
        return Err(RoundTripError::TooManySymbols);
    }
    match Encode::<PRECISION>::encode_symbols(encoder, symbols.iter().zip(models.iter())) {
        Ok(()) => Ok(()),
        Err(CoderError::Frontend(_)) => Err(RoundTripError::ImpossibleSymbol),
        Err(CoderError::Backend(_)) => Err(RoundTripError::Refused),
    }
}

/// Decodes one symbol for each model.
///
/// Each symbol narrows the decoder's interval. Suppose that the backend behaves as a fixed list of words (`is_list`).
/// If the words, starting at the decoder's position, encode one symbol with each model, the call returns these symbols
/// in order.
///
/// # Errors
///
/// - `InvalidData`: a decode returned this error. If the backend behaves as a fixed list of words, the words don't
///   encode symbols of these models, starting at the decoder's position.
/// - `Refused`: a read failed, or there was no memory.
pub fn decode_pairs<
    Word: WordOf<State>,
    State: BitArray,
    Backend: ReadWords<Word, Queue>,
    M: DecoderModel<PRECISION>,
    const PRECISION: usize,
>(
    alloc: Global,
    decoder: &mut RangeDecoder<Word, State, Backend>,
    models: &[M],
) -> Result<Vec<M::Symbol>, RoundTripError>
where
    M::Probability: WordOf<Word>,
    Backend::ReadError: Drop,
    ensures count { IfOk result (λ again. length again.items ≡ length models.now) }
    ensures decoded { Backend.is_list → ReadsOnward Word.BITS State.BITS PRECISION M.table models.now decoder.old result
        decoder.new }
    ensures back { Backend.is_list → ReturnsFound Word.BITS State.BITS PRECISION M.table models.now decoder.old result
        decoder.new }
    ensures err { IfErr result (NotRead (NoListFrom Backend.is_list Word.BITS State.BITS (pairs_by PRECISION M.table
        models.now) (length models.now) decoder.old)) }
{
    match any_coder::decode_by_models::<_, _, PRECISION>(alloc, decoder, models) {
        Ok(again) => Ok(again),
        Err((_, Stopped::Refused(CoderError::Frontend(_)))) => Err(RoundTripError::InvalidData),
        Err(_) => Err(RoundTripError::Refused),
    }
}

/// Returns whether the decoder reports that it may be exhausted. Calls `maybe_exhausted`.
///
/// After the last symbol of sealed words, the call returns `true` if no words follow the seal.
pub fn has_ended<
    Word: WordOf<State>,
    State: BitArray,
    Backend: BoundedReadWords<Word, Queue>,
    const PRECISION: usize,
>(decoder: &RangeDecoder<Word, State, Backend>) -> bool
    ensures value { IsTrue result ↔ MayBeExhausted Word.BITS State.BITS Backend.seems_exhausted decoder.now }
    ensures ended { (words : List ℕ) (there : Run) → StandsAt Word.BITS State.BITS words there decoder.now →
        MayEnd Word.BITS State.BITS words there → IsTrue result }
    ensures decoder { IsDecoder Word.number Backend.Holds Word.BITS State.BITS decoder.now }
{
    decoder.bulk().maybe_exhausted() && Decode::<PRECISION>::maybe_exhausted(decoder)
}
