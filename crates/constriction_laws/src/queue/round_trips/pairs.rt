//! The two halves of a round trip on the range coder: encoding symbols to words, and decoding symbols from words.
//!
//! Each symbol has its own model. The contract of [`compressed_words_of_pairs`] says which words the encoder exports.
//! The contract of [`pairs_from_words`] says which symbols the call returns for any words. If an encoder exported the
//! words, the call returns the encoded symbols. Three fields of the clause `back` say so, each in one case:
//!
//! - `sealed`: the words are sealed words, and no words follow.
//! - `followed`: the words begin with sealed words, any words may follow, and `State` is two words wide.
//! - `delimited`: the words begin with words that have a self-delimiting seal, and any words may follow.

ghost use Rattle.std.specs.Prelude.{◌≡◌, ◌<◌, length, map, reverse, IfOk, IfErr};
ghost use Rattle.constriction_base.specs.Models.{pairs_of};
ghost use Rattle.constriction_base.specs.Steps.{IsSizes};
ghost use Rattle.constriction_laws.specs.Outcomes.{HasImpossibleItem, IfItemsWith};
ghost use Rattle.constriction_queue.specs.Encoder.{left_to_encode};
ghost use Rattle.constriction_laws.specs.queue.Outcomes.{LieWithin, NotCoded};
ghost use Rattle.constriction_laws.specs.queue.Outcomes.{NotRead, ReadsToEnd, ReportsEnd};
ghost use Rattle.constriction_laws.specs.queue.Pairs.{BoundsSealed, ReturnsSymbolsOf, NoPairs, IsAsNew, SealsPairs};

use crate::bounds::following::symbols_come_back_before_others;
use crate::bounds::range_bound;
use crate::errors::RoundTripError;
use crate::queue::following::symbols_come_back_whatever_follows;
use crate::queue::lists::{symbols_come_back, symbols_of_any_words};
use crate::queue::round_trips::coding::{decode_pairs, encode_pairs, has_ended};
use constriction_base::backends::{
    BoundedReadWords, Holds, IntoReadWords, Queue, ReadWords, WriteWords,
};
use constriction_base::model::{DecoderModel, EncoderModel, EntropyModel};
use constriction_queue::{RangeDecoder, RangeEncoder};
use constriction_words::{BitArray, WordOf};
use std::alloc::Global;

/// Encodes symbols, each with its own model, and returns the words that the encoder then exports.
///
/// Calls `encode_symbols` and `into_compressed`. If the encoder starts from the initial interval, the clause `few`
/// bounds the number of words. The caller proves that there are as many models as symbols.
///
/// # Errors
///
/// - `ImpossibleSymbol`: a model has no entry for its symbol.
/// - `TooManySymbols`: there are more symbols than `symbols_left` returns.
/// - `Refused`: the backend refused a word.
pub fn compressed_words_of_pairs<
    Word: WordOf<State>,
    State: BitArray,
    Backend: WriteWords<Word> + Drop,
    M: EncoderModel<PRECISION>,
    const PRECISION: usize,
>(
    encoder: RangeEncoder<Word, State, Backend>,
    symbols: &[M::Symbol],
    models: &[M],
) -> Result<Backend, RoundTripError>
where
    M::Probability: WordOf<Word>,
    Backend::WriteError: Drop,
    requires { length symbols.now ≡ length models.now }
    ensures words { IfOk result (λ all. SealsPairs Word.BITS State.BITS PRECISION M.table symbols.now models.now encoder
        (reverse (map Word.number (Backend.words all)))) }
    ensures sizes { IfOk result (λ _. IsSizes Word.BITS State.BITS) }
    ensures few { IsAsNew Word.BITS State.BITS encoder → IfOk result (λ all. BoundsSealed Word.BITS State.BITS PRECISION
        M.table symbols.now models.now (Backend.words all)) }
    ensures err { IfErr result (NotCoded (HasImpossibleItem (pairs_of PRECISION M.table symbols.now models.now))
        (left_to_encode encoder < length symbols.now)) }
{
    let mut encoder = encoder;
    encode_pairs(&mut encoder, symbols, models)?;
    range_bound();
    match encoder.into_compressed() {
        Ok(words) => Ok(words),
        Err(_) => Err(RoundTripError::Refused),
    }
}

/// Decodes one symbol for each model from `words`, which need not be the words of an encoder.
///
/// Returns the symbols, and whether the decoder then reports that it may be exhausted. Calls `from_compressed`,
/// `decode_symbols` and `maybe_exhausted`.
///
/// # Errors
///
/// - `InvalidData`: the words don't encode symbols of these models.
/// - `Refused`: a read failed, or there was no memory.
pub fn pairs_from_words<
    Word: WordOf<State>,
    State: BitArray,
    Words: IntoReadWords<Word, Queue>,
    M: DecoderModel<PRECISION>,
    const PRECISION: usize,
>(alloc: Global, words: Words, models: &[M]) -> Result<(Vec<M::Symbol>, bool), RoundTripError>
where
    M::Probability: WordOf<Word>,
    Words::IntoReadWords: BoundedReadWords<Word, Queue>,
    <Words::IntoReadWords as ReadWords<Word, Queue>>::ReadError: Drop,
    requires { IsSizes Word.BITS State.BITS }
    ensures count { IfOk result (λ back. length back.0.items ≡ length models.now) }
    ensures read { IfOk result (λ back. ReadsToEnd Word.BITS State.BITS (map Word.number (Words.words words))
        (pairs_of PRECISION M.table back.0.items models.now) back.1) }
    ensures ended { IfOk result (λ back. ReportsEnd Word.number ⟦<Words::IntoReadWords as Holds<Word, Queue>>⟧
        Word.BITS State.BITS (⟦<Words::IntoReadWords as ReadWords<Word, Queue>>⟧.seems_exhausted)
        (map Word.number (Words.words words)) (pairs_of PRECISION M.table back.0.items models.now) back.1) }
    ensures back { ReturnsSymbolsOf Word.BITS State.BITS PRECISION M.table (map Word.number (Words.words words))
        models.now result }
    ensures within { 0 < length models.now → IfItemsWith PRECISION M.table models.now result (λ items _. LieWithin
        Word.BITS State.BITS (map Word.number (Words.words words)) items) }
    ensures err { IfErr result (NotRead (NoPairs Word.BITS State.BITS PRECISION M.table (map Word.number
        (Words.words words)) models.now)) }
{
    symbols_come_back::<M::Symbol>();
    symbols_of_any_words::<M::Symbol>();
    symbols_come_back_before_others::<M::Symbol>();
    symbols_come_back_whatever_follows::<M::Symbol>();
    let Ok(mut decoder) = RangeDecoder::<Word, State, Words::IntoReadWords>::from_compressed(words)
    else {
        return Err(RoundTripError::Refused);
    };
    let again = decode_pairs(alloc, &mut decoder, models)?;
    let ended = has_ended::<Word, State, Words::IntoReadWords, PRECISION>(&decoder);
    Ok((again, ended))
}
