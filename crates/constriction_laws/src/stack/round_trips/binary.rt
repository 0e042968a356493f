//! Decoding symbols from any words in binary form, and encoding the symbols back to these words.

ghost use Rattle.std.specs.Prelude.{◌≡◌, ℕ, List, length, map, reverse, IfOk, IfErr};
ghost use Rattle.constriction_base.specs.Models.{pairs_of};
ghost use Rattle.constriction_base.specs.Steps.{IsSizes, AreWords};
ghost use Rattle.constriction_laws.specs.Outcomes.{IfItemsWith, OnlyRefused};
ghost use Rattle.constriction_stack.specs.Ans.{IsNormalized};
ghost use Rattle.constriction_laws.specs.stack.Exporting.{ExportsBinary, NoBinary};
ghost use Rattle.constriction_laws.specs.stack.Lists.{DecodesBinary, LeavesOfBinary};
ghost use Rattle.constriction_laws.specs.stack.Readings.{DecodesFromBinary};

use crate::errors::RoundTripError;
use crate::stack::binary::{binary_words_come_back, one_binary_form};
use crate::stack::lists::encodes_undo_decodes;
use crate::stack::round_trips::coding::{decode_pairs, encode_pairs_reverse};
use constriction_base::backends::{Holds, ReadWords, Stack, WriteWords};
use constriction_base::model::{DecoderModel, EncoderModel, EntropyModel};
use constriction_stack::coder::AnsCoder;
use constriction_words::{BitArray, WordOf};
use std::alloc::Global;

/// Decodes one symbol for each model from any words in binary form. Returns the symbols and the coder.
///
/// Calls `from_binary` and `decode_symbols`. [`binary_words_with_pairs`] encodes the symbols back and restores the
/// words.
///
/// # Errors
///
/// - `Refused`: a read failed, or there was no memory.
pub fn pairs_from_binary_words<
    Word: WordOf<State>,
    State: BitArray,
    Backend: ReadWords<Word, Stack> + Drop,
    M: DecoderModel<PRECISION>,
    const PRECISION: usize,
>(
    alloc: Global,
    words: Backend,
    models: &[M],
) -> Result<(Vec<M::Symbol>, AnsCoder<Word, State, Backend>), RoundTripError>
where
    M::Probability: WordOf<Word>,
    Backend::ReadError: Drop,
    requires { IsSizes Word.BITS State.BITS }
    ensures count { IfOk result (λ back. length back.0.items ≡ length models.now) }
    ensures read { Backend.is_list → IfItemsWith PRECISION M.table models.now result (LeavesOfBinary Word.BITS
        State.BITS (map Word.number (Backend.words words))) }
    ensures reads { IfOk result (λ back. DecodesFromBinary Word.number Backend.reads Word.BITS State.BITS words
        (pairs_of PRECISION M.table back.0.items models.now) back.1) }
    ensures err { IfErr result OnlyRefused }
{
    let Ok(mut coder) = AnsCoder::<Word, State, Backend>::from_binary(words) else {
        return Err(RoundTripError::Refused);
    };
    let symbols = decode_pairs(alloc, &mut coder, models)?;
    Ok((symbols, coder))
}

/// Encodes symbols from last to first, each with its own model, and returns the coder's words in binary form.
///
/// Calls `encode_symbols_reverse` and `into_binary`. Suppose that a coder was imported from words in binary form, and
/// decoding `symbols` with these models led to the state of `coder`. Then the call returns those words. The caller
/// proves that there are as many models as symbols.
///
/// # Errors
///
/// - `ImpossibleSymbol`: a model has no entry for its symbol.
/// - `InvalidData`: after the encodes, the head isn't a leading 1 above whole words, so the state has no binary form.
/// - `Refused`: the backend refused a word.
pub fn binary_words_with_pairs<
    Word: WordOf<State>,
    State: BitArray,
    Backend: WriteWords<Word> + Drop,
    M: EncoderModel<PRECISION>,
    const PRECISION: usize,
>(
    coder: AnsCoder<Word, State, Backend>,
    symbols: &[M::Symbol],
    models: &[M],
) -> Result<Backend, RoundTripError>
where
    M::Probability: WordOf<Word>,
    Backend::WriteError: Drop,
    requires sizes { IsSizes Word.BITS State.BITS }
    requires count { length symbols.now ≡ length models.now }
    ensures words { IsNormalized Word.BITS State.BITS coder.state → IfOk result
        (λ again. ExportsBinary Word.BITS State.BITS
        (reverse (pairs_of PRECISION M.table symbols.now models.now)) coder.state (map Word.number (Backend.words
        again))) }
    ensures back { (words : List ℕ) → AreWords Word.BITS words → DecodesBinary Word.BITS State.BITS words (pairs_of
        PRECISION M.table symbols.now models.now) coder.state → IfOk result (λ again. map Word.number (Backend.words
        again) ≡ words) }
    ensures err { IfErr result (NoBinary Word.BITS State.BITS (pairs_of PRECISION M.table symbols.now models.now)
        coder.state) }
{
    let mut coder = coder;
    encode_pairs_reverse(&mut coder, symbols, models)?;
    encodes_undo_decodes::<M::Symbol>();
    binary_words_come_back::<M::Symbol>();
    one_binary_form();
    match coder.into_binary() {
        Ok(again) => Ok(again),
        Err(None) => Err(RoundTripError::InvalidData),
        Err(Some(_)) => Err(RoundTripError::Refused),
    }
}
