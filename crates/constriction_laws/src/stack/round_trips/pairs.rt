//! The two halves of a round trip on the stack coder: encoding symbols to words, and decoding symbols from words.
//!
//! Each symbol has its own model. The clause `back` of [`pairs_from_words`] joins the two halves: if a stack coder
//! exported the words, the call returns the encoded symbols.

ghost use Rattle.std.specs.Prelude.{◌≡◌, length, map, reverse, IfOk, IfErr, OnOk};
ghost use Rattle.constriction_base.specs.Models.{pairs_of};
ghost use Rattle.constriction_base.specs.Steps.{IsSizes};
ghost use Rattle.constriction_laws.specs.Outcomes.{HasImpossibleItem, IfItemsWith, UnlessImpossible, UnlessInvalid};
ghost use Rattle.constriction_stack.specs.Ans.{IsNormalized, empty};
ghost use Rattle.constriction_stack.specs.Imports.{ImportRefused};
ghost use Rattle.constriction_laws.specs.stack.Exporting.{BoundsPairs, ExportsAll, UndoesExport};
ghost use Rattle.constriction_laws.specs.stack.Lists.{LeavesOfWords};
ghost use Rattle.constriction_laws.specs.stack.Readings.{DecodesFrom};

use crate::bounds::stack_bound;
use crate::errors::RoundTripError;
use crate::stack::round_trips::coding::{decode_pairs, encode_pairs_reverse};
use crate::stack::words::import_of_export;
use constriction_base::backends::{Holds, ReadWords, Stack, WriteWords};
use constriction_base::model::{DecoderModel, EncoderModel, EntropyModel};
use constriction_stack::coder::AnsCoder;
use constriction_words::{BitArray, WordOf};
use std::alloc::Global;

/// Encodes symbols from last to first, each with its own model, and returns the words that the coder then exports.
///
/// Calls `encode_symbols_reverse` and `into_compressed`. For an empty coder, the clause `few` bounds the number of
/// words. The caller proves that there are as many models as symbols.
///
/// # Errors
///
/// - `ImpossibleSymbol`: a model has no entry for its symbol.
/// - `Refused`: the backend refused a word.
pub fn words_with_pairs<
    Word: WordOf<State>,
    State: BitArray,
    Backend: WriteWords<Word> + Drop,
    M: EncoderModel<PRECISION>,
    const PRECISION: usize,
>(
    coder: AnsCoder<Word, State, Backend>,
    symbols: &[M::Symbol],
    models: &[M],
) -> Result<Backend, RoundTripError>
where
    M::Probability: WordOf<Word>,
    Backend::WriteError: Drop,
    requires { length symbols.now ≡ length models.now }
    ensures words { IsNormalized Word.BITS State.BITS coder.state → IfOk result
        (λ words. ExportsAll Word.BITS State.BITS
        (reverse (pairs_of PRECISION M.table symbols.now models.now))
        coder.state (map Word.number (Backend.words words))) }
    ensures sizes { OnOk result (IsSizes Word.BITS State.BITS) }
    ensures few { coder.state ≡ empty → IfOk result (λ words. BoundsPairs Word.BITS State.BITS PRECISION M.table
        symbols.now models.now (Backend.words words)) }
    ensures err { IfErr result (UnlessImpossible
        (HasImpossibleItem (pairs_of PRECISION M.table symbols.now models.now))) }
{
    let mut coder = coder;
    encode_pairs_reverse(&mut coder, symbols, models)?;
    stack_bound();
    match coder.into_compressed() {
        Ok(words) => Ok(words),
        Err(_) => Err(RoundTripError::Refused),
    }
}

/// Decodes one symbol for each model from words, and returns the symbols and the coder.
///
/// Calls `from_compressed` and `decode_symbols`. Suppose that the backend behaves as a fixed list of words
/// (`is_list`). Suppose also that a coder in a valid state encoded one symbol with each model, from last to first, and
/// then exported the words. Then the call returns the symbols in order, and a coder in the state before these encodes.
///
/// # Errors
///
/// - `InvalidData`: the import failed, because the last word is zero or a read failed.
/// - `Refused`: a later read failed, or there was no memory.
pub fn pairs_from_words<
    Word: WordOf<State>,
    State: BitArray,
    Backend: ReadWords<Word, Stack> + Drop,
    M: DecoderModel<PRECISION>,
    const PRECISION: usize,
>(
    alloc: Global,
    words: Backend,
    models: &[M],
) -> Result<(Vec<M::Symbol>, AnsCoder<Word, State, Backend>), RoundTripError>
where
    M::Probability: WordOf<Word>,
    Backend::ReadError: Drop,
    requires { IsSizes Word.BITS State.BITS }
    ensures count { IfOk result (λ back. length back.0.items ≡ length models.now) }
    ensures read { Backend.is_list → IfItemsWith PRECISION M.table models.now result (LeavesOfWords Word.BITS State.BITS
        (map Word.number (Backend.words words))) }
    ensures reads { IfOk result (λ back. DecodesFrom Word.number Backend.reads Word.BITS State.BITS words
        (pairs_of PRECISION M.table back.0.items models.now) back.1) }
    ensures back { Backend.is_list → UndoesExport Word.BITS State.BITS PRECISION M.table models.now (map Word.number
        (Backend.words words)) result }
    ensures err { IfErr result (UnlessInvalid ((rest : Backend)
        × ImportRefused Word.number Backend.reads Word.BITS State.BITS words rest)) }
{
    let Ok(mut decoder) = AnsCoder::<Word, State, Backend>::from_compressed(words) else {
        return Err(RoundTripError::InvalidData);
    };
    import_of_export();
    let again = decode_pairs(alloc, &mut decoder, models)?;
    Ok((again, decoder))
}
