//! Functions that encode or decode a list of symbols on a stack coder.
//!
//! The contracts use the laws' definitions to relate the coder's states before and after a call.

ghost use Rattle.std.specs.Prelude.{◌≡◌, length, IfOk, IfErr, OnOk};
ghost use Rattle.constriction_laws.specs.Outcomes.{HasImpossibleItem, OnlyRefused, UnlessImpossible};
ghost use Rattle.constriction_stack.specs.Ans.{IsNormalized};
ghost use Rattle.constriction_laws.specs.stack.Exporting.{PushesPairs, UndoesEncodes};
ghost use Rattle.constriction_laws.specs.stack.Readings.{DecodesAllBy};
ghost use Rattle.constriction_stack.specs.Symbols.{DecodesAll};
ghost use Rattle.constriction_base.specs.Models.{pairs_of};

use crate::errors::RoundTripError;
use crate::round_trips as any_coder;
use constriction_base::backends::{Holds, ReadWords, Stack, WriteWords};
use constriction_base::errors::CoderError;
use constriction_base::model::{DecoderModel, EncoderModel, EntropyModel};
use constriction_stack::coder::AnsCoder;
use constriction_stream::encoding::{Encode, EncodeReverse};
use constriction_words::{BitArray, WordOf};
use std::alloc::Global;

/// Encodes symbols from last to first, each with its own model.
///
/// The caller proves that there are as many models as symbols.
///
/// # Errors
///
/// - `ImpossibleSymbol`: a model has no entry for its symbol.
/// - `Refused`: the backend refused a word.
pub fn encode_pairs_reverse<
    Word: WordOf<State>,
    State: BitArray,
    Backend: WriteWords<Word>,
    M: EncoderModel<PRECISION>,
    const PRECISION: usize,
>(
    coder: &mut AnsCoder<Word, State, Backend>,
    symbols: &[M::Symbol],
    models: &[M],
) -> Result<(), RoundTripError>
where
    M::Probability: WordOf<Word>,
    Backend::WriteError: Drop,
    requires { length symbols.now ≡ length models.now }
    ensures coded { IsNormalized Word.BITS State.BITS coder.old.state → OnOk result (PushesPairs Word.BITS State.BITS
        PRECISION M.table symbols.now models.now coder.old coder.new) }
    ensures err { IfErr result (UnlessImpossible
        (HasImpossibleItem (pairs_of PRECISION M.table symbols.now models.now))) }
{
    match coder.encode_symbols_reverse(symbols.iter().zip(models.iter())) {
        Ok(()) => Ok(()),
        Err(CoderError::Frontend(_)) => Err(RoundTripError::ImpossibleSymbol),
        Err(CoderError::Backend(_)) => Err(RoundTripError::Refused),
    }
}

/// Decodes one symbol for each model, and returns the symbols in the order of the models.
///
/// # Errors
///
/// - `Refused`: a read failed, or there was no memory.
pub fn decode_pairs<
    Word: WordOf<State>,
    State: BitArray,
    Backend: ReadWords<Word, Stack>,
    M: DecoderModel<PRECISION>,
    const PRECISION: usize,
>(
    alloc: Global,
    coder: &mut AnsCoder<Word, State, Backend>,
    models: &[M],
) -> Result<Vec<M::Symbol>, RoundTripError>
where
    M::Probability: WordOf<Word>,
    Backend::ReadError: Drop,
    ensures count { IfOk result (λ again. length again.items ≡ length models.now) }
    ensures decoded { Backend.is_list → IfOk result (λ again. DecodesAll Word.BITS State.BITS
        (pairs_of PRECISION M.table again.items models.now) coder.old.state coder.new.state) }
    ensures read { IfOk result (λ again. DecodesAllBy Word.number Backend.reads Word.BITS State.BITS
        (pairs_of PRECISION M.table again.items models.now) coder.old coder.new) }
    ensures back { Backend.is_list → UndoesEncodes Word.BITS State.BITS PRECISION M.table models.now coder.old.state
        result coder.new.state }
    ensures err { IfErr result OnlyRefused }
{
    match any_coder::decode_by_models::<_, _, PRECISION>(alloc, coder, models) {
        Ok(again) => Ok(again),
        Err(_) => Err(RoundTripError::Refused),
    }
}
