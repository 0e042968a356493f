//! Functions that encode or decode a list of symbols on a chain coder.
//!
//! The contracts use the laws' definitions to relate the coder's states before and after a call.

ghost use Rattle.std.specs.Prelude.{◌≡◌, length, reverse, IfErr, IfOk, OnOk};
ghost use Rattle.constriction_base.specs.Models.{pairs_of};
ghost use Rattle.constriction_chain.specs.Symbols.{ChainDecodesAll, ChainEncodesAll};
ghost use Rattle.constriction_laws.specs.Outcomes.{IfRefused};
ghost use Rattle.constriction_laws.specs.chain.Endings.{NotEncoded, OnlyEnds};
ghost use Rattle.constriction_laws.specs.chain.Pairs.{DecodesByReads, PairsEndEarly, PairsRefused};

use crate::errors::{RoundTripError, Stopped};
use crate::round_trips as any_coder;
use constriction_base::backends::{Holds, ReadWords, Stack, WriteWords};
use constriction_base::errors::CoderError;
use constriction_base::model::{DecoderModel, EncoderModel, EntropyModel};
use constriction_chain::{ChainCoder, EncoderError};
use constriction_stream::decoding::Decode;
use constriction_stream::encoding::{Encode, EncodeReverse};
use constriction_words::{BitArray, WordOf};
use std::alloc::Global;

/// Decodes one symbol for each model, and returns the symbols in the order of the models.
///
/// # Errors
///
/// - `OutOfData(count)`: after `count` symbols the coder needed a compressed word, and the backend returned none.
/// - `Refused`: a read or a write failed, or there was no memory.
pub fn decode_pairs<
    Word: WordOf<State>,
    State: BitArray,
    C: ReadWords<Word, Stack>,
    R: WriteWords<Word>,
    M: DecoderModel<PRECISION>,
    const PRECISION: usize,
>(
    alloc: Global,
    coder: &mut ChainCoder<Word, State, C, R, PRECISION>,
    models: &[M],
) -> Result<Vec<M::Symbol>, RoundTripError>
where
    M::Probability: WordOf<Word>,
    C::ReadError: Drop,
    R::WriteError: Drop,
    ensures count { IfOk result (λ again. length again.items ≡ length models.now) }
    ensures decoded { C.is_list → IfOk result (λ again. ChainDecodesAll Word.BITS State.BITS
        (pairs_of PRECISION M.table again.items models.now) coder.old.state coder.new.state) }
    ensures reads { IfOk result (λ again. DecodesByReads Word.number C.Holds C.ReadWords.own R.Holds R.WriteWords.own
        Word.BITS State.BITS PRECISION M.table again.items models.now coder.old coder.new) }
    ensures err { IfErr result (OnlyEnds (λ taken. PairsEndEarly C.is_list Word.BITS State.BITS PRECISION M.table
        models.now coder.old.state taken coder.new.state)) }
    ensures refused { IfErr result (IfRefused (PairsRefused Word.number C.Holds C.ReadWords.own R.Holds R.WriteWords.own
        Word.BITS State.BITS PRECISION M.table models.now coder.old coder.new)) }
{
    match any_coder::decode_by_models::<_, _, PRECISION>(alloc, coder, models) {
        Ok(symbols) => Ok(symbols),
        Err((taken, Stopped::Refused(CoderError::Frontend(_)))) => Err(RoundTripError::OutOfData(
            taken,
        )),
        Err((_, Stopped::Refused(CoderError::Backend(_)))) => Err(RoundTripError::Refused),
        Err((_, Stopped::NoMemory)) => Err(RoundTripError::Refused),
    }
}

/// Encodes symbols from last to first, each with its own model.
///
/// The caller proves that there are as many models as symbols.
///
/// # Errors
///
/// - `Frontend(ImpossibleSymbol)`: a model has no entry for its symbol.
/// - `Frontend(OutOfRemainders)`: the coder needed a word of the remainders, and the backend returned none.
/// - `Backend(error)`: a read or a write failed with `error`.
pub fn encode_pairs_reverse<
    Word: WordOf<State>,
    State: BitArray,
    C: WriteWords<Word>,
    R: ReadWords<Word, Stack>,
    M: EncoderModel<PRECISION>,
    const PRECISION: usize,
>(
    coder: &mut ChainCoder<Word, State, C, R, PRECISION>,
    symbols: &[M::Symbol],
    models: &[M],
) -> Result<(), EncoderError<C::WriteError, R::ReadError>>
where
    M::Probability: WordOf<Word>,
    requires { length symbols.now ≡ length models.now }
    ensures encoded { R.is_list → OnOk result (ChainEncodesAll Word.BITS State.BITS
        (reverse (pairs_of PRECISION M.table symbols.now models.now)) coder.old.state coder.new.state) }
    ensures err { R.is_list → IfErr result (λ e. NotEncoded Word.BITS State.BITS
        (reverse (pairs_of PRECISION M.table symbols.now models.now)) coder.old.state e coder.new.state) }
{
    coder.encode_symbols_reverse(symbols.iter().zip(models.iter()))
}
