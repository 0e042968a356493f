//! The two halves of a round trip on the chain coder: from words to symbols and remainders, and back.
//!
//! By the law [`words_come_back`](crate::chain::words::words_come_back), the second half restores the words that the
//! first half decoded the symbols from.

ghost use Rattle.std.specs.Prelude.{◌≡◌, ℕ, List, length, map, reverse, IfErr, IfOk, OnOk};
ghost use Rattle.constriction_base.specs.Models.{pairs_of};
ghost use Rattle.constriction_chain.specs.Chain.{ChainState, IsSized};
ghost use Rattle.constriction_laws.specs.chain.Endings.{ComesBackOver, OnlyEnds};
ghost use Rattle.constriction_laws.specs.chain.Lists.{AfterWholeDecodes};
ghost use Rattle.constriction_laws.specs.chain.Pairs.{PairsEnded, PairsNotPutBack, ChainEncodesPairs};
ghost use Rattle.constriction_laws.specs.chain.Pairs.{ChainDecodesApart};

use crate::chain::errors::PutBackError;
use crate::chain::round_trips::coding::{decode_pairs, encode_pairs_reverse};
use crate::errors::RoundTripError;
use constriction_base::backends::Holds;
use constriction_base::errors::CoderError;
use constriction_base::model::{DecoderModel, EncoderModel, EntropyModel};
use constriction_chain::{ChainCoder, EncoderFrontendError};
use constriction_words::{BitArray, WordOf};
use std::alloc::Global;

/// Decodes one symbol for each model. Returns the symbols, the compressed words left, and the remainders.
///
/// Calls `decode_symbols` and `into_remainders`. The remainders include both heads.
///
/// # Errors
///
/// - `OutOfData(count)`: after `count` symbols the coder needs a compressed word, and none is left.
/// - `Refused`: there was no memory.
pub fn take_pairs<
    Word: WordOf<State>,
    State: BitArray,
    M: DecoderModel<PRECISION>,
    const PRECISION: usize,
>(
    alloc: Global,
    coder: ChainCoder<Word, State, Vec<Word>, Vec<Word>, PRECISION>,
    models: &[M],
) -> Result<(Vec<M::Symbol>, Vec<Word>, Vec<Word>), RoundTripError>
where
    M::Probability: WordOf<Word>,
    M::Symbol: Drop,
    ensures count { IfOk result (λ taken. length taken.0.items ≡ length models.now) }
    ensures words { IfOk result (λ taken. ChainDecodesApart Word.number Word.BITS State.BITS (pairs_of PRECISION M.table
        taken.0.items models.now) coder.state taken.1.items taken.2.items) }
    ensures err { IfErr result (OnlyEnds (PairsEnded Word.BITS State.BITS PRECISION M.table models.now
        coder.state)) }
{
    let mut coder = coder;
    let symbols = decode_pairs(alloc, &mut coder, models)?;
    match coder.into_remainders() {
        Ok((prefix, suffix)) => Ok((symbols, prefix, suffix)),
        Err(_) => Err(RoundTripError::Refused),
    }
}

/// Creates a coder from remainders, and encodes symbols onto it from last to first, each with its own model.
///
/// Calls `from_remainders` and `encode_symbols_reverse`. Returns the coder. Suppose that [`take_pairs`] decoded these
/// symbols with these models right after an import, and returned `remainders`. Then the coder holds the imported words
/// except the compressed words that `take_pairs` returned.
///
/// # Errors
///
/// The clause `err` proves the reason for each error except `NoMemory`.
///
/// - `UnequalCounts`: the number of models and the number of symbols differ.
/// - `InvalidRemainders`: no coder exports these words as remainders.
/// - `ImpossibleSymbol`: a model has no entry for its symbol.
/// - `OutOfRemainders`: the coder needs a word of the remainders, and none is left.
/// - `NoMemory`: there was no memory.
pub fn put_back_pairs<
    Word: WordOf<State>,
    State: BitArray,
    M: EncoderModel<PRECISION>,
    const PRECISION: usize,
>(
    alloc: Global,
    remainders: Vec<Word>,
    symbols: &[M::Symbol],
    models: &[M],
) -> Result<ChainCoder<Word, State, Vec<Word>, Vec<Word>, PRECISION>, PutBackError>
where
    M::Probability: WordOf<Word>,
    requires { IsSized Word.BITS State.BITS PRECISION }
    ensures counts { OnOk result (length symbols.now ≡ length models.now) }
    ensures encoded { IfOk result (λ coder. ChainEncodesPairs Word.BITS State.BITS PRECISION M.table symbols.now
        models.now
        (map Word.number (reverse remainders.items)) coder.state) }
    ensures back { (x after : ChainState) (below : List ℕ) → AfterWholeDecodes Word.BITS State.BITS PRECISION (pairs_of
        PRECISION M.table symbols.now models.now) (map Word.number (reverse remainders.items)) x after below (IfOk
        result (λ coder. ComesBackOver x below after.compressed coder.state)) }
    ensures err { IfErr result (PairsNotPutBack Word.BITS State.BITS PRECISION M.table (map Word.number (reverse
        remainders.items)) symbols.now models.now) }
{
    if symbols.len() != models.len() {
        return Err(PutBackError::UnequalCounts);
    }
    let mut coder = match ChainCoder::<
        Word,
        State,
        Vec<Word>,
        Vec<Word>,
        PRECISION,
    >::from_remainders(alloc, remainders)
    {
        Ok(coder) => coder,
        Err(CoderError::Frontend(_)) => return Err(PutBackError::InvalidRemainders),
        Err(CoderError::Backend(never)) => match never {},
    };
    match encode_pairs_reverse(&mut coder, symbols, models) {
        Ok(()) => Ok(coder),
        Err(CoderError::Frontend(EncoderFrontendError::ImpossibleSymbol)) => {
            Err(PutBackError::ImpossibleSymbol)
        }
        Err(CoderError::Frontend(EncoderFrontendError::OutOfRemainders)) => {
            Err(PutBackError::OutOfRemainders)
        }
        Err(CoderError::Backend(_)) => Err(PutBackError::NoMemory),
    }
}
