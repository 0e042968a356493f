//! An application of a law of the chain coder, and calls whose contracts say how much room a failed call leaves.

ghost use Rattle.constriction.specs.Symbols.{DecodesSymbol, EncodesSymbol};
ghost use Rattle.constriction.specs.Tables.{Impossible};
ghost use Rattle.constriction.specs.declared.CoderError.TheVariants.{Frontend};
ghost use Rattle.constriction.specs.declared.stream.chain.EncoderFrontendError.TheVariants.{ImpossibleSymbol};
ghost use Rattle.constriction.specs.declared.stream.chain.EncoderFrontendError.TheVariants.{OutOfRemainders};
ghost use Rattle.constriction_examples.specs.Changing.{IsSecondSymbol};
ghost use Rattle.std.specs.Bool.{OnFalse, OnTrue};
ghost use Rattle.std.specs.Prelude.{Err, IfErr, IfNone, IfOk, IfSome, Ok, [], ◌≡◌, ◌≤◌};

use constriction::backends::{Holds, ReadWords, WriteWords};
use constriction::laws::chain::isolation::symbols_are_isolated;
use constriction::stream::chain::{
    BackendError, ChainCoder, DefaultChainCoder, EncoderError, EncoderFrontendError,
};
use constriction::stream::model::{DecoderModel, EncoderModel, EntropyModel};
use constriction::stream::{Decode, Encode};
use constriction::{CoderError, Stack, WordOf};

/// Decodes a symbol with `first`, changes the precision from 24 to 16 bits, and decodes another symbol with `later`.
///
/// Returns the second symbol, or `None` if a call fails.
fn second_symbol<
    A: DecoderModel<24, Symbol = usize, Probability = u32>,
    M: DecoderModel<16, Symbol = usize, Probability = u16>,
>(mut coder: DefaultChainCoder, first: &A, later: &M) -> Option<usize>
    ensures second { IfSome result
        (IsSecondSymbol (A.table first.now) (M.table later.now) coder.state) }
{
    let Ok(_) = coder.decode_symbol(first) else {
        return None;
    };
    let Ok(mut changed) = coder.change_precision::<16>() else {
        return None;
    };
    let Ok(symbol) = changed.decode_symbol(later) else {
        return None;
    };
    Some(symbol)
}

/// Decodes two symbols from each of two coders, and returns the second symbol of each.
///
/// Between the two symbols, the precision of each coder changes from 24 to 16 bits. The first symbols are decoded with
/// different models, `first` and `other`. The second symbols are decoded with the same model, `later`. If `coder` and
/// `same` begin with equal compressed heads and equal compressed words, the two symbols returned are equal.
///
/// Returns `None` if a call fails.
pub fn isolated_across_a_change<
    A: DecoderModel<24, Symbol = usize, Probability = u32>,
    B: DecoderModel<24, Symbol = usize, Probability = u32>,
    M: DecoderModel<16, Symbol = usize, Probability = u16>,
>(
    coder: DefaultChainCoder,
    first: &A,
    same: DefaultChainCoder,
    other: &B,
    later: &M,
) -> Option<(usize, usize)>
    ensures first { IfSome result (λ both.
        IsSecondSymbol (A.table first.now) (M.table later.now) coder.state both.0) }
    ensures second { IfSome result (λ both.
        IsSecondSymbol (B.table other.now) (M.table later.now) same.state both.1) }
    ensures isolated { coder.state.h ≡ same.state.h → coder.state.compressed ≡ same.state.compressed →
        IfSome result (λ both. both.0 ≡ both.1) }
{
    let symbol = second_symbol(coder, first, later)?;
    let again = second_symbol(same, other, later)?;
    symbols_are_isolated::<usize>();
    Some((symbol, again))
}

/// Decodes the next symbol, or returns `None` if the decode needs a compressed word and the backend returns none.
///
/// If the backend `C` behaves as a fixed list of words (`is_list`), `None` means that no compressed words were left.
/// If the call returns no symbol, the backend of the remainders has at least as much room as before the call.
///
/// # Errors
///
/// Returns the error that a backend returned for a read of a compressed word or a write of a word of the remainders.
pub fn decode_to_the_end<
    C: ReadWords<u32, Stack>,
    R: WriteWords<u32>,
    M: DecoderModel<PRECISION>,
    const PRECISION: usize,
>(
    coder: &mut ChainCoder<u32, u64, C, R, PRECISION>,
    model: &M,
) -> Result<Option<M::Symbol>, BackendError<C::ReadError, R::WriteError>>
where
    M::Probability: WordOf<u32>,
    ensures symbol { IfOk result (λ found. IfSome found (λ symbol.
        DecodesSymbol ⟦<ChainCoder<u32, u64, C, R, PRECISION> as Decode<PRECISION>>⟧.decodes
        ⟦<ChainCoder<u32, u64, C, R, PRECISION> as Decode<PRECISION>>⟧.halts
        PRECISION (M.table model.now) coder.old (Ok symbol) coder.new)) }
    ensures none_left { IfOk result (λ found. IfNone found (C.is_list → coder.old.state.compressed ≡ [])) }
    ensures room_at_the_end { IfOk result
        (λ found. IfNone found (R.room coder.old.remainders ≤ R.room coder.new.remainders)) }
    ensures room_at_an_error { IfErr result (λ _. R.room coder.old.remainders ≤ R.room coder.new.remainders) }
{
    match coder.decode_symbol(model) {
        Ok(symbol) => Ok(Some(symbol)),
        Err(CoderError::Frontend(_)) => Ok(None),
        Err(CoderError::Backend(error)) => Err(error),
    }
}

/// Encodes a symbol, or returns `false` if the encode needs a word of the remainders and the backend returns none.
///
/// Returns `true` if the symbol was encoded. If the backend `R` behaves as a fixed list of words (`is_list`), `false`
/// means that no words of the remainders were left. If the symbol wasn't encoded, the backend of the compressed words
/// has at least as much room as before the call.
///
/// # Errors
///
/// An error leaves the coder as the same error of `encode_symbol` does.
///
/// - `Frontend(ImpossibleSymbol)`: the model has no entry for the symbol. The coder is unchanged.
/// - `Backend(error)`: a read or a write failed with `error`.
pub fn encode_to_the_end<
    C: WriteWords<u32>,
    R: ReadWords<u32, Stack>,
    M: EncoderModel<PRECISION>,
    const PRECISION: usize,
>(
    coder: &mut ChainCoder<u32, u64, C, R, PRECISION>,
    symbol: &M::Symbol,
    model: &M,
) -> Result<bool, EncoderError<C::WriteError, R::ReadError>>
where
    M::Probability: WordOf<u32>,
    ensures encoded { IfOk result (λ put. OnTrue put (
        EncodesSymbol ⟦<ChainCoder<u32, u64, C, R, PRECISION> as Encode<PRECISION>>⟧.encodes
        ⟦<ChainCoder<u32, u64, C, R, PRECISION> as Encode<PRECISION>>⟧.is_impossible_symbol
        PRECISION (M.table model.now) symbol.now coder.old (Ok tt) coder.new)) }
    ensures none_left { IfOk result (λ put. OnFalse put (R.is_list → coder.old.state.remainders ≡ [])) }
    ensures room_at_the_end { IfOk result
        (λ put. OnFalse put (C.room coder.old.compressed ≤ C.room coder.new.compressed)) }
    ensures room_at_an_error { IfErr result (λ _. C.room coder.old.compressed ≤ C.room coder.new.compressed) }
    ensures err { IfErr result (λ error.
        EncodesSymbol ⟦<ChainCoder<u32, u64, C, R, PRECISION> as Encode<PRECISION>>⟧.encodes
        ⟦<ChainCoder<u32, u64, C, R, PRECISION> as Encode<PRECISION>>⟧.is_impossible_symbol
        PRECISION (M.table model.now) symbol.now coder.old (Err error) coder.new) }
    ensures impossible { IfErr result (λ error. error ≡ Frontend ImpossibleSymbol →
        Impossible (M.table model.now) symbol.now) }
    ensures frontend { IfErr result (λ error. error ≡ Frontend OutOfRemainders → ⊥) }
{
    match coder.encode_symbol(symbol, model) {
        Ok(()) => Ok(true),
        Err(CoderError::Frontend(EncoderFrontendError::OutOfRemainders)) => Ok(false),
        Err(error) => Err(error),
    }
}
