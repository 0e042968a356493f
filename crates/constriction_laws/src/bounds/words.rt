//! The exchange of one symbol for another on a stack coder, and a bound on the number of words that it adds.
//!
//! The bound is proved from the coder's public contract and the laws of [`bounds`](crate::bounds) alone.

ghost use Rattle.std.specs.Prelude.{◌-◌, ◌<◌, ◌≤◌, ◌^◌, IfOk, IfErr, MatchBool};
ghost use Rattle.constriction_base.specs.Steps.{IsSizes};
ghost use Rattle.constriction_laws.specs.Exchanges.{Exchanges, IsExchangeBounded, NotExchanged};

use crate::bounds::stack_net_bound;
use constriction_base::backends::{Holds, ReadWords, Stack, WriteWords};
use constriction_base::errors::CoderError;
use constriction_base::model::{DecoderModel, EncoderModel, EntropyModel};
use constriction_stack::coder::AnsCoder;
use constriction_stream::coder::Code;
use constriction_stream::decoding::Decode;
use constriction_stream::encoding::Encode;
use constriction_words::{BitArray, WordOf};

/// Returns whether `head` is below `2^(State::BITS - Word::BITS)`.
fn is_low<Word: WordOf<State>, State: BitArray>(head: State) -> bool
    requires { IsSizes Word.BITS State.BITS }
    ensures { MatchBool result (State.number head < 2 ^ (State.BITS - Word.BITS))
        (2 ^ (State.BITS - Word.BITS) ≤ State.number head) }
{
    head.shift_right(State::BITS - Word::BITS).is_nothing()
}

/// The reason why [`exchange`] failed.
#[derive(Debug, Clone, Copy, PartialEq, Eq)]
pub enum ExchangeError {
    /// The head is below `2^(State::BITS - Word::BITS)` before the exchange, or after the decode.
    LowHead,
    /// The model for encoding has no entry for the symbol.
    ImpossibleSymbol,
    /// A read or a write of the backend failed.
    Refused,
}

/// Decodes a symbol with the model `off`, and encodes `symbol` with the model `on`, as bits-back coding does.
///
/// Returns the decoded symbol. The clause `net` bounds the number of words that a successful call adds.
///
/// # Errors
///
/// An error after the decode doesn't undo the decode, and the decoded symbol is lost. An error before the decode, or
/// of the decode, leaves the state unchanged.
///
/// - `LowHead`: the head is below `2^(State::BITS - Word::BITS)` before the decode or after it.
/// - `ImpossibleSymbol`: the decode succeeded, but the model `on` has no entry for `symbol`.
/// - `Refused`: a read of the decode or a write of the encode failed.
pub fn exchange<
    Word: WordOf<State>,
    State: BitArray,
    Backend: ReadWords<Word, Stack> + WriteWords<Word>,
    D: DecoderModel<PRECISION>,
    E: EncoderModel<PRECISION>,
    const PRECISION: usize,
>(
    coder: &mut AnsCoder<Word, State, Backend>,
    off: &D,
    symbol: &E::Symbol,
    on: &E,
) -> Result<D::Symbol, ExchangeError>
where
    D::Probability: WordOf<Word>,
    E::Probability: WordOf<Word>,
    Backend::ReadError: Drop,
    Backend::WriteError: Drop,
    ensures net { IfOk result (λ taken. IsExchangeBounded Word.BITS State.BITS PRECISION (D.table off.now) (E.table
        on.now) taken symbol.now coder.old.state coder.new.state) }
    ensures done { IfOk result (λ taken. Exchanges Word.BITS State.BITS PRECISION (D.table off.now) (E.table on.now)
        taken symbol.now coder.old.state coder.new.state) }
    ensures err { IfErr result (NotExchanged Word.number Backend.Holds Backend.ReadWords.own Backend.WriteWords.own
        Word.BITS State.BITS PRECISION (D.table off.now) (E.table on.now) symbol.now coder.old coder.new) }
{
    if is_low::<Word, State>(coder.state()) {
        return Err(ExchangeError::LowHead);
    }
    let Ok(taken) = coder.decode_symbol(off) else {
        return Err(ExchangeError::Refused);
    };
    if is_low::<Word, State>(coder.state()) {
        return Err(ExchangeError::LowHead);
    }
    match coder.encode_symbol(symbol, on) {
        Ok(()) => {}
        Err(CoderError::Frontend(_)) => return Err(ExchangeError::ImpossibleSymbol),
        Err(CoderError::Backend(_)) => return Err(ExchangeError::Refused),
    }
    stack_net_bound();
    Ok(taken)
}
