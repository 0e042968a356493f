//! Decoding a list of symbols from any decoder into a vector.

ghost use Rattle.std.specs.Prelude.{◌≡◌, length, IfOk, IfErr};
ghost use Rattle.constriction_laws.specs.Outcomes.{DecodesPairs, StopsAmong};

use crate::errors::Stopped;
use constriction_base::errors::CoderError;
use constriction_base::model::{DecoderModel, EntropyModel};
use constriction_stream::decoding::Decode;
use constriction_words::WordOf;
use std::alloc::Global;

/// Decodes one symbol for each model, with [`Decode::decode_symbols`].
///
/// # Errors
///
/// - `(count, Refused(error))`: the decoder returned `count` symbols, and then `error` for the next symbol.
/// - `(0, NoMemory)`: there was no memory for the symbols. The count is then always 0, even if symbols were decoded.
pub fn decode_by_models<C, M, const PRECISION: usize>(
    alloc: Global,
    decoder: &mut C,
    models: &[M],
) -> Result<
    Vec<M::Symbol>,
    (
        usize,
        Stopped<CoderError<C::FrontendError, C::BackendError>>,
    ),
>
where
    C: Decode<PRECISION>,
    M: DecoderModel<PRECISION>,
    M::Probability: WordOf<C::Word>,
    ensures count { IfOk result (λ symbols. length symbols.items ≡ length models.now) }
    ensures steps { IfOk result (λ symbols. DecodesPairs C.decodes C.halts PRECISION M.table symbols.items models.now
        decoder.old decoder.new) }
    ensures err { IfErr result
        (λ e. StopsAmong C.decodes C.halts PRECISION M.table models.now e.0 decoder.old e.1 decoder.new) }
{
    let mut symbols = Vec::new(alloc);
    for answer in decoder.decode_symbols(models) {
        let symbol = match answer {
            Ok(symbol) => symbol,
            Err(error) => return Err((symbols.len(), Stopped::Refused(error))),
        };
        let Ok(()) = symbols.push(symbol) else {
            return Err((0, Stopped::NoMemory));
        };
    }
    Ok(symbols)
}
