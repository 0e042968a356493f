//! Callers that are generic over coders, and use only the coders' traits.

ghost use Rattle.std.specs.Prelude.{◌≡◌, ◌<◌, ◌≤◌, ◌↔◌, ◌∷◌, ◌++◌, List, length, reverse, IfOk, IfErr, IfSome};
ghost use Rattle.std.specs.Prelude.{MatchOption, Ok, Err};
ghost use Rattle.std.specs.Iterator.{IsFinite};
ghost use Rattle.constriction_base.specs.declared.errors.CoderError.TheVariants as coder_error;
ghost use Rattle.constriction_stream.specs.Lists.{StepsAll};
ghost use Rattle.constriction_stream.specs.Symbols.{EncodesSymbol, DecodesSymbol};
ghost use Rattle.constriction_base.specs.Tables.{Impossible};

use super::sources::Mixed;
use constriction_base::errors::CoderError;
use constriction_base::model::{DecoderModel, EncoderModel, EntropyModel};
use constriction_stream::decoding::Decode;
use constriction_stream::encoding::{Encode, EncodeReverse};
use constriction_stream::errors::TryCodingError;
use constriction_words::WordOf;

/// Encodes a symbol, and decodes one with the same model. Returns the symbol decoded, or `None` if a call fails.
pub fn there_and_back<C, M>(coder: &mut C, symbol: &M::Symbol, model: &M) -> Option<M::Symbol>
where
    C: Encode<8> + Decode<8>,
    <C as Encode<8>>::FrontendError: Drop,
    <C as Encode<8>>::BackendError: Drop,
    <C as Decode<8>>::FrontendError: Drop,
    <C as Decode<8>>::BackendError: Drop,
    M: EncoderModel<8> + DecoderModel<8>,
    M::Probability: WordOf<C::Word>,
    requires { 0 < C.symbols_left coder.old }
    ensures { IfSome result (λ other. (between : C)
        × EncodesSymbol C.encodes C.is_impossible_symbol 8 (M.table model.now) symbol.now coder.old (Ok tt) between
        × DecodesSymbol C.decodes C.halts 8 (M.table model.now) between (Ok other) coder.new) }
{
    match coder.encode_symbol(symbol, model) {
        Ok(()) => match coder.decode_symbol(model) {
            Ok(other) => Some(other),
            Err(_) => None,
        },
        Err(_) => None,
    }
}

/// Encodes symbols with one model, in order. If a symbol fails, exactly the symbols before it are encoded.
pub fn encode_some<C, M>(
    coder: &mut C,
    symbols: &[M::Symbol],
    model: &M,
) -> Result<(), CoderError<C::FrontendError, C::BackendError>>
where
    C: Encode<8>,
    M: EncoderModel<8>,
    M::Probability: WordOf<C::Word>,
    requires { length symbols.now ≤ C.symbols_left coder.old }
    ensures ok { IfOk result (λ _. StepsAll (λ old symbol result new.
        EncodesSymbol C.encodes C.is_impossible_symbol 8 (M.table model.now) symbol old result new)
        coder.old symbols.now coder.new) }
    ensures err { IfErr result (λ e. (coded : List M.Symbol) × (fault : M.Symbol) × (more : List M.Symbol)
        × (symbols.now ≡ coded ++ fault ∷ more) × (between : C) × StepsAll (λ old symbol result new.
        EncodesSymbol C.encodes C.is_impossible_symbol 8 (M.table model.now) symbol old result new)
        coder.old coded between
        × EncodesSymbol C.encodes C.is_impossible_symbol 8 (M.table model.now) fault between (Err e) coder.new) }
{
    coder.encode_iid_symbols(symbols, model)
}

/// Decodes one symbol with an iterator over three symbols, and leaves the other two undecoded.
///
/// Returns the iterator's first item, which is never `None`.
pub fn first_of_three<C, M>(
    coder: &mut C,
    model: &M,
) -> Option<Result<M::Symbol, CoderError<C::FrontendError, C::BackendError>>>
where
    C: Decode<8>,
    C::FrontendError: Drop,
    C::BackendError: Drop,
    M: DecoderModel<8>,
    M::Probability: WordOf<C::Word>,
    ensures { MatchOption result ⊥ (λ answer.
        DecodesSymbol C.decodes C.halts 8 (M.table model.now) coder.old answer coder.new) }
{
    let mut symbols = coder.decode_iid_symbols(3, model);
    symbols.next()
}

/// Returns the number of `Ok`s among `answers`, or `most` if there are more.
fn count_of<T: Drop, E: Drop, I>(answers: I, most: usize) -> usize
where
    I: Iterator<Item = Result<T, E>> + Drop,
    requires can { I.can_next answers }
    requires finite { IsFinite (I.remaining answers) }
    ensures { result ≤ most }
{
    let mut count = 0;
    for answer in answers {
        if answer.is_ok() && count < most {
            count += 1;
        }
    }
    count
}

/// Makes `amt` decodes with one model. Returns the number of decodes that succeed.
pub fn decode_all<C, M>(coder: &mut C, amt: usize, model: &M) -> usize
where
    C: Decode<8>,
    C::FrontendError: Drop,
    C::BackendError: Drop,
    M: DecoderModel<8>,
    M::Probability: WordOf<C::Word>,
    ensures { result ≤ amt }
{
    count_of(coder.decode_iid_symbols(amt, model), amt)
}

/// Encodes two symbols with one model, as two pairs in one call of `encode_symbols`.
pub fn encode_two<C, M>(
    coder: &mut C,
    first: &M::Symbol,
    second: &M::Symbol,
    model: &M,
) -> Result<(), CoderError<C::FrontendError, C::BackendError>>
where
    C: Encode<8>,
    M: EncoderModel<8>,
    M::Probability: WordOf<C::Word>,
    requires { 2 ≤ C.symbols_left coder.old }
{
    coder.encode_symbols([(first, model), (second, model)])
}

/// Encodes the items of a list in which the second item is the error 7.
///
/// The call encodes one symbol, stops at this error and returns it. If the first symbol fails, the call returns that
/// symbol's error instead.
pub fn encode_one<C, M>(
    coder: &mut C,
    symbol: &M::Symbol,
    model: &M,
) -> Result<(), TryCodingError<CoderError<C::FrontendError, C::BackendError>, u8>>
where
    C: Encode<8>,
    M: EncoderModel<8>,
    M::Probability: WordOf<C::Word>,
    requires { 3 ≤ C.symbols_left coder.old }
{
    coder.try_encode_symbols([Ok((symbol, model)), Err(7), Ok((symbol, model))])
}

/// Decodes a symbol with the first of `models`, and returns the outcome of this decode.
///
/// If `models` is empty, returns `None` and leaves the coder unchanged.
pub fn first_of_models<C, M>(
    coder: &mut C,
    models: &[M],
) -> Option<Result<M::Symbol, CoderError<C::FrontendError, C::BackendError>>>
where
    C: Decode<8>,
    C::FrontendError: Drop,
    C::BackendError: Drop,
    M: DecoderModel<8>,
    M::Probability: WordOf<C::Word>,
    ensures { MatchOption result (coder.new ≡ coder.old) (λ answer. (model : M) × (more : List M)
        × (models.now ≡ model ∷ more) × DecodesSymbol C.decodes C.halts 8 (M.table model) coder.old answer coder.new) }
{
    let mut symbols = coder.decode_symbols(models);
    symbols.next()
}

/// Decodes with an iterator of models in which the first item is the error 7.
///
/// Returns this error, and leaves the coder unchanged.
pub fn first_is_bad<C, M>(
    coder: &mut C,
    model: &M,
) -> Option<Result<M::Symbol, TryCodingError<CoderError<C::FrontendError, C::BackendError>, u8>>>
where
    C: Decode<8>,
    C::FrontendError: Drop,
    C::BackendError: Drop,
    M: DecoderModel<8>,
    M::Probability: WordOf<C::Word>,
{
    let mut symbols = coder.try_decode_symbols(Mixed {
        count: 2,
        bad: 1,
        one: model,
    });
    symbols.next()
}

/// Encodes symbols from last to first with one model.
pub fn encode_last_first<C, M>(
    coder: &mut C,
    symbols: &[M::Symbol],
    model: &M,
) -> Result<(), CoderError<C::FrontendError, C::BackendError>>
where
    C: EncodeReverse<8>,
    M: EncoderModel<8>,
    M::Probability: WordOf<C::Word>,
    requires { length symbols.now ≤ C.symbols_left coder.old }
    ensures { IfOk result (λ _. StepsAll (λ old symbol result new.
        EncodesSymbol C.encodes C.is_impossible_symbol 8 (M.table model.now) symbol old result new)
        coder.old (reverse symbols.now) coder.new) }
{
    coder.encode_iid_symbols_reverse(symbols, model)
}

/// Encodes a symbol.
///
/// Returns an error that means an impossible symbol if and only if the model has no entry for `symbol`.
pub fn encode_exactly<C, M>(
    coder: &mut C,
    symbol: &M::Symbol,
    model: &M,
) -> Result<(), CoderError<C::FrontendError, C::BackendError>>
where
    C: Encode<8>,
    M: EncoderModel<8>,
    M::Probability: WordOf<C::Word>,
    requires { C.counts_symbols → 0 < C.symbols_left coder.old }
    ensures { ((e : C.FrontendError) × C.is_impossible_symbol e × (result ≡ Err (coder_error.Frontend e)))
        ↔ Impossible (M.table model.now) symbol.now }
{
    coder.encode_symbol(symbol, model)
}

/// Encodes a symbol, or returns `None` if the coder's `maybe_full` returns true.
///
/// If the coder's ghost member `tells_room` holds, the returned error never means a lack of room.
pub fn encode_unless_full<C, M>(
    coder: &mut C,
    symbol: &M::Symbol,
    model: &M,
) -> Option<Result<(), CoderError<C::FrontendError, C::BackendError>>>
where
    C: Encode<8>,
    M: EncoderModel<8>,
    M::Probability: WordOf<C::Word>,
    requires { C.counts_symbols → 0 < C.symbols_left coder.old }
    ensures { C.tells_room coder.old → IfSome result (λ answer. IfErr answer (λ e. C.is_lack_of_room e → ⊥)) }
{
    if coder.maybe_full() {
        return None;
    }
    Some(coder.encode_symbol(symbol, model))
}

/// Decodes a symbol, or returns `None` if the coder's `maybe_exhausted` returns true.
///
/// The returned error never means that the data ended.
pub fn decode_unless_exhausted<C, M>(
    coder: &mut C,
    model: &M,
) -> Option<Result<M::Symbol, CoderError<C::FrontendError, C::BackendError>>>
where
    C: Decode<8>,
    M: DecoderModel<8>,
    M::Probability: WordOf<C::Word>,
    ensures { IfSome result (λ answer. IfErr answer (λ e. C.is_end_of_data e → ⊥)) }
{
    if coder.maybe_exhausted() {
        return None;
    }
    Some(coder.decode_symbol(model))
}
