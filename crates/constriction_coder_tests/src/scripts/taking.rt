//! The acts of a script that decode symbols, one by one and with iterators, for any decoder.

use super::answers::{DONE, MEMORY, OTHER, ScriptWord, answer_if};
use super::script::{Act, error_at, find};
use constriction_base::model::{DecoderModel, EntropyModel};
use constriction_stream::coder::Code;
use constriction_stream::decoding::Decode;
use constriction_words::WordOf;
use std::alloc::{AllocError, Global};

/// Decodes symbols one by one, and compares them with `symbols`. Returns the answer of the last decode.
///
/// The call stops after the first decode that fails, or that returns another symbol.
pub fn take_each<C, M, const PRECISION: usize>(
    coder: &mut C,
    model: &M,
    symbols: &[usize],
) -> &'static str
where
    C: Decode<PRECISION>,
    C::FrontendError: ScriptWord + Drop,
    C::BackendError: ScriptWord + Drop,
    M: DecoderModel<PRECISION, Symbol = usize>,
    M::Probability: WordOf<C::Word>,
{
    for symbol in symbols {
        let answer = take_next(coder, model, *symbol);
        if answer != DONE {
            return answer;
        }
    }
    DONE
}

/// Decodes a symbol, and compares it with `symbol`. Returns the answer.
fn take_next<C, M, const PRECISION: usize>(coder: &mut C, model: &M, symbol: usize) -> &'static str
where
    C: Decode<PRECISION>,
    C::FrontendError: ScriptWord + Drop,
    C::BackendError: ScriptWord + Drop,
    M: DecoderModel<PRECISION, Symbol = usize>,
    M::Probability: WordOf<C::Word>,
{
    came(coder.decode_symbol(model), symbol)
}

/// Returns the answer of a decode that should return `symbol`.
fn came<E: ScriptWord + Drop>(answer: Result<usize, E>, symbol: usize) -> &'static str {
    match answer {
        Ok(found) => answer_if(found == symbol),
        Err(error) => error.told(),
    }
}

/// Returns whether `answer` is the expected result of an iterator at index `at`: a symbol, an error, or the end.
///
/// `act` has the expected symbols, and the numbers that may stand for errors.
fn is_as_asked<E: ScriptWord + Drop>(
    answer: Option<Result<usize, E>>,
    act: (&[usize], &[u128]),
    at: usize,
) -> bool {
    match (answer, error_at(act.1, at), act.0.get(at)) {
        (Some(Err(error)), Some(wanted), _) => error.told() == wanted.told(),
        (Some(Ok(found)), None, Some(symbol)) => found == *symbol,
        (None, None, None) => true,
        _ => false,
    }
}

/// Decodes the first symbols of an iterator over `numbers[0]` symbols, and compares them with the other numbers.
///
/// All symbols have the same model. The call then drops the iterator, so the remaining symbols stay on the coder. It
/// returns the answer.
fn by_one<C, M, const PRECISION: usize>(coder: &mut C, model: &M, numbers: &[usize]) -> &'static str
where
    C: Decode<PRECISION>,
    C::FrontendError: ScriptWord + Drop,
    C::BackendError: ScriptWord + Drop,
    M: DecoderModel<PRECISION, Symbol = usize>,
    M::Probability: WordOf<C::Word>,
{
    let Some((count, symbols)) = numbers.split_first() else {
        return OTHER;
    };
    let mut given = coder.decode_iid_symbols(*count, model);
    if given.size_hint() != (*count, Some(*count)) {
        return OTHER;
    }
    for at in 0..symbols.len() {
        if !is_as_asked(given.next(), (symbols, &[]), at) {
            return OTHER;
        }
    }
    DONE
}

/// Returns a list of `count` references to `model`.
fn models_of<M>(alloc: Global, model: &M, count: usize) -> Result<Vec<&M>, AllocError> {
    let mut models = Vec::new(alloc);
    for _ in 0..count {
        models.push(model)?;
    }
    Ok(models)
}

/// Decodes with an iterator over models, and compares the results with `symbols` up to the end. Returns the answer.
fn by_models<C, M, const PRECISION: usize>(
    alloc: Global,
    coder: &mut C,
    model: &M,
    symbols: &[usize],
) -> &'static str
where
    C: Decode<PRECISION>,
    C::FrontendError: ScriptWord + Drop,
    C::BackendError: ScriptWord + Drop,
    M: DecoderModel<PRECISION, Symbol = usize>,
    M::Probability: WordOf<C::Word>,
{
    let Ok(models) = models_of(alloc, model, symbols.len()) else {
        return MEMORY;
    };
    let mut given = coder.decode_symbols(models);
    if given.size_hint() != (symbols.len(), Some(symbols.len())) {
        return OTHER;
    }
    for at in 0..=symbols.len() {
        if !is_as_asked(given.next(), (symbols, &[]), at) {
            return OTHER;
        }
    }
    DONE
}

/// Returns an item for each number: the error that it stands for, or else `model`.
fn items_of<'a, M>(
    alloc: Global,
    model: &'a M,
    numbers: &[u128],
) -> Result<Vec<Result<&'a M, u8>>, AllocError> {
    let mut items = Vec::new(alloc);
    for at in 0..numbers.len() {
        items.push(match error_at(numbers, at) {
            Some(error) => Err(error),
            None => Ok(model),
        })?;
    }
    Ok(items)
}

/// Decodes with an iterator over items, and compares the results with `act` up to the end. Returns the answer.
fn by_items<C, M, const PRECISION: usize>(
    alloc: Global,
    coder: &mut C,
    model: &M,
    act: (&[usize], &[u128]),
) -> &'static str
where
    C: Decode<PRECISION>,
    C::FrontendError: ScriptWord + Drop,
    C::BackendError: ScriptWord + Drop,
    M: DecoderModel<PRECISION, Symbol = usize>,
    M::Probability: WordOf<C::Word>,
{
    let Ok(items) = items_of(alloc, model, act.1) else {
        return MEMORY;
    };
    let count = act.0.len();
    let mut given = coder.try_decode_symbols(items);
    if given.size_hint() != (count, Some(count)) {
        return OTHER;
    }
    for at in 0..=count {
        if !is_as_asked(given.next(), act, at) {
            return OTHER;
        }
    }
    DONE
}

/// A way to decode symbols.
#[derive(Clone, Copy)]
enum Take {
    Each,
    Next,
    ByOne,
    ByModels,
    ByItems,
}

/// The verbs that decode symbols.
///
/// - `take` decodes symbols one by one.
/// - `next` decodes one symbol, and expects a refusal.
/// - `by-one` decodes the first symbols of an iterator with one model. Its first number is the iterator's length.
/// - `by-models` decodes with an iterator over models.
/// - `by-items` decodes with an iterator over items, among which `bad7` is an error.
const TAKES: &[(&str, Take)] = &[
    ("take", Take::Each),
    ("next", Take::Next),
    ("by-one", Take::ByOne),
    ("by-models", Take::ByModels),
    ("by-items", Take::ByItems),
];

/// Decodes symbols with the call that `act` names.
///
/// Returns the answer of the call, or `None` if `TAKES` doesn't have the verb of `act`.
pub fn take_by<C, M, const PRECISION: usize>(
    alloc: Global,
    coder: &mut C,
    model: &M,
    act: &Act<'_>,
) -> Option<&'static str>
where
    C: Decode<PRECISION>,
    C::FrontendError: ScriptWord + Drop,
    C::BackendError: ScriptWord + Drop,
    M: DecoderModel<PRECISION, Symbol = usize>,
    M::Probability: WordOf<C::Word>,
{
    Some(match find(TAKES, act.verb)? {
        Take::Each => take_each(coder, model, act.symbols),
        Take::Next => take_next(coder, model, usize::MAX),
        Take::ByOne => by_one(coder, model, act.symbols),
        Take::ByModels => by_models(alloc, coder, model, act.symbols),
        Take::ByItems => by_items(alloc, coder, model, (act.symbols, act.numbers)),
    })
}
