//! The acts of a script that encode symbols, for any encoder.

use super::answers::{DONE, MEMORY, OTHER, ScriptWord, answer_of};
use super::script::{Act, error_at, find};
use constriction_base::model::{EncoderModel, EntropyModel};
use constriction_stream::coder::Code;
use constriction_stream::encoding::{Encode, EncodeReverse};
use constriction_words::WordOf;
use std::alloc::{AllocError, Global};

/// Encodes `symbols` one by one, up to the first error. Returns the answer of the last `encode_symbol`.
///
/// If `symbols_left` is 0 before a symbol, the call encodes no further symbol and returns [`OTHER`].
pub fn put_each<C, M, const PRECISION: usize>(
    coder: &mut C,
    model: &M,
    symbols: &[usize],
) -> &'static str
where
    C: Encode<PRECISION>,
    C::FrontendError: ScriptWord + Drop,
    C::BackendError: ScriptWord + Drop,
    M: EncoderModel<PRECISION, Symbol = usize>,
    M::Probability: WordOf<C::Word>,
{
    for symbol in symbols {
        if coder.symbols_left() == 0 {
            return OTHER;
        }
        let answer = answer_of(coder.encode_symbol(symbol, model));
        if answer != DONE {
            return answer;
        }
    }
    DONE
}

/// Encodes `symbols` with one model, in one call for the whole list. Returns the answer of the call.
fn put_list<C, M, const PRECISION: usize>(
    coder: &mut C,
    model: &M,
    symbols: &[usize],
) -> &'static str
where
    C: Encode<PRECISION>,
    C::FrontendError: ScriptWord + Drop,
    C::BackendError: ScriptWord + Drop,
    M: EncoderModel<PRECISION, Symbol = usize>,
    M::Probability: WordOf<C::Word>,
{
    if coder.symbols_left() < symbols.len() {
        return OTHER;
    }
    answer_of(coder.encode_iid_symbols(symbols, model))
}

/// Encodes `symbols` from last to first with one model, in one call for the whole list. Returns the answer of the call.
fn put_list_back<C, M, const PRECISION: usize>(
    coder: &mut C,
    model: &M,
    symbols: &[usize],
) -> &'static str
where
    C: EncodeReverse<PRECISION>,
    C::FrontendError: ScriptWord + Drop,
    C::BackendError: ScriptWord + Drop,
    M: EncoderModel<PRECISION, Symbol = usize>,
    M::Probability: WordOf<C::Word>,
{
    if coder.symbols_left() < symbols.len() {
        return OTHER;
    }
    answer_of(coder.encode_iid_symbols_reverse(symbols, model))
}

/// A symbol with its model.
type Pair<'a, M> = (&'a usize, &'a M);

/// Returns each of `symbols`, paired with `model`.
fn pairs_of<'a, M>(
    alloc: Global,
    model: &'a M,
    symbols: &'a [usize],
) -> Result<Vec<Pair<'a, M>>, AllocError> {
    let mut pairs = Vec::new(alloc);
    for symbol in symbols {
        pairs.push((symbol, model))?;
    }
    Ok(pairs)
}

/// Encodes a list of pairs, each of a symbol and `model`, in one call. Returns the answer of the call.
fn put_pairs<C, M, const PRECISION: usize>(
    alloc: Global,
    coder: &mut C,
    model: &M,
    symbols: &[usize],
) -> &'static str
where
    C: Encode<PRECISION>,
    C::FrontendError: ScriptWord + Drop,
    C::BackendError: ScriptWord + Drop,
    M: EncoderModel<PRECISION, Symbol = usize>,
    M::Probability: WordOf<C::Word>,
{
    let Ok(pairs) = pairs_of(alloc, model, symbols) else {
        return MEMORY;
    };
    if coder.symbols_left() < pairs.len() {
        return OTHER;
    }
    answer_of(coder.encode_symbols(pairs))
}

/// Encodes a list of pairs, each of a symbol and `model`, from last to first in one call. Returns the answer.
fn put_pairs_back<C, M, const PRECISION: usize>(
    alloc: Global,
    coder: &mut C,
    model: &M,
    symbols: &[usize],
) -> &'static str
where
    C: EncodeReverse<PRECISION>,
    C::FrontendError: ScriptWord + Drop,
    C::BackendError: ScriptWord + Drop,
    M: EncoderModel<PRECISION, Symbol = usize>,
    M::Probability: WordOf<C::Word>,
{
    let Ok(pairs) = pairs_of(alloc, model, symbols) else {
        return MEMORY;
    };
    if coder.symbols_left() < pairs.len() {
        return OTHER;
    }
    answer_of(coder.encode_symbols_reverse(pairs))
}

/// Returns an item for each symbol: the error at the same index of `numbers`, or else the symbol with `model`.
fn items_of<'a, M>(
    alloc: Global,
    model: &'a M,
    symbols: &'a [usize],
    numbers: &[u128],
) -> Result<Vec<Result<Pair<'a, M>, u8>>, AllocError> {
    let mut items = Vec::new(alloc);
    let mut at: usize = 0;
    for symbol in symbols {
        items.push(match error_at(numbers, at) {
            Some(error) => Err(error),
            None => Ok((symbol, model)),
        })?;
        at = at.saturating_add(1);
    }
    Ok(items)
}

/// Encodes a list of items, some of which may be errors, in one call. Returns the answer of the call.
fn put_items<C, M, const PRECISION: usize>(
    alloc: Global,
    coder: &mut C,
    model: &M,
    (symbols, numbers): (&[usize], &[u128]),
) -> &'static str
where
    C: Encode<PRECISION>,
    C::FrontendError: ScriptWord + Drop,
    C::BackendError: ScriptWord + Drop,
    M: EncoderModel<PRECISION, Symbol = usize>,
    M::Probability: WordOf<C::Word>,
{
    let Ok(items) = items_of(alloc, model, symbols, numbers) else {
        return MEMORY;
    };
    if coder.symbols_left() < items.len() {
        return OTHER;
    }
    answer_of(coder.try_encode_symbols(items))
}

/// Encodes a list of items, some of which may be errors, from last to first in one call. Returns the answer.
fn put_items_back<C, M, const PRECISION: usize>(
    alloc: Global,
    coder: &mut C,
    model: &M,
    (symbols, numbers): (&[usize], &[u128]),
) -> &'static str
where
    C: EncodeReverse<PRECISION>,
    C::FrontendError: ScriptWord + Drop,
    C::BackendError: ScriptWord + Drop,
    M: EncoderModel<PRECISION, Symbol = usize>,
    M::Probability: WordOf<C::Word>,
{
    let Ok(items) = items_of(alloc, model, symbols, numbers) else {
        return MEMORY;
    };
    if coder.symbols_left() < items.len() {
        return OTHER;
    }
    answer_of(coder.try_encode_symbols_reverse(items))
}

/// A way to encode symbols.
#[derive(Clone, Copy)]
enum Put {
    Each,
    List,
    Pairs,
    Items,
}

/// The verbs that encode symbols.
///
/// - `put` encodes symbols one by one.
/// - `list` encodes a list of symbols with one model.
/// - `pairs` encodes a list of pairs, each of a symbol and a model.
/// - `items` encodes a list of items, among which `bad7` is an error.
const PUTS: &[(&str, Put)] = &[
    ("put", Put::Each),
    ("list", Put::List),
    ("pairs", Put::Pairs),
    ("items", Put::Items),
];

/// Encodes symbols from first to last, with the call that `act` names.
///
/// Returns the answer of the call, or `None` if `PUTS` doesn't have the verb of `act`.
pub fn put_by<C, M, const PRECISION: usize>(
    alloc: Global,
    coder: &mut C,
    model: &M,
    act: &Act<'_>,
) -> Option<&'static str>
where
    C: Encode<PRECISION>,
    C::FrontendError: ScriptWord + Drop,
    C::BackendError: ScriptWord + Drop,
    M: EncoderModel<PRECISION, Symbol = usize>,
    M::Probability: WordOf<C::Word>,
{
    Some(match find(PUTS, act.verb)? {
        Put::Each => put_each(coder, model, act.symbols),
        Put::List => put_list(coder, model, act.symbols),
        Put::Pairs => put_pairs(alloc, coder, model, act.symbols),
        Put::Items => put_items(alloc, coder, model, (act.symbols, act.numbers)),
    })
}

/// The verbs that encode symbols from last to first.
const BACK: &[(&str, Put)] = &[
    ("back", Put::List),
    ("pairs-back", Put::Pairs),
    ("items-back", Put::Items),
];

/// Encodes symbols from last to first, with the call that `act` names.
///
/// Returns the answer of the call, or `None` if `BACK` doesn't have the verb of `act`.
pub fn put_back_by<C, M, const PRECISION: usize>(
    alloc: Global,
    coder: &mut C,
    model: &M,
    act: &Act<'_>,
) -> Option<&'static str>
where
    C: EncodeReverse<PRECISION>,
    C::FrontendError: ScriptWord + Drop,
    C::BackendError: ScriptWord + Drop,
    M: EncoderModel<PRECISION, Symbol = usize>,
    M::Probability: WordOf<C::Word>,
{
    Some(match find(BACK, act.verb)? {
        Put::Pairs => put_pairs_back(alloc, coder, model, act.symbols),
        Put::Items => put_items_back(alloc, coder, model, (act.symbols, act.numbers)),
        _ => put_list_back(coder, model, act.symbols),
    })
}
