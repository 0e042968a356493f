//! Calls of a pile, in functions without a contract.

use super::pile::{Empty, Pile};
use constriction_base::errors::{CoderError, DefaultEncoderFrontendError};
use constriction_base::weights::WeightTable;
use constriction_stream::decoding::Decode;
use constriction_stream::encoding::Encode;
use constriction_stream::errors::TryCodingError;
use std::alloc::AllocError;

/// A table with a precision of 8 bits.
pub type Table = WeightTable<u8, 8>;

/// The error of a refused encode.
pub type Refusal = CoderError<DefaultEncoderFrontendError, AllocError>;

/// The outcome of a call that encodes symbols onto a pile.
#[derive(Drop)]
pub enum Put {
    /// All symbols were encoded.
    Done,
    /// A symbol was impossible.
    Impossible,
    /// There is no memory.
    Refused,
    /// The list had this error in place of a symbol and its model.
    Bad(u8),
    /// The pile takes fewer symbols than the list has, so the call was not made.
    Full,
}

/// The outcome of a decode from a pile.
#[derive(Clone, Copy, PartialEq, Eq)]
pub enum Took {
    /// This symbol was decoded.
    Symbol(usize),
    /// The pile was empty.
    Empty,
    /// The pile refused the decode with another error.
    Refused,
    /// The iterator of models returned this error in place of a model.
    Bad(u8),
    /// There was no further model.
    End,
}

pub fn how_put(answer: Result<(), Refusal>) -> Put {
    match answer {
        Ok(()) => Put::Done,
        Err(CoderError::Frontend(_)) => Put::Impossible,
        Err(CoderError::Backend(_)) => Put::Refused,
    }
}

pub fn how_tried(answer: Result<(), TryCodingError<Refusal, u8>>) -> Put {
    match answer {
        Ok(()) => Put::Done,
        Err(TryCodingError::InvalidEntropyModel(bad)) => Put::Bad(bad),
        Err(TryCodingError::CodingError(refusal)) => how_put(Err(refusal)),
    }
}

pub fn what_came(answer: Option<Result<usize, CoderError<Empty, AllocError>>>) -> Took {
    match answer {
        Some(Ok(symbol)) => Took::Symbol(symbol),
        Some(Err(CoderError::Frontend(_))) => Took::Empty,
        Some(Err(CoderError::Backend(_))) => Took::Refused,
        None => Took::End,
    }
}

pub fn what_came_or_bad(
    answer: Option<Result<usize, TryCodingError<CoderError<Empty, AllocError>, u8>>>,
) -> Took {
    match answer {
        Some(Ok(symbol)) => Took::Symbol(symbol),
        Some(Err(TryCodingError::InvalidEntropyModel(bad))) => Took::Bad(bad),
        Some(Err(TryCodingError::CodingError(refusal))) => what_came(Some(Err(refusal))),
        None => Took::End,
    }
}

/// Encodes `symbols` with `encode_iid_symbols`. Returns the outcome.
pub fn put_list(pile: &mut Pile, symbols: &[usize], table: &Table) -> Put {
    if pile.symbols_left() < symbols.len() {
        return Put::Full;
    }
    how_put(pile.encode_iid_symbols(symbols, table))
}

/// Returns the result of the pile's `maybe_full`.
pub fn seems_full(pile: &Pile) -> bool {
    Encode::<8>::maybe_full(pile)
}

/// Returns the result of the pile's `maybe_exhausted`.
pub fn seems_exhausted(pile: &Pile) -> bool {
    Decode::<8>::maybe_exhausted(pile)
}
