//! The error of calls that take models or symbols as `Result`s.

ghost use Rattle.std.specs.Prelude.{◌≡◌};
ghost use Rattle.constriction_stream.specs.declared.errors.TryCodingError.TheVariants as try_coding;

use std::fmt::Display;
use thiserror::Error;

/// The error of a call that takes items as `Result`s: either an item is an error, or the coder returns an error.
///
/// The `?` operator turns a coder's error into a `CodingError`.
///
/// # Examples
///
/// ```
/// match coder.try_encode_symbols(items) {
///     Ok(()) => {}
///     Err(TryCodingError::InvalidEntropyModel(error)) => {} // an item of `items` was `Err(error)`
///     Err(TryCodingError::CodingError(error)) => {} // the coder refused a symbol
/// }
/// ```
#[derive(Debug, PartialEq, Eq, Hash, Drop, Error)]
#[error_bound(C: Display, E: Display)]
pub enum TryCodingError<C, E> {
    /// An item is an error instead of a model, or instead of a symbol with its model.
    #[error("Error while constructing entropy model or data: {0}")]
    InvalidEntropyModel(E),
    /// The coder or its backend refuses to encode or decode a symbol.
    #[error("Error while entropy coding: {0}")]
    CodingError(C),
}

impl<C, E> From<C> for TryCodingError<C, E> {
    ghost from_gives = { λ refusal error. error ≡ try_coding.CodingError refusal };

    fn from(refusal: C) -> TryCodingError<C, E> {
        TryCodingError::CodingError(refusal)
    }
}
