//! Errors of coders and of backends.

ghost use Rattle.std.specs.Prelude.{◌≡◌};
ghost use Rattle.constriction_base.specs.declared.errors.BoundedWriteError.TheVariants as bounded;
ghost use Rattle.constriction_base.specs.declared.errors.CoderError.TheVariants as coder;

use std::alloc::AllocError;
use std::fmt::Display;
use thiserror::Error;

/// The error of a call to a coder: either the coder's frontend or its backend refuses the call.
///
/// The frontend is the part of the coder that encodes or decodes symbols. The backend reads and writes words. The `?`
/// operator turns a backend's error into `CoderError::Backend`. The operator doesn't convert a frontend's error: the
/// caller has to wrap that error as `CoderError::Frontend(error)`.
///
/// # Examples
///
/// ```
/// let refusal: DefaultEncoderError<AllocError> =
///     CoderError::Frontend(DefaultEncoderFrontendError::ImpossibleSymbol);
/// refusal // displays as `Impossible symbol.`
/// ```
#[derive(Debug, Clone, PartialEq, Eq, Hash, Drop, Error)]
#[error_bound(F: Display, B: Display)]
pub enum CoderError<F, B> {
    /// The frontend refuses the call, for example because the symbol is impossible or the data is invalid.
    #[error("{0}")]
    Frontend(F),
    /// The backend refuses a read, a write or a request for room.
    #[error("{0}")]
    Backend(B),
}

impl<F, B> From<B> for CoderError<F, B> {
    ghost from_gives = { λ backend error. error ≡ coder.Backend backend };

    fn from(backend: B) -> CoderError<F, B> {
        CoderError::Backend(backend)
    }
}

/// The error of an encoder's frontend: the symbol is impossible, because the model has no interval for it.
///
/// The frontend is the part of the coder that encodes symbols.
///
/// # Examples
///
/// ```
/// DefaultEncoderFrontendError::ImpossibleSymbol // displays as `Impossible symbol.`
/// ```
#[derive(Debug, Clone, Copy, PartialEq, Eq, Hash, Error)]
pub enum DefaultEncoderFrontendError {
    /// The model has no interval for the symbol, so the symbol can't be encoded.
    #[error("Impossible symbol.")]
    ImpossibleSymbol,
}

/// The error of an encoder whose backend returns write errors of type `E`.
pub type DefaultEncoderError<E> = CoderError<DefaultEncoderFrontendError, E>;

/// The error of a call that reads words and writes words: either a read or a write is refused.
///
/// # Examples
///
/// ```
/// let refusal: ReadWriteError<Infallible, BoundedWriteError> =
///     ReadWriteError::Write(BoundedWriteError::OutOfSpace);
/// refusal // displays as `out of space`
/// ```
#[derive(Debug, Clone, PartialEq, Eq, Hash, Drop, Error)]
#[error_bound(R: Display, W: Display)]
pub enum ReadWriteError<R, W> {
    /// The backend refuses a read.
    #[error("{0}")]
    Read(R),
    /// The backend refuses a write or a request for room.
    #[error("{0}")]
    Write(W),
}

/// The error of a write to a backend that can't grow, such as a cursor.
///
/// # Examples
///
/// ```
/// let mut words = [0u32; 0];
/// let mut cursor = Cursor::new_at_write_beginning(words.as_mut_slice());
/// cursor.write(7) // Err(BoundedWriteError::OutOfSpace)
/// ```
#[derive(Debug, Clone, Copy, PartialEq, Eq, Hash, Error)]
pub enum BoundedWriteError {
    /// The cursor is at the end of its buffer, so there is no word that the write could replace.
    #[error("out of space")]
    OutOfSpace,
    /// An allocation failed.
    ///
    /// A `Cursor` never returns this error. A coder over a cursor returns this error if the coder itself fails to
    /// allocate memory.
    #[error("out of memory")]
    Memory,
}

impl From<AllocError> for BoundedWriteError {
    ghost from_gives = { λ _ error. error ≡ bounded.Memory };

    fn from(_error: AllocError) -> BoundedWriteError {
        BoundedWriteError::Memory
    }
}
