//! Answers: the texts that stand for the results of calls in a script. The empty text stands for success.

use constriction_base::errors::{BoundedWriteError, CoderError, DefaultEncoderFrontendError};
use constriction_chain::{BackendError, EncoderFrontendError};
use constriction_stream::errors::TryCodingError;
use std::alloc::AllocError;
use std::convert::Infallible;

/// The answer of a call that succeeds with the expected result.
pub const DONE: &str = "";

/// The answer of a call that succeeds with an unexpected result, or that the test can't make.
pub const OTHER: &str = "other";

/// The answer if there is no memory for the test's own lists.
pub const MEMORY: &str = "Memory";

/// An error that a script can expect as the answer of a call.
pub trait ScriptWord {
    /// Returns the text for `error` in scripts, or a text for the error type if `error` is `None`.
    fn word(error: Option<&Self>) -> &'static str;

    /// Returns the text for this error in scripts.
    final fn told(&self) -> &'static str {
        Self::word(Some(self))
    }
}

impl ScriptWord for AllocError {
    fn word(_error: Option<&AllocError>) -> &'static str {
        "no-memory"
    }
}

impl ScriptWord for Infallible {
    fn word(_error: Option<&Infallible>) -> &'static str {
        OTHER
    }
}

/// Errors of the iterators that tests pass to a coder. The error 7 has the word `bad7`, and all others have `bad`.
impl ScriptWord for u8 {
    fn word(error: Option<&u8>) -> &'static str {
        match error {
            Some(7) => "bad7",
            _ => "bad",
        }
    }
}

impl ScriptWord for BoundedWriteError {
    fn word(error: Option<&BoundedWriteError>) -> &'static str {
        match error {
            Some(BoundedWriteError::OutOfSpace) => "full",
            Some(BoundedWriteError::Memory) => "no-memory",
            None => OTHER,
        }
    }
}

impl ScriptWord for DefaultEncoderFrontendError {
    fn word(_error: Option<&DefaultEncoderFrontendError>) -> &'static str {
        "unknown"
    }
}

impl ScriptWord for constriction_queue::DecoderFrontendError {
    fn word(_error: Option<&constriction_queue::DecoderFrontendError>) -> &'static str {
        "invalid"
    }
}

impl ScriptWord for constriction_chain::DecoderFrontendError {
    fn word(_error: Option<&constriction_chain::DecoderFrontendError>) -> &'static str {
        "ended"
    }
}

impl ScriptWord for EncoderFrontendError {
    fn word(error: Option<&EncoderFrontendError>) -> &'static str {
        match error {
            Some(EncoderFrontendError::OutOfRemainders) => "ended",
            Some(EncoderFrontendError::ImpossibleSymbol) => "unknown",
            None => OTHER,
        }
    }
}

impl<C: ScriptWord, R: ScriptWord> ScriptWord for BackendError<C, R> {
    fn word(error: Option<&BackendError<C, R>>) -> &'static str {
        match error {
            Some(BackendError::Compressed(error)) => error.told(),
            Some(BackendError::Remainders(error)) => error.told(),
            None => OTHER,
        }
    }
}

impl<F: ScriptWord, B: ScriptWord> ScriptWord for CoderError<F, B> {
    fn word(error: Option<&CoderError<F, B>>) -> &'static str {
        match error {
            Some(CoderError::Frontend(error)) => error.told(),
            Some(CoderError::Backend(error)) => error.told(),
            None => OTHER,
        }
    }
}

impl<C: ScriptWord, E: ScriptWord> ScriptWord for TryCodingError<C, E> {
    fn word(error: Option<&TryCodingError<C, E>>) -> &'static str {
        match error {
            Some(TryCodingError::CodingError(error)) => error.told(),
            Some(TryCodingError::InvalidEntropyModel(error)) => error.told(),
            None => OTHER,
        }
    }
}

/// Returns the answer of a call that returns no value: [`DONE`], or the text for the error in scripts.
pub fn answer_of<E: ScriptWord + Drop>(answer: Result<(), E>) -> &'static str {
    match answer {
        Ok(()) => DONE,
        Err(error) => error.told(),
    }
}

/// Returns [`DONE`] if `is_expected` is true, and [`OTHER`] otherwise.
pub fn answer_if(is_expected: bool) -> &'static str {
    if is_expected { DONE } else { OTHER }
}
