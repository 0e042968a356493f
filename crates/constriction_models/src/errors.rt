//! The error for a model with too few symbols, or too many for its precision.

use thiserror::Error;

/// The error for a model with too few symbols, or too many for its precision.
///
/// # Examples
///
/// ```
/// UniformModel::<u8, 8>::new(1) // Err(SupportError::TooFew)
/// UniformModel::<u8, 8>::new(257) // Err(SupportError::TooMany)
/// ```
#[derive(Debug, Clone, Copy, PartialEq, Eq, Hash, Error)]
pub enum SupportError {
    /// There are fewer than two symbols.
    #[error("fewer than two symbols")]
    TooFew,
    /// There are more than `2 ^ PRECISION` symbols.
    #[error("more symbols than two to the precision")]
    TooMany,
}
