//! The error of decoding a list of symbols from a position in words.

/// The reason why a list of symbols wasn't decoded from a position in words.
#[derive(Debug, Clone, Copy, PartialEq, Eq)]
pub enum DecodeError {
    /// The words end before the position.
    NoSuchPlace,
    /// Starting at the position, the words don't encode one symbol for each model.
    InvalidData,
    /// There is no memory.
    NoMemory,
}
