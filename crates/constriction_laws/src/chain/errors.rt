//! The error of encoding symbols onto a chain coder that is created from remainders.

/// The reason why symbols weren't encoded onto a chain coder that is created from remainders.
#[derive(Debug, Clone, Copy, PartialEq, Eq)]
pub enum PutBackError {
    /// No coder exports these words as remainders.
    InvalidRemainders,
    /// The number of models and the number of symbols differ.
    UnequalCounts,
    /// A model has no entry for its symbol.
    ImpossibleSymbol,
    /// The coder needs a word of the remainders, and none is left.
    OutOfRemainders,
    /// There is no memory.
    NoMemory,
}
