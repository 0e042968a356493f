//! The errors of functions that encode or decode a list of symbols.

/// The reason why decoding a list of symbols failed. `E` is the error type of one decode.
#[derive(Drop)]
pub enum Stopped<E> {
    /// The decoder returned this error for a symbol.
    Refused(E),
    /// There is no memory for the decoded symbols.
    NoMemory,
}

/// The reason why a call failed to encode a list of symbols, or to decode a list of symbols from words.
///
/// Each function documents which of these errors it returns, and when.
#[derive(Debug, Clone, Copy, PartialEq, Eq)]
pub enum RoundTripError {
    /// A model has no entry for its symbol.
    ImpossibleSymbol,
    /// There are more symbols than `symbols_left` of the range encoder returns. No symbol is encoded.
    TooManySymbols,
    /// The call can't use the words, the position or the coder's state.
    ///
    /// For example, the words don't encode symbols of the given models, or the state has no binary form.
    InvalidData,
    /// After this number of decoded symbols, a coder needs a word, and its backend returns none.
    OutOfData(usize),
    /// There is no memory, or a read or a write of a backend failed.
    Refused,
}
