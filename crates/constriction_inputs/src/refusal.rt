//! [`Refusal`]: the error of a call that refuses its arguments.

use thiserror::Error;

/// The error of a call that refuses its arguments. The call leaves the caller's coder and buffers unchanged.
///
/// # Examples
///
/// ```
/// Refusal::NoSpace(9) // displays as `no space: 9 words are needed`
/// ```
#[derive(Debug, Clone, Copy, PartialEq, Eq, Error)]
pub enum Refusal {
    /// A model has no entry for its symbol.
    #[error("impossible symbol")]
    ImpossibleSymbol,
    /// The caller's weights, counts or parameters don't describe a model or a Huffman tree. The cases are:
    ///
    /// - The weights of a table don't add up to `2 ^ PRECISION`.
    /// - No family has the caller's family number, or a scale is 0.
    /// - The weights of a mixture add up to 0 or to more than `2^32`, or mixtures have no components.
    /// - No count is above 0, or more than `2 ^ PRECISION` counts are above 0.
    /// - A row of [`Counts`](crate::models::Counts) has `2 ^ PRECISION` counts or more, or its counts add up to 0 or to
    ///   `2^40` or more.
    /// - A Huffman tree has no weights, or the sum of its weights doesn't fit their type.
    /// - A Huffman tree has more than `2^62 - 1` weights for encoding, or more than `2^63 - 1` weights for decoding.
    #[error("wrong weights")]
    WrongWeights,
    /// An interval or a family's range of integers is wrong. The cases are:
    ///
    /// - An interval is empty or ends past `2 ^ PRECISION`.
    /// - A family's range of integers has fewer than two symbols, or more than `2 ^ PRECISION` symbols.
    #[error("wrong interval")]
    WrongInterval,
    /// A length or a position doesn't match the caller's other arguments. The cases are:
    ///
    /// - A number of words in use, or a position in words or bits, is past the end of its buffer.
    /// - The lengths of two lists don't match.
    /// - The index of a table of [`Indexed`](crate::models::Indexed) is past the tables.
    /// - There are more weights than the type of the decoded symbols has values.
    /// - The words of a bit coder have `2^64` bits or more, or a store would have more than 1048576 symbols.
    #[error("wrong length")]
    WrongLength,
    /// The buffer is too short. The number in the variant is the number of words that the buffer has to hold.
    #[error("no space: {0} words are needed")]
    NoSpace(usize),
    /// There is no memory, or the number of words that a buffer has to hold doesn't fit a `usize`.
    #[error("out of memory")]
    NoMemory,
    /// The words or the numbers that the caller passed aren't a state of the coder.
    ///
    /// A call also returns this error in three other cases:
    ///
    /// - The words don't encode the requested number of symbols under the caller's models. For example, the next bits
    ///   can't begin a codeword, or the number of the next codeword doesn't fit the type of the symbols.
    /// - The state has no export in the form that the caller asks for, such as the binary form.
    /// - A range encoder's number of pending words plus the number of symbols to encode is above `2^64 - 18`.
    #[error("invalid data")]
    InvalidData,
    /// The words that the call reads end before it has decoded or encoded all symbols.
    #[error("out of data")]
    OutOfData,
}
