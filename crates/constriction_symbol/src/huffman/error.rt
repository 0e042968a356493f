//! The reason why building a Huffman tree fails.

ghost use Rattle.constriction_symbol.specs.declared.huffman.error.HuffmanError.TheVariants as errors;
ghost use Rattle.std.specs.Prelude.{◌≡◌};

use std::alloc::AllocError;
use std::fmt::Display;
use thiserror::Error;

/// The reason why building a Huffman tree fails.
///
/// The constructors check for `Iterator` and `Memory` while they collect the weights. Then they check for `Empty`,
/// `TooManySymbols` and `WeightOverflow`, in this order. The last check is for `Memory` while they build the tree.
///
/// # Examples
///
/// ```
/// let none: [u32; 0] = [];
/// EncoderHuffmanTree::from_probabilities(alloc, none.iter()); // Err(HuffmanError::Empty)
/// ```
#[derive(Debug, Drop, Error)]
#[error_bound(E: Display)]
pub enum HuffmanError<E> {
    /// There is no weight.
    #[error("no weights")]
    Empty,
    /// There are more than `usize::MAX / 4` weights (for encoding), or more than `usize::MAX / 2` (for decoding).
    #[error("too many symbols")]
    TooManySymbols,
    /// The sum of the weights doesn't fit their type.
    #[error("sum of weights too large")]
    WeightOverflow,
    /// The iterator returned this error in place of a weight.
    #[error("{0}")]
    Iterator(E),
    /// There is no memory for the weights or the tree.
    #[error("out of memory")]
    Memory,
}

impl<E> From<AllocError> for HuffmanError<E> {
    ghost from_gives = { λ _ error. error ≡ errors.Memory };

    fn from(_error: AllocError) -> HuffmanError<E> {
        HuffmanError::Memory
    }
}
