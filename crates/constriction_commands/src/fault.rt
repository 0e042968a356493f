//! The faults that stop a run.
//!
//! [`Fault`] has no `Display`. [`Fault::line`] returns the text of a fault as bytes, so that a contract can state the
//! bytes. Some faults hold an error of a coder. A test compares the lines of these faults with the texts of the errors.

ghost use Rattle.std.specs.Prelude.{◌≡◌};
ghost use Rattle.constriction_commands.specs.Written.{fault_line};
ghost use Rattle.constriction_commands.specs.declared.fault.Fault.TheVariants.{OutOfMemory};

use constriction_base::errors::DefaultEncoderFrontendError;
use constriction_chain as chain;
use constriction_queue::DecoderFrontendError;
use constriction_stack::coder::words::CompressedDataEndsWithZeroWord;
use std::alloc::{AllocError, AllocFailed};

/// A fault that stops a run of the program.
///
/// # Examples
///
/// ```
/// Fault::BadNumber.line(); // b"bad number\n"
/// ```
#[derive(Debug, Drop, Clone, PartialEq, Eq)]
pub enum Fault {
    /// A read of the input fails.
    Unreadable,
    /// A write of the output fails.
    Unwritable,
    /// A byte is neither a digit nor a blank, a number is too large for its type, or a symbol count is above `2^24`.
    BadNumber,
    /// The second line of a decoding command's input is blank.
    NoCount,
    /// The first line of the input has no weights.
    NoWeights,
    /// The weights don't add up to `2^24`.
    WrongTotal,
    /// There are more than `2^62 - 1` weights for a Huffman tree, or more than `2^20` symbols for a store.
    TooManySymbols,
    /// The sum of the weights of a Huffman tree has more than 64 bits.
    WeightOverflow,
    /// A symbol to encode is impossible.
    Encoder(DefaultEncoderFrontendError),
    /// The last of the words for an ANS decoder is 0.
    ZeroWord(CompressedDataEndsWithZeroWord),
    /// The words make no chain coder: there is no word, the only word is below `2^8`, or the last word is 0.
    NoChain,
    /// The words end before a chain coder has decoded all symbols.
    OutOfData(chain::DecoderFrontendError),
    /// The words for a range decoder lead to a quantile of at least `2^24`, which no symbol has.
    InvalidData(DecoderFrontendError),
    /// The index of a chunk to look up is past the last chunk.
    NoSuchChunk,
    /// There is no memory.
    OutOfMemory,
}

impl Fault {
    /// Returns the line that the program writes to standard error for this fault. The line ends with a line feed.
    pub fn line(&self) -> &'static [u8]
        ensures { result.now ≡ fault_line self.now }
    {
        match self {
            Fault::Unreadable => b"cannot read input\n",
            Fault::Unwritable => b"cannot write output\n",
            Fault::BadNumber => b"bad number\n",
            Fault::NoCount => b"no count\n",
            Fault::NoWeights => b"no weights\n",
            Fault::WrongTotal => b"weights do not sum to 16777216\n",
            Fault::TooManySymbols => b"too many symbols\n",
            Fault::WeightOverflow => b"sum of weights too large\n",
            Fault::Encoder(_) => b"Impossible symbol.\n",
            Fault::ZeroWord(_) =>
                b"Tried to decode from compressed data that ends with a zero word, \
                  which is invalid for an ANS coder.\n",
            Fault::InvalidData(_) =>
                b"Tried to decode from compressed data that is invalid for the employed entropy model.\n",
            Fault::NoChain => b"not enough words, or a zero word at the end\n",
            Fault::OutOfData(_) => b"Out of compressed data.\n",
            Fault::NoSuchChunk => b"no such chunk\n",
            Fault::OutOfMemory => b"out of memory\n",
        }
    }
}

impl From<AllocError> for Fault {
    ghost from_gives = { λ _ fault. fault ≡ OutOfMemory };

    fn from(_error: AllocError) -> Fault {
        Fault::OutOfMemory
    }
}

impl<T: Drop> From<AllocFailed<T>> for Fault {
    ghost from_gives = { λ _ fault. fault ≡ OutOfMemory };

    fn from(_error: AllocFailed<T>) -> Fault {
        Fault::OutOfMemory
    }
}
