//! Helpers that write symbols to streams, and read symbols from streams, as Exp-Golomb codewords.

use constriction_base::backends::Semantics;
use constriction_base::errors::CoderError;
use constriction_symbol::codebooks::{BitOrder, SymbolCodeError};
use constriction_symbol::exp_golomb::{ExpGolomb, InvalidCodeword};
use constriction_symbol::reading::ReadBitStream;
use constriction_symbol::writing::WriteBitStream;
use constriction_words::BitArray;

/// The outcome of a call that writes symbols.
#[derive(Drop)]
pub enum Put {
    Done,
    Unknown,
    Refused,
}

/// Writes the Exp-Golomb codewords of `symbols` until one is refused. Returns the outcome.
pub fn puts<S: BitOrder, Stream: WriteBitStream<S>, N: BitArray>(
    stream: &mut Stream,
    symbols: &[N],
) -> Put
where
    Stream::WriteError: Drop,
{
    for symbol in symbols {
        match stream.encode_symbol(symbol, ExpGolomb::<N>::new()) {
            Ok(()) => {}
            Err(CoderError::Frontend(_)) => return Put::Unknown,
            Err(CoderError::Backend(_)) => return Put::Refused,
        }
    }
    Put::Done
}

/// The outcome of a call that reads symbols.
#[derive(Drop)]
pub enum Took {
    /// All symbols were read.
    All,
    /// A symbol other than the expected one was read.
    Other,
    OutOfData,
    Invalid,
    Refused,
}

/// Returns the outcome that the error of a read stands for.
pub fn refusal_of<E: Drop>(error: CoderError<SymbolCodeError<InvalidCodeword>, E>) -> Took {
    match error {
        CoderError::Frontend(SymbolCodeError::OutOfCompressedData) => Took::OutOfData,
        CoderError::Frontend(SymbolCodeError::InvalidCodeword(InvalidCodeword)) => Took::Invalid,
        CoderError::Backend(_) => Took::Refused,
    }
}

/// Reads Exp-Golomb codewords until a read fails or a symbol isn't the next of `symbols`. Returns the outcome.
pub fn takes<S: Semantics, Stream: ReadBitStream<S>, N: BitArray + PartialEq>(
    stream: &mut Stream,
    symbols: &[N],
) -> Took
where
    Stream::ReadError: Drop,
{
    for symbol in symbols {
        match stream.decode_symbol(ExpGolomb::<N>::new()) {
            Ok(found) => {
                if found != *symbol {
                    return Took::Other;
                }
            }
            Err(error) => return refusal_of(error),
        }
    }
    Took::All
}
