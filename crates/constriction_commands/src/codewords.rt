//! Finds the bits of codewords, and writes bits as the digits 0 and 1.

ghost use Rattle.std.specs.Prelude.{◌≡◌, ◌++◌, None, Some, IfOk, IsSome, MatchOption, OnErr, OnOk};
ghost use Rattle.constriction_symbol.specs.Bits.{PutsBit};
ghost use Rattle.constriction_commands.specs.Codewords.{digits};

use constriction_base::backends::Queue;
use constriction_base::errors::CoderError;
use constriction_symbol::codebooks::EncoderCodebook;
use constriction_symbol::writing::WriteBitStream;
use std::alloc::{AllocError, Global};

/// A stream of bits that collects the bits of a codeword in a vector.
#[derive(Drop)]
struct Bits {
    list: Vec<bool>,
}

impl WriteBitStream<Queue> for Bits {
    type WriteError = AllocError;

    ghost bits = { λ b. b.list.items };

    ghost puts = { λ old bit result new. PutsBit old.list.items bit result new.list.items };

    fn write_bit(&mut self, bit: bool) -> Result<(), AllocError> {
        self.list.push(bit)?;
        Ok(())
    }
}

/// Returns the bits of the codeword of `symbol`, or `None` if `codebook` has no codeword for `symbol`.
///
/// # Errors
///
/// Returns `AllocError` if `symbol` has a codeword, and there is no memory for it.
pub fn codeword<C: EncoderCodebook>(
    alloc: Global,
    symbol: &C::Symbol,
    codebook: C,
) -> Result<Option<Vec<bool>>, AllocError>
    ensures found { IfOk result (λ found. MatchOption found (C.codeword codebook symbol.now ≡ None)
        (λ bits. C.codeword codebook symbol.now ≡ Some bits.items)) }
    ensures known { OnErr result (IsSome (C.codeword codebook symbol.now)) }
{
    let mut bits = Bits {
        list: Vec::new(alloc),
    };
    match bits.encode_symbol(symbol, codebook) {
        Ok(()) => Ok(Some(bits.list)),
        Err(CoderError::Frontend(_)) => Ok(None),
        Err(CoderError::Backend(error)) => Err(error),
    }
}

/// Appends each bit of `bits` to `line`, as the digit 0 or 1.
///
/// # Errors
///
/// Returns `AllocError` if there is no memory. `line` may then have some of the digits.
pub fn push_digits(line: &mut Vec<u8>, bits: &[bool]) -> Result<(), AllocError>
    ensures { OnOk result (line.new.items ≡ line.old.items ++ digits bits.now) }
{
    for bit in bits {
        line.push(if *bit { b'1' } else { b'0' })?;
    }
    Ok(())
}
