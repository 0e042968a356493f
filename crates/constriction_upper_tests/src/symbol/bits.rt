//! Helpers that write bits to streams and read bits from streams. Texts of `0` and `1` stand for the bits.

use constriction_base::backends::Semantics;
use constriction_symbol::codebooks::BitOrder;
use constriction_symbol::reading::ReadBitStream;
use constriction_symbol::writing::WriteBitStream;

/// Writes `bits` from the first to the last until one is refused. Returns whether all bits were written.
pub fn writes<S: BitOrder, Stream: WriteBitStream<S>>(stream: &mut Stream, bits: &[u8]) -> bool
where
    Stream::WriteError: Drop,
{
    for bit in bits {
        if stream.write_bit(*bit == b'1').is_err() {
            return false;
        }
    }
    true
}

/// Returns whether the next reads return `bits`. A `.` in `bits` stands for a read that finds no bit left.
pub fn gives<S: Semantics, Stream: ReadBitStream<S>>(stream: &mut Stream, bits: &[u8]) -> bool
where
    Stream::ReadError: Drop,
{
    for bit in bits {
        let is_it = match stream.read_bit() {
            Ok(Some(true)) => *bit == b'1',
            Ok(Some(false)) => *bit == b'0',
            Ok(None) => *bit == b'.',
            Err(_) => false,
        };
        if !is_it {
            return false;
        }
    }
    true
}
