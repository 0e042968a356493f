//! Functions that read bits from an iterator of `Result`s of bits, for the decodes of codebooks.

ghost use Rattle.constriction_symbol.specs.Codewords.{YieldsBits, StopsWithin, UnlessBitsEnd};
ghost use Rattle.constriction_symbol.specs.Taking.{CountsZeros, YieldsNumber};
ghost use Rattle.std.specs.Iterator.{IsFinite};
ghost use Rattle.std.specs.Prelude.{IfErr, IfOk, [], false, length, replicate};
ghost use Rattle.std.specs.Prelude.{ℕ, ◌*◌, ◌+◌, ◌<◌, ◌^◌, ◌∷◌, ◌≡◌, ◌≤◌};

use crate::codebooks::SymbolCodeError;
use crate::numbers::doubled;
use constriction_base::errors::CoderError;
use constriction_words::BitArray;

/// The error of a decode: the codebook's own error, or the error of the source of the bits.
pub type Refusal<V, E> = CoderError<SymbolCodeError<V>, E>;

/// Reads the next bit of `source`.
///
/// # Errors
///
/// - `Frontend(OutOfCompressedData)` if no bit is left.
/// - `Backend(error)` if the source returns this error in place of a bit.
#[inline]
pub fn next_bit<V, E, I: Iterator<Item = Result<bool, E>>>(
    source: &mut I,
) -> Result<bool, Refusal<V, E>>
    requires { I.can_next source.old }
    ensures can { UnlessBitsEnd result (I.can_next source.new) }
    ensures finite { IsFinite (I.remaining source.old) → UnlessBitsEnd result (IsFinite (I.remaining source.new)) }
    ensures bit { IfOk result (λ bit. YieldsBits I.next_gives source.old (bit ∷ []) source.new) }
    ensures stops { IfErr result (λ e. StopsWithin I.next_gives (λ bits. bits ≡ []) source.old e source.new) }
{
    match source.next() {
        None => Err(CoderError::Frontend(SymbolCodeError::OutOfCompressedData)),
        Some(Err(error)) => Err(CoderError::Backend(error)),
        Some(Ok(bit)) => Ok(bit),
    }
}

/// Reads bits up to and including the first 1, and returns the number of zeros before the 1.
///
/// If the bits begin with more than `most` zeros, the call reads `most + 1` zeros and returns `None`. The caller
/// proves that `most` is below 1000.
///
/// # Errors
///
/// Returns the errors of [`next_bit`].
#[inline]
pub fn count_zeros<V, E, I: Iterator<Item = Result<bool, E>>>(
    source: &mut I,
    most: u32,
) -> Result<Option<u32>, Refusal<V, E>>
    requires can { I.can_next source.old }
    requires fits { most < 1000 }
    ensures can { UnlessBitsEnd result (I.can_next source.new) }
    ensures finite { IsFinite (I.remaining source.old) → UnlessBitsEnd result (IsFinite (I.remaining source.new)) }
    ensures zeros { IfOk result (λ found. CountsZeros I.next_gives most source.old found source.new) }
    ensures stops { IfErr result (λ e. StopsWithin I.next_gives
        (λ bits. (count : ℕ) × (count ≤ most) × (bits ≡ replicate count false)) source.old e source.new) }
{
    let mut count = 0u32;
    while count <= most {
        match next_bit(source) {
            Err(error) => return Err(error),
            Ok(true) => return Ok(Some(count)),
            Ok(false) => count += 1,
        }
    }
    Ok(None)
}

/// Reads `count` bits, highest first, and returns `start * 2^count` plus the number that has these bits.
///
/// The caller proves that the type `N` has room for the result: `(start + 1) * 2^count <= 2^N::BITS`.
///
/// # Errors
///
/// Returns the errors of [`next_bit`].
#[inline]
pub fn read_bits<V, N: BitArray, E, I: Iterator<Item = Result<bool, E>>>(
    source: &mut I,
    start: N,
    count: u32,
) -> Result<N, Refusal<V, E>>
    requires can { I.can_next source.old }
    requires fits { (N.number start + 1) * 2 ^ count ≤ 2 ^ N.BITS }
    ensures can { UnlessBitsEnd result (I.can_next source.new) }
    ensures finite { IsFinite (I.remaining source.old) → UnlessBitsEnd result (IsFinite (I.remaining source.new)) }
    ensures bits { IfOk result (λ n.
        YieldsNumber I.next_gives (N.number start) count source.old (N.number n) source.new) }
    ensures stops { IfErr result (λ e. StopsWithin I.next_gives (λ bits. length bits < count) source.old e source.new) }
{
    let mut number = start;
    let mut left = count;
    while left > 0 {
        match next_bit(source) {
            Err(error) => return Err(error),
            Ok(bit) => number = doubled(number, bit),
        }
        left -= 1;
    }
    Ok(number)
}
