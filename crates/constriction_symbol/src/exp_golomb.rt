//! The Exp-Golomb codebook, which assigns a codeword to every number of an integer type.

ghost use Rattle.constriction_symbol.specs.Codewords.{Emits};
ghost use Rattle.constriction_symbol.specs.Golomb.{IsInvalid, WantsBit, golomb};
ghost use Rattle.constriction_symbol.specs.GolombLaws.{known_invalid, known_on, known_prefix_free, same_codeword};
ghost use Rattle.std.specs.Prelude.{Some, reverse, ◌-◌, ◌<◌, ◌≡◌};

use crate::codebooks::{Codebook, DecoderCodebook, EncoderCodebook, SymbolCodeError};
use crate::emitting::{emit_down, emit_lone, emit_up, emit_zeros};
use crate::numbers::same_number;
use crate::taking::{Refusal, count_zeros, read_bits};
use constriction_base::errors::{CoderError, DefaultEncoderError};
use constriction_words::BitArray;
use std::alloc::AllocError;
use std::marker::PhantomData;
use thiserror::Error;

/// The Exp-Golomb codebook. Every number of type `N` has a codeword.
///
/// The codeword of `n` ends with `n + 1` in binary, highest bit first, without leading zeros. If `n + 1` has `b` bits,
/// the codeword begins with `b - 1` zeros. For the greatest number of type `N`, the codeword is `N::BITS` zeros, a 1,
/// and `N::BITS` zeros.
///
/// # Examples
///
/// ```
/// let golomb = ExpGolomb::<u32>::new();
/// encoder.encode_symbol(&0, &golomb)?; // 1
/// encoder.encode_symbol(&1, &golomb)?; // 010
/// encoder.encode_symbol(&5, &golomb)?; // 00110
/// ```
#[derive(Debug, Clone, Drop)]
pub struct ExpGolomb<N: BitArray> {
    number: PhantomData<N>,
}

impl<N: BitArray> ExpGolomb<N> {
    /// Creates the codebook, which has no parameters and stores nothing.
    pub fn new() -> Self {
        ExpGolomb {
            number: PhantomData,
        }
    }
}

impl<N: BitArray> Default for ExpGolomb<N> {
    fn default() -> Self {
        Self::new()
    }
}

impl<N: BitArray> Codebook for ExpGolomb<N> {
    type Symbol = N;

    ghost codeword = { λ _ n. Some (golomb (N.number n)) };

    ghost is_same = { λ _ m n. N.number m ≡ N.number n };

    ghost same_law = { λ c m n same. same_codeword (N.number m) (N.number n) same };

    ghost prefix_law = { λ c m n bits tail first second.
        known_prefix_free (N.number m) (N.number n) bits tail first second };
}

/// Passes the codeword of the number `after - 1` to `emit`, first bit first.
///
/// The call stops at the first error of `emit`, and returns `Backend(error)`. The caller proves that `after` is above
/// 0.
#[inline]
fn emit_number<N: BitArray, E, F: FnMut(bool) -> Result<(), E>>(
    after: N,
    emit: &mut F,
) -> Result<(), DefaultEncoderError<E>>
    requires callable { F.IsAlwaysCallable emit.old }
    requires some { 0 < N.number after }
    ensures { Emits F.FnMut emit.old (golomb (N.number after - 1)) result emit.new }
{
    let length = after.bit_length();
    if 2 * length - 1 <= N::BITS {
        return emit_down(after, 2 * length - 1, emit);
    }
    match emit_zeros(length - 1, emit) {
        Ok(()) => {}
        Err(error) => return Err(error),
    }
    emit_down(after, length, emit)
}

/// Passes the codeword of the number `after - 1` to `emit`, last bit first.
///
/// The call stops at the first error of `emit`, and returns `Backend(error)`. The caller proves that `after` is above
/// 0.
#[inline]
fn emit_reversed_number<N: BitArray, E, F: FnMut(bool) -> Result<(), E>>(
    after: N,
    emit: &mut F,
) -> Result<(), DefaultEncoderError<E>>
    requires callable { F.IsAlwaysCallable emit.old }
    requires some { 0 < N.number after }
    ensures { Emits F.FnMut emit.old (reverse (golomb (N.number after - 1))) result emit.new }
{
    let length = after.bit_length();
    if 2 * length - 1 <= N::BITS {
        return emit_up(after, 2 * length - 1, emit);
    }
    match emit_up(after, length, emit) {
        Ok(()) => {}
        Err(error) => return Err(error),
    }
    emit_zeros(length - 1, emit)
}

impl<N: BitArray> EncoderCodebook for ExpGolomb<N> {
    ghost prefix_wants = { λ _ _. ⊥ };

    ghost suffix_wants = { λ _ _. ⊥ };

    /// Passes the bits of the codeword to `emit`, first bit first. The call needs no memory.
    #[inline]
    fn encode_symbol_prefix<E: From<AllocError>, F: FnMut(bool) -> Result<(), E>>(
        &self,
        symbol: &N,
        emit: &mut F,
    ) -> Result<(), DefaultEncoderError<E>> {
        if symbol.is_below(N::greatest()) {
            emit_number(symbol.plus(N::unit()), emit)
        } else {
            emit_lone(N::BITS, emit)
        }
    }

    /// Passes the bits of the codeword to `emit`, last bit first. The call needs no memory.
    #[inline]
    fn encode_symbol_suffix<E: From<AllocError>, F: FnMut(bool) -> Result<(), E>>(
        &self,
        symbol: &N,
        emit: &mut F,
    ) -> Result<(), DefaultEncoderError<E>> {
        if symbol.is_below(N::greatest()) {
            emit_reversed_number(symbol.plus(N::unit()), emit)
        } else {
            emit_lone(N::BITS, emit)
        }
    }

    /// Returns the whole codeword of the symbol in one word, and the codeword's length in bits.
    ///
    /// Returns `None` for the greatest number of type `N`, and for codewords of `Word::BITS` bits or more.
    #[inline]
    fn codeword_at_once<Word: BitArray>(&self, symbol: &N) -> Option<(Word, u32)> {
        if !symbol.is_below(N::greatest()) {
            return None;
        }
        let after = symbol.plus(N::unit());
        let count = 2 * after.bit_length() - 1;
        if count < Word::BITS {
            Some((same_number(after), count))
        } else {
            None
        }
    }
}

/// The error if no codeword of an [`ExpGolomb`] begins with the bits read, such as 9 zeros for `ExpGolomb<u8>`.
#[derive(Debug, Clone, PartialEq, Eq, Drop, Error)]
#[error("Invalid Exp-Golomb codeword.")]
pub struct InvalidCodeword;

impl<N: BitArray> DecoderCodebook for ExpGolomb<N> {
    type InvalidCodeword = InvalidCodeword;

    ghost reads_on = { λ _ bits. WantsBit N.BITS bits };

    ghost is_invalid = { λ _ bits _. IsInvalid N.BITS bits };

    ghost on_law = { λ c bits on n code tail. known_on N.BITS (N.number n) bits code tail on };

    ghost invalid_law = { λ c bits e invalid rest n code tail.
        known_invalid N.BITS (N.number n) bits rest code tail (N.number_law n) invalid };

    /// Reads the bits of a codeword, and returns the codeword's number.
    ///
    /// # Errors
    ///
    /// After an error other than `Frontend(OutOfCompressedData)`, the source continues after the last bit read.
    ///
    /// - `Frontend(InvalidCodeword(..))` if the first `N::BITS + 1` bits read are zeros. The call returns the same
    ///   error if it reads `N::BITS` zeros, a 1, and then `N::BITS` bits that aren't all 0.
    /// - `Frontend(OutOfCompressedData)` if the bits end before a codeword is complete.
    /// - `Backend(error)` if the source returns this error in place of a bit.
    #[inline]
    fn decode_symbol<E, I: Iterator<Item = Result<bool, E>>>(
        &self,
        source: &mut I,
    ) -> Result<N, Refusal<InvalidCodeword, E>> {
        let Some(count) = count_zeros(source, N::BITS)? else {
            return Err(CoderError::Frontend(SymbolCodeError::InvalidCodeword(InvalidCodeword)));
        };
        if count < N::BITS {
            return match read_bits(source, N::unit(), count) {
                Err(error) => Err(error),
                Ok(after) => Ok(after.minus(N::unit())),
            };
        }
        match read_bits(source, N::nothing(), count) {
            Err(error) => Err(error),
            Ok(tail) => {
                if tail.is_nothing() {
                    Ok(N::greatest())
                } else {
                    Err(CoderError::Frontend(SymbolCodeError::InvalidCodeword(InvalidCodeword)))
                }
            }
        }
    }

    /// Decodes the codeword that the `count` highest bits of `bits` begin with.
    ///
    /// Returns the number, and the length of its codeword in bits. Returns `None` for the greatest number of type `N`,
    /// for codewords of `count` bits or more, and for bits that begin with no codeword.
    #[inline]
    fn symbol_at_once<Word: BitArray>(&self, bits: Word, count: u32) -> Option<(N, u32)> {
        let zeros = Word::BITS - bits.bit_length();
        let length = 2 * zeros + 1;
        if length >= count || zeros >= N::BITS {
            return None;
        }
        let after: N = same_number(bits.shift_right(Word::BITS - length));
        Some((after.minus(N::unit()), length))
    }
}
