//! Emits codewords first bit first (the prefix form), for codebooks that find the last bit first.
//!
//! A codebook that climbs from a leaf to the root of a tree finds the last bit first. [`reverse_codeword`] emits the
//! codewords of such a codebook first bit first.
//!
//! [`reverse_codeword`] reverses the bits with a [`SmallBitStack`]. This stack holds two words of bits without
//! allocating: the first word is inline in the backend, and the second word is outside the backend. The stack's
//! constructor is in the trait [`NewSmallStack`], because a second `StackCoder::new` would be ambiguous.

ghost use Rattle.constriction_symbol.specs.Bits.{PutsBit};
ghost use Rattle.constriction_symbol.specs.Codewords.{Emits, EmitsCodeword, formed};
ghost use Rattle.constriction_symbol.specs.Reversed.{EmitsUnlessLong, StacksCodeword};
ghost use Rattle.std.specs.Prelude.{IfErr, MatchOption, OnErr, [], length, reverse, ◌*◌, ◌+◌, ◌++◌, ◌∷◌, ◌≡◌, ◌≤◌};

use crate::codebooks::Codebook;
use crate::coder::{NewSmallStack, SmallBitStack, StackCoder};
use crate::steps::put_last;
use constriction_base::backends::WriteWords;
use constriction_base::errors::{CoderError, DefaultEncoderError};
use constriction_words::BitArray;
use std::alloc::{AllocError, Global};

/// A codebook that emits codewords from the last bit to the first, without allocating memory.
///
/// An implementor proves that the emitted bits are the bits of the symbol's codeword in reverse order.
pub trait SuffixCodebook: Codebook {
    /// Passes the bits of the symbol's codeword to `emit`, from the last to the first (the suffix form).
    ///
    /// # Errors
    ///
    /// - `Frontend(ImpossibleSymbol)` if and only if the symbol has no codeword. The call emits nothing.
    /// - `Backend(error)` if `emit` returns this error. The call emits the bits up to and including the bit that `emit`
    ///   refused.
    fn emit_suffix<E, F: FnMut(bool) -> Result<(), E>>(
        &self,
        symbol: &Self::Symbol,
        emit: &mut F,
    ) -> Result<(), DefaultEncoderError<E>>
        requires { F.IsAlwaysCallable emit.old }
        ensures { EmitsCodeword F.FnMut (λ _. ⊥)
            emit.old (formed reverse (Self.codeword self.now symbol.now)) result emit.new };
}

/// Pushes `bit` onto `stack`.
///
/// # Errors
///
/// Returns the backend's error if the word outside the backend is full and the backend refuses this word.
#[inline]
fn put<Word: BitArray, B: WriteWords<Word>>(
    stack: &mut StackCoder<Word, B>,
    bit: bool,
) -> Result<(), B::WriteError>
    ensures bits { PutsBit stack.old.bits bit result stack.new.bits }
    ensures err { IfErr result (λ e. B.write_fails stack.old.backend e) }
    ensures full { OnErr result (length stack.old.bits ≡ length (B.words stack.old.backend) * Word.BITS + Word.BITS) }
{
    put_last(&mut stack.backend, &mut stack.last, bit)
}

/// Pushes `bit` onto a small stack, which holds `2 * usize::BITS` bits without allocating.
///
/// # Errors
///
/// Returns `AllocError` if the stack has at least `2 * usize::BITS` bits, and there is no memory for another word.
#[inline]
fn put_small(stack: &mut SmallBitStack, bit: bool) -> Result<(), AllocError>
    ensures bits { PutsBit stack.old.bits bit result stack.new.bits }
    ensures err { OnErr result (2 * 64 ≤ length stack.old.bits) }
{
    put(stack, bit)
}

/// Pops the last bit of a small stack and returns it, or returns `None` if the stack is empty.
#[inline]
fn take_small(stack: &mut SmallBitStack) -> Option<bool>
    ensures { MatchOption result (stack.old.bits ≡ []) (λ bit. stack.old.bits ≡ stack.new.bits ++ bit ∷ []) }
{
    match stack.read_bit() {
        Ok(bit) => bit,
        Err(never) => match never {},
    }
}

/// Pushes a codeword onto an empty stack, from the last bit to the first (the suffix form).
///
/// Returns `Frontend(ImpossibleSymbol)` if the symbol has no codeword. Returns `Backend(AllocError)` if there is no
/// memory for a codeword of more than `2 * usize::BITS` bits.
fn put_suffix<C: SuffixCodebook>(
    codebook: &C,
    symbol: &C::Symbol,
    stack: &mut SmallBitStack,
) -> Result<(), DefaultEncoderError<AllocError>>
    requires { stack.old.bits ≡ [] }
    ensures { StacksCodeword (2 * 64) (C.codeword codebook.now symbol.now) result stack.new.bits }
{
    let mut push = |bit: bool| -> Result<(), AllocError> { put_small(stack, bit) };
    codebook.emit_suffix(symbol, &mut push)
}

/// Pops the bits of a stack and passes them to `emit`, last bit first.
///
/// The call stops at the first error of `emit`, and returns `Backend(error)`.
fn emit_taken<E, F: FnMut(bool) -> Result<(), E>>(
    stack: &mut SmallBitStack,
    emit: &mut F,
) -> Result<(), DefaultEncoderError<E>>
    requires { F.IsAlwaysCallable emit.old }
    ensures { Emits F.FnMut emit.old (reverse stack.old.bits) result emit.new }
{
    while let Some(bit) = take_small(stack) {
        match emit(bit) {
            Ok(()) => {}
            Err(error) => return Err(CoderError::Backend(error)),
        }
    }
    Ok(())
}

/// Emits a symbol's codeword first bit first, given a codebook that emits codewords last bit first.
///
/// # Errors
///
/// - `Frontend(ImpossibleSymbol)` if and only if the symbol has no codeword. The call emits nothing.
/// - `Backend(error)` if `emit` returns this error. The call emits the codeword's bits up to and including the bit that
///   `emit` refused.
/// - `Backend(E::from(AllocError))` if there is no memory for a codeword of more than `2 * usize::BITS` bits. The call
///   emits nothing. Shorter codewords need no memory.
///
/// # Examples
///
/// ```
/// impl EncoderCodebook for Tree {
///     fn encode_symbol_prefix<E: From<AllocError>, F: FnMut(bool) -> Result<(), E>>(
///         &self,
///         symbol: &usize,
///         emit: &mut F,
///     ) -> Result<(), DefaultEncoderError<E>> {
///         reverse_codeword(self.alloc, self, symbol, emit) // Tree: SuffixCodebook
///     }
/// }
/// ```
pub fn reverse_codeword<C: SuffixCodebook, E: From<AllocError>, F: FnMut(bool) -> Result<(), E>>(
    alloc: Global,
    codebook: &C,
    symbol: &C::Symbol,
    emit: &mut F,
) -> Result<(), DefaultEncoderError<E>>
    requires { F.IsAlwaysCallable emit.old }
    ensures { EmitsUnlessLong F.FnMut (2 * 64) E.From.from_gives
        emit.old (C.codeword codebook.now symbol.now) result emit.new }
{
    let mut stack = SmallBitStack::new(alloc);
    match put_suffix(codebook, symbol, &mut stack) {
        Ok(()) => emit_taken(&mut stack, emit),
        Err(CoderError::Frontend(error)) => Err(CoderError::Frontend(error)),
        Err(CoderError::Backend(error)) => Err(CoderError::Backend(E::from(error))),
    }
}
