//! Functions that pass zeros, or the bits of a word, to the function `emit`, one by one.
//!
//! If `emit` returns an error, each function stops and returns `Backend(error)`.

ghost use Rattle.std.specs.Prelude.{◌≤◌, ◌∷◌, ◌++◌, true, false, [], replicate, reverse};
ghost use Rattle.constriction_symbol.specs.Bits.{bits_of};
ghost use Rattle.constriction_symbol.specs.Codewords.{Emits};

use constriction_base::errors::{CoderError, DefaultEncoderError};
use constriction_words::BitArray;

/// Passes `count` zeros to `emit`. Stops at the first error of `emit`, and returns `Backend(error)`.
pub fn emit_zeros<E, F: FnMut(bool) -> Result<(), E>>(
    count: u32,
    emit: &mut F,
) -> Result<(), DefaultEncoderError<E>>
    requires { F.IsAlwaysCallable emit.old }
    ensures still { F.IsAlwaysCallable emit.new }
    ensures emits { Emits F.FnMut emit.old (replicate count false) result emit.new }
{
    for _index in 0..count {
        match emit(false) {
            Ok(()) => {}
            Err(error) => return Err(CoderError::Backend(error)),
        }
    }
    Ok(())
}

/// Passes the lowest `count` bits of `word` to `emit`, highest first.
///
/// The call stops at the first error of `emit`, and returns `Backend(error)`. The caller proves that `count` is at
/// most `Word::BITS`.
pub fn emit_down<Word: BitArray, E, F: FnMut(bool) -> Result<(), E>>(
    word: Word,
    count: u32,
    emit: &mut F,
) -> Result<(), DefaultEncoderError<E>>
    requires callable { F.IsAlwaysCallable emit.old }
    requires within { count ≤ Word.BITS }
    ensures still { F.IsAlwaysCallable emit.new }
    ensures emits { Emits F.FnMut emit.old (reverse (bits_of count (Word.number word))) result emit.new }
{
    let mut left = count;
    while left > 0 {
        left -= 1;
        match emit(!word.shift_right(left).low_bits(1).is_nothing()) {
            Ok(()) => {}
            Err(error) => return Err(CoderError::Backend(error)),
        }
    }
    Ok(())
}

/// Passes the lowest `count` bits of `word` to `emit`, lowest first.
///
/// If `count` exceeds `Word::BITS`, the further bits are zeros. The call stops at the first error of `emit`, and
/// returns `Backend(error)`.
pub fn emit_up<Word: BitArray, E, F: FnMut(bool) -> Result<(), E>>(
    word: Word,
    count: u32,
    emit: &mut F,
) -> Result<(), DefaultEncoderError<E>>
    requires { F.IsAlwaysCallable emit.old }
    ensures still { F.IsAlwaysCallable emit.new }
    ensures emits { Emits F.FnMut emit.old (bits_of count (Word.number word)) result emit.new }
{
    let mut rest = word;
    for _index in 0..count {
        match emit(!rest.low_bits(1).is_nothing()) {
            Ok(()) => {}
            Err(error) => return Err(CoderError::Backend(error)),
        }
        rest = rest.shift_right(1);
    }
    Ok(())
}

/// Passes `count` zeros, a 1, and another `count` zeros to `emit`.
///
/// The call stops at the first error of `emit`, and returns `Backend(error)`.
pub fn emit_lone<E, F: FnMut(bool) -> Result<(), E>>(
    count: u32,
    emit: &mut F,
) -> Result<(), DefaultEncoderError<E>>
    requires { F.IsAlwaysCallable emit.old }
    ensures still { F.IsAlwaysCallable emit.new }
    ensures emits { Emits F.FnMut emit.old (replicate count false ++ true ∷ replicate count false) result emit.new }
{
    match emit_zeros(count, emit) {
        Ok(()) => {}
        Err(error) => return Err(error),
    }
    match emit_bit(true, emit) {
        Ok(()) => {}
        Err(error) => return Err(error),
    }
    emit_zeros(count, emit)
}

/// Passes `bit` to `emit`. If `emit` returns an error, the call returns `Backend(error)`.
pub fn emit_bit<E, F: FnMut(bool) -> Result<(), E>>(
    bit: bool,
    emit: &mut F,
) -> Result<(), DefaultEncoderError<E>>
    requires { F.IsAlwaysCallable emit.old }
    ensures still { F.IsAlwaysCallable emit.new }
    ensures emits { Emits F.FnMut emit.old (bit ∷ []) result emit.new }
{
    match emit(bit) {
        Ok(()) => Ok(()),
        Err(error) => Err(CoderError::Backend(error)),
    }
}
