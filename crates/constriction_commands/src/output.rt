//! Formats lines of numbers, and writes the whole output.

ghost use Rattle.std.specs.Prelude.{◌≡◌, ◌%◌, ◌^◌, ◌++◌, ◌∷◌, [], map, IfOk, OnOk, IfErr};
ghost use Rattle.std.specs.List.{join_with_byte};
ghost use Rattle.std.specs.Io.KnownBytes.{Appends};
ghost use Rattle.constriction_commands.specs.Lines.{line_of};
ghost use Rattle.constriction_commands.specs.Written.{GrowsByBeginning};
ghost use Rattle.constriction_commands.specs.declared.fault.Fault.TheVariants.{Unwritable};

use crate::fault::Fault;
use itoa::{Buffer, Integer};
use std::alloc::{AllocError, Global};
use std::io::{ErrorKind, Write};

/// Appends a line of numbers to `out`: the numbers in decimal, separated by spaces, and a line feed.
///
/// # Errors
///
/// Returns `AllocError` if there is no memory. `out` may then have a part of the line.
pub fn push_numbers<I: Integer>(out: &mut Vec<u8>, numbers: &[I]) -> Result<(), AllocError>
    ensures { OnOk result (out.new.items ≡ out.old.items ++ join_with_byte 32 (map I.text numbers.now) ++ 10 ∷ []) }
{
    let mut buffer = Buffer::new();
    for (place, number) in numbers.iter().enumerate() {
        if place > 0 {
            out.push(b' ')?;
        }
        out.extend_from_slice(buffer.format(*number).as_bytes())?;
    }
    out.push(b'\n')?;
    Ok(())
}

/// Returns a line of numbers: the numbers in decimal, separated by spaces, and a line feed.
///
/// # Errors
///
/// Returns `AllocError` if there is no memory.
pub fn line_of_numbers<I: Integer>(alloc: Global, numbers: &[I]) -> Result<Vec<u8>, AllocError>
    ensures { IfOk result (λ line. line.items ≡ join_with_byte 32 (map I.text numbers.now) ++ 10 ∷ []) }
{
    let mut out = Vec::new(alloc);
    push_numbers(&mut out, numbers)?;
    Ok(out)
}

/// Returns a line of a coder's words in decimal, as [`line_of_numbers`] does.
pub fn line_of_words(alloc: Global, words: &[u32]) -> Result<Vec<u8>, AllocError>
    ensures { IfOk result (λ line. line.items ≡ line_of (map (λ word. word % 2 ^ 32) words.now)) }
{
    line_of_numbers(alloc, words)
}

/// Appends a line of a coder's words in decimal to `out`, as [`push_numbers`] does.
pub fn push_words(out: &mut Vec<u8>, words: &[u32]) -> Result<(), AllocError>
    ensures { OnOk result (out.new.items ≡ out.old.items ++ line_of (map (λ word. word % 2 ^ 32) words.now)) }
{
    push_numbers(out, words)
}

/// Writes all of `bytes` to `output`.
///
/// The call retries an interrupted write. It returns `Unwritable` if a write fails for another reason or writes no
/// bytes. The call may then have written a prefix of `bytes`.
fn write_bytes<O: Write>(output: &mut O, bytes: &[u8]) -> Result<(), Fault>
    ensures ok { OnOk result (Appends (O.contents output.old) (O.contents output.new) bytes.now) }
    ensures begun { GrowsByBeginning (O.contents output.old) (O.contents output.new) bytes.now }
    ensures err { IfErr result (λ fault. fault ≡ Unwritable) }
{
    let mut count = 0;
    for _ in 0..u64::MAX {
        if count >= bytes.len() {
            return Ok(());
        }
        match output.write(&bytes[count..]) {
            Ok(0) => return Err(Fault::Unwritable),
            Ok(more) => count += more,
            Err(error) if error.kind() == ErrorKind::Interrupted => {}
            Err(_) => return Err(Fault::Unwritable),
        }
    }
    Err(Fault::Unwritable)
}

/// Writes all of `bytes` to `output`, and flushes `output`.
///
/// # Errors
///
/// Returns `Unwritable` if a write fails or writes no bytes, or if the flush fails. The call may then have written a
/// prefix of `bytes`. The call retries an interrupted write.
pub fn write_out<O: Write>(output: &mut O, bytes: &[u8]) -> Result<(), Fault>
    ensures ok { OnOk result (Appends (O.contents output.old) (O.contents output.new) bytes.now) }
    ensures begun { GrowsByBeginning (O.contents output.old) (O.contents output.new) bytes.now }
    ensures err { IfErr result (λ fault. fault ≡ Unwritable) }
{
    write_bytes(output, bytes)?;
    if output.flush().is_err() {
        return Err(Fault::Unwritable);
    }
    Ok(())
}
