//! Reads the whole input, and parses its lines and the numbers of a line.

ghost use Rattle.std.specs.Prelude.{◌≡◌, ◌⊎◌, ℕ, ◌-◌, ◌^◌, ◌≤◌, Some, None, IfOk, IfErr, IfSome, IsErrOf, map};
ghost use Rattle.constriction_commands.specs.Lines.{first_line, after_line, is_blank, with_digit, numbers_of};
ghost use Rattle.constriction_commands.specs.Lines.{number_lists_of};
ghost use Rattle.constriction_commands.specs.declared.fault.Fault.TheVariants.{BadNumber, OutOfMemory, Unreadable};

use crate::fault::Fault;
use std::alloc::Global;
use std::io::{ErrorKind, Read};

/// Reads all remaining bytes of the input.
///
/// # Errors
///
/// - `OutOfMemory` if there is no memory for the bytes.
/// - `Unreadable` if a read fails for another reason.
pub fn read_all<R: Read>(alloc: Global, input: &mut R) -> Result<Vec<u8>, Fault>
    ensures ok { IfOk result (λ text. IfSome (R.remaining input.old) (λ left. text.items ≡ left)) }
    ensures err { IfErr result (λ fault. (fault ≡ Unreadable) ⊎ (fault ≡ OutOfMemory)) }
{
    let mut text = Vec::new(alloc);
    match input.read_to_end(&mut text) {
        Ok(_) => Ok(text),
        Err(error) if error.kind() == ErrorKind::OutOfMemory => Err(Fault::OutOfMemory),
        Err(_) => Err(Fault::Unreadable),
    }
}

/// Returns the first line of `text` without its line feed, and the text after that line feed.
///
/// A text without a line feed is one line, and the text after the line is empty.
pub fn split_line(text: &[u8]) -> (&[u8], &[u8])
    ensures first { result.0.now ≡ first_line text.now }
    ensures rest { result.1.now ≡ after_line text.now }
{
    match text.iter().position(|byte| *byte == b'\n') {
        Some(end) => (&text[..end], &text[end + 1..]),
        None => (text, &[]),
    }
}

/// A type of numbers that [`parse_numbers`] can return.
pub trait Number: Copy {
    /// The greatest number of the type.
    const GREATEST: u64;

    ghost GREATEST: { ℕ };

    ghost number: { Self → ℕ };

    /// Converts `value` to this type. The caller proves that `value` is at most `GREATEST`.
    fn from_value(value: u64) -> Self
        requires { value ≤ GREATEST }
        ensures { number result ≡ value };
}

impl Number for u32 {
    const GREATEST: u64 = u32::MAX as u64;

    ghost GREATEST = { 2 ^ 32 - 1 };

    ghost number = { λ n. n };

    fn from_value(value: u64) -> u32 {
        value as u32
    }
}

impl Number for usize {
    const GREATEST: u64 = u64::MAX;

    ghost GREATEST = { 2 ^ 64 - 1 };

    ghost number = { λ n. n };

    fn from_value(value: u64) -> usize {
        value as usize
    }
}

/// Returns whether `byte` is a separator of numbers: a space, a tab or a carriage return.
fn is_blank(byte: u8) -> bool
    ensures { result ≡ is_blank byte }
{
    byte == b' ' || byte == b'\t' || byte == b'\r'
}

/// Returns `10 * so_far` plus the decimal digit `byte`.
///
/// Returns `None` if `byte` isn't a digit, or if the sum exceeds `greatest`.
fn with_digit(so_far: u64, byte: u8, greatest: u64) -> Option<u64>
    ensures { result ≡ with_digit greatest so_far byte }
{
    if !byte.is_ascii_digit() {
        return None;
    }
    let value = so_far.checked_mul(10)?.checked_add(u64::from(byte - b'0'))?;
    if value <= greatest { Some(value) } else { None }
}

/// Parses the numbers of a line. The numbers are decimal, and separated by spaces, tabs or carriage returns.
///
/// # Errors
///
/// - `BadNumber` if the line isn't a list of numbers that fit the type `N`.
/// - `OutOfMemory` if there is no memory for the numbers.
pub fn parse_numbers<N: Number>(alloc: Global, line: &[u8]) -> Result<Vec<N>, Fault>
    ensures ok { IfOk result (λ numbers. numbers_of N.GREATEST line.now ≡ Some (map N.number numbers.items)) }
    ensures bad { IsErrOf result BadNumber → numbers_of N.GREATEST line.now ≡ None }
    ensures err { IfErr result (λ fault. (fault ≡ BadNumber) ⊎ (fault ≡ OutOfMemory)) }
{
    let mut numbers = Vec::new(alloc);
    let mut begun = None;
    for byte in line {
        if is_blank(*byte) {
            if let Some(value) = begun {
                numbers.push(N::from_value(value))?;
            }
            begun = None;
        } else {
            match with_digit(begun.unwrap_or(0), *byte, N::GREATEST) {
                Some(value) => begun = Some(value),
                None => return Err(Fault::BadNumber),
            }
        }
    }
    if let Some(value) = begun {
        numbers.push(N::from_value(value))?;
    }
    Ok(numbers)
}

/// Parses each line of a text as a list of numbers, as [`parse_numbers`] does. Returns the lists in order.
///
/// # Errors
///
/// - `BadNumber` if a line isn't a list of numbers that fit the type `N`.
/// - `OutOfMemory` if there is no memory for the numbers.
pub fn parse_lines<N: Number>(alloc: Global, text: &[u8]) -> Result<Vec<Vec<N>>, Fault>
    ensures ok { IfOk result (λ lists. number_lists_of N.GREATEST text.now
        ≡ Some (map (λ list. map N.number list.items) lists.items)) }
    ensures bad { IsErrOf result BadNumber → number_lists_of N.GREATEST text.now ≡ None }
    ensures err { IfErr result (λ fault. (fault ≡ BadNumber) ⊎ (fault ≡ OutOfMemory)) }
{
    let mut lists = Vec::new(alloc);
    let mut rest = text;
    while !rest.is_empty() {
        let (line, after) = split_line(rest);
        lists.push(parse_numbers::<N>(alloc, line)?)?;
        rest = after;
    }
    Ok(lists)
}
