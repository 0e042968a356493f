//! The command `golomb`, which encodes numbers with Exp-Golomb codewords.
//!
//! The command outputs the codewords as binary digits, and the words of a queue of bits that holds the codewords.

ghost use Rattle.std.specs.Prelude.{◌≡◌, ◌%◌, ◌^◌, ◌++◌, map, flat_map, IfOk, IfErr, OnOk};
ghost use Rattle.constriction_symbol.specs.Bits.{IsQueueWords};
ghost use Rattle.constriction_symbol.specs.Golomb.{golomb};
ghost use Rattle.constriction_commands.specs.Codewords.{digits};
ghost use Rattle.constriction_commands.specs.commands.Golomb.{GolombFails, IsGolomb, golomb_line};

use crate::codewords::{codeword, push_digits};
use crate::fault::Fault;
use crate::input::{parse_numbers, split_line};
use crate::output::push_words;
use constriction_symbol::coder::DefaultQueueEncoder;
use constriction_symbol::exp_golomb::ExpGolomb;
use constriction_symbol::writing::WriteBitStream;
use std::alloc::{AllocError, Global};

/// Appends the Exp-Golomb codeword of `number` to `line`, as binary digits.
fn push_codeword(alloc: Global, line: &mut Vec<u8>, number: u32) -> Result<(), AllocError>
    ensures { OnOk result (line.new.items ≡ line.old.items ++ digits (golomb number)) }
{
    match codeword(alloc, &number, ExpGolomb::<u32>::new())? {
        Some(bits) => push_digits(line, bits.as_slice()),
        None => unreachable!(),
    }
}

/// Returns a line of the codewords of `numbers` as binary digits, separated by spaces.
fn line_of_codewords(alloc: Global, numbers: &[u32]) -> Result<Vec<u8>, AllocError>
    ensures { IfOk result (λ line. line.items ≡ golomb_line numbers.now) }
{
    let mut line = Vec::new(alloc);
    for (place, number) in numbers.iter().enumerate() {
        if place > 0 {
            line.push(b' ')?;
        }
        push_codeword(alloc, &mut line, *number)?;
    }
    line.push(b'\n')?;
    Ok(line)
}

/// Encodes `numbers` with Exp-Golomb codewords into a queue of bits, and returns the queue's words.
fn queue_of(alloc: Global, numbers: &[u32]) -> Result<Vec<u32>, AllocError>
    ensures { IfOk result
        (λ words. IsQueueWords 32 (flat_map golomb numbers.now) (map (λ word. word % 2 ^ 32) words.items)) }
{
    let mut coder = DefaultQueueEncoder::new(alloc);
    for number in numbers {
        match coder.encode_symbol(number, ExpGolomb::<u32>::new()) {
            Ok(()) => {}
            // Each number has a codeword, so the error means that there is no memory.
            Err(_) => return Err(AllocError),
        }
    }
    coder.into_compressed()
}

/// Encodes the numbers in line 1 of the input `text`, and returns two lines.
///
/// The first line has the codewords as binary digits. The second line has the words of the queue that holds the
/// codewords' bits.
///
/// # Errors
///
/// Returns `BadNumber` if line 1 isn't a list of 32-bit numbers, or `OutOfMemory` if there is no memory.
pub fn answer(alloc: Global, text: &[u8]) -> Result<Vec<u8>, Fault>
    ensures ok { IfOk result (λ answer. IsGolomb text.now answer.items) }
    ensures err { IfErr result (GolombFails text.now) }
{
    let (first, _) = split_line(text);
    let numbers = parse_numbers::<u32>(alloc, first)?;
    let mut lines = line_of_codewords(alloc, numbers.as_slice())?;
    let words = queue_of(alloc, numbers.as_slice())?;
    push_words(&mut lines, words.as_slice())?;
    Ok(lines)
}
