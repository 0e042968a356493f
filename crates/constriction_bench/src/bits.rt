//! Benchmark cases of bit coders over words of 32 bits: writing and reading single bits.

use crate::runs::copy_out;
use constriction_base::cursor::Cursor;
use constriction_symbol::coder::{DefaultQueueEncoder, DefaultStackCoder};
use constriction_symbol::queue::QueueDecoder;
use constriction_symbol::reading::ReadBitStream;
use constriction_symbol::writing::WriteBitStream;
use std::alloc::Global;

/// Writes `bits` to a new queue, and returns the queue's words. Returns `None` if there is no memory.
#[inline(never)]
fn write_queue(alloc: Global, bits: &[bool]) -> Option<Vec<u32>> {
    let mut coder = DefaultQueueEncoder::new(alloc);
    for place in 0..bits.len() {
        if coder.write_bit(bits[place]).is_err() {
            return None;
        }
    }
    coder.into_compressed().ok()
}

/// Writes `bits` to a new stack, and returns the stack's words. Returns `None` if there is no memory.
#[inline(never)]
fn write_stack(alloc: Global, bits: &[bool]) -> Option<Vec<u32>> {
    let mut coder = DefaultStackCoder::new(alloc);
    for place in 0..bits.len() {
        if coder.write_bit(bits[place]).is_err() {
            return None;
        }
    }
    coder.into_compressed().ok()
}

/// Fills `bits` with the first bits of a queue, in order. Returns `false` if the queue has fewer bits than `bits`.
#[inline(never)]
fn read_queue(words: &[u32], bits: &mut [bool]) -> bool {
    let cursor = Cursor::<u32, &[u32]>::new_at_write_beginning(words);
    let mut decoder = QueueDecoder::from_compressed(cursor);
    for bit in bits.iter_mut() {
        match decoder.read_bit() {
            Ok(Some(read)) => *bit = read,
            _ => return false,
        }
    }
    true
}

/// Fills `bits` with the top bits of a stack. The bit that was written last comes first.
///
/// Returns `false` if the stack has fewer bits than `bits`, or if the last word is 0.
#[inline(never)]
fn read_stack(words: Vec<u32>, bits: &mut [bool]) -> bool {
    let Ok(mut coder) = DefaultStackCoder::from_compressed(words) else {
        return false;
    };
    for bit in bits.iter_mut() {
        match coder.read_bit() {
            Ok(Some(read)) => *bit = read,
            _ => return false,
        }
    }
    true
}

/// Copies `words` to `out`, as many as fit. Returns the total number of words, or 0 if `words` is `None`.
pub fn give_out(words: Option<Vec<u32>>, out: &mut [u32]) -> usize {
    match words {
        Some(words) => copy_out(&words, out),
        None => 0,
    }
}

/// Writes `bits` to a queue of bits.
///
/// Copies the queue's words to `out`, as many as fit.
///
/// Returns the total number of words, or 0 after a failure (see [`crate`]).
#[unsafe(no_mangle)]
pub extern "C" fn constriction_bench_bits_write_queue(
    alloc: Global,
    bits: &[bool],
    out: &mut [u32],
) -> usize {
    give_out(write_queue(alloc, bits), out)
}

/// Writes `bits` to a stack of bits.
///
/// Copies the stack's words to `out`, as many as fit.
///
/// Returns the total number of words, or 0 after a failure (see [`crate`]).
#[unsafe(no_mangle)]
pub extern "C" fn constriction_bench_bits_write_stack(
    alloc: Global,
    bits: &[bool],
    out: &mut [u32],
) -> usize {
    give_out(write_stack(alloc, bits), out)
}

/// Fills `bits` with the first bits of the queue that `words` holds. Returns `false` after a failure (see [`crate`]).
#[unsafe(no_mangle)]
pub extern "C" fn constriction_bench_bits_read_queue(words: &[u32], bits: &mut [bool]) -> bool {
    read_queue(words, bits)
}

/// Fills `bits` with the top bits of the stack that `words` holds. The bit that was written last comes first.
///
/// Returns `false` after a failure (see [`crate`]), for example if the stack has fewer bits than `bits`.
#[unsafe(no_mangle)]
pub extern "C" fn constriction_bench_bits_read_stack(
    alloc: Global,
    words: &[u32],
    bits: &mut [bool],
) -> bool {
    match words.to_vec(alloc) {
        Ok(words) => read_stack(words, bits),
        Err(_) => false,
    }
}
