//! Tests of worked examples. The expected words and bits are computed by hand.

use super::bits::{gives, writes};
use super::coders::{LentQueue, exports, has_len, holds_stack, queue_goes, word_queue};
use super::codewords::{Put, Took, puts, takes};
use constriction_base::backends::{Queue, Stack};
use constriction_base::errors::CoderError;
use constriction_symbol::coder::{DefaultQueueEncoder, DefaultStackCoder, StackCoder};
use std::alloc::Global;
use std::test::Fail;

/// Writes `bits` to a stack. Returns whether it exports `words`.
fn stack_words(alloc: Global, bits: &[u8], words: &[u32]) -> bool {
    let mut coder: DefaultStackCoder = DefaultStackCoder::new(alloc);
    writes::<Stack, _>(&mut coder, bits) && exports(coder, words)
}

/// Imports a stack from a copy of `words`. Returns whether reads return `bits`, in this order.
fn word_bits(alloc: Global, words: &[u32], bits: &[u8]) -> bool {
    match words.to_vec(alloc) {
        Ok(owned) => holds_stack(owned, bits),
        Err(_) => false,
    }
}

/// Returns whether an import of `words` is refused, and hands back the words `back`.
fn is_refused(words: Vec<u32>, back: &[u32]) -> bool {
    match StackCoder::from_compressed(words) {
        Err(CoderError::Frontend(left)) => left.as_slice() == back,
        _ => false,
    }
}

/// Checks exports and imports of stacks with 0 to 32 bits, and that an import refuses a last word of 0.
///
/// The bits of `[12]` are 0, 0, 1. The last bit is read first.
#[test]
fn stack_end_bit(rt: HostRuntime) -> Result<(), Fail> {
    let zero = [7u32, 0].to_vec(rt.alloc())?;
    let is_zero_refused = is_refused(zero, &[7]);
    assert!(rt;
        is_zero_refused
            && stack_words(rt.alloc(), &[b'1'; 32], &[4294967295, 1])
            && stack_words(rt.alloc(), b"1", &[3])
            && stack_words(rt.alloc(), b"", &[1])
            && word_bits(rt.alloc(), &[3], b"1..")
            && word_bits(rt.alloc(), &[12], b"100..")
            && word_bits(rt.alloc(), &[], b"..")
    );
    Ok(())
}

/// Encodes a number into a queue. Returns whether the codeword's bits are `bits`, and decode to the number.
fn is_prefix(alloc: Global, symbol: &[u32], bits: &[u8]) -> bool {
    let mut coder: DefaultQueueEncoder = DefaultQueueEncoder::new(alloc);
    let is_put = matches!(puts::<Queue, _, u32>(&mut coder, symbol), Put::Done)
        && has_len(&coder, bits.len())
        && matches!(puts::<Queue, _, u32>(&mut coder, symbol), Put::Done);
    match coder.into_decoder() {
        Ok(mut decoder) => is_put
            && gives::<Queue, _>(&mut decoder, bits)
            && matches!(takes::<Queue, _, u32>(&mut decoder, symbol), Took::All),
        Err(_) => false,
    }
}

/// Encodes a number onto a stack. Returns whether reads return `bits`, in this order, and decode to the number.
fn is_suffix(alloc: Global, symbol: &[u32], bits: &[u8]) -> bool {
    let mut coder: DefaultStackCoder = DefaultStackCoder::new(alloc);
    matches!(puts::<Stack, _, u32>(&mut coder, symbol), Put::Done)
        && has_len(&coder, bits.len())
        && matches!(puts::<Stack, _, u32>(&mut coder, symbol), Put::Done)
        && gives::<Stack, _>(&mut coder, bits)
        && matches!(takes::<Stack, _, u32>(&mut coder, symbol), Took::All)
        && has_len(&coder, 0)
}

/// Returns whether the number's codeword is `bits` in a queue and on a stack.
fn is_codeword(alloc: Global, symbol: &[u32], bits: &[u8]) -> bool {
    is_prefix(alloc, symbol, bits) && is_suffix(alloc, symbol, bits)
}

#[test]
fn golomb_codewords(rt: HostRuntime) {
    assert!(rt;
        is_codeword(rt.alloc(), &[0u32], b"1")
            && is_codeword(rt.alloc(), &[1u32], b"010")
            && is_codeword(rt.alloc(), &[5u32], b"00110")
            && is_codeword(rt.alloc(), &[7u32], b"0001000")
            && is_codeword(
                rt.alloc(),
                &[u32::MAX - 1],
                b"000000000000000000000000000000011111111111111111111111111111111"
            )
            && is_codeword(
                rt.alloc(),
                &[u32::MAX],
                b"00000000000000000000000000000000100000000000000000000000000000000"
            )
    );
}

/// Decodes a byte from 32 zeros. Returns whether they are refused as an invalid codeword, and 23 zeros are left.
fn zeros_are_refused(zeros: &mut LentQueue<'_, u32>) -> bool {
    matches!(takes::<Queue, _, u8>(zeros, &[0]), Took::Invalid)
        && gives::<Queue, _>(zeros, b"00000000000000000000000..")
}

#[test]
fn golomb_byte_limits(rt: HostRuntime) {
    assert!(rt;
        queue_goes(rt.alloc(), &[255u8], &[256u32], 17)
            && zeros_are_refused(&mut word_queue([0u32].as_slice()))
            && matches!(
                takes::<Queue, _, u8>(&mut word_queue([0u32; 0].as_slice()), &[0]),
                Took::OutOfData
            )
    );
}

#[test]
fn golomb_line(rt: HostRuntime) {
    assert!(rt; queue_goes(rt.alloc(), &[0u32, 5, 7], &[537u32], 13));
}

#[test]
fn golomb_empty_line(rt: HostRuntime) {
    assert!(rt; queue_goes::<u32, u32>(rt.alloc(), &[], &[], 0));
}

/// Reads `bits` and then `last` from the queue of `words`. Returns whether it may be exhausted only after `last`.
fn is_exhausted_behind(words: &[u32], bits: &[u8], last: &[u8]) -> bool {
    let mut decoder = word_queue(words);
    !decoder.maybe_exhausted()
        && gives::<Queue, _>(&mut decoder, bits)
        && !decoder.maybe_exhausted()
        && gives::<Queue, _>(&mut decoder, last)
        && decoder.maybe_exhausted()
}

/// Checks that a queue may be exhausted only within its last word, when all bits left are 0.
#[test]
fn queue_exhausted(rt: HostRuntime) {
    assert!(rt;
        is_exhausted_behind(&[1, 0], b"10000000000000000000000000000000", b"0")
            && is_exhausted_behind(&[9], b"100", b"1")
    );
}

#[test]
fn golomb_ones(rt: HostRuntime) {
    let mut decoder = word_queue([4294967295u32].as_slice());
    assert!(rt;
        matches!(takes::<Queue, _, u8>(&mut decoder, &[0; 32]), Took::All)
            && matches!(takes::<Queue, _, u8>(&mut decoder, &[0]), Took::OutOfData)
    );
}
