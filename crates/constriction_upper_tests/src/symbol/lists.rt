//! Tests of symbols read with iterators, and the outcome of a call that encodes symbols.

use super::bits::writes;
use super::coders::{LentQueue, word_queue};
use super::codewords::{Put, Took, refusal_of};
use constriction_base::backends::Stack;
use constriction_base::errors::{CoderError, DefaultEncoderError};
use constriction_symbol::codebooks::SymbolCodeError;
use constriction_symbol::coder::StackCoder;
use constriction_symbol::exp_golomb::{ExpGolomb, InvalidCodeword};
use constriction_symbol::reading::ReadBitStream;
use std::alloc::AllocError;

/// Returns the outcome of a call that encodes symbols, from the call's result `answer`.
pub fn answer_of(answer: Result<(), DefaultEncoderError<AllocError>>) -> Put {
    match answer {
        Ok(()) => Put::Done,
        Err(CoderError::Frontend(_)) => Put::Unknown,
        Err(CoderError::Backend(_)) => Put::Refused,
    }
}

/// Returns whether an iterator over two codebooks decodes `first`, then `second`, and then ends.
pub fn takes_two(coder: &mut StackCoder<u8>, first: u8, second: u8) -> bool {
    let codebooks = [ExpGolomb::<u8>::new(), ExpGolomb::<u8>::default()];
    let mut given = coder.decode_symbols(codebooks.iter());
    given.size_hint() == (2, Some(2))
        && matches!(given.next(), Some(Ok(found)) if found == first)
        && matches!(given.next(), Some(Ok(found)) if found == second)
        && given.next().is_none()
}

/// Returns whether an iterator that uses one codebook twice decodes `first`, then `second`, and then ends.
fn takes_two_by_one(queue: &mut LentQueue<'_, u8>, first: u8, second: u8) -> bool {
    let codebook = ExpGolomb::<u8>::new();
    let mut given = queue.decode_iid_symbols(2, &codebook);
    matches!(given.next(), Some(Ok(found)) if found == first)
        && matches!(given.next(), Some(Ok(found)) if found == second)
        && given.next().is_none()
}

/// Checks that the error of a codebook becomes the error of a coder.
#[test]
fn error_of_a_codebook(rt: HostRuntime) {
    let error = SymbolCodeError::<InvalidCodeword>::OutOfCompressedData;
    assert!(rt;
        matches!(
            refusal_of::<AllocError>(error.into_coder_error()),
            Took::OutOfData
        )
    );
}

/// Checks that the bits `101100` on a stack are the numbers 0 and 5, and that 5 is read first.
#[test]
fn symbols_by_two_codebooks(rt: HostRuntime) {
    let mut coder: StackCoder<u8> = StackCoder::new(rt.alloc());
    assert!(rt; writes::<Stack, _>(&mut coder, b"101100") && takes_two(&mut coder, 5, 0));
}

/// Checks that the bits `100110` in a queue are the numbers 0 and 5.
#[test]
fn symbols_by_one_codebook(rt: HostRuntime) {
    assert!(rt; takes_two_by_one(&mut word_queue([25u8].as_slice()), 0, 5));
}
