//! Tests of the words that a guard lends, and of iterators over bits.

use super::bits::{gives, writes};
use super::coders::has_len;
use constriction_base::backends::{Queue, Stack};
use constriction_symbol::coder::{
    DefaultQueueEncoder, DefaultStackCoder, QueueEncoder, StackCoder,
};
use constriction_words::BitArray;
use std::alloc::{AllocError, Allocator};
use std::test::Fail;

/// Returns whether a guard of the queue lends `words`.
pub fn shows_queue<Word: BitArray + PartialEq, A: Allocator>(
    coder: &mut QueueEncoder<Word, Vec<Word, A>>,
    words: &[Word],
) -> Result<bool, AllocError> {
    let guard = coder.get_compressed()?;
    Ok(guard.words() == words)
}

/// Returns whether a guard of the stack lends `words`.
pub fn shows_stack<Word: BitArray + PartialEq, A: Allocator>(
    coder: &mut StackCoder<Word, Vec<Word, A>>,
    words: &[Word],
) -> Result<bool, AllocError> {
    let guard = coder.get_compressed()?;
    Ok(guard.words() == words)
}

/// Writes the bits `101` to an empty queue, and returns whether a guard then lends the word 5.
///
/// Also returns `false` if the queue isn't empty at first, or if it doesn't have three bits before the guard exists or
/// after the guard is dropped.
pub fn shows_five(coder: &mut DefaultQueueEncoder) -> bool {
    has_len(coder, 0)
        && writes::<Queue, _>(coder, b"101")
        && has_len(coder, 3)
        && matches!(shows_queue(coder, &[5]), Ok(true))
        && has_len(coder, 3)
}

/// Turns a queue into an iterator. Returns whether it returns the bits `101` and 29 zeros that fill the word, and ends.
fn overshoots(coder: DefaultQueueEncoder) -> bool {
    match coder.into_overshooting_iter() {
        Ok(mut bits) => {
            matches!(bits.next(), Some(Ok(true)))
                && gives::<Queue, _>(&mut bits, b"0100000000000000000000000000000.")
                && bits.next().is_none()
        }
        Err(_) => false,
    }
}

#[test]
fn queue_bits(rt: HostRuntime) -> Result<(), Fail> {
    let empty: DefaultStackCoder = DefaultStackCoder::with_bit_capacity(rt.alloc(), 40)?;
    let is_empty = has_len(&empty, 0);
    drop(empty);
    let mut coder: DefaultQueueEncoder = DefaultQueueEncoder::with_bit_capacity(rt.alloc(), 40)?;
    let is_shown = shows_five(&mut coder);
    let is_read = overshoots(coder);
    assert!(rt; is_empty && is_shown && is_read);
    Ok(())
}

/// Turns a stack into an iterator. Returns whether the iterator returns the bits `101`, and then ends.
fn iterates(coder: DefaultStackCoder) -> bool {
    let mut bits = coder.into_iterator();
    matches!(bits.next(), Some(Ok(true)))
        && gives::<Stack, _>(&mut bits, b"01.")
        && bits.next().is_none()
}

#[test]
fn stack_bits(rt: HostRuntime) {
    let mut coder: DefaultStackCoder = DefaultStackCoder::new(rt.alloc());
    let is_shown = writes::<Stack, _>(&mut coder, b"101")
        && matches!(shows_stack(&mut coder, &[13]), Ok(true));
    let is_read = iterates(coder);
    assert!(rt; is_shown && is_read);
}
