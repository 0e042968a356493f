//! Helpers that make coders from words, and export words from coders.

use super::bits::gives;
use super::codewords::{Put, Took, puts, takes};
use constriction_base::backends::{BoundedReadWords, Queue, Semantics, Stack};
use constriction_base::cursor::Cursor;
use constriction_symbol::coder::{QueueEncoder, StackCoder, SymbolCoder};
use constriction_symbol::queue::QueueDecoder;
use constriction_words::BitArray;
use std::alloc::Global;

/// A queue decoder over borrowed words.
pub type LentQueue<'a, Word> = QueueDecoder<Word, Cursor<Word, &'a [Word]>>;

/// Exports a queue. Returns whether the exported words are `words`.
pub fn exports_queue<Word: BitArray + PartialEq>(
    coder: QueueEncoder<Word>,
    words: &[Word],
) -> bool {
    match coder.into_compressed() {
        Ok(all) => all.as_slice() == words,
        Err(_) => false,
    }
}

/// Exports a stack. Returns whether the exported words are `words`.
pub fn exports<Word: BitArray + PartialEq>(coder: StackCoder<Word>, words: &[Word]) -> bool {
    match coder.into_compressed() {
        Ok(all) => all.as_slice() == words,
        Err(_) => false,
    }
}

/// Imports a stack from `words`. Returns whether reads return `bits`, in this order.
pub fn holds_stack<Word: BitArray>(words: Vec<Word>, bits: &[u8]) -> bool {
    match StackCoder::from_compressed(words) {
        Ok(mut coder) => gives::<Stack, _>(&mut coder, bits),
        Err(_) => false,
    }
}

/// Makes a queue decoder that reads the bits of `words`.
pub fn word_queue<Word: BitArray>(words: &[Word]) -> LentQueue<'_, Word> {
    QueueDecoder::from_compressed(Cursor::new_at_write_beginning(words))
}

/// Returns whether the coder's methods `len` and `is_empty` agree that it has `len` bits.
pub fn has_len<Word: BitArray, S: Semantics, B: BoundedReadWords<Word, Stack>>(
    coder: &SymbolCoder<Word, S, B>,
    len: usize,
) -> bool {
    coder.len_fits() && coder.len() == len && coder.is_empty() == (len == 0)
}

/// Encodes `numbers` into a new queue as Exp-Golomb codewords.
///
/// Returns whether the queue has `len` bits, exports `words` and decodes to `numbers`.
pub fn queue_goes<Word: BitArray + PartialEq, N: BitArray + PartialEq>(
    alloc: Global,
    numbers: &[N],
    words: &[Word],
    len: usize,
) -> bool {
    let mut coder: QueueEncoder<Word> = QueueEncoder::new(alloc);
    matches!(puts::<Queue, _, N>(&mut coder, numbers), Put::Done)
        && has_len(&coder, len)
        && exports_queue(coder, words)
        && matches!(
            takes::<Queue, _, N>(&mut word_queue(words), numbers),
            Took::All
        )
}
