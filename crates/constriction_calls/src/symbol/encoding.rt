//! Encoding symbols as words with codebooks.

ghost use Rattle.std.specs.Prelude.{◌≡◌, ◌-◌, ◌<◌, ◌^◌, length, map, take, IfErr, IfSome, OnErr, OnOk, OnSome};
ghost use Rattle.constriction_symbol.specs.Bits.{bits_of_words};
ghost use Rattle.constriction_inputs.specs.Buffers.{Appended};
ghost use Rattle.constriction_calls.specs.SymbolBits.{AreAddedFrom, AreQueuedAfter, IsBit, EncodesAtBit, words_at};
ghost use Rattle.constriction_calls.specs.SymbolCalls.{AreSymbolWords, AsQueue, AsStack, MakesCode, EncodesCodewords};
ghost use Rattle.constriction_calls.specs.SymbolCalls.{codeword_in, words_in};
ghost use Rattle.constriction_inputs.specs.declared.refusal.Refusal.TheVariants as refusals;

use crate::symbol::Codes;
use crate::symbol::counted::is_bit;
use constriction_base::backends::Queue;
use constriction_base::cursor::Cursor;
use constriction_inputs::buffers::append;
use constriction_inputs::refusal::Refusal;
use constriction_symbol::coder::{QueueEncoder, StackCoder};
use constriction_symbol::queue::QueueDecoder;
use constriction_symbol::writing::WriteBitStream;
use constriction_words::BitArray;
use std::alloc::Global;

/// Encodes symbols in order as a queue of bits.
///
/// `codes` selects the codebook. The call writes the words of the queue at the beginning of `words`, and sets `len` to
/// the number of these words.
///
/// # Errors
///
/// The call returns `WrongWeights`, `ImpossibleSymbol`, `NoSpace` or `NoMemory` in the cases that [`crate::symbol`]
/// lists.
pub fn encode_queue<Word: BitArray, C: Codes>(
    alloc: Global,
    codes: &C,
    symbols: &[C::Symbol],
    words: &mut [Word],
    len: &mut usize,
) -> Result<(), Refusal>
    ensures call { EncodesCodewords C.number Word.number Word.BITS AsQueue (C.book codes.now)
        symbols.now (words_in words.old len.old) (words_in words.new len.new) result }
{
    match queue_words(alloc, codes, QueueEncoder::new(alloc), symbols) {
        Some((all, _)) => put_words(&all, words, len),
        None => Err(codes.encode_refusal(symbols)),
    }
}

/// Encodes symbols in order as a queue of bits, starting at bit `bit` of `words`. `codes` selects the codebook.
///
/// The call leaves all bits below `bit` unchanged, and sets `bit` to the bit after the last codeword. The other bits of
/// the last word become 0, so the words written so far are the words of a queue. Another call with the new `bit`
/// appends symbols, with the same or another codebook.
///
/// # Errors
///
/// The call returns `WrongLength`, `WrongWeights`, `ImpossibleSymbol`, `NoSpace` or `NoMemory` in the cases that
/// [`crate::symbol`] lists.
pub fn encode_at<Word: BitArray, C: Codes>(
    alloc: Global,
    codes: &C,
    symbols: &[C::Symbol],
    words: &mut [Word],
    bit: &mut usize,
) -> Result<(), Refusal>
    ensures call { EncodesAtBit C.number Word.number Word.BITS (C.book codes.now) symbols.now
        (words_at words.old bit.old) (words_at words.new bit.new) result }
{
    if !is_bit(words, *bit) {
        return Err(Refusal::WrongLength);
    }
    let Some((added, end)) = words_from(alloc, codes, words, *bit, symbols) else {
        return Err(codes.encode_refusal(symbols));
    };
    let mut len = *bit / Word::BITS as usize;
    append(&added, words, &mut len)?;
    *bit = end;
    Ok(())
}

/// Encodes symbols from the last to the first as a stack of bits. Decoding returns them in the order of the list.
///
/// `codes` selects the codebook. The call writes the words of the stack at the beginning of `words`, and sets `len` to
/// the number of these words.
///
/// # Errors
///
/// The call returns `WrongWeights`, `ImpossibleSymbol`, `NoSpace` or `NoMemory` in the cases that [`crate::symbol`]
/// lists.
pub fn encode_stack<Word: BitArray, C: Codes>(
    alloc: Global,
    codes: &C,
    symbols: &[C::Symbol],
    words: &mut [Word],
    len: &mut usize,
) -> Result<(), Refusal>
    ensures call { EncodesCodewords C.number Word.number Word.BITS AsStack (C.book codes.now)
        symbols.now (words_in words.old len.old) (words_in words.new len.new) result }
{
    match stack_words(alloc, codes, symbols) {
        Some(all) => put_words(&all, words, len),
        None => Err(codes.encode_refusal(symbols)),
    }
}

/// Encodes symbols as a queue of bits that begins with the first `bit` bits of `words`.
///
/// Returns the queue's words, beginning with the word that contains bit `bit`, and the number of bits in the queue.
/// Returns `None` if the weights make no tree, if a symbol has no codeword, or if there is no memory. Also returns
/// `None` if the number of bits doesn't fit a `usize`.
///
/// The caller proves that `words` has at least `bit` bits, and fewer than 2^64 bits.
fn words_from<Word: BitArray, C: Codes>(
    alloc: Global,
    codes: &C,
    words: &[Word],
    bit: usize,
    symbols: &[C::Symbol],
) -> Option<(Vec<Word>, usize)>
    requires { IsBit Word.BITS (length words.now) bit }
    ensures tree { OnSome result (MakesCode (2 ^ 62 - 1) (C.book codes.now)) }
    ensures words { IfSome result (λ made. AreAddedFrom Word.number Word.BITS (codeword_in C.number (C.book codes.now))
        (words_at words.now bit) symbols.now made.0.items made.1) }
{
    let width = Word::BITS as usize;
    let first = bit / width;
    let begun = queue_of_first(alloc, &words[first..], bit % width)?;
    let (added, count) = queue_words(alloc, codes, begun, symbols)?;
    let end = (first * width).checked_add(count)?;
    Some((added, end))
}

/// Returns a queue of the first `count` bits of `words`.
///
/// Returns `None` if `words` has fewer bits, or if there is no memory.
fn queue_of_first<Word: BitArray>(
    alloc: Global,
    words: &[Word],
    count: usize,
) -> Option<QueueEncoder<Word>>
    ensures { IfSome result (λ queue. queue.bits ≡ take count (bits_of_words Word.BITS (map Word.number words.now))) }
{
    let mut queue = QueueEncoder::new(alloc);
    let mut bits = QueueDecoder::<Word, Cursor<Word, &[Word]>>::from_compressed(
        Cursor::new_at_write_beginning(words),
    );
    for _done in 0..count {
        let Ok(Some(bit)) = bits.read_bit() else {
            return None;
        };
        let Ok(()) = queue.write_bit(bit) else {
            return None;
        };
    }
    Some(queue)
}

/// Encodes symbols onto the queue `begun`. Returns the queue's words, and the number of bits in the queue.
///
/// Returns `None` if the weights make no tree, if a symbol has no codeword, or if there is no memory. Also returns
/// `None` if the number of bits doesn't fit a `usize`.
fn queue_words<Word: BitArray, C: Codes>(
    alloc: Global,
    codes: &C,
    begun: QueueEncoder<Word>,
    symbols: &[C::Symbol],
) -> Option<(Vec<Word>, usize)>
    ensures tree { OnSome result (MakesCode (2 ^ 62 - 1) (C.book codes.now)) }
    ensures words { IfSome result (λ made. AreQueuedAfter Word.BITS (codeword_in C.number (C.book codes.now)) begun.bits
        symbols.now (map Word.number made.0.items) made.1) }
{
    let codebook = codes.encoder(alloc)?;
    let mut encoder = begun;
    let Ok(()) = WriteBitStream::<Queue>::encode_iid_symbols(&mut encoder, symbols, &codebook)
    else {
        return None;
    };
    if !encoder.len_fits() {
        return None;
    }
    let count = encoder.len();
    match encoder.into_compressed() {
        Ok(words) => Some((words, count)),
        Err(_) => None,
    }
}

/// Returns the words of the stack that [`encode_stack`] writes.
///
/// Returns `None` if the weights make no tree, if a symbol has no codeword, or if there is no memory.
fn stack_words<Word: BitArray, C: Codes>(
    alloc: Global,
    codes: &C,
    symbols: &[C::Symbol],
) -> Option<Vec<Word>>
    ensures tree { OnSome result (MakesCode (2 ^ 62 - 1) (C.book codes.now)) }
    ensures words { IfSome result (λ words. AreSymbolWords AsStack Word.BITS (codeword_in C.number (C.book codes.now))
        symbols.now (map Word.number words.items)) }
{
    let codebook = codes.encoder(alloc)?;
    let mut coder = StackCoder::<Word>::new(alloc);
    let Ok(()) = coder.encode_iid_symbols_reverse(symbols, &codebook) else {
        return None;
    };
    match coder.into_compressed() {
        Ok(words) => Some(words),
        Err(_) => None,
    }
}

/// Copies the words of `all` to the beginning of `words`, and sets `len` to the number of words copied.
///
/// # Errors
///
/// The call returns `NoSpace(needed)` if `words` is shorter than `all`. `needed` is the length of `all`.
pub(crate) fn put_words<Word: BitArray>(
    all: &[Word],
    words: &mut [Word],
    len: &mut usize,
) -> Result<(), Refusal>
    ensures ok { OnOk result (Appended words.old 0 all.now words.new len.new) }
    ensures err { IfErr result (λ e. (e ≡ refusals.NoSpace (length all.now)) × (length words.old < length all.now)) }
    ensures kept { OnErr result ((words.new ≡ words.old) × (len.new ≡ len.old)) }
{
    let count = all.len();
    if count > words.len() {
        return Err(Refusal::NoSpace(count));
    }
    words[..count].copy_from_slice(all);
    *len = count;
    Ok(())
}
