//! Decoding symbols from words with codebooks.

ghost use Rattle.std.specs.Prelude.{◌≡◌, IfErr, OnErr, OnOk, length, map};
ghost use Rattle.constriction_calls.specs.SymbolBits.{DecodesAtBit, symbols_at};
ghost use Rattle.constriction_calls.specs.SymbolCalls.{BeginWithCodewords, AsQueue, AsStack, MapsError};
ghost use Rattle.constriction_calls.specs.SymbolCalls.{SymbolReadFails};
ghost use Rattle.constriction_calls.specs.SymbolCalls.{DecodesCodewords};

use crate::symbol::Codes;
use crate::symbol::counted::{CountedBits, is_bit};
use constriction_base::backends::{Queue, Semantics, Stack};
use constriction_base::cursor::Cursor;
use constriction_base::errors::CoderError;
use constriction_inputs::refusal::Refusal;
use constriction_symbol::codebooks::{Codebook, DecoderCodebook, SymbolCodeError};
use constriction_symbol::coder::StackCoder;
use constriction_symbol::queue::QueueDecoder;
use constriction_symbol::reading::ReadBitStream;
use constriction_words::BitArray;
use std::alloc::Global;

/// Decodes symbols into `symbols` from the words of a queue of bits. `codes` selects the codebook.
///
/// # Errors
///
/// The call returns `WrongWeights`, `OutOfData`, `InvalidData` or `NoMemory` in the cases that [`crate::symbol`] lists.
pub fn decode_queue<Word: BitArray, C: Codes>(
    alloc: Global,
    codes: &C,
    words: &[Word],
    symbols: &mut [C::Symbol],
) -> Result<(), Refusal>
    ensures call { DecodesCodewords C.number Word.BITS AsQueue (C.book codes.now)
        (map Word.number words.now) symbols.old symbols.new result }
{
    let codebook = codes.decoder(alloc)?;
    let mut decoder = QueueDecoder::<Word, Cursor<Word, &[Word]>>::from_compressed(
        Cursor::new_at_write_beginning(words),
    );
    read_symbols::<Queue, _, C::Decoder>(alloc, &mut decoder, &codebook, symbols)
}

/// Decodes symbols into `symbols` from a queue of bits, starting at bit `bit` of `words`.
///
/// `codes` selects the codebook. The call sets `bit` to the bit after the last codeword. Another call with the new
/// `bit` decodes the symbols that follow, with the same or another codebook. The result doesn't depend on the bits
/// after the last codeword.
///
/// # Errors
///
/// The call returns `WrongLength`, `WrongWeights`, `OutOfData`, `InvalidData` or `NoMemory` in the cases that
/// [`crate::symbol`] lists.
pub fn decode_at<Word: BitArray, C: Codes>(
    alloc: Global,
    codes: &C,
    words: &[Word],
    bit: &mut usize,
    symbols: &mut [C::Symbol],
) -> Result<(), Refusal>
    ensures call { DecodesAtBit C.number Word.BITS (C.book codes.now) (map Word.number words.now)
        (symbols_at symbols.old bit.old) (symbols_at symbols.new bit.new) result }
{
    if !is_bit(words, *bit) {
        return Err(Refusal::WrongLength);
    }
    let codebook = codes.decoder(alloc)?;
    let mut bits = CountedBits::from(words, *bit);
    let before = bits.left();
    read_symbols::<Queue, _, C::Decoder>(alloc, &mut bits, &codebook, symbols)?;
    *bit += before - bits.left();
    Ok(())
}

/// Decodes symbols into `symbols` from the words of a stack of bits. `codes` selects the codebook.
///
/// # Errors
///
/// The call returns `WrongWeights`, `OutOfData`, `InvalidData` or `NoMemory` in the cases that [`crate::symbol`] lists.
pub fn decode_stack<Word: BitArray, C: Codes>(
    alloc: Global,
    codes: &C,
    words: &[Word],
    symbols: &mut [C::Symbol],
) -> Result<(), Refusal>
    ensures call { DecodesCodewords C.number Word.BITS AsStack (C.book codes.now)
        (map Word.number words.now) symbols.old symbols.new result }
{
    let codebook = codes.decoder(alloc)?;
    let mut decoder = match StackCoder::<Word, Cursor<Word, &[Word]>>::from_compressed(
        Cursor::new_at_write_end(words),
    ) {
        Ok(decoder) => decoder,
        Err(CoderError::Frontend(_)) => return Err(Refusal::InvalidData),
        Err(CoderError::Backend(never)) => match never {},
    };
    read_symbols::<Stack, _, C::Decoder>(alloc, &mut decoder, &codebook, symbols)
}

/// Decodes symbols from `stream` into `symbols`.
///
/// # Errors
///
/// The call returns `OutOfData`, `InvalidData` or `NoMemory` in the cases that [`crate::symbol`] lists. It also returns
/// `NoMemory` if `stream` returns a read error.
fn read_symbols<S: Semantics, R: ReadBitStream<S>, C: DecoderCodebook>(
    alloc: Global,
    stream: &mut R,
    codebook: &C,
    symbols: &mut [C::Symbol],
) -> Result<(), Refusal>
where
    R::ReadError: Drop,
    C::Symbol: Copy + Drop,
    C::InvalidCodeword: Drop,
    requires { R.is_list }
    ensures count { length symbols.new ≡ length symbols.old }
    ensures ok { OnOk result (BeginWithCodewords (C.codeword codebook.now)
        symbols.new (R.unread stream.old) (R.unread stream.new)) }
    ensures err { IfErr result (SymbolReadFails (C.codeword codebook.now) (C.reads_on codebook.now) (λ bits.
        (e : C.InvalidCodeword) × C.is_invalid codebook.now bits e) (length symbols.old) (R.unread stream.old)) }
    ensures kept { OnErr result (symbols.new ≡ symbols.old) }
{
    let Ok(mut read) = Vec::with_capacity(alloc, symbols.len()) else {
        return Err(Refusal::NoMemory);
    };
    for _done in 0..symbols.len() {
        match stream.decode_symbol(codebook) {
            Ok(symbol) => read.push_reserved(symbol),
            Err(error) => return Err(as_refusal(error)),
        }
    }
    symbols.copy_from_slice(&read);
    Ok(())
}

/// Converts the error of a coder's decode to the error that a call of this crate returns.
///
/// `OutOfCompressedData` becomes `OutOfData`, `InvalidCodeword` becomes `InvalidData`, and an error of the backend
/// becomes `NoMemory`.
fn as_refusal<V: Drop, E: Drop>(error: CoderError<SymbolCodeError<V>, E>) -> Refusal
    ensures { MapsError error result }
{
    match error {
        CoderError::Frontend(cause) => match cause {
            SymbolCodeError::OutOfCompressedData => Refusal::OutOfData,
            SymbolCodeError::InvalidCodeword(_) => Refusal::InvalidData,
        },
        CoderError::Backend(_) => Refusal::NoMemory,
    }
}
