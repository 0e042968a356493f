//! The command `range-decode`, which decodes symbols from the words of a range coder.

ghost use Rattle.std.specs.Prelude.{◌≡◌, length, IfOk, IfErr};
ghost use Rattle.constriction_base.specs.Models.{items_of};
ghost use Rattle.constriction_queue.specs.Range.{Run, initial, IsAt};
ghost use Rattle.constriction_commands.specs.Coding.{of_24_bits};
ghost use Rattle.constriction_queue.specs.Symbols.{FindsAll};
ghost use Rattle.constriction_commands.specs.Ranges.{ReadingFails};
ghost use Rattle.constriction_commands.specs.commands.RangeDecode.{IsRangeDecoded, RangeDecodeFails};

use crate::fault::Fault;
use crate::given::words::table_and_words;
use crate::output::line_of_numbers;
use crate::weights::PRECISION;
use constriction_base::cursor::Cursor;
use constriction_base::errors::CoderError;
use constriction_base::model::{DecoderModel, EntropyModel};
use constriction_queue::{DecoderFrontendError, DefaultRangeDecoder};
use constriction_stream::decoding::Decode;
use std::alloc::Global;

/// A decoder that borrows its words.
type Decoder<'a> = DefaultRangeDecoder<Cursor<u32, &'a [u32]>>;

/// Returns a decoder that borrows `words`.
fn decoder_of(words: &[u32]) -> Decoder<'_>
    ensures { IsAt 32 64 words.now (initial 64) result.lower result.range result.point result.words }
{
    match Decoder::from_compressed(words) {
        Ok(decoder) => decoder,
        Err(never) => match never {},
    }
}

/// Decodes `count` symbols from `words` with `model`. After the last word, the decoder reads words of value 0.
///
/// Returns `InvalidData` if a decode reads a quantile of at least `2^24`, which no symbol has. Returns `OutOfMemory`
/// if there is no memory for the symbols.
fn decode<M: DecoderModel<PRECISION, Symbol = usize, Probability = u32>>(
    alloc: Global,
    model: &M,
    count: u32,
    words: &[u32],
) -> Result<Vec<usize>, Fault>
    ensures ok { IfOk result (λ symbols. (run : Run)
        × FindsAll 32 64 words.now (items_of (of_24_bits (M.table model.now)) symbols.items) (initial 64) run) }
    ensures counted { IfOk result (λ symbols. length symbols.items ≡ count) }
    ensures err { IfErr result (ReadingFails words.now (M.table model.now) count) }
{
    let mut coder = decoder_of(words);
    let mut symbols = Vec::new(alloc);
    for _ in 0..count {
        match coder.decode_symbol(model) {
            Ok(symbol) => symbols.push(symbol)?,
            Err(CoderError::Frontend(DecoderFrontendError::InvalidData)) => {
                return Err(Fault::InvalidData(DecoderFrontendError::InvalidData));
            }
            Err(CoderError::Backend(never)) => match never {},
        }
    }
    Ok(symbols)
}

/// Decodes the words in the input `text`, and returns the symbols as a line of numbers.
///
/// Line 1 of the input has the weights. Line 2 has the number of symbols, followed by the words. After the last word,
/// the decoder reads words of value 0.
///
/// # Errors
///
/// Returns the faults of [`table_and_words`], and these faults:
///
/// - `InvalidData` if a decode reads a quantile of at least `2^24`, which no symbol has.
/// - `OutOfMemory` if there is no memory.
pub fn answer(alloc: Global, text: &[u8]) -> Result<Vec<u8>, Fault>
    ensures ok { IfOk result (λ answer. IsRangeDecoded text.now answer.items) }
    ensures err { IfErr result (RangeDecodeFails text.now) }
{
    let (table, count, words) = table_and_words(alloc, text)?;
    let symbols = decode(alloc, &table, count, words.as_slice())?;
    Ok(line_of_numbers(alloc, symbols.as_slice())?)
}
