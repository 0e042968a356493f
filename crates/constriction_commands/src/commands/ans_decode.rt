//! The command `ans-decode`, which decodes symbols from the words of an ANS coder.

ghost use Rattle.std.specs.Prelude.{◌≡◌, length, IfOk, IfErr};
ghost use Rattle.constriction_base.specs.Models.{items_of};
ghost use Rattle.constriction_stack.specs.Symbols.{DecodesAll};
ghost use Rattle.constriction_commands.specs.Coding.{of_24_bits};
ghost use Rattle.constriction_commands.specs.commands.AnsDecode.{IsAnsDecoded, AnsDecodeFails};
ghost use Rattle.constriction_commands.specs.declared.fault.Fault.TheVariants.{OutOfMemory};

use crate::fault::Fault;
use crate::given::words::table_and_words;
use crate::output::line_of_numbers;
use crate::weights::PRECISION;
use constriction_base::errors::CoderError;
use constriction_base::model::{DecoderModel, EntropyModel};
use constriction_stack::DefaultAnsCoder;
use constriction_stack::coder::words::CompressedDataEndsWithZeroWord;
use constriction_stream::decoding::Decode;
use std::alloc::Global;

/// Decodes `count` symbols from `coder` with `model`.
///
/// Returns `OutOfMemory` if there is no memory for the symbols.
fn decode<M: DecoderModel<PRECISION, Symbol = usize, Probability = u32>>(
    alloc: Global,
    model: &M,
    count: u32,
    coder: &mut DefaultAnsCoder,
) -> Result<Vec<usize>, Fault>
    ensures ok { IfOk result (λ symbols.
        DecodesAll 32 64 (items_of (of_24_bits (M.table model.now)) symbols.items) coder.old.state coder.new.state) }
    ensures counted { IfOk result (λ symbols. length symbols.items ≡ count) }
    ensures err { IfErr result (λ fault. fault ≡ OutOfMemory) }
{
    let mut symbols = Vec::new(alloc);
    for _ in 0..count {
        match coder.decode_symbol(model) {
            Ok(symbol) => symbols.push(symbol)?,
            Err(CoderError::Frontend(never)) => match never {},
            Err(CoderError::Backend(never)) => match never {},
        }
    }
    Ok(symbols)
}

/// Decodes the words in the input `text`, and returns the symbols as a line of numbers.
///
/// Line 1 of the input has the weights. Line 2 has the number of symbols, followed by the words.
///
/// # Errors
///
/// Returns the faults of [`table_and_words`], `ZeroWord` if the last word is 0, or `OutOfMemory` if there is no
/// memory.
pub fn answer(alloc: Global, text: &[u8]) -> Result<Vec<u8>, Fault>
    ensures ok { IfOk result (λ answer. IsAnsDecoded text.now answer.items) }
    ensures err { IfErr result (AnsDecodeFails text.now) }
{
    let (table, count, words) = table_and_words(alloc, text)?;
    let Ok(mut coder) = DefaultAnsCoder::from_compressed(words) else {
        return Err(Fault::ZeroWord(CompressedDataEndsWithZeroWord));
    };
    let symbols = decode(alloc, &table, count, &mut coder)?;
    Ok(line_of_numbers(alloc, symbols.as_slice())?)
}
