//! The command `chain-split`, which decodes symbols with a chain coder.
//!
//! The command also outputs the compressed words that the coder left unread, and the words of the coder's remainders.

ghost use Rattle.std.specs.Prelude.{◌≡◌, ◌%◌, ◌^◌, ◌++◌, length, map, IfOk, IfErr};
ghost use Rattle.constriction_commands.specs.Lines.{line_of};
ghost use Rattle.constriction_commands.specs.commands.ChainSplit.{ChainDecodes, ChainFails, ChainSplitFails, IsChainOf};
ghost use Rattle.constriction_commands.specs.commands.ChainSplit.{IsChainSplit, IsNoChain};
ghost use Rattle.constriction_commands.specs.declared.fault.Fault.TheVariants.{NoChain};

use crate::fault::Fault;
use crate::given::words::table_and_words;
use crate::output::{line_of_numbers, push_words};
use crate::weights::PRECISION;
use constriction_base::errors::CoderError;
use constriction_base::model::{DecoderModel, EntropyModel};
use constriction_chain::{BackendError, DefaultChainCoder};
use constriction_stream::decoding::Decode;
use std::alloc::{AllocError, Global};

/// Creates a chain coder from `words`.
///
/// Returns `NoChain` if there is no word, if the only word is below `2^8`, or if the last word is 0.
fn coder_of(alloc: Global, words: Vec<u32>) -> Result<DefaultChainCoder, Fault>
    ensures ok { IfOk result (λ coder. IsChainOf (map (λ word. word % 2 ^ 32) words.items) coder.state) }
    ensures err { IfErr result (λ fault. (fault ≡ NoChain) × IsNoChain (map (λ word. word % 2 ^ 32) words.items)) }
{
    match DefaultChainCoder::from_compressed(alloc, words) {
        Ok(coder) => Ok(coder),
        Err(CoderError::Frontend(_)) => Err(Fault::NoChain),
        Err(CoderError::Backend(never)) => match never {},
    }
}

/// Decodes `count` symbols from `coder` with `model`.
///
/// Returns `OutOfData` if a decode needs a word and none is left, or `OutOfMemory` if there is no memory.
fn decode<M: DecoderModel<PRECISION, Symbol = usize, Probability = u32>>(
    alloc: Global,
    model: &M,
    count: u32,
    coder: &mut DefaultChainCoder,
) -> Result<Vec<usize>, Fault>
    ensures ok { IfOk result
        (λ symbols. ChainDecodes (M.table model.now) symbols.items coder.old.state coder.new.state) }
    ensures counted { IfOk result (λ symbols. length symbols.items ≡ count) }
    ensures err { IfErr result (ChainFails (M.table model.now) count coder.old.state) }
{
    let mut symbols = Vec::new(alloc);
    for _ in 0..count {
        match coder.decode_symbol(model) {
            Ok(symbol) => symbols.push(symbol)?,
            Err(CoderError::Frontend(error)) => return Err(Fault::OutOfData(error)),
            Err(CoderError::Backend(BackendError::Compressed(never))) => match never {},
            Err(CoderError::Backend(BackendError::Remainders(_))) => return Err(Fault::OutOfMemory),
        }
    }
    Ok(symbols)
}

/// Returns three lines of numbers: the symbols, the words `prefix` and the words `suffix`.
fn three_lines(
    alloc: Global,
    symbols: &[usize],
    prefix: &[u32],
    suffix: &[u32],
) -> Result<Vec<u8>, AllocError>
    ensures { IfOk result
        (λ lines. lines.items ≡ (line_of symbols.now ++ line_of (map (λ word. word % 2 ^ 32) prefix.now))
        ++ line_of (map (λ word. word % 2 ^ 32) suffix.now)) }
{
    let mut lines = line_of_numbers(alloc, symbols)?;
    push_words(&mut lines, prefix)?;
    push_words(&mut lines, suffix)?;
    Ok(lines)
}

/// Decodes the words in the input `text` with a chain coder, and returns three lines of numbers.
///
/// Line 1 of the input has the weights. Line 2 has the number of symbols, followed by the words. The lines returned
/// have the symbols, the words that the coder left unread, and the words of the coder's remainders, in this order.
///
/// # Errors
///
/// Returns the faults of [`table_and_words`], and these faults:
///
/// - `NoChain` if there is no word, if the only word is below `2^8`, or if the last word is 0.
/// - `OutOfData` if a decode needs a word and none is left.
/// - `OutOfMemory` if there is no memory.
pub fn answer(alloc: Global, text: &[u8]) -> Result<Vec<u8>, Fault>
    ensures ok { IfOk result (λ answer. IsChainSplit text.now answer.items) }
    ensures err { IfErr result (ChainSplitFails text.now) }
{
    let (table, count, words) = table_and_words(alloc, text)?;
    let mut coder = coder_of(alloc, words)?;
    let symbols = decode(alloc, &table, count, &mut coder)?;
    let (prefix, suffix) = coder.into_remainders()?;
    let lines = three_lines(
        alloc,
        symbols.as_slice(),
        prefix.as_slice(),
        suffix.as_slice(),
    )?;
    Ok(lines)
}
