//! The command `ans-encode`, which encodes symbols with an ANS coder.

ghost use Rattle.std.specs.Prelude.{◌≡◌, ◌%◌, ◌^◌, map, reverse, IfOk, IfErr};
ghost use Rattle.constriction_base.specs.Models.{items_of};
ghost use Rattle.constriction_stack.specs.Ans.{AnsState, empty, exported};
ghost use Rattle.constriction_stack.specs.Symbols.{EncodesAll};
ghost use Rattle.constriction_commands.specs.Coding.{of_24_bits, CoderFails, EncodeFails};
ghost use Rattle.constriction_commands.specs.commands.AnsEncode.{IsAnsEncoded};

use crate::fault::Fault;
use crate::given::symbols::table_and_symbols;
use crate::output::line_of_words;
use crate::weights::PRECISION;
use constriction_base::errors::CoderError;
use constriction_base::model::{EncoderModel, EntropyModel};
use constriction_stack::DefaultAnsCoder;
use constriction_stream::encoding::Encode;
use std::alloc::Global;

/// Encodes `symbols` with `model`, and returns the words. A decoder returns the first symbol first.
///
/// Returns `Encoder` if `model` has no interval for a symbol, or `OutOfMemory` if there is no memory.
fn encode<M: EncoderModel<PRECISION, Symbol = usize, Probability = u32>>(
    alloc: Global,
    model: &M,
    symbols: &[usize],
) -> Result<Vec<u32>, Fault>
    ensures ok { IfOk result (λ words. (state : AnsState)
        × EncodesAll 32 64 (items_of (of_24_bits (M.table model.now)) (reverse symbols.now)) empty state
        × (map (λ word. word % 2 ^ 32) (reverse words.items) ≡ exported 32 state)) }
    ensures err { IfErr result (CoderFails (M.table model.now) symbols.now) }
{
    let mut coder = DefaultAnsCoder::new(alloc);
    let mut left = symbols.len();
    while left > 0 {
        left -= 1;
        match coder.encode_symbol(&symbols[left], model) {
            Ok(()) => {}
            Err(CoderError::Frontend(error)) => return Err(Fault::Encoder(error)),
            Err(CoderError::Backend(_)) => return Err(Fault::OutOfMemory),
        }
    }
    Ok(coder.into_compressed()?)
}

/// Encodes the symbols in the input `text`, and returns the words as a line of numbers.
///
/// Line 1 of the input has the weights, and line 2 has the symbols.
///
/// # Errors
///
/// Returns the faults of [`table_and_symbols`], and these faults:
///
/// - `Encoder` if a symbol's weight is 0, or if there is no weight for a symbol.
/// - `OutOfMemory` if there is no memory.
pub fn answer(alloc: Global, text: &[u8]) -> Result<Vec<u8>, Fault>
    ensures ok { IfOk result (λ answer. IsAnsEncoded text.now answer.items) }
    ensures err { IfErr result (EncodeFails text.now) }
{
    let (table, symbols) = table_and_symbols(alloc, text)?;
    let words = encode(alloc, &table, symbols.as_slice())?;
    Ok(line_of_words(alloc, words.as_slice())?)
}
