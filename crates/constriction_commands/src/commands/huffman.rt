//! The command `huffman`, which builds a Huffman tree from weights and outputs its codewords as binary digits.

ghost use Rattle.std.specs.Prelude.{IfErr, IfOk, OnOk, length, ◌++◌, ◌≡◌};
ghost use Rattle.constriction_symbol.specs.Huffman.{IsHuffman, book_of, leaves, path};
ghost use Rattle.constriction_commands.specs.commands.Huffman.{HuffmanFails, IsHuffmanLine, TreeFails, codeword_text};
ghost use Rattle.constriction_commands.specs.commands.Huffman.{codewords_line};

use crate::codewords::{codeword, push_digits};
use crate::fault::Fault;
use crate::input::{parse_numbers, split_line};
use constriction_symbol::huffman::{EncoderHuffmanTree, HuffmanError};
use std::alloc::{AllocError, Global};

/// Builds the Huffman tree of the symbols 0, 1, .. with the weights `weights`.
///
/// # Errors
///
/// - `NoWeights` if there is no weight.
/// - `TooManySymbols` if there are more than `2^62 - 1` weights.
/// - `WeightOverflow` if the sum of the weights has more than 64 bits.
/// - `OutOfMemory` if there is no memory for the tree.
fn make_tree(alloc: Global, weights: &[usize]) -> Result<EncoderHuffmanTree, Fault>
    ensures ok { IfOk result (λ tree. IsHuffman weights.now (book_of tree)) }
    ensures err { IfErr result (TreeFails weights.now) }
{
    match EncoderHuffmanTree::from_probabilities(alloc, weights) {
        Ok(tree) => Ok(tree),
        Err(HuffmanError::Empty) => Err(Fault::NoWeights),
        Err(HuffmanError::TooManySymbols) => Err(Fault::TooManySymbols),
        Err(HuffmanError::WeightOverflow) => Err(Fault::WeightOverflow),
        Err(HuffmanError::Iterator(never)) => match never {},
        Err(HuffmanError::Memory) => Err(Fault::OutOfMemory),
    }
}

/// Appends the codeword of `symbol` in `tree` to `line`, as binary digits, or a hyphen for the empty codeword.
///
/// If the symbol has no codeword, the call appends nothing.
fn push_codeword(
    alloc: Global,
    line: &mut Vec<u8>,
    tree: &EncoderHuffmanTree,
    symbol: usize,
) -> Result<(), AllocError>
    ensures { OnOk result (line.new.items ≡ line.old.items ++ codeword_text (path tree.now symbol)) }
{
    let Some(bits) = codeword(alloc, &symbol, tree)? else {
        return Ok(());
    };
    if bits.is_empty() {
        line.push(b'-')?;
        return Ok(());
    }
    push_digits(line, bits.as_slice())
}

/// Returns a line of the codewords of `tree` as binary digits, in the order of the symbols, separated by spaces.
fn line_of_codewords(alloc: Global, tree: &EncoderHuffmanTree) -> Result<Vec<u8>, AllocError>
    ensures { IfOk result (λ line. line.items ≡ codewords_line (length (leaves tree.now)) (path tree.now)) }
{
    let mut line = Vec::new(alloc);
    for symbol in 0..tree.num_symbols() {
        if symbol > 0 {
            line.push(b' ')?;
        }
        push_codeword(alloc, &mut line, tree, symbol)?;
    }
    line.push(b'\n')?;
    Ok(line)
}

/// Builds the Huffman tree of the weights in the input `text`, and returns a line of the tree's codewords.
///
/// Line 1 of the input has the weights of the symbols 0, 1, .. in order. The line returned has the codewords in the
/// same order, as binary digits. A hyphen stands for the empty codeword.
///
/// # Errors
///
/// - `BadNumber` if line 1 isn't a list of 64-bit numbers.
/// - `NoWeights` if there is no weight.
/// - `TooManySymbols` if there are more than `2^62 - 1` weights.
/// - `WeightOverflow` if the sum of the weights has more than 64 bits.
/// - `OutOfMemory` if there is no memory.
pub fn answer(alloc: Global, text: &[u8]) -> Result<Vec<u8>, Fault>
    ensures ok { IfOk result (λ answer. IsHuffmanLine text.now answer.items) }
    ensures err { IfErr result (HuffmanFails text.now) }
{
    let (first, _) = split_line(text);
    let weights = parse_numbers::<usize>(alloc, first)?;
    let tree = make_tree(alloc, weights.as_slice())?;
    let line = line_of_codewords(alloc, &tree)?;
    Ok(line)
}
