//! [`Tree`]: selects a Huffman codebook, built from the caller's weights.

ghost use Rattle.std.specs.Prelude.{◌↔◌, ◌<◌, All, IsTrue, map};
ghost use Rattle.constriction_calls.specs.SymbolCalls.{MakesCode, OfWeights};

use crate::symbol::Codes;
use constriction_inputs::refusal::Refusal;
use constriction_symbol::huffman::{DecoderHuffmanTree, EncoderHuffmanTree, total_fits};
use constriction_words::BitArray;
use std::alloc::Global;
use std::convert::Infallible;

/// Selects the codebook of the Huffman tree of `weights`. Symbol `i` has the weight `weights[i]`.
///
/// # Examples
///
/// ```
/// let weights = [2u32, 2, 4, 1, 1];
/// let tree = Tree { weights: &weights };
/// encode_queue(alloc, &tree, &[2, 3], &mut words, &mut len)?; // the bits 11, 100 in one word: words[0] is 7
/// ```
#[derive(Clone, Copy, Drop)]
pub struct Tree<'a, P> {
    pub weights: &'a [P],
}

impl<'a, P: BitArray> Codes for Tree<'a, P> {
    type Symbol = usize;

    type Encoder = EncoderHuffmanTree;

    type Decoder = DecoderHuffmanTree;

    type Wrong = Infallible;

    ghost book = { λ given. OfWeights P.BITS (map P.number given.weights.now) };

    ghost number = { λ symbol. symbol };

    fn encoder(&self, alloc: Global) -> Option<EncoderHuffmanTree> {
        match EncoderHuffmanTree::from_probabilities(alloc, self.weights) {
            Ok(tree) => Some(tree),
            Err(_) => None,
        }
    }

    #[cold]
    fn encode_refusal(&self, symbols: &[usize]) -> Refusal {
        if !make_tree(self.weights, usize::MAX / 4) {
            Refusal::WrongWeights
        } else if are_below(symbols, self.weights.len()) {
            Refusal::NoMemory
        } else {
            Refusal::ImpossibleSymbol
        }
    }

    fn decoder(&self, alloc: Global) -> Result<DecoderHuffmanTree, Refusal> {
        if let Ok(tree) = DecoderHuffmanTree::from_probabilities(alloc, self.weights) {
            return Ok(tree);
        }
        if make_tree(self.weights, usize::MAX / 2) {
            Err(Refusal::NoMemory)
        } else {
            Err(Refusal::WrongWeights)
        }
    }
}

/// Returns whether the weights make a Huffman tree: there are 1 to `most` weights, and their sum fits `P`.
fn make_tree<P: BitArray>(weights: &[P], most: usize) -> bool
    ensures { IsTrue result ↔ MakesCode most (OfWeights P.BITS (map P.number weights.now)) }
{
    !weights.is_empty() && weights.len() <= most && total_fits(weights)
}

/// Returns whether all symbols are below `bound`.
fn are_below(symbols: &[usize], bound: usize) -> bool
    ensures { IsTrue result ↔ All (λ s. s < bound) symbols.now }
{
    for symbol in symbols {
        if *symbol >= bound {
            return false;
        }
    }
    true
}
