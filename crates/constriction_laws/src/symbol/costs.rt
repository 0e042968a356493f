//! The cost of a Huffman tree that a call builds, compared with the costs of other codebooks.
//!
//! The cost of codewords, one for each weight, is the sum of each weight times the length of its codeword in bits.
//! [`least_cost`](crate::symbol::huffman::least_cost) is about the tree that contracts define. The function here is
//! about the tree that `EncoderHuffmanTree::from_probabilities` builds.

ghost use Rattle.constriction_laws.specs.symbol.Cost.{CostsFromZero, IsNoDearer};
ghost use Rattle.constriction_laws.specs.symbol.Refusals.{HaveNoTree};
ghost use Rattle.constriction_symbol.specs.Merging.{MakesTree};
ghost use Rattle.std.specs.Prelude.{IfErr, IfOk, ◌-◌, ◌^◌, ℕ};

use constriction_symbol::codebooks::Codebook;
use constriction_symbol::huffman::{EncoderHuffmanTree, HuffmanError};
use constriction_symbol::writing::WriteBitStream;
use constriction_words::BitArray;
use std::alloc::Global;
use std::convert::Infallible;

/// Builds a Huffman tree of `weights` for an encoder. No codebook of type `C` costs less with these weights.
///
/// The cost of a codebook is a sum over all weights: each weight times the length of its symbol's codeword in bits. The
/// tree has the symbols `0`, `1` and so on, one for each weight. The contract compares the tree with any codebook of
/// type `C`. The weights may belong to any symbols with codewords in that codebook. No two of these symbols mean the
/// same (`is_same`).
///
/// # Errors
///
/// - `Memory`: there is no memory for the weights or the tree.
/// - `Empty`: there is no weight.
/// - `TooManySymbols`: there are more than `usize::MAX / 4` weights.
/// - `WeightOverflow`: the sum of all weights doesn't fit their type.
///
/// # Examples
///
/// ```
/// let tree = tree_of_least_cost::<u32, ExpGolomb<u16>>(alloc, &[2, 2, 4, 1, 1])?;
/// ```
pub fn tree_of_least_cost<P: BitArray, C: Codebook>(
    alloc: Global,
    weights: &[P],
) -> Result<EncoderHuffmanTree, HuffmanError<Infallible>>
    ensures ok { IfOk result (λ tree. MakesTree P.number P.BITS (2 ^ 62 - 1) weights.now tree) }
    ensures known { IfOk result (λ tree. (cost : ℕ) ×
        CostsFromZero P.number (⟦<EncoderHuffmanTree as Codebook>⟧.codeword tree) weights.now cost) }
    ensures least { IfOk result (λ tree. (other : C) → IsNoDearer P.number (⟦<EncoderHuffmanTree as Codebook>⟧.codeword
        tree) (C.codeword other) (C.is_same other) weights.now) }
    ensures err { IfErr result (λ e. HaveNoTree P.number P.BITS (2 ^ 62 - 1) weights.now e) }
{
    EncoderHuffmanTree::from_probabilities(alloc, weights)
}
