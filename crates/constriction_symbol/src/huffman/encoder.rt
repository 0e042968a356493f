//! `EncoderHuffmanTree`: a Huffman tree that encodes a symbol by climbing from the symbol's leaf to the root.

ghost use Rattle.constriction_symbol.specs.Huffman.{leaves, path};
ghost use Rattle.constriction_symbol.specs.HuffmanLaws.{path_prefix_free, same_path};
ghost use Rattle.constriction_symbol.specs.Merging.{MakeNoTree, MakesTree};
ghost use Rattle.constriction_symbol.specs.Merging.{MakesGiven, MakesLent, RefusesGiven, RefusesLent};
ghost use Rattle.constriction_symbol.specs.Reversed.{IsLongerThan};
ghost use Rattle.std.specs.Iterator.{IsFiniteIterable};
ghost use Rattle.std.specs.Prelude.{IfErr, IfOk, length, ◌*◌, ◌-◌, ◌^◌, ◌≡◌};

use crate::codebooks::{Codebook, EncoderCodebook};
use crate::huffman::codewords::{below_one, codewords_of};
use crate::huffman::collecting::{collect_given, collect_lent};
use crate::huffman::error::HuffmanError;
use crate::huffman::merging::merge_pairs;
use crate::huffman::parents::{climb, parents_of};
use crate::reversed::{SuffixCodebook, reverse_codeword};
use constriction_base::errors::{CoderError, DefaultEncoderError, DefaultEncoderFrontendError};
use constriction_stream::encoding::Lent;
use constriction_words::BitArray;
use std::alloc::{AllocError, Global};
use std::convert::Infallible;
use std::marker::Model;

/// A Huffman tree for encoding, with a codeword for each symbol from 0 to `num_symbols() - 1`.
///
/// The cost of a codebook is a sum over all symbols: the symbol's weight times the length of the symbol's codeword. No
/// prefix-free codebook for the same weights costs less than this tree.
///
/// Contracts describe an `EncoderHuffmanTree` by a tree whose leaves are the symbols. The codeword of a symbol is the
/// path from the root to the symbol's leaf.
///
/// # Examples
///
/// ```
/// let tree = EncoderHuffmanTree::from_probabilities(alloc, [2u32, 2, 4, 1, 1].iter())?;
/// encoder.encode_symbol(&2, &tree)?; // 11
/// encoder.encode_symbol(&3, &tree)?; // 100
/// ```
#[derive(Debug, Clone, Drop)]
pub struct EncoderHuffmanTree {
    /// For each node, twice its parent's index, plus 1 if the node is the child at bit 1. The root has the number 0.
    ///
    /// The nodes of the symbols come first, and the root is last.
    nodes: Vec<usize>,
    /// The codeword of each node, stored as one number: a leading 1 followed by the codeword's bits.
    ///
    /// The number is 0 if the codeword has `usize::BITS` bits or more.
    codewords: Vec<usize>,
    /// The allocator for the prefix form of codewords of more than `2 * usize::BITS` bits.
    alloc: Global,
}

impl Model for EncoderHuffmanTree {
    ghost use Rattle.constriction_symbol.specs.EncoderTree.{ClimbsTree, HasCodewords, tree_of_parents};
    ghost use Rattle.constriction_symbol.specs.Huffman.{Tree};
    ghost use Rattle.constriction_symbol.specs.TreeCode.{tree_code};

    ghost Value = { Tree };

    ghost coded = { tree_code };

    ghost view = { λ t. tree_of_parents t.nodes.items };

    ghost invariant = { λ t. ClimbsTree t.nodes.items (tree_of_parents t.nodes.items)
        × HasCodewords t.nodes.items t.codewords.items };
}

/// Builds the Huffman tree of `weights`. The symbols are the indices of the weights.
///
/// # Errors
///
/// - `TooManySymbols` if there are more than `usize::MAX / 4` weights.
/// - The other errors of [`merge_pairs`].
/// - `Memory` if there is no memory for the tree.
fn tree_of<P: BitArray, E>(
    alloc: Global,
    weights: &[P],
) -> Result<EncoderHuffmanTree, HuffmanError<E>>
    ensures ok { IfOk result (λ tree. MakesTree P.number P.BITS (2 ^ 62 - 1) weights.now tree) }
    ensures err { IfErr result (λ e. MakeNoTree P.number P.BITS (2 ^ 62 - 1) weights.now e) }
{
    let pairs = merge_pairs(alloc, weights, usize::MAX / 4)?;
    let nodes = match parents_of(alloc, &pairs) {
        Ok(nodes) => nodes,
        Err(_) => return Err(HuffmanError::Memory),
    };
    match codewords_of(alloc, &nodes) {
        Ok(codewords) => Ok(EncoderHuffmanTree {
            nodes,
            codewords,
            alloc,
        }),
        Err(_) => Err(HuffmanError::Memory),
    }
}

impl EncoderHuffmanTree {
    /// Builds a tree with one symbol for each weight, in memory from `alloc`.
    ///
    /// Each item of `probabilities` is a reference to a weight, or another value that lends one ([`Lent`]).
    ///
    /// At first each symbol is a tree of its own, and the symbol is the tree's index. Each merge joins the two trees of
    /// least weight, until one tree is left. The tree that a merge creates gets the next free index. Of two trees with
    /// equal weights, the tree with the lower index is the lesser. Of the two trees that a merge joins, the lesser gets
    /// bit 0.
    ///
    /// # Errors
    ///
    /// The call checks for errors in this order:
    ///
    /// - `Memory` if there is no memory to collect the weights.
    /// - `Empty` if there is no weight.
    /// - `TooManySymbols` if there are more than `usize::MAX / 4` weights.
    /// - `WeightOverflow` if the sum of all weights doesn't fit their type.
    /// - `Memory` if there is no memory for the tree.
    ///
    /// # Examples
    ///
    /// ```
    /// let tree = EncoderHuffmanTree::from_probabilities(alloc, [2u32, 2, 4, 1, 1].iter())?;
    /// tree.num_symbols(); // 5
    /// ```
    pub fn from_probabilities<P, L, I>(
        alloc: Global,
        probabilities: I,
    ) -> Result<Self, HuffmanError<Infallible>>
    where
        P: BitArray,
        L: Lent<P> + Drop,
        I: IntoIterator<Item = L>,
        I::IntoIter: Drop,
        requires { IsFiniteIterable I.into_iter_gives I.IntoIter.can_next I.IntoIter.remaining probabilities }
        ensures ok { IfOk result (λ tree. MakesLent (I.into_iter_gives probabilities) I.IntoIter.next_gives L.lent
            P.number P.BITS (2 ^ 62 - 1) tree) }
        ensures err { IfErr result (λ e. RefusesLent (I.into_iter_gives probabilities) I.IntoIter.next_gives L.lent
            P.number P.BITS (2 ^ 62 - 1) e) }
    {
        match collect_lent(alloc, probabilities) {
            Ok(weights) => tree_of(alloc, &weights),
            Err(_) => Err(HuffmanError::Memory),
        }
    }

    /// Builds a tree from an iterator of `Result`s of weights.
    ///
    /// # Errors
    ///
    /// The call first collects the weights. It stops at the first item that it can't collect:
    ///
    /// - `Iterator(error)` if the item is `Err(error)`.
    /// - `Memory` if there is no memory for the item's weight.
    ///
    /// If the call collects all weights, the remaining errors are those of [`EncoderHuffmanTree::from_probabilities`],
    /// in the same order.
    ///
    /// # Examples
    ///
    /// ```
    /// let weights = [Ok(2u8), Ok(1), Err("no weight")];
    /// EncoderHuffmanTree::try_from_probabilities(alloc, weights); // Err(HuffmanError::Iterator("no weight"))
    /// ```
    pub fn try_from_probabilities<P, E, I>(
        alloc: Global,
        probabilities: I,
    ) -> Result<Self, HuffmanError<E>>
    where
        P: BitArray,
        I: IntoIterator<Item = Result<P, E>>,
        I::IntoIter: Drop,
        requires { IsFiniteIterable I.into_iter_gives I.IntoIter.can_next I.IntoIter.remaining probabilities }
        ensures ok { IfOk result (λ tree. MakesGiven (I.into_iter_gives probabilities) I.IntoIter.next_gives
            P.number P.BITS (2 ^ 62 - 1) tree) }
        ensures err { IfErr result (λ e. RefusesGiven (I.into_iter_gives probabilities) I.IntoIter.next_gives
            P.number P.BITS (2 ^ 62 - 1) e) }
    {
        match collect_given(alloc, probabilities) {
            Ok(given) => tree_of(alloc, &given),
            Err(error) => Err(error),
        }
    }

    /// Returns the number of symbols.
    pub fn num_symbols(&self) -> usize
        ensures value { result ≡ length (leaves self.now) }
    {
        self.nodes.len() / 2 + 1
    }
}

impl Codebook for EncoderHuffmanTree {
    type Symbol = usize;

    ghost codeword = { λ t symbol. path t symbol };

    ghost is_same = { λ _ s u. s ≡ u };

    ghost same_law = { λ t s u same. same_path t s u same };

    ghost prefix_law = { λ t s u bits tail first second. path_prefix_free t s u bits tail first second };
}

impl SuffixCodebook for EncoderHuffmanTree {
    /// Emits the codeword from the last bit to the first, climbing from the symbol to the root.
    ///
    /// The call needs no memory.
    #[inline]
    fn emit_suffix<E, F: FnMut(bool) -> Result<(), E>>(
        &self,
        symbol: &usize,
        emit: &mut F,
    ) -> Result<(), DefaultEncoderError<E>> {
        if *symbol > self.nodes.len() / 2 {
            return Err(CoderError::Frontend(DefaultEncoderFrontendError::ImpossibleSymbol));
        }
        climb(&self.nodes, *symbol, emit)
    }
}

impl EncoderCodebook for EncoderHuffmanTree {
    ghost prefix_wants = { λ t symbol. IsLongerThan (2 * 64) (path t symbol) };

    ghost suffix_wants = { λ _ _. ⊥ };

    /// Emits the codeword from the first bit to the last.
    ///
    /// The climb from the symbol to the root finds the bits from the last to the first, so the call reverses them.
    /// Reversing more than `2 * usize::BITS` bits needs memory.
    #[inline]
    fn encode_symbol_prefix<E: From<AllocError>, F: FnMut(bool) -> Result<(), E>>(
        &self,
        symbol: &usize,
        emit: &mut F,
    ) -> Result<(), DefaultEncoderError<E>> {
        reverse_codeword(self.alloc, self, symbol, emit)
    }

    /// Emits the codeword from the last bit to the first. The call needs no memory.
    #[inline]
    fn encode_symbol_suffix<E: From<AllocError>, F: FnMut(bool) -> Result<(), E>>(
        &self,
        symbol: &usize,
        emit: &mut F,
    ) -> Result<(), DefaultEncoderError<E>> {
        self.emit_suffix(symbol, emit)
    }

    /// Returns the whole codeword of the symbol in one word, and the codeword's length in bits.
    ///
    /// Returns `None` if the symbol has no codeword. Also returns `None` if the codeword is empty, or has at least
    /// `Word::BITS` or `usize::BITS` bits.
    #[inline]
    fn codeword_at_once<Word: BitArray>(&self, symbol: &usize) -> Option<(Word, u32)> {
        if *symbol > self.nodes.len() / 2 {
            return None;
        }
        below_one(self.codewords[*symbol])
    }
}
