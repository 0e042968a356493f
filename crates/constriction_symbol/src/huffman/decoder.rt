//! `DecoderHuffmanTree`: a Huffman tree that decodes a symbol by walking from the root to the symbol's leaf.

ghost use Rattle.constriction_symbol.specs.Codewords.{BeginsTopBits, YieldsBits, StopsWithin, UnlessBitsEnd};
ghost use Rattle.constriction_symbol.specs.Bits.{top_bits};
ghost use Rattle.constriction_symbol.specs.DecoderTree.{HoldsTree, LeadsTo, tree_of_pairs};
ghost use Rattle.constriction_symbol.specs.Huffman.{ReadsOnIn, leaves, path};
ghost use Rattle.constriction_symbol.specs.HuffmanLaws.{inner_begins_none, path_prefix_free, same_path};
ghost use Rattle.constriction_symbol.specs.Merging.{MakeNoTree, MakesTree};
ghost use Rattle.constriction_symbol.specs.Merging.{MakesGiven, MakesLent, RefusesGiven, RefusesLent};
ghost use Rattle.std.specs.Iterator.{IsFinite, IsFiniteIterable};
ghost use Rattle.std.specs.Prelude.{Bool, IfErr, IfOk, IfSome, List, Some, length, ◌-◌, ◌<◌, ◌^◌, ◌≡◌, ◌≤◌};

use crate::codebooks::{Codebook, DecoderCodebook};
use crate::huffman::collecting::{collect_given, collect_lent};
use crate::huffman::error::HuffmanError;
use crate::huffman::first_bits::{ReachedNode, place_of, places_of};
use crate::huffman::merging::merge_pairs;
use crate::taking::{Refusal, next_bit};
use crate::top_bits::TopBits;
use constriction_stream::encoding::Lent;
use constriction_words::BitArray;
use std::alloc::{AllocError, Global};
use std::convert::Infallible;
use std::marker::Model;

/// A Huffman tree for decoding, with a codeword for each symbol from 0 to `num_symbols() - 1`.
///
/// The cost of a codebook is a sum over all symbols: the symbol's weight times the length of the symbol's codeword. No
/// prefix-free codebook for the same weights costs less than this tree.
///
/// Contracts describe a `DecoderHuffmanTree` by a tree whose leaves are the symbols. The codeword of a symbol is the
/// path from the root to the symbol's leaf.
///
/// # Examples
///
/// ```
/// // the codewords of 0, 1, 2, 3, 4 are 00, 01, 11, 100, 101
/// let tree = DecoderHuffmanTree::from_probabilities(alloc, [2u32, 2, 4, 1, 1].iter())?;
/// let symbol = decoder.decode_symbol(&tree)?;
/// ```
#[derive(Debug, Drop)]
pub struct DecoderHuffmanTree {
    /// The two children of each inner node, with the root last. A tree with one symbol has no inner node.
    ///
    /// A child is a symbol, or the number of symbols plus the index of an inner node in this list.
    nodes: Vec<[usize; 2]>,
    /// The decoding table: entry `1xyz` (binary) is the [`ReachedNode`] that the bits `x`, `y`, `z` lead to.
    places: Vec<ReachedNode>,
    /// The number of bits that one look-up in `places` reads.
    most: u32,
}

impl Model for DecoderHuffmanTree {
    ghost use Rattle.constriction_symbol.specs.DecoderTree.{LeadToNodes, HoldsTree, tree_of_pairs};
    ghost use Rattle.constriction_symbol.specs.Huffman.{Tree};
    ghost use Rattle.constriction_symbol.specs.TreeCode.{tree_code};
    ghost use Rattle.std.specs.Prelude.{length, ◌+◌, ◌<◌, ◌^◌, ◌≡◌, ◌≤◌};

    ghost Value = { Tree };

    ghost coded = { tree_code };

    ghost view = { λ t. tree_of_pairs t.nodes.items };

    ghost invariant = { λ t. HoldsTree t.nodes.items (tree_of_pairs t.nodes.items)
        × LeadToNodes t.nodes.items t.places.items × (0 < t.most) × (t.most ≤ 9)
        × (length t.places.items ≡ 2 ^ (t.most + 1)) };
}

impl Clone for DecoderHuffmanTree {
    ghost is_clone = { λ old new. new ≡ old };

    ghost is_infallible = { λ _. ⊥ };

    /// Returns a copy of the tree.
    ///
    /// The clone isn't derived, because a derived clone would have to prove the tree's invariant from the clones of the
    /// fields alone.
    ///
    /// # Errors
    ///
    /// Returns `AllocError` if there is no memory for the tree.
    fn clone(&self) -> Result<Self, AllocError> {
        let nodes = self.nodes.clone()?;
        let places = self.places.clone()?;
        Ok(DecoderHuffmanTree {
            nodes,
            places,
            most: self.most,
        })
    }
}

/// Builds the Huffman tree of `weights`. The symbols are the indices of the weights.
///
/// # Errors
///
/// - `TooManySymbols` if there are more than `usize::MAX / 2` weights.
/// - The other errors of [`merge_pairs`].
/// - `Memory` if there is no memory for the tree.
fn tree_of<P: BitArray, E>(
    alloc: Global,
    weights: &[P],
) -> Result<DecoderHuffmanTree, HuffmanError<E>>
    ensures ok { IfOk result (λ tree. MakesTree P.number P.BITS (2 ^ 63 - 1) weights.now tree) }
    ensures err { IfErr result (λ e. MakeNoTree P.number P.BITS (2 ^ 63 - 1) weights.now e) }
{
    let nodes = merge_pairs(alloc, weights, usize::MAX / 2)?;
    let (places, most) = places_of(alloc, &nodes)?;
    Ok(DecoderHuffmanTree {
        nodes,
        places,
        most,
    })
}

impl DecoderHuffmanTree {
    /// Builds a tree with one symbol for each weight, in memory from `alloc`.
    ///
    /// Each item of `probabilities` is a reference to a weight, or another value that lends one ([`Lent`]).
    ///
    /// At first each symbol is a tree of its own, and the symbol is the tree's index. Each merge joins the two trees of
    /// least weight, until one tree is left. The tree that a merge creates gets the next free index. Of two trees with
    /// equal weights, the tree with the lower index is the lesser. Of the two trees that a merge joins, the lesser gets
    /// bit 0.
    ///
    /// # Errors
    ///
    /// The call checks for errors in this order:
    ///
    /// - `Memory` if there is no memory to collect the weights.
    /// - `Empty` if there is no weight.
    /// - `TooManySymbols` if there are more than `usize::MAX / 2` weights.
    /// - `WeightOverflow` if the sum of all weights doesn't fit their type.
    /// - `Memory` if there is no memory for the tree.
    ///
    /// # Examples
    ///
    /// ```
    /// let tree = DecoderHuffmanTree::from_probabilities(alloc, [2u32, 2, 4, 1, 1].iter())?;
    /// tree.num_symbols(); // 5
    /// ```
    pub fn from_probabilities<P, L, I>(
        alloc: Global,
        probabilities: I,
    ) -> Result<Self, HuffmanError<Infallible>>
    where
        P: BitArray,
        L: Lent<P> + Drop,
        I: IntoIterator<Item = L>,
        I::IntoIter: Drop,
        requires { IsFiniteIterable I.into_iter_gives I.IntoIter.can_next I.IntoIter.remaining probabilities }
        ensures ok { IfOk result (λ tree. MakesLent (I.into_iter_gives probabilities) I.IntoIter.next_gives L.lent
            P.number P.BITS (2 ^ 63 - 1) tree) }
        ensures err { IfErr result (λ e. RefusesLent (I.into_iter_gives probabilities) I.IntoIter.next_gives L.lent
            P.number P.BITS (2 ^ 63 - 1) e) }
    {
        match collect_lent(alloc, probabilities) {
            Ok(weights) => tree_of(alloc, &weights),
            Err(_) => Err(HuffmanError::Memory),
        }
    }

    /// Builds a tree from an iterator of `Result`s of weights.
    ///
    /// # Errors
    ///
    /// The call first collects the weights. It stops at the first item that it can't collect:
    ///
    /// - `Iterator(error)` if the item is `Err(error)`.
    /// - `Memory` if there is no memory for the item's weight.
    ///
    /// If the call collects all weights, the remaining errors are those of [`DecoderHuffmanTree::from_probabilities`],
    /// in the same order.
    ///
    /// # Examples
    ///
    /// ```
    /// let weights = [Ok(2u8), Ok(1), Err("no weight")];
    /// DecoderHuffmanTree::try_from_probabilities(alloc, weights); // Err(HuffmanError::Iterator("no weight"))
    /// ```
    pub fn try_from_probabilities<P, E, I>(
        alloc: Global,
        probabilities: I,
    ) -> Result<Self, HuffmanError<E>>
    where
        P: BitArray,
        I: IntoIterator<Item = Result<P, E>>,
        I::IntoIter: Drop,
        requires { IsFiniteIterable I.into_iter_gives I.IntoIter.can_next I.IntoIter.remaining probabilities }
        ensures ok { IfOk result (λ tree. MakesGiven (I.into_iter_gives probabilities) I.IntoIter.next_gives
            P.number P.BITS (2 ^ 63 - 1) tree) }
        ensures err { IfErr result (λ e. RefusesGiven (I.into_iter_gives probabilities) I.IntoIter.next_gives
            P.number P.BITS (2 ^ 63 - 1) e) }
    {
        match collect_given(alloc, probabilities) {
            Ok(given) => tree_of(alloc, &given),
            Err(error) => Err(error),
        }
    }

    /// Returns the number of symbols.
    pub fn num_symbols(&self) -> usize
        ensures value { result ≡ length (leaves self.now) }
    {
        self.nodes.len() + 1
    }
}

impl Codebook for DecoderHuffmanTree {
    type Symbol = usize;

    ghost codeword = { λ t symbol. path t symbol };

    ghost is_same = { λ _ s u. s ≡ u };

    ghost same_law = { λ t s u same. same_path t s u same };

    ghost prefix_law = { λ t s u bits tail first second. path_prefix_free t s u bits tail first second };
}

impl DecoderCodebook for DecoderHuffmanTree {
    type InvalidCodeword = Infallible;

    ghost reads_on = { λ t bits. ReadsOnIn t bits };

    ghost is_invalid = { λ _ _ _. ⊥ };

    ghost on_law = { λ t bits on. inner_begins_none t bits on };

    ghost invalid_law = { λ t bits e never. absurd never };

    /// Reads the bits of a codeword, and returns the codeword's symbol. The call needs no memory.
    ///
    /// # Errors
    ///
    /// After an error other than `Frontend(OutOfCompressedData)`, the source continues after the last bit read.
    ///
    /// - `Frontend(OutOfCompressedData)` if the bits end before the codeword is complete.
    /// - `Backend(error)` if the source returns this error in place of a bit.
    #[inline]
    fn decode_symbol<E, I: Iterator<Item = Result<bool, E>>>(
        &self,
        source: &mut I,
    ) -> Result<usize, Refusal<Infallible, E>> {
        walk(&self.nodes, source)
    }

    /// Looks up the codeword that the `count` highest bits of `bits` begin with.
    ///
    /// Returns the codeword's symbol, and the codeword's length in bits. Returns `None` if the codeword is empty, or
    /// has `count` bits or more.
    #[inline]
    fn symbol_at_once<Word: BitArray>(&self, bits: Word, count: u32) -> Option<(usize, u32)> {
        let place = place_of(&self.places, self.most, bits);
        if place.taken == 0 || place.taken >= count {
            return None;
        }
        if place.index <= self.nodes.len() {
            return Some((place.index, place.taken));
        }
        walk_on(&self.nodes, bits, count, place)
    }
}

/// Walks from the root of a tree to a symbol, and returns the symbol.
///
/// The walk reads one bit from `source` at each inner node. If a read fails, the call returns the error of
/// [`next_bit`].
#[inline]
fn walk<V, E, I: Iterator<Item = Result<bool, E>>>(
    nodes: &[[usize; 2]],
    source: &mut I,
) -> Result<usize, Refusal<V, E>>
    requires can { I.can_next source.old }
    requires tree { HoldsTree nodes.now (tree_of_pairs nodes.now) }
    ensures can { UnlessBitsEnd result (I.can_next source.new) }
    ensures finite { IsFinite (I.remaining source.old) → UnlessBitsEnd result (IsFinite (I.remaining source.new)) }
    ensures bits { IfOk result (λ symbol. (bits : List Bool) × (path (tree_of_pairs nodes.now) symbol ≡ Some bits)
        × YieldsBits I.next_gives source.old bits source.new) }
    ensures stops { IfErr result (λ e.
        StopsWithin I.next_gives (ReadsOnIn (tree_of_pairs nodes.now)) source.old e source.new) }
{
    let symbols = nodes.len() + 1;
    let mut index = 2 * nodes.len();
    while index >= symbols {
        match next_bit(source) {
            Err(error) => return Err(error),
            Ok(bit) => index = nodes[index - symbols][bit as usize],
        }
    }
    Ok(index)
}

/// Walks from `place` to a symbol along the bits of `bits` after the highest `place.taken` bits.
///
/// Returns the symbol, and the whole codeword's length in bits. Returns `None` if the codeword has `count` bits or
/// more. The caller proves that the highest `place.taken` bits of `bits` lead from the root to `place`.
#[inline]
fn walk_on<Word: BitArray>(
    nodes: &[[usize; 2]],
    bits: Word,
    count: u32,
    place: ReachedNode,
) -> Option<(usize, u32)>
    requires tree { HoldsTree nodes.now (tree_of_pairs nodes.now) }
    requires within { count ≤ Word.BITS }
    requires some { 0 < place.taken }
    requires part { place.taken < count }
    requires place { LeadsTo nodes.now (top_bits Word.BITS place.taken (Word.number bits)) place.index }
    ensures { IfSome result (λ found.
        BeginsTopBits Word.BITS count (Word.number bits) (path (tree_of_pairs nodes.now) found.0) found.1) }
{
    let symbols = nodes.len() + 1;
    let mut index = place.index;
    let mut rest = TopBits::all(bits);
    rest.drop_last(place.taken);
    while symbols <= index {
        if rest.room() >= count - 1 {
            return None;
        }
        index = nodes[index - symbols][rest.pop() as usize];
    }
    Some((index, rest.room()))
}
