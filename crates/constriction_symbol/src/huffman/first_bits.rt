//! The decoding table of a Huffman tree: for each value of the next bits, the node that they lead to from the root.
//!
//! With the table, a decode looks up several bits at once instead of following them node by node.
//!
//! The index of an entry is a leading 1 followed by the bits, as a binary number. Entry `n` follows from entry `n / 2`
//! and one more bit, so one loop fills the table.
//!
//! Let `b` be the length of the longest codeword if all symbols had equal weights. The table covers `b + 1` bits, but
//! at most 9. So a small tree has a small table. A look-up reads as many bits as the table covers, or all bits of the
//! word if the word has fewer bits.

ghost use Rattle.constriction_symbol.specs.DecoderTree.{LeadToNodes, HoldsTree, LeadsToNode, TopLeadsToNode};
ghost use Rattle.constriction_symbol.specs.DecoderTree.{tree_of_pairs};
ghost use Rattle.std.specs.Prelude.{Bool, IfOk, List, [], length, ◌+◌, ◌++◌, ◌<◌, ◌==◌, ◌^◌, ◌∷◌, ◌≡◌, ◌≤◌, ℕ};

use constriction_words::BitArray;
use std::alloc::{AllocError, Global};

/// The largest number of bits that a decoding table covers. A table for 9 bits takes 16 KiB.
const MOST: u32 = 9;

/// The node that a list of bits leads to from the root.
///
/// `taken` is the number of bits of the list that lead to the node. If the node is a symbol, the list may have more
/// bits. If the node is an inner node, the list has `taken` bits. `index` is the symbol, or the number of symbols plus
/// the index of the inner node.
#[derive(Debug, Clone, Copy)]
pub struct ReachedNode {
    pub index: usize,
    pub taken: u32,
}

/// Returns the number of bits that the decoding table of a tree with `nodes` inner nodes covers.
///
/// Let `b` be the length of the longest codeword if all symbols had equal weights. The call returns `b + 1`, but at
/// most `MOST`.
fn most_of(nodes: usize) -> u32
    ensures some { 0 < result }
    ensures few { result ≤ 9 }
{
    let count = nodes.bit_length() + 1;
    if count < MOST { count } else { MOST }
}

/// Returns the place that `bit` (0 or 1) leads to from `place`, or `place` itself if it holds a symbol.
///
/// `nodes` lists the two children of each inner node.
fn place_below(nodes: &[[usize; 2]], place: ReachedNode, bit: usize) -> ReachedNode
    requires tree { HoldsTree nodes.now (tree_of_pairs nodes.now) }
    requires place { (bits : List Bool) × (length bits < 32) × LeadsToNode nodes.now bits place }
    requires below { bit < 2 }
    ensures { (bits : List Bool) → LeadsToNode nodes.now bits place →
        LeadsToNode nodes.now (bits ++ (bit == 1) ∷ []) result }
{
    let symbols = nodes.len() + 1;
    if place.index < symbols {
        return place;
    }
    ReachedNode {
        index: nodes[place.index - symbols][bit],
        taken: place.taken + 1,
    }
}

/// Returns the decoding table of a tree, and the number of bits that the table covers.
///
/// `nodes` lists the two children of each inner node. The root comes last. Entry `1xyz` (binary) of the table is the
/// [`ReachedNode`] that the bits `x`, `y`, `z` lead to. If there is no memory for the table, the call returns
/// `AllocError`.
pub fn places_of(alloc: Global, nodes: &[[usize; 2]]) -> Result<(Vec<ReachedNode>, u32), AllocError>
    requires tree { HoldsTree nodes.now (tree_of_pairs nodes.now) }
    ensures some { IfOk result (λ table. 0 < table.1) }
    ensures count { IfOk result (λ table. length table.0.items ≡ 2 ^ (table.1 + 1)) }
    ensures few { IfOk result (λ table. table.1 ≤ 9) }
    ensures places { IfOk result (λ table. LeadToNodes nodes.now table.0.items) }
{
    let most = most_of(nodes.len());
    let count = 1usize << (most + 1);
    let mut places = Vec::with_capacity(alloc, count)?;
    let root = ReachedNode {
        index: 2 * nodes.len(),
        taken: 0,
    };
    places.push(root)?;
    places.push(root)?;
    for number in 2..count {
        places.push(place_below(nodes, places[number / 2], number % 2))?;
    }
    Ok((places, most))
}

/// Returns the lesser of `most` and `all`.
#[inline]
fn lesser(most: u32, all: u32) -> u32
    ensures most { result ≤ most }
    ensures within { result ≤ all }
    ensures some { 0 < most → 0 < all → 0 < result }
{
    if most < all { most } else { all }
}

/// Looks up the place in the decoder's tree that the highest bits of `bits` lead to from the root.
///
/// `places` and `most` are the decoding table and the number of bits that [`places_of`] returns. The look-up reads the
/// highest `most` bits, or all bits if `Word::BITS` is below `most`.
#[inline]
pub fn place_of<Word: BitArray>(places: &[ReachedNode], most: u32, bits: Word) -> ReachedNode
    requires some { 0 < most }
    requires few { most ≤ 9 }
    requires count { length places.now ≡ 2 ^ (most + 1) }
    ensures { (nodes : List (List ℕ)) → LeadToNodes nodes places.now →
        TopLeadsToNode nodes Word.BITS (Word.number bits) result }
{
    let count = lesser(most, Word::BITS);
    let first = bits.shift_right(Word::BITS - count).to_index();
    places[first + (1usize << count)]
}
