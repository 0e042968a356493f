//! Laws of Huffman trees: weights lead to one tree, and its codewords are prefix-free and have the least cost.

ghost use Rattle.constriction_laws.specs.symbol.Cost.{AreCodewordsOf, AreLawful, IsLeastCost, IsPrefixFree};
ghost use Rattle.constriction_laws.specs.symbol.Cost.{WithCodewords, cost};
ghost use Rattle.constriction_symbol.specs.Huffman.{Book, IsHuffman, Tree, huffman, merge};
ghost use Rattle.std.specs.Prelude.{Bool, List, None, Option, Some, [], ◌∷◌, ◌<◌, ◌≡◌, ◌≤◌, length, ℕ};

/// A nonempty list of weights leads to exactly one Huffman tree.
///
/// Each weight begins as a tree of one leaf. The two trees of least weight are merged until one tree is left.
pub fn one_tree()
    ensures { (weights : List ℕ) → 0 < length weights → (tree : Tree) × (merge weights ≡ tree ∷ []) }
{}

/// No codeword of a Huffman tree is a prefix of another.
pub fn huffman_is_prefix_free()
    ensures { (weights : List ℕ) → IsPrefixFree (huffman weights) }
{}

/// In a Huffman tree of `n` weights, a number has a codeword if and only if it is below `n`.
pub fn huffman_knows_its_symbols()
    ensures known { (weights : List ℕ) (s : ℕ) → s < length weights →
        (bits : List Bool) × (huffman weights s ≡ Some bits) }
    ensures impossible { (weights : List ℕ) (s : ℕ) → length weights ≤ s → huffman weights s ≡ None }
{}

/// The codewords of a Huffman tree cost at most as much as any prefix-free codewords for the same weights.
///
/// The cost is the sum of each weight times the length of its codeword in bits. The clause `codewords` compares the
/// tree with any prefix-free list of codewords. The clause `codebook` compares the tree with the codewords of any
/// prefix-free codebook. The clause `tree` compares any codebook that has the codewords of the tree (`IsHuffman`) with
/// any prefix-free list of codewords.
pub fn least_cost()
    ensures codewords { (weights : List ℕ) (codewords others : List (List Bool)) → IsLeastCost weights (huffman weights)
        codewords others }
    ensures codebook { (weights : List ℕ) (codewords others : List (List Bool)) (codeword : ℕ → Option (List Bool)) →
        WithCodewords weights (huffman weights) codewords (WithCodewords weights codeword others (IsPrefixFree codeword
        → cost weights codewords ≤ cost weights others)) }
    ensures tree { (weights : List ℕ) (book : Book) (codewords others : List (List Bool)) → IsHuffman weights book →
        IsLeastCost weights book.codeword codewords others }
{}

/// The Huffman tree of weights has prefix-free codewords, one for each weight.
pub fn huffman_has_codewords()
    ensures { (weights : List ℕ) →
        (codewords : List (List Bool)) × (length codewords ≡ length weights)
        × AreCodewordsOf (huffman weights) codewords × AreLawful codewords }
{}
