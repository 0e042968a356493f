//! An application of a law of Huffman trees: the codewords of two equal weights.

ghost use Rattle.constriction.specs.symbol.Huffman.{Leaf, Node, huffman, merge};
ghost use Rattle.std.specs.Prelude.{Bool, List, Some, [], false, ◌∷◌, ◌≡◌, ℕ};

use constriction::laws::symbol::huffman::huffman_is_prefix_free;

/// The Huffman tree of the weights 1 and 1 has two leaves. Only symbol 0 has a codeword that begins with the bit 0.
pub fn tree_of_two_weights()
    ensures tree { merge (1 ∷ 1 ∷ []) ≡ Node (Leaf 0) (Leaf 1) ∷ [] }
    ensures alone { (symbol : ℕ) (tail : List Bool) → huffman (1 ∷ 1 ∷ []) symbol ≡ Some (false ∷ tail) → 0 ≡ symbol }
{
    huffman_is_prefix_free()
}
