//! A tree that Huffman's algorithm can join, with its weight and its index.
//!
//! The algorithm compares weights as numbers of type `P`, as the Rust crate `constriction` does. `cmp` compares the
//! indices even if the weights differ. The compiled sort's main loop then has no branch that depends on a comparison.
//! `eq` compares the indices only if the weights are equal.

ghost use Rattle.std.specs.Prelude.{◌==◌};
ghost use Rattle.std.proofs.Common.{rules};
ghost use Rattle.std.specs.Cmp.{partial_order_from_own_ties};
ghost use Rattle.std.specs.Cmp.Rules.{comparing};
ghost use Rattle.std.specs.Ordering.{as_partial_cmp, eq_of_both, nat_cmp, on, then_cmp};

use constriction_words::BitArray;
use std::cmp::Ordering;

/// A tree that a merge can join. Trees are ordered by weight, and trees of equal weight by index.
#[derive(Clone, Copy)]
pub struct Weighed<P: BitArray> {
    pub weight: P,
    pub index: usize,
}

impl<P: BitArray> PartialEq for Weighed<P> {
    ghost eq = { eq_of_both (on (λ x. P.number x.weight) ◌==◌) (on (λ x. x.index) ◌==◌) };

    ghost laws = { Prim.search (comparing, rules) };

    fn eq(&self, other: &Self) -> bool {
        !self.weight.is_below(other.weight)
            && !other.weight.is_below(self.weight)
            && self.index == other.index
    }
}

impl<P: BitArray> Eq for Weighed<P> {
    ghost laws = { Prim.search (comparing, rules) };
}

impl<P: BitArray> PartialOrd for Weighed<P> {
    ghost partial_cmp = { as_partial_cmp (then_cmp (on (λ x. P.number x.weight) nat_cmp) (on (λ x. x.index) nat_cmp)) };

    ghost laws = { partial_order_from_own_ties (Prim.search (comparing, rules)) (Prim.search (comparing, rules)) };

    fn partial_cmp(&self, other: &Self) -> Option<Ordering> {
        Some(self.cmp(other))
    }
}

impl<P: BitArray> Ord for Weighed<P> {
    ghost cmp = { then_cmp (on (λ x. P.number x.weight) nat_cmp) (on (λ x. x.index) nat_cmp) };

    ghost total = { Prim.search (comparing, rules) };

    ghost matches_partial_cmp = { Prim.search (comparing, rules) };

    ghost matches_eq = { Prim.search (comparing, rules) };

    fn cmp(&self, other: &Self) -> Ordering {
        let by_index = self.index.cmp(&other.index);
        if self.weight.is_below(other.weight) {
            Ordering::Less
        } else if other.weight.is_below(self.weight) {
            Ordering::Greater
        } else {
            by_index
        }
    }
}
