//! Equality of coders: the bits outside the backends are equal, and the backends are equal.

use crate::coder::SymbolCoder;
use constriction_base::backends::{Holds, Semantics, Stack};
use constriction_words::BitArray;

impl<Word: BitArray, S: Semantics, B: Holds<Word, Stack> + PartialEq> PartialEq
    for SymbolCoder<Word, S, B> {
    ghost use Rattle.std.specs.Bool.{beq};
    ghost use Rattle.std.specs.Cmp.{and_per, bool_eq_equiv, on_per, partial_equiv_from_equiv};
    ghost use Rattle.std.specs.Cmp.Lexicographic.{lists_per, pointwise};
    ghost use Rattle.std.specs.Ordering.{eq_of_both, on};

    ghost eq = { eq_of_both (on (λ c. c.last) (pointwise beq)) (on (λ c. c.backend) B.eq) };

    ghost laws = { and_per (on_per (λ c. c.last) (lists_per (partial_equiv_from_equiv bool_eq_equiv)))
        (on_per (λ c. c.backend) B.laws) };

    /// Returns whether the coders have equal backends and equal bits outside their backends.
    fn eq(&self, other: &Self) -> bool {
        self.last == other.last && self.backend == other.backend
    }
}

impl<Word: BitArray, S: Semantics, B: Holds<Word, Stack> + Eq> Eq for SymbolCoder<Word, S, B> {
    ghost use Rattle.std.specs.Cmp.{and_equiv, bool_eq_equiv, on_equiv};
    ghost use Rattle.std.specs.Cmp.Lexicographic.{lists_equiv};

    ghost laws = { and_equiv (on_equiv (λ c. c.last) (lists_equiv bool_eq_equiv))
        (on_equiv (λ c. c.backend) B.Eq.laws) };
}
