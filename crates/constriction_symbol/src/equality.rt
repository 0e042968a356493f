//! Equality of two `WordBits`, and of two `TopBits`. Both types store a list of bits in one word.

ghost use Rattle.std.specs.Prelude.{IsTrue, ◌↔◌, ◌≡◌};

use crate::top_bits::TopBits;
use crate::word_bits::WordBits;
use constriction_words::BitArray;

/// Returns whether `first` and `second` are the same number.
fn is_same_word<Word: BitArray>(first: Word, second: Word) -> bool
    ensures { IsTrue result ↔ (Word.number first ≡ Word.number second) }
{
    !first.is_below(second) && !second.is_below(first)
}

impl<Word: BitArray> PartialEq for WordBits<Word> {
    ghost use Rattle.std.specs.Bool.{beq};
    ghost use Rattle.std.specs.Cmp.{bool_eq_equiv, partial_equiv_from_equiv};
    ghost use Rattle.std.specs.Cmp.Lexicographic.{lists_per, pointwise};

    ghost eq = { λ a b. pointwise beq a b };

    ghost laws = { lists_per (partial_equiv_from_equiv bool_eq_equiv) };

    /// Returns whether both lists have the same bits in the same order.
    fn eq(&self, other: &Self) -> bool {
        self.count() == other.count() && is_same_word(self.reversed_word(), other.reversed_word())
    }
}

impl<Word: BitArray> Eq for WordBits<Word> {
    ghost use Rattle.std.specs.Cmp.{bool_eq_equiv};
    ghost use Rattle.std.specs.Cmp.Lexicographic.{lists_equiv};

    ghost laws = { lists_equiv bool_eq_equiv };
}

impl<Word: BitArray> PartialEq for TopBits<Word> {
    ghost use Rattle.std.specs.Bool.{beq};
    ghost use Rattle.std.specs.Cmp.{bool_eq_equiv, partial_equiv_from_equiv};
    ghost use Rattle.std.specs.Cmp.Lexicographic.{lists_per, pointwise};

    ghost eq = { λ a b. pointwise beq a b };

    ghost laws = { lists_per (partial_equiv_from_equiv bool_eq_equiv) };

    /// Returns whether both lists have the same bits in the same order.
    fn eq(&self, other: &Self) -> bool {
        self.count() == other.count() && is_same_word(self.word(), other.word())
    }
}

impl<Word: BitArray> Eq for TopBits<Word> {
    ghost use Rattle.std.specs.Cmp.{bool_eq_equiv};
    ghost use Rattle.std.specs.Cmp.Lexicographic.{lists_equiv};

    ghost laws = { lists_equiv bool_eq_equiv };
}
