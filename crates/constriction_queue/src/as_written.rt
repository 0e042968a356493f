//! `LendsAsWritten`: the backends that lend their words in the order in which they were written.

ghost use Rattle.std.specs.Prelude.{◌≡◌, reverse};

use constriction_base::backends::{Holds, Stack, Words};
use constriction_words::BitArray;
use std::alloc::Allocator;

/// A backend that lends its words in the order in which they were written.
///
/// If an encoder's backend implements this trait, [`crate::RangeEncoder::iter_compressed`] iterates over the words that
/// `into_compressed` would return. The trait has no methods. An implementor proves that the lent words, in reverse, are
/// the words that the backend holds as a stack.
pub trait LendsAsWritten<Word>: Holds<Word, Stack> + Words<Word> {
    // The words as a stack are the lent words in reverse.
    ghost written_law: { (b : Self) →
        ⟦<Self as Holds<Word, Stack>>⟧.words b ≡ reverse (⟦<Self as Words<Word>>⟧.lent b) };
}

impl<Word: BitArray, A: Allocator> LendsAsWritten<Word> for Vec<Word, A> {
    ghost use Rattle.std.proofs.Common.{refl};

    ghost written_law = { λ v. refl };
}

impl<'a, Word: BitArray + 'a, A: Allocator + 'a> LendsAsWritten<Word> for &'a Vec<Word, A> {
    ghost use Rattle.std.proofs.Common.{refl};

    ghost written_law = { λ v. refl };
}

impl<'a, Word: BitArray + 'a> LendsAsWritten<Word> for &'a [Word] {
    ghost use Rattle.std.proofs.Common.{refl};

    ghost written_law = { λ s. refl };
}
