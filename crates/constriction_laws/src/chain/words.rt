//! Restoring words: a coder made from the remainders encodes the symbols that were decoded from the words.

ghost use Rattle.std.specs.Prelude.{◌≡◌, ◌≤◌, ℕ, List, ◌++◌};
ghost use Rattle.constriction_base.specs.Models.{Item};
ghost use Rattle.constriction_base.specs.Steps.{AreWords};
ghost use Rattle.constriction_chain.specs.Chain.{ChainState, IsSized};
ghost use Rattle.constriction_laws.specs.chain.Endings.{BeginInBinary};
ghost use Rattle.constriction_laws.specs.chain.Lists.{CanBePutBack, ComeBackOver};
ghost use Rattle.constriction_chain.specs.Imports.{FromBinary, FromCompressed, FromRemainders, IsWhole};
ghost use Rattle.constriction_chain.specs.Imports.{compressed_words};
ghost use Rattle.constriction_chain.specs.Symbols.{AreModelsAt, ChainDecodesAll};
ghost use Rattle.constriction_base.specs.Writing.{IsOneAbove};

/// Importing a list of words leads to at most one state.
///
/// This holds for imports of compressed words, of words in binary form, and of remainders. The clause `form` says that
/// the remainders head determines how many words of a binary form come from this head.
pub fn one_coder()
    ensures compressed { (w s P : ℕ) (words : List ℕ) (x y : ChainState) → 1 ≤ w →
        FromCompressed w s P words x → FromCompressed w s P words y → x ≡ y }
    ensures binary { (w s P : ℕ) (words : List ℕ) (x y : ChainState) → IsSized w s P →
        FromBinary w s P words x → FromBinary w s P words y → x ≡ y }
    ensures remainders { (w s P : ℕ) (words : List ℕ) (x y : ChainState) → 1 ≤ w →
        FromRemainders w s P words x → FromRemainders w s P words y → x ≡ y }
    ensures form { (w m n r : ℕ) → 1 ≤ w → IsOneAbove w m r → IsOneAbove w n r → m ≡ n }
{}

/// Encoding the symbols decoded from words restores the words.
///
/// A caller takes these steps:
///
/// 1. Import the words.
/// 2. Decode any number of symbols, each with its own table.
/// 3. Export the remainders, and put any list of words, `below`, under them.
/// 4. Import these words as remainders.
/// 5. Encode the same symbols from the last to the first, with the same tables.
/// 6. Export the compressed words, in binary form if step 1 imports words in binary form.
///
/// The words of step 6, followed by the compressed words that the decodes left, are the original words. After step 5,
/// the remainders are the list `below`. The clause `encoded` says that steps 4 and 5 are always possible.
pub fn words_come_back<Symbol>()
    ensures encoded { (w s P : ℕ) (below : List ℕ) (items : List (Item Symbol)) (x y : ChainState) → IsSized w s P →
        AreModelsAt P items → AreWords w below → IsWhole w s P x → ChainDecodesAll w s items x y → CanBePutBack w s P
        items
        below y }
    ensures compressed { (w s P : ℕ) (words below : List ℕ) (items : List (Item Symbol)) (x y z last : ChainState) →
        ComeBackOver w s P items below (FromCompressed w s P words x) x y z last (words ≡ compressed_words w last ++
        y.compressed) }
    ensures binary { (w s P : ℕ) (words below : List ℕ) (items : List (Item Symbol)) (x y z last : ChainState) →
        ComeBackOver w s P items below (FromBinary w s P words x) x y z last (BeginInBinary w words last y.compressed) }
{}
