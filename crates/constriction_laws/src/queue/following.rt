//! Laws of the range coder's self-delimiting seals: decoding returns the symbols, whatever words follow the seal.
//!
//! `State` may be any number of words wide.

ghost use Rattle.std.specs.Prelude.{◌≡◌, ◌/◌, ◌<◌, ◌++◌, ◌∷◌, ℕ, List};
ghost use Rattle.constriction_base.specs.Models.{Item, AreModels};
ghost use Rattle.constriction_base.specs.Steps.{Step, IsSizes, AreSteps, AreWords};
ghost use Rattle.constriction_queue.specs.Range.{Run, sealed, initial};
ghost use Rattle.constriction_queue.specs.SelfDelimiting.{AreLeast, SelfDelimits, sealed_with_zeros};
ghost use Rattle.constriction_queue.specs.Symbols.{NarrowsAll, FindsAll, MayEnd};
ghost use Rattle.constriction_laws.specs.queue.Lists.{AfterBoth, AfterNarrows, AreLostBefore, DelimitsSteps};
ghost use Rattle.constriction_laws.specs.queue.Lists.{ReadsSteps};

use crate::queue::lists::decodes_undo_encodes;

/// The self-delimiting seal is unique: an interval of an encoder has at most one list of words with such a seal.
///
/// Two more facts hold for encoders that start from the initial interval:
///
/// - If `State` is two words wide, the self-delimiting seal is the plain seal.
/// - If no words follow the seal, a decoder that has decoded the last symbol reports that it may be exhausted.
pub fn self_delimiting_words<Symbol>()
    ensures one { (w s : ℕ) (last : Run) (words others : List ℕ) → SelfDelimits w s last words →
        SelfDelimits w s last others → others ≡ words }
    ensures words { (w s : ℕ) (last : Run) (words : List ℕ) → SelfDelimits w s last words → AreWords w words }
    ensures two_words { (w s : ℕ) (items : List (Item Symbol)) (last : Run) (words : List ℕ) → IsSizes w s → s / w ≡ 2 →
        AreModels w items → NarrowsAll w s items (initial s) last → SelfDelimits w s last words →
        words ≡ sealed w s last }
    ensures exhausted { (w s : ℕ) (items : List (Item Symbol)) (last : Run) (words : List ℕ) → AfterNarrows w s items
        last (SelfDelimits w s last words → MayEnd w s words last) }
{}

/// A decoder reads the encoded steps from words with a self-delimiting seal, whatever words follow.
///
/// A step has a symbol's precision, weight and interval. The encoder and the decoder start from the initial interval.
pub fn self_delimiting_words_are_read()
    ensures { (w s : ℕ) (steps : List Step) (words rest : List ℕ) → IsSizes w s → AreSteps w steps → AreWords w rest →
        DelimitsSteps w s steps words → ReadsSteps w s (words ++ rest) steps }
{}

/// Decoding from a position returns the symbols encoded after it, if the seal is self-delimiting.
///
/// Any words may follow the seal. The encoder starts from the initial interval. The position may be the position
/// before the first symbol.
pub fn symbols_come_back_whatever_follows<Symbol>()
    ensures { (w s : ℕ) (before since : List (Item Symbol)) (middle last : Run) (words rest : List ℕ) → IsSizes w s →
        AreModels w before → AreModels w since → AreWords w rest → AfterBoth w s before since middle last (SelfDelimits
        w s last words → FindsAll w s (words ++ rest) since middle last) }
{
    decodes_undo_encodes::<Symbol>()
}

/// A seal that ends with fewer zero words than the self-delimiting seal isn't self-delimiting.
///
/// For such a shorter seal there are words `rest` with this effect: if `rest` follows the seal, the decoder doesn't
/// return the symbols. The encoder starts from the initial interval and encodes at least one symbol.
pub fn fewer_zero_words_hold_less<Symbol>()
    ensures { (w s count fewer : ℕ) (first : Item Symbol) (others : List (Item Symbol)) (last : Run) → AfterNarrows w s
        (first ∷ others) last (AreLeast w s last count → fewer < count → AreLostBefore w s (sealed_with_zeros w s last
        fewer) (first ∷ others)) }
{}
