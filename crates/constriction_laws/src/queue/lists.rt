//! Lists of symbols on the range coder. Decoding returns the first symbol first.
//!
//! Each symbol has its own table, with any allowed precision. The function [`lists_undo`] extends the laws of one step
//! to lists. Each step in the list passed to [`lists_undo`] undoes one encode. The list goes from the last encode to
//! the first.
//!
//! An interval (`Run`) has a lower end, which is an unbounded number, and a range. It also has the number `n` of words
//! that the encoder has moved out of its state. Words lie within an interval if the number that they form lies in the
//! interval. The digits of this number are the first `n + s/w` words. Digits past the last word are 0.

ghost use Rattle.std.specs.Prelude.{◌≡◌, ◌↔◌, ◌∷◌, ℕ, List};
ghost use Rattle.constriction_base.specs.Models.{Item, IsModel, AreModels, AreKnown};
ghost use Rattle.constriction_base.specs.Steps.{IsSizes, AreWords};
ghost use Rattle.constriction_queue.specs.Range.{Run, IsInterval, Within, sealed, initial};
ghost use Rattle.constriction_queue.specs.Symbols.{Finds, NarrowsAll, FindsAll, MayEnd};
ghost use Rattle.constriction_laws.specs.queue.Lists.{AfterNarrows, FromInterval, IsOneRead, WithinEncodes};
ghost use Rattle.constriction_laws.specs.queue.Undone.{Reading, UndoesEncode, read_back};

use crate::lists::{StepsUndo, lists_undo};
use std::marker::PhantomData;

/// Implements [`StepsUndo`] for the range coder: each step undoes an encode, and the inverse step is a decode.
///
/// [`decodes_undo_encodes`] passes this type to [`lists_undo`].
pub struct Encoding<Symbol> {
    symbols: PhantomData<Symbol>,
}

impl<Symbol> StepsUndo for Encoding<Symbol> {
    ghost setting = { Reading };

    ghost step = { Item Symbol };

    ghost state = { Run };

    ghost allowed = { λ g item. IsModel g.w item.model };

    ghost valid = { λ g r. Within g.w g.s g.words r };

    ghost does = { λ g item new old. UndoesEncode g.w g.s item new old };

    ghost undoes = { λ g item old new. Finds g.w g.s g.words item.model item.symbol old new };

    ghost one_undone = { λ g item new old allowed valid does. read_back g item new old allowed valid does };
}

/// Encoding symbols that have entries in their tables leads from any interval to exactly one interval.
pub fn one_list_of_encodes<Symbol>()
    ensures exists { (w s : ℕ) (items : List (Item Symbol)) (old : Run) → AreKnown items →
        (new : Run) × NarrowsAll w s items old new }
    ensures unique { (w s : ℕ) (items : List (Item Symbol)) (old new other : Run) → AreModels w items →
        NarrowsAll w s items old new → NarrowsAll w s items old other → new ≡ other }
    ensures interval { (w s : ℕ) (items : List (Item Symbol)) (old new : Run) → FromInterval w s items old new
        (IsInterval w s new) }
{}

/// If words lie within the encoder's interval after the last encode, decoding the words returns the encoded symbols.
pub fn decodes_undo_encodes<Symbol>()
    ensures back { (w s : ℕ) (words : List ℕ) (items : List (Item Symbol)) (old new : Run) → WithinEncodes w s words
        items old new (FindsAll w s words items old new) }
    ensures only { (w s : ℕ) (words : List ℕ) (items others : List (Item Symbol)) (old new last : Run) → AreModels w
        items → FindsAll w s words items old new → IsOneRead w s words items others old new last }
    ensures within { (w s : ℕ) (words : List ℕ) (items : List (Item Symbol)) (old new : Run) → WithinEncodes w s words
        items old new (Within w s words old) }
{
    lists_undo::<Encoding<Symbol>>()
}

/// Words decode to a nonempty list of symbols if and only if the words lie within the interval after encoding the list.
///
/// The encoder and the decoder start from the initial interval. The module's documentation explains when words lie
/// within an interval.
pub fn symbols_of_any_words<Symbol>()
    ensures { (w s : ℕ) (words : List ℕ) (first : Item Symbol) (others : List (Item Symbol)) (last : Run) →
        IsSizes w s → AreWords w words → AreModels w (first ∷ others) →
        NarrowsAll w s (first ∷ others) (initial s) last →
        (FindsAll w s words (first ∷ others) (initial s) last ↔ Within w s words last) }
{
    decodes_undo_encodes::<Symbol>()
}

/// Decoding sealed words returns the encoded symbols, first symbol first.
///
/// Start from the initial interval, encode any number of symbols, each with its own table, and seal. Decode the sealed
/// words with the same tables in the same order. No words follow the sealed words. The decoder returns the same symbols
/// and ends at the encoder's interval. There, the decoder reports that it may be exhausted.
pub fn symbols_come_back<Symbol>()
    ensures decoded { (w s : ℕ) (items : List (Item Symbol)) (last : Run) → AfterNarrows w s items last (FindsAll w s
        (sealed w s last) items (initial s) last) }
    ensures only { (w s : ℕ) (items others : List (Item Symbol)) (last end : Run) → AfterNarrows w s items last
        (IsOneRead w s (sealed w s last) items others (initial s) last end) }
    ensures exhausted { (w s : ℕ) (items : List (Item Symbol)) (last : Run) → AfterNarrows w s items last (MayEnd w s
        (sealed w s last) last) }
{
    decodes_undo_encodes::<Symbol>()
}
