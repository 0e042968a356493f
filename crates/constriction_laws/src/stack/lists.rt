//! Lists of symbols on the stack coder. Decoding returns the last symbol first.
//!
//! Each symbol has its own table, with any allowed precision. The laws follow from the laws of one step by
//! [`lists_undo`].

ghost use Rattle.std.specs.Prelude.{◌≡◌, ℕ, List, reverse, ⊤};
ghost use Rattle.constriction_base.specs.Readings.{BeginsHigh};
ghost use Rattle.constriction_base.specs.Steps.{Step, Trace, IsSizes, AreSteps, AreWords};
ghost use Rattle.constriction_stack.specs.Ans.{AnsState, IsNormalized, IsPop, filled, exported, empty};
ghost use Rattle.constriction_base.specs.Models.{Item, IsModel, AreModels, AreKnown};
ghost use Rattle.constriction_stack.specs.Symbols.{Encodes, Decodes, EncodesAll, DecodesAll};
ghost use Rattle.constriction_laws.specs.Outcomes.{AreOne};
ghost use Rattle.constriction_laws.specs.stack.Lists.{AfterDecodes, AfterEncodes, DecodesWords, FromEmpty};
ghost use Rattle.constriction_laws.specs.stack.Lists.{FromNormalized};
ghost use Rattle.constriction_laws.specs.stack.Lists.{IsOneWayBack, Pushes};
ghost use Rattle.constriction_laws.specs.stack.Undone.{Sizes, decode_back, encode_back, decoded_valid};

use crate::lists::{StepsUndo, lists_undo};
use std::marker::PhantomData;

/// Implements [`StepsUndo`] for the stack coder: each step is an encode of a symbol, and the inverse step is a decode.
///
/// [`decodes_undo_encodes`] passes this type to [`lists_undo`].
pub struct Encoding<Symbol> {
    symbols: PhantomData<Symbol>,
}

impl<Symbol> StepsUndo for Encoding<Symbol> {
    ghost setting = { Sizes };

    ghost step = { Item Symbol };

    ghost state = { AnsState };

    ghost allowed = { λ sizes item. ⊤ };

    ghost valid = { λ sizes state. ⊤ };

    ghost does = { λ sizes item old new. Encodes sizes.w sizes.s item.model item.symbol old new };

    ghost undoes = { λ sizes item old new. Decodes sizes.w sizes.s item.model item.symbol old new };

    ghost one_undone = { λ sizes item old new allowed valid does.
        (decode_back sizes.w sizes.s item.model item.symbol old new does, tt) };
}

/// Implements [`StepsUndo`] for the stack coder: each step is a decode of a symbol, and the inverse step is an encode.
///
/// The decodes start from valid states.
///
/// [`encodes_undo_decodes`] passes this type to [`lists_undo`].
pub struct Decoding<Symbol> {
    symbols: PhantomData<Symbol>,
}

impl<Symbol> StepsUndo for Decoding<Symbol> {
    ghost setting = { Sizes };

    ghost step = { Item Symbol };

    ghost state = { AnsState };

    ghost allowed = { λ sizes item. IsModel sizes.w item.model };

    ghost valid = { λ sizes state. IsNormalized sizes.w sizes.s state };

    ghost does = { λ sizes item old new. Decodes sizes.w sizes.s item.model item.symbol old new };

    ghost undoes = { λ sizes item old new. Encodes sizes.w sizes.s item.model item.symbol old new };

    ghost one_undone = { λ sizes item old new allowed valid does. (
      encode_back sizes.w sizes.s item.model item.symbol old new valid does,
      decoded_valid sizes.w sizes.s item.model item.symbol old new sizes.are allowed valid does,
    ) };
}

/// Symbols with entries in their tables can be encoded onto each valid state in exactly one way.
pub fn one_list_of_encodes<Symbol>()
    ensures exists { (w s : ℕ) (items : List (Item Symbol)) (old : AnsState) →
        IsSizes w s → AreModels w items → AreKnown items → IsNormalized w s old →
        (new : AnsState) × EncodesAll w s items old new × IsNormalized w s new }
    ensures unique { (w s : ℕ) (items : List (Item Symbol)) (old new other : AnsState) → AfterEncodes w s items old new
        (EncodesAll w s items old other → new ≡ other) }
{}

/// Decoding symbols in reverse order, with the tables of their encodes, undoes the encodes.
///
/// The decodes return the same symbols, last symbol first, and lead to the state before the encodes.
pub fn decodes_undo_encodes<Symbol>()
    ensures back { (w s : ℕ) (items : List (Item Symbol)) (old new : AnsState) → IsSizes w s →
        EncodesAll w s items old new → DecodesAll w s (reverse items) new old }
    ensures only { (w s : ℕ) (items others : List (Item Symbol)) (old new last : AnsState) → AfterEncodes w s items old
        new (IsOneWayBack w s items others new last old) }
{
    lists_undo::<Encoding<Symbol>>()
}

/// Encoding decoded symbols from last to first, with the tables of their decodes, undoes the decodes.
///
/// The decodes start from a valid state. The encodes lead back to this state.
pub fn encodes_undo_decodes<Symbol>()
    ensures back { (w s : ℕ) (items : List (Item Symbol)) (old new : AnsState) → AfterDecodes w s items old new
        (EncodesAll w s (reverse items) new old) }
    ensures only { (w s : ℕ) (items : List (Item Symbol)) (old new last : AnsState) → AfterDecodes w s items old new
        (EncodesAll w s (reverse items) new last → last ≡ old) }
    ensures valid { (w s : ℕ) (items : List (Item Symbol)) (old new : AnsState) → AfterDecodes w s items old new
        (IsNormalized w s new) }
{
    lists_undo::<Decoding<Symbol>>()
}

/// Decoding the words that a coder exports returns the symbols encoded onto it, if the coder started empty.
///
/// Encode any number of symbols, each with its own table. Export the words, import them, and decode with the same
/// tables in reverse order. The symbols are the same, last symbol first, and the coder is empty.
pub fn symbols_come_back<Symbol>()
    ensures encoded { (w s : ℕ) (items : List (Item Symbol)) → IsSizes w s → AreModels w items →
        AreKnown items →
        (state : AnsState) × EncodesAll w s items empty state }
    ensures exported { (w s : ℕ) (items : List (Item Symbol)) (state : AnsState) → FromEmpty w s items state (BeginsHigh
        (exported w state)) }
    ensures decoded { (w s : ℕ) (items : List (Item Symbol)) (state : AnsState) → FromEmpty w s items state
        (DecodesWords w s (exported w state) (reverse items) empty) }
    ensures only { (w s : ℕ) (items others : List (Item Symbol)) (state last : AnsState) → AfterEncodes w s items empty
        state (IsOneWayBack w s items others (filled w s 0 (exported w state)) last empty) }
{
    decodes_undo_encodes::<Symbol>()
}

/// Encoding the symbols decoded from words restores the words, if the first word in reading order isn't 0.
///
/// Import the words and decode any number of symbols. Encode the same symbols from the last to the first with the same
/// tables, and export. The export returns the imported words.
pub fn words_come_back<Symbol>()
    ensures { (w s : ℕ) (words : List ℕ) (items : List (Item Symbol)) (state last : AnsState) →
        IsSizes w s → AreWords w words → BeginsHigh words → AreModels w items →
        DecodesAll w s items (filled w s 0 words) state →
        EncodesAll w s (reverse items) state last → exported w last ≡ words }
{
    encodes_undo_decodes::<Symbol>()
}

/// Popping steps in reverse order undoes their pushes, and pushing steps in reverse order undoes their pops.
///
/// A step consists of the precision of a table and the interval of a symbol. Pushes undo pops that start from a valid
/// state. A list of steps can be pushed onto each valid state in exactly one way.
pub fn lists_of_entries_undo()
    ensures pushes { (w s : ℕ) (steps : List Step) (old : AnsState) → FromNormalized w s steps old
        ((new : AnsState) × Pushes
        w s steps old new × IsNormalized w s new) }
    ensures only { (w s : ℕ) (steps : List Step) (old new other : AnsState) → IsSizes w s → AreSteps w steps → AreOne
        (Pushes w s steps old) new other }
    ensures pops_undo { (w s : ℕ) (steps : List Step) (old new : AnsState) → Pushes w s steps old new → Trace (IsPop w
        s) (reverse steps) new old }
    ensures pushes_undo { (w s : ℕ) (steps : List Step) (old new : AnsState) → FromNormalized w s steps old
        (Trace (IsPop w
        s) steps old new → Pushes w s (reverse steps) new old) }
{}
