//! Positions of the stack coder. If only encodes follow a recorded position, seeking to it undoes these encodes.
//!
//! A position consists of the head and the number of words below the head. While the coder only encodes, the words that
//! were below the head when the position was recorded stay below the words that the coder writes.

ghost use Rattle.std.specs.Prelude.{◌≡◌, ◌≤◌, ℕ, List, length, reverse};
ghost use Rattle.constriction_laws.specs.stack.Lists.{AddsOneAtMost, AfterEncodes, AfterTwo, DecodesBack, IsOneWayBack};
ghost use Rattle.constriction_base.specs.Steps.{Step, IsSizes, IsStep};
ghost use Rattle.constriction_stack.specs.Ans.{AnsState, IsNormalized, IsPush, filled, exported};
ghost use Rattle.constriction_stack.specs.Positions.{position_of, sought, Grows};
ghost use Rattle.constriction_base.specs.Models.{Item, AreModels};

use crate::stack::lists::decodes_undo_encodes;

/// A push writes at most one word: the lowest word of the head.
pub fn one_word_at_most()
    ensures { (w s : ℕ) (e : Step) (old new : AnsState) → IsSizes w s → IsStep w e → IsPush w s e old new →
        AddsOneAtMost w old new }
{}

/// Seeking to a recorded position undoes all encodes that followed the recording.
///
/// These encodes keep the words that were below the head when the position was recorded.
pub fn position_leads_back<Symbol>()
    ensures grows { (w s : ℕ) (items : List (Item Symbol)) (old new : AnsState) → AfterEncodes w s items old new (Grows
        old new) }
    ensures held { (w s : ℕ) (items : List (Item Symbol)) (old new : AnsState) → AfterEncodes w s items old new
        ((position_of old).held ≤ length new.words) }
    ensures state { (w s : ℕ) (items : List (Item Symbol)) (old new : AnsState) → AfterEncodes w s items old new (sought
        (position_of old) new ≡ old) }
{}

/// Decoding from a recorded position undoes the encodes before the recording, last symbol first.
///
/// After the recording, the coder encodes any number of symbols and decodes none. The decoder reads the coder's own
/// words, or the words that the coder exports. The last decode leads to the state before the first encode, for example
/// the empty state.
pub fn symbols_before_a_position<Symbol>()
    ensures decoded { (w s : ℕ) (before since : List (Item Symbol)) (start middle last : AnsState) → IsSizes w s →
        AreModels w since → AfterTwo w s before since start middle last (DecodesBack w s (reverse before) middle
        last start) }
    ensures only { (w s : ℕ) (before since others : List (Item Symbol)) (start middle last end : AnsState) → IsSizes w s
        → AreModels w before → AreModels w since → AfterTwo w s before since start middle last (IsOneWayBack w s before
        others (sought (position_of middle) last) end start) }
    ensures imported { (w s : ℕ) (before since : List (Item Symbol)) (start middle last : AnsState) → IsSizes w s →
        IsNormalized w s start → AfterTwo w s before since start middle last (filled w s 0 (exported w last) ≡ last) }
{
    decodes_undo_encodes::<Symbol>()
}
