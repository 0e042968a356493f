//! Binary forms of the stack coder's states.
//!
//! A binary form may be any list of words, even if the first word in reading order is 0. In the state, the head has a
//! leading 1 above these words. The binary form leaves out this 1.

ghost use Rattle.std.specs.Prelude.{◌≡◌, ◌≤◌, ℕ, List};
ghost use Rattle.constriction_base.specs.Steps.{IsSizes, AreWords};
ghost use Rattle.constriction_stack.specs.Ans.{AnsState, IsNormalized};
ghost use Rattle.constriction_base.specs.Writing.{IsOneAbove};
ghost use Rattle.constriction_stack.specs.Binary.{binary_state, binary_words};
ghost use Rattle.constriction_base.specs.Models.{Item};
ghost use Rattle.constriction_laws.specs.stack.Lists.{AfterWayBack, IsBinaryForm};

use crate::stack::lists::encodes_undo_decodes;

/// Importing any words in binary form leads to a valid state, and the state's binary form is the same words.
pub fn binary_export_of_import()
    ensures words { (w s : ℕ) (words : List ℕ) → IsSizes w s → AreWords w words → IsBinaryForm w (binary_state w s
        words) words }
    ensures valid { (w s : ℕ) (words : List ℕ) → IsSizes w s → AreWords w words →
        IsNormalized w s (binary_state w s words) }
{}

/// Importing the binary form of a valid state restores that state.
pub fn binary_import_of_export()
    ensures state { (w s m : ℕ) (state : AnsState) → IsSizes w s → IsNormalized w s state →
        IsOneAbove w m state.head →
        binary_state w s (binary_words w m state) ≡ state }
    ensures words { (w s m : ℕ) (state : AnsState) → IsSizes w s → IsNormalized w s state →
        AreWords w (binary_words w m state) }
{}

/// A state has at most one binary form.
///
/// The head determines how many words of the binary form come from the head.
pub fn one_binary_form()
    ensures { (w m n : ℕ) (state : AnsState) → 1 ≤ w → IsOneAbove w m state.head → IsOneAbove w n state.head →
        m ≡ n }
{}

/// Encoding the symbols decoded from any words restores the words.
///
/// Import the words in binary form and decode any number of symbols, each with its own table. Encode the same symbols
/// from the last to the first with the same tables, and export in binary form. The export returns the imported words.
pub fn binary_words_come_back<Symbol>()
    ensures state { (w s : ℕ) (words : List ℕ) (items : List (Item Symbol)) (state last : AnsState) → AfterWayBack w s
        words items state last (last ≡ binary_state w s words) }
    ensures words { (w s : ℕ) (words : List ℕ) (items : List (Item Symbol)) (state last : AnsState) → AfterWayBack w s
        words items state last (IsBinaryForm w last words) }
{
    encodes_undo_decodes::<Symbol>()
}
