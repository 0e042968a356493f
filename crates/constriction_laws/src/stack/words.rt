//! Laws of the stack coder's imports and exports: a valid state and its words determine each other.

ghost use Rattle.constriction_base.specs.Readings.{BeginsHigh};
ghost use Rattle.std.specs.Prelude.{◌≡◌, ◌<◌, ◌^◌, ℕ, List, map};
ghost use Rattle.constriction_base.specs.Steps.{IsSizes, AreWords};
ghost use Rattle.constriction_stack.specs.Ans.{AnsState, IsNormalized, filled, exported, refilled, RefillsBy};
ghost use Rattle.constriction_stack.specs.Imports.{FilledBy};
ghost use Rattle.constriction_laws.specs.Readings.{ListsWords};

use constriction_base::backends::{ReadWords, Stack};
use constriction_words::BitArray;

/// Importing the words that a valid state exports restores that state.
pub fn import_of_export()
    ensures state { (w s : ℕ) (state : AnsState) → IsSizes w s → IsNormalized w s state →
        filled w s 0 (exported w state) ≡ state }
    ensures high { (w s : ℕ) (state : AnsState) → IsSizes w s → IsNormalized w s state →
        BeginsHigh (exported w state) }
    ensures words { (w s : ℕ) (state : AnsState) → IsSizes w s → IsNormalized w s state →
        AreWords w (exported w state) }
{}

/// Importing words leads to a valid state.
///
/// The state exports the same words if the first word in reading order isn't 0, or if `words` is empty.
pub fn export_of_import()
    ensures words { (w s : ℕ) (words : List ℕ) → IsSizes w s → AreWords w words → BeginsHigh words →
        exported w (filled w s 0 words) ≡ words }
    ensures valid { (w s : ℕ) (words : List ℕ) → IsSizes w s → AreWords w words →
        IsNormalized w s (filled w s 0 words) }
{}

/// If `words` lists the words of a backend, refilling a head from the backend equals refilling it from that list.
///
/// A refill reads a word into the head if the head is below `2^(s - w)` and a word is left. Both refills lead to the
/// same head and leave the same words.
pub fn reads_are_words<Word: BitArray, Backend: ReadWords<Word, Stack>>()
    ensures { (words : Backend → List Word) (w s head new_head : ℕ) (old new : Backend) →
        ListsWords Backend.reads words → RefillsBy Word.number Backend.reads w s head old new_head new →
        refilled w s head (map Word.number (words old))
        ≡ record { head = new_head; words = map Word.number (words new) } }
{}

/// If `words` lists the words of a backend, importing from the backend equals importing that list.
///
/// Both imports lead to the same head and leave the same words.
pub fn imports_are_words<Word: BitArray, Backend: ReadWords<Word, Stack>>()
    ensures { (words : Backend → List Word) (w s head : ℕ) (old new : Backend) → IsSizes w s →
        head < 2 ^ s → ListsWords Backend.reads words →
        FilledBy Word.number Backend.reads w s old head new →
        filled w s 0 (map Word.number (words old)) ≡ record { head = head; words = map Word.number (words new) } }
{}
