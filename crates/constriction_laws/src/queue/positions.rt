//! Positions of the range coder. Seeking to a recorded position leads a decoder to the interval recorded there.
//!
//! A position consists of the number of words that are written or pending, and the interval. A position stays usable in
//! all words that the encoder exports later, until the encoder is cleared. It doesn't matter which symbols are encoded
//! in between, or whether a carry changes the pending words.

ghost use Rattle.std.specs.Prelude.{◌≡◌, ◌/◌, ◌^◌, ℕ, List, drop};
ghost use Rattle.constriction_base.specs.Models.{Item};
ghost use Rattle.constriction_base.specs.Steps.{IsSizes, AreWords};
ghost use Rattle.constriction_queue.specs.Encoder.{run_by};
ghost use Rattle.constriction_queue.specs.Range.{Run, IsAt, IsInterval, number_of_first, sealed};
ghost use Rattle.constriction_queue.specs.States.{IsPosition};
ghost use Rattle.constriction_queue.specs.Symbols.{FindsAll};
ghost use Rattle.constriction_laws.specs.queue.Lists.{AfterLists, FromInterval, IsOneRead};

use crate::queue::lists::decodes_undo_encodes;
use constriction_base::backends::{Holds, WriteWords};
use constriction_queue::RangeEncoder;
use constriction_words::{BitArray, WordOf};

/// Seeking to the recorded position of an interval leads a decoder to that interval.
///
/// The decoder reads `s / w` words, starting at the position, with zeros past the last word. The decoder's point is the
/// number that these words form.
pub fn position_leads_there()
    ensures { (w s : ℕ) (words rest : List ℕ) (there : Run) (place lower range point : ℕ) → IsSizes w s →
        AreWords w words → IsPosition s there place lower range →
        point ≡ number_of_first (2 ^ w) (s / w) (drop place words) → rest ≡ drop (s / w) (drop place words) →
        IsAt w s words there lower range point rest }
{}

/// Decoding from a position returns the symbols encoded after it, in the order of encoding.
///
/// The decoder may read the words of any later export, if the encoder isn't cleared before that export. By the clause
/// `anywhere`, only the interval of the position matters, not the words before the position.
pub fn symbols_after_a_position<Symbol>()
    ensures decoded { (w s : ℕ) (before since : List (Item Symbol)) (middle last : Run) → AfterLists w s before since
        middle last (FindsAll w s (sealed w s last) since middle last) }
    ensures only { (w s : ℕ) (before since others : List (Item Symbol)) (middle last end : Run) → AfterLists w s before
        since middle last (IsOneRead w s (sealed w s last) since others middle last end) }
    ensures anywhere { (w s : ℕ) (since : List (Item Symbol)) (middle last : Run) → FromInterval w s since middle last
        (FindsAll w s (sealed w s last) since middle last) }
{
    decodes_undo_encodes::<Symbol>()
}

/// Proves that any encoder's lower end and range form a valid interval, whatever words the encoder has written.
///
/// So the clause `anywhere` of [`symbols_after_a_position`] covers each position of the encoder. Decoding from the
/// position returns the symbols that were encoded after the position was recorded.
pub fn run_of_any_encoder<Word: WordOf<State>, State: BitArray, Backend: WriteWords<Word>>(
    encoder: &RangeEncoder<Word, State, Backend>,
)
    ensures { IsInterval Word.BITS State.BITS (run_by Word.BITS State.BITS encoder.now) }
{
    let _ = encoder.bulk();
}
