//! A law of range encoders whose `State` is two words wide: any words may follow the sealed words.

ghost use Rattle.std.specs.Prelude.{◌≡◌, ◌/◌, ◌<◌, ◌++◌, ℕ, List};
ghost use Rattle.constriction_base.specs.Models.{Item, AreModels};
ghost use Rattle.constriction_base.specs.Steps.{IsSizes, AreWords};
ghost use Rattle.constriction_queue.specs.Range.{Run, sealed, initial};
ghost use Rattle.constriction_queue.specs.Symbols.{NarrowsAll, FindsAll};

use crate::queue::lists::decodes_undo_encodes;
use constriction_base::backends::Holds;
use constriction_base::model::EntropyModel;
use constriction_words::BitArray;

/// Decoding returns the encoded symbols whatever words follow the seal, if `State` is two words wide.
///
/// The encoder and the decoder start from the initial interval.
pub fn symbols_come_back_before_others<Symbol>()
    ensures { (w s : ℕ) (items : List (Item Symbol)) (last : Run) (rest : List ℕ) → IsSizes w s → s / w ≡ 2 →
        AreModels w items → AreWords w rest → NarrowsAll w s items (initial s) last →
        FindsAll w s (sealed w s last ++ rest) items (initial s) last }
{
    decodes_undo_encodes::<Symbol>()
}
