//! How many words of room in a backend are enough for a step of the range coder.

ghost use Rattle.std.specs.Prelude.{◌+◌, ◌≤◌, length};
ghost use Rattle.constriction_base.specs.Steps.{Step};
ghost use Rattle.constriction_queue.specs.Encoder.{Encoder};
ghost use Rattle.constriction_queue.specs.Calls.{IsRefused};

use constriction_base::backends::{Holds, WriteWords};
use constriction_words::{BitArray, WordOf};

/// If a backend has room for the pending words and one more word, no write of the encoder's next step fails.
///
/// The pending words are the words that a carry may still change. For example, a long enough cursor has this room.
pub fn room_is_enough<Word: WordOf<State>, State: BitArray, Backend: WriteWords<Word>>()
    ensures { (old : Encoder Backend) (step : Step) (e : Backend.WriteError) (new : Encoder Backend) →
        length old.held + 1 ≤ Backend.room old.bulk →
        IsRefused Word.number Backend.Holds Backend.WriteWords.own Word.BITS State.BITS old step e new → ⊥ }
{}
