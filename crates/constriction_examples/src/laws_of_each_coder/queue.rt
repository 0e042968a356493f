//! An application of a law of the range coder: a decoder reads two encoded steps from sealed words.
//!
//! A step consists of a precision, and the start and length of a symbol's interval.

ghost use Rattle.constriction.specs.Steps.{IsStep, Step};
ghost use Rattle.constriction.specs.queue.Range.{ReadAs, run, sealed, initial};
ghost use Rattle.std.specs.Prelude.{[], ◌∷◌};

use constriction::laws::queue::words::sealed_words_are_read;

/// Reading the sealed words of two steps, encoded from the initial interval, returns these two steps.
pub fn two_steps_are_read()
    ensures { (first second : Step) → IsStep 32 first → IsStep 32 second →
        ReadAs 32 64 (sealed 32 64 (run 32 64 (first ∷ second ∷ []) (initial 64))) (first ∷ second ∷ []) (initial 64) }
{
    sealed_words_are_read()
}
