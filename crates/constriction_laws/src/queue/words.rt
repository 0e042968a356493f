//! Laws about the steps that a range decoder reads from words. A step has a symbol's precision, weight and interval.

ghost use Rattle.std.specs.Prelude.{◌≡◌, ◌↔◌, ◌++◌, ◌∷◌, ◌/◌, ℕ, List};
ghost use Rattle.constriction_base.specs.Steps.{Step, IsSizes, AreSteps, AreWords};
ghost use Rattle.constriction_queue.specs.Range.{Run, Within, run, sealed, initial};
ghost use Rattle.constriction_laws.specs.queue.Lists.{ReadsSteps, sealed_steps};

/// A decoder reads the encoded steps from sealed words.
///
/// The encoder and the decoder start from the initial interval. If `State` is two words wide, any words may follow the
/// sealed words.
pub fn sealed_words_are_read()
    ensures alone { (w s : ℕ) (steps : List Step) → IsSizes w s → AreSteps w steps → ReadsSteps w s (sealed_steps w s
        steps) steps }
    ensures followed { (w s : ℕ) (steps : List Step) (rest : List ℕ) → IsSizes w s → s / w ≡ 2 → AreSteps w steps →
        AreWords w rest → ReadsSteps w s (sealed_steps w s steps ++ rest) steps }
    ensures words { (w s : ℕ) (last : Run) → AreWords w (sealed w s last) }
{}

/// A decoder reads given steps from words if and only if the words lie within the interval after the steps.
///
/// There is at least one step. The encoder and the decoder start from the initial interval.
/// [`lists`](crate::queue::lists) explains when words lie within an interval.
pub fn words_within_are_read()
    ensures { (w s : ℕ) (words : List ℕ) (first : Step) (others : List Step) → IsSizes w s → AreWords w words → AreSteps
        w (first ∷ others) → (ReadsSteps w s words (first ∷ others) ↔ Within w s words (run w s (first ∷ others)
        (initial s))) }
{}
