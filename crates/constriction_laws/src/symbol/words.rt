//! Laws about the words that hold the bits of a stack or of a queue.

ghost use Rattle.constriction_base.specs.Steps.{AreWords};
ghost use Rattle.constriction_laws.specs.Outcomes.{AreOne};
ghost use Rattle.constriction_symbol.specs.Bits.{HasStackWords, IsQueueWords, IsStackWords};
ghost use Rattle.std.specs.Prelude.{Bool, List, ◌≡◌, ℕ};

/// The words of a stack determine its bits, so importing the exported words restores the bits.
pub fn one_stack_of_words()
    ensures { (w : ℕ) (words : List ℕ) (bits others : List Bool) →
        HasStackWords w bits words → HasStackWords w others words → bits ≡ others }
{}

/// The bits of a stack determine its list of words, so a guard lends the words that the coder would export.
pub fn one_list_of_stack_words()
    ensures { (w : ℕ) (bits : List Bool) (words others : List ℕ) → AreWords w words → AreWords w others → AreOne
        (IsStackWords w bits) words others }
{}

/// The bits of a queue determine its list of words.
pub fn one_list_of_queue_words()
    ensures { (w : ℕ) (bits : List Bool) (words others : List ℕ) → AreWords w words → AreWords w others → AreOne
        (IsQueueWords w bits) words others }
{}
