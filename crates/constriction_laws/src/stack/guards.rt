//! A guard lends the words of the export, and the guard's drop restores the coder.
//!
//! The premise of each law is the clause `shows` of the call that creates the guard. This clause says that the guard's
//! coder holds the words of the export below the head. In each law, the clause `compressed` is about a guard that lends
//! the exported words. The clause `binary` is about a guard that lends the binary form.

ghost use Rattle.std.specs.Prelude.{◌≡◌, ℕ};
ghost use Rattle.constriction_base.specs.Digits.{count_of_words};
ghost use Rattle.constriction_base.specs.Steps.{IsSizes};
ghost use Rattle.constriction_stack.specs.Ans.{AnsState, IsNormalized, exported, filled};
ghost use Rattle.constriction_base.specs.Writing.{IsOneAbove};
ghost use Rattle.constriction_stack.specs.Binary.{binary_state, binary_words};
ghost use Rattle.constriction_stack.specs.Guards.{without};
ghost use Rattle.constriction_laws.specs.stack.Lists.{with_words};

/// Importing the words that a guard lends restores the coder's state, if that state is valid.
///
/// The clause `compressed` is about a guard that lends the exported words. The clause `binary` is about a guard that
/// lends the binary form.
pub fn shown_words_are_exported()
    ensures compressed { (w s : ℕ) (state shown : AnsState) → IsSizes w s → IsNormalized w s state → shown ≡ with_words
        state
        (exported w state) → filled w s 0 shown.words ≡ state }
    ensures binary { (w s m : ℕ) (state shown : AnsState) → IsSizes w s → IsNormalized w s state → IsOneAbove w m
        state.head
        → shown ≡ with_words state (binary_words w m state) → binary_state w s shown.words ≡ state }
{}

/// Removing the words that a guard appended restores the coder's state.
///
/// The appended words are the words of the head. In the clause `binary`, they are the words of the head's binary form.
pub fn shown_words_go()
    ensures compressed { (w : ℕ) (state shown : AnsState) → shown ≡ with_words state (exported w state) → without
        (count_of_words w state.head) shown ≡ state }
    ensures binary { (w m : ℕ) (state shown : AnsState) → shown ≡ with_words state (binary_words w m state) → without m
        shown ≡ state }
{}
