//! The sizes of the stack coder's states, in words and in bits.

ghost use Rattle.std.specs.Prelude.{◌≡◌, ℕ, ◌+◌, ◌*◌, ◌^◌, ◌<◌, ◌≤◌, length, drop};
ghost use Rattle.std.specs.Int.Digits.{digits_of};
ghost use Rattle.constriction_stack.specs.Ans.{AnsState, exported};
ghost use Rattle.constriction_stack.specs.Sizes.{word_count, bit_count, valid_bit_count};
ghost use Rattle.constriction_base.specs.Writing.{IsOneAbove};
ghost use Rattle.constriction_stack.specs.Binary.{binary_words};

/// The `word_count` of a state is the number of words that the state exports.
///
/// The words below the head are the exported words without the words of the head.
pub fn words_that_are_exported()
    ensures count { (w : ℕ) (state : AnsState) → length (exported w state) ≡ word_count w state }
    ensures below { (w : ℕ) (state : AnsState) →
        drop (length (digits_of (2 ^ w) state.head)) (exported w state) ≡ state.words }
{}

/// If a state has a binary form, the state's `valid_bit_count` is the number of bits in the words of that form.
pub fn bits_of_binary_words()
    ensures { (w m : ℕ) (state : AnsState) → IsOneAbove w m state.head →
        valid_bit_count w state ≡ w * length (binary_words w m state) }
{}

/// A number `n` has `bits` bits if `n < 2 ^ bits` and `2 ^ bits <= 2 * n + 1`.
pub fn bits_of_numbers()
    ensures { (bits n : ℕ) → n < 2 ^ bits → 2 ^ bits ≤ 2 * n + 1 → bit_count n ≡ bits }
{}
