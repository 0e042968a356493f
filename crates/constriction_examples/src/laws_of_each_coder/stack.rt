//! An application of a law of the stack coder: how many words a decode and an encode add, as in bits-back coding.

ghost use Rattle.constriction.specs.Bounds.{Acts, Decode, Encode, net_share, net_whole, product};
ghost use Rattle.constriction.specs.Steps.{Trace, IsStep, Step};
ghost use Rattle.constriction.specs.stack.Ans.{AnsState, IsNormalized, exported};
ghost use Rattle.std.specs.Prelude.{[], length, ◌*◌, ◌-◌, ◌<◌, ◌^◌, ◌∷◌, ◌≤◌};

use constriction::laws::bounds::stack_net_bound;

/// Bounds the number of words that a coder exports after one decode and one encode, as in bits-back coding.
///
/// The coder has 32-bit words and a 64-bit head, and begins in a valid state. The head is at least `2^32` before and
/// after the decode. The bound compares the number of words after both calls with the number of words before.
pub fn words_of_an_exchange()
    ensures { (taken put : Step) (old new : AnsState) → IsStep 32 taken → IsStep 32 put → IsNormalized 32 64 old →
        2 ^ (64 - 32) ≤ old.head → Trace (Acts 32 64) (Decode taken ∷ Encode put ∷ []) old new →
        2 ^ (32 * (length (exported 32 new) - 1)) * product (net_share 32 64) (Decode taken ∷ Encode put ∷ [])
        < 2 ^ (32 * length (exported 32 old)) * product (net_whole 32 64) (Decode taken ∷ Encode put ∷ []) }
{
    stack_net_bound()
}
