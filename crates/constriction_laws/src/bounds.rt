//! Upper bounds on the number of words that a stack coder or a range encoder exports.
//!
//! The coder encodes a list of steps. A step consists of a symbol's precision `P` in bits, its weight `p` and the
//! start of its interval. The steps may have different precisions.
//!
//! The bounds are inequalities between products of whole numbers. `w` and `s` are the widths in bits of a word and of a
//! head. `k = s - w - P` is the number of spare bits. A head has these bits beyond a word and a precision of `P` bits.
//! In logarithms, a step of probability `p / 2^P` costs at most `log2(2^P / p) + log2(1 + 2^-k)` bits. The first term
//! is the step's information content. The second term is due to rounding.

pub mod following;
pub mod words;

ghost use Rattle.std.specs.Prelude.{◌≡◌, ℕ, ◌-◌, ◌/◌, ◌≤◌, ◌^◌, List};
ghost use Rattle.std.specs.List.{AllByRecursion};
ghost use Rattle.constriction_base.specs.Steps.{Step, IsSizes, AreSteps, Trace};
ghost use Rattle.constriction_stack.specs.Ans.{AnsState, IsNormalized, empty, exported};
ghost use Rattle.constriction_laws.specs.Bounds.{Act, Acts, AreAllowed, IsNetBounded, IsRangeBounded, IsStackBounded};
ghost use Rattle.constriction_laws.specs.Bounds.{IsStackBoundedAt};
ghost use Rattle.constriction_laws.specs.queue.Lists.{DelimitsSteps, sealed_steps};
ghost use Rattle.constriction_laws.specs.stack.Lists.{Pushes};

/// Bounds the number of words that a stack coder exports, if it started empty and encoded `steps`.
///
/// Suppose that the coder exports `N` words. Then `2^(w * (N - 1)) * A <= 2^(s - w) * B`. `A` is the product of
/// `p * 2^k` over all steps. `B` is the product of `2^P * (2^k + 1)` over all steps. Here `p` is a step's weight, `P`
/// is its precision in bits, and `k` is `s - w - P`.
pub fn stack_bound()
    ensures { (w s : ℕ) (steps : List Step) (state : AnsState) → IsSizes w s → AreSteps w steps → Pushes w s steps empty
        state → IsStackBounded w s steps (exported w state) }
{}

/// Bounds the number of words that a stack coder exports, if all symbols have the same precision.
///
/// The coder started empty and encoded `steps`. Suppose that it exports `N` words for `n` symbols. Then `w * (N - 1)`
/// is at most the sum of three terms: `s - w`, the information content of all symbols in bits, and
/// `n * log2(1 + 2^-k)`. Here `k` is the number of spare bits: `s - w` minus the precision in bits.
pub fn stack_bound_at_one_precision()
    ensures { (w s precision : ℕ) (steps : List Step) (state : AnsState) → IsSizes w s → AreSteps w steps →
        AllByRecursion (λ e. e.precision ≡ precision) steps → Pushes w s steps empty state → IsStackBoundedAt w s
        precision steps (exported w state) }
{}

/// Bounds the number of words that a sequence of encodes and decodes adds to the export of a stack coder.
///
/// The encodes and decodes may come in any order. The coder begins in a valid state. The head is at least `2^(s-w)` at
/// the beginning and after each decode. Suppose that the coder exports `M` words before the calls and `N` words after
/// them. Then `w * (N - 1)` is below the sum of three terms:
///
/// - `w * M`
/// - the net cost in bits, as in bits-back coding: the information content of the encoded symbols, minus the
///   information content of the decoded symbols
/// - `log2(1 + 2^-k)` for each call, where `k` is `s - w` minus the call's precision in bits
pub fn stack_net_bound()
    ensures { (w s : ℕ) (acts : List Act) (old new : AnsState) → IsSizes w s → AreAllowed w acts → IsNormalized w s old
        →
        2 ^ (s - w) ≤ old.head → Trace (Acts w s) acts old new →
        IsNetBounded w s acts old new }
{}

/// Bounds the number of words that a range encoder exports, if it exports at least two words.
///
/// The encoder starts from the initial interval and encodes `steps`. Suppose that it exports `N` words, counting the
/// seal. Then `2^(w * (N - 2)) * (2^s - 1) * A < 2^s * B`, with the products `A` and `B` of [`stack_bound`].
pub fn range_bound()
    ensures { (w s : ℕ) (steps : List Step) → IsSizes w s → AreSteps w steps → IsRangeBounded w s 2 steps (sealed_steps
        w s steps) }
{}

/// Bounds the number of words that a range encoder exports with a self-delimiting seal.
///
/// The encoder starts from the initial interval and encodes `steps`. `State` is `m = s / w` words wide. If the encoder
/// exports at least `m` words, counting the seal, the inequality of [`range_bound`] holds with `m` in place of 2.
pub fn self_delimiting_bound()
    ensures { (w s : ℕ) (steps : List Step) (words : List ℕ) → IsSizes w s → AreSteps w steps → DelimitsSteps w s steps
        words → IsRangeBounded w s (s / w) steps words }
{}
