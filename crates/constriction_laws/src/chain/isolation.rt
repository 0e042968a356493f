//! Isolation on the chain coder: replacing the model of one symbol can change only that symbol and the remainders.

ghost use Rattle.std.specs.Prelude.{ℕ, List};
ghost use Rattle.constriction_chain.specs.Chain.{ChainState};
ghost use Rattle.constriction_chain.specs.Runs.{Event, IsRun, decodings, AreIsolated};
ghost use Rattle.constriction_laws.specs.chain.Lists.{FromSameBits};

/// If two coders begin with equal compressed heads and words, decodes with equal tables return equal symbols.
///
/// Each coder performs a list of decodes and changes of the precision. The law compares the `k`-th decode of one coder
/// with the `k`-th decode of the other. The comparison ends at the first decode for which the precisions of the two
/// coders differ.
pub fn symbols_are_isolated<A>()
    ensures { (w s : ℕ) (x u y v : ChainState) (es fs : List (Event A)) → FromSameBits x u (IsRun w s x es y → IsRun w s
        u fs v → AreIsolated (decodings es) (decodings fs)) }
{}
