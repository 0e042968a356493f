//! How the two forms of a codeword relate: the prefix form for queues, and the suffix form for stacks.

ghost use Rattle.constriction_symbol.specs.Codewords.{formed};
ghost use Rattle.std.specs.Prelude.{Bool, List, Some, reverse, ◌≡◌};

use constriction_base::backends::{Queue, Stack};
use constriction_symbol::codebooks::{BitOrder, Codebook};

/// In every codebook, the suffix form of a codeword is the reverse of its prefix form.
///
/// A stack writes the suffix form. A queue writes the prefix form.
pub fn suffix_reverses_prefix<C: Codebook>()
    ensures { (codebook : C) (symbol : C.Symbol) (prefix suffix : List Bool) →
        formed (⟦<Queue as BitOrder>⟧.form) (C.codeword codebook symbol) ≡ Some prefix →
        formed (⟦<Stack as BitOrder>⟧.form) (C.codeword codebook symbol) ≡ Some suffix →
        suffix ≡ reverse prefix }
{}
