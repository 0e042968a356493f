//! Laws of Exp-Golomb codewords: they are prefix-free, and their suffix forms end in zeros (except the one for 0).

ghost use Rattle.constriction_symbol.specs.Golomb.{binary, golomb};
ghost use Rattle.std.specs.Prelude.{Bool, List, false, length, replicate, reverse, ◌+◌, ◌++◌, ◌-◌, ◌≡◌, ℕ};

/// No Exp-Golomb codeword is a prefix of another.
pub fn golomb_is_prefix_free()
    ensures { (m n : ℕ) (tail : List Bool) → golomb n ≡ golomb m ++ tail → m ≡ n }
{}

/// The suffix form of an Exp-Golomb codeword ends in zeros, except the one for 0, which is a single 1.
///
/// The suffix form for `n` begins with the bits of `n + 1`, lowest bit first. If `n + 1` has `b` bits, `b - 1` zeros
/// follow.
pub fn golomb_suffix_ends_in_zeros()
    ensures { (n : ℕ) → reverse (golomb n) ≡ reverse (binary (n + 1)) ++ replicate (length (binary (n + 1)) - 1) false }
{}
