//! Checks whether the symbols to encode have weights above 0.
//!
//! A symbol is impossible if its weight is 0, or if the list of weights is too short for it. No coder can encode an
//! impossible symbol.

ghost use Rattle.std.specs.Prelude.{◌≡◌, ◌↔◌, ◌*◌, length, map, IsTrue};
ghost use Rattle.constriction_base.specs.Models.{AreKnown, Knows};
ghost use Rattle.constriction_inputs.specs.Rows.{row_items};
ghost use Rattle.constriction_inputs.specs.Weights.{weights_model};

use crate::symbol::Symbol;
use constriction_words::BitArray;

/// Returns whether each symbol has a weight above 0 in its own row of `width` weights. The call needs no memory.
///
/// `weights` has the rows one after another, in the order of `symbols`. The caller proves that there are `width`
/// weights for each symbol.
pub fn all_known_in_rows<P: BitArray, S: Symbol, const PRECISION: usize>(
    weights: &[P],
    width: usize,
    symbols: &[S],
) -> bool
    requires { length weights.now ≡ width * length symbols.now }
    ensures { IsTrue result ↔ AreKnown (row_items PRECISION width (map P.number weights.now)
        (S.numbers symbols.now)) }
{
    let mut start = 0;
    for i in 0..symbols.len() {
        let end = start + width;
        if !is_known::<P, PRECISION>(&weights[start..end], S::number_at(symbols, i)) {
            return false;
        }
        start = end;
    }
    true
}

/// Returns whether `symbol` is an index of `weights`, and the weight at that index is above 0.
pub fn is_known<P: BitArray, const PRECISION: usize>(weights: &[P], symbol: usize) -> bool
    ensures { IsTrue result ↔ Knows (weights_model PRECISION (map P.number weights.now)) symbol }
{
    if symbol >= weights.len() {
        return false;
    }
    !weights[symbol].is_nothing()
}
