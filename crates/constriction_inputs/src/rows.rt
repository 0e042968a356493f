//! Models that borrow their weights from a caller's buffer.
//!
//! A row of weights has one weight for each of the symbols `0`, `1`, and so on. The row describes a model if its
//! weights add up to `2^PRECISION`.

pub mod adding;
mod models;

ghost use Rattle.std.specs.Prelude.{◌≡◌, ◌↔◌, ◌≤◌, map, IfSome, IsSome};
ghost use Rattle.constriction_base.specs.Tables.{table_of};
ghost use Rattle.constriction_inputs.specs.Weights.{IsTotal};

use crate::rows::adding::is_total;
use constriction_base::model::EntropyModel;
use constriction_words::BitArray;

/// A model of the symbols `0`, `1`, .. that borrows their weights.
///
/// The intervals are in the order of the symbols. The length of each interval is its symbol's weight. A symbol of
/// weight 0 and a symbol past the end of the list have no interval. Each look-up adds up the weights from the beginning
/// of the list.
///
/// # Examples
///
/// ```
/// if let Some(row) = Row::<u8, 8>::new(&[255, 1]) {
///     row.left_cumulative_and_probability(&1) // Some((255, 1))
/// }
/// ```
#[derive(Drop)]
pub struct Row<'a, P: BitArray, const PRECISION: usize> {
    pub weights: &'a [P],
    ghost positive: { 1 ≤ PRECISION },
    ghost fits: { PRECISION ≤ P.BITS },
    ghost total: { IsTotal PRECISION (map P.number weights.now) },
}

impl<'a, P: BitArray, const PRECISION: usize> Row<'a, P, PRECISION> {
    /// Creates the model of `weights`, or returns `None` if the weights don't add up to `2 ^ PRECISION`.
    ///
    /// See [`Row`] for an example.
    pub fn new(weights: &'a [P]) -> Option<Self>
        requires { (1 ≤ PRECISION) × (PRECISION ≤ P.BITS) }
        ensures ok { IfSome result
            (λ row. ⟦<Row<'a, P, PRECISION> as EntropyModel<PRECISION>>⟧.table row
            ≡ table_of (map P.number weights.now)) }
        ensures weights { IfSome result (λ row. row.weights.now ≡ weights.now) }
        ensures variant { IsSome result ↔ IsTotal PRECISION (map P.number weights.now) }
    {
        if is_total::<P, PRECISION>(weights) {
            Some(Row { weights })
        } else {
            None
        }
    }

    /// Creates the model of `weights` without a check. The caller proves that the weights add up to `2 ^ PRECISION`.
    pub fn of_total(weights: &'a [P]) -> Self
        requires sizes { (1 ≤ PRECISION) × (PRECISION ≤ P.BITS) }
        requires total { IsTotal PRECISION (map P.number weights.now) }
        ensures { result.weights.now ≡ weights.now }
    {
        Row { weights }
    }
}
