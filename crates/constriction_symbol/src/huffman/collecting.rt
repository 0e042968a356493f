//! Collects the weights for a Huffman tree from iterators.

ghost use Rattle.constriction_symbol.specs.Merging.{YieldsWeights, LendsWeights, StopsGiving, StopsLending};
ghost use Rattle.std.specs.Iterator.{IsFiniteIterable};
ghost use Rattle.std.specs.Prelude.{IfErr, IfOk};

use crate::huffman::error::HuffmanError;
use constriction_stream::encoding::Lent;
use constriction_words::BitArray;
use std::alloc::{AllocError, Global};

/// Collects the weights of an iterator of `Result`s, in order. Stops at the first error.
///
/// # Errors
///
/// - `Iterator(error)` if an item is `Err(error)`.
/// - `Memory` if there is no memory for a weight.
pub fn collect_given<P: BitArray, E, I>(
    alloc: Global,
    probabilities: I,
) -> Result<Vec<P>, HuffmanError<E>>
where
    I: IntoIterator<Item = Result<P, E>>,
    I::IntoIter: Drop,
    requires { IsFiniteIterable I.into_iter_gives I.IntoIter.can_next I.IntoIter.remaining probabilities }
    ensures ok { IfOk result (λ weights.
        YieldsWeights (I.into_iter_gives probabilities) I.IntoIter.next_gives weights.items) }
    ensures err { IfErr result (λ e. StopsGiving (I.into_iter_gives probabilities) I.IntoIter.next_gives e) }
{
    let mut weights = Vec::new(alloc);
    for item in probabilities {
        let weight = match item {
            Ok(weight) => weight,
            Err(error) => return Err(HuffmanError::Iterator(error)),
        };
        match weights.push(weight) {
            Ok(()) => {}
            Err(_) => return Err(HuffmanError::Memory),
        }
    }
    Ok(weights)
}

/// Collects the weights that the items of `probabilities` lend ([`Lent`]), in order.
///
/// # Errors
///
/// Returns `AllocError` if there is no memory for a weight.
pub fn collect_lent<P: BitArray, L, I>(
    alloc: Global,
    probabilities: I,
) -> Result<Vec<P>, AllocError>
where
    L: Lent<P> + Drop,
    I: IntoIterator<Item = L>,
    I::IntoIter: Drop,
    requires { IsFiniteIterable I.into_iter_gives I.IntoIter.can_next I.IntoIter.remaining probabilities }
    ensures ok { IfOk result (λ weights.
        LendsWeights (I.into_iter_gives probabilities) I.IntoIter.next_gives L.lent weights.items) }
    ensures err { IfErr result (λ _. StopsLending (I.into_iter_gives probabilities) I.IntoIter.next_gives) }
{
    let mut weights = Vec::new(alloc);
    for item in probabilities {
        match weights.push(*item.lend()) {
            Ok(()) => {}
            Err(_) => return Err(AllocError),
        }
    }
    Ok(weights)
}
