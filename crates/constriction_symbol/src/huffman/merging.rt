//! Huffman's algorithm, which joins the two trees of least weight until one tree is left.
//!
//! A leaf is the tree of one symbol, and a union is a tree that a merge created. The leaves are sorted, and no union
//! weighs less than an earlier union. So the least tree left is either the first leaf left or the first union left. If
//! both have the same weight, the leaf is the lesser, because leaves have lower indices than unions.
//!
//! The constructors of Huffman trees collect all weights before the first merge, because the algorithm requires that
//! the sum of the weights fits their type. Collecting any weight may fail with `Memory`.

ghost use Rattle.constriction_symbol.specs.Huffman.{IsPairLe, keys_from};
ghost use Rattle.constriction_symbol.specs.Merging.{ArePairs, FitTree, MakeNoTree, all_keys, key_of, keys_of};
ghost use Rattle.constriction_symbol.specs.Queues.{AreQueues, AreRising};
ghost use Rattle.std.specs.VecDeque.{deque_len};
ghost use Rattle.std.specs.Prelude.{All, IfErr, IfNone, IfOk, IfSome, IsPermutation, IsTrue, OnOk, OnSome};
ghost use Rattle.std.specs.Prelude.{length, map, sum_by, ◌*◌, ◌+◌, ◌<◌, ◌^◌, ◌↔◌, ◌∷◌, ◌≡◌};

use crate::huffman::error::HuffmanError;
use crate::huffman::weighed::Weighed;
use constriction_words::BitArray;
use std::alloc::{AllocError, Global};
use std::collections::VecDeque;

/// Returns whether the sum of the weights fits their type, as a Huffman tree requires.
pub fn total_fits<P: BitArray>(weights: &[P]) -> bool
    ensures { IsTrue result ↔ (sum_by P.number weights.now < 2 ^ P.BITS) }
{
    let mut total = P::nothing();
    for weight in weights {
        if P::greatest().minus(total).is_below(*weight) {
            return false;
        }
        total = total.plus(*weight);
    }
    true
}

/// Returns a queue of the weights with their indices, sorted by weight and then by index.
fn sorted_leaves<P: BitArray>(
    alloc: Global,
    weights: &[P],
) -> Result<VecDeque<Weighed<P>>, AllocError>
    ensures rising { IfOk result (λ leaves. AreRising (keys_of P.number leaves.items)) }
    ensures items { IfOk result (λ leaves.
        IsPermutation (keys_from 0 (map P.number weights.now)) (keys_of P.number leaves.items)) }
{
    let mut leaves = Vec::with_capacity(alloc, weights.len())?;
    for (index, weight) in weights.iter().enumerate() {
        leaves.push(Weighed {
            weight: *weight,
            index,
        })?;
    }
    leaves.sort_unstable();
    Ok(VecDeque::from_vec(leaves))
}

/// Removes the least tree in the two queues and returns it, or returns `None` if both queues are empty.
///
/// `leaves` holds the trees of symbols, and `unions` holds the trees that merges created. If a leaf and a union have
/// the same weight, the leaf is the lesser.
fn take_least<P: BitArray>(
    leaves: &mut VecDeque<Weighed<P>>,
    unions: &mut VecDeque<Weighed<P>>,
) -> Option<Weighed<P>>
    requires { (n : _) × AreQueues n (keys_of P.number leaves.old.items) (keys_of P.number unions.old.items) }
    ensures queues { (n : _) → AreQueues n (keys_of P.number leaves.old.items) (keys_of P.number unions.old.items) →
        AreQueues n (keys_of P.number leaves.new.items) (keys_of P.number unions.new.items) }
    ensures none { IfNone result (deque_len leaves.old + deque_len unions.old ≡ 0) }
    ensures count { OnSome result
        (deque_len leaves.new + deque_len unions.new + 1 ≡ deque_len leaves.old + deque_len unions.old) }
    ensures rest { IfSome result (λ x. IsPermutation (all_keys P.number leaves.old.items unions.old.items)
        (key_of P.number x ∷ all_keys P.number leaves.new.items unions.new.items)) }
    ensures least { IfSome result (λ x.
        All (IsPairLe (key_of P.number x)) (all_keys P.number leaves.old.items unions.old.items)) }
{
    let Some(leaf) = leaves.front() else {
        return unions.pop_front();
    };
    let Some(union) = unions.front() else {
        return leaves.pop_front();
    };
    if union.weight.is_below(leaf.weight) {
        unions.pop_front()
    } else {
        leaves.pop_front()
    }
}

/// Merges the two trees of least weight until one tree is left. At first, each weight has a tree of its own.
///
/// Returns the indices of the two trees of each merge, in the order of the merges. The tree of `weights[i]` has index
/// `i`. The trees that merges create have the next indices, starting at `weights.len()`.
fn merge_all<P: BitArray>(alloc: Global, weights: &[P]) -> Result<Vec<[usize; 2]>, AllocError>
    requires some { 0 < length weights.now }
    requires total { sum_by P.number weights.now < 2 ^ P.BITS }
    requires fits { 2 * length weights.now < 2 ^ 64 }
    ensures { IfOk result (λ pairs. ArePairs (map P.number weights.now) pairs.items) }
{
    let mut leaves = sorted_leaves(alloc, weights)?;
    let mut unions = VecDeque::with_capacity(alloc, weights.len() - 1)?;
    let mut pairs = Vec::with_capacity(alloc, weights.len() - 1)?;
    let mut next = weights.len();
    while let Some(lesser) = take_least(&mut leaves, &mut unions) {
        let Some(other) = take_least(&mut leaves, &mut unions) else {
            return Ok(pairs);
        };
        unions.push_back(Weighed {
            weight: lesser.weight.plus(other.weight),
            index: next,
        })?;
        pairs.push([lesser.index, other.index])?;
        next += 1;
    }
    Ok(pairs)
}

/// Merges the trees of at most `most` weights, and returns the indices of the two trees of each merge, in order.
///
/// The tree of `weights[i]` has index `i`. The trees that merges create have the next indices, starting at
/// `weights.len()`. The caller proves that `2 * most` fits a `usize`.
///
/// # Errors
///
/// The call checks for errors in this order:
///
/// - `Empty` if there is no weight.
/// - `TooManySymbols` if there are more than `most` weights.
/// - `WeightOverflow` if the sum of the weights doesn't fit their type.
/// - `Memory` if there is no memory for the merge.
pub fn merge_pairs<P: BitArray, E>(
    alloc: Global,
    weights: &[P],
    most: usize,
) -> Result<Vec<[usize; 2]>, HuffmanError<E>>
    requires { 2 * most < 2 ^ 64 }
    ensures fit { OnOk result (FitTree P.number P.BITS most weights.now) }
    ensures ok { IfOk result (λ pairs. ArePairs (map P.number weights.now) pairs.items) }
    ensures err { IfErr result (λ e. MakeNoTree P.number P.BITS most weights.now e) }
{
    if weights.is_empty() {
        return Err(HuffmanError::Empty);
    }
    if weights.len() > most {
        return Err(HuffmanError::TooManySymbols);
    }
    if !total_fits(weights) {
        return Err(HuffmanError::WeightOverflow);
    }
    Ok(merge_all(alloc, weights)?)
}
