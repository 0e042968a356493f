//! Cutting a list of symbols into chunks.

ghost use Rattle.std.specs.Prelude.{◌≡◌, ◌↔◌, ◌≤◌, length, sum, IfOk, IsTrue};
ghost use Rattle.constriction_store.specs.Chunks.{lists_of};
ghost use Rattle.constriction_calls.specs.StoreCalls.{chunks_by};

use std::alloc::{AllocError, Global};

/// Returns whether the lengths add up to `count`. The result is exact, even if the sum doesn't fit a `usize`.
pub fn add_up(lengths: &[usize], count: usize) -> bool
    ensures { IsTrue result ↔ (sum lengths.now ≡ count) }
{
    let mut left = count;
    for len in lengths {
        if *len > left {
            return false;
        }
        left -= *len;
    }
    left == 0
}

/// Cuts `symbols` into chunks in order, and returns the chunks. Chunk `i` has `lengths[i]` symbols.
///
/// The caller proves that the sum of `lengths` is at most the number of symbols.
///
/// # Errors
///
/// The call returns `AllocError` if there is no memory.
pub fn cut(
    alloc: Global,
    symbols: &[usize],
    lengths: &[usize],
) -> Result<Vec<Vec<usize>>, AllocError>
    requires { sum lengths.now ≤ length symbols.now }
    ensures { IfOk result (λ chunks. lists_of chunks.items ≡ chunks_by symbols.now lengths.now) }
{
    let mut chunks = Vec::new(alloc);
    let mut start = 0;
    for i in 0..lengths.len() {
        let end = start + lengths[i];
        let chunk = symbols[start..end].to_vec(alloc)?;
        chunks.push(chunk)?;
        start = end;
    }
    Ok(chunks)
}
