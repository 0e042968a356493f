//! The parent of each node of a Huffman tree. Climbing from a symbol's leaf to the root finds the symbol's codeword.

ghost use Rattle.constriction_symbol.specs.Codewords.{Emits};
ghost use Rattle.constriction_symbol.specs.Huffman.{AreUnions, GoesUp, IsParents, climbed};
ghost use Rattle.constriction_symbol.specs.Merging.{as_pair};
ghost use Rattle.std.specs.Prelude.{IfOk, length, map, reverse, ◌*◌, ◌+◌, ◌<◌, ◌^◌, ◌≡◌};

use constriction_base::errors::{CoderError, DefaultEncoderError};
use std::alloc::{AllocError, Global};

/// Returns a number for each node: twice its parent's index, plus 1 for a second child, or 0 for the root.
///
/// `pairs` lists the two children of each inner node. The root comes last in `pairs` and in the result. If there is no
/// memory for the result, the call returns `AllocError`.
pub fn parents_of(alloc: Global, pairs: &[[usize; 2]]) -> Result<Vec<usize>, AllocError>
    requires unions { AreUnions (length pairs.now + 1) (map as_pair pairs.now) }
    requires fits { 4 * length pairs.now + 4 < 2 ^ 64 }
    ensures count { IfOk result (λ nodes. length nodes.items ≡ 2 * length pairs.now + 1) }
    ensures ok { IfOk result (λ nodes. IsParents (length pairs.now + 1) (map as_pair pairs.now) nodes.items) }
{
    let symbols = pairs.len() + 1;
    let mut nodes = vec![in alloc; 0usize; 2 * pairs.len() + 1]?;
    for (step, pair) in pairs.iter().enumerate() {
        let parent = 2 * (symbols + step);
        nodes[pair[0]] = parent;
        nodes[pair[1]] = parent + 1;
    }
    Ok(nodes)
}

/// Emits the codeword of a symbol from the last bit to the first, climbing from the symbol's leaf to the root.
///
/// `nodes` is the list that [`parents_of`] returns. The call stops at the first error of `emit`, and returns
/// `Backend(error)`.
#[inline]
pub fn climb<E, F: FnMut(bool) -> Result<(), E>>(
    nodes: &[usize],
    symbol: usize,
    emit: &mut F,
) -> Result<(), DefaultEncoderError<E>>
    requires callable { F.IsAlwaysCallable emit.old }
    requires rising { GoesUp (length nodes.now) nodes.now }
    requires within { symbol < length nodes.now }
    ensures { Emits F.FnMut emit.old (reverse (climbed (length nodes.now) nodes.now symbol)) result emit.new }
{
    let mut index = symbol;
    while nodes[index] != 0 {
        let node = nodes[index];
        match emit(node % 2 == 1) {
            Ok(()) => {}
            Err(error) => return Err(CoderError::Backend(error)),
        }
        index = node / 2;
    }
    Ok(())
}
