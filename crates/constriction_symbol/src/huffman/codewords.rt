//! The codewords of a tree's nodes, each stored as one number.
//!
//! The number is a leading 1 followed by the bits of the codeword. For a codeword of `usize::BITS` bits or more, the
//! number is 0. The encoder finds such a codeword by climbing the tree.

ghost use Rattle.constriction_symbol.specs.Codewords.{IsLowBits};
ghost use Rattle.constriction_symbol.specs.EncoderTree.{HasBelowOne, HasCodewords, OneBitMore};
ghost use Rattle.constriction_symbol.specs.Huffman.{GoesUp};
ghost use Rattle.std.specs.Prelude.{Bool, IfOk, IfSome, List, OnSome, Some, length, ◌<◌};

use crate::numbers::same_number;
use constriction_words::BitArray;
use std::alloc::{AllocError, Global};

/// Returns the number that stores a child's codeword: its parent's number `above`, with `bit` (0 or 1) appended.
///
/// Returns 0 if `above` is 0, or if the result doesn't fit a `usize`.
fn codeword_below(above: usize, bit: usize) -> usize
    requires { bit < 2 }
    ensures { OneBitMore above bit result }
{
    if above == 0 || above > usize::MAX / 2 {
        return 0;
    }
    2 * above + bit
}

/// Returns each node's codeword, stored as one number. `nodes` is the list that `parents_of` returns.
///
/// The number is a leading 1 followed by the codeword from its first bit to its last. For a codeword of `usize::BITS`
/// bits or more, the number is 0, because the leading 1 and the bits don't fit a `usize`. If there is no memory for the
/// result, the call returns `AllocError`.
pub fn codewords_of(alloc: Global, nodes: &[usize]) -> Result<Vec<usize>, AllocError>
    requires rising { GoesUp (length nodes.now) nodes.now }
    ensures { IfOk result (λ codewords. HasCodewords nodes.now codewords.items) }
{
    let mut codewords = vec![in alloc; 1usize; nodes.len()]?;
    let mut index = nodes.len();
    while index > 0 {
        index -= 1;
        let entry = nodes[index];
        if entry != 0 {
            codewords[index] = codeword_below(codewords[entry / 2], entry % 2);
        }
    }
    Ok(codewords)
}

/// Returns the bits of `number` below its highest 1, and the count of these bits.
///
/// Returns `None` if `number` is below 2, or if the count is at least `Word::BITS`.
#[inline]
pub fn below_one<Word: BitArray>(number: usize) -> Option<(Word, u32)>
    ensures some { OnSome result (1 < number) }
    ensures bits { IfSome result (λ found. (bits : List Bool) → HasBelowOne bits number →
        IsLowBits Word.BITS (Some bits) (Word.number found.0) found.1) }
{
    if number < 2 {
        return None;
    }
    let count = number.bit_length() - 1;
    if count >= Word::BITS {
        return None;
    }
    Some((same_number(number.low_bits(count)), count))
}
