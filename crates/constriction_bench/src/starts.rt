//! Listing the starts of the intervals of a model's symbols.

ghost use Rattle.std.specs.Prelude.{◌-◌, ◌<◌, IfSome};
ghost use Rattle.constriction_bench.specs.Starts.{AreStarts};

use constriction_base::model::{EncoderModel, EntropyModel};
use constriction_words::{BitArray, WordOf};
use std::alloc::Global;

/// Returns the first quantile of each symbol below `count`, and then the end of the last symbol's interval.
///
/// Returns `None` if one of these symbols has no entry in `model`, or if there is no memory. Also returns `None` if an
/// interval doesn't begin where the previous symbol's interval ends (the first: at 0), or if it ends past
/// `2^PRECISION`.
pub fn starts_of<M: EncoderModel<PRECISION, Symbol = usize>, const PRECISION: usize>(
    alloc: Global,
    model: &M,
    count: usize,
) -> Option<Vec<u32>>
where
    M::Probability: WordOf<u32>,
    requires { PRECISION < 32 }
    ensures { IfSome result (λ starts. AreStarts PRECISION (M.table model.now) starts.items count) }
{
    let total = 1u32 << PRECISION as u32;
    let mut starts = Vec::new(alloc);
    let mut end = 0u32;
    starts.push(end).ok()?;
    for symbol in 0..count {
        let (left, p) = model.left_cumulative_and_probability(&symbol)?;
        let p: u32 = M::Probability::from_nonzero(p).widen();
        if left.widen() != end || p > total - end {
            return None;
        }
        end += p;
        starts.push(end).ok()?;
    }
    Some(starts)
}
