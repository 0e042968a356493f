//! Checks that a caller's lists have a row for each coder.

ghost use Rattle.std.specs.Prelude.{◌≡◌, ◌↔◌, ◌*◌, ◌/◌, ◌<◌, ◌≤◌, ℕ, length, slice_index, IfNone, IfSome, IsTrue};
ghost use Rattle.constriction_lanes.specs.LaneCalls.{AreLanes};

/// Returns the number of words and the number of symbols of a coder, if the lengths match for `n` coders.
///
/// `words` and `symbols` are the numbers of words and symbols of all coders, and `lens` has the numbers of words in
/// use. Returns `None` if one of the lists doesn't have a row for each coder, or if a number of words in use is past
/// the end of its row.
pub fn row_lengths(n: usize, words: usize, lens: &[usize], symbols: usize) -> Option<(usize, usize)>
    ensures lanes { IfSome result (λ found. AreLanes n words lens.now symbols
        × (found.0 ≡ words / n) × (found.1 ≡ symbols / n)) }
    ensures wrong { IfNone result (AreLanes n words lens.now symbols → ⊥) }
{
    if lens.len() != n {
        return None;
    }
    let width = row_length(n, words)?;
    let count = row_length(n, symbols)?;
    if are_within(lens, width) {
        Some((width, count))
    } else {
        None
    }
}

/// Returns the number of items in a row, if `total` items make `n` rows of the same length.
fn row_length(n: usize, total: usize) -> Option<usize>
    ensures rows { IfSome result (λ length. (length ≡ total / n) × (total ≡ n * (total / n))) }
    ensures wrong { IfNone result (total ≡ n * (total / n) → ⊥) }
{
    if n == 0 {
        return if total == 0 { Some(0) } else { None };
    }
    let length = total / n;
    if total % n == 0 { Some(length) } else { None }
}

/// Returns whether no number of `lens` is above `width`.
fn are_within(lens: &[usize], width: usize) -> bool
    ensures { IsTrue result ↔ ((j : ℕ) → j < length lens.now → slice_index lens.now j ≤ width) }
{
    for j in 0..lens.len() {
        if lens[j] > width {
            return false;
        }
    }
    true
}
