//! Checks the sums of the weights of mixtures.

ghost use Rattle.std.specs.Prelude.{◌≡◌, ◌↔◌, ◌*◌, length, IsTrue};
ghost use Rattle.constriction_inputs.specs.Mixtures.{AreMixable, IsMixable};

/// Returns whether `weights` add up to at least 1 and at most `2^32`.
fn is_mixable(weights: &[u32]) -> bool
    ensures { IsTrue result ↔ IsMixable weights.now }
{
    let mut total = 0u64;
    for weight in weights {
        total += *weight as u64;
        if total > 4294967296 {
            return false;
        }
    }
    total != 0
}

/// Returns whether each of `count` rows of `width` weights adds up to at least 1 and at most `2^32`.
///
/// `weights` has the rows one after another. The caller proves that `weights` has `count` rows.
pub(super) fn are_mixable(weights: &[u32], width: usize, count: usize) -> bool
    requires { length weights.now ≡ width * count }
    ensures { IsTrue result ↔ AreMixable width count weights.now }
{
    let mut start = 0;
    for _done in 0..count {
        let end = start + width;
        if !is_mixable(&weights[start..end]) {
            return false;
        }
        start = end;
    }
    true
}
