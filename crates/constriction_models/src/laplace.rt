//! `Laplace`: the Laplace distribution.

mod table;

ghost use Rattle.constriction_models.specs.Laplace.{laplace_values, laplace_are_values, laplace_is_wide};

use crate::laplace::table::{GUESSES, VALUES};
use crate::location_scale::{LocationScale, StandardDistribution};

/// The Laplace distribution with location 0 and scale 1, truncated at -32 and 32.
///
/// # Examples
///
/// ```
/// let values = StandardLaplace::table(); // 2049 values; values[1024] is half of 2^32
/// ```
#[derive(Clone, Copy)]
pub struct StandardLaplace;

/// A Laplace distribution, given by its location and its scale.
///
/// The density at `x` is proportional to `exp(-|x - location| / scale)`.
///
/// # Examples
///
/// ```
/// // Location 3.5 and scale 2, as multiples of 2^-16.
/// if let Some(laplace) = Laplace::new(229376, 131072) {
///     laplace.cumulative(229376) // 2147483648, half of 2^32
/// }
/// ```
pub type Laplace = LocationScale<StandardLaplace>;

impl StandardDistribution for StandardLaplace {
    ghost values = { laplace_values };

    ghost WIDTH = { 64 };

    const WIDTH: u64 = 64;

    ghost are_values = { laplace_are_values };

    ghost width_law = { laplace_is_wide };

    #[inline(always)]
    fn table() -> &'static [u64] {
        &VALUES
    }

    #[inline(always)]
    fn guesses() -> &'static [u32] {
        &GUESSES
    }
}
