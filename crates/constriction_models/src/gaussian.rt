//! `Gaussian`: the normal distribution.

mod table;

ghost use Rattle.constriction_models.specs.Normal.{normal_values, normal_are_values, normal_is_wide};

use crate::gaussian::table::{GUESSES, VALUES};
use crate::location_scale::{LocationScale, StandardDistribution};

/// The normal distribution with mean 0 and standard deviation 1, truncated at -8 and 8.
///
/// # Examples
///
/// ```
/// let values = StandardNormal::table(); // 2049 values; values[1024] is half of 2^32
/// ```
#[derive(Clone, Copy)]
pub struct StandardNormal;

/// A normal distribution, given by its mean (the location) and its standard deviation (the scale).
///
/// # Examples
///
/// ```
/// // Mean 3.5 and standard deviation 2, as multiples of 2^-16.
/// if let Some(gaussian) = Gaussian::new(229376, 131072) {
///     gaussian.cumulative(229376) // 2147483648, half of 2^32
/// }
/// ```
pub type Gaussian = LocationScale<StandardNormal>;

impl StandardDistribution for StandardNormal {
    ghost values = { normal_values };

    ghost WIDTH = { 16 };

    const WIDTH: u64 = 16;

    ghost are_values = { normal_are_values };

    ghost width_law = { normal_is_wide };

    #[inline(always)]
    fn table() -> &'static [u64] {
        &VALUES
    }

    #[inline(always)]
    fn guesses() -> &'static [u32] {
        &GUESSES
    }
}
