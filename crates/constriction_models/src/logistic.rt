//! `Logistic`: the logistic distribution.

mod table;

ghost use Rattle.constriction_models.specs.Logistic.{logistic_values, logistic_are_values, logistic_is_wide};

use crate::location_scale::{LocationScale, StandardDistribution};
use crate::logistic::table::{GUESSES, VALUES};

/// The logistic distribution with location 0 and scale 1, truncated at -32 and 32.
///
/// # Examples
///
/// ```
/// let values = StandardLogistic::table(); // 2049 values; values[1024] is half of 2^32
/// ```
#[derive(Clone, Copy)]
pub struct StandardLogistic;

/// A logistic distribution, given by its location and its scale.
///
/// The distribution function at `x` is `1 / (1 + exp(-(x - location) / scale))`.
///
/// # Examples
///
/// ```
/// // Location 3.5 and scale 2, as multiples of 2^-16.
/// if let Some(logistic) = Logistic::new(229376, 131072) {
///     logistic.cumulative(229376) // 2147483648, half of 2^32
/// }
/// ```
pub type Logistic = LocationScale<StandardLogistic>;

impl StandardDistribution for StandardLogistic {
    ghost values = { logistic_values };

    ghost WIDTH = { 64 };

    const WIDTH: u64 = 64;

    ghost are_values = { logistic_are_values };

    ghost width_law = { logistic_is_wide };

    #[inline(always)]
    fn table() -> &'static [u64] {
        &VALUES
    }

    #[inline(always)]
    fn guesses() -> &'static [u32] {
        &GUESSES
    }
}
