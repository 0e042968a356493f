//! `LocationScale`: a standard distribution, moved to a location and stretched by a scale.

mod scale;

ghost use Rattle.std.specs.Prelude.{◌≡◌, ℕ, ◌*◌, ◌/◌, ◌<◌, ◌≤◌, ◌↔◌, List, length, IfSome, IsNone};
ghost use Rattle.constriction_models.specs.Interpolation.{AreValues, scaled};
ghost use Rattle.constriction_models.specs.laws.Interpolating.{scaled_is_distribution};

use crate::distribution::CumulativeDistribution;
use crate::interpolation::{guess_place, interpolate};
pub use scale::Scale;
pub(crate) use scale::inverse_of;
use std::alloc::AllocError;
use std::marker::PhantomData;

/// The standard distribution of a family, with location 0 and scale 1, as a table of its distribution function.
///
/// The table has the values at 2049 evenly spaced places, from `-WIDTH / 2` to `WIDTH / 2` scales. Below the first
/// place, the distribution function is 0. At and above the last place, it is `2^32`.
///
/// An implementor proves that `table` returns the values and that `guesses` returns 1025 numbers. An implementor also
/// proves two laws:
///
/// - `are_values`: there are 2049 values, they never fall, and the last is `2^32`.
/// - `width_law`: the table is at least 1 and at most 64 scales wide.
pub trait StandardDistribution: Copy {
    // The 2049 values of the distribution function, in units of 2 ^ -32.
    ghost values: { List ℕ };

    // The width of the table as a multiple of the scale, for use in contracts.
    ghost WIDTH: { ℕ };

    /// The width of the table, as a multiple of the scale.
    const WIDTH: u64;

    // There are 2049 values, they never fall, and the last is 2 ^ 32.
    ghost are_values: { AreValues values };

    // The table is at least 1 and at most 64 scales wide.
    ghost width_law: { (1 ≤ WIDTH) × (WIDTH ≤ 64) };

    /// Returns the 2049 values of the distribution function, in units of `2^-32`.
    fn table() -> &'static [u64]
        ensures { result.now ≡ values };

    /// Returns 1025 estimates of where the distribution function reaches 0, 1/1024, 2/1024, .., 1.
    ///
    /// An estimate is the distance from the table's start, in 65536ths of the table's spacing. Every list of 1025
    /// numbers is allowed. Accurate estimates make decoding fast.
    fn guesses() -> &'static [u32]
        ensures { length result.now ≡ 1025 };
}

/// The distribution of a family with a location and a scale, both multiples of `2^-16`.
///
/// The type `D` is the family's standard distribution. The distribution function interpolates the table of `D`
/// linearly.
///
/// # Examples
///
/// ```
/// // The normal distribution of mean 3.5 and standard deviation 2.
/// if let Some(gaussian) = LocationScale::<StandardNormal>::new(229376, 131072) {
///     gaussian.cumulative(229376) // 2147483648, half of 2^32
/// }
/// ```
#[derive(Drop, Copy)]
pub struct LocationScale<D: StandardDistribution> {
    location: i64,
    scale: u32,
    /// `2^63 / (D::WIDTH * scale)`, rounded down.
    ///
    /// Multiplying a distance in units of `2^-16` by `rate / 2^36` converts it to 65536ths of the table's spacing.
    rate: u64,
    standard: PhantomData<D>,
    ghost rated: { rate ≡ 9223372036854775808 / D.WIDTH / scale },
}

impl<D: StandardDistribution> LocationScale<D> {
    /// Creates the distribution with `location` and `scale`, or returns `None` if `scale` is 0.
    ///
    /// `location` and `scale` are in units of `2^-16`. Each call computes the scale's inverse. If scales repeat,
    /// [`Scale::at`] saves this. See the type's documentation for an example.
    #[inline]
    pub fn new(location: i64, scale: u32) -> Option<Self>
        ensures ok { IfSome result
            (λ d. ⟦<LocationScale<D> as CumulativeDistribution>⟧.below d ≡ scaled D.values D.WIDTH location scale) }
        ensures none { IsNone result ↔ (scale ≡ 0) }
    {
        let scale = Scale::new(scale)?;
        Some(scale.at(location))
    }
}

impl<D: StandardDistribution> Clone for LocationScale<D> {
    ghost is_clone = { λ old new. new ≡ old };

    ghost is_infallible = { λ _. Unit {0} };

    /// Returns the same distribution. The call never fails.
    fn clone(&self) -> Result<Self, AllocError> {
        Ok(*self)
    }
}

impl<D: StandardDistribution> CumulativeDistribution for LocationScale<D> {
    ghost below = { λ d. scaled D.values D.WIDTH d.location d.scale };

    ghost never_falls = { λ d. scaled_is_distribution D.values D.WIDTH d.location d.scale D.are_values };

    #[inline(always)]
    fn cumulative(&self, place: i64) -> u64 {
        let wide = D::WIDTH * self.scale as u64;
        interpolate(D::table(), wide, self.rate, self.location, place)
    }

    #[inline(always)]
    fn guess(&self, below: u64) -> i64 {
        let wide = D::WIDTH * self.scale as u64;
        guess_place(D::guesses(), wide, self.location, below)
    }
}
