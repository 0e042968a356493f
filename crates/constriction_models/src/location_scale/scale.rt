//! `Scale`: a scale, stored with its inverse.

ghost use Rattle.std.specs.Prelude.{◌≡◌, ◌/◌, ◌↔◌, ◌<◌, IfSome, IsNone};
ghost use Rattle.constriction_models.specs.Interpolation.{scaled};

use crate::distribution::CumulativeDistribution;
use crate::location_scale::{LocationScale, StandardDistribution};
use constriction_words::BitArray;
use std::alloc::AllocError;
use std::marker::PhantomData;

/// A scale of a family of distributions, stored with its inverse.
///
/// The scale is a multiple of `2^-16`. `Scale::new` computes the inverse, and `Scale::at` doesn't. A program whose
/// scales repeat or come from a table can keep values of this type. The program then creates the distribution of each
/// symbol by copying numbers.
///
/// # Examples
///
/// ```
/// // Standard deviation 1, as a multiple of 2^-16.
/// if let Some(scale) = Scale::<StandardNormal>::new(65536) {
///     // Mean 3.5: the same distribution as `Gaussian::new(229376, 65536)`.
///     scale.at(229376).cumulative(229376) // 2147483648, half of 2^32
/// }
/// ```
#[derive(Drop, Copy)]
pub struct Scale<D: StandardDistribution> {
    scale: u32,
    /// `2^63 / (D::WIDTH * scale)`, rounded down, as in [`LocationScale`].
    rate: u64,
    standard: PhantomData<D>,
    ghost rated: { rate ≡ 9223372036854775808 / D.WIDTH / scale },
}

impl<D: StandardDistribution> Scale<D> {
    ghost use Rattle.constriction_models.specs.Scales.{scale_number};

    /// Creates a scale, or returns `None` if `scale` is 0.
    ///
    /// `scale` is in units of `2^-16`. See the type's documentation for an example.
    #[inline]
    pub fn new(scale: u32) -> Option<Self>
        ensures ok { IfSome result (λ s. scale_number s ≡ scale) }
        ensures none { IsNone result ↔ (scale ≡ 0) }
    {
        if scale == 0 {
            return None;
        }
        Some(Scale::with_inverse(scale, inverse_of(scale)))
    }

    /// Creates a scale from its number, which is above 0, and the number's inverse.
    ///
    /// The caller proves that `inverse` is `2^63 / scale`, rounded down.
    #[inline]
    pub(crate) fn with_inverse(scale: u32, inverse: u64) -> Self
        requires { inverse ≡ 9223372036854775808 / scale }
        ensures { scale_number result ≡ scale }
    {
        Scale {
            scale,
            rate: inverse / D::WIDTH,
            standard: PhantomData,
        }
    }

    /// Returns the scale in units of `2^-16`.
    ///
    /// # Examples
    ///
    /// ```
    /// if let Some(scale) = Scale::<StandardNormal>::new(65536) {
    ///     scale.get() // 65536
    /// }
    /// ```
    #[inline]
    pub fn get(self) -> u32
        ensures { result ≡ scale_number self }
    {
        self.scale
    }

    /// Returns the distribution with `location` and this scale.
    ///
    /// `location` is in units of `2^-16`. See the type's documentation for an example.
    #[inline]
    pub fn at(self, location: i64) -> LocationScale<D>
        ensures { ⟦<LocationScale<D> as CumulativeDistribution>⟧.below result
            ≡ scaled D.values D.WIDTH location (scale_number self) }
    {
        LocationScale {
            location,
            scale: self.scale,
            rate: self.rate,
            standard: PhantomData,
        }
    }
}

impl<D: StandardDistribution> Clone for Scale<D> {
    ghost is_clone = { λ old new. new ≡ old };

    ghost is_infallible = { λ _. Unit {0} };

    /// Returns the same scale. The call never fails.
    fn clone(&self) -> Result<Self, AllocError> {
        Ok(*self)
    }
}

/// Returns `2^63 / scale`, rounded down. The caller proves that `scale` is above 0.
///
/// The call is faster for scales from `2^13` on, which is 1/8, than for smaller ones.
#[inline(always)]
pub(crate) fn inverse_of(scale: u32) -> u64
    requires { 0 < scale }
    ensures { result ≡ 9223372036854775808 / scale }
{
    9223372036854775808u64.div_rem(scale as u64, 50).0
}
