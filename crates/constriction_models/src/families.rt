//! `Family`: a choice at run time between normal, Laplace and logistic distributions.

ghost use Rattle.std.specs.Prelude.{◌≡◌, ◌↔◌, IfSome, IsNone};
ghost use Rattle.constriction_models.specs.Families.{below_of_one, family_below, one_never_falls};

use crate::distribution::CumulativeDistribution;
use crate::gaussian::Gaussian;
use crate::laplace::Laplace;
use crate::location_scale::{Scale, inverse_of};
use crate::logistic::Logistic;

/// A distribution of one of three types, which a program chooses at run time.
///
/// # Examples
///
/// ```
/// if let Some(logistic) = Logistic::new(0, 65536) {
///     let distribution: FamilyDistribution = OneOf::Third(logistic);
/// }
/// ```
#[derive(Drop)]
pub enum OneOf<A, B, C> {
    /// A distribution of the first type.
    First(A),
    /// A distribution of the second type.
    Second(B),
    /// A distribution of the third type.
    Third(C),
}

impl<
    A: CumulativeDistribution,
    B: CumulativeDistribution,
    C: CumulativeDistribution,
> CumulativeDistribution for OneOf<A, B, C> {
    ghost below = { λ d. below_of_one A.below B.below C.below d };

    ghost never_falls = { λ d. one_never_falls A.below B.below C.below A.never_falls B.never_falls C.never_falls d };

    #[inline(always)]
    fn cumulative(&self, place: i64) -> u64 {
        match self {
            OneOf::First(distribution) => distribution.cumulative(place),
            OneOf::Second(distribution) => distribution.cumulative(place),
            OneOf::Third(distribution) => distribution.cumulative(place),
        }
    }

    #[inline(always)]
    fn guess(&self, below: u64) -> i64 {
        match self {
            OneOf::First(distribution) => distribution.guess(below),
            OneOf::Second(distribution) => distribution.guess(below),
            OneOf::Third(distribution) => distribution.guess(below),
        }
    }
}

/// A family of distributions with a location and a scale.
///
/// # Examples
///
/// ```
/// if let Some(distribution) = Family::Laplace.distribution(0, 65536) {
///     distribution.cumulative(0) // 2147483648, half of 2^32
/// }
/// ```
#[derive(Debug, Clone, Copy, PartialEq, Eq)]
pub enum Family {
    /// The normal distributions.
    Gaussian,
    /// The Laplace distributions.
    Laplace,
    /// The logistic distributions.
    Logistic,
}

/// A distribution of any of the families in [`Family`].
pub type FamilyDistribution = OneOf<Gaussian, Laplace, Logistic>;

impl Family {
    /// Returns the family's distribution with `location` and `scale`, or `None` if `scale` is 0.
    ///
    /// `location` and `scale` are in units of `2^-16`.
    #[inline]
    pub fn distribution(self, location: i64, scale: u32) -> Option<FamilyDistribution>
        ensures ok { IfSome result
            (λ d. ⟦<FamilyDistribution as CumulativeDistribution>⟧.below d ≡ family_below self location scale) }
        ensures none { IsNone result ↔ (scale ≡ 0) }
    {
        if scale == 0 {
            return None;
        }
        let inverse = inverse_of(scale);
        Some(match self {
            Family::Gaussian => OneOf::First(Scale::with_inverse(scale, inverse).at(location)),
            Family::Laplace => OneOf::Second(Scale::with_inverse(scale, inverse).at(location)),
            Family::Logistic => OneOf::Third(Scale::with_inverse(scale, inverse).at(location)),
        })
    }
}
