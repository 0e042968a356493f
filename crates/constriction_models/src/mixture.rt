//! `Mixture`: the weighted mean of distributions.

ghost use Rattle.std.specs.Prelude.{◌≡◌, ◌↔◌, ◌+◌, ◌*◌, ◌/◌, ◌<◌, ◌≤◌, [], length, IfOk};
ghost use Rattle.std.specs.Prelude.{IsErrOf};
ghost use Rattle.constriction_models.specs.Mixtures.{mixed, weighted, total_weight};
ghost use Rattle.constriction_models.specs.laws.Mixing.{mixed_is_distribution};

use crate::distribution::CumulativeDistribution;
use thiserror::Error;

/// A component of a mixture: a distribution, and its weight in the weighted mean.
///
/// # Examples
///
/// ```
/// if let Some(distribution) = Logistic::new(0, 65536) {
///     let component = Component { weight: 3, distribution };
/// }
/// ```
#[derive(Debug, Clone, Copy, Drop)]
pub struct Component<D> {
    /// The weight of the distribution, relative to the sum of all weights.
    pub weight: u32,
    /// The distribution of the component.
    pub distribution: D,
}

/// The error for components that can't form a mixture.
///
/// # Examples
///
/// ```
/// Mixture::<Logistic>::new(&[]) // Err(MixtureError::Empty)
/// ```
#[derive(Debug, Clone, Copy, PartialEq, Eq, Hash, Error)]
pub enum MixtureError {
    /// There are no components.
    #[error("a mixture of no components")]
    Empty,
    /// All weights are 0.
    #[error("weights that are all 0")]
    NoWeight,
    /// The weights add up to more than `2^32`.
    #[error("weights that add up to more than two to 32")]
    TooMuchWeight,
}

/// A mixture of distributions: the weighted mean of their distribution functions.
///
/// At each place, the mixture divides the sum of the weighted distribution functions by the sum of the weights, and
/// rounds down once. The mixture borrows its components, so a caller can refill one list of components for each symbol.
///
/// # Examples
///
/// ```
/// // Two logistic distributions, at 0 and at 10. The first has three quarters of the weight.
/// if let (Some(low), Some(high)) = (Logistic::new(0, 65536), Logistic::new(655360, 65536)) {
///     let components = [
///         Component { weight: 3, distribution: low },
///         Component { weight: 1, distribution: high },
///     ];
///     let mixture = Mixture::new(&components)?;
///     mixture.cumulative(327680) // at 5: about 0.747 times 2^32
/// }
/// ```
#[derive(Drop)]
pub struct Mixture<'a, D: CumulativeDistribution> {
    components: &'a [Component<D>],
    /// The sum of the weights.
    total: u64,
    /// `2^64 - 1` divided by `total`, rounded down.
    rate: u64,
    ghost summed: { total ≡ total_weight (weighted D.below components.now) },
    ghost some: { 0 < total_weight (weighted D.below components.now) },
    ghost most: { total_weight (weighted D.below components.now) ≤ 4294967296 },
    ghost rated: { rate ≡ 18446744073709551615 / total },
}

impl<'a, D: CumulativeDistribution> Mixture<'a, D> {
    /// Creates the mixture of `components`. See the type's documentation for an example.
    ///
    /// # Errors
    ///
    /// - `Empty`: there are no components.
    /// - `NoWeight`: there are components, but all their weights are 0.
    /// - `TooMuchWeight`: the weights add up to more than `2^32`.
    #[inline]
    pub fn new(components: &'a [Component<D>]) -> Result<Self, MixtureError>
        ensures ok { IfOk result (λ m. ⟦<Mixture<'a, D> as CumulativeDistribution>⟧.below m
            ≡ mixed (weighted D.below components.now)) }
        ensures empty { IsErrOf result MixtureError.Empty ↔ (components.now ≡ []) }
        ensures no_weight { IsErrOf result MixtureError.NoWeight
            ↔ ((components.now ≡ [] → ⊥) × (total_weight (weighted D.below components.now) ≡ 0)) }
        ensures too_much_weight { IsErrOf result MixtureError.TooMuchWeight
            ↔ (4294967296 < total_weight (weighted D.below components.now)) }
    {
        if components.is_empty() {
            return Err(MixtureError::Empty);
        }
        let mut total = 0u64;
        for component in components {
            total += component.weight as u64;
            if total > 4294967296 {
                return Err(MixtureError::TooMuchWeight);
            }
        }
        if total == 0 {
            return Err(MixtureError::NoWeight);
        }
        Ok(Mixture {
            components,
            total,
            rate: 18446744073709551615 / total,
        })
    }

    /// Returns `sum` divided by the sum of the weights, rounded down.
    ///
    /// The caller proves that `sum` is at most `2^32` times the sum of the weights.
    #[inline(always)]
    fn mean(&self, sum: u128) -> u64
        requires { sum ≤ self.now.total * 4294967296 }
        ensures { result ≡ sum / self.now.total }
    {
        if sum >> 64 != 0 {
            return 4294967296;
        }
        let near = ((sum * self.rate as u128) >> 64) as u64;
        if sum as u64 - near * self.total >= self.total {
            near + 1
        } else {
            near
        }
    }

    /// Estimates the place at which the mixture reaches `below`, as if its components didn't overlap.
    ///
    /// `below` is in units of `2^-32`, and `places[k]` is the guess of component `k` for `below`. The call multiplies
    /// `below`, limited to `2^32 - 1`, by the sum of the weights. Then `share_of` finds the component whose share holds
    /// the product, and how much of the share lies below the product. The result is that component's guess for this
    /// part of its share.
    fn place_by_shares(&self, places: &[i64; FEW], below: u64) -> i64 {
        let sum = below.min(4294967295) * self.total;
        let (k, inside) = self.share_of(places, sum);
        self.components[k].distribution.guess(inside)
    }

    /// Returns the number `k` of the component whose share holds `sum`, and how much of the share lies below `sum`.
    ///
    /// A component of weight `w` has a share of `w * 2^32` numbers. The first share begins at 0, and each other share
    /// begins where the previous one ends. `places[k]` is the guess of component `k`, and the shares are in ascending
    /// order of these guesses. The second number of the result is in units of `2^-32` of the share. If no share holds
    /// `sum`, the call returns 0 and one half of `2^32`.
    fn share_of(&self, places: &[i64; FEW], sum: u64) -> (usize, u64)
        ensures { result.0 < length self.now.components.now }
    {
        for k in 0..self.components.len().min(FEW) {
            let weight = self.components[k].weight as u64;
            let before = self.weight_before(places, places[k], k) << 32;
            if before <= sum && (sum - before) >> 32 < weight {
                return (k, (sum - before) / weight);
            }
        }
        (0, 2147483648)
    }

    /// Returns the sum of the weights of the components that come before component `k`, whose guess is `place`.
    ///
    /// Component `i` comes before component `k` if `places[i]` is below `place`, or if `places[i]` equals `place` and
    /// `i` is below `k`. Only the first 8 components count.
    #[inline(always)]
    fn weight_before(&self, places: &[i64; FEW], place: i64, k: usize) -> u64 {
        let mut before = 0u64;
        for i in 0..self.components.len().min(FEW) {
            let lower = places[i] < place || (places[i] == place && i < k);
            before = before.wrapping_add(if lower {
                self.components[i].weight as u64
            } else {
                0
            });
        }
        before
    }
}

impl<'a, D: CumulativeDistribution> CumulativeDistribution for Mixture<'a, D> {
    ghost below = { λ m. mixed (weighted D.below m.components.now) };

    ghost never_falls = { λ m. mixed_is_distribution D.below m.components.now D.never_falls m.some };

    #[inline(always)]
    fn cumulative(&self, place: i64) -> u64 {
        let mut sum = 0u128;
        for component in self.components {
            sum += component.weight as u128 * component.distribution.cumulative(place) as u128;
        }
        self.mean(sum)
    }

    /// Estimates the place at which the mixture reaches `below`, from the guesses of the components.
    ///
    /// The call follows one of two rules, in which one symbol is a distance of 65536.
    ///
    /// - The first rule applies if the least and the greatest guess lie more than 64 symbols apart, and there are at
    ///   most 8 components. The call then assumes that the components don't overlap. The result is a guess of the
    ///   component in which `below` falls, limited to the range from the least to the greatest guess.
    /// - Otherwise the result is the weighted mean of the guesses. In this mean, a guess more than 32768 symbols from
    ///   the first component's guess counts as a guess 32768 symbols from it.
    #[inline(always)]
    fn guess(&self, below: u64) -> i64 {
        let first = self.components[0].distribution.guess(below);
        let mut places = [first; FEW];
        let mut least = first;
        let mut greatest = first;
        let mut all = self.components[0].weight as u128 * 2147483648;
        for k in 1..self.components.len() {
            let one = &self.components[k];
            let place = one.distribution.guess(below);
            if k < FEW {
                places[k] = place;
            }
            least = least.min(place);
            greatest = greatest.max(place);
            all = all.wrapping_add(one.weight as u128 * clamp_distance(place, first) as u128);
        }
        if greatest.saturating_sub(least) > FAR && self.components.len() <= FEW {
            return self
                .place_by_shares(&places, below)
                .max(least)
                .min(greatest);
        }
        let mean = self.mean(all.min(self.total as u128 * 4294967296));
        first.saturating_sub(2147483648).saturating_add(mean as i64)
    }
}

/// The distance between the least and the greatest guess above which `guess` avoids their mean: 64 symbols.
const FAR: i64 = 4194304;

/// The greatest number of components for which `guess` uses `place_by_shares`.
const FEW: usize = 8;

/// Returns how far `place` lies above `middle - 2^31`, limited to the range from 0 to `2^32`.
///
/// `2^31` is the distance of 32768 symbols.
#[inline(always)]
fn clamp_distance(place: i64, middle: i64) -> u64
    ensures { result ≤ 4294967296 }
{
    let from = place.saturating_sub(middle);
    if from < -2147483648 {
        0
    } else if from > 2147483648 {
        4294967296
    } else {
        (from + 2147483648) as u64
    }
}
