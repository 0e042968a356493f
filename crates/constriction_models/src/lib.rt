//! Entropy models that are computed in integer arithmetic, so that every machine computes the same table.
//!
//! A decoder needs exactly the encoder's table. A table computed in floating point may differ on another machine, and
//! the decoder then returns wrong symbols. This crate computes all models in integers, and proves that each model's
//! intervals partition the quantiles.
//!
//! - [`distribution`]: `CumulativeDistribution`, a cumulative distribution function in integers, with the law that it
//!   never falls.
//! - [`quantizer`]: `LeakyQuantizer`, which cuts a distribution function halfway between symbols. It creates two
//!   models: `LeakilyQuantizedDistribution`, and `IndexedDistribution`, whose `usize` symbols are counted from 0.
//! - [`location_scale`]: `LocationScale`, a standard distribution moved to a location and stretched by a scale;
//!   `Scale`, which holds the inverse that a `LocationScale` needs.
//! - [`gaussian`], [`laplace`], [`logistic`]: the distributions `Gaussian`, `Laplace` and `Logistic`.
//! - [`families`]: `Family`, which chooses one of these three at run time.
//! - [`mixture`]: `Mixture`, the weighted mean of distributions, each a `Component`. `MixtureError` is the error for
//!   components that can't form a mixture.
//! - [`uniform`], [`bernoulli`]: `UniformModel`, whose symbols have equal weights, and `BernoulliModel`, which has two
//!   symbols.
//! - [`categorical`]: `CategoricalCounts`, a model of a row of counts. `CategoricalError` is the error for counts that
//!   have no table.
//! - [`cumulative`]: `CumulativeCounts`, a model of a row of counts that keeps their sums, for rows with which many
//!   symbols are coded. `CumulativeError` is the error for counts whose model can't be made.
//! - [`counts`]: `weights_of_counts`, which computes weights in proportion to counts.
//! - [`lookup`]: `ContiguousLookupDecoderModel`, which finds a quantile's symbol with one look-up.
//! - [`errors`]: `SupportError`, the error for too few symbols, or too many for the precision.
//!
//! `docs/CONTRACTS.md` has the contract of each call that the crate `constriction` exports.
#![tactic(auto)]

pub mod bernoulli;
pub mod categorical;
pub mod counts;
pub mod cumulative;
pub mod distribution;
pub mod errors;
pub mod families;
pub mod floats;
pub mod gaussian;
mod interpolation;
mod intervals;
pub mod laplace;
pub mod location_scale;
pub mod logistic;
pub mod lookup;
pub mod mixture;
pub mod quantizer;
pub mod uniform;
