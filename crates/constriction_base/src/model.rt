//! Model traits. A model gives each of its symbols an interval, whose length stands for the symbol's probability.
//!
//! A model of a given precision (in bits) partitions its quantiles, the numbers below `2 ^ PRECISION`, into intervals.
//! Each symbol that the model can code has one interval. The interval's length, divided by `2 ^ PRECISION`, is the
//! symbol's probability. [`EncoderModel`] finds the interval of a symbol. [`DecoderModel`] finds the interval that
//! holds a quantile. Both traits require [`EntropyModel`], whose laws state that the intervals partition the quantiles.
//! If `M` is a model, `&M` is a model too.

ghost use Rattle.std.specs.Prelude.{◌≡◌, ℕ, ◌^◌, ◌<◌, ◌≤◌, List, length, IfSome, IfNone};
ghost use Rattle.constriction_base.specs.Tables.{Has, Impossible, IsTable, Covers};
ghost use Rattle.constriction_words.specs.Reciprocals.{IsReciprocalOf};

use constriction_words::{BitArray, Reciprocal};

/// A model: a table that gives each of its symbols an interval of the numbers below `2 ^ PRECISION`.
///
/// An implementor chooses which symbols have an interval, the order of the intervals, and their lengths. It then
/// proves three laws for each value of the type:
///
/// - `lawful`: the intervals lie one after another from 0 to `2 ^ PRECISION`, without gap or overlap. No interval is
///   empty, and no symbol has two intervals.
/// - `sized`: `PRECISION` is at least 1 and at most `Probability::BITS`.
/// - `two_symbols`: if `PRECISION` equals `Probability::BITS`, the table has at least two symbols. The length of a
///   single interval, `2 ^ PRECISION`, wouldn't fit `Probability`.
pub trait EntropyModel<const PRECISION: usize>: Drop {
    /// The type of the symbols.
    type Symbol: Drop;

    /// The type of quantiles and of the starts of intervals. Lengths of intervals have the type `Probability::NonZero`.
    type Probability: BitArray;

    // The entries of the table: a symbol, the start of its interval, and the interval's length.
    ghost table: { Self → List (Self.Symbol × ℕ × ℕ) };

    // The intervals partition the numbers below `2 ^ PRECISION`.
    ghost lawful: { (m : Self) → IsTable PRECISION (table m) };

    // The precision is at least 1 and at most `Probability::BITS`.
    ghost sized: { (m : Self) → (1 ≤ PRECISION) × (PRECISION ≤ Self.Probability.BITS) };

    // If `PRECISION` is `Probability::BITS`, the table has at least two entries.
    ghost two_symbols: { (m : Self) → PRECISION ≡ Self.Probability.BITS → 2 ≤ length (table m) };
}

/// A model that an encoder can use.
///
/// An implementor proves that each call returns the start and the length of the symbol's interval, or `None` if the
/// table has no entry for the symbol. If a call also returns a reciprocal, the implementor proves that it is the
/// reciprocal of the interval's length.
///
/// # Examples
///
/// ```
/// let table = WeightTable::<u8, 8>::new(alloc, &[255, 1])?;
/// table.left_cumulative_and_probability(&1) // Some((255, 1))
/// ```
pub trait EncoderModel<const PRECISION: usize>: EntropyModel<PRECISION> {
    /// Returns the start and the length of the symbol's interval, or `None` for an impossible symbol.
    fn left_cumulative_and_probability(
        &self,
        symbol: &Self::Symbol,
    ) -> Option<(Self::Probability, <Self::Probability as BitArray>::NonZero)>
        ensures found { IfSome result (λ found.
            Has (Self.table self.now) symbol.now (Self.Probability.number found.0)
            (Self.Probability.nonzero_number found.1)) }
        ensures impossible { IfNone result (Impossible (Self.table self.now) symbol.now) };

    /// Returns the start and the length of the symbol's interval, and the length's reciprocal if the model stores it.
    ///
    /// Returns `None` for an impossible symbol. With a reciprocal, an encoder can multiply instead of dividing by the
    /// length. A model that stores no reciprocals keeps the default method, which returns `None` in place of the
    /// reciprocal.
    #[inline(always)]
    fn left_cumulative_and_reciprocal(
        &self,
        symbol: &Self::Symbol,
    ) -> Option<
        (
            Self::Probability,
            <Self::Probability as BitArray>::NonZero,
            Option<Reciprocal>,
        ),
    >
        ensures found { IfSome result (λ found.
            Has (Self.table self.now) symbol.now (Self.Probability.number found.0)
            (Self.Probability.nonzero_number found.1)) }
        ensures reciprocal { IfSome result (λ found. IfSome found.2 (λ r.
            IsReciprocalOf r (Self.Probability.nonzero_number found.1))) }
        ensures impossible { IfNone result (Impossible (Self.table self.now) symbol.now) }
    {
        match self.left_cumulative_and_probability(symbol) {
            None => None,
            Some((left, p)) => Some((left, p, None)),
        }
    }
}

/// A model that a decoder can use.
///
/// An implementor proves that each call returns the entry of the table whose interval holds the quantile.
///
/// # Examples
///
/// ```
/// let table = WeightTable::<u8, 8>::new(alloc, &[255, 1])?;
/// table.quantile_function(255) // (1, 255, 1)
/// ```
pub trait DecoderModel<const PRECISION: usize>: EntropyModel<PRECISION> {
    /// Returns the symbol whose interval holds the quantile, and the start and the length of this interval.
    ///
    /// The caller proves that the quantile is below `2 ^ PRECISION`. Each quantile lies in the interval of exactly one
    /// symbol.
    fn quantile_function(
        &self,
        quantile: Self::Probability,
    ) -> (
        Self::Symbol,
        Self::Probability,
        <Self::Probability as BitArray>::NonZero,
    )
        requires { Self.Probability.number quantile < 2 ^ PRECISION }
        ensures found { Has (Self.table self.now) result.0 (Self.Probability.number result.1)
            (Self.Probability.nonzero_number result.2) }
        ensures covers { Covers (Self.Probability.number result.1) (Self.Probability.nonzero_number result.2)
            (Self.Probability.number quantile) };
}

impl<const PRECISION: usize, M: EntropyModel<PRECISION>> EntropyModel<PRECISION> for &M {
    type Symbol = M::Symbol;

    type Probability = M::Probability;

    ghost table = { λ m. M.table m.now };

    ghost lawful = { λ m. M.lawful m.now };

    ghost sized = { λ m. M.sized m.now };

    ghost two_symbols = { λ m. M.two_symbols m.now };
}

impl<const PRECISION: usize, M: EncoderModel<PRECISION>> EncoderModel<PRECISION> for &M {
    #[inline(always)]
    fn left_cumulative_and_probability(
        &self,
        symbol: &M::Symbol,
    ) -> Option<(M::Probability, <M::Probability as BitArray>::NonZero)> {
        (**self).left_cumulative_and_probability(symbol)
    }

    #[inline(always)]
    fn left_cumulative_and_reciprocal(
        &self,
        symbol: &M::Symbol,
    ) -> Option<
        (
            M::Probability,
            <M::Probability as BitArray>::NonZero,
            Option<Reciprocal>,
        ),
    > {
        (**self).left_cumulative_and_reciprocal(symbol)
    }
}

impl<const PRECISION: usize, M: DecoderModel<PRECISION>> DecoderModel<PRECISION> for &M {
    #[inline(always)]
    fn quantile_function(
        &self,
        quantile: M::Probability,
    ) -> (
        M::Symbol,
        M::Probability,
        <M::Probability as BitArray>::NonZero,
    ) {
        (**self).quantile_function(quantile)
    }
}
