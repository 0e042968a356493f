//! `ContiguousLookupDecoderModel`: a model with a row for each quantile.
//!
//! A row holds the start and the length of the interval that holds the quantile. The symbols are in a second list,
//! because a decoder computes its next state from the interval alone. If probabilities are `u16`, a row takes 4 bytes
//! and a symbol takes 2 bytes. A load instruction can itself multiply an index by these sizes. At a precision of 12
//! bits, both lists together then take 24 KiB, so they fit the first-level cache.

ghost use Rattle.std.specs.Prelude.{◌≡◌, ◌+◌, ◌^◌, ◌<◌, ◌≤◌, ℕ, List, IfOk, IfSome, IsErrOf, IsNone};
ghost use Rattle.constriction_base.specs.Tables.{Has, Covers};
ghost use Rattle.constriction_models.specs.Lookup.{AreRows, HasHighSymbol, HasLowSymbols, IsEntryAt};

use constriction_base::model::{DecoderModel, EncoderModel, EntropyModel};
use constriction_words::{BitArray, Natural};
use std::alloc::Global;
use thiserror::Error;

/// The reason why a model can't be turned into a lookup table.
///
/// # Examples
///
/// ```
/// match ContiguousLookupDecoderModel::new(alloc, model) {
///     Ok(lookup) => {}
///     Err(LookupError::Symbol) => {} // `model` has a symbol above 65535
///     Err(LookupError::Memory) => {}
/// }
/// ```
#[derive(Debug, Clone, Copy, PartialEq, Eq, Hash, Error)]
pub enum LookupError {
    /// The model has a symbol above 65535, which doesn't fit the 16 bits that the lookup table has for a symbol.
    #[error("a symbol above 65535")]
    Symbol,
    /// There is no memory for the lookup table.
    #[error("out of memory")]
    Memory,
}

/// The start and the length of the interval that holds a quantile.
#[derive(Drop, Clone, Copy)]
pub struct Row<P: Copy + Drop, N: Copy + Drop> {
    pub left: P,
    pub weight: N,
}

/// A list of rows whose starts and lengths have the probability type `P`.
type Rows<P> = Vec<Row<P, <P as BitArray>::NonZero>>;

/// The interval and the symbol of each quantile under a model.
///
/// # Examples
///
/// ```
/// let model = UniformModel::<u8, 8>::new(10)?;
/// if let Some(rows) = LookupRows::new(alloc, &model) {
///     rows.find::<8>(60) // (2, 50, 25): symbol 2 has the quantiles from 50 to 74
/// }
/// ```
#[derive(Drop)]
pub struct LookupRows<P: BitArray> {
    /// The interval that holds each quantile.
    pub rows: Rows<P>,
    /// The symbol of each quantile.
    pub symbols: Vec<u16>,
}

/// A model of the symbols `0`, `1`, .. with a row for each quantile, so that one look-up finds a quantile's symbol.
///
/// The lookup model has the same table as the model from which it is built. It stores the symbol and the interval of
/// each quantile. This takes 6 bytes per quantile if probabilities are `u16`, and 10 bytes if they are `u32`. At a
/// precision of 12 bits, which has 4,096 quantiles, the lookup model thus takes 24 or 40 KiB.
///
/// # Examples
///
/// ```
/// let model = UniformModel::<u8, 8>::new(10)?;
/// let lookup = ContiguousLookupDecoderModel::new(alloc, model)?;
/// lookup.quantile_function(60) // (2, 50, 25): symbol 2 has the quantiles from 50 to 74
/// ```
#[derive(Drop)]
pub struct ContiguousLookupDecoderModel<
    M: EncoderModel<PRECISION, Symbol = usize>,
    const PRECISION: usize,
> {
    model: M,
    rows: LookupRows<M::Probability>,
    ghost found: { AreRows M.Probability.number M.Probability.nonzero_number (M.table model)
        rows.symbols.items rows.rows.items (2 ^ PRECISION) },
}

/// Returns the row of `quantile`, and the symbol and the end of the interval that holds `quantile`.
///
/// The caller proves that `PRECISION` is at most 16 bits, and that `quantile` is below `2 ^ PRECISION`. The call
/// returns `None` if and only if the symbol is above 65535.
fn row_at<M: DecoderModel<PRECISION, Symbol = usize>, const PRECISION: usize>(
    model: &M,
    quantile: M::Probability,
) -> Option<
    (
        Row<M::Probability, <M::Probability as BitArray>::NonZero>,
        u16,
        usize,
    ),
>
    requires small { PRECISION ≤ 16 }
    requires quantile { M.Probability.number quantile < 2 ^ PRECISION }
    ensures found { IfSome result (λ r. Has (M.table model.now) r.1 (M.Probability.number r.0.left)
        (M.Probability.nonzero_number r.0.weight)) }
    ensures covers { IfSome result (λ r. Covers (M.Probability.number r.0.left)
        (M.Probability.nonzero_number r.0.weight) (M.Probability.number quantile)) }
    ensures end { IfSome result (λ r. r.2 ≡ M.Probability.number r.0.left + M.Probability.nonzero_number r.0.weight) }
    ensures fits { IfSome result (λ r. r.1 < 65536) }
    ensures symbol { IsNone result → HasHighSymbol (M.table model.now) }
{
    let (symbol, left, weight) = model.quantile_function(quantile);
    if symbol > 65535 {
        return None;
    }
    Some((
        Row { left, weight },
        symbol as u16,
        left.to_index() + M::Probability::from_nonzero(weight).to_index(),
    ))
}

/// Returns the row and the symbol of each quantile of `model`, in ascending order of the quantiles.
///
/// The caller proves that `PRECISION` is at most 16 bits. The call returns `None` if a symbol is above 65535, or if
/// there is no memory for the lists. [`reason_against`] tells the two apart.
fn rows_of<M: DecoderModel<PRECISION, Symbol = usize>, const PRECISION: usize>(
    alloc: Global,
    model: &M,
) -> Option<(Rows<M::Probability>, Vec<u16>)>
    requires { PRECISION ≤ 16 }
    ensures found { IfSome result
        (λ made. AreRows M.Probability.number M.Probability.nonzero_number (M.table model.now)
        made.1.items made.0.items (2 ^ PRECISION)) }
    ensures fits { IfSome result (λ _. HasLowSymbols (M.table model.now)) }
{
    let count = 1usize << PRECISION;
    let mut rows = Vec::with_capacity(alloc, count).ok()?;
    let mut symbols = Vec::with_capacity(alloc, count).ok()?;
    let (mut row, mut symbol, mut end) = row_at(model, M::Probability::nothing())?;
    for quantile in 0..count {
        if quantile >= end {
            let next = row.left.plus(M::Probability::from_nonzero(row.weight));
            (row, symbol, end) = row_at(model, next)?;
        }
        rows.push(row).ok()?;
        symbols.push(symbol).ok()?;
    }
    Some((rows, symbols))
}

/// Returns why `model` has no lookup table: a symbol above 65535, or else no memory.
///
/// The caller proves that `PRECISION` is at most 16 bits. The call needs no memory. It looks at each symbol again, so a
/// request for memory that fails doesn't hide a high symbol.
fn reason_against<M: DecoderModel<PRECISION, Symbol = usize>, const PRECISION: usize>(
    model: &M,
) -> LookupError
    requires { PRECISION ≤ 16 }
    ensures symbol { result ≡ LookupError.Symbol → HasHighSymbol (M.table model.now) }
    ensures memory { result ≡ LookupError.Memory → HasLowSymbols (M.table model.now) }
{
    let count = 1usize << PRECISION;
    let Some((mut row, _, mut end)) = row_at(model, M::Probability::nothing()) else {
        return LookupError::Symbol;
    };
    for number in 0..count {
        if number >= end {
            let start = row.left.plus(M::Probability::from_nonzero(row.weight));
            match row_at(model, start) {
                Some(found) => (row, _, end) = found,
                None => return LookupError::Symbol,
            }
        }
    }
    LookupError::Memory
}

impl<P: BitArray> LookupRows<P> {
    /// Makes the rows of `model`. The caller proves that `PRECISION` is at most 16 bits.
    ///
    /// The call returns `None` if the model has a symbol above 65535, or if there is no memory for the rows. See the
    /// type's documentation for an example.
    pub fn new<M: DecoderModel<PRECISION, Symbol = usize, Probability = P>, const PRECISION: usize>(
        alloc: Global,
        model: &M,
    ) -> Option<Self>
        requires { PRECISION ≤ 16 }
        ensures found { IfSome result (λ made. AreRows P.number P.nonzero_number (M.table model.now)
            made.symbols.items made.rows.items (2 ^ PRECISION)) }
        ensures fits { IfSome result (λ _. HasLowSymbols (M.table model.now)) }
    {
        match rows_of(alloc, model) {
            Some((rows, symbols)) => Some(LookupRows { rows, symbols }),
            None => None,
        }
    }

    /// Returns the symbol of `quantile`, and the start and the length of the interval that holds `quantile`.
    ///
    /// Each table that has these rows has this entry. The caller proves that there is such a table, and that `quantile`
    /// is below `2 ^ PRECISION`.
    #[inline(always)]
    pub fn find<const PRECISION: usize>(&self, quantile: P) -> (usize, P, <P as BitArray>::NonZero)
        requires rows { (table : List (ℕ × ℕ × ℕ)) × AreRows P.number P.nonzero_number table
            self.now.symbols.items self.now.rows.items (2 ^ PRECISION) }
        requires quantile { P.number quantile < 2 ^ PRECISION }
        ensures { IsEntryAt P.number P.nonzero_number PRECISION self.now.symbols.items self.now.rows.items
            (P.number quantile) result }
    {
        let place = quantile.to_index();
        let row = &self.rows[place];
        (self.symbols[place] as usize, row.left, row.weight)
    }
}

impl<
    M: EncoderModel<PRECISION, Symbol = usize> + DecoderModel<PRECISION, Symbol = usize>,
    const PRECISION: usize,
> ContiguousLookupDecoderModel<M, PRECISION> {
    /// Creates a lookup model with the same table as `model`. The caller proves that `PRECISION` is at most 16 bits.
    ///
    /// See the type's documentation for an example.
    ///
    /// # Errors
    ///
    /// - `Symbol`: returned if and only if the model has a symbol above 65535.
    /// - `Memory`: there is no memory for the lookup table.
    pub fn new(alloc: Global, model: M) -> Result<Self, LookupError>
        requires { PRECISION ≤ 16 }
        ensures ok { IfOk result
            (λ t. ⟦<ContiguousLookupDecoderModel<M, PRECISION> as EntropyModel<PRECISION>>⟧.table t ≡ M.table model) }
        ensures fits { IfOk result (λ _. HasLowSymbols (M.table model)) }
        ensures symbol { IsErrOf result LookupError.Symbol → HasHighSymbol (M.table model) }
        ensures memory { IsErrOf result LookupError.Memory → HasLowSymbols (M.table model) }
    {
        match LookupRows::new(alloc, &model) {
            Some(rows) => Ok(ContiguousLookupDecoderModel { model, rows }),
            None => Err(reason_against(&model)),
        }
    }
}

impl<M: EncoderModel<PRECISION, Symbol = usize>, const PRECISION: usize> EntropyModel<PRECISION>
    for ContiguousLookupDecoderModel<M, PRECISION> {
    type Symbol = usize;

    type Probability = M::Probability;

    ghost table = { λ t. M.table t.model };

    ghost lawful = { λ t. M.lawful t.model };

    ghost sized = { λ t. M.sized t.model };

    ghost two_symbols = { λ t. M.two_symbols t.model };
}

impl<M: EncoderModel<PRECISION, Symbol = usize>, const PRECISION: usize> EncoderModel<PRECISION>
    for ContiguousLookupDecoderModel<M, PRECISION> {
    #[inline(always)]
    fn left_cumulative_and_probability(
        &self,
        symbol: &usize,
    ) -> Option<(M::Probability, <M::Probability as BitArray>::NonZero)> {
        self.model.left_cumulative_and_probability(symbol)
    }
}

impl<M: EncoderModel<PRECISION, Symbol = usize>, const PRECISION: usize> DecoderModel<PRECISION>
    for ContiguousLookupDecoderModel<M, PRECISION> {
    #[inline(always)]
    fn quantile_function(
        &self,
        quantile: M::Probability,
    ) -> (usize, M::Probability, <M::Probability as BitArray>::NonZero) {
        self.rows.find::<PRECISION>(quantile)
    }
}
