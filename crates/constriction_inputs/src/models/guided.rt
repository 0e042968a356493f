//! `Guided`: a row of weights with what makes its look-ups fast, for many tables.

ghost use Rattle.std.specs.Prelude.{◌≡◌, ◌-◌, ◌^◌, ◌<◌, ◌≤◌, get_or, length, map, sum_by, take, IfOk, IfSome, IsTrue};
ghost use Rattle.std.specs.Bool.{OnTrue};
ghost use Rattle.constriction_base.specs.Tables.{Covers, table_of};
ghost use Rattle.constriction_base.specs.laws.Weights.{weights_make_table};
ghost use Rattle.constriction_inputs.specs.Guided.{AreGuesses, AreRowsOfWeights, IsGuess};
ghost use Rattle.constriction_inputs.specs.Weights.{IsTotal};
ghost use Rattle.constriction_inputs.specs.laws.Rows.{two_weights};
ghost use Rattle.constriction_words.specs.Reciprocals.{IsReciprocalOf};

use crate::rows::Row;
use constriction_base::model::{DecoderModel, EncoderModel, EntropyModel};
use constriction_base::weights::SymbolRow;
use constriction_base::weights::starts::ones;
use constriction_words::{BitArray, Reciprocal};
use std::alloc::{AllocError, Global};

/// The start of a symbol's interval, and the interval's length.
#[derive(Clone, Copy, Drop)]
pub struct Interval<P: Copy + Drop> {
    left: P,
    weight: P,
}

/// A row of weights, with a row for each symbol to encode, or with guesses to decode.
///
/// All quantiles with the same high bits form a bucket. A guess is the symbol of the quantile in the middle of a
/// bucket. With its interval it takes 12 bytes if `P` has 32 bits, and there are at most as many guesses as symbols. So
/// the guesses of many tables fit the caches. If the guess's interval doesn't hold a quantile of the bucket, a look-up
/// goes on to the symbols before or behind it, and adds up the caller's weights. If there are at most `2 ^ PRECISION`
/// symbols, and all quantiles are equally frequent, this takes less than two such steps on average.
///
/// # Examples
///
/// ```
/// if let Some(model) = guided_by::<u32, 24>(alloc, &[3, 2, 16777211], false, true) {
///     model.quantile_function(4) // (1, 3, 2)
/// }
/// ```
#[derive(Drop)]
pub struct Guided<'a, P: BitArray, const PRECISION: usize> {
    row: Row<'a, P, PRECISION>,
    /// The row of each symbol. Empty if the model is for decoding.
    symbol_rows: Vec<SymbolRow<P>>,
    /// The interval of each bucket's guess. Empty if the model is for encoding.
    intervals: Vec<Interval<P>>,
    /// The symbol of each bucket's guess.
    symbols: Vec<u32>,
    /// The number of low bits in which quantiles of one bucket differ.
    shift: u32,
    /// Whether the rows of symbols have reciprocals.
    divides: bool,
    ghost kept: { AreRowsOfWeights P.number row.weights.now divides symbol_rows.items },
    ghost guessed: { AreGuesses P.number row.weights.now intervals.items symbols.items },
    ghost cut: { (shift < PRECISION) × (PRECISION - shift ≤ 63) },
}

impl<'a, P: BitArray, const PRECISION: usize> EntropyModel<PRECISION> for Guided<'a, P, PRECISION> {
    type Symbol = usize;

    type Probability = P;

    ghost table = { λ guided. table_of (map P.number guided.row.weights.now) };

    ghost lawful = { λ guided. weights_make_table PRECISION (map P.number guided.row.weights.now) guided.row.total };

    ghost sized = { λ guided. (guided.row.positive, guided.row.fits) };

    ghost two_symbols = { λ guided all. two_weights P.number P.BITS P.number_law PRECISION guided.row.weights.now
        guided.row.total all };
}

impl<'a, P: BitArray, const PRECISION: usize> EncoderModel<PRECISION> for Guided<'a, P, PRECISION> {
    #[inline(always)]
    fn left_cumulative_and_probability(
        &self,
        symbol: &usize,
    ) -> Option<(P, <P as BitArray>::NonZero)> {
        match self.left_cumulative_and_reciprocal(symbol) {
            None => None,
            Some((left, p, _)) => Some((left, p)),
        }
    }

    #[inline(always)]
    fn left_cumulative_and_reciprocal(
        &self,
        symbol: &usize,
    ) -> Option<(P, <P as BitArray>::NonZero, Option<Reciprocal>)> {
        if *symbol >= self.symbol_rows.len() {
            return match self.row.left_cumulative_and_probability(symbol) {
                None => None,
                Some((left, p)) => Some((left, p, None)),
            };
        }
        let row = &self.symbol_rows[*symbol];
        let reciprocal = if self.divides {
            Some(row.reciprocal)
        } else {
            None
        };
        match row.weight.to_nonzero() {
            None => None,
            Some(p) => Some((row.left, p, reciprocal)),
        }
    }
}

impl<'a, P: BitArray, const PRECISION: usize> DecoderModel<PRECISION> for Guided<'a, P, PRECISION> {
    #[inline(always)]
    fn quantile_function(&self, quantile: P) -> (usize, P, <P as BitArray>::NonZero) {
        let guess = self.guess(quantile);
        if covers::<P>(guess.1, guess.2, quantile) {
            return (guess.0, guess.1, guess.2.to_nonzero().unwrap());
        }
        let found = find_from::<P, PRECISION>(self.row.weights, guess.0, guess.1, quantile);
        (found.0, found.1, found.2.to_nonzero().unwrap())
    }
}

impl<'a, P: BitArray, const PRECISION: usize> Guided<'a, P, PRECISION> {
    /// Returns the guess for the bucket that holds `quantile`, and the start and the length of its interval.
    ///
    /// If the model has no guesses, this is symbol 0. The caller proves that `quantile` is below `2 ^ PRECISION`.
    #[inline(always)]
    fn guess(&self, quantile: P) -> (usize, P, P)
        requires { P.number quantile < 2 ^ PRECISION }
        ensures { IsGuess P.number self.now.row.weights.now result.0 result.1 result.2 }
    {
        let bucket = quantile.shift_right(self.shift).to_index();
        if bucket >= self.symbols.len() {
            return (0, P::nothing(), self.row.weights[0]);
        }
        let interval = &self.intervals[bucket];
        let symbol = self.symbols[bucket];
        (symbol as usize, interval.left, interval.weight)
    }
}

/// Returns whether the interval that starts at `left` and has the length `p` holds the quantile.
#[inline(always)]
fn covers<P: BitArray>(left: P, p: P, quantile: P) -> bool
    ensures { OnTrue result (Covers (P.number left) (P.number p) (P.number quantile)) }
{
    if quantile.is_below(left) {
        return false;
    }
    quantile.minus(left).is_below(p)
}

/// Returns the symbol whose interval holds the quantile, and the start and the length of this interval.
///
/// The search begins at the symbol `from`, whose interval starts at `left`. The caller proves that the weights add up
/// to `2 ^ PRECISION`, and that `quantile` is below `2 ^ PRECISION`.
#[inline(always)]
fn find_from<P: BitArray, const PRECISION: usize>(
    weights: &[P],
    from: usize,
    left: P,
    quantile: P,
) -> (usize, P, P)
    requires total { IsTotal PRECISION (map P.number weights.now) }
    requires fits { PRECISION ≤ P.BITS }
    requires quantile { P.number quantile < 2 ^ PRECISION }
    requires within { from ≤ length weights.now }
    requires left { P.number left ≡ sum_by P.number (take from weights.now) }
    ensures within { result.0 < length weights.now }
    ensures left { P.number result.1 ≡ sum_by P.number (take result.0 weights.now) }
    ensures value { P.number result.2 ≡ P.number (get_or weights.now result.0 result.2) }
    ensures covers { Covers (P.number result.1) (P.number result.2) (P.number quantile) }
{
    let (symbol, start) = step_down(weights, from, left, quantile);
    step_up::<P, PRECISION>(weights, symbol, start, quantile)
}

/// Returns the last symbol up to `from` whose interval starts at or below the quantile, and where it starts.
///
/// The caller proves that the interval of `from` starts at `left`.
#[inline(always)]
fn step_down<P: BitArray>(weights: &[P], from: usize, left: P, quantile: P) -> (usize, P)
    requires within { from ≤ length weights.now }
    requires left { P.number left ≡ sum_by P.number (take from weights.now) }
    ensures within { result.0 ≤ from }
    ensures left { P.number result.1 ≡ sum_by P.number (take result.0 weights.now) }
    ensures below { P.number result.1 ≤ P.number quantile }
{
    let mut symbol = from;
    let mut start = left;
    while quantile.is_below(start) {
        symbol -= 1;
        start = start.minus(weights[symbol]);
    }
    (symbol, start)
}

/// Returns the first symbol from `from` on whose interval ends above the quantile, and its interval.
///
/// The caller proves that the weights add up to `2 ^ PRECISION`, that `quantile` is below `2 ^ PRECISION`, and that the
/// interval of `from` starts at `left`, at or below the quantile.
#[inline(always)]
fn step_up<P: BitArray, const PRECISION: usize>(
    weights: &[P],
    from: usize,
    left: P,
    quantile: P,
) -> (usize, P, P)
    requires total { IsTotal PRECISION (map P.number weights.now) }
    requires fits { PRECISION ≤ P.BITS }
    requires quantile { P.number quantile < 2 ^ PRECISION }
    requires left { P.number left ≡ sum_by P.number (take from weights.now) }
    requires below { P.number left ≤ P.number quantile }
    ensures within { result.0 < length weights.now }
    ensures left { P.number result.1 ≡ sum_by P.number (take result.0 weights.now) }
    ensures value { P.number result.2 ≡ P.number (get_or weights.now result.0 result.2) }
    ensures covers { Covers (P.number result.1) (P.number result.2) (P.number quantile) }
{
    let mut start = left;
    for symbol in from..weights.len() {
        let weight = weights[symbol];
        if quantile.minus(start).is_below(weight) {
            return (symbol, start, weight);
        }
        start = start.plus(weight);
    }
    unreachable!()
}

/// Returns the model of the symbols `0`, `1`, .. with the weights `weights`.
///
/// If `decodes` is true, the model has guesses. Otherwise it has a row for each symbol. These rows have reciprocals if
/// `divides` is true and the precision is at most 63 bits. The caller proves that the weights add up to
/// `2 ^ PRECISION`. The call returns `None` if there is no memory.
pub fn guided_by<'a, P: BitArray, const PRECISION: usize>(
    alloc: Global,
    weights: &'a [P],
    divides: bool,
    decodes: bool,
) -> Option<Guided<'a, P, PRECISION>>
    requires sizes { (1 ≤ PRECISION) × (PRECISION ≤ P.BITS) }
    requires total { IsTotal PRECISION (map P.number weights.now) }
    ensures { IfSome result (λ guided. ⟦<Guided<'a, P, PRECISION> as EntropyModel<PRECISION>>⟧.table guided
        ≡ table_of (map P.number weights.now)) }
{
    if decodes {
        decoding_by(alloc, weights)
    } else {
        encoding_by(alloc, weights, divides)
    }
}

/// Returns the model of `weights` with a row for each symbol.
///
/// If `divides` is true and the precision is at most 63 bits, the rows have reciprocals. The caller proves that the
/// weights add up to `2 ^ PRECISION`. The call returns `None` if there is no memory.
fn encoding_by<'a, P: BitArray, const PRECISION: usize>(
    alloc: Global,
    weights: &'a [P],
    divides: bool,
) -> Option<Guided<'a, P, PRECISION>>
    requires sizes { (1 ≤ PRECISION) × (PRECISION ≤ P.BITS) }
    requires total { IsTotal PRECISION (map P.number weights.now) }
    ensures { IfSome result (λ guided. ⟦<Guided<'a, P, PRECISION> as EntropyModel<PRECISION>>⟧.table guided
        ≡ table_of (map P.number weights.now)) }
{
    let row = Row::of_total(weights);
    let shift = shift_for(weights.len(), PRECISION);
    let divides = divides && PRECISION <= 63;
    let intervals = Vec::new(alloc);
    let symbols = Vec::new(alloc);
    match symbol_rows_of::<P, PRECISION>(alloc, weights, divides) {
        Ok(symbol_rows) => Some(Guided {
            row,
            symbol_rows,
            intervals,
            symbols,
            shift,
            divides,
        }),
        Err(_) => None,
    }
}

/// Returns the model of `weights` with guesses.
///
/// The caller proves that the weights add up to `2 ^ PRECISION`. The call returns `None` if there is no memory.
fn decoding_by<'a, P: BitArray, const PRECISION: usize>(
    alloc: Global,
    weights: &'a [P],
) -> Option<Guided<'a, P, PRECISION>>
    requires sizes { (1 ≤ PRECISION) × (PRECISION ≤ P.BITS) }
    requires total { IsTotal PRECISION (map P.number weights.now) }
    ensures { IfSome result (λ guided. ⟦<Guided<'a, P, PRECISION> as EntropyModel<PRECISION>>⟧.table guided
        ≡ table_of (map P.number weights.now)) }
{
    let row = Row::of_total(weights);
    let shift = shift_for(weights.len(), PRECISION);
    let symbol_rows = Vec::new(alloc);
    match guesses_of::<P, PRECISION>(alloc, weights, shift) {
        Ok((intervals, symbols)) => Some(Guided {
            row,
            symbol_rows,
            intervals,
            symbols,
            shift,
            divides: false,
        }),
        Err(_) => None,
    }
}

/// Returns the number of low bits in which quantiles of one bucket differ, in a table of `symbols` symbols.
///
/// There are at least two buckets, and otherwise at most as many as symbols.
fn shift_for(symbols: usize, precision: usize) -> u32
    requires { (1 ≤ precision) × (precision ≤ 128) }
    ensures within { result < precision }
    ensures most { precision - result ≤ 63 }
{
    let precision = precision as u32;
    precision - symbols.max(2).ilog2().min(precision)
}

/// Returns the row of each symbol, in the order of the symbols.
///
/// If `divides` is true, each row has the reciprocal of its weight. The caller proves that the weights add up to
/// `2 ^ PRECISION`, and that the precision is at most 63 bits if `divides` is true. The call returns `Err(AllocError)`
/// if there is no memory for the rows.
fn symbol_rows_of<P: BitArray, const PRECISION: usize>(
    alloc: Global,
    weights: &[P],
    divides: bool,
) -> Result<Vec<SymbolRow<P>>, AllocError>
    requires fits { PRECISION ≤ P.BITS }
    requires total { IsTotal PRECISION (map P.number weights.now) }
    requires most { IsTrue divides → PRECISION ≤ 63 }
    ensures { IfOk result (λ made. AreRowsOfWeights P.number weights.now divides made.items) }
{
    let mut left = P::nothing();
    let mut rows = Vec::with_capacity(alloc, weights.len())?;
    for symbol in 0..weights.len() {
        let weight = weights[symbol];
        rows.push_reserved(SymbolRow {
            left,
            weight,
            reciprocal: reciprocal_of(weight, divides),
        });
        left = left.wrapping_plus(weight);
    }
    Ok(rows)
}

/// Returns the reciprocal of `weight` if `divides` is true and the weight is above 0. Otherwise returns that of 1.
///
/// The caller proves that the weight fits 64 bits if `divides` is true.
fn reciprocal_of<P: BitArray>(weight: P, divides: bool) -> Reciprocal
    requires { IsTrue divides → P.number weight < 2 ^ 64 }
    ensures { IsTrue divides → 0 < P.number weight → IsReciprocalOf result (P.number weight) }
{
    if !divides {
        return Reciprocal::new(1);
    }
    Reciprocal::new((weight.to_index() as u64).max(1))
}

/// Returns the interval and the symbol of each bucket's guess: the symbol of the quantile in the bucket's middle.
///
/// A bucket consists of `2 ^ shift` quantiles that differ only in their lowest `shift` bits. The caller proves that the
/// weights add up to `2 ^ PRECISION`. If symbols don't fit 32 bits, their buckets have no guesses. The call returns
/// `Err(AllocError)` if there is no memory for the guesses.
fn guesses_of<P: BitArray, const PRECISION: usize>(
    alloc: Global,
    weights: &[P],
    shift: u32,
) -> Result<(Vec<Interval<P>>, Vec<u32>), AllocError>
    requires sizes { (1 ≤ PRECISION) × (PRECISION ≤ P.BITS) }
    requires total { IsTotal PRECISION (map P.number weights.now) }
    requires within { (shift < PRECISION) × (PRECISION - shift ≤ 63) }
    ensures { IfOk result (λ made. AreGuesses P.number weights.now made.0.items made.1.items) }
{
    let count = 1usize << (PRECISION as u32 - shift);
    let last = ones::<P>(PRECISION);
    let width = P::unit().shift_left(shift);
    let mut middle = P::unit().shift_left(shift.saturating_sub(1));
    let mut symbol = 0;
    let mut start = P::nothing();
    let mut intervals = Vec::with_capacity(alloc, count)?;
    let mut symbols = Vec::with_capacity(alloc, count)?;
    for _bucket in 0..count {
        let quantile = if last.is_below(middle) { last } else { middle };
        let (found, left, weight) = find_from::<P, PRECISION>(weights, symbol, start, quantile);
        if found > 4294967295 {
            return Ok((intervals, symbols));
        }
        intervals.push_reserved(Interval { left, weight });
        symbols.push_reserved(found as u32);
        symbol = found;
        start = left;
        middle = middle.wrapping_plus(width);
    }
    Ok((intervals, symbols))
}
