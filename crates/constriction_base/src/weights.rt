//! `WeightTable`: a model built from the weights of its symbols.
//!
//! A table stores the start of each symbol's interval, rows of buckets that speed up decoding, and optionally a row for
//! each symbol that speeds up encoding. A symbol's row has its interval and the reciprocal of its weight. Each of these
//! lists takes one allocation. The table cuts off weights of 0 at the end of the list of weights, so that the start of
//! each remaining symbol fits `Probability`. Contracts describe a table by its list of entries (`entries` in
//! `specs/WeightTables.antt`).
//!
//! `new` spends more than half of its time on the reciprocals. The reciprocal of a weight below 2^32 takes two
//! quotients of 64-bit numbers. The reciprocal of a larger weight divides a 128-bit number.
//!
//! With a table from `for_decoding`, an encoder that divides by weights, such as the stack coder, executes a division
//! for each symbol. With a table from `new`, at a precision of at most 63 bits, the encoder never divides if its state
//! has at most 64 bits.

mod rows;
pub mod starts;

ghost use Rattle.std.specs.Prelude.{◌≡◌, ◌≢◌, ◌+◌, ◌-◌, ◌*◌, ◌^◌, ◌<◌, ◌≤◌, ◌↔◌, [], length, map, sum_by, slice_index};
ghost use Rattle.std.specs.Prelude.{slice_index_or, OnOk, IfOk, IfSome, IfNone, IsErrOf};
ghost use Rattle.constriction_base.specs.Tables.{Has, Impossible, IsRising, table_of, weights_between};
ghost use Rattle.constriction_base.specs.Hints.{AreHints, AreBucketRows};
ghost use Rattle.constriction_base.specs.Reciprocals.{AreSymbolRows, IsSymbolRow};
ghost use Rattle.constriction_words.specs.Reciprocals.{IsReciprocalOf};
ghost use Rattle.constriction_base.specs.declared.weights.TableError.TheVariants as errors;

use crate::model::{DecoderModel, EncoderModel, EntropyModel};
pub use crate::weights::rows::SymbolRow;
use crate::weights::rows::{Row, buckets_for, make_rows, shift_for};
use crate::weights::starts::{known_symbols, starts_of, weight_of};
use constriction_words::{BitArray, Reciprocal};
use std::alloc::{AllocError, Global};
use thiserror::Error;

/// The error of building a table from weights.
///
/// # Examples
///
/// ```
/// WeightTable::<u8, 8>::new(alloc, &[255, 2]) // Err(TableError::WrongTotal), as the total has to be 256
/// ```
#[derive(Debug, Clone, Copy, PartialEq, Eq, Hash, Error)]
pub enum TableError {
    /// The list of weights is empty.
    #[error("no weights")]
    Empty,
    /// The weights don't add up to `2 ^ PRECISION`.
    #[error("wrong total")]
    WrongTotal,
    /// An allocation for the table failed, or the table has more than `2^32` symbols.
    #[error("out of memory")]
    Memory,
}

impl From<AllocError> for TableError {
    ghost from_gives = { λ _ error. error ≡ errors.Memory };

    fn from(_error: AllocError) -> TableError {
        TableError::Memory
    }
}

/// A model of the symbols `0`, `1`, `2` and so on, with weights that add up to `2 ^ PRECISION`.
///
/// A table is built from a list of weights: the weight at index `i` is the weight of symbol `i`. The intervals lie in
/// the order of the symbols, and the length of each interval is its symbol's weight. A symbol is impossible if its
/// weight is 0, or if the list has no weight for it.
///
/// A decoder finds a quantile's symbol in up to three stages. All quantiles with the same high bits form a bucket. The
/// table stores the symbol of each bucket's first quantile, and the symbol's weight, in at most eight rows for each
/// symbol and one more. Most often, the interval of this symbol holds the quantile. If it doesn't, the interval of the
/// next symbol usually does. If it doesn't either, a binary search finds the quantile's symbol. It ends at the symbol
/// of the next bucket's first quantile.
///
/// # Examples
///
/// ```
/// let table = WeightTable::<u8, 8>::new(alloc, &[128, 0, 128])?;
/// table.left_cumulative_and_probability(&2) // Some((128, 128))
/// table.left_cumulative_and_probability(&1) // None
/// table.quantile_function(127) // (0, 0, 128)
/// ```
#[derive(Drop)]
pub struct WeightTable<Probability: BitArray, const PRECISION: usize> {
    /// The sum of the weights before each symbol, up to the last symbol with a weight above 0.
    starts: Vec<Probability>,
    /// The row of each bucket's first quantile, followed by the row of the last symbol.
    rows: Vec<Row<Probability>>,
    /// The number of low bits in which the quantiles of a bucket differ.
    shift: u32,
    /// The row of each symbol. Empty if the table keeps no reciprocals.
    symbol_rows: Vec<SymbolRow<Probability>>,
    pub ghost positive: { 1 ≤ PRECISION },
    pub ghost fits: { PRECISION ≤ Probability.BITS },
    ghost has_symbols: { 0 < length starts.items },
    ghost rising: { IsRising (map Probability.number starts.items) (2 ^ PRECISION) },
    ghost last: { 2 ^ PRECISION - slice_index (map Probability.number starts.items) (length starts.items - 1)
        < 2 ^ Probability.BITS },
    ghost cut: { (shift < PRECISION) × (PRECISION - shift ≤ 63) },
    ghost buckets: { length rows.items ≡ 2 ^ (PRECISION - shift) + 1 },
    ghost hinted: { AreHints (map Probability.number starts.items) (2 ^ PRECISION) (2 ^ shift)
        (map (λ row. row.symbol) rows.items) },
    ghost listed: { AreBucketRows Probability.number (map Probability.number starts.items) (2 ^ PRECISION) rows.items },
    ghost inverse: { AreSymbolRows Probability.number (map Probability.number starts.items) (2 ^ PRECISION)
        symbol_rows.items },
}

impl<Probability: BitArray, const PRECISION: usize> WeightTable<Probability, PRECISION> {
    ghost use Rattle.constriction_base.specs.WeightTables.{entries, HasFewRows, HasNoReciprocals, HasReciprocals};

    /// Creates a table from `weights`, for encoding and decoding.
    ///
    /// The caller proves that `PRECISION` is at least 1 and at most `Probability::BITS`. If `PRECISION` is
    /// `Probability::BITS`, a single weight can't hold the total, so at least two weights have to be above 0.
    ///
    /// The table allocates its memory from `alloc`. Let `n` be the number of symbols up to and including the last
    /// symbol with a weight above 0. The table keeps:
    ///
    /// - `n` starts of type `Probability`, one for each of these symbols.
    /// - Rows, which speed up decoding. If `Probability` has at most 32 bits, these are at most `8 * n + 1` rows of 8
    ///   bytes. If it has 64 bits, these are at most `4 * n + 1` rows of 16 bytes. If it has 128 bits, these are at
    ///   most `2 * n + 1` rows of 32 bytes.
    /// - At a precision of at most 63 bits, `n` rows, which speed up encoding. Such a row has a symbol's interval and
    ///   the reciprocal of its weight. It takes 32 bytes if `Probability` has at most 32 bits, 40 bytes if it has 64
    ///   bits, and 64 bytes if it has 128 bits. With a reciprocal, an encoder whose state has at most 64 bits
    ///   multiplies instead of dividing by the weight.
    ///
    /// [`for_decoding`](WeightTable::for_decoding) creates a table without reciprocals in less time.
    ///
    /// # Errors
    ///
    /// The call returns the first of these errors that applies:
    ///
    /// - `Empty`: the list `weights` is empty.
    /// - `WrongTotal`: the weights don't add up to `2 ^ PRECISION`. The sum is exact, even if it doesn't fit
    ///   `Probability`.
    /// - `Memory`: an allocation for the table fails, or `n` is above `2^32`.
    ///
    /// # Examples
    ///
    /// ```
    /// let table = WeightTable::<u8, 8>::new(alloc, &[255, 1])?;
    /// table.quantile_function(255) // (1, 255, 1)
    /// ```
    pub fn new(alloc: Global, weights: &[Probability]) -> Result<Self, TableError>
        requires { (1 ≤ PRECISION) × (PRECISION ≤ Probability.BITS) }
        ensures ok { IfOk result (λ t. entries t ≡ table_of (map Probability.number weights.now)) }
        ensures reciprocals { IfOk result (λ t. PRECISION ≤ 63 → HasReciprocals t) }
        ensures wide { IfOk result (λ t. 63 < PRECISION → HasNoReciprocals t) }
        ensures rows { IfOk result (λ t. HasFewRows t) }
        ensures total { OnOk result (sum_by Probability.number weights.now ≡ 2 ^ PRECISION) }
        ensures empty { IsErrOf result TableError.Empty ↔ (weights.now ≡ []) }
        ensures wrong_total { IsErrOf result TableError.WrongTotal ↔ ((weights.now ≢ [])
            × (sum_by Probability.number weights.now ≢ 2 ^ PRECISION)) }
        ensures memory { IsErrOf result TableError.Memory → sum_by Probability.number weights.now ≡ 2 ^ PRECISION }
    {
        let table = Self::for_decoding(alloc, weights)?;
        match table.with_reciprocals(alloc) {
            Ok(table) => Ok(table),
            Err(_) => Err(TableError::Memory),
        }
    }

    /// Creates a table from `weights` without reciprocals, for decoding.
    ///
    /// The table has the same entries as the table that [`new`](WeightTable::new) creates, but takes less time to build
    /// and less memory. Encoders that don't divide by weights, such as the range encoder, need no reciprocals. Encoders
    /// that divide by weights, such as the stack coder, accept the table but run slower.
    ///
    /// The caller proves that `PRECISION` is at least 1 and at most `Probability::BITS`.
    ///
    /// # Errors
    ///
    /// The call returns the first of these errors that applies:
    ///
    /// - `Empty`: the list `weights` is empty.
    /// - `WrongTotal`: the weights don't add up to `2 ^ PRECISION`.
    /// - `Memory`: an allocation for the table fails, or the last weight above 0 is that of a symbol from `2^32` on.
    ///
    /// # Examples
    ///
    /// ```
    /// let table = WeightTable::<u8, 8>::for_decoding(alloc, &[255, 1])?;
    /// table.quantile_function(254) // (0, 0, 255)
    /// ```
    pub fn for_decoding(alloc: Global, weights: &[Probability]) -> Result<Self, TableError>
        requires { (1 ≤ PRECISION) × (PRECISION ≤ Probability.BITS) }
        ensures ok { IfOk result (λ t. entries t ≡ table_of (map Probability.number weights.now)) }
        ensures reciprocals { IfOk result (λ t. HasNoReciprocals t) }
        ensures rows { IfOk result (λ t. HasFewRows t) }
        ensures total { OnOk result (sum_by Probability.number weights.now ≡ 2 ^ PRECISION) }
        ensures empty { IsErrOf result TableError.Empty ↔ (weights.now ≡ []) }
        ensures wrong_total { IsErrOf result TableError.WrongTotal ↔ ((weights.now ≢ [])
            × (sum_by Probability.number weights.now ≢ 2 ^ PRECISION)) }
        ensures memory { IsErrOf result TableError.Memory → sum_by Probability.number weights.now ≡ 2 ^ PRECISION }
    {
        if weights.is_empty() {
            return Err(TableError::Empty);
        }
        let Some(known) = known_symbols::<Probability, PRECISION>(weights) else {
            return Err(TableError::WrongTotal);
        };
        if known > 4294967296 {
            return Err(TableError::Memory);
        }
        let starts = starts_of(alloc, &weights[..known - 1])?;
        let shift = shift_for(known, PRECISION, buckets_for(Probability::BITS));
        let rows = make_rows::<Probability, PRECISION>(alloc, &starts, shift)?;
        Ok(WeightTable {
            starts,
            rows,
            shift,
            symbol_rows: Vec::new(alloc),
        })
    }

    /// Adds the reciprocal of each weight to the table if the precision is at most 63 bits. The entries stay the same.
    ///
    /// The call returns `Err(AllocError)` if there is no memory for the reciprocals.
    fn with_reciprocals(mut self, alloc: Global) -> Result<Self, AllocError>
        requires { HasNoReciprocals self }
        ensures kept { IfOk result (λ t. entries t ≡ entries self) }
        ensures reciprocals { IfOk result (λ t. PRECISION ≤ 63 → HasReciprocals t) }
        ensures wide { IfOk result (λ t. 63 < PRECISION → HasNoReciprocals t) }
        ensures rows { HasFewRows self → IfOk result (λ t. HasFewRows t) }
    {
        if PRECISION > 63 {
            return Ok(self);
        }
        self.symbol_rows = self.make_symbol_rows(alloc)?;
        Ok(self)
    }

    /// Makes the row of each symbol. If the symbol's weight is 0, the row has the reciprocal of 1.
    ///
    /// The caller proves that the precision is at most 63 bits. The call returns `Err(AllocError)` if there is no
    /// memory for the rows.
    fn make_symbol_rows(&self, alloc: Global) -> Result<Vec<SymbolRow<Probability>>, AllocError>
        requires { PRECISION ≤ 63 }
        ensures count { IfOk result (λ made. length made.items ≡ length self.now.starts.items) }
        ensures rows { IfOk result (λ made.
            AreSymbolRows Probability.number (map Probability.number self.now.starts.items) (2 ^ PRECISION)
            made.items) }
    {
        let mut made = Vec::with_capacity(alloc, self.starts.len())?;
        for symbol in 0..self.starts.len() {
            let weight = self.weight(symbol);
            made.push_reserved(SymbolRow {
                left: self.start(symbol),
                weight,
                reciprocal: Reciprocal::new((weight.to_index() as u64).max(1)),
            });
        }
        Ok(made)
    }

    /// Returns the index of the bucket that holds `quantile`: `quantile` divided by `2 ^ self.shift`, rounded down.
    ///
    /// A bucket consists of the quantiles with the same high bits. The caller proves that `quantile` is below
    /// `2 ^ PRECISION`.
    fn bucket(&self, quantile: Probability) -> usize
        requires { Probability.number quantile < 2 ^ PRECISION }
        ensures within { result + 1 < length self.now.rows.items }
        ensures above { result * 2 ^ self.now.shift ≤ Probability.number quantile }
        ensures below { Probability.number quantile < (result + 1) * 2 ^ self.now.shift }
    {
        quantile.shift_right(self.shift).to_index()
    }

    /// Returns the start of the interval of `symbol`, which is the sum of the weights of all lower symbols.
    ///
    /// The caller proves that `symbol` is below the number of symbols that the table stores.
    fn start(&self, symbol: usize) -> Probability
        requires { symbol < length self.now.starts.items }
        ensures { Probability.number result ≡ slice_index (map Probability.number self.now.starts.items) symbol }
    {
        self.starts[symbol]
    }

    /// Returns the weight of `symbol`, which is the length of its interval.
    ///
    /// The caller proves that `symbol` is below the number of symbols that the table stores.
    fn weight(&self, symbol: usize) -> Probability
        requires { symbol < length self.now.starts.items }
        ensures { Probability.number result
            ≡ slice_index (weights_between (map Probability.number self.now.starts.items) (2 ^ PRECISION)) symbol }
    {
        weight_of::<Probability, PRECISION>(&self.starts, symbol)
    }

    /// Returns the symbol whose interval holds `quantile`, by a binary search from symbol `low` to symbol `high - 1`.
    ///
    /// The caller proves that there is such a symbol: that `low` is below `high`, that `high` is at most the number of
    /// symbols, and that `quantile` is at or above the start of `low` and below the start of `high`. The start of the
    /// symbol behind the last is `2 ^ PRECISION`.
    #[cold]
    #[inline(never)]
    fn search(&self, quantile: Probability, low: usize, high: usize) -> usize
        requires order { low < high }
        requires within { high ≤ length self.now.starts.items }
        requires above { slice_index (map Probability.number self.now.starts.items) low
            ≤ Probability.number quantile }
        requires below { Probability.number quantile
            < slice_index_or (map Probability.number self.now.starts.items) high (2 ^ PRECISION) }
        ensures within { result < length self.now.starts.items }
        ensures above { slice_index (map Probability.number self.now.starts.items) result
            ≤ Probability.number quantile }
        ensures below { Probability.number quantile
            < slice_index_or (map Probability.number self.now.starts.items) (result + 1) (2 ^ PRECISION) }
    {
        let mut low = low;
        let mut high = high;
        while high - low > 1 {
            let middle = low + (high - low) / 2;
            if quantile.is_below(self.start(middle)) {
                high = middle;
            } else {
                low = middle;
            }
        }
        low
    }

    /// Returns the row that the table keeps for `symbol`, or `None` if the table keeps none for this symbol.
    fn symbol_row(&self, symbol: usize) -> Option<SymbolRow<Probability>>
        ensures ok { IfSome result (λ row.
            IsSymbolRow Probability.number (map Probability.number self.now.starts.items) (2 ^ PRECISION) symbol row) }
        ensures none { IfNone result (length self.now.symbol_rows.items ≤ symbol) }
    {
        if symbol >= self.symbol_rows.len() {
            return None;
        }
        Some(self.symbol_rows[symbol])
    }
}

impl<Probability: BitArray, const PRECISION: usize> EntropyModel<PRECISION>
    for WeightTable<Probability, PRECISION> {
    ghost use Rattle.constriction_base.specs.WeightTables.{entries, entries_are_table, entries_are_two};

    type Symbol = usize;

    type Probability = Probability;

    ghost table = { λ t. entries t };

    ghost lawful = { λ t. entries_are_table t };

    ghost sized = { λ t. (t.positive, t.fits) };

    ghost two_symbols = { λ t all. entries_are_two t all };
}

impl<Probability: BitArray, const PRECISION: usize> EncoderModel<PRECISION>
    for WeightTable<Probability, PRECISION> {
    ghost use Rattle.constriction_base.specs.WeightTables.{entries, HasReciprocals};

    fn left_cumulative_and_probability(
        &self,
        symbol: &usize,
    ) -> Option<(Probability, <Probability as BitArray>::NonZero)> {
        if *symbol >= self.starts.len() {
            return None;
        }
        match self.weight(*symbol).to_nonzero() {
            None => None,
            Some(p) => Some((self.start(*symbol), p)),
        }
    }

    fn left_cumulative_and_reciprocal(
        &self,
        symbol: &usize,
    ) -> Option<
        (
            Probability,
            <Probability as BitArray>::NonZero,
            Option<Reciprocal>,
        ),
    >
        ensures found { IfSome result (λ found.
            Has (entries self.now) symbol.now (Probability.number found.0) (Probability.nonzero_number found.1)) }
        ensures reciprocal { IfSome result (λ found. IfSome found.2 (λ r.
            IsReciprocalOf r (Probability.nonzero_number found.1))) }
        ensures kept { IfSome result (λ found. IfNone found.2 (HasReciprocals self.now → ⊥)) }
        ensures impossible { IfNone result (Impossible (entries self.now) symbol.now) }
    {
        let Some(row) = self.symbol_row(*symbol) else {
            return match self.left_cumulative_and_probability(symbol) {
                None => None,
                Some((left, p)) => Some((left, p, None)),
            };
        };
        match row.weight.to_nonzero() {
            None => None,
            Some(p) => Some((row.left, p, Some(row.reciprocal))),
        }
    }
}

impl<Probability: BitArray, const PRECISION: usize> DecoderModel<PRECISION>
    for WeightTable<Probability, PRECISION> {
    fn quantile_function(
        &self,
        quantile: Probability,
    ) -> (usize, Probability, <Probability as BitArray>::NonZero) {
        let bucket = self.bucket(quantile);
        let row = &self.rows[bucket];
        let first = row.symbol as usize;
        let left = self.start(first);
        if quantile.minus(left).is_below(row.weight) {
            return (first, left, row.weight.to_nonzero().unwrap());
        }
        let next = first + 1;
        let left = self.start(next);
        let weight = self.weight(next);
        if quantile.minus(left).is_below(weight) {
            return (next, left, weight.to_nonzero().unwrap());
        }
        let end = self.rows[bucket + 1].symbol as usize + 1;
        let found = self.search(quantile, next + 1, end);
        (
            found,
            self.start(found),
            self.weight(found).to_nonzero().unwrap(),
        )
    }
}
