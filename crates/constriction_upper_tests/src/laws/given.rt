//! The values that all tests of coders use: two tables, and the symbols 1 and 0 under them.
//!
//! The stack coder and the range coder both encode these symbols as the word 16. The first symbol's interval begins at
//! 16, and the second symbol's interval begins at 0.

use constriction_base::weights::WeightTable;
use std::alloc::Global;
use std::test::Fail;

pub(crate) type Table = WeightTable<u8, 8>;

pub(crate) const SYMBOLS: [usize; 2] = [1, 0];

pub(crate) fn tables_of(alloc: Global) -> Result<[Table; 2], Fail> {
    Ok([
        Table::new(alloc, &[16, 240])?,
        Table::new(alloc, &[100, 156])?,
    ])
}

/// Returns `words` in a vector, or `None` if there is no memory.
pub(crate) fn words_of(alloc: Global, words: &[u8]) -> Option<Vec<u8>> {
    words.to_vec(alloc).ok()
}

/// Returns whether `again` equals `SYMBOLS`.
pub(crate) fn are_back(again: &[usize]) -> bool {
    again == SYMBOLS.as_slice()
}
