//! Taking a store apart, and building a store from words, an index and a model.

ghost use Rattle.std.specs.Prelude.{◌≡◌, ◌↔◌, IsTrue, IfOk, IsOk, length, map};
ghost use Rattle.constriction_base.specs.Steps.{IsSizes};
ghost use Rattle.constriction_store.specs.Stores.{IsIndex, entry_at};

use crate::{MOST_SYMBOLS, Store};
use constriction_base::model::{DecoderModel, EncoderModel, EntropyModel};
use constriction_queue::RangeCoderState;
use constriction_words::{BitArray, WordOf};
use thiserror::Error;

/// The error of [`Store::from_parts`], for an index that exceeds a limit.
///
/// The error means that an entry's position is past the end of the words, or that all chunks together have more than
/// [`MOST_SYMBOLS`] symbols.
#[derive(Debug, Clone, Copy, PartialEq, Eq, Error)]
#[error("bad index")]
pub struct BadIndex;

/// Returns whether a store of `count` words can have the index `index`.
///
/// The call returns `true` if and only if both of these conditions hold:
///
/// - The position of each entry is at most `count`.
/// - All chunks together have at most [`MOST_SYMBOLS`] symbols.
fn index_fits<Word: WordOf<State>, State: BitArray>(
    count: usize,
    index: &[(usize, RangeCoderState<Word, State>, usize)],
) -> bool
    ensures { IsTrue result ↔ IsIndex count (map entry_at index.now) }
{
    let mut left = MOST_SYMBOLS;
    for entry in index {
        if entry.0 > count || entry.2 > left {
            return false;
        }
        left -= entry.2;
    }
    true
}

impl<
    Word: WordOf<State>,
    State: BitArray,
    M: EncoderModel<PRECISION, Symbol = usize> + DecoderModel<PRECISION, Symbol = usize>,
    const PRECISION: usize,
> Store<Word, State, M, PRECISION> {
    /// Builds a store from words, an index and a model. The call allocates no memory.
    ///
    /// The parts may come from [`Store::into_parts`], or from anywhere else.
    ///
    /// # Errors
    ///
    /// Returns `BadIndex` if and only if an entry's position is past the end of `words`, or all chunks together have
    /// more than [`MOST_SYMBOLS`] symbols.
    ///
    /// # Examples
    ///
    /// ```
    /// let (words, index, model) = store.into_parts();
    /// let store: Store<u32, u64, _, 24> = Store::from_parts(words, index, model)?;
    /// ```
    pub fn from_parts(
        words: Vec<Word>,
        index: Vec<(usize, RangeCoderState<Word, State>, usize)>,
        model: M,
    ) -> Result<Self, BadIndex>
        requires { IsSizes Word.BITS State.BITS }
        ensures variant { IsOk result ↔ IsIndex (length words.items) (map entry_at index.items) }
        ensures parts { IfOk result (λ store. store ≡ record {
          words = map Word.number words.items;
          index = map entry_at index.items;
          model = model;
        }) }
    {
        if !index_fits::<Word, State>(words.len(), index.as_slice()) {
            return Err(BadIndex);
        }
        Ok(Store {
            words,
            index,
            model,
        })
    }

    /// Takes the store apart, and returns its words, its index and its model.
    ///
    /// [`Store::from_parts`] builds the same store from these parts.
    pub fn into_parts(
        self,
    ) -> (
        Vec<Word>,
        Vec<(usize, RangeCoderState<Word, State>, usize)>,
        M,
    )
        ensures parts { self ≡ record {
          words = map Word.number result.0.items;
          index = map entry_at result.1.items;
          model = result.2;
        } }
        ensures fit { IsIndex (length result.0.items) (map entry_at result.1.items) }
    {
        let Store {
            words,
            index,
            model,
        } = self;
        (words, index, model)
    }
}
