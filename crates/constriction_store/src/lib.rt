//! An indexed store: chunks (lists of symbols) in the words of one range encoder. A caller looks up a chunk by number.
//!
//! ```
//! let table = WeightTable::<u32, 24>::new(alloc, &[8388608, 8388608])?;
//! let store: Store<u32, u64, _, 24> = Store::build(alloc, chunks.as_slice(), table)?;
//! store.chunk(alloc, 2)?; // the third chunk
//! ```
//!
//! - [`building`]: encoding chunks.
//! - [`looking_up`]: decoding one chunk.
//! - [`parts`]: taking a store apart, and building a store from its parts.
//! - [`laws`]: theorems about the words at an entry, and about looking up chunks in any order.
//!
//! `docs/CONTRACTS.md` has the contract of each call that the crate `constriction` exports.
#![tactic(auto)]

pub mod building;
pub mod laws;
pub mod looking_up;
pub mod parts;

pub use crate::building::BuildError;
pub use crate::looking_up::{ChunkError, decoder_at};
pub use crate::parts::BadIndex;
use constriction_base::model::{DecoderModel, EncoderModel, EntropyModel};
use constriction_queue::RangeCoderState;
use constriction_words::{BitArray, WordOf};
use std::marker::Model;

/// The largest number of symbols that a store can hold, in all chunks together.
pub const MOST_SYMBOLS: usize = 1048576;

/// Encoded chunks of symbols: the words of a range encoder, an index of where each chunk begins, and the model.
///
/// A chunk is a list of symbols. The width of `State` is a whole number of words, at least two. Contracts describe a
/// store by a `Stored`: the values of its words, the entries of its index, and its model. See [`Store::build`] and
/// [`Store::chunk`] for examples.
#[derive(Drop)]
pub struct Store<
    Word: WordOf<State>,
    State: BitArray,
    M: EncoderModel<PRECISION, Symbol = usize> + DecoderModel<PRECISION, Symbol = usize>,
    const PRECISION: usize,
> {
    words: Vec<Word>,
    index: Vec<(usize, RangeCoderState<Word, State>, usize)>,
    model: M,
}

impl<
    Word: WordOf<State>,
    State: BitArray,
    M: EncoderModel<PRECISION, Symbol = usize> + DecoderModel<PRECISION, Symbol = usize>,
    const PRECISION: usize,
> Model for Store<Word, State, M, PRECISION> {
    ghost use Rattle.std.specs.Prelude.{map, length};
    ghost use Rattle.constriction_base.specs.Steps.{IsSizes};
    ghost use Rattle.constriction_store.specs.Stores.{IsIndex, Stored, entry_at};

    ghost Value = { Stored M };

    ghost view = { λ s. record {
      words = map Word.number s.words.items;
      index = map entry_at s.index.items;
      model = s.model;
    } };

    ghost invariant = { λ s. IsSizes Word.BITS State.BITS
        × IsIndex (length s.words.items) (map entry_at s.index.items) };
}

impl<
    Word: WordOf<State>,
    State: BitArray,
    M: EncoderModel<PRECISION, Symbol = usize> + DecoderModel<PRECISION, Symbol = usize>,
    const PRECISION: usize,
> Store<Word, State, M, PRECISION> {
    ghost use Rattle.std.specs.Prelude.{map, length, ◌≡◌};
    ghost use Rattle.constriction_store.specs.Stores.{entry_at};

    /// Returns the index, which has an entry for each chunk.
    ///
    /// An entry has three parts: the number of words before the chunk, the range coder's `lower` and `range` at the
    /// chunk's start, and the number of symbols in the chunk.
    pub fn index(&self) -> &[(usize, RangeCoderState<Word, State>, usize)]
        ensures { map entry_at result.now ≡ self.now.index }
    {
        self.index.as_slice()
    }

    /// Returns the number of chunks.
    pub fn num_chunks(&self) -> usize
        ensures { result ≡ length self.now.index }
    {
        self.index.len()
    }

    /// Returns the words that encode all chunks.
    pub fn words(&self) -> &[Word]
        ensures { map Word.number result.now ≡ self.now.words }
    {
        self.words.as_slice()
    }
}
