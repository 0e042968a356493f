//! Encoding chunks into words and an index.

ghost use Rattle.std.specs.Prelude.{◌≡◌, ◌↔◌, ◌+◌, ◌-◌, ◌^◌, ◌≤◌, ◌<◌, length, map, IfOk, IfErr, OnOk, Err, IsTrue};
ghost use Rattle.constriction_base.specs.Models.{items_of};
ghost use Rattle.constriction_base.specs.Steps.{IsSizes};
ghost use Rattle.constriction_queue.specs.Encoder.{left_to_encode, run_by};
ghost use Rattle.constriction_queue.specs.Range.{initial};
ghost use Rattle.constriction_queue.specs.Symbols.{NarrowsAll, model_by};
ghost use Rattle.constriction_store.specs.Built.{BuildFails, EncodingFails};
ghost use Rattle.constriction_store.specs.Chunks.{count_of, lists_of};
ghost use Rattle.constriction_store.specs.Stores.{HoldsChunks, Indexes, IsBuilt, entry_at};

use crate::{MOST_SYMBOLS, Store};
use constriction_base::backends::Pos;
use constriction_base::errors::CoderError;
use constriction_base::model::{DecoderModel, EncoderModel, EntropyModel};
use constriction_queue::{RangeCoderState, RangeEncoder};
use constriction_stream::encoding::Encode;
use constriction_words::{BitArray, WordOf};
use std::alloc::Global;
use thiserror::Error;

/// The reason why a store of chunks can't be built.
///
/// # Examples
///
/// ```
/// // `table` has two weights, so the symbols are 0 and 1
/// let chunks = [&[1, 0], &[2]]; // as a list of `Vec<usize>`
/// Store::<u32, u64, _, 24>::build(alloc, chunks, table); // Err(ImpossibleSymbol { chunk: 1, index: 0 })
/// ```
#[derive(Debug, Clone, Copy, PartialEq, Eq, Error)]
pub enum BuildError {
    /// All chunks together have more than [`MOST_SYMBOLS`] symbols.
    #[error("too many symbols")]
    TooLong,
    /// The model has no entry for a symbol.
    #[error("Impossible symbol.")]
    ImpossibleSymbol {
        /// The position of the chunk in the list of chunks, counted from 0.
        chunk: usize,
        /// The position of the symbol in the chunk, counted from 0.
        index: usize,
    },
    /// There is no memory for the words or the index.
    #[error("out of memory")]
    Memory,
}

/// Returns whether all chunks together have at most [`MOST_SYMBOLS`] symbols.
fn are_few(chunks: &[Vec<usize>]) -> bool
    ensures { IsTrue result ↔ (count_of (lists_of chunks.now) ≤ 1048576) }
{
    let mut left = MOST_SYMBOLS;
    for chunk in chunks {
        if chunk.len() > left {
            return false;
        }
        left -= chunk.len();
    }
    true
}

/// The error of encoding a chunk: the number of the first impossible symbol, counted from 0, or lack of memory.
#[derive(Clone, Copy)]
enum Refusal {
    Impossible(usize),
    Memory,
}

/// Encodes the symbols of one chunk with `model`, and stops at the first error.
fn encode_chunk<
    Word: WordOf<State>,
    State: BitArray,
    M: EncoderModel<PRECISION, Symbol = usize>,
    const PRECISION: usize,
>(
    encoder: &mut RangeEncoder<Word, State, Vec<Word>>,
    symbols: &[usize],
    model: &M,
) -> Result<(), Refusal>
where
    M::Probability: WordOf<Word>,
    requires { length symbols.now ≤ left_to_encode encoder.old }
    ensures ok { OnOk result (NarrowsAll Word.BITS State.BITS
        (items_of (model_by PRECISION M.table model.now) symbols.now)
        (run_by Word.BITS State.BITS encoder.old) (run_by Word.BITS State.BITS encoder.new)) }
    ensures err { IfErr result (EncodingFails (model_by PRECISION M.table model.now) symbols.now) }
    ensures fewer_left { left_to_encode encoder.old ≤ left_to_encode encoder.new + length symbols.now }
{
    for (place, symbol) in symbols.iter().enumerate() {
        match Encode::<PRECISION>::encode_symbol(encoder, symbol, model) {
            Ok(()) => {}
            Err(CoderError::Frontend(_)) => return Err(Refusal::Impossible(place)),
            Err(CoderError::Backend(_)) => return Err(Refusal::Memory),
        }
    }
    Ok(())
}

/// Encodes `chunks` in order with `encoder`, and returns the index, which has an entry for each chunk.
///
/// The caller proves that `encoder` is in the state of a new encoder, and that all chunks together have at most
/// [`MOST_SYMBOLS`] symbols.
fn encode_chunks<
    Word: WordOf<State>,
    State: BitArray,
    M: EncoderModel<PRECISION, Symbol = usize>,
    const PRECISION: usize,
>(
    alloc: Global,
    encoder: &mut RangeEncoder<Word, State, Vec<Word>>,
    chunks: &[Vec<usize>],
    model: &M,
) -> Result<Vec<(usize, RangeCoderState<Word, State>, usize)>, BuildError>
where
    M::Probability: WordOf<Word>,
    requires sizes { IsSizes Word.BITS State.BITS }
    requires begun { run_by Word.BITS State.BITS encoder.old ≡ initial State.BITS }
    requires left { 2 ^ 64 - 18 ≤ left_to_encode encoder.old }
    requires few { count_of (lists_of chunks.now) ≤ 1048576 }
    ensures ok { IfOk result (λ index. Indexes Word.BITS State.BITS
        (model_by PRECISION M.table model.now) (lists_of chunks.now) (map entry_at index.items)
        (run_by Word.BITS State.BITS encoder.old) (run_by Word.BITS State.BITS encoder.new)) }
    ensures err { IfErr result (BuildFails (model_by PRECISION M.table model.now)
        (lists_of chunks.now)) }
{
    let mut index = Vec::new(alloc);
    for (place, chunk) in chunks.iter().enumerate() {
        let (words, state) = encoder.pos();
        match index.push((words, state, chunk.len())) {
            Ok(()) => {}
            Err(_) => return Err(BuildError::Memory),
        }
        match encode_chunk::<Word, State, M, PRECISION>(encoder, chunk.as_slice(), model) {
            Ok(()) => {}
            Err(Refusal::Impossible(at)) => {
                return Err(BuildError::ImpossibleSymbol {
                    chunk: place,
                    index: at,
                });
            }
            Err(Refusal::Memory) => return Err(BuildError::Memory),
        }
    }
    Ok(index)
}

impl<
    Word: WordOf<State>,
    State: BitArray,
    M: EncoderModel<PRECISION, Symbol = usize> + DecoderModel<PRECISION, Symbol = usize>,
    const PRECISION: usize,
> Store<Word, State, M, PRECISION>
where
    M::Probability: WordOf<Word>,
{
    /// Encodes `chunks` with `model`, and builds a store from the words.
    ///
    /// A new range encoder encodes the chunks in order. The seal is self-delimiting, so any words may follow the
    /// store's words.
    ///
    /// # Errors
    ///
    /// - `TooLong`: returned if and only if all chunks together have more than [`MOST_SYMBOLS`] symbols. The call
    ///   counts the symbols before it encodes any.
    /// - `ImpossibleSymbol`: the model has no entry for a symbol. The error's fields locate the first impossible
    ///   symbol.
    /// - `Memory`: there is no memory for the words or the index.
    ///
    /// Encoding stops at the first `ImpossibleSymbol` or `Memory`. For an empty list of chunks, the call returns no
    /// error.
    ///
    /// # Examples
    ///
    /// ```
    /// let table = WeightTable::<u32, 24>::new(alloc, &[8388608, 8388608])?;
    /// Store::<u32, u64, _, 24>::build(alloc, &[], table)?.num_chunks(); // 0
    /// ```
    pub fn build(alloc: Global, chunks: &[Vec<usize>], model: M) -> Result<Self, BuildError>
        requires { IsSizes Word.BITS State.BITS }
        ensures built { IfOk result (λ store. IsBuilt Word.BITS State.BITS
            (model_by PRECISION M.table model) (lists_of chunks.now) store.index store.words) }
        ensures chunks { IfOk result (λ store. HoldsChunks Word.BITS State.BITS
            (model_by PRECISION M.table model) store.words store.index (lists_of chunks.now)) }
        ensures model { IfOk result (λ store. store.model ≡ model) }
        ensures too_long { (result ≡ Err BuildError.TooLong) ↔ (1048576 < count_of (lists_of chunks.now)) }
        ensures err { IfErr result (BuildFails (model_by PRECISION M.table model)
            (lists_of chunks.now)) }
    {
        if !are_few(chunks) {
            return Err(BuildError::TooLong);
        }
        let mut encoder: RangeEncoder<Word, State, Vec<Word>> = RangeEncoder::new(alloc);
        let index = encode_chunks::<Word, State, M, PRECISION>(
            alloc,
            &mut encoder,
            chunks,
            &model,
        )?;
        match encoder.into_self_delimited() {
            Ok(words) => Ok(Store {
                words,
                index,
                model,
            }),
            Err(_) => Err(BuildError::Memory),
        }
    }
}
