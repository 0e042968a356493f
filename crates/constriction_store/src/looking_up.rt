//! Decoding one chunk of a store.

ghost use Rattle.std.specs.Prelude.{◌≡◌, ◌↔◌, ◌≤◌, ◌<◌, ℕ, List, length, map, IfOk, IfErr, Err};
ghost use Rattle.constriction_base.specs.Steps.{IsSizes};
ghost use Rattle.constriction_base.specs.Models.{items_of};
ghost use Rattle.constriction_queue.specs.Decoder.{StandsAt};
ghost use Rattle.constriction_queue.specs.Range.{Run};
ghost use Rattle.constriction_queue.specs.States.{lower_of, range_of};
ghost use Rattle.constriction_queue.specs.Symbols.{FindsAll, model_by};
ghost use Rattle.constriction_store.specs.LookedUp.{ChunkFails, IsChunk, LookUpFails};
ghost use Rattle.constriction_store.specs.Stores.{StoreHoldsChunk, run_from};

use crate::Store;
use constriction_base::backends::{Queue, ReadWords, Seek};
use constriction_base::cursor::Cursor;
use constriction_base::errors::CoderError;
use constriction_base::model::{DecoderModel, EncoderModel, EntropyModel};
use constriction_queue::{RangeCoderState, RangeDecoder};
use constriction_stream::decoding::Decode;
use constriction_words::{BitArray, WordOf};
use std::alloc::Global;
use thiserror::Error;

/// The reason why a look-up fails. See [`Store::chunk`] for an example.
#[derive(Debug, Clone, Copy, PartialEq, Eq, Error)]
pub enum ChunkError {
    /// The store has no chunk with this number.
    #[error("no such chunk")]
    NoSuchChunk,
    /// At the chunk's entry, the words encode fewer symbols of the model than the entry states.
    #[error("invalid chunk")]
    Invalid,
    /// There is no memory for the symbols.
    #[error("out of memory")]
    Memory,
}

/// Creates a decoder of `words` at the position `place`, with the interval of `state`.
///
/// `place` is the number of words before the position. The decoder first stands past the last word, where it reads no
/// word. Then it seeks to the position, and reads `State::BITS / Word::BITS` words there.
///
/// The caller proves that `place` is at most the number of words.
///
/// # Examples
///
/// ```
/// let (place, state, len) = store.index()[0];
/// let mut decoder = decoder_at::<u32, u64>(store.words(), place, state);
/// decoder.decode_symbol(&table)?; // the first symbol of chunk 0, if `len` isn't 0
/// ```
pub fn decoder_at<'a, Word: WordOf<State>, State: BitArray>(
    words: &'a [Word],
    place: usize,
    state: RangeCoderState<Word, State>,
) -> RangeDecoder<Word, State, Cursor<Word, &'a [Word]>>
    requires sizes { IsSizes Word.BITS State.BITS }
    requires inside { place ≤ length words.now }
    ensures decoder { StandsAt Word.BITS State.BITS (map Word.number words.now)
        (run_from place (lower_of state) (range_of state)) result }
    ensures buffer { result.bulk.buf.now ≡ words.now }
{
    let mut decoder = match RangeDecoder::with_backend(Cursor::new_at_write_end(words)) {
        Ok(decoder) => decoder,
        Err(never) => match never {},
    };
    match decoder.seek((place, state)) {
        Ok(()) => decoder,
        Err(()) => unreachable!(),
    }
}

/// Decodes `len` symbols with `model`.
///
/// Returns `Invalid` if the decoder's words encode fewer than `len` symbols of the model, and `Memory` if there is no
/// memory for the symbols.
fn decode_chunk<
    Word: WordOf<State>,
    State: BitArray,
    M: DecoderModel<PRECISION, Symbol = usize>,
    const PRECISION: usize,
>(
    alloc: Global,
    decoder: &mut RangeDecoder<Word, State, Cursor<Word, &[Word]>>,
    len: usize,
    model: &M,
) -> Result<Vec<usize>, ChunkError>
where
    M::Probability: WordOf<Word>,
    ensures count { IfOk result (λ symbols. length symbols.items ≡ len) }
    ensures ok { (words : List ℕ) (there : Run) → StandsAt Word.BITS State.BITS words there decoder.old →
        IfOk result (λ symbols. (last : Run) × FindsAll Word.BITS State.BITS words
        (items_of (model_by PRECISION M.table model.now) symbols.items) there last) }
    ensures err { (words : List ℕ) (there : Run) → StandsAt Word.BITS State.BITS words there decoder.old →
        IfErr result (ChunkFails Word.BITS State.BITS
        (model_by PRECISION M.table model.now) words there len) }
{
    let mut symbols = Vec::new(alloc);
    for _ in 0..len {
        match Decode::<PRECISION>::decode_symbol(decoder, model) {
            Ok(symbol) => match symbols.push(symbol) {
                Ok(()) => {}
                Err(_) => return Err(ChunkError::Memory),
            },
            Err(CoderError::Frontend(_)) => return Err(ChunkError::Invalid),
            Err(CoderError::Backend(never)) => match never {},
        }
    }
    Ok(symbols)
}

impl<
    Word: WordOf<State>,
    State: BitArray,
    M: EncoderModel<PRECISION, Symbol = usize> + DecoderModel<PRECISION, Symbol = usize>,
    const PRECISION: usize,
> Store<Word, State, M, PRECISION>
where
    M::Probability: WordOf<Word>,
{
    /// Decodes the symbols of chunk `i`.
    ///
    /// A decoder of the store's words seeks to the chunk's position, and decodes as many symbols as the chunk's entry
    /// states. The symbols depend on no words except the words of the chunk and the `State::BITS / Word::BITS` words
    /// after it.
    ///
    /// # Errors
    ///
    /// - `NoSuchChunk`: returned if and only if `i` is at least the number of chunks.
    /// - `Invalid`: the words at the chunk's entry encode fewer symbols of the model than the entry states. For a store
    ///   from [`Store::build`], the call never returns this error.
    /// - `Memory`: there is no memory for the symbols.
    ///
    /// Decoding stops at the first `Invalid` or `Memory`.
    ///
    /// # Examples
    ///
    /// ```
    /// let chunks = [&[1, 0], &[], &[1]]; // as a list of `Vec<usize>`
    /// let store: Store<u32, u64, _, 24> = Store::build(alloc, chunks, table)?;
    /// store.chunk(alloc, 2)?; // [1]
    /// store.chunk(alloc, 3); // Err(ChunkError::NoSuchChunk)
    /// ```
    pub fn chunk(&self, alloc: Global, i: usize) -> Result<Vec<usize>, ChunkError>
        ensures none { (result ≡ Err ChunkError.NoSuchChunk) ↔ (length self.now.index ≤ i) }
        ensures ok { IfOk result (λ symbols.
            StoreHoldsChunk Word.BITS State.BITS PRECISION M.table self.now i symbols.items) }
        ensures err { IfErr result (LookUpFails Word.BITS State.BITS
            (model_by PRECISION M.table self.now.model) self.now.words self.now.index i) }
        ensures back { i < length self.now.index → (symbols : List ℕ) →
            StoreHoldsChunk Word.BITS State.BITS PRECISION M.table self.now i symbols →
            IsChunk symbols result }
    {
        if i >= self.index.len() {
            return Err(ChunkError::NoSuchChunk);
        }
        let (place, state, len) = self.index[i];
        let mut decoder = decoder_at::<Word, State>(self.words.as_slice(), place, state);
        decode_chunk::<Word, State, M, PRECISION>(alloc, &mut decoder, len, &self.model)
    }
}
