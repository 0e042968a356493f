//! Decoding a row of symbols from each of many coders that the caller keeps. The calls write no words.

ghost use Rattle.std.specs.Prelude.{◌≡◌, ◌*◌, ◌+◌, ◌<◌, ◌≤◌, ◌^◌, ℕ, drop, length, map, slice_index};
ghost use Rattle.constriction_base.specs.Models.{pairs_of};
ghost use Rattle.constriction_base.specs.Steps.{IsSizes};
ghost use Rattle.constriction_inputs.specs.Weights.{by_weights};
ghost use Rattle.constriction_lanes.specs.LaneCalls.{DecodesRows, LanesDecodeListBy};
ghost use Rattle.constriction_stack.specs.Lanes.{lane};
ghost use Rattle.constriction_stack.specs.Symbols.{Decodes, DecodesAll};

use crate::rows::row_lengths;
use constriction_base::cursor::Cursor;
use constriction_base::errors::CoderError;
use constriction_base::model::{DecoderModel, EntropyModel};
use constriction_inputs::models::weights::decoder_by;
use constriction_inputs::models::{DecoderModelList, DecoderModels, Models};
use constriction_inputs::refusal::Refusal;
use constriction_inputs::rows::adding::is_total;
use constriction_interleaved::decoding::decode_lanes;
use constriction_stack::coder::AnsCoder;
use constriction_stream::decoding::Decode;
use constriction_words::{BitArray, WordOf};
use std::alloc::Global;

/// Decodes symbols into `symbols`, each with its own model.
///
/// With `n` coders, `symbols` has `n` rows. Coder `j` is `heads[j]` and the first `lens[j]` words of row `j` of
/// `words`. The call fills row `j` of `symbols` with the symbols that it decodes from coder `j`, and sets `heads[j]`
/// and `lens[j]` to the state after the decodes. `models` has a model for each symbol, in the order of `symbols`.
///
/// # Errors
///
/// The call returns `WrongLength`, `WrongInterval`, `WrongWeights` or `NoMemory`, in the cases that [the crate](crate)
/// lists.
pub fn decode<
    Word: WordOf<State>,
    State: BitArray,
    P: WordOf<Word>,
    G: DecoderModels<P, PRECISION>,
    const PRECISION: usize,
>(
    alloc: Global,
    heads: &mut [State],
    words: &[Word],
    lens: &mut [usize],
    models: &G,
    symbols: &mut [usize],
) -> Result<(), Refusal>
    requires sizes { IsSizes Word.BITS State.BITS }
    requires precision { (1 ≤ PRECISION) × (PRECISION ≤ P.BITS) }
    ensures call { LanesDecodeListBy Word.Natural State.Natural PRECISION (G.coded models.now)
        words.now heads.old lens.old heads.new lens.new symbols.old symbols.new result }
{
    let Some((width, count)) = row_lengths(heads.len(), words.len(), lens, symbols.len()) else {
        return Err(Refusal::WrongLength);
    };
    models.check(symbols.len())?;
    let Some(mut list) = models.decoder_list(alloc, symbols.len()) else {
        return Err(Refusal::NoMemory);
    };
    decode_rows(heads, words, width, lens, &mut list, symbols, count);
    Ok(())
}

/// Decodes symbols into `symbols`, with one table of weights for all symbols of all coders.
///
/// The call builds a table, or a lookup model as [`Weights`](constriction_inputs::models::Weights) says, once for all
/// coders. Three or four coders take their steps in turn, as [`decode_lanes`] says. The call changes `heads` and `lens`
/// as [`decode`] does.
///
/// # Errors
///
/// The call returns `WrongLength`, `WrongWeights` or `NoMemory` in the cases that [the crate](crate) lists.
pub fn decode_by_weights<
    Word: WordOf<State>,
    State: BitArray,
    P: WordOf<Word>,
    const PRECISION: usize,
>(
    alloc: Global,
    heads: &mut [State],
    words: &[Word],
    lens: &mut [usize],
    weights: &[P],
    symbols: &mut [usize],
) -> Result<(), Refusal>
    requires sizes { IsSizes Word.BITS State.BITS }
    requires precision { (1 ≤ PRECISION) × (PRECISION ≤ P.BITS) }
    ensures call { LanesDecodeListBy Word.Natural State.Natural PRECISION (by_weights (map P.number weights.now))
        words.now heads.old lens.old heads.new lens.new symbols.old symbols.new result }
{
    let Some((width, count)) = row_lengths(heads.len(), words.len(), lens, symbols.len()) else {
        return Err(Refusal::WrongLength);
    };
    if !is_total::<P, PRECISION>(weights) {
        return Err(Refusal::WrongWeights);
    }
    let Some(model) = decoder_by::<P, PRECISION>(alloc, weights, symbols.len()) else {
        return Err(Refusal::NoMemory);
    };
    decode_lanes::<Word, State, _, PRECISION>(heads, words, width, lens, &model, symbols, count);
    Ok(())
}

/// Decodes `count` symbols from each coder, one coder after another, with a list of models for all symbols.
///
/// The caller proves that the lists have a row for each coder, of `width` words and `count` symbols, that no number of
/// `lens` is above `width`, and that `models` has one model for each symbol.
fn decode_rows<
    Word: WordOf<State>,
    State: BitArray,
    P: WordOf<Word>,
    L: DecoderModelList<P, PRECISION>,
    const PRECISION: usize,
>(
    heads: &mut [State],
    words: &[Word],
    width: usize,
    lens: &mut [usize],
    models: &mut L,
    symbols: &mut [usize],
    count: usize,
)
    requires sizes { IsSizes Word.BITS State.BITS }
    requires words { length words.now ≡ length heads.now * width }
    requires lens { length lens.now ≡ length heads.now }
    requires symbols { length symbols.now ≡ length heads.now * count }
    requires within { (j : ℕ) → j < length lens.now → slice_index lens.now j ≤ width }
    requires tables { length (L.tables models.now) ≡ length symbols.now }
    ensures decoded { DecodesRows Word.number State.number Word.BITS State.BITS PRECISION (L.tables models.old) width
        count words.now heads.old lens.old heads.new lens.new symbols.new (length heads.old) }
{
    for j in 0..heads.len() {
        let (head, left) = decode_row::<_, _, P, L, PRECISION>(
            heads[j],
            &words[j * width..j * width + width],
            lens[j],
            models,
            j * count,
            &mut symbols[j * count..j * count + count],
        );
        heads[j] = head;
        lens[j] = left;
    }
}

/// Decodes symbols into `symbols` from one coder, with the models from index `first` of the list on.
///
/// The coder is `head` and the first `len` words of `words`. The call returns the new head and the number of words that
/// are left. The caller proves that `len` isn't past the end of `words`, and that the list has a model for each symbol.
#[inline]
fn decode_row<
    Word: WordOf<State>,
    State: BitArray,
    P: WordOf<Word>,
    L: DecoderModelList<P, PRECISION>,
    const PRECISION: usize,
>(
    head: State,
    words: &[Word],
    len: usize,
    models: &mut L,
    first: usize,
    symbols: &mut [usize],
) -> (State, usize)
    requires sizes { IsSizes Word.BITS State.BITS }
    requires within { len ≤ length words.now }
    requires count { first + length symbols.now ≤ length (L.tables models.now) }
    requires fits { first + length symbols.now < 2 ^ 64 }
    ensures decoded { DecodesAll Word.BITS State.BITS
        (pairs_of PRECISION (λ table. table) symbols.new (drop first (L.tables models.old)))
        (lane Word.number State.number head words.now len)
        (lane Word.number State.number result.0 words.now result.1) }
    ensures left { result.1 ≤ len }
    ensures tables { L.tables models.new ≡ L.tables models.old }
{
    let mut coder: AnsCoder<Word, State, Cursor<Word, &[Word]>> = AnsCoder::from_raw_parts(
        Cursor::new_at_write_end(&words[..len]),
        head,
    );
    for place in 0..symbols.len() {
        models.select(first + place);
        symbols[place] = decode_next(&mut coder, models.model());
    }
    let (cursor, new_head) = coder.into_raw_parts();
    let (_, left) = cursor.into_buf_and_pos();
    (new_head, left)
}

/// Decodes a symbol with `model`. The call can't fail, because reading from a cursor never fails.
#[inline]
fn decode_next<
    'a,
    Word: WordOf<State>,
    State: BitArray,
    M: DecoderModel<PRECISION, Symbol = usize>,
    const PRECISION: usize,
>(coder: &mut AnsCoder<Word, State, Cursor<Word, &'a [Word]>>, model: &M) -> usize
where
    M::Probability: WordOf<Word>,
    ensures decoded { Decodes Word.BITS State.BITS record { precision = PRECISION; table = M.table model.now }
        result coder.old.state coder.new.state }
    ensures buffer { coder.new.backend.buf.now ≡ coder.old.backend.buf.now }
{
    match coder.decode_symbol(model) {
        Ok(symbol) => symbol,
        Err(CoderError::Frontend(never)) => match never {},
        Err(CoderError::Backend(never)) => match never {},
    }
}
