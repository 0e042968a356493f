//! Decoding symbols from the words of a caller's buffer.

ghost use Rattle.std.specs.Prelude.{◌≡◌, ◌≤◌, ℕ, List, length, map, IfErr, IfOk};
ghost use Rattle.constriction_base.specs.Steps.{IsSizes};
ghost use Rattle.constriction_queue.specs.Decoder.{StandsAt};
ghost use Rattle.constriction_queue.specs.Range.{Run};
ghost use Rattle.constriction_queue.specs.Symbols.{FindsAll};
ghost use Rattle.constriction_calls.specs.RangeCalls.{RangeDecodesList};
ghost use Rattle.constriction_inputs.specs.Coded.{AreFit, items};
ghost use Rattle.constriction_inputs.specs.Refusals.{NoMemoryOrInvalid};

use crate::range::parts::{DecoderParts, Reading, decoder_of, decoder_parts};
use constriction_inputs::models::{DecoderModelList, DecoderModels, check_for};
use constriction_inputs::refusal::Refusal;
use constriction_inputs::symbol::put_numbers;
use constriction_stream::decoding::Decode;
use constriction_words::{BitArray, WordOf};
use std::alloc::Global;

/// Decodes `count` symbols with `models`. Returns the symbols, and the decoder after them.
///
/// The caller proves that `models.check(count)` would succeed.
///
/// # Errors
///
/// - `InvalidData` if `decoder.point` and the words from `decoder.pos` on don't encode `count` symbols.
/// - `NoMemory` if there is no memory.
#[inline(never)]
pub(crate) fn decode_count<
    'a,
    Word: WordOf<State>,
    State: BitArray,
    P: WordOf<Word>,
    G: DecoderModels<P, PRECISION>,
    const PRECISION: usize,
>(
    alloc: Global,
    decoder: Reading<'a, Word, State>,
    models: &G,
    count: usize,
) -> Result<(Vec<usize>, Reading<'a, Word, State>), Refusal>
    requires sizes { (1 ≤ PRECISION) × (PRECISION ≤ P.BITS) }
    requires fit { (symbols : List ℕ) × (length symbols ≡ count) × AreFit PRECISION (G.coded models.now symbols) }
    ensures count { IfOk result (λ taken. length taken.0.items ≡ count) }
    ensures decoded { (words : List ℕ) (old : Run) → StandsAt Word.BITS State.BITS words old decoder.entry → IfOk result
        (λ taken. (last : Run) × FindsAll Word.BITS State.BITS words
        (items PRECISION (G.coded models.now taken.0.items)) old last
        × StandsAt Word.BITS State.BITS words last taken.1) }
    ensures err { IfErr result (NoMemoryOrInvalid ((words symbols : List ℕ) (old last : Run)
        → StandsAt Word.BITS State.BITS words old decoder.entry → FindsAll Word.BITS State.BITS words
        (items PRECISION (G.coded models.now symbols)) old last → length symbols ≡ count → ⊥)) }
{
    let mut decoder = decoder;
    let Some(mut list) = models.decoder_list(alloc, count) else {
        return Err(Refusal::NoMemory);
    };
    let Ok(mut again) = Vec::with_capacity(alloc, count) else {
        return Err(Refusal::NoMemory);
    };
    for i in 0..count {
        list.select(i);
        match Decode::<PRECISION>::decode_symbol(&mut decoder, list.model()) {
            Ok(symbol) => again.push_reserved(symbol),
            Err(_) => return Err(Refusal::InvalidData),
        }
    }
    Ok((again, decoder))
}

/// Decodes symbols into `symbols`, in order, each with its own model.
///
/// The call sets `decoder` to the decoder after these symbols.
///
/// # Errors
///
/// The call first checks for the errors of [`crate::range`]. Then it can return these:
///
/// - `InvalidData` if `decoder.point` and the words from `decoder.pos` on don't encode `symbols.len()` symbols.
/// - `NoMemory` if there is no memory.
#[tactic(auto, using(constriction_inputs::proofs::Asking::fit_some))]
pub fn decode<
    Word: WordOf<State>,
    State: BitArray,
    P: WordOf<Word>,
    G: DecoderModels<P, PRECISION>,
    const PRECISION: usize,
>(
    alloc: Global,
    decoder: &mut DecoderParts<State>,
    words: &[Word],
    models: &G,
    symbols: &mut [G::Symbol],
) -> Result<(), Refusal>
    requires sizes { IsSizes Word.BITS State.BITS }
    requires precision { (1 ≤ PRECISION) × (PRECISION ≤ P.BITS) }
    ensures call { RangeDecodesList State.number Word.BITS State.BITS PRECISION (G.coded models.now)
        (map Word.number words.now) decoder.old decoder.new (G.Symbol.numbers symbols.old)
        (G.Symbol.numbers symbols.new) result }
{
    if decoder.pos > words.len() {
        return Err(Refusal::WrongLength);
    }
    check_for(models, symbols)?;
    let Some(reading) = decoder_of(words, *decoder) else {
        return Err(Refusal::InvalidData);
    };
    match decode_count::<Word, State, P, G, PRECISION>(alloc, reading, models, symbols.len()) {
        Ok((again, last)) => {
            put_numbers(symbols, &again);
            *decoder = decoder_parts(last, words.len());
            Ok(())
        }
        Err(refusal) => Err(refusal),
    }
}
