//! Decoding symbols from compressed words.

ghost use Rattle.std.specs.Prelude.{◌≡◌, ◌⊎◌, ◌+◌, ◌<◌, ◌≤◌, ℕ, List, length, map, reverse, IfErr, IfOk, OnErr};
ghost use Rattle.std.specs.Prelude.{OnOk};
ghost use Rattle.constriction_base.specs.Models.{pairs_of};
ghost use Rattle.constriction_chain.specs.Chain.{IsSized};
ghost use Rattle.constriction_chain.specs.Symbols.{ChainDecodesAll};
ghost use Rattle.constriction_inputs.specs.Buffers.{Appended};
ghost use Rattle.constriction_calls.specs.ChainCalls.{AreHeadsOf, ChainDecodesListBy, LacksCompressed, chain_buffers};
ghost use Rattle.constriction_chain.specs.Fits.{CoderFits};
ghost use Rattle.constriction_inputs.specs.Coded.{AreFit, items};
ghost use Rattle.constriction_inputs.specs.declared.refusal.Refusal.TheVariants as refusals;

use crate::chain::{ChainHeads, keep};
use constriction_base::backends::{Holds, ReadWords, Stack, WriteWords};
use constriction_base::cursor::Cursor;
use constriction_base::errors::CoderError;
use constriction_base::model::{DecoderModel, EntropyModel};
use constriction_chain::{ChainCoder, ChainCoderHeads};
use constriction_inputs::buffers::append;
use constriction_inputs::models::{DecoderModelList, DecoderModels, check_for};
use constriction_inputs::refusal::Refusal;
use constriction_inputs::symbol::put_numbers;
use constriction_stream::decoding::Decode;
use constriction_words::{BitArray, WordOf};
use std::alloc::Global;

/// A chain coder that reads borrowed compressed words, and writes remainders to a new vector.
pub(crate) type Taking<'a, Word, State, const PRECISION: usize> = ChainCoder<
    Word,
    State,
    Cursor<Word, &'a [Word]>,
    Vec<Word>,
    PRECISION,
>;

/// Decodes symbols into `symbols`, each with its own model.
///
/// The coder is `heads`, the first `len` words of `compressed`, and the first `rest` words of `remainders`. The call
/// reads these compressed words from the last to the first, and writes new words after these remainders. It sets
/// `heads`, `len` and `rest` to their values after the decodes.
///
/// # Errors
///
/// The call returns each error that [`crate::chain`] lists, except `ImpossibleSymbol`.
#[tactic(auto, using(constriction_inputs::proofs::Asking::fit_some))]
pub fn decode<
    Word: WordOf<State>,
    State: BitArray,
    P: WordOf<Word>,
    G: DecoderModels<P, PRECISION>,
    const PRECISION: usize,
>(
    alloc: Global,
    heads: &mut ChainHeads<Word, State>,
    compressed: &[Word],
    len: &mut usize,
    remainders: &mut [Word],
    rest: &mut usize,
    models: &G,
    symbols: &mut [G::Symbol],
) -> Result<(), Refusal>
    requires sized { IsSized Word.BITS State.BITS PRECISION }
    requires within { PRECISION ≤ P.BITS }
    requires fits { CoderFits Word.row State.row }
    ensures call { ChainDecodesListBy Word.Natural State.Natural PRECISION (G.coded models.now)
        (chain_buffers heads.old compressed.now len.old remainders.old rest.old)
        (chain_buffers heads.new compressed.now len.new remainders.new rest.new)
        (G.Symbol.numbers symbols.old) (G.Symbol.numbers symbols.new) result }
{
    if *len > compressed.len() || *rest > remainders.len() {
        return Err(Refusal::WrongLength);
    }
    check_for(models, symbols)?;
    let Some(both) = ChainCoderHeads::new(heads.compressed, heads.remainders) else {
        return Err(Refusal::InvalidData);
    };
    let lent = Cursor::new_at_write_end(&compressed[..*len]);
    let mut coder = ChainCoder::from_raw_parts(lent, Vec::new(alloc), both);
    let again = match decode_list(alloc, &mut coder, models, symbols.len()) {
        Ok(again) => again,
        Err(refusal) => return Err(refusal),
    };
    match finish_decoding(coder, heads, len, remainders, rest) {
        Ok(()) => {}
        Err(error) => return Err(error),
    }
    put_numbers(symbols, again.as_slice());
    Ok(())
}

/// Decodes `count` symbols, each with its own model, and returns the symbols.
///
/// The caller proves that `models.check(count)` would succeed.
///
/// # Errors
///
/// The call returns `OutOfData` or `NoMemory` in the cases that [`crate::chain`] lists.
fn decode_list<
    'a,
    Word: WordOf<State>,
    State: BitArray,
    P: WordOf<Word>,
    G: DecoderModels<P, PRECISION>,
    const PRECISION: usize,
>(
    alloc: Global,
    coder: &mut Taking<'a, Word, State, PRECISION>,
    models: &G,
    count: usize,
) -> Result<Vec<usize>, Refusal>
    requires sizes { (1 ≤ PRECISION) × (PRECISION ≤ P.BITS) }
    requires fit { (symbols : List ℕ) × (length symbols ≡ count) × AreFit PRECISION (G.coded models.now symbols) }
    ensures count { IfOk result (λ symbols. length symbols.items ≡ count) }
    ensures ok { IfOk result (λ symbols. ChainDecodesAll Word.BITS State.BITS
        (items PRECISION (G.coded models.now symbols.items)) coder.old.state coder.new.state) }
    ensures err { IfErr result (λ e. (e ≡ refusals.NoMemory) ⊎ ((e ≡ refusals.OutOfData)
        × LacksCompressed Word.BITS State.BITS PRECISION
        (λ symbols. items PRECISION (G.coded models.now symbols)) count coder.old.state)) }
{
    match models.decoder_list(alloc, count) {
        Some(mut list) => decode_with_list(alloc, coder, &mut list, count),
        None => Err(Refusal::NoMemory),
    }
}

/// Decodes `count` symbols in order, each with its own model of the list `models`.
///
/// The caller proves that the list has `count` models.
///
/// # Errors
///
/// The call returns the errors of [`decode_list`].
#[inline(never)]
fn decode_with_list<
    'a,
    Word: WordOf<State>,
    State: BitArray,
    P: WordOf<Word>,
    L: DecoderModelList<P, PRECISION>,
    const PRECISION: usize,
>(
    alloc: Global,
    coder: &mut Taking<'a, Word, State, PRECISION>,
    models: &mut L,
    count: usize,
) -> Result<Vec<usize>, Refusal>
    requires { length (L.tables models.now) ≡ count }
    ensures count { IfOk result (λ symbols. length symbols.items ≡ count) }
    ensures ok { IfOk result (λ symbols. ChainDecodesAll Word.BITS State.BITS
        (pairs_of PRECISION (λ table. table) symbols.items (L.tables models.old)) coder.old.state coder.new.state) }
    ensures err { IfErr result (λ e. (e ≡ refusals.NoMemory) ⊎ ((e ≡ refusals.OutOfData)
        × LacksCompressed Word.BITS State.BITS PRECISION
        (λ symbols. pairs_of PRECISION (λ table. table) symbols (L.tables models.old)) count coder.old.state)) }
{
    let Ok(mut symbols) = Vec::with_capacity(alloc, count) else {
        return Err(Refusal::NoMemory);
    };
    for place in 0..count {
        models.select(place);
        match coder.decode_symbol(models.model()) {
            Ok(symbol) => symbols.push_reserved(symbol),
            Err(CoderError::Frontend(_)) => return Err(Refusal::OutOfData),
            Err(CoderError::Backend(_)) => return Err(Refusal::NoMemory),
        }
    }
    Ok(symbols)
}

/// Appends the words of the remainders of `coder` to `remainders`, and adds their number to `rest`.
///
/// The call also sets `heads` to the heads of `coder`, and `len` to its number of compressed words.
/// The caller proves that `rest` is at most the length of `remainders`.
///
/// # Errors
///
/// A call that fails changes nothing.
///
/// - `NoSpace(needed)`: `remainders` is too short. `needed` is the number of words that `remainders` has to hold.
/// - `NoMemory`: the number of words that `remainders` has to hold doesn't fit a `usize`.
fn finish_decoding<'a, Word: WordOf<State>, State: BitArray, const PRECISION: usize>(
    coder: Taking<'a, Word, State, PRECISION>,
    heads: &mut ChainHeads<Word, State>,
    len: &mut usize,
    remainders: &mut [Word],
    rest: &mut usize,
) -> Result<(), Refusal>
    requires { rest.now ≤ length remainders.now }
    ensures heads { OnOk result (AreHeadsOf Word.number State.number coder.entry.state heads.new) }
    ensures compressed { OnOk result (len.new ≡ length coder.entry.state.compressed) }
    ensures remainders { OnOk result ((added : List Word)
        × (map Word.number (reverse added) ≡ coder.entry.state.remainders)
        × Appended remainders.old rest.old added remainders.new rest.new) }
    ensures err { IfErr result (λ e. (e ≡ refusals.NoMemory)
        ⊎ ((e ≡ refusals.NoSpace (rest.old + length coder.entry.state.remainders))
        × (length remainders.old < rest.old + length coder.entry.state.remainders))) }
    ensures kept { OnErr result ((heads.new ≡ heads.old) × (len.new ≡ len.old)
        × (remainders.new ≡ remainders.old) × (rest.new ≡ rest.old)) }
{
    let (words, written, both) = coder.into_raw_parts();
    append(written.as_slice(), remainders, rest)?;
    keep(words, both, heads, len);
    Ok(())
}
