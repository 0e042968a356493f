//! Decoding symbols from exported words that a vector or an iterator holds in reverse order.

ghost use Rattle.std.specs.Prelude.{◌≡◌, List, length, map, IfOk, IfErr, OnOk};
ghost use Rattle.constriction_base.specs.Readings.{BeginsHigh};
ghost use Rattle.constriction_base.specs.Steps.{IsSizes};
ghost use Rattle.constriction_laws.specs.Outcomes.{IfItems, UnlessInvalid};
ghost use Rattle.constriction_laws.specs.stack.Exporting.{ReturnsExported};
ghost use Rattle.constriction_laws.specs.stack.Lists.{HoldsItems};
ghost use Rattle.constriction_laws.specs.stack.Readings.{DecodesFromIterator, ReturnsListed, HoldsListed};
ghost use Rattle.constriction_laws.specs.stack.Readings.{IteratorRefused};
ghost use Rattle.constriction_stack.specs.Ans.{AnsState};

use crate::errors::RoundTripError;
use crate::stack::readings::{decodes_are_words, items_are_words, symbols_come_back_by_reads};
use crate::stack::round_trips::coding::decode_pairs;
use crate::stack::words::{import_of_export, imports_are_words};
use constriction_base::backends::Holds;
use constriction_base::cursor::Cursor;
use constriction_base::iterators::FallibleIteratorReadWords;
use constriction_base::model::{DecoderModel, EntropyModel};
use constriction_base::reverse::Reverse;
use constriction_stack::coder::AnsCoder;
use constriction_words::{BitArray, WordOf};
use std::alloc::Global;

/// Decodes one symbol for each model from exported words that are stored in reverse order.
///
/// Calls `from_reversed_compressed` and `decode_symbols`. The coder reads the first word of `words` first. Suppose
/// that a coder that started empty encoded one symbol with each model, from last to first, and exported the words.
/// Then the call returns these symbols in order.
///
/// # Errors
///
/// - `InvalidData`: the first word is zero.
/// - `Refused`: there was no memory.
pub fn pairs_from_reversed_words<
    Word: WordOf<State>,
    State: BitArray,
    M: DecoderModel<PRECISION>,
    const PRECISION: usize,
>(alloc: Global, words: Vec<Word>, models: &[M]) -> Result<Vec<M::Symbol>, RoundTripError>
where
    M::Probability: WordOf<Word>,
    requires { IsSizes Word.BITS State.BITS }
    ensures count { IfOk result (λ again. length again.items ≡ length models.now) }
    ensures read { IfItems PRECISION M.table models.now result (HoldsItems Word.BITS State.BITS (map Word.number
        words.items)) }
    ensures back { (symbols : List M.Symbol) (state : AnsState) → ReturnsExported Word.BITS State.BITS PRECISION M.table
        models.now (map Word.number words.items) result symbols state }
    ensures high { OnOk result (BeginsHigh (map Word.number words.items)) }
    ensures err { IfErr result (UnlessInvalid (BeginsHigh (map Word.number words.items) → ⊥)) }
{
    let Ok(mut decoder) = AnsCoder::<
        Word,
        State,
        Reverse<Cursor<Word, Vec<Word>>>,
    >::from_reversed_compressed(words) else {
        return Err(RoundTripError::InvalidData);
    };
    import_of_export();
    decode_pairs(alloc, &mut decoder, models)
}

/// Decodes one symbol for each model from an iterator that returns exported words in reverse order.
///
/// Calls `from_reversed_compressed_iter` and `decode_symbols`. The coder reads the iterator's first word first.
/// Suppose that a coder that started empty encoded one symbol with each model, from last to first, and exported the
/// words. Then the call returns these symbols in order.
///
/// # Errors
///
/// - `InvalidData`: the import failed, because the first word is zero or an item is an error.
/// - `Refused`: a later item is an error, or there was no memory.
pub fn pairs_from_items<
    Word: WordOf<State>,
    State: BitArray,
    ReadError: Drop,
    Iter: Iterator<Item = Result<Word, ReadError>>,
    M: DecoderModel<PRECISION>,
    const PRECISION: usize,
>(alloc: Global, items: Iter, models: &[M]) -> Result<Vec<M::Symbol>, RoundTripError>
where
    M::Probability: WordOf<Word>,
    requires sizes { IsSizes Word.BITS State.BITS }
    requires can { Iter.can_next items }
    ensures count { IfOk result (λ again. length again.items ≡ length models.now) }
    ensures read { HoldsListed Word.number Iter.next_gives Word.BITS State.BITS PRECISION M.table models.now items
        result }
    ensures back { ReturnsListed Word.number Iter.next_gives Word.BITS State.BITS PRECISION M.table models.now items
        result }
    ensures reads { IfItems PRECISION M.table models.now result (DecodesFromIterator Word.number Iter.next_gives
        Word.BITS State.BITS items) }
    ensures err { IfErr result (UnlessInvalid (IteratorRefused Word.number Iter.next_gives Word.BITS State.BITS
        items)) }
{
    let Ok(mut decoder) = AnsCoder::<
        Word,
        State,
        FallibleIteratorReadWords<Iter>,
    >::from_reversed_compressed_iter(items) else {
        return Err(RoundTripError::InvalidData);
    };
    items_are_words::<Word, ReadError, Iter>();
    imports_are_words::<Word, FallibleIteratorReadWords<Iter>>();
    decodes_are_words::<M::Symbol, Word, FallibleIteratorReadWords<Iter>>();
    symbols_come_back_by_reads::<M::Symbol, Word, FallibleIteratorReadWords<Iter>>();
    decode_pairs(alloc, &mut decoder, models)
}
