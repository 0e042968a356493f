//! Decoding symbols from a state that the caller keeps. The calls write no words.

ghost use Rattle.std.specs.Prelude.{◌≡◌, ◌≤◌, ℕ, List, length};
ghost use Rattle.constriction_base.specs.Models.{pairs_of};
ghost use Rattle.constriction_base.specs.Steps.{IsSizes};
ghost use Rattle.constriction_calls.specs.AnsCalls.{AnsDecodesListBy, coder_of, ans_state_of};
ghost use Rattle.constriction_stack.specs.Symbols.{Decodes, DecodesAll};

use constriction_base::cursor::Cursor;
use constriction_base::errors::CoderError;
use constriction_base::model::{DecoderModel, EntropyModel};
use constriction_inputs::models::{DecoderModelList, DecoderModels, check_for};
use constriction_inputs::refusal::Refusal;
use constriction_inputs::symbol::Symbol;
use constriction_stack::coder::AnsCoder;
use constriction_stream::decoding::Decode;
use constriction_words::{BitArray, WordOf};
use std::alloc::Global;

/// Decodes symbols into `symbols`, each with its own model.
///
/// The state is `head` and the first `len` words of `words`. The call sets `head` and `len` to the state after the
/// decodes. The call can't fail for lack of words, because decoding from an empty state returns symbols too.
///
/// # Errors
///
/// The call returns `WrongLength`, `WrongInterval`, `WrongWeights` or `NoMemory`, in the cases that [`crate::ans`]
/// lists.
pub fn decode<
    Word: WordOf<State>,
    State: BitArray,
    P: WordOf<Word>,
    G: DecoderModels<P, PRECISION>,
    const PRECISION: usize,
>(
    alloc: Global,
    head: &mut State,
    words: &[Word],
    len: &mut usize,
    models: &G,
    symbols: &mut [G::Symbol],
) -> Result<(), Refusal>
    requires sizes { IsSizes Word.BITS State.BITS }
    requires precision { (1 ≤ PRECISION) × (PRECISION ≤ P.BITS) }
    ensures call { AnsDecodesListBy Word.Natural State.Natural PRECISION (G.coded models.now) words.now head.old len.old
        head.new len.new (G.Symbol.numbers symbols.old) (G.Symbol.numbers symbols.new) result }
{
    if *len > words.len() {
        return Err(Refusal::WrongLength);
    }
    check_for(models, symbols)?;
    let Some(mut list) = models.decoder_list(alloc, symbols.len()) else {
        return Err(Refusal::NoMemory);
    };
    decode_by(head, words, len, &mut list, symbols);
    Ok(())
}

/// Decodes symbols into `symbols` with a list of models.
///
/// The state is `head` and the first `len` words of `words`. The caller proves that `len` isn't past the end of
/// `words`, and that `models` has one model for each symbol.
#[inline(never)]
fn decode_by<
    Word: WordOf<State>,
    State: BitArray,
    P: WordOf<Word>,
    L: DecoderModelList<P, PRECISION>,
    S: Symbol,
    const PRECISION: usize,
>(head: &mut State, words: &[Word], len: &mut usize, models: &mut L, symbols: &mut [S])
    requires sizes { IsSizes Word.BITS State.BITS }
    requires within { len.now ≤ length words.now }
    requires count { length symbols.now ≡ length (L.tables models.now) }
    ensures decoded { (ns : List ℕ) × (length ns ≡ length symbols.old) × (S.numbers symbols.new ≡ S.kept ns)
        × DecodesAll Word.BITS State.BITS (pairs_of PRECISION (λ table. table) ns (L.tables models.old))
        (ans_state_of Word.number State.number (coder_of head.old words.now len.old))
        (ans_state_of Word.number State.number (coder_of head.new words.now len.new)) }
    ensures left { len.new ≤ len.old }
    ensures count { length symbols.new ≡ length symbols.old }
{
    let lent = Cursor::new_at_write_end(&words[..*len]);
    let mut coder = AnsCoder::<Word, State, _>::from_raw_parts(lent, *head);
    for place in 0..symbols.len() {
        models.select(place);
        symbols[place] = S::of(decode_next(&mut coder, models.model()));
    }
    let (cursor, new_head) = coder.into_raw_parts();
    let (_, left) = cursor.into_buf_and_pos();
    *head = new_head;
    *len = left;
}

/// Decodes a symbol with `model`. The call can't fail, because reading from a cursor never fails.
#[inline(always)]
fn decode_next<
    'a,
    Word: WordOf<State>,
    State: BitArray,
    M: DecoderModel<PRECISION, Symbol = usize>,
    const PRECISION: usize,
>(coder: &mut AnsCoder<Word, State, Cursor<Word, &'a [Word]>>, model: &M) -> usize
where
    M::Probability: WordOf<Word>,
    ensures decoded { Decodes Word.BITS State.BITS record { precision = PRECISION; table = M.table model.now }
        result coder.old.state coder.new.state }
    ensures buffer { coder.new.backend.buf.now ≡ coder.old.backend.buf.now }
{
    match coder.decode_symbol(model) {
        Ok(symbol) => symbol,
        Err(CoderError::Frontend(never)) => match never {},
        Err(CoderError::Backend(never)) => match never {},
    }
}
