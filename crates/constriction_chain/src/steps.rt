//! The parts of a decode and of an encode, each on the compressed side or the remainders' side.
//!
//! A decode calls [`take_quantile`] and [`gain`]. An encode calls [`prepare_for_quantile`], [`regain`] and
//! [`give_quantile`].

ghost use Rattle.constriction_chain.specs.Chain.{IsRemaindersHead, IsSized, least};
ghost use Rattle.constriction_chain.specs.Steps.{QuantileAppended, Halts, Renormalizes, Lacks, Prepared, Regained};
ghost use Rattle.constriction_chain.specs.Steps.{QuantileRead};
ghost use Rattle.constriction_chain.specs.Walk.{NeedsWord, OwesWord};
ghost use Rattle.constriction_chain.specs.Words.{IfFound, OnNone};
ghost use Rattle.std.specs.Prelude.{Err, IfErr, IfOk, MatchBool, None, Ok, OnErr, OnOk};
ghost use Rattle.std.specs.Prelude.{◌%◌, ◌*◌, ◌+◌, ◌-◌, ◌/◌, ◌<◌, ◌^◌, ◌≡◌, ◌≤◌};

use crate::errors::{BackendError, DecoderError, DecoderFrontendError};
use constriction_base::backends::{Holds, ReadWords, Stack, WriteWords};
use constriction_base::errors::CoderError;
use constriction_words::{BitArray, WordOf};

/// Returns whether fewer than `precision` bits are left over, so that the next quantile needs a compressed word.
///
/// `h` is the compressed head: a 1 followed by the bits left over.
#[inline(always)]
fn needs_word<Word: BitArray>(h: Word, precision: u32) -> bool
    requires { precision ≤ Word.BITS }
    ensures { MatchBool result (NeedsWord Word.BITS precision (Word.number h))
        ((precision < Word.BITS) × (2 ^ precision ≤ Word.number h)) }
{
    precision == Word::BITS || h.shift_right(precision).is_nothing()
}

/// Returns the low `precision` bits of `word` as a quantile, and the head `h` with the word's other bits appended.
#[inline(always)]
fn from_word<Word: BitArray>(h: Word, word: Word, precision: u32) -> (Word, Word)
    requires sized { (1 ≤ precision) × (precision ≤ Word.BITS) }
    requires few { NeedsWord Word.BITS precision (Word.number h) }
    ensures quantile { Word.number result.0 ≡ Word.number word % 2 ^ precision }
    ensures head { Word.number result.1
        ≡ Word.number h * 2 ^ (Word.BITS - precision) + Word.number word / 2 ^ precision }
{
    if precision == Word::BITS {
        return (word, h);
    }
    let others = word.shift_right(precision);
    (
        word.low_bits(precision),
        h.shift_left(Word::BITS - precision).plus(others),
    )
}

/// Takes the next quantile off the compressed side, and returns the quantile. The call replaces the compressed head
/// `h`, unless it returns an error.
///
/// If fewer than `precision` bits are left over in the compressed head, the call needs a compressed word. It first
/// asks the remainders for room for one word, and then reads the compressed word.
///
/// # Errors
///
/// - `Frontend(OutOfCompressedData)`: the call needs a compressed word, and the read returns none.
/// - `Backend(Remainders(error))`: the request for room returns `error`.
/// - `Backend(Compressed(error))`: the read returns `error`.
#[inline(always)]
pub fn take_quantile<Word: BitArray, C: ReadWords<Word, Stack>, R: WriteWords<Word>>(
    compressed: &mut C,
    remainders: &mut R,
    h: &mut Word,
    precision: u32,
) -> Result<Word, DecoderError<C::ReadError, R::WriteError>>
    requires sized { (1 ≤ precision) × (precision ≤ Word.BITS) }
    requires some { 0 < Word.number h.old }
    ensures ok { IfOk result (λ quantile. QuantileRead Word.number C.Holds C.ReadWords.own R.Holds R.WriteWords.own
        Word.BITS precision (Word.number h.old) compressed.old remainders.old
        (Word.number quantile) (Word.number h.new) compressed.new remainders.new) }
    ensures err { IfErr result (λ e. Halts Word.number C.Holds C.ReadWords.own R.Holds R.WriteWords.own
        Word.BITS precision (Word.number h.old) compressed.old remainders.old
        e compressed.new remainders.new) }
    ensures others { OnErr result (R.words remainders.new ≡ R.words remainders.old) }
    ensures kept { OnErr result (C.is_list → C.words compressed.new ≡ C.words compressed.old) }
    ensures room { OnErr result (R.room remainders.old ≤ R.room remainders.new) }
    ensures head { OnErr result (h.new ≡ h.old) }
{
    if !needs_word(*h, precision) {
        let quantile = h.low_bits(precision);
        *h = h.shift_right(precision);
        return Ok(quantile);
    }
    if let Err(error) = remainders.prepare(1) {
        return Err(CoderError::Backend(BackendError::Remainders(error)));
    }
    match compressed.read() {
        Ok(Some(word)) => {
            let (quantile, next) = from_word(*h, word, precision);
            *h = next;
            Ok(quantile)
        }
        Ok(None) => Err(CoderError::Frontend(DecoderFrontendError::OutOfCompressedData)),
        Err(error) => Err(CoderError::Backend(BackendError::Compressed(error))),
    }
}

/// Multiplies the remainders head `r` by `p`, adds the offset `t`, and brings the head back into its window.
///
/// If the sum is `2^(State::BITS - precision)` or more, it is above the window. The call then writes the low word of
/// the sum to `remainders`. The call returns the new head, or the error of the write if the write fails.
#[inline(always)]
pub fn gain<Word: WordOf<State>, State: BitArray, R: WriteWords<Word>>(
    remainders: &mut R,
    r: State,
    p: State,
    t: State,
    precision: u32,
) -> Result<State, R::WriteError>
    requires sized { IsSized Word.BITS State.BITS precision }
    requires window { IsRemaindersHead Word.BITS State.BITS precision (State.number r) }
    requires inside { State.number t < State.number p }
    requires few { State.number p ≤ 2 ^ precision }
    ensures { Renormalizes Word.number State.number R.Holds R.WriteWords.own Word.BITS State.BITS precision
        (State.number r * State.number p + State.number t) remainders.old result remainders.new }
{
    let gained = r.times(p).plus(t);
    if gained.shift_right(State::BITS - precision).is_nothing() {
        return Ok(gained);
    }
    match remainders.write(Word::narrow(gained)) {
        Ok(()) => Ok(gained.shift_right(Word::BITS)),
        Err(error) => Err(error),
    }
}

/// Returns whether the compressed head `h`, with a quantile of `precision` bits appended, is too long for a `Word`.
///
/// In this case, putting the quantile back writes a word to the compressed backend.
#[inline(always)]
fn owes_word<Word: BitArray>(h: Word, precision: u32) -> bool
    requires { (1 ≤ precision) × (precision ≤ Word.BITS) }
    ensures { MatchBool result (OwesWord Word.BITS precision (Word.number h))
        ((precision < Word.BITS) × (Word.number h < 2 ^ (Word.BITS - precision))) }
{
    precision == Word::BITS || !h.shift_right(Word::BITS - precision).is_nothing()
}

/// Asks `compressed` for room for one word if putting back a quantile of `precision` bits will write a word.
///
/// Putting the quantile back writes a word if the compressed head `h`, with the quantile appended, is too long for a
/// `Word`. If `compressed` refuses the room, the call returns the error of `compressed`.
#[inline(always)]
pub fn prepare_for_quantile<Word: BitArray, C: WriteWords<Word>>(
    compressed: &mut C,
    h: Word,
    precision: u32,
) -> Result<(), C::WriteError>
    requires { (1 ≤ precision) × (precision ≤ Word.BITS) }
    ensures ok { OnOk result (Prepared C.WriteWords.own Word.BITS precision
        (Word.number h) compressed.old compressed.new) }
    ensures err { IfErr result (λ e. OwesWord Word.BITS precision (Word.number h)
        × C.prepare_fails compressed.old 1 e) }
    ensures room { OnErr result (C.room compressed.old ≤ C.room compressed.new) }
    ensures words { C.words compressed.new ≡ C.words compressed.old }
{
    if owes_word(h, precision) {
        compressed.prepare(1)
    } else {
        Ok(())
    }
}

/// Puts `quantile` back onto the compressed head `h`, and returns the new head.
///
/// If the head, with the quantile appended, is too long for a `Word`, the call writes its low word to `compressed`. If
/// the write fails, the call returns the error of the write.
#[inline(always)]
pub fn give_quantile<Word: BitArray, C: WriteWords<Word>>(
    compressed: &mut C,
    h: Word,
    quantile: Word,
    precision: u32,
) -> Result<Word, C::WriteError>
    requires sized { (1 ≤ precision) × (precision ≤ Word.BITS) }
    requires some { 0 < Word.number h }
    requires below { Word.number quantile < 2 ^ precision }
    ensures ok { IfOk result (λ x. QuantileAppended Word.number C.Holds C.WriteWords.own Word.BITS precision
        (Word.number h)
        compressed.old (Word.number quantile) (Word.number x) compressed.new) }
    ensures some { IfOk result (λ x. 0 < Word.number x) }
    ensures err { IfErr result (λ e. OwesWord Word.BITS precision (Word.number h) × C.write_fails compressed.old e) }
    ensures kept { OnErr result (C.words compressed.new ≡ C.words compressed.old) }
{
    if !owes_word(h, precision) {
        return Ok(h.shift_left(precision).plus(quantile));
    }
    if precision == Word::BITS {
        compressed.write(quantile)?;
        return Ok(h);
    }
    let others = h.low_bits(Word::BITS - precision);
    let word = others.shift_left(precision).plus(quantile);
    compressed.write(word)?;
    Ok(h.shift_right(Word::BITS - precision))
}

/// Returns whether the remainders head `r` is below `p * 2^(State::BITS - Word::BITS - precision)`.
///
/// An encode divides the head by `p`, the length of the symbol's interval. If the head is below this bound, the encode
/// first reads a word of the remainders into the head, so that the quotient stays in the window.
#[inline(always)]
fn is_short<Word: BitArray, State: BitArray>(r: State, p: State, precision: u32) -> bool
    requires { IsSized Word.BITS State.BITS precision }
    ensures { MatchBool result (State.number r < State.number p * least Word.BITS State.BITS precision)
        (State.number p * least Word.BITS State.BITS precision ≤ State.number r) }
{
    r.shift_right(State::BITS - Word::BITS - precision)
        .is_below(p)
}

/// Moves a word of the remainders into the remainders head `r` if `r` is below a bound, and returns the head.
///
/// The bound is `p * 2^(State::BITS - Word::BITS - precision)`, where `p` is the length of the symbol's interval. If
/// `r` is below the bound and no word is left, the call returns `None`. If the read fails, the call returns the error
/// of the read.
#[inline(always)]
pub fn regain<Word: WordOf<State>, State: BitArray, R: ReadWords<Word, Stack>>(
    remainders: &mut R,
    r: State,
    p: State,
    precision: u32,
) -> Result<Option<State>, R::ReadError>
    requires sized { IsSized Word.BITS State.BITS precision }
    requires window { IsRemaindersHead Word.BITS State.BITS precision (State.number r) }
    requires some { 0 < State.number p }
    requires few { State.number p ≤ 2 ^ precision }
    ensures ok { IfFound result (λ v. Regained Word.number R.Holds R.ReadWords.own Word.BITS State.BITS precision
        (State.number p) (State.number r) remainders.old (State.number v) remainders.new) }
    ensures none { OnNone result (Lacks R.Holds R.ReadWords.own
        (State.number p * least Word.BITS State.BITS precision) (State.number r) remainders.old
        (Ok None) remainders.new) }
    ensures err { IfErr result (λ e. Lacks R.Holds R.ReadWords.own
        (State.number p * least Word.BITS State.BITS precision) (State.number r) remainders.old
        (Err e) remainders.new) }
{
    if !is_short::<Word, State>(r, p, precision) {
        return Ok(Some(r));
    }
    match remainders.read() {
        Ok(Some(word)) => Ok(Some(r.shift_left(Word::BITS).plus(word.widen()))),
        Ok(None) => Ok(None),
        Err(error) => Err(error),
    }
}
