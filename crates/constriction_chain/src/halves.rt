//! Decoding and encoding one symbol, on the heads and the backends.
//!
//! A decode has two halves: [`take`] takes a quantile, and [`keep`] moves the offset into the remainders. Between the
//! two calls, the coder asks the model for the symbol. An encode calls [`give`].
//!
//! The heads are two numbers here, not a struct with a const parameter. In a function that is generic over two backends
//! and a model, the struct would make the proof's conditions too large for the prover. A call replaces each head in its
//! place: heads in a result of eight bytes or fewer would be packed into one register.

ghost use Rattle.constriction_base.specs.Tables.{Covers};
ghost use Rattle.constriction_chain.specs.Chain.{IsRemaindersHead, IsSized};
ghost use Rattle.constriction_chain.specs.Steps.{EncodesAtHeads, Renormalizes, ReadsQuantileAtHeads};
ghost use Rattle.constriction_words.specs.Reciprocals.{IsReciprocalOf};
ghost use Rattle.std.specs.Prelude.{IfSome, OnErr, ◌%◌, ◌*◌, ◌+◌, ◌-◌, ◌/◌, ◌<◌, ◌^◌, ◌≡◌, ◌≤◌};

use crate::errors::{BackendError, DecoderError, EncoderError, EncoderFrontendError};
use crate::steps::{gain, give_quantile, prepare_for_quantile, regain, take_quantile};
use constriction_base::backends::{Holds, ReadWords, Stack, WriteWords};
use constriction_base::errors::CoderError;
use constriction_words::{BitArray, Reciprocal, WordOf};

/// Takes the next quantile off the compressed side, and returns the quantile. An error leaves `h` unchanged.
///
/// `h` is the compressed head, and `r` is the remainders head. If fewer than `precision` bits are left over, the call
/// first asks the remainders for room for one word, and then reads a compressed word.
///
/// # Errors
///
/// - `Frontend(OutOfCompressedData)`: the call needs a compressed word, and the read returns none.
/// - `Backend(Remainders(error))`: the request for room returns `error`.
/// - `Backend(Compressed(error))`: the read returns `error`.
#[inline(always)]
pub fn take<Word: WordOf<State>, State: BitArray, C: ReadWords<Word, Stack>, R: WriteWords<Word>>(
    compressed: &mut C,
    remainders: &mut R,
    h: &mut Word,
    r: State,
    precision: u32,
) -> Result<Word, DecoderError<C::ReadError, R::WriteError>>
    requires sized { IsSized Word.BITS State.BITS precision }
    requires head { 0 < Word.number h.old }
    requires window { IsRemaindersHead Word.BITS State.BITS precision (State.number r) }
    ensures step { ReadsQuantileAtHeads Word.number C.Holds C.ReadWords.own R.Holds R.WriteWords.own State.number
        Word.BITS State.BITS precision (h.old, r) compressed.old remainders.old
        result h.new compressed.new remainders.new }
    ensures kept { OnErr result (h.new ≡ h.old) }
{
    take_quantile(compressed, remainders, h, precision)
}

/// Moves the offset `quantile - left` into the remainders head `r`, and returns the new remainders head.
///
/// `p` is the length of the quantile's interval. If the head rises to `2^(State::BITS - precision)` or more, it is
/// above its window. The call then writes the lowest word of the head to `remainders`. If the write fails, the call
/// returns the error of the write.
#[inline(always)]
pub fn keep<Word: WordOf<State>, State: BitArray, R: WriteWords<Word>>(
    remainders: &mut R,
    r: State,
    quantile: Word,
    left: Word,
    p: Word,
    precision: u32,
) -> Result<State, R::WriteError>
    requires sized { IsSized Word.BITS State.BITS precision }
    requires window { IsRemaindersHead Word.BITS State.BITS precision (State.number r) }
    requires covers { Covers (Word.number left) (Word.number p) (Word.number quantile) }
    requires few { Word.number p ≤ 2 ^ precision }
    ensures { Renormalizes Word.number State.number R.Holds R.WriteWords.own Word.BITS State.BITS precision
        (State.number r * Word.number p + (Word.number quantile - Word.number left))
        remainders.old result remainders.new }
{
    let t = quantile.minus(left).widen();
    match gain::<Word, State, R>(remainders, r, p.widen(), t, precision) {
        Ok(r) => Ok(r),
        Err(error) => Err(error),
    }
}

/// Returns the quotient and the remainder of `number` divided by `p`.
///
/// If there is a reciprocal, the call multiplies by it instead of dividing. `length` is a bound of the quotient's
/// length in bits, as for [`BitArray::div_rem`].
#[inline(always)]
fn div_rem<State: BitArray>(
    number: State,
    p: State,
    reciprocal: Option<Reciprocal>,
    length: u32,
) -> (State, State)
    requires some { 0 < State.number p }
    requires reciprocal { IfSome reciprocal (λ r. IsReciprocalOf r (State.number p)) }
    ensures quotient { State.number result.0 ≡ State.number number / State.number p }
    ensures rest { State.number result.1 ≡ State.number number % State.number p }
{
    match reciprocal {
        Some(reciprocal) => {
            let quotient = number.quotient_by(p, reciprocal);
            (quotient, number.minus(quotient.times(p)))
        }
        None => number.div_rem(p, length),
    }
}

/// Encodes the symbol of the interval `[left, left + p)`, and replaces the compressed head `h` and the remainders head
/// `r`. An error leaves both unchanged.
///
/// If the remainders head is below `p * 2^(State::BITS - Word::BITS - precision)`, the call first reads a word of the
/// remainders into it. Then the call divides the head by `p`. The remainder plus `left` is the quantile, which the call
/// puts back onto the compressed side. The quotient becomes the new remainders head.
#[inline(always)]
fn give_at<Word: WordOf<State>, State: BitArray, C: WriteWords<Word>, R: ReadWords<Word, Stack>>(
    compressed: &mut C,
    remainders: &mut R,
    h: &mut Word,
    r: &mut State,
    left: Word,
    p: Word,
    reciprocal: Option<Reciprocal>,
    precision: u32,
) -> Result<(), EncoderError<C::WriteError, R::ReadError>>
    requires sized { IsSized Word.BITS State.BITS precision }
    requires head { 0 < Word.number h.old }
    requires window { IsRemaindersHead Word.BITS State.BITS precision (State.number r.old) }
    requires some { 0 < Word.number p }
    requires reciprocal { IfSome reciprocal (λ r. IsReciprocalOf r (Word.number p)) }
    requires total { Word.number left + Word.number p ≤ 2 ^ precision }
    ensures step { EncodesAtHeads Word.number C.Holds C.WriteWords.own R.Holds R.ReadWords.own State.number
        Word.BITS State.BITS precision left p (h.old, r.old) compressed.old remainders.old
        result (h.new, r.new) compressed.new remainders.new }
    ensures kept { OnErr result ((h.new ≡ h.old) × (r.new ≡ r.old)) }
{
    let p: State = p.widen();
    if let Err(error) = prepare_for_quantile(compressed, *h, precision) {
        return Err(CoderError::Backend(BackendError::Compressed(error)));
    }
    let v = match regain::<Word, State, R>(remainders, *r, p, precision) {
        Ok(Some(v)) => v,
        Ok(None) => return Err(CoderError::Frontend(EncoderFrontendError::OutOfRemainders)),
        Err(error) => return Err(CoderError::Backend(BackendError::Remainders(error))),
    };
    let (quotient, rest) = div_rem(v, p, reciprocal, State::BITS - precision);
    let quantile = left.plus(Word::narrow(rest));
    match give_quantile(compressed, *h, quantile, precision) {
        Ok(next) => {
            *h = next;
            *r = quotient;
            Ok(())
        }
        Err(error) => Err(CoderError::Backend(BackendError::Compressed(error))),
    }
}

/// Encodes the symbol of the interval `[left, left + p)`, and replaces the compressed head `h` and the remainders head
/// `r`. An error leaves both unchanged.
///
/// The call takes an offset below `p` from the remainders. It puts the quantile, which is `left` plus this offset, back
/// onto the compressed side. The call branches once on whether there is a reciprocal. One path divides, and the other
/// multiplies by the reciprocal.
///
/// # Errors
///
/// - `Frontend(OutOfRemainders)`: the call needs a word of the remainders, and the read returns none.
/// - `Backend(Remainders(error))`: the read returns `error`.
/// - `Backend(Compressed(error))`: the request for room, or the write of a compressed word, returns `error`.
#[inline(always)]
pub fn give<Word: WordOf<State>, State: BitArray, C: WriteWords<Word>, R: ReadWords<Word, Stack>>(
    compressed: &mut C,
    remainders: &mut R,
    h: &mut Word,
    r: &mut State,
    left: Word,
    p: Word,
    reciprocal: Option<Reciprocal>,
    precision: u32,
) -> Result<(), EncoderError<C::WriteError, R::ReadError>>
    requires sized { IsSized Word.BITS State.BITS precision }
    requires head { 0 < Word.number h.old }
    requires window { IsRemaindersHead Word.BITS State.BITS precision (State.number r.old) }
    requires some { 0 < Word.number p }
    requires reciprocal { IfSome reciprocal (λ r. IsReciprocalOf r (Word.number p)) }
    requires total { Word.number left + Word.number p ≤ 2 ^ precision }
    ensures step { EncodesAtHeads Word.number C.Holds C.WriteWords.own R.Holds R.ReadWords.own State.number
        Word.BITS State.BITS precision left p (h.old, r.old) compressed.old remainders.old
        result (h.new, r.new) compressed.new remainders.new }
    ensures kept { OnErr result ((h.new ≡ h.old) × (r.new ≡ r.old)) }
{
    match reciprocal {
        Some(reciprocal) => give_at(
            compressed,
            remainders,
            h,
            r,
            left,
            p,
            Some(reciprocal),
            precision,
        ),
        None => give_at(compressed, remainders, h, r, left, p, None, precision),
    }
}
