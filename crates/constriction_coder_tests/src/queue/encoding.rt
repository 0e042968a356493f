//! The interpreter of scripts on encoders over vectors.
//!
//! Besides the acts of `crate::scripts::putting`, the interpreter runs the acts below. Comparisons are with the
//! numbers of the act.
//!
//! - `clear` clears the encoder. `of` makes an encoder over words. `parts` makes an encoder from an interval, a number
//!   of pending words, the first pending word, and words. `again` takes the encoder apart and puts it together again.
//! - `sealed` compares the sealed words that an iterator returns, `shown` compares those that a guard lends, and `lent`
//!   compares those that `with_compressed` lends.
//! - `export` compares the words that `into_compressed` returns, and `delimited` compares the words that
//!   `into_self_delimited` returns. Both leave a new encoder.
//! - `written` compares the words written. `held` compares the number of pending words and the first pending word. `at`
//!   compares the position: a place and an interval. `sizes` compares the numbers of words and bits. `left` compares
//!   the number of symbols that the encoder can still encode, and checks that `maybe_full` returns `false`. `empty`
//!   checks that the encoder is empty.
//! - `decoded` decodes symbols with a decoder that borrows the encoder, and `ended` also checks that the decoder may be
//!   exhausted afterwards. `owned`, `owned-by-trait` and `owned-by-conversion` turn the encoder into a decoder in three
//!   ways, and decode symbols.

ghost use Rattle.constriction_base.specs.Steps.{IsSizes};

use super::decoding::Owning;
use super::parts::{is_interval, is_situation, situation_of, state_of};
use crate::scripts::answers::{DONE, MEMORY, OTHER, ScriptWord, answer_if};
use crate::scripts::numbers::{Number, same, words_of};
use crate::scripts::putting::put_by;
use crate::scripts::script::{Act, Script};
use crate::scripts::taking::take_each;
use constriction_base::backends::Pos;
use constriction_base::cursor::Cursor;
use constriction_base::errors::ReadWriteError;
use constriction_base::model::DecoderModel;
use constriction_base::weights::WeightTable;
use constriction_queue::{EncoderGuard, RangeDecoder, RangeEncoder};
use constriction_stream::conversions::IntoDecoder;
use constriction_stream::decoding::Decode;
use constriction_stream::encoding::Encode;
use constriction_words::{BitArray, WordOf};
use std::alloc::{AllocError, Global};
use std::mem;

/// Returns the encoder, and leaves a new encoder in its place.
fn taken<Word, State>(
    alloc: Global,
    encoder: &mut RangeEncoder<Word, State>,
) -> RangeEncoder<Word, State>
where
    Word: WordOf<State>,
    State: BitArray,
    requires { IsSizes Word.BITS State.BITS }
{
    mem::replace(encoder, RangeEncoder::new(alloc))
}

/// Replaces the encoder by an encoder with the parts in `numbers`.
///
/// Returns the answer, a word of a script ([`crate::scripts::answers`]).
///
/// The answer is `short` if the interval is too short, and `unfit` if the parts don't fit together.
fn make_parts<Word, State>(
    alloc: Global,
    encoder: &mut RangeEncoder<Word, State>,
    numbers: &[u128],
) -> &'static str
where
    Word: WordOf<State> + Number,
    State: BitArray + Number,
    requires { IsSizes Word.BITS State.BITS }
{
    let Some(state) = state_of::<Word, State>(numbers, 0) else {
        return "short";
    };
    let situation = situation_of(numbers.get(2..).unwrap_or(&[]));
    if !RangeEncoder::<Word, State>::parts_fit(state, situation) {
        return "unfit";
    }
    match words_of(alloc, numbers.get(4..).unwrap_or(&[])) {
        Ok(words) => {
            *encoder = RangeEncoder::from_raw_parts(words, state, situation);
            DONE
        }
        Err(AllocError) => MEMORY,
    }
}

/// Takes an encoder apart, and puts its parts together again. Returns `None` if the parts don't fit together.
fn put_together<Word, State>(
    encoder: RangeEncoder<Word, State>,
) -> Option<RangeEncoder<Word, State>>
where
    Word: WordOf<State>,
    State: BitArray,
{
    let (bulk, state, situation) = encoder.into_raw_parts();
    if !RangeEncoder::<Word, State>::parts_fit(state, situation) {
        return None;
    }
    Some(RangeEncoder::from_raw_parts(bulk, state, situation))
}

/// Runs an act that makes another encoder.
///
/// Returns the answer, a word of a script ([`crate::scripts::answers`]), or `None` for other acts.
fn make_by<Word, State>(
    alloc: Global,
    encoder: &mut RangeEncoder<Word, State>,
    act: &Act<'_>,
) -> Option<&'static str>
where
    Word: WordOf<State> + Number,
    State: BitArray + Number,
    requires { IsSizes Word.BITS State.BITS }
{
    match act.verb {
        "clear" => encoder.clear(),
        "parts" => return Some(make_parts(alloc, encoder, act.numbers)),
        "of" => match words_of(alloc, act.numbers) {
            Ok(words) => *encoder = RangeEncoder::with_write_backend(words),
            Err(AllocError) => return Some(MEMORY),
        },
        "again" => match put_together(taken(alloc, encoder)) {
            Some(again) => *encoder = again,
            None => return Some(OTHER),
        },
        _ => return None,
    }
    Some(DONE)
}

/// Returns whether the encoder's iterator returns exactly the words `numbers`.
fn are_given<Word, State>(encoder: &RangeEncoder<Word, State>, numbers: &[u128]) -> bool
where
    Word: WordOf<State> + Number,
    State: BitArray,
{
    let mut given = encoder.iter_compressed();
    for number in numbers {
        match given.next() {
            Some(word) if word.shown() == *number => {}
            _ => return false,
        }
    }
    given.next().is_none()
}

/// Compares the words that a guard lends with `numbers`.
///
/// Returns the answer, a word of a script ([`crate::scripts::answers`]).
fn shown<Word, State>(encoder: &mut RangeEncoder<Word, State>, numbers: &[u128]) -> &'static str
where
    Word: WordOf<State> + Number,
    State: BitArray,
{
    match encoder.get_compressed() {
        Ok(guard) => answer_if(same(guard.words(), numbers)),
        Err(error) => error.told(),
    }
}

/// Compares the words that `with_compressed` lends with `numbers`.
///
/// Returns the answer, a word of a script ([`crate::scripts::answers`]).
fn lent<Word, State>(encoder: &mut RangeEncoder<Word, State>, numbers: &[u128]) -> &'static str
where
    Word: WordOf<State> + Number,
    State: BitArray,
{
    match encoder.with_compressed(|words| same(words, numbers)) {
        Ok(are_same) => answer_if(are_same),
        Err(error) => error.told(),
    }
}

/// Exports an encoder, and compares the words with `numbers`.
///
/// Returns the answer, a word of a script ([`crate::scripts::answers`]).
///
/// If `is_delimited` is true, the words end with a self-delimiting seal.
fn exported<Word, State>(
    encoder: RangeEncoder<Word, State>,
    numbers: &[u128],
    is_delimited: bool,
) -> &'static str
where
    Word: WordOf<State> + Number,
    State: BitArray,
{
    let words = if is_delimited {
        encoder.into_self_delimited()
    } else {
        encoder.into_compressed()
    };
    match words {
        Ok(words) => answer_if(same(&words, numbers)),
        Err(error) => error.told(),
    }
}

/// Runs an act that compares the sealed words.
///
/// Returns the answer, a word of a script ([`crate::scripts::answers`]), or `None` for other acts.
fn show_by<Word, State>(
    alloc: Global,
    encoder: &mut RangeEncoder<Word, State>,
    act: &Act<'_>,
) -> Option<&'static str>
where
    Word: WordOf<State> + Number,
    State: BitArray,
    requires { IsSizes Word.BITS State.BITS }
{
    Some(match act.verb {
        "sealed" => answer_if(are_given(encoder, act.numbers)),
        "shown" => shown(encoder, act.numbers),
        "lent" => lent(encoder, act.numbers),
        "export" => exported(taken(alloc, encoder), act.numbers, false),
        "delimited" => exported(taken(alloc, encoder), act.numbers, true),
        _ => return None,
    })
}

/// Returns whether the place, lower end and range in the encoder's position are the numbers of `act`.
pub fn stands_at<Word, State>(encoder: &RangeEncoder<Word, State>, act: &Act<'_>) -> bool
where
    Word: WordOf<State>,
    State: BitArray + Number,
{
    if !encoder.pos_fits() {
        return false;
    }
    let (place, state) = encoder.pos();
    act.symbols.first() == Some(&place) && is_interval(state, act.numbers, 1)
}

/// Takes a clone apart, and returns whether `numbers` are the number of pending words and the first pending word.
fn has_held<Word, State>(encoder: &RangeEncoder<Word, State>, numbers: &[u128]) -> bool
where
    Word: WordOf<State> + Number,
    State: BitArray,
{
    match encoder.clone() {
        Ok(clone) => is_situation(clone.into_raw_parts().2, numbers),
        Err(AllocError) => false,
    }
}

/// Runs an act that checks the encoder, and returns whether the check holds. Returns `None` for other acts.
fn is_as_said<Word, State, const PRECISION: usize>(
    encoder: &RangeEncoder<Word, State>,
    act: &Act<'_>,
) -> Option<bool>
where
    Word: WordOf<State> + Number,
    State: BitArray + Number,
{
    Some(match act.verb {
        "written" => same(encoder.bulk(), act.numbers),
        "held" => has_held(encoder, act.numbers),
        "at" => stands_at(encoder, act),
        "sizes" => {
            encoder.sizes_fit()
                && act.symbols == [encoder.num_words(), encoder.num_bits()].as_slice()
        }
        "left" => {
            act.symbols == [Encode::<PRECISION>::symbols_left(encoder)].as_slice()
                && !Encode::<PRECISION>::maybe_full(encoder)
        }
        "empty" => encoder.is_empty(),
        _ => return None,
    })
}

/// Decodes with a decoder that borrows the encoder, and compares the result with `symbols`.
///
/// Returns the answer, a word of a script ([`crate::scripts::answers`]).
///
/// If `is_ended` is true, the decoder must report afterwards that it may be exhausted.
fn decoded<Word, State, Probability, const PRECISION: usize>(
    encoder: &mut RangeEncoder<Word, State>,
    table: &WeightTable<Probability, PRECISION>,
    symbols: &[usize],
    is_ended: bool,
) -> &'static str
where
    Word: WordOf<State>,
    State: BitArray,
    Probability: WordOf<Word>,
{
    match encoder.decoder() {
        Ok(decoder) => decoded_by(decoder, table, symbols, is_ended),
        Err(error) => error.told(),
    }
}

/// Decodes with `decoder`, compares the result with `symbols`, and drops the decoder.
///
/// Returns the answer, a word of a script ([`crate::scripts::answers`]).
///
/// If `is_ended` is true, the decoder must report afterwards that it may be exhausted.
fn decoded_by<'a, Word, State, Probability, const PRECISION: usize>(
    mut decoder: RangeDecoder<Word, State, Cursor<Word, EncoderGuard<'a, Word, State, Global>>>,
    table: &WeightTable<Probability, PRECISION>,
    symbols: &[usize],
    is_ended: bool,
) -> &'static str
where
    Word: WordOf<State>,
    State: BitArray,
    Probability: WordOf<Word>,
{
    if !takes_each(&mut decoder, table, symbols) {
        return OTHER;
    }
    answer_if(!is_ended || Decode::<PRECISION>::maybe_exhausted(&decoder))
}

/// Returns whether the next symbols that `coder` decodes are `symbols`.
fn takes_each<C, M, const PRECISION: usize>(coder: &mut C, model: &M, symbols: &[usize]) -> bool
where
    C: Decode<PRECISION>,
    C::FrontendError: ScriptWord + Drop,
    C::BackendError: ScriptWord + Drop,
    M: DecoderModel<PRECISION, Symbol = usize>,
    M::Probability: WordOf<C::Word>,
{
    take_each(coder, model, symbols) == DONE
}

/// Decodes with the decoder that an encoder became, and compares the result with `symbols`.
///
/// Returns the answer, a word of a script ([`crate::scripts::answers`]).
fn owned_by<Word, State, Probability, const PRECISION: usize>(
    became: Result<Owning<Word, State>, ReadWriteError<std::convert::Infallible, AllocError>>,
    table: &WeightTable<Probability, PRECISION>,
    symbols: &[usize],
) -> &'static str
where
    Word: WordOf<State>,
    State: BitArray,
    Probability: WordOf<Word>,
{
    match became {
        Ok(mut decoder) => take_each(&mut decoder, table, symbols),
        Err(ReadWriteError::Write(error)) => error.told(),
        Err(ReadWriteError::Read(never)) => match never {},
    }
}

/// Runs an act that decodes the encoder's words.
///
/// Returns the answer, a word of a script ([`crate::scripts::answers`]), or `None` for other acts.
fn decode_by<Word, State, Probability, const PRECISION: usize>(
    alloc: Global,
    encoder: &mut RangeEncoder<Word, State>,
    table: &WeightTable<Probability, PRECISION>,
    act: &Act<'_>,
) -> Option<&'static str>
where
    Word: WordOf<State>,
    State: BitArray,
    Probability: WordOf<Word>,
    requires { IsSizes Word.BITS State.BITS }
{
    let became = match act.verb {
        "decoded" => return Some(decoded(encoder, table, act.symbols, false)),
        "ended" => return Some(decoded(encoder, table, act.symbols, true)),
        "owned" => taken(alloc, encoder).into_decoder(),
        "owned-by-trait" => IntoDecoder::<PRECISION>::into_decoder(taken(alloc, encoder)),
        "owned-by-conversion" => Owning::<Word, State>::try_from(taken(alloc, encoder)),
        _ => return None,
    };
    Some(owned_by(became, table, act.symbols))
}

/// Runs an act (a step of a script) with an encoder. Returns the answer, as in [`crate::scripts::answers`].
pub fn encode_by<Word, State, Probability, const PRECISION: usize>(
    alloc: Global,
    encoder: &mut RangeEncoder<Word, State>,
    table: &WeightTable<Probability, PRECISION>,
    act: &Act<'_>,
) -> &'static str
where
    Word: WordOf<State> + Number,
    State: BitArray + Number,
    Probability: WordOf<Word>,
    requires { IsSizes Word.BITS State.BITS }
{
    if let Some(answer) = put_by(alloc, encoder, table, act) {
        return answer;
    }
    if let Some(answer) = make_by(alloc, encoder, act) {
        return answer;
    }
    if let Some(answer) = show_by(alloc, encoder, act) {
        return answer;
    }
    if let Some(is_so) = is_as_said::<_, _, PRECISION>(encoder, act) {
        return answer_if(is_so);
    }
    decode_by(alloc, encoder, table, act).unwrap_or(OTHER)
}

/// Runs a script with an encoder. Returns the text of the first act whose result isn't the expected one, if any.
pub fn follow<Word, State, Probability, const PRECISION: usize>(
    alloc: Global,
    encoder: &mut RangeEncoder<Word, State>,
    table: &WeightTable<Probability, PRECISION>,
    script: &Script,
) -> Option<&'static str>
where
    Word: WordOf<State> + Number,
    State: BitArray + Number,
    Probability: WordOf<Word>,
    requires { IsSizes Word.BITS State.BITS }
{
    for at in 0..script.len() {
        let act = script.act(at);
        if encode_by(alloc, encoder, table, &act) != act.answer {
            return Some(act.text);
        }
    }
    None
}
