//! The interpreter of scripts on decoders.
//!
//! Besides the acts of `crate::scripts::taking`, the interpreter runs the acts below. Comparisons are with the
//! numbers of the act.
//!
//! - `at` compares the interval's lower end and length.
//! - `stands` compares the interval, the point, and the number of words left.
//! - `seek` seeks to a place and an interval.
//! - `parts` makes a decoder from an interval and a point, with no words left.
//! - `exhausted` checks that the decoder may be exhausted, and `unfinished` checks that it isn't.

ghost use Rattle.constriction_base.specs.Steps.{IsSizes};

use super::parts::{is_interval, state_of};
use crate::scripts::answers::{DONE, OTHER, ScriptWord, answer_if};
use crate::scripts::numbers::Number;
use crate::scripts::script::{Act, Script};
use crate::scripts::taking::take_by;
use constriction_base::backends::{BoundedReadWords, Queue, Seek};
use constriction_base::cursor::Cursor;
use constriction_base::model::DecoderModel;
use constriction_base::weights::WeightTable;
use constriction_queue::RangeDecoder;
use constriction_stream::coder::Code;
use constriction_stream::decoding::Decode;
use constriction_words::{BitArray, WordOf};
use std::alloc::{AllocError, Global};

/// A decoder over words that it borrows.
pub type Lent<'a, Word, State> = RangeDecoder<Word, State, Cursor<Word, &'a [Word]>>;

/// A decoder that owns its words.
///
/// Scripts use this type. The prover can't prove a generic call that returns text if its decoder borrows the words.
pub type Owning<Word, State> = RangeDecoder<Word, State, Cursor<Word, Vec<Word>>>;

/// Returns whether the decoder's interval, point and number of words left are the numbers of `act`.
fn stands<Word, State>(decoder: &Owning<Word, State>, act: &Act<'_>) -> bool
where
    Word: WordOf<State>,
    State: BitArray + Number,
{
    let clone: Result<Owning<Word, State>, AllocError> = decoder.clone();
    let Ok(clone) = clone else {
        return false;
    };
    let (bulk, state, point) = clone.into_raw_parts();
    is_interval(state, act.numbers, 0)
        && act.numbers.get(2) == Some(&point.shown())
        && act.symbols.get(3) == Some(&BoundedReadWords::<Word, Queue>::remaining(&bulk))
}

/// Seeks to the place and the interval of `act`. Returns whether the answer is as `act` expects.
fn seeks<Word, State>(decoder: &mut Owning<Word, State>, act: &Act<'_>) -> bool
where
    Word: WordOf<State>,
    State: BitArray + Number,
    requires { IsSizes Word.BITS State.BITS }
{
    let answer = match (act.symbols.first(), state_of::<Word, State>(act.numbers, 1)) {
        (Some(place), Some(state)) if decoder.seek((*place, state)).is_ok() => DONE,
        (Some(_), Some(_)) => "none",
        _ => OTHER,
    };
    answer == act.answer
}

/// Makes a decoder from the interval and the point of `act`. Returns whether the answer is as `act` expects.
///
/// The decoder has no words left. The answer is `none` if the point isn't in the interval.
fn makes_parts<Word, State>(alloc: Global, decoder: &mut Owning<Word, State>, act: &Act<'_>) -> bool
where
    Word: WordOf<State>,
    State: BitArray + Number,
    requires { IsSizes Word.BITS State.BITS }
{
    let (Some(state), Some(point)) = (state_of::<Word, State>(act.numbers, 0), act.numbers.get(2))
    else {
        return act.answer == OTHER;
    };
    let none: Cursor<Word, Vec<Word>> = Cursor::new_at_write_end(Vec::new(alloc));
    match RangeDecoder::from_raw_parts(none, state, State::of(*point)) {
        Ok(made) => {
            *decoder = made;
            act.answer == DONE
        }
        Err(_) => act.answer == "none",
    }
}

/// Decodes symbols with the call that `act` names. Returns whether the answer is as `act` expects.
fn takes<C, M, const PRECISION: usize>(
    alloc: Global,
    coder: &mut C,
    model: &M,
    act: &Act<'_>,
) -> bool
where
    C: Decode<PRECISION>,
    C::FrontendError: ScriptWord + Drop,
    C::BackendError: ScriptWord + Drop,
    M: DecoderModel<PRECISION, Symbol = usize>,
    M::Probability: WordOf<C::Word>,
{
    take_by(alloc, coder, model, act).unwrap_or(OTHER) == act.answer
}

/// Turns the result `is_so` of a check into an answer. Returns whether `act` expects this answer.
fn tells(is_so: bool, act: &Act<'_>) -> bool {
    answer_if(is_so) == act.answer
}

/// Runs an act with a decoder. Returns whether the answer is as `act` expects.
fn decode_by<Word, State, Probability, const PRECISION: usize>(
    alloc: Global,
    decoder: &mut Owning<Word, State>,
    table: &WeightTable<Probability, PRECISION>,
    act: &Act<'_>,
) -> bool
where
    Word: WordOf<State>,
    State: BitArray + Number,
    Probability: WordOf<Word>,
    requires { IsSizes Word.BITS State.BITS }
{
    match act.verb {
        "seek" => seeks(decoder, act),
        "parts" => makes_parts(alloc, decoder, act),
        "at" => tells(is_interval(decoder.state(), act.numbers, 0), act),
        "stands" => tells(stands(decoder, act), act),
        "exhausted" => tells(Decode::<PRECISION>::maybe_exhausted(decoder), act),
        "unfinished" => tells(!Decode::<PRECISION>::maybe_exhausted(decoder), act),
        _ => takes(alloc, decoder, table, act),
    }
}

/// Runs a script with a decoder. Returns the text of the first act whose result isn't the expected one, if any.
pub fn follow_decoding<Word, State, Probability, const PRECISION: usize>(
    alloc: Global,
    decoder: &mut Owning<Word, State>,
    table: &WeightTable<Probability, PRECISION>,
    script: &Script,
) -> Option<&'static str>
where
    Word: WordOf<State>,
    State: BitArray + Number,
    Probability: WordOf<Word>,
    requires { IsSizes Word.BITS State.BITS }
{
    for at in 0..script.len() {
        let act = script.act(at);
        if !decode_by(alloc, decoder, table, &act) {
            return Some(act.text);
        }
    }
    None
}
