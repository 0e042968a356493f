//! The decoder of the range coder.
//!
//! - [`symbols`]: the step, `decode_symbol`.
//! - [`words`]: creating a decoder from words or from its parts, and splitting it into its parts.
//! - [`seeking`]: seeking to positions.

pub mod seeking;
pub mod symbols;
pub mod words;

use crate::state::RangeCoderState;
use constriction_base::backends::{Holds, Queue};
use constriction_base::cursor::Cursor;
use constriction_words::{BitArray, WordOf};
use std::marker::Model;

/// A decoder that reads words of type `Word` and keeps an interval of numbers of type `State`.
///
/// The symbols form a queue: the symbol encoded first is decoded first.
///
/// The width of `State` is a whole number of words, at least two. The decoder narrows its interval by each symbol, as
/// the encoder did. The last `State::BITS / Word::BITS` words read form a number, the point. A decode returns the
/// symbol whose part of the interval holds the point. After the last word, each missing word counts as 0.
///
/// The decoder stores the distance of the point from the lower end of the interval, modulo `2^State::BITS`. Contracts
/// describe a decoder by a `Decoder`: the backend, the remaining words, the interval, and the point.
///
/// # Examples
///
/// ```
/// let mut decoder = DefaultRangeDecoder::from_compressed(words)?; // a `Vec<u32>` that an encoder exported
/// decoder.decode_symbol(&table)?; // the first symbol encoded
/// ```
#[derive(Debug, Drop)]
pub struct RangeDecoder<Word: WordOf<State>, State: BitArray, Backend: Holds<Word, Queue>> {
    pub(crate) bulk: Backend,
    pub(crate) state: RangeCoderState<Word, State>,
    pub(crate) distance: State,
}

/// A decoder with 32-bit words and 64-bit states, for precisions up to 32 bits.
pub type DefaultRangeDecoder<Backend = Cursor<u32, Vec<u32>>> = RangeDecoder<u32, u64, Backend>;

/// A decoder with 16-bit words and 32-bit states, for precisions up to 16 bits.
pub type SmallRangeDecoder<Backend> = RangeDecoder<u16, u32, Backend>;

impl<Word: WordOf<State>, State: BitArray, Backend: Holds<Word, Queue>> Model
    for RangeDecoder<Word, State, Backend> {
    ghost use Rattle.constriction_base.specs.Steps.{IsSizes};
    ghost use Rattle.constriction_queue.specs.States.{lower_of, range_of};
    ghost use Rattle.constriction_queue.specs.Decoder.{Decoder, decoder_at};

    ghost Value = { Decoder Backend };

    ghost view = { λ d. decoder_at Word.number Backend.Holds State.BITS
        (lower_of d.state) (range_of d.state) (State.number d.distance) d.bulk };

    ghost invariant = { λ _. IsSizes Word.BITS State.BITS };
}
