//! Two models in one stream: the first up to and including a flag symbol, the second after it.
//!
//! A flag is a symbol like any other. After the first flag, a symbol that equals the flag has no special meaning.
//!
//! ```
//! let first = WeightTable::<u8, 8>::new(alloc, &[128, 64, 64])?;
//! let second = WeightTable::<u8, 4>::new(alloc, &[4, 4, 4, 4])?;
//! let mut encoder: RangeEncoder<u8, u16, Vec<u8>> = RangeEncoder::new(alloc);
//! encode_flagged(&mut encoder, &[0, 1, 3], 1, &first, &second)?; // 1 is the flag
//! let words = encoder.into_compressed()?; // [88]
//!
//! let decoder = RangeDecoder::from_compressed(words)?;
//! let mut switch: FlagSwitch<_, _, _, 8, 4> = FlagSwitch::new(decoder, 1);
//! switch.next_symbol(&first, &second)?; // 0
//! switch.next_symbol(&first, &second)?; // 1, and now it has switched
//! switch.next_symbol(&first, &second)?; // 3, which only the second model has
//! ```

ghost use Rattle.std.specs.Prelude.{◌≡◌, ◌↔◌, ◌+◌, ◌≤◌, ◌==◌, ◌||◌, if◌then◌else◌, false, length, Err, IfOk, OnErr};
ghost use Rattle.constriction_base.specs.declared.errors.CoderError.TheVariants as coder_error;
ghost use Rattle.constriction_queue.specs.declared.decoder.symbols.DecoderFrontendError.TheVariants as frontend_error;
ghost use Rattle.constriction_queue.specs.Encoder.{left_to_encode};
ghost use Rattle.constriction_queue.specs.Flagged.{DecodesUnder, EncodesItem, NoSymbolFrom, StepsToFault};
ghost use Rattle.constriction_queue.specs.Flagged.{flagged, next_model};
ghost use Rattle.constriction_queue.specs.Symbols.{model_by};

use crate::decoder::RangeDecoder;
use crate::decoder::symbols::DecoderFrontendError;
use crate::encoder::RangeEncoder;
use constriction_base::backends::{Holds, Queue, ReadWords, Stack, WriteWords};
use constriction_base::errors::{CoderError, DefaultEncoderError};
use constriction_base::model::{DecoderModel, EncoderModel, EntropyModel};
use constriction_stream::decoding::Decode;
use constriction_stream::encoding::Encode;
use constriction_words::{BitArray, WordOf};
use std::marker::Model;

/// A decoder that uses one model up to and including a flag symbol, and another model after it.
///
/// The first model has a precision of `P1` bits, and the second model has a precision of `P2` bits.
///
/// See the module's documentation for an example. Contracts describe a `FlagSwitch` by a `Switch`: the decoder, the
/// flag, and whether the flag was decoded.
#[derive(Debug, Drop)]
pub struct FlagSwitch<
    Word: WordOf<State>,
    State: BitArray,
    Backend: Holds<Word, Queue>,
    const P1: usize,
    const P2: usize,
> {
    decoder: RangeDecoder<Word, State, Backend>,
    flag: usize,
    switched: bool,
}

impl<
    Word: WordOf<State>,
    State: BitArray,
    Backend: Holds<Word, Queue>,
    const P1: usize,
    const P2: usize,
> Model for FlagSwitch<Word, State, Backend, P1, P2> {
    ghost use Rattle.constriction_queue.specs.Flagged.{Switch};

    ghost Value = { Switch Backend };

    ghost view = { λ f. record { decoder = f.decoder; flag = f.flag; switched = f.switched } };

    ghost invariant = { λ _. Unit {0} };
}

impl<
    Word: WordOf<State>,
    State: BitArray,
    Backend: Holds<Word, Queue>,
    const P1: usize,
    const P2: usize,
> FlagSwitch<Word, State, Backend, P1, P2> {
    /// Creates a switch over a decoder. The switch uses the first model until it has decoded `flag`.
    pub fn new(decoder: RangeDecoder<Word, State, Backend>, flag: usize) -> Self
        ensures { result ≡ record { decoder = decoder; flag = flag; switched = false } }
    {
        FlagSwitch {
            decoder,
            flag,
            switched: false,
        }
    }

    /// Returns whether the flag was decoded, so that the next symbol is decoded with the second model.
    pub fn switched(&self) -> bool
        ensures { result ≡ self.now.switched }
    {
        self.switched
    }

    /// Returns the decoder, positioned after the symbols decoded so far.
    pub fn into_inner(self) -> RangeDecoder<Word, State, Backend>
        ensures { result ≡ self.decoder }
    {
        let FlagSwitch {
            decoder,
            flag: _,
            switched: _,
        } = self;
        decoder
    }
}

impl<
    Word: WordOf<State>,
    State: BitArray,
    Backend: ReadWords<Word, Queue>,
    const P1: usize,
    const P2: usize,
> FlagSwitch<Word, State, Backend, P1, P2> {
    /// Decodes the next symbol, with `first` up to and including the flag, and with `second` after it.
    ///
    /// The call returns the flag like any other symbol.
    ///
    /// # Errors
    ///
    /// - `Frontend(InvalidData)`: returned if and only if the next quantile is `2^P` or more, so that no model of
    ///   precision `P` has a symbol for this quantile. `P` is `P1` up to and including the flag, and `P2` after it. The
    ///   switch is unchanged.
    /// - `Backend(error)`: returned only if the decoder had to read a word and the read returned `error`. The result of
    ///   `switched` is unchanged. The decoder is in the state in which the failed `decode_symbol` left it.
    pub fn next_symbol<M1, M2>(
        &mut self,
        first: M1,
        second: M2,
    ) -> Result<usize, CoderError<DecoderFrontendError, Backend::ReadError>>
    where
        M1: DecoderModel<P1, Symbol = usize>,
        M2: DecoderModel<P2, Symbol = usize>,
        M1::Probability: WordOf<Word>,
        M2::Probability: WordOf<Word>,
        ensures step { DecodesUnder Word.number Backend.Holds Backend.ReadWords.own Word.BITS State.BITS
            (next_model self.old.switched
            (model_by P1 M1.table first) (model_by P2 M2.table second))
            self.old.decoder result self.new.decoder }
        ensures variant { (result ≡ Err (coder_error.Frontend frontend_error.InvalidData))
            ↔ NoSymbolFrom State.BITS (if self.old.switched then P2 else P1) self.old.decoder }
        ensures switched { IfOk result (λ symbol. self.new.switched ≡ (self.old.switched || symbol == self.old.flag)) }
        ensures kept { OnErr result (self.new.switched ≡ self.old.switched) }
        ensures flag { self.new.flag ≡ self.old.flag }
    {
        if self.switched {
            return Decode::<P2>::decode_symbol(&mut self.decoder, second);
        }
        match Decode::<P1>::decode_symbol(&mut self.decoder, first) {
            Ok(symbol) => {
                self.switched = symbol == self.flag;
                Ok(symbol)
            }
            Err(error) => Err(error),
        }
    }
}

/// Encodes symbols with `first` up to and including the first flag, and with `second` after it.
///
/// The caller proves that `symbols` has at most as many symbols as `symbols_left` of the encoder returns.
///
/// # Errors
///
/// Returns the error of the first `encode_symbol` that fails. The symbols before the failing symbol are encoded, and no
/// other symbols.
pub fn encode_flagged<
    Word: WordOf<State>,
    State: BitArray,
    Backend: WriteWords<Word>,
    M1: EncoderModel<P1, Symbol = usize>,
    M2: EncoderModel<P2, Symbol = usize>,
    const P1: usize,
    const P2: usize,
>(
    encoder: &mut RangeEncoder<Word, State, Backend>,
    symbols: &[usize],
    flag: usize,
    first: &M1,
    second: &M2,
) -> Result<(), DefaultEncoderError<Backend::WriteError>>
where
    M1::Probability: WordOf<Word>,
    M2::Probability: WordOf<Word>,
    requires { length symbols.now ≤ left_to_encode encoder.old }
    ensures steps { StepsToFault (EncodesItem Word.number Backend.Holds Backend.WriteWords.own Word.BITS State.BITS)
        encoder.old
        (flagged flag (model_by P1 M1.table first.now) (model_by P2 M2.table second.now) symbols.now)
        result encoder.new }
    ensures fewer_left { left_to_encode encoder.old ≤ left_to_encode encoder.new + length symbols.now }
{
    let mut switched = false;
    for symbol in symbols {
        if switched {
            match Encode::<P2>::encode_symbol(encoder, symbol, second) {
                Ok(()) => {}
                Err(refusal) => return Err(refusal),
            }
        } else {
            match Encode::<P1>::encode_symbol(encoder, symbol, first) {
                Ok(()) => {}
                Err(refusal) => return Err(refusal),
            }
            switched = *symbol == flag;
        }
    }
    Ok(())
}
