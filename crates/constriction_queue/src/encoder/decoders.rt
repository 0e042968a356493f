//! Turning an encoder into a decoder of its symbols.

ghost use Rattle.std.specs.Prelude.{IfOk, IfErr, MatchResult};
ghost use Rattle.constriction_queue.specs.Encoder.{sealed_by};
ghost use Rattle.constriction_queue.specs.Decoder.{IsDecoder, StandsAtStart};
ghost use Rattle.constriction_queue.specs.Calls.{BeginsSealed, DecodesSealed, NoDecoder, queue_reads};

use crate::decoder::RangeDecoder;
use crate::encoder::RangeEncoder;
use constriction_base::backends::{
    BothWays, Holds, IntoReadWords, Queue, ReadWords, Stack, WriteWords, written_to_queue,
};
use constriction_base::errors::ReadWriteError;
use constriction_stream::conversions::IntoDecoder;
use constriction_words::{BitArray, WordOf};

impl<
    Word: WordOf<State>,
    State: BitArray,
    Backend: WriteWords<Word> + IntoReadWords<Word, Queue> + BothWays<Word> + Drop,
> RangeEncoder<Word, State, Backend> {
    /// Turns the encoder into a decoder of the words that [`RangeEncoder::into_compressed`] would return.
    ///
    /// The decoder's backend is the encoder's backend, turned into a backend for reading from the first word.
    ///
    /// # Errors
    ///
    /// The call consumes the encoder, also if it returns an error.
    ///
    /// - `Write(error)`: the backend refuses room for the words that the encoder still has to write, or refuses to
    ///   write a word.
    /// - `Read(error)`: a read of the decoder's first `State::BITS / Word::BITS` words fails.
    pub fn into_decoder(
        self,
    ) -> Result<
        RangeDecoder<Word, State, Backend::IntoReadWords>,
        ReadWriteError<
            <Backend::IntoReadWords as ReadWords<Word, Queue>>::ReadError,
            Backend::WriteError,
        >,
    >
        ensures ok { ⟦<Backend::IntoReadWords as Holds<Word, Queue>>⟧.is_list →
            IfOk result (StandsAtStart Word.BITS State.BITS (sealed_by Word.BITS State.BITS self)) }
        ensures place { IfOk result (BeginsSealed Word.number ⟦<Backend as Holds<Word, Stack>>⟧ Backend.becomes
            (queue_reads ⟦<Backend::IntoReadWords as ReadWords<Word, Queue>>⟧) Word.BITS State.BITS self) }
        ensures coder { IfOk result (λ decoder.
            IsDecoder Word.number ⟦<Backend::IntoReadWords as Holds<Word, Queue>>⟧ Word.BITS State.BITS decoder) }
        ensures err { IfErr result (NoDecoder Word.number ⟦<Backend as Holds<Word, Stack>>⟧ Backend.WriteWords.own
            Backend.becomes (queue_reads ⟦<Backend::IntoReadWords as ReadWords<Word, Queue>>⟧)
            Word.BITS State.BITS self) }
    {
        let all = match self.into_compressed() {
            Ok(all) => all,
            Err(error) => return Err(ReadWriteError::Write(error)),
        };
        match RangeDecoder::<Word, State, Backend::IntoReadWords>::with_backend(written_to_queue(
            all,
        )) {
            Ok(decoder) => Ok(decoder),
            Err(error) => Err(ReadWriteError::Read(error)),
        }
    }
}

impl<
    Word: WordOf<State>,
    State: BitArray,
    Backend: WriteWords<Word> + IntoReadWords<Word, Queue> + BothWays<Word> + Drop,
    const PRECISION: usize,
> IntoDecoder<PRECISION> for RangeEncoder<Word, State, Backend> {
    type IntoDecoder = RangeDecoder<Word, State, Backend::IntoReadWords>;

    type Error = ReadWriteError<
        <Backend::IntoReadWords as ReadWords<Word, Queue>>::ReadError,
        Backend::WriteError,
    >;

    ghost becomes = { λ encoder decoder. DecodesSealed Word.number ⟦<Backend as Holds<Word, Stack>>⟧ Backend.becomes
        ⟦<Backend::IntoReadWords as Holds<Word, Queue>>⟧
        (queue_reads ⟦<Backend::IntoReadWords as ReadWords<Word, Queue>>⟧)
        Word.BITS State.BITS encoder decoder };

    ghost fails = { λ encoder error. NoDecoder Word.number ⟦<Backend as Holds<Word, Stack>>⟧ Backend.WriteWords.own
        Backend.becomes (queue_reads ⟦<Backend::IntoReadWords as ReadWords<Word, Queue>>⟧)
        Word.BITS State.BITS encoder error };

    /// Turns the encoder into a decoder, as the method [`RangeEncoder::into_decoder`] does.
    fn into_decoder(
        self,
    ) -> Result<
        RangeDecoder<Word, State, Backend::IntoReadWords>,
        ReadWriteError<
            <Backend::IntoReadWords as ReadWords<Word, Queue>>::ReadError,
            Backend::WriteError,
        >,
    > {
        self.into_decoder()
    }
}

/// Converts an encoder into a decoder, as [`RangeEncoder::into_decoder`] does.
impl<
    Word: WordOf<State>,
    State: BitArray,
    Backend: WriteWords<Word> + IntoReadWords<Word, Queue> + BothWays<Word> + Drop,
> TryFrom<RangeEncoder<Word, State, Backend>>
    for RangeDecoder<Word, State, <Backend as IntoReadWords<Word, Queue>>::IntoReadWords> {
    type Error = ReadWriteError<
        <<Backend as IntoReadWords<Word, Queue>>::IntoReadWords as ReadWords<
            Word,
            Queue,
        >>::ReadError,
        Backend::WriteError,
    >;

    ghost try_from_gives = { λ encoder result. MatchResult result
        (λ decoder. DecodesSealed Word.number ⟦<Backend as Holds<Word, Stack>>⟧ Backend.becomes
        ⟦<Backend::IntoReadWords as Holds<Word, Queue>>⟧
        (queue_reads ⟦<Backend::IntoReadWords as ReadWords<Word, Queue>>⟧)
        Word.BITS State.BITS encoder decoder)
        (NoDecoder Word.number ⟦<Backend as Holds<Word, Stack>>⟧ Backend.WriteWords.own Backend.becomes
        (queue_reads ⟦<Backend::IntoReadWords as ReadWords<Word, Queue>>⟧) Word.BITS State.BITS encoder) };

    fn try_from(
        encoder: RangeEncoder<Word, State, Backend>,
    ) -> Result<
        Self,
        ReadWriteError<
            <<Backend as IntoReadWords<Word, Queue>>::IntoReadWords as ReadWords<
                Word,
                Queue,
            >>::ReadError,
            Backend::WriteError,
        >,
    > {
        encoder.into_decoder()
    }
}
