//! Seeking a decoder to a position: a number of words and an interval.
//!
//! A decoder has no `pos`, because encoders record positions. After the backend has moved, a seek reads
//! `State::BITS / Word::BITS` words, which form the new point. If one of these reads fails, the decoder keeps its old
//! interval and point (`stays`).

ghost use Rattle.std.specs.Prelude.{◌≡◌, ◌⊎◌, ◌/◌, ◌^◌, ℕ};
ghost use Rattle.constriction_queue.specs.States.{lower_of, range_of};
ghost use Rattle.constriction_queue.specs.Decoder.{HasPoint, IsDecoder, ReadsPoint, RefusesPoint};

use crate::decoder::RangeDecoder;
use crate::reading::read_point;
use crate::state::RangeCoderState;
use constriction_base::backends::{Holds, PosSeek, Queue, ReadWords, Seek};
use constriction_words::{BitArray, WordOf};

impl<Word: WordOf<State>, State: BitArray, Backend: Holds<Word, Queue> + PosSeek> PosSeek
    for RangeDecoder<Word, State, Backend> {
    /// The backend's position and the interval.
    type Position = (Backend::Position, RangeCoderState<Word, State>);
}

impl<Word: WordOf<State>, State: BitArray, Backend: ReadWords<Word, Queue> + Seek> Seek
    for RangeDecoder<Word, State, Backend>
where
    Backend::ReadError: Drop,
{
    ghost can_seek = { λ decoder position. Backend.can_seek decoder.bulk position.0 };

    // The backend refuses the seek, or a read of the new point fails.
    ghost seek_fails = { λ decoder position. Backend.seek_fails decoder.bulk position.0
        ⊎ ((moved rest : Backend) × (e : Backend.ReadError) × Backend.sought decoder.bulk position.0 moved
        × RefusesPoint Word.number Backend.ReadWords.own Word.BITS State.BITS moved e rest) };

    ghost sought = { λ old position new. (new.lower ≡ lower_of position.1) × (new.range ≡ range_of position.1)
        × ((moved : Backend) × Backend.sought old.bulk position.0 moved
        × (Backend.is_list → HasPoint Word.number Backend.Holds Word.BITS State.BITS moved new.point new.bulk)
        × ReadsPoint Word.number Backend.ReadWords.own Word.BITS State.BITS moved new.point new.bulk)
        × IsDecoder Word.number Backend.Holds Word.BITS State.BITS new };

    ghost stays = { λ old position new.
        (new.lower ≡ old.lower) × (new.range ≡ old.range) × (new.point ≡ old.point)
        × (Backend.stays old.bulk position.0 new.bulk
        ⊎ ((moved : Backend) × (e : Backend.ReadError) × Backend.sought old.bulk position.0 moved
        × RefusesPoint Word.number Backend.ReadWords.own Word.BITS State.BITS moved e new.bulk)) };

    /// Moves the decoder to a position that an encoder recorded.
    ///
    /// The decoder seeks in the backend, and reads `State::BITS / Word::BITS` words there, which form the new point. It
    /// then continues with the recorded interval.
    ///
    /// # Errors
    ///
    /// Returns `Err(())` if the backend refuses the seek or a read fails. In both cases, the interval and the point are
    /// unchanged. If a read failed, the backend has already moved.
    ///
    /// # Examples
    ///
    /// ```
    /// encoder.encode_symbol(&1, &table)?;
    /// let position = encoder.pos();
    /// encoder.encode_symbol(&3, &table)?;
    /// let mut decoder = DefaultRangeDecoder::from_compressed(encoder.into_compressed()?)?;
    /// decoder.seek(position); // Ok(())
    /// decoder.decode_symbol(&table)?; // 3
    /// ```
    fn seek(
        &mut self,
        position: (Backend::Position, RangeCoderState<Word, State>),
    ) -> Result<(), ()> {
        let (place, state) = position;
        self.bulk.seek(place)?;
        let point = match read_point::<Word, State, Backend>(&mut self.bulk) {
            Ok(point) => point,
            Err(_) => return Err(()),
        };
        self.state = state;
        self.distance = point.wrapping_minus(state.lower());
        Ok(())
    }
}
