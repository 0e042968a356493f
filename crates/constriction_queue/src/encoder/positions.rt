//! Positions of an encoder: the number of words written and pending, and the interval.

ghost use Rattle.std.specs.Prelude.{◌≡◌, ◌↔◌, ◌<◌, ◌^◌, length, IsTrue};
ghost use Rattle.constriction_queue.specs.States.{lower_of, range_of, IsPosition};
ghost use Rattle.constriction_queue.specs.Encoder.{IsEncoder, run_by};

use crate::encoder::RangeEncoder;
use crate::situation::EncoderSituation;
use crate::state::RangeCoderState;
use constriction_base::backends::{CountsWords, Holds, Pos, PosSeek, Stack};
use constriction_words::{BitArray, WordOf};

impl<Word: WordOf<State>, State: BitArray, Backend: Holds<Word, Stack> + PosSeek> PosSeek
    for RangeEncoder<Word, State, Backend> {
    /// The number of words written and pending, and the interval.
    type Position = (Backend::Position, RangeCoderState<Word, State>);
}

impl<Word: WordOf<State>, State: BitArray, Backend: CountsWords<Word>> Pos
    for RangeEncoder<Word, State, Backend> {
    ghost stands_at = { λ encoder position.
        IsPosition State.BITS (run_by Word.BITS State.BITS encoder)
        position.0 (lower_of position.1) (range_of position.1)
        × IsEncoder Word.number Backend.Holds Word.BITS State.BITS encoder };

    ghost can_tell = { λ encoder. (run_by Word.BITS State.BITS encoder).moves < 2 ^ 64 };

    /// Returns the encoder's position: the number of words written and pending, and the interval.
    ///
    /// A decoder of the words that the encoder exports later can seek to this position. The caller proves that the
    /// number of words written and pending fits a `usize`. [`RangeEncoder::pos_fits`] tests this.
    fn pos(&self) -> (usize, RangeCoderState<Word, State>) {
        (self.bulk.pos() + self.pending_count(), self.state)
    }
}

impl<Word: WordOf<State>, State: BitArray, Backend: CountsWords<Word>> RangeEncoder<
    Word,
    State,
    Backend,
> {
    /// Returns the number of pending words.
    #[inline]
    fn pending_count(&self) -> usize
        ensures { result ≡ length self.now.held }
    {
        match self.situation {
            EncoderSituation::Normal => 0,
            EncoderSituation::Inverted(count, _) => count.get(),
        }
    }

    /// Returns whether the number of words written and pending fits a `usize`, as `pos` requires.
    pub fn pos_fits(&self) -> bool
        ensures { IsTrue result ↔ ((run_by Word.BITS State.BITS self.now).moves < 2 ^ 64) }
    {
        let place = self.bulk.pos();
        self.pending_count() <= usize::MAX - place
    }
}
