//! Lending an encoder's compressed words to a function.
//!
//! The function receives words instead of a decoder, because Rattle has no bound for a closure that takes a decoder
//! over a borrowed slice. The function can create a decoder from the words.

ghost use Rattle.std.specs.Prelude.{◌≡◌, ◌+◌, ◌<◌, List, length, map, IfOk, OnErr};
ghost use Rattle.std.specs.Fn.{FnOnceReturnsAt, FnOnceTakesAt};
ghost use Rattle.constriction_queue.specs.Encoder.{HasHeads, IsEncoder, sealed_by};
ghost use Rattle.constriction_queue.specs.Guarded.{TooShortForSeal};

use crate::encoder::RangeEncoder;
use constriction_base::backends::{Holds, Stack, WriteWords, take_back};
use constriction_words::{BitArray, WordOf};
use std::alloc::{AllocError, Allocator};

impl<Word: WordOf<State>, State: BitArray, A: Allocator> RangeEncoder<Word, State, Vec<Word, A>> {
    /// Calls `f` on the words that [`RangeEncoder::into_compressed`] would return, and returns the result of `f`.
    ///
    /// The encoder is unchanged after the call. `f` can create a decoder from the words with
    /// [`RangeDecoder::from_compressed`]. The caller proves that `f` may be called with these words.
    ///
    /// [`RangeDecoder::from_compressed`]: crate::RangeDecoder::from_compressed
    ///
    /// # Errors
    ///
    /// Returns `AllocError` if the vector has to grow and there is no memory. In this case `f` isn't called, and the
    /// encoder is unchanged.
    ///
    /// # Examples
    ///
    /// ```
    /// encoder.with_compressed(|words| send(words))?;
    /// encoder.encode_symbol(&2, &table)?; // the next symbol of the same stream
    /// ```
    pub fn with_compressed<R, F: FnOnce(&[Word]) -> R>(&mut self, f: F) -> Result<R, AllocError>
        requires { (lent : List Word) → map Word.number lent ≡ sealed_by Word.BITS State.BITS self.old
            → FnOnceTakesAt F.FnOnce f lent }
        ensures called { IfOk result (λ answer. (lent : List Word)
            × (map Word.number lent ≡ sealed_by Word.BITS State.BITS self.old)
            × FnOnceReturnsAt F.FnOnce f lent answer) }
        ensures heads { HasHeads self.old self.new }
        ensures words { self.new.words ≡ self.old.words }
        ensures coder { IsEncoder Word.number ⟦<Vec<Word, A> as Holds<Word, Stack>>⟧
            Word.BITS State.BITS self.new }
        ensures room { OnErr result
            (TooShortForSeal (⟦<Vec<Word, A> as WriteWords<Word>>⟧.room) Word.BITS State.BITS self.old) }
    {
        let count = self.put_seal()?;
        let answer = f(self.bulk.as_slice());
        take_back::<Word, Vec<Word, A>>(&mut self.bulk, count);
        Ok(answer)
    }
}
