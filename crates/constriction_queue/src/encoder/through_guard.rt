//! Decoders that borrow an encoder: the decoder's backend is a cursor whose buffer is the encoder's guard.

ghost use Rattle.std.specs.Prelude.{◌≡◌, ◌+◌, ◌<◌, drop, length, reverse, IfOk, OnErr};
ghost use Rattle.constriction_queue.specs.Encoder.{HasHeads, sealed_by};
ghost use Rattle.constriction_queue.specs.Decoder.{StandsAtStart};

use crate::decoder::RangeDecoder;
use crate::encoder::RangeEncoder;
use crate::encoder::guard::EncoderGuard;
use crate::reading::read_point;
use crate::state::RangeCoderState;
use constriction_base::backends::{
    Holds, IntoReadWords, IntoSeekReadWords, Queue, Stack, Words, WriteWords,
};
use constriction_base::cursor::Cursor;
use constriction_words::{BitArray, WordOf};
use std::alloc::{AllocError, Allocator};

impl<'a, Word: WordOf<State>, State: BitArray, A: Allocator> Words<Word>
    for EncoderGuard<'a, Word, State, A> {
    ghost use Rattle.constriction_queue.specs.Guarded.{lent_by};

    ghost lent = { λ g. lent_by g };

    fn words(&self) -> &[Word] {
        self.words()
    }
}

impl<'a, Word: WordOf<State>, State: BitArray, A: Allocator> Holds<Word, Queue>
    for EncoderGuard<'a, Word, State, A> {
    ghost use Rattle.constriction_queue.specs.Guarded.{lent_by};

    ghost words = { λ g. lent_by g };

    ghost is_list = { Unit {0} };
}

impl<'a, Word: WordOf<State>, State: BitArray, A: Allocator> Holds<Word, Stack>
    for EncoderGuard<'a, Word, State, A> {
    ghost use Rattle.constriction_queue.specs.Guarded.{lent_by};

    ghost words = { λ g. reverse (lent_by g) };

    ghost is_list = { Unit {0} };
}

impl<'a, Word: WordOf<State>, State: BitArray, A: Allocator> IntoReadWords<Word, Queue>
    for EncoderGuard<'a, Word, State, A> {
    type IntoReadWords = Cursor<Word, EncoderGuard<'a, Word, State, A>>;

    ghost becomes = { λ old new. (new.buf ≡ old) × (new.pos ≡ 0) };

    fn into_read_words(self) -> Cursor<Word, EncoderGuard<'a, Word, State, A>> {
        Cursor::new_at_write_beginning(self)
    }
}

impl<'a, Word: WordOf<State>, State: BitArray, A: Allocator> IntoReadWords<Word, Stack>
    for EncoderGuard<'a, Word, State, A> {
    type IntoReadWords = Cursor<Word, EncoderGuard<'a, Word, State, A>>;

    ghost use Rattle.constriction_queue.specs.Guarded.{lent_by};

    ghost becomes = { λ old new. (new.buf ≡ old) × (new.pos ≡ length (lent_by old)) };

    fn into_read_words(self) -> Cursor<Word, EncoderGuard<'a, Word, State, A>> {
        Cursor::new_at_write_end(self)
    }
}

impl<'a, Word: WordOf<State>, State: BitArray, A: Allocator> IntoSeekReadWords<Word, Queue>
    for EncoderGuard<'a, Word, State, A> {
    type IntoSeekReadWords = Cursor<Word, EncoderGuard<'a, Word, State, A>>;

    ghost becomes = { λ old new. (new.buf ≡ old) × (new.pos ≡ 0) };

    fn into_seek_read_words(self) -> Cursor<Word, EncoderGuard<'a, Word, State, A>> {
        IntoReadWords::<Word, Queue>::into_read_words(self)
    }
}

impl<'a, Word: WordOf<State>, State: BitArray, A: Allocator> IntoSeekReadWords<Word, Stack>
    for EncoderGuard<'a, Word, State, A> {
    type IntoSeekReadWords = Cursor<Word, EncoderGuard<'a, Word, State, A>>;

    ghost use Rattle.constriction_queue.specs.Guarded.{lent_by};

    ghost becomes = { λ old new. (new.buf ≡ old) × (new.pos ≡ length (lent_by old)) };

    fn into_seek_read_words(self) -> Cursor<Word, EncoderGuard<'a, Word, State, A>> {
        IntoReadWords::<Word, Stack>::into_read_words(self)
    }
}

impl<Word: WordOf<State>, State: BitArray, A: Allocator> RangeEncoder<Word, State, Vec<Word, A>> {
    ghost use Rattle.constriction_queue.specs.Guarded.{lender, written, TooShortForSeal};

    /// Borrows the encoder, and returns a decoder of the words that [`RangeEncoder::into_compressed`] would return.
    ///
    /// The call writes the pending words and a seal onto the encoder's vector, and the decoder reads the vector through
    /// an [`EncoderGuard`]. Dropping the decoder restores the encoder, and an error leaves the encoder unchanged. The
    /// contract of this call states neither fact; tests check both. In contrast, the contract of
    /// [`RangeEncoder::with_compressed`] states that its call leaves the encoder unchanged, with or without an error.
    ///
    /// # Errors
    ///
    /// Returns `AllocError` if the vector has to grow and there is no memory. The encoder is unchanged.
    ///
    /// # Examples
    ///
    /// ```
    /// {
    ///     let mut decoder = encoder.decoder()?;
    ///     decoder.decode_symbol(&table)?; // the first symbol encoded
    /// }
    /// encoder.encode_symbol(&2, &table)?; // the next symbol of the same stream
    /// ```
    pub fn decoder(
        &mut self,
    ) -> Result<
        RangeDecoder<Word, State, Cursor<Word, EncoderGuard<'_, Word, State, A>>>,
        AllocError,
    >
        ensures same_reference { IfOk result (λ d. (lender d.bulk.buf).ghost_name ≡ self.entry.ghost_name) }
        ensures ok { IfOk result (λ d.
            StandsAtStart Word.BITS State.BITS (sealed_by Word.BITS State.BITS self.old) d) }
        ensures shows { IfOk result (λ d.
            reverse (lender d.bulk.buf).now.words ≡ sealed_by Word.BITS State.BITS self.old) }
        ensures back { IfOk result (λ d. drop (written d.bulk.buf) (lender d.bulk.buf).now.words ≡ self.old.words) }
        ensures heads { IfOk result (λ d. HasHeads self.old (lender d.bulk.buf).now) }
        ensures room { OnErr result
            (TooShortForSeal (⟦<Vec<Word, A> as WriteWords<Word>>⟧.room) Word.BITS State.BITS self.old) }
    {
        let count = self.put_seal()?;
        let mut bulk = Cursor::new_at_write_beginning(EncoderGuard { inner: self, count });
        match read_point::<Word, State, Cursor<Word, EncoderGuard<'_, Word, State, A>>>(&mut bulk) {
            Ok(point) => Ok(RangeDecoder {
                bulk,
                state: RangeCoderState::start(),
                distance: point,
            }),
            Err(never) => match never {},
        }
    }
}
