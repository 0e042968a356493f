//! Guards that lend an encoder's compressed words until the guards are dropped.
//!
//! The call that creates a guard writes the pending words and the seal onto the encoder's vector. Dropping the guard
//! removes these words.

ghost use Rattle.std.specs.Prelude.{◌≡◌, ◌+◌, ◌<◌, drop, length, map, reverse, IfOk, OnOk, OnErr};
ghost use Rattle.std.specs.Borrow.{sem, RestsIfErr};
ghost use Rattle.std.specs.contracts.vec.Vec.{the_row as vec_row};
ghost use Rattle.constriction_queue.specs.Encoder.{HasHeads, IsEncoder, sealed_by};
ghost use Rattle.constriction_queue.specs.Guarded.{TooShortForSeal};

use crate::encoder::RangeEncoder;
use crate::seal::make_seal;
use crate::writing::{flush_words, flushed_count};
use constriction_base::backends::{Holds, Stack, WriteWords, take_back};
use constriction_words::{BitArray, WordOf};
use std::alloc::{AllocError, Allocator, Global};
use std::fmt;

/// A guard that keeps an encoder's pending words and seal in the encoder's vector until the guard is dropped.
///
/// [`RangeEncoder::get_compressed`] returns a guard. See there for an example. Dropping a guard removes these words and
/// allocates no memory. If the caller forgets a guard instead of dropping it, these words stay in the vector.
pub struct EncoderGuard<'a, Word: WordOf<State>, State: BitArray, A: Allocator = Global> {
    pub(crate) inner: &'a mut RangeEncoder<Word, State, Vec<Word, A>>,
    pub(crate) count: usize,
}

impl<'a, Word: WordOf<State>, State: BitArray, A: Allocator> EncoderGuard<'a, Word, State, A> {
    ghost use Rattle.constriction_queue.specs.Guarded.{lender, lent_by};

    /// Returns the words that [`RangeEncoder::into_compressed`] would return.
    pub fn words(&self) -> &[Word]
        ensures words { result.now ≡ lent_by self.now }
        ensures shows { map Word.number result.now ≡ reverse (lender self.now).now.words }
        ensures coder { IsEncoder Word.number ⟦<Vec<Word, A> as Holds<Word, Stack>>⟧
            Word.BITS State.BITS (lender self.now).now }
    {
        let inner: &RangeEncoder<Word, State, Vec<Word, A>> = &*self.inner;
        inner.bulk.as_slice()
    }
}

impl<Word: WordOf<State>, State: BitArray, A: Allocator> Drop for EncoderGuard<'_, Word, State, A> {
    ghost use Rattle.constriction_queue.specs.Guarded.{lender, lent_back, written};

    /// Removes the pending words and the seal from the encoder's vector.
    fn drop(self)
        ensures heads { HasHeads (lender self.entry).now (lent_back self.exit).now }
        ensures back { (lent_back self.exit).now.words ≡ drop (written self.entry) (lender self.entry).now.words }
    {
        let EncoderGuard { inner, count } = self;
        take_back::<Word, Vec<Word, A>>(&mut inner.bulk, count);
    }
}

impl<Word: WordOf<State> + fmt::Debug, State: BitArray, A: Allocator> fmt::Debug
    for EncoderGuard<'_, Word, State, A> {
    /// Formats the words that the guard lends, as a list.
    fn fmt<W: fmt::Write>(&self, f: &mut fmt::Formatter<W>) -> fmt::Result {
        f.debug_list().entries(self.words().iter()).finish()
    }
}

impl<Word: WordOf<State>, State: BitArray, A: Allocator> RangeEncoder<Word, State, Vec<Word, A>> {
    /// Writes the pending words and the seal onto the vector, and returns how many words it wrote.
    ///
    /// The interval and the pending words are unchanged. If there is no memory, the call returns `AllocError`, and the
    /// vector's words are unchanged too.
    pub(crate) fn put_seal(&mut self) -> Result<usize, AllocError>
        ensures shows { OnOk result (reverse self.new.words ≡ sealed_by Word.BITS State.BITS self.old) }
        ensures back { IfOk result (λ count. drop count self.new.words ≡ self.old.words) }
        ensures heads { HasHeads self.old self.new }
        ensures kept { OnErr result (self.new.words ≡ self.old.words) }
        ensures coder { IsEncoder Word.number ⟦<Vec<Word, A> as Holds<Word, Stack>>⟧ Word.BITS State.BITS self.new }
        ensures room { OnErr result
            (TooShortForSeal (⟦<Vec<Word, A> as WriteWords<Word>>⟧.room) Word.BITS State.BITS self.old) }
    {
        let seal = make_seal(self.state, self.situation);
        let count = flushed_count(&seal.held, &seal.point, &seal.zero);
        flush_words(&mut self.bulk, seal.held, seal.point, seal.zero, None)?;
        Ok(count)
    }
}

impl<Word: WordOf<State>, State: BitArray, A: Allocator> RangeEncoder<Word, State, Vec<Word, A>> {
    ghost use Rattle.constriction_queue.specs.contracts.encoder.RangeEncoder.{the_row};
    ghost use Rattle.constriction_queue.specs.Guarded.{lender, written};

    /// Returns a guard that lends the words that [`RangeEncoder::into_compressed`] would return.
    ///
    /// While the guard lives, the encoder's vector holds these words. Dropping the guard restores the encoder.
    ///
    /// # Errors
    ///
    /// Returns `AllocError` if the vector has to grow and there is no memory. The encoder is unchanged.
    ///
    /// # Examples
    ///
    /// ```
    /// {
    ///     let guard = encoder.get_compressed()?;
    ///     send(guard.words());
    /// }
    /// encoder.encode_symbol(&2, &table)?; // continues from the state before the guard
    /// ```
    pub fn get_compressed(&mut self) -> Result<EncoderGuard<'_, Word, State, A>, AllocError>
        ensures same_reference { IfOk result (λ g. (lender g).ghost_name ≡ self.entry.ghost_name) }
        ensures shows { IfOk result (λ g. reverse (lender g).now.words ≡ sealed_by Word.BITS State.BITS self.old) }
        ensures back { IfOk result (λ g. drop (written g) (lender g).now.words ≡ self.old.words) }
        ensures heads { IfOk result (λ g. HasHeads self.old (lender g).now) }
        ensures room { OnErr result
            (TooShortForSeal (⟦<Vec<Word, A> as WriteWords<Word>>⟧.room) Word.BITS State.BITS self.old) }
        ensures* kept { sem 𝓛 (RestsIfErr (the_row Word.row State.row (vec_row Word.row A.row A.Allocator)
            Word.NonZero.row State.NonZero.row Word.BitArray.own Word.Natural State.BitArray.own State.Natural
            ⟦<Vec<Word, A> as Holds<Word, Stack>>⟧)
            self.entry (λ g. (lender g).ghost_name) result
            (λ after. HasHeads self.old after × (after.words ≡ self.old.words))) }
    {
        let count = self.put_seal()?;
        Ok(EncoderGuard { inner: self, count })
    }
}
