//! Guards that lend a coder's compressed words.
//!
//! A guard appends to the coder's vector the words that an export would add. Dropping the guard removes these words.

ghost use Rattle.constriction_symbol.specs.Bits.{IsQueueWords, IsStackWords};
ghost use Rattle.constriction_symbol.specs.Guards.{LacksEnd, LacksRest, SameBits, bits_without};
ghost use Rattle.std.specs.Borrow.{RestsIfErr, sem};
ghost use Rattle.std.specs.Prelude.{IfOk, OnErr, OnOk, map, ◌≡◌};
ghost use Rattle.std.specs.contracts.vec.Vec.{the_row as vec_row};

use crate::coder::{QueueEncoder, StackCoder, SymbolCoder};
use crate::top_bits::TopBits;
use constriction_base::backends::{Holds, Queue, Semantics, Stack, WriteWords, take_back};
use constriction_words::BitArray;
use std::alloc::{AllocError, Allocator, Global};
use std::fmt;

/// A guard that lends all compressed words of a coder until the guard is dropped.
///
/// The guard appends to the coder's vector the words that an export would add. Dropping the guard removes these words,
/// and allocates nothing. A guard that is never dropped leaves these words in the vector.
pub struct CoderGuard<'a, Word: BitArray, S: Semantics, A: Allocator = Global> {
    inner: &'a mut SymbolCoder<Word, S, Vec<Word, A>>,
    count: usize,
}

/// A guard that lends the words of a stack of bits. See [`StackCoder::get_compressed`] for an example.
pub type StackCoderGuard<'a, Word, A = Global> = CoderGuard<'a, Word, Stack, A>;

/// A guard that lends the words of a queue of bits. [`QueueEncoder::get_compressed`] returns this guard.
pub type QueueEncoderGuard<'a, Word, A = Global> = CoderGuard<'a, Word, Queue, A>;

impl<'a, Word: BitArray, S: Semantics, A: Allocator> CoderGuard<'a, Word, S, A> {
    ghost use Rattle.constriction_symbol.specs.Guarded.{lender};

    /// Returns all words of the vector, from first to last, including the words that the guard appended.
    pub fn words(&self) -> &[Word]
        ensures words { result.now ≡ (lender self.now).now.backend.items }
    {
        let inner: &SymbolCoder<Word, S, Vec<Word, A>> = &*self.inner;
        inner.backend.as_slice()
    }
}

impl<Word: BitArray, S: Semantics, A: Allocator> Drop for CoderGuard<'_, Word, S, A> {
    ghost use Rattle.constriction_symbol.specs.Guarded.{lender, lent_back, written};

    /// Removes the words that the guard appended.
    fn drop(self)
        ensures last { (lent_back self.exit).now.last ≡ (lender self.entry).now.last }
        ensures back { (lent_back self.exit).now.bits
            ≡ bits_without Word.BITS Word.number (written self.entry) (lender self.entry).now }
    {
        let CoderGuard { inner, count } = self;
        take_back::<Word, Vec<Word, A>>(&mut inner.backend, count);
    }
}

impl<Word: BitArray + fmt::Debug, S: Semantics, A: Allocator> fmt::Debug
    for CoderGuard<'_, Word, S, A> {
    /// Formats all words of the vector as a list.
    fn fmt<W: fmt::Write>(&self, f: &mut fmt::Formatter<W>) -> fmt::Result {
        f.debug_list().entries(self.words().iter()).finish()
    }
}

impl<Word: BitArray, A: Allocator> StackCoder<Word, Vec<Word, A>> {
    /// Appends the words that complete an export to the vector, and returns the number of words appended.
    ///
    /// The words have the bits outside the vector, a 1 that ends the bits, and zeros. The call appends two words if
    /// the word outside the vector is full, else one. The call leaves the bits outside the vector as they are. If
    /// there is no memory, the call returns `AllocError`, and the coder's bits are unchanged.
    fn put_end(&mut self) -> Result<usize, AllocError>
        ensures shows { OnOk result (IsStackWords Word.BITS self.old.bits (map Word.number self.new.backend.items)) }
        ensures back { IfOk result (λ count. bits_without Word.BITS Word.number count self.new ≡ self.old.bits) }
        ensures last { self.new.last ≡ self.old.last }
        ensures kept { OnErr result (SameBits self.old self.new) }
        ensures err { OnErr result (LacksEnd Word.BITS self.old) }
    {
        let mut last = self.last.copied();
        if last.is_full() {
            WriteWords::<Word>::prepare(&mut self.backend, 2)?;
            WriteWords::<Word>::write(&mut self.backend, last.word())?;
            let mut end = TopBits::<Word>::none();
            end.push(true);
            WriteWords::<Word>::write(&mut self.backend, end.word())?;
            return Ok(2);
        }
        last.push(true);
        WriteWords::<Word>::write(&mut self.backend, last.word())?;
        Ok(1)
    }
}

impl<Word: BitArray, A: Allocator> QueueEncoder<Word, Vec<Word, A>> {
    /// Appends the bits outside the vector as one word, and returns the number of words appended (0 or 1).
    ///
    /// Zeros complete the word. If there are no bits outside the vector, the call appends nothing. The call leaves the
    /// bits outside the vector as they are. If there is no memory, the call returns `AllocError`, and the coder's bits
    /// are unchanged.
    fn put_rest(&mut self) -> Result<usize, AllocError>
        ensures shows { OnOk result (IsQueueWords Word.BITS self.old.bits (map Word.number self.new.backend.items)) }
        ensures back { IfOk result (λ count. bits_without Word.BITS Word.number count self.new ≡ self.old.bits) }
        ensures last { self.new.last ≡ self.old.last }
        ensures kept { OnErr result (SameBits self.old self.new) }
        ensures err { OnErr result (LacksRest self.old) }
    {
        if self.last.is_empty() {
            return Ok(0);
        }
        WriteWords::<Word>::write(&mut self.backend, self.last.word())?;
        Ok(1)
    }
}

impl<Word: BitArray, A: Allocator> StackCoder<Word, Vec<Word, A>> {
    ghost use Rattle.constriction_base.specs.contracts.backends.semantics.Stack as order;
    ghost use Rattle.constriction_symbol.specs.contracts.coder.SymbolCoder.{the_row};
    ghost use Rattle.constriction_symbol.specs.Guarded.{lender, written};

    /// Returns a guard that lends the words that [`StackCoder::into_compressed`] would return.
    ///
    /// Dropping the guard restores the coder's bits.
    ///
    /// # Errors
    ///
    /// Returns `AllocError` if there is no memory for the words that the guard appends. The guard appends two words if
    /// the word outside the vector is full, else one. After an error, the coder's bits are unchanged.
    ///
    /// # Examples
    ///
    /// ```
    /// {
    ///     let guard = coder.get_compressed()?;
    ///     send(guard.words());
    /// }
    /// coder.write_bit(true)?; // appends to the bits that the coder had before the guard
    /// ```
    pub fn get_compressed(&mut self) -> Result<StackCoderGuard<'_, Word, A>, AllocError>
        ensures same_reference { IfOk result (λ g. (lender g).ghost_name ≡ self.entry.ghost_name) }
        ensures shows { IfOk result (λ g.
            IsStackWords Word.BITS self.old.bits (map Word.number (lender g).now.backend.items)) }
        ensures back { IfOk result (λ g.
            bits_without Word.BITS Word.number (written g) (lender g).now ≡ self.old.bits) }
        ensures last { IfOk result (λ g. (lender g).now.last ≡ self.old.last) }
        ensures err { OnErr result (LacksEnd Word.BITS self.old) }
        ensures* kept { sem 𝓛 (RestsIfErr
            (the_row Word.row order.the_row (vec_row Word.row A.row A.Allocator) Word.NonZero.row
            Word.BitArray.own Word.Natural ⟦<Vec<Word, A> as Holds<Word, Stack>>⟧)
            self.entry (λ g. (lender g).ghost_name) result (λ after. OnErr result (SameBits self.old after))) }
    {
        let count = self.put_end()?;
        Ok(CoderGuard { inner: self, count })
    }
}

impl<Word: BitArray, A: Allocator> QueueEncoder<Word, Vec<Word, A>> {
    ghost use Rattle.constriction_base.specs.contracts.backends.semantics.Queue as order;
    ghost use Rattle.constriction_symbol.specs.contracts.coder.SymbolCoder.{the_row};
    ghost use Rattle.constriction_symbol.specs.Guarded.{lender, written};

    /// Returns a guard that lends the words that [`QueueEncoder::into_compressed`] would return.
    ///
    /// Dropping the guard restores the coder's bits.
    ///
    /// # Errors
    ///
    /// Returns `AllocError` if there are bits outside the vector, and no memory for the word of these bits. After an
    /// error, the coder's bits are unchanged.
    pub fn get_compressed(&mut self) -> Result<QueueEncoderGuard<'_, Word, A>, AllocError>
        ensures same_reference { IfOk result (λ g. (lender g).ghost_name ≡ self.entry.ghost_name) }
        ensures shows { IfOk result (λ g.
            IsQueueWords Word.BITS self.old.bits (map Word.number (lender g).now.backend.items)) }
        ensures back { IfOk result (λ g.
            bits_without Word.BITS Word.number (written g) (lender g).now ≡ self.old.bits) }
        ensures last { IfOk result (λ g. (lender g).now.last ≡ self.old.last) }
        ensures err { OnErr result (LacksRest self.old) }
        ensures* kept { sem 𝓛 (RestsIfErr
            (the_row Word.row order.the_row (vec_row Word.row A.row A.Allocator) Word.NonZero.row
            Word.BitArray.own Word.Natural ⟦<Vec<Word, A> as Holds<Word, Stack>>⟧)
            self.entry (λ g. (lender g).ghost_name) result (λ after. OnErr result (SameBits self.old after))) }
    {
        let count = self.put_rest()?;
        Ok(CoderGuard { inner: self, count })
    }
}
