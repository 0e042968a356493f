//! Exporting an encoder's words, and counting them.

ghost use Rattle.std.specs.Prelude.{◌≡◌, ◌↔◌, ◌+◌, ◌*◌, ◌^◌, ◌++◌, [], drop, length, map, reverse, IsTrue, IfOk, IfErr};
ghost use Rattle.constriction_queue.specs.Encoder.{IsEncoder, SizesFit, run_by, sealed_by};
ghost use Rattle.constriction_queue.specs.SelfDelimiting.{SelfDelimits};
ghost use Rattle.constriction_queue.specs.Calls.{SealRefused, SelfDelimitingRefused};

use crate::encoder::RangeEncoder;
use crate::seal::{Seal, make_seal, without_first};
use crate::writing::{flush_words, flushed_count};
use constriction_base::backends::{BoundedReadWords, Holds, Stack, Words, WriteWords};
use constriction_words::{BitArray, WordOf};
use std::marker::Model;

impl<Word: WordOf<State>, State: BitArray, Backend: WriteWords<Word>> RangeEncoder<
    Word,
    State,
    Backend,
> {
    /// Writes the pending words and a seal, and returns the backend, which then holds all words of the encoder.
    ///
    /// The seal is the one or two words that end the data. If no symbol was encoded, there is no seal. The encoder
    /// first asks the backend for room for all words that it still has to write.
    ///
    /// # Errors
    ///
    /// Returns the backend's error if the backend refuses room for these words, or refuses to write a word. The call
    /// consumes the encoder.
    pub fn into_compressed(self) -> Result<Backend, Backend::WriteError>
    where
        Backend: Drop,
        ensures ok { IfOk result (λ all.
            reverse (map Word.number (Backend.words all)) ≡ sealed_by Word.BITS State.BITS self) }
        ensures err { IfErr result (λ e.
            SealRefused Word.number Backend.Holds Backend.WriteWords.own Word.BITS State.BITS self e) }
        ensures coder { IsEncoder Word.number Backend.Holds Word.BITS State.BITS self }
    {
        let RangeEncoder {
            mut bulk,
            state,
            situation,
        } = self;
        let seal = make_seal(state, situation);
        flush_words(&mut bulk, seal.held, seal.point, seal.zero, None)?;
        Ok(bulk)
    }

    /// Returns whether the backend may be full.
    ///
    /// If the call returns `false` and no words are pending, the next encode doesn't fail for lack of room. At every
    /// precision, `maybe_full` of the trait `Encode` returns the same value.
    #[inline]
    pub fn maybe_full(&self) -> bool
        ensures { result ≡ Backend.seems_full self.now.bulk }
    {
        self.bulk.maybe_full()
    }

    /// Writes the pending words and a seal that any words may follow, and returns the backend.
    ///
    /// The seal is self-delimiting: every list that begins with the returned words decodes to the encoded symbols. The
    /// seal is one word, followed by the least number of zero words for which this holds. There are at most
    /// `State::BITS / Word::BITS - 1` zero words. If no symbol was encoded, there is no seal.
    ///
    /// If `State` is two words wide, [`RangeEncoder::into_compressed`] returns the same words. For a wider `State`,
    /// words that follow the words of `into_compressed` may change the decoded symbols.
    ///
    /// Before it writes any word, the encoder asks the backend for room for all words that it still has to write.
    ///
    /// # Errors
    ///
    /// Returns the backend's error if the backend refuses room for these words, or refuses to write a word. The call
    /// consumes the encoder.
    ///
    /// # Examples
    ///
    /// ```
    /// let mut words = encoder.into_self_delimited()?; // of a `RangeEncoder<u8, u32>`: [2, 0, 0]
    /// words.extend_from_slice(&[255, 7])?; // what a container appends
    /// let mut decoder = RangeDecoder::<u8, u32, _>::from_compressed(words)?;
    /// decoder.decode_symbol(&table)?; // the first symbol encoded
    /// ```
    pub fn into_self_delimited(self) -> Result<Backend, Backend::WriteError>
    where
        Backend: Drop,
        ensures ok { IfOk result (λ all. SelfDelimits Word.BITS State.BITS (run_by Word.BITS State.BITS self)
            (reverse (map Word.number (Backend.words all)))) }
        ensures err { IfErr result (λ e. SelfDelimitingRefused Word.number Backend.Holds Backend.WriteWords.own
            Word.BITS State.BITS self e) }
        ensures coder { IsEncoder Word.number Backend.Holds Word.BITS State.BITS self }
    {
        let RangeEncoder {
            mut bulk,
            state,
            situation,
        } = self;
        let seal = make_seal(state, situation);
        flush_words(&mut bulk, seal.held, seal.point, seal.zero, seal.behind)?;
        Ok(bulk)
    }
}

impl<Word: WordOf<State>, State: BitArray, Backend: BoundedReadWords<Word, Stack>> RangeEncoder<
    Word,
    State,
    Backend,
> {
    /// Returns whether the total number of bits in all words of the encoder's export fits a `usize`.
    ///
    /// The export consists of the words that [`RangeEncoder::into_compressed`] would return.
    /// [`RangeEncoder::num_words`] and [`RangeEncoder::num_bits`] require that this number fits.
    pub fn sizes_fit(&self) -> bool
        ensures { IsTrue result ↔ SizesFit Word.BITS State.BITS self.now }
    {
        let seal = make_seal(self.state, self.situation);
        let owed = flushed_count(&seal.held, &seal.point, &seal.zero);
        let Some(words) = self.bulk.remaining().checked_add(owed) else {
            return false;
        };
        words <= usize::MAX / Word::BITS as usize
    }

    /// Returns the number of words that [`RangeEncoder::into_compressed`] returns.
    ///
    /// The caller proves that the number of bits of these words fits a `usize`, as [`RangeEncoder::sizes_fit`] tests.
    pub fn num_words(&self) -> usize
        requires { SizesFit Word.BITS State.BITS self.now }
        ensures { result ≡ length (sealed_by Word.BITS State.BITS self.now) }
    {
        let seal = make_seal(self.state, self.situation);
        self.bulk.remaining() + flushed_count(&seal.held, &seal.point, &seal.zero)
    }

    /// Returns the number of bits of the words that [`RangeEncoder::into_compressed`] returns.
    ///
    /// The caller proves that this number fits a `usize`, as [`RangeEncoder::sizes_fit`] tests.
    pub fn num_bits(&self) -> usize
        requires { SizesFit Word.BITS State.BITS self.now }
        ensures { result ≡ Word.BITS * length (sealed_by Word.BITS State.BITS self.now) }
    {
        Word::BITS as usize * self.num_words()
    }

    /// Returns whether no symbol was encoded and the backend holds no words.
    pub fn is_empty(&self) -> bool
        ensures { IsTrue result ↔ ((self.now.range + 1 ≡ 2 ^ State.BITS) × (self.now.words ≡ [])) }
    {
        !self.state.length().is_below(State::greatest()) && self.bulk.remaining() == 0
    }
}

/// An iterator over an encoder's words in the order of [`RangeEncoder::into_compressed`].
///
/// [`RangeEncoder::iter_compressed`] returns this iterator. Contracts describe the iterator by the list of the
/// remaining words.
///
/// # Examples
///
/// ```
/// for word in encoder.iter_compressed() {
///     send(word);
/// }
/// ```
#[derive(Debug, Drop)]
pub struct RangeCompressedIter<'a, Word: BitArray> {
    below: &'a [Word],
    seal: Seal<Word>,
}

impl<'a, Word: BitArray> Model for RangeCompressedIter<'a, Word> {
    ghost use Rattle.std.specs.Prelude.{◌++◌, ◌+◌, ◌<◌, ◌^◌, ℕ, List, map, length};
    ghost use Rattle.constriction_queue.specs.Encoder.{flushed_in_order, released_of};

    ghost Value = { List ℕ };

    ghost view = { λ i. map Word.number i.below.now
        ++ flushed_in_order Word.number i.seal.held i.seal.point i.seal.zero };

    ghost invariant = { λ _. Unit {0} };
}

impl<'a, Word: BitArray> Iterator for RangeCompressedIter<'a, Word> {
    type Item = Word;

    ghost use Rattle.std.specs.Iterator.{YieldsFirstBy, at_most};
    ghost use Rattle.std.specs.Prelude.{length};

    ghost next_gives = { YieldsFirstBy Word.number (λ left. left) };

    ghost remaining = { λ left. at_most (length left) };

    fn next(&mut self) -> Option<Word> {
        if let Some((first, rest)) = self.below.split_first() {
            self.below = rest;
            return Some(*first);
        }
        let (word, seal) = without_first(self.seal);
        self.seal = seal;
        word
    }
}

impl<Word: WordOf<State>, State: BitArray, Backend: Holds<Word, Stack> + Words<Word>> RangeEncoder<
    Word,
    State,
    Backend,
> {
    /// Returns an iterator over the words that [`RangeEncoder::into_compressed`] would return.
    ///
    /// The encoder is unchanged. The iterator returns the words that the backend lends, then the pending words and the
    /// seal. These are the words of `into_compressed` if the backend lends its words in the order in which they were
    /// written, as vectors and slices do. The trait [`crate::as_written::LendsAsWritten`] guarantees this order.
    pub fn iter_compressed(&self) -> RangeCompressedIter<'_, Word>
        // The words that the backend lends, and then the words that `into_compressed` would still write.
        ensures lent { result ≡ map Word.number (Backend.lent self.now.bulk)
            ++ drop (length self.now.words) (sealed_by Word.BITS State.BITS self.now) }
        // If the backend lends its words in writing order (see `LendsAsWritten`), these are the exported words.
        ensures words { Backend.words self.now.bulk ≡ reverse (Backend.lent self.now.bulk) →
            result ≡ sealed_by Word.BITS State.BITS self.now }
    {
        RangeCompressedIter {
            below: self.bulk.words(),
            seal: make_seal(self.state, self.situation),
        }
    }
}
