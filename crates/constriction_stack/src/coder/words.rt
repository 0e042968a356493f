//! Importing and exporting a coder's words in two forms, and counting them.
//!
//! Both forms contain the words below the head, and then the words of the head, lowest first. The compressed form
//! leaves out the head's leading zero words. The binary form leaves out the head's leading 1 bit, but no zero words
//! below this bit. Therefore every list of words is the binary form of a coder.

ghost use Rattle.constriction_base.specs.Readings.{BeginsHigh};
ghost use Rattle.constriction_base.specs.Steps.{IsSizes};
ghost use Rattle.constriction_stack.specs.Ans.{IsCoder, exported, filled};
ghost use Rattle.constriction_base.specs.Writing.{IsOneAbove};
ghost use Rattle.constriction_stack.specs.Binary.{BinaryFilledBy, BinaryRefused, binary_state, binary_words};
ghost use Rattle.constriction_stack.specs.Exports.{BinaryExportNotWritten, ExportNotWritten};
ghost use Rattle.constriction_stack.specs.Sizes.{SizesFit, valid_bit_count};
ghost use Rattle.constriction_stack.specs.Imports.{FilledBy, ImportRefused, ListRefused};
ghost use Rattle.std.specs.Int.Digits.{digits_of};
ghost use Rattle.std.specs.Prelude.{Err, IfErr, IfOk, IsTrue, None, Ok, OnOk, Some, length, map, reverse};
ghost use Rattle.std.specs.Prelude.{ℕ, ◌*◌, ◌++◌, ◌^◌, ◌↔◌, ◌≡◌};

use crate::coder::AnsCoder;
use constriction_base::backends::{BoundedReadWords, Holds, ReadWords, Stack, Words, WriteWords};
use constriction_base::head_words::{append_words, count_of_words, fill, words_below_one};
use constriction_words::{BitArray, WordOf};
use std::fmt;
use std::marker::Model;
use thiserror::Error;

/// The error for compressed words that end with a zero word.
///
/// A coder in a normalized state never exports words that end with a zero word. The last word of its export, if there
/// is one, is the highest nonzero word of the head.
#[derive(Debug, Clone, Copy, PartialEq, Eq, Error)]
#[error("Tried to decode from compressed data that ends with a zero word, which is invalid for an ANS coder.")]
pub struct CompressedDataEndsWithZeroWord;

impl<Word: WordOf<State>, State: BitArray, Backend: ReadWords<Word, Stack>> AnsCoder<
    Word,
    State,
    Backend,
> {
    /// Creates a coder from words in the form that [`AnsCoder::into_compressed`] returns.
    ///
    /// The call reads words into the head until the head is at least `2^(State::BITS - Word::BITS)` or no word is left.
    /// If `State` has twice the bits of `Word`, two words fill the head. If there are no words, the coder is empty.
    ///
    /// # Errors
    ///
    /// Returns the backend as the reads left it, in two cases:
    ///
    /// - The last word, which the call reads first, is zero.
    /// - A read returns an error.
    ///
    /// # Examples
    ///
    /// ```
    /// let words = coder.into_compressed()?;
    /// if let Ok(mut coder) = DefaultAnsCoder::from_compressed(words) {
    ///     coder.decode_symbol(&table)?; // the last symbol encoded
    /// }
    /// ```
    pub fn from_compressed(mut bulk: Backend) -> Result<Self, Backend>
    where
        Backend::ReadError: Drop,
        requires { IsSizes Word.BITS State.BITS }
        ensures ok { Backend.is_list → IfOk result (λ new.
            new.state ≡ filled Word.BITS State.BITS 0 (map Word.number (Backend.words bulk))) }
        ensures some { Backend.is_list → OnOk result (BeginsHigh (map Word.number (Backend.words bulk))) }
        ensures coder { IfOk result (λ new. IsCoder Word.number Backend.Holds Word.BITS State.BITS new) }
        ensures reads { IfOk result (λ new.
            FilledBy Word.number Backend.reads Word.BITS State.BITS bulk new.state.head new.backend) }
        ensures err { IfErr result (λ rest.
            ImportRefused Word.number Backend.reads Word.BITS State.BITS bulk rest) }
        ensures taken { Backend.is_list → IfErr result (λ rest.
            ListRefused Backend.ReadError Word.number (Backend.words bulk) (Backend.words rest)) }
    {
        let top = match bulk.read() {
            Err(_) => return Err(bulk),
            Ok(None) => {
                return Ok(AnsCoder {
                    bulk,
                    state: State::nothing(),
                    low: Word::nothing(),
                });
            }
            Ok(Some(word)) => word,
        };
        if top.is_nothing() {
            return Err(bulk);
        }
        let head = match fill(&mut bulk, top.widen(), State::BITS - Word::BITS) {
            Err(_) => return Err(bulk),
            Ok((head, _)) => head,
        };
        Ok(AnsCoder {
            bulk,
            state: head,
            low: Word::narrow(head),
        })
    }
}

impl<Word: WordOf<State>, State: BitArray, Backend: WriteWords<Word>> AnsCoder<
    Word,
    State,
    Backend,
> {
    /// Writes the head's words onto the backend, and returns the backend, which then holds all words of the coder.
    ///
    /// The call writes the words of the head above the words below the head, lowest first, without leading zero words.
    /// It first asks the backend for room for the head's words. If the head is 0, the backend is unchanged.
    ///
    /// # Errors
    ///
    /// Returns the backend's error if the backend refuses room for the head's words, or refuses to write a word. Every
    /// error consumes the coder.
    pub fn into_compressed(self) -> Result<Backend, Backend::WriteError>
    where
        Backend: Drop,
        ensures ok { IfOk result (λ all.
            map Word.number (Backend.words all) ≡ exported Word.BITS self.state) }
        ensures untouched { self.state.head ≡ 0 → result ≡ Ok self.backend }
        ensures err { IfErr result (ExportNotWritten Word.number Backend.Holds Backend.WriteWords.own Word.BITS self) }
        ensures coder { IsCoder Word.number Backend.Holds Word.BITS State.BITS self }
    {
        let AnsCoder {
            mut bulk,
            state: head,
            low: _,
        } = self;
        let count = count_of_words::<Word, State>(head);
        match append_words(&mut bulk, head, count) {
            Ok(()) => Ok(bulk),
            Err((_, error)) => Err(error),
        }
    }
}

impl<Word: WordOf<State>, State: BitArray, Backend: ReadWords<Word, Stack>> AnsCoder<
    Word,
    State,
    Backend,
> {
    /// Creates a coder from arbitrary words.
    ///
    /// [`AnsCoder::into_binary`] turns the coder back into these words, including zero words at the top.
    ///
    /// The head begins as 1. The call reads words into the head until the head is at least
    /// `2^(State::BITS - Word::BITS)` or no word is left. If `State` has twice the bits of `Word`, one word fills the
    /// head. If there are no words, the head is 1.
    ///
    /// # Errors
    ///
    /// Returns the error that the backend returned for a read. The call consumes the backend.
    ///
    /// # Examples
    ///
    /// ```
    /// let mut coder = DefaultAnsCoder::from_binary([5u32, 0].to_vec(alloc)?)?; // head 2^32, word 5 below
    /// let symbol = coder.decode_symbol(&table)?;
    /// coder.encode_symbol(&symbol, &table)?; // restores the state before the decode
    /// coder.into_binary(); // Ok([5, 0])
    /// ```
    pub fn from_binary(mut bulk: Backend) -> Result<Self, Backend::ReadError>
    where
        Backend: Drop,
        requires { IsSizes Word.BITS State.BITS }
        ensures ok { Backend.is_list → IfOk result (λ new.
            new.state ≡ binary_state Word.BITS State.BITS (map Word.number (Backend.words bulk))) }
        ensures coder { IfOk result (λ new. IsCoder Word.number Backend.Holds Word.BITS State.BITS new) }
        ensures reads { IfOk result (λ new.
            BinaryFilledBy Word.number Backend.reads Word.BITS State.BITS bulk new.state.head new.backend) }
        ensures err { IfErr result (λ e.
            BinaryRefused Word.number Backend.reads Word.BITS State.BITS bulk e) }
    {
        let head = match fill(&mut bulk, State::unit(), State::BITS - Word::BITS) {
            Err(error) => return Err(error),
            Ok((head, _)) => head,
        };
        Ok(AnsCoder {
            bulk,
            state: head,
            low: Word::narrow(head),
        })
    }
}

impl<Word: WordOf<State>, State: BitArray, Backend: WriteWords<Word>> AnsCoder<
    Word,
    State,
    Backend,
> {
    /// Writes the head's words below its leading 1 bit onto the backend, and returns the backend.
    ///
    /// The backend then holds the binary form of the coder: the words below the head, and then the words that the call
    /// writes, lowest first. The call leaves out no zero words, not even directly below the leading 1. The call first
    /// asks the backend for room for all words to write. If the head is 1, the backend is unchanged.
    ///
    /// # Errors
    ///
    /// Every error consumes the coder.
    ///
    /// - `None`: returned if and only if the head is 0 or its bit length minus 1 isn't a multiple of `Word::BITS`.
    /// - `Some(error)`: returned only if the backend refuses room for the head's words, or refuses to write a word.
    pub fn into_binary(self) -> Result<Backend, Option<Backend::WriteError>>
    where
        Backend: Drop,
        ensures ok { IfOk result (λ all. (m : ℕ) × IsOneAbove Word.BITS m self.state.head
            × (map Word.number (Backend.words all) ≡ binary_words Word.BITS m self.state)) }
        ensures untouched { self.state.head ≡ 1 → result ≡ Ok self.backend }
        ensures variant { (result ≡ Err None) ↔ ((m : ℕ) → IsOneAbove Word.BITS m self.state.head → ⊥) }
        ensures err { (e : Backend.WriteError) → result ≡ Err (Some e) →
            BinaryExportNotWritten Word.number Backend.Holds Backend.WriteWords.own Word.BITS self e }
        ensures coder { IsCoder Word.number Backend.Holds Word.BITS State.BITS self }
    {
        let AnsCoder {
            mut bulk,
            state: head,
            low: _,
        } = self;
        let Some(below) = words_below_one::<Word, State>(head) else {
            return Err(None);
        };
        match append_words(&mut bulk, head, below) {
            Ok(()) => Ok(bulk),
            Err((_, error)) => Err(Some(error)),
        }
    }
}

impl<Word: WordOf<State>, State: BitArray, Backend: BoundedReadWords<Word, Stack>> AnsCoder<
    Word,
    State,
    Backend,
> {
    /// Returns whether the total number of bits in all words of the coder fits a `usize`.
    ///
    /// [`AnsCoder::num_words`], [`AnsCoder::num_bits`] and [`AnsCoder::num_valid_bits`] require that it fits.
    pub fn sizes_fit(&self) -> bool
        ensures { IsTrue result ↔ SizesFit Word.BITS self.now.state }
    {
        let head = count_of_words::<Word, State>(self.state);
        let Some(words) = self.bulk.remaining().checked_add(head) else {
            return false;
        };
        words <= usize::MAX / Word::BITS as usize
    }

    /// Returns the number of words that [`AnsCoder::into_compressed`] returns.
    ///
    /// These are the words below the head, and the words of the head without leading zero words. The caller proves that
    /// their total number of bits fits a `usize`, as [`AnsCoder::sizes_fit`] tests.
    pub fn num_words(&self) -> usize
        requires { SizesFit Word.BITS self.now.state }
        ensures { result ≡ length (exported Word.BITS self.now.state) }
    {
        self.bulk.remaining() + count_of_words::<Word, State>(self.state)
    }

    /// Returns the number of bits of the words that [`AnsCoder::into_compressed`] returns.
    ///
    /// The caller proves that this number fits a `usize`, as [`AnsCoder::sizes_fit`] tests.
    pub fn num_bits(&self) -> usize
        requires { SizesFit Word.BITS self.now.state }
        ensures { result ≡ Word.BITS * length (exported Word.BITS self.now.state) }
    {
        Word::BITS as usize * self.num_words()
    }

    /// Returns the number of bits that carry information.
    ///
    /// These are the bits of the words below the head, and the bits of the head below its leading 1. For a new coder,
    /// the number is 0. The caller proves that the result of [`AnsCoder::num_bits`] fits a `usize`, as
    /// [`AnsCoder::sizes_fit`] tests.
    pub fn num_valid_bits(&self) -> usize
        requires { SizesFit Word.BITS self.now.state }
        ensures { result ≡ valid_bit_count Word.BITS self.now.state }
    {
        let head = self.state.bit_length().saturating_sub(1);
        Word::BITS as usize * self.bulk.remaining() + head as usize
    }
}

/// An iterator over a coder's words in the order of [`AnsCoder::into_compressed`], with the top word last.
///
/// [`AnsCoder::iter_compressed`] returns this iterator. Contracts describe the iterator by the list of the remaining
/// words.
///
/// # Examples
///
/// ```
/// for word in coder.iter_compressed() {
///     send(word);
/// }
/// ```
#[derive(Debug, Drop)]
pub struct AnsCompressedIter<'a, Word: WordOf<State>, State: BitArray> {
    below: &'a [Word],
    head: State,
}

impl<'a, Word: WordOf<State>, State: BitArray> Model for AnsCompressedIter<'a, Word, State> {
    ghost use Rattle.std.specs.Prelude.{◌^◌, ◌++◌, ℕ, List, map, reverse};
    ghost use Rattle.std.specs.Int.Digits.{digits_of};
    ghost use Rattle.constriction_base.specs.Steps.{IsSizes};

    ghost Value = { List ℕ };

    ghost view = { λ i. map Word.number i.below.now ++ reverse (digits_of (2 ^ Word.BITS) (State.number i.head)) };

    ghost invariant = { λ _. IsSizes Word.BITS State.BITS };
}

impl<'a, Word: WordOf<State>, State: BitArray> Iterator for AnsCompressedIter<'a, Word, State> {
    type Item = Word;

    ghost use Rattle.std.specs.Iterator.{YieldsFirstBy, at_most};
    ghost use Rattle.std.specs.Prelude.{length};

    ghost next_gives = { YieldsFirstBy Word.number (λ left. left) };

    ghost remaining = { λ left. at_most (length left) };

    fn next(&mut self) -> Option<Word> {
        if let Some((first, rest)) = self.below.split_first() {
            self.below = rest;
            return Some(*first);
        }
        if self.head.is_nothing() {
            return None;
        }
        let word = Word::narrow(self.head);
        self.head = self.head.shift_right(Word::BITS);
        Some(word)
    }
}

impl<Word: WordOf<State>, State: BitArray, Backend: Holds<Word, Stack> + Words<Word>> AnsCoder<
    Word,
    State,
    Backend,
> {
    /// Returns an iterator over the backend's words, followed by the words of the head.
    ///
    /// The coder is unchanged. The words of the head come lowest first, without leading zero words. If the backend
    /// lends its words in the order in which they were written, the iterator returns the words of
    /// [`AnsCoder::into_compressed`]. Vectors and slices lend their words in this order.
    pub fn iter_compressed(&self) -> AnsCompressedIter<'_, Word, State>
        ensures words { result ≡ map Word.number (Backend.lent self.now.backend)
            ++ reverse (digits_of (2 ^ Word.BITS) self.now.state.head) }
        // If the backend lends its words in the order in which they were written, these are the exported words.
        ensures exported { Backend.words self.now.backend ≡ reverse (Backend.lent self.now.backend) →
            result ≡ reverse (exported Word.BITS self.now.state) }
    {
        AnsCompressedIter {
            below: self.bulk.words(),
            head: self.state,
        }
    }
}

impl<
    Word: WordOf<State> + fmt::Debug,
    State: BitArray,
    Backend: Holds<Word, Stack> + Words<Word>,
> fmt::Debug for AnsCoder<Word, State, Backend> {
    /// Formats the coder as the list of the words of [`AnsCoder::iter_compressed`].
    fn fmt<W: fmt::Write>(&self, f: &mut fmt::Formatter<W>) -> fmt::Result {
        f.debug_list().entries(self.iter_compressed()).finish()
    }
}
