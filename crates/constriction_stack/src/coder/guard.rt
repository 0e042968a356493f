//! Guards that lend a coder's exported words until the guards are dropped.
//!
//! The call that creates a guard writes the words of the coder's head onto the backend. Dropping the guard removes
//! these words.
//!
//! In contracts, `lender` is the coder that a guard borrows, and `written` is how many words the call wrote (see
//! `specs/Guarded.antt`). A guard doesn't implement Rattle's trait `Model`, because the value that `Model` gives a type
//! in contracts couldn't identify the coder that the guard borrows. The contract of `backend` states that the backend
//! holds the coder's words, so a caller who decodes lent words needs no other contract.

ghost use Rattle.constriction_base.specs.Readings.{NeverRefused, ReadsUpTo};
ghost use Rattle.std.specs.Prelude.{◌≡◌, ◌↔◌, ◌^◌, ◌++◌, ℕ, drop, map, Ok, Err, IfOk, IfErr, OnOk};
ghost use Rattle.std.specs.Borrow.{sem, RestsIfErr};
ghost use Rattle.constriction_base.specs.Digits.{fixed_digits};
ghost use Rattle.constriction_base.specs.Steps.{IsSizes};
ghost use Rattle.constriction_base.specs.declared.errors.CoderError.TheVariants as coder_error;
ghost use Rattle.constriction_base.specs.Writing.{IsOneAbove, NotWritten};
ghost use Rattle.constriction_stack.specs.Ans.{IsCoder, value_of};
ghost use Rattle.constriction_stack.specs.Exports.{BinaryExportNotWritten, ExportNotWritten};
ghost use Rattle.constriction_stack.specs.Guards.{BinaryLeft, ExportLeft, LeftByRefusal};
ghost use Rattle.constriction_stack.specs.Guards.{ShowsBinary, ShowsExported, without};

use crate::coder::AnsCoder;
use constriction_base::backends::{Holds, ReadWords, Stack, WriteWords, take_back};
use constriction_base::errors::CoderError;
use constriction_base::head_words::{append_words, count_of_words, words_below_one};
use constriction_words::{BitArray, WordOf};
use std::fmt;

/// A guard that keeps the words of a coder's head on the coder's backend until the guard is dropped.
///
/// [`AnsCoder::get_compressed`] returns a guard with `SEALED` 0. [`AnsCoder::get_binary`] returns a guard with `SEALED`
/// 1. See [`AnsCoder::get_compressed`] for an example.
///
/// Dropping a guard removes the head's words by reading them off the backend. The drop allocates no memory, and stops
/// at the first read that fails. If the caller forgets a guard instead of dropping it, the words stay on the backend,
/// below the head.
pub struct CoderGuard<'a, Word: WordOf<State>, State: BitArray, Backend, const SEALED: usize>
where
    Backend: WriteWords<Word> + ReadWords<Word, Stack>,
    Backend::ReadError: Drop,
{
    inner: &'a mut AnsCoder<Word, State, Backend>,
    count: usize,
}

impl<'a, Word: WordOf<State>, State: BitArray, Backend, const SEALED: usize> CoderGuard<
    'a,
    Word,
    State,
    Backend,
    SEALED,
>
where
    Backend: WriteWords<Word> + ReadWords<Word, Stack>,
    Backend::ReadError: Drop,
{
    ghost use Rattle.constriction_stack.specs.Guarded.{lender};

    /// Returns the backend, which holds the words that the guard lends.
    pub fn backend(&self) -> &Backend
        ensures backend { result.now ≡ (lender self.now).now.backend }
        ensures coder { IsCoder Word.number Backend.Holds Word.BITS State.BITS (lender self.now).now }
    {
        let inner: &AnsCoder<Word, State, Backend> = &*self.inner;
        &inner.bulk
    }
}

impl<Word: WordOf<State>, State: BitArray, Backend, const SEALED: usize> Drop
    for CoderGuard<'_, Word, State, Backend, SEALED>
where
    Backend: WriteWords<Word> + ReadWords<Word, Stack>,
    Backend::ReadError: Drop,
{
    ghost use Rattle.constriction_stack.specs.Guarded.{lender, lent_back, written};

    /// Removes the head's words by reading them off the backend, and stops at the first read that fails.
    fn drop(self)
        ensures kept { (lent_back self.exit).now.state.head ≡ (lender self.entry).now.state.head }
        ensures back { NeverRefused Backend.reads →
            (lent_back self.exit).now.state ≡ without (written self.entry) (lender self.entry).now.state }
        ensures reads { ReadsUpTo Backend.reads (written self.entry)
            (lender self.entry).now.backend (lent_back self.exit).now.backend }
        ensures coder { IsCoder Word.number Backend.Holds Word.BITS State.BITS (lent_back self.exit).now }
    {
        let CoderGuard { inner, count } = self;
        take_back::<Word, Backend>(&mut inner.bulk, count);
    }
}

impl<Word: WordOf<State>, State: BitArray, Backend, const SEALED: usize> fmt::Debug
    for CoderGuard<'_, Word, State, Backend, SEALED>
where
    Backend: WriteWords<Word> + ReadWords<Word, Stack> + fmt::Debug,
    Backend::ReadError: Drop,
{
    /// Formats the coder's backend, which holds the words that the guard lends.
    fn fmt<W: fmt::Write>(&self, f: &mut fmt::Formatter<W>) -> fmt::Result {
        self.backend().fmt(f)
    }
}

impl<Word: WordOf<State>, State: BitArray, Backend> AnsCoder<Word, State, Backend>
where
    Backend: WriteWords<Word> + ReadWords<Word, Stack>,
    Backend::ReadError: Drop,
{
    /// Writes the head's words onto the backend, keeps the head, and returns how many words it wrote.
    ///
    /// If the backend refuses room or a write, the call returns the backend's error. Before it returns, it removes the
    /// words that it wrote by reading them back.
    fn put_compressed(&mut self) -> Result<usize, Backend::WriteError>
        ensures coder { IsCoder Word.number Backend.Holds Word.BITS State.BITS self.old }
        ensures shows { OnOk result (ShowsExported Word.BITS self.old.state self.new.state) }
        ensures back { IfOk result (λ count. without count self.new.state ≡ self.old.state) }
        ensures err { IfErr result
            (ExportNotWritten Word.number Backend.Holds Backend.WriteWords.own Word.BITS self.old) }
        ensures kept { IfErr result (λ e. ExportLeft Word.number Backend.Holds Backend.WriteWords.own Backend.reads
            Word.BITS self.old e self.new) }
    {
        let count = count_of_words::<Word, State>(self.state);
        match show_words(&mut self.bulk, self.state, count) {
            Ok(()) => {}
            Err(error) => return Err(error),
        }
        Ok(count)
    }

    /// Writes the words of the head below its leading 1 to the backend, and returns how many words it wrote.
    ///
    /// The head is unchanged. The call returns `Frontend(())` if and only if the head is 0 or its bit length minus 1
    /// isn't a multiple of `Word::BITS`. If the backend refuses room or a write, the call returns the backend's error.
    /// Before it returns, it removes the words that it wrote by reading them back.
    fn put_binary(&mut self) -> Result<usize, CoderError<(), Backend::WriteError>>
        ensures coder { IsCoder Word.number Backend.Holds Word.BITS State.BITS self.old }
        ensures shows { OnOk result (ShowsBinary Word.BITS self.old.state self.new.state) }
        ensures back { IfOk result (λ count. without count self.new.state ≡ self.old.state) }
        ensures frontend { (result ≡ Err (coder_error.Frontend tt))
            ↔ ((m : ℕ) → IsOneAbove Word.BITS m self.old.state.head → ⊥) }
        ensures err { (e : Backend.WriteError) → result ≡ Err (coder_error.Backend e) →
            BinaryExportNotWritten Word.number Backend.Holds Backend.WriteWords.own Word.BITS self.old e }
        ensures kept { IfErr result (λ error. BinaryLeft Word.number Backend.Holds Backend.WriteWords.own Backend.reads
            Word.BITS self.old error self.new) }
    {
        let Some(count) = words_below_one::<Word, State>(self.state) else {
            return Err(CoderError::Frontend(()));
        };
        match show_words(&mut self.bulk, self.state, count) {
            Ok(()) => {}
            Err(error) => return Err(CoderError::Backend(error)),
        }
        Ok(count)
    }
}

impl<Word: WordOf<State>, State: BitArray, Backend> AnsCoder<Word, State, Backend>
where
    Backend: WriteWords<Word> + ReadWords<Word, Stack>,
    Backend::ReadError: Drop,
{
    ghost use Rattle.constriction_stack.specs.contracts.coder.AnsCoder.{the_row};
    ghost use Rattle.constriction_stack.specs.Guarded.{lender, written};

    /// Returns a guard that lends the words that [`AnsCoder::into_compressed`] would return.
    ///
    /// While the guard lives, the backend holds the words below the head and then the words of the head. The coder
    /// first asks the backend for room for the head's words. It then writes these words, lowest first, without leading
    /// zero words. A head of 0 has no words. Dropping the guard reads the words of the head back. If reads never
    /// fail, as for vectors, this restores the coder.
    ///
    /// # Errors
    ///
    /// Returns the backend's error if the backend refuses room for the head's words, or refuses to write a word. The
    /// coder then removes the words that it wrote by reading them back. If reads never fail, as for vectors, the head
    /// and the words are unchanged.
    ///
    /// # Examples
    ///
    /// ```
    /// {
    ///     let guard = coder.get_compressed()?;
    ///     send(guard.backend().words());
    /// }
    /// coder.encode_symbol(&2, &table)?; // continues from the state before the guard
    /// ```
    pub fn get_compressed(
        &mut self,
    ) -> Result<CoderGuard<'_, Word, State, Backend, 0>, Backend::WriteError>
        ensures same_reference { IfOk result (λ g. (lender g).ghost_name ≡ self.entry.ghost_name) }
        ensures coder { IsCoder Word.number Backend.Holds Word.BITS State.BITS self.old }
        ensures shows { IfOk result (λ g. ShowsExported Word.BITS self.old.state (lender g).now.state) }
        ensures back { IfOk result (λ g. without (written g) (lender g).now.state ≡ self.old.state) }
        ensures err { IfErr result
            (ExportNotWritten Word.number Backend.Holds Backend.WriteWords.own Word.BITS self.old) }
        ensures* kept { sem 𝓛 (RestsIfErr
            (the_row Word.row State.row Backend.row Word.NonZero.row State.NonZero.row
            Word.BitArray.own Word.Natural State.BitArray.own State.Natural Backend.Holds)
            self.entry (λ g. (lender g).ghost_name) result
            (λ after. IfErr result (λ e. ExportLeft Word.number Backend.Holds Backend.WriteWords.own Backend.reads
            Word.BITS self.old e after))) }
    {
        let count = self.put_compressed()?;
        Ok(CoderGuard { inner: self, count })
    }

    /// Returns a guard that lends the words that [`AnsCoder::into_binary`] would return.
    ///
    /// While the guard lives, the backend holds the words below the head and then the head's words below its leading 1,
    /// lowest first. Words directly below the leading 1 are included even if they are 0. A head of 1 has no words below
    /// its leading 1. The coder first asks the backend for room for the head's words. Dropping the guard reads these
    /// words back. If reads never fail, as for vectors, this restores the coder.
    ///
    /// # Errors
    ///
    /// - `Frontend(())`: returned if and only if the head is 0 or its bit length minus 1 isn't a multiple of
    ///   `Word::BITS`. The coder is unchanged.
    /// - `Backend(error)`: returned only if the backend refuses room for the head's words, or refuses to write a word.
    ///   The coder then removes the words that it wrote by reading them back. If reads never fail, as for vectors, the
    ///   head and the words are unchanged.
    pub fn get_binary(
        &mut self,
    ) -> Result<CoderGuard<'_, Word, State, Backend, 1>, CoderError<(), Backend::WriteError>>
        ensures same_reference { IfOk result (λ g. (lender g).ghost_name ≡ self.entry.ghost_name) }
        ensures coder { IsCoder Word.number Backend.Holds Word.BITS State.BITS self.old }
        ensures shows { IfOk result (λ g. ShowsBinary Word.BITS self.old.state (lender g).now.state) }
        ensures back { IfOk result (λ g. without (written g) (lender g).now.state ≡ self.old.state) }
        ensures frontend { (result ≡ Err (coder_error.Frontend tt))
            ↔ ((m : ℕ) → IsOneAbove Word.BITS m self.old.state.head → ⊥) }
        ensures err { (e : Backend.WriteError) → result ≡ Err (coder_error.Backend e) →
            BinaryExportNotWritten Word.number Backend.Holds Backend.WriteWords.own Word.BITS self.old e }
        ensures* kept { sem 𝓛 (RestsIfErr
            (the_row Word.row State.row Backend.row Word.NonZero.row State.NonZero.row
            Word.BitArray.own Word.Natural State.BitArray.own State.Natural Backend.Holds)
            self.entry (λ g. (lender g).ghost_name) result
            (λ after. IfErr result (λ error. BinaryLeft Word.number Backend.Holds Backend.WriteWords.own Backend.reads
            Word.BITS self.old error after))) }
    {
        match self.put_binary() {
            Ok(count) => Ok(CoderGuard { inner: self, count }),
            Err(error) => Err(error),
        }
    }
}

/// Writes the lowest `count` words of `head` onto `bulk`, lowest first.
///
/// The call first asks for room for these words. If the backend refuses room or a write, the call returns the backend's
/// error. Before it returns, it removes the words that it wrote by reading them back.
fn show_words<Word: WordOf<State>, State: BitArray, Backend>(
    bulk: &mut Backend,
    head: State,
    count: usize,
) -> Result<(), Backend::WriteError>
where
    Backend: WriteWords<Word> + ReadWords<Word, Stack>,
    Backend::ReadError: Drop,
    requires { IsSizes Word.BITS State.BITS }
    ensures words { OnOk result (map Word.number (Backend.words bulk.new)
        ≡ fixed_digits (2 ^ Word.BITS) count (State.number head) ++ map Word.number (Backend.words bulk.old)) }
    ensures back { OnOk result (drop count (Backend.words bulk.new) ≡ Backend.words bulk.old) }
    ensures err { IfErr result (NotWritten Word.number Backend.Holds Backend.WriteWords.own
        (fixed_digits (2 ^ Word.BITS) count (State.number head)) bulk.old) }
    ensures kept { IfErr result (λ e. LeftByRefusal Word.number Backend.Holds Backend.WriteWords.own Backend.reads
        (fixed_digits (2 ^ Word.BITS) count (State.number head))
        (value_of Word.number Backend.Holds (State.number head) bulk.old) e
        (value_of Word.number Backend.Holds (State.number head) bulk.new)) }
{
    match append_words(bulk, head, count) {
        Ok(()) => Ok(()),
        Err((written, error)) => {
            take_back::<Word, Backend>(bulk, written);
            Err(error)
        }
    }
}
