//! `FallibleIteratorReadWords`: a backend that reads words from an iterator of `Result`s.

ghost use Rattle.std.specs.Prelude.{◌≡◌, ◌↔◌, List, [], Some, None, Ok, Err, Result, Option, true, false};
ghost use Rattle.std.specs.Iterator.{Drains};
ghost use Rattle.std.specs.Iterator.Adapters.{fuse_done, fuse_source};
ghost use Rattle.constriction_base.specs.Iterators.{FusedRead, CanGive};

use crate::backends::{Holds, ReadWords, Semantics};
use std::iter::Fuse;
use std::marker::Model;

/// A backend whose reads return the words of an iterator, in the iterator's order.
///
/// Both as a stack and as a queue, the backend reads the iterator's first item first. If an item is `Err(error)`, the
/// read returns this error, and the next read continues with the next item. Once the iterator has returned `None`, no
/// read calls the iterator again. Contracts describe the backend by the iterator and whether the iterator has ended.
///
/// # Examples
///
/// ```
/// let words = [Ok(9u32), Ok(7)].to_vec(alloc)?;
/// let mut backend = FallibleIteratorReadWords::new(words.into_iter());
/// ReadWords::<u32, Stack>::read(&mut backend) // Ok(Some(9))
/// ```
#[derive(Debug, Drop)]
pub struct FallibleIteratorReadWords<Iter: Iterator> {
    inner: Fuse<Iter>,
}

impl<Iter: Iterator> Model for FallibleIteratorReadWords<Iter> {
    ghost use Rattle.std.specs.Prelude.{◌≡◌, Bool, false};
    ghost use Rattle.std.specs.Coded.{coded×, coded_bool};
    ghost use Rattle.std.specs.Iterator.Adapters.{fuse_done, fuse_source};

    ghost Value = { Iter × Bool };

    ghost coded = { coded× Iter.code coded_bool };

    ghost view = { λ a. (fuse_source a.inner, fuse_done a.inner) };

    ghost invariant = { λ a. fuse_done a.inner ≡ false → Iter.can_next (fuse_source a.inner) };
}

impl<Word, ReadError, Iter: Iterator<Item = Result<Word, ReadError>>> FallibleIteratorReadWords<
    Iter,
> {
    /// Creates a backend over an iterator.
    ///
    /// Each read returns the iterator's next item: `Ok(Some(word))` for the item `Ok(word)`, `Err(error)` for the item
    /// `Err(error)`, and `Ok(None)` at the end. The caller proves that the iterator's `next` may be called.
    ///
    /// # Examples
    ///
    /// ```
    /// let words = [Ok(9u32), Err("lost")].to_vec(alloc)?;
    /// let mut backend = FallibleIteratorReadWords::new(words.into_iter());
    /// ReadWords::<u32, Stack>::read(&mut backend) // Ok(Some(9))
    /// ReadWords::<u32, Stack>::read(&mut backend) // Err("lost")
    /// ```
    pub fn new(iter: Iter) -> Self
        requires { Iter.can_next iter }
        ensures value { result ≡ (iter, false) }
        ensures reads { (results : List (Result Word ReadError))
            → Drains Iter.next_gives iter results ↔ CanGive (FusedRead Iter.next_gives) result results }
    {
        FallibleIteratorReadWords { inner: iter.fuse() }
    }
}

impl<Iter: Iterator> IntoIterator for FallibleIteratorReadWords<Iter> {
    type Item = Iter::Item;

    type IntoIter = Fuse<Iter>;

    ghost into_iter_gives = { λ backend rest. (fuse_source rest ≡ backend.0) × (fuse_done rest ≡ backend.1)
        × (fuse_done rest ≡ false → Iter.can_next (fuse_source rest)) };

    /// Returns an iterator over the items that are left to read. After its first `None`, it returns only `None`.
    fn into_iter(self) -> Fuse<Iter> {
        let FallibleIteratorReadWords { inner } = self;
        inner
    }
}

impl<Word, ReadError, S: Semantics, Iter: Iterator<Item = Result<Word, ReadError>>> Holds<Word, S>
    for FallibleIteratorReadWords<Iter> {
    ghost words = { λ _. [] };

    ghost is_list = { ⊥ };
}

impl<Word, ReadError, S: Semantics, Iter: Iterator<Item = Result<Word, ReadError>>> ReadWords<
    Word,
    S,
> for FallibleIteratorReadWords<Iter> {
    type ReadError = ReadError;

    ghost reads = { FusedRead Iter.next_gives };

    ghost seems_exhausted = { λ _. true };

    fn read(&mut self) -> Result<Option<Word>, ReadError> {
        match self.inner.next() {
            Some(Ok(word)) => Ok(Some(word)),
            Some(Err(error)) => Err(error),
            None => Ok(None),
        }
    }

    fn maybe_exhausted(&self) -> bool {
        true
    }
}
