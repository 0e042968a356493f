//! The stack coder, [`AnsCoder`]: its type, its constructors and its parts.
//!
//! - [`symbols`]: the two steps, `encode_symbol` and `decode_symbol`.
//! - [`lists`]: encoding lists of symbols from last to first.
//! - [`words`]: importing and exporting words, and counting them.
//! - [`decoders`]: turning a coder into a decoder, decoders of borrowed or reversed words, and seeking.
//! - [`guard`]: guards that lend the compressed words.

pub mod decoders;
pub mod guard;
pub mod lists;
pub mod symbols;
pub mod words;

ghost use Rattle.constriction_base.specs.Steps.{IsSizes};
ghost use Rattle.constriction_stack.specs.Ans.{AnsValue, IsCoder, empty, state_of, value_of};
ghost use Rattle.std.specs.Prelude.{IsTrue, [], vec_capacity, ◌↔◌, ◌≡◌, ◌%◌, ◌^◌};

use constriction_base::backends::{Holds, Stack, WriteWords};
use constriction_words::{BitArray, WordOf};
use std::alloc::{AllocError, Allocator, Global};
use std::marker::Model;

/// A stack of symbols: a head (the state `x` of rANS) of type `State` above a backend of words of type `Word`.
///
/// The width of `State` is a whole number of words, at least two. The backend holds the words below the head. The word
/// written last is the top word, which is read first. [`AnsCoder::new`] creates an empty coder.
///
/// Contracts describe a coder by its `AnsValue`: the state (the head and the words below it) and the backend.
///
/// # Examples
///
/// ```
/// let mut coder = DefaultAnsCoder::new(alloc);
/// coder.encode_symbol(&1, &table)?;
/// coder.encode_symbol(&0, &table)?;
/// coder.decode_symbol(&table)?; // 0, the last symbol encoded
/// ```
#[derive(Drop)]
pub struct AnsCoder<Word: WordOf<State>, State: BitArray, Backend: Holds<Word, Stack> = Vec<Word>> {
    /// The low word of `state`. A decode takes its quantile from here. A refill sets `low` to the word that it reads,
    /// so the lookup of the next decode doesn't have to wait for the new head. The field isn't beside `state`: LLVM
    /// would keep two small neighbours in one register, and each step would take them apart.
    low: Word,
    bulk: Backend,
    state: State,
    ghost low_word: { Word.number low ≡ State.number state % 2 ^ Word.BITS },
}

/// A coder with 32-bit words and a 64-bit head, for precisions up to 32 bits.
pub type DefaultAnsCoder<Backend = Vec<u32>> = AnsCoder<u32, u64, Backend>;

/// A coder with 16-bit words and a 32-bit head, for precisions up to 16 bits.
pub type SmallAnsCoder<Backend = Vec<u16>> = AnsCoder<u16, u32, Backend>;

impl<Word: WordOf<State>, State: BitArray, Backend: Holds<Word, Stack>> Model
    for AnsCoder<Word, State, Backend> {
    ghost Value = { AnsValue Backend };

    ghost view = { λ c. value_of Word.number Backend.Holds (State.number c.state) c.bulk };

    ghost invariant = { λ _. IsSizes Word.BITS State.BITS };
}

impl<Word: WordOf<State>, State: BitArray> AnsCoder<Word, State, Vec<Word>> {
    /// Creates an empty coder, with head 0 and no words.
    ///
    /// The call allocates nothing. Later, the coder allocates memory for its words from `alloc`.
    ///
    /// # Examples
    ///
    /// ```
    /// let coder = DefaultAnsCoder::new(alloc);
    /// coder.is_empty(); // true
    /// ```
    #[inline(always)]
    pub fn new(alloc: Global) -> Self
        requires { IsSizes Word.BITS State.BITS }
        ensures state { result.state ≡ empty }
        ensures room { vec_capacity result.backend ≡ 0 }
        ensures coder { IsCoder Word.number ⟦<Vec<Word> as Holds<Word, Stack>>⟧ Word.BITS State.BITS result }
    {
        AnsCoder {
            bulk: Vec::new(alloc),
            state: State::nothing(),
            low: Word::nothing(),
        }
    }
}

impl<Word: WordOf<State>, State: BitArray, A: Allocator> AnsCoder<Word, State, Vec<Word, A>> {
    /// Removes all symbols and words from the coder, and keeps the allocated memory.
    pub fn clear(&mut self)
        ensures state { self.new.state ≡ empty }
        ensures coder { IsCoder Word.number ⟦<Vec<Word, A> as Holds<Word, Stack>>⟧ Word.BITS State.BITS self.new }
        ensures room { vec_capacity self.new.backend ≡ vec_capacity self.old.backend }
    {
        self.bulk.clear();
        self.state = State::nothing();
        self.low = Word::nothing();
    }
}

impl<Word: WordOf<State>, State: BitArray, Backend: Holds<Word, Stack>> AnsCoder<
    Word,
    State,
    Backend,
> {
    /// Returns whether the coder is empty, which means that its head is 0.
    ///
    /// A new coder is empty. It is empty again after the caller has decoded all symbols that the caller encoded. An
    /// empty coder may still hold symbols: encoding a symbol whose interval begins at 0 leaves an empty coder empty,
    /// and decoding returns that symbol.
    #[inline]
    pub fn is_empty(&self) -> bool
        ensures { IsTrue result ↔ (self.now.state.head ≡ 0) }
    {
        self.state.is_nothing()
    }
}

impl<Word: WordOf<State>, State: BitArray, Backend: Holds<Word, Stack>> AnsCoder<
    Word,
    State,
    Backend,
> {
    /// Creates a coder from a backend and a head.
    ///
    /// The head may be any number. If the backend has words and the head is below `2^(State::BITS - Word::BITS)`, the
    /// state isn't normalized. Decoding works from every state. But if the caller encodes a symbol onto a state that
    /// isn't normalized, decoding this symbol need not restore the state.
    ///
    /// # Examples
    ///
    /// ```
    /// let coder = DefaultAnsCoder::from_raw_parts(Vec::new(alloc), 7u64);
    /// coder.is_empty(); // false: the head is 7
    /// ```
    #[inline(always)]
    pub fn from_raw_parts(bulk: Backend, state: State) -> Self
        requires { IsSizes Word.BITS State.BITS }
        ensures state { result.state ≡ state_of Word.number Backend.Holds (State.number state) bulk }
        ensures backend { result.backend ≡ bulk }
        ensures coder { IsCoder Word.number Backend.Holds Word.BITS State.BITS result }
    {
        AnsCoder {
            bulk,
            state,
            low: Word::narrow(state),
        }
    }

    /// Splits the coder into its backend, which holds the words below the head, and its head.
    #[inline]
    pub fn into_raw_parts(self) -> (Backend, State)
        ensures backend { result.0 ≡ self.backend }
        ensures state { self.state ≡ state_of Word.number Backend.Holds (State.number result.1) result.0 }
        ensures coder { IsCoder Word.number Backend.Holds Word.BITS State.BITS self }
    {
        let AnsCoder {
            bulk,
            state: head,
            low: _,
        } = self;
        (bulk, head)
    }

    /// Returns the backend, which holds the words below the head.
    #[inline]
    pub fn bulk(&self) -> &Backend
        ensures backend { result.now ≡ self.now.backend }
        ensures coder { IsCoder Word.number Backend.Holds Word.BITS State.BITS self.now }
    {
        &self.bulk
    }
}

impl<Word: WordOf<State>, State: BitArray, Backend: WriteWords<Word>> AnsCoder<
    Word,
    State,
    Backend,
> {
    /// Creates an empty coder over a backend without words. The head is 0.
    ///
    /// The caller proves that the backend holds no words.
    ///
    /// # Examples
    ///
    /// ```
    /// let buffer = Cursor::new_at_write_beginning(words.as_mut_slice()); // the coder overwrites `words`
    /// let mut coder = DefaultAnsCoder::with_write_backend(buffer);
    /// ```
    #[inline(always)]
    pub fn with_write_backend(bulk: Backend) -> Self
        requires sizes { IsSizes Word.BITS State.BITS }
        requires empty { Backend.words bulk ≡ [] }
        ensures state { result.state ≡ empty }
        ensures backend { result.backend ≡ bulk }
        ensures coder { IsCoder Word.number Backend.Holds Word.BITS State.BITS result }
    {
        AnsCoder::from_raw_parts(bulk, State::nothing())
    }
}

impl<Word: WordOf<State>, State: BitArray, Backend: Holds<Word, Stack> + Clone> Clone
    for AnsCoder<Word, State, Backend> {
    ghost is_clone = { λ old new. Backend.is_clone old.backend new.backend × (new.state.head ≡ old.state.head)
        × IsCoder Word.number Backend.Holds Word.BITS State.BITS new };

    ghost is_infallible = { λ coder. Backend.is_infallible coder.backend };

    /// Clones the coder. The clone has the same head, over a clone of the backend.
    ///
    /// # Errors
    ///
    /// Returns `AllocError` if cloning the backend fails.
    fn clone(&self) -> Result<Self, AllocError> {
        let bulk = self.bulk.clone()?;
        Ok(AnsCoder {
            bulk,
            state: self.state,
            low: self.low,
        })
    }
}
