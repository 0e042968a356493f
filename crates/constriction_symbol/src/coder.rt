//! Bit coders: lists of bits that are stored in words and grow at their end.
//!
//! A queue returns its bits from the first to the last. A stack returns its bits from the last to the first.
//!
//! - [`words`]: import and export of words.
//! - [`decoders`]: conversion of a coder to a reader of its bits.
//! - [`equality`]: equality of coders.
//! - [`guard`]: guards that lend a coder's compressed words.

pub mod decoders;
mod equality;
pub mod guard;
pub mod words;

ghost use Rattle.constriction_base.specs.Backends.{IsWrite};
ghost use Rattle.constriction_base.specs.Iterators.{item_of_answer};
ghost use Rattle.constriction_symbol.specs.Bits.{BitsValue, PopsBit, PutsBit, PutsLast, bits_above};
ghost use Rattle.std.specs.Prelude.{IfOk, IsOk, IsTrue, [], length, vec_capacity, ◌*◌, ◌<◌, ◌↔◌, ◌≡◌, ◌≤◌};

use crate::steps::{put_last, take_last};
use crate::top_bits::TopBits;
use constriction_base::backends::{
    BoundedReadWords, Holds, Queue, ReadWords, Semantics, Stack, WriteWords,
};
use constriction_words::BitArray;
use smallvec::SmallVec;
use std::alloc::{AllocError, Global};
use std::marker::{Model, PhantomData};

/// A list of bits that is stored in words of type `Word`: a [`StackCoder`], or a [`QueueEncoder`].
///
/// Bits fill a word from its lowest bit to its highest. The coder holds the last bits, at most one word, outside the
/// backend. If this word is full, the coder writes it to the backend only when the caller appends the next bit.
///
/// Contracts describe the coder by a `BitsValue`: all bits, the bits of the word outside the backend, and the backend.
///
/// # Examples
///
/// ```
/// let mut stack = DefaultStackCoder::new(alloc);
/// stack.write_bit(true)?;
/// stack.write_bit(false)?;
/// stack.read_bit()?; // Some(false), the last bit written
/// ```
#[derive(Debug, Drop)]
pub struct SymbolCoder<Word: BitArray, S: Semantics, B: Holds<Word, Stack> = Vec<Word>> {
    pub(crate) backend: B,
    pub(crate) last: TopBits<Word>,
    semantics: PhantomData<S>,
}

/// A stack of bits: the last bit written is read first.
pub type StackCoder<Word, B = Vec<Word>> = SymbolCoder<Word, Stack, B>;

/// A queue of bits, for writing.
///
/// [`QueueEncoder::into_decoder`] returns a decoder that reads the bits from first to last.
pub type QueueEncoder<Word, B = Vec<Word>> = SymbolCoder<Word, Queue, B>;

/// A stack of bits that is stored in 32-bit words.
pub type DefaultStackCoder<B = Vec<u32>> = StackCoder<u32, B>;

/// A queue of bits, for writing, that is stored in 32-bit words.
pub type DefaultQueueEncoder<B = Vec<u32>> = QueueEncoder<u32, B>;

/// A stack of bits for one codeword.
///
/// The first `2 * usize::BITS` bits need no allocation: one word is inline in the backend, and one is outside it.
pub type SmallBitStack = StackCoder<usize, SmallVec<usize, 1>>;

impl<Word: BitArray, S: Semantics, B: Holds<Word, Stack>> Model for SymbolCoder<Word, S, B> {
    ghost use Rattle.constriction_symbol.specs.Bits.{BitsValue, bits_above};

    ghost Value = { BitsValue B };

    ghost view = { λ c. record {
      bits = bits_above Word.BITS Word.number (B.words c.backend) c.last;
      last = c.last;
      backend = c.backend;
    } };
}

impl<Word: BitArray, S: Semantics> SymbolCoder<Word, S, Vec<Word>> {
    /// Creates an empty coder.
    ///
    /// The call allocates nothing. Later the coder allocates memory for its words from `alloc`.
    #[inline]
    pub fn new(alloc: Global) -> Self
        ensures { result.bits ≡ [] }
    {
        let last = TopBits::none();
        SymbolCoder {
            backend: Vec::new(alloc),
            last,
            semantics: PhantomData,
        }
    }
}

impl<Word: BitArray> StackCoder<Word, Vec<Word>> {
    /// Creates an empty stack, with memory for `bit_capacity` bits and the 1 that an export appends.
    ///
    /// # Errors
    ///
    /// Returns `AllocError` if there isn't enough memory.
    pub fn with_bit_capacity(alloc: Global, bit_capacity: usize) -> Result<Self, AllocError>
        ensures ok { IfOk result (λ new. new.bits ≡ []) }
        ensures room { IfOk result (λ new. bit_capacity < vec_capacity new.backend * Word.BITS) }
    {
        let backend = Vec::with_capacity(alloc, bit_capacity / Word::BITS as usize + 1)?;
        Ok(SymbolCoder {
            backend,
            last: TopBits::none(),
            semantics: PhantomData,
        })
    }
}

impl<Word: BitArray> QueueEncoder<Word, Vec<Word>> {
    /// Creates an empty queue, with memory for `bit_capacity` bits. A capacity of 0 needs no memory.
    ///
    /// # Errors
    ///
    /// Returns `AllocError` if there isn't enough memory.
    pub fn with_bit_capacity(alloc: Global, bit_capacity: usize) -> Result<Self, AllocError>
        ensures ok { IfOk result (λ new. new.bits ≡ []) }
        ensures room { IfOk result (λ new. bit_capacity ≤ vec_capacity new.backend * Word.BITS) }
        ensures variant { bit_capacity ≡ 0 → IsOk result }
    {
        let backend = Vec::with_capacity(alloc, bit_capacity.div_ceil(Word::BITS as usize))?;
        Ok(SymbolCoder {
            backend,
            last: TopBits::none(),
            semantics: PhantomData,
        })
    }
}

/// The constructor of a [`SmallBitStack`].
///
/// The constructor is in a trait, because an inherent `StackCoder::new` would be ambiguous beside `SymbolCoder::new`
/// for vectors.
pub trait NewSmallStack {
    /// Creates an empty stack.
    ///
    /// The first `2 * usize::BITS` bits need no allocation. The stack allocates memory for further words from `alloc`.
    fn new(alloc: Global) -> Self;
}

impl NewSmallStack for SmallBitStack {
    #[inline]
    fn new(alloc: Global) -> Self
        ensures { result.bits ≡ [] }
    {
        SymbolCoder {
            backend: SmallVec::new(alloc),
            last: TopBits::none(),
            semantics: PhantomData,
        }
    }
}

impl<Word: BitArray, S: Semantics, B: BoundedReadWords<Word, Stack>> SymbolCoder<Word, S, B> {
    /// Returns whether the coder's number of bits fits a `usize`, as [`SymbolCoder::len`] requires.
    pub fn len_fits(&self) -> bool
        ensures { IsTrue result ↔ (length self.now.bits < 0x1_0000_0000_0000_0000) }
    {
        let last = self.last.count() as usize;
        self.backend.remaining() <= (usize::MAX - last) / Word::BITS as usize
    }

    /// Returns the coder's number of bits. The caller proves that it fits a `usize` (see [`SymbolCoder::len_fits`]).
    pub fn len(&self) -> usize
        requires { length self.now.bits < 0x1_0000_0000_0000_0000 }
        ensures { result ≡ length self.now.bits }
    {
        self.backend.remaining() * Word::BITS as usize + self.last.count() as usize
    }

    /// Returns whether the coder's list of bits is empty.
    pub fn is_empty(&self) -> bool
        ensures { IsTrue result ↔ (self.now.bits ≡ []) }
    {
        self.last.is_empty() && self.backend.is_exhausted()
    }
}

impl<Word: BitArray, S: Semantics, B: WriteWords<Word>> SymbolCoder<Word, S, B> {
    /// Appends a bit.
    ///
    /// If the word outside the backend is full, the call first writes that word to the backend.
    ///
    /// # Errors
    ///
    /// Returns the backend's error if the backend refuses that word. The bits are then unchanged.
    #[inline]
    pub fn write_bit(&mut self, bit: bool) -> Result<(), B::WriteError>
        ensures puts { PutsLast Word.BITS Word.number (IsWrite B.words B.room B.writes B.write_fails)
            self.old.last self.old.backend bit result self.new.last self.new.backend }
        ensures bits { PutsBit self.old.bits bit result self.new.bits }
    {
        put_last(&mut self.backend, &mut self.last, bit)
    }
}

impl<Word: BitArray, B: ReadWords<Word, Stack>> StackCoder<Word, B> {
    /// Removes the last bit and returns it, or returns `None` if the stack is empty.
    ///
    /// If the word outside the backend has no bit left, the call first reads the next word from the backend.
    ///
    /// # Errors
    ///
    /// Returns the backend's error if that read fails. If the backend's reads follow its list of words (`is_list`),
    /// the bits are then unchanged.
    #[inline]
    pub fn read_bit(&mut self) -> Result<Option<bool>, B::ReadError>
        ensures { PopsBit Word.BITS Word.number B.is_list B.reads self.old (item_of_answer result) self.new }
    {
        take_last(&mut self.backend, &mut self.last)
    }
}

/// Iterates over the bits, from last to first. The iteration continues after the backend returns an error.
impl<Word: BitArray, B: ReadWords<Word, Stack> + Drop> Iterator for StackCoder<Word, B> {
    type Item = Result<bool, B::ReadError>;

    ghost use Rattle.constriction_symbol.specs.Bits.{PopsBit};

    ghost next_gives = { PopsBit Word.BITS Word.number B.is_list B.reads };

    #[inline]
    fn next(&mut self) -> Option<Result<bool, B::ReadError>> {
        match self.read_bit() {
            Ok(Some(bit)) => Some(Ok(bit)),
            Ok(None) => None,
            Err(error) => Some(Err(error)),
        }
    }
}

impl<Word: BitArray, S: Semantics, B: Holds<Word, Stack> + Clone> Clone
    for SymbolCoder<Word, S, B> {
    ghost use Rattle.constriction_symbol.specs.Bits.{bits_above};

    ghost is_clone = { λ old new. B.is_clone old.backend new.backend × (new.last ≡ old.last)
        × (new.bits ≡ bits_above Word.BITS Word.number (B.words new.backend) new.last) };

    ghost is_infallible = { λ coder. B.is_infallible coder.backend };

    /// Clones the coder: the bits outside the backend, and the backend itself.
    ///
    /// # Errors
    ///
    /// Returns `AllocError` if cloning the backend fails.
    fn clone(&self) -> Result<Self, AllocError> {
        let backend = self.backend.clone()?;
        Ok(SymbolCoder {
            backend,
            last: self.last.copied(),
            semantics: PhantomData,
        })
    }
}
