//! The coder and its parts.
//!
//! - [`symbols`]: the two steps, `encode_symbol` and `decode_symbol`.
//! - [`intervals`]: the step of an encode for a given interval, `encode_interval`.
//! - [`lists`]: encoding lists of symbols from last to first.
//! - [`precision`]: changing the precision.
//! - [`words`]: importing and exporting words.
//! - [`seeking`]: recording positions and seeking to them.

pub mod intervals;
pub mod lists;
pub mod precision;
pub mod seeking;
pub mod symbols;
pub mod words;

ghost use Rattle.constriction_chain.specs.Chain.{ChainValue, IsChainCoder, at_heads};
ghost use Rattle.std.specs.Prelude.{IsTrue, ◌↔◌, ◌≡◌};

use crate::heads::ChainCoderHeads;
use constriction_base::backends::{Holds, Stack};
use constriction_stream::coder::Code;
use constriction_words::{BitArray, WordOf};
use std::alloc::AllocError;
use std::marker::Model;

/// A coder that decodes each symbol with its own model, from bits of the compressed words that no other symbol uses.
///
/// A decode takes a quantile from the compressed words. The quantile lies in the interval of the symbol. The decode
/// moves the offset, which is the quantile minus the interval's start, to the remainders. An encode takes the offset
/// back from the remainders, and restores the quantile.
///
/// Contracts describe a coder by its `ChainValue`: the state (the two heads and the words of both backends) and the
/// backends.
///
/// # Examples
///
/// ```
/// if let Ok(mut coder) = DefaultChainCoder::from_binary(alloc, words) { // `words` is a `Vec<u32>`
///     let symbol = coder.decode_symbol(&table)?; // from the first 24 bits that are read
///     coder.encode_symbol(&symbol, &table)?; // restores the state before the decode
/// }
/// ```
#[derive(Debug, Drop)]
pub struct ChainCoder<
    Word: WordOf<State>,
    State: BitArray,
    CompressedBackend: Holds<Word, Stack>,
    RemaindersBackend: Holds<Word, Stack>,
    const PRECISION: usize,
> {
    compressed: CompressedBackend,
    remainders: RemaindersBackend,
    heads: ChainCoderHeads<Word, State, PRECISION>,
}

/// A coder with 32-bit words, a 64-bit remainders head and a precision of 24 bits.
pub type DefaultChainCoder = ChainCoder<u32, u64, Vec<u32>, Vec<u32>, 24>;

/// A coder with 16-bit words, a 32-bit remainders head and a precision of 12 bits.
pub type SmallChainCoder = ChainCoder<u16, u32, Vec<u16>, Vec<u16>, 12>;

impl<
    Word: WordOf<State>,
    State: BitArray,
    CompressedBackend: Holds<Word, Stack>,
    RemaindersBackend: Holds<Word, Stack>,
    const PRECISION: usize,
> Model for ChainCoder<Word, State, CompressedBackend, RemaindersBackend, PRECISION> {
    ghost Value = { ChainValue CompressedBackend RemaindersBackend };

    ghost view = { λ c. at_heads Word.number State.number CompressedBackend.Holds RemaindersBackend.Holds
        c.heads c.compressed c.remainders };

    ghost invariant = { λ _. Unit {0} };
}

impl<
    Word: WordOf<State>,
    State: BitArray,
    C: Holds<Word, Stack>,
    R: Holds<Word, Stack>,
    const PRECISION: usize,
> Code for ChainCoder<Word, State, C, R, PRECISION> {
    type Word = Word;

    type State = ChainCoderHeads<Word, State, PRECISION>;

    ghost shows = { λ coder heads. (Word.number heads.0 ≡ coder.state.h) × (State.number heads.1 ≡ coder.state.r)
        × IsChainCoder Word.number C.Holds R.Holds Word.BITS State.BITS PRECISION coder };

    /// Returns the two heads.
    #[inline]
    fn state(&self) -> ChainCoderHeads<Word, State, PRECISION> {
        let (compressed, remainders) = self.heads.parts();
        ChainCoderHeads::of(compressed, remainders)
    }
}

impl<
    Word: WordOf<State>,
    State: BitArray,
    C: Holds<Word, Stack>,
    R: Holds<Word, Stack>,
    const PRECISION: usize,
> ChainCoder<Word, State, C, R, PRECISION> {
    /// Returns whether no bits are left over from the words that decodes have read.
    ///
    /// [`ChainCoder::into_compressed`] and [`ChainCoder::into_binary`] return an error if bits are left over.
    #[inline]
    pub fn is_whole(&self) -> bool
        ensures value { IsTrue result ↔ (self.now.state.h ≡ 1) }
    {
        self.heads.is_whole()
    }

    /// Creates a coder from two backends and the heads above their words.
    ///
    /// # Examples
    ///
    /// ```
    /// let (compressed, remainders, heads) = coder.into_raw_parts();
    /// let coder = ChainCoder::from_raw_parts(compressed, remainders, heads); // the same coder
    /// ```
    #[inline(always)]
    pub fn from_raw_parts(
        compressed: C,
        remainders: R,
        heads: ChainCoderHeads<Word, State, PRECISION>,
    ) -> Self
        ensures value { result ≡ at_heads Word.number State.number C.Holds R.Holds heads compressed remainders }
        ensures coder { IsChainCoder Word.number C.Holds R.Holds Word.BITS State.BITS PRECISION result }
    {
        let (left_over, number) = heads.parts();
        ChainCoder {
            compressed,
            remainders,
            heads: ChainCoderHeads::of(left_over, number),
        }
    }

    /// Returns the coder's compressed backend, its remainders' backend and its heads, in this order.
    #[inline]
    pub fn into_raw_parts(self) -> (C, R, ChainCoderHeads<Word, State, PRECISION>)
        ensures value { self ≡ at_heads Word.number State.number C.Holds R.Holds result.2 result.0 result.1 }
        ensures coder { IsChainCoder Word.number C.Holds R.Holds Word.BITS State.BITS PRECISION self }
    {
        let ChainCoder {
            compressed,
            remainders,
            heads,
        } = self;
        let (left_over, number) = heads.parts();
        (
            compressed,
            remainders,
            ChainCoderHeads::of(left_over, number),
        )
    }
}

impl<
    Word: WordOf<State>,
    State: BitArray,
    C: Holds<Word, Stack> + Clone + Drop,
    R: Holds<Word, Stack> + Clone,
    const PRECISION: usize,
> Clone for ChainCoder<Word, State, C, R, PRECISION> {
    ghost is_clone = { λ old new. C.is_clone old.compressed new.compressed × R.is_clone old.remainders new.remainders
        × (new.state.h ≡ old.state.h) × (new.state.r ≡ old.state.r)
        × IsChainCoder Word.number C.Holds R.Holds Word.BITS State.BITS PRECISION new };

    ghost is_infallible = { λ coder. C.is_infallible coder.compressed × R.is_infallible coder.remainders };

    /// Clones the coder: both heads and both backends.
    ///
    /// # Errors
    ///
    /// Returns `AllocError` only if cloning a backend fails.
    fn clone(&self) -> Result<Self, AllocError> {
        let compressed = self.compressed.clone()?;
        let remainders = self.remainders.clone()?;
        let (rest, number) = self.heads.parts();
        Ok(ChainCoder {
            compressed,
            remainders,
            heads: ChainCoderHeads::of(rest, number),
        })
    }
}
