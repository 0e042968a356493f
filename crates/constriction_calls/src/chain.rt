//! The chain coder over a caller's buffers.
//!
//! The caller keeps the coder: two heads, a buffer of compressed words, and a buffer of remainders. The first words of
//! each buffer are in use, and the last of them is the top word. The caller passes the number of words in use for each
//! buffer. A decode reads compressed words and writes remainders. An encode reads remainders and writes compressed
//! words. The remainders hold the part of each quantile that the decoded symbol doesn't determine.
//!
//! # Errors
//!
//! A call that fails changes nothing. It returns the first of these errors whose condition holds, but it may return
//! `NoMemory` in place of `OutOfData` or `NoSpace`.
//!
//! - `WrongLength` in one of these cases:
//!   - The caller's count of words in use exceeds the length of the buffer.
//!   - The arguments of the models don't match the number of symbols.
//!   - The lengths of `lefts` and `ps` differ.
//!   - There are more weights than the type of the decoded symbols has values.
//! - `WrongInterval`, `WrongWeights`: the intervals or the arguments of the models are invalid.
//!   [`constriction_inputs::refusal::Refusal`] lists the cases.
//! - `InvalidData`: the caller's heads aren't the heads of any coder. The calls that import or export words document
//!   further cases.
//! - `ImpossibleSymbol`: a model has no entry for its symbol.
//! - `OutOfData`: the coder needs a word from the buffer that it reads, and no word is left there.
//! - `NoSpace(needed)`: the buffer to write to is too short. `needed` is the number of words that this buffer has to
//!   hold.
//! - `NoMemory`: there is no memory. The contracts don't state when this is the case.

mod decoding;
mod encoding;
mod words;

ghost use Rattle.std.specs.Prelude.{◌≡◌, ◌≤◌, length};

use constriction_base::cursor::Cursor;
use constriction_chain::ChainCoderHeads;
use constriction_words::{BitArray, WordOf};
pub use decoding::decode;
pub use encoding::encode_reverse;
pub use words::{from_words, into_words};

/// The two heads of a chain coder, which a caller keeps between calls.
///
/// # Examples
///
/// ```
/// let words = [5u32, 6, 7, 8];
/// let (mut heads, mut len) = (ChainHeads { remainders: 0u64, compressed: 0u32 }, 0);
/// from_words::<_, _, 24>(alloc, Form::InCompressed, &words, &mut heads, &mut len)?; // len is 2: two words stay below
/// ```
#[derive(Debug, Clone, Copy, PartialEq, Eq)]
pub struct ChainHeads<Word, State> {
    /// The remainders head: the number on top of the words of the remainders.
    pub remainders: State,
    /// The compressed head: a leading 1, and below it the bits left over from the compressed word that was read last.
    pub compressed: Word,
}

/// The form of the words that a coder is imported from ([`from_words`]), or exported as ([`into_words`]).
///
/// The words of the other buffer, below the other head, take no part.
#[derive(Clone, Copy, Drop)]
pub enum Form {
    /// Compressed words, and above them the words of the remainders head, without leading zero words. The compressed
    /// head is 1, so it has no bits left over.
    InCompressed,
    /// Compressed words, and above them the bits of the remainders head below its leading 1. The compressed head is 1.
    InBinary,
    /// Words of remainders, then the words of the remainders head, and last the compressed head.
    InRemainders,
}

/// Sets a caller's heads to `both`, and the number of words below one of them to those that `below` has left.
fn keep<'a, Word: WordOf<State>, State: BitArray, const PRECISION: usize>(
    below: Cursor<Word, &'a [Word]>,
    both: ChainCoderHeads<Word, State, PRECISION>,
    heads: &mut ChainHeads<Word, State>,
    len: &mut usize,
)
    ensures heads { heads.new ≡ record { remainders = both.1; compressed = both.0 } }
    ensures len { len.new ≡ below.entry.pos }
    ensures within { below.entry.pos ≤ length below.entry.buf.now }
{
    let (compressed, remainders) = both.parts();
    *heads = ChainHeads {
        remainders,
        compressed,
    };
    *len = below.into_buf_and_pos().1;
}
