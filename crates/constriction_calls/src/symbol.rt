//! Encoding and decoding lists of symbols with codebooks, over a caller's buffers.
//!
//! A caller selects the codebook with a value of a type that implements [`Codes`]: `ExpGolomb` for the Exp-Golomb
//! codewords of numbers, or [`Tree`] for the Huffman tree of weights.
//!
//! The words hold a list of bits. Reading a queue of bits returns the bits in the order of writing. Reading a stack of
//! bits returns the bits in the reverse order.
//!
//! # Errors
//!
//! A call that fails leaves the buffers unchanged. It returns the first of these errors that applies:
//!
//! - `WrongLength`: the words have fewer than `bit` bits, or 2^64 bits or more. Only [`encode_at`] and [`decode_at`]
//!   return this error.
//! - `WrongWeights`: the weights make no Huffman tree, in one of these cases:
//!   - There are no weights.
//!   - The sum of the weights doesn't fit their type.
//!   - There are more than `2^62 - 1` weights for encoding, or more than `2^63 - 1` for decoding.
//! - `ImpossibleSymbol`: a symbol has no codeword.
//! - `NoSpace(needed)`: the buffer is too short. `needed` is the number of words that the buffer has to hold.
//! - `InvalidData`: the next bits begin with more zeros than a number has bits, or with the Exp-Golomb codeword of a
//!   number that doesn't fit its type; or a stack's last word is 0.
//! - `OutOfData`: the words end before all symbols are decoded.
//!
//! If there is no memory, the call returns `NoMemory`, unless `WrongLength`, `WrongWeights` or `ImpossibleSymbol`
//! applies.

mod counted;
mod decoding;
mod encoding;
mod golomb;
mod trees;

ghost use Rattle.std.specs.Prelude.{◌≡◌, ◌-◌, ◌^◌, Bool, IfOk, IfSome, List, OnSome, ℕ};
ghost use Rattle.constriction_inputs.specs.Refusals.{Asks, Otherwise, OnlyNoMemory};
ghost use Rattle.constriction_calls.specs.SymbolCalls.{SymbolCode, IsCutOff, IsWrong, MakesCode, SymbolEncodeFails};
ghost use Rattle.constriction_calls.specs.SymbolCalls.{codeword_in};
ghost use Rattle.constriction_inputs.specs.declared.refusal.Refusal.TheVariants.{WrongWeights};

use constriction_inputs::refusal::Refusal;
use constriction_symbol::codebooks::{Codebook, DecoderCodebook, EncoderCodebook};
pub use decoding::{decode_at, decode_queue, decode_stack};
pub use encoding::{encode_at, encode_queue, encode_stack};
use std::alloc::Global;
pub use trees::Tree;

/// A value that selects the codebook with which a call encodes or decodes.
///
/// `ExpGolomb` selects Exp-Golomb codewords, and [`Tree`] selects the codewords of a Huffman tree.
///
/// An implementor defines the codewords (`book`). It proves that the codebooks for encoding and for decoding have these
/// codewords. It also proves which error its calls return if the weights make no tree, if a symbol has no codeword, or
/// if there is no memory.
pub trait Codes {
    /// The type of the symbols.
    type Symbol: Copy + Drop;

    /// The codebook for encoding.
    type Encoder: EncoderCodebook<Symbol = Self::Symbol>;

    /// The codebook for decoding.
    type Decoder: DecoderCodebook<Symbol = Self::Symbol, InvalidCodeword = Self::Wrong>;
    /// The error that `Decoder` returns for bits that aren't a symbol's codeword.
    type Wrong: Drop;

    /// Defines the codewords of numbers: Exp-Golomb codewords, or the codewords of a Huffman tree.
    ghost book: { Self → SymbolCode };

    /// Assigns a number to each symbol. The symbol's codeword is the codeword of that number in `book`.
    ghost number: { Self.Symbol → ℕ };

    /// Creates the codebook for encoding.
    ///
    /// Returns `None` if there is no memory, or if the weights make no Huffman tree of at most `2^62 - 1` symbols.
    fn encoder(&self, alloc: Global) -> Option<Self::Encoder>
        ensures tree { OnSome result (MakesCode (2 ^ 62 - 1) (book self.now)) }
        ensures codewords { IfSome result (λ made. (s : Self.Symbol) → Self.Encoder.codeword made s
            ≡ codeword_in number (book self.now) s) };

    /// Returns the error to report after encoding `symbols` failed. The call needs no memory.
    ///
    /// The error is the first of these whose condition holds:
    ///
    /// - `WrongWeights`: the weights make no Huffman tree of at most `2^62 - 1` symbols.
    /// - `ImpossibleSymbol`: a symbol has no codeword.
    /// - `NoMemory`: the call returns this error in all other cases.
    fn encode_refusal(&self, symbols: &[Self::Symbol]) -> Refusal
        ensures { SymbolEncodeFails number (book self.now) symbols.now result };

    /// Creates the codebook for decoding.
    ///
    /// # Errors
    ///
    /// - `WrongWeights` if and only if the weights make no Huffman tree of at most `2^63 - 1` symbols.
    /// - `NoMemory` if there is no memory.
    fn decoder(&self, alloc: Global) -> Result<Self::Decoder, Refusal>
        ensures asks { Asks WrongWeights (MakesCode (2 ^ 63 - 1) (book self.now)) (Otherwise OnlyNoMemory) result }
        ensures codewords { IfOk result (λ made. (s : Self.Symbol) → Self.Decoder.codeword made s
            ≡ codeword_in number (book self.now) s) }
        ensures cut { IfOk result (λ made. (bits : List Bool) → Self.Decoder.reads_on made bits
            → IsCutOff (book self.now) bits) }
        ensures wrong { IfOk result (λ made. (bits : List Bool) (e : Self.Wrong) → Self.Decoder.is_invalid made bits e
            → IsWrong (book self.now) bits) };
}
