//! Functions that encode or decode a list of symbols, each with its own codebook, in one stream of bits.
//!
//! No function here exports or imports words. The contracts of `into_compressed` and `from_compressed` say which words
//! the bits have. The law [`one_stack_of_words`](crate::symbol::words::one_stack_of_words) says that no other bits of
//! a stack have these words.

ghost use Rattle.constriction_symbol.specs.Lists.{AreCodewordsBy, ReadsPairs};
ghost use Rattle.constriction_base.specs.Backends.{IsWrite};
ghost use Rattle.constriction_laws.specs.symbol.Refusals.{StopsAtCodebook};
ghost use Rattle.constriction_laws.specs.symbol.Pairs.{ReturnsWritten, PairsNotStacked, PairsNotWritten};
ghost use Rattle.std.specs.List.{zip};
ghost use Rattle.std.specs.Prelude.{Bool, IfErr, IfOk, List, OnOk, length, reverse, ◌++◌, ◌≡◌};

use crate::errors::Stopped;
use constriction_base::backends::{Queue, Semantics, WriteWords};
use constriction_base::errors::{CoderError, DefaultEncoderError};
use constriction_symbol::codebooks::{DecoderCodebook, EncoderCodebook, SymbolCodeError};
use constriction_symbol::coder::StackCoder;
use constriction_symbol::reading::ReadBitStream;
use constriction_symbol::writing::WriteBitStream;
use constriction_words::BitArray;
use std::alloc::{AllocError, Global};

/// Encodes symbols in order, each with its own codebook, at the end of a stream.
///
/// Calls `encode_symbols`. If the two lists differ in length, the call stops at the end of the shorter list.
///
/// # Errors
///
/// - `Frontend(ImpossibleSymbol)`: a codebook has no codeword for its symbol. The codewords of the symbols before that
///   symbol are written.
/// - `Backend(error)`: the backend refused a word, or there was no memory. The codewords of the symbols before the
///   failing symbol are written. If the backend refused a word, the bits of the failing symbol's codeword before the
///   refused bit are also written.
pub fn encode_pairs<W: WriteBitStream<Queue>, C: EncoderCodebook>(
    stream: &mut W,
    symbols: &[C::Symbol],
    codebooks: &[C],
) -> Result<(), DefaultEncoderError<W::WriteError>>
    ensures words { OnOk result ((code : List Bool) × AreCodewordsBy C.codeword codebooks.now symbols.now code
        × (W.bits stream.new ≡ W.bits stream.old ++ code)) }
    ensures err { IfErr result (λ e. PairsNotWritten W.bits W.puts C.codeword C.prefix_wants W.WriteError.from_gives
        symbols.now codebooks.now stream.old e stream.new) }
{
    WriteBitStream::<Queue>::encode_symbols(stream, symbols.iter().zip(codebooks.iter()))
}

/// Encodes symbols from last to first, each with its own codebook, onto a stack.
///
/// Calls `encode_symbols_reverse`. After the call, reads return the codewords in the order of the list, and then the
/// bits that the stack held before the call. The caller proves that there are as many codebooks as symbols.
///
/// # Errors
///
/// - `Frontend(ImpossibleSymbol)`: a codebook has no codeword for its symbol. The codewords of the symbols after that
///   symbol in the list are written.
/// - `Backend(error)`: the backend refused a word, or there was no memory. The codewords of the symbols after the
///   failing symbol in the list are written. If the backend refused a word, the bits of the failing symbol's suffix
///   form before the refused bit are also written.
pub fn encode_pairs_reverse<Word: BitArray, B: WriteWords<Word>, C: EncoderCodebook>(
    coder: &mut StackCoder<Word, B>,
    symbols: &[C::Symbol],
    codebooks: &[C],
) -> Result<(), DefaultEncoderError<B::WriteError>>
where
    B::WriteError: From<AllocError>,
    requires { length symbols.now ≡ length codebooks.now }
    ensures words { OnOk result ((code : List Bool) × AreCodewordsBy C.codeword codebooks.now symbols.now code
        × (reverse coder.new.bits ≡ code ++ reverse coder.old.bits)) }
    ensures err { IfErr result (λ e. PairsNotStacked Word.BITS Word.number (IsWrite B.words B.room B.writes
        B.write_fails) C.codeword C.suffix_wants B.WriteError.from_gives symbols.now codebooks.now coder.old e
        coder.new) }
{
    coder.encode_symbols_reverse(symbols.iter().zip(codebooks.iter()))
}

/// Decodes one symbol for each codebook, with [`ReadBitStream::decode_symbols`].
///
/// Suppose that the stream behaves as a fixed list of bits (`is_list`). If the unread bits begin with one codeword of
/// each codebook, in order, the call reads exactly these codewords and returns their symbols. The call may return
/// another symbol that means the same (`is_same`).
///
/// # Errors
///
/// - `Refused(error)`: a decode returned this error before all symbols were decoded.
/// - `NoMemory`: there was no memory for the symbols.
pub fn decode_pairs<S: Semantics, R: ReadBitStream<S>, C: DecoderCodebook>(
    alloc: Global,
    stream: &mut R,
    codebooks: &[C],
) -> Result<Vec<C::Symbol>, Stopped<CoderError<SymbolCodeError<C::InvalidCodeword>, R::ReadError>>>
where
    R::ReadError: Drop,
    C::Symbol: Drop,
    C::InvalidCodeword: Drop,
    ensures count { IfOk result (λ symbols. length symbols.items ≡ length codebooks.now) }
    ensures steps { IfOk result (λ symbols. ReadsPairs R.gives C.codeword C.reads_on C.is_invalid
        (zip symbols.items codebooks.now) stream.old stream.new) }
    ensures back { R.is_list → ReturnsWritten C.codeword C.is_same R.unread codebooks.now stream.old result stream.new }
    ensures err { IfErr result (λ e. StopsAtCodebook R.gives C.codeword C.reads_on C.is_invalid
        codebooks.now stream.old e stream.new) }
{
    let mut symbols = Vec::new(alloc);
    for answer in stream.decode_symbols(codebooks) {
        let symbol = match answer {
            Ok(symbol) => symbol,
            Err(error) => return Err(Stopped::Refused(error)),
        };
        let Ok(()) = symbols.push(symbol) else {
            return Err(Stopped::NoMemory);
        };
    }
    Ok(symbols)
}
