//! Decoding lists of symbols from their codewords.

ghost use Rattle.constriction_base.specs.declared.errors.CoderError.TheVariants.{Frontend};
ghost use Rattle.constriction_laws.specs.declared.errors.Stopped.TheVariants.{Refused};
ghost use Rattle.constriction_symbol.specs.declared.codebooks.SymbolCodeError.{SymbolCodeError};
ghost use Rattle.constriction_laws.specs.symbol.Refusals.{NoCodewordsBegin};
ghost use Rattle.constriction_laws.specs.symbol.Pairs.{ComeBackUnder, ComeBackUnderEach, StopsUnder};
ghost use Rattle.std.specs.Prelude.{Bool, List, ◌++◌, ◌≡◌, ℕ};

use constriction_base::backends::Semantics;
use constriction_symbol::codebooks::DecoderCodebook;
use constriction_symbol::reading::ReadBitStream;

/// Decoding a stream whose bits begin with the codewords of symbols returns these symbols.
///
/// The law requires that the stream behaves as a fixed list of bits (`is_list`). All symbols have the same codebook. A
/// decode may return another symbol that means the same (`is_same`). Each decode reads exactly one codeword.
pub fn symbols_come_back<S: Semantics, R: ReadBitStream<S>, C: DecoderCodebook>()
    requires { R.is_list }
    ensures { (codebook : C) (symbols again : List C.Symbol) (code rest : List Bool) (old new : R) → ComeBackUnder
        R.gives R.unread C.codeword C.reads_on C.is_invalid C.is_same codebook symbols again code rest old new }
{}

/// Decoding codewords, each with its own codebook, returns their symbols.
///
/// The law requires that the stream behaves as a fixed list of bits (`is_list`). The unread bits begin with the
/// codewords of `symbols`, one codebook for each symbol. The decodes use the same codebooks in order, and read exactly
/// these codewords. A decode may return another symbol that means the same (`is_same`).
pub fn mixed_symbols_come_back<S: Semantics, R: ReadBitStream<S>, C: DecoderCodebook>()
    requires { R.is_list }
    ensures { (codebooks : List C) (symbols again : List C.Symbol) (code rest : List Bool) (old new : R) →
        ComeBackUnderEach R.gives R.unread C.codeword C.reads_on C.is_invalid C.is_same codebooks symbols again code
        rest old new }
{}

/// If decoding `amt` symbols stops with the codebook's error, the unread bits don't begin with `amt` codewords.
///
/// The law requires that the stream behaves as a fixed list of bits (`is_list`). All symbols have the same codebook. In
/// the contract, `bits` is any prefix of the unread bits.
pub fn refused_where_none_begin<S: Semantics, R: ReadBitStream<S>, C: DecoderCodebook>()
    requires { R.is_list }
    ensures { (codebook : C) (amt : ℕ) (bits tail : List Bool) (old new : R) (e : SymbolCodeError C.InvalidCodeword) →
        R.unread old ≡ bits ++ tail → StopsUnder R.gives C.codeword C.reads_on C.is_invalid codebook amt old (Refused
        (Frontend e)) new → NoCodewordsBegin (C.codeword codebook) amt bits }
{}
