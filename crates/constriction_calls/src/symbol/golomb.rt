//! The implementation of [`crate::symbol::Codes`] for Exp-Golomb codewords. Every value of `Symbol` has a codeword.

ghost use Rattle.constriction_calls.specs.SymbolCalls.{OfNumbers};

use crate::symbol::Codes;
use constriction_inputs::refusal::Refusal;
use constriction_symbol::exp_golomb::{ExpGolomb, InvalidCodeword};
use constriction_words::BitArray;
use std::alloc::Global;

impl<N: BitArray> Codes for ExpGolomb<N> {
    type Symbol = N;

    type Encoder = ExpGolomb<N>;

    type Decoder = ExpGolomb<N>;

    type Wrong = InvalidCodeword;

    ghost book = { λ _. OfNumbers N.BITS };

    ghost number = { N.number };

    fn encoder(&self, _alloc: Global) -> Option<ExpGolomb<N>> {
        Some(ExpGolomb::new())
    }

    fn encode_refusal(&self, _symbols: &[N]) -> Refusal {
        Refusal::NoMemory
    }

    fn decoder(&self, _alloc: Global) -> Result<ExpGolomb<N>, Refusal> {
        Ok(ExpGolomb::new())
    }
}
