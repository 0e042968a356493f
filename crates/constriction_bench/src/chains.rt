//! The measured loops of the chain coder.
//!
//! The loops are inlined into functions of `u32` and `u16`, which are generic in the model. These functions aren't
//! inlined, so that no constant of a caller changes the code of a loop. Decodes take models by value, so that a model's
//! fields can stay in registers. Encodes take them by reference, because they need the registers for more numbers.

pub mod u16;
pub mod u32;

use constriction_base::backends::{ReadWords, Stack, WriteWords};
use constriction_base::model::{DecoderModel, EncoderModel, EntropyModel};
use constriction_chain::ChainCoder;
use constriction_stream::decoding::Decode;
use constriction_stream::encoding::Encode;
use constriction_words::{BitArray, WordOf};

/// Fills `symbols` with symbols decoded from `coder`. Returns `false` if a decode fails.
#[inline(always)]
pub fn decode_each<
    Word: WordOf<State>,
    State: BitArray,
    C: ReadWords<Word, Stack>,
    R: WriteWords<Word>,
    M: DecoderModel<PRECISION, Symbol = usize>,
    const PRECISION: usize,
>(coder: &mut ChainCoder<Word, State, C, R, PRECISION>, symbols: &mut [usize], model: &M) -> bool
where
    C::ReadError: Drop,
    R::WriteError: Drop,
    M::Probability: WordOf<Word>,
{
    for symbol in symbols.iter_mut() {
        match coder.decode_symbol(model) {
            Ok(decoded) => *symbol = decoded,
            Err(_) => return false,
        }
    }
    true
}

/// Encodes symbols from the last to the first with `coder`. Returns `false` if an encode fails.
#[inline(always)]
pub fn encode_each<
    Word: WordOf<State>,
    State: BitArray,
    C: WriteWords<Word>,
    R: ReadWords<Word, Stack>,
    M: EncoderModel<PRECISION, Symbol = usize>,
    const PRECISION: usize,
>(coder: &mut ChainCoder<Word, State, C, R, PRECISION>, symbols: &[usize], model: &M) -> bool
where
    C::WriteError: Drop,
    R::ReadError: Drop,
    M::Probability: WordOf<Word>,
{
    for place in 0..symbols.len() {
        if coder
            .encode_symbol(&symbols[symbols.len() - 1 - place], model)
            .is_err()
        {
            return false;
        }
    }
    true
}
