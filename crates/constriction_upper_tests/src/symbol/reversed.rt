//! A codebook that finds its codeword from the last bit to the first, for tests of `reverse_codeword`.
//!
//! Reversing up to 128 bits allocates no memory. Reversing more bits fails if there is no memory.

ghost use Rattle.constriction_symbol.specs.Codewords.{Emits};
ghost use Rattle.constriction_symbol.specs.Reversed.{IsLongerThan};
ghost use Rattle.constriction_upper_tests.specs.Lone.{lone, lone_suffix};
ghost use Rattle.std.specs.Prelude.{refl, ◌*◌};

use constriction_base::cursor::Cursor;
use constriction_base::errors::{BoundedWriteError, CoderError, DefaultEncoderError};
use constriction_symbol::codebooks::{Codebook, EncoderCodebook};
use constriction_symbol::coder::QueueEncoder;
use constriction_symbol::reversed::{SuffixCodebook, reverse_codeword};
use constriction_symbol::writing::WriteBitStream;
use std::alloc::{AllocError, Global};
use std::test::Fail;

/// A codebook with one symbol. The codeword is a 1 and then `zeros` zeros.
#[derive(Drop)]
struct Lone {
    alloc: Global,
    zeros: u32,
}

impl Codebook for Lone {
    type Symbol = ();

    ghost codeword = { λ c _. lone c.zeros };

    ghost is_same = { λ _ _ _. Unit {0} };

    ghost same_law = { λ _ _ _ _. refl };

    ghost prefix_law = { λ _ _ _ _ _ _ _. tt };
}

impl EncoderCodebook for Lone {
    ghost prefix_wants = { λ c _. IsLongerThan (2 * 64) (lone c.zeros) };

    ghost suffix_wants = { λ _ _. ⊥ };

    fn encode_symbol_prefix<E: From<AllocError>, F: FnMut(bool) -> Result<(), E>>(
        &self,
        symbol: &(),
        emit: &mut F,
    ) -> Result<(), DefaultEncoderError<E>> {
        reverse_codeword(self.alloc, self, symbol, emit)
    }

    fn encode_symbol_suffix<E: From<AllocError>, F: FnMut(bool) -> Result<(), E>>(
        &self,
        symbol: &(),
        emit: &mut F,
    ) -> Result<(), DefaultEncoderError<E>> {
        self.emit_suffix(symbol, emit)
    }
}

impl SuffixCodebook for Lone {
    fn emit_suffix<E, F: FnMut(bool) -> Result<(), E>>(
        &self,
        _symbol: &(),
        emit: &mut F,
    ) -> Result<(), DefaultEncoderError<E>> {
        emit_lone(self.zeros, emit)
    }
}

/// Emits `zeros` zeros, and then a 1.
fn emit_lone<E, F: FnMut(bool) -> Result<(), E>>(
    zeros: u32,
    emit: &mut F,
) -> Result<(), DefaultEncoderError<E>>
    requires { F.IsAlwaysCallable emit.old }
    ensures { Emits F.FnMut emit.old (lone_suffix zeros) result emit.new }
{
    for _index in 0..zeros {
        match emit(false) {
            Ok(()) => {}
            Err(error) => return Err(CoderError::Backend(error)),
        }
    }
    match emit(true) {
        Ok(()) => Ok(()),
        Err(error) => Err(CoderError::Backend(error)),
    }
}

/// Writes a codeword of `zeros + 1` bits to a queue over a buffer, and checks the words.
///
/// Returns an error if the words are wrong or the write fails. If there is no memory and no bit was written, the error
/// reports both facts.
pub fn turned_round(alloc: Global, zeros: u32) -> Result<(), Fail> {
    let mut words = [0u64; 3];
    let mut coder: QueueEncoder<u64, Cursor<u64, &mut [u64]>> = QueueEncoder::from_compressed(
        Cursor::new_at_write_beginning(words.as_mut_slice()),
    );
    match coder.encode_symbol(&(), Lone { alloc, zeros }) {
        Ok(()) => {
            if coder.into_compressed().is_err() || words != [1u64, 0, 0] {
                return Err(Fail::from("other bits"));
            }
            Ok(())
        }
        Err(CoderError::Backend(BoundedWriteError::Memory)) if coder.is_empty() => Err(Fail::from(
            "want of memory, and nothing was written",
        )),
        Err(_) => Err(Fail::from("another error")),
    }
}
