//! Sealing the words of an encoder.

ghost use Rattle.std.specs.Prelude.{◌≡◌, ◌/◌, [], length};
ghost use Rattle.constriction_base.specs.Steps.{IsSizes};
ghost use Rattle.constriction_queue.specs.Range.{sealed};
ghost use Rattle.constriction_calls.specs.RangeCalls.{ValidEncoder, IsSealed, IsSelfSealed, RangeSealsBy};
ghost use Rattle.constriction_calls.specs.RangeCalls.{run_of_parts};

use crate::range::parts::{EncoderParts, encoder_over};
use constriction_inputs::buffers::append;
use constriction_inputs::refusal::Refusal;
use constriction_words::{BitArray, WordOf};
use std::alloc::Global;

/// Writes an encoder's pending words, and a seal, after the first `len` words of `buffer`.
///
/// The call increases `len` by the number of words that it writes. Pass the buffer's first `len` words to a decoder.
///
/// # Errors
///
/// The call first checks for the errors of [`crate::range`]. Then it can return these:
///
/// - `NoSpace(needed)` if and only if the buffer is too short. `needed` is the number of words that the buffer has to
///   hold. The call checks the buffer's length before it asks for memory.
/// - `NoMemory` if there is no memory.
pub fn into_compressed<Word: WordOf<State>, State: BitArray>(
    alloc: Global,
    encoder: &EncoderParts<Word, State>,
    buffer: &mut [Word],
    len: &mut usize,
) -> Result<(), Refusal>
    requires { IsSizes Word.BITS State.BITS }
    ensures call { RangeSealsBy Word.Natural State.Natural IsSealed
        encoder.now buffer.old len.old buffer.new len.new result }
{
    if *len > buffer.len() {
        return Err(Refusal::WrongLength);
    }
    let Some(made) = encoder_over(Vec::new(alloc), *encoder, 0) else {
        return Err(Refusal::InvalidData);
    };
    let count = sealed_count(alloc, *encoder);
    if count > buffer.len() - *len {
        return Err(Refusal::NoSpace(len.saturating_add(count)));
    }
    match made.into_compressed() {
        Ok(added) => append(&added, buffer, len),
        Err(_) => Err(Refusal::NoMemory),
    }
}

/// Returns the number of words that sealing an encoder writes: the pending words, and the words of the seal.
fn sealed_count<Word: WordOf<State>, State: BitArray>(
    alloc: Global,
    parts: EncoderParts<Word, State>,
) -> usize
    requires sizes { IsSizes Word.BITS State.BITS }
    requires kept { ValidEncoder Word.number State.number Word.BITS State.BITS parts }
    ensures { result ≡ length (sealed Word.BITS State.BITS
        (run_of_parts Word.number State.number Word.BITS State.BITS parts [])) }
{
    let held = parts.held.min(1);
    let Some(encoder) = encoder_over(Vec::new(alloc), EncoderParts { held, ..parts }, 0) else {
        unreachable!()
    };
    parts.held - held + encoder.num_words()
}

/// Writes an encoder's pending words, and a self-delimiting seal, after the first `len` words of `buffer`.
///
/// The call increases `len` by the number of words that it writes. A decoder of the buffer's first `len` words returns
/// the encoded symbols, even if any other words follow.
///
/// The caller proves that `State` is two words wide. Then this call writes the same words as [`into_compressed`]. It
/// counts these words without memory, so it checks the length of the buffer before it asks for memory.
///
/// # Errors
///
/// The call returns the errors of [`into_compressed`].
pub fn into_self_delimited<Word: WordOf<State>, State: BitArray>(
    alloc: Global,
    encoder: &EncoderParts<Word, State>,
    buffer: &mut [Word],
    len: &mut usize,
) -> Result<(), Refusal>
    requires sizes { IsSizes Word.BITS State.BITS }
    requires two_words { State.BITS / Word.BITS ≡ 2 }
    ensures call { RangeSealsBy Word.Natural State.Natural IsSelfSealed
        encoder.now buffer.old len.old buffer.new len.new result }
{
    into_compressed(alloc, encoder, buffer, len)
}
