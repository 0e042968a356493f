//! [`append`]: appends words to a caller's buffer, whose first words are in use.

ghost use Rattle.std.specs.Prelude.{◌≡◌, ◌+◌, ◌<◌, ◌≤◌, ◌⊎◌, ◌^◌, length, OnOk, OnErr, IfErr};
ghost use Rattle.constriction_inputs.specs.Buffers.{Appended};
ghost use Rattle.constriction_inputs.specs.declared.refusal.Refusal.TheVariants as refusals;

use crate::refusal::Refusal;
use constriction_words::BitArray;

/// Writes the words of `added` after the first `len` words of `buffer`, and increases `len` by the length of `added`.
///
/// The caller proves that `len` is at most the length of the buffer.
///
/// # Errors
///
/// After an error, `buffer` and `len` are unchanged.
///
/// - `NoSpace(needed)`: the buffer is too short. `needed` is the number of words that the buffer has to hold.
/// - `NoMemory`: the number of words that the buffer has to hold doesn't fit a `usize`, so no buffer is long enough.
///
/// # Examples
///
/// ```
/// let mut buffer = [7u32, 0, 0];
/// let mut len = 1;
/// append(&[8, 9], &mut buffer, &mut len)?; // the buffer is [7, 8, 9], and `len` is 3
/// ```
pub fn append<Word: BitArray>(
    added: &[Word],
    buffer: &mut [Word],
    len: &mut usize,
) -> Result<(), Refusal>
    requires { len.now ≤ length buffer.now }
    ensures ok { OnOk result (Appended buffer.old len.old added.now buffer.new len.new) }
    ensures err { IfErr result (λ e. (e ≡ refusals.NoSpace (len.old + length added.now))
        ⊎ ((e ≡ refusals.NoMemory) × (2 ^ 64 ≤ len.old + length added.now))) }
    ensures full { OnErr result (length buffer.old < len.old + length added.now) }
    ensures kept { OnErr result ((buffer.new ≡ buffer.old) × (len.new ≡ len.old)) }
{
    if added.len() == 0 {
        return Ok(());
    }
    let Some(end) = len.checked_add(added.len()) else {
        return Err(Refusal::NoMemory);
    };
    if end > buffer.len() {
        return Err(Refusal::NoSpace(end));
    }
    if added.len() == 1 {
        buffer[*len] = added[0];
    } else {
        buffer[*len..end].copy_from_slice(added);
    }
    *len = end;
    Ok(())
}
