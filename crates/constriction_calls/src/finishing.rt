//! The end of an encode: appending its words to the caller's, and setting the numbers that the caller keeps.

ghost use Rattle.std.specs.Prelude.{◌≡◌, ◌+◌, ◌<◌, ◌≤◌, ◌⊎◌, ◌^◌, length, IfErr, OnErr, OnOk};
ghost use Rattle.constriction_inputs.specs.Buffers.{Appended};
ghost use Rattle.constriction_inputs.specs.declared.refusal.Refusal.TheVariants as refusals;

use constriction_inputs::buffers::append;
use constriction_inputs::refusal::Refusal;
use constriction_words::BitArray;

/// Appends words to the first `len` words of `words`, and then sets `kept` to `numbers`.
///
/// # Errors
///
/// The call returns the errors of [`append`]. A call that fails changes nothing.
#[inline]
pub(crate) fn finish_encoding<Word: BitArray, Numbers: Copy + Drop>(
    added: &[Word],
    numbers: Numbers,
    kept: &mut Numbers,
    words: &mut [Word],
    len: &mut usize,
) -> Result<(), Refusal>
    requires { len.now ≤ length words.now }
    ensures ok { OnOk result ((kept.new ≡ numbers) × Appended words.old len.old added.now words.new len.new) }
    ensures err { IfErr result (λ e. (e ≡ refusals.NoSpace (len.old + length added.now))
        ⊎ ((e ≡ refusals.NoMemory) × (2 ^ 64 ≤ len.old + length added.now))) }
    ensures full { OnErr result (length words.old < len.old + length added.now) }
    ensures kept { OnErr result ((kept.new ≡ kept.old) × (words.new ≡ words.old) × (len.new ≡ len.old)) }
{
    append(added, words, len)?;
    *kept = numbers;
    Ok(())
}
