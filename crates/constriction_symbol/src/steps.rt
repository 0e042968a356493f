//! Appends bits to a coder, and removes bits from it.
//!
//! A coder holds its bits in the words of its backend, and in one more word, `last`, outside the backend.

ghost use Rattle.constriction_base.specs.Backends.{IsWrite};
ghost use Rattle.constriction_base.specs.Iterators.{item_of_answer};
ghost use Rattle.constriction_symbol.specs.Bits.{YieldsFirstBit, YieldsLastBit, PutsLast, PutsLowest, FirstBitRead};
ghost use Rattle.constriction_symbol.specs.Bits.{LastBitRead};
ghost use Rattle.std.specs.Prelude.{length, ◌+◌, ◌<◌, ◌^◌};

use crate::top_bits::TopBits;
use crate::word_bits::WordBits;
use constriction_base::backends::{Queue, ReadWords, Stack, WriteWords};
use constriction_words::BitArray;

/// Appends `bit` to `last`, the word outside the backend.
///
/// If `last` is full, the call first writes `last` to the backend, and `bit` begins the next word. If the backend
/// refuses the word, the call returns the backend's error, and `last` is unchanged.
#[inline]
pub fn put_last<Word: BitArray, B: WriteWords<Word>>(
    backend: &mut B,
    last: &mut TopBits<Word>,
    bit: bool,
) -> Result<(), B::WriteError>
    ensures { PutsLast Word.BITS Word.number (IsWrite B.words B.room B.writes B.write_fails)
        last.old backend.old bit result last.new backend.new }
{
    if last.is_full() {
        backend.write(last.word())?;
        *last = TopBits::none();
        last.push(bit);
        return Ok(());
    }
    last.push(bit);
    Ok(())
}

/// Appends the lowest `count` bits of `bits` to `last`, the word outside the backend, lowest first.
///
/// If `last` has no room for all of them, the first bits fill `last`. The call then writes the full word to the
/// backend, and the remaining bits begin the next word. If the backend refuses the word, the call returns the backend's
/// error, and `last` keeps the bits that filled it. The caller proves that `0 < count < Word::BITS`, and that all
/// higher bits of `bits` are 0.
#[inline]
pub fn put_bits<Word: BitArray, B: WriteWords<Word>>(
    backend: &mut B,
    last: &mut TopBits<Word>,
    bits: Word,
    count: u32,
) -> Result<(), B::WriteError>
    requires some { 0 < count }
    requires part { count < Word.BITS }
    requires small { Word.number bits < 2 ^ count }
    ensures { PutsLowest Word.BITS Word.number (IsWrite B.words B.room B.writes B.write_fails)
        last.old backend.old count bits result last.new backend.new }
{
    if count <= last.room() {
        last.push_all(bits, count);
        return Ok(());
    }
    put_across(backend, last, bits, count)
}

/// Appends the lowest `count` bits of `bits`, lowest first, to the word `last` and the next word.
///
/// The call fills `last` and writes the full word to the backend. The remaining bits begin the next word. If the
/// backend refuses the word, the call returns the backend's error, and `last` stays full. The caller proves that the
/// bits don't all fit in `last`, and that `count` is below `Word::BITS`. The caller also proves that all higher bits
/// of `bits` are 0.
#[inline]
fn put_across<Word: BitArray, B: WriteWords<Word>>(
    backend: &mut B,
    last: &mut TopBits<Word>,
    bits: Word,
    count: u32,
) -> Result<(), B::WriteError>
    requires across { Word.BITS < length last.old + count }
    requires part { count < Word.BITS }
    requires small { Word.number bits < 2 ^ count }
    ensures { PutsLowest Word.BITS Word.number (IsWrite B.words B.room B.writes B.write_fails)
        last.old backend.old count bits result last.new backend.new }
{
    let room = last.room();
    last.fill(bits);
    match backend.write(last.word()) {
        Ok(()) => {}
        Err(error) => return Err(error),
    }
    *last = TopBits::none();
    last.push_all(bits.shift_right(room), count - room);
    Ok(())
}

/// Removes the last bit of a stack and returns it, or returns `None` if no bit is left.
///
/// The bit comes from `last`, the word outside the backend. If `last` is empty, the call first reads the next word
/// from the backend into `last`. If that read fails, the call returns the backend's error.
#[inline]
pub fn take_last<Word: BitArray, B: ReadWords<Word, Stack>>(
    backend: &mut B,
    last: &mut TopBits<Word>,
) -> Result<Option<bool>, B::ReadError>
    ensures takes { LastBitRead Word.BITS Word.number B.reads
        last.old backend.old (item_of_answer result) last.new backend.new }
    ensures bits { B.is_list → YieldsLastBit Word.BITS Word.number B.words
        last.old backend.old (item_of_answer result) last.new backend.new }
{
    if last.is_empty() {
        match backend.read()? {
            None => return Ok(None),
            Some(word) => {
                *last = TopBits::all(word);
                return Ok(Some(last.pop()));
            }
        }
    }
    Ok(Some(last.pop()))
}

/// Removes the first bit of a queue and returns it, or returns `None` if no bit is left.
///
/// The bit comes from `last`, the word outside the backend. If `last` is empty, the call first reads the next word
/// from the backend into `last`. If that read fails, the call returns the backend's error.
#[inline]
pub fn take_first<Word: BitArray, B: ReadWords<Word, Queue>>(
    backend: &mut B,
    last: &mut WordBits<Word>,
) -> Result<Option<bool>, B::ReadError>
    ensures takes { FirstBitRead Word.BITS Word.number B.reads
        last.old backend.old (item_of_answer result) last.new backend.new }
    ensures bits { B.is_list → YieldsFirstBit Word.BITS Word.number B.words
        last.old backend.old (item_of_answer result) last.new backend.new }
{
    if last.is_empty() {
        match backend.read()? {
            None => return Ok(None),
            Some(word) => return Ok(Some(last.refill(word))),
        }
    }
    Ok(Some(last.take_first()))
}
