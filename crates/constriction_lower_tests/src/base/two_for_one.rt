//! A caller over any backend, which reads a word and writes two words in its place.

ghost use Rattle.std.specs.Prelude.{◌≡◌, ◌+◌, ◌-◌, ◌<◌, ◌≤◌, ◌∷◌, ◌⊎◌, Option, Result, Ok, Err, Some, None};
ghost use Rattle.std.specs.Prelude.{OnOk, OnErr, IfOk, IfErr, length, reverse, take, drop, slice_get};
ghost use Rattle.constriction_lower_tests.specs.declared.base.two_for_one.Refusal.TheVariants as refusal;
ghost use Rattle.constriction_base.specs.declared.errors.BoundedWriteError.TheVariants.{OutOfSpace};

use constriction_base::backends::{ReadWords, Stack, WriteWords};
use constriction_base::cursor::Cursor;
use constriction_base::errors::BoundedWriteError;
use constriction_words::BitArray;
use std::alloc::{AllocError, Allocator};

/// The backend's call that failed in [`two_for_one`], with its error. `Prepare` also has the result of the read.
#[derive(Debug, Drop)]
pub enum Refusal<Word, ReadError, WriteError> {
    Read(ReadError),
    Prepare(Option<Word>, WriteError),
    First(WriteError),
    Second(WriteError),
}

/// Reads the next word, and writes `below` and then `above` in its place.
///
/// Returns the word that was read, or `None` if the read found no word. Stops at the first call of the backend that
/// fails, and returns its [`Refusal`].
pub fn two_for_one<Word: BitArray, Backend: ReadWords<Word, Stack> + WriteWords<Word>>(
    backend: &mut Backend,
    below: Word,
    above: Word,
) -> Result<Option<Word>, Refusal<Word, Backend::ReadError, Backend::WriteError>>
    ensures ok { IfOk result (λ taken. (taken ≡ slice_get (Backend.words backend.old) 0)
        × (Backend.words backend.new ≡ above ∷ below ∷ drop 1 (Backend.words backend.old))) }
    ensures read { (e : Backend.ReadError) → result ≡ Err (refusal.Read e)
        → Backend.words backend.new ≡ Backend.words backend.old }
    ensures prepare { (taken : Option Word) (e : Backend.WriteError) → result ≡ Err (refusal.Prepare taken e) →
        (Backend.words backend.new ≡ drop 1 (Backend.words backend.old))
        × ((left : Backend) × Backend.reads backend.old (Ok taken) left × Backend.prepare_fails left 2 e
        × (Backend.room left ≤ Backend.room backend.new)) }
    ensures first { (e : Backend.WriteError) → result ≡ Err (refusal.First e) →
        (Backend.words backend.new ≡ drop 1 (Backend.words backend.old))
        × ((left : Backend) × (taken : Option Word) × Backend.reads backend.old (Ok taken) left
        × Backend.write_fails left e × (Backend.room left ≡ 0)) }
    ensures second { (e : Backend.WriteError) → result ≡ Err (refusal.Second e) →
        (Backend.words backend.new ≡ below ∷ drop 1 (Backend.words backend.old))
        × ((left : Backend) × (last : Backend) × (taken : Option Word) × Backend.reads backend.old (Ok taken) left
        × Backend.write_fails last e × (Backend.room left ≤ 1)) }
    ensures made { Backend.makes_room → (e : Backend.WriteError)
        → ((result ≡ Err (refusal.First e)) ⊎ (result ≡ Err (refusal.Second e))) → ⊥ }
{
    let taken = match backend.read() {
        Ok(taken) => taken,
        Err(error) => return Err(Refusal::Read(error)),
    };
    if let Err(error) = backend.prepare(2) {
        return Err(Refusal::Prepare(taken, error));
    }
    if let Err(error) = backend.write(below) {
        return Err(Refusal::First(error));
    }
    if let Err(error) = backend.write(above) {
        return Err(Refusal::Second(error));
    }
    Ok(taken)
}

/// Replaces the last word of a vector by `below` and `above`. If there is no memory, the vector is unchanged.
///
/// Returns the replaced word, or `None` if the vector was empty. Only `prepare` can fail. The function then pushes the
/// word that was read, for which the vector still has room.
pub fn two_for_last<A: Allocator>(
    words: &mut Vec<u32, A>,
    below: u32,
    above: u32,
) -> Result<Option<u32>, AllocError>
    ensures ok { OnOk result (reverse words.new.items ≡ above ∷ below ∷ drop 1 (reverse words.old.items)) }
    ensures memory { OnErr result (words.new.items ≡ words.old.items) }
{
    match two_for_one(words, below, above) {
        Ok(taken) => Ok(taken),
        Err(Refusal::Read(never)) => match never {},
        Err(Refusal::Prepare(None, error)) => Err(error),
        Err(Refusal::Prepare(Some(taken), error)) => {
            words.push_reserved(taken);
            Err(error)
        }
        Err(Refusal::First(error)) => Err(error),
        Err(Refusal::Second(error)) => Err(error),
    }
}

/// Replaces the word before a cursor by `below` and `above`. Returns the replaced word.
///
/// If the cursor is at the end of its buffer, only `below` has room. The function then writes `below` and returns
/// `OutOfSpace`. The caller proves that the cursor isn't at the beginning.
pub fn two_for_one_before(
    words: &mut Cursor<u32, &mut [u32]>,
    below: u32,
    above: u32,
) -> Result<Option<u32>, BoundedWriteError>
    requires { 0 < words.old.pos }
    ensures ok { OnOk result (reverse (take words.new.pos words.new.buf.now)
        ≡ above ∷ below ∷ drop 1 (reverse (take words.old.pos words.old.buf.now))) }
    ensures beginning { OnErr result (reverse (take words.new.pos words.new.buf.now)
        ≡ below ∷ drop 1 (reverse (take words.old.pos words.old.buf.now))) }
    ensures full { IfErr result (λ e. (e ≡ OutOfSpace) × (words.old.pos ≡ length words.old.buf.now)) }
{
    // The contract of `buf` says that the position is within the buffer.
    let _buf = words.buf();
    match two_for_one(words, below, above) {
        Ok(taken) => Ok(taken),
        Err(Refusal::Read(never)) => match never {},
        Err(Refusal::Prepare(_, error)) => Err(error),
        Err(Refusal::First(error)) => Err(error),
        Err(Refusal::Second(error)) => Err(error),
    }
}
