//! Callers that use the laws of backends, over any backend and at concrete types.

ghost use Rattle.std.specs.Prelude.{◌≡◌, ◌↔◌, ◌≤◌, false, length, vec_len, IsOk, OnErr, IfErr};

use constriction_base::backends::{
    CountsWords, Pos, Seek, SeeksBack, WriteWords, written_to_queue,
};
use constriction_base::cursor::Cursor;
use std::alloc::Allocator;

/// Seeks to the current position. The seek always succeeds.
pub fn goes_where_it_stands<B: SeeksBack>(backend: &mut B) -> Result<(), ()>
    requires { B.can_tell backend.old }
    ensures { IsOk result }
{
    let place = backend.pos();
    backend.seek(place)
}

/// Returns the backend's position, which equals the number of words in the backend.
pub fn words_before<Word, B: CountsWords<Word>>(backend: &B) -> usize
    ensures { result ≡ length (B.words backend.now) }
{
    backend.pos()
}

/// Prepares one write on a backend for which `seems_full` is false. The error, if any, isn't a lack of room.
pub fn asks_for_one<Word, B: WriteWords<Word>>(backend: &mut B) -> Result<(), B::WriteError>
    requires { B.seems_full backend.old ≡ false }
    ensures { IfErr result (λ e. B.is_lack_of_room e → ⊥) }
{
    match backend.prepare(1) {
        Ok(()) => Ok(()),
        Err(error) => Err(error),
    }
}

/// Seeks to `place` in a vector. Succeeds if and only if `place` is at most the vector's length.
///
/// An error leaves the vector unchanged.
pub fn vector_goes<A: Allocator>(words: &mut Vec<u32, A>, place: usize) -> Result<(), ()>
    ensures variant { IsOk result ↔ (place ≤ vec_len words.old) }
    ensures kept { OnErr result (words.new ≡ words.old) }
{
    match words.seek(place) {
        Ok(()) => Ok(()),
        Err(()) => Err(()),
    }
}

/// Seeks to `place` in a cursor. Succeeds if and only if `place` is at most the buffer's length.
///
/// An error leaves the cursor unchanged.
pub fn cursor_goes(words: &mut Cursor<u32, &[u32]>, place: usize) -> Result<(), ()>
    ensures variant { IsOk result ↔ (place ≤ length words.old.buf.now) }
    ensures kept { OnErr result (words.new ≡ words.old) }
{
    match words.seek(place) {
        Ok(()) => Ok(()),
        Err(()) => Err(()),
    }
}

/// Turns a vector into a cursor at position 0. The cursor reads the words in the order in which they were written.
pub fn vector_as_queue<A: Allocator>(words: Vec<u32, A>) -> Cursor<u32, Vec<u32, A>>
    ensures place { result.pos ≡ 0 }
    ensures buffer { result.buf ≡ words }
{
    written_to_queue::<u32, Vec<u32, A>>(words)
}
