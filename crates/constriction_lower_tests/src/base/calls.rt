//! Test helpers that call a backend of `u32` words and return whether the outcome is the expected one.

use constriction_base::backends::{
    BoundedReadWords, Pos, PosSeek, Queue, ReadWords, Seek, Stack, WriteWords,
};

/// Reads one word from the backend as a stack. Returns whether the read succeeds with `expected`.
///
/// If `expected` is `None`, the read must find no word.
pub fn pops<B: ReadWords<u32, Stack>>(backend: &mut B, expected: Option<u32>) -> bool
where
    B::ReadError: Drop,
{
    match backend.read() {
        Ok(word) => word == expected,
        Err(_) => false,
    }
}

/// Reads one word from the backend as a queue. Returns whether the read succeeds with `expected`.
///
/// If `expected` is `None`, the read must find no word.
pub fn takes<B: ReadWords<u32, Queue>>(backend: &mut B, expected: Option<u32>) -> bool
where
    B::ReadError: Drop,
{
    match backend.read() {
        Ok(word) => word == expected,
        Err(_) => false,
    }
}

/// Returns what `maybe_exhausted` returns for the backend, read as a stack.
pub fn seems_popped<B: ReadWords<u32, Stack>>(backend: &B) -> bool {
    backend.maybe_exhausted()
}

/// Returns what `maybe_exhausted` returns for the backend, read as a queue.
pub fn seems_taken<B: ReadWords<u32, Queue>>(backend: &B) -> bool {
    backend.maybe_exhausted()
}

/// Returns whether `remaining` and `is_exhausted` agree that the backend, read as a stack, has `count` words.
pub fn stacks<B: BoundedReadWords<u32, Stack>>(backend: &B, count: usize) -> bool {
    backend.remaining() == count && backend.is_exhausted() == (count == 0)
}

/// Returns whether `remaining` and `is_exhausted` agree that the backend, read as a queue, has `count` words.
pub fn queues<B: BoundedReadWords<u32, Queue>>(backend: &B, count: usize) -> bool {
    backend.remaining() == count && backend.is_exhausted() == (count == 0)
}

/// Writes `word`. Returns whether the write succeeds.
pub fn puts<B: WriteWords<u32>>(backend: &mut B, word: u32) -> bool
where
    B::WriteError: Drop,
{
    backend.write(word).is_ok()
}

/// Prepares `count` writes. Returns whether the call succeeds.
pub fn prepares<B: WriteWords<u32>>(backend: &mut B, count: usize) -> bool
where
    B::WriteError: Drop,
{
    backend.prepare(count).is_ok()
}

/// Returns what `maybe_full` returns for the backend.
pub fn seems_full<B: WriteWords<u32>>(backend: &B) -> bool {
    backend.maybe_full()
}

/// Writes 0, 1, .. until a write is refused or 1000 words are written. Returns the number of words written.
pub fn filled<B: WriteWords<u32>>(backend: &mut B) -> u32
where
    B::WriteError: Drop,
{
    for count in 0..1000u32 {
        if !puts(backend, count) {
            return count;
        }
    }
    1000
}

/// Returns whether the backend is at `position`.
pub fn stands<B: Pos + PosSeek<Position = usize>>(backend: &B, position: usize) -> bool
    requires { B.can_tell backend.now }
{
    backend.pos() == position
}

/// Seeks to `position`. Returns whether the seek succeeds.
pub fn seeks<B: Seek + PosSeek<Position = usize>>(backend: &mut B, position: usize) -> bool {
    backend.seek(position).is_ok()
}
