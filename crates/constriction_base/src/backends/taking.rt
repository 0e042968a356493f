//! Removing words that were written to a backend.

ghost use Rattle.std.specs.Prelude.{◌≡◌, drop};
ghost use Rattle.constriction_base.specs.Readings.{NeverRefused, ReadsUpTo};

use crate::backends::reading::ReadWords;
use crate::backends::semantics::Stack;
use crate::backends::writing::WriteWords;

/// Removes the next `count` words from the backend `bulk` by reading them.
///
/// If a read fails, the call makes no further read. If no read can fail, the call removes exactly the next `count`
/// words, or all words if fewer are left. A coder's guard (an object that lends the coder's exported data) calls
/// `take_back` to remove the words that the guard wrote onto the backend.
pub fn take_back<Word, Backend>(bulk: &mut Backend, count: usize)
where
    Word: Drop,
    Backend: WriteWords<Word> + ReadWords<Word, Stack>,
    Backend::ReadError: Drop,
    ensures reads { ReadsUpTo Backend.reads count bulk.old bulk.new }
    ensures words { NeverRefused Backend.reads → Backend.words bulk.new ≡ drop count (Backend.words bulk.old) }
{
    for _i in 0..count {
        match bulk.read() {
            Ok(_) => {}
            Err(_) => return,
        }
    }
}
