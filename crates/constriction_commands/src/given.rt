//! Parses the inputs of the commands that encode or decode symbols.
//!
//! Line 1 of such an input has the weights of a table. The other lines depend on the command.

pub mod chunks;
pub mod symbols;
pub mod words;

ghost use Rattle.std.specs.Prelude.{◌≡◌};
ghost use Rattle.constriction_commands.specs.Lines.{first_line, second_line};

use crate::input::split_line;

/// Returns the first two lines of `text` without their line feeds. A missing line is empty.
fn two_lines(text: &[u8]) -> (&[u8], &[u8])
    ensures first { result.0.now ≡ first_line text.now }
    ensures second { result.1.now ≡ second_line text.now }
{
    let (first, rest) = split_line(text);
    let (second, _) = split_line(rest);
    (first, second)
}
