//! Whole runs of the program, from the arguments and the input bytes to the output bytes and the exit status.

ghost use Rattle.std.specs.Prelude.{◌≡◌, ◌↔◌, ◌⊎◌, ◌≤◌, ◌≢◌, ℕ, List, [], drop, map, string_bytes, IfErr, IfOk, IfSome};
ghost use Rattle.std.specs.Prelude.{IsErr, IsOk, OnOk};
ghost use Rattle.std.specs.Io.KnownBytes.{Appends};
ghost use Rattle.std.specs.Process.{exit_status};
ghost use Rattle.std.specs.Vec.Iter.{into_iter_items};
ghost use Rattle.constriction_commands.specs.Answers.{IsUnknownCommand, Answers, Fails, Stops};
ghost use Rattle.constriction_commands.specs.Starting.{AppendsAnswer, BeginsAnswer, IfUnknownCommand, IfNoMemory};
ghost use Rattle.constriction_commands.specs.Starting.{IfNotText};
ghost use Rattle.constriction_commands.specs.Starting.{IfText, ProgramAnswers, ProgramReports, ProgramWrites};
ghost use Rattle.constriction_commands.specs.Written.{BeginsFault, BeginsLine, GrowsByBeginning, Reports};
ghost use Rattle.constriction_commands.specs.Written.{fault_line, usage_line};
ghost use Rattle.constriction_commands.specs.declared.fault.Fault.TheVariants.{OutOfMemory, Unreadable, Unwritable};

use crate::commands::Command;
use crate::fault::Fault;
use crate::input::read_all;
use crate::output::write_out;
use std::alloc::Global;
use std::env::Args;
use std::io;
use std::io::{ErrorKind, Read, Write};
use std::process::ExitCode;

/// The usage line, which the program writes if the arguments don't name exactly one command.
const USAGE: &[u8] =
    b"usage: constriction <ans-encode|ans-decode|range-encode|range-decode|chain-split|golomb|huffman|store>\n";

/// Returns the arguments after the program's name.
///
/// If an argument isn't UTF-8, the call returns an empty list, which names no command.
///
/// # Errors
///
/// Returns `OutOfMemory` if there is no memory for the arguments.
fn arguments(alloc: Global, given: io::Result<Args>) -> Result<Vec<String>, Fault>
    ensures behind_name { IfOk given (λ words. IfOk result (λ args. args.items ≡ drop 1 (into_iter_items words))) }
    ensures no_memory { IfNoMemory given (IsErr result) }
    ensures not_text { IfNotText given (IsOk result) }
    ensures none { IfErr given (λ _. IfOk result (λ args. args.items ≡ [])) }
    ensures err { IfErr result (λ fault. fault ≡ OutOfMemory) }
{
    match given {
        Ok(words) => Ok(words.skip(1).collect::<Vec<String>>(alloc)?),
        Err(error) if error.kind() == ErrorKind::OutOfMemory => Err(Fault::OutOfMemory),
        Err(_) => Ok(Vec::new(alloc)),
    }
}

/// Writes the usage line to `faults`, and returns exit status 2, even if the write fails.
fn refuse<E: Write>(faults: &mut E) -> u8
    ensures status { result ≡ 2 }
    ensures line { BeginsLine E.contents faults.old faults.new usage_line }
{
    let _ = write_out(faults, USAGE);
    2
}

/// Writes the line of `fault` ([`Fault::line`]) to `faults`, and returns exit status 1, even if the write fails.
fn report<E: Write>(fault: &Fault, faults: &mut E) -> u8
    ensures status { result ≡ 1 }
    ensures line { BeginsLine E.contents faults.old faults.new (fault_line fault.now) }
{
    let _ = write_out(faults, fault.line());
    1
}

/// Reads the whole input, and then writes the command's answer to `output`.
///
/// Returns the fault of the first step that fails: the read, the command or the write.
fn answer_to<R: Read, O: Write>(
    alloc: Global,
    command: Command,
    input: &mut R,
    output: &mut O,
) -> Result<(), Fault>
    ensures ok { OnOk result (IfSome (R.remaining input.old) (λ text. (answer : List ℕ)
        × Answers command text answer × Appends (O.contents output.old) (O.contents output.new) answer)) }
    ensures whole { (output.new ≡ output.old) ⊎ IfSome (R.remaining input.old) (λ text. (answer : List ℕ)
        × Answers command text answer × GrowsByBeginning (O.contents output.old) (O.contents output.new) answer) }
    ensures err { IfErr result (λ fault. (fault ≡ Unreadable) ⊎ (fault ≡ Unwritable) ⊎ (fault ≡ OutOfMemory)
        ⊎ IfSome (R.remaining input.old) (λ text. Fails command text fault)) }
{
    let text = read_all(alloc, input)?;
    let answer = command.answer(alloc, text.as_slice())?;
    write_out(output, answer.as_slice())
}

/// Runs the command that the arguments name, and returns the exit status.
///
/// `args` doesn't contain the program's name. The exit status is one of these:
///
/// - 0 if the call wrote the whole answer to `output`.
/// - 1 if a fault stopped the run. The call then writes the fault's line ([`crate::fault::Fault::line`]) to `faults`.
/// - 2 if there isn't exactly one argument, or if the argument names no command. The call then writes the usage line
///   to `faults`.
///
/// A failed write to `faults` doesn't change the exit status.
///
/// The system decides whether a read, a write or an allocation fails. So no clause states when the line on `faults` is
/// `cannot read input`, `cannot write output` or `out of memory`.
pub fn run<R: Read, O: Write, E: Write>(
    alloc: Global,
    args: &[String],
    input: &mut R,
    output: &mut O,
    faults: &mut E,
) -> u8
    ensures ok { result ≡ 0 →
        AppendsAnswer (map string_bytes args.now) (R.remaining input.old) O.contents output.old output.new }
    ensures no_fault { result ≡ 0 → faults.new ≡ faults.old }
    ensures usage { (result ≡ 2) ↔ IsUnknownCommand (map string_bytes args.now) }
    ensures kept { result ≡ 2 → (output.new ≡ output.old) × (input.new ≡ input.old) }
    // Whatever the status, the bytes written are a beginning of the answer.
    ensures whole { (output.new ≡ output.old)
        ⊎ BeginsAnswer (map string_bytes args.now) (R.remaining input.old) O.contents output.old output.new }
    ensures err { result ≡ 1 →
        BeginsFault (Stops (map string_bytes args.now) (R.remaining input.old)) E.contents faults.old faults.new }
    ensures usage_line { result ≡ 2 → BeginsLine E.contents faults.old faults.new usage_line }
    ensures statuses { result ≤ 2 }
{
    let Some(command) = Command::parse(args) else {
        return refuse(faults);
    };
    match answer_to(alloc, command, input, output) {
        Ok(()) => 0,
        Err(fault) => report(&fault, faults),
    }
}

/// Runs the program with the arguments that the system passes, and returns the exit status.
///
/// The first item of `given` is the program's name. The call passes the arguments after the name to [`run`], and
/// returns the status that `run` returns. There are two exceptions:
///
/// - If there is no memory for the arguments, the status is 1, and the call writes the line `out of memory` to
///   `faults`.
/// - If an argument isn't UTF-8, the status is 2, and the call writes the usage line to `faults`.
pub fn start<R: Read, O: Write, E: Write>(
    alloc: Global,
    given: io::Result<Args>,
    input: &mut R,
    output: &mut O,
    faults: &mut E,
) -> ExitCode
    ensures ok { exit_status result ≡ 0 →
        ProgramAnswers given (R.remaining input.old) O.contents output.old output.new }
    ensures no_fault { exit_status result ≡ 0 → faults.new ≡ faults.old }
    ensures usage { exit_status result ≡ 2 → IfText given IsUnknownCommand }
    // Without memory for the arguments, the line of that fault replaces the usage line.
    ensures unknown { IfUnknownCommand given (exit_status result ≢ 2 →
        Reports OutOfMemory (exit_status result) E.contents faults.old faults.new) }
    ensures kept { exit_status result ≡ 2 → (output.new ≡ output.old) × (input.new ≡ input.old) }
    ensures unread { IfErr given (λ _. output.new ≡ output.old) }
    // Whatever the status, the bytes written are a beginning of the answer.
    ensures whole { ProgramWrites given (R.remaining input.old) O.contents output.old output.new }
    ensures err { exit_status result ≡ 1 →
        ProgramReports given (R.remaining input.old) E.contents faults.old faults.new }
    ensures usage_line { exit_status result ≡ 2 → BeginsLine E.contents faults.old faults.new usage_line }
    ensures not_text { IfNotText given (exit_status result ≡ 2) }
    ensures no_memory { IfNoMemory given (exit_status result ≡ 1) }
    ensures statuses { exit_status result ≤ 2 }
{
    let status = match arguments(alloc, given) {
        Ok(args) => run(alloc, args.as_slice(), input, output, faults),
        Err(error) => report(&error, faults),
    };
    ExitCode::from(status)
}
