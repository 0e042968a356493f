//! The program `constriction`, which encodes and decodes lists of numbers.
//!
//! The program takes one argument, the name of a command ([`constriction_commands::commands`]). The program reads lines
//! of numbers from standard input, and writes the command's output to standard output.
//!
//! The program writes one line to standard error in three cases: there isn't exactly one argument, the argument isn't
//! the name of a command, or a fault stops the run ([`constriction_commands::fault`]).
#![tactic(auto)]

use constriction_commands::cli;
use std::env;
use std::process::ExitCode;

fn main(rt: HostRuntime) -> ExitCode {
    let given = env::args(&rt);
    cli::start(
        rt.alloc(),
        given,
        &mut rt.stdin(),
        &mut rt.stdout(),
        &mut rt.stderr(),
    )
}
