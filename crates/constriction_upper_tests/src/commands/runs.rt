//! Functions that run the program over lists of bytes, and check what a run writes.

use constriction_commands::cli::run;
use std::alloc::{AllocError, Global};
use std::test::Fail;

/// The exit status of a run of the program, and the bytes that the run wrote to `output` and to `faults`.
#[derive(Debug, Drop)]
pub struct Outcome {
    pub status: u8,
    pub output: Vec<u8>,
    pub faults: Vec<u8>,
}

impl Outcome {
    /// Returns whether the run succeeded, and wrote exactly `output` and no fault.
    pub fn answers(&self, output: &[u8]) -> bool {
        self.status == 0 && self.output.as_slice() == output && self.faults.is_empty()
    }

    /// Returns whether the run ended with `status`, and wrote exactly the fault `line` and no output.
    pub fn refuses(&self, status: u8, line: &[u8]) -> bool {
        self.status == status && self.output.is_empty() && self.faults.as_slice() == line
    }
}

/// Returns `words` as the arguments of a run.
pub fn arguments(alloc: Global, words: &[&str]) -> Result<Vec<String>, AllocError> {
    let mut args = Vec::new(alloc);
    for word in words {
        args.push(String::from_str(alloc, *word)?)?;
    }
    Ok(args)
}

/// Runs the program with the arguments `words` and the input `text`.
pub fn ran_with(alloc: Global, words: &[&str], text: &[u8]) -> Result<Outcome, AllocError> {
    let args = arguments(alloc, words)?;
    let mut input = text;
    let mut output = Vec::new(alloc);
    let mut faults = Vec::new(alloc);
    let status = run(alloc, args.as_slice(), &mut input, &mut output, &mut faults);
    Ok(Outcome {
        status,
        output,
        faults,
    })
}

/// Runs the program with the one argument `command` and the input `text`.
pub fn ran(alloc: Global, command: &str, text: &[u8]) -> Result<Outcome, AllocError> {
    ran_with(alloc, &[command], text)
}

/// Runs `command` with the input `text`. Fails unless the run succeeds with exactly the output `line`.
pub fn gives(alloc: Global, command: &str, text: &[u8], line: &[u8]) -> Result<(), Fail> {
    let ran = ran(alloc, command, text)?;
    if ran.answers(line) {
        return Ok(());
    }
    Err(Fail::from("another answer"))
}

/// Runs `command` with the input `text`. Fails unless the run ends with the status 1 and exactly the fault `line`.
pub fn stops(alloc: Global, command: &str, text: &[u8], line: &[u8]) -> Result<(), Fail> {
    let ran = ran(alloc, command, text)?;
    if ran.refuses(1, line) {
        return Ok(());
    }
    Err(Fail::from("another fault, or an answer"))
}
