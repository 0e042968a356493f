//! The commands of the program `constriction`, and the calls that run the program.
//!
//! [`cli::run`] runs the command that the arguments name, with any reader and writers. [`cli::start`] runs the program
//! with the arguments that the system passes. In `specs/Answers.antt`, `Answers` defines the output of each command,
//! and `Fails` states the condition for each fault.
#![tactic(auto)]

pub mod cli;
mod codewords;
pub mod commands;
pub mod fault;
mod given;
mod input;
mod output;
mod weights;
