//! The commands of the program, each in its own file.
//!
//! To add a command, add its variant, its name and its call of `answer` to [`Command`].

mod ans_decode;
mod ans_encode;
mod chain_split;
mod golomb;
mod huffman;
mod range_decode;
mod range_encode;
mod store;

ghost use Rattle.std.specs.Prelude.{map, string_bytes, IfOk, IfErr, IfSome, IfNone};
ghost use Rattle.constriction_commands.specs.Answers.{Names, Answers, Fails};
ghost use Rattle.constriction_commands.specs.declared.commands.Command.{Command};

use crate::fault::Fault;
use std::alloc::Global;

/// A command of the program. Each command computes the bytes of an output from the bytes of an input.
#[derive(Clone, Copy, Debug, PartialEq, Eq)]
pub enum Command {
    AnsEncode,
    AnsDecode,
    RangeEncode,
    RangeDecode,
    ChainSplit,
    Golomb,
    Huffman,
    Store,
}

impl Command {
    /// Returns the command that `args` names, for example `AnsEncode` if the only argument is `ans-encode`.
    ///
    /// Returns `None` if the argument names no command, or if there isn't exactly one argument.
    pub fn parse(args: &[String]) -> Option<Command>
        ensures some { IfSome result (Names (map string_bytes args.now)) }
        ensures none { IfNone result ((command : Command) → Names (map string_bytes args.now) command → ⊥) }
    {
        let [name] = args else {
            return None;
        };
        match name.as_str() {
            "ans-encode" => Some(Command::AnsEncode),
            "ans-decode" => Some(Command::AnsDecode),
            "range-encode" => Some(Command::RangeEncode),
            "range-decode" => Some(Command::RangeDecode),
            "chain-split" => Some(Command::ChainSplit),
            "golomb" => Some(Command::Golomb),
            "huffman" => Some(Command::Huffman),
            "store" => Some(Command::Store),
            _ => None,
        }
    }

    /// Returns the output of the command for the input `text`.
    ///
    /// # Errors
    ///
    /// Returns the fault that stops the command. `Fails` of `specs/Answers.antt` states the condition for each fault.
    pub fn answer(self, alloc: Global, text: &[u8]) -> Result<Vec<u8>, Fault>
        ensures ok { IfOk result (λ answer. Answers self text.now answer.items) }
        ensures err { IfErr result (Fails self text.now) }
    {
        match self {
            Command::AnsEncode => ans_encode::answer(alloc, text),
            Command::AnsDecode => ans_decode::answer(alloc, text),
            Command::RangeEncode => range_encode::answer(alloc, text),
            Command::RangeDecode => range_decode::answer(alloc, text),
            Command::ChainSplit => chain_split::answer(alloc, text),
            Command::Golomb => golomb::answer(alloc, text),
            Command::Huffman => huffman::answer(alloc, text),
            Command::Store => store::answer(alloc, text),
        }
    }
}
