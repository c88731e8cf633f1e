//! What the words of the command line ask for.
ghost use Rattle.std.specs.Prelude.{◌≡◌, IfOk, map};
ghost use Rattle.std.specs.String.{string_bytes};
ghost use Rattle.probe_index.specs.Command.{about, command_of, command_with};

use crate::asked::{Asked, asked_of};
use odb_base::NoMemory;
use std::alloc::Global;

/// What the words of the command line ask for.
#[derive(Drop)]
pub enum Command {
    Probe(Asked),
    Help,
    Version,
    NoWords,
    NotUnderstood,
}

/// What the words ask for.
pub fn command_of(alloc: Global, words: &[String]) -> Result<Command, NoMemory>
    ensures command { IfOk result (λ command. command ≡ command_of (map (λ word. string_bytes word) words.now)) }
{
    match about(words) {
        Some(command) => Ok(command),
        None => Ok(command_with(asked_of(alloc, words)?)),
    }
}

/// The command of no words, or of a single one that asks about the program.
fn about(words: &[String]) -> Option<Command>
    ensures about { result ≡ about (map (λ word. string_bytes word) words.now) }
{
    let word = match words {
        [] => return Some(Command::NoWords),
        [word] => word.as_str(),
        _ => return None,
    };
    if word == "--help" {
        Some(Command::Help)
    } else if word == "--version" {
        Some(Command::Version)
    } else {
        None
    }
}

fn command_with(asked: Option<Asked>) -> Command
    ensures command { result ≡ command_with asked }
{
    match asked {
        Some(asked) => Command::Probe(asked),
        None => Command::NotUnderstood,
    }
}
