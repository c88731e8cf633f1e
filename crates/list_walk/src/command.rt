//! The command that the words of the command line give.
ghost use Rattle.std.specs.Prelude.{◌≡◌, IfOk, map, string_bytes};
ghost use Rattle.list_walk.specs.Command.{about, command_of, command_with, decided, seeks_help, walk_of_words};

use crate::misread::{Misread, told_of};
use crate::words::{Asked, asked_of};
use odb_base::{ByteList, NoMemory};
use odb_mem_disk::PathText;
use std::alloc::Global;

/// The command that the words of the command line give.
#[derive(Drop)]
pub enum Command {
    Walk(Asked),
    Help,
    Version,
    /// The words aren't understood. It has the message on them.
    NotUnderstood(ByteList),
}

/// The command of the words. A relative folder is below the one in which the program was started, if that is known.
pub fn command_of(
    alloc: Global,
    home: &Option<PathText>,
    words: &[String],
) -> Result<Command, NoMemory>
    ensures command { IfOk result (λ command. command ≡ command_of home.now (map (λ word. string_bytes word) words.now)) }
{
    match about(words) {
        Some(command) => Ok(command),
        None => walk_of_words(alloc, home, words),
    }
}

/// The command of the first word before `--` that asks about the program.
#[tactic(auto, unfolding(crate::specs::Command::about))]
fn about(words: &[String]) -> Option<Command>
    ensures about { result ≡ about (map (λ word. string_bytes word) words.now) }
{
    let mut rest = words;
    while let [word, more @ ..] = rest {
        match decided(word.as_str()) {
            Some(answer) => return answer,
            None => rest = more,
        }
    }
    None
}

/// What a word decides, if anything: that the program is asked about, or, as `--` does, that it isn't.
#[tactic(auto, unfolding(crate::specs::Command::decided))]
fn decided(word: &str) -> Option<Option<Command>>
    ensures decided { result ≡ decided word.now }
{
    match word {
        "--" => Some(None),
        "--help" => Some(Some(Command::Help)),
        "--version" => Some(Some(Command::Version)),
        _ => None,
    }
}

/// The command of words that don't ask about the program.
fn walk_of_words(
    alloc: Global,
    home: &Option<PathText>,
    words: &[String],
) -> Result<Command, NoMemory>
    ensures command { IfOk result (λ command. command ≡ walk_of_words home.now (map (λ word. string_bytes word) words.now)) }
{
    match words {
        [] => Ok(Command::NotUnderstood(told_of(alloc, Misread::NoWords, "")?)),
        [_, ..] => Ok(command_with(asked_of(alloc, home, words)?)),
    }
}

fn command_with(asked: Result<Asked, ByteList>) -> Command
    ensures command { result ≡ command_with asked }
{
    match asked {
        Ok(asked) => Command::Walk(asked),
        Err(told) => Command::NotUnderstood(told),
    }
}

/// Whether `help` is the only word.
pub fn seeks_help(words: &[String]) -> bool
    ensures only { result ≡ seeks_help (map (λ word. string_bytes word) words.now) }
{
    match words {
        [word] => word.as_str() == "help",
        _ => false,
    }
}
