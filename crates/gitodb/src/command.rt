//! The words of the command line.
ghost use Rattle.std.specs.Prelude.{◌≡◌, map};
ghost use Rattle.std.specs.String.{string_bytes};
ghost use Rattle.gitodb.specs.Session.{command_of};

/// The command in the words of the command line.
#[derive(Clone, Copy)]
pub enum Command {
    World,
    Help,
    Version,
    NoWords,
    NotUnderstood,
}

/// The command of the words.
pub fn command_of(words: &[String]) -> Command
    ensures command { result ≡ command_of (map (λ word. string_bytes word) words.now) }
{
    let word = match words {
        [] => return Command::NoWords,
        [word] => word.as_str(),
        _ => return Command::NotUnderstood,
    };
    if word == "world" {
        Command::World
    } else if word == "--help" {
        Command::Help
    } else if word == "--version" {
        Command::Version
    } else {
        Command::NotUnderstood
    }
}
