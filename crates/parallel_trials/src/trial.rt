//! The words of the command line.
ghost use Rattle.std.specs.Prelude.{◌<◌, ◌≤◌, ⊤, IfSome};
ghost use Rattle.parallel_trials.specs.Asked.{IsBounded, IsFew};

use odb_base::parse_decimal;

/// The most workers, and the most KiB.
const MOST: u64 = 65_536;

/// A trial that is asked for. Each number is above 0.
#[derive(Clone, Copy)]
pub enum Trial {
    Hash {
        workers: usize,
        messages: usize,
        kib: usize,
    },
    Pipe {
        pieces: usize,
        kib: usize,
    },
    Stop {
        items: u32,
        workers: usize,
    },
    Draw {
        items: u32,
        chunk_size: usize,
    },
    Slice {
        items: usize,
        workers: usize,
    },
}

/// Parses the trial from words, if they are understood.
pub fn trial_of(words: &[String]) -> Option<Trial>
    ensures bounded { IfSome result IsBounded }
{
    match words {
        [name, first, second] => with_two(name.as_str(), number(first)?, number(second)?),
        [name, workers, messages, kib] if name.as_str() == "hash" => Some(Trial::Hash {
            workers: number(workers)?,
            messages: number(messages)?,
            kib: number(kib)?,
        }),
        _ => None,
    }
}

/// The trial of a name and two numbers, if there is one.
fn with_two(name: &str, first: usize, second: usize) -> Option<Trial>
    requires first { IsFew first }
    requires second { IsFew second }
    ensures bounded { IfSome result IsBounded }
{
    match name {
        "pipe" => Some(Trial::Pipe {
            pieces: first,
            kib: second,
        }),
        "stop" => Some(Trial::Stop {
            items: first as u32,
            workers: second,
        }),
        "draw" => Some(Trial::Draw {
            items: first as u32,
            chunk_size: second,
        }),
        "slice" => Some(Trial::Slice {
            items: first,
            workers: second,
        }),
        _ => None,
    }
}

/// A number from 1 to the most.
fn number(word: &String) -> Option<usize>
    ensures bounded { IfSome result (λ n. (0 < n) × (n ≤ 65_536)) }
{
    let number = parse_decimal(word.as_str())?;
    if number == 0 || number > MOST {
        return None;
    }
    Some(number as usize)
}
