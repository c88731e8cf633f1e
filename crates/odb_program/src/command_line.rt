//! The words of the command line, and what a program writes if it doesn't understand them.
use odb_base::NoMemory;
use std::alloc::Global;
use std::rt::Env;
use std::{env, io};

/// What a program writes if its words aren't understood.
pub const NOT_UNDERSTOOD: &str = "words not understood\n";

/// The words of the command line, without the program's name.
///
/// If one of them is not UTF-8, a single empty word is returned instead, which no program understands.
pub fn command_words<R: Env + AllocGlobal>(rt: &R, alloc: Global) -> Result<Vec<String>, NoMemory> {
    match arguments(rt, alloc) {
        Ok(words) => Ok(words),
        Err(error) if error.kind() == io::ErrorKind::OutOfMemory => Err(NoMemory),
        Err(_) => Ok(vec![in alloc; String::new(alloc)]?),
    }
}

/// The words, or the system's error: a word is no text, or memory ran out.
fn arguments<R: Env + AllocGlobal>(rt: &R, alloc: Global) -> io::Result<Vec<String>> {
    let mut words = Vec::new(alloc);
    for word in env::args(rt)?.skip(1) {
        words.push(word)?;
    }
    Ok(words)
}
