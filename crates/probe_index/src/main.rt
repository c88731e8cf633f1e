//! Looks up the offsets of objects in a pack index or a multi-pack index.
//!
//! `probe_index HEX..` reads a file from standard input and writes a line for each id. `run` says what each status
//! promises, over any source and sink; `main` calls it with the real ones.
#![tactic(auto)]

mod asked;
mod command;
mod lines;
mod probe;
mod run;
mod status;
#[cfg(test)]
mod tests;

use crate::status::Status;
use odb_base::NoMemory;
use odb_mem_disk::{StdSink, StdSource};
use odb_program::{command_words, finish};
use std::io;
use std::process::ExitCode;

fn main(rt: HostRuntime) -> ExitCode {
    let status = ended(&rt).unwrap_or(Status::NoMemory);
    finish(&mut StdSink::new(rt.stderr()), "probe_index", status)
}

/// The status of a session over the real streams.
fn ended(rt: &HostRuntime) -> Result<Status, NoMemory> {
    let alloc = rt.alloc();
    let words = command_words(rt, alloc)?;
    let mut source = StdSource::new(rt.reader());
    let mut sink = StdSink::new(io::writer(rt));
    Ok(run::run(alloc, &words, &mut source, &mut sink))
}
