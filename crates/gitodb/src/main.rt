//! The object database as a program.
//!
//! `gitodb world` reads a script from standard input: a disk, and steps of interleaved calls on it, and writes one
//! line for each step line. `run` says what each status promises, over any source, sink and disk; `main` calls it
//! with the real ones, and reports errors on standard error.
#![tactic(auto)]

mod command;
mod run;
mod status;
#[cfg(test)]
mod tests;
mod world_command;

use crate::status::Status;
use odb_base::NoMemory;
use odb_host::HostDisk;
use odb_mem_disk::{StdSink, StdSource};
use odb_program::{command_words, finish};
use std::io;
use std::process::ExitCode;

fn main(rt: HostRuntime) -> ExitCode {
    let status = ended(&rt).unwrap_or(Status::NoMemory);
    finish(&mut StdSink::new(rt.stderr()), "gitodb", status)
}

/// The status of a session over the real streams and the real disk.
fn ended(rt: &HostRuntime) -> Result<Status, NoMemory> {
    let alloc = rt.alloc();
    let words = command_words(rt, alloc)?;
    let mut source = StdSource::new(rt.reader());
    let mut sink = StdSink::new(io::writer(rt));
    let mut disk = HostDisk::new(alloc, rt.clone()?);
    Ok(run::run(rt, alloc, &words, &mut source, &mut sink, &mut disk))
}
