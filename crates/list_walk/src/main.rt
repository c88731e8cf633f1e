//! Lists folder trees: `list_walk FOLDER.. [OPTION..]` prints the path of each entry of each folder on a line, and
//! each error on standard error.
//!
//! `command` says what the words ask for, `words` which options there are, `folder` which folder a name means, `run` what
//! each status promises.
#![tactic(auto)]

mod command;
mod folder;
mod line;
mod misread;
mod run;
mod status;
mod words;

use crate::status::Status;
use odb_base::NoMemory;
use odb_host::HostDisk;
use odb_mem_disk::StdSink;
use odb_program::{command_words, finish, working_folder};
use std::io;
use std::process::ExitCode;

fn main(rt: HostRuntime) -> ExitCode {
    let status = ended(&rt).unwrap_or(Status::NoMemory);
    finish(&mut StdSink::new(rt.stderr()), "list_walk", status)
}

/// The status of a session over the real disk and the standard streams.
fn ended(rt: &HostRuntime) -> Result<Status, NoMemory> {
    let alloc = rt.alloc();
    let words = command_words(rt, alloc)?;
    let home = working_folder(rt, alloc)?;
    let mut sink = StdSink::new(io::writer(rt));
    let mut errors = StdSink::new(rt.stderr());
    let mut disk = HostDisk::new(alloc, rt.clone()?);
    Ok(run::run(alloc, &home, &words, &mut sink, &mut errors, &mut disk))
}
