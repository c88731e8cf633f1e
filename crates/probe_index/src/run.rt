//! The program as one call, over any source and sink.
ghost use Rattle.std.specs.Prelude.{◌≡◌, ◌++◌, IfOk, map};
ghost use Rattle.std.specs.String.{string_bytes};
ghost use Rattle.odb_program.specs.Session.{Input, input_of, output_of};
ghost use Rattle.probe_index.specs.Command.{command_of};
ghost use Rattle.probe_index.specs.Session.{Ends, LeavesIts, Texts};
ghost use Rattle.probe_index.specs.declared.command.Command.TheVariants.{Help as help_command, Probe as probe_command};

use crate::asked::Asked;
use crate::command::{Command, command_of};
use crate::probe::{FILE_LIMIT, answer_file};
use crate::status::Status;
use odb_base::NoMemory;
use odb_mem_disk::{ReadError, Sink, Source, read_file};
use odb_program::{answer, text};
use std::alloc::Global;

/// What is written if the words ask nothing.
pub const USAGE: &str = "\
usage: probe_index HEX.. < FILE

FILE is a pack index of version 2 or a multi-pack index of version 1, of at most
1073741824 bytes. Each HEX is an id of 40 or of 64 lower-case hex digits, and all
have one length, which tells the hash of a pack index. A line is written for each:

  HEX OFFSET        the object stands at this offset of the index's pack
  HEX OFFSET NAME   the object stands there in the pack whose index has this name
  HEX absent        no row has the id

status  0 done         1 words not understood   2 the file is refused
        3 read fault   4 write fault            5 out of memory
";

/// What `--help` writes after that.
pub const ABOUT: &str = "
probe_index --help writes this text, and probe_index --version the version.
";

/// What `--version` writes.
pub const VERSION: &str = "probe_index 0.1.0\n";

/// Does what the words of the command line say, and returns the status.
pub fn run<S: Source, K: Sink>(
    alloc: Global,
    words: &[String],
    source: &mut S,
    sink: &mut K,
) -> Status
    ensures ends { Ends (record {
      command = command_of (map (λ word. string_bytes word) words.now);
      input = input_of S.left S.faults source.old source.new;
      output = output_of K.held K.faults sink.old sink.new;
      texts = record { usage = USAGE.now; help = USAGE.now ++ ABOUT.now; version = VERSION.now };
    }) result }

    // If the words ask for no ids, the source stays as it was: what is left of it, and its count of faults.
    ensures unread { LeavesIts (command_of (map (λ word. string_bytes word) words.now)) source.old source.new }
{
    match command_of(alloc, words) {
        Ok(Command::Probe(asked)) => probe(alloc, &asked, source, sink),
        Ok(Command::Help) => help(alloc, sink),
        Ok(Command::Version) => answer(sink, VERSION.as_bytes(), Status::Done),
        Ok(Command::NoWords) => answer(sink, USAGE.as_bytes(), Status::NoWords),
        Ok(Command::NotUnderstood) => answer(sink, USAGE.as_bytes(), Status::NotUnderstood),
        Err(NoMemory) => Status::NoMemory,
    }
}

/// Writes the usage, and what `--help` writes after it.
fn help<K: Sink>(alloc: Global, sink: &mut K) -> Status
    ensures ends { (input : Input) → Ends (record {
      command = help_command;
      input = input;
      output = output_of K.held K.faults sink.old sink.new;
      texts = record { usage = USAGE.now; help = USAGE.now ++ ABOUT.now; version = VERSION.now };
    }) result }
{
    match help_text(alloc) {
        Ok(help) => answer(sink, &help, Status::Done),
        Err(NoMemory) => Status::NoMemory,
    }
}

fn help_text(alloc: Global) -> Result<Vec<u8>, NoMemory>
    ensures text { IfOk result (λ help. help.items ≡ USAGE.now ++ ABOUT.now) }
{
    let mut help = Vec::new(alloc);
    text(&mut help, USAGE.as_bytes())?;
    text(&mut help, ABOUT.as_bytes())?;
    Ok(help)
}

/// Reads a file, and writes the lines of the ids.
fn probe<S: Source, K: Sink>(alloc: Global, asked: &Asked, source: &mut S, sink: &mut K) -> Status
    ensures ends { (texts : Texts) → Ends (record {
      command = probe_command asked.now;
      input = input_of S.left S.faults source.old source.new;
      output = output_of K.held K.faults sink.old sink.new;
      texts = texts;
    }) result }
{
    let bytes = match read_file(alloc, source, FILE_LIMIT) {
        Ok(bytes) => bytes,
        Err(ReadError::Failed) => return Status::ReadFault,
        Err(ReadError::NoMemory) => return Status::NoMemory,
    };
    match answer_file(alloc, bytes, asked) {
        Ok((output, status)) => answer(sink, &output, status),
        Err(NoMemory) => Status::NoMemory,
    }
}
