//! The program as one call, over any source, sink and disk.
ghost use Rattle.std.specs.Prelude.{◌≡◌, List, ℕ, map};
ghost use Rattle.std.specs.String.{string_bytes};
ghost use Rattle.odb_program.specs.Session.{input_of, output_of};
ghost use Rattle.gitodb.specs.Session.{Ends, command_of};
ghost use Rattle.gitodb.specs.declared.command.Command.TheVariants.{World as world_command};

use crate::command::{Command, command_of};
use crate::status::Status;
use crate::world_command::answer_script;
use odb_base::NoMemory;
use odb_disk::Disk;
use odb_mem_disk::{ReadError, Sink, Source, read_file};
use odb_program::{NOT_UNDERSTOOD, answer};
use odb_script::SCRIPT_LIMIT;
use std::alloc::Global;

/// What `--help` writes.
pub const HELP: &str = "\
usage: gitodb world < SCRIPT
       gitodb --help | --version

world reads a script from standard input and writes one line for each of its
step lines. Fields are split by one space; empty lines and lines that begin
with `#` say nothing. See docs/SCRIPT.md for the whole language.

  fail N                     the disk's call number N fails; before all other
                             setup lines
  mkdir PATH                 a directory is there at the start
  put PATH TIME CONTENT      a file is there at the start
  link PATH TARGET           a link is there at the start
  steps                      the steps begin

  open H PATH                handle H begins to open the store at PATH; options:
                             slots=N, folder=PATH, replace=HEX:HEX, limit=N,
                             changes=N, midx=no, hash=sha256
  clone NEW H                NEW is a further handle on the store of an idle
                             handle H
  close H                    closes an idle handle
  never H                    an idle handle answers from the list of its store as
                             it is from now on
  ignore H                   an idle handle ignores replacements from now on
  find H HEX                 begins to find an object
  header H HEX               begins to tell the kind and the size of an object
  test H HEX                 begins to test whether an object is there
  write H KIND DATA          begins to write an object
  stream H KIND SIZE DATA    the same, of data that are said to have SIZE bytes
  writeas H KIND HEX DATA    the same, under an id that is known
  turn H                     lets H make one call of the disk, or one event of
                             its store's core
  finish H                   turns H until its call has ended
  do mkdir PATH              another program makes a directory
  do put PATH TIME CONTENT   another program puts a file
  do link PATH TARGET        another program makes a link
  do rename PATH PATH        another program moves a file, a link or a directory
  do remove PATH             another program removes a file, a link or an empty
                             directory
  do time PATH TIME          another program sets the time of a file

CONTENT is DATA, @loose:OBJ, @pack:OBJ,OBJ.., @idx:OBJ,OBJ.. or
@midx:STEM=OBJ,OBJ..;STEM=OBJ.., and OBJ is KIND:DATA. KIND is commit, tree, blob
or tag; DATA is hex, or `-` for nothing. HEX has 40 lower-case digits, or 64 in
a store that is opened with hash=sha256. Numbers are decimal.

Known, and not built yet (status 8): ids, upgrade, prefix, locate, entry.

status  0 done   1 words not understood   2 a line was refused   3 read fault
        4 write fault   5 out of memory   8 a line has a word not built yet
";

/// What `--version` writes.
pub const VERSION: &str = "gitodb 0.1.0\n";

/// Executes the words of the command line, and returns the status.
///
/// `world` reads a script from the source and runs it over a disk in memory; the given disk stays unchanged.
pub fn run<R, S: Source, K: Sink, D: Disk>(
    _rt: &R,
    alloc: Global,
    words: &[String],
    source: &mut S,
    sink: &mut K,
    disk: &mut D,
) -> Status
    ensures ends { Ends (record {
      command = command_of (map (λ word. string_bytes word) words.now);
      input = input_of S.left S.faults source.old source.new;
      output = output_of K.held K.faults sink.old sink.new;
      help = HELP.now;
      version = VERSION.now;
    }) result }
    ensures disk_kept { disk.new ≡ disk.old }
{
    match command_of(words) {
        Command::World => world(alloc, source, sink),
        Command::Help => answer(sink, HELP.as_bytes(), Status::Done),
        Command::Version => answer(sink, VERSION.as_bytes(), Status::Done),
        Command::NoWords => answer(sink, NOT_UNDERSTOOD.as_bytes(), Status::NoWords),
        Command::NotUnderstood => answer(sink, NOT_UNDERSTOOD.as_bytes(), Status::NotUnderstood),
    }
}

/// Reads a script, and writes its output.
fn world<S: Source, K: Sink>(alloc: Global, source: &mut S, sink: &mut K) -> Status
    ensures ends { (help version : List ℕ) → Ends (record {
      command = world_command;
      input = input_of S.left S.faults source.old source.new;
      output = output_of K.held K.faults sink.old sink.new;
      help = help;
      version = version;
    }) result }
{
    let script = match read_file(alloc, source, SCRIPT_LIMIT) {
        Ok(script) => script,
        Err(ReadError::Failed) => return Status::ReadFault,
        Err(ReadError::NoMemory) => return Status::NoMemory,
    };
    match answer_script(alloc, script) {
        Ok((output, status)) => answer(sink, &output, status),
        Err(NoMemory) => Status::NoMemory,
    }
}
