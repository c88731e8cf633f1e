//! The walk and its output.
ghost use Rattle.std.specs.Prelude.{◌≡◌, ◌≤◌, ℕ, List, Some, map, string_bytes, take, true, IfOk, OnErr, IsErrOf};
ghost use Rattle.list_walk.specs.Asked.{chosen_by, options_of, max_depth_by, max_open_by, min_depth_by};
ghost use Rattle.list_walk.specs.Command.{command_of, seeks_help};
ghost use Rattle.list_walk.specs.Lines.{EndsWritten, Leaves, is_want};
ghost use Rattle.list_walk.specs.Session.{Ends, StreamsBack, hinted, status_by};
ghost use Rattle.list_walk.specs.Visits.{EndsAll, EndsVisit, settled, worse};
ghost use Rattle.odb_base.specs.Faults.{Rose};
ghost use Rattle.odb_mem_disk.specs.Source.{Adds};
ghost use Rattle.odb_program.specs.Session.{output_of};
ghost use Rattle.walkdir.specs.OwnStreams.{AreBack};
ghost use Rattle.walkdir.specs.Progress.{begun, has_its_streams};

use crate::command::{Command, command_of, seeks_help};
use crate::line::{LineError, Lines};
use crate::status::Status;
use crate::words::{Asked, Choices};
use odb_disk::Disk;
use odb_mem_disk::{NoMemory, PathText, Sink};
use odb_program::{NOT_UNDERSTOOD, answer};
use std::alloc::Global;
use walkdir::{DirEntry, OnDisk, Sorter, Steps, WalkDir};

/// What `--help` writes.
pub const HELP: &str = "\
usage: list_walk FOLDER.. [OPTION..]
       list_walk --help | --version

Writes a line for each entry of each folder, its path, on standard output, and
a line for each error on standard error. A relative FOLDER lies below the folder
that the program was started in; paths are written from the root on. Behind `--`
each word is a FOLDER.

  --follow             links are followed
  --sort               the entries of each directory come in the order of the
                       bytes of their names
  --contents-first     a directory comes after its contents
  --same-file-system   directories on other devices aren't entered
  --max-open N         at most N directories are open at one time
  --min-depth N        entries from this depth on; a FOLDER has depth 0
  --max-depth N        entries up to this depth
  -0                   entries end by NUL, and not by a line feed

N may stand behind `=` too, as in --max-depth=1. Of an option that is repeated
the last one counts.

status  0 done          1 words not understood   2 there were errors
        4 write fault   5 out of memory
";

/// What `--version` writes.
pub const VERSION: &str = "list_walk 0.1.0\n";

/// Does what the words of the command line say: walks each folder, and writes a line for each item, entries to `sink`
/// and errors to `errors`. A relative folder is below `home`, if that is known.
///
/// The disk's tree stays as it was, and so do its streams.
pub fn run<K: Sink, E: Sink, D: Disk>(
    alloc: Global,
    home: &Option<PathText>,
    words: &[String],
    sink: &mut K,
    errors: &mut E,
    disk: &mut D,
) -> Status
    ensures ends { Ends (record {
      command = command_of home.now (map (λ word. string_bytes word) words.now);
      is_help = seeks_help (map (λ word. string_bytes word) words.now);
      state = D.state disk.old;
      streams = D.streams disk.old;
      streams' = D.streams disk.new;
      disk_faults = D.faults disk.old;
      disk_faults' = D.faults disk.new;
      output = output_of K.held K.faults sink.old sink.new;
      errors = output_of E.held E.faults errors.old errors.new;
      help = HELP.now;
      version = VERSION.now;
      refusal = NOT_UNDERSTOOD.now;
    }) result }
    ensures state { D.state disk.new ≡ D.state disk.old }
    ensures back { StreamsBack (command_of home.now (map (λ word. string_bytes word) words.now)) (D.streams disk.old) (D.streams disk.new) }
{
    match command_of(alloc, home, words) {
        Ok(Command::Walk(asked)) => {
            let status = status_by(listed(alloc, &asked, sink, errors, disk));
            hinted(status, words)
        }
        Ok(Command::Help) => answer(sink, HELP.as_bytes(), Status::Done),
        Ok(Command::Version) => answer(sink, VERSION.as_bytes(), Status::Done),
        Ok(Command::NotUnderstood(told)) => {
            answer(sink, NOT_UNDERSTOOD.as_bytes(), Status::NotUnderstood(told))
        }
        Err(NoMemory) => Status::NoMemory,
    }
}

/// The status, with a hint at help if the word `help` alone gave errors.
fn hinted(status: Status, words: &[String]) -> Status
    ensures status { result ≡ hinted status (seeks_help (map (λ word. string_bytes word) words.now)) }
{
    match status {
        Status::SomeErrors => {
            if seeks_help(words) {
                Status::HelpSought
            } else {
                Status::SomeErrors
            }
        }
        status => status,
    }
}

/// The status for the result of writing lines.
fn status_by(listed: Result<Status, LineError>) -> Status
    ensures status { result ≡ status_by listed }
{
    match listed {
        Ok(status) => status,
        Err(LineError::OutputFailed) => Status::WriteFault,
        Err(LineError::ErrorsFailed) => Status::ErrorFault,
        Err(LineError::NoMemory) => Status::NoMemory,
    }
}

/// Walks the folders that are asked for, one after the other.
fn listed<K: Sink, E: Sink, D: Disk>(
    alloc: Global,
    asked: &Asked,
    sink: &mut K,
    errors: &mut E,
    disk: &mut D,
) -> Result<Status, LineError>
    ensures ends { EndsAll (record {
      choices = asked.now.choices;
      state = D.state disk.old;
      folders = asked.now.folders;
      first = record { streams = D.streams disk.old; disk_faults = D.faults disk.old; held = K.held sink.old; told = E.held errors.old };
      last = record { streams = D.streams disk.new; disk_faults = D.faults disk.new; held = K.held sink.new; told = E.held errors.new };
    }) result }
    ensures cause { IsErrOf result LineError.OutputFailed → Rose (K.faults sink.old) (K.faults sink.new) }
    ensures cause_errors { IsErrOf result LineError.ErrorsFailed → Rose (E.faults errors.old) (E.faults errors.new) }
    ensures state { D.state disk.new ≡ D.state disk.old }
    ensures back { AreBack (D.streams disk.old) (options_of asked.now.choices).max_open (D.streams disk.new) }
{
    let choices = asked.choices;
    let mut status = Status::Done;
    let mut rest = asked.folders.as_slice();
    'folders: while let [folder, more @ ..] = rest {
        match visited(alloc, folder, choices, sink, errors, disk) {
            Ok(own) => status = worse(status, own),
            Err(error) => return Err(error),
        }
        rest = more;
    }
    Ok(status)
}

/// Combines two statuses: some errors are worse than none.
fn worse(status: Status, own: Status) -> Status
    ensures worse { result ≡ worse status own }
{
    match status {
        Status::Done => own,
        status => status,
    }
}

/// Walks one folder.
fn visited<K: Sink, E: Sink, D: Disk>(
    alloc: Global,
    folder: &PathText,
    choices: Choices,
    sink: &mut K,
    errors: &mut E,
    disk: &mut D,
) -> Result<Status, LineError>
    ensures ends { EndsVisit (record {
      choices = choices;
      state = D.state disk.old;
      folder = folder.now;
      before = record { streams = D.streams disk.old; disk_faults = D.faults disk.old; held = K.held sink.old; told = E.held errors.old };
      after = record { streams = D.streams disk.new; disk_faults = D.faults disk.new; held = K.held sink.new; told = E.held errors.new };
    }) result }
    ensures cause { IsErrOf result LineError.OutputFailed → Rose (K.faults sink.old) (K.faults sink.new) }
    ensures cause_errors { IsErrOf result LineError.ErrorsFailed → Rose (E.faults errors.old) (E.faults errors.new) }
    ensures later { K.faults sink.old ≤ K.faults sink.new }
    ensures later_errors { E.faults errors.old ≤ E.faults errors.new }
    ensures state { D.state disk.new ≡ D.state disk.old }
    ensures back { AreBack (D.streams disk.old) (options_of choices).max_open (D.streams disk.new) }
{
    match folder.try_clone(alloc) {
        Ok(root) => settled(walk_of(alloc, root, choices, sink, errors, disk)),
        Err(NoMemory) => Err(LineError::NoMemory),
    }
}

/// The result of a walk that ended with a status: one that ran out of memory was cut off.
fn settled(ended: Result<Status, LineError>) -> Result<Status, LineError>
    ensures settled { result ≡ settled ended }
{
    match ended {
        Ok(Status::Done) => Ok(Status::Done),
        Ok(Status::SomeErrors) => Ok(Status::SomeErrors),
        Ok(Status::HelpSought) => Err(LineError::NoMemory),
        Ok(Status::NotUnderstood(_)) => Err(LineError::NoMemory),
        Ok(Status::WriteFault) => Err(LineError::NoMemory),
        Ok(Status::ErrorFault) => Err(LineError::NoMemory),
        Ok(Status::NoMemory) => Err(LineError::NoMemory),
        Err(error) => Err(error),
    }
}

/// Makes a walk with the chosen options.
fn walk_of<K: Sink, E: Sink, D: Disk>(
    alloc: Global,
    root: PathText,
    choices: Choices,
    sink: &mut K,
    errors: &mut E,
    disk: &mut D,
) -> Result<Status, LineError>
    ensures ends { EndsVisit (record {
      choices = choices;
      state = D.state disk.old;
      folder = root;
      before = record { streams = D.streams disk.old; disk_faults = D.faults disk.old; held = K.held sink.old; told = E.held errors.old };
      after = record { streams = D.streams disk.new; disk_faults = D.faults disk.new; held = K.held sink.new; told = E.held errors.new };
    }) (settled result) }
    ensures cause { IsErrOf result LineError.OutputFailed → Rose (K.faults sink.old) (K.faults sink.new) }
    ensures cause_errors { IsErrOf result LineError.ErrorsFailed → Rose (E.faults errors.old) (E.faults errors.new) }
    ensures later { K.faults sink.old ≤ K.faults sink.new }
    ensures later_errors { E.faults errors.old ≤ E.faults errors.new }
    ensures state { D.state disk.new ≡ D.state disk.old }
    ensures back { AreBack (D.streams disk.old) (options_of choices).max_open (D.streams disk.new) }
{
    let walk = chosen(WalkDir::at(root), choices);
    if choices.sort {
        walked(
            alloc,
            walk.sort_by_file_name(),
            choices.nul,
            sink,
            errors,
            disk,
        )
    } else {
        walked(alloc, walk, choices.nul, sink, errors, disk)
    }
}

/// Writes a line for each item of a walk.
fn walked<S: Sorter + Drop, K: Sink, E: Sink, D: Disk>(
    alloc: Global,
    walk: WalkDir<S>,
    nul: bool,
    sink: &mut K,
    errors: &mut E,
    disk: &mut D,
) -> Result<Status, LineError>
    ensures ends { EndsWritten (record {
      state = D.state disk.old;
      first = begun S.order walk (D.streams disk.old);
      nul = nul;
      held = K.held sink.old;
      held' = K.held sink.new;
      told = E.held errors.old;
      told' = E.held errors.new;
      disk_faults = D.faults disk.old;
      disk_faults' = D.faults disk.new;
    }) result }
    ensures cause { IsErrOf result LineError.OutputFailed → Rose (K.faults sink.old) (K.faults sink.new) }
    ensures cause_errors { IsErrOf result LineError.ErrorsFailed → Rose (E.faults errors.old) (E.faults errors.new) }
    ensures later { K.faults sink.old ≤ K.faults sink.new }
    ensures later_errors { E.faults errors.old ≤ E.faults errors.new }
    ensures state { D.state disk.new ≡ D.state disk.old }
    ensures back { AreBack (D.streams disk.old) walk.options.max_open (D.streams disk.new) }
{
    match walk.into_iter_on(alloc, disk) {
        Ok(mut walk) => written(alloc, &mut walk, nul, sink, errors),
        Err(NoMemory) => Err(LineError::NoMemory),
    }
}

/// A walk with these choices.
fn chosen<S: Drop>(walk: WalkDir<S>, choices: Choices) -> WalkDir<S>
    ensures walk { result ≡ record walk { options = chosen_by choices walk.options } }
{
    let walk = walk
        .follow_links(choices.follow)
        .contents_first(choices.contents_first)
        .same_file_system(choices.same_file_system);
    let walk = with_max_open(walk, choices.max_open);
    let walk = with_min_depth(walk, choices.min_depth);
    with_max_depth(walk, choices.max_depth)
}

fn with_max_open<S: Drop>(walk: WalkDir<S>, count: Option<usize>) -> WalkDir<S>
    ensures walk { result ≡ record walk { options = max_open_by count walk.options } }
{
    match count {
        Some(count) => walk.max_open(count),
        None => walk,
    }
}

fn with_min_depth<S: Drop>(walk: WalkDir<S>, depth: Option<usize>) -> WalkDir<S>
    ensures walk { result ≡ record walk { options = min_depth_by depth walk.options } }
{
    match depth {
        Some(depth) => walk.min_depth(depth),
        None => walk,
    }
}

fn with_max_depth<S: Drop>(walk: WalkDir<S>, depth: Option<usize>) -> WalkDir<S>
    ensures walk { result ≡ record walk { options = max_depth_by depth walk.options } }
{
    match depth {
        Some(depth) => walk.max_depth(depth),
        None => walk,
    }
}

/// Writes a line for each item that a walk still gives. A walk that ran out of memory is over.
fn written<K: Sink, E: Sink, D: Disk, W: Steps>(
    alloc: Global,
    walk: &mut OnDisk<'_, D, W>,
    nul: bool,
    sink: &mut K,
    errors: &mut E,
) -> Result<Status, LineError>
    requires own { has_its_streams (W.progress walk.old.walk (D.streams walk.old.disk.now)) ≡ true }
    ensures ends { EndsWritten (record {
      state = D.state walk.old.disk.now;
      first = W.progress walk.old.walk (D.streams walk.old.disk.now);
      nul = nul;
      held = K.held sink.old;
      held' = K.held sink.new;
      told = E.held errors.old;
      told' = E.held errors.new;
      disk_faults = D.faults walk.old.disk.now;
      disk_faults' = D.faults walk.new.disk.now;
    }) result }
    ensures cause { IsErrOf result LineError.OutputFailed → Rose (K.faults sink.old) (K.faults sink.new) }
    ensures cause_errors { IsErrOf result LineError.ErrorsFailed → Rose (E.faults errors.old) (E.faults errors.new) }
    ensures later { K.faults sink.old ≤ K.faults sink.new }
    ensures later_errors { E.faults errors.old ≤ E.faults errors.new }
    ensures state { D.state walk.new.disk.now ≡ D.state walk.old.disk.now }
    ensures leaves { Leaves (W.progress walk.old.walk (D.streams walk.old.disk.now)) (W.progress walk.new.walk (D.streams walk.new.disk.now)) }
    ensures disk { walk.new.disk.ghost_name ≡ walk.old.disk.ghost_name }
{
    let mut lines = Lines::new(alloc, nul);
    let mut status = Status::Done;
    'items: while let Some(item) = walk.next() {
        if is_want(&item) {
            drop(item);
            return ended(lines, sink, Status::NoMemory);
        }
        if item.is_err() {
            status = Status::SomeErrors;
        }
        lines.put(alloc, sink, errors, item)?;
    }
    ended(lines, sink, status)
}

/// Writes what is gathered, and returns a status.
fn ended<K: Sink>(lines: Lines, sink: &mut K, status: Status) -> Result<Status, LineError>
    ensures ok { IfOk result (λ answer. (answer ≡ status) × Adds (K.held sink.old) (K.held sink.new) (string_bytes lines.text)) }
    ensures err { OnErr result ((count : ℕ) × Adds (K.held sink.old) (K.held sink.new) (take count (string_bytes lines.text))) }
    ensures cause { IsErrOf result LineError.OutputFailed → Rose (K.faults sink.old) (K.faults sink.new) }
    ensures no_other { ¬ (IsErrOf result LineError.ErrorsFailed) }
    ensures later { K.faults sink.old ≤ K.faults sink.new }
{
    let mut lines = lines;
    lines.flush(sink)?;
    Ok(status)
}

/// Whether an item is out of memory.
fn is_want(item: &walkdir::Result<DirEntry>) -> bool
    ensures want { result ≡ is_want item.now }
{
    match item {
        Ok(_) => false,
        Err(error) => error.is_out_of_memory(),
    }
}
