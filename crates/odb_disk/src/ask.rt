//! Calls of a disk as values, and their answers.
ghost use Rattle.std.specs.Prelude.{◌≡◌, ◌≤◌, false, Result, IfSome};
ghost use Rattle.std.specs.Option.{option_map};
ghost use Rattle.odb_base.specs.Faults.{Rose};
ghost use Rattle.odb_disk.specs.Tree.{IsTree, tree_of};
ghost use Rattle.odb_disk.specs.Ask.{answer_of, op_of, path_asked, state_told_after, AnswersAsk};
ghost use Rattle.odb_disk.specs.Told.{told_look, told_read, told_open, told_next, told_write};
ghost use Rattle.odb_disk.specs.StreamAsks.{is_of_streams, AnswersStreams};

use crate::{DirId, Disk, DiskError, Entry, Meta};
use odb_base::{ByteList, PathText};
use std::alloc::Global;

/// A call of a disk as a value.
#[derive(Drop)]
pub enum DiskAsk {
    Look { path: PathText, follow: bool },
    Read { path: PathText },
    OpenDir { path: PathText },
    NextEntry { dir: DirId },
    CloseDir { dir: DirId },
    MakeDir { path: PathText },
    NewFile { path: PathText },
    Append { path: PathText, bytes: ByteList },
    Rename { from: PathText, to: PathText },
    Remove { path: PathText },
}

/// The answer of a disk to a call.
#[derive(Drop)]
pub enum DiskAnswer {
    Meta(Meta),
    File { bytes: ByteList, time: u64 },
    /// A stream that was opened.
    Dir(DirId),
    /// The next entry of a stream.
    Entry(Entry),
    /// A stream has no more entries.
    End,
    /// A call that writes is done, or a stream is closed.
    Done,
    Refused(DiskError),
}

/// The name of a call of a disk.
#[derive(Clone, Copy, Debug)]
pub enum Op {
    Look,
    Read,
    OpenDir,
    NextEntry,
    CloseDir,
    MakeDir,
    NewFile,
    Append,
    Rename,
    Remove,
}

impl DiskAsk {
    /// The name of the call.
    pub fn op(&self) -> Op
        ensures op { result ≡ op_of self.now }
    {
        match self {
            DiskAsk::Look { .. } => Op::Look,
            DiskAsk::Read { .. } => Op::Read,
            DiskAsk::OpenDir { .. } => Op::OpenDir,
            DiskAsk::NextEntry { .. } => Op::NextEntry,
            DiskAsk::CloseDir { .. } => Op::CloseDir,
            DiskAsk::MakeDir { .. } => Op::MakeDir,
            DiskAsk::NewFile { .. } => Op::NewFile,
            DiskAsk::Append { .. } => Op::Append,
            DiskAsk::Rename { .. } => Op::Rename,
            DiskAsk::Remove { .. } => Op::Remove,
        }
    }

    /// The path of the call; of a rename, the source. A call on an open stream has none: whoever opened the stream
    /// knows the path.
    pub fn path(&self) -> Option<&PathText>
        ensures path { option_map (λ path. path.now) result ≡ path_asked self.now }
    {
        match self {
            DiskAsk::Look { path, .. } => Some(path),
            DiskAsk::Read { path } => Some(path),
            DiskAsk::OpenDir { path } => Some(path),
            DiskAsk::NextEntry { .. } => None,
            DiskAsk::CloseDir { .. } => None,
            DiskAsk::MakeDir { path } => Some(path),
            DiskAsk::NewFile { path } => Some(path),
            DiskAsk::Append { path, .. } => Some(path),
            DiskAsk::Rename { from, .. } => Some(from),
            DiskAsk::Remove { path } => Some(path),
        }
    }

    /// Makes the call on a disk.
    pub fn carry_out<D: Disk>(&self, alloc: Global, disk: &mut D) -> DiskAnswer
        ensures answer { is_of_streams self.now ≡ false → IfSome (D.state disk.old) (λ s. AnswersAsk result (answer_of (tree_of s) self.now)) }
        ensures of_streams { AnswersStreams (D.state disk.old) (D.streams disk.old) (D.streams disk.new) self.now result }
        ensures streams { is_of_streams self.now ≡ false → D.streams disk.new ≡ D.streams disk.old }
        ensures state { D.state disk.new ≡ state_told_after (D.state disk.old) self.now result }
        ensures answered { D.answered disk.old self.now result disk.new }
        ensures tree { IfSome (D.state disk.old) (λ s. IsTree (tree_of s)) }
        ensures later { D.faults disk.old ≤ D.faults disk.new }
        ensures cause { result ≡ DiskAnswer.Refused DiskError.Failed → Rose (D.faults disk.old) (D.faults disk.new) }
    {
        match self {
            DiskAsk::Look { path, follow } => look_answer(disk.look(alloc, path, *follow)),
            DiskAsk::Read { path } => read_answer(disk.read(alloc, path)),
            DiskAsk::OpenDir { path } => dir_answer(disk.open_dir(alloc, path)),
            DiskAsk::NextEntry { dir } => entry_answer(disk.next_entry(alloc, dir)),
            DiskAsk::CloseDir { dir } => {
                disk.close_dir(*dir);
                DiskAnswer::Done
            }
            DiskAsk::MakeDir { path } => write_answer(disk.make_dir(alloc, path)),
            DiskAsk::NewFile { path } => write_answer(disk.new_file(alloc, path)),
            DiskAsk::Append { path, bytes } => {
                write_answer(disk.append(alloc, path, bytes.as_slice()))
            }
            DiskAsk::Rename { from, to } => write_answer(disk.rename(alloc, from, to)),
            DiskAsk::Remove { path } => write_answer(disk.remove(alloc, path)),
        }
    }
}

/// The answer to a stat.
fn look_answer(found: Result<Meta, DiskError>) -> DiskAnswer
    ensures told { result ≡ told_look found }
{
    match found {
        Ok(meta) => DiskAnswer::Meta(meta),
        Err(error) => DiskAnswer::Refused(error),
    }
}

/// The answer to a read.
fn read_answer(found: Result<(ByteList, u64), DiskError>) -> DiskAnswer
    ensures told { result ≡ told_read found }
{
    match found {
        Ok((bytes, time)) => DiskAnswer::File { bytes, time },
        Err(error) => DiskAnswer::Refused(error),
    }
}

/// The answer to an opening of a directory.
fn dir_answer(opened: Result<DirId, DiskError>) -> DiskAnswer
    ensures told { result ≡ told_open opened }
{
    match opened {
        Ok(dir) => DiskAnswer::Dir(dir),
        Err(error) => DiskAnswer::Refused(error),
    }
}

/// The answer to a call for the next entry of a stream.
fn entry_answer(given: Result<Option<Entry>, DiskError>) -> DiskAnswer
    ensures told { result ≡ told_next given }
{
    match given {
        Ok(Some(entry)) => DiskAnswer::Entry(entry),
        Ok(None) => DiskAnswer::End,
        Err(error) => DiskAnswer::Refused(error),
    }
}

/// The answer to a call that writes.
fn write_answer(made: Result<(), DiskError>) -> DiskAnswer
    ensures told { result ≡ told_write made }
{
    match made {
        Ok(()) => DiskAnswer::Done,
        Err(error) => DiskAnswer::Refused(error),
    }
}
