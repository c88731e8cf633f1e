//! What the calls of a disk return to a walk.
ghost use Rattle.std.specs.Prelude.{◌≡◌, ◌≢◌, ◌+◌, ◌<◌, ◌≤◌, ◌++◌, true, false, [], None, Ok, length, map, IfOk, IfErr, IfSome, OnOk};
ghost use Rattle.std.specs.List.{filter_map};
ghost use Rattle.std.specs.Result.{result_ok};
ghost use Rattle.std.specs.Option.{option_map};
ghost use Rattle.std.specs.FinMap as finite;
ghost use Rattle.odb_disk.specs.declared.disk_error.DiskError.TheVariants.{NoMemory as out_of_memory};
ghost use Rattle.odb_disk.specs.Tree.{tree_of};
ghost use Rattle.odb_disk.specs.Tree.Follow.{looked};
ghost use Rattle.odb_base.specs.Path.{is_name};
ghost use Rattle.odb_disk.specs.CallsMade.{Leads};
ghost use Rattle.walkdir.specs.Answered.{AreHeld, LooksBy};
ghost use Rattle.walkdir.specs.AnsweredTurns.{TellsContents, TellsItem};
ghost use Rattle.walkdir.specs.Error.{no_memory, is_no_memory, IsOnPath};
ghost use Rattle.walkdir.specs.Options.{greatest_depth};
ghost use Rattle.walkdir.specs.Failures.{Costs, failures_among, failures_by, failures_given, failures_left, failures_of};
ghost use Rattle.walkdir.specs.Directory.{most_entries, AreAt, IsAt, held, is_skipped, left_in};
ghost use Rattle.walkdir.specs.Turns.Drawn.{Draws, IsDrawn, OnlyFailure, OpensAtMost, OpensContents, ReadInOrder, StreamsAll, left_of, stream_of};
ghost use Rattle.walkdir.specs.Walk.{Tells, told_at};
ghost use Rattle.walkdir.specs.Walk.Children.{child_of, error_in, IsInOrder};
ghost use Rattle.walkdir.specs.Walk.Entries.{entry_by, place_of};

use crate::directory::{Items, Place};
use crate::sort::Sorter;
use crate::{DirEntry, Error, Result};
use odb_disk::{DirId, Disk};
use odb_mem_disk::{BadPath, DiskError, Entry, Meta, PathText};
use std::alloc::Global;
use std::collections::VecDeque;

/// Stats a path. A refusal is an error at this depth.
pub(crate) fn look<D: Disk>(
    alloc: Global,
    disk: &mut D,
    depth: usize,
    path: &PathText,
    follow: bool,
) -> Result<Meta>
    ensures call { IfErr result (λ e. IsOnPath path.now depth e) }
    ensures answered { LooksBy D.answered depth path.now follow disk.old result disk.new }
    ensures told { IfSome (D.state disk.old)
        (λ s. Tells depth path.now result (told_at depth path.now (looked (tree_of s) path.now follow))) }
    ensures kept { D.state disk.new ≡ D.state disk.old }
    ensures streams { D.streams disk.new ≡ D.streams disk.old }
    ensures cause { Costs (failures_of result) (D.faults disk.old) (D.faults disk.new) }
{
    match disk.look(alloc, path, follow) {
        Ok(meta) => Ok(meta),
        Err(error) => Err(Error::from_path(alloc, depth, path, error)),
    }
}

/// The next item of a stream: a child of its directory, an error, or None at its end.
pub(crate) fn next_of<D: Disk>(
    alloc: Global,
    disk: &mut D,
    dir: DirId,
    parent: &PathText,
    depth: usize,
) -> Option<Result<DirEntry>>
    ensures draws { Draws depth parent.now (D.streams disk.old) dir result (D.streams disk.new) }
    ensures at { IfSome result (λ item. IsAt parent.now depth item) }
    ensures answered { TellsItem D.answered disk.old result disk.new }
    ensures kept { D.state disk.new ≡ D.state disk.old }
    ensures cause { Costs (failures_given result) (D.faults disk.old) (D.faults disk.new) }
{
    match disk.next_entry(alloc, &dir) {
        Ok(None) => None,
        Ok(Some(entry)) => Some(child(alloc, parent, depth, &entry)),
        Err(error) => Some(Err(Error::from_stream(depth, error))),
    }
}

/// The rest of a stream, up to the error that ends it.
pub(crate) fn rest_of<D: Disk>(
    alloc: Global,
    disk: &mut D,
    dir: DirId,
    parent: &PathText,
    depth: usize,
) -> Result<VecDeque<Result<DirEntry>>>
    ensures drawn { IsDrawn (D.streams disk.old) dir (D.streams disk.new) }
    ensures streamed { IfOk result (λ items. StreamsAll depth parent.now (D.streams disk.old) dir items.items) }
    ensures few { IfOk result (λ items. length items.items ≤ left_of (D.streams disk.old) dir + 1) }
    ensures children { IfOk result (λ items. AreAt parent.now depth items.items) }
    ensures leads { Leads D.answered disk.old disk.new }
    ensures answered { IfOk result (λ items. AreHeld D.answered disk.old disk.new items.items) }
    ensures lost { IfErr result (λ e. is_no_memory e ≡ true) }
    ensures kept { D.state disk.new ≡ D.state disk.old }
    ensures cause { Costs (failures_by (λ items. failures_among items.items) result) (D.faults disk.old)
        (D.faults disk.new) }
{
    let mut items = VecDeque::new(alloc);
    loop {
        match next_of(alloc, disk, dir, parent, depth) {
            None => return Ok(items),
            Some(Ok(entry)) => items.push_back(Ok(entry))?,
            Some(Err(error)) => {
                if error.is_out_of_memory() {
                    return Err(error);
                }
                items.push_back(Err(error))?;
                return Ok(items);
            }
        }
    }
}

/// The contents of a directory: its stream, or what that gave, in order; the error, if it can't be opened.
pub(crate) fn open<D: Disk, S: Sorter>(
    alloc: Global,
    disk: &mut D,
    sorter: &Option<S>,
    path: &PathText,
    depth: usize,
) -> Result<Items>
    requires depth { depth < greatest_depth }
    ensures streams { OpensAtMost (D.streams disk.old) (stream_of result) (D.streams disk.new) }
    ensures bounded { IfOk result (λ items. left_in (D.streams disk.new) items ≤ most_entries) }
    ensures children { IfOk result (λ items. AreAt path.now (depth + 1) (held items)) }
    ensures contents { OpensContents (D.state disk.old) (option_map S.order sorter.now) path.now depth result
        (D.streams disk.new) }
    ensures whole { IfOk result (λ items. is_skipped items ≡ false) }
    ensures lost { IfErr result (λ e. is_no_memory e ≡ true) }
    ensures answered { TellsContents D.answered disk.old result disk.new }
    ensures kept { D.state disk.new ≡ D.state disk.old }
    ensures cause { Costs (failures_by failures_left result) (D.faults disk.old) (D.faults disk.new) }
{
    match disk.open_dir(alloc, path) {
        Ok(dir) => match sorter {
            None => Ok(Items::Opened(dir)),
            Some(sorter) => sorted(alloc, disk, sorter, dir, path, depth + 1),
        },
        Err(error) => unopened(alloc, path, depth, error),
    }
}

/// The contents of a directory that can't be opened: the error.
fn unopened(alloc: Global, path: &PathText, depth: usize, error: DiskError) -> Result<Items>
    ensures held { IfOk result (λ items. OnlyFailure depth path.now error items) }
    ensures refused { IfOk result (λ _. error ≢ out_of_memory) }
    ensures whole { IfOk result (λ items. is_skipped items ≡ false) }
    ensures children { IfOk result (λ items. AreAt path.now (depth + 1) (held items)) }
    ensures lost { IfErr result (λ e. is_no_memory e ≡ true) }
{
    let error = Error::from_path(alloc, depth, path, error);
    if error.is_out_of_memory() {
        return Err(error);
    }
    let mut items = VecDeque::new(alloc);
    items.push_back(Err(error))?;
    Ok(Items::Closed(items))
}

/// The children that a stream gives, in order. The stream is closed.
fn sorted<D: Disk, S: Sorter>(
    alloc: Global,
    disk: &mut D,
    sorter: &S,
    dir: DirId,
    parent: &PathText,
    depth: usize,
) -> Result<Items>
    ensures drawn { (D.streams disk.new).open_dirs ≡ finite.remove (D.streams disk.old).open_dirs dir }
    ensures peak { (D.streams disk.new).peak ≡ (D.streams disk.old).peak }
    ensures closed { stream_of result ≡ None }
    ensures whole { IfOk result (λ items. is_skipped items ≡ false) }
    ensures bounded { IfOk result (λ items. length (held items) < most_entries) }
    ensures children { IfOk result (λ items. AreAt parent.now depth (held items)) }
    ensures order { IfOk result
        (λ items. ReadInOrder (S.order sorter.now) depth parent.now (D.streams disk.old) dir items) }
    ensures lost { IfErr result (λ e. is_no_memory e ≡ true) }
    ensures answered { TellsContents D.answered disk.old result disk.new }
    ensures kept { D.state disk.new ≡ D.state disk.old }
    ensures cause { Costs (failures_by failures_left result) (D.faults disk.old) (D.faults disk.new) }
{
    let read = rest_of(alloc, disk, dir, parent, depth);
    disk.close_dir(dir);
    Ok(Items::Closed(in_order(alloc, sorter, read?)?))
}

/// Children in order, after the errors among them.
fn in_order<S: Sorter>(
    alloc: Global,
    sorter: &S,
    children: VecDeque<Result<DirEntry>>,
) -> Result<VecDeque<Result<DirEntry>>>
    ensures order { IfOk result (λ ordered. IsInOrder (S.order sorter.now) children.items ordered.items) }
    ensures lost { IfErr result (λ e. e ≡ no_memory) }
{
    let mut entries = Vec::new(alloc);
    let mut ordered = VecDeque::new(alloc);
    tell_apart(children, &mut entries, &mut ordered)?;
    entries.sort_by(|a, b| sorter.compare(a, b))?;
    put_behind(entries, &mut ordered)?;
    Ok(ordered)
}

/// Splits children into entries and errors, each in their old order.
fn tell_apart(
    children: VecDeque<Result<DirEntry>>,
    entries: &mut Vec<DirEntry>,
    errors: &mut VecDeque<Result<DirEntry>>,
) -> Result<()>
    requires no_entry { entries.old.items ≡ [] }
    requires no_error { errors.old.items ≡ [] }
    ensures entries { OnOk result (entries.new.items ≡ filter_map result_ok children.items) }
    ensures errors { OnOk result (errors.new.items ≡ filter_map error_in children.items) }
    ensures lost { IfErr result (λ e. e ≡ no_memory) }
{
    for child in children {
        match child {
            Ok(entry) => entries.push(entry)?,
            Err(error) => errors.push_back(Err(error))?,
        }
    }
    Ok(())
}

/// Appends entries to what is already ordered.
fn put_behind(entries: Vec<DirEntry>, ordered: &mut VecDeque<Result<DirEntry>>) -> Result<()>
    ensures behind { OnOk result (ordered.new.items ≡ ordered.old.items ++ map Ok entries.items) }
    ensures lost { IfErr result (λ e. e ≡ no_memory) }
{
    for entry in entries {
        ordered.push_back(Ok(entry))?;
    }
    Ok(())
}

pub(crate) fn place_in(meta: &Meta) -> Place
    ensures told { result ≡ place_of meta.now }
{
    Place {
        dev: meta.dev,
        ino: meta.ino,
    }
}

/// An entry from the result of a stat.
pub(crate) fn entry_by(path: PathText, meta: &Meta, followed: bool, depth: usize) -> DirEntry
    ensures made { result ≡ entry_by path followed depth meta.now }
{
    DirEntry::new(path, meta.kind, followed, depth, meta.ino)
}

/// An entry from what a stream gave.
fn child(alloc: Global, parent: &PathText, depth: usize, entry: &Entry) -> Result<DirEntry>
    requires name { is_name entry.now.name ≡ true }
    ensures child { IfOk result (λ child. child ≡ child_of parent.now depth entry.now) }
    ensures lost { IfErr result (λ e. e ≡ no_memory) }
{
    match parent.join(alloc, entry.name.as_str()) {
        Ok(path) => Ok(DirEntry::new(path, entry.kind, false, depth, entry.ino)),
        Err(BadPath::NoMemory) => Err(Error::out_of_memory()),
        Err(BadPath::Malformed) => unreachable!("a disk gives names alone"),
    }
}
