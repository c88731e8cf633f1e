//! A walk without its disk: a stack of the directories that it is in, and one turn after the other.
ghost use Rattle.std.specs.Prelude.{◌≡◌, ◌+◌, ◌≤◌, true, length};
ghost use Rattle.walkdir.specs.Turns.{turn_given, turn_of};
ghost use Rattle.walkdir.specs.Sound.{is_sound};

use crate::builder::Options;
use crate::directory::{DirList, Entering, Items};
use crate::iter::Steps;
use crate::read::{entry_by, look};
use crate::sort::Sorter;
use crate::{DirEntry, Error, Result};
use odb_disk::Disk;
use odb_mem_disk::PathText;
use std::alloc::Global;

mod draw;
mod enter;
mod follow;

/// The state of a walk without its disk.
///
/// The directories that the walk is in are on a stack. The outer ones below `first_open` have no open stream: the rest
/// of them was read into memory.
#[derive(Drop)]
pub struct Stack<S> {
    alloc: Global,
    options: Options,
    sorter: Option<S>,
    /// The root, until the walk begins.
    start: Option<PathText>,
    /// The device of the root, looked up if the walk stays on it.
    root_device: u64,
    lists: Vec<DirList>,
    first_open: usize,
    entered: bool,
    ghost some_open: { 1 ≤ options.max_open },
    ghost in_range: { first_open ≤ length lists.items },
    ghost few: { length lists.items ≤ first_open + options.max_open },
    ghost sound: { is_sound options start lists.items first_open ≡ true },
}

/// The result of one turn of a walk.
#[derive(Drop)]
pub enum Turn {
    Item(Result<DirEntry>),
    /// Nothing is given, and the walk goes on.
    Passed,
    Ended,
}

impl<S: Sorter + Drop> Stack<S> {
    ghost use Rattle.std.specs.Prelude.{false, [], None, reverse, IfErr};
    ghost use Rattle.odb_disk.specs.Streams.{Streams};
    ghost use Rattle.walkdir.specs.Error.{IsOnPath};
    ghost use Rattle.walkdir.specs.AnsweredTurns.{TellsLook};
    ghost use Rattle.walkdir.specs.Turns.Taken.{FindsDevice};
    ghost use Rattle.walkdir.specs.Failures.{Costs, failures_given, failures_of};
    ghost use Rattle.walkdir.specs.Options.{AreBuilt, is_given};
    ghost use Rattle.walkdir.specs.Within.{LiesIn};
    ghost use Rattle.walkdir.specs.Progress.{begun, has_its_streams, is_innermost, FailsByFault, GivesDirectory, GivesEntered, GivesNext};
    ghost use Rattle.walkdir.specs.Causes.{IsCausedAmong};
    ghost use Rattle.walkdir.specs.StackProgress.{progress};
    ghost use Rattle.walkdir.specs.Answered.{TellsOn};
    ghost use Rattle.walkdir.specs.Innermost.{is_head_skipped, IsAfter};
    ghost use Rattle.walkdir.specs.Turns.{fresh, given_if, handed, item_of, GoesOn, Turns};
    ghost use Rattle.walkdir.specs.Turns.Stands.{BeginsWalk, HandlesEntry};
    ghost use Rattle.walkdir.specs.Turns.AtIndex.{IsUnskipped};
    ghost use Rattle.walkdir.specs.EnteredTurns.{BeginsAbove, BeginsTelling, HandlesAbove, HandlesTelling};
    ghost use Rattle.walkdir.specs.Stack.{ancestors};

    #[tactic(auto, unfolding(crate::specs::Sound::is_sound, crate::specs::Sound::all_fit))]
    pub(crate) fn new(
        alloc: Global,
        options: Options,
        sorter: Option<S>,
        root: PathText,
    ) -> Stack<S>
        requires built { AreBuilt options }
        ensures begun { (streams : Streams)
            → progress S.order result streams
            ≡ begun S.order (record { root = root; options = options; sorter = sorter }) streams }
    {
        Stack {
            alloc,
            options,
            sorter,
            start: Some(root),
            root_device: 0,
            lists: Vec::new(alloc),
            first_open: 0,
            entered: false,
        }
    }

    /// Makes one turn: begins at the root, or goes on.
    fn turn<D: Disk>(&mut self, disk: &mut D) -> Turn
        requires own { has_its_streams (progress S.order self.old (D.streams disk.old)) ≡ true }
        ensures gives { GivesNext (D.state disk.old) (progress S.order self.old (D.streams disk.old)) (item_of result)
            (progress S.order self.new (D.streams disk.new)) }
        ensures turns { Turns (progress S.order self.old (D.streams disk.old)) result
            (progress S.order self.new (D.streams disk.new)) }
        ensures faults { FailsByFault (progress S.order self.old (D.streams disk.old)) (D.faults disk.old)
            (failures_given (item_of result)) (progress S.order self.new (D.streams disk.new)) (D.faults disk.new) }
        ensures answered { TellsOn D.answered disk.old (reverse self.old.lists.items) (item_of result) disk.new
            (reverse self.new.lists.items) }
        ensures directory { self.old.entered ≡ false
            → GivesDirectory (D.state disk.old) (progress S.order self.old (D.streams disk.old)) (item_of result)
            (progress S.order self.new (D.streams disk.new)) }
        ensures above { GivesEntered (D.state disk.old) (progress S.order self.old (D.streams disk.old))
            (item_of result) (progress S.order self.new (D.streams disk.new)) }
        ensures state { D.state disk.new ≡ D.state disk.old }
    {
        match self.start.take() {
            Some(root) => turn_of(self.start_at(disk, root)),
            None => self.begun_turn(disk),
        }
    }

    /// One turn of a walk that has begun: handles the next child of the innermost directory, or leaves that.
    fn begun_turn<D: Disk>(&mut self, disk: &mut D) -> Turn
        requires own { has_its_streams (progress S.order self.old (D.streams disk.old)) ≡ true }
        requires begun { self.old.start ≡ None }
        ensures gives { GivesNext (D.state disk.old) (progress S.order self.old (D.streams disk.old)) (item_of result)
            (progress S.order self.new (D.streams disk.new)) }
        ensures turns { Turns (progress S.order self.old (D.streams disk.old)) result
            (progress S.order self.new (D.streams disk.new)) }
        ensures faults { FailsByFault (progress S.order self.old (D.streams disk.old)) (D.faults disk.old)
            (failures_given (item_of result)) (progress S.order self.new (D.streams disk.new)) (D.faults disk.new) }
        ensures answered { TellsOn D.answered disk.old (reverse self.old.lists.items) (item_of result) disk.new
            (reverse self.new.lists.items) }
        ensures directory { self.old.entered ≡ false
            → GivesDirectory (D.state disk.old) (progress S.order self.old (D.streams disk.old)) (item_of result)
            (progress S.order self.new (D.streams disk.new)) }
        ensures above { GivesEntered (D.state disk.old) (progress S.order self.old (D.streams disk.old))
            (item_of result) (progress S.order self.new (D.streams disk.new)) }
        ensures state { D.state disk.new ≡ D.state disk.old }
    {
        let Some(index) = self.lists.len().checked_sub(1) else {
            return Turn::Ended;
        };
        match self.next_child(disk, index) {
            None => given(self.leave(disk)),
            Some(Err(error)) => Turn::Item(Err(error)),
            Some(Ok(entry)) => turn_of(self.handle(disk, entry)),
        }
    }

    /// Begins at the root. Its device is looked up first, if the walk stays on it.
    fn start_at<D: Disk>(&mut self, disk: &mut D, root: PathText) -> Result<Option<DirEntry>>
        requires start { self.old.start ≡ None }
        requires stack { self.old.lists.items ≡ [] }
        ensures goes { GoesOn (progress S.order self.old (D.streams disk.old)) (D.faults disk.old)
            (failures_of result) (fresh self.old.options.max_depth (length self.old.lists.items))
            (progress S.order self.new (D.streams disk.new)) (D.faults disk.new) }
        ensures causes { IfErr result
            (λ e. IsCausedAmong self.new.options (ancestors (reverse self.new.lists.items)) e) }
        ensures sorter { self.new.sorter ≡ self.old.sorter }
        ensures entered { self.old.entered ≡ false
            → self.new.entered ≡ is_innermost (reverse self.new.lists.items) (handed result) }
        ensures answered { TellsOn D.answered disk.old (reverse self.old.lists.items) (handed result) disk.new
            (reverse self.new.lists.items) }
        ensures state { D.state disk.new ≡ D.state disk.old }
        ensures innermost { IsAfter self.new.options (handed result) (reverse self.new.lists.items) }
        ensures begins { BeginsWalk (D.state disk.old) (progress S.order self.old (D.streams disk.old)) root
            (handed result) (progress S.order self.new (D.streams disk.new)) }
        ensures above { BeginsAbove (D.state disk.old) (progress S.order self.old (D.streams disk.old)) root
            (handed result) (progress S.order self.new (D.streams disk.new)) }
        ensures directory { self.old.entered ≡ false
            → BeginsTelling (D.state disk.old) (progress S.order self.old (D.streams disk.old)) root (handed result)
            (progress S.order self.new (D.streams disk.new)) }
    {
        let device = self.device_of(disk, &root)?;
        self.root_device = device;
        let meta = look(self.alloc, disk, 0, &root, false)?;
        self.handle(disk, entry_by(root, &meta, false, 0))
    }

    /// The device of the root, by a stat that follows links, if the walk stays on it.
    fn device_of<D: Disk>(&self, disk: &mut D, root: &PathText) -> Result<u64>
        ensures finds { FindsDevice (D.state disk.old) self.now.options root.now result }
        ensures call { IfErr result (λ e. IsOnPath root.now 0 e) }
        ensures streams { D.streams disk.new ≡ D.streams disk.old }
        ensures answered { TellsLook D.answered disk.old result disk.new }
        ensures state { D.state disk.new ≡ D.state disk.old }
        ensures cause { Costs (failures_of result) (D.faults disk.old) (D.faults disk.new) }
    {
        if !self.options.same_file_system {
            return Ok(self.root_device);
        }
        let meta = look(self.alloc, disk, 0, root, true)?;
        Ok(meta.dev)
    }

    /// Handles an entry: follows it, enters it, and gives it if it is to be given now.
    fn handle<D: Disk>(&mut self, disk: &mut D, entry: DirEntry) -> Result<Option<DirEntry>>
        requires start { self.old.start ≡ None }
        requires depth { entry.depth ≡ length self.old.lists.items }
        requires parent { LiesIn entry.path (reverse self.old.lists.items) }
        requires unskipped { is_head_skipped (reverse self.old.lists.items) ≡ false }
        ensures goes { GoesOn (progress S.order self.old (D.streams disk.old)) (D.faults disk.old)
            (failures_of result) (fresh self.old.options.max_depth (length self.old.lists.items))
            (progress S.order self.new (D.streams disk.new)) (D.faults disk.new) }
        ensures causes { IfErr result
            (λ e. IsCausedAmong self.new.options (ancestors (reverse self.new.lists.items)) e) }
        ensures sorter { self.new.sorter ≡ self.old.sorter }
        ensures entered { self.old.entered ≡ false
            → self.new.entered ≡ is_innermost (reverse self.new.lists.items) (handed result) }
        ensures answered { TellsOn D.answered disk.old (reverse self.old.lists.items) (handed result) disk.new
            (reverse self.new.lists.items) }
        ensures state { D.state disk.new ≡ D.state disk.old }
        ensures device { self.new.root_device ≡ self.old.root_device }
        ensures innermost { IsAfter self.new.options (handed result) (reverse self.new.lists.items) }
        ensures walks { HandlesEntry (D.state disk.old) (progress S.order self.old (D.streams disk.old)) entry
            (handed result) (progress S.order self.new (D.streams disk.new)) }
        ensures above { HandlesAbove (D.state disk.old) (progress S.order self.old (D.streams disk.old)) entry
            (handed result) (progress S.order self.new (D.streams disk.new)) }
        ensures directory { self.old.entered ≡ false
            → HandlesTelling (D.state disk.old) (progress S.order self.old (D.streams disk.old)) (handed result)
            (progress S.order self.new (D.streams disk.new)) }
    {
        let found = self.followed(disk, entry)?;
        match self.entering(disk, &found)? {
            Entering::Stays => Ok(self.shown(found.entry)),
            Entering::Enters(place) => self.enter(disk, found.entry, place),
        }
    }

    /// The entry, if its depth is given.
    fn shown(&self, entry: DirEntry) -> Option<DirEntry>
        ensures given { result ≡ given_if (is_given self.now.options entry.depth) entry }
    {
        let depth = entry.depth();
        if self.options.min_depth <= depth && depth <= self.options.max_depth {
            Some(entry)
        } else {
            None
        }
    }

    /// The index of the innermost directory that isn't skipped yet.
    fn unskipped(&self) -> Option<usize>
        ensures found { IsUnskipped self.now.lists.items result }
    {
        let mut index = self.lists.len();
        while index > 0 {
            index -= 1;
            if !self.lists[index].is_skipped() {
                return Some(index);
            }
        }
        None
    }
}

impl<S: Sorter + Drop> Steps for Stack<S> {
    ghost use Rattle.walkdir.specs.StackProgress.{progress};

    ghost progress = { λ walk streams. progress S.order walk streams };

    fn step<D: Disk>(&mut self, disk: &mut D) -> Option<Result<DirEntry>> {
        self.entered = false;
        loop {
            match self.turn(disk) {
                Turn::Ended => return None,
                Turn::Passed => {}
                Turn::Item(Ok(entry)) => return Some(Ok(entry)),
                Turn::Item(Err(error)) => {
                    if error.is_out_of_memory() {
                        self.end(disk);
                    }
                    return Some(Err(error));
                }
            }
        }
    }

    fn skip<D: Disk>(&mut self, disk: &mut D) {
        self.entered = false;
        if let Some(index) = self.unskipped() {
            self.lists[index].close(disk);
            self.put(index, Items::Skipped);
        }
    }

    fn has_entered(&self) -> bool {
        self.entered
    }

    fn end<D: Disk>(&mut self, disk: &mut D) {
        self.start = None;
        self.entered = false;
        while !self.lists.is_empty() {
            let _ = self.leave(disk);
        }
    }
}

/// The turn that gives an entry, if there is one.
fn given(item: Option<DirEntry>) -> Turn
    ensures turn { result ≡ turn_given item }
{
    match item {
        Some(entry) => Turn::Item(Ok(entry)),
        None => Turn::Passed,
    }
}

/// The turn that gives an entry or an error.
fn turn_of(item: Result<Option<DirEntry>>) -> Turn
    ensures turn { result ≡ turn_of item }
{
    match item {
        Ok(item) => given(item),
        Err(error) => Turn::Item(Err(error)),
    }
}
