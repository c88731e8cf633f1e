//! What an entry is taken for, and whether it is entered.
use super::Stack;
use crate::directory::{Entering, Place};
use crate::read::{entry_by, look, place_in};
use crate::sort::Sorter;
use crate::{DirEntry, Error, Result};
use odb_disk::Disk;
use odb_mem_disk::{Kind, PathText};

/// An entry, and its place if that is known.
#[derive(Drop)]
pub struct Found {
    pub(super) entry: DirEntry,
    place: Option<Place>,
}

impl<S: Sorter + Drop> Stack<S> {
    ghost use Rattle.std.specs.Prelude.{◌≡◌, ◌&&◌, ◌||◌, true, reverse, IfOk, IfErr};
    ghost use Rattle.walkdir.specs.Error.{IsOfEntry, IsOnPath};
    ghost use Rattle.walkdir.specs.Failures.{Costs, failures_of};
    ghost use Rattle.walkdir.specs.Causes.{IsCausedAmong};
    ghost use Rattle.walkdir.specs.AnsweredTurns.{TellsEntering, TellsFound, TellsPlace};
    ghost use Rattle.walkdir.specs.Turns.Taken.{OnlyEnters, may_enter, standing_at, ChecksLoop, EntersBy, FindsPlace, Follows};
    ghost use Rattle.walkdir.specs.Walk.Entries.{knows_places, entering, enters_directory, is_looked_at};
    ghost use Rattle.walkdir.specs.Entry.{is_link};
    ghost use Rattle.walkdir.specs.Stack.{ancestors};

    /// The entry itself, or its target if it is a link that is followed.
    pub(super) fn followed<D: Disk>(&self, disk: &mut D, entry: DirEntry) -> Result<Found>
        ensures same { IfOk result (λ found. (found.entry.depth ≡ entry.depth) × (found.entry.path ≡ entry.path)) }
        ensures place { IfErr result (λ e. IsOfEntry entry.path entry.depth e) }
        ensures follows { Follows (D.state disk.old) self.now.options (ancestors (reverse self.now.lists.items)) entry
            result }
        ensures looks { IfErr result (λ _. (self.now.options.follow_links && is_link entry) ≡ true) }
        ensures causes { IfErr result
            (λ e. IsCausedAmong self.now.options (ancestors (reverse self.now.lists.items)) e) }
        ensures streams { D.streams disk.new ≡ D.streams disk.old }
        ensures answered { TellsFound D.answered disk.old (reverse self.now.lists.items) result disk.new }
        ensures state { D.state disk.new ≡ D.state disk.old }
        ensures cause { Costs (failures_of result) (D.faults disk.old) (D.faults disk.new) }
    {
        if !self.options.follow_links || !entry.is_link() {
            return Ok(Found { entry, place: None });
        }
        let depth = entry.depth();
        let path = entry.into_path();
        let meta = look(self.alloc, disk, depth, &path, true)?;
        let place = place_in(&meta);
        if meta.kind == Kind::Dir {
            self.check_loop(depth, &path, place)?;
        }
        Ok(Found {
            entry: entry_by(path, &meta, true, depth),
            place: Some(place),
        })
    }

    /// Fails if the walk is in a directory at this place. The error names the nearest such directory.
    fn check_loop(&self, depth: usize, child: &PathText, place: Place) -> Result<()>
        ensures checks { ChecksLoop depth child.now (standing_at (ancestors (reverse self.now.lists.items)) place)
            result }
        ensures cause { failures_of result ≡ 0 }
    {
        match self.lists.iter().rev().find(|list| list.stands_at(place)) {
            Some(list) => Err(Error::from_loop(self.alloc, depth, &list.path, child)),
            None => Ok(()),
        }
    }

    /// Whether an entry is entered: a directory, or a link at the root that leads to one.
    pub(super) fn entering<D: Disk>(&self, disk: &mut D, found: &Found) -> Result<Entering>
        ensures enters { EntersBy entering (D.state disk.old) self.now.options self.now.root_device found.now result }
        ensures looks { IfErr result (λ _. is_looked_at self.now.options found.now.entry ≡ true) }
        ensures kind { OnlyEnters found.now.entry result }
        ensures call { IfErr result (λ e. IsOnPath found.now.entry.path found.now.entry.depth e) }
        ensures streams { D.streams disk.new ≡ D.streams disk.old }
        ensures answered { TellsEntering D.answered disk.old found.now result disk.new }
        ensures state { D.state disk.new ≡ D.state disk.old }
        ensures cause { Costs (failures_of result) (D.faults disk.old) (D.faults disk.new) }
    {
        let entry = &found.entry;
        if entry.is_dir() {
            return self.entering_directory(disk, found);
        }
        if !entry.is_link() || entry.depth() != 0 || !self.options.follow_root_links {
            return Ok(Entering::Stays);
        }
        let meta = look(self.alloc, disk, 0, entry.path(), true)?;
        if meta.kind == Kind::Dir {
            Ok(Entering::Enters(Some(place_in(&meta))))
        } else {
            Ok(Entering::Stays)
        }
    }

    /// Whether a directory is entered. If the walk stays on the root's device, one on another device isn't.
    fn entering_directory<D: Disk>(&self, disk: &mut D, found: &Found) -> Result<Entering>
        ensures enters { EntersBy enters_directory (D.state disk.old) self.now.options self.now.root_device found.now
            result }
        ensures looks { IfErr result (λ _. knows_places self.now.options ≡ true) }
        ensures call { IfErr result (λ e. IsOnPath found.now.entry.path found.now.entry.depth e) }
        ensures streams { D.streams disk.new ≡ D.streams disk.old }
        ensures answered { TellsEntering D.answered disk.old found.now result disk.new }
        ensures state { D.state disk.new ≡ D.state disk.old }
        ensures cause { Costs (failures_of result) (D.faults disk.old) (D.faults disk.new) }
    {
        let place = self.place_of(disk, found)?;
        if self.is_on_device(&found.entry, place) {
            Ok(Entering::Enters(place))
        } else {
            Ok(Entering::Stays)
        }
    }

    /// The place of a directory, if the walk has to know it.
    fn place_of<D: Disk>(&self, disk: &mut D, found: &Found) -> Result<Option<Place>>
        ensures place { FindsPlace (D.state disk.old) self.now.options found.now result }
        ensures looks { IfErr result (λ _. knows_places self.now.options ≡ true) }
        ensures call { IfErr result (λ e. IsOnPath found.now.entry.path found.now.entry.depth e) }
        ensures streams { D.streams disk.new ≡ D.streams disk.old }
        ensures answered { TellsPlace D.answered disk.old found.now result disk.new }
        ensures state { D.state disk.new ≡ D.state disk.old }
        ensures cause { Costs (failures_of result) (D.faults disk.old) (D.faults disk.new) }
    {
        if let Some(place) = found.place {
            return Ok(Some(place));
        }
        if !self.options.follow_links && !self.options.same_file_system {
            return Ok(None);
        }
        let entry = &found.entry;
        let meta = look(self.alloc, disk, entry.depth(), entry.path(), true)?;
        Ok(Some(place_in(&meta)))
    }

    /// Whether the walk may enter a directory at this place.
    fn is_on_device(&self, entry: &DirEntry, place: Option<Place>) -> bool
        ensures told { result ≡ may_enter self.now.options self.now.root_device entry.now place }
    {
        if !self.options.same_file_system || entry.depth() == 0 {
            return true;
        }
        match place {
            Some(place) => place.dev == self.root_device,
            None => false,
        }
    }
}
