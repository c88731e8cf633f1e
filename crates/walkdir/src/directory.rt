//! The directories that a walk is in.
ghost use Rattle.std.specs.Prelude.{◌≡◌, None};
ghost use Rattle.odb_disk.specs.CallsMade.{Leads};
ghost use Rattle.walkdir.specs.Error.{no_memory};
ghost use Rattle.walkdir.specs.Directory.{stream_in, is_skipped, without_stream, TakesHeld};
ghost use Rattle.walkdir.specs.Walk.Entries.{same_place};

use crate::{DirEntry, Error, Result};
use odb_disk::{DirId, Disk};
use odb_mem_disk::PathText;
use std::collections::VecDeque;

/// The device and the inode number of a directory.
#[derive(Clone, Copy)]
pub struct Place {
    pub(crate) dev: u64,
    pub(crate) ino: u64,
}

/// Whether a directory is entered.
#[derive(Clone, Copy)]
pub enum Entering {
    Stays,
    /// It is, and is at this place, if the walk has to know it.
    Enters(Option<Place>),
}

/// What a directory still has to give.
#[derive(Drop)]
pub enum Items {
    /// What its open stream gives.
    Opened(DirId),
    /// What was already read of it. No stream is open.
    Closed(VecDeque<Result<DirEntry>>),
    /// Nothing: the rest was skipped.
    Skipped,
}

/// A directory that a walk is in.
#[derive(Drop)]
pub struct DirList {
    pub(crate) path: PathText,
    /// Its place, which is looked up if links are followed.
    pub(crate) place: Option<Place>,
    pub(crate) items: Items,
    /// The directory's own entry, if it is given after the contents.
    pub(crate) after: Option<DirEntry>,
}

impl Items {
    /// Takes the first of what was already read.
    pub(crate) fn take_first(&mut self) -> Option<Result<DirEntry>>
        requires closed { stream_in self.old ≡ None }
        ensures takes { TakesHeld self.old result self.new }
    {
        match self {
            Items::Opened(_) | Items::Skipped => None,
            Items::Closed(items) => items.pop_front(),
        }
    }
}

impl DirList {
    /// The open stream of the directory, if it has one.
    pub(crate) fn stream(&self) -> Option<DirId>
        ensures told { result ≡ stream_in self.now.items }
    {
        match &self.items {
            Items::Opened(dir) => Some(*dir),
            Items::Closed(_) | Items::Skipped => None,
        }
    }

    /// Whether the directory is at this place.
    pub(crate) fn stands_at(&self, place: Place) -> bool
        ensures told { result ≡ same_place place self.now.place }
    {
        match self.place {
            Some(own) => place.dev == own.dev && place.ino == own.ino,
            None => false,
        }
    }

    /// Whether the rest was skipped.
    pub(crate) fn is_skipped(&self) -> bool
        ensures told { result ≡ is_skipped self.now.items }
    {
        matches!(&self.items, Items::Skipped)
    }

    /// Closes the stream of the directory, if it is open.
    pub(crate) fn close<D: Disk>(&self, disk: &mut D)
        ensures streams { D.streams disk.new ≡ without_stream (stream_in self.now.items) (D.streams disk.old) }
        ensures kept { D.state disk.new ≡ D.state disk.old }
        ensures faults { D.faults disk.new ≡ D.faults disk.old }
        ensures answered { Leads D.answered disk.old disk.new }
    {
        if let Some(dir) = self.stream() {
            disk.close_dir(dir);
        }
    }

    /// Closes the stream of a directory that there is no memory for, and returns that error.
    pub(crate) fn unplaced<D: Disk>(self, disk: &mut D) -> Error
        ensures error { result ≡ no_memory }
        ensures streams { D.streams disk.new ≡ without_stream (stream_in self.items) (D.streams disk.old) }
        ensures kept { D.state disk.new ≡ D.state disk.old }
        ensures faults { D.faults disk.new ≡ D.faults disk.old }
        ensures answered { Leads D.answered disk.old disk.new }
    {
        self.close(disk);
        Error::out_of_memory()
    }
}
