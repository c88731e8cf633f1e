//! A disk in memory.
use crate::mem_ask::change_of;
use crate::{
    ByteList, Change, DirId, DirStreams, Disk, DiskError, Entry, Impossible, Meta, NoMemory,
    PathText, Tree,
};
use odb_base::Calls;
use odb_disk::DiskAsk;
use std::alloc::Global;
use std::marker::Model;

/// A disk in memory.
///
/// It numbers its calls from 1. A call whose number is listed fails and changes nothing.
#[derive(Drop)]
pub struct MemDisk {
    tree: Tree,
    streams: DirStreams,
    calls: Calls,
}

impl Model for MemDisk {
    ghost use Rattle.odb_disk.specs.MemDisk.{Volume, coded_volume};

    ghost Value = { Volume };

    ghost coded = { coded_volume };

    ghost use Rattle.odb_disk.specs.Tree.{IsTree, state_of};

    ghost view = { λ d. record { state = state_of d.tree; streams = d.streams; calls = d.calls } };

    ghost invariant = { λ d. IsTree d.tree };
}

impl MemDisk {
    ghost use Rattle.std.specs.Prelude.{◌≡◌, ◌≤◌, true, false, IsTrue, IfOk, OnOk, OnErr, IsErrOf};
    ghost use Rattle.odb_base.specs.Faults.{Rose};
    ghost use Rattle.std.specs.FinSet as set;
    ghost use Rattle.odb_disk.specs.Tree.{IsTree, tree_of};
    ghost use Rattle.odb_disk.specs.Tree.Change.{is_possible};
    ghost use Rattle.odb_disk.specs.Ask.{change_of_ask, fails_now};
    ghost use Rattle.odb_disk.specs.MemDisk.{new_volume, after_outside_change, after_call, next_fails};

    /// The root alone, device 0, inode number 1. No call will fail.
    pub fn new(alloc: Global) -> Result<MemDisk, NoMemory>
        ensures bare { IfOk result (λ disk. disk ≡ new_volume set.empty) }
    {
        MemDisk::with_faults(alloc, &[])
    }

    /// A new disk. The calls with these numbers, counted from 1, will fail.
    pub fn with_faults(alloc: Global, calls: &[u64]) -> Result<MemDisk, NoMemory>
        ensures bare { IfOk result (λ disk. disk ≡ new_volume (set.from_list calls.now)) }
    {
        Ok(MemDisk {
            tree: Tree::bare(alloc)?,
            streams: DirStreams::new(alloc),
            calls: Calls::with_faults(alloc, calls)?,
        })
    }

    /// Makes a change of another program, which is no call of the disk. On error nothing changes.
    pub fn change(&mut self, alloc: Global, change: &Change) -> Result<(), Impossible>
        ensures made { OnOk result (self.new ≡ after_outside_change self.old change.now) }
        ensures possible { OnOk result (is_possible self.old.state change.now ≡ true) }
        ensures impossible { IsErrOf result Impossible.Impossible → is_possible self.old.state change.now ≡ false }
        ensures kept { OnErr result (self.new ≡ self.old) }
    {
        self.tree.change(alloc, change)
    }

    /// Whether a change is possible now.
    pub fn is_possible(&self, alloc: Global, change: &Change) -> Result<bool, NoMemory>
        ensures possible { IfOk result (λ possible. possible ≡ is_possible self.now.state change.now) }
    {
        self.tree.is_possible(alloc, change)
    }

    /// The change that a call would make now, if it would make one and doesn't fail.
    pub fn change_of(&self, alloc: Global, ask: &DiskAsk) -> Result<Option<Change>, NoMemory>
        ensures change { IfOk result (λ change. change ≡ change_of_ask (tree_of self.now.state) ask.now) }
    {
        change_of(alloc, &self.tree, ask)
    }

    /// Whether a call made now would fail.
    pub fn fails_now(&self, ask: &DiskAsk) -> bool
        ensures fails { result ≡ fails_now self.now ask.now }
    {
        match ask {
            DiskAsk::CloseDir { .. } => false,
            _ => self.calls.next_fails(),
        }
    }

    /// The tree that the disk shows now.
    pub fn tree(&self) -> &Tree
        ensures shown { result.now ≡ tree_of self.now.state }
        ensures is_tree { IsTree (tree_of self.now.state) }
    {
        &self.tree
    }

    /// The number of calls so far; it saturates.
    pub fn calls(&self) -> u64
        ensures count { result ≡ self.now.calls.made }
    {
        self.calls.made()
    }

    /// The number of calls that failed.
    pub fn faults(&self) -> u64
        ensures count { result ≡ self.now.calls.faults }
    {
        self.calls.faults()
    }

    /// A copy of the disk: its tree, its open streams, its counts and the calls that will fail.
    pub fn try_clone(&self, alloc: Global) -> Result<MemDisk, NoMemory>
        ensures copy { IfOk result (λ disk. disk ≡ self.now) }
    {
        Ok(MemDisk {
            tree: self.tree.try_clone(alloc)?,
            streams: self.streams.try_clone(alloc)?,
            calls: self.calls.try_clone()?,
        })
    }

    /// Counts a call, and returns whether it fails.
    fn count(&mut self) -> bool
        ensures counted { self.new ≡ after_call self.old }
        ensures state { self.new.state ≡ self.old.state }
        ensures streams { self.new.streams ≡ self.old.streams }
        ensures tree { IsTree (tree_of self.old.state) }
        ensures fails { result ≡ next_fails self.old }
        ensures later { self.old.calls.faults ≤ self.new.calls.faults }
        ensures rose { IsTrue result → Rose self.old.calls.faults self.new.calls.faults }
    {
        let fails = self.calls.next_fails();
        self.calls.count(fails);
        fails
    }
}

impl Disk for MemDisk {
    ghost use Rattle.std.specs.Prelude.{Some};
    ghost use Rattle.odb_disk.specs.Ask.{IsCounted};

    ghost state = { λ disk. Some disk.state };

    ghost streams = { λ disk. disk.streams };

    ghost faults = { λ disk. disk.calls.faults };

    ghost answered = { IsCounted };

    fn look(&mut self, alloc: Global, path: &PathText, follow: bool) -> Result<Meta, DiskError> {
        let failed = self.count();
        let tree = &self.tree;
        if failed {
            return Err(DiskError::Failed);
        }
        tree.look(alloc, path, follow)
    }

    fn read(&mut self, alloc: Global, path: &PathText) -> Result<(ByteList, u64), DiskError> {
        let failed = self.count();
        let tree = &self.tree;
        if failed {
            return Err(DiskError::Failed);
        }
        tree.read(alloc, path)
    }

    fn open_dir(&mut self, alloc: Global, path: &PathText) -> Result<DirId, DiskError> {
        if self.count() {
            return Err(DiskError::Failed);
        }
        let entries = self.tree.entries(alloc, path)?;
        Ok(self.streams.open(entries)?)
    }

    fn next_entry(&mut self, _alloc: Global, dir: &DirId) -> Result<Option<Entry>, DiskError> {
        if self.count() {
            return Err(DiskError::Failed);
        }
        let Some(next) = self.streams.next(dir) else {
            return Err(DiskError::Absent);
        };
        Ok(next)
    }

    fn close_dir(&mut self, dir: DirId) {
        self.streams.close(&dir);
    }

    fn make_dir(&mut self, alloc: Global, path: &PathText) -> Result<(), DiskError> {
        if self.count() {
            return Err(DiskError::Failed);
        }
        self.tree.make_dir(alloc, path)
    }

    fn new_file(&mut self, alloc: Global, path: &PathText) -> Result<(), DiskError> {
        if self.count() {
            return Err(DiskError::Failed);
        }
        self.tree.new_file(alloc, path)
    }

    fn append(&mut self, alloc: Global, path: &PathText, bytes: &[u8]) -> Result<(), DiskError> {
        if self.count() {
            return Err(DiskError::Failed);
        }
        self.tree.append(alloc, path, bytes)
    }

    fn rename(&mut self, alloc: Global, from: &PathText, to: &PathText) -> Result<(), DiskError> {
        if self.count() {
            return Err(DiskError::Failed);
        }
        self.tree.rename(alloc, from, to)
    }

    fn remove(&mut self, alloc: Global, path: &PathText) -> Result<(), DiskError> {
        if self.count() {
            return Err(DiskError::Failed);
        }
        self.tree.remove(alloc, path)
    }
}
