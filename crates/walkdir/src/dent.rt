//! What is at one place of a walk: an entry, and what its calls return.
ghost use Rattle.std.specs.Prelude.{◌≡◌, ℕ};

use crate::Result;
use crate::read::look;
use odb_disk::Disk;
use odb_mem_disk::{Kind, Meta, NoMemory, PathText};
use std::alloc::Global;

/// What is at one place of a walk.
#[derive(Debug, Drop)]
pub struct DirEntry {
    path: PathText,
    kind: Kind,
    /// Whether it was found through a link that the walk followed.
    followed: bool,
    depth: usize,
    ino: u64,
}

impl DirEntry {
    ghost use Rattle.std.specs.Prelude.{IfOk, IfSome};
    ghost use Rattle.odb_disk.specs.Tree.{tree_of};
    ghost use Rattle.odb_disk.specs.Tree.Follow.{looked};
    ghost use Rattle.walkdir.specs.Answered.{LooksBy};
    ghost use Rattle.walkdir.specs.Entry.{file_name_of, is_behind_link, is_dir, is_link, entry_at};
    ghost use Rattle.walkdir.specs.Failures.{Costs, failures_of};
    ghost use Rattle.walkdir.specs.Walk.{Tells, told_at};

    pub(crate) fn new(
        path: PathText,
        kind: Kind,
        followed: bool,
        depth: usize,
        ino: u64,
    ) -> DirEntry
        ensures made { result ≡ entry_at path kind followed depth ino }
    {
        DirEntry {
            path,
            kind,
            followed,
            depth,
            ino,
        }
    }

    /// The path: the root's path, and the names from there on.
    pub fn path(&self) -> &PathText
        ensures told { result.now ≡ self.now.path }
    {
        &self.path
    }

    /// The path, without a copy.
    pub fn into_path(self) -> PathText
        ensures told { result ≡ self.path }
    {
        self.path
    }

    /// Whether the path is a link, also one that was followed.
    pub fn path_is_symlink(&self) -> bool
        ensures told { result ≡ is_behind_link self.now }
    {
        self.kind == Kind::Link || self.followed
    }

    /// The kind of what is there; of the target, if a link was followed.
    pub fn file_type(&self) -> Kind
        ensures told { result ≡ self.now.kind }
    {
        self.kind
    }

    /// The last name of the path; `/` for the root of the disk.
    pub fn file_name(&self) -> &str
        ensures told { result.now ≡ file_name_of self.now }
    {
        match self.path.file_name() {
            Some(name) => name,
            None => "/",
        }
    }

    /// The depth in names below the walk's root.
    pub fn depth(&self) -> usize
        ensures told { result ≡ self.now.depth }
    {
        self.depth
    }

    /// The result of a stat of the path now. A link is followed exactly if the walk followed it.
    pub fn metadata<D: Disk>(&self, alloc: Global, disk: &mut D) -> Result<Meta>
        ensures told { IfSome (D.state disk.old) (λ s.
            Tells self.now.depth self.now.path result
            (told_at self.now.depth self.now.path (looked (tree_of s) self.now.path self.now.followed))) }
        ensures answered { LooksBy D.answered self.now.depth self.now.path self.now.followed disk.old result disk.new }
        ensures kept { D.state disk.new ≡ D.state disk.old }
        ensures streams { D.streams disk.new ≡ D.streams disk.old }
        ensures cause { Costs (failures_of result) (D.faults disk.old) (D.faults disk.new) }
    {
        look(alloc, disk, self.depth, &self.path, self.followed)
    }

    /// A copy of the entry.
    pub fn try_clone(&self, alloc: Global) -> std::result::Result<DirEntry, NoMemory>
        ensures copy { IfOk result (λ copy. copy ≡ self.now) }
    {
        Ok(DirEntry {
            path: self.path.try_clone(alloc)?,
            kind: self.kind,
            followed: self.followed,
            depth: self.depth,
            ino: self.ino,
        })
    }

    pub(crate) fn is_dir(&self) -> bool
        ensures told { result ≡ is_dir self.now }
    {
        self.kind == Kind::Dir
    }

    pub(crate) fn is_link(&self) -> bool
        ensures told { result ≡ is_link self.now }
    {
        self.kind == Kind::Link
    }
}

/// What entries know on Unix.
pub trait DirEntryExt {
    /// The inode number.
    ghost number: { Self → ℕ };

    /// The inode number.
    fn ino(&self) -> u64
        ensures told { result ≡ number self.now };
}

impl DirEntryExt for DirEntry {
    ghost number = { λ entry. entry.ino };

    fn ino(&self) -> u64 {
        self.ino
    }
}
