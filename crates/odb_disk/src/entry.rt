//! The entries of a directory.
ghost use Rattle.std.specs.Prelude.{◌≡◌, ◌∷◌, ◌++◌, [], true, length, IfOk, OnOk, OnErr, IfSome, IfNone};
ghost use Rattle.odb_base.specs.Path.{is_name};

use crate::meta::Kind;
use odb_base::{NoMemory, PathName};
use std::alloc::Global;
use std::collections::VecDeque;
use std::marker::Model;

/// An entry that a stream of a directory gives.
#[derive(Debug, Drop)]
pub struct Entry {
    /// The name in the directory.
    pub name: PathName,
    /// The kind of what is there. A link isn't followed.
    pub kind: Kind,
    /// The inode number.
    pub ino: u64,
}

impl Entry {
    /// A copy of the entry.
    pub fn try_clone(&self, alloc: Global) -> Result<Entry, NoMemory>
        ensures copy { IfOk result (λ copy. copy ≡ self.now) }
    {
        Ok(Entry {
            name: self.name.try_clone(alloc)?,
            kind: self.kind,
            ino: self.ino,
        })
    }
}

/// Entries, first in, first out.
#[derive(Drop)]
pub struct EntryQueue {
    entries: VecDeque<Entry>,
}

impl Model for EntryQueue {
    ghost use Rattle.std.specs.Prelude.{List, length, ◌<◌, ◌^◌};
    ghost use Rattle.std.specs.Coded.{coded_list};
    ghost use Rattle.odb_disk.specs.Entries.{coded_entry};
    ghost use Rattle.odb_disk.specs.declared.entry.Entry.{Entry as EntryValue};

    ghost Value = { List EntryValue };

    ghost coded = { coded_list coded_entry };

    ghost view = { λ queue. queue.entries.items };

    ghost use Rattle.odb_disk.specs.Entries.{AreNamed};

    ghost invariant = { λ queue. AreNamed queue.entries.items × (length queue.entries.items < 2 ^ 64) };
}

impl EntryQueue {
    /// An empty queue. It allocates no memory.
    pub fn new(alloc: Global) -> EntryQueue
        ensures empty { result ≡ [] }
    {
        EntryQueue {
            entries: VecDeque::new(alloc),
        }
    }

    /// Adds an entry at the end. A call that fails changes nothing.
    pub fn push(&mut self, entry: Entry) -> Result<(), NoMemory>
        requires named { is_name entry.name ≡ true }
        ensures ok { OnOk result (self.new ≡ self.old ++ entry ∷ []) }
        ensures err { OnErr result (self.new ≡ self.old) }
    {
        self.entries.push_back(entry)?;
        Ok(())
    }

    /// Takes the first entry.
    pub fn pop(&mut self) -> Option<Entry>
        ensures first { IfSome result (λ entry. self.old ≡ entry ∷ self.new) }
        ensures none { IfNone result (self.old ≡ []) }
        ensures kept { IfNone result (self.new ≡ self.old) }
        ensures named { IfSome result (λ entry. is_name entry.name ≡ true) }
    {
        self.entries.pop_front()
    }

    /// The number of entries.
    pub fn len(&self) -> usize
        ensures len { result ≡ length self.now }
    {
        self.entries.len()
    }

    /// A copy of the entries.
    pub fn try_clone(&self, alloc: Global) -> Result<EntryQueue, NoMemory>
        ensures copy { IfOk result (λ copy. copy ≡ self.now) }
    {
        let mut copy = EntryQueue::new(alloc);
        for entry in &self.entries {
            copy.push(entry.try_clone(alloc)?)?;
        }
        Ok(copy)
    }
}
