//! The open streams of a disk, by their numbers.
ghost use Rattle.std.specs.Prelude.{◌≡◌, ◌+◌, ◌<◌, ◌^◌, ◌∷◌, ◌++◌, [], true, length, IfOk, OnOk, OnErr, IfSome, IfNone};
ghost use Rattle.std.specs.FinMap as maps;
ghost use Rattle.odb_disk.specs.StreamNumbers.{AreOpenBelow};
ghost use Rattle.odb_disk.specs.Streams.{IsLeastClosed, TakesNext, lists_only, no_streams, with_opened, with_closed};

use crate::{Entry, EntryQueue, NoMemory};
use odb_disk::DirId;
use std::alloc::Global;
use std::collections::BTreeMap;
use std::marker::Model;

/// The streams that are open, and the most that were open at one time so far.
#[derive(Drop)]
pub struct DirStreams {
    lists: BTreeMap<u64, EntryQueue>,
    peak: u64,
    /// Each number below this one is that of an open stream.
    open_below: u64,
}

impl Model for DirStreams {
    ghost use Rattle.odb_disk.specs.Streams.{Streams, coded_streams};
    ghost use Rattle.std.specs.FinMap as finite;

    ghost Value = { Streams };

    ghost coded = { coded_streams };

    ghost view = { λ s. record { open_dirs = finite.from_entries s.lists.entries; peak = s.peak } };

    ghost use Rattle.odb_disk.specs.StreamNumbers.{AreOpenBelow};

    ghost invariant = { λ s. AreOpenBelow (finite.from_entries s.lists.entries) s.open_below };
}

impl DirStreams {
    /// No stream is open, and none was.
    pub fn new(alloc: Global) -> DirStreams
        ensures empty { result ≡ no_streams }
    {
        DirStreams {
            lists: BTreeMap::new(alloc),
            peak: 0,
            open_below: 0,
        }
    }

    /// Opens a stream of these entries, under the least number that no open one has. On error nothing changes.
    pub fn open(&mut self, entries: EntryQueue) -> Result<DirId, NoMemory>
        ensures opened { IfOk result (λ dir. self.new ≡ with_opened self.old dir entries) }
        ensures least { IfOk result (λ dir. IsLeastClosed self.old.open_dirs dir) }
        ensures few { OnOk result (length entries < 2 ^ 64) }
        ensures kept { OnErr result (self.new ≡ self.old) }
    {
        let number = least_closed(&self.lists, self.open_below)?;
        self.lists.insert(number, entries)?;
        self.open_below = number + 1;
        self.peak = self.peak.max(self.lists.len() as u64);
        Ok(DirId::new(number))
    }

    /// Takes the next entry of a stream: Some(None) at its end, None if it isn't open.
    pub fn next(&mut self, dir: &DirId) -> Option<Option<Entry>>
        ensures takes { TakesNext self.old self.new dir.now result }
    {
        take_entry(&mut self.lists, dir.number())
    }

    /// Closes a stream, if it is open.
    pub fn close(&mut self, dir: &DirId)
        ensures closed { self.new ≡ with_closed self.old dir.now }
    {
        let number = dir.number();
        let _ = self.lists.remove(&number);
        self.open_below = self.open_below.min(number);
    }

    /// A copy of the streams.
    pub fn try_clone(&self, alloc: Global) -> Result<DirStreams, NoMemory>
        ensures copy { IfOk result (λ copy. copy ≡ self.now) }
    {
        Ok(DirStreams {
            lists: copied(alloc, &self.lists)?,
            peak: self.peak,
            open_below: self.open_below,
        })
    }
}

/// The least number that no open stream has, if each below `from` is that of one. It fails if all numbers of 64 bits
/// are taken.
fn least_closed(lists: &BTreeMap<u64, EntryQueue>, from: u64) -> Result<u64, NoMemory>
    requires below { AreOpenBelow (maps.from_entries lists.now.entries) from }
    ensures least { IfOk result (IsLeastClosed (maps.from_entries lists.now.entries)) }
    ensures small { IfOk result (λ number. number + 1 < 2 ^ 64) }
{
    for number in from..u64::MAX {
        if !lists.contains_key(&number) {
            return Ok(number);
        }
    }
    Err(NoMemory)
}

/// Takes the next entry of a stream.
fn take_entry(lists: &mut BTreeMap<u64, EntryQueue>, number: u64) -> Option<Option<Entry>>
    ensures takes { TakesNext (lists_only lists.old.entries) (lists_only lists.new.entries) number result }
{
    match lists.get_mut(&number) {
        None => None,
        Some(entries) => Some(entries.pop()),
    }
}

/// A copy of streams.
fn copied(
    alloc: Global,
    lists: &BTreeMap<u64, EntryQueue>,
) -> Result<BTreeMap<u64, EntryQueue>, NoMemory>
    ensures copy { IfOk result (λ copy. lists_only copy.entries ≡ lists_only lists.now.entries) }
{
    let mut copy = BTreeMap::new(alloc);
    for (number, entries) in lists {
        copy.insert(*number, entries.try_clone(alloc)?)?;
    }
    Ok(copy)
}
