//! The streams of a real disk: what they give, and which of them must still fail for what they skipped.
ghost use Rattle.std.specs.Prelude.{◌≡◌, ◌≢◌, ◌≤◌, ◌+◌, true, false, Err, Some, None, OnOk, OnErr, IfOk, IfErr, IfSome, vec_len, vec_capacity};
ghost use Rattle.std.specs.Iterator.{IsFinite};
ghost use Rattle.std.specs.IoError.{error_kind};
ghost use Rattle.odb_base.specs.Path.{Path};
ghost use Rattle.odb_disk.specs.Disk.{FailsOnlyByFault};
ghost use Rattle.odb_disk.specs.Streams.{still_gives, left, Opens};
ghost use Rattle.odb_host.specs.HostDisk.{most_entries, owes_failure, refusal_of, OthersOwe};
ghost use Rattle.odb_host.specs.HostListing.{GivesAll, ListsNone};

use super::{HostDisk, counted};
use crate::host_listing::{Listing, list_opened};
use odb_disk::DirId;
use odb_mem_disk::{DiskError, NoMemory};
use std::alloc::{Allocator, Global};
use std::fs::DirEntry;
use std::io;
use std::rt::Files;

/// The most entries that are read of one directory.
const MOST_ENTRIES: usize = 16_777_216;

impl<R: Files> HostDisk<R> {
    /// Opens a stream of all that is read of a directory, if the system opened it. On error no stream changes.
    pub(super) fn open_listed<
        F: Files + Drop,
        A: Allocator + Drop,
        I: Iterator<Item = io::Result<DirEntry<F, A>>>,
    >(&mut self, alloc: Global, directory: io::Result<I>) -> Result<DirId, DiskError>
        requires can_next { IfOk directory (λ names. I.can_next names × IsFinite (I.remaining names)) }
        ensures opened { IfOk result (λ dir. (path : Path) → Opens None path self.old.streams self.new.streams dir) }
        ensures gives { IfOk result (λ dir. IfOk directory (λ names.
            GivesAll I.next_gives names most_entries (still_gives self.new.streams dir) (owes_failure self.new.odd.items dir))) }
        ensures unlisted { IfOk directory (λ names. IfErr result (λ e. ListsNone I.next_gives names most_entries e)) }
        ensures few { IfOk result (λ dir. IfSome (left self.new.streams dir) (λ n. n ≤ most_entries)) }
        ensures others { IfOk result (λ dir. OthersOwe dir self.old.odd.items self.new.odd.items) }
        ensures unopened { IfErr directory (λ e. result ≡ Err (refusal_of (error_kind e))) }
        ensures refused { OnErr result (self.new.streams ≡ self.old.streams) }
        ensures owed { OnErr result (self.new.odd.items ≡ self.old.odd.items) }
        ensures cause { FailsOnlyByFault self.old.faults self.new.faults result }
        ensures still { result ≢ Err DiskError.Failed → self.new.faults ≡ self.old.faults }
    {
        let listed = list_opened(alloc, directory, MOST_ENTRIES);
        let listing = counted(&mut self.faults, listed)?;
        let dir = self.open(listing)?;
        Ok(dir)
    }

    /// Opens a stream of what was read. On error nothing changes.
    fn open(&mut self, listing: Listing) -> Result<DirId, NoMemory>
        ensures opened { IfOk result (λ dir. (path : Path) → Opens None path self.old.streams self.new.streams dir) }
        ensures given { IfOk result (λ dir. still_gives self.new.streams dir ≡ Some listing.entries) }
        ensures owes { IfOk result (λ dir. owes_failure self.new.odd.items dir ≡ listing.passed_over) }
        ensures others { IfOk result (λ dir. OthersOwe dir self.old.odd.items self.new.odd.items) }
        ensures refused { OnErr result (self.new.streams ≡ self.old.streams) }
        ensures owed { OnErr result (self.new.odd.items ≡ self.old.odd.items) }
        ensures faults { self.new.faults ≡ self.old.faults }
    {
        self.odd.reserve(1)?;
        let dir = self.streams.open(listing.entries)?;
        self.set_owing(dir.number(), listing.passed_over);
        Ok(dir)
    }

    /// Sets whether a stream must still fail, whatever an earlier one with its number did.
    fn set_owing(&mut self, number: u64, owes: bool)
        requires room { vec_len self.old.odd + 1 ≤ vec_capacity self.old.odd }
        ensures same { (self.new.streams ≡ self.old.streams) × (self.new.faults ≡ self.old.faults) }
        ensures owes { owes_failure self.new.odd.items number ≡ owes }
        ensures others { OthersOwe number self.old.odd.items self.new.odd.items }
    {
        self.forget(number);
        if owes {
            let Ok(()) = self.odd.push(number) else {
                unreachable!("there is room for one more");
            };
        }
    }

    /// Fails once if a stream skipped something.
    pub(super) fn passed_over(&mut self, dir: &DirId) -> Result<(), DiskError>
        ensures same { (self.new.streams ≡ self.old.streams) × (self.new.faults ≡ self.old.faults) }
        ensures passed { OnOk result (owes_failure self.old.odd.items dir.now ≡ false) }
        ensures kept { OnOk result (self.new.odd ≡ self.old.odd) }
        ensures others { OthersOwe dir.now self.old.odd.items self.new.odd.items }
        ensures failed { IfErr result (λ e. e ≡ DiskError.Failed) }
        ensures owed { OnErr result (owes_failure self.old.odd.items dir.now ≡ true) }
        ensures settled { OnErr result (owes_failure self.new.odd.items dir.now ≡ false) }
    {
        let number = dir.number();
        if !self.odd.contains(&number) {
            return Ok(());
        }
        self.forget(number);
        Err(DiskError::Failed)
    }

    /// Forgets that a stream skipped something.
    pub(super) fn forget(&mut self, number: u64)
        ensures same { (self.new.streams ≡ self.old.streams) × (self.new.faults ≡ self.old.faults) }
        ensures forgotten { owes_failure self.new.odd.items number ≡ false }
        ensures others { OthersOwe number self.old.odd.items self.new.odd.items }
        ensures room { (vec_len self.new.odd ≤ vec_len self.old.odd) × (vec_capacity self.new.odd ≡ vec_capacity self.old.odd) }
    {
        self.odd.retain(|odd| *odd != number);
    }
}
