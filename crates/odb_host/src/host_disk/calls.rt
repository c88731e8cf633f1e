//! The calls of a real disk.
ghost use Rattle.std.specs.Prelude.{◌≡◌, ◌≢◌, ◌≤◌, [], false, true, length, None, Some, Ok, Err, IfSome, OnOk, OnErr, IfOk, IsErrOf};
ghost use Rattle.odb_disk.specs.Disk.{FailsOnlyByFault};
ghost use Rattle.odb_disk.specs.Streams.{still_gives, left, Opens, Gives, with_closed};
ghost use Rattle.odb_host.specs.HostDisk.{longest_file, most_entries, owes_failure, OthersOwe};

use super::{HostDisk, counted};
use crate::host_answers::answered;
use crate::host_calls::{append_at, look_at, new_file_at, read_at, remove_at, rename_at};
use odb_disk::{DirId, Disk};
use odb_mem_disk::{ByteList, DiskError, Entry, Kind, Meta, PathText};
use std::alloc::Global;
use std::fs;
use std::rt::Files;

/// The most bytes that are read of one file.
const LONGEST_FILE: usize = 4_294_967_296;

impl<R: Files + Alloc + Clone + Drop> Disk for HostDisk<R> {
    ghost state = { λ _. None };

    ghost streams = { λ d. d.streams };

    ghost faults = { λ d. d.faults };

    fn look(&mut self, alloc: Global, path: &PathText, follow: bool) -> Result<Meta, DiskError>
        ensures streams { self.new.streams ≡ self.old.streams }
        ensures owed { self.new.odd ≡ self.old.odd }
        ensures cause { FailsOnlyByFault self.old.faults self.new.faults result }
        ensures still { result ≢ Err DiskError.Failed → self.new.faults ≡ self.old.faults }
        ensures bare { IfOk result (λ meta. meta.kind ≢ Kind.File → (meta.len ≡ 0) × (meta.time ≡ 0)) }
    {
        let text = path.to_text(alloc)?;
        let found = look_at(&self.rt, text.as_str(), follow);
        counted(&mut self.faults, found)
    }

    fn read(&mut self, alloc: Global, path: &PathText) -> Result<(ByteList, u64), DiskError>
        ensures streams { self.new.streams ≡ self.old.streams }
        ensures owed { self.new.odd ≡ self.old.odd }
        ensures cause { FailsOnlyByFault self.old.faults self.new.faults result }
        ensures still { result ≢ Err DiskError.Failed → self.new.faults ≡ self.old.faults }
        ensures short { IfOk result (λ file. length file.0 ≤ longest_file) }
    {
        let text = path.to_text(alloc)?;
        let found = read_at(&self.rt, alloc, text.as_str(), LONGEST_FILE);
        counted(&mut self.faults, found)
    }

    fn open_dir(&mut self, alloc: Global, path: &PathText) -> Result<DirId, DiskError>
        ensures opened { IfOk result (λ dir. Opens None path.now self.old.streams self.new.streams dir) }
        ensures few { IfOk result (λ dir. IfSome (left self.new.streams dir) (λ n. n ≤ most_entries)) }
        ensures others { IfOk result (λ dir. OthersOwe dir self.old.odd.items self.new.odd.items) }
        ensures refused { OnErr result (self.new.streams ≡ self.old.streams) }
        ensures owed { OnErr result (self.new.odd.items ≡ self.old.odd.items) }
        ensures cause { FailsOnlyByFault self.old.faults self.new.faults result }
        ensures still { result ≢ Err DiskError.Failed → self.new.faults ≡ self.old.faults }
    {
        let text = path.to_text(alloc)?;
        let directory = fs::read_dir(&self.rt, text.as_str());
        self.open_listed(alloc, directory)
    }

    fn next_entry(&mut self, _alloc: Global, dir: &DirId) -> Result<Option<Entry>, DiskError>
        ensures gives { Gives self.old.streams self.new.streams dir.now result }
        ensures told { result ≡ Ok None → owes_failure self.old.odd.items dir.now ≡ false }
        ensures owed { IsErrOf result DiskError.Failed → owes_failure self.old.odd.items dir.now ≡ true }
        ensures last { IsErrOf result DiskError.Failed → still_gives self.old.streams dir.now ≡ Some [] }
        ensures settled { IsErrOf result DiskError.Failed → owes_failure self.new.odd.items dir.now ≡ false }
        ensures kept { OnOk result (self.new.odd ≡ self.old.odd) }
        ensures others { OthersOwe dir.now self.old.odd.items self.new.odd.items }
        ensures cause { FailsOnlyByFault self.old.faults self.new.faults result }
        ensures still { result ≢ Err DiskError.Failed → self.new.faults ≡ self.old.faults }
    {
        match self.streams.next(dir) {
            Some(Some(entry)) => Ok(Some(entry)),
            Some(None) => {
                let passed_over = self.passed_over(dir);
                counted(&mut self.faults, passed_over)?;
                Ok(None)
            }
            None => Err(DiskError::Absent),
        }
    }

    fn close_dir(&mut self, dir: DirId)
        ensures closed { self.new.streams ≡ with_closed self.old.streams dir }
        ensures forgotten { owes_failure self.new.odd.items dir ≡ false }
        ensures others { OthersOwe dir self.old.odd.items self.new.odd.items }
        ensures faults { self.new.faults ≡ self.old.faults }
    {
        self.forget(dir.number());
        self.streams.close(&dir);
    }

    fn make_dir(&mut self, alloc: Global, path: &PathText) -> Result<(), DiskError>
        ensures streams { self.new.streams ≡ self.old.streams }
        ensures owed { self.new.odd ≡ self.old.odd }
        ensures cause { FailsOnlyByFault self.old.faults self.new.faults result }
        ensures still { result ≢ Err DiskError.Failed → self.new.faults ≡ self.old.faults }
    {
        let text = path.to_text(alloc)?;
        let made = answered(fs::create_dir(&self.rt, text.as_str()));
        counted(&mut self.faults, made)
    }

    fn new_file(&mut self, alloc: Global, path: &PathText) -> Result<(), DiskError>
        ensures streams { self.new.streams ≡ self.old.streams }
        ensures owed { self.new.odd ≡ self.old.odd }
        ensures cause { FailsOnlyByFault self.old.faults self.new.faults result }
        ensures still { result ≢ Err DiskError.Failed → self.new.faults ≡ self.old.faults }
    {
        let text = path.to_text(alloc)?;
        let made = new_file_at(&self.rt, text.as_str());
        counted(&mut self.faults, made)
    }

    fn append(&mut self, alloc: Global, path: &PathText, bytes: &[u8]) -> Result<(), DiskError>
        ensures streams { self.new.streams ≡ self.old.streams }
        ensures owed { self.new.odd ≡ self.old.odd }
        ensures cause { FailsOnlyByFault self.old.faults self.new.faults result }
        ensures still { result ≢ Err DiskError.Failed → self.new.faults ≡ self.old.faults }
    {
        let text = path.to_text(alloc)?;
        let made = append_at(&self.rt, text.as_str(), bytes);
        counted(&mut self.faults, made)
    }

    fn rename(&mut self, alloc: Global, from: &PathText, to: &PathText) -> Result<(), DiskError>
        ensures streams { self.new.streams ≡ self.old.streams }
        ensures owed { self.new.odd ≡ self.old.odd }
        ensures cause { FailsOnlyByFault self.old.faults self.new.faults result }
        ensures still { result ≢ Err DiskError.Failed → self.new.faults ≡ self.old.faults }
    {
        let source = from.to_text(alloc)?;
        let target = to.to_text(alloc)?;
        let made = rename_at(&self.rt, source.as_str(), target.as_str());
        counted(&mut self.faults, made)
    }

    fn remove(&mut self, alloc: Global, path: &PathText) -> Result<(), DiskError>
        ensures streams { self.new.streams ≡ self.old.streams }
        ensures owed { self.new.odd ≡ self.old.odd }
        ensures cause { FailsOnlyByFault self.old.faults self.new.faults result }
        ensures still { result ≢ Err DiskError.Failed → self.new.faults ≡ self.old.faults }
    {
        let text = path.to_text(alloc)?;
        let made = remove_at(&self.rt, text.as_str());
        counted(&mut self.faults, made)
    }
}
