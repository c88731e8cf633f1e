//! What a real directory lists.
ghost use Rattle.std.specs.Prelude.{◌≡◌, ◌≢◌, ◌≤◌, ◌++◌, ◌||◌, [], length, Err, IfOk, IfErr, OnOk};
ghost use Rattle.std.specs.Iterator.{IsFinite};
ghost use Rattle.std.specs.List.{cons_option};
ghost use Rattle.std.specs.IoError.{error_kind};
ghost use Rattle.odb_host.specs.HostDisk.{refusal_of, found_entry, is_odd};
ghost use Rattle.odb_host.specs.HostListing.{IsFoundIn, ListsAll, ListsNone, Takes, bare_listing, with_found};

use crate::host_answers::{refusal_of, told_of};
use odb_mem_disk::{DiskError, Entry, EntryQueue, Meta, NoMemory, PathName};
use std::alloc::{Allocator, Global};
use std::fs::DirEntry;
use std::io;
use std::rt::Files;

/// A name that was read in a directory, and the result of a stat of it.
#[derive(Drop)]
pub(crate) struct Found {
    name: PathName,
    seen: Result<Meta, DiskError>,
}

/// Why something that was read in a directory has no name.
#[derive(Clone, Copy)]
pub(crate) enum Unnamed {
    NoMemory,
    Unreadable,
}

/// What is in a directory, as far as it is known.
#[derive(Drop)]
pub(crate) struct Listing {
    pub(crate) entries: EntryQueue,
    /// Whether something in the directory was skipped.
    pub(crate) passed_over: bool,
}

impl Listing {
    /// An empty listing.
    pub(crate) fn new(alloc: Global) -> Listing
        ensures bare { result ≡ bare_listing }
    {
        Listing {
            entries: EntryQueue::new(alloc),
            passed_over: false,
        }
    }

    /// Adds what was read in a directory. A listing of more than `most` entries fails.
    fn take<R: Files + Drop, A: Allocator + Drop>(
        &mut self,
        alloc: Global,
        read: io::Result<DirEntry<R, A>>,
        most: usize,
    ) -> Result<(), DiskError>
        ensures takes { Takes read most self.old self.new result }
    {
        self.add_found(found_of(alloc, read))?;
        if self.entries.len() > most {
            return Err(DiskError::Failed);
        }
        Ok(())
    }

    /// Adds what was found. What isn't known of it is skipped.
    fn add_found(&mut self, found: Result<Found, Unnamed>) -> Result<(), NoMemory>
        ensures added { OnOk result (self.new ≡ with_found self.old found) }
        ensures none_lost { OnOk result (found ≢ Err Unnamed.NoMemory) }
    {
        match found {
            Ok(found) => self.add(found.name, found.seen),
            Err(Unnamed::Unreadable) => {
                self.passed_over = true;
                Ok(())
            }
            Err(Unnamed::NoMemory) => Err(NoMemory),
        }
    }

    /// Adds the entry of a name, by a stat of it. A node that is gone by now has none.
    fn add(&mut self, name: PathName, seen: Result<Meta, DiskError>) -> Result<(), NoMemory>
        ensures entries { OnOk result (self.new.entries ≡ self.old.entries ++ cons_option (found_entry name seen) []) }
        ensures passed_over { OnOk result (self.new.passed_over ≡ (self.old.passed_over || is_odd name seen)) }
    {
        match seen {
            Ok(meta) if name.is_name() => self.entries.push(Entry {
                name,
                kind: meta.kind,
                ino: meta.ino,
            }),
            Err(DiskError::Absent) => Ok(()),
            _ => {
                self.passed_over = true;
                Ok(())
            }
        }
    }
}

/// The listing of a directory, if it was opened. One of more than `most` entries fails.
pub(crate) fn list_opened<
    R: Files + Drop,
    A: Allocator + Drop,
    I: Iterator<Item = io::Result<DirEntry<R, A>>>,
>(alloc: Global, opened: io::Result<I>, most: usize) -> Result<Listing, DiskError>
    requires can_next { IfOk opened (λ names. I.can_next names × IsFinite (I.remaining names)) }
    ensures listed { IfOk opened (λ names. IfOk result (λ listing. ListsAll I.next_gives names most listing)) }
    ensures unlisted { IfOk opened (λ names. IfErr result (λ e. ListsNone I.next_gives names most e)) }
    ensures few { IfOk result (λ listing. length listing.entries ≤ most) }
    ensures refused { IfErr opened (λ e. result ≡ Err (refusal_of (error_kind e))) }
{
    match opened {
        Ok(names) => list_all(alloc, names, most),
        Err(e) => Err(refusal_of(e.kind())),
    }
}

/// The listing of all that is read of a directory.
fn list_all<R: Files + Drop, A: Allocator + Drop, I: Iterator<Item = io::Result<DirEntry<R, A>>>>(
    alloc: Global,
    names: I,
    most: usize,
) -> Result<Listing, DiskError>
    requires can_next { I.can_next names × IsFinite (I.remaining names) }
    ensures listed { IfOk result (λ listing. ListsAll I.next_gives names most listing) }
    ensures unlisted { IfErr result (λ e. ListsNone I.next_gives names most e) }
{
    let mut listing = Listing::new(alloc);
    for name in names {
        listing.take(alloc, name, most)?;
    }
    Ok(listing)
}

/// What was read in a directory, and the result of a stat of it.
fn found_of<R: Files + Drop, A: Allocator + Drop>(
    alloc: Global,
    read: io::Result<DirEntry<R, A>>,
) -> Result<Found, Unnamed>
    ensures found { IsFoundIn read result }
{
    match read {
        Ok(entry) => match PathName::new(alloc, entry.file_name()) {
            Ok(name) => Ok(Found {
                name,
                seen: told_of(entry.metadata()),
            }),
            Err(NoMemory) => Err(Unnamed::NoMemory),
        },
        Err(_) => Err(Unnamed::Unreadable),
    }
}
