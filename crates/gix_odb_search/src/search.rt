//! The search for an object in indices that are loaded.
ghost use Rattle.std.specs.Prelude.{◌≡◌, ◌<◌, ◌^◌, [], false, true, IfOk, OnErr, OnOk};
ghost use Rattle.gix_odb_events.specs.Lent.{lent_file, lent_index};
ghost use Rattle.gix_odb_search.specs.Search.{given_or_not, in_pack, place_in, rest_behind, search, tried, with_absent};

use crate::absent::AbsentPacks;
use crate::goal::{Error, Found, Goal};
use crate::spot::{Spot, spot_in};
use gix_object::Want;
use gix_odb_events::{LentFile, LentIndex, LoadedRest, PackFile};
use odb_base::{NoMemory, PathText};
use std::alloc::Global;

/// A pack that was absent when it was read.
#[derive(Drop)]
pub struct AbsentFile {
    pub slot: u16,
    pub path: PathText,
}

/// What is remembered of the files that were tried.
#[derive(Drop)]
pub struct Notes {
    /// Whether the read of an index failed.
    pub failed: bool,
    /// The packs that were absent since the last listing: they are not read again before the next one.
    pub absent: AbsentPacks,
}

/// A pack that has to be read, since an index says that it has the object.
#[derive(Drop)]
pub struct WantedPack {
    /// The slot of the index.
    pub slot: u16,
    /// The place of the pack among those of a multi-pack index, if the index is one.
    pub place: Option<u32>,
    pub path: PathText,
    /// The offset of the object in the pack, in bytes.
    pub offset: u64,
}

/// The result of a search.
#[derive(Drop)]
pub(crate) enum Sought {
    /// No index has the object in a pack that could be read.
    Nowhere,
    Finds(Found),
    Fails(Error),
    /// An index has the id, and its pack is to be read.
    Wants(WantedPack),
}

impl Notes {
    /// Returns notes where nothing was tried.
    pub fn new(alloc: Global) -> Notes
        ensures empty { result ≡ record { failed = false; absent = [] } }
    {
        Notes {
            failed: false,
            absent: AbsentPacks::new(alloc),
        }
    }

    /// Returns the notes, with a failure.
    pub fn failing(self) -> Notes
        ensures failing { result ≡ record self { failed = true } }
    {
        let Notes { absent, .. } = self;
        Notes {
            failed: true,
            absent,
        }
    }

    /// Returns the notes without the packs that were absent.
    pub fn without_absent(self, alloc: Global) -> Notes
        ensures without { result ≡ record self { absent = [] } }
    {
        Notes {
            failed: self.failed,
            absent: AbsentPacks::new(alloc),
        }
    }

    /// Notes that a pack was absent. Running out of memory leaves the notes.
    pub(crate) fn note_absent(
        &mut self,
        alloc: Global,
        slot: u16,
        path: PathText,
    ) -> Result<(), NoMemory>
        ensures noted { OnOk result (self.new ≡ with_absent self.old slot path) }
        ensures kept { OnErr result (self.new ≡ self.old) }
    {
        self.absent.push(alloc, slot, path)
    }
}

/// Returns the result of a search from what a pack gave.
fn given_or_not(given: Result<Found, Error>) -> Sought
    ensures search { result ≡ given_or_not given }
{
    match given {
        Ok(found) => Sought::Finds(found),
        Err(error) => Sought::Fails(error),
    }
}

/// Returns the place of a pack as its number has it: only a multi-pack index has several.
fn place_in(index: LentFile<'_>, spot: Spot) -> Option<u32>
    ensures place { result ≡ place_in (lent_file index.entry) spot }
{
    match index {
        LentFile::Single(_) => None,
        LentFile::Multi(_) => Some(spot.place),
    }
}

impl Goal {
    /// Searches in one pack of an index that has the id.
    fn in_pack(
        &self,
        alloc: Global,
        notes: &Notes,
        index: LentIndex<'_>,
        spot: Spot,
        pack: &PackFile,
    ) -> Result<Sought, NoMemory>
        requires slot { index.slot < 2 ^ 16 }
        ensures search { IfOk result (λ search. search ≡ in_pack self.now notes.now.absent (lent_index index.entry) spot pack.now) }
    {
        if let Some(file) = pack.loaded() {
            return Ok(given_or_not(self.given_by(alloc, file.value(), spot.offset)?));
        }
        let slot = index.slot as u16;
        if notes.absent.has(slot, pack.path()) {
            return Ok(Sought::Nowhere);
        }
        Ok(Sought::Wants(WantedPack {
            slot,
            place: place_in(index.index, spot),
            path: pack.path().try_clone(alloc)?,
            offset: spot.offset,
        }))
    }

    /// Searches in one index.
    pub(crate) fn tried(
        &self,
        alloc: Global,
        notes: &Notes,
        index: LentIndex<'_>,
    ) -> Result<Sought, NoMemory>
        requires slot { index.slot < 2 ^ 16 }
        ensures search { IfOk result (λ search. search ≡ tried self.now notes.now.absent (lent_index index.entry)) }
    {
        let Some(spot) = spot_in(index.index, &self.id) else {
            return Ok(Sought::Nowhere);
        };
        if self.want == Want::Presence {
            return Ok(Sought::Finds(Found::Presence));
        }
        match index.packs.get(spot.place as usize) {
            None => Ok(Sought::Nowhere),
            Some(pack) => self.in_pack(alloc, notes, index, spot, pack),
        }
    }

    /// Searches in indices, one after another, up to the first that ends it or wants a pack. The others are left.
    pub(crate) fn search(
        &self,
        alloc: Global,
        notes: &Notes,
        indices: &mut LoadedRest,
    ) -> Result<Sought, NoMemory>
        ensures search { IfOk result (λ found. found ≡ search self.now notes.now.absent indices.old) }
        ensures rest { OnOk result (indices.new ≡ rest_behind self.now notes.now.absent indices.old) }
    {
        while let Some(index) = indices.first() {
            let found = self.tried(alloc, notes, index)?;
            indices.pass();
            match found {
                Sought::Nowhere => {}
                other => return Ok(other),
            }
        }
        // No further search goes through what is left, where no slot is loaded.
        indices.pass();
        Ok(Sought::Nowhere)
    }
}
