//! Slots: the index that each holds, with its packs.
ghost use Rattle.std.specs.Prelude.{◌≡◌, IfOk, false, map, slice_get};
ghost use Rattle.std.specs.List.{list_any};
ghost use Rattle.std.specs.Option.{option_map_or};
ghost use Rattle.gix_odb_events.specs.OnDiskFile.{is_disposable, put_back, trashed, with_state};
ghost use Rattle.gix_odb_events.specs.Slots.{IsFewPacks, filled_put_back, filled_trashed, has_disposable, index_path, index_put_back, index_trashed, is_index_disposable, is_index_loaded, is_multi, listed_of, new_filled, new_index};
ghost use Rattle.gix_odb_events.specs.PackFiles.{new_packs};

use crate::listed::Listed;
use crate::listing::ListingRow;
use crate::pack_file::{PackFile, new_packs};
use crate::{FileState, OnDiskFile, PackFileList, Shared};
use gix_pack_read::{index, multi_index};
use odb_base::{NoMemory, PathText, SharedList};
use std::alloc::Global;

/// The index of a slot.
#[derive(Drop)]
pub enum IndexFile {
    /// A pack index.
    Single(OnDiskFile<Shared<index::File>>),
    /// A multi-pack index.
    Multi(OnDiskFile<Shared<multi_index::File>>),
}

/// What a slot holds: an index, when its file was last changed, and its packs.
#[derive(Drop)]
pub struct Filled {
    pub index: IndexFile,
    pub time: u64,
    pub packs: Shared<PackFileList>,
}

/// A slot: nothing, or an index with its packs.
pub type Slot = Option<Shared<Filled>>;

/// Slots, each under its number. Copies of a list share it, and a list with another slot shares the others.
pub type SlotList = SharedList<Filled>;

impl IndexFile {
    /// The path of the index on the disk.
    pub fn path(&self) -> &PathText
        ensures path { result.now ≡ index_path self.now }
    {
        match self {
            IndexFile::Single(file) => file.path(),
            IndexFile::Multi(file) => file.path(),
        }
    }

    /// Its path, shared with one more owner.
    pub fn shared_path(&self) -> Result<Shared<PathText>, NoMemory>
        ensures path { IfOk result (λ path. path ≡ index_path self.now) }
    {
        match self {
            IndexFile::Single(file) => file.shared_path(),
            IndexFile::Multi(file) => file.shared_path(),
        }
    }

    /// A copy, which shares its path and what was read.
    pub fn try_clone(&self) -> Result<IndexFile, NoMemory>
        ensures copy { IfOk result (λ copy. copy ≡ self.now) }
    {
        match self {
            IndexFile::Single(file) => Ok(IndexFile::Single(file.try_clone()?)),
            IndexFile::Multi(file) => Ok(IndexFile::Multi(file.try_clone()?)),
        }
    }

    /// Whether its bytes are in memory.
    pub fn is_loaded(&self) -> bool
        ensures loaded { result ≡ is_index_loaded self.now }
    {
        match self {
            IndexFile::Single(file) => file.is_loaded(),
            IndexFile::Multi(file) => file.is_loaded(),
        }
    }

    /// Whether it is garbage or missing.
    fn is_disposable(&self) -> bool
        ensures disposable { result ≡ is_index_disposable self.now }
    {
        match self {
            IndexFile::Single(file) => file.is_disposable(),
            IndexFile::Multi(file) => file.is_disposable(),
        }
    }

    /// Whether it is a multi-pack index.
    pub fn is_multi(&self) -> bool
        ensures multi { result ≡ is_multi self.now }
    {
        match self {
            IndexFile::Single(_) => false,
            IndexFile::Multi(_) => true,
        }
    }

    /// The index, put back.
    fn put_back(&self) -> Result<IndexFile, NoMemory>
        ensures put_back { IfOk result (λ index. index ≡ index_put_back self.now) }
    {
        match self {
            IndexFile::Single(file) => Ok(IndexFile::Single(file.copy_put_back()?)),
            IndexFile::Multi(file) => Ok(IndexFile::Multi(file.copy_put_back()?)),
        }
    }

    /// The index, trashed.
    fn trashed(&self) -> Result<IndexFile, NoMemory>
        ensures trashed { IfOk result (λ index. index ≡ index_trashed self.now) }
    {
        match self {
            IndexFile::Single(file) => Ok(IndexFile::Single(file.copy_trashed()?)),
            IndexFile::Multi(file) => Ok(IndexFile::Multi(file.copy_trashed()?)),
        }
    }
}

impl Filled {
    /// The contents of a slot that a new row takes.
    pub fn new(alloc: Global, row: &ListingRow) -> Result<Filled, NoMemory>
        ensures filled { IfOk result (λ filled. filled ≡ new_filled row.now) }
        ensures few { IfOk result IsFewPacks }
    {
        let packs = new_packs(alloc, &row.path, &row.multi)?;
        Ok(Filled {
            index: new_index(alloc, &row.path, &row.multi)?,
            time: row.time,
            packs: Shared::new(alloc, packs)?,
        })
    }

    /// The contents of a slot that a listing has again.
    pub fn put_back(&self, alloc: Global) -> Result<Filled, NoMemory>
        ensures put_back { IfOk result (λ filled. filled ≡ filled_put_back self.now) }
    {
        let packs = packs_put_back(alloc, self.packs.value())?;
        Ok(Filled {
            index: self.index.put_back()?,
            time: self.time,
            packs: Shared::new(alloc, packs)?,
        })
    }

    /// The contents of a slot that no listing has any more, while a handle is stable.
    pub fn trashed(&self, alloc: Global) -> Result<Filled, NoMemory>
        ensures trashed { IfOk result (λ filled. filled ≡ filled_trashed self.now) }
    {
        let packs = packs_trashed(alloc, self.packs.value())?;
        Ok(Filled {
            index: self.index.trashed()?,
            time: self.time,
            packs: Shared::new(alloc, packs)?,
        })
    }

    /// Whether one of its files is garbage or missing.
    pub fn has_disposable(&self) -> bool
        ensures disposable { result ≡ has_disposable self.now }
    {
        self.index.is_disposable() || is_any_disposable(self.packs.value())
    }

    /// Its row in a report, as a listed slot.
    pub fn listed(&self) -> Result<Listed, NoMemory>
        ensures listed { IfOk result (λ listed. listed ≡ listed_of self.now) }
    {
        Ok(Listed {
            path: self.index.shared_path()?,
            multi: self.index.is_multi(),
            loaded: self.index.is_loaded(),
            disposable: self.has_disposable(),
        })
    }
}

/// Whether the pack at a place is garbage or missing.
fn is_disposable_at(packs: &PackFileList, place: usize) -> bool
    ensures disposable { result ≡ option_map_or (λ pack. is_disposable pack.state) (slice_get packs.now place) false }
{
    match packs.get(place) {
        Some(pack) => pack.is_disposable(),
        None => false,
    }
}

/// Whether a pack is garbage or missing.
fn is_any_disposable(packs: &PackFileList) -> bool
    ensures disposable { result ≡ list_any (λ pack. is_disposable pack.state) packs.now }
{
    for place in 0..packs.len() {
        if is_disposable_at(packs, place) {
            return true;
        }
    }
    false
}

/// The index of a new row: a single one is to be read, a multi-pack index was read by the listing.
fn new_index(
    alloc: Global,
    path: &PathText,
    multi: &Option<Shared<multi_index::File>>,
) -> Result<IndexFile, NoMemory>
    ensures index { IfOk result (λ index. index ≡ new_index path.now multi.now) }
{
    let path = Shared::new(alloc, path.try_clone(alloc)?)?;
    match multi {
        None => Ok(IndexFile::Single(OnDiskFile::new(path, FileState::Unloaded))),
        Some(file) => Ok(IndexFile::Multi(OnDiskFile::new(
            path,
            FileState::Loaded(file.try_clone()?),
        ))),
    }
}

/// A pack, put back. It is shared if it stays as it is.
fn pack_put_back(alloc: Global, pack: &Shared<PackFile>) -> Result<Shared<PackFile>, NoMemory>
    ensures put_back { IfOk result (λ copy. copy ≡ with_state put_back pack.now) }
{
    if !pack.value().is_disposable() {
        return pack.try_clone();
    }
    Shared::new(alloc, pack.value().copy_put_back()?)
}

/// The packs, each put back.
fn packs_put_back(alloc: Global, packs: &PackFileList) -> Result<PackFileList, NoMemory>
    ensures put_back { IfOk result (λ copies. copies ≡ map (with_state put_back) packs.now) }
{
    let packs = packs.to_vec(alloc)?;
    let mut copies = Vec::with_capacity(alloc, packs.len())?;
    for pack in packs.as_slice() {
        copies.push(pack_put_back(alloc, pack)?)?;
    }
    PackFileList::from_vec(alloc, copies)
}

/// A pack, trashed. It is shared if it stays as it is.
fn pack_trashed(alloc: Global, pack: &Shared<PackFile>) -> Result<Shared<PackFile>, NoMemory>
    ensures trashed { IfOk result (λ copy. copy ≡ with_state trashed pack.now) }
{
    if !pack.value().is_loaded() {
        return pack.try_clone();
    }
    Shared::new(alloc, pack.value().copy_trashed()?)
}

/// The packs, each trashed.
fn packs_trashed(alloc: Global, packs: &PackFileList) -> Result<PackFileList, NoMemory>
    ensures trashed { IfOk result (λ copies. copies ≡ map (with_state trashed) packs.now) }
{
    let packs = packs.to_vec(alloc)?;
    let mut copies = Vec::with_capacity(alloc, packs.len())?;
    for pack in packs.as_slice() {
        copies.push(pack_trashed(alloc, pack)?)?;
    }
    PackFileList::from_vec(alloc, copies)
}
