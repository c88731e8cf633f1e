//! Files that were read: which slots take them.
ghost use Rattle.std.specs.Prelude.{◌≡◌, ◌<◌, ◌+◌, IfOk, Some, map, slice_set};
ghost use Rattle.std.specs.List.{list_any};
ghost use Rattle.gix_odb_events.specs.Slots.{slot_at};
ghost use Rattle.gix_odb_core.specs.Files.{index_with, slot_with_index, slot_with_pack, stored_at, takes};
ghost use Rattle.gix_odb_core.specs.PacksWith.{packs_with, place_with};
ghost use Rattle.gix_odb_events.specs.PackList.{HasFirst, IsRising};

use gix_odb_events::{
    FileState, Filled, IndexFile, OnDiskFile, PackFile, PackFileList, Shared, SlotList,
};
use gix_pack_read::{data, index};
use odb_base::{NoMemory, PathText};
use std::alloc::Global;

/// Whether a file is stored at a place: its path is the one that was read, and none is loaded there.
fn takes<F>(path: &PathText, file: &OnDiskFile<Shared<F>>) -> bool
    ensures takes { result ≡ takes path.now file.now }
{
    *file.path() == *path && !file.is_loaded()
}

/// The index, with what was read if it takes it.
fn index_with(
    path: &PathText,
    read: &Shared<index::File>,
    index: &IndexFile,
) -> Result<Option<IndexFile>, NoMemory>
    ensures index { IfOk result (λ stored. stored ≡ index_with path.now read.now index.now) }
{
    match index {
        IndexFile::Multi(_) => Ok(None),
        IndexFile::Single(file) => {
            if !takes(path, file) {
                return Ok(None);
            }
            let stands = file.shared_path()?;
            let state = FileState::Loaded(read.try_clone()?);
            Ok(Some(IndexFile::Single(OnDiskFile::new(stands, state))))
        }
    }
}

fn filled_with_index(
    path: &PathText,
    read: &Shared<index::File>,
    filled: &Filled,
) -> Result<Option<Filled>, NoMemory>
    ensures filled { IfOk result (λ stored. stored ≡ slot_with_index path.now read.now (Some filled.now)) }
{
    match index_with(path, read, &filled.index)? {
        None => Ok(None),
        Some(index) => Ok(Some(Filled {
            index,
            time: filled.time,
            packs: filled.packs.try_clone()?,
        })),
    }
}

/// The contents of the slot at a place after an index is stored in it, if it is. None beyond the slots.
pub fn slot_with_index(
    path: &PathText,
    read: &Shared<index::File>,
    slots: &SlotList,
    place: usize,
) -> Result<Option<Filled>, NoMemory>
    ensures filled { IfOk result (λ stored. stored ≡ slot_with_index path.now read.now (slot_at slots.now place)) }
{
    match slots.get(place) {
        Some(filled) => filled_with_index(path, read, filled.value()),
        None => Ok(None),
    }
}

/// A pack with what was read, if it takes it; else a copy.
fn stored_at(
    path: &PathText,
    read: &Shared<data::File>,
    pack: &PackFile,
) -> Result<PackFile, NoMemory>
    ensures pack { IfOk result (λ stored. stored ≡ stored_at path.now read.now pack.now) }
{
    if !takes(path, pack) {
        return pack.try_clone();
    }
    let stands = pack.shared_path()?;
    let state = FileState::Loaded(read.try_clone()?);
    Ok(OnDiskFile::new(stands, state))
}

/// A pack with what was read, if it takes it, to be shared.
fn shared_stored_at(
    alloc: Global,
    path: &PathText,
    read: &Shared<data::File>,
    pack: &Shared<PackFile>,
) -> Result<Shared<PackFile>, NoMemory>
    ensures pack { IfOk result (λ stored. stored ≡ stored_at path.now read.now pack.now) }
{
    Shared::new(alloc, stored_at(path, read, pack.value())?)
}

/// Whether one of the packs takes a file.
fn is_taken(path: &PathText, packs: &[Shared<PackFile>]) -> bool
    ensures taken { result ≡ list_any (takes path.now) packs.now }
{
    for pack in packs {
        if takes(path, pack.value()) {
            return true;
        }
    }
    false
}

/// The packs, each with what was read if it takes it.
fn each_with(
    alloc: Global,
    path: &PathText,
    read: &Shared<data::File>,
    packs: &[Shared<PackFile>],
) -> Result<PackFileList, NoMemory>
    ensures packs { IfOk result (λ stored. stored ≡ map (stored_at path.now read.now) packs.now) }
{
    let mut copies = Vec::with_capacity(alloc, packs.len())?;
    for pack in packs {
        copies.push(shared_stored_at(alloc, path, read, pack)?)?;
    }
    PackFileList::from_vec(alloc, copies)
}

/// The packs, each with what was read if it takes it, where at least one does.
fn all_with(
    alloc: Global,
    path: &PathText,
    read: &Shared<data::File>,
    packs: &PackFileList,
) -> Result<Option<PackFileList>, NoMemory>
    ensures packs { IfOk result (λ stored. stored ≡ packs_with path.now read.now packs.now) }
{
    let packs = packs.to_vec(alloc)?;
    if !is_taken(path, &packs) {
        return Ok(None);
    }
    Ok(Some(each_with(alloc, path, read, &packs)?))
}

/// The packs with what was read at one place, if the pack there takes it.
fn place_with(
    alloc: Global,
    path: &PathText,
    read: &Shared<data::File>,
    packs: &PackFileList,
    place: usize,
    pack: &Shared<PackFile>,
) -> Result<Option<PackFileList>, NoMemory>
    ensures packs { IfOk result (λ stored. stored ≡ place_with path.now read.now packs.now place pack.now) }
{
    if !takes(path, pack.value()) {
        return Ok(None);
    }
    let stored = shared_stored_at(alloc, path, read, pack)?;
    Ok(Some(packs.with(alloc, place, stored)?))
}

/// The packs, each with what was read if it takes it, where at least one does. Only the one at this place has the path.
fn one_with(
    alloc: Global,
    path: &PathText,
    read: &Shared<data::File>,
    packs: &PackFileList,
    place: usize,
) -> Result<Option<PackFileList>, NoMemory>
    requires rising { IsRising packs.now }
    requires first { HasFirst path.now packs.now place }
    ensures packs { IfOk result (λ stored. stored ≡ packs_with path.now read.now packs.now) }
{
    match packs.shared(place) {
        Some(pack) => place_with(alloc, path, read, packs, place, pack),
        None => Ok(None),
    }
}

/// The packs, each with what was read if it takes it, where at least one does. Their paths are in ascending order, so only one has the
/// path.
fn rising_with(
    alloc: Global,
    path: &PathText,
    read: &Shared<data::File>,
    packs: &PackFileList,
) -> Result<Option<PackFileList>, NoMemory>
    requires rising { IsRising packs.now }
    ensures packs { IfOk result (λ stored. stored ≡ packs_with path.now read.now packs.now) }
{
    match packs.place_of(path) {
        Some(place) => one_with(alloc, path, read, packs, place),
        None => Ok(None),
    }
}

/// The packs, each with what was read if it takes it, where at least one does.
fn packs_with(
    alloc: Global,
    path: &PathText,
    read: &Shared<data::File>,
    packs: &PackFileList,
) -> Result<Option<PackFileList>, NoMemory>
    ensures packs { IfOk result (λ stored. stored ≡ packs_with path.now read.now packs.now) }
{
    if packs.is_rising() {
        return rising_with(alloc, path, read, packs);
    }
    all_with(alloc, path, read, packs)
}

fn filled_with_pack(
    alloc: Global,
    path: &PathText,
    read: &Shared<data::File>,
    filled: &Filled,
) -> Result<Option<Filled>, NoMemory>
    ensures filled { IfOk result (λ stored. stored ≡ slot_with_pack path.now read.now (Some filled.now)) }
{
    let Some(packs) = packs_with(alloc, path, read, filled.packs.value())? else {
        return Ok(None);
    };
    let packs = Shared::new(alloc, packs)?;
    Ok(Some(Filled {
        index: filled.index.try_clone()?,
        time: filled.time,
        packs,
    }))
}

/// The contents of the slot at a place after a pack is stored in it, if it is. None beyond the slots.
pub fn slot_with_pack(
    alloc: Global,
    path: &PathText,
    read: &Shared<data::File>,
    slots: &SlotList,
    place: usize,
) -> Result<Option<Filled>, NoMemory>
    ensures filled { IfOk result (λ stored. stored ≡ slot_with_pack path.now read.now (slot_at slots.now place)) }
{
    match slots.get(place) {
        Some(filled) => filled_with_pack(alloc, path, read, filled.value()),
        None => Ok(None),
    }
}
