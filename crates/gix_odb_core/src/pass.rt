//! Files that were passed over: they are missing unless they were loaded.
ghost use Rattle.std.specs.Prelude.{◌≡◌, IfOk, false, map, slice_get, slice_set};
ghost use Rattle.std.specs.List.{list_any};
ghost use Rattle.std.specs.Option.{option_map_or};
ghost use Rattle.gix_odb_events.specs.PackList.{HasFirst, IsRising};
ghost use Rattle.gix_odb_events.specs.OnDiskFile.{file_path, file_state, file_at, passed};
ghost use Rattle.gix_odb_events.specs.Slots.{slot_at};
ghost use Rattle.gix_odb_core.specs.Files.{index_passed, index_turns_missing, passed_at, slot_passed, slot_turns_missing, turns_missing};

use gix_odb_events::{
    FileState, Filled, IndexFile, OnDiskFile, PackFile, PackFileList, Shared, Slot, SlotList,
};
use odb_base::{NoMemory, PathText};
use std::alloc::Global;

/// Whether a file becomes missing when a path is passed over: it has this path, and isn't read yet.
fn turns_missing<F>(path: &PathText, file: &OnDiskFile<Shared<F>>) -> bool
    ensures missing { result ≡ turns_missing path.now file.now }
{
    *file.path() == *path && file.is_unloaded()
}

fn index_turns_missing(path: &PathText, index: &IndexFile) -> bool
    ensures missing { result ≡ index_turns_missing path.now index.now }
{
    match index {
        IndexFile::Single(file) => turns_missing(path, file),
        IndexFile::Multi(file) => turns_missing(path, file),
    }
}

/// Whether the pack at a place becomes missing.
fn turns_missing_at(path: &PathText, packs: &PackFileList, place: usize) -> bool
    ensures missing { result ≡ option_map_or (turns_missing path.now) (slice_get packs.now place) false }
{
    match packs.get(place) {
        Some(pack) => turns_missing(path, pack),
        None => false,
    }
}

/// Whether a pack becomes missing, by trying each.
fn is_one_turning_missing(path: &PathText, packs: &PackFileList) -> bool
    ensures missing { result ≡ list_any (turns_missing path.now) packs.now }
{
    for place in 0..packs.len() {
        if turns_missing_at(path, packs, place) {
            return true;
        }
    }
    false
}

/// Whether a pack becomes missing. Their paths are in ascending order, so only one has the path.
fn is_rising_turning_missing(path: &PathText, packs: &PackFileList) -> bool
    requires rising { IsRising packs.now }
    ensures missing { result ≡ list_any (turns_missing path.now) packs.now }
{
    match packs.place_of(path) {
        Some(place) => turns_missing_at(path, packs, place),
        None => false,
    }
}

/// Whether a pack becomes missing.
fn is_any_turning_missing(path: &PathText, packs: &PackFileList) -> bool
    ensures missing { result ≡ list_any (turns_missing path.now) packs.now }
{
    if packs.is_rising() {
        return is_rising_turning_missing(path, packs);
    }
    is_one_turning_missing(path, packs)
}

/// Whether a file of the slot at a place becomes missing when a path is passed over. If none does, the slots stay unchanged.
pub fn slot_turns_missing(path: &PathText, slots: &SlotList, place: usize) -> bool
    ensures missing { result ≡ slot_turns_missing path.now (slot_at slots.now place) }
{
    match slots.get(place) {
        Some(filled) => {
            let filled = filled.value();
            index_turns_missing(path, &filled.index)
                || is_any_turning_missing(path, filled.packs.value())
        }
        None => false,
    }
}

/// A copy of a file, which is missing if it has this path and isn't loaded.
fn passed_at<F: Drop>(
    path: &PathText,
    file: &OnDiskFile<Shared<F>>,
) -> Result<OnDiskFile<Shared<F>>, NoMemory>
    ensures file { IfOk result (λ copy. copy ≡ passed_at path.now file.now) }
{
    if *file.path() == *path && !file.is_loaded() {
        return Ok(OnDiskFile::new(file.shared_path()?, FileState::Missing));
    }
    file.try_clone()
}

/// A copy of an index, which is missing if it has this path and isn't loaded.
fn index_passed(path: &PathText, index: &IndexFile) -> Result<IndexFile, NoMemory>
    ensures index { IfOk result (λ copy. copy ≡ index_passed path.now index.now) }
{
    match index {
        IndexFile::Single(file) => Ok(IndexFile::Single(passed_at(path, file)?)),
        IndexFile::Multi(file) => Ok(IndexFile::Multi(passed_at(path, file)?)),
    }
}

/// A pack, which is missing if it has this path and isn't loaded, to be shared.
fn pack_passed(
    alloc: Global,
    path: &PathText,
    pack: &Shared<PackFile>,
) -> Result<Shared<PackFile>, NoMemory>
    ensures pack { IfOk result (λ copy. copy ≡ passed_at path.now pack.now) }
{
    Shared::new(alloc, passed_at(path, pack.value())?)
}

/// The packs, each missing if it has this path and isn't loaded.
fn all_passed(
    alloc: Global,
    path: &PathText,
    packs: &PackFileList,
) -> Result<PackFileList, NoMemory>
    ensures packs { IfOk result (λ copies. copies ≡ map (passed_at path.now) packs.now) }
{
    let packs = packs.to_vec(alloc)?;
    let mut copies = Vec::with_capacity(alloc, packs.len())?;
    for pack in packs.as_slice() {
        copies.push(pack_passed(alloc, path, pack)?)?;
    }
    PackFileList::from_vec(alloc, copies)
}

/// The packs with another one at one place: the one there, missing if it has this path and isn't loaded.
fn place_passed(
    alloc: Global,
    path: &PathText,
    packs: &PackFileList,
    place: usize,
    pack: &Shared<PackFile>,
) -> Result<PackFileList, NoMemory>
    ensures packs { IfOk result (λ copies. copies ≡ slice_set packs.now place (passed_at path.now pack.now)) }
{
    let passed = pack_passed(alloc, path, pack)?;
    packs.with(alloc, place, passed)
}

/// The packs, each missing if it has this path and isn't loaded. Only the one at this place has the path.
fn one_passed(
    alloc: Global,
    path: &PathText,
    packs: &PackFileList,
    place: usize,
) -> Result<PackFileList, NoMemory>
    requires rising { IsRising packs.now }
    requires first { HasFirst path.now packs.now place }
    ensures packs { IfOk result (λ copies. copies ≡ map (passed_at path.now) packs.now) }
{
    match packs.shared(place) {
        Some(pack) => place_passed(alloc, path, packs, place, pack),
        None => all_passed(alloc, path, packs),
    }
}

/// The packs, each missing if it has this path and isn't loaded.
fn packs_passed(
    alloc: Global,
    path: &PathText,
    packs: &PackFileList,
) -> Result<PackFileList, NoMemory>
    ensures packs { IfOk result (λ copies. copies ≡ map (passed_at path.now) packs.now) }
{
    if packs.is_rising() {
        if let Some(place) = packs.place_of(path) {
            return one_passed(alloc, path, packs, place);
        }
    }
    all_passed(alloc, path, packs)
}

fn filled_passed(alloc: Global, path: &PathText, filled: &Filled) -> Result<Filled, NoMemory>
    ensures filled { IfOk result (λ copy. copy ≡ record filled.now { index = index_passed path.now filled.now.index; packs = map (passed_at path.now) filled.now.packs }) }
{
    let packs = packs_passed(alloc, path, filled.packs.value())?;
    let index = index_passed(path, &filled.index)?;
    Ok(Filled {
        index,
        time: filled.time,
        packs: Shared::new(alloc, packs)?,
    })
}

/// The slot at a place after the file of a path was passed over. Empty beyond the slots.
pub fn slot_passed(
    alloc: Global,
    path: &PathText,
    slots: &SlotList,
    place: usize,
) -> Result<Slot, NoMemory>
    ensures slot { IfOk result (λ slot. slot ≡ slot_passed path.now (slot_at slots.now place)) }
{
    match slots.get(place) {
        Some(filled) => {
            let passed = filled_passed(alloc, path, filled.value())?;
            Ok(Some(Shared::new(alloc, passed)?))
        }
        None => Ok(None),
    }
}
