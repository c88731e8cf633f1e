//! What is shown of slots: the index of each if its bytes are in memory, and otherwise that it is to be loaded.
ghost use Rattle.std.specs.Prelude.{◌≡◌, ◌≤◌, IfOk, Some, drop, length};
ghost use Rattle.gix_odb_events.specs.Shown.{first_of, loaded_index, shown_slot, shown_todo, unloaded_slot};
ghost use Rattle.gix_odb_events.specs.Slots.{slot_at};

use crate::loaded::{LoadedIndex, SnapshotIndex, Todo};
use crate::slot::{Filled, IndexFile, SlotList};
use odb_base::NoMemory;

/// The index of a slot, if its bytes are in memory.
fn loaded_index(index: &IndexFile) -> Result<Option<LoadedIndex>, NoMemory>
    ensures loaded { IfOk result (λ shown. shown ≡ loaded_index index.now) }
{
    match index {
        IndexFile::Single(file) => match file.loaded() {
            None => Ok(None),
            Some(bytes) => Ok(Some(LoadedIndex::Single(bytes.try_clone()?))),
        },
        IndexFile::Multi(file) => match file.loaded() {
            None => Ok(None),
            Some(bytes) => Ok(Some(LoadedIndex::Multi(bytes.try_clone()?))),
        },
    }
}

/// The index of a filled slot in a snapshot, if it is loaded.
fn shown_filled(place: u16, filled: &Filled) -> Result<Option<SnapshotIndex>, NoMemory>
    ensures shown { IfOk result (λ shown. shown ≡ shown_slot place (Some filled.now)) }
{
    let Some(index) = loaded_index(&filled.index)? else {
        return Ok(None);
    };
    let path = filled.index.shared_path()?;
    let packs = filled.packs.try_clone()?;
    Ok(Some(SnapshotIndex {
        slot: place,
        path,
        index,
        packs,
    }))
}

/// The index of a filled slot that is to be loaded, if it is.
fn unloaded_filled(place: u16, filled: &Filled) -> Result<Option<Todo>, NoMemory>
    ensures unloaded { IfOk result (λ unloaded. unloaded ≡ unloaded_slot place (Some filled.now)) }
{
    if filled.index.is_loaded() {
        return Ok(None);
    }
    Ok(Some(Todo {
        slot: place,
        path: filled.index.shared_path()?,
    }))
}

/// The index of the slot at a place in a snapshot, if it is loaded. None beyond the slots.
pub(crate) fn shown_at(slots: &SlotList, place: u16) -> Result<Option<SnapshotIndex>, NoMemory>
    ensures shown { IfOk result (λ shown. shown ≡ shown_slot place (slot_at slots.now place)) }
{
    match slots.get(place as usize) {
        None => Ok(None),
        Some(filled) => shown_filled(place, filled.value()),
    }
}

/// The index of the slot at a place that is to be loaded, if it is. None beyond the slots.
fn unloaded_at(slots: &SlotList, place: u16) -> Result<Option<Todo>, NoMemory>
    ensures unloaded { IfOk result (λ unloaded. unloaded ≡ unloaded_slot place (slot_at slots.now place)) }
{
    match slots.get(place as usize) {
        None => Ok(None),
        Some(filled) => unloaded_filled(place, filled.value()),
    }
}

/// The first index of a list that is to be loaded, and how many of its places were passed by then.
pub(crate) fn first_unloaded(
    slots: &SlotList,
    places: &[u16],
) -> Result<(Option<Todo>, usize), NoMemory>
    ensures first { IfOk result (λ found. found.0 ≡ first_of (shown_todo slots.now places.now)) }
    ensures rest { IfOk result (λ found. shown_todo slots.now (drop found.1 places.now) ≡ drop 1 (shown_todo slots.now places.now)) }
    ensures within { IfOk result (λ found. found.1 ≤ length places.now) }
{
    let mut gone = 0;
    while gone < places.len() {
        let place = places[gone];
        gone += 1;
        if let Some(todo) = unloaded_at(slots, place)? {
            return Ok((Some(todo), gone));
        }
    }
    Ok((None, gone))
}
