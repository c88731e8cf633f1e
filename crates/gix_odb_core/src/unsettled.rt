//! Which slots a listing changes.
ghost use Rattle.std.specs.Prelude.{◌≡◌, ◌<◌, false, length, slice_get};
ghost use Rattle.std.specs.List.{list_any};
ghost use Rattle.std.specs.Option.{option_map_or};
ghost use Rattle.gix_odb_events.specs.OnDiskFile.{file_state};
ghost use Rattle.gix_odb_events.specs.Slots.{slot_at};
ghost use Rattle.gix_odb_core.specs.Publish.{has_trashable, is_index_trashable, is_trashable, is_unsettled};

use crate::Matched;
use gix_odb_events::{Filled, IndexFile, OnDiskFile, PackFileList};

/// Whether a file changes when its slot is trashed: it is loaded, and is not garbage yet.
fn is_trashable<T>(file: &OnDiskFile<T>) -> bool
    ensures trashable { result ≡ is_trashable (file_state file.now) }
{
    file.is_loaded() && !file.is_disposable()
}

/// Whether an index changes when its slot is trashed.
fn is_index_trashable(index: &IndexFile) -> bool
    ensures trashable { result ≡ is_index_trashable index.now }
{
    match index {
        IndexFile::Single(file) => is_trashable(file),
        IndexFile::Multi(file) => is_trashable(file),
    }
}

/// Whether the pack at a place changes when its slot is trashed.
fn is_trashable_at(packs: &PackFileList, place: usize) -> bool
    ensures trashable { result ≡ option_map_or (λ pack. is_trashable pack.state) (slice_get packs.now place) false }
{
    match packs.get(place) {
        Some(pack) => is_trashable(pack),
        None => false,
    }
}

/// Whether a pack changes when its slot is trashed.
fn is_any_trashable(packs: &PackFileList) -> bool
    ensures trashable { result ≡ list_any (λ pack. is_trashable pack.state) packs.now }
{
    for place in 0..packs.len() {
        if is_trashable_at(packs, place) {
            return true;
        }
    }
    false
}

/// Whether a file of a slot changes when the slot is trashed.
pub(crate) fn has_trashable(filled: &Filled) -> bool
    ensures trashable { result ≡ has_trashable filled.now }
{
    is_index_trashable(&filled.index) || is_any_trashable(filled.packs.value())
}

/// Whether a listing changes a slot: a kept one has a file that is garbage or missing; another one is emptied, or
/// while a handle is stable has a file that becomes garbage.
fn is_unsettled(stable: bool, matched: &Matched, place: usize) -> bool
    requires within { place < length matched.now.slots.now }
    ensures unsettled { result ≡ is_unsettled stable matched.now.rows.now (slot_at matched.now.slots.now place) }
{
    let Some(filled) = matched.slot(place) else {
        return false;
    };
    if matched.is_kept(place) {
        filled.value().has_disposable()
    } else {
        !stable || has_trashable(filled.value())
    }
}

/// Whether a listing changes one of the slots. If it doesn't and no row is new, the slots stay unchanged.
pub fn is_any_unsettled(stable: bool, matched: &Matched) -> bool
    ensures unsettled { result ≡ list_any (is_unsettled stable matched.now.rows.now) matched.now.slots.now }
{
    for place in 0..matched.slots.len() {
        if is_unsettled(stable, matched, place) {
            return true;
        }
    }
    false
}
