//! How the core shows an index that was stored.
ghost use Rattle.std.specs.Prelude.{◌≡◌, IfOk};
ghost use Rattle.std.specs.List.{find};
ghost use Rattle.gix_odb_search.specs.LoadOrder.{index_stored, is_at, own_index, shown_behind};
ghost use Rattle.gix_odb_search.specs.InSlot.{at_path};

use super::IndexPlace;
use gix_odb_events::{Effect, LoadedIndex, Shared, SnapshotIndex, View, packs_beside};
use gix_pack_read::index;
use odb_base::NoMemory;
use std::alloc::Global;

/// Returns whether an index that is shown is in a slot, at a path.
fn is_at(place: &IndexPlace, shown: &SnapshotIndex) -> bool
    ensures at { result ≡ is_at place.now shown.now }
{
    shown.slot == place.slot && *shown.path.value() == place.path
}

/// Returns the index of a slot that is shown, where it is at a path.
fn at_path(place: &IndexPlace, shown: Option<SnapshotIndex>) -> Option<SnapshotIndex>
    ensures at { result ≡ at_path place.now shown }
{
    let index = shown?;
    if is_at(place, &index) {
        Some(index)
    } else {
        drop(index);
        None
    }
}

/// Returns the index of a slot and a path among those that are listed.
fn listed_at(place: &IndexPlace, view: &View) -> Result<Option<SnapshotIndex>, NoMemory>
    ensures listed { IfOk result (λ shown. shown ≡ find (is_at place.now) view.now.snapshot.indices) }
{
    let shown = view.snapshot.indices.in_slot(place.slot)?;
    Ok(at_path(place, shown))
}

/// Returns the index of a slot and a path among those that are kept.
fn kept_at(place: &IndexPlace, view: &View) -> Result<Option<SnapshotIndex>, NoMemory>
    ensures kept { IfOk result (λ shown. shown ≡ find (is_at place.now) view.now.snapshot.kept) }
{
    let shown = view.snapshot.kept.in_slot(place.slot)?;
    Ok(at_path(place, shown))
}

/// Returns the index of a slot and a path, as an effect shows it: listed, or else kept.
fn shown_behind(place: &IndexPlace, effect: &Effect) -> Result<Option<SnapshotIndex>, NoMemory>
    ensures shown { IfOk result (λ shown. shown ≡ shown_behind place.now effect.now) }
{
    let Some(view) = effect.view() else {
        return Ok(None);
    };
    match listed_at(place, view)? {
        Some(index) => Ok(Some(index)),
        None => kept_at(place, view),
    }
}

/// Returns an index as it was read, whose slot no longer holds its path: its pack is still to be read.
fn own_index(
    alloc: Global,
    place: IndexPlace,
    file: Shared<index::File>,
) -> Result<SnapshotIndex, NoMemory>
    ensures own { IfOk result (λ index. index ≡ own_index place file) }
{
    let IndexPlace { slot, path } = place;
    let packs = packs_beside(alloc, &path)?;
    Ok(SnapshotIndex {
        slot,
        path: Shared::new(alloc, path)?,
        index: LoadedIndex::Single(file),
        packs,
    })
}

/// Returns an index that was stored, as the core shows it, or else as it was read.
pub(super) fn index_stored(
    alloc: Global,
    place: IndexPlace,
    file: Shared<index::File>,
    effect: &Effect,
) -> Result<SnapshotIndex, NoMemory>
    ensures index { IfOk result (λ index. index ≡ index_stored place file effect.now) }
{
    match shown_behind(&place, effect)? {
        Some(shown) => {
            drop(place);
            drop(file);
            Ok(shown)
        }
        None => own_index(alloc, place, file),
    }
}
