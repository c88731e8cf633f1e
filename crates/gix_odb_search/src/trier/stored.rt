//! How the core shows a pack that was stored.
ghost use Rattle.std.specs.Prelude.{◌≡◌, IfOk, slice_get, unwrap_or};
ghost use Rattle.std.specs.Option.{option_and_then, option_copied};
ghost use Rattle.gix_odb_events.specs.OnDiskFile.{loaded};
ghost use Rattle.gix_odb_search.specs.TryOrder.{by_given, pack_among, pack_behind, pack_in, pack_passed, pack_stored};
ghost use Rattle.gix_odb_search.specs.InSlot.{pack_of};

use super::{Ahead, Tried, seek};
use crate::goal::{Error, Found, Goal};
use crate::search::WantedPack;
use gix_odb_events::{Effect, PackFileList, Shared, SnapshotIndex, View};
use gix_pack_read::data;
use odb_base::NoMemory;
use std::alloc::Global;

/// Returns the result of trying from what a pack gave.
fn by_given(given: Result<Found, Error>) -> Tried
    ensures tried { result ≡ by_given given }
{
    match given {
        Ok(found) => Tried::Hit(found),
        Err(error) => Tried::Bad(error),
    }
}

/// Returns the pack as an index of its slot shows it, where it is loaded.
fn pack_among<'a>(pack: &WantedPack, packs: &'a PackFileList) -> Option<&'a Shared<data::File>>
    ensures pack { option_copied result ≡ pack_among pack.now packs.now }
{
    match packs.place_of(&pack.path) {
        Some(place) => loaded_at(packs, place),
        None => None,
    }
}

/// Returns the pack at a place, where it is loaded.
fn loaded_at(packs: &PackFileList, place: usize) -> Option<&Shared<data::File>>
    ensures pack { option_copied result ≡ option_and_then (λ file. loaded file.state) (slice_get packs.now place) }
{
    match packs.get(place) {
        Some(file) => file.loaded(),
        None => None,
    }
}

/// Returns the pack as an index shows it, where it is loaded.
fn pack_of(
    pack: &WantedPack,
    shown: &Option<SnapshotIndex>,
) -> Result<Option<Shared<data::File>>, NoMemory>
    ensures pack { IfOk result (λ file. file ≡ pack_of pack.now shown.now) }
{
    let Some(index) = shown else {
        return Ok(None);
    };
    match pack_among(pack, index.packs.value()) {
        None => Ok(None),
        Some(file) => Ok(Some(file.try_clone()?)),
    }
}

/// Returns the pack by the index of its slot that is listed.
fn listed_pack(pack: &WantedPack, view: &View) -> Result<Option<Shared<data::File>>, NoMemory>
    ensures pack { IfOk result (λ file. file ≡ pack_in pack.now view.now.snapshot.indices) }
{
    let shown = view.snapshot.indices.in_slot(pack.slot)?;
    pack_of(pack, &shown)
}

/// Returns the pack by the index of its slot that is kept.
fn kept_pack(pack: &WantedPack, view: &View) -> Result<Option<Shared<data::File>>, NoMemory>
    ensures pack { IfOk result (λ file. file ≡ pack_in pack.now view.now.snapshot.kept) }
{
    let shown = view.snapshot.kept.in_slot(pack.slot)?;
    pack_of(pack, &shown)
}

/// Returns the pack as an effect shows it, by the index of its slot that is listed, or else by the one that is kept.
fn pack_behind(pack: &WantedPack, effect: &Effect) -> Result<Option<Shared<data::File>>, NoMemory>
    ensures pack { IfOk result (λ file. file ≡ pack_behind pack.now effect.now) }
{
    let Some(view) = effect.view() else {
        return Ok(None);
    };
    match listed_pack(pack, view)? {
        Some(file) => Ok(Some(file)),
        None => kept_pack(pack, view),
    }
}

/// Returns the pack as an effect shows it, or else as it was read.
fn pack_shown(
    pack: &WantedPack,
    file: Shared<data::File>,
    effect: &Effect,
) -> Result<Shared<data::File>, NoMemory>
    ensures pack { IfOk result (λ shown. shown ≡ unwrap_or (pack_behind pack.now effect.now) file) }
{
    match pack_behind(pack, effect)? {
        Some(shown) => {
            drop(file);
            Ok(shown)
        }
        None => Ok(file),
    }
}

/// Returns the step after a pack was stored, or where its slot holds another file: the pack as the core shows it gives the
/// object, or else the one that was read.
pub(super) fn pack_stored(
    alloc: Global,
    goal: Goal,
    pack: WantedPack,
    file: Shared<data::File>,
    effect: &Effect,
) -> Result<Tried, NoMemory>
    ensures stored { IfOk result (λ tried. tried ≡ pack_stored goal pack file effect.now) }
{
    let offset = pack.offset;
    let shown = pack_shown(&pack, file, effect);
    drop(pack);
    let shown = shown?;
    let given = goal.given_by(alloc, shown.value(), offset);
    drop(shown);
    Ok(by_given(given?))
}

/// Returns the step after an absent pack was passed over.
pub(super) fn pack_passed(
    alloc: Global,
    goal: Goal,
    mut ahead: Ahead,
    pack: WantedPack,
) -> Result<Tried, NoMemory>
    ensures passed { IfOk result (λ tried. tried ≡ pack_passed goal ahead pack) }
{
    ahead.notes.note_absent(alloc, pack.slot, pack.path)?;
    seek(alloc, goal, ahead)
}
