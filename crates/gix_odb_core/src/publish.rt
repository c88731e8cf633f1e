//! What publishing a listing does to the slots and the list.
//!
//! The rows are looked up among the slots once, by the table of these (`SlotTable`), and the slots among the rows
//! (`Matched`). So a listing takes time proportional to the number of rows and slots, times its logarithm.
ghost use Rattle.std.specs.Prelude.{◌≡◌, ◌≤◌, ◌<◌, ◌-◌, ◌++◌, ◌∷◌, [], IfOk, OnOk, All, Some, drop, is_none, is_some, length, map, filter, take, if◌then◌else◌};
ghost use Rattle.std.specs.Option.{option_to_list};
ghost use Rattle.std.specs.List.{filter_map, list_any, range_with_len, zip};
ghost use Rattle.gix_odb_events.specs.Slots.{HasFewPacks, filled_put_back, filled_trashed, slot_at};
ghost use Rattle.gix_odb_core.specs.Publish.{free_places, is_free, list_after, new_rows, place_after, settled, slots_after, taken, with_taken};

use crate::index_key::places_of_rows;
use crate::unsettled::has_trashable;
use crate::{Matched, SlotTable};
use gix_odb_events::{Filled, ListingRow, Shared, Slot};
use odb_base::{NoMemory, Sequence};
use std::alloc::Global;

/// Whether a slot is free: it is empty, or no handle is stable and no row keeps it.
fn is_free(stable: bool, matched: &Matched, place: usize) -> bool
    requires within { place < length matched.now.slots.now }
    ensures free { result ≡ is_free stable matched.now.rows.now (slot_at matched.now.slots.now place) }
{
    match matched.slot(place) {
        None => true,
        Some(_) => !stable && !matched.is_kept(place),
    }
}

/// The place after the greatest of a list, and 0 where it is empty.
fn place_after(list: &[u16]) -> usize
    ensures place { result ≡ place_after list.now }
{
    let mut after = 0;
    for place in list {
        after = after.max(*place as usize + 1);
    }
    after
}

/// Adds a place, if it is wanted.
fn put_if(places: &mut Vec<usize>, place: usize, wanted: bool) -> Result<(), NoMemory>
    ensures put { OnOk result (places.new.items ≡ places.old.items ++ (if wanted then place ∷ [] else [])) }
{
    if wanted {
        places.push(place)?;
    }
    Ok(())
}

/// The free slots among those from one place up to another, added to a list of places.
fn put_free(
    places: &mut Vec<usize>,
    stable: bool,
    matched: &Matched,
    from: usize,
    to: usize,
) -> Result<(), NoMemory>
    requires ordered { from ≤ to }
    requires within { to ≤ length matched.now.slots.now }
    requires places { All (λ place. place < length matched.now.slots.now) places.old.items }
    ensures put { OnOk result (places.new.items ≡ places.old.items ++ filter (λ place. is_free stable matched.now.rows.now (slot_at matched.now.slots.now place)) (range_with_len from (to - from))) }
    ensures within { OnOk result (All (λ place. place < length matched.now.slots.now) places.new.items) }
{
    for place in from..to {
        put_if(places, place, is_free(stable, matched, place))?;
    }
    Ok(())
}

/// The free slots, in the order in which they are taken.
pub fn free_places(
    alloc: Global,
    stable: bool,
    matched: &Matched,
    list: &[u16],
) -> Result<Vec<usize>, NoMemory>
    ensures free { IfOk result (λ places. places.items ≡ free_places stable matched.now.rows.now matched.now.slots.now list.now) }
    ensures within { IfOk result (λ places. All (λ place. place < length matched.now.slots.now) places.items) }
{
    let count = matched.slots.len();
    let start = place_after(list).min(count);
    let mut places = Vec::new(alloc);
    put_free(&mut places, stable, matched, start, count)?;
    put_free(&mut places, stable, matched, 0, start)?;
    Ok(places)
}

/// How many of these are None.
fn count_without(places: &[Option<u16>]) -> usize
    ensures count { result ≡ length (filter is_none places.now) }
{
    places.iter().filter(|place| place.is_none()).count()
}

/// How many rows are new: no slot holds them.
pub fn count_new(matched: &Matched) -> usize
    ensures count { result ≡ length (new_rows matched.now.slots.now matched.now.rows.now) }
{
    count_without(matched.places())
}

/// The contents of a slot, put back. They are shared if they stay as they are.
fn put_back(alloc: Global, filled: &Shared<Filled>) -> Result<Shared<Filled>, NoMemory>
    ensures put_back { IfOk result (λ after. after ≡ filled_put_back filled.now) }
{
    if filled.value().has_disposable() {
        return Shared::new(alloc, filled.value().put_back(alloc)?);
    }
    filled.try_clone()
}

/// The contents of a slot, trashed. They are shared if they stay as they are.
fn trashed(alloc: Global, filled: &Shared<Filled>) -> Result<Shared<Filled>, NoMemory>
    ensures trashed { IfOk result (λ after. after ≡ filled_trashed filled.now) }
{
    if has_trashable(filled.value()) {
        return Shared::new(alloc, filled.value().trashed(alloc)?);
    }
    filled.try_clone()
}

/// The slot at a place after a listing, if no new row takes it. It is shared if it stays as it is.
fn settled(alloc: Global, stable: bool, matched: &Matched, place: usize) -> Result<Slot, NoMemory>
    requires within { place < length matched.now.slots.now }
    ensures settled { IfOk result (λ slot. slot ≡ settled stable matched.now.rows.now (slot_at matched.now.slots.now place)) }
{
    let Some(filled) = matched.slot(place) else {
        return Ok(None);
    };
    if matched.is_kept(place) {
        Ok(Some(put_back(alloc, filled)?))
    } else if stable {
        Ok(Some(trashed(alloc, filled)?))
    } else {
        Ok(None)
    }
}

/// The slots, each settled.
fn all_settled(alloc: Global, stable: bool, matched: &Matched) -> Result<Vec<Slot>, NoMemory>
    ensures settled { IfOk result (λ after. after.items ≡ map (settled stable matched.now.rows.now) matched.now.slots.now) }
{
    let mut after = Vec::new(alloc);
    for place in 0..matched.slots.len() {
        after.push(settled(alloc, stable, matched, place)?)?;
    }
    Ok(after)
}

/// Puts a row into the first of the free slots that are left, if it is new and there is one. Returns those left then.
fn take_one<'a>(
    alloc: Global,
    after: &mut Vec<Slot>,
    left: &'a [usize],
    row: &ListingRow,
    new: bool,
) -> Result<&'a [usize], NoMemory>
    requires within { All (λ place. place < length after.old.items) left.now }
    requires packs { All HasFewPacks after.old.items }
    ensures taken { OnOk result (after.new.items ≡ with_taken (zip left.now (if new then row.now ∷ [] else [])) after.old.items) }
    ensures left { IfOk result (λ more. more.now ≡ drop (if new then 1 else 0) left.now) }
    ensures len { OnOk result (length after.new.items ≡ length after.old.items) }
    ensures packs { OnOk result (All HasFewPacks after.new.items) }
{
    if !new {
        return Ok(left);
    }
    let [place, more @ ..] = left else {
        return Ok(left);
    };
    after[*place] = Some(Shared::new(alloc, Filled::new(alloc, row)?)?);
    Ok(more)
}

/// Puts the new rows into free slots.
fn take(
    alloc: Global,
    after: &mut Vec<Slot>,
    free: &[usize],
    matched: &Matched,
) -> Result<(), NoMemory>
    requires within { All (λ place. place < length after.old.items) free.now }
    requires packs { All HasFewPacks after.old.items }
    ensures taken { OnOk result (after.new.items ≡ with_taken (zip free.now (new_rows matched.now.slots.now matched.now.rows.now)) after.old.items) }
    ensures packs { OnOk result (All HasFewPacks after.new.items) }
{
    let mut left = free;
    for (place, row) in matched.rows.iter().enumerate() {
        left = take_one(alloc, after, left, row, matched.is_new(place))?;
    }
    Ok(())
}

/// Adds the number of a slot, if there is one.
fn put_place(list: &mut Sequence<u16>, place: Option<u16>) -> Result<(), NoMemory>
    ensures put { OnOk result (list.new ≡ list.old ++ option_to_list place) }
{
    if let Some(place) = place {
        list.push(place)?;
    }
    Ok(())
}

/// The numbers of these slots.
fn listed(alloc: Global, places: &[Option<u16>]) -> Result<Sequence<u16>, NoMemory>
    ensures list { IfOk result (λ list. list ≡ filter_map (λ place. place) places.now) }
{
    let mut list = Sequence::new(alloc);
    for place in places {
        put_place(&mut list, *place)?;
    }
    Ok(list)
}

/// The new list, where the slots stay unchanged: for each row, the slot that holds it.
pub fn list_as_is(alloc: Global, matched: &Matched) -> Result<Sequence<u16>, NoMemory>
    ensures list { IfOk result (λ list. list ≡ list_after matched.now.rows.now matched.now.slots.now) }
{
    listed(alloc, matched.places())
}

/// The new list, by the slots after the listing: for each row, the slot that holds it.
pub fn list_after(
    alloc: Global,
    rows: &[ListingRow],
    slots: &SlotTable,
) -> Result<Sequence<u16>, NoMemory>
    ensures list { IfOk result (λ list. list ≡ list_after rows.now slots.now) }
{
    let places = places_of_rows(alloc, rows, slots)?;
    listed(alloc, &places)
}

/// Whether a slot holds something.
fn is_filled(slots: &[Slot], place: usize) -> bool
    ensures filled { result ≡ is_some (slot_at slots.now place) }
{
    match slots.get(place) {
        Some(slot) => slot.is_some(),
        None => false,
    }
}

/// Whether one of these slots holds something.
fn is_any_filled(slots: &[Slot], places: &[usize]) -> bool
    ensures filled { result ≡ list_any (λ place. is_some (slot_at slots.now place)) places.now }
{
    for place in places {
        if is_filled(slots, *place) {
            return true;
        }
    }
    false
}

/// Whether one of the first `news` free slots holds something.
pub fn takes_over(slots: &[Slot], free: &[usize], news: usize) -> bool
    requires room { news ≤ length free.now }
    ensures over { result ≡ list_any (λ place. is_some (slot_at slots.now place)) (take news free.now) }
{
    is_any_filled(slots, &free[..news])
}

/// The slots after a listing, whose new rows take these free slots.
pub fn slots_after(
    alloc: Global,
    stable: bool,
    matched: &Matched,
    free: &[usize],
) -> Result<Sequence<Slot>, NoMemory>
    requires within { All (λ place. place < length matched.now.slots.now) free.now }
    requires packs { All HasFewPacks matched.now.slots.now }
    ensures packs { IfOk result (All HasFewPacks) }
    ensures slots { IfOk result (λ after. after ≡ with_taken (zip free.now (new_rows matched.now.slots.now matched.now.rows.now)) (map (settled stable matched.now.rows.now) matched.now.slots.now)) }
{
    let mut after = all_settled(alloc, stable, matched)?;
    take(alloc, &mut after, free, matched)?;
    Ok(Sequence::from_vec(after))
}
