//! Indices that are lent by a list of slots: they take no memory, and no call refuses.
ghost use Rattle.std.specs.Prelude.{◌≡◌, ◌<◌, ◌≤◌, ◌^◌, ◌-◌, ◌==◌, ◌&&◌, IfSome, Some, drop, if◌then◌else◌, is_some, length, option_map, slice_get};
ghost use Rattle.gix_odb_events.specs.Lent.{lent_file, lent_index, lent_todo};
ghost use Rattle.gix_odb_events.specs.Shown.{first_of, kept_at, loaded_index, shown_indices, shown_kept, shown_slot, shown_todo, unloaded_slot};
ghost use Rattle.gix_odb_events.specs.Slots.{slot_at};

use crate::loaded::{LoadedIndex, SnapshotIndex};
use crate::pack_id::IndexId;
use crate::slot::{Filled, IndexFile, SlotList};
use crate::{PackFileList, PlaceList};
use gix_pack_read::{index, multi_index};
use odb_base::PathText;

/// The file of an index that is loaded, lent.
#[derive(Clone, Copy)]
pub enum LentFile<'a> {
    Single(&'a index::File),
    Multi(&'a multi_index::File),
}

/// A loaded index with its packs, lent.
#[derive(Clone, Copy)]
pub struct LentIndex<'a> {
    pub slot: IndexId,
    pub path: &'a PathText,
    pub index: LentFile<'a>,
    pub packs: &'a PackFileList,
}

/// An index that is listed and not loaded, lent.
#[derive(Clone, Copy)]
pub struct LentTodo<'a> {
    pub slot: IndexId,
    pub path: &'a PathText,
}

impl LoadedIndex {
    /// The file, lent.
    fn lent(&self) -> LentFile<'_>
        ensures lent { lent_file result ≡ self.now }
    {
        match self {
            LoadedIndex::Single(file) => LentFile::Single(file.value()),
            LoadedIndex::Multi(file) => LentFile::Multi(file.value()),
        }
    }
}

impl SnapshotIndex {
    /// The index, lent.
    pub fn lent(&self) -> LentIndex<'_>
        ensures lent { lent_index result ≡ self.now }
        ensures slot { result.slot < 2 ^ 16 }
    {
        LentIndex {
            slot: self.slot as usize,
            path: self.path.value(),
            index: self.index.lent(),
            packs: self.packs.value(),
        }
    }
}

/// The file of an index, if its bytes are in memory.
fn lent_file(index: &IndexFile) -> Option<LentFile<'_>>
    ensures lent { option_map lent_file result ≡ loaded_index index.now }
{
    match index {
        IndexFile::Single(file) => match file.loaded() {
            None => None,
            Some(bytes) => Some(LentFile::Single(bytes.value())),
        },
        IndexFile::Multi(file) => match file.loaded() {
            None => None,
            Some(bytes) => Some(LentFile::Multi(bytes.value())),
        },
    }
}

/// The index of a filled slot, if it is loaded.
fn lent_filled(place: IndexId, filled: &Filled) -> Option<LentIndex<'_>>
    ensures lent { option_map lent_index result ≡ shown_slot place (Some filled.now) }
{
    let Some(index) = lent_file(&filled.index) else {
        return None;
    };
    Some(LentIndex {
        slot: place,
        path: filled.index.path(),
        index,
        packs: filled.packs.value(),
    })
}

/// The index of the slot at a place, if it is loaded. None beyond the slots.
fn lent_at(slots: &SlotList, place: IndexId) -> Option<LentIndex<'_>>
    ensures lent { option_map lent_index result ≡ shown_slot place (slot_at slots.now place) }
{
    match slots.get(place) {
        None => None,
        Some(filled) => lent_filled(place, filled.value()),
    }
}

/// The index of a filled slot, if it is to be loaded.
fn unloaded_filled(place: IndexId, filled: &Filled) -> Option<LentTodo<'_>>
    ensures lent { option_map lent_todo result ≡ unloaded_slot place (Some filled.now) }
{
    if filled.index.is_loaded() {
        return None;
    }
    Some(LentTodo {
        slot: place,
        path: filled.index.path(),
    })
}

/// The index of the slot at a place, if it is to be loaded. None beyond the slots.
fn unloaded_at(slots: &SlotList, place: IndexId) -> Option<LentTodo<'_>>
    ensures lent { option_map lent_todo result ≡ unloaded_slot place (slot_at slots.now place) }
{
    match slots.get(place) {
        None => None,
        Some(filled) => unloaded_filled(place, filled.value()),
    }
}

/// The index of the slot at a place, if it is loaded and isn't listed. None beyond the slots.
fn kept_at<'a>(slots: &'a SlotList, list: &PlaceList, place: IndexId) -> Option<LentIndex<'a>>
    ensures lent { option_map lent_index result ≡ kept_at list.now (place, slot_at slots.now place) }
{
    if list.has_at(place) {
        return None;
    }
    lent_at(slots, place)
}

/// Whether the slot at a place is loaded.
fn is_shown_at(slots: &SlotList, place: IndexId) -> bool
    ensures shown { result ≡ is_some (shown_slot place (slot_at slots.now place)) }
{
    match lent_at(slots, place) {
        Some(_) => true,
        None => false,
    }
}

/// Whether the slot at a place is to be loaded.
fn is_unloaded_at(slots: &SlotList, place: IndexId) -> bool
    ensures unloaded { result ≡ is_some (unloaded_slot place (slot_at slots.now place)) }
{
    match unloaded_at(slots, place) {
        Some(_) => true,
        None => false,
    }
}

/// Whether the slot at a place is loaded and isn't listed.
fn is_kept_at(slots: &SlotList, list: &PlaceList, place: IndexId) -> bool
    ensures kept { result ≡ is_some (kept_at list.now (place, slot_at slots.now place)) }
{
    match kept_at(slots, list, place) {
        Some(_) => true,
        None => false,
    }
}

/// How many of these slots are loaded.
pub(crate) fn count_shown(slots: &SlotList, places: &[u16]) -> usize
    ensures count { result ≡ length (shown_indices slots.now places.now) }
{
    let mut count = 0;
    for place in places {
        if is_shown_at(slots, *place as usize) {
            count += 1;
        }
    }
    count
}

/// The loaded index of these slots that has so many before it.
pub(crate) fn shown_after<'a>(
    slots: &'a SlotList,
    places: &[u16],
    before: usize,
) -> Option<LentIndex<'a>>
    ensures lent { option_map lent_index result ≡ slice_get (shown_indices slots.now places.now) before }
{
    let mut left = before;
    for place in places {
        let there = is_shown_at(slots, *place as usize);
        if is_last(there, left) {
            return lent_at(slots, *place as usize);
        }
        left = left_with(there, left);
    }
    None
}

/// The first loaded index of these slots, and how many of them are passed with it: all if none is loaded.
#[tactic(auto, using(crate::proofs::LentLemmas::number_below))]
pub(crate) fn first_shown<'a>(slots: &'a SlotList, places: &[u16]) -> (Option<LentIndex<'a>>, usize)
    ensures first { option_map lent_index result.0 ≡ first_of (shown_indices slots.now places.now) }
    ensures slot { IfSome result.0 (λ index. index.slot < 2 ^ 16) }
    ensures rest { shown_indices slots.now (drop result.1 places.now) ≡ drop 1 (shown_indices slots.now places.now) }
    ensures within { result.1 ≤ length places.now }
{
    let mut gone = 0;
    while gone < places.len() {
        let place = places[gone];
        gone += 1;
        if let Some(index) = lent_at(slots, place as usize) {
            return (Some(index), gone);
        }
    }
    (None, gone)
}

/// How many of these slots are to be loaded.
pub(crate) fn count_unloaded(slots: &SlotList, places: &[u16]) -> usize
    ensures count { result ≡ length (shown_todo slots.now places.now) }
{
    let mut count = 0;
    for place in places {
        if is_unloaded_at(slots, *place as usize) {
            count += 1;
        }
    }
    count
}

/// The index of these slots that is to be loaded and has so many of them before it.
pub(crate) fn unloaded_after<'a>(
    slots: &'a SlotList,
    places: &[u16],
    before: usize,
) -> Option<LentTodo<'a>>
    ensures lent { option_map lent_todo result ≡ slice_get (shown_todo slots.now places.now) before }
{
    let mut left = before;
    for place in places {
        let there = is_unloaded_at(slots, *place as usize);
        if is_last(there, left) {
            return unloaded_at(slots, *place as usize);
        }
        left = left_with(there, left);
    }
    None
}

/// How many of the slots are loaded and aren't listed.
pub(crate) fn count_kept(slots: &SlotList, list: &PlaceList) -> usize
    ensures count { result ≡ length (shown_kept slots.now list.now) }
{
    let mut count = 0;
    for place in 0..slots.len() {
        if is_kept_at(slots, list, place) {
            count += 1;
        }
    }
    count
}

/// The loaded index of a slot that isn't listed which has so many of these before it.
pub(crate) fn kept_after<'a>(
    slots: &'a SlotList,
    list: &PlaceList,
    before: usize,
) -> Option<LentIndex<'a>>
    ensures lent { option_map lent_index result ≡ slice_get (shown_kept slots.now list.now) before }
{
    let mut left = before;
    for place in 0..slots.len() {
        let there = is_kept_at(slots, list, place);
        if is_last(there, left) {
            return kept_at(slots, list, place);
        }
        left = left_with(there, left);
    }
    None
}

/// Whether an index is the one that is wanted: it is there, and none is left before it.
fn is_last(there: bool, left: usize) -> bool
    ensures last { result ≡ (there && left == 0) }
{
    there && left == 0
}

/// How many are left after an index, if it is there.
fn left_with(there: bool, left: usize) -> usize
    ensures left { result ≡ left - (if there then 1 else 0) }
{
    if there && left > 0 { left - 1 } else { left }
}
