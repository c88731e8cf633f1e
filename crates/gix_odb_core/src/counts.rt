//! Counts over slots.
ghost use Rattle.std.specs.Prelude.{◌≡◌, ◌≤◌, All, false, is_none, length, count_by, slice_get};
ghost use Rattle.std.specs.Option.{option_map_or};
ghost use Rattle.gix_odb_events.specs.OnDiskFile.{is_loaded};
ghost use Rattle.gix_odb_core.specs.Counts.{disposable_in, disposable_slot, listed_in, loaded_packs};
ghost use Rattle.gix_odb_events.specs.Slots.{is_index_loaded, is_multi, slot_at, has_disposable, is_index_disposable, HasFewPacks};
ghost use Rattle.gix_odb_core.specs.Tally.{IsSmall, tally_of, with_filled, with_slot};
ghost use Rattle.gix_odb_events.specs.PackId.{most_slots};

use gix_odb_events::{Filled, PackFileList, SlotList};

/// Counts over filled slots.
#[derive(Clone, Copy)]
pub struct Tally {
    /// How many there are.
    pub indices: usize,
    /// How many have their index loaded.
    pub open_indices: usize,
    /// How many packs they have.
    pub packs: usize,
    /// How many of these are loaded.
    pub open_packs: usize,
}

/// Whether the pack at a place is loaded.
fn is_loaded_at(packs: &PackFileList, place: usize) -> bool
    ensures loaded { result ≡ option_map_or (λ pack. is_loaded pack.state) (slice_get packs.now place) false }
{
    match packs.get(place) {
        Some(pack) => pack.is_loaded(),
        None => false,
    }
}

/// How many packs are loaded.
fn loaded_packs(packs: &PackFileList) -> usize
    ensures loaded { result ≡ loaded_packs packs.now }
    ensures at_most { result ≤ length packs.now }
{
    let mut loaded = 0;
    for place in 0..packs.len() {
        if is_loaded_at(packs, place) {
            loaded += 1;
        }
    }
    loaded
}

impl Tally {
    /// The counts with one more filled slot.
    fn with_filled(self, filled: &Filled) -> Tally
        requires small { IsSmall (with_filled self filled.now) }
        ensures tally { result ≡ with_filled self filled.now }
    {
        let open = if filled.index.is_loaded() { 1 } else { 0 };
        let packs = filled.packs.value();
        Tally {
            indices: self.indices + 1,
            open_indices: self.open_indices + open,
            packs: self.packs + packs.len(),
            open_packs: self.open_packs + loaded_packs(packs),
        }
    }

    /// The counts with the slot at a place, if it is filled.
    fn with_place(self, slots: &SlotList, place: u16) -> Tally
        requires small { IsSmall (with_slot self (slot_at slots.now place)) }
        ensures tally { result ≡ with_slot self (slot_at slots.now place) }
    {
        match slots.get(place as usize) {
            Some(filled) => self.with_filled(filled.value()),
            None => self,
        }
    }

    /// The counts with the slot at a place, if one of its files is garbage or missing.
    fn with_disposable(self, slots: &SlotList, place: usize) -> Tally
        requires small { IsSmall (with_slot self (disposable_slot (slot_at slots.now place))) }
        ensures tally { result ≡ with_slot self (disposable_slot (slot_at slots.now place)) }
    {
        match slots.get(place) {
            Some(filled) => self.with_filled_if_disposable(filled.value()),
            None => self,
        }
    }

    /// The counts with a filled slot, if one of its files is garbage or missing.
    fn with_filled_if_disposable(self, filled: &Filled) -> Tally
        requires small { IsSmall (with_slot self (disposable_slot (Some filled.now))) }
        ensures tally { result ≡ with_slot self (disposable_slot (Some filled.now)) }
    {
        if filled.has_disposable() {
            self.with_filled(filled)
        } else {
            self
        }
    }
}

/// Counts over no slot.
const NO_TALLY: Tally = Tally {
    indices: 0,
    open_indices: 0,
    packs: 0,
    open_packs: 0,
};

/// Counts over the listed slots. A slot that is listed twice counts twice.
pub fn listed_tally(slots: &SlotList, list: &[u16]) -> Tally
    requires packs { All HasFewPacks slots.now }
    requires short { length list.now ≤ most_slots }
    ensures tally { result ≡ tally_of (listed_in slots.now list.now) }
{
    let mut tally = NO_TALLY;
    for place in list {
        tally = tally.with_place(slots, *place);
    }
    tally
}

/// Counts over the filled slots with a file that is garbage or missing.
pub fn disposable_tally(slots: &SlotList) -> Tally
    requires packs { All HasFewPacks slots.now }
    requires few { length slots.now ≤ most_slots }
    ensures tally { result ≡ tally_of (disposable_in slots.now) }
{
    let mut tally = NO_TALLY;
    for place in 0..slots.len() {
        tally = tally.with_disposable(slots, place);
    }
    tally
}

/// Whether the slot at a place is empty.
fn is_empty(slots: &SlotList, place: usize) -> bool
    ensures empty { result ≡ is_none (slot_at slots.now place) }
{
    slots.get(place).is_none()
}

/// How many slots are empty.
pub fn count_unused(slots: &SlotList) -> usize
    ensures unused { result ≡ count_by is_none slots.now }
{
    let mut unused = 0;
    for place in 0..slots.len() {
        if is_empty(slots, place) {
            unused += 1;
        }
    }
    unused
}
