//! Slots, and the table in which the slot of an index is searched.
//!
//! The table has the numbers of the filled slots, in the order of the paths of their indices: of one path the pack index
//! first, then the multi-pack indices by their times. Slots that hold the same index are in the order of their numbers. A
//! file that is stored or passed over changes no slot's path or time, so the slots after it share the table. A listing
//! that changes the slots makes it anew.
ghost use Rattle.std.specs.Prelude.{◌≡◌, ◌+◌, ◌≤◌, ◌<◌, true, All, IfOk, None, Some, is_some, length, map, replicate, slice_set, unwrap_or, []};
ghost use Rattle.gix_hash.specs.Steps.{IsSearch};
ghost use Rattle.std.specs.Option.{option_cmp};
ghost use Rattle.gix_odb_core.specs.SlotTable.{IsTable, filled_count, filled_places, key_at, keys_of, pair_cmp, slot_key, slot_of};
ghost use Rattle.gix_odb_events.specs.PackId.{most_slots};
ghost use Rattle.gix_odb_events.specs.Slots.{slot_at};
ghost use Rattle.gix_odb_core.specs.declared.slot_table.TableRow.{TableRow};

use crate::index_key::{IndexKey, compare_paths_counted};
use gix_hash::Steps;
use gix_odb_events::{Shared, Slot, SlotList};
use odb_base::{NoMemory, PathText, Sequence};
use std::alloc::Global;
use std::cmp::Ordering;
use std::marker::{Brand, Model};
use std::sync::ledger::{Blank, Ledger};

/// Slots, which contracts see as their list. The slot of an index is found by binary search.
#[derive(Drop)]
pub struct SlotTable {
    slots: SlotList,
    /// The numbers of the filled slots, in the order of their indices. None where all slots were made empty, so that these
    /// take no memory.
    table: Option<Shared<Sequence<u16>>>,
}

impl Model for SlotTable {
    ghost use Rattle.std.specs.Prelude.{[], List, unwrap_or};
    ghost use Rattle.gix_odb_core.specs.SlotTable.{IsTable, keys_of};
    ghost use Rattle.gix_odb_events.specs.Slots.{Slot};

    ghost Value = { List Slot };

    ghost view = { λ inside. inside.slots };

    ghost invariant = { λ inside. IsTable (keys_of inside.slots) (unwrap_or inside.table []) };
}

/// A row of the table while it is sorted: the key of a slot, and its number.
#[derive(Clone, Copy, PartialEq, Eq, PartialOrd, Ord)]
struct TableRow<'a> {
    key: IndexKey<'a>,
    place: u16,
}

/// The rows of the filled slots, in the order of the slots.
fn rows_of(alloc: Global, slots: &[Slot]) -> Result<Vec<TableRow<'_>>, NoMemory>
    requires few { length slots.now ≤ most_slots }
    ensures places { IfOk result (λ rows. map TableRow.place rows.items ≡ filled_places (keys_of slots.now)) }
    ensures keys { IfOk result (λ rows. All (λ row. key_at (keys_of slots.now) row.place ≡ Some (row.key.path.now, row.key.multi_time)) rows.items) }
{
    let mut rows = Vec::new(alloc);
    for place in 0..slots.len() {
        if let Some(filled) = &slots[place] {
            let key = IndexKey::of_filled(filled.value());
            rows.push(TableRow {
                key,
                place: place as u16,
            })?;
        }
    }
    Ok(rows)
}

/// The numbers of the slots of rows.
fn places_in(alloc: Global, rows: &[TableRow<'_>]) -> Result<Sequence<u16>, NoMemory>
    ensures places { IfOk result (λ places. places ≡ map TableRow.place rows.now) }
{
    let mut places = Vec::with_capacity(alloc, rows.len())?;
    for row in rows {
        places.push(row.place)?;
    }
    Ok(Sequence::from_vec(places))
}

/// The table of slots.
fn table_of(alloc: Global, slots: &[Slot]) -> Result<Sequence<u16>, NoMemory>
    requires few { length slots.now ≤ most_slots }
    ensures table { IfOk result (IsTable (keys_of slots.now)) }
{
    let mut rows = rows_of(alloc, slots)?;
    rows.sort_unstable();
    places_in(alloc, &rows)
}

/// How the index of a filled slot compares with that of a path, which counts as one step.
fn compare_slot<L: Ledger>(
    slots: &SlotList,
    place: u16,
    path: &PathText,
    time: Option<u64>,
    steps: &mut Steps<L>,
) -> Ordering
    requires filled { is_some (slot_at slots.now place) ≡ true }
    ensures order { result ≡ option_cmp pair_cmp (key_at (keys_of slots.now) place) (Some (path.now, time)) }
    ensures step { steps.new ≡ steps.old + 1 }
{
    let Some(filled) = slots.get(place as usize) else {
        unreachable!("the table has filled slots alone");
    };
    let key = IndexKey::of_filled(filled.value());
    compare_paths_counted(key.path, key.multi_time, path, time, steps)
}

/// The slot that holds the index of a path, found in the table of slots: the first one of the rows that aren't lower.
fn search<L: Ledger>(
    slots: &SlotList,
    table: &[u16],
    path: &PathText,
    time: Option<u64>,
    steps: &mut Steps<L>,
) -> Option<u16>
    requires table { IsTable (keys_of slots.now) table.now }
    ensures slot { result ≡ slot_of path.now time slots.now }
    ensures steps { IsSearch (length table.now) steps.old steps.new }
{
    let mut found = None;
    let mut low = 0;
    let mut high = table.len();
    while low < high {
        let middle = low + (high - low) / 2;
        match compare_slot(slots, table[middle], path, time, steps) {
            Ordering::Less => low = middle + 1,
            Ordering::Equal => {
                found = Some(table[middle]);
                high = middle;
            }
            Ordering::Greater => high = middle,
        }
    }
    found
}

/// A table, shared with one more owner.
fn shared_table(
    table: &Option<Shared<Sequence<u16>>>,
) -> Result<Option<Shared<Sequence<u16>>>, NoMemory>
    ensures copy { IfOk result (λ copy. copy ≡ table.now) }
{
    match table {
        None => Ok(None),
        Some(table) => Ok(Some(table.try_clone()?)),
    }
}

/// The numbers of slots in a table.
fn places_of(table: &Option<Shared<Sequence<u16>>>) -> &[u16]
    ensures places { result.now ≡ unwrap_or table.now [] }
{
    match table {
        None => &[],
        Some(table) => table.value().as_slice(),
    }
}

impl SlotTable {
    /// `count` empty slots. They take no memory.
    pub(crate) fn empty(count: usize) -> SlotTable
        ensures slots { result ≡ replicate count None }
    {
        SlotTable {
            slots: SlotList::empty(count),
            table: None,
        }
    }

    /// These slots.
    pub(crate) fn new(alloc: Global, slots: Vec<Slot>) -> Result<SlotTable, NoMemory>
        requires few { length slots.items ≤ most_slots }
        ensures slots { IfOk result (λ table. table ≡ slots.items) }
    {
        let table = Shared::new(alloc, table_of(alloc, &slots)?)?;
        Ok(SlotTable {
            slots: SlotList::from_vec(alloc, slots)?,
            table: Some(table),
        })
    }

    /// The slots, each under its number.
    pub fn list(&self) -> &SlotList
        ensures slots { result.now ≡ self.now }
    {
        &self.slots
    }

    /// The slots with another one at a place, whose index has the same path and time. Beyond the end nothing changes.
    pub(crate) fn with(
        &self,
        alloc: Global,
        place: usize,
        slot: Slot,
    ) -> Result<SlotTable, NoMemory>
        requires same_index { slot_key slot ≡ slot_key (slot_at self.now place) }
        ensures slots { IfOk result (λ table. table ≡ slice_set self.now place slot) }
    {
        let table = shared_table(&self.table)?;
        let slots = self.slots.with(alloc, place, slot)?;
        Ok(SlotTable { slots, table })
    }

    /// The slot that holds the index of a path: a pack index where no time is given, and else the multi-pack index of that
    /// time. Each comparison of two paths with their times counts as one step.
    pub fn slot_of_counted<L: Ledger>(
        &self,
        path: &PathText,
        time: Option<u64>,
        steps: &mut Steps<L>,
    ) -> Option<u16>
        ensures slot { result ≡ slot_of path.now time self.now }
        ensures steps { IsSearch (filled_count self.now) steps.old steps.new }
    {
        search(&self.slots, places_of(&self.table), path, time, steps)
    }

    /// The slot that holds the index of a path, by a counter that is dropped.
    fn slot_of_uncounted<L: Ledger>(
        &self,
        path: &PathText,
        time: Option<u64>,
        blank: Blank,
    ) -> Option<u16>
        requires name { blank.name ≡ L.name }
        requires parts { blank.parts ≡ L.parts }
        requires some { 0 < blank.parts }
        ensures slot { result ≡ slot_of path.now time self.now }
    {
        self.slot_of_counted(path, time, &mut Steps::<L>::new(blank))
    }

    /// The slot that holds the index of a path: a pack index where no time is given, and else the multi-pack index of that
    /// time.
    pub fn slot_of(&self, path: &PathText, time: Option<u64>) -> Option<u16>
        ensures slot { result ≡ slot_of path.now time self.now }
    {
        self.slot_of_uncounted::<Brand>(path, time, Blank::new(1))
    }
}
