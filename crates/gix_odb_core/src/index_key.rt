//! The keys of indices, and which rows and slots have the same index.
ghost use Rattle.std.specs.Prelude.{◌≡◌, ◌+◌, IfOk, List, map};
ghost use Rattle.std.specs.List.{list_any, position};
ghost use Rattle.std.specs.BTreeSet.{contains};
ghost use Rattle.gix_odb_core.specs.IndexKeys.{index_time, key_cmp, parts_cmp, row_has, row_time};
ghost use Rattle.gix_odb_core.specs.Publish.{is_kept};
ghost use Rattle.gix_odb_events.specs.Slots.{holds, index_path};

use crate::SlotTable;
use gix_hash::Steps;
use gix_odb_events::{Filled, IndexFile, ListingRow, Slot};
use odb_base::{NoMemory, PathText};
use std::alloc::Global;
use std::cmp::Ordering;
use std::collections::BTreeSet;
use std::sync::ledger::Ledger;

/// The key of an index: its path and its kind, and the time of a multi-pack index.
#[derive(Clone, Copy, PartialEq, Eq, PartialOrd, Ord)]
pub(crate) struct IndexKey<'a> {
    pub path: &'a PathText,
    /// When a multi-pack index was last changed. A pack index has none.
    pub multi_time: Option<u64>,
}

impl IndexKey<'_> {
    /// The key of a row.
    fn of_row(row: &ListingRow) -> IndexKey<'_>
        ensures path { result.path.now ≡ row.now.path }
        ensures time { result.multi_time ≡ row_time row.now.multi row.now.time }
    {
        let multi_time = match &row.multi {
            None => None,
            Some(_) => Some(row.time),
        };
        IndexKey {
            path: &row.path,
            multi_time,
        }
    }

    /// The key of what a slot holds.
    pub(crate) fn of_filled(filled: &Filled) -> IndexKey<'_>
        ensures path { result.path.now ≡ index_path filled.now.index }
        ensures time { result.multi_time ≡ index_time filled.now.index filled.now.time }
    {
        let multi_time = match &filled.index {
            IndexFile::Single(_) => None,
            IndexFile::Multi(_) => Some(filled.time),
        };
        IndexKey {
            path: filled.index.path(),
            multi_time,
        }
    }
}

/// How an index compares with another, by their paths and the times of multi-pack indices, which counts as one step. A
/// pack index has no time, and is lower than the multi-pack indices of its path.
pub fn compare_paths_counted<L: Ledger>(
    path: &PathText,
    time: Option<u64>,
    other: &PathText,
    later: Option<u64>,
    steps: &mut Steps<L>,
) -> Ordering
    ensures order { result ≡ parts_cmp path.now time other.now later }
    ensures step { steps.new ≡ steps.old + 1 }
{
    steps.tick();
    path.cmp(other).then(time.cmp(&later))
}

/// The keys of rows.
fn row_keys(alloc: Global, rows: &[ListingRow]) -> Result<BTreeSet<IndexKey<'_>>, NoMemory>
    ensures keys { IfOk result (λ keys. (key : IndexKey) → contains key_cmp keys key ≡ list_any (row_has key) rows.now) }
{
    let mut keys = BTreeSet::new(alloc);
    for row in rows {
        keys.insert(IndexKey::of_row(row))?;
    }
    Ok(keys)
}

/// Whether the contents of a slot have one of these keys.
fn has_one_of<'a>(keys: &BTreeSet<IndexKey<'a>>, slot: &'a Slot) -> bool
    ensures kept { (rows : List ListingRow) → ((key : IndexKey) → contains key_cmp keys.now key ≡ list_any (row_has key) rows) → result ≡ is_kept rows slot.now }
{
    match slot {
        None => false,
        Some(filled) => keys.contains(&IndexKey::of_filled(filled.value())),
    }
}

/// For each slot, whether a row keeps its contents.
pub(crate) fn kept_slots<'a>(
    alloc: Global,
    rows: &'a [ListingRow],
    slots: &'a [Slot],
) -> Result<Vec<bool>, NoMemory>
    ensures kept { IfOk result (λ kept. kept.items ≡ map (is_kept rows.now) slots.now) }
{
    let keys = row_keys(alloc, rows)?;
    let mut kept = Vec::new(alloc);
    for slot in slots {
        kept.push(has_one_of(&keys, slot))?;
    }
    Ok(kept)
}

/// For each row, the first slot that holds it, found in the table of the slots.
pub(crate) fn places_of_rows(
    alloc: Global,
    rows: &[ListingRow],
    slots: &SlotTable,
) -> Result<Vec<Option<u16>>, NoMemory>
    ensures places { IfOk result (λ places. places.items ≡ map (λ row. position (holds row) slots.now) rows.now) }
{
    let mut places = Vec::new(alloc);
    for row in rows {
        let key = IndexKey::of_row(row);
        places.push(slots.slot_of(key.path, key.multi_time))?;
    }
    Ok(places)
}
