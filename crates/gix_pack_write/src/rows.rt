//! The rows of an index that is to be written: the offset of each object, and of these a row for each different id, in order.
ghost use Rattle.std.specs.Prelude.{◌≡◌, ◌++◌, map, IfOk, OnOk};
ghost use Rattle.std.specs.List.{AllByRecursion};
ghost use Rattle.gix_pack_write.specs.PlacedRow.{id_of, placed_from, placed_of, IsPlaced};
ghost use Rattle.gix_pack_write.specs.WrittenTables.{table_of as table};
ghost use Rattle.gix_pack_read.specs.Pack.{entries_place};
ghost use Rattle.gix_pack_write.specs.WrittenPack.{object_seen};

use crate::Object;
use crate::entries::entry_len;
use gix_hash::{Kind, ObjectId};
use gix_object::compute_hash;
use gix_pack_read::data::ENTRIES_PLACE;
use odb_base::NoMemory;
use std::alloc::Global;
use std::collections::BTreeMap;

/// An id, the number of the pack that has its object, and the offset of the object there. An index has one pack, 0.
#[derive(Clone, Copy)]
pub struct Placed {
    pub id: ObjectId,
    pub pack: u32,
    pub offset: u64,
}

/// Appends the rows of a pack's objects to others. An offset of 2^64 or more counts as running out of memory.
#[tactic(auto, using(crate::proofs::PlacedLemmas::placed_step, crate::proofs::PlacedLemmas::placed_end))]
pub fn put_rows(
    alloc: Global,
    rows: &mut Vec<Placed>,
    pack: u32,
    objects: &[Object],
    kind: Kind,
) -> Result<(), NoMemory>
    ensures rows { OnOk result (rows.new.items ≡ rows.old.items ++ placed_from kind pack entries_place (map object_seen objects.now)) }
    ensures placed { AllByRecursion (IsPlaced kind) rows.old.items → OnOk result (AllByRecursion (IsPlaced kind) rows.new.items) }
{
    let mut offset = ENTRIES_PLACE;
    for object in objects {
        let id = compute_hash(alloc, kind, object.kind, object.bytes.as_slice())?;
        rows.push(Placed { id, pack, offset })?;
        offset = offset.checked_add(entry_len(object)).ok_or(NoMemory)?;
    }
    Ok(())
}

/// The table of some rows: of rows with the same id, the first.
pub fn table_of(alloc: Global, rows: Vec<Placed>) -> Result<Vec<Placed>, NoMemory>
    ensures table { IfOk result (λ table_rows. table_rows.items ≡ table id_of rows.items) }
{
    let places = places_of(alloc, rows)?;
    let rows = places
        .into_iter()
        .map(|(id, (pack, offset))| Placed { id, pack, offset })
        .collect(alloc)?;
    Ok(rows)
}

// The offsets of some rows by their ids. The last row is put first, so that a row replaces later ones.
fn places_of(
    alloc: Global,
    mut rows: Vec<Placed>,
) -> Result<BTreeMap<ObjectId, (u32, u64)>, NoMemory>
    ensures table { IfOk result (λ places. map placed_of places.entries ≡ table id_of rows.items) }
{
    let mut places = BTreeMap::new(alloc);
    while let Some(row) = rows.pop() {
        places.insert(row.id, (row.pack, row.offset))?;
    }
    Ok(places)
}
