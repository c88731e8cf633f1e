//! Writing indices: the tables one after another, and the two hashes.
ghost use Rattle.std.specs.Prelude.{◌≡◌, [], ◌++◌, ◌<◌, true, length, map, IfOk, OnOk};
ghost use Rattle.std.specs.List.{AllByRecursion};
ghost use Rattle.gix_hash.specs.Hash.{hash_of};
ghost use Rattle.gix_hash.specs.ObjectId.{bytes_of, IsId};
ghost use Rattle.gix_pack_write.specs.PlacedIndexRow.{front_of_rows, index_placed};
ghost use Rattle.gix_pack_write.specs.PlacedRow.{id_of, offset_of, placed_from, ArePlaced, IsPlaced};
ghost use Rattle.gix_pack_read.specs.Rows.{is_rising, rows_limit};
ghost use Rattle.gix_pack_write.specs.WrittenIndex.{index_of, IsIndexOf, ReadsIndex};
ghost use Rattle.gix_pack_write.specs.WrittenTables.{narrow_from, number_bytes};
ghost use Rattle.gix_pack_read.specs.Pack.{entries_place};
ghost use Rattle.gix_pack_write.specs.WrittenPack.{object_seen, pack_front};

use crate::Object;
use crate::bytes::{hash_of_bytes, put_hash, put_number, put_zeros};
use crate::entries::front_of;
use crate::rows::{Placed, put_rows, table_of};
use crate::tables::{is_wide, narrow_of, put_counts, put_ids, put_wide};
use gix_hash::{Kind, ObjectId};
use gix_pack_read::index::SIGNATURE;
use odb_base::{ByteList, NoMemory};
use std::alloc::Global;

/// The index (Git's pack index, version 2) of the pack of some objects: for an id, the offset of the first object.
///
/// CRC values are zeros. The only error is running out of memory.
pub fn encode(alloc: Global, objects: &[Object], kind: Kind) -> Result<ByteList, NoMemory>
    requires few { length objects.now < rows_limit }
    ensures written { IfOk result (λ index. index ≡ index_of kind (map object_seen objects.now)) }
    ensures table { IfOk result (IsIndexOf kind (map object_seen objects.now)) }
    ensures read_back { IfOk result (ReadsIndex kind (map object_seen objects.now)) }
{
    let pack_hash = hash_of_pack(alloc, objects, kind)?;
    let rows = rows_of(alloc, objects, kind)?;
    let mut index = ByteList::new(alloc);
    put_front(&mut index, rows.as_slice(), &pack_hash)?;
    put_hash(&mut index, kind)?;
    Ok(index)
}

// The trailing hash of the pack of some objects.
fn hash_of_pack(alloc: Global, objects: &[Object], kind: Kind) -> Result<ObjectId, NoMemory>
    requires few { length objects.now < rows_limit }
    ensures hash { IfOk result (λ hash. hash ≡ hash_of kind (pack_front (map object_seen objects.now))) }
{
    let pack = front_of(alloc, objects)?;
    Ok(hash_of_bytes(kind, pack.as_slice()))
}

// The rows of an index of some objects.
fn rows_of(alloc: Global, objects: &[Object], kind: Kind) -> Result<Vec<Placed>, NoMemory>
    ensures rows { IfOk result (λ rows. rows.items ≡ index_placed kind (map object_seen objects.now)) }
    ensures placed { IfOk result (λ _. AllByRecursion (IsPlaced kind) (placed_from kind 0 entries_place (map object_seen objects.now))) }
{
    let mut rows = Vec::new(alloc);
    put_rows(alloc, &mut rows, 0, objects, kind)?;
    let table = table_of(alloc, rows)?;
    Ok(table)
}

// An index of some rows without its own hash, for a pack with this hash.
fn put_front(index: &mut ByteList, rows: &[Placed], pack: &ObjectId) -> Result<(), NoMemory>
    requires empty { index.old ≡ [] }
    requires few { length rows.now < rows_limit }
    requires rising { is_rising (map id_of rows.now) ≡ true }
    requires placed { ArePlaced rows.now }
    ensures front { OnOk result (index.new ≡ front_of_rows rows.now (bytes_of pack.now)) }
    ensures id { IsId pack.now }
{
    let hash = pack.as_bytes();
    index.extend_from_slice(&SIGNATURE)?;
    put_counts(index, rows)?;
    put_ids(index, rows)?;
    put_zeros(index, 4 * rows.len())?;
    put_narrow(index, rows)?;
    put_wide(index, rows)?;
    index.extend_from_slice(hash)?;
    Ok(())
}

// The offsets in four bytes: a wide one is the high bit and its number among the wide ones.
fn put_narrow(list: &mut ByteList, rows: &[Placed]) -> Result<(), NoMemory>
    requires few { length rows.now < rows_limit }
    ensures put { OnOk result (list.new ≡ list.old ++ number_bytes (narrow_from 0 (map offset_of rows.now))) }
{
    let mut wide = 0u32;
    for row in rows {
        put_number(list, narrow_of(row.offset, wide))?;
        if is_wide(row.offset) {
            wide += 1;
        }
    }
    Ok(())
}
