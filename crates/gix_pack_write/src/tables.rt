//! The tables of an index that follow from its rows, appended to a list of bytes.
ghost use Rattle.std.specs.Prelude.{◌≡◌, ◌+◌, ◌++◌, ◌<◌, ◌≤◌, true, false, length, map, OnOk};
ghost use Rattle.std.specs.List.{filter, flat_map};
ghost use Rattle.gix_hash.specs.ObjectId.{bytes_of};
ghost use Rattle.gix_pack_write.specs.PlacedRow.{id_of, offset_of, ArePlaced};
ghost use Rattle.gix_pack_read.specs.Rows.{count_to, counts_of, high_bit, is_rising, rows_limit};
ghost use Rattle.gix_pack_write.specs.WrittenTables.{is_wide as offset_is_wide, long_number_bytes, number_bytes};

use crate::bytes::{put_id, put_long, put_number};
use crate::rows::Placed;
use gix_pack_read::tables::HIGH_BIT;
use odb_base::{ByteList, NoMemory};

/// The 256 cumulative counts of the ids, which rise.
pub fn put_counts(list: &mut ByteList, rows: &[Placed]) -> Result<(), NoMemory>
    requires few { length rows.now < rows_limit }
    requires rising { is_rising (map id_of rows.now) ≡ true }
    requires placed { ArePlaced rows.now }
    ensures put { OnOk result (list.new ≡ list.old ++ number_bytes (counts_of (map id_of rows.now))) }
{
    let mut count = 0;
    for first in 0..256 {
        count = count_from(rows, count, first);
        put_number(list, count as u32)?;
    }
    Ok(())
}

// How many rows have ids that begin with this byte or a lower one, where the first `known` are known to. The ids rise.
fn count_from(rows: &[Placed], known: usize, first: usize) -> usize
    requires rising { is_rising (map id_of rows.now) ≡ true }
    requires placed { ArePlaced rows.now }
    requires known { known ≤ count_to (map id_of rows.now) first }
    ensures count { result ≡ count_to (map id_of rows.now) first }
{
    let mut count = known;
    while count < rows.len() && rows[count].id.as_bytes()[0] as usize <= first {
        count += 1;
    }
    count
}

/// The ids.
pub fn put_ids(list: &mut ByteList, rows: &[Placed]) -> Result<(), NoMemory>
    ensures put { OnOk result (list.new ≡ list.old ++ flat_map bytes_of (map id_of rows.now)) }
{
    for row in rows {
        put_id(list, &row.id)?;
    }
    Ok(())
}

/// The wide offsets.
pub fn put_wide(list: &mut ByteList, rows: &[Placed]) -> Result<(), NoMemory>
    ensures put { OnOk result (list.new ≡ list.old ++ long_number_bytes (filter offset_is_wide (map offset_of rows.now))) }
{
    for row in rows {
        if is_wide(row.offset) {
            put_long(list, row.offset)?;
        }
    }
    Ok(())
}

/// Whether an offset has a row in the table of wide ones.
pub fn is_wide(offset: u64) -> bool
    ensures wide { result ≡ offset_is_wide offset }
{
    offset >= HIGH_BIT as u64
}

/// An offset in four bytes, after `wide` wide ones: a wide one is the high bit and its number among them.
pub fn narrow_of(offset: u64, wide: u32) -> u32
    requires few { wide < rows_limit }
    ensures wide { offset_is_wide offset ≡ true → result ≡ high_bit + wide }
    ensures low { offset_is_wide offset ≡ false → result ≡ offset }
{
    if is_wide(offset) {
        HIGH_BIT + wide
    } else {
        offset as u32
    }
}
