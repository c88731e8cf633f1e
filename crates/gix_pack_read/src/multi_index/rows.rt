//! The rows of a multi-pack index, at their places.
ghost use Rattle.std.specs.Prelude.{◌≡◌, ◌<◌, option_map, Some, true};
ghost use Rattle.gix_pack_read.specs.MultiIndex.Held.{has_offset, offset_of_bytes};
ghost use Rattle.gix_pack_read.specs.MultiIndexLayout.{row_ids, span_of, told_by, IsInIfThere, IsLaidOut};
ghost use Rattle.gix_pack_read.specs.IdTable.{ids_in};
ghost use Rattle.gix_pack_read.specs.Rows.{PackRow};

use crate::bytes::{long_at, number_at, part_of};
use crate::id_table::IdTable;
use crate::multi_index::layout::{Layout, Span};
use crate::multi_index::parts::{OFFSET_ROW_LEN, span_in};
use crate::tables::{HIGH_BIT, WIDE_LEN};
use gix_hash::{Kind, ObjectId};

// The rows of a multi-index in its bytes: the hash of their ids, and their places.
#[derive(Clone, Copy)]
pub(crate) struct Rows<'a> {
    pub(crate) kind: Kind,
    pub(crate) layout: Layout,
    pub(crate) bytes: &'a [u8],
}

impl<'a> Rows<'a> {
    // The ids, with the counts of their first bytes.
    #[tactic(auto, using(crate::proofs::PackRowLemmas::counts_room, crate::proofs::PackRowLemmas::ids_room, crate::proofs::PackRowLemmas::ids_in_rows))]
    pub(crate) fn table(&self) -> IdTable<'a>
        requires laid_out { IsLaidOut self.now.kind self.now.layout self.now.bytes.now }
        ensures ids { ids_in result ≡ row_ids self.now.kind self.now.layout self.now.bytes.now }
        ensures count { result.count ≡ self.now.layout.count }
    {
        IdTable::new(
            self.kind,
            self.layout.count,
            span_in(self.bytes, self.layout.counts),
            span_in(self.bytes, self.layout.ids),
        )
    }

    // The id of a row.
    #[tactic(auto, using(crate::proofs::PackRowLemmas::id_of_row))]
    pub(crate) fn id_at(&self, n: u32) -> ObjectId
        requires laid_out { IsLaidOut self.now.kind self.now.layout self.now.bytes.now }
        requires row { n < self.now.layout.count }
        ensures id { told_by (λ (row : PackRow). row.id) self.now.kind self.now.layout self.now.bytes.now n ≡ Some result }
    {
        self.table().id_at(n)
    }

    // The number of a row's pack, and the offset of its object there.
    #[tactic(auto, using(crate::proofs::PackRowLemmas::row_room, crate::proofs::PackRowLemmas::row_named, crate::proofs::PackRowLemmas::pack_in_row, crate::proofs::PackRowLemmas::offset_in_row))]
    pub(crate) fn place_at(&self, n: u32) -> (u32, u64)
        requires laid_out { IsLaidOut self.now.kind self.now.layout self.now.bytes.now }
        requires row { n < self.now.layout.count }
        ensures pack { told_by (λ (row : PackRow). row.pack) self.now.kind self.now.layout self.now.bytes.now n ≡ Some result.0 }
        ensures offset { told_by (λ (row : PackRow). row.offset) self.now.kind self.now.layout self.now.bytes.now n ≡ Some result.1 }
    {
        let row = part_of(
            span_in(self.bytes, self.layout.offsets),
            n as usize * OFFSET_ROW_LEN,
            OFFSET_ROW_LEN,
        );
        (
            number_at(row, 0),
            offset_in(self.bytes, self.layout.wides, number_at(row, 4)),
        )
    }
}

// The offset in four bytes.
fn offset_in(bytes: &[u8], wides: Option<Span>, narrow: u32) -> u64
    requires within { IsInIfThere bytes.now wides }
    requires named { has_offset (option_map (span_of bytes.now) wides) narrow ≡ true }
    ensures offset { result ≡ offset_of_bytes (option_map (span_of bytes.now) wides) narrow }
{
    match wides {
        Some(span) if narrow >= HIGH_BIT => {
            let row = (narrow - HIGH_BIT) as usize;
            long_at(span_in(bytes, span), row * WIDE_LEN)
        }
        _ => narrow as u64,
    }
}
