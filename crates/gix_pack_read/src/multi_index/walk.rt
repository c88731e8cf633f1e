//! An iteration over the rows of a multi-pack index.
ghost use Rattle.std.specs.Prelude.{◌≡◌, ◌<◌, length, slice_get, Some};
ghost use Rattle.std.specs.Iterator.{YieldsFirstBy, item_count};
ghost use Rattle.gix_pack_read.specs.MultiIndex.{told};
ghost use Rattle.gix_pack_read.specs.MultiIndexRows.{row_seen, rows_left};

use crate::multi_index::file::{Entry, File};

/// The rows of a multi-pack index, in the order of their ids.
#[derive(Drop)]
pub struct Iter<'a> {
    pub(crate) index: &'a File,
    pub(crate) row: u32,
}

impl<'a> Iterator for Iter<'a> {
    type Item = Entry;

    ghost next_gives = { YieldsFirstBy row_seen rows_left };

    ghost remaining = { item_count rows_left };

    #[tactic(auto, using(crate::proofs::ReadLemmas::rows_more, crate::proofs::ReadLemmas::rows_end))]
    fn next(&mut self) -> Option<Entry> {
        if self.row >= self.index.num_objects() {
            return None;
        }
        let row = self.row;
        self.row += 1;
        Some(entry_at(self.index, row))
    }
}

// The row with a number.
#[tactic(auto, using(crate::proofs::ReadLemmas::row_of_parts))]
fn entry_at(index: &File, row: u32) -> Entry
    requires row { row < length (told index.now).rows }
    ensures entry { slice_get (told index.now).rows row ≡ Some (row_seen result) }
{
    let (pack_index, pack_offset) = index.pack_id_and_pack_offset_at_index(row);
    Entry {
        oid: index.oid_at_index(row),
        pack_offset,
        pack_index,
    }
}
