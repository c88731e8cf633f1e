//! An iteration over the rows of an index.
ghost use Rattle.std.specs.Iterator.{YieldsFirstBy, item_count};
ghost use Rattle.gix_pack_read.specs.IndexRows.{entries_left, row_seen};

use super::{Entry, File};

/// The rows of an index, in the order of their ids.
#[derive(Drop)]
pub struct Iter<'a> {
    pub(super) index: &'a File,
    pub(super) row: u32,
}

impl<'a> Iterator for Iter<'a> {
    type Item = Entry;

    ghost next_gives = { YieldsFirstBy row_seen entries_left };

    ghost remaining = { item_count entries_left };

    fn next(&mut self) -> Option<Entry> {
        if self.row >= self.index.num_objects() {
            return None;
        }
        let row = self.row;
        self.row += 1;
        Some(Entry {
            oid: self.index.oid_at_index(row),
            pack_offset: self.index.pack_offset_at_index(row),
            crc32: None,
        })
    }
}
