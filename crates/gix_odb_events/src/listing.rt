//! What a listing of a store's folders found.
ghost use Rattle.std.specs.Prelude.{◌≡◌, IfOk};

use crate::Shared;
use gix_pack_read::multi_index;
use odb_base::{NoMemory, PathText, Sequence};
use std::alloc::Global;

/// An index or a multi-pack index that a listing found.
#[derive(Drop)]
pub struct ListingRow {
    pub path: PathText,
    /// When the file was last changed, in nanoseconds since 1970.
    pub time: u64,
    /// The size of the file in bytes.
    pub len: u64,
    /// The multi-pack index in the file, if it is one.
    pub multi: Option<Shared<multi_index::File>>,
}

impl ListingRow {
    /// A copy, which shares the multi-pack index.
    pub fn try_clone(&self, alloc: Global) -> Result<ListingRow, NoMemory>
        ensures copy { IfOk result (λ copy. copy ≡ self.now) }
    {
        let multi = match &self.multi {
            None => None,
            Some(file) => Some(file.try_clone()?),
        };
        Ok(ListingRow {
            path: self.path.try_clone(alloc)?,
            time: self.time,
            len: self.len,
            multi,
        })
    }
}

/// The rows of a listing, no two of one path.
pub type ListingRowList = Sequence<ListingRow>;

/// What a listing of a store's folders found, longest files first.
#[derive(Drop)]
pub struct Listing {
    /// The number of the list that was the newest when the listing began.
    pub base: u64,
    pub rows: ListingRowList,
}

impl Listing {
    /// A copy, which shares the multi-pack indices.
    pub fn try_clone(&self, alloc: Global) -> Result<Listing, NoMemory>
        ensures copy { IfOk result (λ copy. copy ≡ self.now) }
    {
        let mut rows = ListingRowList::new(alloc);
        for row in self.rows.as_slice() {
            rows.push(row.try_clone(alloc)?)?;
        }
        Ok(Listing {
            base: self.base,
            rows,
        })
    }
}
