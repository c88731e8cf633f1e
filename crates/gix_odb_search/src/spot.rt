//! Where an index says that an object is.
ghost use Rattle.std.specs.Prelude.{◌≡◌};
ghost use Rattle.gix_odb_events.specs.Lent.{lent_file};
ghost use Rattle.gix_odb_search.specs.Spot.{in_multi, in_single, spot_in};

use gix_hash::ObjectId;
use gix_odb_events::LentFile;
use gix_pack_read::{index, multi_index};

/// Where an index says that an object is: the place of its pack among the packs of the index, and the offset there, in bytes.
#[derive(Clone, Copy)]
pub(crate) struct Spot {
    pub place: u32,
    pub offset: u64,
}

fn in_single(index: &index::File, id: &ObjectId) -> Option<Spot>
    ensures spot { result ≡ in_single index.now id.now }
{
    match index.lookup(id) {
        None => None,
        Some(row) => {
            prove!(row < index.num_objects());
            Some(Spot {
                place: 0,
                offset: index.pack_offset_at_index(row),
            })
        }
    }
}

fn in_multi(index: &multi_index::File, id: &ObjectId) -> Option<Spot>
    ensures spot { result ≡ in_multi index.now id.now }
{
    match index.lookup(id) {
        None => None,
        Some(row) => {
            prove!(row < index.num_objects());
            let (pack, offset) = index.pack_id_and_pack_offset_at_index(row);
            Some(Spot {
                place: pack,
                offset,
            })
        }
    }
}

/// Returns where an index says that the object of an id is, if it has the id.
pub(crate) fn spot_in(index: LentFile<'_>, id: &ObjectId) -> Option<Spot>
    ensures spot { result ≡ spot_in (lent_file index.entry) id.now }
{
    match index {
        LentFile::Single(file) => in_single(file, id),
        LentFile::Multi(file) => in_multi(file, id),
    }
}
