//! Whether ids are of a given hash.
ghost use Rattle.std.specs.Prelude.{◌≡◌};
ghost use Rattle.std.specs.List.{list_all};
ghost use Rattle.gix_odb_calls.specs.Hashes.{is_id_of, is_pair_of};

use crate::init::IdPairs;
use gix_hash::{Kind, ObjectId};

/// Whether an id is of this hash.
pub fn is_id_of(hash: Kind, id: ObjectId) -> bool
    ensures of_hash { result ≡ is_id_of hash id }
{
    id.kind() == hash
}

/// Whether all ids of pairs are of this hash.
pub fn are_pairs_of(hash: Kind, pairs: &IdPairs) -> bool
    ensures of_hash { result ≡ list_all (is_pair_of hash) pairs.now }
{
    pairs
        .as_slice()
        .iter()
        .all(|(id, by)| is_id_of(hash, *id) && is_id_of(hash, *by))
}
