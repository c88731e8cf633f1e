//! Ids of objects, by their kind and data.
ghost use Rattle.std.specs.Prelude.{◌≡◌, IfOk};
ghost use Rattle.gix_hash.specs.ObjectId.{kind_of, IsId};
ghost use Rattle.gix_object.specs.Id.{object_id};

use crate::{Kind, encode};
use gix_hash::{Hasher, ObjectId};
use odb_base::NoMemory;
use std::alloc::Global;

/// The id that Git gives an object: the hash of its header and its data. The only error is running out of memory.
#[tactic(auto, unfolding(crate::specs::Id::object_id))]
pub fn compute_hash(
    alloc: Global,
    hash: gix_hash::Kind,
    kind: Kind,
    bytes: &[u8],
) -> Result<ObjectId, NoMemory>
    ensures value { IfOk result (λ id. id ≡ object_id hash kind bytes.now) }
    ensures kind { IfOk result (λ id. kind_of id ≡ hash) }
    ensures id { IfOk result IsId }
{
    let header = encode::loose_header(alloc, kind, bytes.len() as u64)?;
    let mut hasher = Hasher::new(hash);
    hasher.update(header.as_slice());
    hasher.update(bytes);
    Ok(hasher.finalize())
}
