//! Writing packs: the objects in their order, with the shortest headers, and a hash.
ghost use Rattle.std.specs.Prelude.{◌≡◌, ◌<◌, length, map, IfOk};
ghost use Rattle.gix_pack_read.specs.Rows.{rows_limit};
ghost use Rattle.gix_pack_write.specs.WrittenPack.{object_seen, pack_of};
ghost use Rattle.gix_pack_write.specs.ReadPack.{ReadsPack};

use crate::Object;
use crate::bytes::hash_of_bytes;
use crate::entries::front_of;
use odb_base::{ByteList, NoMemory};
use std::alloc::Global;

/// The pack of some objects, in their order: version 2, with no deltas.
#[tactic(auto, unfolding(crate::specs::WrittenPack::pack_of))]
pub fn encode(alloc: Global, objects: &[Object], kind: gix_hash::Kind) -> Result<ByteList, NoMemory>
    requires few { length objects.now < rows_limit }
    ensures pack { IfOk result (λ pack. pack ≡ pack_of kind (map object_seen objects.now)) }
    ensures read_back { IfOk result (λ pack. ReadsPack kind (map object_seen objects.now) pack) }
{
    let mut pack = front_of(alloc, objects)?;
    let hash = hash_of_bytes(kind, pack.as_slice());
    pack.extend_from_slice(hash.as_bytes())?;
    Ok(pack)
}
