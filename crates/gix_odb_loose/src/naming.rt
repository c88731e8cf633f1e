//! The name of a written object: the id that was passed in, or the hash of its header and data.
ghost use Rattle.std.specs.Prelude.{◌≡◌, ℕ, List, Option, Some, [], ◌++◌, IfOk};
ghost use Rattle.gix_odb_loose.specs.WriteNames.{Names, name_for};
ghost use Rattle.gix_hash.specs.Hash.{HasTaken, hasher_kind};
ghost use Rattle.gix_object.specs.Loose.{header_of};
ghost use Rattle.gix_odb_loose.specs.declared.write_order.WriteHead.{WriteHead as head_of_write};
ghost use Rattle.gix_hash.specs.declared.kind.Kind.{Kind as hash_kind};
ghost use Rattle.gix_hash.specs.declared.object_id.ObjectId.{ObjectId as id_of_object};

use crate::write_order::WriteHead;
use gix_hash::{Hasher, ObjectId};
use gix_object::encode;
use odb_base::NoMemory;
use std::alloc::Global;

/// A known id is taken as it is, and nothing is hashed.
#[derive(Drop)]
pub enum Naming {
    Known(ObjectId),
    Hashing(Hasher),
}

impl Naming {
    /// A naming before any data.
    pub fn start(
        alloc: Global,
        hash: gix_hash::Kind,
        head: &WriteHead,
        known: Option<ObjectId>,
    ) -> Result<Naming, NoMemory>
        ensures start { IfOk result (λ naming. Names known hash head.now [] (Some naming)) }
    {
        match known {
            Some(id) => Ok(Naming::Known(id)),
            None => Ok(Naming::Hashing(hasher_of(alloc, hash, head)?)),
        }
    }

    /// Adds the next bytes of the data.
    pub fn update(&mut self, bytes: &[u8])
        ensures taken { (known : Option id_of_object) (hash : hash_kind) (head : head_of_write) (before : List ℕ) →
            Names known hash head before (Some self.old) → Names known hash head (before ++ bytes.now) (Some self.new) }
    {
        match self {
            Naming::Known(_) => {}
            Naming::Hashing(hasher) => hasher.update(bytes),
        }
    }

    /// The id.
    pub fn finish(self) -> ObjectId
        ensures name { (known : Option id_of_object) (hash : hash_kind) (head : head_of_write) (all : List ℕ) →
            Names known hash head all (Some self) → result ≡ name_for known hash head all }
    {
        match self {
            Naming::Known(id) => id,
            Naming::Hashing(hasher) => hasher.finalize(),
        }
    }
}

// A hasher after the header.
fn hasher_of(alloc: Global, hash: gix_hash::Kind, head: &WriteHead) -> Result<Hasher, NoMemory>
    ensures taken { IfOk result (λ hasher. HasTaken hasher (header_of head.now.kind head.now.size)) }
    ensures kind { IfOk result (λ hasher. hasher_kind hasher ≡ hash) }
{
    let header = encode::loose_header(alloc, head.kind, head.size)?;
    let mut hasher = Hasher::new(hash);
    hasher.update(header.as_slice());
    Ok(hasher)
}
