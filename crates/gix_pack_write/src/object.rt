//! An object as input of the encoders of packs and indices.
use gix_object::Kind;
use odb_base::ByteList;

/// An object to be put into a pack.
#[derive(Drop)]
pub struct Object {
    pub kind: Kind,
    pub bytes: ByteList,
}
