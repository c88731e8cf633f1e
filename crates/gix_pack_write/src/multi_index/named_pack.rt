//! A pack as input of the encoder of multi-pack indices.
use crate::Object;
use odb_base::{PathName, Sequence};

/// A pack to be put into a multi-pack index: the name of its index, and its objects in order.
#[derive(Drop)]
pub struct NamedPack {
    pub name: PathName,
    pub objects: Sequence<Object>,
}
