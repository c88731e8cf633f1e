//! An object that was found.
use crate::Kind;

/// An object that was found: its kind and its data, without the header.
#[derive(Clone, Copy)]
pub struct Data<'a> {
    pub kind: Kind,
    /// The hash of the database in which it was found.
    pub object_hash: gix_hash::Kind,
    /// All its data.
    pub bytes: &'a [u8],
}

/// The header of an object.
#[derive(Clone, Copy, Debug)]
pub struct Header {
    pub kind: Kind,
    /// The size of the data in bytes.
    pub size: u64,
}
