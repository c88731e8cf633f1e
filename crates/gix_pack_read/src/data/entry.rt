//! What is read of an entry: its header, the object after it, and its location.
use gix_object::Kind;

/// The header of an entry: kind, size, and its own length.
#[derive(Clone, Copy, Debug)]
pub struct Header {
    pub kind: Kind,
    pub size: u64,
    pub header_len: usize,
}

/// An object in a pack.
#[derive(Clone, Copy, Debug)]
pub struct Entry<'a> {
    pub kind: Kind,
    pub size: u64,
    pub header_len: usize,
    pub bytes: &'a [u8],
}

/// The location of an object: the number of its pack, and the offset and the length of its entry, header and data.
#[derive(Clone, Copy, Debug)]
pub struct Location {
    pub pack_id: u32,
    pub pack_offset: u64,
    pub entry_size: u64,
}
