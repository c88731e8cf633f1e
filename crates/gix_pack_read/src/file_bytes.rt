//! The bytes of a pack or of an index, kept with the hash of its ids.
ghost use Rattle.std.specs.Prelude.{◌≡◌, ◌+◌, ◌≤◌, drop, length};
ghost use Rattle.gix_hash.specs.Kind.{len_in_bytes_of};
ghost use Rattle.gix_pack_read.specs.Bytes.{long_number_at, number_at as number_of, part as part_of, trailer_place as place_of_trailer};

use crate::bytes;
use gix_hash::Kind;
use odb_base::ByteList;

// A file that ends with a hash: its bytes, and the hash of its ids.
#[derive(Drop)]
pub(crate) struct FileBytes {
    pub(crate) kind: Kind,
    pub(crate) bytes: ByteList,
}

impl FileBytes {
    // How many bytes there are.
    pub(crate) fn len(&self) -> usize
        ensures len { result ≡ length self.now.bytes }
    {
        self.bytes.len()
    }

    // The length of an id, and of the trailing hash.
    pub(crate) fn hash_len(&self) -> usize
        ensures len { result ≡ len_in_bytes_of self.now.kind }
    {
        self.kind.len_in_bytes()
    }

    // The offset of the trailing hash.
    pub(crate) fn trailer_place(&self) -> usize
        requires room { len_in_bytes_of self.now.kind ≤ length self.now.bytes }
        ensures place { result ≡ place_of_trailer self.now.kind self.now.bytes }
    {
        bytes::trailer_place(self.kind, self.bytes.as_slice())
    }

    // The number of four bytes at a place.
    pub(crate) fn number_at(&self, place: usize) -> u32
        requires room { place + 4 ≤ length self.now.bytes }
        ensures number { result ≡ number_of place self.now.bytes }
    {
        bytes::number_at(self.bytes.as_slice(), place)
    }

    // The number of eight bytes at a place.
    pub(crate) fn long_at(&self, place: usize) -> u64
        requires room { place + 8 ≤ length self.now.bytes }
        ensures number { result ≡ long_number_at place self.now.bytes }
    {
        bytes::long_at(self.bytes.as_slice(), place)
    }

    // The bytes after the first `size`.
    pub(crate) fn behind(&self, size: usize) -> &[u8]
        requires room { size ≤ length self.now.bytes }
        ensures rest { result.now ≡ drop size self.now.bytes }
    {
        bytes::behind_first(self.bytes.as_slice(), size)
    }

    // `size` bytes from a place on.
    pub(crate) fn part(&self, place: usize, size: usize) -> &[u8]
        requires room { place + size ≤ length self.now.bytes }
        ensures part { result.now ≡ part_of place size self.now.bytes }
    {
        bytes::part_of(self.bytes.as_slice(), place, size)
    }
}
