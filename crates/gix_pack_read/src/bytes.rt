//! Numbers and ids at offsets in a file's bytes, and limits of sizes.
ghost use Rattle.std.specs.Prelude.{◌≡◌, ◌+◌, ◌≤◌, drop, length};
ghost use Rattle.gix_hash.specs.Kind.{len_in_bytes_of};
ghost use Rattle.gix_pack_read.specs.Bytes.{long_number_at, number_at as number_of, part, trailer_place as place_of_trailer};
ghost use Rattle.gix_pack_read.specs.Rows.{id_from};

use gix_hash::{Kind, ObjectId};
pub use odb_base::is_within;

/// The number of four bytes at a place.
pub fn number_at(bytes: &[u8], place: usize) -> u32
    requires room { place + 4 ≤ length bytes.now }
    ensures number { result ≡ number_of place bytes.now }
{
    let (_, rest) = bytes.split_at(place);
    let (front, _) = rest.split_at(4);
    u32::from_be_bytes([front[0], front[1], front[2], front[3]])
}

/// The number of eight bytes at a place.
pub fn long_at(bytes: &[u8], place: usize) -> u64
    requires room { place + 8 ≤ length bytes.now }
    ensures number { result ≡ long_number_at place bytes.now }
{
    let (_, rest) = bytes.split_at(place);
    let (front, _) = rest.split_at(8);
    u64::from_be_bytes([
        front[0], front[1], front[2], front[3], front[4], front[5], front[6], front[7],
    ])
}

/// The id with these bytes.
pub fn id_of(kind: Kind, bytes: &[u8]) -> ObjectId
    requires length { length bytes.now ≡ len_in_bytes_of kind }
    ensures id { result ≡ id_from kind bytes.now }
{
    match kind {
        Kind::Sha1 => ObjectId::Sha1(array_of(bytes)),
        Kind::Sha256 => ObjectId::Sha256(array_of(bytes)),
    }
}

// The bytes as an array.
fn array_of<const N: usize>(bytes: &[u8]) -> [u8; N]
    requires length { length bytes.now ≡ N }
    ensures bytes { result ≡ bytes.now }
{
    let mut array = [0; N];
    array.copy_from_slice(bytes);
    array
}

/// The bytes after the first `size`.
pub fn behind_first(bytes: &[u8], size: usize) -> &[u8]
    requires room { size ≤ length bytes.now }
    ensures rest { result.now ≡ drop size bytes.now }
{
    let (_, rest) = bytes.split_at(size);
    rest
}

/// `size` bytes from a place on.
pub fn part_of(bytes: &[u8], place: usize, size: usize) -> &[u8]
    requires room { place + size ≤ length bytes.now }
    ensures part { result.now ≡ part place size bytes.now }
{
    let (_, rest) = bytes.split_at(place);
    &rest[..size]
}

/// The offset of the trailing hash of a file.
pub fn trailer_place(kind: Kind, bytes: &[u8]) -> usize
    requires room { len_in_bytes_of kind ≤ length bytes.now }
    ensures place { result ≡ place_of_trailer kind bytes.now }
{
    bytes.len() - kind.len_in_bytes()
}
