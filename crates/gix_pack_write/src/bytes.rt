//! Numbers, ids and hashes put at the end of a list of bytes.
ghost use Rattle.std.specs.Prelude.{◌≡◌, ◌++◌, OnOk, replicate};
ghost use Rattle.std.specs.Int.{w32, w64, to_be_bytes};
ghost use Rattle.gix_hash.specs.Hash.{hash_of};
ghost use Rattle.gix_hash.specs.ObjectId.{bytes_of, IsId};

use gix_hash::{Hasher, Kind, ObjectId};
use odb_base::{ByteList, NoMemory};

/// A number of four bytes.
pub fn put_number(list: &mut ByteList, number: u32) -> Result<(), NoMemory>
    ensures put { OnOk result (list.new ≡ list.old ++ to_be_bytes w32 number) }
{
    list.extend_from_slice(&number.to_be_bytes())
}

/// A number of eight bytes.
pub fn put_long(list: &mut ByteList, number: u64) -> Result<(), NoMemory>
    ensures put { OnOk result (list.new ≡ list.old ++ to_be_bytes w64 number) }
{
    list.extend_from_slice(&number.to_be_bytes())
}

/// The bytes of an id.
pub fn put_id(list: &mut ByteList, id: &ObjectId) -> Result<(), NoMemory>
    ensures put { OnOk result (list.new ≡ list.old ++ bytes_of id.now) }
{
    list.extend_from_slice(id.as_bytes())
}

/// `count` zeros.
pub fn put_zeros(list: &mut ByteList, count: usize) -> Result<(), NoMemory>
    ensures put { OnOk result (list.new ≡ list.old ++ replicate count 0) }
{
    for _ in 0..count {
        list.push(0)?;
    }
    Ok(())
}

/// The hash of some bytes.
pub fn hash_of_bytes(kind: Kind, bytes: &[u8]) -> ObjectId
    ensures hash { result ≡ hash_of kind bytes.now }
{
    let mut hasher = Hasher::new(kind);
    hasher.update(bytes);
    hasher.finalize()
}

/// The hash of the bytes so far.
pub fn put_hash(list: &mut ByteList, kind: Kind) -> Result<(), NoMemory>
    ensures put { OnOk result (list.new ≡ list.old ++ bytes_of (hash_of kind list.old)) }
    ensures id { IsId (hash_of kind list.old) }
{
    let hash = hash_of_bytes(kind, list.as_slice());
    list.extend_from_slice(hash.as_bytes())
}
