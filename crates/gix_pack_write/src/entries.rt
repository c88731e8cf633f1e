//! Writing entries of packs, with the shortest headers, and a pack of them up to its hash.
ghost use Rattle.std.specs.Prelude.{◌≡◌, ℕ, ◌++◌, ◌^◌, ◌<◌, ◌≤◌, length, map, IfOk, OnOk};
ghost use Rattle.gix_pack_read.specs.Rows.{rows_limit};
ghost use Rattle.gix_pack_read.specs.Pack.{longest_header, most_size_bytes};
ghost use Rattle.gix_pack_write.specs.WrittenPack.{code_of_kind, entry_of, header_of as header_bytes, object_seen, pack_front, size_bytes};

use crate::Object;
use crate::bytes::put_number;
use odb_base::{ByteList, NoMemory};
use std::alloc::Global;

// The version of packs that is written.
const VERSION: u32 = 2;

/// The pack of some objects without its hash.
#[tactic(auto, unfolding(crate::specs::WrittenPack::pack_front))]
pub fn front_of(alloc: Global, objects: &[Object]) -> Result<ByteList, NoMemory>
    requires few { length objects.now < rows_limit }
    ensures front { IfOk result (λ front. front ≡ pack_front (map object_seen objects.now)) }
{
    let mut front = ByteList::new(alloc);
    front.extend_from_slice(b"PACK")?;
    put_number(&mut front, VERSION)?;
    put_number(&mut front, objects.len() as u32)?;
    for object in objects {
        put_entry(&mut front, object)?;
    }
    Ok(front)
}

// The entry of an object.
fn put_entry(pack: &mut ByteList, object: &Object) -> Result<(), NoMemory>
    ensures put { OnOk result (pack.new ≡ pack.old ++ entry_of (object_seen object.now)) }
{
    put_header(pack, code_of(object.kind), object.bytes.len() as u64)?;
    pack.extend_from_slice(object.bytes.as_slice())
}

/// The length of an object's entry in bytes.
#[tactic(auto, using(crate::proofs::WrittenPackLemmas::len_of_entry))]
pub fn entry_len(object: &Object) -> u64
    ensures len { result ≡ length (entry_of (object_seen object.now)) }
{
    let size = object.bytes.as_slice().len() as u64;
    header_len(size) + size
}

// The length of the header for a size, in bytes.
#[tactic(auto, using(crate::proofs::WrittenPackLemmas::header_lengths))]
fn header_len(size: u64) -> u64
    ensures exact { (code : ℕ) → result ≡ length (header_bytes code size) }
    ensures small { result ≤ longest_header }
{
    if size < 16 {
        return 1;
    }
    let mut high = size / 16;
    let mut len = 2;
    while high >= 128 {
        high /= 128;
        len += 1;
    }
    len
}

// The type code of a kind.
fn code_of(kind: gix_object::Kind) -> u8
    ensures code { result ≡ code_of_kind kind }
    ensures small { result < 8 }
{
    match kind {
        gix_object::Kind::Commit => 1,
        gix_object::Kind::Tree => 2,
        gix_object::Kind::Blob => 3,
        gix_object::Kind::Tag => 4,
    }
}

// The header of a type and a size.
#[tactic(auto, unfolding(crate::specs::WrittenPack::header_of))]
fn put_header(pack: &mut ByteList, code: u8, size: u64) -> Result<(), NoMemory>
    requires small { code < 8 }
    ensures put { OnOk result (pack.new ≡ pack.old ++ header_bytes code size) }
{
    let first = 16 * code + (size % 16) as u8;
    if size < 16 {
        return pack.push(first);
    }
    pack.push(128 + first)?;
    put_size(pack, size / 16)
}

// A number as bytes of seven bits, the lowest first.
#[tactic(auto, using(crate::proofs::WrittenPackLemmas::size_written, crate::proofs::WrittenPackLemmas::size_last))]
fn put_size(pack: &mut ByteList, number: u64) -> Result<(), NoMemory>
    requires small { number < 2 ^ 60 }
    ensures put { OnOk result (pack.new ≡ pack.old ++ size_bytes most_size_bytes number) }
{
    let mut left = number;
    while left >= 128 {
        pack.push(128 + (left % 128) as u8)?;
        left /= 128;
    }
    pack.push(left as u8)
}
