//! The files on the disk: indices, packs and multi-pack indices of blobs, each of a word and a line feed, and bytes by hand.
use gix_hash::{Kind, ObjectId};
use gix_object::compute_hash;
use gix_pack::{NamedPack, Object, data, index, multi_index};
use odb_base::{ByteList, NoMemory, PathName, Sequence};
use std::alloc::Global;
use std::test::Fail;

/// The bytes of the blob of a word.
pub fn bytes_of(alloc: Global, word: &str) -> Result<ByteList, NoMemory> {
    let mut bytes = ByteList::from_slice(alloc, word.as_bytes())?;
    bytes.push(b'\n')?;
    Ok(bytes)
}

fn blob(alloc: Global, word: &str) -> Result<Object, NoMemory> {
    Ok(Object {
        kind: gix_object::Kind::Blob,
        bytes: bytes_of(alloc, word)?,
    })
}

fn push_blob(alloc: Global, objects: &mut Vec<Object>, word: &str) -> Result<(), NoMemory> {
    Ok(objects.push(blob(alloc, word)?)?)
}

fn blobs(alloc: Global, words: &str) -> Result<Vec<Object>, NoMemory> {
    let mut objects = Vec::new(alloc);
    for word in words.split(' ') {
        push_blob(alloc, &mut objects, word)?;
    }
    Ok(objects)
}

fn hash_of(alloc: Global, word: &str) -> Result<ObjectId, NoMemory> {
    let bytes = bytes_of(alloc, word)?;
    let kind = gix_object::Kind::Blob;
    compute_hash(alloc, Kind::Sha1, kind, bytes.as_slice())
}

/// The id that a word spells, or otherwise that of the blob of the word.
pub fn id_of(alloc: Global, word: &str) -> Result<ObjectId, NoMemory> {
    match ObjectId::from_hex(word.as_bytes()) {
        Ok(id) => Ok(id),
        Err(_) => hash_of(alloc, word),
    }
}

fn written(alloc: Global, verb: &str, objects: &[Object]) -> Result<ByteList, Fail> {
    if objects.len() > 3 {
        return Err(Fail::new("too many objects"));
    }
    if verb == "index" {
        return Ok(index::encode(alloc, objects, Kind::Sha1)?);
    }
    Ok(data::encode(alloc, objects, Kind::Sha1)?)
}

fn encoded(alloc: Global, verb: &str, words: &str) -> Result<ByteList, Fail> {
    let objects = blobs(alloc, words)?;
    written(alloc, verb, objects.as_slice())
}

fn push_pack(alloc: Global, packs: &mut Vec<NamedPack>, word: &str) -> Result<(), Fail> {
    let name = format!(in alloc; "{word}.idx")?;
    let name = PathName::new(alloc, &name)?;
    let mut objects = Vec::new(alloc);
    push_blob(alloc, &mut objects, word)?;
    let objects = Sequence::from_vec(objects);
    Ok(packs.push(NamedPack { name, objects })?)
}

// The packs of these names, each with the blob of its name.
fn packs_of(alloc: Global, words: &str) -> Result<Vec<NamedPack>, Fail> {
    let mut packs = Vec::new(alloc);
    for word in words.split(' ') {
        push_pack(alloc, &mut packs, word)?;
    }
    Ok(packs)
}

fn multi_of(alloc: Global, packs: &[NamedPack], kind: Kind) -> Result<ByteList, Fail> {
    if !multi_index::can_be_written(packs) {
        return Err(Fail::new("packs that can't be written"));
    }
    Ok(multi_index::encode(alloc, packs, kind)?)
}

fn multi(alloc: Global, words: &str, kind: Kind) -> Result<ByteList, Fail> {
    let packs = packs_of(alloc, words)?;
    multi_of(alloc, packs.as_slice(), kind)
}

// A pack without objects. The names rise, since they have numbers of six digits.
fn push_empty(alloc: Global, packs: &mut Vec<NamedPack>, number: u32) -> Result<(), Fail> {
    let number = u64::from(number) + 100_000;
    let name = format!(in alloc; "{number}.idx")?;
    let name = PathName::new(alloc, &name)?;
    let objects = Sequence::new(alloc);
    Ok(packs.push(NamedPack { name, objects })?)
}

fn empty_packs(alloc: Global, count: u32) -> Result<Vec<NamedPack>, Fail> {
    let mut packs = Vec::new(alloc);
    for number in 0..count {
        push_empty(alloc, &mut packs, number)?;
    }
    Ok(packs)
}

fn many(alloc: Global, words: &str) -> Result<ByteList, Fail> {
    let Some(count) = words.parse::<u32>().ok() else {
        return Err(Fail::new("no number of packs"));
    };
    let packs = empty_packs(alloc, count)?;
    multi_of(alloc, packs.as_slice(), Kind::Sha1)
}

// A pack that claims to have one object, with these bytes as its entry.
fn pack_by_hand(alloc: Global, entry: &[u8]) -> Result<ByteList, NoMemory> {
    let mut bytes = ByteList::from_slice(alloc, b"PACK\0\0\0\x02\0\0\0\x01")?;
    bytes.extend_from_slice(entry)?;
    bytes.extend_from_slice(&[0; 20])?;
    Ok(bytes)
}

fn by_hand(alloc: Global, verb: &str, words: &str) -> Result<ByteList, NoMemory> {
    match verb {
        "zeros" => ByteList::from_slice(alloc, &[0; 1200]),
        "delta" => pack_by_hand(alloc, b"\x6a\x05"),
        "type-5" => pack_by_hand(alloc, b"\x5a\x05"),
        "bare" => pack_by_hand(alloc, b""),
        _ => ByteList::from_slice(alloc, words.as_bytes()),
    }
}

/// The contents of a file: `index WORD ..` and `pack WORD ..`; `multi WORD ..`, a multi-pack index whose packs have these
/// names and each the blob of its name, and `multi-256 WORD ..` with SHA-256; `many NUMBER`, a multi-pack index of so many packs
/// without objects; `zeros`, which are more bytes than an index of three objects has, packs whose entry is a `delta`, has
/// `type-5` or is missing (`bare`), and `text WORD ..`.
pub fn contents_of(alloc: Global, verb: &str, words: &str) -> Result<ByteList, Fail> {
    if verb == "index" || verb == "pack" {
        return encoded(alloc, verb, words);
    }
    match verb {
        "multi" => multi(alloc, words, Kind::Sha1),
        "multi-256" => multi(alloc, words, Kind::Sha256),
        "many" => many(alloc, words),
        _ => Ok(by_hand(alloc, verb, words)?),
    }
}
