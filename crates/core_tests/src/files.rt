//! The files that events bring: indices and packs of three objects at most, and two multi-pack indices.
use gix_hash::Kind;
use gix_odb_core::Shared;
use gix_pack::{NamedPack, Object, data, index, multi_index};
use odb_base::{ByteList, NoMemory, PathName, Sequence};
use std::alloc::Global;
use std::test::Fail;

const TEXTS: [&str; 3] = ["one", "two", "three"];

fn blob(alloc: Global, text: &str) -> Result<Object, NoMemory> {
    Ok(Object {
        kind: gix_object::Kind::Blob,
        bytes: ByteList::from_slice(alloc, text.as_bytes())?,
    })
}

fn push_blob(alloc: Global, objects: &mut Vec<Object>, text: &str) -> Result<(), Fail> {
    Ok(objects.push(blob(alloc, text)?)?)
}

/// This many objects, in words.
fn blobs(alloc: Global, count: &str) -> Result<Vec<Object>, Fail> {
    let count = count.parse::<usize>()?;
    let mut objects = Vec::new(alloc);
    for text in TEXTS.iter().take(count) {
        push_blob(alloc, &mut objects, text)?;
    }
    Ok(objects)
}

fn index_of(alloc: Global, objects: &[Object]) -> Result<Shared<index::File>, Fail> {
    if objects.len() > 3 {
        return Err(Fail::new("too many objects"));
    }
    let bytes = index::encode(alloc, objects, Kind::Sha1)?;
    let file = index::File::parse(bytes, Kind::Sha1)?;
    Ok(Shared::new(alloc, file)?)
}

fn pack_of(alloc: Global, objects: &[Object]) -> Result<Shared<data::File>, Fail> {
    if objects.len() > 3 {
        return Err(Fail::new("too many objects"));
    }
    let bytes = data::encode(alloc, objects, Kind::Sha1)?;
    let file = data::File::parse(bytes, Kind::Sha1)?;
    Ok(Shared::new(alloc, file)?)
}

/// The index of this many objects.
pub fn index_file(alloc: Global, count: &str) -> Result<Shared<index::File>, Fail> {
    let objects = blobs(alloc, count)?;
    index_of(alloc, objects.as_slice())
}

/// The pack of this many objects.
pub fn pack_file(alloc: Global, count: &str) -> Result<Shared<data::File>, Fail> {
    let objects = blobs(alloc, count)?;
    pack_of(alloc, objects.as_slice())
}

/// The objects of a pack: its name is the only one.
fn objects_of(alloc: Global, name: &str) -> Result<Sequence<Object>, NoMemory> {
    let mut objects = Sequence::new(alloc);
    objects.push(blob(alloc, name)?)?;
    Ok(objects)
}

fn push_named(alloc: Global, packs: &mut Vec<NamedPack>, name: &str) -> Result<(), Fail> {
    let objects = objects_of(alloc, name)?;
    let name = PathName::new(alloc, name)?;
    Ok(packs.push(NamedPack { name, objects })?)
}

fn multi_of(alloc: Global, packs: &[NamedPack]) -> Result<Shared<multi_index::File>, Fail> {
    if !multi_index::can_be_written(packs) {
        return Err(Fail::new("packs that can't be written"));
    }
    let bytes = multi_index::encode(alloc, packs, Kind::Sha1)?;
    let file = multi_index::File::parse(alloc, bytes, None)?;
    Ok(Shared::new(alloc, file)?)
}

/// The multi-pack index of a time: for odd times it has the packs `a` and `b`, otherwise only the pack `b`. That of the time
/// 100 has indices in ascending order whose packs aren't: `a.idx` is below `a.j.idx`, and `a.pack` above `a.j.pack`.
pub fn multi_file(alloc: Global, time: u64) -> Result<Shared<multi_index::File>, Fail> {
    let names: &[&str] = if time == 100 {
        &["a.idx", "a.j.idx", "b.idx"]
    } else if time % 2 == 1 {
        &["a.idx", "b.idx"]
    } else {
        &["b.idx"]
    };
    let mut packs = Vec::new(alloc);
    for name in names {
        push_named(alloc, &mut packs, name)?;
    }
    multi_of(alloc, packs.as_slice())
}
