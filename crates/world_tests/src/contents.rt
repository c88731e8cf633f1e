//! The bytes of the files that a script puts.
use gix_hash::{Hasher, Kind};
use odb_mem_disk::Change;
use odb_script::{Item, item_of};
use std::alloc::{AllocError, Global};
use std::test::Fail;
use test_words::compare;

/// The contents of a file that a line puts.
fn content_shown(alloc: Global, content: &str) -> Result<String, Fail> {
    let line = format!(in alloc; "put /a 1 {content}")?;
    line_shown(alloc, line.as_bytes())
}

fn line_shown(alloc: Global, line: &[u8]) -> Result<String, Fail> {
    let item = item_of(alloc, line)?;
    Ok(put_shown(alloc, &item)?)
}

fn put_shown(alloc: Global, item: &Item) -> Result<String, AllocError> {
    match item {
        Item::Setup(Change::PutFile { bytes, .. }) => bytes_shown(alloc, bytes.as_slice()),
        _ => "no file".to_string(alloc),
    }
}

/// The bytes in hex digits; if there are many, their number and their hash.
fn bytes_shown(alloc: Global, bytes: &[u8]) -> Result<String, AllocError> {
    match bytes.len() {
        0 => "-".to_string(alloc),
        1..1000 => hex::encode(alloc, bytes),
        _ => many_shown(alloc, bytes),
    }
}

fn many_shown(alloc: Global, bytes: &[u8]) -> Result<String, AllocError> {
    let mut hasher = Hasher::new(Kind::Sha1);
    hasher.update(bytes);
    let len = bytes.len();
    let hash = hasher.finalize();
    format!(in alloc; "{len} {hash}")
}

fn check_row(alloc: Global, row: &str) -> Result<(), Fail> {
    let (content, want) = row.split_once('>').unwrap_or((row, ""));
    let found = content_shown(alloc, content)?;
    compare(content, found.as_str(), want)
}

// Packs and indices were made by a python script from the formats; Git writes the first two multi-indices itself, over
// these indices.
const CONTENTS: &str = "\
    ->-\n\
    00Ff>00ff\n\
    @loose:blob:->626c6f62203000\n\
    @loose:commit:00ff>636f6d6d697420320000ff\n\
    @loose:tag:aAbB>746167203200aabb\n\
    @loose:tree:->74726565203000\n\
    @loose:tree:00>7472656520310000\n\
    @loose:blob:4A6b>626c6f622032004a6b\n\
    @loose:tag:0a0B0c0D0e0F0102030405>746167203131000a0b0c0d0e0f0102030405\n\
    @pack:blob:76657273696f6e20310a>5041434b0000000200000001\
    3a76657273696f6e20310ad1bd6ed802ef460d5fa07dbbf28cc092cb80abad\n\
    @pack:blob:76657273696f6e20320A,blob:76657273696f6e20310a,blob:76657273696f6e20320a\
    >5041434b0000000200000003\
    3a76657273696f6e20320a3a76657273696f6e20310a3a76657273696f6e20320a78ed632bcb56a4ce587e5e1a9e1944166ce1c35b\n\
    @pack:tree:-,commit:00ff,tag:0a0a0a0a0a0a0a0a0a0a0a0a0a0a0a0a\
    >5041434b0000000200000003201200ffc0010a0a0a0a0a0a0a0a0a0a0a0a0a0a0a0a\
    8973a1febf0672f6305a9035b2ddad9a9400f8e5\n\
    @idx:blob:76657273696f6e20310a>1100 14d68ddbb2a22cd171c59de49e7939b0ecc89ac6\n\
    @idx:blob:76657273696f6e20320a,blob:76657273696f6e20310a,blob:76657273696f6e20320a\
    >1128 c62c09e0f076e5c8fcdc6942abd6dbfd8af207ed\n\
    @idx:tree:-,commit:00ff,tag:0a0a0a0a0a0a0a0a0a0a0a0a0a0a0a0a\
    >1156 d20633b579c9934b332c986c955aa3912a66bd9d\n\
    @midx:pack-a=blob:76657273696f6e20310a>1156 70fb89d8fd4e762655ccf6ea4d8f45f9a6002bfc\n\
    @midx:pack-a=blob:76657273696f6e20310a;pack-b=blob:76657273696f6e20320a\
    >1196 e3648d8b87cb9e5972b9f285cc721c1c60e0205f\n\
    @midx:a=blob:76657273696f6e20320a,blob:76657273696f6e20310a;\
    b=blob:76657273696f6e20310a,blob:68656c6c6f0a,blob:68656c6c6f0a\
    >1212 097fa7b317a9ce3e2d78d333cbb4bbe6fb6b3d1a\n\
    @midx:..=blob:-;a=tree:-;é=blob:-,blob:68656c6c6f0a>1220 ffe230afb2f3b112b56d1e658fb705af511933b3\n\
    @midx:a-=blob:-;a=blob:->1160 cb132223a08fb0c01500b91a0904aeaf26029249";

// Objects that are left out, turned round or of another kind, a header with another size, a pack's index for a pack,
// or packs under each other's names. An output shows only single objects of packs.
#[test]
fn spells_contents(rt: HostRuntime) -> Result<(), Fail> {
    for row in CONTENTS.split('\n') {
        check_row(rt.alloc(), row)?;
    }
    Ok(())
}
