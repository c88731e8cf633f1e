//! Reading packs, the headers of their entries and their objects: Git's, written ones, and damaged ones.
use crate::git_packs::{GIT_SHA1, GIT_SHA256, HEADERS_SHA1, HEADERS_SHA256, Headers};
use crate::pack_words::{changed, joined};
use gix_hash::Kind;
use gix_object::Kind as Of;
use gix_pack::Object;
use gix_pack::data::{Entry, Error, File, Header, encode};
use odb_base::{ByteList, NoMemory};
use std::alloc::{AllocError, Global};
use std::str;
use std::test::Fail;
use test_words::compare;

// A pack of `version 1` and `version 2`, each with a line feed, up to its hash.
const FRONT: &[u8] = b"PACK\x00\x00\x00\x02\x00\x00\x00\x02";

const ENTRIES: &[u8] = b":version 1\n:version 2\n";

// Headers of ten and of eleven bytes, of the greatest size and of one above it.
const TEN: &[u8] = b"\xb0\x80\x80\x80\x80\x80\x80\x80\x80\x00";

const ELEVEN: &[u8] = b"\xb0\x80\x80\x80\x80\x80\x80\x80\x80\x80\x00";

const GREATEST: &[u8] = b"\xbf\xff\xff\xff\xff\xff\xff\xff\xff\x0f";

const ABOVE: &[u8] = b"\xb0\x80\x80\x80\x80\x80\x80\x80\x80\x10";

// The entry at an offset of a pack: the kind, the size, the length of the header and the data.
fn entry_shown(
    alloc: Global,
    bytes: ByteList,
    offset: u64,
    limit: Option<u64>,
) -> Result<String, AllocError> {
    match File::parse(bytes, Kind::Sha1) {
        Ok(pack) => read_shown(alloc, pack.entry(offset, limit)),
        Err(error) => format!(in alloc; "{error:?}"),
    }
}

fn read_shown(alloc: Global, read: Result<Entry<'_>, Error>) -> Result<String, AllocError> {
    match read {
        Ok(entry) => text_of(alloc, entry),
        Err(error) => format!(in alloc; "{error:?}"),
    }
}

fn text_of(alloc: Global, entry: Entry<'_>) -> Result<String, AllocError> {
    let (kind, size, len) = (entry.kind, entry.size, entry.header_len);
    let text = str::from_utf8(entry.bytes).unwrap_or("no text");
    format!(in alloc; "{kind} {size} {len} {text}")
}

fn check(
    alloc: Global,
    asked: &str,
    bytes: ByteList,
    offset: u64,
    limit: Option<u64>,
    want: &str,
) -> Result<(), Fail> {
    let found = entry_shown(alloc, bytes, offset, limit)?;
    compare(asked, found.as_str(), want)
}

// A pack of two objects with these entries.
fn pack_of(alloc: Global, entries: &[u8]) -> Result<ByteList, NoMemory> {
    joined(alloc, &[FRONT, entries, &[0; 20]], 0)
}

const FIRST: &str = "blob 10 1 version 1\n";

const SECOND: &str = "blob 10 1 version 2\n";

const ENTRY_ROWS: &[(&[u8], u64, Option<u64>, &str)] = &[
    (ENTRIES, 12, None, FIRST),
    (ENTRIES, 23, Some(10), SECOND),
    (ENTRIES, 23, Some(9), "OutOfMemory { size: 10 }"),
    (ENTRIES, 34, None, "BadEntry"),
    (ENTRIES, 11, None, "BadEntry"),
    (ENTRIES, u64::MAX, None, "BadEntry"),
    (b":v", 12, None, "BadEntry"),
    (b":v", 12, Some(9), "OutOfMemory { size: 10 }"),
    (b"\xba", 12, None, "BadEntry"),
    (b"0", 12, Some(0), "blob 0 1 "),
    (b"\x0a", 12, None, "EntryType { code: 0 }"),
    (b"Z\x05", 12, Some(9), "EntryType { code: 5 }"),
    (b"j\x05", 12, Some(9), "DeltaEntry"),
    (b"z\x05", 12, None, "DeltaEntry"),
    (b"\xea", 12, None, "BadEntry"),
    (TEN, 12, None, "blob 0 10 "),
    (ELEVEN, 12, None, "BadEntry"),
    (GREATEST, 12, None, "BadEntry"),
    (
        GREATEST,
        12,
        Some(u64::MAX - 1),
        "OutOfMemory { size: 18446744073709551615 }",
    ),
    (ABOVE, 12, Some(9), "BadEntry"),
];

// The neighbour's data, a limit tested too early or too late, a header too long, too large or cut off, or a delta
// mistaken for a blob.
#[test]
fn reads_entries(rt: HostRuntime) -> Result<(), Fail> {
    let alloc = rt.alloc();
    for (entries, offset, limit, want) in ENTRY_ROWS {
        let bytes = pack_of(alloc, entries)?;
        check(alloc, want, bytes, *offset, *limit, want)?;
    }
    Ok(())
}

// Changes of a byte of the pack of two entries, and what is then read at 12 and at 23.
const CHANGES: &[(&str, usize, u8, &str, &str)] = &[
    ("no change", 0, b'P', FIRST, SECOND),
    ("no mark", 0, b'p', "BadPack", "BadPack"),
    ("no mark at its end", 3, b'X', "BadPack", "BadPack"),
    ("the high byte of the version", 4, 2, "BadPack", "BadPack"),
    ("version 1", 7, 1, "BadPack", "BadPack"),
    ("version 3", 7, 3, FIRST, SECOND),
    ("an object less", 11, 1, FIRST, SECOND),
    ("objects without end", 8, 255, FIRST, SECOND),
    ("no type", 12, 0x0a, "EntryType { code: 0 }", SECOND),
    ("type 5", 12, 0x5a, "EntryType { code: 5 }", SECOND),
    ("a delta of an offset", 12, 0x6a, "DeltaEntry", SECOND),
    ("a delta of an id", 12, 0x7a, "DeltaEntry", SECOND),
    ("a tag", 12, 0x4a, "tag 10 1 version 1\n", SECOND),
    ("a byte less", 12, 0x39, "blob 9 1 version 1", SECOND),
    ("a byte more", 12, 0x3b, "blob 11 1 version 1\n:", SECOND),
    ("a header of two bytes", 12, 0xba, "BadEntry", SECOND),
    ("the first byte", 13, b'V', "blob 10 1 Version 1\n", SECOND),
    ("the last byte", 22, b'\r', "blob 10 1 version 1\r", SECOND),
    ("the second type", 23, 0x6a, FIRST, "DeltaEntry"),
    (
        "the second a byte less",
        23,
        0x39,
        FIRST,
        "blob 9 1 version 2",
    ),
    ("the second a byte more", 23, 0x3b, FIRST, "BadEntry"),
    (
        "the second header of two bytes",
        23,
        0xba,
        FIRST,
        "BadEntry",
    ),
    ("the second's number", 32, b'1', FIRST, FIRST),
    ("the first byte of the hash", 34, 1, FIRST, SECOND),
    ("the last byte of the hash", 53, 1, FIRST, SECOND),
];

fn check_changes(alloc: Global, whole: &[u8]) -> Result<(), Fail> {
    for (name, place, byte, first, second) in CHANGES {
        check(
            alloc,
            name,
            changed(alloc, whole, *place, *byte)?,
            12,
            None,
            first,
        )?;
        check(
            alloc,
            name,
            changed(alloc, whole, *place, *byte)?,
            23,
            None,
            second,
        )?;
    }
    Ok(())
}

// Wherever the pack is cut, its second entry is gone.
fn check_cuts(alloc: Global, whole: &[u8]) -> Result<(), Fail> {
    for cut in 1..=54 {
        let gone = if cut <= 22 { "BadEntry" } else { "BadPack" };
        let first = if cut <= 11 { FIRST } else { gone };
        check(alloc, "cut", joined(alloc, &[whole], cut)?, 12, None, first)?;
        check(alloc, "cut", joined(alloc, &[whole], cut)?, 23, None, gone)?;
    }
    Ok(())
}

// A field that matters although reading ignores it, or an end that is not compared.
#[test]
fn reads_damaged_packs(rt: HostRuntime) -> Result<(), Fail> {
    let whole = pack_of(rt.alloc(), ENTRIES)?;
    check_changes(rt.alloc(), whole.as_slice())?;
    check_cuts(rt.alloc(), whole.as_slice())
}

// With one more byte, the hash's first byte is taken for a header.
const A_BYTE_MORE: &[(u64, &str)] = &[
    (12, FIRST),
    (23, SECOND),
    (34, "EntryType { code: 0 }"),
    (35, "BadEntry"),
];

// An entry that extends into the hash.
#[test]
fn reads_a_pack_with_a_byte_more(rt: HostRuntime) -> Result<(), Fail> {
    let alloc = rt.alloc();
    for (offset, want) in A_BYTE_MORE {
        let bytes = joined(alloc, &[FRONT, ENTRIES, &[0; 21]], 0)?;
        check(alloc, want, bytes, *offset, None, want)?;
    }
    Ok(())
}

const SLICES: &[(u64, u64, &str)] = &[
    (0, 12, "none"),
    (11, 0, "none"),
    (11, 1, "none"),
    (12, 0, ""),
    (12, 11, ":version 1\n"),
    (23, 11, ":version 2\n"),
    (33, 1, "\n"),
    (12, 22, ":version 1\n:version 2\n"),
    (12, 23, "none"),
    (23, 12, "none"),
    (34, 0, ""),
    (34, 1, "none"),
    (35, 0, "none"),
    (12, u64::MAX, "none"),
    (12, u64::MAX - 11, "none"),
    (u64::MAX, 0, "none"),
    (u64::MAX, 1, "none"),
    (u64::MAX, u64::MAX, "none"),
];

fn slice_shown(pack: &File, offset: u64, len: u64) -> &str {
    match pack.entry_slice(offset, len) {
        Some(bytes) => str::from_utf8(bytes).unwrap_or("no text"),
        None => "none",
    }
}

fn check_slices(pack: &File) -> Result<(), Fail> {
    for (offset, len, want) in SLICES {
        compare(want, slice_shown(pack, *offset, *len), want)?;
    }
    Ok(())
}

// A slice that begins in the header or ends in the hash, or a sum that wraps around.
#[test]
fn reads_slices(rt: HostRuntime) -> Result<(), Fail> {
    let pack = File::parse(pack_of(rt.alloc(), ENTRIES)?, Kind::Sha1)?;
    check_slices(&pack)
}

// The version and the number of objects.
fn front_shown(alloc: Global, bytes: ByteList, hash: Kind) -> Result<String, AllocError> {
    match File::parse(bytes, hash) {
        Ok(pack) => {
            let (version, count) = (pack.version(), pack.num_objects());
            format!(in alloc; "{version} {count}")
        }
        Err(error) => format!(in alloc; "{error:?}"),
    }
}

const FRONTS: &[(&[u8], usize, &str)] = &[
    (FRONT, 0, "2 2"),
    (b"PACK\x00\x00\x00\x03\x00\x00\x01\x00", 0, "3 256"),
    (b"PACK\x00\x00\x00\x04\x00\x00\x00\x02", 0, "BadPack"),
    (b"PACK\x02\x00\x00\x00\x00\x00\x00\x02", 0, "BadPack"),
    (b"pACK\x00\x00\x00\x02\x00\x00\x00\x02", 0, "BadPack"),
    (FRONT, 1, "BadPack"),
    (FRONT, 32, "BadPack"),
];

// A version that is read at the place of the count, or a pack whose length is not tested.
#[test]
fn reads_the_front(rt: HostRuntime) -> Result<(), Fail> {
    for (front, cut, want) in FRONTS {
        let bytes = joined(rt.alloc(), &[*front, &[0; 20]], *cut)?;
        let found = front_shown(rt.alloc(), bytes, Kind::Sha1)?;
        compare(want, found.as_str(), want)?;
    }
    Ok(())
}

fn header_shown(alloc: Global, header: Header) -> Result<String, AllocError> {
    let (kind, size, len) = (header.kind, header.size, header.header_len);
    format!(in alloc; "{kind} {size} {len}")
}

fn check_headers(alloc: Global, pack: &File, rows: Headers) -> Result<(), Fail> {
    for (offset, want) in rows {
        let found = header_shown(alloc, pack.decode_header(*offset)?)?;
        compare(want, found.as_str(), want)?;
    }
    Ok(())
}

// Sizes whose bits are lost or in the wrong order: kinds and sizes are those of `git verify-pack -v`.
#[test]
fn reads_headers_of_git(rt: HostRuntime) -> Result<(), Fail> {
    for (bytes, hash, want, rows) in [
        (GIT_SHA1, Kind::Sha1, "2 5", HEADERS_SHA1),
        (GIT_SHA256, Kind::Sha256, "2 4", HEADERS_SHA256),
    ] {
        check_pack(rt.alloc(), bytes, hash, want, rows)?;
    }
    Ok(())
}

fn check_pack(
    alloc: Global,
    bytes: &[u8],
    hash: Kind,
    want: &str,
    rows: Headers,
) -> Result<(), Fail> {
    let front = front_shown(alloc, ByteList::from_slice(alloc, bytes)?, hash)?;
    compare(want, front.as_str(), want)?;
    let pack = File::parse(ByteList::from_slice(alloc, bytes)?, hash)?;
    check_headers(alloc, &pack, rows)
}

// Kinds and numbers of equal bytes.
const OBJECTS: &[(Of, u64)] = &[
    (Of::Commit, 0),
    (Of::Tree, 15),
    (Of::Blob, 16),
    (Of::Tag, 2047),
    (Of::Blob, 2048),
];

const WRITTEN: Headers = &[
    (12, "commit 0 1"),
    (13, "tree 15 1"),
    (29, "blob 16 2"),
    (47, "tag 2047 2"),
    (2096, "blob 2048 3"),
];

// An object of this many equal bytes.
fn filled(alloc: Global, kind: Of, size: u64) -> Result<Object, NoMemory> {
    let mut bytes = ByteList::new(alloc);
    for _ in 0..size {
        bytes.push(b'x')?;
    }
    Ok(Object { kind, bytes })
}

fn objects(alloc: Global) -> Result<Vec<Object>, NoMemory> {
    let mut objects = Vec::new(alloc);
    for (kind, size) in OBJECTS {
        objects.push(filled(alloc, *kind, *size)?)?;
    }
    Ok(objects)
}

fn written(alloc: Global, objects: &[Object]) -> Result<ByteList, Fail> {
    if objects.len() > 5 {
        return Err(Fail::new("too many objects"));
    }
    Ok(encode(alloc, objects, Kind::Sha256)?)
}

// A header that is longer than the shortest, an entry at another offset, or bytes after the last one.
#[test]
fn writes_the_shortest_headers(rt: HostRuntime) -> Result<(), Fail> {
    let objects = objects(rt.alloc())?;
    let bytes = written(rt.alloc(), objects.as_slice())?;
    check_written(rt.alloc(), &File::parse(bytes, Kind::Sha256)?)
}

fn check_written(alloc: Global, pack: &File) -> Result<(), Fail> {
    check_headers(alloc, pack, WRITTEN)?;
    if pack.entry_slice(2096, 2051).is_some() && pack.entry_slice(2096, 2052).is_none() {
        return Ok(());
    }
    Err(Fail::new("another length"))
}
