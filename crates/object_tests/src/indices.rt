//! What is read of indices that Git made.
use crate::pack_words::{put_counts, rows_in};
use gix_hash::{Kind, ObjectId, Prefix};
use gix_pack::index::{Entry, File};
use odb_base::ByteList;
use std::alloc::{AllocError, Global};
use std::test::Fail;
use test_words::compare;

pub(crate) const SIGNATURE: &[u8] = b"\xfftOc\x00\x00\x00\x02";

// Git's ids of the blobs `version 2` and `version 1`, each with a line feed.
const SECOND: &[u8] = b"1f7a7a472abf3dd9643fd615f6da379c4acb3e3a";

const FIRST: &[u8] = b"83baae61804e65cc73a7201a7252750c76066a30";

// The counts of two ids that begin with 31 and 131: how many rows have which number.
const TWO_COUNTS: &[(u16, u8)] = &[(31, 0), (100, 1), (125, 2)];

// The offsets 23 and 12, and 12 with one that refers to the first wide offset.
const OFFSETS: &[u8] = &[0, 0, 0, 23, 0, 0, 0, 12];

pub(crate) const ONE_WIDE: &[u8] = &[128, 0, 0, 0, 0, 0, 0, 12];

// The parts of an index.
#[derive(Clone, Copy)]
pub(crate) struct Parts<'a> {
    pub(crate) counts: &'a [(u16, u8)],
    pub(crate) ids: &'a [&'a [u8]],
    pub(crate) checks: &'a [u8],
    pub(crate) offsets: &'a [u8],
    pub(crate) wides: &'a [u8],
    pub(crate) hashes: [&'a [u8]; 2],
}

// The index of the two versions: `version 2` is its first row. Its CRC values and hashes are zeros.
pub(crate) const VERSIONS: Parts<'static> = Parts {
    counts: TWO_COUNTS,
    ids: &[SECOND, FIRST],
    checks: &[0; 8],
    offsets: OFFSETS,
    wides: &[],
    hashes: [&NO_HASH, &NO_HASH],
};

const NO_HASH: [u8; 40] = [b'0'; 40];

// An index from its parts.
pub(crate) fn index_of(alloc: Global, parts: &Parts<'_>) -> Result<ByteList, Fail> {
    let mut bytes = ByteList::from_slice(alloc, SIGNATURE)?;
    put_counts(&mut bytes, parts.counts)?;
    put_ids(&mut bytes, parts.ids)?;
    put_rest(&mut bytes, parts)?;
    Ok(bytes)
}

fn put_ids(bytes: &mut ByteList, ids: &[&[u8]]) -> Result<(), Fail> {
    for id in ids {
        bytes.extend_from_slice(ObjectId::from_hex(id)?.as_bytes())?;
    }
    Ok(())
}

pub(crate) fn put_rest(bytes: &mut ByteList, parts: &Parts<'_>) -> Result<(), Fail> {
    bytes.extend_from_slice(parts.checks)?;
    bytes.extend_from_slice(parts.offsets)?;
    bytes.extend_from_slice(parts.wides)?;
    put_ids(bytes, &parts.hashes)
}

// Indices that git made of five blobs, the numbers 285, 914 and 3446 (of SHA-256: 2690, 673 and 2189) and the texts
// `version 1` and `version 2`, each with a line feed:
//     git init --object-format=sha1; echo 285 | git hash-object -w --stdin; ..
//     git pack-objects five; git index-pack --index-version=2,0x20 -o wide.idx five-*.pack
// The second has a wide offset from the offset 32 on.
pub(crate) const SHA1: Parts<'static> = Parts {
    counts: &[(31, 0), (77, 1), (23, 4), (125, 5)],
    ids: &[
        SECOND,
        b"6cf44528e2d9c5e4b4b27a4fc1456eb5b2987a97",
        b"6cf44bc0b0a2c1d11d2939b6a406f951ea73213b",
        b"6cf44d4c8cb9f8e073927d06d0153bdb82fce224",
        FIRST,
    ],
    checks: b"\xd3\xbc\xc3\xa7\x6c\x7a\x53\xcf\x70\xf7\x9a\xb3\x24\x27\x8c\x9d\xc4\xef\x12\x65",
    offsets: b"\0\0\0\x1f\0\0\0\x32\0\0\0\x3f\0\0\0\x4c\0\0\0\x0c",
    wides: &[],
    hashes: [
        b"5160769dd7e6e6e9121f8f94c7ab57fd8321b15a",
        b"82f418d483d38f62dfd40a335c8a98c1848ddd45",
    ],
};

const SHA1_WIDE: Parts<'static> = Parts {
    counts: &[(31, 0), (77, 1), (23, 4), (125, 5)],
    ids: &[
        SECOND,
        b"6cf44528e2d9c5e4b4b27a4fc1456eb5b2987a97",
        b"6cf44bc0b0a2c1d11d2939b6a406f951ea73213b",
        b"6cf44d4c8cb9f8e073927d06d0153bdb82fce224",
        FIRST,
    ],
    checks: b"\xd3\xbc\xc3\xa7\x6c\x7a\x53\xcf\x70\xf7\x9a\xb3\x24\x27\x8c\x9d\xc4\xef\x12\x65",
    offsets: b"\0\0\0\x1f\x80\0\0\0\x80\0\0\x01\x80\0\0\x02\0\0\0\x0c",
    wides: b"\0\0\0\0\0\0\0\x32\0\0\0\0\0\0\0\x3f\0\0\0\0\0\0\0\x4c",
    hashes: [
        b"5160769dd7e6e6e9121f8f94c7ab57fd8321b15a",
        b"ac03c86beb115e8b3ad0aa2b7fb7775f02b9430d",
    ],
};

const SHA256: Parts<'static> = Parts {
    counts: &[(7, 0), (81, 3), (101, 4), (67, 5)],
    ids: &[
        b"074c16a503059469fd8edcc4ff84fe4beca57592e4e4da9562be0a8645e728b5",
        b"074c19a69a148ae5f9b55f273986af07097bd0c6060e8332cbfe2a9b95afaecb",
        b"074c2799e340164e9372ff06cb4acac1c68490aac8b52517fe089785a3880ab4",
        b"58a67ed1c161a4e89a110968310fe31e39920ef68d4c7c7e0d6695797533f50d",
        b"bd965fae20eb0dd136c5fb90b7c99ea1863ab46bb9a2647be049f38751749e61",
    ],
    checks: b"\x11\xf0\x95\x01\x42\x89\xfc\x2e\xc3\xf3\xe9\xa0\xc4\xef\x12\x65\xd3\xbc\xc3\xa7",
    offsets: b"\0\0\0\x32\0\0\0\x40\0\0\0\x4d\0\0\0\x0c\0\0\0\x1f",
    wides: &[],
    hashes: [
        b"2be7448fe2e729f0af7e8f830df0f4610cdde106dad03b61e57d285a7761176d",
        b"ce44b1c87697e5bb97c6b07436d56abbeedcc111df75c2c991d33e3a8be920c8",
    ],
};

// The rows as `git show-index` prints them, without their CRC values, and where their ids are found.
const SHOWN_VERSIONS: &str = "2
23 1f7a7a472abf3dd9643fd615f6da379c4acb3e3a Some(0)
12 83baae61804e65cc73a7201a7252750c76066a30 Some(1)
";

pub(crate) const SHOWN_SHA1: &str = "5
31 1f7a7a472abf3dd9643fd615f6da379c4acb3e3a Some(0)
50 6cf44528e2d9c5e4b4b27a4fc1456eb5b2987a97 Some(1)
63 6cf44bc0b0a2c1d11d2939b6a406f951ea73213b Some(2)
76 6cf44d4c8cb9f8e073927d06d0153bdb82fce224 Some(3)
12 83baae61804e65cc73a7201a7252750c76066a30 Some(4)
";

const SHOWN_SHA256: &str = "5
50 074c16a503059469fd8edcc4ff84fe4beca57592e4e4da9562be0a8645e728b5 Some(0)
64 074c19a69a148ae5f9b55f273986af07097bd0c6060e8332cbfe2a9b95afaecb Some(1)
77 074c2799e340164e9372ff06cb4acac1c68490aac8b52517fe089785a3880ab4 Some(2)
12 58a67ed1c161a4e89a110968310fe31e39920ef68d4c7c7e0d6695797533f50d Some(3)
31 bd965fae20eb0dd136c5fb90b7c99ea1863ab46bb9a2647be049f38751749e61 Some(4)
";

pub(crate) const REFUSED: &str = "BadIndex";

// The number of rows and each row, or why there are none.
fn index_shown(alloc: Global, bytes: ByteList, kind: Kind) -> Result<String, AllocError> {
    match File::parse(bytes, kind) {
        Ok(index) => rows_shown(alloc, &index),
        Err(error) => format!(in alloc; "{error:?}"),
    }
}

fn rows_shown(alloc: Global, index: &File) -> Result<String, AllocError> {
    let count = index.num_objects();
    let mut text = format!(in alloc; "{count}\n")?;
    for row in index.iter() {
        text.push_str(row_shown(alloc, index, row)?.as_str())?;
    }
    Ok(text)
}

fn row_shown(alloc: Global, index: &File, row: Entry) -> Result<String, AllocError> {
    let (offset, id) = (row.pack_offset, row.oid);
    let found = index.lookup(&id);
    format!(in alloc; "{offset} {id} {found:?}\n")
}

pub(crate) fn check(alloc: Global, bytes: ByteList, kind: Kind, want: &str) -> Result<(), Fail> {
    let found = index_shown(alloc, bytes, kind)?;
    compare(want, found.as_str(), want)
}

const FILES: &[(&Parts<'static>, Kind, &str)] = &[
    (&VERSIONS, Kind::Sha1, SHOWN_VERSIONS),
    (&SHA1, Kind::Sha1, SHOWN_SHA1),
    (&SHA1_WIDE, Kind::Sha1, SHOWN_SHA1),
    (&SHA256, Kind::Sha256, SHOWN_SHA256),
    (&VERSIONS, Kind::Sha256, REFUSED),
    (&SHA1, Kind::Sha256, REFUSED),
    (&SHA1_WIDE, Kind::Sha256, REFUSED),
    (&SHA256, Kind::Sha1, REFUSED),
];

// A row whose offset is the neighbour's, a wide offset that is not followed, or ids of the other length.
#[test]
fn reads_indices_of_git(rt: HostRuntime) -> Result<(), Fail> {
    for (parts, kind, want) in FILES {
        check(rt.alloc(), index_of(rt.alloc(), parts)?, *kind, want)?;
    }
    Ok(())
}

// Prefixes, the first row and the end of the range of each, and the row of the id that continues with zeros.
const PREFIXES_SHA1: &[(&str, &str)] = &[
    ("6cf4", "Some((1, 4)) None"),
    ("6cf44", "Some((1, 4)) None"),
    ("6cf45", "None None"),
    ("6cf445", "Some((1, 2)) None"),
    ("6cf44d", "Some((3, 4)) None"),
    ("1f7a", "Some((0, 1)) None"),
    ("83baae6", "Some((4, 5)) None"),
    (
        "6cf44bc0b0a2c1d11d2939b6a406f951ea73213b",
        "Some((2, 3)) Some(2)",
    ),
    ("6cf44bc0b0a2c1d11d2939b6a406f951ea73213a", "None None"),
    ("6cf44bc0b0a2c1d11d2939b6a406f951ea73213c", "None None"),
    ("0000", "None None"),
    ("0000000000000000000000000000000000000000", "None None"),
    ("ffff", "None None"),
    ("ffffffffffffffffffffffffffffffffffffffff", "None None"),
];

const PREFIXES_SHA256: &[(&str, &str)] = &[
    ("074c", "Some((0, 3)) None"),
    ("074c1", "Some((0, 2)) None"),
    ("074c2", "Some((2, 3)) None"),
    ("074c3", "None None"),
    (
        "074c2799e340164e9372ff06cb4acac1c68490aac8b52517fe089785a3880ab4",
        "Some((2, 3)) Some(2)",
    ),
    (
        "074c2799e340164e9372ff06cb4acac1c68490aac8b52517fe089785a3880ab5",
        "None None",
    ),
];

fn prefix_shown(alloc: Global, index: &File, id: &ObjectId, len: usize) -> Result<String, Fail> {
    let prefix = Prefix::new(id, len)?;
    let run = rows_in(index.lookup_prefix(&prefix));
    let row = index.lookup(id);
    Ok(format!(in alloc; "{run:?} {row:?}")?)
}

fn check_prefixes(
    alloc: Global,
    index: &File,
    kind: Kind,
    rows: &[(&str, &str)],
) -> Result<(), Fail> {
    for (digits, want) in rows {
        let id = id_from(alloc, kind, digits.as_bytes())?;
        let found = prefix_shown(alloc, index, &id, digits.len())?;
        compare(digits, found.as_str(), want)?;
    }
    Ok(())
}

// A range without its first or last row, half a byte that is ignored, or an absent id that has a row.
#[test]
fn finds_prefixes(rt: HostRuntime) -> Result<(), Fail> {
    let alloc = rt.alloc();
    let index = File::parse(index_of(alloc, &SHA1)?, Kind::Sha1)?;
    check_prefixes(alloc, &index, Kind::Sha1, PREFIXES_SHA1)
}

// Prefixes of ids of SHA-256, which an index of SHA-1 has none of.
const PREFIXES_OTHER: &[(&str, &str)] = &[("1f7a", "None None"), ("6cf44", "None None")];

// A row whose id has the same digits and is of the other hash.
#[test]
fn finds_no_ids_of_the_other_hash(rt: HostRuntime) -> Result<(), Fail> {
    let alloc = rt.alloc();
    let index = File::parse(index_of(alloc, &SHA1)?, Kind::Sha1)?;
    check_prefixes(alloc, &index, Kind::Sha256, PREFIXES_OTHER)
}

// The longer ids of SHA-256.
#[test]
fn finds_long_prefixes(rt: HostRuntime) -> Result<(), Fail> {
    let alloc = rt.alloc();
    let index = File::parse(index_of(alloc, &SHA256)?, Kind::Sha256)?;
    check_prefixes(alloc, &index, Kind::Sha256, PREFIXES_SHA256)
}

// The id whose text begins with some digits and continues with zeros.
fn id_from(alloc: Global, kind: Kind, digits: &[u8]) -> Result<ObjectId, Fail> {
    let mut text = ByteList::from_slice(alloc, digits)?;
    for _ in digits.len()..2 * kind.len_in_bytes() {
        text.push(b'0')?;
    }
    Ok(ObjectId::from_hex(text.as_slice())?)
}
