//! Indices and multi-pack indices that are written, compared with those that Git makes of the same packs.
use crate::pack_words::{compare_bytes, joined, put_counts};
use gix_hash::Kind;
use gix_pack::{NamedPack, Object, index, multi_index};
use odb_base::{ByteList, NoMemory, PathName, Sequence};
use std::alloc::Global;
use std::test::Fail;

const VERSION_1: &[u8] = b"version 1\n";

const VERSION_2: &[u8] = b"version 2\n";

const HELLO: &[u8] = b"hello\n";

// Their ids as blobs, by `git hash-object`.
const ID_1: &[u8] =
    b"\x83\xba\xae\x61\x80\x4e\x65\xcc\x73\xa7\x20\x1a\x72\x52\x75\x0c\x76\x06\x6a\x30";

const ID_2: &[u8] =
    b"\x1f\x7a\x7a\x47\x2a\xbf\x3d\xd9\x64\x3f\xd6\x15\xf6\xda\x37\x9c\x4a\xcb\x3e\x3a";

const ID_HELLO: &[u8] =
    b"\xce\x01\x36\x25\x03\x0b\xa8\xdb\xa9\x06\xf7\x56\x96\x7f\x9e\x9c\xa3\x94\x46\x4a";

fn blobs(alloc: Global, texts: &[&[u8]]) -> Result<Vec<Object>, NoMemory> {
    let mut objects = Vec::new(alloc);
    for text in texts {
        objects.push(blob(alloc, text)?)?;
    }
    Ok(objects)
}

fn blob(alloc: Global, text: &[u8]) -> Result<Object, NoMemory> {
    Ok(Object {
        kind: gix_object::Kind::Blob,
        bytes: ByteList::from_slice(alloc, text)?,
    })
}

// The index of the pack of some objects.
fn index_of(alloc: Global, objects: &[Object]) -> Result<ByteList, Fail> {
    if objects.len() > 3 {
        return Err(Fail::new("too many objects"));
    }
    Ok(index::encode(alloc, objects, Kind::Sha1)?)
}

// An index of the first two objects with these hashes.
fn index_with(alloc: Global, pack: &[u8], own: &[u8]) -> Result<ByteList, NoMemory> {
    let mut table = ByteList::new(alloc);
    put_counts(&mut table, &[(31, 0), (100, 1), (125, 2)])?;
    let parts: [&[u8]; 8] = [
        b"\xfftOc\x00\x00\x00\x02",
        table.as_slice(),
        ID_2,
        ID_1,
        &[0; 8],
        &[0, 0, 0, 23, 0, 0, 0, 12],
        pack,
        own,
    ];
    joined(alloc, &parts, 0)
}

// Texts of blobs, and the hashes of the index of their pack.
const INDICES: &[(&[&[u8]], &[u8], &[u8])] = &[
    (
        &[VERSION_1, VERSION_2],
        b"\x9f\xcd\xd1\x3c\xfb\xc0\x64\x2c\xc8\x04\x69\xd7\x0c\x2a\xca\x5c\xf5\x1f\x11\xf6",
        b"\x99\x2d\x04\x3e\x73\x3b\xf5\x47\x57\x2f\x62\x26\x86\x89\x67\xf3\x83\xec\x97\xaa",
    ),
    (
        &[VERSION_1, VERSION_2, VERSION_1],
        b"\x7b\x24\x2a\xde\x30\x04\x94\x74\x56\xd2\xe3\x42\xef\xd8\x2b\x61\x2a\x6e\xf9\xfa",
        b"\x10\x18\xe3\xe9\x0b\xb0\xb2\x22\xf2\xb6\x61\x86\xd9\x8c\x75\x2b\x2a\x7f\xf6\xeb",
    ),
];

fn check_index(alloc: Global, objects: &[Object], pack: &[u8], own: &[u8]) -> Result<(), Fail> {
    let found = index_of(alloc, objects)?;
    let want = index_with(alloc, pack, own)?;
    compare_bytes("index", &found, &want)
}

// Rows in the order of the objects, the last object's offset for an id that comes twice, or a hash of other bytes.
// The two hashes of each index, the pack's and its own, were computed by Python's hashlib over bytes that were
// assembled there from the format.
#[test]
fn writes_indices(rt: HostRuntime) -> Result<(), Fail> {
    for (texts, pack, own) in INDICES {
        let objects = blobs(rt.alloc(), texts)?;
        check_index(rt.alloc(), objects.as_slice(), pack, own)?;
    }
    Ok(())
}

// Names of packs' indices, and the blobs of each pack.
type Packs = &'static [(&'static str, &'static [&'static [u8]])];

const TWO_PACKS: Packs = &[
    ("pack-a.idx", &[VERSION_1]),
    ("pack-b.idx", &[VERSION_2, HELLO]),
];

// The second pack is empty, and the names need no padding.
const THREE_PACKS: Packs = &[
    ("pack-a1.idx", &[VERSION_1]),
    ("pack-b1.idx", &[]),
    ("pack-c1.idx", &[VERSION_2, HELLO]),
];

// The bytes before and after the counts of the multi-indices that `git multi-pack-index write` (Git 2.39) made of
// these packs. Each pack was with its index in `.git/objects/pack` of an empty repository (`git init
// --object-format=..`). Python assembled both from the format, as `encode` writes them: entries that are not
// compressed, and CRC values of zeros.
const BEFORE_SHA1: &[u8] = b"MIDX\x01\x01\x04\0\0\0\0\x02\
    PNAM\0\0\0\0\0\0\0\x48\
    OIDF\0\0\0\0\0\0\0\x60\
    OIDL\0\0\0\0\0\0\x04\x60\
    OOFF\0\0\0\0\0\0\x04\x9c\
    \0\0\0\0\0\0\0\0\0\0\x04\xb4\
    pack-a.idx\0pack-b.idx\0\0\0";

const BEHIND_SHA1: [&[u8]; 5] = [
    ID_2,
    ID_1,
    ID_HELLO,
    b"\0\0\0\x01\0\0\0\x0c\0\0\0\0\0\0\0\x0c\0\0\0\x01\0\0\0\x17",
    b"\xa5\xc5\x1d\x80\xd3\xd0\x91\xba\x8a\x5f\x24\xf1\xea\x0f\x8d\xab\xf1\x2c\xfd\x48",
];

const BEFORE_SHA256: &[u8] = b"MIDX\x01\x02\x04\0\0\0\0\x03\
    PNAM\0\0\0\0\0\0\0\x48\
    OIDF\0\0\0\0\0\0\0\x6c\
    OIDL\0\0\0\0\0\0\x04\x6c\
    OOFF\0\0\0\0\0\0\x04\xcc\
    \0\0\0\0\0\0\0\0\0\0\x04\xe4\
    pack-a1.idx\0pack-b1.idx\0pack-c1.idx\0";

// The ids of `hello`, `version 1` and `version 2`, the numbers of packs and the offsets, and the hash.
const BEHIND_SHA256: [&[u8]; 5] = [
    b"\
    \x2c\xf8\xd8\x3d\x9e\xe2\x95\x43\xb3\x4a\x87\x72\x74\x21\xfd\xec\
    \xb7\xe3\xf3\xa1\x83\xd3\x37\x63\x90\x25\xde\x57\x6d\xb9\xeb\xb4",
    b"\
    \x58\xa6\x7e\xd1\xc1\x61\xa4\xe8\x9a\x11\x09\x68\x31\x0f\xe3\x1e\
    \x39\x92\x0e\xf6\x8d\x4c\x7c\x7e\x0d\x66\x95\x79\x75\x33\xf5\x0d",
    b"\
    \xbd\x96\x5f\xae\x20\xeb\x0d\xd1\x36\xc5\xfb\x90\xb7\xc9\x9e\xa1\
    \x86\x3a\xb4\x6b\xb9\xa2\x64\x7b\xe0\x49\xf3\x87\x51\x74\x9e\x61",
    b"\0\0\0\x02\0\0\0\x17\0\0\0\0\0\0\0\x0c\0\0\0\x02\0\0\0\x0c",
    b"\
    \xc5\x2d\xc6\x76\xbb\x07\xd4\x79\xb8\x42\xd2\x43\x21\x2d\xf0\x4b\
    \x2e\x91\x67\x67\x0e\x7a\x47\x76\x33\xf5\xdd\xd5\x11\x34\x71\xa3",
];

fn packs_of(alloc: Global, contents: Packs) -> Result<Vec<NamedPack>, NoMemory> {
    let mut packs = Vec::new(alloc);
    for (name, texts) in contents {
        packs.push(named(alloc, name, texts)?)?;
    }
    Ok(packs)
}

fn named(alloc: Global, name: &str, texts: &[&[u8]]) -> Result<NamedPack, NoMemory> {
    let name = PathName::new(alloc, name)?;
    Ok(NamedPack {
        name,
        objects: Sequence::from_vec(blobs(alloc, texts)?),
    })
}

fn written(alloc: Global, packs: &[NamedPack], kind: Kind) -> Result<ByteList, Fail> {
    if !multi_index::can_be_written(packs) {
        return Err(Fail::new("packs that can't be written"));
    }
    Ok(multi_index::encode(alloc, packs, kind)?)
}

// The parts of what Git made.
fn of_git(
    alloc: Global,
    before: &[u8],
    counts: &[(u16, u8)],
    behind: &[&[u8]],
) -> Result<ByteList, NoMemory> {
    let mut file = ByteList::from_slice(alloc, before)?;
    put_counts(&mut file, counts)?;
    for part in behind {
        file.extend_from_slice(part)?;
    }
    Ok(file)
}

fn check_packs(
    alloc: Global,
    packs: &[NamedPack],
    kind: Kind,
    want: &ByteList,
) -> Result<(), Fail> {
    let found = written(alloc, packs, kind)?;
    compare_bytes("multi-index", &found, want)
}

// The packs numbered in another order, an empty pack left out, names without their padding or with padding that they
// do not need, or chunks in another order.
#[test]
fn writes_multi_indices_as_git_does(rt: HostRuntime) -> Result<(), Fail> {
    let alloc = rt.alloc();
    let counts = &[(31, 0), (100, 1), (75, 2), (50, 3)];
    let want = of_git(alloc, BEFORE_SHA1, counts, &BEHIND_SHA1)?;
    let packs = packs_of(alloc, TWO_PACKS)?;
    check_packs(alloc, packs.as_slice(), Kind::Sha1, &want)
}

// The SHA-256 case of the test above.
#[test]
fn writes_long_multi_indices_as_git_does(rt: HostRuntime) -> Result<(), Fail> {
    let alloc = rt.alloc();
    let counts = &[(44, 0), (44, 1), (101, 2), (67, 3)];
    let want = of_git(alloc, BEFORE_SHA256, counts, &BEHIND_SHA256)?;
    let packs = packs_of(alloc, THREE_PACKS)?;
    check_packs(alloc, packs.as_slice(), Kind::Sha256, &want)
}
