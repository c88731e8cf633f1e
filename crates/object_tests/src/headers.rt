//! Headers of loose objects, read and written.
use gix_object::{Kind, decode, encode};
use std::alloc::{AllocError, Global};
use std::str;
use std::test::Fail;
use test_words::compare;

// What is read at the front of some bytes: the kind, the size and the length of the header.
fn header_shown(alloc: Global, bytes: &[u8]) -> Result<String, AllocError> {
    match decode::loose_header(bytes) {
        Ok((kind, size, len)) => format!(in alloc; "{kind} {size} {len}"),
        Err(error) => format!(in alloc; "{error:?}"),
    }
}

fn check(alloc: Global, rows: &[(&[u8], &str)]) -> Result<(), Fail> {
    for (bytes, want) in rows {
        let found = header_shown(alloc, bytes)?;
        compare(
            str::from_utf8(bytes).unwrap_or("no text"),
            found.as_str(),
            want,
        )?;
    }
    Ok(())
}

const GOOD: &[(&[u8], &str)] = &[
    (b"blob 0\0", "blob 0 7"),
    (b"tree 3\0abc", "tree 3 7"),
    (b"commit 10\0", "commit 10 10"),
    (b"tag 12\0x", "tag 12 7"),
    (b"blob 1\0\0", "blob 1 7"),
    (b"blob 1\0\n", "blob 1 7"),
    (b"blob 13\0", "blob 13 8"),
    (b"tree 0\0", "tree 0 7"),
    (b"tag 10\0", "tag 10 7"),
    (b"commit 70000\0", "commit 70000 13"),
    (
        b"commit 18446744073709551615\0",
        "commit 18446744073709551615 28",
    ),
    (
        b"blob 18446744073709551615\0",
        "blob 18446744073709551615 26",
    ),
    (
        b"commit 10000000000000000000\0 and data behind it, past the first 64 bytes",
        "commit 10000000000000000000 28",
    ),
];

// A header whose length counts the data, or leaves out the NUL.
#[test]
fn reads_headers(rt: HostRuntime) -> Result<(), Fail> {
    check(rt.alloc(), GOOD)
}

// What lacks a part or the NUL, has a size or a word that is none, and at the end a size past 64 bits, one of 21
// digits, and headers whose NUL is byte 64 and byte 65.
const BAD: &[&[u8]] = &[
    b"",
    b"\0",
    b"blob 13",
    b"blob \0",
    b"blob\0",
    b" 0\0",
    b"0\0",
    b"blob 013\0",
    b"blob 00\0",
    b"blob +1\0",
    b"blob -1\0",
    b"blob  0\0",
    b" blob 0\0",
    b"blob 0 \0",
    b"blob\t0\0",
    b"blobs 0\0",
    b"blo 0\0",
    b"delta 0\0",
    b"Blob 0\0",
    b"blob 0x1\0",
    b"blob \xff\0",
    b"blob 18446744073709551616\0",
    b"commit 100000000000000000000\0",
    b"blob 1111111111111111111111111111111111111111111111111111111111\0",
    b"blob 11111111111111111111111111111111111111111111111111111111111\0",
];

// A reader that is content with less than a header, or with more.
#[test]
fn refuses_what_is_no_header(rt: HostRuntime) -> Result<(), Fail> {
    for bytes in BAD {
        check(rt.alloc(), &[(*bytes, "InvalidHeader")])?;
    }
    Ok(())
}

fn written(alloc: Global, kind: Kind, size: u64) -> Result<String, Fail> {
    let header = encode::loose_header(alloc, kind, size)?;
    Ok(String::from_utf8_lossy(alloc, header.as_slice())?)
}

const WRITTEN: &[(Kind, u64, &str)] = &[
    (Kind::Blob, 13, "blob 13\0"),
    (Kind::Tree, 0, "tree 0\0"),
    (Kind::Tag, 10, "tag 10\0"),
    (Kind::Commit, 70_000, "commit 70000\0"),
    (Kind::Commit, u64::MAX, "commit 18446744073709551615\0"),
];

// An encoder that writes another header than Git's, or none.
#[test]
fn writes_headers(rt: HostRuntime) -> Result<(), Fail> {
    for (kind, size, want) in WRITTEN {
        let found = written(rt.alloc(), *kind, *size)?;
        compare(want, found.as_str(), want)?;
    }
    Ok(())
}

// The kind that a word names, as it is printed and written.
fn kind_shown(alloc: Global, word: &str) -> Result<String, AllocError> {
    let Some(kind) = Kind::from_bytes(word.as_bytes()) else {
        return "none".to_string(alloc);
    };
    let written = str::from_utf8(kind.as_bytes()).unwrap_or("no text");
    format!(in alloc; "{kind:?} {kind} {written}")
}

// A kind that is printed, written or read by another word.
#[test]
fn names_kinds(rt: HostRuntime) -> Result<(), Fail> {
    for (word, want) in [
        ("commit", "Commit commit commit"),
        ("tree", "Tree tree tree"),
        ("blob", "Blob blob blob"),
        ("tag", "Tag tag tag"),
        ("commits", "none"),
    ] {
        let found = kind_shown(rt.alloc(), word)?;
        compare(word, found.as_str(), want)?;
    }
    Ok(())
}
