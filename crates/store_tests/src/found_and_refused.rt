//! Results of finds, header look-ups and tests of presence, and their errors.
use crate::changes::{check, check_on};
use gix_hash::Kind::{Sha1, Sha256};
use gix_odb_loose::{Options, Store};
use odb_base::PathText;
use odb_mem_disk::MemDisk;
use std::alloc::Global;
use std::test::Fail;

/// Damaged files, other nodes at the object's path or on its way, and none.
const FINDS: [&str; 32] = [
    "hello|none, none, no",
    "make /o|done",
    "hello|none, none, no",
    "put /o/b6 1 blob 5\0hello|done",
    "hello|io, io, no",
    "take /o/b6|done",
    "make /o/b6|done",
    "hello|none, none, no",
    "make /o/b6/fc4c620b67d95f953a5c1c1230aaab5db5a1b0|done",
    "hello|io, io, no",
    "take /o/b6/fc4c620b67d95f953a5c1c1230aaab5db5a1b0|done",
    "hello|none, none, no",
    "file blob 5\0hello|blob hello, blob 5, yes",
    "ask 0000000000000000000000000000000000000000|none, none, no",
    "file tree 0\0|tree , tree 0, yes",
    "file tag 3\0a\0b|tag a\0b, tag 3, yes",
    "file commit 1\0x|commit x, commit 1, yes",
    "file blob 5\0hello!|size, blob 5, yes",
    "file blob 5\0hell|size, blob 5, yes",
    "file blob 18446744073709551615\0x|size, blob 18446744073709551615, yes",
    "file |io, io, yes",
    "file 1111111111111111111111111111111111111111111111111111111111111111111111|decode, decode, yes",
    "file blob 5|decode, decode, yes",
    "file \0|decode, decode, yes",
    "file blob\0|decode, decode, yes",
    "file blob \0|decode, decode, yes",
    "file blob 18446744073709551616\0|decode, decode, yes",
    "file blob 05\0hello|decode, decode, yes",
    "file blob +5\0hello|decode, decode, yes",
    "file blob  5\0hello|decode, decode, yes",
    "file blub 5\0hello|decode, decode, yes",
    "file Blob 5\0hello|decode, decode, yes",
];

const SHA256: [&str; 5] = [
    "make /o|done",
    "make /o/8a|done",
    "put /o/8a/ec4e4876f854f688d0ebfc8f37598f38e5fd6903cccc850ca36591175aeb60 1 blob 5\0hello|done",
    "ask 8aec4e4876f854f688d0ebfc8f37598f38e5fd6903cccc850ca36591175aeb60|blob hello, blob 5, yes",
    "ask 0000000000000000000000000000000000000000000000000000000000000000|none, none, no",
];

// A damaged file that is accepted, or is refused by another error than its own; a header that isn't returned because
// of the data after it; data appended to what `out` held; a directory found as an object, a blocked way as absent; an
// object of SHA-256 that isn't found at its path, or is found by another id.
#[test]
fn finds(rt: HostRuntime) -> Result<(), Fail> {
    check(rt.alloc(), Sha1, None, &[], &FINDS)?;
    check(rt.alloc(), Sha256, None, &[], &SHA256)
}

/// What a find leaves in its buffer: the data, or nothing. The second file has more data than its header says.
const LEFT: [&str; 11] = [
    "make /o|done",
    "left b6fc4c620b67d95f953a5c1c1230aaab5db5a1b0|",
    "into b6fc4c620b67d95f953a5c1c1230aaab5db5a1b0|",
    "write blob hello|b6fc4c620b67d95f953a5c1c1230aaab5db5a1b0",
    "left b6fc4c620b67d95f953a5c1c1230aaab5db5a1b0|hello",
    "into b6fc4c620b67d95f953a5c1c1230aaab5db5a1b0|blob hello",
    "take /o/b6/fc4c620b67d95f953a5c1c1230aaab5db5a1b0|done",
    "put /o/b6/fc4c620b67d95f953a5c1c1230aaab5db5a1b0 1 blob 4\0hello|done",
    "left b6fc4c620b67d95f953a5c1c1230aaab5db5a1b0|",
    "into b6fc4c620b67d95f953a5c1c1230aaab5db5a1b0|",
    "hello|size, blob 4, yes",
];

fn check_left(alloc: Global, store: &Store) -> Result<(), Fail> {
    let mut disk = MemDisk::new(alloc)?;
    check_on(alloc, store, &mut disk, &LEFT)
}

// The bytes that were in the buffer before, or data that weren't found. The store has no limit.
#[test]
fn lent_bytes(rt: HostRuntime) -> Result<(), Fail> {
    let path = PathText::parse(rt.alloc(), "/o")?;
    let store = Store::at(rt.alloc(), &path, Sha1)?;
    check_left(rt.alloc(), &store)
}

// The default options with a limit.
#[test]
fn no_limit(rt: HostRuntime) -> Result<(), Fail> {
    let path = PathText::parse(rt.alloc(), "/o")?;
    let store = Store::at_opts(rt.alloc(), &path, Sha1, Options::default())?;
    check_left(rt.alloc(), &store)
}

// A limit that is off by one, that isn't tested first, or that applies to a header look-up.
#[test]
fn limits(rt: HostRuntime) -> Result<(), Fail> {
    for (limit, row) in [
        (5, "file blob 5\0hello|blob hello, blob 5, yes"),
        (4, "file blob 5\0hello|limit, blob 5, yes"),
        (0, "file blob 0\0|blob , blob 0, yes"),
        (5, "file blob 5\0hello!|size, blob 5, yes"),
        (4, "file blob 5\0hello!|limit, blob 5, yes"),
        (4, "file blob 4\0hello|size, blob 4, yes"),
        (0, "file |io, io, yes"),
        (0, "file blob|decode, decode, yes"),
    ] {
        let rows = ["make /o|done", "make /o/b6|done", row];
        check(rt.alloc(), Sha1, Some(limit), &[], &rows)?;
    }
    Ok(())
}

// A failed call answered as a no, or an answer that changes after one.
#[test]
fn faults(rt: HostRuntime) -> Result<(), Fail> {
    for (failing, first, second) in [
        (
            [1, 4],
            "file blob 5\0hello|io, blob 5, yes",
            "hello|io, blob 5, yes",
        ),
        (
            [2, 5],
            "file blob 5\0hello|blob hello, io, yes",
            "hello|blob hello, io, yes",
        ),
        (
            [3, 6],
            "file blob 5\0hello|blob hello, blob 5, io",
            "hello|blob hello, blob 5, io",
        ),
    ] {
        let last = "hello|blob hello, blob 5, yes";
        let rows = [
            "make /o|done",
            "make /o/b6|done",
            first,
            second,
            last,
            "calls|9",
        ];
        check(rt.alloc(), Sha1, None, &failing, &rows)?;
    }
    Ok(())
}
