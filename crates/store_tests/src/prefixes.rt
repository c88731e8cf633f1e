//! Look-ups of prefixes: damaged folders, names that are no ids, links, failing calls, and many objects.
use crate::calls::store_at;
use crate::changes::{check, check_on};
use gix_hash::Kind::{Sha1, Sha256};
use gix_odb_loose::Store;
use odb_base::{ByteList, PathText};
use odb_mem_disk::{Change, MemDisk};
use std::alloc::Global;
use std::test::Fail;

/// The blob `hello` with a line feed, and the empty blob, whose ids are Git's.
const FOUND: [&str; 15] = [
    "prefix ce01|none",
    "make /o|done",
    "prefix ce01|none",
    "make /o/ce|done",
    "prefix ce01|none",
    "put /o/ce/013625030ba8dba906f756967f9e9ca394464a 1 blob 6\0hello\n|done",
    "prefix ce01|ce013625030ba8dba906f756967f9e9ca394464a",
    "search ce01|ce013625030ba8dba906f756967f9e9ca394464a, 1",
    "prefix ce02|none",
    "prefix ce013625030ba8dba906f756967f9e9ca394464a|ce013625030ba8dba906f756967f9e9ca394464a",
    "prefix ce013625030ba8dba906f756967f9e9ca394464b|none",
    "prefix e69d|none",
    "gather ce01|ce013625030ba8dba906f756967f9e9ca394464a, 2",
    "gather e69d|none, 1",
    "streams|0",
];

/// Two files that begin so: one of the two is answered, or the wrong one is left out of the candidates.
const AMBIGUOUS: [&str; 15] = [
    "make /o|done",
    "make /o/e6|done",
    "put /o/e6/9de29bb2d1d6434b8b29ae775ad8c2e48c5391 1 blob 0\0|done",
    "prefix e69d|e69de29bb2d1d6434b8b29ae775ad8c2e48c5391",
    "put /o/e6/9d000000000000000000000000000000000000 0 |done",
    "prefix e69d|ambiguous",
    "gather e69d|ambiguous, 3",
    "search e69d|ambiguous, 2",
    "lookup e69d|ambiguous, 2",
    "prefix e69e|none",
    "prefix e69d0|e69d000000000000000000000000000000000000",
    "prefix e69de|e69de29bb2d1d6434b8b29ae775ad8c2e48c5391",
    "gather e69de|e69de29bb2d1d6434b8b29ae775ad8c2e48c5391, 2",
    "twice e69d 9de29bb2d1d6434b8b29ae775ad8c2e48c5391|e69de29bb2d1d6434b8b29ae775ad8c2e48c5391, 1",
    "streams|0",
];

/// Names that are no ids, and other nodes under the names of ids.
const NAMES: [&str; 24] = [
    "make /o|done",
    "make /o/e6|done",
    "put /o/e6/9d 1 a|done",
    "put /o/e6/9de29bb2d1d6434b8b29ae775ad8c2e48c539 1 a|done",
    "put /o/e6/9de29bb2d1d6434b8b29ae775ad8c2e48c53911 1 a|done",
    "put /o/e6/9DE29BB2D1D6434B8B29AE775AD8C2E48C5391 1 a|done",
    "put /o/e6/9de29bb2d1d6434b8b29ae775ad8c2e48c539g 1 a|done",
    "put /o/e6/9d.29bb2d1d6434b8b29ae775ad8c2e48c5391 1 a|done",
    "put /o/e6/9de29bb2d1d6434b8b29ae775ad8c2e48c53é 1 a|done",
    "prefix e69d|none",
    "make /o/e6/9d000000000000000000000000000000000000|done",
    "prefix e69d|none",
    "link /o/e6/9d111111111111111111111111111111111111 /o/e6/9d000000000000000000000000000000000000|done",
    "link /o/e6/9d222222222222222222222222222222222222 /o/e6/9d222222222222222222222222222222222222|done",
    "link /o/e6/9d333333333333333333333333333333333333 /o/none|done",
    "link /o/e6/9d444444444444444444444444444444444444 /o/e6/9d/below|done",
    "prefix e69d|none",
    "gather e69d|none, 1",
    "link /o/e6/9d555555555555555555555555555555555555 /o/e6/9d|done",
    "prefix e69d|e69d555555555555555555555555555555555555",
    "put /o/e6/9d666666666666666666666666666666666666 1 a|done",
    "prefix e69d|ambiguous",
    "gather e69d|ambiguous, 3",
    "streams|0",
];

/// Two files, and then a link that needn't be followed, unless all candidates are gathered.
const ENOUGH: [&str; 9] = [
    "make /o|done",
    "make /o/e6|done",
    "put /o/e6/9d000000000000000000000000000000000000 1 a|done",
    "put /o/e6/9de29bb2d1d6434b8b29ae775ad8c2e48c5391 1 a|done",
    "link /o/e6/9df00000000000000000000000000000000000 /o/none|done",
    "prefix e69d|ambiguous",
    "calls|6",
    "gather e69d|ambiguous, 3",
    "calls|13",
];

/// A directory that is a file, a link, or a link loop.
const FOLDERS: [&str; 20] = [
    "make /o|done",
    "put /o/e6 1 a|done",
    "prefix e69d|none",
    "gather e69d|none, 1",
    "take /o/e6|done",
    "link /o/e6 /o/e6|done",
    "prefix e69d|IO error for operation on /o/e6: LinkLoop",
    "gather e69d|IO error for operation on /o/e6: LinkLoop, 1",
    "search e69d|IO error for operation on /o/e6: LinkLoop, 0",
    "take /o/e6|done",
    "link /o/e6 /x|done",
    "prefix e69d|none",
    "put /x 1 a|done",
    "prefix e69d|none",
    "take /x|done",
    "make /x|done",
    "prefix e69d|none",
    "put /x/9de29bb2d1d6434b8b29ae775ad8c2e48c5391 1 a|done",
    "prefix e69d|e69de29bb2d1d6434b8b29ae775ad8c2e48c5391",
    "streams|0",
];

const WAY: [&str; 5] = [
    "put /o 1 a|done",
    "prefix e69d|IO error for operation on /o/e6: WrongKind",
    "take /o|done",
    "link /o /o|done",
    "prefix e69d|IO error for operation on /o/e6: LinkLoop",
];

const SHA256: [&str; 7] = [
    "make /o|done",
    "make /o/8a|done",
    "put /o/8a/ec4e4876f854f688d0ebfc8f37598f38e5fd6903cccc850ca36591175aeb60 1 blob 5\0hello|done",
    "put /o/8a/ec4e4876f854f688d0ebfc8f37598f38e5fd69 1 a|done",
    "prefix 8aec4e4876f854f688d0ebfc8f37598f38e5fd6903|8aec4e4876f854f688d0ebfc8f37598f38e5fd6903cccc850ca36591175aeb60",
    "prefix 8aec4e4876f854f688d0ebfc8f37598f38e5fd6904|none",
    "streams|0",
];

// A name of another length or in upper case that is found; a directory, or a link that leads to none, that is found; a
// link to a file that isn't; an error where there is nothing, or none where the way is blocked.
#[test]
fn prefixes(rt: HostRuntime) -> Result<(), Fail> {
    check(rt.alloc(), Sha1, None, &[], &FOUND)?;
    check(rt.alloc(), Sha1, None, &[], &AMBIGUOUS)?;
    check(rt.alloc(), Sha1, None, &[], &ENOUGH)?;
    check(rt.alloc(), Sha1, None, &[], &NAMES)
}

#[test]
fn folders_of_prefixes(rt: HostRuntime) -> Result<(), Fail> {
    check(rt.alloc(), Sha1, None, &[], &FOLDERS)?;
    check(rt.alloc(), Sha1, None, &[], &WAY)?;
    check(rt.alloc(), Sha256, None, &[], &SHA256)
}

/// A file and a link to it, which is the first in the order of the stream.
const LINKED: [&str; 4] = [
    "make /o|done",
    "make /o/e6|done",
    "put /o/e6/9de29bb2d1d6434b8b29ae775ad8c2e48c5391 1 a|done",
    "link /o/e6/9d555555555555555555555555555555555555 /o/e6/9de29bb2d1d6434b8b29ae775ad8c2e48c5391|done",
];

/// Another file, which comes last.
const THREE: [&str; 1] = ["put /o/e6/9df00000000000000000000000000000000000 1 a|done"];

fn check_failing(alloc: Global, failing: u64, more: &[&str], rows: &[&str]) -> Result<(), Fail> {
    let store = store_at(alloc, "/o", Sha1, None)?;
    let mut disk = MemDisk::with_faults(alloc, &[failing])?;
    check_on(alloc, &store, &mut disk, &LINKED)?;
    check_on(alloc, &store, &mut disk, more)?;
    check_on(alloc, &store, &mut disk, rows)
}

// A stream left open after a failed call, or candidates kept after an error.
#[test]
fn failing_calls(rt: HostRuntime) -> Result<(), Fail> {
    for (failing, want) in [
        (1, "gather e69d|IO error for operation on /o/e6: Failed, 1"),
        (2, "gather e69d|IO error for operation on /o/e6: Failed, 1"),
        (3, "gather e69d|IO error for operation on /o/e6: Failed, 1"),
        (4, "gather e69d|IO error for operation on /o/e6: Failed, 1"),
        (5, "gather e69d|IO error for operation on /o/e6: Failed, 1"),
        (
            6,
            "gather e69d|IO error for operation on /o/e6/9d555555555555555555555555555555555555: Failed, 1",
        ),
        (90, "gather e69d|ambiguous, 3"),
    ] {
        let rows = [want, "streams|0", "prefix e69d|ambiguous"];
        check_failing(rt.alloc(), failing, &[], &rows)?;
    }
    Ok(())
}

// A look-up that ends before the end of the stream, or that follows links only after all files.
#[test]
fn failing_calls_where_two_are_enough(rt: HostRuntime) -> Result<(), Fail> {
    for (failing, want) in [
        (5, "prefix e69d|IO error for operation on /o/e6: Failed"),
        (6, "prefix e69d|IO error for operation on /o/e6: Failed"),
        (
            7,
            "prefix e69d|IO error for operation on /o/e6/9d555555555555555555555555555555555555: Failed",
        ),
        (90, "prefix e69d|ambiguous"),
    ] {
        let rows = [want, "streams|0"];
        check_failing(rt.alloc(), failing, &THREE, &rows)?;
    }
    Ok(())
}

/// The path of the object with this number in the directory `e6`.
fn numbered(alloc: Global, number: u32) -> Result<PathText, Fail> {
    let path = format!(in alloc; "/o/e6/9d{number:036}")?;
    Ok(PathText::parse(alloc, path.as_str())?)
}

fn put_numbered(alloc: Global, disk: &mut MemDisk, number: u32) -> Result<(), Fail> {
    let path = numbered(alloc, number)?;
    let bytes = ByteList::new(alloc);
    disk.change(
        alloc,
        &Change::PutFile {
            path,
            time: 0,
            bytes,
        },
    )?;
    Ok(())
}

fn check_many(alloc: Global, store: &Store, disk: &mut MemDisk) -> Result<(), Fail> {
    check_on(alloc, store, disk, &["make /o|done", "make /o/e6|done"])?;
    for number in 0..10_000 {
        put_numbered(alloc, disk, number)?;
    }
    let rows = [
        "prefix e69d|ambiguous",
        "calls|10003",
        "gather e69d|ambiguous, 10001",
        "calls|20006",
        "streams|0",
    ];
    check_on(alloc, store, disk, &rows)
}

// A directory of ten thousand candidates, whose stream is read to its end also where two are enough.
#[test]
fn many_candidates(rt: HostRuntime) -> Result<(), Fail> {
    let path = PathText::parse(rt.alloc(), "/o")?;
    let store = Store::at(rt.alloc(), &path, Sha1)?;
    let mut disk = MemDisk::new(rt.alloc())?;
    check_many(rt.alloc(), &store, &mut disk)
}
