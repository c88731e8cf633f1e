//! The effects and results of writes: Git's ids, pieces, sources that fail, and failing calls of the disk.
use crate::changes::check;
use gix_hash::Kind::{Sha1, Sha256};
use std::test::Fail;

/// Git's example of a blob, and the blob `hello` by each call, under its own id and as a known one.
const WRITES: [&str; 21] = [
    "make /o|done",
    "machine 5 other|b6fc4c620b67d95f953a5c1c1230aaab5db5a1b0",
    "hello|blob other, blob 5, yes",
    "write blob hello\n|ce013625030ba8dba906f756967f9e9ca394464a",
    "ask ce013625030ba8dba906f756967f9e9ca394464a|blob hello\n, blob 6, yes",
    "object blob hello|b6fc4c620b67d95f953a5c1c1230aaab5db5a1b0",
    "hello|blob hello, blob 5, yes",
    "read /o/b6/fc4c620b67d95f953a5c1c1230aaab5db5a1b0|blob 5\0hello",
    "read /o/tmp_obj_0|Absent",
    "write blob hello|b6fc4c620b67d95f953a5c1c1230aaab5db5a1b0",
    "stream 5 0 hello|b6fc4c620b67d95f953a5c1c1230aaab5db5a1b0",
    "hello|blob hello, blob 5, yes",
    "as tag other|b6fc4c620b67d95f953a5c1c1230aaab5db5a1b0",
    "hello|tag other, tag 5, yes",
    "as tree |b6fc4c620b67d95f953a5c1c1230aaab5db5a1b0",
    "hello|tree , tree 0, yes",
    "streamas 5 0 other|b6fc4c620b67d95f953a5c1c1230aaab5db5a1b0",
    "hello|blob other, blob 5, yes",
    "streamas 6 0 hello|size 5",
    "hello|blob other, blob 5, yes",
    "read /o/tmp_obj_0|Absent",
];

/// After this many bytes there were this many more calls: one for each piece and four, and one for the find.
const PIECES: [&str; 16] = [
    "make /o|done",
    "as blob 0|b6fc4c620b67d95f953a5c1c1230aaab5db5a1b0",
    "calls|4",
    "find b6fc4c620b67d95f953a5c1c1230aaab5db5a1b0|blob ",
    "as blob a|b6fc4c620b67d95f953a5c1c1230aaab5db5a1b0",
    "calls|10",
    "find b6fc4c620b67d95f953a5c1c1230aaab5db5a1b0|blob a",
    "as blob 65536|b6fc4c620b67d95f953a5c1c1230aaab5db5a1b0",
    "calls|16",
    "find b6fc4c620b67d95f953a5c1c1230aaab5db5a1b0|blob 65536",
    "as blob 65537|b6fc4c620b67d95f953a5c1c1230aaab5db5a1b0",
    "calls|23",
    "find b6fc4c620b67d95f953a5c1c1230aaab5db5a1b0|blob 65537",
    "as blob 200000|b6fc4c620b67d95f953a5c1c1230aaab5db5a1b0",
    "calls|32",
    "find b6fc4c620b67d95f953a5c1c1230aaab5db5a1b0|blob 200000",
];

const STREAMS: [&str; 13] = [
    "make /o|done",
    "stream 0 0 |e69de29bb2d1d6434b8b29ae775ad8c2e48c5391",
    "read /o/tmp_obj_0|Absent",
    "stream 6 0 hello|size 5",
    "read /o/tmp_obj_0|Absent",
    "stream 4 0 hello|size 5",
    "read /o/tmp_obj_0|Absent",
    "stream 5 1 hello|io",
    "read /o/tmp_obj_0|Absent",
    "stream 70000 9 70000|io",
    "read /o/tmp_obj_0|Absent",
    "hello|none, none, no",
    "ask a4468a72cf236519af2d10907beb2b1877bfc244|none, none, no",
];

const BLOCKED: [&str; 13] = [
    "write blob hello|io",
    "read /o|Absent",
    "put /o 1 other|done",
    "write blob hello|io",
    "read /o|other",
    "take /o|done",
    "make /o|done",
    "put /o/b6 1 other|done",
    "write blob hello|persist",
    "take /o/b6|done",
    "make /o/b6|done",
    "make /o/b6/fc4c620b67d95f953a5c1c1230aaab5db5a1b0|done",
    "write blob hello|persist",
];

// These ids are from Git 2.39.5, by `git hash-object --literally -t KIND --stdin`: of nothing, of `hello` and a line
// feed, and of 70,000 bytes `a`.
const IDS: [&str; 13] = [
    "make /o|done",
    "write commit |dcf5b16e76cce7425d0beaef62d79a7d10fce1f5",
    "write commit hello\n|656d88de433ec9f9c5d4ed9b2c643844127a0fb4",
    "write commit 70000|d3ba4ff38491724dcc06ae5832f3e1924ac59eab",
    "write tree |4b825dc642cb6eb9a060e54bf8d69288fbee4904",
    "write tree hello\n|149e5b19a5281f340f976d2ba38d4f02d8a6e967",
    "write tree 70000|72d99c3ac98c3db55aa13ef5cd42626ce0496699",
    "write blob |e69de29bb2d1d6434b8b29ae775ad8c2e48c5391",
    "write blob hello\n|ce013625030ba8dba906f756967f9e9ca394464a",
    "stream 70000 0 70000|a4468a72cf236519af2d10907beb2b1877bfc244",
    "object tag |d994c6bb648123a17e8f70a966857c546b2a6f94",
    "write tag hello\n|57f49ce8d3d3f00202b6d7e56edbb69bc94b7aa8",
    "object tag 70000|b8cdcae309f3ca53e6ad77acb3c61bc33147d9ab",
];

// The ids of these in a repository made by `git init --object-format=sha256`.
const LONG_IDS: [&str; 13] = [
    "make /o|done",
    "write commit |9f2a7f3b00f22334f6adc2721fb1f89cd969f02264d37cf6a2c32ba09beb6822",
    "write commit hello\n|0dc599b3b0ab7db2ef28ab7bcd9a37ac991827a78d0d53a1ae438f3731f374d7",
    "write commit 70000|a7e291bd67dd0e7fe8a9dd479c70db7c7de83d259a221d97d01c84e234f8251a",
    "write tree |6ef19b41225c5369f1c104d45d8d85efa9b057b53b14b4b9b939dd74decc5321",
    "write tree hello\n|ae1e4b5e47ccab8d4387bf290e90c0d2d633e15d9a929cb082d628942ddcaa51",
    "write tree 70000|e87914195e11f09fd5687212910d23a203c14403b754eb25c8613f05cbe78045",
    "write blob |473a0f4c3be8a93681a267e3b1e9a7dcda1185436fe141f7749120a303721813",
    "write blob hello\n|2cf8d83d9ee29543b34a87727421fdecb7e3f3a183d337639025de576db9ebb4",
    "stream 70000 0 70000|52215a03cfffe1009159eb9f4b440d5b469e224737d258cdf4d3c36f97840679",
    "object tag |6e7ed4b07c5862439af3921bf57e6533151bf440e1297a331c8124ac15cdd16a",
    "write tag hello\n|c554f36acda28e3357190737ffedd6673c915f9a9baf0d10d052c7a9bd4ef5dc",
    "object tag 70000|0f8f927495694e51d75426181127216d0117a4ad6af2608afd51866f0df1aebe",
];

// An object that isn't found under the id that Git gives it, or under its known one; more or fewer calls of the disk
// than are stated, or bytes that are lost between pieces; a source with fewer or more bytes than expected, or that
// fails, and is taken for a good one; a way that is blocked and gives another error than its own; a temporary file
// that stays.
#[test]
fn writes(rt: HostRuntime) -> Result<(), Fail> {
    for rows in [
        WRITES.as_slice(),
        PIECES.as_slice(),
        STREAMS.as_slice(),
        BLOCKED.as_slice(),
        IDS.as_slice(),
    ] {
        check(rt.alloc(), Sha1, None, &[], rows)?;
    }
    check(rt.alloc(), Sha256, None, &[], &LONG_IDS)
}

// A call whose failure gives another error, or leaves a file.
#[test]
fn faults(rt: HostRuntime) -> Result<(), Fail> {
    for (failing, write, left) in [
        ([1, 0], "write blob hello|io", "read /o/tmp_obj_0|Absent"),
        ([2, 0], "write blob hello|io", "read /o/tmp_obj_0|Absent"),
        ([3, 0], "write blob hello|io", "read /o/tmp_obj_0|Absent"),
        ([4, 0], "write blob hello|raw", "read /o/tmp_obj_0|Absent"),
        (
            [5, 0],
            "write blob hello|persist",
            "read /o/tmp_obj_0|Absent",
        ),
        (
            [5, 6],
            "write blob hello|persist",
            "read /o/tmp_obj_0|blob 5\0hello",
        ),
    ] {
        let rows = ["make /o|done", write, left, "hello|none, none, no"];
        check(rt.alloc(), Sha1, None, &failing, &rows)?;
    }
    Ok(())
}

/// The names are taken one after another, and each write finds the first free one; the last finds none.
const NAMES: [&str; 39] = [
    "make /o|done",
    "write blob hello|b6fc4c620b67d95f953a5c1c1230aaab5db5a1b0",
    "put /o/tmp_obj_0 1 other|done",
    "write blob hello|b6fc4c620b67d95f953a5c1c1230aaab5db5a1b0",
    "put /o/tmp_obj_1 1 other|done",
    "write blob hello|b6fc4c620b67d95f953a5c1c1230aaab5db5a1b0",
    "put /o/tmp_obj_2 1 other|done",
    "write blob hello|b6fc4c620b67d95f953a5c1c1230aaab5db5a1b0",
    "put /o/tmp_obj_3 1 other|done",
    "write blob hello|b6fc4c620b67d95f953a5c1c1230aaab5db5a1b0",
    "put /o/tmp_obj_4 1 other|done",
    "write blob hello|b6fc4c620b67d95f953a5c1c1230aaab5db5a1b0",
    "put /o/tmp_obj_5 1 other|done",
    "write blob hello|b6fc4c620b67d95f953a5c1c1230aaab5db5a1b0",
    "put /o/tmp_obj_6 1 other|done",
    "write blob hello|b6fc4c620b67d95f953a5c1c1230aaab5db5a1b0",
    "put /o/tmp_obj_7 1 other|done",
    "write blob hello|b6fc4c620b67d95f953a5c1c1230aaab5db5a1b0",
    "put /o/tmp_obj_8 1 other|done",
    "write blob hello|b6fc4c620b67d95f953a5c1c1230aaab5db5a1b0",
    "put /o/tmp_obj_9 1 other|done",
    "write blob hello|b6fc4c620b67d95f953a5c1c1230aaab5db5a1b0",
    "put /o/tmp_obj_10 1 other|done",
    "write blob hello|b6fc4c620b67d95f953a5c1c1230aaab5db5a1b0",
    "put /o/tmp_obj_11 1 other|done",
    "write blob hello|b6fc4c620b67d95f953a5c1c1230aaab5db5a1b0",
    "put /o/tmp_obj_12 1 other|done",
    "write blob hello|b6fc4c620b67d95f953a5c1c1230aaab5db5a1b0",
    "put /o/tmp_obj_13 1 other|done",
    "write blob hello|b6fc4c620b67d95f953a5c1c1230aaab5db5a1b0",
    "put /o/tmp_obj_14 1 other|done",
    "write blob hello|b6fc4c620b67d95f953a5c1c1230aaab5db5a1b0",
    "put /o/tmp_obj_15 1 other|done",
    "calls|200",
    "write tree |io",
    "calls|216",
    "read /o/4b|Absent",
    "read /o/tmp_obj_16|Absent",
    "read /o/tmp_obj_0|other",
];

// A temporary name that is used though it is there, or a seventeenth that is tried.
#[test]
fn temporary_names(rt: HostRuntime) -> Result<(), Fail> {
    check(rt.alloc(), Sha1, None, &[], &NAMES)
}
