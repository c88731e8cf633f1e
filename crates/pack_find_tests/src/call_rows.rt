//! Rows of calls, each on its own handle, driven by its asks.
use crate::listed_rows::{ONE, TOO_MANY};
use crate::table::{Opening, check};
use std::test::Fail;

// The calls after the first find the index and the pack loaded. A miss asks the loose folder once more after a
// listing, and reads the core to see whether the list is still the newest.
const PACKED: &[&str] = &[
    "call find hello | view; open /o/pack; next; next; next; close; look /o/pack/a.idx; look! /o/pack/a.pack; publish; read /o/pack/a.idx; put-index 0; read /o/pack/a.pack; put-pack 0; found blob 6 hello\n",
    "call find hello | view; found blob 6 hello\n",
    "call header hello | view; header packed blob 6",
    "call has hello | view; present",
    "call find world | view; read /o/cc/628ccd10742baea8241c5924df992b5c019f71; open /o/pack; next; next; next; close; look /o/pack/a.idx; look! /o/pack/a.pack; publish; read /o/cc/628ccd10742baea8241c5924df992b5c019f71; view; not found",
];

const LOOSE: &[&str] = &[
    "call write world | view; open /o/pack; next; close; publish; new /o/tmp_obj_0; append /o/tmp_obj_0; append /o/tmp_obj_0; make /o/cc; rename /o/tmp_obj_0 /o/cc/628ccd10742baea8241c5924df992b5c019f71; wrote cc628ccd10742baea8241c5924df992b5c019f71",
    "call find world | view; read /o/cc/628ccd10742baea8241c5924df992b5c019f71; found blob 6 world\n",
    "call header world | view; read /o/cc/628ccd10742baea8241c5924df992b5c019f71; header loose blob 6",
    "call has world | view; look! /o/cc/628ccd10742baea8241c5924df992b5c019f71; present",
];

// The second call of the disk fails.
const LISTING_FAILS: &[&str] = &[
    "call find hello | view; open /o/pack; next; close; refused: a call of the disk failed, or a folder of packs is none",
    "call write world | view; open /o/pack; next; next; next; close; look /o/pack/a.idx; look! /o/pack/a.pack; publish; new /o/tmp_obj_0; append /o/tmp_obj_0; append /o/tmp_obj_0; make /o/cc; rename /o/tmp_obj_0 /o/cc/628ccd10742baea8241c5924df992b5c019f71; wrote cc628ccd10742baea8241c5924df992b5c019f71",
];

// The first call of the disk fails.
const FOLDER_FAILS: &[&str] = &[
    "call write world | view; open /o/pack; refused: a call of the disk failed, or a folder of packs is none",
];

// The header can't be written.
const HEADER_FAILS: &[&str] = &[
    "call write world | view; open /o/pack; next; close; publish; new /o/tmp_obj_0; append /o/tmp_obj_0; remove /o/tmp_obj_0; refused: could not write header to tempfile in /o",
];

const TOO_MANY_PACKS: &[&str] = &[
    "call find hello | view; open /o/pack; next; next; close; read /o/pack/multi-pack-index; refused: /o/pack/multi-pack-index names 65536 packs, and 65535 are the most",
];

/// The tables, each with the mistakes that it would catch.
const TABLES: &[(Opening, &[&str], &[&str])] = &[
    // A call that reads again what is loaded, ends a miss without a listing or without asking the loose folder after
    // it, or has another reply.
    ((&[], 0), ONE, PACKED),
    // A write that doesn't list the store first, or under whose name another object is found.
    ((&[], 0), &["make /o", "make /o/pack"], LOOSE),
    // A call that takes a failed listing for an empty one.
    ((&[2], 0), ONE, LISTING_FAILS),
    ((&[1], 0), ONE, FOLDER_FAILS),
    // A listing that passes over a multi-pack index of too many packs.
    ((&[], 0), TOO_MANY, TOO_MANY_PACKS),
    // A refused write that leaves its temporary file.
    ((&[4], 0), &["make /o", "make /o/pack"], HEADER_FAILS),
];

#[test]
fn calls(rt: HostRuntime) -> Result<(), Fail> {
    for (opening, disk, rows) in TABLES {
        check(rt.alloc(), *opening, disk, rows)?;
    }
    Ok(())
}
