//! Rows of openings, each driven by its asks.
use crate::listed_rows::{ONE, TOO_MANY};
use crate::table::{Opening, check};
use std::test::Fail;

// There is one index; three slots for it are three hundred percent.
const OPENINGS: &[&str] = &[
    "opening /o | look! /o; open /o/pack; next; next; next; close; look /o/pack/a.idx; look! /o/pack/a.pack; register 32; opened 32",
    "opening /o 300 1 | look! /o; open /o/pack; next; next; next; close; look /o/pack/a.idx; look! /o/pack/a.pack; register 3; opened 3",
    "opening /absent | look! /absent; refused: the objects directory is not a directory",
];

const TOO_MANY_PACKS: &[&str] = &[
    "opening /o | look! /o; open /o/pack; next; next; close; read /o/pack/multi-pack-index; refused: /o/pack/multi-pack-index names 65536 packs, and 65535 are the most",
];

/// The tables, each with the mistakes that it would catch.
const TABLES: &[(Opening, &[&str], &[&str])] = &[
    // An opening that counts other slots than the indices, or is done before its handle is registered.
    ((&[], 0), ONE, OPENINGS),
    // One that counts a multi-pack index that no store uses, or reports another error.
    ((&[], 0), TOO_MANY, TOO_MANY_PACKS),
];

#[test]
fn openings(rt: HostRuntime) -> Result<(), Fail> {
    for (opening, disk, rows) in TABLES {
        check(rt.alloc(), *opening, disk, rows)?;
    }
    Ok(())
}
