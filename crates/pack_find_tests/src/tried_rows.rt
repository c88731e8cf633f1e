//! Rows of searches. Each blob is a word of five letters and a line feed.
use crate::listed_rows::ONE;
use crate::table::{Opening, check};
use std::test::Fail;

// A longer index comes before the other.
const TWO: &[&str] = &[
    "make /o",
    "make /o/pack",
    "index /o/pack/a.idx hello",
    "pack /o/pack/a.pack hello",
    "index /o/pack/b.idx hello world",
    "pack /o/pack/b.pack hello world",
];

const AT_ONCE: &[&str] = &[
    "find hello | missed",
    "publish /o | todo 0:/o/pack/a.idx",
    "find hello | read /o/pack/a.idx; put-index 0; read /o/pack/a.pack; put-pack 0; found blob 6 hello\n",
    "find hello | found blob 6 hello\n",
    "find world | missed",
];

// The id is from `git hash-object`.
const BY_AND_BY: &[&str] = &[
    "publish /o | todo 0:/o/pack/a.idx",
    "has hello | read /o/pack/a.idx; put-index 0; present",
    "has hello | present",
    "has world | missed",
    "has ce013625030ba8dba906f756967f9e9ca394464a | present",
    "header hello | read /o/pack/a.pack; put-pack 0; header blob 6",
    "header hello | header blob 6",
    "find hello | found blob 6 hello\n",
];

const LIMITS: &[&str] = &[
    "publish /o | todo 0:/o/pack/a.idx",
    "find world 5 | read /o/pack/a.idx; put-index 0; missed",
    "find hello 5 | read /o/pack/a.pack; put-pack 0; out-of-memory 6",
    "find hello 5 | out-of-memory 6",
    "find hello 6 | found blob 6 hello\n",
    "header hello 5 | header blob 6",
    "has hello 5 | present",
];

const LOADED_FIRST: &[&str] = &[
    "publish /o | todo 0:/o/pack/b.idx 1:/o/pack/a.idx",
    "find world | read /o/pack/b.idx; put-index 0; read /o/pack/b.pack; put-pack 0; found blob 6 world\n",
    "find hello | found blob 6 hello\n",
    "has again | read /o/pack/a.idx; put-index 1; missed",
    "has again | missed",
];

const TWO_FOLDERS: &[&str] = &[
    "make /s",
    "make /s/pack",
    "index /s/pack/b.idx world",
    "pack /s/pack/b.pack world",
    "publish /o /s | todo 0:/o/pack/a.idx 1:/s/pack/b.idx",
    "find world | read /o/pack/a.idx; put-index 0; read /s/pack/b.idx; put-index 1; read /s/pack/b.pack; put-pack 1; found blob 6 world\n",
    "find hello | read /o/pack/a.pack; put-pack 0; found blob 6 hello\n",
];

const NO_PACK: &[&str] = &[
    "publish /o | todo 0:/o/pack/a.idx",
    "take /o/pack/a.pack",
    "find hello | read /o/pack/a.idx; put-index 0; read /o/pack/a.pack; pass-over 0 absent; missed 0:/o/pack/a.pack",
    "has hello | present",
    "header hello | read /o/pack/a.pack; pass-over 0 absent; missed 0:/o/pack/a.pack",
    "make /o/pack/a.pack",
    "find hello | read /o/pack/a.pack; load-pack",
    "take /o/pack/a.pack",
    "link /o/pack/a.pack /o/pack/a.pack",
    "find hello | read /o/pack/a.pack; load-pack",
    "take /o/pack/a.pack",
    "text /o/pack/a.pack PACK",
    "header hello | read /o/pack/a.pack; load-pack",
    "pack /o/pack/a.pack hello",
    "find hello | read /o/pack/a.pack; put-pack 0; found blob 6 hello\n",
];

const ANOTHER_PACK: &[&str] = &[
    "publish /o | todo 0:/o/pack/b.idx 1:/o/pack/a.idx",
    "take /o/pack/b.pack",
    "find hello | read /o/pack/b.idx; put-index 0; read /o/pack/b.pack; pass-over 0 absent; \
    read /o/pack/a.idx; put-index 1; read /o/pack/a.pack; put-pack 1; found blob 6 hello\n",
    "find hello | read /o/pack/b.pack; pass-over 0 absent; found blob 6 hello\n",
    "find world | read /o/pack/b.pack; pass-over 0 absent; missed 0:/o/pack/b.pack",
    "make /o/pack/b.pack",
    "find hello | read /o/pack/b.pack; load-pack",
];

const NO_INDEX: &[&str] = &[
    "publish /o | todo 0:/o/pack/a.idx",
    "take /o/pack/a.idx",
    "find hello | read /o/pack/a.idx; pass-over 0 absent; missed",
    "make /o/pack/a.idx",
    "find hello | read /o/pack/a.idx; pass-over 0 kind; missed",
    "take /o/pack/a.idx",
    "link /o/pack/a.idx /o/pack/a.idx",
    "has hello | read /o/pack/a.idx; pass-over 0 link; missed",
    "take /o/pack/a.idx",
    "zeros /o/pack/a.idx",
    "has hello | read /o/pack/a.idx; pass-over 0 bad; missed",
    "index /o/pack/a.idx hello",
    "has hello | read /o/pack/a.idx; put-index 0; present",
];

const ANOTHER_INDEX: &[&str] = &[
    "zeros /o/pack/b.idx",
    "publish /o | todo 0:/o/pack/b.idx 1:/o/pack/a.idx",
    "find hello | read /o/pack/b.idx; pass-over 0 bad; read /o/pack/a.idx; put-index 1; read /o/pack/a.pack; put-pack 1; found blob 6 hello\n",
    "find hello | found blob 6 hello\n",
    "find world | read /o/pack/b.idx; pass-over 0 bad; missed",
];

// The calls 1 to 6 list the folder.
const READ_OF_THE_INDEX: &[&str] = &[
    "publish /o | todo 0:/o/pack/a.idx",
    "find hello | read /o/pack/a.idx; pass-over 0 failed; missed failed",
    "find hello | read /o/pack/a.idx; put-index 0; read /o/pack/a.pack; put-pack 0; found blob 6 hello\n",
];

const READ_OF_THE_PACK: &[&str] = &[
    "publish /o | todo 0:/o/pack/a.idx",
    "find hello | read /o/pack/a.idx; put-index 0; read /o/pack/a.pack; load-pack",
    "find hello | read /o/pack/a.pack; put-pack 0; found blob 6 hello\n",
];

// The calls 1 to 10 list the folder.
const READ_OF_ONE_OF_TWO: &[&str] = &[
    "publish /o | todo 0:/o/pack/b.idx 1:/o/pack/a.idx",
    "has again | read /o/pack/b.idx; pass-over 0 failed; read /o/pack/a.idx; put-index 1; missed failed",
    "has world | read /o/pack/b.idx; put-index 0; present",
];

const DELTA: &[&str] = &[
    "delta /o/pack/a.pack",
    "publish /o | todo 0:/o/pack/a.idx",
    "find hello | read /o/pack/a.idx; put-index 0; read /o/pack/a.pack; put-pack 0; delta-entry",
    "header hello | delta-entry",
    "has hello | present",
];

const UNKNOWN_TYPE: &[&str] = &[
    "type-5 /o/pack/a.pack",
    "publish /o | todo 0:/o/pack/a.idx",
    "header hello | read /o/pack/a.idx; put-index 0; read /o/pack/a.pack; put-pack 0; entry-type 5",
    "find hello | entry-type 5",
];

const NO_ENTRY: &[&str] = &[
    "bare /o/pack/a.pack",
    "publish /o | todo 0:/o/pack/a.idx",
    "find hello | read /o/pack/a.idx; put-index 0; read /o/pack/a.pack; put-pack 0; pack",
    "header hello | pack",
];

const GREATEST_STATE: &[&str] = &[
    "publish /o | todo 0:/o/pack/a.idx",
    "find hello | read /o/pack/a.idx; put-index 0; generation-overflow",
];

/// The tables, each with the mistakes that it would catch.
const TABLES: &[(Opening, &[&str], &[&str])] = &[
    // A file that is read again, or more files than are needed; a header look-up with a limit.
    ((&[], 0), ONE, AT_ONCE),
    ((&[], 0), ONE, BY_AND_BY),
    ((&[], 0), ONE, LIMITS),
    // An index that is read before the loaded ones are searched, or a pack of another folder.
    ((&[], 0), TWO, LOADED_FIRST),
    ((&[], 0), ONE, TWO_FOLDERS),
    // A pack or an index that is gone or bad, and ends the search; a bad pack that doesn't.
    ((&[], 0), ONE, NO_PACK),
    ((&[], 0), TWO, ANOTHER_PACK),
    ((&[], 0), ONE, NO_INDEX),
    ((&[], 0), TWO, ANOTHER_INDEX),
    // A failed read that isn't reported, or that is remembered for the next search.
    ((&[7], 0), ONE, READ_OF_THE_INDEX),
    ((&[8], 0), ONE, READ_OF_THE_PACK),
    ((&[11], 0), TWO, READ_OF_ONE_OF_TWO),
    // An entry mistaken for another one.
    ((&[], 0), ONE, DELTA),
    ((&[], 0), ONE, UNKNOWN_TYPE),
    ((&[], 0), ONE, NO_ENTRY),
    // A refusal of the core after which the search goes on.
    ((&[], u64::MAX - 1), ONE, GREATEST_STATE),
];

#[test]
fn searches(rt: HostRuntime) -> Result<(), Fail> {
    for (opening, disk, rows) in TABLES {
        check(rt.alloc(), *opening, disk, rows)?;
    }
    Ok(())
}
