//! Worked rows on a core.
use crate::model::Opening;
use crate::reports::REPORTS;
use crate::table::{check, check_core, core_of};
use std::test::Fail;
use test_words::wide_halves;

const ONE_SLOT: &[&str] = &[
    "slot /a.idx | none",
    "publish 0 0 /a.idx | published #1 1 0.1 [] [] [0:/a.idx]",
    "slot /a.idx | 0",
    "slot /b.idx | none",
    "publish 0 0 /a.idx | outdated 1",
    "publish 0 0 /a.idx /b.idx /c.idx | outdated 1",
    "publish 0 1 /b.idx | published #4 2 1.2 [] [] [0:/b.idx]",
    "look 0 | seen #5 2 1.2 [] [] [0:/b.idx]",
    "publish 0 2 /a.idx /b.idx | insufficient 1 1",
    "look 0 | seen #7 2 1.2 [] [] [0:/b.idx]",
];

const ONE_SLOT_AND_A_STABLE_HANDLE: &[&str] = &[
    "look 0 | seen #1 0 0.0 unread [] [] []",
    "register 0 stable | seen #2 0 0.0 unread [] [] []",
    "publish 0 0 /a.idx | published #3 1 0.1 [] [] [0:/a.idx]",
    "publish 0 1 /b.idx | insufficient 1 1",
    "look 0 | seen #5 1 0.1 [] [] [0:/a.idx]",
    "publish 0 1 /b.idx /c.idx | insufficient 1 2",
    "now | #6 1 0.1 [] [] [0:/a.idx] 1 1 0 1 0 1 0 0 0 1",
    "remove 0 | removed",
    "publish 0 1 /b.idx | published #8 2 1.2 [] [] [0:/b.idx]",
];

// The generation rises if a slot is taken over, and not if an empty one is taken.
const GREATEST_GENERATION: &[&str] = &[
    "publish 0 0 /a.idx | published #1 1 4294967295.1 [] [] [0:/a.idx]",
    "publish 0 1 /b.idx | overflow",
    "look 0 | seen #3 1 4294967295.1 [] [] [0:/a.idx]",
    "publish 0 1 /a.idx | unchanged #4 1 4294967295.1 [] [] [0:/a.idx]",
    "register 0 stable | seen #5 1 4294967295.1 [] [] [0:/a.idx]",
    "publish 0 1 /b.idx | insufficient 1 1",
    "remove 0 | removed",
    "publish 0 1 | published #8 2 4294967295.2 [] [] []",
    "publish 0 2 /b.idx | published #9 3 4294967295.3 [] [] [0:/b.idx]",
];

const GREATEST_STATE: &[&str] = &[
    "publish 0 0 /a.idx /b.idx | published #1 1 0.18446744073709551615 [] [] [0:/a.idx, 1:/b.idx]",
    "index 0 0 /a.idx 1 | overflow",
    "pack 0 0 /a.pack 1 | overflow",
    "pass 0 1 /b.idx absent | seen #4 1 0.18446744073709551615 [] [] [0:/a.idx, 1:/b.idx]",
    "index 0 1 /c.idx 1 | left #5 1 0.18446744073709551615 [] [] [0:/a.idx, 1:/b.idx]",
    "publish 0 1 /a.idx | overflow",
    "publish 0 1 /b.idx /a.idx | overflow",
    "publish 0 1 /a.idx /c.idx | overflow",
    "publish 0 0 /a.idx | outdated 1",
    "now | #9 1 0.18446744073709551615 [] [] [0:/a.idx, 1:/b.idx] 0 1 0 2 0 2 0 1 0 1",
    "publish 0 1 /a.idx /b.idx | unchanged #10 1 0.18446744073709551615 [] [] [0:/a.idx, 1:/b.idx]",
    "now | #10 1 0.18446744073709551615 [] [] [0:/a.idx, 1:/b.idx] 0 2 0 2 0 2 0 0 0 1",
];

const GARBAGE: &[&str] = &[
    "register 0 stable | seen #1 0 0.0 unread [] [] []",
    "publish 0 0 /a.idx | published #2 1 0.1 [] [] [0:/a.idx]",
    "index 0 0 /a.idx 2 | stored #3 1 0.2 [0:/a.idx=2 /a.pack-] [] []",
    "pack 0 0 /a.pack 2 | stored #4 1 0.3 [0:/a.idx=2 /a.pack=2] [] []",
    "publish 0 1 /b.idx | published #5 2 0.4 [] [0:/a.idx=2 /a.pack~2] [1:/b.idx]",
    "pack 0 0 /a.pack 1 | left #6 2 0.4 [] [0:/a.idx=2 /a.pack~2] [1:/b.idx]",
    "index 0 0 /a.idx 1 | left #7 2 0.4 [] [0:/a.idx=2 /a.pack~2] [1:/b.idx]",
    "pass 0 0 /a.pack bad | seen #8 2 0.4 [] [0:/a.idx=2 /a.pack~2] [1:/b.idx]",
    "publish 0 2 /b.idx /a.idx | published #9 3 0.5 [0:/a.idx=2 /a.pack=2] [] [1:/b.idx]",
    "publish 0 3 /b.idx | published #10 4 0.6 [] [0:/a.idx=2 /a.pack~2] [1:/b.idx]",
    "publish 0 4 /b.idx | unchanged #11 4 0.6 [] [0:/a.idx=2 /a.pack~2] [1:/b.idx]",
    "remove 0 | removed",
    "look 1 | seen #13 4 0.6 [] [0:/a.idx=2 /a.pack~2] [1:/b.idx]",
    "publish 1 4 /b.idx | unchanged #14 4 0.6 [] [] [1:/b.idx]",
    "now | #14 4 0.6 [] [] [1:/b.idx] 0 6 0 1 0 1 2 0 0 1",
];

// The slot of an unread index is kept while a handle is stable, its pack may still be put, and it isn't shown.
const UNREAD_AND_NOT_LISTED: &[&str] = &[
    "register 0 | seen #1 0 0.0 unread [] [] []",
    "publish 0 0 /a.idx | published #2 1 0.1 [] [] [0:/a.idx]",
    "upgrade 0 | seen #3 1 0.1 [] [] [0:/a.idx]",
    "publish 0 1 | published #4 2 0.2 [] [] []",
    "pack 0 0 /a.pack 3 | stored #5 2 0.3 [] [] []",
    "index 0 0 /a.idx 1 | stored #6 2 0.4 [] [0:/a.idx=1 /a.pack=3] []",
    "publish 0 2 /b.idx /a.idx | published #7 3 0.5 [0:/a.idx=1 /a.pack=3] [] [1:/b.idx]",
];

const MISSING: &[&str] = &[
    "publish 0 0 /a.idx | published #1 1 0.1 [] [] [0:/a.idx]",
    "pass 0 0 /a.idx kind | seen #2 1 0.1 [] [] [0:/a.idx]",
    "index 0 0 /a.idx 1 | stored #3 1 0.2 [0:/a.idx=1 /a.pack-] [] []",
    "pass 0 0 /a.pack failed | seen #4 1 0.2 [0:/a.idx=1 /a.pack!] [] []",
    "pass 0 0 /a.idx absent | seen #5 1 0.2 [0:/a.idx=1 /a.pack!] [] []",
    "pass 0 1 /a.pack absent | seen #6 1 0.2 [0:/a.idx=1 /a.pack!] [] []",
    "publish 0 1 /a.idx | unchanged #7 1 0.2 [0:/a.idx=1 /a.pack-] [] []",
    "pack 0 0 /a.pack 1 | stored #8 1 0.3 [0:/a.idx=1 /a.pack=1] [] []",
    "pack 0 0 /a.pack 2 | left #9 1 0.3 [0:/a.idx=1 /a.pack=1] [] []",
    "pass 0 0 /a.pack link | seen #10 1 0.3 [0:/a.idx=1 /a.pack=1] [] []",
];

const PUTS: &[&str] = &[
    "publish 0 0 /a.idx /b.idx | published #1 1 0.1 [] [] [0:/a.idx, 1:/b.idx]",
    "index 0 1 /a.idx 1 | left #2 1 0.1 [] [] [0:/a.idx, 1:/b.idx]",
    "index 0 0 /a.pack 1 | left #3 1 0.1 [] [] [0:/a.idx, 1:/b.idx]",
    "index 0 2 /a.idx 1 | left #4 1 0.1 [] [] [0:/a.idx, 1:/b.idx]",
    "index 0 0 /a.idx 1 | stored #5 1 0.2 [0:/a.idx=1 /a.pack-] [] [1:/b.idx]",
    "index 0 0 /a.idx 2 | left #6 1 0.2 [0:/a.idx=1 /a.pack-] [] [1:/b.idx]",
    "pack 0 0 /b.pack 1 | left #7 1 0.2 [0:/a.idx=1 /a.pack-] [] [1:/b.idx]",
    "pack 0 0 /a.idx 1 | left #8 1 0.2 [0:/a.idx=1 /a.pack-] [] [1:/b.idx]",
    "pack 0 0 /a.pack 3 | stored #9 1 0.3 [0:/a.idx=1 /a.pack=3] [] [1:/b.idx]",
    "publish 0 1 /c.idx /b.idx | published #10 2 1.4 [] [] [0:/c.idx, 1:/b.idx]",
    "pack 0 0 /a.pack 1 | left #11 2 1.4 [] [] [0:/c.idx, 1:/b.idx]",
    "index 0 0 /a.idx 1 | left #12 2 1.4 [] [] [0:/c.idx, 1:/b.idx]",
    "pack 0 1 /b.pack 2 | stored #13 2 1.5 [] [] [0:/c.idx, 1:/b.idx]",
    "index 0 1 /b.idx 3 | stored #14 2 1.6 [1:/b.idx=3 /b.pack=2] [] [0:/c.idx]",
];

const MULTI_INDICES: &[&str] = &[
    "publish 0 0 /m@1 | published #1 1 0.1 [0:/m*2 /a.pack- /b.pack-] [] []",
    "pack 0 0.1 /b.pack 3 | stored #2 1 0.2 [0:/m*2 /a.pack- /b.pack=3] [] []",
    "index 0 0 /m 1 | left #3 1 0.2 [0:/m*2 /a.pack- /b.pack=3] [] []",
    "publish 0 1 /m@1 | unchanged #4 1 0.2 [0:/m*2 /a.pack- /b.pack=3] [] []",
    "publish 0 1 /m@2 | published #5 2 0.3 [1:/m*1 /b.pack-] [] []",
    "register 1 stable | seen #6 2 0.3 [1:/m*1 /b.pack-] [] []",
    "publish 1 2 /m@3 | published #7 3 0.4 [2:/m*2 /a.pack- /b.pack-] [1:/m*1 /b.pack-] []",
    "publish 1 3 /m@2 | published #8 4 0.5 [1:/m*1 /b.pack-] [2:/m*2 /a.pack- /b.pack-] []",
    "publish 1 4 /m | published #9 5 0.6 [] [1:/m*1 /b.pack-, 2:/m*2 /a.pack- /b.pack-] [0:/m]",
    "publish 1 5 /m@5 | insufficient 3 1",
    "index 1 0 /m 1 | stored #11 5 0.7 [0:/m=1 /m.pack-] [1:/m*1 /b.pack-, 2:/m*2 /a.pack- /b.pack-] []",
];

// Indices in ascending order whose packs are in another order.
const ODD_NAMES: &[&str] = &[
    "publish 0 0 /m@100 | published #1 1 0.1 [0:/m*3 /a.pack- /a.j.pack- /b.pack-] [] []",
    "pack 0 0.1 /a.j.pack 3 | stored #2 1 0.2 [0:/m*3 /a.pack- /a.j.pack=3 /b.pack-] [] []",
    "pack 0 0.0 /a.j.pack 1 | left #3 1 0.2 [0:/m*3 /a.pack- /a.j.pack=3 /b.pack-] [] []",
    "pass 0 0 /a.pack absent | seen #4 1 0.2 [0:/m*3 /a.pack! /a.j.pack=3 /b.pack-] [] []",
    "pack 0 0.0 /a.pack 2 | stored #5 1 0.3 [0:/m*3 /a.pack=2 /a.j.pack=3 /b.pack-] [] []",
    "pass 0 0 /b.pack absent | seen #6 1 0.3 [0:/m*3 /a.pack=2 /a.j.pack=3 /b.pack!] [] []",
];

const FOLDERS: &[&str] = &[
    "publish 0 0 /p/m@1 /m@2 /p/a.idx | published #1 1 0.1 [0:/p/m*2 /p/a.pack- /p/b.pack-, 1:/m*1 /b.pack-] [] [2:/p/a.idx]",
    "index 0 2 /p/a.idx 1 | stored #2 1 0.2 [0:/p/m*2 /p/a.pack- /p/b.pack-, 1:/m*1 /b.pack-, 2:/p/a.idx=1 /p/a.pack-] [] []",
    "pack 0 0.0 /a.pack 1 | left #3 1 0.2 [0:/p/m*2 /p/a.pack- /p/b.pack-, 1:/m*1 /b.pack-, 2:/p/a.idx=1 /p/a.pack-] [] []",
    "pack 0 0.0 /p/a.pack 1 | stored #4 1 0.3 [0:/p/m*2 /p/a.pack=1 /p/b.pack-, 1:/m*1 /b.pack-, 2:/p/a.idx=1 /p/a.pack-] [] []",
    "pass 0 0 /p/b.pack absent | seen #5 1 0.3 [0:/p/m*2 /p/a.pack=1 /p/b.pack!, 1:/m*1 /b.pack-, 2:/p/a.idx=1 /p/a.pack-] [] []",
];

const AFTER_THE_GREATEST_AND_ROUND: &[&str] = &[
    "publish 0 0 /a.idx /b.idx | published #1 1 0.1 [] [] [0:/a.idx, 1:/b.idx]",
    "publish 0 1 /a.idx | published #2 2 0.2 [] [] [0:/a.idx]",
    "publish 0 2 /a.idx /c.idx | published #3 3 0.3 [] [] [0:/a.idx, 1:/c.idx]",
    "publish 0 3 /c.idx /d.idx /b.idx | published #4 4 0.4 [] [] [1:/c.idx, 2:/d.idx, 3:/b.idx]",
    "publish 0 4 /c.idx /a.idx | published #5 5 0.5 [] [] [1:/c.idx, 0:/a.idx]",
    "publish 0 5 /b.idx /d.idx /e.idx | published #6 6 1.6 [] [] [2:/b.idx, 3:/d.idx, 0:/e.idx]",
    "publish 0 6 /a.idx /c.idx /e.idx | published #7 7 2.7 [] [] [1:/a.idx, 2:/c.idx, 0:/e.idx]",
    "publish 0 7 /b.idx /d.idx /m | published #8 8 3.8 [] [] [3:/b.idx, 0:/d.idx, 1:/m]",
    "publish 0 8 | published #9 9 3.9 [] [] []",
    "publish 0 9 /c.idx | published #10 10 3.10 [] [] [0:/c.idx]",
];

const UNCHANGED: &[&str] = &[
    "publish 0 0 | published #1 1 0.1 [] [] []",
    "publish 0 1 | unchanged #2 1 0.1 [] [] []",
    "publish 0 1 /a.idx+3 /b.idx | published #3 2 0.2 [] [] [0:/a.idx, 1:/b.idx]",
    "publish 0 2 /a.idx+7 /b.idx | unchanged #4 2 0.2 [] [] [0:/a.idx, 1:/b.idx]",
    "publish 0 2 /b.idx /a.idx | published #5 3 0.3 [] [] [1:/b.idx, 0:/a.idx]",
    "publish 0 3 /b.idx /a.idx | unchanged #6 3 0.3 [] [] [1:/b.idx, 0:/a.idx]",
    "publish 0 3 /a.idx@1 /b.idx | published #7 4 1.4 [0:/a.idx*2 /a.pack- /b.pack-] [] [1:/b.idx]",
];

const SLOTS_OF_PATHS: &[&str] = &[
    "slot /a.idx | none",
    "publish 0 0 /e.idx /c.idx /a.idx /p/f.idx /b.idx /p/a.idx /d.idx /m | published #1 1 0.1 [] [] [0:/e.idx, 1:/c.idx, 2:/a.idx, 3:/p/f.idx, 4:/b.idx, 5:/p/a.idx, 6:/d.idx, 7:/m]",
    "slot /a.idx | 2",
    "slot /b.idx | 4",
    "slot /c.idx | 1",
    "slot /d.idx | 6",
    "slot /e.idx | 0",
    "slot /m | 7",
    "slot /p/a.idx | 5",
    "slot /p/f.idx | 3",
    "slot / | none",
    "slot /c.idx/a | none",
    "slot /f.idx | none",
    "slot /q | none",
    "slot /c.idx@0 | none",
    "index 0 5 /p/a.idx 1 | stored #2 1 0.2 [5:/p/a.idx=1 /p/a.pack-] [] [0:/e.idx, 1:/c.idx, 2:/a.idx, 3:/p/f.idx, 4:/b.idx, 6:/d.idx, 7:/m]",
    "slot /p/a.idx | 5",
    "publish 0 1 /m /p/m | published #3 2 1.3 [] [] [7:/m, 0:/p/m]",
    "slot /m | 7",
    "slot /p/m | 0",
    "slot /e.idx | none",
    "slot /p/a.idx | none",
];

const SLOTS_OF_ONE_PATH: &[&str] = &[
    "register 0 stable | seen #1 0 0.0 unread [] [] []",
    "publish 0 0 /m@5 | published #2 1 0.1 [0:/m*2 /a.pack- /b.pack-] [] []",
    "publish 0 1 /m@2 | published #3 2 0.2 [1:/m*1 /b.pack-] [0:/m*2 /a.pack- /b.pack-] []",
    "publish 0 2 /m | published #4 3 0.3 [] [0:/m*2 /a.pack- /b.pack-, 1:/m*1 /b.pack-] [2:/m]",
    "slot /m | 2",
    "slot /m@2 | 1",
    "slot /m@5 | 0",
    "slot /m@0 | none",
    "slot /m@3 | none",
    "slot /m@6 | none",
    "remove 0 | removed",
    "publish 0 3 /m@2 | published #6 4 0.4 [1:/m*1 /b.pack-] [] []",
    "slot /m | none",
    "slot /m@2 | 1",
    "slot /m@5 | none",
];

const NO_SLOTS: &[&str] = &[
    "slot /a.idx | none",
    "publish 0 0 /a.idx | insufficient 0 1",
    "publish 0 0 | published #2 1 0.1 [] [] []",
    "now | #2 1 0.1 [] [] [] 0 1 0 0 0 0 0 0 0 0",
];

const JOURNAL: &[&str] = &[
    "entries | 0",
    "entry 0 | none",
    "register 3 | seen #1 0 0.0 unread [] [] []",
    "publish 3 0 /a.idx | published #2 1 0.1 [] [] [0:/a.idx]",
    "publish 3 0 /a.idx | outdated 1",
    "upgrade 3 | seen #4 1 0.1 [] [] [0:/a.idx]",
    "publish 5 1 /b.idx+5 /m@1 | insufficient 1 2",
    "index 3 0 /a.idx 2 | stored #6 1 0.2 [0:/a.idx=2 /a.pack-] [] []",
    "pack 3 0.7 /b.pack 1 | left #7 1 0.2 [0:/a.idx=2 /a.pack-] [] []",
    "pass 3 0 /a.pack link | seen #8 1 0.2 [0:/a.idx=2 /a.pack!] [] []",
    "remove 3 | removed",
    "register 3 stable | seen #10 1 0.2 [0:/a.idx=2 /a.pack!] [] []",
    "entries | 10",
    "entry 0 | 1 register 3: seen #1 0 0.0 unread [] [] []",
    "entry 1 | 2 publish 3 0 /a.idx: published #2 1 0.1 [] [] [0:/a.idx]",
    "entry 2 | 3 publish 3 0 /a.idx: outdated 1",
    "entry 3 | 4 upgrade 3: seen #4 1 0.1 [] [] [0:/a.idx]",
    "entry 4 | 5 publish 5 1 /b.idx+5 /m@1: insufficient 1 2",
    "entry 5 | 6 index 3 0 /a.idx 2: stored #6 1 0.2 [0:/a.idx=2 /a.pack-] [] []",
    "entry 6 | 7 pack 3 0.7 /b.pack 1: left #7 1 0.2 [0:/a.idx=2 /a.pack-] [] []",
    "entry 7 | 8 pass 3 0 /a.pack link: seen #8 1 0.2 [0:/a.idx=2 /a.pack!] [] []",
    "entry 8 | 9 remove 3: removed",
    "entry 9 | 10 register 3 stable: seen #10 1 0.2 [0:/a.idx=2 /a.pack!] [] []",
    "entry 10 | none",
    "now | #10 1 0.2 [0:/a.idx=2 /a.pack!] [] [] 1 1 1 1 0 1 0 1 0 1",
];

/// The tables, each with how its core is made, and above it the mistakes that it would catch.
const TABLES: &[(Opening, &[&str])] = &[
    // A listing that isn't compared with the newest list, a stable handle that keeps nothing, or slots that are counted wrongly.
    ((1, 1, 0, 0), ONE_SLOT),
    ((1, 1, 0, 0), ONE_SLOT_AND_A_STABLE_HANDLE),
    // A counter that wraps, or that refuses what wouldn't raise it; a refusal that changes the list.
    ((1, 1, u32::MAX, 0), GREATEST_GENERATION),
    ((2, 1, 0, u64::MAX - 1), GREATEST_STATE),
    // Garbage that is dropped while a handle is stable, read again, or kept when the last stable handle is gone.
    ((3, 1, 0, 0), GARBAGE),
    ((2, 1, 0, 0), UNREAD_AND_NOT_LISTED),
    // A missing file that isn't tried again, a loaded one that is replaced or becomes missing, or a file that is put at another path.
    ((1, 1, 0, 0), MISSING),
    ((2, 1, 0, 0), PUTS),
    // A multi-pack index of another time that is kept, or of the other kind; packs next to another folder's index.
    ((3, 1, 0, 0), MULTI_INDICES),
    ((3, 2, 0, 0), FOLDERS),
    // Free slots sought from the first, a generation that rises for each slot, or a number that rises where nothing changed.
    ((4, 1, 0, 0), AFTER_THE_GREATEST_AND_ROUND),
    ((2, 1, 0, 0), UNCHANGED),
    // A slot that is sought in the order of the slots, at another time, or by the table of another listing.
    ((8, 1, 0, 0), SLOTS_OF_PATHS),
    ((4, 1, 0, 0), SLOTS_OF_ONE_PATH),
    // An event that was refused and has no entry, entries that are counted from 0, or an entry with the answer of another.
    ((0, 0, 0, 0), NO_SLOTS),
    ((1, 1, 0, 0), JOURNAL),
    // A count that is its neighbour's, of another kind of slot, or without garbage.
    ((10, 9, 0, 0), REPORTS),
];

#[test]
fn tables(rt: HostRuntime) -> Result<(), Fail> {
    for (opening, rows) in TABLES {
        check(rt.alloc(), *opening, rows)?;
    }
    Ok(())
}

// A pack that isn't found by its path: the names of the indices are in ascending order, and the paths of their packs
// aren't. The second model has no such names.
#[test]
fn odd_names(rt: HostRuntime) -> Result<(), Fail> {
    let mut core = core_of(rt.alloc(), (2, 1, 0, 0))?;
    for row in ODD_NAMES {
        let (line, want) = wide_halves(row);
        check_core(rt.alloc(), &mut core, line, want)?;
    }
    Ok(())
}
