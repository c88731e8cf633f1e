//! Counts over a core, and its reports.
use crate::shown::put_metrics;
use gix_odb_core::{Metrics, SlotIndexMarker};
use std::test::Fail;
use test_words::Text;

// Ten slots, nine folders. The counts are after the view: handles, refreshes, loaded and listed indices, their loaded
// packs and all their packs, empty slots, slots with garbage or a missing file, the loaded packs of these, folders.
pub const REPORTS: &[&str] = &[
    "register 0 stable | seen #1 0 0.0 unread [] [] []",
    "register 1 | seen #2 0 0.0 unread [] [] []",
    "now | #2 0 0.0 unread [] [] [] 2 0 0 0 0 0 10 0 0 9",
    "publish 0 0 /a.idx /b.idx /m@1 | published #3 1 0.1 [2:/m*2 /a.pack- /b.pack-] [] [0:/a.idx, 1:/b.idx]",
    "index 0 0 /a.idx 1 | stored #4 1 0.2 [0:/a.idx=1 /a.pack-, 2:/m*2 /a.pack- /b.pack-] [] [1:/b.idx]",
    "pack 0 0 /a.pack 1 | stored #5 1 0.3 [0:/a.idx=1 /a.pack=1, 2:/m*2 /a.pack- /b.pack-] [] [1:/b.idx]",
    "pack 0 2.1 /b.pack 2 | stored #6 1 0.4 [0:/a.idx=1 /a.pack=1, 2:/m*2 /a.pack- /b.pack=2] [] [1:/b.idx]",
    "lent | 2 [0:/a.idx=1 /a.pack=1, 2:/m*2 /a.pack- /b.pack=2, none]; 0 [none]; 1 [1:/b.idx, none]",
    "pass 0 1 /b.idx absent | seen #7 1 0.4 [0:/a.idx=1 /a.pack=1, 2:/m*2 /a.pack- /b.pack=2] [] [1:/b.idx]",
    "report 1 | reported #8 1 0.4 [0:/a.idx=1 /a.pack=1, 2:/m*2 /a.pack- /b.pack=2] [] [1:/b.idx] \
        2 1 2 3 2 4 7 1 0 9 [/a.idx=, /b.idx!, /m*=] [/b.idx absent]",
    "publish 1 1 /c.idx /b.idx | published #9 2 0.5 [] [0:/a.idx=1 /a.pack~1, 2:/m*2 /a.pack- /b.pack~2] [3:/c.idx, 1:/b.idx]",
    "lent | 0 [none]; 2 [0:/a.idx=1 /a.pack~1, 2:/m*2 /a.pack- /b.pack~2, none]; 2 [3:/c.idx, 1:/b.idx, none]",
    "pass 1 3 /c.pack bad | seen #10 2 0.5 [] [0:/a.idx=1 /a.pack~1, 2:/m*2 /a.pack- /b.pack~2] [3:/c.idx, 1:/b.idx]",
    "pass 1 7 /d.idx failed | seen #11 2 0.5 [] [0:/a.idx=1 /a.pack~1, 2:/m*2 /a.pack- /b.pack~2] [3:/c.idx, 1:/b.idx]",
    "register 2 | seen #12 2 0.5 [] [0:/a.idx=1 /a.pack~1, 2:/m*2 /a.pack- /b.pack~2] [3:/c.idx, 1:/b.idx]",
    "report 0 | reported #13 2 0.5 [] [0:/a.idx=1 /a.pack~1, 2:/m*2 /a.pack- /b.pack~2] [3:/c.idx, 1:/b.idx] \
        3 2 0 2 0 2 6 3 2 9 [/c.idx!, /b.idx] [/b.idx absent, /c.pack bad, /d.idx failed]",
    "publish 0 2 /c.idx /b.idx | unchanged #14 2 0.5 [] [0:/a.idx=1 /a.pack~1, 2:/m*2 /a.pack- /b.pack~2] [3:/c.idx, 1:/b.idx]",
    "publish 0 1 /c.idx | outdated 2",
    "now | #15 2 0.5 [] [0:/a.idx=1 /a.pack~1, 2:/m*2 /a.pack- /b.pack~2] [3:/c.idx, 1:/b.idx] 3 3 0 2 0 2 6 2 2 9",
    "remove 0 | removed",
    "remove 1 | removed",
    "now | #17 2 0.5 [] [0:/a.idx=1 /a.pack~1, 2:/m*2 /a.pack- /b.pack~2] [3:/c.idx, 1:/b.idx] 1 3 0 2 0 2 6 2 2 9",
    "publish 2 2 /m@1 | published #18 3 0.6 [2:/m*2 /a.pack- /b.pack=2] [] []",
    "report 2 | reported #19 3 0.6 [2:/m*2 /a.pack- /b.pack=2] [] [] \
        1 4 1 1 1 2 9 0 0 9 [/m*=] [/b.idx absent, /c.pack bad, /d.idx failed]",
];

// Counts that start at one.
#[test]
fn zeros(rt: HostRuntime) -> Result<(), Fail> {
    let mut counts = Text::new(rt.alloc());
    put_metrics(&mut counts, &Metrics::default());
    counts.check("no counts", " 0 0 0 0 0 0 0 0 0 0")?;
    let marker = SlotIndexMarker::default();
    assert!(rt; marker.generation == 0 && marker.state_id == 0);
    Ok(())
}
