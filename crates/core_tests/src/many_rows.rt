//! A listing of many rows.
use crate::table::{check_core, core_of};
use std::alloc::Global;
use std::test::Fail;
use test_words::Text;

const ROWS: u64 = 50;

/// A publish of many rows over a list.
fn publish_over(alloc: Global, base: &str) -> Text {
    let mut text = Text::new(alloc);
    text.marked("publish 0 ", base);
    for row in 0..ROWS {
        text.marked(" /", row);
        text.put(".idx");
    }
    text
}

/// An answer, with each row in the slot of its number.
fn all_listed(alloc: Global, answer: &str) -> Text {
    let mut text = Text::new(alloc);
    text.marked(answer, " [] [] [");
    for row in 0..ROWS {
        text.comma();
        text.marked("", row);
        text.marked(":/", row);
        text.put(".idx");
    }
    text.put("]");
    text
}

// A row that is treated as new because many others are there, a slot that is found for another row, or a listing that
// is published again though nothing changed.
#[test]
fn twice(rt: HostRuntime) -> Result<(), Fail> {
    let alloc = rt.alloc();
    let mut core = core_of(alloc, (60, 1, 0, 0))?;
    for (base, answer) in [("0", "published #1 1 0.1"), ("1", "unchanged #2 1 0.1")] {
        let line = publish_over(alloc, base);
        let want = all_listed(alloc, answer);
        check_core(alloc, &mut core, line.as_str(), want.as_str())?;
    }
    Ok(())
}
