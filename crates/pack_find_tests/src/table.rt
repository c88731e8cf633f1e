//! A disk in memory and a core, on which the rows of a table are played.
//!
//! `list FOLDER ..` lists folders, the objects directory first, and shows the calls and the rows; `plain FOLDER ..` without
//! multi-pack indices, `limited BYTES FOLDER ..` with those of so many bytes, and `swapped TARGET FOLDER ..` while each file that
//! is read becomes a link before; `order FOLDER ..` shows the rows in the order in
//! which they are tried; `publish FOLDER ..` publishes them, and shows what is to be loaded. `find WORD`, `header WORD` and `has WORD` seek an id, or the blob of a word, `find WORD LIMIT` within a
//! limit, and show the calls, the events and the end. `opening FOLDER` opens a store and shows its calls, the slots with
//! which its handle is registered, and its reply; `opening FOLDER PERCENT MINIMUM` with this percentage of its indices
//! as slots, and at least the minimum. `call find WORD`, `call header WORD`, `call has WORD` and `call write WORD` make
//! a call on a new handle on `/o`, and show the calls, the events and the reply. Any other row is a change of the disk.
use crate::calls::put_call;
use crate::disks::change;
use crate::happening::happen;
use crate::listing::{USED, publish, put_limited, put_list, put_order, put_swapped};
use crate::openings::put_opening;
use crate::trying::put_tried;
use gix_odb_core::{Core, Event};
use odb_mem_disk::MemDisk;
use std::alloc::Global;
use std::test::Fail;
use test_words::{Text, cut, wide_halves};

fn put_told(
    alloc: Global,
    disk: &mut MemDisk,
    core: &mut Core,
    line: &str,
    text: &mut Text,
) -> Result<(), Fail> {
    let (verb, rest) = cut(line);
    match verb {
        "list" => put_list(alloc, disk, rest, USED, text),
        "plain" => put_list(alloc, disk, rest, None, text),
        "limited" => put_limited(alloc, disk, rest, text),
        "swapped" => put_swapped(alloc, disk, rest, text),
        "order" => put_order(alloc, disk, rest, text),
        "publish" => publish(alloc, disk, core, rest, text),
        "call" => put_call(alloc, disk, core, rest, text),
        "opening" => put_opening(alloc, disk, rest, text),
        "find" | "header" | "has" => Ok(put_tried(alloc, disk, core, verb, rest, text)?),
        _ => change(alloc, disk, verb, rest),
    }
}

fn check_row(alloc: Global, disk: &mut MemDisk, core: &mut Core, row: &str) -> Result<(), Fail> {
    let (line, want) = wide_halves(row);
    let mut found = Text::new(alloc);
    put_told(alloc, disk, core, line, &mut found)?;
    found.check(line, want)
}

fn check_rows(
    alloc: Global,
    disk: &mut MemDisk,
    core: &mut Core,
    rows: &[&str],
) -> Result<(), Fail> {
    for row in rows {
        check_row(alloc, disk, core, row)?;
    }
    Ok(())
}

fn is_taken(alloc: Global, core: &mut Core, event: Event) -> bool {
    happen(alloc, core, event).is_ok()
}

/// Whether a handle is registered, and has a view.
fn register(alloc: Global, core: &mut Core) -> bool {
    is_taken(alloc, core, Event::Register { stable: false }) && is_taken(alloc, core, Event::Look)
}

/// The calls of the disk that fail, by their numbers, and the number at which the state of the core begins.
pub type Opening = (&'static [u64], u64);

fn check_both(
    alloc: Global,
    disk: &mut MemDisk,
    core: &mut Core,
    made: &[&str],
    rows: &[&str],
) -> Result<(), Fail> {
    if !register(alloc, core) {
        return Err(Fail::new("no handle"));
    }
    check_rows(alloc, disk, core, made)?;
    check_rows(alloc, disk, core, rows)
}

fn check_on(
    alloc: Global,
    disk: &mut MemDisk,
    state: u64,
    made: &[&str],
    rows: &[&str],
) -> Result<(), Fail> {
    let mut core = Core::at_counts(alloc, 4, 2, 0, state)?;
    check_both(alloc, disk, &mut core, made, rows)
}

/// Plays the rows of a table, each `WORDS | EXPECTED RESULT`, on a disk made by other rows.
pub fn check(alloc: Global, opening: Opening, made: &[&str], rows: &[&str]) -> Result<(), Fail> {
    let (faults, state) = opening;
    let mut disk = MemDisk::with_faults(alloc, faults)?;
    check_on(alloc, &mut disk, state, made, rows)
}
