//! Playing lines, of which one may take several steps.
use crate::played::outcome_shown;
use crate::steps::line_of;
use gix_odb_world::{Line, OutcomeList, Play, World};
use odb_mem_disk::MemDisk;
use std::alloc::Global;
use std::test::Fail;
use test_words::compare;

/// The outcomes of a run, in a row.
fn outcomes_shown(alloc: Global, outcomes: &OutcomeList) -> Result<String, Fail> {
    let mut text = String::new(alloc);
    for outcome in outcomes.as_slice() {
        let told = outcome_shown(alloc, outcome)?;
        text.push_str(told.as_str())?;
        text.push_str("; ")?;
    }
    Ok(text)
}

fn lines_of(alloc: Global, rows: &str) -> Result<Vec<Line>, Fail> {
    let mut lines = Vec::new(alloc);
    for row in rows.split('\n') {
        lines.push(line_of(alloc, row)?)?;
    }
    Ok(lines)
}

fn played<'a>(alloc: Global, lines: &'a [Line]) -> Result<Play<'a>, Fail> {
    let disk = MemDisk::new(alloc)?;
    Ok(World::play(alloc, disk, lines)?)
}

/// How many steps were made, and each line's last.
fn places_shown(alloc: Global, play: &Play<'_>) -> Result<String, Fail> {
    let count = play.steps.copied(alloc)?.len();
    let last = play.last.as_slice();
    Ok(format!(in alloc; "{count} {last:?}")?)
}

// There are two folders and no packs, so a find that misses takes seven turns.
const LINES: &str = "\
    do mkdir /o\n\
    open 0 /o slots=32 folder=/p\n\
    finish 0\n\
    find 0 0000000000000000000000000000000000000001\n\
    finish 0\n\
    finish 0\n\
    write 0 blob -\n\
    finish 0\n\
    close 0";

const LINE_OUTCOMES: &str = "\
    applied; applied; pending; 32 slots; applied; pending; pending; pending; pending; pending; pending; not found; \
    misuse NotRunning; applied; pending; pending; pending; \
    wrote e69de29bb2d1d6434b8b29ae775ad8c2e48c5391; applied; ";

const LINE_PLACES: &str = "19 [0, 1, 3, 4, 11, 12, 13, 17, 18]";

fn check_outcomes(alloc: Global, play: &Play<'_>) -> Result<(), Fail> {
    let found = outcomes_shown(alloc, &play.run.outcomes)?;
    compare("lines", found.as_str(), LINE_OUTCOMES)
}

fn check_places(alloc: Global, play: &Play<'_>) -> Result<(), Fail> {
    let found = places_shown(alloc, play)?;
    compare("places", found.as_str(), LINE_PLACES)
}

// A line whose place is that of its first step, or a turn too many.
#[test]
fn plays_lines(rt: HostRuntime) -> Result<(), Fail> {
    let lines = lines_of(rt.alloc(), LINES)?;
    let play = played(rt.alloc(), &lines)?;
    check_outcomes(rt.alloc(), &play)?;
    check_places(rt.alloc(), &play)
}

// After `never` a find that misses takes two turns: the loose path, and a look at the core. No folder is listed.
const FROZEN: &str = "\
    do mkdir /o\n\
    open 0 /o slots=32\n\
    finish 0\n\
    find 0 0000000000000000000000000000000000000001\n\
    never 0\n\
    finish 0\n\
    never 0\n\
    clone 1 0\n\
    find 0 0000000000000000000000000000000000000001\n\
    finish 0\n\
    test 1 0000000000000000000000000000000000000001\n\
    finish 1";

const FROZEN_OUTCOMES: &str = "\
    applied; applied; pending; 32 slots; applied; misuse Busy; pending; pending; pending; pending; not found; \
    applied; applied; applied; pending; not found; applied; pending; false; ";

// A frozen handle that lists folders, and a clone of it that does.
#[test]
fn plays_lines_of_frozen_handles(rt: HostRuntime) -> Result<(), Fail> {
    let lines = lines_of(rt.alloc(), FROZEN)?;
    let play = played(rt.alloc(), &lines)?;
    let found = outcomes_shown(rt.alloc(), &play.run.outcomes)?;
    compare("lines", found.as_str(), FROZEN_OUTCOMES)
}
