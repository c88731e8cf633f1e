//! Events for whose entries there is room: each leaves one, also if it is refused for lack of memory.
use crate::events::event_of;
use crate::happening::can_happen;
use crate::shown::{put_answer, put_entry_at};
use crate::table::{check_core, core_of};
use gix_odb_core::{Core, Event};
use std::alloc::Global;
use std::test::Fail;
use test_words::{Text, cut, wide_halves};

// After `refused` the event's entry is compared, after `entered` its answer.
const ROWS: &[&str] = &[
    "register 0 stable | seen #1 0 0.0 unread [] [] []",
    "publish 0 0 /a.idx /b.idx | published #2 1 0.1 [] [] [0:/a.idx, 1:/b.idx]",
    "refused index 0 0 /a.idx 1 | 3 index 0 0 /a.idx 1: memory",
    "refused pass 0 1 /b.idx absent | 4 pass 0 1 /b.idx absent: memory",
    "refused publish 0 1 /c.idx | 5 publish 0 1 /c.idx: memory",
    "now | #5 1 0.1 [] [] [0:/a.idx, 1:/b.idx] 1 1 0 2 0 2 0 0 0 1",
    "report 0 | reported #6 1 0.1 [] [] [0:/a.idx, 1:/b.idx] 1 1 0 2 0 2 0 0 0 1 [/a.idx, /b.idx] []",
    "entered index 0 0 /a.idx 1 | stored #7 1 0.2 [0:/a.idx=1 /a.pack-] [] [1:/b.idx]",
    "entered pass 0 1 /b.idx absent | seen #8 1 0.2 [0:/a.idx=1 /a.pack-] [] [1:/b.idx]",
    "report 0 | reported #9 1 0.2 [0:/a.idx=1 /a.pack-] [] [1:/b.idx] 1 1 1 2 0 2 0 1 0 1 [/a.idx=, /b.idx!] [/b.idx absent]",
    "refused look 0 | 10 look 0: memory",
    "entered remove 0 | removed",
    "entries | 11",
    "now | #11 1 0.2 [0:/a.idx=1 /a.pack-] [] [1:/b.idx] 0 1 1 2 0 2 0 1 0 1",
];

/// The core after an event that is refused for lack of memory, if it can happen.
fn refused(core: Core, seat: u32, event: Event) -> Result<Core, Fail> {
    if let Event::Remove = event {
        return Err(Fail::new("a removal is never refused"));
    }
    if !can_happen(&core, seat, &event) {
        return Err(Fail::new("it can't happen"));
    }
    match core.with_room() {
        Ok(ready) => Ok(ready.refuse(seat, event)),
        Err(_) => Err(Fail::new("out of memory")),
    }
}

/// The core after an event, if it can happen. Its answer is appended to a text.
fn entered(
    alloc: Global,
    core: Core,
    seat: u32,
    event: Event,
    text: &mut Text,
) -> Result<Core, Fail> {
    if !can_happen(&core, seat, &event) {
        return Err(Fail::new("it can't happen"));
    }
    match core.with_room() {
        Ok(ready) => {
            let (core, answer) = ready.apply(alloc, seat, event);
            put_answer(text, &answer);
            Ok(core)
        }
        Err(_) => Err(Fail::new("out of memory")),
    }
}

/// The core after an event, as `refused` or `entered`, with the row's result appended to a text.
fn with_entry(
    alloc: Global,
    core: Core,
    word: &str,
    seat: u32,
    event: Event,
    text: &mut Text,
) -> Result<Core, Fail> {
    if word == "entered" {
        return entered(alloc, core, seat, event, text);
    }
    let core = refused(core, seat, event)?;
    put_entry_at(text, &core, core.journal().len().saturating_sub(1));
    Ok(core)
}

/// The core after a row, whose result is compared.
fn after_row(alloc: Global, mut core: Core, row: &str) -> Result<Core, Fail> {
    let (line, want) = wide_halves(row);
    let (word, rest) = cut(line);
    if word != "entered" && word != "refused" {
        check_core(alloc, &mut core, line, want)?;
        return Ok(core);
    }
    let (verb, rest) = cut(rest);
    let (seat, rest) = cut(rest);
    let seat = seat.parse::<u32>()?;
    let event = event_of(alloc, verb, rest)?;
    let mut found = Text::new(alloc);
    let core = with_entry(alloc, core, word, seat, event, &mut found)?;
    found.check(line, want)?;
    Ok(core)
}

// A refused event that changes the core or leaves no entry, or a refused pass that is reported.
#[test]
fn events_with_room_leave_an_entry(rt: HostRuntime) -> Result<(), Fail> {
    let mut core = core_of(rt.alloc(), (2, 1, 0, 0))?;
    for row in ROWS {
        core = after_row(rt.alloc(), core, row)?;
    }
    Ok(())
}
