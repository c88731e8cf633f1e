//! A core and the second model, on which the rows of a table are played.
//!
//! Besides an event, a row may be `now`, for the core's view and its counts, `entry PLACE`, for an entry of the
//! journal by its place counted from 0, `newest`, for the last one, `entries`, for the number of entries, `slot PATH`
//! or `slot PATH@TIME`, for the slot that holds an index, or `lent`, for what the lists of the core's view lend.
use crate::happening::happen;
use crate::lent::put_lent;
use crate::model::{Model, Opening};
use crate::shown::{put_entry_at, put_present};
use crate::words::parts_of;
use gix_odb_core::Core;
use odb_base::PathText;
use std::alloc::Global;
use std::test::Fail;
use test_words::{Text, cut, wide_halves};

/// Appends the number of the slot that holds an index to a text.
fn put_slot(alloc: Global, core: &Core, word: &str, text: &mut Text) -> Result<(), Fail> {
    let (path, time, is_multi) = parts_of(word);
    let path = PathText::parse(alloc, path)?;
    let time = if is_multi {
        time.parse::<u64>().ok()
    } else {
        None
    };
    match core.slot_of(&path, time) {
        Some(slot) => text.marked("", u64::from(slot)),
        None => text.put("none"),
    }
    Ok(())
}

/// Appends a core's result of a row to a text.
fn put_told(alloc: Global, core: &mut Core, line: &str, text: &mut Text) -> Result<(), Fail> {
    let count = core.journal().len();
    let (verb, rest) = cut(line);
    match verb {
        "now" => put_present(text, core),
        "lent" => put_lent(text, core.look()),
        "entries" => text.marked("", count as u64),
        "newest" => put_entry_at(text, core, count.saturating_sub(1)),
        "slot" => return put_slot(alloc, core, rest, text),
        "entry" => put_entry_at(text, core, rest.parse::<usize>().unwrap_or(0)),
        _ => return happen(alloc, core, line, text),
    }
    Ok(())
}

/// Compares a core's result of a row.
pub fn check_core(alloc: Global, core: &mut Core, line: &str, want: &str) -> Result<(), Fail> {
    let mut found = Text::new(alloc);
    put_told(alloc, core, line, &mut found)?;
    found.check(line, want)
}

/// Compares the second model's result of a row, unless the row is of the journal, of the slot of a path or of what is lent.
fn check_model(alloc: Global, model: &mut Model, line: &str, want: &str) -> Result<(), Fail> {
    if line.starts_with("entr") || line.starts_with("slot") || line == "lent" {
        return Ok(());
    }
    let mut told = Text::new(alloc);
    if line == "now" {
        model.put_present(&mut told);
    } else {
        model.play(line, &mut told);
    }
    told.check("the second model", want)
}

fn check_row(alloc: Global, core: &mut Core, model: &mut Model, row: &str) -> Result<(), Fail> {
    let (line, want) = wide_halves(row);
    check_core(alloc, core, line, want)?;
    check_model(alloc, model, line, want)
}

fn check_rows(alloc: Global, core: &mut Core, opening: Opening, rows: &[&str]) -> Result<(), Fail> {
    let mut model = Model::new(alloc, opening);
    for row in rows {
        check_row(alloc, core, &mut model, row)?;
    }
    Ok(())
}

/// A core with counts that start here: the one that `new` makes, if they start at 0.
pub fn core_of(alloc: Global, opening: Opening) -> Result<Core, Fail> {
    let (slots, folders, generation, state) = opening;
    if slots > 32_767 {
        return Err(Fail::new("too many slots"));
    }
    if generation == 0 && state == 0 {
        return Ok(Core::new(alloc, slots, folders)?);
    }
    Ok(Core::at_counts(alloc, slots, folders, generation, state)?)
}

/// Plays the rows of a table, each `EVENT | ANSWER`, on a core and on the second model.
pub fn check(alloc: Global, opening: Opening, rows: &[&str]) -> Result<(), Fail> {
    let mut core = core_of(alloc, opening)?;
    check_rows(alloc, &mut core, opening, rows)
}
