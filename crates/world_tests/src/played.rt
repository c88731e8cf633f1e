//! Rows of steps that are made in a world, and their outcomes.
use crate::steps::step_of;
use gix_odb_world::{Did, Outcome, Record, Reply, Run, Step, World, is_valid};
use odb_mem_disk::MemDisk;
use std::alloc::{AllocError, Global};
use std::test::Fail;
use test_words::{compare, halves};

pub(crate) fn outcome_shown(alloc: Global, outcome: &Outcome) -> Result<String, AllocError> {
    match outcome {
        Outcome::Applied => "applied".to_string(alloc),
        Outcome::Pending => "pending".to_string(alloc),
        Outcome::Reply(reply) => reply_shown(alloc, reply.value()),
        Outcome::Misuse(why) => format!(in alloc; "misuse {why:?}"),
    }
}

fn reply_shown(alloc: Global, reply: &Reply) -> Result<String, AllocError> {
    match reply {
        Reply::Opened { slots } => format!(in alloc; "{slots} slots"),
        Reply::Found { kind, bytes } => found_shown(alloc, *kind, bytes.as_slice()),
        Reply::Header(header) => format!(in alloc; "{header:?}"),
        Reply::Tested(there) => format!(in alloc; "{there}"),
        Reply::NotFound => "not found".to_string(alloc),
        Reply::Wrote(id) => format!(in alloc; "wrote {id}"),
        Reply::Refused(error) => format!(in alloc; "{error}"),
    }
}

fn found_shown(alloc: Global, kind: gix_object::Kind, bytes: &[u8]) -> Result<String, AllocError> {
    let text = str::from_utf8(bytes).unwrap_or("no text");
    format!(in alloc; "{kind:?} {text}")
}

/// The misuse that `is_valid` finds in a step, or nothing.
fn judged(alloc: Global, world: &World, step: &Step) -> Result<String, Fail> {
    match is_valid(alloc, world, step)? {
        Some(why) => Ok(format!(in alloc; "misuse {why:?}")?),
        None => Ok(String::new(alloc)),
    }
}

fn made(alloc: Global, world: &mut World, step: &Step) -> Result<String, Fail> {
    let outcome = world.step(alloc, step)?;
    Ok(outcome_shown(alloc, &outcome)?)
}

/// Makes a step, and compares its misuse with what `is_valid` found before.
fn stepped(alloc: Global, world: &mut World, step: &Step) -> Result<String, Fail> {
    let judged = judged(alloc, world, step)?;
    let told = made(alloc, world, step)?;
    if told.as_str().starts_with("misuse") {
        compare("judged", judged.as_str(), told.as_str())?;
    } else {
        compare("judged", judged.as_str(), "")?;
    }
    Ok(told)
}

fn turned(alloc: Global, world: &mut World, handle: u32) -> Result<String, Fail> {
    stepped(alloc, world, &Step::Turn { handle })
}

/// Makes turns of a handle up to the first that isn't pending: how many, and the outcome of the last one.
fn finished(alloc: Global, world: &mut World, handle: u32) -> Result<String, Fail> {
    for count in 1..50_u8 {
        let told = turned(alloc, world, handle)?;
        if told.as_str() != "pending" {
            return numbered(alloc, count, told.as_str());
        }
    }
    Err(Fail::new(format_args!("too many turns")))
}

fn numbered(alloc: Global, count: u8, told: &str) -> Result<String, Fail> {
    Ok(format!(in alloc; "{count}: {told}")?)
}

fn done_step(alloc: Global, world: &mut World, text: &str) -> Result<String, Fail> {
    let step = step_of(alloc, text)?;
    stepped(alloc, world, &step)
}

/// The outcome of a step, or the number of turns of a `finish` and the last one's outcome.
fn done(alloc: Global, world: &mut World, text: &str) -> Result<String, Fail> {
    match text.strip_prefix("finish ") {
        Some(handle) => finished(alloc, world, handle.parse::<u32>()?),
        None => done_step(alloc, world, text),
    }
}

/// The outcomes so far and one more, unless it is `applied`.
pub(crate) fn joined(alloc: Global, before: &str, told: &str) -> Result<String, AllocError> {
    match (before, told) {
        (_, "applied") => before.to_string(alloc),
        ("", _) => told.to_string(alloc),
        _ => format!(in alloc; "{before}; {told}"),
    }
}

/// Makes steps, with semicolons between them, and returns their outcomes except `applied`.
pub(crate) fn told(alloc: Global, world: &mut World, steps: &str) -> Result<String, Fail> {
    let mut out = String::new(alloc);
    for text in steps.split(';') {
        let told = done(alloc, world, text.trim_start())?;
        out = joined(alloc, out.as_str(), told.as_str())?;
    }
    Ok(out)
}

pub(crate) fn check_row(alloc: Global, world: &mut World, row: &str) -> Result<(), Fail> {
    let (steps, want) = halves(row);
    let found = told(alloc, world, steps)?;
    compare(steps, found.as_str(), want)
}

/// Makes the steps of each row, in turn, and compares their outcomes.
fn check(alloc: Global, world: &mut World, rows: &str) -> Result<(), Fail> {
    for row in rows.split('\n') {
        check_row(alloc, world, row)?;
    }
    Ok(())
}

/// `check` on a new disk.
pub(crate) fn check_run(alloc: Global, rows: &str) -> Result<Run, Fail> {
    let mut world = World::new(alloc, MemDisk::new(alloc)?);
    check(alloc, &mut world, rows)?;
    Ok(world.finish(alloc)?)
}

/// `check` for each row on a new disk, after these steps.
pub(crate) fn check_each(alloc: Global, front: &str, rows: &str) -> Result<(), Fail> {
    for row in rows.split('\n') {
        check_alone(alloc, front, row)?;
    }
    Ok(())
}

fn check_alone(alloc: Global, front: &str, row: &str) -> Result<(), Fail> {
    let mut world = World::new(alloc, MemDisk::new(alloc)?);
    check_behind(alloc, &mut world, front, row)
}

fn check_behind(alloc: Global, world: &mut World, front: &str, row: &str) -> Result<(), Fail> {
    told(alloc, world, front)?;
    check_row(alloc, world, row)
}

/// Each row has numbers of calls that fail, and the outcomes of the steps then.
pub(crate) fn check_faults(alloc: Global, steps: &str, rows: &str) -> Result<(), Fail> {
    for row in rows.split('\n') {
        check_failing(alloc, steps, row)?;
    }
    Ok(())
}

fn check_failing(alloc: Global, steps: &str, row: &str) -> Result<(), Fail> {
    let (calls, want) = halves(row);
    let found = told_with(alloc, calls, steps)?;
    compare(calls, found.as_str(), want)
}

/// The outcomes of steps where the calls with these numbers fail.
fn told_with(alloc: Global, calls: &str, steps: &str) -> Result<String, Fail> {
    let mut world = World::new(alloc, failing(alloc, calls)?);
    told(alloc, &mut world, steps)
}

fn failing(alloc: Global, calls: &str) -> Result<MemDisk, Fail> {
    let numbers = numbers_of(alloc, calls)?;
    Ok(MemDisk::with_faults(alloc, &numbers)?)
}

fn numbers_of(alloc: Global, text: &str) -> Result<Vec<u64>, Fail> {
    let mut numbers = Vec::new(alloc);
    for number in text.split(' ') {
        numbers.push(number.parse::<u64>()?)?;
    }
    Ok(numbers)
}

/// All of a disk's tree.
pub(crate) fn tree_shown(alloc: Global, disk: &MemDisk) -> Result<String, Fail> {
    let tree = disk.tree();
    Ok(format!(in alloc; "{tree:?}")?)
}

/// The effect of a step, whether it made a change, and the count of faults.
pub(crate) fn record_shown(alloc: Global, record: &Record) -> Result<String, AllocError> {
    let did = did_shown(alloc, &record.did)?;
    let change = record.change.is_some();
    let faults = record.faults;
    format!(in alloc; "{did} {change} {faults}")
}

fn did_shown(alloc: Global, did: &Did) -> Result<String, AllocError> {
    match did {
        Did::Nothing => "-".to_string(alloc),
        Did::Disk { op, path, failed } => {
            let path = path.get();
            format!(in alloc; "{op:?} {path} {failed}")
        }
        Did::Core { store, entry } => format!(in alloc; "core {store} {entry}"),
    }
}
