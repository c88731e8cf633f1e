//! The effect of each step of a run on the disk.
use crate::played::{joined, record_shown};
use crate::steps::step_of;
use gix_odb_core::{Effect, Entry, Event, Journal, PackId, Refusal};
use gix_odb_world::{Run, Step, World};
use odb_mem_disk::{MemDisk, PathText};
use std::alloc::{AllocError, Global};
use std::test::Fail;
use test_words::{compare, halves};

/// Compares the effect of each step of a run with the second half of its row.
fn check_records(alloc: Global, run: &Run, rows: &str) -> Result<(), Fail> {
    for (record, row) in run.records.as_slice().iter().zip(rows.split('\n')) {
        let (step, want) = halves(row);
        let found = record_shown(alloc, record)?;
        compare(step, found.as_str(), want)?;
    }
    Ok(())
}

fn steps_of(alloc: Global, rows: &str) -> Result<Vec<Step>, Fail> {
    let mut steps = Vec::new(alloc);
    for row in rows.split('\n') {
        let (step, _) = halves(row);
        steps.push(step_of(alloc, step)?)?;
    }
    Ok(steps)
}

/// The run of the steps of the rows.
fn run_of(alloc: Global, faults: &[u64], rows: &str) -> Result<Run, Fail> {
    let steps = steps_of(alloc, rows)?;
    let disk = MemDisk::with_faults(alloc, faults)?;
    Ok(World::run(alloc, disk, &steps)?)
}

const RECORDS: &str = "\
    do mkdir /o|- true 0\n\
    open 0 /o slots=32|- false 0\n\
    turn 0|Look /o true false 1\n\
    open 0 /o slots=32|- false 1\n\
    turn 0|Look /o false false 1\n\
    turn 0|core 0 1 false 1\n\
    open 1 /o slots=32|- false 1\n\
    turn 1|Look /o false false 1\n\
    turn 1|core 1 1 false 1\n\
    find 0 e69de29bb2d1d6434b8b29ae775ad8c2e48c5391|- false 1\n\
    turn 0|core 0 2 false 1\n\
    turn 0|OpenDir /o/pack true false 2\n\
    write 0 blob -|- false 2\n\
    turn 0|core 0 3 false 2\n\
    turn 0|OpenDir /o/pack false false 2\n\
    turn 0|core 0 4 false 2\n\
    write 1 blob 78|- false 2\n\
    turn 1|core 1 2 false 2\n\
    turn 1|OpenDir /o/pack false false 2\n\
    turn 1|core 1 3 false 2\n\
    turn 0|NewFile /o/tmp_obj_0 false true 2\n\
    turn 1|NewFile /o/tmp_obj_0 false false 2\n\
    turn 1|NewFile /o/tmp_obj_1 false true 2\n\
    do remove /x|- false 2\n\
    turn 0|Append /o/tmp_obj_0 false true 2\n\
    turn 0|MakeDir /o/e6 true false 3\n\
    turn 0|Remove /o/tmp_obj_0 false true 3\n\
    turn 1|Append /o/tmp_obj_1 false true 3\n\
    turn 1|Append /o/tmp_obj_1 false true 3\n\
    turn 1|MakeDir /o/c1 false true 3\n\
    turn 1|Rename /o/tmp_obj_1 false true 3\n\
    do mkdir /o/pack|- true 3\n\
    find 1 0000000000000000000000000000000000000001|- false 3\n\
    turn 1|Read /o/00/00000000000000000000000000000000000001 false false 3\n\
    turn 1|core 1 4 false 3\n\
    turn 1|OpenDir /o/pack false false 3\n\
    turn 1|NextEntry /o/pack false false 3\n\
    turn 1|CloseDir /o/pack false false 3\n\
    turn 1|core 1 5 false 3\n\
    turn 1|Read /o/00/00000000000000000000000000000000000001 false false 3\n\
    turn 1|core 1 6 false 3\n\
    clone 2 1|core 1 7 false 3\n\
    close 0|core 0 5 false 3\n\
    close 1|core 1 8 false 3";

/// The entries of the journals of that run, a row for each journal: their numbers, seats, events and answers.
const JOURNALS: &str = "\
    1 0 register seen; 2 0 look seen; 3 0 look seen; 4 0 publish published; 5 0 remove removed\n\
    1 1 register seen; 2 1 look seen; 3 1 publish published; 4 1 look seen; 5 1 publish unchanged; 6 1 look seen; \
    7 2 register seen; 8 1 remove removed";

// A store with one pack, up to where a find has listed it. Its object is the blob of `version 1` and a line feed,
// with its id from `git hash-object`.
const LISTED: &str = "\
    do mkdir /o|- true 0\n\
    do mkdir /o/pack|- true 0\n\
    do put /o/pack/pack-a.idx 1 @idx:blob:76657273696f6e20310a|- true 0\n\
    do put /o/pack/pack-a.pack 1 @pack:blob:76657273696f6e20310a|- true 0\n\
    open 0 /o slots=32|- false 0\n\
    turn 0|Look /o false false 0\n\
    turn 0|core 0 1 false 0\n\
    find 0 83baae61804e65cc73a7201a7252750c76066a30|- false 0\n\
    turn 0|core 0 2 false 0\n\
    turn 0|OpenDir /o/pack false false 0\n\
    turn 0|NextEntry /o/pack false false 0\n\
    turn 0|NextEntry /o/pack false false 0\n\
    turn 0|NextEntry /o/pack false false 0\n\
    turn 0|CloseDir /o/pack false false 0\n\
    turn 0|Look /o/pack/pack-a.idx false false 0\n\
    turn 0|Look /o/pack/pack-a.pack false false 0\n\
    turn 0|core 0 3 false 0";

const FOUND: &str = "\
    turn 0|Read /o/pack/pack-a.idx false false 0\n\
    turn 0|core 0 4 false 0\n\
    turn 0|Read /o/pack/pack-a.pack false false 0\n\
    turn 0|core 0 5 false 0";

const FOUND_JOURNAL: &str = "\
    1 0 register seen; 2 0 look seen; 3 0 publish published; \
    4 0 put-index 0 /o/pack/pack-a.idx stored; 5 0 put-pack 0 /o/pack/pack-a.pack stored";

// The index vanishes before it is read, and nothing else has the object.
const VANISHED: &str = "\
    do remove /o/pack/pack-a.idx|- true 0\n\
    turn 0|Read /o/pack/pack-a.idx false false 0\n\
    turn 0|core 0 4 false 0\n\
    turn 0|Read /o/83/baae61804e65cc73a7201a7252750c76066a30 false false 0\n\
    turn 0|core 0 5 false 0";

const VANISHED_JOURNAL: &str = "\
    1 0 register seen; 2 0 look seen; 3 0 publish published; \
    4 0 pass-over 0 /o/pack/pack-a.idx Absent seen; 5 0 look seen";

// A store of one slot, with a multi-pack index of two packs, of which the second is there. Its object is found. Then the multi-pack index is
// rewritten without the first pack, a miss lists that, and the same object is found in it.
const MULTI: &str = "\
    do mkdir /o|- true 0\n\
    do mkdir /o/pack|- true 0\n\
    do put /o/pack/multi-pack-index 1 @midx:pack-a=blob:76657273696f6e20310a;pack-b=blob:68656c6c6f0a|- true 0\n\
    do put /o/pack/pack-b.pack 1 @pack:blob:68656c6c6f0a|- true 0\n\
    open 0 /o slots=1|- false 0\n\
    turn 0|Look /o false false 0\n\
    turn 0|core 0 1 false 0\n\
    find 0 ce013625030ba8dba906f756967f9e9ca394464a|- false 0\n\
    turn 0|core 0 2 false 0\n\
    turn 0|OpenDir /o/pack false false 0\n\
    turn 0|NextEntry /o/pack false false 0\n\
    turn 0|NextEntry /o/pack false false 0\n\
    turn 0|NextEntry /o/pack false false 0\n\
    turn 0|CloseDir /o/pack false false 0\n\
    turn 0|Read /o/pack/multi-pack-index false false 0\n\
    turn 0|core 0 3 false 0\n\
    turn 0|Read /o/pack/pack-b.pack false false 0\n\
    turn 0|core 0 4 false 0\n\
    do put /o/pack/multi-pack-index 2 @midx:pack-b=blob:68656c6c6f0a|- true 0\n\
    find 0 0000000000000000000000000000000000000001|- false 0\n\
    turn 0|Read /o/00/00000000000000000000000000000000000001 false false 0\n\
    turn 0|core 0 5 false 0\n\
    turn 0|OpenDir /o/pack false false 0\n\
    turn 0|NextEntry /o/pack false false 0\n\
    turn 0|NextEntry /o/pack false false 0\n\
    turn 0|NextEntry /o/pack false false 0\n\
    turn 0|CloseDir /o/pack false false 0\n\
    turn 0|Read /o/pack/multi-pack-index false false 0\n\
    turn 0|core 0 6 false 0\n\
    turn 0|Read /o/00/00000000000000000000000000000000000001 false false 0\n\
    turn 0|core 0 7 false 0\n\
    find 0 ce013625030ba8dba906f756967f9e9ca394464a|- false 0\n\
    turn 0|Read /o/pack/pack-b.pack false false 0\n\
    turn 0|core 0 8 false 0";

const MULTI_JOURNAL: &str = "\
    1 0 register seen; 2 0 look seen; 3 0 publish published; 4 0 put-pack 0:1 /o/pack/pack-b.pack stored; \
    5 0 look seen; 6 0 publish published; 7 0 look seen; 8 0 put-pack 0:0 /o/pack/pack-b.pack stored";

fn event_name(event: &Event) -> &'static str {
    match event {
        Event::Register { stable: false } => "register",
        Event::Remove => "remove",
        Event::Look => "look",
        Event::Publish(_) => "publish",
        _ => "another event",
    }
}

fn pack_put_shown(alloc: Global, pack: PackId, path: &PathText) -> Result<String, AllocError> {
    let slot = pack.index;
    match pack.multipack_index {
        Some(place) => format!(in alloc; "put-pack {slot}:{place} {path}"),
        None => format!(in alloc; "put-pack {slot} {path}"),
    }
}

/// An event as a word, with the slot and the path of a file, and the place of a pack in a multi-pack index.
fn event_shown(alloc: Global, event: &Event) -> Result<String, AllocError> {
    match event {
        Event::PutIndex { slot, path, .. } => format!(in alloc; "put-index {slot} {path}"),
        Event::PutPack { pack, path, .. } => pack_put_shown(alloc, *pack, path),
        Event::PassOver { slot, path, why } => format!(in alloc; "pass-over {slot} {path} {why:?}"),
        _ => event_name(event).to_string(alloc),
    }
}

fn answer_shown(answer: &Result<Effect, Refusal>) -> &'static str {
    match answer {
        Ok(Effect::Seen(_)) => "seen",
        Ok(Effect::Removed) => "removed",
        Ok(Effect::Put { stored: true, .. }) => "stored",
        Ok(Effect::Published(_)) => "published",
        Ok(Effect::Unchanged(_)) => "unchanged",
        _ => "another answer",
    }
}

fn entry_shown(alloc: Global, entry: &Entry) -> Result<String, AllocError> {
    let number = entry.number;
    let seat = entry.seat;
    let event = event_shown(alloc, &entry.event)?;
    let answer = answer_shown(&entry.answer);
    format!(in alloc; "{number} {seat} {event} {answer}")
}

fn journal_shown(alloc: Global, journal: &Journal) -> Result<String, AllocError> {
    let mut shown = String::new(alloc);
    for index in 0..journal.len() {
        if let Some(entry) = journal.get(index) {
            let entry = entry_shown(alloc, entry)?;
            shown = joined(alloc, shown.as_str(), entry.as_str())?;
        }
    }
    Ok(shown)
}

/// Compares the journals of a run, one after another, with rows.
fn check_journals(alloc: Global, run: &Run, rows: &str) -> Result<(), Fail> {
    for (journal, row) in run.journals.as_slice().iter().zip(rows.split('\n')) {
        let found = journal_shown(alloc, journal)?;
        compare("a journal", found.as_str(), row)?;
    }
    Ok(())
}

// A failed call that is counted twice or makes its change, a path of another call, a call on a stream that is
// recorded without the path of its folder, or a change that is lost; an entry of another store's journal, or one of
// another handle.
#[test]
fn records_what_each_step_did(rt: HostRuntime) -> Result<(), Fail> {
    let run = run_of(rt.alloc(), &[1, 4, 11], RECORDS)?;
    assert!(rt; run.records.len() == 44 && run.outcomes.len() == 44 && run.journals.len() == 2);
    check_records(rt.alloc(), &run, RECORDS)?;
    check_journals(rt.alloc(), &run, JOURNALS)
}

/// The run of these rows; its records and its one journal are compared.
fn check_recorded(alloc: Global, rows: &str, journal: &str) -> Result<Run, Fail> {
    let run = run_of(alloc, &[], rows)?;
    check_records(alloc, &run, rows)?;
    check_journals(alloc, &run, journal)?;
    Ok(run)
}

/// The run of these rows after those of the store with one pack.
fn check_listed(alloc: Global, rows: &str, journal: &str) -> Result<Run, Fail> {
    let rows = format!(in alloc; "{LISTED}\n{rows}")?;
    check_recorded(alloc, rows.as_str(), journal)
}

// A file that is stored without an entry, in another slot or under another path, an index that is passed over without
// one, or a read that is recorded under another path.
#[test]
fn records_what_is_done_with_files_of_packs(rt: HostRuntime) -> Result<(), Fail> {
    let found = check_listed(rt.alloc(), FOUND, FOUND_JOURNAL)?;
    let vanished = check_listed(rt.alloc(), VANISHED, VANISHED_JOURNAL)?;
    assert!(rt; found.journals.len() == 1 && vanished.journals.len() == 1);
    Ok(())
}

// A multi-pack index that is read a second time, or loaded by an entry of its own; a pack that is stored under another place, or
// under the one that it had before the multi-pack index was rewritten.
#[test]
fn records_packs_of_multi_pack_indices(rt: HostRuntime) -> Result<(), Fail> {
    let run = check_recorded(rt.alloc(), MULTI, MULTI_JOURNAL)?;
    assert!(rt; run.records.len() == 34 && run.journals.len() == 1);
    Ok(())
}
