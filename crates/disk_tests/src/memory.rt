//! A disk in memory in words: what calls, changes and counts return.
use crate::words::{
    answer_shown, ask_of, change_shown, error_shown, file_shown, meta_shown, next_shown,
};
use odb_mem_disk::{
    ByteList, Change, DirId, Disk, DiskAnswer, DiskAsk, DiskError, MemDisk, Meta, Op, PathText,
    Tree,
};
use std::alloc::{AllocError, Global};
use std::test::Fail;
use test_words::{add, change_of, compare, cut, halves};

fn told(alloc: Global, disk: &mut MemDisk, text: &str) -> Result<String, Fail> {
    let (verb, rest) = cut(text);
    match verb {
        "put" | "make" | "move" | "more" | "link" | "time" | "take" => {
            changed(alloc, disk, verb, rest)
        }
        "open" => opened(alloc, disk, rest),
        "next" => next(alloc, disk, rest),
        "close" => closed(alloc, disk, rest),
        "value" => carried_out(alloc, disk, rest),
        "tree" => in_tree(alloc, disk, rest),
        "counts" => counts(alloc, disk),
        _ => called(alloc, disk, verb, rest),
    }
}

/// A change of another program.
fn changed(alloc: Global, disk: &mut MemDisk, verb: &str, rest: &str) -> Result<String, Fail> {
    let change = change_of(alloc, verb, rest)?;
    made(alloc, disk, &change)
}

fn made(alloc: Global, disk: &mut MemDisk, change: &Change) -> Result<String, Fail> {
    Ok(change_shown(alloc, disk.change(alloc, change))?)
}

/// A call.
fn called(alloc: Global, disk: &mut MemDisk, verb: &str, rest: &str) -> Result<String, Fail> {
    let ask = ask_of(alloc, verb, rest)?;
    answered(alloc, disk, &ask)
}

fn answered(alloc: Global, disk: &mut MemDisk, ask: &DiskAsk) -> Result<String, Fail> {
    Ok(answer_shown(alloc, &ask.carry_out(alloc, disk))?)
}

/// The name of a call, and what it returns if the disk is passed it as a value.
fn carried_out(alloc: Global, disk: &mut MemDisk, text: &str) -> Result<String, Fail> {
    let (verb, rest) = cut(text);
    let ask = value_of(alloc, verb, rest)?;
    value_shown(alloc, disk, &ask)
}

/// A call as a value, also one of streams.
fn value_of(alloc: Global, verb: &str, rest: &str) -> Result<DiskAsk, Fail> {
    match verb {
        "open" => open_ask(PathText::parse(alloc, rest)?),
        "next" => Ok(DiskAsk::NextEntry {
            dir: dir_of(alloc, rest)?,
        }),
        "close" => Ok(DiskAsk::CloseDir {
            dir: dir_of(alloc, rest)?,
        }),
        _ => ask_of(alloc, verb, rest),
    }
}

fn open_ask(path: PathText) -> Result<DiskAsk, Fail> {
    Ok(DiskAsk::OpenDir { path })
}

fn value_shown(alloc: Global, disk: &mut MemDisk, ask: &DiskAsk) -> Result<String, Fail> {
    let answer = disk.carry_out(alloc, ask)?;
    Ok(op_shown(alloc, ask.op(), &answer)?)
}

fn op_shown(alloc: Global, op: Op, answer: &DiskAnswer) -> Result<String, AllocError> {
    let answer = answer_shown(alloc, answer)?;
    format!(in alloc; "{op:?} {answer}")
}

fn opened(alloc: Global, disk: &mut MemDisk, text: &str) -> Result<String, Fail> {
    let path = PathText::parse(alloc, text)?;
    Ok(opened_shown(alloc, disk.open_dir(alloc, &path))?)
}

fn opened_shown(alloc: Global, opened: Result<DirId, DiskError>) -> Result<String, AllocError> {
    match opened {
        Ok(dir) => {
            let number = dir.number();
            format!(in alloc; "{number}")
        }
        Err(error) => error_shown(alloc, error),
    }
}

fn next(alloc: Global, disk: &mut MemDisk, text: &str) -> Result<String, Fail> {
    let dir = dir_of(alloc, text)?;
    Ok(next_shown(alloc, disk.next_entry(alloc, &dir))?)
}

fn closed(alloc: Global, disk: &mut MemDisk, text: &str) -> Result<String, Fail> {
    disk.close_dir(dir_of(alloc, text)?);
    Ok("done".to_string(alloc)?)
}

/// The stream with a number. Another disk gives it that number, after those below it.
fn dir_of(alloc: Global, text: &str) -> Result<DirId, Fail> {
    let number = text.parse::<u64>()?;
    let mut other = MemDisk::new(alloc)?;
    numbered(alloc, &mut other, &PathText::root(alloc), number)
}

fn numbered(
    alloc: Global,
    disk: &mut MemDisk,
    path: &PathText,
    number: u64,
) -> Result<DirId, Fail> {
    let mut dir = disk.open_dir(alloc, path)?;
    for _ in 0..number {
        dir = disk.open_dir(alloc, path)?;
    }
    Ok(dir)
}

/// The results for a path in a copy of the disk's tree: of a stat, and of a read.
fn in_tree(alloc: Global, disk: &MemDisk, text: &str) -> Result<String, Fail> {
    let path = PathText::parse(alloc, text)?;
    let tree = disk.tree().try_clone(alloc)?;
    Ok(tree_shown(alloc, &tree, &path)?)
}

fn tree_shown(alloc: Global, tree: &Tree, path: &PathText) -> Result<String, AllocError> {
    both_shown(alloc, tree.look(alloc, path, true), tree.read(alloc, path))
}

fn both_shown(
    alloc: Global,
    look: Result<Meta, DiskError>,
    read: Result<(ByteList, u64), DiskError>,
) -> Result<String, AllocError> {
    let mut all = look_shown(alloc, look)?;
    add(&mut all, read_shown(alloc, read)?.as_str())?;
    Ok(all)
}

fn look_shown(alloc: Global, look: Result<Meta, DiskError>) -> Result<String, AllocError> {
    match look {
        Ok(meta) => meta_shown(alloc, meta),
        Err(error) => error_shown(alloc, error),
    }
}

fn read_shown(
    alloc: Global,
    read: Result<(ByteList, u64), DiskError>,
) -> Result<String, AllocError> {
    match read {
        Ok((bytes, time)) => file_shown(alloc, bytes.as_slice(), time),
        Err(error) => error_shown(alloc, error),
    }
}

/// The number of calls, and of those that failed.
fn counts(alloc: Global, disk: &MemDisk) -> Result<String, Fail> {
    let (calls, faults) = (disk.calls(), disk.faults());
    Ok(format!(in alloc; "{calls} {faults}")?)
}

/// The results of the parts of a text between semicolons, in turn.
fn all_told(alloc: Global, disk: &mut MemDisk, texts: &str) -> Result<String, Fail> {
    let mut all = String::new(alloc);
    for text in texts.split("; ") {
        add(&mut all, told(alloc, disk, text)?.as_str())?;
    }
    Ok(all)
}

/// Does what each row says, in turn, and compares the result.
pub(crate) fn check(alloc: Global, disk: &mut MemDisk, rows: &str) -> Result<(), Fail> {
    for row in rows.split('\n') {
        let (texts, want) = halves(row);
        compare(texts, all_told(alloc, disk, texts)?.as_str(), want)?;
    }
    Ok(())
}

/// Checks rows on a disk of its own, whose calls with these numbers fail.
pub(crate) fn check_anew(alloc: Global, faults: &[u64], rows: &str) -> Result<(), Fail> {
    let mut disk = MemDisk::with_faults(alloc, faults)?;
    check(alloc, &mut disk, rows)
}

/// Checks each row on a disk of its own, after other rows.
pub(crate) fn check_each(alloc: Global, before: &str, rows: &str) -> Result<(), Fail> {
    for row in rows.split('\n') {
        check_behind(alloc, before, row)?;
    }
    Ok(())
}

fn check_behind(alloc: Global, before: &str, row: &str) -> Result<(), Fail> {
    let mut disk = MemDisk::new(alloc)?;
    check(alloc, &mut disk, before)?;
    check(alloc, &mut disk, row)
}
