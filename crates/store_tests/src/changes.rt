//! Changes of a disk in memory in words, and rows on one.
use crate::calls::{called, store_at};
use crate::words::{FILE, word_of};
use gix_odb_loose::Store;
use odb_mem_disk::{Change, MemDisk};
use std::alloc::Global;
use std::test::Fail;
use test_words::{change_of, compare, cut, halves};

fn changed(alloc: Global, disk: &mut MemDisk, verb: &str, rest: &str) -> Result<String, Fail> {
    let change = change_of(alloc, verb, rest)?;
    applied(alloc, disk, &change)
}

fn applied(alloc: Global, disk: &mut MemDisk, change: &Change) -> Result<String, Fail> {
    disk.change(alloc, change)?;
    word_of(alloc, "done")
}

/// `file TEXT`: the answers for the blob `hello` if its file has these bytes.
fn answers_of(
    alloc: Global,
    store: &Store,
    disk: &mut MemDisk,
    text: &str,
) -> Result<String, Fail> {
    let file = format!(in alloc; "{FILE} 1 {text}")?;
    changed(alloc, disk, "put", file.as_str())?;
    called(alloc, store, disk, "hello")
}

/// The result of a row on a disk in memory. `calls` returns how many calls of the disk there were.
fn told(alloc: Global, store: &Store, disk: &mut MemDisk, text: &str) -> Result<String, Fail> {
    let (verb, rest) = cut(text);
    match verb {
        "make" | "take" | "put" | "link" => changed(alloc, disk, verb, rest),
        "file" => answers_of(alloc, store, disk, rest),
        "calls" => Ok(disk.calls().to_string(alloc)?),
        _ => called(alloc, store, disk, text),
    }
}

fn check_row(alloc: Global, store: &Store, disk: &mut MemDisk, row: &str) -> Result<(), Fail> {
    let (text, want) = halves(row);
    let found = told(alloc, store, disk, text)?;
    compare(text, found.as_str(), want)
}

/// Checks the result of each row, in turn, on one disk.
pub fn check_on(
    alloc: Global,
    store: &Store,
    disk: &mut MemDisk,
    rows: &[&str],
) -> Result<(), Fail> {
    for row in rows {
        check_row(alloc, store, disk, row)?;
    }
    Ok(())
}

/// `check_on` with a store in `/o` of this hash and limit, on a new disk on which the calls with these numbers fail.
pub fn check(
    alloc: Global,
    hash: gix_hash::Kind,
    limit: Option<u64>,
    failing: &[u64],
    rows: &[&str],
) -> Result<(), Fail> {
    let store = store_at(alloc, "/o", hash, limit)?;
    let mut disk = MemDisk::with_faults(alloc, failing)?;
    check_on(alloc, &store, &mut disk, rows)
}
