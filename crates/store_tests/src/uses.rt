//! The calls of `gix_odb_uses`, on a disk in memory and in a real folder.
use crate::calls::store_at;
use crate::words::{id_of, word_of};
use gix_hash::Kind::Sha1;
use gix_odb_loose::Store;
use gix_odb_uses::{Condition, condition_of, copy, keep, kinds_of, put};
use odb_base::PathText;
use odb_host::HostDisk;
use odb_mem_disk::{Disk, MemDisk, MemSource};
use std::alloc::Global;
use std::test::Fail;
use std::{env, fs};
use test_words::{compare, cut, halves};

/// `keep TEXT`: the id.
fn kept<D: Disk>(alloc: Global, disk: &mut D, store: &Store, text: &str) -> Result<String, Fail> {
    let id = keep(alloc, disk, store, text.as_bytes())?;
    Ok(format!(in alloc; "{id}")?)
}

/// `put TEXT`, from a source: the id.
fn streamed<D: Disk>(
    alloc: Global,
    disk: &mut D,
    store: &Store,
    text: &str,
) -> Result<String, Fail> {
    let bytes = Vec::from_slice(alloc, text.as_bytes())?;
    let mut source = MemSource::new(bytes);
    let id = put(alloc, disk, store, text.len() as u64, &mut source)?;
    Ok(format!(in alloc; "{id}")?)
}

/// `copy HEX`: whether there was an object to copy.
fn copied<D: Disk>(
    alloc: Global,
    disk: &mut D,
    store: &Store,
    other: &Store,
    hex: &str,
) -> Result<String, Fail> {
    let id = id_of(store, hex)?;
    if store.object_hash() != other.object_hash() {
        return Err(Fail::new("stores of two hashes"));
    }
    Ok(copy(alloc, disk, store, other, &id)?.to_string(alloc)?)
}

/// `kind HEX`: a kind, or `none`.
fn kind<D: Disk>(alloc: Global, disk: &mut D, store: &Store, hex: &str) -> Result<String, Fail> {
    let ids = [id_of(store, hex)?];
    let kinds = kinds_of(alloc, disk, store, &ids)?;
    match kinds.as_slice() {
        [Some(kind)] => Ok(format!(in alloc; "{kind}")?),
        [None] => word_of(alloc, "none"),
        _ => word_of(alloc, "no answer"),
    }
}

/// `condition HEX`, in a word.
fn condition<D: Disk>(
    alloc: Global,
    disk: &mut D,
    store: &Store,
    hex: &str,
) -> Result<String, Fail> {
    let id = id_of(store, hex)?;
    let condition = condition_of(alloc, disk, store, &id)?;
    word_of(
        alloc,
        match condition {
            Condition::Sound => "sound",
            Condition::Absent => "absent",
            Condition::Damaged => "damaged",
            Condition::Unread => "unread",
        },
    )
}

/// `damage HEX`: adds a byte to its file.
fn damaged<D: Disk>(alloc: Global, disk: &mut D, store: &Store, hex: &str) -> Result<String, Fail> {
    let id = id_of(store, hex)?;
    let path = store.object_path(alloc, &id)?;
    disk.append(alloc, &path, b"!")?;
    word_of(alloc, "done")
}

/// The result of a row: such a call of the first store, or after `other` of the second one.
fn told<D: Disk>(
    alloc: Global,
    disk: &mut D,
    store: &Store,
    other: &Store,
    text: &str,
) -> Result<String, Fail> {
    let (verb, rest) = cut(text);
    match verb {
        "keep" => kept(alloc, disk, store, rest),
        "put" => streamed(alloc, disk, store, rest),
        "copy" => copied(alloc, disk, store, other, rest),
        "kind" => kind(alloc, disk, store, rest),
        "damage" => damaged(alloc, disk, store, rest),
        "other" => condition(alloc, disk, other, rest),
        _ => condition(alloc, disk, store, rest),
    }
}

const ROWS: [&str; 14] = [
    "keep hello|b6fc4c620b67d95f953a5c1c1230aaab5db5a1b0",
    "put hello\n|ce013625030ba8dba906f756967f9e9ca394464a",
    "kind b6fc4c620b67d95f953a5c1c1230aaab5db5a1b0|blob",
    "kind 0000000000000000000000000000000000000000|none",
    "condition b6fc4c620b67d95f953a5c1c1230aaab5db5a1b0|sound",
    "condition ce013625030ba8dba906f756967f9e9ca394464a|sound",
    "condition 0000000000000000000000000000000000000000|absent",
    "other b6fc4c620b67d95f953a5c1c1230aaab5db5a1b0|absent",
    "copy b6fc4c620b67d95f953a5c1c1230aaab5db5a1b0|true",
    "copy 0000000000000000000000000000000000000000|false",
    "other b6fc4c620b67d95f953a5c1c1230aaab5db5a1b0|sound",
    "damage b6fc4c620b67d95f953a5c1c1230aaab5db5a1b0|done",
    "condition b6fc4c620b67d95f953a5c1c1230aaab5db5a1b0|damaged",
    "other b6fc4c620b67d95f953a5c1c1230aaab5db5a1b0|sound",
];

/// Two stores in folders of a disk that are made first, and the result of each row, in turn.
fn check<D: Disk>(alloc: Global, disk: &mut D, top: &str) -> Result<(), Fail> {
    let store = store_made(alloc, disk, top, "one")?;
    let other = store_made(alloc, disk, top, "other")?;
    for row in ROWS {
        check_row(alloc, disk, &store, &other, row)?;
    }
    Ok(())
}

fn store_made<D: Disk>(alloc: Global, disk: &mut D, top: &str, name: &str) -> Result<Store, Fail> {
    let path = format!(in alloc; "{top}/{name}")?;
    disk.make_dir(alloc, &PathText::parse(alloc, path.as_str())?)?;
    store_at(alloc, path.as_str(), Sha1, None)
}

fn check_row<D: Disk>(
    alloc: Global,
    disk: &mut D,
    store: &Store,
    other: &Store,
    row: &str,
) -> Result<(), Fail> {
    let (text, want) = halves(row);
    let found = told(alloc, disk, store, other, text)?;
    compare(text, found.as_str(), want)
}

// A call that gives up, answers for another store, or reports a damaged object as sound or absent.
#[test]
fn in_memory(rt: HostRuntime) -> Result<(), Fail> {
    let mut disk = MemDisk::new(rt.alloc())?;
    check(rt.alloc(), &mut disk, "")
}

// The rows of `in_memory` in a real folder.
#[test]
fn in_a_folder(rt: HostRuntime) -> Result<(), Fail> {
    let _ = fs::remove_dir_all(&rt, "out/uses");
    fs::create_dir_all(&rt, "out/uses")?;
    env::set_current_dir(&rt, "out/uses")?;
    let here = env::current_dir(&rt)?;
    let mut disk = HostDisk::new(rt.alloc(), &rt);
    check(rt.alloc(), &mut disk, here.as_str())
}
