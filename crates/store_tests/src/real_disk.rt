//! A real disk.
use crate::calls::{called, store_at};
use gix_hash::Kind::Sha1;
use gix_odb_loose::Store;
use odb_host::HostDisk;
use std::os::fd::{AsRawFd, RawFd};
use std::os::unix::fs::symlink;
use std::test::Fail;
use std::{env, fs, io};
use test_words::{compare, cut, halves};

/// Makes a folder, changes to it, and returns the store in it.
fn enter_folder(rt: &HostRuntime, folder: &str) -> Result<Store, Fail> {
    let _ = fs::remove_dir_all(rt, folder);
    fs::create_dir_all(rt, folder)?;
    env::set_current_dir(rt, folder)?;
    let here = env::current_dir(rt)?;
    store_at(rt.alloc(), here.as_str(), Sha1, None)
}

/// A change of a name in that folder by another program: `file NAME TEXT`, `mkdir NAME`, `link NAME TARGET`, `move
/// NAME OTHER`, or `take NAME`.
fn make(rt: &HostRuntime, verb: &str, rest: &str) -> io::Result<()> {
    let (name, more) = cut(rest);
    match verb {
        "file" => fs::write(rt, name, more.as_bytes()),
        "mkdir" => fs::create_dir(rt, name),
        "link" => symlink(rt, more, name),
        "move" => fs::rename(rt, name, more),
        _ => fs::remove_file(rt, name),
    }
}

/// The result of a row: such a change, `bytes NAME` of a file there, `there NAME`, or a call of the store.
fn told(
    rt: &HostRuntime,
    store: &Store,
    disk: &mut HostDisk<&HostRuntime>,
    text: &str,
) -> Result<String, Fail> {
    let (verb, rest) = cut(text);
    match verb {
        "bytes" => Ok(fs::read_to_string(rt, rest)?),
        "there" => Ok(fs::exists(rt, rest)?.to_string(rt.alloc())?),
        "file" | "mkdir" | "link" | "move" | "take" => {
            make(rt, verb, rest)?;
            Ok("done".to_string(rt.alloc())?)
        }
        _ => called(rt.alloc(), store, disk, text),
    }
}

fn check_row(
    rt: &HostRuntime,
    store: &Store,
    disk: &mut HostDisk<&HostRuntime>,
    row: &str,
) -> Result<(), Fail> {
    let (text, want) = halves(row);
    let found = told(rt, store, disk, text)?;
    compare(text, found.as_str(), want)
}

/// Checks the result of each row, in turn. Returns how many calls failed.
fn check(rt: &HostRuntime, store: &Store, rows: &[&str]) -> Result<u64, Fail> {
    let mut disk = HostDisk::new(rt.alloc(), rt);
    for row in rows {
        check_row(rt, store, &mut disk, row)?;
    }
    Ok(disk.faults())
}

const FINDS: [&str; 20] = [
    "hello|none, none, no",
    "mkdir b6|done",
    "hello|none, none, no",
    "file b6/fc4c620b67d95f953a5c1c1230aaab5db5a1b0 blob 5\0hello|done",
    "hello|blob hello, blob 5, yes",
    "move b6/fc4c620b67d95f953a5c1c1230aaab5db5a1b0 b6/object|done",
    "link b6/fc4c620b67d95f953a5c1c1230aaab5db5a1b0 object|done",
    "hello|blob hello, blob 5, yes",
    "file b6/fc4c620b67d95f953a5c1c1230aaab5db5a1b0 other bytes|done",
    "hello|decode, decode, yes",
    "file b6/fc4c620b67d95f953a5c1c1230aaab5db5a1b0 |done",
    "hello|io, io, yes",
    "take b6/fc4c620b67d95f953a5c1c1230aaab5db5a1b0|done",
    "mkdir b6/fc4c620b67d95f953a5c1c1230aaab5db5a1b0|done",
    "hello|io, io, no",
    "move b6/fc4c620b67d95f953a5c1c1230aaab5db5a1b0 b6/folder|done",
    "there b6/folder|true",
    "link b6/fc4c620b67d95f953a5c1c1230aaab5db5a1b0 /dev/null|done",
    "hello|io, io, io",
    "take b6/fc4c620b67d95f953a5c1c1230aaab5db5a1b0|done",
];

/// How many calls fail at a link to an open pipe.
fn faults_at_a_pipe(rt: &HostRuntime, store: &Store) -> Result<u64, Fail> {
    let (reader, writer) = io::pipe(rt)?;
    let faults = faults_at(rt, store, reader.as_raw_fd())?;
    drop(writer);
    Ok(faults)
}

fn faults_at(rt: &HostRuntime, store: &Store, number: RawFd) -> Result<u64, Fail> {
    let name = "b6/fc4c620b67d95f953a5c1c1230aaab5db5a1b0";
    let link = format!(in rt.alloc(); "link {name} /proc/self/fd/{number}|done")?;
    check(rt, store, &[link.as_str(), "hello|io, io, io"])
}

// A real folder with other results than one in memory: nothing, a file, a link to one, other bytes, no bytes, a
// directory; a device or a pipe that is read, which would wait for bytes that nobody writes.
#[test]
fn finds(rt: HostRuntime) -> Result<(), Fail> {
    let store = enter_folder(&rt, "out/finds")?;
    let faults = check(&rt, &store, &FINDS)?;
    let more = faults_at_a_pipe(&rt, &store)?;
    assert!(rt; faults == 3 && more == 3);
    Ok(())
}

const WRITES: [&str; 10] = [
    "write blob hello|b6fc4c620b67d95f953a5c1c1230aaab5db5a1b0",
    "bytes b6/fc4c620b67d95f953a5c1c1230aaab5db5a1b0|blob 5\0hello",
    "there tmp_obj_0|false",
    "hello|blob hello, blob 5, yes",
    "write blob hello\n|ce013625030ba8dba906f756967f9e9ca394464a",
    "ask ce013625030ba8dba906f756967f9e9ca394464a|blob hello\n, blob 6, yes",
    "stream 70000 0 70000|a4468a72cf236519af2d10907beb2b1877bfc244",
    "ask a4468a72cf236519af2d10907beb2b1877bfc244|blob 70000, blob 70000, yes",
    "stream 70001 0 70000|size 70000",
    "there tmp_obj_0|false",
];

// A real file of other bytes than the header and the data, or that isn't found; bytes that are lost between two
// pieces; a temporary file that stays.
#[test]
fn writes(rt: HostRuntime) -> Result<(), Fail> {
    let store = enter_folder(&rt, "out/writes")?;
    let faults = check(&rt, &store, &WRITES)?;
    assert!(rt; faults == 0);
    Ok(())
}
