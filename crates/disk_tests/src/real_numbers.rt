//! The numbers and times that a real disk reports.
use crate::real::{enter, here, path_here, path_of};
use odb_host::HostDisk;
use odb_mem_disk::{Disk, DiskError, Entry, Meta, PathText};
use std::alloc::{AllocError, Global};
use std::fs::{self, Metadata, OpenOptions};
use std::io;
use std::os::unix::fs::{MetadataExt, symlink};
use std::test::Fail;
use std::time::{Duration, UNIX_EPOCH};
use test_words::{compare, cut, halves};

/// The time that the bytes of the file are given: nanoseconds since 1970, in September 2001. Its other times are those of
/// the test.
const TIME: u64 = 1_000_000_000_123_456_789;

fn set_time(rt: &HostRuntime, name: &str) -> Result<(), Fail> {
    let time = UNIX_EPOCH
        .checked_add(Duration::from_nanos(TIME))
        .ok_or("no such time")?;
    let file = OpenOptions::new().write(true).open(rt, name)?;
    Ok(file.set_modified(time)?)
}

/// Numbers and time of a file in words.
fn told(alloc: Global, dev: u64, ino: u64, time: u64) -> Result<String, AllocError> {
    format!(in alloc; "{dev} {ino} {time}")
}

fn told_by_disk(alloc: Global, meta: Meta) -> Result<String, AllocError> {
    told(alloc, meta.dev, meta.ino, meta.time)
}

/// The numbers that std reports of a file, and the time that it was given.
fn told_by_std(alloc: Global, metadata: &Metadata) -> Result<String, AllocError> {
    told(alloc, metadata.dev(), metadata.ino(), TIME)
}

/// A stat of a file, with the time from a read, and the inode number from the stream of its directory.
fn looked<D: Disk>(
    alloc: Global,
    disk: &mut D,
    file: &PathText,
    dir: &PathText,
) -> Result<Meta, DiskError> {
    let seen = disk.look(alloc, file, true)?;
    let (_, time) = disk.read(alloc, file)?;
    let ino = first_ino(alloc, disk, dir)?;
    Ok(Meta { ino, time, ..seen })
}

fn first_ino<D: Disk>(alloc: Global, disk: &mut D, path: &PathText) -> Result<u64, DiskError> {
    let dir = disk.open_dir(alloc, path)?;
    let entry = disk.next_entry(alloc, &dir)?;
    disk.close_dir(dir);
    Ok(ino_of(entry))
}

fn ino_of(entry: Option<Entry>) -> u64 {
    match entry {
        Some(entry) => entry.ino,
        None => 0,
    }
}

fn compare_told(alloc: Global, name: &str, found: Meta, want: &str) -> Result<(), Fail> {
    let found = told_by_disk(alloc, found)?;
    compare(name, found.as_str(), want)
}

/// Compares a stat of a file with what its read and its directory's stream report.
fn check_numbers<D: Disk>(
    alloc: Global,
    disk: &mut D,
    dir: &PathText,
    name: &str,
    want: &str,
) -> Result<(), Fail> {
    let file = dir.join(alloc, name)?;
    compare_told(alloc, "a look", disk.look(alloc, &file, true)?, want)?;
    compare_told(alloc, "a read", looked(alloc, disk, &file, dir)?, want)
}

/// Makes a folder with a file that has the time above, goes there, and returns what should be reported of the file.
fn enter_numbers(rt: &HostRuntime) -> Result<String, Fail> {
    enter(rt, "out/numbers")?;
    fs::write(rt, "f", b"abc")?;
    set_time(rt, "f")?;
    Ok(told_by_std(rt.alloc(), &fs::metadata(rt, "f")?)?)
}

// Catches device and inode number that are exchanged, and a time that isn't in nanoseconds, is the length, is that of
// the last change of a name or of the last read, or is another one in a read.
#[test]
fn numbers_and_times(rt: HostRuntime) -> Result<(), Fail> {
    let want = enter_numbers(&rt)?;
    let path = path_here(&rt)?;
    let mut disk = HostDisk::new(rt.alloc(), &rt);
    check_numbers(rt.alloc(), &mut disk, &path, "f", want.as_str())?;
    fs::rename(&rt, "f", "g")?;
    check_numbers(rt.alloc(), &mut disk, &path, "g", want.as_str())
}

/// Makes a folder with two files, a directory, and other names of one file, and goes there.
fn enter_nodes(rt: &HostRuntime) -> io::Result<()> {
    enter(rt, "out/nodes")?;
    fs::write(rt, "f", b"abc")?;
    fs::write(rt, "g", b"abc")?;
    fs::create_dir(rt, "d")?;
    fs::hard_link(rt, "f", "same")?;
    symlink(rt, "f", "to_f")
}

/// Which of two nodes are one, or are on one device. `/proc` is a device of its own.
const NODES: &str = "\
    f f|one node\n\
    f same|one node\n\
    f to_f|one node\n\
    f g|one device\n\
    f d|one device\n\
    f /proc|two devices\n\
    d /proc|two devices\n\
    /proc /proc/version|one device";

/// How two nodes differ.
fn beside(one: Meta, other: Meta) -> &'static str {
    match (one.dev == other.dev, one.ino == other.ino) {
        (true, true) => "one node",
        (true, false) => "one device",
        (false, _) => "two devices",
    }
}

fn seen<D: Disk>(alloc: Global, disk: &mut D, folder: &str, name: &str) -> Result<Meta, Fail> {
    Ok(disk.look(alloc, &path_of(alloc, folder, name)?, true)?)
}

/// Stats the two nodes of each row.
fn check_nodes<D: Disk>(alloc: Global, disk: &mut D, folder: &str) -> Result<(), Fail> {
    for row in NODES.split('\n') {
        let (names, want) = halves(row);
        let (one, other) = cut(names);
        let one = seen(alloc, disk, folder, one)?;
        let other = seen(alloc, disk, folder, other)?;
        compare(names, beside(one, other), want)?;
    }
    Ok(())
}

// Catches an inode number that is reported as the device, a device that is the same for all nodes, and another number
// of a node under another name.
#[test]
fn nodes_and_devices(rt: HostRuntime) -> Result<(), Fail> {
    enter_nodes(&rt)?;
    let folder = here(&rt)?;
    let mut disk = HostDisk::new(rt.alloc(), &rt);
    check_nodes(rt.alloc(), &mut disk, folder.as_str())
}
