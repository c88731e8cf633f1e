//! What a real disk reports of large and odd directories.
use crate::real::{count, enter, listed_there, path_here};
use odb_host::HostDisk;
use odb_mem_disk::{DirId, Disk, Entry, PathText};
use std::alloc::{AllocError, Global};
use std::fs;
use std::test::Fail;
use test_words::compare;

// Catches a device that is skipped in silence, or that hides the entries next to it.
#[test]
fn devices_among_entries(rt: HostRuntime) -> Result<(), Fail> {
    let (text, faults) = listed_there(&rt, "/dev")?;
    assert!(rt; text.as_str().ends_with(", Failed; end; Absent"));
    count(faults, 1)
}

/// The number of files in the large directory.
const MANY: usize = 3000;

/// The name of one of them. All have four digits.
fn name_of(alloc: Global, number: usize) -> Result<String, AllocError> {
    format!(in alloc; "f{}", number % MANY + 1000)
}

fn make_many(rt: &HostRuntime) -> Result<(), Fail> {
    for number in 0..MANY {
        fs::write(rt, name_of(rt.alloc(), number)?.as_str(), b"")?;
    }
    Ok(())
}

/// Takes the names that a stream gives up to its end.
fn take_names<D: Disk>(
    alloc: Global,
    disk: &mut D,
    dir: &DirId,
    names: &mut Vec<String>,
) -> Result<(), Fail> {
    for _ in 0..2 * MANY {
        let Some(entry) = disk.next_entry(alloc, dir)? else {
            break;
        };
        add_name(alloc, names, &entry)?;
    }
    Ok(())
}

fn add_name(alloc: Global, names: &mut Vec<String>, entry: &Entry) -> Result<(), AllocError> {
    names.push(entry.name.as_str().to_string(alloc)?)?;
    Ok(())
}

fn compare_names(alloc: Global, names: &[String]) -> Result<(), Fail> {
    for (number, name) in names.iter().enumerate() {
        compare("a name", name.as_str(), name_of(alloc, number)?.as_str())?;
    }
    Ok(())
}

fn check_names(alloc: Global, names: &mut Vec<String>) -> Result<(), Fail> {
    names.sort()?;
    compare_names(alloc, names.as_slice())?;
    count(names.len() as u64, MANY as u64)
}

fn check_many<D: Disk>(alloc: Global, disk: &mut D, path: &PathText) -> Result<(), Fail> {
    let dir = disk.open_dir(alloc, path)?;
    let mut names = Vec::new(alloc);
    take_names(alloc, disk, &dir, &mut names)?;
    disk.close_dir(dir);
    check_names(alloc, &mut names)
}

/// Makes the large directory and goes there.
fn enter_many(rt: &HostRuntime) -> Result<PathText, Fail> {
    enter(rt, "out/many")?;
    make_many(rt)?;
    path_here(rt)
}

// Catches a name that is lost or given twice when a directory is read in several pieces.
#[test]
fn many_entries(rt: HostRuntime) -> Result<(), Fail> {
    let path = enter_many(&rt)?;
    let mut disk = HostDisk::new(rt.alloc(), &rt);
    check_many(rt.alloc(), &mut disk, &path)
}
