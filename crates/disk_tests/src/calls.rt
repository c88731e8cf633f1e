//! What calls of a small disk return, that they succeed, and which of them fail.
use crate::memory::{check, check_anew};
use odb_mem_disk::MemDisk;
use std::alloc::Global;
use std::test::Fail;

// Catches a stat or a read at the wrong path, an error in place of another, a device not taken from the folder, and
// bytes or a time of another file.
const LOOKS: &str = "\
    make /o 3|done\n\
    put /o/f 7 hi|done\n\
    follow /|Dir 0 1 0 0\n\
    follow /o|Dir 3 2 0 0\n\
    follow /o/f|File 3 3 2 7\n\
    follow /o/f/x|WrongKind\n\
    follow /o/g|Absent\n\
    follow /p/f|Absent\n\
    follow /f|Absent\n\
    read /|WrongKind\n\
    read /o|WrongKind\n\
    read /o/f|hi 7\n\
    read /o/f/x|WrongKind\n\
    read /x|Absent";

// Catches a fault at the wrong call, and a change that is counted.
const FAULTS: &str = "\
    make /o 3|done\n\
    put /o/f 7 hi|done\n\
    put /o/f 7 hi|done\n\
    follow /o/f|File 3 3 2 7\n\
    put /o/f 7 hi|done\n\
    follow /x|Failed\n\
    put /o/f 7 hi|done\n\
    follow /x|Absent\n\
    put /o/f 7 hi|done\n\
    follow /o/f|Failed\n\
    counts|4 2";

// Catches bytes that are put before the old ones, and a call that fails but appends.
const APPENDS: &str = "\
    make /o 3|done\n\
    put /o/f 7 hi|done\n\
    append /o/f there|done\n\
    append /o/f nobody|Failed\n\
    append /o/f|done\n\
    more /o/f !|done\n\
    read /o/f|hithere! 7";

// Catches a call that writes otherwise than it says.
const WRITES: &str = "\
    make /o 3|done\n\
    put /o/f 7 hi|done\n\
    mkdir /p|done\n\
    mkdir /p|Exists\n\
    new /p/f|done\n\
    append /p/f abc|done\n\
    rename /p/f /p/g|done\n\
    remove /p/f|Absent\n\
    remove /p/g|done\n\
    remove /p|done";

// Catches a call as a value that is made as another one, and a tree that isn't the disk's.
const VALUES: &str = "\
    make /o 3|done\n\
    put /o/f 7 hi|done\n\
    value follow /o/f|Look File 3 3 2 7\n\
    value read /o/f|Read hi 7\n\
    value mkdir /p|MakeDir done\n\
    value mkdir /p|MakeDir Exists\n\
    value new /p/f|NewFile done\n\
    value append /p/f abc|Append done\n\
    value rename /p/f /p/g|Rename done\n\
    read /p/g|abc 0\n\
    value remove /p/f|Remove Absent\n\
    value remove /p/g|Remove done\n\
    value remove /p|Remove done\n\
    tree /o/f|File 3 3 2 7, hi 7\n\
    tree /o|Dir 3 2 0 0, WrongKind";

// Catches a bare root that is removed.
const ROOT: &str = "remove /|WrongKind";

// Catches what the lines above the tables say.
#[test]
fn calls(rt: HostRuntime) -> Result<(), Fail> {
    for rows in [LOOKS, WRITES, VALUES, ROOT] {
        check_anew(rt.alloc(), &[], rows)?;
    }
    check_anew(rt.alloc(), &[2, 4], FAULTS)?;
    check_anew(rt.alloc(), &[2], APPENDS)
}

/// Rows for a disk, and then for a copy of it that was made before.
fn check_copy(alloc: Global, disk: &mut MemDisk, rows: &str, copied: &str) -> Result<(), Fail> {
    let mut copy = disk.try_clone(alloc)?;
    check(alloc, disk, rows)?;
    check(alloc, &mut copy, copied)
}

fn check_copies(alloc: Global, disk: &mut MemDisk) -> Result<(), Fail> {
    check(alloc, disk, "make /o 3|done\nput /o/f 7 hi|done")?;
    let copied = "follow /o/f|Failed\nfollow /o/f|File 3 3 2 7";
    check_copy(alloc, disk, "take /o/f|done", copied)?;
    check(alloc, disk, "counts|0 0")
}

// Catches a copy that forgets what will fail, or that shares its tree.
#[test]
fn copies(rt: HostRuntime) -> Result<(), Fail> {
    let mut disk = MemDisk::with_faults(rt.alloc(), &[1])?;
    check_copies(rt.alloc(), &mut disk)
}
