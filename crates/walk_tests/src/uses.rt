//! What callers of walks find on a disk in memory.
use super::words::{Question, check, check_call, tell_error};
use odb_mem_disk::{MemDisk, PathText};
use std::alloc::{AllocError, Global};
use std::fmt::Write;
use std::test::Fail;
use test_words::cut;
use walkdir::{DirEntry, WalkDir};
use walkdir_uses::{entries_of, files_below, size_below, visible_below, visible_names_in};

/// A folder with a hidden file, a folder with a file, a file and a link to another folder.
const NODES: &str = "\
    make /t, make /t/a, make /u, put /t/.h 0 hello, put /t/a/x 0 abc, put /t/b 0 four, put /u/y 0 far away, link /t/l /u";

fn tell_entries(told: &mut String, entries: &[DirEntry]) -> Result<(), AllocError> {
    for entry in entries {
        let path = entry.path();
        write!(told, "{path} ")?;
    }
    Ok(())
}

fn tell_files(
    alloc: Global,
    told: &mut String,
    disk: &mut MemDisk,
    folder: &PathText,
) -> walkdir::Result<()> {
    let paths = files_below(alloc, disk, folder)?;
    for path in &paths {
        write!(told, "{path} ")?;
    }
    Ok(())
}

fn tell_names(
    alloc: Global,
    told: &mut String,
    disk: &mut MemDisk,
    folder: &PathText,
) -> walkdir::Result<()> {
    let names = visible_names_in(alloc, disk, folder)?;
    for name in &names {
        write!(told, "{name} ")?;
    }
    Ok(())
}

fn tell_visible(
    alloc: Global,
    told: &mut String,
    disk: &mut MemDisk,
    folder: &PathText,
) -> walkdir::Result<()> {
    let entries = visible_below(alloc, disk, folder)?;
    Ok(tell_entries(told, &entries)?)
}

fn tell_size(
    alloc: Global,
    told: &mut String,
    disk: &mut MemDisk,
    folder: &PathText,
) -> walkdir::Result<()> {
    let size = size_below(alloc, disk, folder)?;
    Ok(write!(told, "{size}")?)
}

/// Writes the entries below a folder, by a walk that has at most `open` folders open.
fn tell_all(
    alloc: Global,
    told: &mut String,
    disk: &mut MemDisk,
    folder: &PathText,
    open: usize,
) -> walkdir::Result<()> {
    let walk = WalkDir::new(alloc, folder)?.max_open(open);
    let entries = entries_of(alloc, disk, walk)?;
    Ok(tell_entries(told, &entries)?)
}

fn tell(
    alloc: Global,
    told: &mut String,
    disk: &mut MemDisk,
    folder: &PathText,
    question: &str,
) -> walkdir::Result<()> {
    match question {
        "files" => tell_files(alloc, told, disk, folder),
        "names" => tell_names(alloc, told, disk, folder),
        "visible" => tell_visible(alloc, told, disk, folder),
        "size" => tell_size(alloc, told, disk, folder),
        open => {
            let open = open.parse::<usize>().unwrap_or(0);
            tell_all(alloc, told, disk, folder, open)
        }
    }
}

/// What callers find. A row asks a question and names a folder. A question is `files`, `names`, `visible`, `size`, or for
/// all entries the number of folders that may be open.
struct Found;

impl Question for Found {
    fn tell(
        &self,
        alloc: Global,
        told: &mut String,
        disk: &mut MemDisk,
        asked: &str,
    ) -> Result<(), Fail> {
        let (question, folder) = cut(asked);
        let folder = PathText::parse(alloc, folder)?;
        match tell(alloc, told, disk, &folder, question) {
            Ok(()) => Ok(()),
            Err(error) => Ok(tell_error(told, &error)?),
        }
    }
}

const ROWS: &str = "\
    files /t|/t/.h /t/a/x /t/b\n\
    names /t|a b l\n\
    size /t|12\n\
    visible /t|/t /t/a /t/a/x /t/b /t/l\n\
    0 /t|/t /t/.h /t/a /t/a/x /t/b /t/l\n\
    1 /t|/t /t/.h /t/a /t/a/x /t/b /t/l\n\
    2 /t|/t /t/.h /t/a /t/a/x /t/b /t/l\n\
    3 /t|/t /t/.h /t/a /t/a/x /t/b /t/l\n\
    files /t/none|[IO error for operation on /t/none: Absent 0]";

// Catches a link that is followed, a hidden name that is given, sizes of what is no file, a walk that depends on how many
// folders may be open, and an absent folder that is taken for an empty one.
#[test]
fn what_a_folder_holds(rt: HostRuntime) -> Result<(), Fail> {
    check(rt.alloc(), &Found, NODES, ROWS)
}

/// The size of a folder, asked for twice: whether the first answer is an error, how many calls had failed then, and the
/// second answer.
struct Twice;

impl Question for Twice {
    fn tell(
        &self,
        alloc: Global,
        told: &mut String,
        disk: &mut MemDisk,
        asked: &str,
    ) -> Result<(), Fail> {
        let folder = PathText::parse(alloc, asked)?;
        let is_error = size_below(alloc, disk, &folder).is_err();
        let faults = disk.faults();
        let size = size_below(alloc, disk, &folder)?;
        Ok(write!(told, "{is_error} {faults} {size}")?)
    }
}

// Catches an error that is swallowed, at any call of the walk, and a walk that fails when none of its calls does.
#[test]
fn each_error_is_told(rt: HostRuntime) -> Result<(), Fail> {
    let calls = check_call(rt.alloc(), &Twice, NODES, "/t", 0, "false 0 12")?;
    for number in 1..=calls / 2 {
        check_call(rt.alloc(), &Twice, NODES, "/t", number, "true 1 12")?;
    }
    Ok(())
}
