//! Disks, walks and items in words.
use odb_mem_disk::MemDisk;
use std::alloc::{AllocError, Global};
use std::fmt::Write;
use std::test::Fail;
use test_words::{change_of, compare, cut, halves};
use walkdir::{DirEntry, Error, NoSort, WalkDir};

/// What a table asks of a disk.
pub trait Question {
    /// Writes what is asked.
    fn tell(
        &self,
        alloc: Global,
        told: &mut String,
        disk: &mut MemDisk,
        asked: &str,
    ) -> Result<(), Fail>;
}

/// Compares what is written for each row on a new disk with these nodes. A row is what is asked, and after a bar what
/// is wanted. It may begin with `fail` and the number of the call that fails.
pub fn check<Q: Question>(
    alloc: Global,
    question: &Q,
    nodes: &str,
    rows: &str,
) -> Result<(), Fail> {
    for row in rows.split('\n') {
        check_row(alloc, question, nodes, row)?;
    }
    Ok(())
}

fn check_row<Q: Question>(alloc: Global, question: &Q, nodes: &str, row: &str) -> Result<(), Fail> {
    let (text, want) = halves(row);
    let (number, asked) = match text.strip_prefix("fail ") {
        Some(rest) => cut(rest),
        None => ("0", text),
    };
    let number = number.parse::<u64>()?;
    check_call(alloc, question, nodes, asked, number, want)?;
    Ok(())
}

/// Compares what is written if the call with this number fails, and returns how many calls were made.
pub fn check_call<Q: Question>(
    alloc: Global,
    question: &Q,
    nodes: &str,
    asked: &str,
    number: u64,
    want: &str,
) -> Result<u64, Fail> {
    let mut told = String::new(alloc);
    let mut disk = MemDisk::with_faults(alloc, &[number])?;
    put_all(alloc, &mut disk, nodes)?;
    question.tell(alloc, &mut told, &mut disk, asked)?;
    compare(asked, told.as_str().trim_end(), want)?;
    Ok(disk.calls())
}

/// Puts these nodes on a disk, each a change in words.
fn put_all(alloc: Global, disk: &mut MemDisk, nodes: &str) -> Result<(), Fail> {
    for node in nodes.split(", ") {
        put(alloc, disk, node)?;
    }
    Ok(())
}

fn put(alloc: Global, disk: &mut MemDisk, node: &str) -> Result<(), Fail> {
    let (verb, rest) = cut(node);
    let change = change_of(alloc, verb, rest)?;
    disk.change(alloc, &change)?;
    Ok(())
}

/// A walk with options: `follow`, `noroot`, `first` for contents first, `same` for one file system, `min N`, `max N`,
/// `open N`. Other words change nothing.
pub fn built(walk: WalkDir<NoSort>, options: &str) -> WalkDir<NoSort> {
    let mut walk = walk;
    for option in options.split(", ") {
        let (word, number) = cut(option);
        walk = with_option(walk, word, number.parse::<usize>().unwrap_or(0));
    }
    walk
}

fn with_option(walk: WalkDir<NoSort>, word: &str, number: usize) -> WalkDir<NoSort> {
    match word {
        "follow" => walk.follow_links(true),
        "noroot" => walk.follow_root_links(false),
        "first" => walk.contents_first(true),
        "same" => walk.same_file_system(true),
        "min" => walk.min_depth(number),
        "max" => walk.max_depth(number),
        "open" => walk.max_open(number),
        _ => walk,
    }
}

/// Writes an item: the path, with `@` after an entry that is a link or was found through one, or the error.
pub fn tell(told: &mut String, item: walkdir::Result<DirEntry>) -> Result<(), AllocError> {
    match item {
        Ok(entry) => tell_entry(told, &entry),
        Err(error) => tell_error(told, &error),
    }
}

/// Writes an item, or that there is none.
pub fn tell_next(
    told: &mut String,
    item: Option<walkdir::Result<DirEntry>>,
) -> Result<(), AllocError> {
    match item {
        Some(item) => tell(told, item),
        None => told.push_str("end "),
    }
}

fn tell_entry(told: &mut String, entry: &DirEntry) -> Result<(), AllocError> {
    let mark = if entry.path_is_symlink() { "@" } else { "" };
    let path = entry.path();
    write!(told, "{path}{mark} ")
}

/// Writes an error's text and depth, in brackets.
pub fn tell_error(told: &mut String, error: &Error) -> Result<(), AllocError> {
    let depth = error.depth();
    write!(told, "[{error} {depth}] ")
}
