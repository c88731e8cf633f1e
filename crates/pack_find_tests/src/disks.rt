//! Changes of a disk in words: `make PATH`, `link PATH TARGET`, `take PATH`, and a file as `VERB PATH WORD ..`.
use crate::files::contents_of;
use odb_base::PathText;
use odb_mem_disk::{Change, MemDisk};
use std::alloc::Global;
use std::test::Fail;
use test_words::{change_of, cut};

fn file_of(alloc: Global, verb: &str, rest: &str) -> Result<Change, Fail> {
    let (path, words) = cut(rest);
    let path = PathText::parse(alloc, path)?;
    let bytes = contents_of(alloc, verb, words)?;
    Ok(Change::PutFile {
        path,
        time: 7,
        bytes,
    })
}

fn made(alloc: Global, disk: &mut MemDisk, change: &Change) -> Result<(), Fail> {
    Ok(disk.change(alloc, change)?)
}

/// Changes a disk as another program, without a call of it.
pub fn change(alloc: Global, disk: &mut MemDisk, verb: &str, rest: &str) -> Result<(), Fail> {
    let change = match verb {
        "make" | "link" | "take" => change_of(alloc, verb, rest)?,
        _ => file_of(alloc, verb, rest)?,
    };
    made(alloc, disk, &change)
}
