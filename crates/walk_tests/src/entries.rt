//! What entries and errors return.
ghost use Rattle.std.specs.Prelude.{if◌then◌else◌};
ghost use Rattle.std.specs.Iterator.{IsFinite};
ghost use Rattle.walkdir.specs.Entry.{is_dir};

use super::words::{Question, built, check};
use odb_mem_disk::{DiskError, Kind, MemDisk, PathText};
use std::alloc::{AllocError, Global};
use std::fmt::Write;
use std::test::Fail;
use walkdir::{DirEntry, DirEntryExt, Error, KeyOf, Walk, WalkDir};

/// Kinds, directories last.
#[derive(Drop)]
struct DirsLast;

impl KeyOf for DirsLast {
    type Key = u8;

    ghost key_of = { λ _ entry. if is_dir entry then 1 else 0 };

    fn key(&self, entry: &DirEntry) -> u8 {
        if entry.file_type() == Kind::Dir { 1 } else { 0 }
    }
}

/// Writes an entry's name, kind and depth, and whether a stat reports the same kind and inode number.
fn tell_entry(
    alloc: Global,
    told: &mut String,
    disk: &mut MemDisk,
    entry: &DirEntry,
) -> walkdir::Result<()> {
    let meta = entry.metadata(alloc, disk)?;
    let same = meta.ino == entry.ino() && meta.kind == entry.file_type();
    let (name, kind, depth) = (entry.file_name(), entry.file_type(), entry.depth());
    write!(told, "{name} {kind:?} {depth} {same}, ")?;
    Ok(())
}

/// Writes whether an error has a path, its depth, whether nothing was there, and whether it is a loop.
fn tell_error(told: &mut String, error: &Error) -> Result<(), AllocError> {
    let (path, depth) = (error.path().is_some(), error.depth());
    let absent = error.io_error() == Some(DiskError::Absent);
    let is_loop = error.loop_ancestor().is_some();
    write!(told, "{path} {depth} {absent} {is_loop}, ")
}

fn tell(
    alloc: Global,
    told: &mut String,
    disk: &mut MemDisk,
    item: walkdir::Result<DirEntry>,
) -> walkdir::Result<()> {
    match item {
        Ok(entry) => tell_entry(alloc, told, disk, &entry),
        Err(error) => Ok(tell_error(told, &error)?),
    }
}

fn tell_each<W: Walk>(
    alloc: Global,
    told: &mut String,
    disk: &mut MemDisk,
    walk: W,
) -> walkdir::Result<()>
    requires can { W.can_next walk }
    requires ends { IsFinite (W.remaining walk) }
{
    for item in walk {
        tell(alloc, told, disk, item)?;
    }
    Ok(())
}

/// Writes each item of a walk, directories last. The stats are made on a copy of the disk.
fn tell_walk(
    alloc: Global,
    told: &mut String,
    disk: &mut MemDisk,
    copy: &mut MemDisk,
    root: PathText,
    options: &str,
) -> walkdir::Result<()> {
    let walk = built(WalkDir::at(root), options).sort_by_key(DirsLast);
    tell_each(alloc, told, copy, walk.into_iter_on(alloc, disk)?)
}

/// What entries and errors return. A row asks `ROOT; OPTIONS`.
struct Told;

impl Question for Told {
    fn tell(
        &self,
        alloc: Global,
        told: &mut String,
        disk: &mut MemDisk,
        asked: &str,
    ) -> Result<(), Fail> {
        let (root, options) = asked.split_once("; ").unwrap_or((asked, ""));
        let root = PathText::parse(alloc, root)?;
        let mut copy = disk.try_clone(alloc)?;
        Ok(tell_walk(alloc, told, disk, &mut copy, root, options)?)
    }
}

const NODES: &str = "\
    make /t, make /t/b, make /t/a, put /t/z 0, put /t/y 0, link /t/c /t/z, link /t/n /none, link /t/l /t";

const ENTRIES: &str = "\
    /t|t Dir 0 true, c Link 1 true, l Link 1 true, n Link 1 true, y File 1 true, z File 1 true, a Dir 1 true, b Dir 1 true,\n\
    /t; follow|t Dir 0 true, c File 1 true, true 1 false true, true 1 true false, y File 1 true, z File 1 true, \
a Dir 1 true, b Dir 1 true,\n\
    /; max 0|/ Dir 0 true,";

// Catches a key that is forgotten, ties that change their places, a stat through a link that wasn't followed, and
// wrong answers of an error.
#[test]
fn entries(rt: HostRuntime) -> Result<(), Fail> {
    check(rt.alloc(), &Told, NODES, ENTRIES)
}

/// Writes what is left of an item that is taken apart.
fn tell_part(told: &mut String, item: walkdir::Result<DirEntry>) -> Result<(), AllocError> {
    match item {
        Ok(entry) => {
            let path = entry.into_path();
            write!(told, "{path} ")
        }
        Err(error) => {
            let io = error.into_io_error();
            write!(told, "{io:?} ")
        }
    }
}

fn tell_parts<W: Walk>(told: &mut String, walk: W) -> Result<(), AllocError>
    requires can { W.can_next walk }
    requires ends { IsFinite (W.remaining walk) }
{
    for item in walk {
        tell_part(told, item)?;
    }
    Ok(())
}

/// What is left of the items of a walk that are taken apart.
struct TakenApart;

impl Question for TakenApart {
    fn tell(
        &self,
        alloc: Global,
        told: &mut String,
        disk: &mut MemDisk,
        asked: &str,
    ) -> Result<(), Fail> {
        let walk = WalkDir::at(PathText::parse(alloc, asked)?).follow_links(true);
        Ok(tell_parts(told, walk.into_iter_on(alloc, disk)?)?)
    }
}

// Catches a path or an error that is lost when its owner is taken apart.
#[test]
fn parts(rt: HostRuntime) -> Result<(), Fail> {
    check(
        rt.alloc(),
        &TakenApart,
        "make /t, link /t/n /none",
        "/t|/t Some(Absent)",
    )
}
