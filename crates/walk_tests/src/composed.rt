//! Walks in Git's order and with composed names.
ghost use Rattle.std.specs.Prelude.{◌≡◌};
ghost use Rattle.std.specs.Iterator.{IsFinite};

use super::words::{Question, check, tell_error};
use gix_features::fs::read_dir::Item;
use gix_features::fs::{
    DirEntry, DirEntryApi, GitOrder, Parallelism, WalkDir, walkdir_new, walkdir_sorted_new,
};
use odb_mem_disk::{Disk, Kind, MemDisk, NoMemory, PathText};
use std::alloc::{AllocError, Global};
use std::fmt::Write;
use std::test::Fail;
use test_words::cut;
use walkdir::{Sorter, Walk};

fn tell_line(told: &mut String, path: &PathText, name: &str, kind: Kind) -> Result<(), AllocError> {
    write!(told, "{path} {name} {kind:?}; ")
}

/// Writes what an entry returns by its interface.
fn tell_plain<T: DirEntryApi>(alloc: Global, told: &mut String, entry: &T) -> Result<(), NoMemory> {
    let path = entry.path(alloc)?;
    let name = entry.file_name(alloc)?;
    Ok(tell_line(told, &path, name.as_str(), entry.file_type())?)
}

/// Writes what a wrapped entry returns.
fn tell_wrapped<T: DirEntryApi>(
    alloc: Global,
    told: &mut String,
    entry: &DirEntry<T>,
) -> Result<(), NoMemory> {
    let path = entry.path(alloc)?;
    let name = entry.file_name(alloc)?;
    Ok(tell_line(told, &path, name.as_str(), entry.file_type())?)
}

fn tell_item<T: DirEntryApi + Drop>(
    alloc: Global,
    told: &mut String,
    item: Result<DirEntry<T>, walkdir::Error>,
) -> Result<(), NoMemory> {
    match item {
        Ok(entry) => tell_wrapped(alloc, told, &entry),
        Err(error) => Ok(tell_error(told, &error)?),
    }
}

fn tell_on<S: Sorter + Drop>(
    alloc: Global,
    told: &mut String,
    disk: &mut MemDisk,
    walk: WalkDir<S>,
) -> Result<(), NoMemory> {
    for item in walk.into_iter_on(alloc, disk)? {
        tell_item(alloc, told, item)?;
    }
    Ok(())
}

fn tell_plain_item(
    alloc: Global,
    told: &mut String,
    item: walkdir::Result<walkdir::DirEntry>,
) -> Result<(), NoMemory> {
    match item {
        Ok(entry) => tell_plain(alloc, told, &entry),
        Err(error) => Ok(tell_error(told, &error)?),
    }
}

fn tell_plainly<W: Walk>(alloc: Global, told: &mut String, walk: W) -> Result<(), NoMemory>
    requires can { W.can_next walk }
    requires ends { IsFinite (W.remaining walk) }
{
    for item in walk {
        tell_plain_item(alloc, told, item)?;
    }
    Ok(())
}

/// The walk of the crate `walkdir` itself in Git's order, directories after their contents.
fn tell_after(
    alloc: Global,
    told: &mut String,
    disk: &mut MemDisk,
    root: PathText,
) -> Result<(), NoMemory> {
    let walk = walkdir::WalkDir::at(root)
        .sort_by(GitOrder)
        .follow_links(true);
    let walk = walk.max_open(1).contents_first(true);
    tell_plainly(alloc, told, walk.into_iter_on(alloc, disk)?)
}

fn tell_way(
    alloc: Global,
    told: &mut String,
    disk: &mut MemDisk,
    way: &str,
    root: PathText,
) -> Result<(), NoMemory> {
    let one = Parallelism::Serial;
    match way {
        "after" => tell_after(alloc, told, disk, root),
        "sorted" => {
            let walk = walkdir_sorted_new(root, one, usize::MAX, false);
            tell_on(alloc, told, disk, walk.follow_links(true))
        }
        "composed" => tell_on(alloc, told, disk, walkdir_new(root, one, true)),
        _ => {
            let walk = walkdir_new(root, Parallelism::ThreadPoolPerTraversal, false);
            tell_on(alloc, told, disk, walk.min_depth(1).max_depth(1))
        }
    }
}

/// What a walk gives, by a way to walk. A row asks for the way and the root.
struct Ways;

impl Question for Ways {
    fn tell(
        &self,
        alloc: Global,
        told: &mut String,
        disk: &mut MemDisk,
        asked: &str,
    ) -> Result<(), Fail> {
        let (way, root) = cut(asked);
        let root = PathText::parse(alloc, root)?;
        Ok(tell_way(alloc, told, disk, way, root)?)
    }
}

const LOOPED: &str = "make /t, make /t/a, put /t/a/x 0, put /t/a.b 0, put /t/a0 0, link /t/l /t";

const SORTED: &str = "sorted /t|\
    /t t Dir; /t/a.b a.b File; /t/a a Dir; /t/a/x x File; /t/a0 a0 File; \
    [File system loop found: /t/l points to an ancestor /t 1]";

const AFTER: &str = "after /t|\
    /t/a.b a.b File; /t/a/x x File; /t/a a Dir; /t/a0 a0 File; \
    [File system loop found: /t/l points to an ancestor /t 1] /t t Dir;";

// Catches Git's order taken for that of names, and a followed link that is lost.
#[test]
fn sorted(rt: HostRuntime) -> Result<(), Fail> {
    check(rt.alloc(), &Ways, LOOPED, SORTED)
}

// Catches an order that is lost when directories are given after their contents.
#[test]
fn sorted_after(rt: HostRuntime) -> Result<(), Fail> {
    check(rt.alloc(), &Ways, LOOPED, AFTER)
}

const ACCENTS: &str = "make /e\u{301}, put /e\u{301}/u\u{308} 0";

const COMPOSED: &str = "\
    composed /e\u{301}|/\u{e9} \u{e9} Dir; /\u{e9}/\u{fc} \u{fc} File;\n\
    plain /e\u{301}|/e\u{301}/u\u{308} u\u{308} File;";

// Catches names that are composed when they shouldn't be, or aren't when they should.
#[test]
fn composed(rt: HostRuntime) -> Result<(), Fail> {
    check(rt.alloc(), &Ways, ACCENTS, COMPOSED)
}

/// Makes a walk, begins it or not, and drops it. Then its disk has the same tree.
fn stepped<D: Disk>(
    alloc: Global,
    disk: &mut D,
    root: &PathText,
    begins: bool,
) -> Result<(), NoMemory>
    ensures state { D.state disk.new ≡ D.state disk.old }
{
    let root = root.try_clone(alloc)?;
    let mut walk = walkdir_new(root, Parallelism::Serial, true).into_iter_on(alloc, disk)?;
    if begins {
        let _ = walk.next();
    }
    Ok(())
}

/// The number of the next stream after a walk that is dropped: 0 if none is open. A row asks for a walk that `begins`
/// or one that doesn't.
struct AfterDrop;

impl Question for AfterDrop {
    fn tell(
        &self,
        alloc: Global,
        told: &mut String,
        disk: &mut MemDisk,
        asked: &str,
    ) -> Result<(), Fail> {
        let root = PathText::parse(alloc, "/t")?;
        stepped(alloc, disk, &root, asked == "begins")?;
        let stream = disk.open_dir(alloc, &root)?;
        disk.close_dir(stream);
        let number = stream.number();
        Ok(write!(told, "{number}")?)
    }
}

// Catches a stream that is left open by a walk that is dropped.
#[test]
fn dropped(rt: HostRuntime) -> Result<(), Fail> {
    check(
        rt.alloc(),
        &AfterDrop,
        "make /t, put /t/a 0",
        "begins|0\nwaits|0",
    )
}

fn first_item(alloc: Global, disk: &mut MemDisk, dir: PathText) -> Result<Item, Fail> {
    let stream = disk.open_dir(alloc, &dir)?;
    let entry = disk.next_entry(alloc, &stream)?.ok_or("no entry")?;
    disk.close_dir(stream);
    Ok(Item { dir, entry })
}

/// Writes an item of a directory, plainly and with its names composed.
fn tell_both(alloc: Global, told: &mut String, item: Item) -> Result<(), NoMemory> {
    tell_plain(alloc, told, &item)?;
    tell_wrapped(alloc, told, &DirEntry::new(item, true))
}

/// What the first entry of a directory that is read without a walk returns, plainly and composed.
struct FirstEntry;

impl Question for FirstEntry {
    fn tell(
        &self,
        alloc: Global,
        told: &mut String,
        disk: &mut MemDisk,
        asked: &str,
    ) -> Result<(), Fail> {
        let item = first_item(alloc, disk, PathText::parse(alloc, asked)?)?;
        Ok(tell_both(alloc, told, item)?)
    }
}

const READ: &str = "/t|/t/u\u{308} u\u{308} File; /t/\u{fc} \u{fc} File;";

// Catches a path without its directory, and a name that is composed in the entry itself.
#[test]
fn read(rt: HostRuntime) -> Result<(), Fail> {
    check(rt.alloc(), &FirstEntry, "make /t, put /t/u\u{308} 0", READ)
}
