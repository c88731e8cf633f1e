//! How many streams walks keep open, while they go on and when they are dropped.
ghost use Rattle.std.specs.Prelude.{◌≡◌, true};
ghost use Rattle.walkdir.specs.Progress.{has_its_streams};
ghost use Rattle.walkdir.specs.Sorted.{all_equal};
ghost use Rattle.walkdir.specs.StackProgress.{progress};

use super::words::{Question, built, check};
use odb_mem_disk::{Disk, DiskError, MemDisk, NoMemory, PathText};
use std::alloc::Global;
use std::fmt::Write;
use std::test::Fail;
use walkdir::{NoSort, Stack, Steps, WalkDir};

const TREE: &str =
    "make /t, make /t/a, make /t/a/b, put /t/a/b/x 0, put /t/a/c 0, make /t/d, put /t/d/e 0, put /t/f 0";

/// The number of the next stream that a disk opens: 0 if none is open.
fn next_stream(alloc: Global, disk: &mut MemDisk) -> Result<u64, DiskError> {
    let root = PathText::root(alloc);
    let dir = disk.open_dir(alloc, &root)?;
    disk.close_dir(dir);
    Ok(dir.number())
}

/// Begins a walk, makes `steps` steps, and drops it.
fn walk_a_while(
    alloc: Global,
    disk: &mut MemDisk,
    root: PathText,
    options: &str,
    steps: usize,
) -> Result<(), NoMemory> {
    let walk = built(WalkDir::at(root), options);
    for _ in walk.into_iter_on(alloc, disk)?.take(steps) {}
    Ok(())
}

/// Writes how many streams are open after a walk that is dropped.
fn tell_left(
    alloc: Global,
    told: &mut String,
    disk: &mut MemDisk,
    options: &str,
    steps: usize,
) -> Result<(), Fail> {
    walk_a_while(alloc, disk, PathText::parse(alloc, "/t")?, options, steps)?;
    let left = next_stream(alloc, disk)?;
    write!(told, "{left}")?;
    Ok(())
}

/// How many streams are open after each number of steps of a walk with these options.
struct Left;

impl Question for Left {
    fn tell(
        &self,
        alloc: Global,
        told: &mut String,
        disk: &mut MemDisk,
        asked: &str,
    ) -> Result<(), Fail> {
        for steps in 0..12 {
            tell_left(alloc, told, disk, asked, steps)?;
        }
        Ok(())
    }
}

// Catches a stream that is left open by a walk that is dropped or at its end.
#[test]
fn drops(rt: HostRuntime) -> Result<(), Fail> {
    check(
        rt.alloc(),
        &Left,
        TREE,
        "|000000000000\nopen 1, first|000000000000",
    )
}

/// How many streams are open, by a copy of the disk.
fn open_now(alloc: Global, disk: &MemDisk) -> Result<u64, Fail> {
    let mut copy = disk.try_clone(alloc)?;
    Ok(next_stream(alloc, &mut copy)?)
}

/// The most streams that are open after a step of a walk.
fn most_open(alloc: Global, disk: &mut MemDisk, walk: &mut Stack<NoSort>) -> Result<u64, Fail>
    requires own { has_its_streams (progress (λ _. all_equal) walk.old disk.old.streams) ≡ true }
{
    let mut most = 0;
    for _ in 0..12 {
        let _ = walk.step(disk);
        most = most.max(open_now(alloc, disk)?);
    }
    Ok(most)
}

fn most_of(alloc: Global, disk: &mut MemDisk, options: &str) -> Result<u64, Fail> {
    let root = PathText::parse(alloc, "/t")?;
    let mut walk = built(WalkDir::at(root), options).into_stack(alloc);
    most_open(alloc, disk, &mut walk)
}

/// The most streams that a walk with these options has open.
struct Most;

impl Question for Most {
    fn tell(
        &self,
        alloc: Global,
        told: &mut String,
        disk: &mut MemDisk,
        asked: &str,
    ) -> Result<(), Fail> {
        let most = most_of(alloc, disk, asked)?;
        Ok(write!(told, "{most}")?)
    }
}

const LOOPED: &str = "make /t, make /t/a, put /t/a/x 0, put /t/a.b 0, put /t/a0 0, link /t/l /t";

// Catches a second stream that stays open between two items, and 0 that is not taken for 1.
#[test]
fn one_stream(rt: HostRuntime) -> Result<(), Fail> {
    check(rt.alloc(), &Most, TREE, "open 1|1\nopen 2|2")?;
    check(rt.alloc(), &Most, LOOPED, "follow, open 0|1")
}
