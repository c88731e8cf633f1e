//! Walks whose directories are skipped or filtered.
use super::led::Led;
use super::words::{Question, check, tell_next};
use odb_mem_disk::{MemDisk, PathText};
use std::alloc::{AllocError, Global};
use std::test::Fail;
use walkdir::{DirEntry, IntoIter, NoSort, WalkDir};

const TREE: &str =
    "make /t, make /t/a, make /t/a/b, put /t/a/b/x 0, put /t/a/c 0, make /t/d, put /t/d/e 0, put /t/f 0";

const SKIPS: &str = "\
    /t; open 3; skip|/t /t/a /t/a/b /t/a/b/x /t/a/c /t/d /t/d/e /t/f\n\
    /t; open 3; next skip|/t\n\
    /t; open 3; next next skip|/t /t/a /t/d /t/d/e /t/f\n\
    /t; open 3; next next skip skip|/t /t/a\n\
    /t; open 3; next next next skip|/t /t/a /t/a/b /t/a/c /t/d /t/d/e /t/f\n\
    /t; open 3; next next next next skip|/t /t/a /t/a/b /t/a/b/x /t/a/c /t/d /t/d/e /t/f\n\
    /t; open 3; next next next next next skip|/t /t/a /t/a/b /t/a/b/x /t/a/c /t/d /t/d/e /t/f\n\
    /t; open 3; next next next next next next next next next next|/t /t/a /t/a/b /t/a/b/x /t/a/c /t/d /t/d/e /t/f end\n\
    /t; open 1; skip|/t /t/a /t/a/b /t/a/b/x /t/a/c /t/d /t/d/e /t/f\n\
    /t; open 1; next skip|/t\n\
    /t; open 1; next next skip|/t /t/a /t/d /t/d/e /t/f\n\
    /t; open 1; next next skip skip|/t /t/a\n\
    /t; open 1; next next next skip|/t /t/a /t/a/b /t/a/c /t/d /t/d/e /t/f\n\
    /t; open 1; next next next next skip|/t /t/a /t/a/b /t/a/b/x /t/a/c /t/d /t/d/e /t/f\n\
    /t; open 1; next next next next next skip|/t /t/a /t/a/b /t/a/b/x /t/a/c /t/d /t/d/e /t/f\n\
    /t; open 1; next next next next next next next next next next|/t /t/a /t/a/b /t/a/b/x /t/a/c /t/d /t/d/e /t/f end\n\
    /t; sort; next next next next next skip|/t /t/a /t/a/b /t/a/b/x /t/a/c /t/d /t/d/e /t/f\n\
    /t; first; next skip|/t/a/b/x /t/a/b /t/a/c /t/a /t/d/e /t/d /t/f /t\n\
    /t; first; next next skip|/t/a/b/x /t/a/b /t/a /t/d/e /t/d /t/f /t\n\
    /t; first; next skip skip|/t/a/b/x /t/a/b /t/a /t/d/e /t/d /t/f /t\n\
    /t; first; next skip skip skip skip|/t/a/b/x /t/a/b /t/a /t";

// Catches a skip of a directory that isn't innermost, and one that loses the directory itself.
#[test]
fn skips(rt: HostRuntime) -> Result<(), Fail> {
    check(rt.alloc(), &Led, TREE, SKIPS)
}

const AFTER_FAULTS: &str = "\
    fail 1 /t; ; next skip|[IO error for operation on /t: Failed 0]\n\
    fail 2 /t; ; next next skip|/t [IO error for operation on /t: Failed 0]\n\
    fail 3 /t; ; next next skip|/t [Failed 1]\n\
    fail 4 /t; ; next next next skip|/t /t/a [IO error for operation on /t/a: Failed 1] /t/d /t/d/e /t/f\n\
    fail 4 /t; ; next next next skip skip|/t /t/a [IO error for operation on /t/a: Failed 1]\n\
    fail 5 /t; ; next next next skip|/t /t/a [Failed 2] /t/d /t/d/e /t/f\n\
    fail 5 /t; ; next next next skip skip|/t /t/a [Failed 2]\n\
    fail 6 /t; ; next next next next skip|/t /t/a /t/a/b [IO error for operation on /t/a/b: Failed 2] /t/a/c /t/d /t/d/e /t/f\n\
    fail 7 /t; ; next next next next skip|/t /t/a /t/a/b [Failed 3] /t/a/c /t/d /t/d/e /t/f\n\
    fail 9 /t; ; next next next next next skip|/t /t/a /t/a/b /t/a/b/x [Failed 2] /t/d /t/d/e /t/f\n\
    fail 4 /t; first; next skip|[IO error for operation on /t/a: Failed 1] /t/a /t/d/e /t/d /t/f /t\n\
    fail 5 /t; first; next skip skip|[Failed 2] /t/a /t\n\
    fail 7 /t; open 1; next next next skip|/t /t/a [IO error for operation on /t/a: Failed 1] /t/d /t/d/e /t/f\n\
    fail 9 /t; open 1; next next next next next skip|/t /t/a /t/a/b /t/a/b/x [Failed 2] /t/d /t/d/e /t/f\n\
    fail 11 /t; open 1; next next next next skip|/t /t/a /t/a/b [IO error for operation on /t/a/b: Failed 2] /t/a/c /t/d /t/d/e /t/f";

// A stat of a directory, or its opening, fails where both are made.
const AFTER_LOOKS: &str = "\
    fail 5 /t; follow; next next skip|/t [IO error for operation on /t/a: Failed 1]\n\
    fail 6 /t; follow; next next next skip|/t /t/a [IO error for operation on /t/a: Failed 1] /t/d /t/d/e /t/f\n\
    fail 6 /t; follow; next next next skip skip|/t /t/a [IO error for operation on /t/a: Failed 1]\n\
    fail 6 /t; same; next next skip|/t [IO error for operation on /t/a: Failed 1]\n\
    fail 7 /t; same; next next next skip|/t /t/a [IO error for operation on /t/a: Failed 1] /t/d /t/d/e /t/f\n\
    fail 7 /t; same; next next next skip skip|/t /t/a [IO error for operation on /t/a: Failed 1]";

const LOOPED: &str = "\
    make /t, link /t/a /t, make /t/b, put /t/b/x 0, link /t/b/y /t, put /t/b/z 0, link /t/c /none, put /t/d 0";

const AFTER_LINKS: &str = "\
    /t; follow; next next skip|/t [File system loop found: /t/a points to an ancestor /t 1]\n\
    /t; follow; next next next next next skip|\
/t [File system loop found: /t/a points to an ancestor /t 1] /t/b /t/b/x \
[File system loop found: /t/b/y points to an ancestor /t 2] [IO error for operation on /t/c: Absent 1] /t/d\n\
    /t; sort, follow; next next next next next next next skip|\
/t [File system loop found: /t/a points to an ancestor /t 1] /t/b /t/b/x \
[File system loop found: /t/b/y points to an ancestor /t 2] /t/b/z [IO error for operation on /t/c: Absent 1]";

// Catches a skip right after an error that drops the rest of the directory above the one with the error.
#[test]
fn skips_after_errors(rt: HostRuntime) -> Result<(), Fail> {
    check(rt.alloc(), &Led, TREE, AFTER_FAULTS)?;
    check(rt.alloc(), &Led, TREE, AFTER_LOOKS)?;
    check(rt.alloc(), &Led, LOOPED, AFTER_LINKS)
}

const FILTERED: &str = "\
    /t; filter|/t /t/d /t/f\n\
    /t; filter, first|/t/a/b/x /t/a/b /t/a/c /t/d /t/f /t\n\
    /t; filter, max 1|/t /t/d /t/f";

// Catches a rejected directory that is walked, a parent that is skipped with it, and entries dropped below one that is
// rejected after its contents.
#[test]
fn filters(rt: HostRuntime) -> Result<(), Fail> {
    check(rt.alloc(), &Led, TREE, FILTERED)
}

const VISIBLE: &str = "make /t, make /t/b, put /t/b/x 0, make /t/d, put /t/d/e 0, put /t/d/g 0";

const FILTERED_SKIPS: &str = "\
    /t; filter; next next skip|/t /t/b /t/d /t/d/g\n\
    /t; filter; next next skip next entered skip entered|/t /t/b /t/d yes no\n\
    /t; filter; next next next skip entered|/t /t/b /t/b/x no /t/d /t/d/g";

// Catches a skip that doesn't reach the walk below the filter.
#[test]
fn filter_skips(rt: HostRuntime) -> Result<(), Fail> {
    check(rt.alloc(), &Led, VISIBLE, FILTERED_SKIPS)
}

/// What follows the first directory in the root, which is skipped by the walk's own method.
struct Behind;

impl Question for Behind {
    fn tell(
        &self,
        alloc: Global,
        told: &mut String,
        disk: &mut MemDisk,
        asked: &str,
    ) -> Result<(), Fail> {
        let walk = WalkDir::at(PathText::parse(alloc, "/t")?);
        let mut walk = walk.into_iter_on(alloc, disk)?;
        match asked {
            "own" => Ok(tell_behind(told, &mut walk)?),
            _ => Ok(tell_behind_filtered(told, walk)?),
        }
    }
}

fn tell_behind<'d>(
    told: &mut String,
    walk: &mut IntoIter<'d, MemDisk, NoSort>,
) -> Result<(), AllocError>
    requires can { ⟦<IntoIter<'d, MemDisk, NoSort> as Iterator>⟧.can_next walk.old }
{
    let _ = walk.next();
    let _ = walk.next();
    walk.skip_current_dir();
    tell_next(told, walk.next())
}

/// What follows it, if it is skipped by the method of a filtered walk.
fn tell_behind_filtered<'d>(
    told: &mut String,
    walk: IntoIter<'d, MemDisk, NoSort>,
) -> Result<(), AllocError>
    requires can { ⟦<IntoIter<'d, MemDisk, NoSort> as Iterator>⟧.can_next walk }
{
    let mut walk = walk.filter_entry(|e: &DirEntry| e.file_name() != "b");
    let Some(_) = walk.next() else {
        return Ok(());
    };
    let Some(_) = walk.next() else {
        return Ok(());
    };
    walk.skip_current_dir();
    tell_next(told, walk.next())
}

// Catches a method of a walk that does something else than the one of its interface.
#[test]
fn own_skips(rt: HostRuntime) -> Result<(), Fail> {
    check(rt.alloc(), &Behind, TREE, "own|/t/d\nfiltered|/t/d")
}

/// What comes when a walk is asked beyond its end.
struct Beyond;

impl Question for Beyond {
    fn tell(
        &self,
        alloc: Global,
        told: &mut String,
        disk: &mut MemDisk,
        asked: &str,
    ) -> Result<(), Fail> {
        let walk = WalkDir::at(PathText::parse(alloc, asked)?);
        let mut walk = walk.into_iter_on(alloc, disk)?;
        Ok(tell_three(told, &mut walk)?)
    }
}

fn tell_three<'d>(
    told: &mut String,
    walk: &mut IntoIter<'d, MemDisk, NoSort>,
) -> Result<(), AllocError>
    requires can { ⟦<IntoIter<'d, MemDisk, NoSort> as Iterator>⟧.can_next walk.old }
{
    tell_next(told, walk.next())?;
    tell_next(told, walk.next())?;
    tell_next(told, walk.next())
}

// Catches a walk that begins again, or fails, after its end.
#[test]
fn beyond_the_end(rt: HostRuntime) -> Result<(), Fail> {
    check(rt.alloc(), &Beyond, TREE, "/t/f|/t/f end end")
}
