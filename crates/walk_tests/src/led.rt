//! Walks that are driven by words.
ghost use Rattle.std.specs.Iterator.{IsFinite};
ghost use Rattle.std.specs.Prelude.{◌≡◌, IfOk, true};

use super::words::{Question, built, tell};
use odb_mem_disk::{MemDisk, NoMemory, PathText};
use std::alloc::{AllocError, Global};
use std::test::Fail;
use walkdir::{DirEntry, NoSort, Sorter, Walk, WalkDir};

/// What a walk gives.
///
/// A row asks `ROOT; OPTIONS; STEPS`. Besides the options of a walk there are `sort`, by file names, and `filter`. A
/// step is `next`, `skip`, or `entered` for whether the walk has entered the directory that it gave. After the steps
/// all that is left is written, and `end` if a step follows the last item.
pub struct Led;

impl Question for Led {
    fn tell(
        &self,
        alloc: Global,
        told: &mut String,
        disk: &mut MemDisk,
        asked: &str,
    ) -> Result<(), Fail> {
        let (root, rest) = asked.split_once("; ").unwrap_or((asked, ""));
        let (options, steps) = rest.split_once("; ").unwrap_or((rest, ""));
        let walk = built(WalkDir::at(PathText::parse(alloc, root)?), options);
        Ok(lead_by(alloc, told, disk, walk, options, steps)?)
    }
}

fn lead_by(
    alloc: Global,
    told: &mut String,
    disk: &mut MemDisk,
    walk: WalkDir<NoSort>,
    options: &str,
    steps: &str,
) -> Result<(), NoMemory> {
    if options.starts_with("sort") {
        lead_on(alloc, told, disk, walk.sort_by_file_name(), steps)
    } else if options.starts_with("filter") {
        lead_filtered(alloc, told, disk, walk, steps)
    } else {
        lead_on(alloc, told, disk, walk, steps)
    }
}

fn lead_on<S: Sorter + Drop>(
    alloc: Global,
    told: &mut String,
    disk: &mut MemDisk,
    walk: WalkDir<S>,
    steps: &str,
) -> Result<(), NoMemory> {
    let walk = walk.into_iter_on(alloc, disk)?;
    Ok(lead(told, walk, steps)?)
}

/// The walk without names that begin with `a` and without `e`.
fn lead_filtered(
    alloc: Global,
    told: &mut String,
    disk: &mut MemDisk,
    walk: WalkDir<NoSort>,
    steps: &str,
) -> Result<(), NoMemory> {
    let walk = walk.into_iter_on(alloc, disk)?;
    let walk = walk.filter_entry(|e: &DirEntry| !e.file_name().starts_with('a'));
    let walk = walk.filter_entry(|e: &DirEntry| e.file_name() != "e");
    Ok(lead(told, walk, steps)?)
}

fn lead<W: Walk>(told: &mut String, walk: W, steps: &str) -> Result<(), AllocError>
    requires can { W.can_next walk }
    requires ends { IsFinite (W.remaining walk) }
{
    let mut walk = walk;
    if take_steps(told, &mut walk, steps)? {
        tell_rest(told, walk)
    } else {
        told.push_str("end")
    }
}

fn tell_rest<W: Walk>(told: &mut String, walk: W) -> Result<(), AllocError>
    requires can { W.can_next walk }
    requires ends { IsFinite (W.remaining walk) }
{
    for item in walk {
        tell(told, item)?;
    }
    Ok(())
}

/// Drives a walk, and returns whether it didn't reach its end.
fn take_steps<W: Walk>(told: &mut String, walk: &mut W, steps: &str) -> Result<bool, AllocError>
    requires can { W.can_next walk.old }
    requires ends { IsFinite (W.remaining walk.old) }
    ensures can { IfOk result (λ on. on ≡ true → W.can_next walk.new) }
    ensures ends { IfOk result (λ on. on ≡ true → IsFinite (W.remaining walk.new)) }
{
    for word in steps.split(' ') {
        if !step(told, walk, word)? {
            return Ok(false);
        }
    }
    Ok(true)
}

fn step<W: Walk>(told: &mut String, walk: &mut W, word: &str) -> Result<bool, AllocError>
    requires can { W.can_next walk.old }
    requires ends { IsFinite (W.remaining walk.old) }
    ensures can { IfOk result (λ on. on ≡ true → W.can_next walk.new) }
    ensures ends { IfOk result (λ on. on ≡ true → IsFinite (W.remaining walk.new)) }
{
    match word {
        "skip" => walk.skip_current_dir(),
        "entered" => told.push_str(if walk.has_entered() { "yes " } else { "no " })?,
        "next" => match walk.next() {
            Some(item) => tell(told, item)?,
            None => return Ok(false),
        },
        _ => {}
    }
    Ok(true)
}
