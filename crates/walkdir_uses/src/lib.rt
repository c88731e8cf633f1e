//! Walks as a caller makes them: what a folder tree holds, found by the walks of the crate `walkdir`.
//!
//! On a disk that reports its tree each answer is that of the walk's definition.
#![tactic(auto)]

ghost use Rattle.std.specs.Prelude.{◌≡◌, ◌⊎◌, IfOk, IfErr, IfSome, map, All, Ok, None, List, true};
ghost use Rattle.std.specs.Iterator.{IsFinite, Yields, YieldsThen};
ghost use Rattle.odb_disk.specs.Streams.{Streams};
ghost use Rattle.odb_disk.specs.Tree.{tree_of};
ghost use Rattle.walkdir.specs.Answered.{IsToldIn};
ghost use Rattle.walkdir.specs.BuiltWalk.{walking};
ghost use Rattle.walkdir.specs.Error.{is_no_memory};
ghost use Rattle.walkdir.specs.Failures.{Costs, failures_of};
ghost use Rattle.walkdir.specs.FilteredWalk.{IsFilteredWalk};
ghost use Rattle.walkdir.specs.Options.{Built, default_options};
ghost use Rattle.walkdir.specs.OwnStreams.{AreBack};
ghost use Rattle.walkdir.specs.Progress.{FailsByFault, Keeps, begun, has_its_streams};
ghost use Rattle.walkdir.specs.declared.sort.NoSort.{NoSort};
ghost use Rattle.walkdir.specs.StackProgress.{progress};
ghost use Rattle.walkdir.specs.Walk.{IsWalk, Item};
ghost use Rattle.walkdir_uses.specs.Found.{AreOnly, EndsWith, FoundIn, IsRefusedAmong, IsRefusedLook, IsStoppedBy, IsStoppedIn};
ghost use Rattle.walkdir_uses.specs.Found.{as_given, below, inside, is_visible, paths_of_files, total_size, visible_names};

use std::alloc::{AllocError, Global};
use walkdir::{DirEntry, Disk, IntoIter, Kind, NoSort, PathText, Result, Sorter, Walk, WalkDir};

/// All entries of a walk, or its first error. They don't depend on how many directories may be open.
pub fn entries_of<S: Sorter + Drop, D: Disk>(
    alloc: Global,
    disk: &mut D,
    walk: WalkDir<S>,
) -> Result<Vec<DirEntry>>
    ensures entries { IfSome (D.state disk.old)
        (λ s. IfOk result (λ entries. IsWalk (walking S.order (tree_of s) walk) (map Ok entries.items))) }
    ensures only { IfSome (D.state disk.old)
        (λ s. IfOk result (λ entries. AreOnly (walking S.order (tree_of s) walk) entries.items)) }
    ensures first { IfSome (D.state disk.old) (λ s. IfErr result (IsStoppedBy (walking S.order (tree_of s) walk))) }
    ensures told { IfErr result (λ error. IsToldIn D.answered disk.old disk.new error.inner) }
    ensures cost { Costs (failures_of result) (D.faults disk.old) (D.faults disk.new) }
    ensures state { D.state disk.new ≡ D.state disk.old }
    ensures back { AreBack (D.streams disk.old) walk.options.max_open (D.streams disk.new) }
{
    let mut entries = Vec::new(alloc);
    for entry in walk.into_iter_on(alloc, disk)? {
        entries.push(entry?)?;
    }
    Ok(entries)
}

/// The paths of all files below a folder.
pub fn files_below<D: Disk>(alloc: Global, disk: &mut D, folder: &PathText) -> Result<Vec<PathText>>
    ensures paths { IfSome (D.state disk.old) (λ s.
        IfOk result
        (λ paths. FoundIn (below (tree_of s) folder.now) (λ entries. paths.items ≡ paths_of_files entries))) }
    ensures first { IfSome (D.state disk.old) (λ s. IfErr result (IsStoppedBy (below (tree_of s) folder.now))) }
    ensures told { IfErr result (λ error. IsToldIn D.answered disk.old disk.new error.inner) }
    ensures cost { Costs (failures_of result) (D.faults disk.old) (D.faults disk.new) }
    ensures state { D.state disk.new ≡ D.state disk.old }
    ensures back { AreBack (D.streams disk.old) default_options.max_open (D.streams disk.new) }
{
    let entries = entries_of(alloc, disk, WalkDir::new(alloc, folder)?)?;
    Ok(files_of(alloc, entries)?)
}

/// The paths of the files among entries.
fn files_of(alloc: Global, entries: Vec<DirEntry>) -> std::result::Result<Vec<PathText>, AllocError>
    ensures paths { IfOk result (λ paths. paths.items ≡ paths_of_files entries.items) }
{
    let mut paths = Vec::new(alloc);
    for entry in entries {
        if entry.file_type() == Kind::File {
            paths.push(entry.into_path())?;
        }
    }
    Ok(paths)
}

/// The total size of all files below a folder; it saturates at the greatest `u64`.
pub fn size_below<D: Disk>(alloc: Global, disk: &mut D, folder: &PathText) -> Result<u64>
    ensures size { IfSome (D.state disk.old) (λ s.
        IfOk result
        (λ size. FoundIn (below (tree_of s) folder.now) (λ entries. size ≡ total_size (tree_of s) entries))) }
    ensures first { IfSome (D.state disk.old) (λ s.
        IfErr result (λ error.
        IsStoppedBy (below (tree_of s) folder.now) error
        ⊎ IsRefusedLook (below (tree_of s) folder.now) error)) }
    ensures cost { Costs (failures_of result) (D.faults disk.old) (D.faults disk.new) }
    ensures state { D.state disk.new ≡ D.state disk.old }
    ensures back { AreBack (D.streams disk.old) default_options.max_open (D.streams disk.new) }
{
    let entries = entries_of(alloc, disk, WalkDir::new(alloc, folder)?)?;
    total_of(alloc, disk, entries)
}

/// The total size of the files among entries; it saturates at the greatest `u64`.
fn total_of<D: Disk>(alloc: Global, disk: &mut D, entries: Vec<DirEntry>) -> Result<u64>
    ensures size { IfSome (D.state disk.old) (λ s. IfOk result (λ size. size ≡ total_size (tree_of s) entries.items)) }
    ensures refused { IfSome (D.state disk.old) (λ s. IfErr result (IsRefusedAmong (tree_of s) entries.items)) }
    ensures cost { Costs (failures_of result) (D.faults disk.old) (D.faults disk.new) }
    ensures state { D.state disk.new ≡ D.state disk.old }
    ensures streams { D.streams disk.new ≡ D.streams disk.old }
{
    let mut size = 0u64;
    for entry in entries {
        if entry.file_type() == Kind::File {
            size = size.saturating_add(entry.metadata(alloc, disk)?.len);
        }
    }
    Ok(size)
}

/// The names in a folder in the order of their bytes, without those that begin with a dot.
pub fn visible_names_in<D: Disk>(
    alloc: Global,
    disk: &mut D,
    folder: &PathText,
) -> Result<Vec<String>>
    ensures names { IfSome (D.state disk.old) (λ s.
        IfOk result (λ names.
        FoundIn (inside (tree_of s) folder.now)
        (λ entries. map (λ name. name.bytes.items) names.items ≡ visible_names entries))) }
    ensures first { IfSome (D.state disk.old) (λ s. IfErr result (IsStoppedBy (inside (tree_of s) folder.now))) }
    ensures told { IfErr result (λ error. IsToldIn D.answered disk.old disk.new error.inner) }
    ensures cost { Costs (failures_of result) (D.faults disk.old) (D.faults disk.new) }
    ensures state { D.state disk.new ≡ D.state disk.old }
    ensures back { AreBack (D.streams disk.old) default_options.max_open (D.streams disk.new) }
{
    let walk = WalkDir::new(alloc, folder)?
        .max_depth(1)
        .min_depth(1)
        .sort_by_file_name();
    let entries = entries_of(alloc, disk, walk)?;
    Ok(visible_names_of(alloc, entries)?)
}

/// The names of entries, without those that begin with a dot.
fn visible_names_of(
    alloc: Global,
    entries: Vec<DirEntry>,
) -> std::result::Result<Vec<String>, AllocError>
    ensures names { IfOk result (λ names. map (λ name. name.bytes.items) names.items ≡ visible_names entries.items) }
{
    let mut names = Vec::new(alloc);
    for entry in entries {
        if !entry.file_name().starts_with('.') {
            names.push(String::from_str(alloc, entry.file_name())?)?;
        }
    }
    Ok(names)
}

/// Whether an entry's name doesn't begin with a dot.
fn is_visible(entry: &DirEntry) -> bool
    ensures told { result ≡ is_visible entry.now }
{
    !entry.file_name().starts_with('.')
}

/// All entries of a walk, or its first error.
fn all_of<W: Walk>(alloc: Global, walk: &mut W) -> Result<Vec<DirEntry>>
    requires can { W.can_next walk.old }
    requires finite { IsFinite (W.remaining walk.old) }
    ensures whole { IfOk result (λ entries. YieldsThen W.next_gives walk.old (map Ok entries.items) None walk.new) }
    ensures part { IfErr result (λ error.
        (items : List Item) × Yields W.next_gives walk.old items walk.new
        × ((is_no_memory error ≡ true) ⊎ EndsWith items error)) }
{
    let mut entries = Vec::new(alloc);
    while let Some(item) = walk.next() {
        entries.push(item?)?;
    }
    Ok(entries)
}

/// The entries of a walk that aren't hidden, and the walk, which stays on its disk.
fn visible_of<'d, D: Disk>(
    alloc: Global,
    walk: IntoIter<'d, D, NoSort>,
    found: &mut Result<Vec<DirEntry>>,
) -> IntoIter<'d, D, NoSort>
    requires can { has_its_streams (progress as_given walk.walk (D.streams walk.disk.now)) ≡ true }
    ensures entries { (built : Built NoSort) (before : Streams)
        → progress as_given walk.entry.walk (D.streams walk.entry.disk.now) ≡ begun as_given built before
        → IfSome (D.state walk.entry.disk.now) (λ s.
        IfOk found.new
        (λ entries. IsFilteredWalk (walking as_given (tree_of s) built) is_visible (map Ok entries.items))) }
    ensures first { (built : Built NoSort) (before : Streams)
        → progress as_given walk.entry.walk (D.streams walk.entry.disk.now) ≡ begun as_given built before
        → IfSome (D.state walk.entry.disk.now)
        (λ s. IfErr found.new (IsStoppedIn (walking as_given (tree_of s) built) is_visible)) }
    ensures disk { result.disk.ghost_name ≡ walk.entry.disk.ghost_name }
    ensures visible { IfOk found.new (λ entries. All (λ entry. is_visible entry ≡ true) entries.items) }
    ensures state { D.state result.disk.now ≡ D.state walk.entry.disk.now }
    ensures options { result.walk.options ≡ walk.entry.walk.options }
    ensures keeps { (before : Streams)
        → Keeps before (progress as_given walk.entry.walk (D.streams walk.entry.disk.now))
        → Keeps before (progress as_given result.walk (D.streams result.disk.now)) }
    ensures cost { FailsByFault (progress as_given walk.entry.walk (D.streams walk.entry.disk.now))
        (D.faults walk.entry.disk.now) (failures_of found.new)
        (progress as_given result.walk (D.streams result.disk.now)) (D.faults result.disk.now) }
{
    let mut visible = walk.filter_entry(is_visible);
    let entries = all_of(alloc, &mut visible);
    *found = entries;
    visible.into_inner()
}

/// The entries below a folder that aren't hidden. Hidden folders aren't walked.
pub fn visible_below<D: Disk>(
    alloc: Global,
    disk: &mut D,
    folder: &PathText,
) -> Result<Vec<DirEntry>>
    ensures entries { IfSome (D.state disk.old) (λ s.
        IfOk result (λ entries. IsFilteredWalk (below (tree_of s) folder.now) is_visible (map Ok entries.items))) }
    ensures first { IfSome (D.state disk.old)
        (λ s. IfErr result (IsStoppedIn (below (tree_of s) folder.now) is_visible)) }
    ensures visible { IfOk result (λ entries. All (λ entry. is_visible entry ≡ true) entries.items) }
    ensures cost { Costs (failures_of result) (D.faults disk.old) (D.faults disk.new) }
    ensures state { D.state disk.new ≡ D.state disk.old }
    ensures back { AreBack (D.streams disk.old) default_options.max_open (D.streams disk.new) }
{
    let walk = WalkDir::new(alloc, folder)?.into_iter_on(alloc, disk)?;
    let mut found = Ok(Vec::new(alloc));
    let walk = visible_of(alloc, walk, &mut found);
    drop(walk);
    found
}
