//! Which watched paths a change touches, by the places that it is made at.
ghost use Rattle.std.specs.Prelude.{◌≡◌, ◌++◌, ◌∷◌, [], map, IfOk, OnOk, Some};
ghost use Rattle.std.specs.Result.{result_ok};
ghost use Rattle.odb_base.specs.Path.{parent_of};
ghost use Rattle.odb_disk.specs.Tree.Write.{file_spot};
ghost use Rattle.gix_odb_watch.specs.Touched.{Adds, AreTouched, IsAmong, IsInside, IsTouched, TellsFolder, directory_of, is_folder_of, places_of};
ghost use Rattle.gix_odb_watch.specs.Watched.{pack_directory};

use crate::watched::{named_kind, pack_directory};
use odb_base::{ByteList, NoMemory, PathText};
use odb_disk::{Change, DiskError};
use odb_mem_disk::{Tree, end_of};
use std::alloc::Global;
use std::collections::BTreeSet;
use std::collections::btree_set::Range;
use std::ops::Bound;

/// Returns what a change touches, each path with its folder: the pack directories of linked folders, those that lie at
/// one of its places or below it, and the watched paths among its places.
#[tactic(auto, using(crate::proofs::TouchedLemmas::touched_first, crate::proofs::TouchedLemmas::touched_next))]
pub(crate) fn touched_by(
    alloc: Global,
    watched: &BTreeSet<PathText>,
    linked: &BTreeSet<PathText>,
    tree: &Tree,
    change: &Change,
) -> Result<Vec<(PathText, PathText)>, NoMemory>
    ensures touched { IfOk result (λ spots. AreTouched watched.now.keys linked.now.keys (places_of tree.now change.now) spots.items) }
{
    let places = places_of(alloc, tree, change)?;
    let mut spots = Vec::new(alloc);
    add_inside(alloc, linked, &PathText::root(alloc), &mut spots)?;
    for place in places {
        add_touched(alloc, watched, &place, &mut spots)?;
    }
    Ok(spots)
}

/// Adds what a change at a place touches.
#[tactic(auto, using(crate::proofs::TouchedLemmas::touched_none))]
fn add_touched(
    alloc: Global,
    watched: &BTreeSet<PathText>,
    place: &PathText,
    spots: &mut Vec<(PathText, PathText)>,
) -> Result<(), NoMemory>
    ensures added { OnOk result (Adds (IsAmong watched.now.keys) (IsTouched watched.now.keys place.now) spots.old.items spots.new.items) }
{
    add_inside(alloc, watched, place, spots)?;
    let Some(directory) = directory_of(alloc, place)? else {
        return Ok(());
    };
    match folder_of(alloc, watched, &directory)? {
        None => Ok(()),
        Some(folder) => add_pair(alloc, &folder, place.try_clone(alloc)?, spots),
    }
}

/// Returns the directory of a path whose name is watched, and any other path itself.
fn directory_of(alloc: Global, path: &PathText) -> Result<Option<PathText>, NoMemory>
    ensures directory { IfOk result (λ directory. directory ≡ directory_of path.now) }
{
    match named_kind(path) {
        Some(_) => path.parent(alloc),
        None => Ok(Some(path.try_clone(alloc)?)),
    }
}

/// Adds the pack directories of folders that lie at a place or below it. These follow one another, from the place on.
fn add_inside(
    alloc: Global,
    folders: &BTreeSet<PathText>,
    place: &PathText,
    spots: &mut Vec<(PathText, PathText)>,
) -> Result<(), NoMemory>
    ensures added { OnOk result (Adds (IsAmong folders.now.keys) (IsInside folders.now.keys place.now) spots.old.items spots.new.items) }
{
    match end_of(alloc, place)? {
        None => {
            let inside = folders.range((Bound::Included(place), Bound::Unbounded));
            add_each(alloc, inside, spots)
        }
        Some(end) => {
            let inside = folders.range((Bound::Included(place), Bound::Excluded(&end)));
            add_each(alloc, inside, spots)
        }
    }
}

fn add_each(
    alloc: Global,
    inside: Range<'_, PathText>,
    spots: &mut Vec<(PathText, PathText)>,
) -> Result<(), NoMemory>
    ensures added { OnOk result (spots.new.items ≡ spots.old.items ++ map (λ folder. (folder, pack_directory folder)) inside.entry) }
{
    for folder in inside {
        add_pair(alloc, folder, pack_directory(alloc, folder)?, spots)?;
    }
    Ok(())
}

/// Returns the watched folder of which this is the pack directory.
#[tactic(auto, using(crate::proofs::TouchedLemmas::tells_root))]
fn folder_of(
    alloc: Global,
    watched: &BTreeSet<PathText>,
    directory: &PathText,
) -> Result<Option<PathText>, NoMemory>
    ensures folder { IfOk result (TellsFolder watched.now.keys directory.now) }
{
    match directory.parent(alloc)? {
        None => Ok(None),
        Some(folder) => folder_if(alloc, watched, folder, directory),
    }
}

#[tactic(auto, using(crate::proofs::TouchedLemmas::tells_none, crate::proofs::TouchedLemmas::tells_own))]
fn folder_if(
    alloc: Global,
    watched: &BTreeSet<PathText>,
    folder: PathText,
    directory: &PathText,
) -> Result<Option<PathText>, NoMemory>
    requires parent { parent_of directory.now ≡ Some folder }
    ensures folder { IfOk result (TellsFolder watched.now.keys directory.now) }
{
    if is_folder_of(alloc, watched, &folder, directory)? {
        return Ok(Some(folder));
    }
    Ok(None)
}

/// Returns whether a folder is watched, and this is its pack directory.
fn is_folder_of(
    alloc: Global,
    watched: &BTreeSet<PathText>,
    folder: &PathText,
    directory: &PathText,
) -> Result<bool, NoMemory>
    ensures is { IfOk result (λ is. is ≡ is_folder_of watched.now.keys folder.now directory.now) }
{
    let packs = pack_directory(alloc, folder)?;
    Ok(watched.contains(folder) && packs == *directory)
}

/// Adds a path with its folder.
pub(crate) fn add_pair(
    alloc: Global,
    folder: &PathText,
    path: PathText,
    pairs: &mut Vec<(PathText, PathText)>,
) -> Result<(), NoMemory>
    ensures added { OnOk result (pairs.new.items ≡ pairs.old.items ++ (folder.now, path) ∷ []) }
{
    pairs.push((folder.try_clone(alloc)?, path))?;
    Ok(())
}

/// Returns where a change puts, takes or writes something.
fn places_of(alloc: Global, tree: &Tree, change: &Change) -> Result<Vec<PathText>, NoMemory>
    ensures places { IfOk result (λ places. places.items ≡ places_of tree.now change.now) }
{
    let mut places = Vec::new(alloc);
    match change {
        Change::PutFile { path, .. } => places.push(path.try_clone(alloc)?)?,
        Change::MakeDir { path, .. } => places.push(path.try_clone(alloc)?)?,
        Change::PutLink { path, .. } => places.push(path.try_clone(alloc)?)?,
        Change::Rename { from, to } => {
            places.push(from.try_clone(alloc)?)?;
            places.push(to.try_clone(alloc)?)?;
        }
        Change::Append { path, .. } => {
            if let Some(place) = file_spot(alloc, tree, path)? {
                places.push(place)?;
            }
        }
        Change::Remove { path } => places.push(path.try_clone(alloc)?)?,
        Change::SetTime { path, .. } => places.push(path.try_clone(alloc)?)?,
    }
    Ok(places)
}

/// Returns the place of the file that a path leads to.
#[tactic(auto, unfolding(odb_disk::specs::Tree::Write::change_of_append))]
pub(crate) fn file_spot(
    alloc: Global,
    tree: &Tree,
    path: &PathText,
) -> Result<Option<PathText>, NoMemory>
    ensures place { IfOk result (λ place. place ≡ result_ok (file_spot tree.now path.now)) }
{
    let nothing = ByteList::new(alloc);
    match tree.change_of_append(alloc, path, &nothing) {
        Ok(Change::Append { path: place, .. }) => Ok(Some(place)),
        Ok(_) => unreachable!("the change of an append is an append"),
        Err(DiskError::NoMemory) => Err(NoMemory),
        Err(_) => Ok(None),
    }
}
