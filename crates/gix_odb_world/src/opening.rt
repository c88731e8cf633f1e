//! The conditions of opening, and how an opening begins.
ghost use Rattle.std.specs.Prelude.{◌≡◌, ◌∷◌, ◌≤◌, IfOk, MatchOption, Some, None, true, false, length};
ghost use Rattle.std.specs.Map.{keys_of};
ghost use Rattle.std.specs.BTreeMap.{get, IsFromIterResult};
ghost use Rattle.odb_base.specs.Path.{path_cmp};
ghost use Rattle.gix_hash.specs.ObjectId.{id_cmp};
ghost use Rattle.gix_odb_world.specs.Handle.{Begins};
ghost use Rattle.gix_odb_world.specs.Valid.{are_distinct, are_good_replacements, is_openable};

use gix_hash::{Kind, ObjectId};
use gix_odb::OpenState;
use gix_odb_calls::{IdPairs, Options, PathList, are_pairs_of};
use odb_base::{NoMemory, PathText};
use std::alloc::Global;
use std::collections::{BTreeMap, BTreeSet};

/// The most folders of a store besides its objects directory: with it they are 256, so that the place of a folder has 8
/// bits, and the bound of a call's turns, which has a sum over the folders, is a number of 128 bits.
const MAX_FOLDERS: usize = 255;

/// The most changes of the list of indices that a call may be set to tolerate: the bound of its turns is a number of 128
/// bits then.
const MAX_CHANGES: u32 = 1_000_000;

/// Returns an opening that begins, or `None` where a condition of opening doesn't hold.
pub fn begun(
    alloc: Global,
    path: &PathText,
    folders: &PathList,
    hash: Kind,
    replacements: &IdPairs,
    options: Options,
) -> Result<Option<OpenState>, NoMemory>
    ensures begun { IfOk result (λ begun. MatchOption begun (is_openable path.now folders.now hash replacements.now options.max_changes ≡ false)
        (Begins path.now folders.now hash replacements.now options)) }
{
    if !is_good(alloc, path, folders, hash, replacements, options)? {
        return Ok(None);
    }
    let opening = OpenState::start(
        alloc,
        path,
        folders.as_slice(),
        hash,
        replacements.as_slice(),
        options,
    )?;
    Ok(Some(opening))
}

/// Returns whether the conditions of opening hold.
pub fn is_good(
    alloc: Global,
    path: &PathText,
    folders: &PathList,
    hash: Kind,
    replacements: &IdPairs,
    options: Options,
) -> Result<bool, NoMemory>
    ensures good { IfOk result (λ good. good ≡ is_openable path.now folders.now hash replacements.now options.max_changes) }
{
    Ok(
        options.max_changes <= MAX_CHANGES
            && are_good_folders(alloc, path, folders)?
            && good_replacements(alloc, hash, replacements)?.is_some(),
    )
}

// Whether the folders are few enough, all distinct, and none of them the objects directory.
fn are_good_folders(alloc: Global, path: &PathText, folders: &PathList) -> Result<bool, NoMemory>
    ensures good { IfOk result (λ good. good ≡ Rattle.gix_odb_world.specs.Valid.are_good_folders path.now folders.now) }
{
    if folders.len() > MAX_FOLDERS {
        return Ok(false);
    }
    let mut paths = BTreeSet::new(alloc);
    paths.insert(path.try_clone(alloc)?)?;
    for folder in folders.as_slice() {
        paths.insert(folder.try_clone(alloc)?)?;
    }
    Ok(paths.len() == folders.len() + 1)
}

// Maps each replaced id to its replacement; `None` where one is replaced twice, or an id is of another hash.
fn good_replacements(
    alloc: Global,
    hash: Kind,
    pairs: &IdPairs,
) -> Result<Option<BTreeMap<ObjectId, ObjectId>>, NoMemory>
    ensures made { IfOk result (λ made. MatchOption made (are_good_replacements hash pairs.now ≡ false)
        (λ map. (are_good_replacements hash pairs.now ≡ true) × IsFromIterResult id_cmp pairs.now map)) }
{
    if are_pairs_of(hash, pairs) {
        replacement_map(alloc, pairs)
    } else {
        Ok(None)
    }
}

// Maps each replaced id to its replacement; `None` where one is replaced twice.
fn replacement_map(
    alloc: Global,
    pairs: &IdPairs,
) -> Result<Option<BTreeMap<ObjectId, ObjectId>>, NoMemory>
    ensures made { IfOk result (λ made. MatchOption made (are_distinct id_cmp (keys_of pairs.now) ≡ false)
        (λ map. (are_distinct id_cmp (keys_of pairs.now) ≡ true) × IsFromIterResult id_cmp pairs.now map)) }
{
    let map = collected(alloc, pairs.as_slice())?;
    if map.len() == pairs.len() {
        Ok(Some(map))
    } else {
        Ok(None)
    }
}

// Collects pairs into a map.
fn collected(
    alloc: Global,
    pairs: &[(ObjectId, ObjectId)],
) -> Result<BTreeMap<ObjectId, ObjectId>, NoMemory>
    ensures collected { IfOk result (IsFromIterResult id_cmp pairs.now) }
{
    Ok(pairs.iter().copied().collect(alloc)?)
}
