//! What a change would make watched paths show.
ghost use Rattle.std.specs.Prelude.{◌≡◌, ◌++◌, [], ◌∷◌, map, IfOk, OnOk};
ghost use Rattle.std.specs.List.{filter, flat_map};
ghost use Rattle.odb_disk.specs.Tree.{IsTree};
ghost use Rattle.gix_odb_watch.specs.Files.{file_at};
ghost use Rattle.gix_odb_watch.specs.Revealed.{HasUnder, IsSeen, IsUnder, linked_at};
ghost use Rattle.gix_odb_watch.specs.Touched.{Adds, AddsEach, Spot, is_watched};
ghost use Rattle.gix_odb_watch.specs.Watched.{pack_directory};

use crate::shown_file::{ShownFile, add_file};
use crate::sight::Sight;
use crate::touched::add_pair;
use crate::watched::{named_kind, pack_directory};
use odb_base::{NoMemory, PathText};
use odb_mem_disk::Tree;
use std::alloc::Global;

/// What a change would make watched paths show. It is passed from the judging of a change to its noting.
#[derive(Drop)]
pub struct Revealed {
    pub(crate) files: Vec<ShownFile>,
    /// Folders in which a watched path follows a link after the change.
    pub(crate) linked: Vec<PathText>,
}

impl Revealed {
    /// Returns a `Revealed` for which nothing was read.
    pub(crate) fn nothing(alloc: Global) -> Revealed
        ensures files { result.files.items ≡ [] }
        ensures linked { result.linked.items ≡ [] }
    {
        Revealed {
            files: Vec::new(alloc),
            linked: Vec::new(alloc),
        }
    }
}

/// Returns what touched paths show.
pub(crate) fn seen(
    alloc: Global,
    sight: &Sight<'_>,
    touched: Vec<(PathText, PathText)>,
) -> Result<Revealed, NoMemory>
    ensures seen { IfOk result (IsSeen sight.now touched.items) }
{
    let mut spots = Vec::new(alloc);
    list_all(alloc, sight, touched, &mut spots)?;
    let mut revealed = Revealed::nothing(alloc);
    read_all(alloc, sight, spots, &mut revealed)?;
    Ok(revealed)
}

/// Returns what a folder shows in a tree as it is.
pub(crate) fn seen_now(alloc: Global, folder: &PathText, tree: &Tree) -> Result<Revealed, NoMemory>
    requires is_tree { IsTree tree.now }
    ensures seen { IfOk result (IsSeen tree.now ((folder.now, pack_directory folder.now) ∷ [])) }
{
    let mut spots = Vec::new(alloc);
    add_pair(alloc, folder, pack_directory(alloc, folder)?, &mut spots)?;
    seen(alloc, &Sight::now(tree), spots)
}

/// Adds what is to be read of touched paths: each of them, and the watched paths of pack directories.
#[tactic(auto, using(crate::proofs::ListLemmas::each_first, crate::proofs::ListLemmas::each_next))]
fn list_all(
    alloc: Global,
    sight: &Sight<'_>,
    touched: Vec<(PathText, PathText)>,
    spots: &mut Vec<(PathText, PathText)>,
) -> Result<(), NoMemory>
    ensures listed { OnOk result (AddsEach IsUnder (HasUnder sight.now) touched.items spots.old.items spots.new.items) }
{
    for (folder, path) in touched {
        list(alloc, sight, &folder, path, spots)?;
    }
    Ok(())
}

#[tactic(auto, using(crate::proofs::RevealedLemmas::lists_own, crate::proofs::RevealedLemmas::lists_under))]
fn list(
    alloc: Global,
    sight: &Sight<'_>,
    folder: &PathText,
    path: PathText,
    spots: &mut Vec<(PathText, PathText)>,
) -> Result<(), NoMemory>
    ensures listed { OnOk result (Adds (IsUnder (folder.now, path)) (HasUnder sight.now (folder.now, path)) spots.old.items spots.new.items) }
{
    if named_kind(&path).is_some() {
        return add_pair(alloc, folder, path, spots);
    }
    let paths = sight.paths_in(alloc, &path)?;
    add_watched(alloc, folder, paths, spots)?;
    add_pair(alloc, folder, path, spots)
}

/// Adds the watched ones among paths with their folder.
fn add_watched(
    alloc: Global,
    folder: &PathText,
    paths: Vec<PathText>,
    spots: &mut Vec<(PathText, PathText)>,
) -> Result<(), NoMemory>
    ensures added { OnOk result (spots.new.items ≡ spots.old.items ++ map (λ path. (folder.now, path)) (filter is_watched paths.items)) }
{
    for path in paths {
        if named_kind(&path).is_some() {
            add_pair(alloc, folder, path, spots)?;
        }
    }
    Ok(())
}

/// Adds what paths show, and their folders to the linked ones where a link leads on from a path.
fn read_all(
    alloc: Global,
    sight: &Sight<'_>,
    spots: Vec<(PathText, PathText)>,
    revealed: &mut Revealed,
) -> Result<(), NoMemory>
    ensures files { OnOk result (revealed.new.files.items ≡ revealed.old.files.items ++ flat_map (λ (spot : Spot). file_at sight.now spot.1) spots.items) }
    ensures linked { OnOk result (revealed.new.linked.items ≡ revealed.old.linked.items ++ flat_map (linked_at sight.now) spots.items) }
{
    for (folder, path) in spots {
        link_if_led(alloc, sight, folder, &path, &mut revealed.linked)?;
        add_file(alloc, sight, path, &mut revealed.files)?;
    }
    Ok(())
}

/// Adds the folder of a path to the linked ones where a link leads on from the path.
fn link_if_led(
    alloc: Global,
    sight: &Sight<'_>,
    folder: PathText,
    path: &PathText,
    linked: &mut Vec<PathText>,
) -> Result<(), NoMemory>
    ensures linked { OnOk result (linked.new.items ≡ linked.old.items ++ linked_at sight.now (folder, path.now)) }
{
    if sight.leads_on(alloc, path)? {
        linked.push(folder)?;
    }
    Ok(())
}
