//! The packs that were absent, and whether a pack is among them.
ghost use Rattle.std.specs.Prelude.{◌≡◌, ◌==◌, ◌&&◌, ◌||◌, ℕ, [], ◌∷◌, ◌++◌, None, OnErr, OnOk};
ghost use Rattle.std.specs.BTreeMap.{get};
ghost use Rattle.std.specs.BTreeSet.{contains};
ghost use Rattle.std.specs.Ordering.{nat_cmp};
ghost use Rattle.odb_base.specs.Path.{Path, path_cmp};
ghost use Rattle.gix_odb_events.specs.PackFiles.{same_path};
ghost use Rattle.gix_odb_search.specs.AbsentPacks.{in_index};
ghost use Rattle.gix_odb_search.specs.Search.{was_absent};

use crate::search::AbsentFile;
use odb_base::{NoMemory, PathText};
use std::alloc::Global;
use std::collections::{BTreeMap, BTreeSet};
use std::marker::Model;

/// The paths of each slot.
type PathIndex = BTreeMap<u16, BTreeSet<PathText>>;

/// The packs that were absent, in the order in which they were noted, which contracts see as that list. Whether a pack is among
/// them is found without going through the list.
#[derive(Drop)]
pub struct AbsentPacks {
    files: Vec<AbsentFile>,
    /// The paths of the same packs, by their slots.
    index: PathIndex,
}

impl Model for AbsentPacks {
    ghost use Rattle.std.specs.Prelude.{List};
    ghost use Rattle.gix_odb_search.specs.declared.search.AbsentFile.{AbsentFile as AbsentFileValue};

    ghost Value = { List AbsentFileValue };

    ghost use Rattle.gix_odb_search.specs.AbsentPacks.{IsIndexOf};

    ghost view = { λ absent. absent.files.items };

    ghost invariant = { λ absent. IsIndexOf absent.index absent.files.items };
}

impl AbsentPacks {
    /// Returns an empty list.
    pub(crate) fn new(alloc: Global) -> AbsentPacks
        ensures empty { result ≡ [] }
    {
        AbsentPacks {
            files: Vec::new(alloc),
            index: BTreeMap::new(alloc),
        }
    }

    /// Returns the packs, in the order in which they were noted.
    pub fn as_slice(&self) -> &[AbsentFile]
        ensures packs { result.now ≡ self.now }
    {
        &self.files
    }

    /// Returns whether a pack of a slot was absent.
    pub(crate) fn has(&self, slot: u16, path: &PathText) -> bool
        ensures has { result ≡ was_absent self.now slot path.now }
    {
        match self.index.get(&slot) {
            None => false,
            Some(paths) => paths.contains(path),
        }
    }

    /// Adds a pack of a slot. Running out of memory changes nothing.
    pub(crate) fn push(&mut self, alloc: Global, slot: u16, path: PathText) -> Result<(), NoMemory>
        ensures ok { OnOk result (self.new ≡ self.old ++ (record { slot = slot; path = path }) ∷ []) }
        ensures err { OnErr result (self.new ≡ self.old) }
    {
        let key = path.try_clone(alloc)?;
        self.files.push(AbsentFile { slot, path })?;
        if let Err(error) = put(alloc, &mut self.index, slot, key) {
            // The list goes back too, so that it and the index have the same packs.
            let _ = self.files.pop();
            return Err(error);
        }
        Ok(())
    }
}

/// Puts a path under a slot. Running out of memory changes nothing.
fn put(alloc: Global, index: &mut PathIndex, slot: u16, path: PathText) -> Result<(), NoMemory>
    ensures put { OnOk result ((other : ℕ) (place : Path) → in_index index.new other place ≡ (in_index index.old other place || (slot == other && same_path path place))) }
    ensures kept { OnErr result ((other : ℕ) (place : Path) → in_index index.new other place ≡ in_index index.old other place) }
{
    match index.get_mut(&slot) {
        None => put_first(alloc, index, slot, path),
        Some(paths) => add(paths, path),
    }
}

/// Puts the first path under a slot. Running out of memory changes nothing.
fn put_first(
    alloc: Global,
    index: &mut PathIndex,
    slot: u16,
    path: PathText,
) -> Result<(), NoMemory>
    requires first { get nat_cmp index.old slot ≡ None }
    ensures put { OnOk result ((other : ℕ) (place : Path) → in_index index.new other place ≡ (in_index index.old other place || (slot == other && same_path path place))) }
    ensures kept { OnErr result (index.new.entries ≡ index.old.entries) }
{
    let mut paths = BTreeSet::new(alloc);
    add(&mut paths, path)?;
    index.insert(slot, paths)?;
    Ok(())
}

/// Adds a path. Running out of memory changes nothing.
pub(crate) fn add(paths: &mut BTreeSet<PathText>, path: PathText) -> Result<(), NoMemory>
    ensures added { OnOk result ((place : Path) → contains path_cmp paths.new place ≡ (contains path_cmp paths.old place || same_path path place)) }
    ensures kept { OnErr result (paths.new.keys ≡ paths.old.keys) }
{
    paths.insert(path)?;
    Ok(())
}
