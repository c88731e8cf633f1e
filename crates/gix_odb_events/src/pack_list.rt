//! Lists of packs whose copies share what they have in common.
ghost use Rattle.std.specs.Prelude.{◌≡◌, ◌≤◌, [], ◌∷◌, ◌++◌, IfOk, IsTrue, MatchOption, OnOk, false, length, slice_get, slice_set};
ghost use Rattle.std.specs.List.{list_any};
ghost use Rattle.std.specs.Option.{option_copied, option_to_list};
ghost use Rattle.odb_base.specs.Path.{path_cmp};
ghost use Rattle.gix_odb_events.specs.PackList.{HasFirst, IsRising, has_path, has_path_at};

use crate::{PackFile, Shared, SharedSequence};
use odb_base::{NoMemory, PathText};
use std::alloc::Global;
use std::cmp::Ordering;
use std::marker::Model;

/// The packs of an index, which contracts see as a list. Copies share what they have in common.
///
/// The names in a multi-pack index are in ascending order, and so are the paths of its packs, but for odd names: `a.idx` is
/// below `a.j.idx`, and `a.pack` above `a.j.pack`. Where the paths are, one is found by binary search.
#[derive(Drop)]
pub struct PackFileList {
    /// The pack, if there is only one.
    only: Option<Shared<PackFile>>,
    /// The packs otherwise.
    many: SharedSequence<PackFile>,
    /// Whether the paths are known to rise.
    rising: bool,
}

impl Model for PackFileList {
    ghost use Rattle.std.specs.Prelude.{List};
    ghost use Rattle.gix_odb_events.specs.PackFiles.{PackFile};
    ghost use Rattle.gix_odb_events.specs.PackList.{IsRisingIf, packs_in};

    ghost Value = { List PackFile };

    ghost view = { λ list. packs_in list.only list.many };

    ghost invariant = { λ list. IsRisingIf list.rising (packs_in list.only list.many) };
}

impl PackFileList {
    /// One pack.
    pub fn one(pack: Shared<PackFile>) -> PackFileList
        ensures pack { result ≡ pack ∷ [] }
    {
        PackFileList {
            only: Some(pack),
            many: SharedSequence::empty(),
            rising: true,
        }
    }

    /// The packs of a vector.
    pub fn from_vec(alloc: Global, packs: Vec<Shared<PackFile>>) -> Result<PackFileList, NoMemory>
        ensures packs { IfOk result (λ list. list ≡ packs.items) }
    {
        if let [only] = packs.as_slice() {
            return Ok(PackFileList::one(only.try_clone()?));
        }
        let rising = is_rising(&packs);
        Ok(PackFileList {
            only: None,
            many: SharedSequence::from_vec(alloc, packs)?,
            rising,
        })
    }

    /// The number of packs.
    pub fn len(&self) -> usize
        ensures len { result ≡ length self.now }
    {
        match &self.only {
            Some(_) => 1,
            None => self.many.len(),
        }
    }

    /// The pack at a place, counted from 0, if there is one, to be shared.
    pub fn shared(&self, place: usize) -> Option<&Shared<PackFile>>
        ensures pack { option_copied result ≡ slice_get self.now place }
    {
        match &self.only {
            Some(pack) => { if place == 0 { Some(pack) } else { None } }
            None => self.many.get(place),
        }
    }

    /// The pack at a place, counted from 0, if there is one.
    pub fn get(&self, place: usize) -> Option<&PackFile>
        ensures value { option_copied result ≡ slice_get self.now place }
    {
        match self.shared(place) {
            Some(pack) => Some(pack.value()),
            None => None,
        }
    }

    /// Whether the paths are known to rise.
    pub fn is_rising(&self) -> bool
        ensures rising { IsTrue result → IsRising self.now }
    {
        self.rising
    }

    /// The place of the first pack of a path, by binary search if it is there and the paths are in ascending order.
    pub fn place_of(&self, path: &PathText) -> Option<usize>
        ensures place { MatchOption result (list_any (has_path path.now) self.now ≡ false) (HasFirst path.now self.now) }
    {
        if self.is_rising() {
            let place = place_by_halves(self, path);
            if has_path_at(self, place, path) {
                return Some(place);
            }
        }
        first_place(self, path)
    }

    /// The packs with another one at one place. Beyond the end nothing changes.
    pub fn with(
        &self,
        alloc: Global,
        place: usize,
        pack: Shared<PackFile>,
    ) -> Result<PackFileList, NoMemory>
        ensures packs { IfOk result (λ list. list ≡ slice_set self.now place pack) }
    {
        let rising = stays_rising(self, place, &pack);
        let Some(only) = &self.only else {
            return Ok(PackFileList {
                only: None,
                many: self.many.with(alloc, place, pack)?,
                rising,
            });
        };
        if place == 0 {
            return Ok(PackFileList::one(pack));
        }
        Ok(PackFileList::one(only.try_clone()?))
    }

    /// The packs in a vector of their own.
    pub fn to_vec(&self, alloc: Global) -> Result<Vec<Shared<PackFile>>, NoMemory>
        ensures packs { IfOk result (λ packs. packs.items ≡ self.now) }
    {
        let mut packs = Vec::with_capacity(alloc, self.len())?;
        for place in 0..self.len() {
            put_pack(&mut packs, self, place)?;
        }
        Ok(packs)
    }
}

/// Adds the pack at a place, if there is one; it gets one more owner.
fn put_pack(
    packs: &mut Vec<Shared<PackFile>>,
    list: &PackFileList,
    place: usize,
) -> Result<(), NoMemory>
    ensures put { OnOk result (packs.new.items ≡ packs.old.items ++ option_to_list (slice_get list.now place)) }
{
    if let Some(pack) = list.shared(place) {
        packs.push(pack.try_clone()?)?;
    }
    Ok(())
}

/// Whether a path is before another.
fn is_below(path: &PathText, other: &PathText) -> bool
    ensures below { IsTrue result → path_cmp path.now other.now ≡ Ordering.Less }
{
    match path.cmp(other) {
        Ordering::Less => true,
        _ => false,
    }
}

/// Whether each path is before the next.
fn is_rising(packs: &[Shared<PackFile>]) -> bool
    ensures rising { IsTrue result → IsRising packs.now }
{
    for place in 1..packs.len() {
        let before = packs[place - 1].value().path();
        if !is_below(before, packs[place].value().path()) {
            return false;
        }
    }
    true
}

/// Whether the pack at a place has a path.
fn has_path_at(packs: &PackFileList, place: usize, path: &PathText) -> bool
    ensures has { result ≡ has_path_at path.now (slice_get packs.now place) }
{
    match packs.get(place) {
        Some(pack) => *pack.path() == *path,
        None => false,
    }
}

/// Whether the paths are known to rise with another pack at a place: it has the path of the one that was there.
fn stays_rising(packs: &PackFileList, place: usize, pack: &Shared<PackFile>) -> bool
    ensures rising { IsTrue result → IsRising (slice_set packs.now place pack.now) }
{
    if !packs.is_rising() {
        return false;
    }
    has_path_at(packs, place, pack.value().path())
}

/// The place at which a path is, if the paths are in ascending order and it is there.
fn place_by_halves(packs: &PackFileList, path: &PathText) -> usize
    ensures within { result ≤ length packs.now }
{
    let mut low = 0;
    let mut high = packs.len();
    while low < high {
        let middle = low + (high - low) / 2;
        if is_before(packs, middle, path) {
            low = middle + 1;
        } else {
            high = middle;
        }
    }
    low
}

/// Whether the path of the pack at a place is before another.
fn is_before(packs: &PackFileList, place: usize, path: &PathText) -> bool {
    match packs.get(place) {
        Some(pack) => is_below(pack.path(), path),
        None => false,
    }
}

/// The place of the first pack of a path.
fn first_place(packs: &PackFileList, path: &PathText) -> Option<usize>
    ensures place { MatchOption result (list_any (has_path path.now) packs.now ≡ false) (HasFirst path.now packs.now) }
{
    for place in 0..packs.len() {
        if has_path_at(packs, place, path) {
            return Some(place);
        }
    }
    None
}
