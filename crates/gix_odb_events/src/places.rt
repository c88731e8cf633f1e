//! The numbers of listed slots, and which slots these are.
ghost use Rattle.std.specs.Prelude.{◌≡◌, ◌<◌, ◌≤◌, ◌||◌, ℕ, All, IfOk, false, get_or, length, nat_eq, []};
ghost use Rattle.gix_odb_events.specs.Places.{IsMarked};
ghost use Rattle.gix_odb_events.specs.Shown.{is_listed};

use crate::Shared;
use odb_base::{NoMemory, Sequence};
use std::alloc::Global;
use std::marker::Model;

/// The numbers of listed slots, with a mark for each.
#[derive(Drop)]
struct ListedPlaces {
    places: Sequence<u16>,
    /// For each number up to the greatest, whether it is listed.
    marks: Vec<bool>,
}

impl Model for ListedPlaces {
    ghost use Rattle.std.specs.Prelude.{List, ℕ};
    ghost use Rattle.gix_odb_events.specs.Places.{IsMarked};

    ghost Value = { List ℕ };

    ghost view = { λ listed. listed.places };

    ghost invariant = { λ listed. IsMarked listed.marks.items listed.places };
}

impl ListedPlaces {
    /// A list of numbers, in its order.
    fn new(alloc: Global, places: Sequence<u16>) -> Result<ListedPlaces, NoMemory>
        ensures places { IfOk result (λ listed. listed ≡ places) }
    {
        let marks = marks_of(alloc, places.as_slice())?;
        Ok(ListedPlaces { places, marks })
    }

    /// The list.
    fn as_slice(&self) -> &[u16]
        ensures places { result.now ≡ self.now }
    {
        self.places.as_slice()
    }

    /// Whether a slot is listed.
    fn has(&self, place: usize) -> bool
        ensures has { result ≡ is_listed self.now place }
    {
        match self.marks.get(place) {
            Some(marked) => *marked,
            None => false,
        }
    }
}

/// The numbers of the listed slots, in the order of the list, which contracts see as that list. A copy shares them.
/// Whether it has a slot is known without searching it.
#[derive(Drop)]
pub struct PlaceList {
    /// None if no slot is listed, so that such a list takes no memory.
    listed: Option<Shared<ListedPlaces>>,
}

impl Model for PlaceList {
    ghost use Rattle.std.specs.Prelude.{[], List, unwrap_or, ℕ};

    ghost Value = { List ℕ };

    ghost view = { λ list. unwrap_or list.listed [] };
}

impl PlaceList {
    /// No slot is listed. It takes no memory.
    pub fn empty() -> PlaceList
        ensures empty { result ≡ [] }
    {
        PlaceList { listed: None }
    }

    /// A list of numbers, in its order.
    pub fn new(alloc: Global, places: Sequence<u16>) -> Result<PlaceList, NoMemory>
        ensures places { IfOk result (λ list. list ≡ places) }
    {
        if places.len() == 0 {
            return Ok(PlaceList::empty());
        }
        let listed = ListedPlaces::new(alloc, places)?;
        Ok(PlaceList {
            listed: Some(Shared::new(alloc, listed)?),
        })
    }

    /// A copy, which shares the list.
    pub fn try_clone(&self) -> Result<PlaceList, NoMemory>
        ensures copy { IfOk result (λ copy. copy ≡ self.now) }
    {
        let listed = match &self.listed {
            None => None,
            Some(listed) => Some(listed.try_clone()?),
        };
        Ok(PlaceList { listed })
    }

    /// The list.
    pub fn as_slice(&self) -> &[u16]
        ensures places { result.now ≡ self.now }
    {
        match &self.listed {
            None => &[],
            Some(listed) => listed.value().as_slice(),
        }
    }

    /// Whether a slot is listed.
    pub fn has(&self, place: u16) -> bool
        ensures has { result ≡ is_listed self.now place }
    {
        self.has_at(place as usize)
    }

    /// Whether a slot is listed, by its number as a size.
    pub(crate) fn has_at(&self, place: usize) -> bool
        ensures has { result ≡ is_listed self.now place }
    {
        match &self.listed {
            None => false,
            Some(listed) => listed.value().has(place),
        }
    }
}

/// Marks a place.
fn mark(marks: &mut [bool], place: u16)
    requires within { place < length marks.old }
    ensures len { length marks.new ≡ length marks.old }
    ensures marked { (k : ℕ) → k < length marks.old → get_or marks.new k false ≡ (get_or marks.old k false || nat_eq k place) }
{
    marks[place as usize] = true;
}

/// The place after the greatest of a list, and 0 where it is empty.
fn count_of(places: &[u16]) -> usize
    ensures above { All (λ place. place < result) places.now }
{
    let mut count = 0;
    for place in places {
        count = count.max(*place as usize + 1);
    }
    count
}

/// For each number up to the greatest, whether it is listed.
fn marks_of(alloc: Global, places: &[u16]) -> Result<Vec<bool>, NoMemory>
    ensures marked { IfOk result (λ marks. IsMarked marks.items places.now) }
{
    let count = count_of(places);
    let mut marks = vec![in alloc; false; count]?;
    for place in places {
        mark(&mut marks, *place);
    }
    Ok(marks)
}
