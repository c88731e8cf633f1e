//! Lists of values whose copies share what they have in common.
ghost use Rattle.std.specs.Prelude.{◌≡◌, ◌<◌, ◌++◌, ◌∷◌, [], IfOk, None, Some, length, map, replicate, slice_get, slice_set};
ghost use Rattle.std.specs.Option.{option_copied, some_prefix};
ghost use Rattle.gix_odb_events.specs.Values.{HasPlaceLeft, HasValues};

use odb_base::{NoMemory, Shared, SharedList};
use std::alloc::Global;
use std::marker::Model;

/// How many spare places a list has at least, when it gets new ones.
const LEAST_SPARE: usize = 32;

/// A list of values, whose copies share what they have in common. Contracts see it as the list of the values.
///
/// It is a `SharedList` whose first places have the values; those after them are spare. A value more takes one of these, and
/// where none is left there are then as many as values.
#[derive(Drop)]
pub struct SharedSequence<T> {
    places: SharedList<T>,
    len: usize,
}

impl<T> Model for SharedSequence<T> {
    ghost use Rattle.std.specs.Prelude.{List};
    ghost use Rattle.std.specs.Coded.{coded_list};
    ghost use Rattle.std.specs.Option.{some_prefix};
    ghost use Rattle.gix_odb_events.specs.Values.{HasValues};

    ghost Value = { List T };

    ghost coded = { coded_list T.code };

    ghost view = { λ list. some_prefix list.places };

    ghost invariant = { λ list. HasValues list.len list.places };
}

impl<T> SharedSequence<T> {
    /// No value. It allocates no memory.
    pub fn empty() -> SharedSequence<T>
        ensures empty { result ≡ [] }
    {
        SharedSequence {
            places: SharedList::empty(0),
            len: 0,
        }
    }

    /// The number of values.
    pub fn len(&self) -> usize
        ensures len { result ≡ length self.now }
    {
        self.len
    }

    /// The value at a place, counted from 0, if there is one.
    pub fn get(&self, place: usize) -> Option<&Shared<T>>
        ensures value { option_copied result ≡ slice_get self.now place }
    {
        self.places.get(place)
    }

    /// A copy, which shares all.
    pub fn try_clone(&self) -> Result<SharedSequence<T>, NoMemory>
        ensures copy { IfOk result (λ copy. copy ≡ self.now) }
    {
        Ok(SharedSequence {
            places: self.places.try_clone()?,
            len: self.len,
        })
    }
}

impl<T: Drop> SharedSequence<T> {
    /// The values of a vector.
    pub fn from_vec(alloc: Global, values: Vec<Shared<T>>) -> Result<SharedSequence<T>, NoMemory>
        ensures values { IfOk result (λ list. list ≡ values.items) }
    {
        let len = values.len();
        let places = filled(alloc, values)?;
        Ok(SharedSequence {
            places: SharedList::from_vec(alloc, places)?,
            len,
        })
    }

    /// The list with another value at one place. Beyond the end nothing changes.
    pub fn with(
        &self,
        alloc: Global,
        place: usize,
        value: Shared<T>,
    ) -> Result<SharedSequence<T>, NoMemory>
        ensures values { IfOk result (λ list. list ≡ slice_set self.now place value) }
    {
        if place >= self.len {
            return self.try_clone();
        }
        Ok(SharedSequence {
            places: self.places.with(alloc, place, Some(value))?,
            len: self.len,
        })
    }

    /// The list with one value more at the end.
    pub fn with_next(&self, alloc: Global, value: Shared<T>) -> Result<SharedSequence<T>, NoMemory>
        ensures values { IfOk result (λ list. list ≡ self.now ++ value ∷ []) }
    {
        let places = with_place_left(alloc, &self.places, self.len)?;
        Ok(SharedSequence {
            places: places.with(alloc, self.len, Some(value))?,
            len: self.len + 1,
        })
    }
}

/// Places with these values.
fn filled<T: Drop>(
    alloc: Global,
    values: Vec<Shared<T>>,
) -> Result<Vec<Option<Shared<T>>>, NoMemory>
    ensures places { IfOk result (λ places. places.items ≡ map Some values.items) }
{
    let mut places = Vec::with_capacity(alloc, values.len())?;
    for value in values {
        places.push(Some(value))?;
    }
    Ok(places)
}

/// Places of which the first `len` have values, and at least one is spare.
fn with_place_left<T: Drop>(
    alloc: Global,
    places: &SharedList<T>,
    len: usize,
) -> Result<SharedList<T>, NoMemory>
    requires values { HasValues len places.now }
    ensures left { IfOk result (HasPlaceLeft (some_prefix places.now)) }
    ensures room { IfOk result (λ more. len < length more) }
{
    if len < places.len() {
        return places.try_clone();
    }
    let items = with_empty(places.to_vec(alloc)?, len.max(LEAST_SPARE))?;
    SharedList::from_vec(alloc, items)
}

/// Places, with `count` empty ones after them.
fn with_empty<T: Drop>(
    items: Vec<Option<Shared<T>>>,
    count: usize,
) -> Result<Vec<Option<Shared<T>>>, NoMemory>
    ensures items { IfOk result (λ more. more.items ≡ items.items ++ replicate count None) }
{
    let mut more = items;
    more.reserve(count)?;
    for _ in 0..count {
        more.push(None)?;
    }
    Ok(more)
}
