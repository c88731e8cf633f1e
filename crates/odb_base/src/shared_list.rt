//! Lists of places whose copies share what they have in common.
ghost use Rattle.std.specs.Prelude.{◌≡◌, ◌/◌, IfOk, None, OnOk, ◌++◌, length, replicate, slice_get, slice_set, unwrap_or};
ghost use Rattle.std.specs.Option.{option_copied};
ghost use Rattle.odb_base.specs.Blocks.{AreFilled, IsFilled, joined};

use crate::filling::in_blocks;
use crate::{NoMemory, Sequence, Shared};
use std::alloc::Global;
use std::marker::Model;

/// How many places a block has, and how many blocks a group, if they are not the last.
pub(crate) const WIDTH: usize = 32;

/// A place: it is empty, or has a value.
type Place<T> = Option<Shared<T>>;

/// Places next to each other.
type Block<T> = Sequence<Place<T>>;

/// Blocks next to each other.
type Group<T> = Sequence<Shared<Block<T>>>;

/// Groups of blocks. All groups and all blocks are full, but perhaps the last.
type Groups<T> = Sequence<Shared<Group<T>>>;

/// A list of places, each empty or with a value, whose copies share what they have in common.
///
/// The places are in blocks of 32, and the blocks in groups of 32. A list whose places are all empty may have none, and
/// then takes no memory beyond itself. A copy adds one owner. A list with another item at one place has a block, a group
/// and a list of groups of its own there, and shares the others: that is 768 bytes for up to 32,768 places.
#[derive(Drop)]
pub struct SharedList<T> {
    groups: Option<Shared<Groups<T>>>,
    len: usize,
}

impl<T> Model for SharedList<T> {
    ghost use Rattle.std.specs.Prelude.{List, Option};
    ghost use Rattle.std.specs.Coded.{coded_list, coded_option};
    ghost use Rattle.odb_base.specs.Blocks.{HasPlaces, places_in};

    ghost Value = { List (Option T) };

    ghost coded = { coded_list (coded_option T.code) };

    ghost view = { λ list. places_in list.len list.groups };

    ghost invariant = { λ list. HasPlaces 32 list.len list.groups };
}

impl<T> SharedList<T> {
    /// `count` empty places. It allocates no memory.
    pub fn empty(count: usize) -> SharedList<T>
        ensures items { result ≡ replicate count None }
    {
        SharedList {
            groups: None,
            len: count,
        }
    }

    /// The number of places.
    pub fn len(&self) -> usize
        ensures len { result ≡ length self.now }
    {
        self.len
    }

    /// The value at a place, counted from 0. None if the place is empty, or after the end.
    pub fn get(&self, place: usize) -> Option<&Shared<T>>
        ensures value { option_copied result ≡ unwrap_or (slice_get self.now place) None }
    {
        match &self.groups {
            None => None,
            Some(groups) => value_at(groups, place),
        }
    }

    /// A copy, which shares all.
    pub fn try_clone(&self) -> Result<SharedList<T>, NoMemory>
        ensures copy { IfOk result (λ copy. copy ≡ self.now) }
    {
        let groups = match &self.groups {
            None => None,
            Some(groups) => Some(groups.try_clone()?),
        };
        Ok(SharedList {
            groups,
            len: self.len,
        })
    }
}

impl<T: Drop> SharedList<T> {
    /// The items of a vector.
    pub fn from_vec(alloc: Global, items: Vec<Option<Shared<T>>>) -> Result<SharedList<T>, NoMemory>
        ensures items { IfOk result (λ list. list ≡ items.items) }
    {
        let len = items.len();
        let groups = groups_of(alloc, items)?;
        Ok(SharedList {
            groups: Some(groups),
            len,
        })
    }

    /// The list with another item at one place. Beyond the end nothing changes.
    pub fn with(
        &self,
        alloc: Global,
        place: usize,
        item: Option<Shared<T>>,
    ) -> Result<SharedList<T>, NoMemory>
        ensures items { IfOk result (λ list. list ≡ slice_set self.now place item) }
    {
        let groups = self.own_groups(alloc)?;
        let groups = with_item(alloc, &groups, place, item)?;
        Ok(SharedList {
            groups: Some(groups),
            len: self.len,
        })
    }

    /// Its groups of blocks. They are made if the list has none.
    fn own_groups(&self, alloc: Global) -> Result<Shared<Groups<T>>, NoMemory>
        ensures filled { IfOk result (IsFilled 32) }
        ensures places { IfOk result (λ groups. joined (joined groups) ≡ self.now) }
    {
        match &self.groups {
            None => groups_of(alloc, empty_places(alloc, self.len)?),
            Some(groups) => groups.try_clone(),
        }
    }

    /// The places in a vector of their own.
    pub fn to_vec(&self, alloc: Global) -> Result<Vec<Option<Shared<T>>>, NoMemory>
        ensures items { IfOk result (λ items. items.items ≡ self.now) }
    {
        match &self.groups {
            None => empty_places(alloc, self.len),
            Some(groups) => places_of(alloc, groups.value(), self.len),
        }
    }
}

/// `count` empty places.
fn empty_places<T: Drop>(alloc: Global, count: usize) -> Result<Vec<Place<T>>, NoMemory>
    ensures items { IfOk result (λ items. items.items ≡ replicate count None) }
{
    let mut items = Vec::with_capacity(alloc, count)?;
    for _ in 0..count {
        items.push(None)?;
    }
    Ok(items)
}

/// Places in groups of blocks.
fn groups_of<T: Drop>(alloc: Global, places: Vec<Place<T>>) -> Result<Shared<Groups<T>>, NoMemory>
    ensures filled { IfOk result (IsFilled 32) }
    ensures places { IfOk result (λ groups. joined (joined groups) ≡ places.items) }
{
    let blocks = in_blocks(alloc, places)?;
    let groups = in_blocks(alloc, blocks.into_vec())?;
    Shared::new(alloc, groups)
}

/// The places of groups of blocks, `count` in all.
fn places_of<T: Drop>(
    alloc: Global,
    groups: &Groups<T>,
    count: usize,
) -> Result<Vec<Place<T>>, NoMemory>
    ensures items { IfOk result (λ items. items.items ≡ joined (joined groups.now)) }
{
    let mut items = Vec::with_capacity(alloc, count)?;
    for group in groups.as_slice() {
        append_group(&mut items, group.value())?;
    }
    Ok(items)
}

/// Groups of blocks with another item at one of their places. After the last nothing changes.
fn with_item<T: Drop>(
    alloc: Global,
    groups: &Shared<Groups<T>>,
    place: usize,
    item: Place<T>,
) -> Result<Shared<Groups<T>>, NoMemory>
    requires filled { IsFilled 32 groups.now }
    ensures filled { IfOk result (IsFilled 32) }
    ensures places { IfOk result (λ changed. joined (joined changed) ≡ slice_set (joined (joined groups.now)) place item) }
{
    match block_at(groups, place / WIDTH) {
        None => groups.try_clone(),
        Some(block) => {
            let block = block_with(alloc, block, place % WIDTH, item)?;
            with_block(alloc, groups, place / WIDTH, block)
        }
    }
}

/// Groups of blocks with another block under one number. After the last nothing changes.
fn with_block<T: Drop>(
    alloc: Global,
    groups: &Shared<Groups<T>>,
    number: usize,
    block: Shared<Block<T>>,
) -> Result<Shared<Groups<T>>, NoMemory>
    requires filled { AreFilled 32 groups.now }
    ensures filled { IfOk result (AreFilled 32) }
    ensures changed { IfOk result (λ changed. joined changed ≡ slice_set (joined groups.now) number block) }
{
    match group_at(groups, number / WIDTH) {
        None => groups.try_clone(),
        Some(group) => {
            let group = shared_with(alloc, group, number % WIDTH, block)?;
            shared_with(alloc, groups, number / WIDTH, group)
        }
    }
}

/// The value at a place of groups of blocks, if there is one.
fn value_at<T>(groups: &Shared<Groups<T>>, place: usize) -> Option<&Shared<T>>
    requires filled { IsFilled 32 groups.now }
    ensures value { option_copied result ≡ unwrap_or (slice_get (joined (joined groups.now)) place) None }
{
    match block_at(groups, place / WIDTH) {
        None => None,
        Some(block) => value_in(block, place % WIDTH),
    }
}

/// The value at a place of a block, if there is one.
fn value_in<T>(block: &Block<T>, place: usize) -> Option<&Shared<T>>
    ensures value { option_copied result ≡ unwrap_or (slice_get block.now place) None }
{
    match block.get(place) {
        Some(Some(value)) => Some(value),
        _ => None,
    }
}

/// The block under a number, if there is one.
fn block_at<T>(groups: &Shared<Groups<T>>, number: usize) -> Option<&Block<T>>
    requires filled { AreFilled 32 groups.now }
    ensures block { option_copied result ≡ slice_get (joined groups.now) number }
{
    match group_at(groups, number / WIDTH) {
        None => None,
        Some(group) => block_in(group, number % WIDTH),
    }
}

/// The group under a number, if there is one.
fn group_at<T>(groups: &Shared<Groups<T>>, number: usize) -> Option<&Shared<Group<T>>>
    ensures group { option_copied result ≡ slice_get groups.now number }
{
    groups.value().get(number)
}

/// The block of a group under a number, if there is one.
fn block_in<T>(group: &Shared<Group<T>>, number: usize) -> Option<&Block<T>>
    ensures block { option_copied result ≡ slice_get group.now number }
{
    match group.value().get(number) {
        None => None,
        Some(block) => Some(block.value()),
    }
}

/// A block with another item at one place.
fn block_with<T: Drop>(
    alloc: Global,
    block: &Block<T>,
    place: usize,
    item: Place<T>,
) -> Result<Shared<Block<T>>, NoMemory>
    ensures items { IfOk result (λ copy. copy ≡ slice_set block.now place item) }
{
    let mut items = Vec::with_capacity(alloc, block.len())?;
    append(&mut items, block)?;
    put(&mut items, place, item);
    Shared::new(alloc, Sequence::from_vec(items))
}

/// A list of shared values with another one at one place.
fn shared_with<X: Drop>(
    alloc: Global,
    values: &Shared<Sequence<Shared<X>>>,
    place: usize,
    value: Shared<X>,
) -> Result<Shared<Sequence<Shared<X>>>, NoMemory>
    ensures values { IfOk result (λ copy. copy ≡ slice_set values.now place value) }
{
    let values = values.value();
    let mut copies = Vec::with_capacity(alloc, values.len())?;
    append_shared(&mut copies, values)?;
    put(&mut copies, place, value);
    Shared::new(alloc, Sequence::from_vec(copies))
}

/// Adds the places of the blocks of a group; each gets one more owner.
fn append_group<T: Drop>(items: &mut Vec<Place<T>>, group: &Group<T>) -> Result<(), NoMemory>
    ensures items { OnOk result (items.new.items ≡ items.old.items ++ joined group.now) }
{
    for block in group.as_slice() {
        append(items, block.value())?;
    }
    Ok(())
}

/// Adds the places of a block; each gets one more owner.
fn append<T: Drop>(items: &mut Vec<Place<T>>, block: &Block<T>) -> Result<(), NoMemory>
    ensures items { OnOk result (items.new.items ≡ items.old.items ++ block.now) }
{
    for item in block.as_slice() {
        items.push(another_owner(item)?)?;
    }
    Ok(())
}

/// Adds shared values; each gets one more owner.
fn append_shared<X: Drop>(
    copies: &mut Vec<Shared<X>>,
    values: &Sequence<Shared<X>>,
) -> Result<(), NoMemory>
    ensures values { OnOk result (copies.new.items ≡ copies.old.items ++ values.now) }
{
    for value in values.as_slice() {
        copies.push(value.try_clone()?)?;
    }
    Ok(())
}

/// The same place; its value gets one more owner.
fn another_owner<T>(item: &Place<T>) -> Result<Place<T>, NoMemory>
    ensures item { IfOk result (λ copy. copy ≡ item.now) }
{
    match item {
        None => Ok(None),
        Some(value) => Ok(Some(value.try_clone()?)),
    }
}

/// Puts an item at a place, if the list has that place.
fn put<X: Drop>(items: &mut Vec<X>, place: usize, item: X)
    ensures items { items.new.items ≡ slice_set items.old.items place item }
{
    if place < items.len() {
        items[place] = item;
    }
}
