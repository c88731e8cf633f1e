//! Reports on listed slots.
ghost use Rattle.std.specs.Prelude.{◌≡◌, ◌++◌, map, IfOk, OnOk, option_map};
ghost use Rattle.std.specs.List.{filter_map};
ghost use Rattle.std.specs.Option.{option_to_list};
ghost use Rattle.gix_odb_core.specs.Counts.{listed_in};
ghost use Rattle.gix_odb_events.specs.Slots.{listed_of, slot_at};

use gix_odb_events::{Listed, ListedList, Shared, SlotList};
use odb_base::{NoMemory, Sequence};
use std::alloc::Global;

/// Adds an item, if there is one.
fn put<T: Drop>(list: &mut Sequence<T>, item: Option<T>) -> Result<(), NoMemory>
    ensures put { OnOk result (list.new ≡ list.old ++ option_to_list item) }
{
    if let Some(item) = item {
        list.push(item)?;
    }
    Ok(())
}

/// The row of a report for the slot at a place, if it is filled.
fn listed_at(slots: &SlotList, place: u16) -> Result<Option<Listed>, NoMemory>
    ensures listed { IfOk result (λ listed. listed ≡ option_map listed_of (slot_at slots.now place)) }
{
    match slots.get(place as usize) {
        Some(filled) => Ok(Some(filled.value().listed()?)),
        None => Ok(None),
    }
}

/// The rows of a report for the listed slots, in the order of the list.
fn listed_places(
    alloc: Global,
    slots: &SlotList,
    places: &[u16],
) -> Result<Sequence<Listed>, NoMemory>
    ensures listed { IfOk result (λ list. list ≡ filter_map (λ place. option_map listed_of (slot_at slots.now place)) places.now) }
{
    let mut list = Sequence::new(alloc);
    for place in places {
        put(&mut list, listed_at(slots, *place)?)?;
    }
    Ok(list)
}

/// The rows of a report for the listed slots, in the order of the list, to be shared.
pub fn report_listed(
    alloc: Global,
    slots: &SlotList,
    places: &[u16],
) -> Result<ListedList, NoMemory>
    ensures listed { IfOk result (λ list. list ≡ map listed_of (listed_in slots.now places.now)) }
{
    let list = listed_places(alloc, slots, places)?;
    Ok(Shared::new(alloc, list)?)
}
