//! The turn of a listing that is published.
ghost use Rattle.std.specs.Prelude.{◌≡◌, ◌≤◌, ◌<◌, ◌&&◌, ◌==◌, true, false, All, IfOk, length, if◌then◌else◌};
ghost use Rattle.gix_odb_core.specs.Publish.{free_places, list_after, new_rows, same_list};
ghost use Rattle.std.specs.Option.{IfSome};
ghost use Rattle.gix_odb_events.specs.Slots.{HasFewPacks};
ghost use Rattle.gix_odb_core.specs.Handles.{is_any_stable as any_stable};
ghost use Rattle.gix_odb_core.specs.Shelf.{shelf_of};
ghost use Rattle.gix_odb_core.specs.Steps.{publishing, settled_as, with_list, with_room, would_overflow};
ghost use Rattle.gix_odb_core.specs.Turn.{publish_turn, stands};
ghost use Rattle.gix_odb_events.specs.PackId.{most_slots};

use crate::publish::{count_new, free_places, list_after, list_as_is, slots_after, takes_over};
use crate::shape::{Shape, Shelf};
use crate::turn::{Told, Turn};
use crate::unsettled::is_any_unsettled;
use crate::{Matched, SlotTable};
use gix_odb_events::{Listing, ListingRow, PlaceList, Refusal, Slot};
use odb_base::{NoMemory, Sequence};
use std::alloc::Global;

/// By how much the generation rises.
fn risen(renewed: bool) -> u32
    ensures risen { result ≡ (if renewed then 1 else 0) }
{
    if renewed { 1 } else { 0 }
}

/// The slots after a listing of these rows, and the new list, in the form that a core and its views share.
fn shared_with_list(
    alloc: Global,
    rows: &[ListingRow],
    after: Sequence<Slot>,
) -> Result<(SlotTable, PlaceList), NoMemory>
    requires few { length after ≤ most_slots }
    ensures slots { IfOk result (λ shared. shared.0 ≡ after) }
    ensures list { IfOk result (λ shared. shared.1 ≡ list_after rows.now after) }
{
    let slots = SlotTable::new(alloc, after.into_vec())?;
    let list = PlaceList::new(alloc, list_after(alloc, rows, &slots)?)?;
    Ok((slots, list))
}

impl Shape {
    /// Whether a list was published before and equals this one, and no row is new: `news` is their number.
    fn is_confirmed(&self, list: &[u16], news: usize) -> bool
        ensures confirmed { result ≡ (self.now.read && same_list list.now self.now.list && news == 0) }
    {
        self.read && list == self.list.as_slice() && news == 0
    }

    /// Whether a listing leaves the slots and the list unchanged.
    fn stands(
        &self,
        alloc: Global,
        stable: bool,
        matched: &Matched,
        news: usize,
    ) -> Result<bool, NoMemory>
        requires few { length self.now.slots ≤ most_slots }
        requires slots { matched.now.slots.now ≡ self.now.slots }
        requires stable { stable ≡ any_stable self.now.handles }
        requires news { length (new_rows self.now.slots matched.now.rows.now) ≡ news }
        ensures stands { IfOk result (λ same. same ≡ stands self.now matched.now.rows.now) }
    {
        if news > 0 || is_any_unsettled(stable, matched) {
            return Ok(false);
        }
        let list = list_as_is(alloc, matched)?;
        Ok(self.is_confirmed(list.as_slice(), news))
    }

    /// Whether a counter that would have to rise is at its greatest value.
    fn would_overflow(&self, confirmed: bool, renewed: bool) -> bool
        ensures overflows { result ≡ would_overflow self.now confirmed renewed }
    {
        (!confirmed && self.state_id == u64::MAX) || (renewed && self.generation == u32::MAX)
    }

    /// The shape with a new list.
    fn with_list(&self, slots: SlotTable, list: PlaceList, renewed: bool) -> Shelf
        requires numbered { self.now.list_no ≤ self.now.state_id }
        requires rises { would_overflow self.now false renewed ≡ false }
        ensures shelf { result ≡ shelf_of (with_list self.now slots list renewed) }
    {
        let generation = self.generation;
        let state_id = self.state_id;
        Shelf {
            slots,
            list,
            read: true,
            list_no: self.list_no + 1,
            generation: generation + risen(renewed),
            state_id: state_id + 1,
        }
    }

    /// The shape with its current list.
    fn with_same_list(&self, slots: SlotTable, list: PlaceList) -> Shelf
        requires same { same_list list self.now.list ≡ true }
        ensures shelf { result ≡ shelf_of (record self.now { slots = slots }) }
    {
        Shelf {
            slots,
            list,
            read: self.read,
            list_no: self.list_no,
            generation: self.generation,
            state_id: self.state_id,
        }
    }

    /// The turn of a listing that there is room for, by its slots and its list, and whether a slot was taken over.
    fn settled_as(
        &self,
        rows: &[ListingRow],
        slots: SlotTable,
        list: PlaceList,
        news: usize,
        renewed: bool,
    ) -> Turn
        requires numbered { self.now.list_no ≤ self.now.state_id }
        requires changes { stands self.now rows.now ≡ false }
        requires news { length (new_rows self.now.slots rows.now) ≡ news }
        ensures turn { result ≡ publish_turn self.now rows.now (settled_as self.now rows.now slots list renewed) }
        ensures leaves { IfSome result.shelf (λ shelf. shelf.slots ≡ slots) }
    {
        let confirmed = self.is_confirmed(list.as_slice(), news);
        if self.would_overflow(confirmed, renewed) {
            return Turn::quiet(Told::Refused(Refusal::GenerationOverflow));
        }
        if confirmed {
            Turn {
                shelf: Some(self.with_same_list(slots, list)),
                told: Told::Unchanged,
            }
        } else {
            Turn {
                shelf: Some(self.with_list(slots, list, renewed)),
                told: Told::Published,
            }
        }
    }

    /// The turn of a listing that there is room for.
    fn publish_with_room(
        &self,
        alloc: Global,
        stable: bool,
        matched: &Matched,
        free: &[usize],
        news: usize,
    ) -> Result<Turn, NoMemory>
        requires few { length self.now.slots ≤ most_slots }
        requires numbered { self.now.list_no ≤ self.now.state_id }
        requires slots { matched.now.slots.now ≡ self.now.slots }
        requires stable { stable ≡ any_stable self.now.handles }
        requires free { free.now ≡ free_places stable matched.now.rows.now self.now.slots self.now.list }
        requires within { All (λ place. place < length self.now.slots) free.now }
        requires news { length (new_rows self.now.slots matched.now.rows.now) ≡ news }
        requires room { news ≤ length free.now }
        requires packs { All HasFewPacks self.now.slots }
        ensures turn { IfOk result (λ turn. turn ≡ publish_turn self.now matched.now.rows.now (with_room self.now matched.now.rows.now)) }
        ensures few_packs { IfOk result (λ turn. IfSome turn.shelf (λ shelf. All HasFewPacks shelf.slots)) }
    {
        if self.stands(alloc, stable, matched, news)? {
            return Ok(Turn::quiet(Told::Unchanged));
        }
        let renewed = takes_over(matched.slots, free, news);
        let after = slots_after(alloc, stable, matched, free)?;
        let (slots, list) = shared_with_list(alloc, matched.rows, after)?;
        Ok(self.settled_as(matched.rows, slots, list, news, renewed))
    }

    /// The turn of a listing.
    pub(crate) fn publish(&self, alloc: Global, listing: &Listing) -> Result<Turn, NoMemory>
        requires few { length self.now.slots ≤ most_slots }
        requires numbered { self.now.list_no ≤ self.now.state_id }
        requires packs { All HasFewPacks self.now.slots }
        ensures turn { IfOk result (λ turn. turn ≡ publish_turn self.now listing.now.rows (publishing self.now listing.now)) }
        ensures few_packs { IfOk result (λ turn. IfSome turn.shelf (λ shelf. All HasFewPacks shelf.slots)) }
    {
        if listing.base != self.list_no {
            return Ok(Turn::quiet(Told::Outdated {
                list_no: self.list_no,
            }));
        }
        let slots = self.slots.list().to_vec(alloc)?;
        self.publish_over(alloc, listing, &slots)
    }

    /// The turn of a listing that isn't outdated, with the slots as a slice.
    fn publish_over(
        &self,
        alloc: Global,
        listing: &Listing,
        slots: &[Slot],
    ) -> Result<Turn, NoMemory>
        requires few { length self.now.slots ≤ most_slots }
        requires numbered { self.now.list_no ≤ self.now.state_id }
        requires packs { All HasFewPacks self.now.slots }
        requires slots { slots.now ≡ self.now.slots }
        requires in_time { listing.now.base ≡ self.now.list_no }
        ensures turn { IfOk result (λ turn. turn ≡ publish_turn self.now listing.now.rows (publishing self.now listing.now)) }
        ensures few_packs { IfOk result (λ turn. IfSome turn.shelf (λ shelf. All HasFewPacks shelf.slots)) }
    {
        let stable = self.handles.is_any_stable();
        let matched = Matched::new(alloc, listing.rows.as_slice(), slots, &self.slots)?;
        let free = free_places(alloc, stable, &matched, self.list.as_slice())?;
        let news = count_new(&matched);
        if free.len() < news {
            let needed = news - free.len();
            return Ok(Turn::quiet(Told::Refused(Refusal::InsufficientSlots {
                current: self.slots.list().len(),
                needed,
            })));
        }
        self.publish_with_room(alloc, stable, &matched, &free, news)
    }
}
