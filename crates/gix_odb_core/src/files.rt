//! The turns of files that were read, or passed over.
ghost use Rattle.std.specs.Prelude.{◌≡◌, ◌<◌, ◌+◌, IfOk, Some, slice_set};
ghost use Rattle.gix_odb_core.specs.Files.{slot_with_index, slot_with_pack};
ghost use Rattle.gix_odb_events.specs.Slots.{slot_at};
ghost use Rattle.std.specs.Option.{IfSome};
ghost use Rattle.gix_odb_core.specs.Shelf.{shelf_of};
ghost use Rattle.gix_odb_core.specs.SlotTable.{slot_key};
ghost use Rattle.gix_odb_events.specs.View.{last_state};
ghost use Rattle.gix_odb_core.specs.Turn.{pass_turn, put_turn};

use crate::Shared;
use crate::pass::{slot_passed, slot_turns_missing};
use crate::put::{slot_with_index, slot_with_pack};
use crate::shape::{Shape, Shelf};
use crate::turn::{Told, Turn};
use gix_odb_events::{Filled, Refusal};
use gix_pack_read::{data, index};
use odb_base::{NoMemory, PathText};
use std::alloc::Global;

impl Shape {
    /// The slots, the list and the counters once a slot holds `filled`.
    fn shelf_with(&self, alloc: Global, place: usize, filled: Filled) -> Result<Shelf, NoMemory>
        requires small { self.now.state_id < last_state }
        requires same_index { slot_key (Some filled) ≡ slot_key (slot_at self.now.slots place) }
        ensures shelf { IfOk result (λ shelf. shelf ≡ record (shelf_of self.now) { slots = slice_set self.now.slots place (Some filled); state_id = self.now.state_id + 1 }) }
    {
        let slot = Some(Shared::new(alloc, filled)?);
        let slots = self.slots.with(alloc, place, slot)?;
        let mut shelf = self.with_slots(slots)?;
        shelf.state_id += 1;
        Ok(shelf)
    }

    /// The turn of an event that puts a file; the slot then holds `filled`, if the file is stored.
    fn put(&self, alloc: Global, place: usize, filled: Option<Filled>) -> Result<Turn, NoMemory>
        requires same_index { IfSome filled (λ filled. slot_key (Some filled) ≡ slot_key (slot_at self.now.slots place)) }
        ensures turn { IfOk result (λ turn. turn ≡ put_turn self.now place filled) }
    {
        let Some(filled) = filled else {
            return Ok(Turn::quiet(Told::Put { stored: false }));
        };
        if self.state_id == u64::MAX {
            drop(filled);
            return Ok(Turn::quiet(Told::Refused(Refusal::GenerationOverflow)));
        }
        Ok(Turn {
            shelf: Some(self.shelf_with(alloc, place, filled)?),
            told: Told::Put { stored: true },
        })
    }

    /// The turn when an index was read for a slot.
    pub(crate) fn put_index(
        &self,
        alloc: Global,
        place: usize,
        path: &PathText,
        read: &Shared<index::File>,
    ) -> Result<Turn, NoMemory>
        ensures turn { IfOk result (λ turn. turn ≡ put_turn self.now place (slot_with_index path.now read.now (slot_at self.now.slots place))) }
    {
        let filled = slot_with_index(path, read, self.slots.list(), place)?;
        self.put(alloc, place, filled)
    }

    /// The turn when a pack was read for a slot.
    pub(crate) fn put_pack(
        &self,
        alloc: Global,
        place: usize,
        path: &PathText,
        read: &Shared<data::File>,
    ) -> Result<Turn, NoMemory>
        ensures turn { IfOk result (λ turn. turn ≡ put_turn self.now place (slot_with_pack path.now read.now (slot_at self.now.slots place))) }
    {
        let filled = slot_with_pack(alloc, path, read, self.slots.list(), place)?;
        self.put(alloc, place, filled)
    }

    /// The turn when a file of a slot was passed over. If none becomes missing, nothing is copied.
    pub(crate) fn pass_over(
        &self,
        alloc: Global,
        place: usize,
        path: &PathText,
    ) -> Result<Turn, NoMemory>
        ensures turn { IfOk result (λ turn. turn ≡ pass_turn self.now place path.now) }
    {
        if !slot_turns_missing(path, self.slots.list(), place) {
            return Ok(Turn::quiet(Told::Seen));
        }
        let slot = slot_passed(alloc, path, self.slots.list(), place)?;
        let slots = self.slots.with(alloc, place, slot)?;
        Ok(Turn {
            shelf: Some(self.with_slots(slots)?),
            told: Told::Seen,
        })
    }
}
