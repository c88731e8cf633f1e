//! The rows of a listing and slots: which slots a row keeps, and which slot holds each row.
ghost use Rattle.std.specs.Prelude.{◌≡◌, ◌<◌, IfOk, get_or, length, map};
ghost use Rattle.std.specs.List.{position};
ghost use Rattle.gix_odb_core.specs.Publish.{is_kept, is_new};
ghost use Rattle.gix_odb_events.specs.Slots.{slot_at, holds};

use crate::SlotTable;
use crate::index_key::{kept_slots, places_of_rows};
use gix_odb_events::{ListingRow, Slot};
use odb_base::NoMemory;
use std::alloc::Global;

/// The rows of a listing and slots, each looked up once among the others.
#[derive(Drop)]
pub struct Matched<'a> {
    pub rows: &'a [ListingRow],
    pub slots: &'a [Slot],
    /// For each slot, whether a row keeps its contents.
    kept: Vec<bool>,
    /// For each row, the first slot that holds it.
    places: Vec<Option<u16>>,
    ghost kept_slots: { kept.items ≡ map (is_kept rows.now) slots.now },
    ghost places_of_rows: { places.items ≡ map (λ row. position (holds row) slots.now) rows.now },
}

impl<'a> Matched<'a> {
    /// Looks up rows among slots, whose table is `table`, and slots among rows.
    pub fn new(
        alloc: Global,
        rows: &'a [ListingRow],
        slots: &'a [Slot],
        table: &SlotTable,
    ) -> Result<Matched<'a>, NoMemory>
        requires table { table.now ≡ slots.now }
        ensures rows { IfOk result (λ matched. matched.rows.now ≡ rows.now) }
        ensures slots { IfOk result (λ matched. matched.slots.now ≡ slots.now) }
    {
        let kept = kept_slots(alloc, rows, slots)?;
        let places = places_of_rows(alloc, rows, table)?;
        Ok(Matched {
            rows,
            slots,
            kept,
            places,
        })
    }

    /// The slot at a place.
    pub(crate) fn slot(&self, place: usize) -> &Slot
        requires within { place < length self.now.slots.now }
        ensures slot { result.now ≡ slot_at self.now.slots.now place }
    {
        &self.slots[place]
    }

    /// Whether a row keeps the contents of the slot at a place.
    pub(crate) fn is_kept(&self, place: usize) -> bool
        requires within { place < length self.now.slots.now }
        ensures kept { result ≡ is_kept self.now.rows.now (slot_at self.now.slots.now place) }
    {
        self.kept[place]
    }

    /// Whether no slot holds the row at a place.
    pub(crate) fn is_new(&self, place: usize) -> bool
        requires within { place < length self.now.rows.now }
        ensures new { (row : ListingRow) → row ≡ get_or self.now.rows.now place row → result ≡ is_new self.now.slots.now row }
    {
        self.places[place].is_none()
    }

    /// For each row, the first slot that holds it.
    pub(crate) fn places(&self) -> &[Option<u16>]
        ensures places { result.now ≡ map (λ row. position (holds row) self.now.slots.now) self.now.rows.now }
    {
        &self.places
    }
}
