//! The slots of the second model, and how listings change them.
use crate::model_files::{Held, Row, Turn};

/// What a slot holds, if anything.
pub type Place = Option<Held>;

/// Slots, and the newest list.
#[derive(Clone, Copy)]
pub struct Shelf {
    slots: [Place; 10],
    /// How many slots there are.
    pub count: usize,
    /// The slots of the newest listing, in its order.
    pub list: [Option<usize>; 10],
}

/// The result of a listing.
#[derive(Clone, Copy)]
pub struct Listed {
    pub shelf: Shelf,
    /// How many slots are missing.
    pub missing: u64,
    /// Whether no slot held one of the rows.
    pub is_new: bool,
    /// Whether a row takes a slot that held something.
    pub takes_over: bool,
}

/// Whether a listing has the contents of a slot.
fn is_wanted(rows: &str, held: Held) -> bool {
    for word in rows.split(' ') {
        if let Some(row) = Row::parse(word) {
            if held.is_of(row) {
                return true;
            }
        }
    }
    false
}

/// The slot after a listing. Only a stable handle keeps what the listing doesn't have.
fn left(place: Place, rows: &str, stable: bool) -> Place {
    let held = place?;
    if is_wanted(rows, held) {
        return Some(held.turned(Turn::Back));
    }
    if stable {
        Some(held.turned(Turn::Aside))
    } else {
        None
    }
}

impl Shelf {
    /// This many empty slots, at most ten.
    pub fn new(count: usize) -> Shelf {
        Shelf {
            slots: [None; 10],
            count,
            list: [None; 10],
        }
    }

    pub fn at(&self, slot: usize) -> Place {
        self.slots.get(slot).copied().unwrap_or(None)
    }

    fn set(&mut self, slot: usize, held: Held) {
        if let Some(place) = self.slots.get_mut(slot) {
            *place = Some(held);
        }
    }

    /// Changes the files of a slot.
    pub fn turn(&mut self, slot: usize, turn: Turn<'_>) {
        if let Some(held) = self.at(slot) {
            self.set(slot, held.turned(turn));
        }
    }

    pub fn is_listed(&self, slot: usize) -> bool {
        self.list.contains(&Some(slot))
    }

    /// The number of the slot that holds a row.
    fn place_of(&self, row: Row) -> Option<usize> {
        for slot in 0..self.count {
            if let Some(held) = self.at(slot) {
                if held.is_of(row) {
                    return Some(slot);
                }
            }
        }
        None
    }

    /// The number after the greatest of the list, where the search for free slots starts.
    fn behind_list(&self) -> usize {
        let mut behind = 0;
        for slot in self.list.iter().flatten() {
            if *slot >= behind {
                behind = slot.saturating_add(1);
            }
        }
        behind
    }

    /// The first empty slot from a number on, or otherwise the first of all.
    fn empty_slot(&self, start: usize) -> Option<usize> {
        let mut first = None;
        for slot in 0..self.count {
            if self.at(slot).is_none() {
                if slot >= start {
                    return Some(slot);
                }
                first = first.or(Some(slot));
            }
        }
        first
    }

    /// Appends a slot to the list.
    fn add(&mut self, slot: usize) {
        for place in self.list.iter_mut() {
            if place.is_none() {
                *place = Some(slot);
                return;
            }
        }
    }

    /// The slots that a listing leaves, before its new rows take some. The list is empty.
    fn left(&self, rows: &str, stable: bool) -> Shelf {
        let mut shelf = *self;
        shelf.list = [None; 10];
        for place in shelf.slots.iter_mut() {
            *place = left(*place, rows, stable);
        }
        shelf
    }

    /// The result of a listing.
    pub fn listed(&self, rows: &str, stable: bool) -> Listed {
        let mut listed = Listed {
            shelf: self.left(rows, stable),
            missing: 0,
            is_new: false,
            takes_over: false,
        };
        for word in rows.split(' ') {
            if let Some(row) = Row::parse(word) {
                listed.add(self, row);
            }
        }
        listed
    }
}

impl Listed {
    /// The next row, which keeps its slot or takes an empty one.
    fn add(&mut self, before: &Shelf, row: Row) {
        match before.place_of(row) {
            Some(slot) => self.shelf.add(slot),
            None => self.take(before, row),
        }
    }

    fn take(&mut self, before: &Shelf, row: Row) {
        self.is_new = true;
        match self.shelf.empty_slot(before.behind_list()) {
            None => self.missing = self.missing.saturating_add(1),
            Some(slot) => {
                self.takes_over = self.takes_over || before.at(slot).is_some();
                self.shelf.set(slot, row.taken());
                self.shelf.add(slot);
            }
        }
    }
}
