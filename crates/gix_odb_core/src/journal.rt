//! What happened to a core, in order.
ghost use Rattle.std.specs.Prelude.{◌≡◌, ◌+◌, ◌<◌, ◌≤◌, ◌++◌, [], ◌∷◌, OnOk, length, slice_get};
ghost use Rattle.std.specs.Option.{option_copied};
ghost use Rattle.gix_odb_core.specs.Journal.{entries_of};
ghost use Rattle.gix_odb_events.specs.View.{last_state};

use gix_odb_events::{Effect, Event, Refusal};
use odb_base::NoMemory;
use std::alloc::Global;
use std::marker::Model;

/// An event and its answer.
#[derive(Drop)]
pub struct Entry {
    /// Its place in the journal, counted from 1.
    pub number: u64,
    /// The seat of the handle.
    pub seat: u32,
    pub event: Event,
    pub answer: Result<Effect, Refusal>,
}

/// What happened to a core, in order: contracts see its entries, and how many more there is room for.
#[derive(Drop)]
pub struct Journal {
    entries: Vec<Entry>,
}

impl Model for Journal {
    ghost use Rattle.std.specs.Prelude.{◌-◌, vec_capacity, vec_len};
    ghost use Rattle.gix_odb_core.specs.Pages.{Pages};

    ghost Value = { Pages };

    ghost view = { λ j. record { entries = j.entries.items; room = vec_capacity j.entries - vec_len j.entries } };
}

impl Journal {
    /// A journal without entries. It takes no memory.
    pub(crate) fn new(alloc: Global) -> Journal
        ensures entries { entries_of result ≡ [] }
    {
        Journal {
            entries: Vec::new(alloc),
        }
    }

    /// Makes room for so many more entries. An empty journal gets exactly this room, since those of most stores stay short.
    pub(crate) fn make_room(&mut self, more: usize) -> Result<(), NoMemory>
        ensures entries { entries_of self.new ≡ entries_of self.old }
        ensures grows { self.old.room ≤ self.new.room }
        ensures room { OnOk result (more ≤ self.new.room) }
    {
        if self.entries.is_empty() {
            self.entries.reserve_exact(more)?;
        } else {
            self.entries.reserve(more)?;
        }
        Ok(())
    }

    /// Appends an entry for which there is room. It takes no memory.
    pub(crate) fn push(&mut self, entry: Entry)
        requires room { 0 < self.old.room }
        ensures entries { entries_of self.new ≡ entries_of self.old ++ entry ∷ [] }
        ensures room { self.new.room + 1 ≡ self.old.room }
        ensures countable { length (entries_of self.old) < last_state }
    {
        self.entries.push_reserved(entry);
    }

    /// How many entries there are.
    pub fn len(&self) -> usize
        ensures len { result ≡ length (entries_of self.now) }
    {
        self.entries.len()
    }

    /// The entry at a place, counted from 0, if there is one.
    pub fn get(&self, index: usize) -> Option<&Entry>
        ensures entry { option_copied result ≡ slice_get (entries_of self.now) index }
    {
        self.entries.get(index)
    }
}
