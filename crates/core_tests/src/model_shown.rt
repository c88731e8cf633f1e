//! The view of the second model, as text.
use crate::model::Model;
use crate::model_files::{File, Held, State};
use crate::shelf::Place;
use test_words::Text;

/// A sum over slots.
#[derive(Clone, Copy)]
struct Sum {
    slots: u64,
    read: u64,
    packs: u64,
    read_packs: u64,
}

/// The counts.
#[derive(Clone, Copy)]
struct Counts {
    listed: Sum,
    waste: Sum,
    empty: u64,
}

const ZERO: Sum = Sum {
    slots: 0,
    read: 0,
    packs: 0,
    read_packs: 0,
};

impl Sum {
    fn add(&mut self, held: Held) {
        self.slots = self.slots.saturating_add(1);
        if held.index.count().is_some() {
            self.read = self.read.saturating_add(1);
        }
        self.packs = self.packs.saturating_add(held.count_packs());
        self.read_packs = self.read_packs.saturating_add(held.count_read_packs());
    }
}

impl Counts {
    fn add(&mut self, place: Place, listed: bool) {
        let Some(held) = place else {
            self.empty = self.empty.saturating_add(1);
            return;
        };
        if listed {
            self.listed.add(held);
        }
        if held.is_waste() {
            self.waste.add(held);
        }
    }
}

fn put_pack(text: &mut Text, file: File) {
    if file.path.is_empty() {
        return;
    }
    text.marked(" ", file.path);
    match file.state {
        State::Unread => text.put("-"),
        State::Here(count) => text.marked("=", count),
        State::Old(count) => text.marked("~", count),
        State::Gone => text.put("!"),
    }
}

/// Appends the number of objects of an index, and its packs, if it was read.
fn put_loaded(text: &mut Text, held: Held) {
    if let Some(count) = held.index.count() {
        text.marked(if held.row.multi { "*" } else { "=" }, count);
        let [first, second] = held.packs;
        put_pack(text, first);
        put_pack(text, second);
    }
}

/// Appends the index of a slot, if it was read, or with `read` false if it wasn't.
fn put_index(text: &mut Text, slot: usize, place: Place, read: bool) {
    let Some(held) = place else {
        return;
    };
    if held.index.count().is_some() == read {
        text.comma();
        text.marked("", slot as u64);
        text.marked(":", held.row.path);
        put_loaded(text, held);
    }
}

fn put_state(text: &mut Text, held: Held) {
    let read = if held.index.count().is_some() {
        "="
    } else {
        ""
    };
    let waste = if held.is_waste() { "!" } else { "" };
    text.marked(read, waste);
}

fn put_marks(text: &mut Text, place: Place) {
    if let Some(held) = place {
        text.comma();
        text.marked(held.row.path, if held.row.multi { "*" } else { "" });
        put_state(text, held);
    }
}

impl Model {
    pub fn put_view(&self, text: &mut Text, word: &str) {
        text.marked(word, self.entries);
        text.numbers(&[self.list_no, u64::from(self.generation)]);
        text.marked(".", self.state);
        text.put(if self.read { " [" } else { " unread [" });
        self.put_listed(text, true);
        text.put("] [");
        self.put_kept(text);
        text.put("] [");
        self.put_listed(text, false);
        text.put("]");
    }

    /// Appends the listed indices that were read, or with `read` false those that weren't.
    fn put_listed(&self, text: &mut Text, read: bool) {
        for slot in self.shelf.list.iter().flatten() {
            put_index(text, *slot, self.shelf.at(*slot), read);
        }
    }

    /// Appends the other indices that were read.
    fn put_kept(&self, text: &mut Text) {
        for slot in 0..self.shelf.count {
            if !self.shelf.is_listed(slot) {
                put_index(text, slot, self.shelf.at(slot), true);
            }
        }
    }

    fn counts(&self) -> Counts {
        let mut counts = Counts {
            listed: ZERO,
            waste: ZERO,
            empty: 0,
        };
        for slot in 0..self.shelf.count {
            counts.add(self.shelf.at(slot), self.shelf.is_listed(slot));
        }
        counts
    }

    fn count_handles(&self) -> u64 {
        let mut count = 0u64;
        for _handle in self.handles.iter().flatten() {
            count = count.saturating_add(1);
        }
        count
    }

    fn put_counts(&self, text: &mut Text) {
        let counts = self.counts();
        text.numbers(&[
            self.count_handles(),
            self.refreshes,
            counts.listed.read,
            counts.listed.slots,
            counts.listed.read_packs,
            counts.listed.packs,
            counts.empty,
            counts.waste.slots,
            counts.waste.read_packs,
            self.folders,
        ]);
    }

    fn put_all_marks(&self, text: &mut Text) {
        for slot in self.shelf.list.iter().flatten() {
            put_marks(text, self.shelf.at(*slot));
        }
    }

    pub fn put_reported(&self, text: &mut Text) {
        self.put_view(text, "reported #");
        self.put_counts(text);
        text.put(" [");
        self.put_all_marks(text);
        text.marked("]", self.passed.as_str());
        text.put("]");
    }

    /// Appends the core's view and counts.
    pub fn put_present(&self, text: &mut Text) {
        self.put_view(text, "#");
        self.put_counts(text);
    }
}
