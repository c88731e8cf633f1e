//! A second model of a core, as plain as possible: at most ten slots, a list of their numbers, and some counts. It
//! plays events in words, and returns the expected results. It shares no code with the core.
use crate::model_files::Turn;
use crate::shelf::{Listed, Shelf};
use std::alloc::Global;
use test_words::{Text, cut};

/// The second model.
#[derive(Drop)]
pub struct Model {
    pub shelf: Shelf,
    pub read: bool,
    pub list_no: u64,
    pub generation: u32,
    pub state: u64,
    /// The handles by their seats, each with whether it is stable.
    pub handles: [Option<bool>; 8],
    pub folders: u64,
    pub refreshes: u64,
    pub entries: u64,
    /// The files that were passed over, after a bracket.
    pub passed: Text,
}

/// How a core is made: its slots and folders, its generation and its state number.
pub type Opening = (u16, usize, u32, u64);

impl Model {
    pub fn new(alloc: Global, opening: Opening) -> Model {
        let (slots, folders, generation, state) = opening;
        let mut passed = Text::new(alloc);
        passed.put(" [");
        Model {
            shelf: Shelf::new(usize::from(slots)),
            read: false,
            list_no: 0,
            generation,
            state,
            handles: [None; 8],
            folders: folders as u64,
            refreshes: 0,
            entries: 0,
            passed,
        }
    }

    /// Whether a handle is stable, if it is registered.
    pub fn handle(&self, seat: usize) -> Option<bool> {
        self.handles.get(seat).copied().unwrap_or(None)
    }

    /// Plays an event, and appends the expected result to a text.
    pub fn play(&mut self, line: &str, text: &mut Text) {
        let (verb, rest) = cut(line);
        let (seat, rest) = cut(rest);
        self.entries = self.entries.saturating_add(1);
        match verb {
            "register" => self.register(text, seat, rest == "stable"),
            "upgrade" => self.register(text, seat, true),
            "remove" => self.remove(text, seat),
            "look" => self.put_view(text, "seen #"),
            "report" => self.put_reported(text),
            "pass" => self.pass(text, rest),
            "publish" => self.publish(text, rest),
            _ => self.put(text, rest, verb == "index"),
        }
    }

    fn set_handle(&mut self, seat: &str, stable: Option<bool>) {
        let seat = seat.parse::<usize>().unwrap_or(8);
        if let Some(handle) = self.handles.get_mut(seat) {
            *handle = stable;
        }
    }

    fn register(&mut self, text: &mut Text, seat: &str, stable: bool) {
        self.set_handle(seat, Some(stable));
        self.put_view(text, "seen #");
    }

    fn remove(&mut self, text: &mut Text, seat: &str) {
        self.set_handle(seat, None);
        text.put("removed");
    }

    /// Whether the index, or otherwise a pack, of this path waits to be read.
    fn waits(&self, slot: usize, path: &str, index: bool) -> bool {
        match self.shelf.at(slot) {
            Some(held) => held.waits(path) && index != path.ends_with(".pack"),
            None => false,
        }
    }

    /// `SLOT PATH COUNT`, for an index or for a pack.
    fn put(&mut self, text: &mut Text, words: &str, index: bool) {
        let (slot, path, count) = file_of(words);
        if !self.waits(slot, path, index) {
            self.put_view(text, "left #");
        } else if self.state == u64::MAX {
            text.put("overflow");
        } else {
            self.state = self.state.saturating_add(1);
            let count = count.parse::<u64>().unwrap_or(0);
            self.shelf.turn(slot, Turn::Read(path, count));
            self.put_view(text, "stored #");
        }
    }

    /// `SLOT PATH WHY`.
    fn pass(&mut self, text: &mut Text, words: &str) {
        let (slot, path, why) = file_of(words);
        self.passed.comma();
        self.passed.put(path);
        self.passed.marked(" ", why);
        self.shelf.turn(slot, Turn::Missed(path));
        self.put_view(text, "seen #");
    }

    /// `BASE ROW ROW ..`.
    fn publish(&mut self, text: &mut Text, words: &str) {
        let (base, rows) = cut(words);
        if base.parse::<u64>().ok() == Some(self.list_no) {
            let stable = self.handles.contains(&Some(true));
            let listed = self.shelf.listed(rows, stable);
            self.settle(text, listed);
        } else {
            text.marked("outdated ", self.list_no);
        }
    }

    /// Takes over the result of a listing, if there are enough slots, and no counter overflows.
    fn settle(&mut self, text: &mut Text, listed: Listed) {
        let same = self.read && !listed.is_new && listed.shelf.list == self.shelf.list;
        if listed.missing > 0 {
            text.marked("insufficient ", self.shelf.count as u64);
            text.marked(" ", listed.missing);
        } else if self.would_overflow(same, listed.takes_over) {
            text.put("overflow");
        } else {
            self.shelf = listed.shelf;
            self.refreshes = self.refreshes.saturating_add(1);
            self.rise(text, same, listed.takes_over);
        }
    }

    fn would_overflow(&self, same: bool, takes_over: bool) -> bool {
        (!same && self.state == u64::MAX) || (takes_over && self.generation == u32::MAX)
    }

    fn rise(&mut self, text: &mut Text, same: bool, takes_over: bool) {
        if same {
            self.put_view(text, "unchanged #");
            return;
        }
        self.read = true;
        self.list_no = self.list_no.saturating_add(1);
        self.state = self.state.saturating_add(1);
        if takes_over {
            self.generation = self.generation.saturating_add(1);
        }
        self.put_view(text, "published #");
    }
}

/// The slot, the path and the word after them, of `SLOT PATH WORD` or `SLOT.PLACE PATH WORD`.
fn file_of(words: &str) -> (usize, &str, &str) {
    let (slot, rest) = cut(words);
    let (path, word) = cut(rest);
    let (slot, _) = slot.split_once('.').unwrap_or((slot, ""));
    (slot.parse::<usize>().unwrap_or(10), path, word)
}
