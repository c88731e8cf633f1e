//! Rows, files and slots of the second model.
use crate::words::parts_of;

/// The state of a file.
#[derive(Clone, Copy)]
pub enum State {
    Unread,
    /// It has this many objects.
    Here(u64),
    /// It has this many objects, and no listing has it.
    Old(u64),
    Gone,
}

/// A change of files.
#[derive(Clone, Copy)]
pub enum Turn<'a> {
    /// A listing has them again.
    Back,
    /// No listing has them any more.
    Aside,
    /// The one with this path was read, and has this many objects.
    Read(&'a str, u64),
    /// The one with this path could not be read.
    Missed(&'a str),
}

/// A file of a slot.
#[derive(Clone, Copy)]
pub struct File {
    /// The path, which is empty if there is no such file.
    pub path: &'static str,
    pub state: State,
}

/// A row of a listing.
#[derive(Clone, Copy)]
pub struct Row {
    pub path: &'static str,
    /// The paths of its packs, of which the second may be empty.
    packs: [&'static str; 2],
    pub multi: bool,
    pub time: u64,
}

/// What a slot holds: an index and its packs.
#[derive(Clone, Copy)]
pub struct Held {
    pub row: Row,
    pub index: File,
    pub packs: [File; 2],
}

/// Indices: the path, the pack, and the packs of a multi-pack index at that path.
const INDICES: &[[&str; 4]] = &[
    ["/a.idx", "/a.pack", "/a.pack", "/b.pack"],
    ["/b.idx", "/b.pack", "/a.pack", "/b.pack"],
    ["/c.idx", "/c.pack", "/a.pack", "/b.pack"],
    ["/d.idx", "/d.pack", "/a.pack", "/b.pack"],
    ["/e.idx", "/e.pack", "/a.pack", "/b.pack"],
    ["/m", "/m.pack", "/a.pack", "/b.pack"],
    ["/p/a.idx", "/p/a.pack", "/p/a.pack", "/p/b.pack"],
    ["/p/f.idx", "/p/f.pack", "/p/a.pack", "/p/b.pack"],
    ["/p/m", "/p/m.pack", "/p/a.pack", "/p/b.pack"],
];

impl File {
    fn unread(path: &'static str) -> File {
        File {
            path,
            state: State::Unread,
        }
    }

    /// The number of objects, if it was read.
    pub fn count(self) -> Option<u64> {
        match self.state {
            State::Here(count) | State::Old(count) => Some(count),
            State::Unread | State::Gone => None,
        }
    }

    /// Whether it is garbage or missing.
    fn is_waste(self) -> bool {
        match self.state {
            State::Old(_) | State::Gone => true,
            State::Unread | State::Here(_) => false,
        }
    }

    /// Whether it has this path and wasn't read.
    fn waits(self, path: &str) -> bool {
        self.path == path && self.count().is_none()
    }

    fn turned(self, turn: Turn<'_>) -> File {
        let state = match (turn, self.state) {
            (Turn::Back, State::Old(count)) => State::Here(count),
            (Turn::Back, State::Gone) => State::Unread,
            (Turn::Aside, State::Here(count)) => State::Old(count),
            (Turn::Read(path, count), _) if self.waits(path) => State::Here(count),
            (Turn::Missed(path), _) if self.waits(path) => State::Gone,
            (_, state) => state,
        };
        File {
            path: self.path,
            state,
        }
    }
}

/// The packs of a row of this kind and time.
fn packs_at(multi: bool, time: u64, paths: &[&'static str; 4]) -> [&'static str; 2] {
    let [_, pack, first, second] = *paths;
    if !multi {
        [pack, ""]
    } else if time % 2 == 1 {
        [first, second]
    } else {
        [second, ""]
    }
}

impl Row {
    /// The row of `PATH`, `PATH+TIME` or `PATH@TIME`.
    pub fn parse(word: &str) -> Option<Row> {
        let (path, time, multi) = parts_of(word);
        let time = time.parse::<u64>().ok()?;
        for paths in INDICES {
            if paths[0] == path {
                return Some(Row {
                    path: paths[0],
                    packs: packs_at(multi, time, paths),
                    multi,
                    time,
                });
            }
        }
        None
    }

    /// The contents of a slot that the row takes. A multi-pack index was read, and has an object of each of its packs.
    pub fn taken(self) -> Held {
        let [first, second] = self.packs;
        let state = match (self.multi, second) {
            (false, _) => State::Unread,
            (true, "") => State::Here(1),
            (true, _) => State::Here(2),
        };
        Held {
            row: self,
            index: File {
                path: self.path,
                state,
            },
            packs: [File::unread(first), File::unread(second)],
        }
    }
}

impl Held {
    /// Whether it is what a row lists: the same path and kind, and for a multi-pack index the same time.
    pub fn is_of(self, row: Row) -> bool {
        let same = self.row.path == row.path && self.row.multi == row.multi;
        same && (!row.multi || self.row.time == row.time)
    }

    pub fn turned(self, turn: Turn<'_>) -> Held {
        let [first, second] = self.packs;
        Held {
            row: self.row,
            index: self.index.turned(turn),
            packs: [first.turned(turn), second.turned(turn)],
        }
    }

    /// Whether a file of this path waits to be read.
    pub fn waits(self, path: &str) -> bool {
        let [first, second] = self.packs;
        self.index.waits(path) || first.waits(path) || second.waits(path)
    }

    /// Whether a file is garbage or missing.
    pub fn is_waste(self) -> bool {
        let [first, second] = self.packs;
        self.index.is_waste() || first.is_waste() || second.is_waste()
    }

    pub fn count_packs(self) -> u64 {
        let [_, second] = self.packs;
        if second.path.is_empty() { 1 } else { 2 }
    }

    pub fn count_read_packs(self) -> u64 {
        let [first, second] = self.packs;
        let more = if second.count().is_some() { 1 } else { 0 };
        if first.count().is_some() {
            more + 1
        } else {
            more
        }
    }
}
