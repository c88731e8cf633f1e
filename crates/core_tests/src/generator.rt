//! Random events in words, from a seed.
use crate::events::put_time;
use crate::model::Model;
use crate::shelf::Place;
use test_words::Text;

/// How events are made up: how often in 16 a new handle is stable, a handle that isn't stable is upgraded, and a handle is removed.
pub struct Ways {
    pub stable: u64,
    pub upgraded: u64,
    pub removed: u64,
    /// One more than the most rows of a listing.
    pub rows: u64,
}

/// Numbers that follow from a seed.
#[derive(Drop)]
pub struct Numbers {
    pub state: u64,
}

const PATHS: &[&str] = &[
    "/a.idx", "/b.idx", "/c.idx", "/d.idx", "/e.idx", "/m", "/p/a.idx", "/p/f.idx", "/p/m",
];

const PACKS: &[&str] = &[
    "/a.pack",
    "/b.pack",
    "/c.pack",
    "/m.pack",
    "/p/a.pack",
    "/p/b.pack",
];

const REASONS: &[&str] = &["absent", "failed", "kind", "link", "bad"];

/// The word at a place, wrapping around.
fn word_at(words: &[&'static str], place: u64) -> &'static str {
    let count = words.len() as u64;
    if count == 0 {
        return "";
    }
    let place = (place % count) as usize;
    words.get(place).copied().unwrap_or("")
}

impl Numbers {
    /// A number below another one, and 0 below 0.
    fn below(&mut self, end: u64) -> u64 {
        self.state = self
            .state
            .wrapping_mul(6_364_136_223_846_793_005)
            .wrapping_add(1_442_695_040_888_963_407);
        if end == 0 {
            return 0;
        }
        (self.state >> 33) % end
    }

    /// Whether something happens that happens this often in 16.
    fn happens(&mut self, times: u64) -> bool {
        self.below(16) < times
    }

    fn word(&mut self, words: &[&'static str]) -> &'static str {
        word_at(words, self.below(1 << 16))
    }
}

/// Appends the next event in words.
pub fn put_made_up(text: &mut Text, numbers: &mut Numbers, ways: &Ways, model: &Model) {
    let seat = numbers.below(4);
    match model.handle(seat as usize) {
        None => put_register(text, numbers, ways, seat),
        Some(stable) => put_event(text, numbers, ways, model, (seat, stable)),
    }
}

fn put_register(text: &mut Text, numbers: &mut Numbers, ways: &Ways, seat: u64) {
    text.marked("register ", seat);
    if numbers.happens(ways.stable) {
        text.put(" stable");
    }
}

/// A report comes only sometimes, since it has all files that were passed over.
fn put_event(
    text: &mut Text,
    numbers: &mut Numbers,
    ways: &Ways,
    model: &Model,
    seat: (u64, bool),
) {
    let (seat, stable) = seat;
    match numbers.below(16) {
        0 if numbers.happens(ways.removed) => text.marked("remove ", seat),
        1 if !stable && numbers.happens(ways.upgraded) => text.marked("upgrade ", seat),
        3 if numbers.happens(4) => text.marked("report ", seat),
        0..4 => text.marked("look ", seat),
        4..7 => put_index(text, numbers, model, seat),
        7..10 => put_pack(text, numbers, model, seat),
        10 | 11 => put_pass(text, numbers, model, seat),
        _ => put_publish(text, numbers, ways, model, seat),
    }
}

/// A slot, or the number after the last.
fn any_slot(numbers: &mut Numbers, model: &Model) -> usize {
    numbers.below((model.shelf.count as u64).saturating_add(1)) as usize
}

/// Mostly a slot with a file that waits to be read, if there is one in the slots after some place.
fn slot_of(numbers: &mut Numbers, model: &Model, index: bool) -> usize {
    let start = any_slot(numbers, model);
    if numbers.happens(5) {
        return start;
    }
    for slot in start..model.shelf.count {
        if is_waiting(model.shelf.at(slot), index) {
            return slot;
        }
    }
    start
}

/// Whether the index, or otherwise a pack, waits to be read.
fn is_waiting(place: Place, index: bool) -> bool {
    match place {
        None => false,
        Some(held) if index => held.index.count().is_none(),
        Some(held) => held.count_read_packs() < held.count_packs(),
    }
}

/// Mostly the path of the index in a slot, and sometimes another one.
fn index_path(numbers: &mut Numbers, place: Place) -> &'static str {
    match place {
        Some(held) if !numbers.happens(3) => held.row.path,
        _ => numbers.word(PATHS),
    }
}

/// Mostly the path of a pack in a slot, and sometimes another one.
fn pack_path(numbers: &mut Numbers, place: Place) -> &'static str {
    match place {
        Some(held) if !numbers.happens(3) => {
            let [first, second] = held.packs;
            if second.path.is_empty() || numbers.happens(8) {
                first.path
            } else {
                second.path
            }
        }
        _ => numbers.word(PACKS),
    }
}

fn put_index(text: &mut Text, numbers: &mut Numbers, model: &Model, seat: u64) {
    let slot = slot_of(numbers, model, true);
    text.marked("index ", seat);
    text.marked(" ", slot as u64);
    text.marked(" ", index_path(numbers, model.shelf.at(slot)));
    text.marked(" ", numbers.below(4));
}

fn put_pack(text: &mut Text, numbers: &mut Numbers, model: &Model, seat: u64) {
    let slot = slot_of(numbers, model, false);
    text.marked("pack ", seat);
    text.marked(" ", slot as u64);
    if numbers.happens(6) {
        text.marked(".", numbers.below(2));
    }
    text.marked(" ", pack_path(numbers, model.shelf.at(slot)));
    text.marked(" ", numbers.below(4));
}

fn file_path(numbers: &mut Numbers, place: Place) -> &'static str {
    if numbers.happens(8) {
        pack_path(numbers, place)
    } else {
        index_path(numbers, place)
    }
}

fn put_pass(text: &mut Text, numbers: &mut Numbers, model: &Model, seat: u64) {
    let slot = any_slot(numbers, model);
    text.marked("pass ", seat);
    text.marked(" ", slot as u64);
    text.marked(" ", file_path(numbers, model.shelf.at(slot)));
    text.marked(" ", numbers.word(REASONS));
}

/// A listing: mostly a new one on the newest list, sometimes the same again, or one that began before.
fn put_publish(text: &mut Text, numbers: &mut Numbers, ways: &Ways, model: &Model, seat: u64) {
    text.marked("publish ", seat);
    let before = numbers.below(3);
    text.marked(
        " ",
        if numbers.happens(2) {
            before
        } else {
            model.list_no
        },
    );
    if numbers.happens(4) {
        put_same_rows(text, model);
    } else {
        put_rows(text, numbers, ways.rows);
    }
}

fn put_row(text: &mut Text, path: &str, multi: bool, time: u64) {
    text.marked(" ", path);
    put_time(text, multi, time);
}

/// The rows of the newest list.
fn put_same_rows(text: &mut Text, model: &Model) {
    for slot in model.shelf.list.iter().flatten() {
        if let Some(held) = model.shelf.at(*slot) {
            put_row(text, held.row.path, held.row.multi, held.row.time);
        }
    }
}

/// Rows of different paths: consecutive ones, or every second one.
fn put_rows(text: &mut Text, numbers: &mut Numbers, end: u64) {
    let start = numbers.below(9);
    let stride = if numbers.happens(8) { 1 } else { 2 };
    for at in 0..numbers.below(end) {
        let place = start.wrapping_add(at.wrapping_mul(stride));
        put_made_row(text, numbers, word_at(PATHS, place));
    }
}

/// Mostly a multi-pack index if the path has no ending, and otherwise sometimes.
fn put_made_row(text: &mut Text, numbers: &mut Numbers, path: &str) {
    let times = if path.ends_with(".idx") { 2 } else { 13 };
    let multi = numbers.happens(times);
    put_row(text, path, multi, numbers.below(4));
}
