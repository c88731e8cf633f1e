//! Answers, views, reports and entries as text.
//!
//! A view is `#ENTRY LIST GENERATION.STATE`, then `unread` if no listing was published, then in brackets the listed
//! indices that are loaded, those of other slots, and those to be loaded. An index is `SLOT:PATH`, with `=COUNT` for
//! a single one and `*COUNT` for a multi-pack index of COUNT objects, and then its packs: `-` is unloaded, `!`
//! missing, `=COUNT` loaded and `~COUNT` garbage.
use crate::events::{put_event, word_of_why};
use crate::lent::put_lent_index;
use gix_odb_core::{
    Core, Effect, Entry, KeptList, Listed, LoadedRest, Metrics, PackFile, PackFileList, Passed,
    PassedList, Refusal, Report, Shared, SnapshotIndex, Todo, TodoRest, View,
};
use odb_base::NoMemory;
use test_words::Text;

/// Appends an answer to a text.
pub fn put_answer(text: &mut Text, answer: &Result<Effect, Refusal>) {
    match answer {
        Ok(effect) => put_effect(text, effect),
        Err(refusal) => put_refusal(text, *refusal),
    }
}

fn put_effect(text: &mut Text, effect: &Effect) {
    match effect {
        Effect::Seen(view) => put_view(text, "seen #", view),
        Effect::Reported { view, report } => put_reported(text, view, report.value()),
        Effect::Removed => text.put("removed"),
        Effect::Put { view, stored } => {
            put_view(text, if *stored { "stored #" } else { "left #" }, view);
        }
        Effect::Published(view) => put_view(text, "published #", view),
        Effect::Unchanged(view) => put_view(text, "unchanged #", view),
        Effect::Outdated { list_no } => text.marked("outdated ", *list_no),
    }
}

fn put_refusal(text: &mut Text, refusal: Refusal) {
    match refusal {
        Refusal::InsufficientSlots { current, needed } => {
            text.marked("insufficient ", current as u64);
            text.marked(" ", needed as u64);
        }
        Refusal::GenerationOverflow => text.put("overflow"),
        Refusal::NoMemory => text.put("memory"),
    }
}

/// Appends a word and a view to a text.
fn put_view(text: &mut Text, word: &str, view: &View) {
    put_numbers(text, word, view);
    text.put(" [");
    put_listed_indices(text, view.snapshot.indices.rest());
    text.put("] [");
    put_kept(text, &view.snapshot.kept);
    text.put("] [");
    put_todo(text, view.todo.rest());
    text.put("]");
}

fn put_numbers(text: &mut Text, word: &str, view: &View) {
    text.marked(word, view.snapshot.entry);
    text.marked(" ", view.list_no);
    text.marked(" ", u64::from(view.snapshot.marker.generation));
    text.marked(".", view.snapshot.marker.state_id);
    if !view.read {
        text.put(" unread");
    }
}

/// Appends the listed indices that are loaded. No test has more than a hundred.
fn put_listed_indices(text: &mut Text, rest: Result<LoadedRest, NoMemory>) {
    let Ok(mut rest) = rest else {
        return;
    };
    for _ in 0..100 {
        put_first(text, &rest);
        rest.pass();
    }
}

fn put_first(text: &mut Text, rest: &LoadedRest) {
    if let Some(index) = rest.first() {
        put_lent_index(text, index);
    }
}

/// Appends the indices of the other slots. No test has more than a hundred slots.
fn put_kept(text: &mut Text, kept: &KeptList) {
    for slot in 0..100 {
        put_index(text, kept.in_slot(slot));
    }
}

fn put_index(text: &mut Text, index: Result<Option<SnapshotIndex>, NoMemory>) {
    let Ok(Some(index)) = index else {
        return;
    };
    put_lent_index(text, index.lent());
}

/// Appends packs, each after a space.
pub fn put_packs(text: &mut Text, packs: &PackFileList) {
    for place in 0..packs.len() {
        put_pack(text, packs.get(place));
    }
}

fn put_pack(text: &mut Text, pack: Option<&PackFile>) {
    if let Some(pack) = pack {
        text.marked(" ", pack.path());
        put_state(text, pack);
    }
}

fn put_state(text: &mut Text, pack: &PackFile) {
    match pack.loaded() {
        None => text.put(if pack.is_disposable() { "!" } else { "-" }),
        Some(file) => {
            let mark = if pack.is_disposable() { "~" } else { "=" };
            text.marked(mark, u64::from(file.value().num_objects()));
        }
    }
}

fn put_todo(text: &mut Text, rest: Result<TodoRest, NoMemory>) {
    let Ok(mut rest) = rest else {
        return;
    };
    for _ in 0..100 {
        put_unloaded(text, rest.pop());
    }
}

fn put_unloaded(text: &mut Text, todo: Result<Option<Todo>, NoMemory>) {
    let Ok(Some(todo)) = todo else {
        return;
    };
    text.comma();
    text.marked("", u64::from(todo.slot));
    text.marked(":", todo.path.value());
}

/// Appends a report to a view: the counts, the listed slots, with `*` for multi-pack indices, `=` for loaded ones and
/// `!` for those with a file that is garbage or missing, and the files that were passed over.
fn put_reported(text: &mut Text, view: &View, report: &Report) {
    put_view(text, "reported #", view);
    put_metrics(text, &report.metrics);
    text.put(" [");
    put_listed(text, report.listed.value().as_slice());
    text.put("] [");
    put_passed(text, &report.passed_over);
    text.put("]");
}

/// Appends counts to a text, in the order of the fields.
pub fn put_metrics(text: &mut Text, metrics: &Metrics) {
    text.numbers(&[
        metrics.num_handles as u64,
        metrics.num_refreshes as u64,
        metrics.open_reachable_indices as u64,
        metrics.known_reachable_indices as u64,
        metrics.open_reachable_packs as u64,
        metrics.known_packs as u64,
        metrics.unused_slots as u64,
        metrics.unreachable_indices as u64,
        metrics.unreachable_packs as u64,
        metrics.loose_dbs as u64,
    ]);
}

fn put_listed(text: &mut Text, listed: &[Listed]) {
    for row in listed {
        text.comma();
        text.marked("", row.path.value());
        text.put(if row.multi { "*" } else { "" });
        text.put(if row.loaded { "=" } else { "" });
        text.put(if row.disposable { "!" } else { "" });
    }
}

fn put_passed(text: &mut Text, passed: &PassedList) {
    for place in 0..passed.len() {
        put_passed_file(text, passed.get(place));
    }
}

fn put_passed_file(text: &mut Text, file: Option<&Shared<Passed>>) {
    if let Some(file) = file {
        text.comma();
        text.marked("", file.value().path.value());
        text.put(" ");
        text.put(word_of_why(file.value().why));
    }
}

/// Appends an entry of a journal: its number, its event and its answer.
fn put_entry(text: &mut Text, entry: &Entry) {
    text.marked("", entry.number);
    put_event(text, entry.seat, &entry.event);
    text.put(": ");
    put_answer(text, &entry.answer);
}

/// Appends the entry of a journal at a place, counted from 0.
pub fn put_entry_at(text: &mut Text, core: &Core, place: usize) {
    match core.journal().get(place) {
        Some(entry) => put_entry(text, entry),
        None => text.put("none"),
    }
}

/// Appends the present view of a core, and its counts.
pub fn put_present(text: &mut Text, core: &Core) {
    put_view(text, "#", core.look());
    put_metrics(text, &core.metrics());
}
