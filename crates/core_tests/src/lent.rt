//! What the lists of a view lend, as text.
//!
//! Of each list its length, then in brackets the index at each place, and `none` after the last.
use crate::shown::put_packs;
use gix_odb_events::{KeptList, LentFile, LentIndex, LentTodo, LoadedList, TodoList, View};
use test_words::Text;

/// Appends the listed indices that are loaded, those of other slots, and those to be loaded.
pub fn put_lent(text: &mut Text, view: &View) {
    put_loaded(text, &view.snapshot.indices);
    put_kept(text, &view.snapshot.kept);
    put_todo(text, &view.todo);
}

fn put_loaded(text: &mut Text, loaded: &LoadedList) {
    put_count(text, loaded.len());
    for place in 0..loaded.len() {
        put_index(text, loaded.get(place));
    }
    put_index(text, loaded.get(loaded.len()));
    text.put("]");
}

fn put_kept(text: &mut Text, kept: &KeptList) {
    put_count(text, kept.len());
    for place in 0..kept.len() {
        put_index(text, kept.get(place));
    }
    put_index(text, kept.get(kept.len()));
    text.put("]");
}

fn put_todo(text: &mut Text, todo: &TodoList) {
    put_count(text, todo.len());
    for place in 0..todo.len() {
        put_unloaded(text, todo.get(place));
    }
    put_unloaded(text, todo.get(todo.len()));
    text.put("]");
}

fn put_count(text: &mut Text, count: usize) {
    text.next("");
    text.marked("", count as u64);
    text.put(" [");
}

fn put_index(text: &mut Text, index: Option<LentIndex<'_>>) {
    let Some(index) = index else {
        text.comma();
        text.put("none");
        return;
    };
    put_lent_index(text, index);
}

/// Appends an index: its slot and path, the count of its objects, and its packs.
pub fn put_lent_index(text: &mut Text, index: LentIndex<'_>) {
    text.comma();
    text.marked("", index.slot as u64);
    text.marked(":", index.path);
    match index.index {
        LentFile::Single(file) => text.marked("=", u64::from(file.num_objects())),
        LentFile::Multi(file) => text.marked("*", u64::from(file.num_objects())),
    }
    put_packs(text, index.packs);
}

fn put_unloaded(text: &mut Text, todo: Option<LentTodo<'_>>) {
    text.comma();
    let Some(todo) = todo else {
        text.put("none");
        return;
    };
    text.marked("", todo.slot as u64);
    text.marked(":", todo.path);
}
