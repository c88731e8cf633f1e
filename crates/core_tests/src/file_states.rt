//! The states of a file, turned both ways.
use gix_odb_core::{FileState, OnDiskFile, Shared};
use odb_base::PathText;
use std::alloc::Global;
use std::test::Fail;
use test_words::{Text, wide_halves};

/// States of a file in which 7 was read if something was, and its answers as it is, after it is trashed, and after it is then put back.
const ROWS: &[&str] = &[
    "unloaded | unloaded, unloaded, unloaded",
    "loaded | loaded 7, loaded 7 disposable, loaded 7",
    "garbage | loaded 7 disposable, loaded 7 disposable, loaded 7",
    "missing | unloaded disposable, unloaded disposable, unloaded",
];

fn state_of(word: &str) -> FileState<u8> {
    match word {
        "loaded" => FileState::Loaded(7),
        "garbage" => FileState::Garbage(7),
        "missing" => FileState::Missing,
        _ => FileState::Unloaded,
    }
}

/// Appends a mark and the answers of a file: whether it is loaded, what was read, and whether it is disposable.
fn put_answers(text: &mut Text, mark: &str, file: &OnDiskFile<u8>) {
    let loaded = if file.is_loaded() {
        "loaded"
    } else {
        "unloaded"
    };
    text.marked(mark, loaded);
    if let Some(read) = file.loaded() {
        text.marked(" ", u64::from(*read));
    }
    if file.is_disposable() {
        text.put(" disposable");
    }
}

fn put_turns(text: &mut Text, file: &mut OnDiskFile<u8>) {
    put_answers(text, "", file);
    file.trash();
    put_answers(text, ", ", file);
    file.put_back();
    put_answers(text, ", ", file);
}

fn check(alloc: Global, row: &str) -> Result<(), Fail> {
    let (state, want) = wide_halves(row);
    let path = Shared::new(alloc, PathText::parse(alloc, "/o/pack/pack-a.idx")?)?;
    let mut file = OnDiskFile::new(path, state_of(state));
    let mut text = Text::new(alloc);
    put_turns(&mut text, &mut file);
    text.check(state, want)
}

// A file that is trashed twice, or put back as something else.
#[test]
fn states_of_files(rt: HostRuntime) -> Result<(), Fail> {
    for row in ROWS {
        check(rt.alloc(), row)?;
    }
    Ok(())
}
