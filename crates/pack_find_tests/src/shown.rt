//! Calls, events and ends as words.
use gix_odb::Reply;
use gix_odb::find::Header;
use gix_odb_core::{Event, ListingRow, PassWhy, Refusal, Todo, TodoRest};
use gix_odb_search::{Error, Found, Notes, Tried};
use odb_base::{NoMemory, PathText};
use odb_mem_disk::DiskAsk;
use std::alloc::Global;
use std::str;
use test_words::Text;

fn put_named(text: &mut Text, word: &str, path: &PathText) {
    text.next(word);
    text.marked(" ", path);
}

/// Appends a call of the disk to a text. A stat with `!` follows links.
pub fn put_ask(text: &mut Text, ask: &DiskAsk) {
    match ask {
        DiskAsk::OpenDir { path } => put_named(text, "open", path),
        DiskAsk::NextEntry { .. } => text.next("next"),
        DiskAsk::CloseDir { .. } => text.next("close"),
        DiskAsk::Look { path, follow } => {
            put_named(text, if *follow { "look!" } else { "look" }, path);
        }
        DiskAsk::Read { path } => put_named(text, "read", path),
        DiskAsk::MakeDir { path } => put_named(text, "make", path),
        DiskAsk::NewFile { path } => put_named(text, "new", path),
        DiskAsk::Append { path, .. } => put_named(text, "append", path),
        DiskAsk::Rename { from, to } => {
            put_named(text, "rename", from);
            text.marked(" ", to);
        }
        DiskAsk::Remove { path } => put_named(text, "remove", path),
    }
}

fn word_of_why(why: PassWhy) -> &'static str {
    match why {
        PassWhy::Absent => "absent",
        PassWhy::Failed => "failed",
        PassWhy::WrongKind => "kind",
        PassWhy::LinkLoop => "link",
        PassWhy::Bad => "bad",
    }
}

fn put_pass(text: &mut Text, slot: u16, why: PassWhy) {
    text.next("pass-over");
    text.marked(" ", u64::from(slot));
    text.put(" ");
    text.put(word_of_why(why));
}

/// Appends a word with a number to a text.
pub fn put_numbered(text: &mut Text, word: &str, slot: u64) {
    text.next(word);
    text.marked(" ", slot);
}

/// Appends an event of the core to a text, with its slot if it has one.
pub fn put_event(text: &mut Text, event: &Event) {
    match event {
        Event::PutIndex { slot, .. } => put_numbered(text, "put-index", u64::from(*slot)),
        Event::PutPack { pack, .. } => put_numbered(text, "put-pack", pack.index as u64),
        Event::PassOver { slot, why, .. } => put_pass(text, *slot, *why),
        Event::Look => text.next("view"),
        Event::Publish(_) => text.next("publish"),
        _ => text.next("another event"),
    }
}

/// Appends the rows of a listing to a text, each with its length, and for a multi-pack index with its packs.
pub fn put_rows(text: &mut Text, rows: &[ListingRow]) {
    text.next("rows");
    for row in rows {
        text.marked(" ", &row.path);
        text.marked(" ", row.len);
        put_packs(text, row);
    }
}

fn put_packs(text: &mut Text, row: &ListingRow) {
    if let Some(file) = &row.multi {
        text.marked("*", u64::from(file.value().num_indices()));
    }
}

/// Appends indices that are to be loaded to a text, each with its slot.
pub fn put_todo(text: &mut Text, rest: Result<TodoRest, NoMemory>) {
    text.next("todo");
    let Ok(mut rest) = rest else {
        return;
    };
    // No test has more than a hundred.
    for _ in 0..100 {
        put_unloaded(text, rest.pop());
    }
}

fn put_unloaded(text: &mut Text, todo: Result<Option<Todo>, NoMemory>) {
    let Ok(Some(todo)) = todo else {
        return;
    };
    text.marked(" ", u64::from(todo.slot));
    text.marked(":", todo.path.value());
}

/// Appends a refusal of the core to a text.
pub fn put_refusal(text: &mut Text, refusal: Refusal) {
    text.next(match refusal {
        Refusal::InsufficientSlots { .. } => "insufficient-slots",
        Refusal::GenerationOverflow => "generation-overflow",
        Refusal::NoMemory => "no memory",
    });
}

fn put_kind(text: &mut Text, word: &str, kind: gix_object::Kind, size: u64) {
    text.next(word);
    text.put(if kind == gix_object::Kind::Blob {
        " blob"
    } else {
        " another kind"
    });
    text.marked(" ", size);
}

fn put_object(text: &mut Text, kind: gix_object::Kind, bytes: &[u8]) {
    put_kind(text, "found", kind, bytes.len() as u64);
    text.put(" ");
    text.put(str::from_utf8(bytes).unwrap_or("no text"));
}

fn put_found(text: &mut Text, found: &Found) {
    match found {
        Found::Object { kind, bytes } => put_object(text, *kind, bytes.as_slice()),
        Found::Header { kind, size } => put_kind(text, "header", *kind, *size),
        Found::Presence => text.next("present"),
    }
}

// Whether the read of an index failed, and the packs that were absent, each with its slot.
fn put_missed(text: &mut Text, notes: &Notes) {
    text.next(if notes.failed {
        "missed failed"
    } else {
        "missed"
    });
    for file in notes.absent.as_slice() {
        text.marked(" ", u64::from(file.slot));
        text.marked(":", &file.path);
    }
}

fn put_error(text: &mut Text, error: Error) {
    match error {
        Error::LoadPack => text.next("load-pack"),
        Error::Pack => text.next("pack"),
        Error::EntryType { code } => put_numbered(text, "entry-type", u64::from(code)),
        Error::DeltaEntry => text.next("delta-entry"),
        Error::OutOfMemory { size } => put_numbered(text, "out-of-memory", size),
    }
}

/// Appends the result of a search to a text.
pub fn put_end(text: &mut Text, tried: &Tried) {
    match tried {
        Tried::More(_) => text.next("no end"),
        Tried::Hit(found) => put_found(text, found),
        Tried::Missed(notes) => put_missed(text, notes),
        Tried::Bad(error) => put_error(text, *error),
        Tried::Broken(refusal) => put_refusal(text, *refusal),
    }
}

fn put_header(text: &mut Text, header: Header) {
    match header {
        Header::Loose { kind, size } => put_kind(text, "header loose", kind, size),
        Header::Packed { kind, size } => put_kind(text, "header packed", kind, size),
    }
}

/// Appends the reply of a call or of an opening to a text.
pub fn put_reply(alloc: Global, text: &mut Text, reply: &Reply) -> Result<(), NoMemory> {
    match reply {
        Reply::Opened { slots } => put_numbered(text, "opened", u64::from(*slots)),
        Reply::Found { kind, bytes } => put_object(text, *kind, bytes.as_slice()),
        Reply::Header(header) => put_header(text, *header),
        Reply::Tested(there) => text.next(if *there { "present" } else { "absent" }),
        Reply::NotFound => text.next("not found"),
        Reply::Wrote(id) => {
            text.next("wrote ");
            text.put(id.to_hex(alloc)?.as_str());
        }
        Reply::Refused(error) => {
            text.next("refused: ");
            text.marked("", error);
        }
    }
    Ok(())
}
