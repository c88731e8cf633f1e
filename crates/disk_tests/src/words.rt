//! The rows of the tests, and calls, changes and answers of disks in words.
use odb_mem_disk::{
    ByteList, DiskAnswer, DiskAsk, DiskError, Entry, Impossible, Kind, Meta, PathText,
};
use std::alloc::{AllocError, Global};
use std::test::Fail;
use test_words::cut;

/// Two paths with a blank between them.
fn two_paths(alloc: Global, ends: &str) -> Result<(PathText, PathText), Fail> {
    let (from, to) = cut(ends);
    let from = PathText::parse(alloc, from)?;
    let to = PathText::parse(alloc, to)?;
    Ok((from, to))
}

/// A path, and the bytes of the text after a blank.
fn path_and_bytes(alloc: Global, rest: &str) -> Result<(PathText, ByteList), Fail> {
    let (path, text) = cut(rest);
    let path = PathText::parse(alloc, path)?;
    let bytes = ByteList::from_slice(alloc, text.as_bytes())?;
    Ok((path, bytes))
}

/// A call as a value, by its name in words. A `follow` is a stat that follows a link in the last place.
pub(crate) fn ask_of(alloc: Global, verb: &str, rest: &str) -> Result<DiskAsk, Fail> {
    match verb {
        "append" => append_ask(alloc, rest),
        "rename" => rename_ask(alloc, rest),
        _ => Ok(path_ask(verb, PathText::parse(alloc, rest)?)),
    }
}

fn append_ask(alloc: Global, rest: &str) -> Result<DiskAsk, Fail> {
    let (path, bytes) = path_and_bytes(alloc, rest)?;
    Ok(DiskAsk::Append { path, bytes })
}

fn rename_ask(alloc: Global, ends: &str) -> Result<DiskAsk, Fail> {
    let (from, to) = two_paths(alloc, ends)?;
    Ok(DiskAsk::Rename { from, to })
}

fn path_ask(verb: &str, path: PathText) -> DiskAsk {
    match verb {
        "look" => look_ask(path, false),
        "follow" => look_ask(path, true),
        "read" => DiskAsk::Read { path },
        "mkdir" => DiskAsk::MakeDir { path },
        "new" => DiskAsk::NewFile { path },
        _ => DiskAsk::Remove { path },
    }
}

fn look_ask(path: PathText, follow: bool) -> DiskAsk {
    DiskAsk::Look { path, follow }
}

/// An answer in words: the result of a stat or a read, a stream's number or what it gives, `done`, or the error.
pub(crate) fn answer_shown(alloc: Global, answer: &DiskAnswer) -> Result<String, AllocError> {
    match answer {
        DiskAnswer::Meta(meta) => meta_shown(alloc, *meta),
        DiskAnswer::File { bytes, time } => file_shown(alloc, bytes.as_slice(), *time),
        DiskAnswer::Refused(error) => error_shown(alloc, *error),
        DiskAnswer::Dir(dir) => number_shown(alloc, dir.number()),
        DiskAnswer::Entry(entry) => entry_shown(alloc, entry),
        DiskAnswer::End => "end".to_string(alloc),
        DiskAnswer::Done => "done".to_string(alloc),
    }
}

fn number_shown(alloc: Global, number: u64) -> Result<String, AllocError> {
    format!(in alloc; "{number}")
}

/// The result of a stat: kind, device, inode number, length and time.
pub(crate) fn meta_shown(alloc: Global, meta: Meta) -> Result<String, AllocError> {
    let kind = kind_word(meta.kind);
    let (dev, ino, len, time) = (meta.dev, meta.ino, meta.len, meta.time);
    format!(in alloc; "{kind} {dev} {ino} {len} {time}")
}

pub(crate) fn kind_word(kind: Kind) -> &'static str {
    match kind {
        Kind::File => "File",
        Kind::Dir => "Dir",
        Kind::Link => "Link",
    }
}

/// The bytes of a file, as a text, and its time.
pub(crate) fn file_shown(alloc: Global, bytes: &[u8], time: u64) -> Result<String, AllocError> {
    let text = str::from_utf8(bytes).unwrap_or("no text");
    format!(in alloc; "{text} {time}")
}

pub(crate) fn error_shown(alloc: Global, error: DiskError) -> Result<String, AllocError> {
    format!(in alloc; "{error}")
}

/// The result of a change: `done`, or the error.
pub(crate) fn change_shown(
    alloc: Global,
    made: Result<(), Impossible>,
) -> Result<String, AllocError> {
    match made {
        Ok(()) => "done".to_string(alloc),
        Err(error) => format!(in alloc; "{error}"),
    }
}

/// What a stream gives: an entry, `end`, or the error.
pub(crate) fn next_shown(
    alloc: Global,
    next: Result<Option<Entry>, DiskError>,
) -> Result<String, AllocError> {
    match next {
        Ok(Some(entry)) => entry_shown(alloc, &entry),
        Ok(None) => "end".to_string(alloc),
        Err(error) => error_shown(alloc, error),
    }
}

/// Name, kind and inode number of an entry.
fn entry_shown(alloc: Global, entry: &Entry) -> Result<String, AllocError> {
    let (name, kind, ino) = (entry.name.as_str(), kind_word(entry.kind), entry.ino);
    format!(in alloc; "{name} {kind} {ino}")
}
