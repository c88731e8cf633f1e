//! A real disk in words: what its calls give in a folder, without what the system chooses.
use crate::words::{answer_shown, ask_of, error_shown, kind_word, next_shown};
use odb_host::HostDisk;
use odb_mem_disk::{DirId, Disk, DiskAnswer, DiskAsk, Entry, Meta, PathText};
use std::alloc::{AllocError, Global};
use std::test::Fail;
use std::{env, fs, io};
use test_words::{compare, cut, halves};

/// Makes an empty folder and goes there.
pub(crate) fn enter(rt: &HostRuntime, folder: &str) -> io::Result<()> {
    let _ = fs::remove_dir_all(rt, folder);
    fs::create_dir_all(rt, folder)?;
    env::set_current_dir(rt, folder)
}

/// The path of the folder that the test is in.
pub(crate) fn here(rt: &HostRuntime) -> Result<String, Fail> {
    let folder = env::current_dir(rt)?;
    Ok(folder.as_str().to_string(rt.alloc())?)
}

pub(crate) fn path_here(rt: &HostRuntime) -> Result<PathText, Fail> {
    let folder = here(rt)?;
    Ok(PathText::parse(rt.alloc(), folder.as_str())?)
}

/// The result of a call in a folder. A name that begins with a slash is elsewhere.
fn told<D: Disk>(alloc: Global, disk: &mut D, folder: &str, text: &str) -> Result<String, Fail> {
    let (verb, names) = cut(text);
    let paths = paths_of(alloc, folder, verb, names)?;
    match verb {
        "list" => listed(alloc, disk, &PathText::parse(alloc, paths.as_str())?),
        _ => called(alloc, disk, verb, paths.as_str()),
    }
}

/// The paths of names in a folder. What else follows a name stays there.
fn paths_of(alloc: Global, folder: &str, verb: &str, names: &str) -> Result<String, AllocError> {
    match verb {
        "rename" => ends_of(alloc, folder, names),
        _ if names.is_empty() => folder.to_string(alloc),
        _ if names.starts_with('/') => names.to_string(alloc),
        _ => format!(in alloc; "{folder}/{names}"),
    }
}

/// The path of a name in a folder. One that begins with a slash is elsewhere.
pub(crate) fn path_of(alloc: Global, folder: &str, name: &str) -> Result<PathText, Fail> {
    let text = paths_of(alloc, folder, "look", name)?;
    Ok(PathText::parse(alloc, text.as_str())?)
}

fn ends_of(alloc: Global, folder: &str, names: &str) -> Result<String, AllocError> {
    let (from, to) = cut(names);
    format!(in alloc; "{folder}/{from} {folder}/{to}")
}

fn called<D: Disk>(alloc: Global, disk: &mut D, verb: &str, rest: &str) -> Result<String, Fail> {
    let ask = ask_of(alloc, verb, rest)?;
    answered(alloc, disk, &ask)
}

fn answered<D: Disk>(alloc: Global, disk: &mut D, ask: &DiskAsk) -> Result<String, Fail> {
    Ok(plain_shown(alloc, &ask.carry_out(alloc, disk))?)
}

/// The result of a stat or a read without numbers and times: kind and length, or the bytes.
fn plain_shown(alloc: Global, answer: &DiskAnswer) -> Result<String, AllocError> {
    match answer {
        DiskAnswer::Meta(meta) => kind_and_length(alloc, *meta),
        DiskAnswer::File { bytes, .. } => bytes_shown(alloc, bytes.as_slice()),
        answer => answer_shown(alloc, answer),
    }
}

fn kind_and_length(alloc: Global, meta: Meta) -> Result<String, AllocError> {
    let (kind, len) = (kind_word(meta.kind), meta.len);
    format!(in alloc; "{kind} {len}")
}

/// A few bytes as a text, and the length of more.
fn bytes_shown(alloc: Global, bytes: &[u8]) -> Result<String, AllocError> {
    let len = bytes.len();
    if len > 16 {
        return format!(in alloc; "{len}");
    }
    str::from_utf8(bytes).unwrap_or("no text").to_string(alloc)
}

/// What a stream of a directory gives up to its end, then once more, and then when it is closed.
fn listed<D: Disk>(alloc: Global, disk: &mut D, path: &PathText) -> Result<String, Fail> {
    match disk.open_dir(alloc, path) {
        Ok(dir) => given(alloc, disk, dir),
        Err(error) => Ok(error_shown(alloc, error)?),
    }
}

fn given<D: Disk>(alloc: Global, disk: &mut D, dir: DirId) -> Result<String, Fail> {
    let mut all = all_shown(alloc, disk, &dir)?;
    add_more(alloc, disk, &dir, &mut all)?;
    disk.close_dir(dir);
    add_more(alloc, disk, &dir, &mut all)?;
    Ok(all)
}

fn add_more<D: Disk>(
    alloc: Global,
    disk: &mut D,
    dir: &DirId,
    all: &mut String,
) -> Result<(), Fail> {
    let more = all_shown(alloc, disk, dir)?;
    all.push_str("; ")?;
    all.push_str(more.as_str())?;
    Ok(())
}

/// The entries that a stream gives up to its end or to an error, in the order of their names, and what came last.
fn all_shown<D: Disk>(alloc: Global, disk: &mut D, dir: &DirId) -> Result<String, Fail> {
    let mut shown = Vec::new(alloc);
    let last = collect(alloc, disk, dir, &mut shown)?;
    shown.sort()?;
    Ok(joined(alloc, shown.as_slice(), last.as_str())?)
}

/// Takes the entries of a stream, and says what came last.
fn collect<D: Disk>(
    alloc: Global,
    disk: &mut D,
    dir: &DirId,
    shown: &mut Vec<String>,
) -> Result<String, AllocError> {
    for _ in 0..1000 {
        match disk.next_entry(alloc, dir) {
            Ok(Some(entry)) => add_entry(alloc, shown, &entry)?,
            last => return next_shown(alloc, last),
        }
    }
    "more".to_string(alloc)
}

fn add_entry(alloc: Global, shown: &mut Vec<String>, entry: &Entry) -> Result<(), AllocError> {
    shown.push(entry_shown(alloc, entry)?)?;
    Ok(())
}

fn entry_shown(alloc: Global, entry: &Entry) -> Result<String, AllocError> {
    let (name, kind) = (entry.name.as_str(), kind_word(entry.kind));
    format!(in alloc; "{name} {kind}, ")
}

fn joined(alloc: Global, shown: &[String], last: &str) -> Result<String, AllocError> {
    let mut all = String::new(alloc);
    for entry in shown {
        all.push_str(entry.as_str())?;
    }
    all.push_str(last)?;
    Ok(all)
}

/// Makes the call of each row, in turn, with names of a folder, and compares what it gives.
fn check_rows<D: Disk>(alloc: Global, disk: &mut D, folder: &str, rows: &str) -> Result<(), Fail> {
    for row in rows.split('\n') {
        let (text, want) = halves(row);
        compare(text, told(alloc, disk, folder, text)?.as_str(), want)?;
    }
    Ok(())
}

/// Checks rows in the folder that the test is in, and compares how many calls failed.
pub(crate) fn check_here(rt: &HostRuntime, rows: &str, faults: u64) -> Result<(), Fail> {
    let folder = here(rt)?;
    let mut disk = HostDisk::new(rt.alloc(), rt);
    check_rows(rt.alloc(), &mut disk, folder.as_str(), rows)?;
    count(disk.faults(), faults)
}

/// Fails if there is another count of failures than is wanted.
pub(crate) fn count(found: u64, want: u64) -> Result<(), Fail> {
    if found == want {
        return Ok(());
    }
    Err(Fail::new(format_args!("{found} failures in place of {want}")))
}

/// What a directory of the system gives, and how many calls failed.
pub(crate) fn listed_there(rt: &HostRuntime, path: &str) -> Result<(String, u64), Fail> {
    let mut disk = HostDisk::new(rt.alloc(), rt);
    let text = listed(rt.alloc(), &mut disk, &PathText::parse(rt.alloc(), path)?)?;
    Ok((text, disk.faults()))
}
