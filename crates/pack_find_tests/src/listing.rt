//! Listing a disk, and publishing its rows.
use crate::disks::change;
use crate::happening::happen;
use crate::shown::{put_ask, put_refusal, put_rows, put_todo};
use gix_hash::Kind;
use gix_odb_core::{Core, Effect, Event, Listing, Refusal};
use gix_odb_search::{ListStep, ListedStore, Lister, MultiUse};
use odb_base::PathText;
use odb_mem_disk::{DiskAnswer, DiskAsk, MemDisk};
use std::alloc::Global;
use std::test::Fail;
use test_words::{Text, cut};

/// How multi-pack indices of SHA-1 are used, without a limit.
pub const USED: Option<MultiUse> = Some(MultiUse {
    hash: Kind::Sha1,
    limit: None,
});

fn push_path(alloc: Global, paths: &mut Vec<PathText>, word: &str) -> Result<(), Fail> {
    Ok(paths.push(PathText::parse(alloc, word)?)?)
}

fn paths_of(alloc: Global, words: &str) -> Result<Vec<PathText>, Fail> {
    let mut paths = Vec::new(alloc);
    for word in words.split(' ') {
        push_path(alloc, &mut paths, word)?;
    }
    Ok(paths)
}

/// How folders are listed.
#[derive(Drop)]
struct Plan<'a> {
    /// The folders besides the objects directory.
    others: &'a [PathText],
    multi: Option<MultiUse>,
    /// A file becomes a link to this path before it is read, unless there is none.
    swapped: &'a str,
}

/// A file becomes a link.
fn swap(alloc: Global, disk: &mut MemDisk, path: &PathText, target: &str) -> Result<(), Fail> {
    let taken = format!(in alloc; "{path}")?;
    let linked = format!(in alloc; "{path} {target}")?;
    change(alloc, disk, "take", &taken)?;
    change(alloc, disk, "link", &linked)
}

fn swap_if_read(
    alloc: Global,
    disk: &mut MemDisk,
    ask: &DiskAsk,
    target: &str,
) -> Result<(), Fail> {
    match ask {
        DiskAsk::Read { path } if !target.is_empty() => swap(alloc, disk, path, target),
        _ => Ok(()),
    }
}

/// The answer to the next call of a listing, which is appended to a text.
fn answered(
    alloc: Global,
    disk: &mut MemDisk,
    plan: &Plan<'_>,
    lister: &Lister,
    text: &mut Text,
) -> Result<DiskAnswer, Fail> {
    let ask = lister.ask(alloc)?;
    put_ask(text, &ask);
    swap_if_read(alloc, disk, &ask, plan.swapped)?;
    Ok(ask.carry_out(alloc, disk))
}

fn step(
    alloc: Global,
    disk: &mut MemDisk,
    plan: &Plan<'_>,
    lister: Lister,
    text: &mut Text,
) -> Result<ListStep, Fail> {
    let answer = answered(alloc, disk, plan, &lister, text)?;
    let store = ListedStore {
        folders: plan.others,
        multi: plan.multi,
        loaded: None,
    };
    Ok(lister.feed(alloc, &store, answer)?)
}

fn put_too_many(text: &mut Text, actual: u32, path: &PathText) {
    text.next("too many packs");
    text.marked(" ", u64::from(actual));
    text.marked(" ", path);
}

/// Returns a listing, or appends to a text how it broke off.
fn listing_of(
    alloc: Global,
    disk: &mut MemDisk,
    plan: &Plan<'_>,
    mut lister: Lister,
    text: &mut Text,
) -> Result<Option<Listing>, Fail> {
    for _ in 0..100 {
        match step(alloc, disk, plan, lister, text)? {
            ListStep::More(more) => lister = more,
            ListStep::Listed(listing) => return Ok(Some(listing)),
            ListStep::Broken => {
                text.next("broken");
                return Ok(None);
            }
            ListStep::TooManyPacks { actual, path } => {
                put_too_many(text, actual, &path);
                return Ok(None);
            }
        }
    }
    text.next("no end");
    Ok(None)
}

/// Which folders are listed, the objects directory first, and how.
#[derive(Drop)]
struct Folders<'a> {
    words: &'a str,
    multi: Option<MultiUse>,
    swapped: &'a str,
}

/// Lists folders after a list of a number. Its calls are appended to a text.
fn listed(
    alloc: Global,
    disk: &mut MemDisk,
    folders: &Folders<'_>,
    base: u64,
    text: &mut Text,
) -> Result<Option<Listing>, Fail> {
    let paths = paths_of(alloc, folders.words)?;
    let Some((objects, others)) = paths.as_slice().split_first() else {
        return Err(Fail::new("no folder"));
    };
    let lister = Lister::start(alloc, objects, base)?;
    let plan = Plan {
        others,
        multi: folders.multi,
        swapped: folders.swapped,
    };
    listing_of(alloc, disk, &plan, lister, text)
}

fn put_listed(
    alloc: Global,
    disk: &mut MemDisk,
    folders: &Folders<'_>,
    text: &mut Text,
) -> Result<(), Fail> {
    if let Some(listing) = listed(alloc, disk, folders, 0, text)? {
        put_rows(text, listing.rows.as_slice());
    }
    Ok(())
}

/// Appends the calls and the rows of a listing to a text, in the order in which they are tried.
pub fn put_list(
    alloc: Global,
    disk: &mut MemDisk,
    words: &str,
    multi: Option<MultiUse>,
    text: &mut Text,
) -> Result<(), Fail> {
    let swapped = "";
    let folders = Folders {
        words,
        multi,
        swapped,
    };
    put_listed(alloc, disk, &folders, text)
}

/// The same, but each file becomes a link before it is read: `TARGET FOLDER ..`.
pub fn put_swapped(
    alloc: Global,
    disk: &mut MemDisk,
    words: &str,
    text: &mut Text,
) -> Result<(), Fail> {
    let (swapped, words) = cut(words);
    let multi = USED;
    let folders = Folders {
        words,
        multi,
        swapped,
    };
    put_listed(alloc, disk, &folders, text)
}

/// A listing that isn't broken.
fn whole(alloc: Global, disk: &mut MemDisk, words: &str, base: u64) -> Result<Listing, Fail> {
    let mut calls = Text::new(alloc);
    let folders = Folders {
        words,
        multi: USED,
        swapped: "",
    };
    match listed(alloc, disk, &folders, base, &mut calls)? {
        Some(listing) => Ok(listing),
        None => Err(Fail::new("a broken listing")),
    }
}

/// The same within so many bytes of a multi-pack index: `BYTES FOLDER ..`.
pub fn put_limited(
    alloc: Global,
    disk: &mut MemDisk,
    words: &str,
    text: &mut Text,
) -> Result<(), Fail> {
    let (bytes, folders) = cut(words);
    let hash = Kind::Sha1;
    let limit = bytes.parse::<u64>().ok();
    put_list(alloc, disk, folders, Some(MultiUse { hash, limit }), text)
}

/// Appends the rows of a listing to a text, in the order in which they are tried.
pub fn put_order(
    alloc: Global,
    disk: &mut MemDisk,
    words: &str,
    text: &mut Text,
) -> Result<(), Fail> {
    let listing = whole(alloc, disk, words, 0)?;
    put_rows(text, listing.rows.as_slice());
    Ok(())
}

fn put_published(text: &mut Text, answer: &Result<Effect, Refusal>) {
    match answer {
        Ok(Effect::Published(view)) => put_todo(text, view.todo.rest()),
        Ok(_) => text.next("another answer"),
        Err(refusal) => put_refusal(text, *refusal),
    }
}

/// Publishes a listing after the core's list, and appends what is to be loaded to a text.
pub fn publish(
    alloc: Global,
    disk: &mut MemDisk,
    core: &mut Core,
    words: &str,
    text: &mut Text,
) -> Result<(), Fail> {
    let base = core.look().list_no;
    let listing = whole(alloc, disk, words, base)?;
    let answer = happen(alloc, core, Event::Publish(listing));
    put_published(text, &answer);
    Ok(())
}
