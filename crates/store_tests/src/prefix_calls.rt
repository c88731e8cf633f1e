//! Look-ups of prefixes in words.
ghost use Rattle.std.specs.Prelude.{◌≡◌, IfOk};
ghost use Rattle.gix_hash.specs.ObjectId.{kind_of};
ghost use Rattle.gix_odb_loose.specs.Store.{store_hash};

use crate::words::{HELLO, id_of, word_of};
use gix_hash::{ObjectId, Prefix};
use gix_odb_loose::lookup::Outcome;
use gix_odb_loose::{Candidates, PrefixSearch, SearchStep, Store, iter};
use odb_base::{PathName, PathText};
use odb_mem_disk::{DirId, Disk, DiskAnswer, DiskAsk, Entry, Kind, Meta};
use std::alloc::Global;
use std::collections::HashSet;
use std::test::Fail;
use test_words::cut;

/// A prefix of the store's hash, by its digits.
pub fn prefix_of(store: &Store, digits: &str) -> Result<Prefix, Fail>
    ensures hash { IfOk result (λ prefix. kind_of prefix.id ≡ store_hash store.now) }
{
    let prefix = Prefix::from_hex(digits.as_bytes())?;
    if prefix.as_oid().kind() == store.object_hash() {
        return Ok(prefix);
    }
    Err(Fail::new("a prefix of the other hash"))
}

/// The result of a look-up: the id, `none`, `ambiguous`, or an error's text.
pub fn outcome_shown(
    alloc: Global,
    found: &Result<Option<Outcome>, iter::Error>,
) -> Result<String, Fail> {
    match found {
        Ok(None) => word_of(alloc, "none"),
        Ok(Some(Outcome::One(id))) => Ok(format!(in alloc; "{id}")?),
        Ok(Some(Outcome::Ambiguous)) => word_of(alloc, "ambiguous"),
        Err(error) => Ok(format!(in alloc; "{error}")?),
    }
}

/// `prefix DIGITS`: what is found.
pub fn prefix<D: Disk>(
    alloc: Global,
    store: &Store,
    disk: &mut D,
    digits: &str,
) -> Result<String, Fail> {
    let prefix = prefix_of(store, digits)?;
    let found = store.lookup_prefix(alloc, disk, prefix, None);
    outcome_shown(alloc, &found)
}

/// `gather DIGITS`: what is found, and how many ids the set of candidates has then. It had that of the blob `hello`.
pub fn gather<D: Disk>(
    alloc: Global,
    store: &Store,
    disk: &mut D,
    digits: &str,
) -> Result<String, Fail> {
    let prefix = prefix_of(store, digits)?;
    let mut set: HashSet<ObjectId> = HashSet::new(alloc);
    set.insert(id_of(store, HELLO)?)?;
    let found = store.lookup_prefix(alloc, disk, prefix, Some(&mut set));
    let count = set.len();
    let text = outcome_shown(alloc, &found)?;
    Ok(format!(in alloc; "{text}, {count}")?)
}

/// A look-up after one call of the disk.
fn turn<D: Disk>(alloc: Global, disk: &mut D, search: PrefixSearch) -> Result<SearchStep, Fail> {
    let ask = search.ask(alloc)?;
    let answer = ask.carry_out(alloc, disk);
    Ok(search.feed(alloc, answer)?)
}

fn ended_shown(alloc: Global, found: &Candidates) -> Result<String, Fail> {
    let text = outcome_shown(alloc, &found.answer)?;
    let count = found.names.len();
    Ok(format!(in alloc; "{text}, {count}")?)
}

/// `search DIGITS`: what the machine finds in at most thirty calls, and how many names.
pub fn search<D: Disk>(
    alloc: Global,
    store: &Store,
    disk: &mut D,
    digits: &str,
) -> Result<String, Fail> {
    let prefix = prefix_of(store, digits)?;
    let mut search = PrefixSearch::start(alloc, store, prefix, true)?;
    for _ in 0..30 {
        match turn(alloc, disk, search)? {
            SearchStep::More(next) => search = next,
            SearchStep::Done(found) => return ended_shown(alloc, &found),
        }
    }
    word_of(alloc, "asks")
}

/// The answer of a disk whose stream gives a file twice, to the call with this number.
fn answer_twice(alloc: Global, ask: &DiskAsk, name: &str, call: u32) -> Result<DiskAnswer, Fail> {
    match ask {
        DiskAsk::Look { .. } => Ok(DiskAnswer::Meta(DIRECTORY)),
        DiskAsk::OpenDir { .. } => Ok(DiskAnswer::Dir(DirId::new(0))),
        DiskAsk::NextEntry { .. } if call < 4 => file_entry(alloc, name),
        DiskAsk::NextEntry { .. } => Ok(DiskAnswer::End),
        _ => Ok(DiskAnswer::Done),
    }
}

/// The stat of a directory.
const DIRECTORY: Meta = Meta {
    kind: Kind::Dir,
    dev: 0,
    ino: 1,
    len: 0,
    time: 0,
};

fn file_entry(alloc: Global, name: &str) -> Result<DiskAnswer, Fail> {
    Ok(DiskAnswer::Entry(Entry {
        name: PathName::new(alloc, name)?,
        kind: Kind::File,
        ino: 2,
    }))
}

fn turn_twice(
    alloc: Global,
    search: PrefixSearch,
    name: &str,
    call: u32,
) -> Result<SearchStep, Fail> {
    let ask = search.ask(alloc)?;
    let answer = answer_twice(alloc, &ask, name, call)?;
    Ok(search.feed(alloc, answer)?)
}

/// `twice DIGITS NAME`: what the machine finds where the stream gives a file with this name twice, and how many names.
pub fn twice(alloc: Global, store: &Store, text: &str) -> Result<String, Fail> {
    let (digits, name) = cut(text);
    let prefix = prefix_of(store, digits)?;
    let mut search = PrefixSearch::start(alloc, store, prefix, true)?;
    for call in 0..30 {
        match turn_twice(alloc, search, name, call)? {
            SearchStep::More(next) => search = next,
            SearchStep::Done(found) => return ended_shown(alloc, &found),
        }
    }
    word_of(alloc, "asks")
}

/// `streams`: the least number that no open stream has.
pub fn streams<D: Disk>(alloc: Global, disk: &mut D) -> Result<String, Fail> {
    let dir = disk.open_dir(alloc, &PathText::parse(alloc, "/")?)?;
    let number = dir.number();
    disk.close_dir(dir);
    Ok(number.to_string(alloc)?)
}
