//! The folder of packs, and the indices among its entries.
ghost use Rattle.std.specs.Prelude.{◌≡◌, ◌++◌, ◌∷◌, [], IfOk, OnOk, map, true, if◌then◌else◌};
ghost use Rattle.gix_odb_search.specs.PackFolder.{firsts, index_path_in, index_paths, is_index_entry, is_index_name, is_multi_index_name, multi_index_path, pack_folder, path_by};

use odb_base::{BadPath, NoMemory, PathName, PathText, Sequence};
use odb_disk::{Entry, Kind};
use std::alloc::Global;
use std::collections::BTreeSet;

/// The name of the multi-pack index of a folder of packs.
const MULTI_INDEX_NAME: &str = "multi-pack-index";

/// An index among the entries of a folder.
#[derive(Drop)]
pub enum IndexPath {
    /// A pack index, by its path.
    Single(PathText),
    /// The multi-pack index, whose path is known by the folder.
    Multi,
}

impl IndexPath {
    /// Returns a copy.
    pub(crate) fn try_clone(&self, alloc: Global) -> Result<IndexPath, NoMemory>
        ensures copy { IfOk result (λ copy. copy ≡ self.now) }
    {
        match self {
            IndexPath::Single(path) => Ok(IndexPath::Single(path.try_clone(alloc)?)),
            IndexPath::Multi => Ok(IndexPath::Multi),
        }
    }
}

/// Indices, in order.
pub(crate) type IndexPathList = Sequence<IndexPath>;

/// Returns the folder of packs of a store's folder.
pub fn pack_folder(alloc: Global, folder: &PathText) -> Result<PathText, NoMemory>
    ensures folder { IfOk result (λ path. path ≡ pack_folder folder.now) }
{
    match folder.join(alloc, "pack") {
        Ok(path) => Ok(path),
        Err(BadPath::Malformed) => folder.try_clone(alloc),
        Err(BadPath::NoMemory) => Err(NoMemory),
    }
}

/// Returns whether a name is that of an index: it ends in `.idx`, and has something before it.
fn is_index_name(name: &PathName) -> bool
    ensures index { result ≡ is_index_name name.now }
{
    let bytes = name.as_str().as_bytes();
    name.is_name() && bytes.len() > 4 && bytes.ends_with(b".idx")
}

/// Returns the entries, each unless an earlier one has its name.
fn firsts<'a>(alloc: Global, entries: &'a [Entry]) -> Result<Vec<&'a Entry>, NoMemory>
    ensures firsts { IfOk result (λ found. map (λ entry. entry.now) found.items ≡ firsts entries.now) }
{
    let mut names = BTreeSet::new(alloc);
    let mut found = Vec::new(alloc);
    for entry in entries {
        if names.insert(&entry.name)? {
            found.push(entry)?;
        }
    }
    Ok(found)
}

/// Returns whether a name is that of the multi-pack index.
fn is_multi_index_name(name: &PathName) -> bool
    ensures multi { result ≡ is_multi_index_name name.now }
{
    name.as_str() == MULTI_INDEX_NAME
}

/// Returns whether an entry is an index by its name, or the multi-pack index where it is looked for.
fn is_index_entry(entry: &Entry, multi: bool) -> bool
    ensures index { result ≡ is_index_entry multi entry.now }
{
    entry.kind == Kind::File
        && (is_index_name(&entry.name) || (multi && is_multi_index_name(&entry.name)))
}

/// Returns the path of the multi-pack index of a folder of packs.
pub(crate) fn multi_index_path(alloc: Global, folder: &PathText) -> Result<PathText, NoMemory>
    ensures path { IfOk result (λ path. path ≡ multi_index_path folder.now) }
{
    match folder.join(alloc, MULTI_INDEX_NAME) {
        Ok(path) => Ok(path),
        Err(BadPath::Malformed) => folder.try_clone(alloc),
        Err(BadPath::NoMemory) => Err(NoMemory),
    }
}

/// Returns the path of a name that is that of an index.
fn single_index_path(
    alloc: Global,
    folder: &PathText,
    name: &PathName,
) -> Result<PathText, NoMemory>
    requires index { is_index_name name.now ≡ true }
    ensures path { IfOk result (λ path. path ≡ folder.now ++ name.now ∷ []) }
{
    match folder.join(alloc, name.as_str()) {
        Ok(path) => Ok(path),
        Err(BadPath::Malformed) => folder.try_clone(alloc),
        Err(BadPath::NoMemory) => Err(NoMemory),
    }
}

/// Returns the path of an entry that is an index by its name; another one is the multi-pack index.
fn path_of(alloc: Global, folder: &PathText, name: &PathName) -> Result<IndexPath, NoMemory>
    ensures path { IfOk result (λ path. path ≡ path_by (is_index_name name.now) folder.now name.now) }
{
    if is_index_name(name) {
        Ok(IndexPath::Single(single_index_path(alloc, folder, name)?))
    } else {
        Ok(IndexPath::Multi)
    }
}

/// Adds the path of an entry to others, if the entry is an index.
fn put_index(
    alloc: Global,
    folder: &PathText,
    multi: bool,
    paths: &mut IndexPathList,
    entry: &Entry,
) -> Result<(), NoMemory>
    ensures put { OnOk result (paths.new ≡ paths.old ++ (if is_index_entry multi entry.now then index_path_in folder.now entry.now ∷ [] else [])) }
{
    if is_index_entry(entry, multi) {
        let path = path_of(alloc, folder, &entry.name)?;
        paths.push(path)?;
    }
    Ok(())
}

/// Returns the indices among the entries of a folder, each once, in the order of the entries, and the multi-pack index where it
/// is looked for.
pub(crate) fn index_paths(
    alloc: Global,
    folder: &PathText,
    multi: bool,
    entries: &[Entry],
) -> Result<IndexPathList, NoMemory>
    ensures paths { IfOk result (λ paths. paths ≡ index_paths multi folder.now entries.now) }
{
    let mut paths = IndexPathList::new(alloc);
    for entry in firsts(alloc, entries)? {
        put_index(alloc, folder, multi, &mut paths, entry)?;
    }
    Ok(paths)
}
