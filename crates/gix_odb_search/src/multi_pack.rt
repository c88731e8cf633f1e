//! Multi-pack indices: when a store can use one, and which indices it names.
ghost use Rattle.std.specs.Prelude.{◌≡◌, ◌||◌, ◌∷◌, [], IfOk, IfSome, OnOk, None, Some, if◌then◌else◌, is_some, length, map, not};
ghost use Rattle.std.specs.BTreeSet.{contains};
ghost use Rattle.odb_base.specs.Path.{Path, path_cmp};
ghost use Rattle.gix_pack_read.specs.MultiIndex.{multi_index_of, told};
ghost use Rattle.gix_odb_events.specs.PackPath.{folder_of};
ghost use Rattle.gix_odb_search.specs.MultiPack.{index_in, is_among, is_multi_index, named_in, paths_named, same_hash, unnamed};

use crate::absent::add;
use crate::lister::ListedStore;
use gix_hash::Kind;
use gix_odb_events::{
    LentFile, ListingRow, ListingRowList, LoadedIndex, LoadedList, Shared, SnapshotIndex,
};
use gix_pack_read::multi_index;
use odb_base::{BadPath, ByteList, NoMemory, PathName, PathText, Sequence, is_within};
use std::alloc::Global;
use std::collections::BTreeSet;

/// The most packs that a multi-pack index of a store names: the place of a pack in it has 16 bits in the number of the pack.
pub const MOST_PACKS: u32 = 65_535;

/// How a store uses multi-pack indices.
#[derive(Clone, Copy)]
pub struct MultiUse {
    /// The hash of the ids.
    pub hash: Kind,
    /// The most bytes that a file may have, if there is a limit.
    pub limit: Option<u64>,
}

// ---- when one can be used

/// Returns whether two hashes are the same.
fn same_hash(hash: Kind, other: Kind) -> bool
    ensures same { result ≡ same_hash hash other }
{
    match (hash, other) {
        (Kind::Sha1, Kind::Sha1) | (Kind::Sha256, Kind::Sha256) => true,
        _ => false,
    }
}

/// Returns the multi-pack index that bytes are, where its ids come from a hash.
fn of_hash(
    alloc: Global,
    hash: Kind,
    file: multi_index::File,
) -> Result<Option<Shared<multi_index::File>>, NoMemory>
    ensures of { IfOk result (λ found. found ≡ (if same_hash hash (told file).kind then Some file else None)) }
{
    if same_hash(hash, file.object_hash()) {
        Ok(Some(Shared::new(alloc, file)?))
    } else {
        Ok(None)
    }
}

/// Returns the multi-pack index that bytes are, if a store can read it: within the limit, and of the store's hash.
fn parsed(
    alloc: Global,
    multi: MultiUse,
    bytes: ByteList,
) -> Result<Option<Shared<multi_index::File>>, NoMemory>
    ensures parsed { IfOk result (λ found. found ≡ (if is_multi_index (Some multi) bytes then Some bytes else None)) }
{
    match multi_index::File::parse(alloc, bytes, multi.limit) {
        Ok(file) => of_hash(alloc, multi.hash, file),
        Err(multi_index::Error::NoMemory) => Err(NoMemory),
        Err(_) => Ok(None),
    }
}

/// Returns a multi-pack index of a length that was parsed before, if a store can read it.
fn parsed_before(
    multi: MultiUse,
    len: u64,
    file: Shared<multi_index::File>,
) -> Option<Shared<multi_index::File>>
    requires len { len ≡ length file }
    requires index { multi_index_of file ≡ Some (told file) }
    ensures parsed { result ≡ (if is_multi_index (Some multi) file then Some file else None) }
{
    let hash = file.value().object_hash();
    if is_within(multi.limit, len) && same_hash(multi.hash, hash) {
        Some(file)
    } else {
        None
    }
}

/// Returns the multi-pack index that bytes are, if a store uses such files and can read it. Bytes of a loaded index aren't parsed again.
pub(crate) fn read(
    alloc: Global,
    store: &ListedStore<'_>,
    bytes: ByteList,
) -> Result<Option<Shared<multi_index::File>>, NoMemory>
    ensures read { IfOk result (λ found. found ≡ (if is_multi_index store.now.multi bytes then Some bytes else None)) }
{
    let Some(multi) = store.multi else {
        drop(bytes);
        return Ok(None);
    };
    match loaded_before(store.loaded, bytes.as_slice())? {
        Some(file) => {
            let len = bytes.len() as u64;
            drop(bytes);
            Ok(parsed_before(multi, len, file))
        }
        None => parsed(alloc, multi, bytes),
    }
}

// ---- which are loaded

/// Returns the loaded multi-pack index with these bytes, if there is one.
fn loaded_before(
    loaded: Option<&LoadedList>,
    bytes: &[u8],
) -> Result<Option<Shared<multi_index::File>>, NoMemory>
    ensures same { IfOk result (λ found. IfSome found (λ file. (file ≡ bytes.now) × (multi_index_of file ≡ Some (told file)))) }
{
    let Some(loaded) = loaded else {
        return Ok(None);
    };
    let mut rest = loaded.rest()?;
    while let Some(index) = rest.first() {
        if has_bytes(index.index, bytes) {
            return in_slot(loaded, index.slot as u16, bytes);
        }
        rest.pass();
    }
    Ok(None)
}

/// Returns whether a loaded index is a multi-pack index with these bytes.
fn has_bytes(file: LentFile<'_>, bytes: &[u8]) -> bool {
    match file {
        LentFile::Single(_) => false,
        LentFile::Multi(file) => file.has_bytes(bytes),
    }
}

/// Returns the file of a slot, if it is a multi-pack index with these bytes.
fn in_slot(
    loaded: &LoadedList,
    slot: u16,
    bytes: &[u8],
) -> Result<Option<Shared<multi_index::File>>, NoMemory>
    ensures same { IfOk result (λ found. IfSome found (λ file. (file ≡ bytes.now) × (multi_index_of file ≡ Some (told file)))) }
{
    match loaded.in_slot(slot)? {
        None => Ok(None),
        Some(index) => Ok(same_file(index, bytes)),
    }
}

/// Returns the file of an index, if it is a multi-pack index with these bytes.
fn same_file(index: SnapshotIndex, bytes: &[u8]) -> Option<Shared<multi_index::File>>
    ensures same { IfSome result (λ file. (file ≡ bytes.now) × (multi_index_of file ≡ Some (told file))) }
{
    let SnapshotIndex {
        index,
        path,
        packs,
        ..
    } = index;
    drop(path);
    drop(packs);
    match index {
        LoadedIndex::Single(file) => {
            drop(file);
            None
        }
        LoadedIndex::Multi(file) => {
            let same = file.value().has_bytes(bytes);
            if same { Some(file) } else { None }
        }
    }
}

// ---- which indices it names

/// Paths, without an order of their own.
type PathSet = BTreeSet<PathText>;

/// Returns the folder of a path.
fn folder_of(alloc: Global, path: &PathText) -> Result<PathText, NoMemory>
    ensures folder { IfOk result (λ folder. folder ≡ folder_of path.now) }
{
    match path.parent(alloc)? {
        Some(folder) => Ok(folder),
        None => Ok(PathText::root(alloc)),
    }
}

/// Returns the path in a folder of an index with a name.
fn index_in(alloc: Global, folder: &PathText, name: &PathName) -> Result<PathText, NoMemory>
    ensures path { IfOk result (λ path. path ≡ index_in folder.now name.now) }
{
    match folder.join(alloc, name.as_str()) {
        Ok(path) => Ok(path),
        Err(BadPath::Malformed) => folder.try_clone(alloc),
        Err(BadPath::NoMemory) => Err(NoMemory),
    }
}

/// Adds the path in a folder of an index with a name to others.
fn put_name(
    alloc: Global,
    paths: &mut PathSet,
    folder: &PathText,
    name: &PathName,
) -> Result<(), NoMemory>
    ensures put { OnOk result ((path : Path) → contains path_cmp paths.new path ≡ (contains path_cmp paths.old path || is_among (index_in folder.now name.now ∷ []) path)) }
{
    let path = index_in(alloc, folder, name)?;
    add(paths, path)
}

/// Adds the paths in a folder of indices with these names to others.
fn put_names(
    alloc: Global,
    paths: &mut PathSet,
    folder: &PathText,
    names: &[PathName],
) -> Result<(), NoMemory>
    ensures put { OnOk result ((path : Path) → contains path_cmp paths.new path ≡ (contains path_cmp paths.old path || is_among (map (index_in folder.now) names.now) path)) }
{
    for name in names {
        put_name(alloc, paths, folder, name)?;
    }
    Ok(())
}

/// Adds the indices that the multi-pack index of a row names to others.
fn put_named(alloc: Global, paths: &mut PathSet, row: &ListingRow) -> Result<(), NoMemory>
    ensures put { OnOk result ((path : Path) → contains path_cmp paths.new path ≡ (contains path_cmp paths.old path || is_among (paths_named row.now.path row.now.multi) path)) }
{
    match &row.multi {
        None => Ok(()),
        Some(file) => {
            let folder = folder_of(alloc, &row.path)?;
            put_names(alloc, paths, &folder, file.value().index_names())
        }
    }
}

/// Returns the indices that the multi-pack indices among rows name.
fn named_in(alloc: Global, rows: &[ListingRow]) -> Result<PathSet, NoMemory>
    ensures named { IfOk result (λ paths. (path : Path) → contains path_cmp paths path ≡ is_among (named_in rows.now) path) }
{
    let mut paths = BTreeSet::new(alloc);
    for row in rows {
        put_named(alloc, &mut paths, row)?;
    }
    Ok(paths)
}

/// Returns whether a row stays where these indices are named: a multi-pack index does, and an index that isn't among them.
fn stays(named: &PathSet, row: &ListingRow) -> bool
    ensures stays { result ≡ (is_some row.now.multi || not (contains path_cmp named.now row.now.path)) }
{
    row.multi.is_some() || !named.contains(&row.path)
}

/// Returns rows without the indices that a multi-pack index among them names.
pub(crate) fn unnamed(alloc: Global, rows: ListingRowList) -> Result<ListingRowList, NoMemory>
    ensures unnamed { IfOk result (λ left. left ≡ unnamed rows) }
{
    let named = named_in(alloc, rows.as_slice())?;
    let mut rows = rows.into_vec();
    rows.retain(|row| stays(&named, row));
    Ok(Sequence::from_vec(rows))
}
