//! Names in directories, and which of a pack directory are watched.
ghost use Rattle.std.specs.Prelude.{◌≡◌, ◌++◌, ◌∷◌, [], true, IfOk};
ghost use Rattle.odb_base.specs.Path.{is_name, last_name};
ghost use Rattle.gix_odb_watch.specs.Watched.{counted, named_kind, pack_directory, watched_kind};

use odb_base::{BadPath, NoMemory, PathName, PathText};
use std::alloc::Global;

/// What a watched name stands for.
#[derive(Clone, Copy)]
pub(crate) enum WatchedKind {
    /// An index or a pack: it has the same bytes at all times.
    PackOrIndex,
    /// The multi-pack index, which may be replaced by another with a time of its own.
    MultiIndex,
}

/// Returns the pack directory of a folder.
pub(crate) fn pack_directory(alloc: Global, folder: &PathText) -> Result<PathText, NoMemory>
    ensures directory { IfOk result (λ path. path ≡ pack_directory folder.now) }
{
    match folder.join(alloc, "pack") {
        Ok(path) => Ok(path),
        Err(BadPath::Malformed) => folder.try_clone(alloc),
        Err(BadPath::NoMemory) => Err(NoMemory),
    }
}

/// Returns the path of a name in a directory.
pub(crate) fn joined(
    alloc: Global,
    directory: &PathText,
    name: &PathName,
) -> Result<PathText, NoMemory>
    requires named { is_name name.now ≡ true }
    ensures path { IfOk result (λ path. path ≡ directory.now ++ name.now ∷ []) }
{
    match directory.join(alloc, name.as_str()) {
        Ok(path) => Ok(path),
        Err(BadPath::Malformed) => unreachable!("an entry has a name"),
        Err(BadPath::NoMemory) => Err(NoMemory),
    }
}

/// Returns the kind of a name in a pack directory that is watched.
pub(crate) fn watched_kind(name: &str) -> Option<WatchedKind>
    ensures kind { result ≡ watched_kind name.now }
{
    let bytes = name.as_bytes();
    if bytes.ends_with(b".idx") || bytes.ends_with(b".pack") {
        return Some(WatchedKind::PackOrIndex);
    }
    if name == "multi-pack-index" {
        return Some(WatchedKind::MultiIndex);
    }
    None
}

/// Returns the kind of a path's last name, if it has one.
pub(crate) fn named_kind(path: &PathText) -> Option<WatchedKind>
    ensures kind { result ≡ named_kind (last_name path.now) }
{
    match path.file_name() {
        Some(name) => watched_kind(name),
        None => None,
    }
}

/// Returns the time under which the bytes of a file count, by its own time.
pub(crate) fn counted(kind: WatchedKind, time: u64) -> u64
    ensures time { result ≡ counted kind time }
{
    match kind {
        WatchedKind::PackOrIndex => 0,
        WatchedKind::MultiIndex => time,
    }
}
