//! The files that a tree shows at watched paths.
ghost use Rattle.std.specs.Prelude.{◌≡◌, ◌++◌, IfOk, OnOk};
ghost use Rattle.gix_odb_watch.specs.Files.{file_at, listed};

use crate::sight::Sight;
use crate::watched::{counted, named_kind};
use odb_base::{ByteList, NoMemory, PathText, Shared};
use odb_disk::{DiskError, EntryQueue};
use odb_mem_disk::Tree;
use std::alloc::Global;

/// What a watched path shows. It shares its bytes with what showed them.
#[derive(Drop)]
pub(crate) struct ShownFile {
    /// The path, and the time under which the bytes count.
    pub key: (PathText, u64),
    pub bytes: Shared<ByteList>,
}

/// Adds what a tree shows at a path, if its name is watched.
pub(crate) fn add_file(
    alloc: Global,
    sight: &Sight<'_>,
    path: PathText,
    files: &mut Vec<ShownFile>,
) -> Result<(), NoMemory>
    ensures added { OnOk result (files.new.items ≡ files.old.items ++ file_at sight.now path) }
{
    let Some(kind) = named_kind(&path) else {
        return Ok(());
    };
    if let Some((bytes, time)) = sight.read(alloc, &path)? {
        let key = (path, counted(kind, time));
        files.push(ShownFile { key, bytes })?;
    }
    Ok(())
}

/// Returns the entries of a directory, or none where there is no directory.
pub(crate) fn listed(
    alloc: Global,
    tree: &Tree,
    directory: &PathText,
) -> Result<EntryQueue, NoMemory>
    ensures entries { IfOk result (λ entries. entries ≡ listed tree.now directory.now) }
{
    match tree.entries(alloc, directory) {
        Ok(entries) => Ok(entries),
        Err(DiskError::NoMemory) => Err(NoMemory),
        Err(_) => Ok(EntryQueue::new(alloc)),
    }
}
