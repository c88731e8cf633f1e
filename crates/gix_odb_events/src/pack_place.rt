//! The path of an index's pack: beside the index, by its name with another ending.
ghost use Rattle.std.specs.Prelude.{◌≡◌, IfOk};
ghost use Rattle.gix_odb_events.specs.PackPath.{folder_of, name_of, pack_in, pack_name, pack_path, stem_of};

use odb_base::{BadPath, NoMemory, PathText};
use std::alloc::Global;

/// The folder of an index.
pub fn folder_of(alloc: Global, path: &PathText) -> Result<PathText, NoMemory>
    ensures folder { IfOk result (λ folder. folder ≡ folder_of path.now) }
{
    match path.parent(alloc)? {
        Some(folder) => Ok(folder),
        None => Ok(PathText::root(alloc)),
    }
}

/// The name of an index.
pub fn name_of(path: &PathText) -> &str
    ensures name { result.now ≡ name_of path.now }
{
    path.file_name().unwrap_or("")
}

/// The name of an index without its ending.
fn stem_of(name: &str) -> &str
    ensures stem { result.now ≡ stem_of name.now }
{
    match name.strip_suffix(".idx") {
        Some(stem) => stem,
        None => name,
    }
}

/// The path in a folder of the pack of an index with this name.
pub fn pack_in(alloc: Global, folder: &PathText, name: &str) -> Result<PathText, NoMemory>
    ensures path { IfOk result (λ path. path ≡ pack_in folder.now name.now) }
{
    let stem = stem_of(name);
    let name = format!(in alloc; "{stem}.pack")?;
    match folder.join(alloc, &name) {
        Ok(path) => Ok(path),
        Err(BadPath::Malformed) => folder.try_clone(alloc),
        Err(BadPath::NoMemory) => Err(NoMemory),
    }
}

/// The path of an index's pack: beside the index, by its name with another ending.
pub fn pack_path(alloc: Global, path: &PathText) -> Result<PathText, NoMemory>
    ensures pack { IfOk result (λ pack. pack ≡ pack_path path.now) }
{
    pack_in(alloc, &folder_of(alloc, path)?, name_of(path))
}
