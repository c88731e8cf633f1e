//! The error of a listing of loose objects: that of a walk.
ghost use Rattle.std.specs.Prelude.{◌≡◌, IfOk};
ghost use Rattle.gix_odb_loose.specs.PrefixOrder.{walk_error};

use odb_base::{NoMemory, PathText};
use odb_disk::DiskError;
use std::alloc::Global;
pub use walkdir::Error;

/// The error that a call of the disk on a path was refused with, at this depth below the directory that is listed.
pub(crate) fn refused(
    alloc: Global,
    depth: usize,
    path: &PathText,
    error: DiskError,
) -> Result<Error, NoMemory>
    ensures error { IfOk result (λ made. made ≡ walk_error depth path.now error) }
{
    let made = Error::from_path(alloc, depth, path, error);
    if made.is_out_of_memory() && error != DiskError::NoMemory {
        return Err(NoMemory);
    }
    Ok(made)
}
