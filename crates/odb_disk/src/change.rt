//! Changes of a disk, and why one isn't made.
ghost use Rattle.std.specs.Prelude.{◌≡◌, IfOk};
ghost use Rattle.odb_disk.specs.declared.change.Impossible.TheVariants.{NoMemory as out_of_memory};

use odb_base::{ByteList, NoMemory, PathText};
use std::alloc::Global;
use thiserror::Error;

/// A change that another program makes to a disk.
#[derive(Drop)]
pub enum Change {
    /// Puts a file where none is, or gives the file there new bytes and a new time.
    PutFile {
        path: PathText,
        time: u64,
        bytes: ByteList,
    },
    /// Makes a directory, on a device of its own.
    MakeDir {
        path: PathText,
        dev: u64,
    },
    /// Puts a link to another path where none is, or gives the link there another target. The target needn't exist.
    PutLink {
        path: PathText,
        target: PathText,
    },
    /// Moves a file or a link over nothing, a file or a link; or a directory with all below it to where nothing is.
    /// Each node keeps its device and its inode number.
    Rename {
        from: PathText,
        to: PathText,
    },
    /// Appends bytes to the file that the path leads to, following links. Its time stays as it was.
    Append {
        path: PathText,
        bytes: ByteList,
    },
    /// Removes a file, a link or an empty directory.
    Remove {
        path: PathText,
    },
    /// Sets the time of a file.
    SetTime {
        path: PathText,
        time: u64,
    },
}

impl Change {
    ghost use Rattle.std.specs.Prelude.{◌≡◌, IfOk};

    /// A copy of the change.
    pub fn try_clone(&self, alloc: Global) -> Result<Change, NoMemory>
        ensures copy { IfOk result (λ copy. copy ≡ self.now) }
    {
        match self {
            Change::PutFile { path, time, bytes } => put_file(alloc, path, *time, bytes),
            Change::MakeDir { path, dev } => Ok(Change::MakeDir {
                path: path.try_clone(alloc)?,
                dev: *dev,
            }),
            Change::PutLink { path, target } => put_link(alloc, path, target),
            Change::Rename { from, to } => rename(alloc, from, to),
            Change::Append { path, bytes } => append(alloc, path, bytes),
            Change::Remove { path } => Ok(Change::Remove {
                path: path.try_clone(alloc)?,
            }),
            Change::SetTime { path, time } => Ok(Change::SetTime {
                path: path.try_clone(alloc)?,
                time: *time,
            }),
        }
    }
}

fn put_file(alloc: Global, path: &PathText, time: u64, bytes: &ByteList) -> Result<Change, NoMemory>
    ensures copy { IfOk result (λ copy. copy ≡ Change.PutFile path.now time bytes.now) }
{
    let path = path.try_clone(alloc)?;
    let bytes = bytes.try_clone(alloc)?;
    Ok(Change::PutFile { path, time, bytes })
}

fn put_link(alloc: Global, path: &PathText, target: &PathText) -> Result<Change, NoMemory>
    ensures copy { IfOk result (λ copy. copy ≡ Change.PutLink path.now target.now) }
{
    let path = path.try_clone(alloc)?;
    let target = target.try_clone(alloc)?;
    Ok(Change::PutLink { path, target })
}

fn rename(alloc: Global, from: &PathText, to: &PathText) -> Result<Change, NoMemory>
    ensures copy { IfOk result (λ copy. copy ≡ Change.Rename from.now to.now) }
{
    let from = from.try_clone(alloc)?;
    let to = to.try_clone(alloc)?;
    Ok(Change::Rename { from, to })
}

fn append(alloc: Global, path: &PathText, bytes: &ByteList) -> Result<Change, NoMemory>
    ensures copy { IfOk result (λ copy. copy ≡ Change.Append path.now bytes.now) }
{
    let path = path.try_clone(alloc)?;
    let bytes = bytes.try_clone(alloc)?;
    Ok(Change::Append { path, bytes })
}

/// Why a change wasn't made. Nothing has changed.
#[derive(Clone, Copy, Debug, Error)]
pub enum Impossible {
    /// The tree has no place for the change: its path isn't in a directory, or what is there forbids it.
    #[error("impossible change")]
    Impossible,
    #[error("out of memory")]
    NoMemory,
}

impl From<NoMemory> for Impossible {
    ghost from_gives = { λ _ e. e ≡ out_of_memory };

    fn from(_: NoMemory) -> Self {
        Impossible::NoMemory
    }
}
