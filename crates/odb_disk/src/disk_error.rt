//! Why a call of a disk is refused.
ghost use Rattle.std.specs.Prelude.{◌≡◌};
ghost use Rattle.odb_disk.specs.declared.disk_error.DiskError.TheVariants.{NoMemory as out_of_memory};

use odb_base::NoMemory;
use thiserror::Error;

/// Why a call of a disk was refused.
#[derive(Clone, Copy, Debug, PartialEq, Eq, Error)]
pub enum DiskError {
    /// Nothing is there, or a part of the path is missing.
    #[error("Absent")]
    Absent,
    /// A part of the path is no directory, or what is there is of another kind than the call needs.
    #[error("WrongKind")]
    WrongKind,
    /// More links than are followed: 40 in a tree; on a real disk as many as the system follows.
    #[error("LinkLoop")]
    LinkLoop,
    /// Something is there already.
    #[error("Exists")]
    Exists,
    /// A directory that is to be removed has entries.
    #[error("NotEmpty")]
    NotEmpty,
    /// The disk itself failed: its count of faults rose.
    #[error("Failed")]
    Failed,
    #[error("NoMemory")]
    NoMemory,
}

impl From<NoMemory> for DiskError {
    ghost from_gives = { λ _ e. e ≡ out_of_memory };

    fn from(_: NoMemory) -> Self {
        DiskError::NoMemory
    }
}
