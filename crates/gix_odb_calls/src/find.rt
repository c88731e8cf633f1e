//! The header of an object, and why a find, a header look-up or a test of presence was refused.
ghost use Rattle.std.specs.Prelude.{◌≡◌, IfOk};

use crate::load_index;
use gix_object::Kind;
use odb_base::NoMemory;
use std::alloc::Global;
use thiserror::Error;

/// The header of an object, by where the object is.
#[derive(Clone, Copy, Debug, PartialEq, Eq, PartialOrd, Ord, Hash)]
pub enum Header {
    /// In a loose file. The size is in bytes.
    Loose { kind: Kind, size: u64 },
    /// In a pack. The size is in bytes.
    Packed { kind: Kind, size: u64 },
}

/// Why a find, a header look-up or a test of presence was refused.
#[derive(Debug, Drop, Error)]
pub enum Error {
    /// By the loose objects of a folder.
    #[error("{0}")]
    Loose(gix_odb_loose::find::Error),
    /// There is no entry in the pack where the index says.
    #[error("there is no entry where the index says")]
    Pack,
    /// The indices of the store could not be brought up to date.
    #[error("{0}")]
    LoadIndex(load_index::Error),
    /// A pack could not be read, or its bytes are no pack.
    #[error("a pack could not be read")]
    LoadPack,
    /// The entry has a type that is no kind.
    #[error("{code} is no type of an entry")]
    EntryType { code: u8 },
    /// The entry is a delta.
    #[error("the entry is a delta")]
    DeltaEntry,
    /// The size of the object in a pack is above the limit.
    #[error("an object of {size} bytes is above the limit")]
    OutOfMemory { size: u64 },
    #[error("out of memory")]
    NoMemory,
}

impl Error {
    /// A copy of the error.
    pub fn try_clone(&self, alloc: Global) -> Result<Error, NoMemory>
        ensures copied { IfOk result (λ copy. copy ≡ self.now) }
    {
        match self {
            Error::Loose(error) => Ok(Error::Loose(error.try_clone(alloc)?)),
            Error::Pack => Ok(Error::Pack),
            Error::LoadIndex(error) => Ok(Error::LoadIndex(error.try_clone(alloc)?)),
            Error::LoadPack => Ok(Error::LoadPack),
            Error::EntryType { code } => Ok(Error::EntryType { code: *code }),
            Error::DeltaEntry => Ok(Error::DeltaEntry),
            Error::OutOfMemory { size } => Ok(Error::OutOfMemory { size: *size }),
            Error::NoMemory => Ok(Error::NoMemory),
        }
    }
}
