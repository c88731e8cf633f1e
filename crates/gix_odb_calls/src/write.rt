//! Why a write was refused.
ghost use Rattle.std.specs.Prelude.{◌≡◌, IfOk};

use crate::load_index;
use odb_base::NoMemory;
use std::alloc::Global;
use thiserror::Error;

/// Why a write was refused. It made no name of an object.
#[derive(Debug, Drop, Error)]
pub enum Error {
    /// By the loose objects of the objects directory.
    #[error("{0}")]
    LooseWrite(gix_odb_loose::write::Error),
    /// The indices of the store were never listed, and could not be.
    #[error("{0}")]
    LoadIndex(load_index::Error),
    #[error("out of memory")]
    NoMemory,
}

impl Error {
    /// A copy of the error.
    pub fn try_clone(&self, alloc: Global) -> Result<Error, NoMemory>
        ensures copied { IfOk result (λ copy. copy ≡ self.now) }
    {
        match self {
            Error::LooseWrite(error) => Ok(Error::LooseWrite(error.try_clone(alloc)?)),
            Error::LoadIndex(error) => Ok(Error::LoadIndex(error.try_clone(alloc)?)),
            Error::NoMemory => Ok(Error::NoMemory),
        }
    }
}
