//! Why the indices of a store could not be brought up to date.
ghost use Rattle.std.specs.Prelude.{◌≡◌, IfOk};

use odb_base::{NoMemory, PathText};
use std::alloc::Global;
use thiserror::Error;

/// Why the indices of a store could not be brought up to date.
#[derive(Debug, Drop, Error)]
pub enum Error {
    /// A call of the disk failed; or the folder of packs, or a part of its way, has the wrong kind or is a link loop.
    #[error("a call of the disk failed, or a folder of packs is none")]
    Io,
    /// A listing has more new indices than there are free slots.
    #[error("{current} slots are too few: {needed} more are needed")]
    InsufficientSlots {
        current: usize,
        needed: usize,
    },
    /// A number of the store's core cannot rise any more.
    #[error("the generation or the state number cannot rise any more")]
    GenerationOverflow,
    /// A multi-pack index names more packs than a store may use.
    #[error("{index_path} names {actual} packs, and {limit} are the most")]
    TooManyPacksInMultiIndex {
        actual: u32,
        limit: u32,
        index_path: PathText,
    },
    /// Others published more lists during the call than it tolerates.
    #[error("the list of packs went from {begun} to {now} during the call, and {own} of these lists were its own")]
    Unsettled {
        /// The number of the list at the call's first event.
        begun: u64,
        /// How many lists the call published itself.
        own: u64,
        /// The number of the list now.
        now: u64,
    },
    #[error("out of memory")]
    NoMemory,
}

impl Error {
    /// A copy of the error.
    pub fn try_clone(&self, alloc: Global) -> Result<Error, NoMemory>
        ensures copied { IfOk result (λ copy. copy ≡ self.now) }
    {
        match self {
            Error::Io => Ok(Error::Io),
            Error::InsufficientSlots { current, needed } => Ok(Error::InsufficientSlots {
                current: *current,
                needed: *needed,
            }),
            Error::GenerationOverflow => Ok(Error::GenerationOverflow),
            Error::TooManyPacksInMultiIndex {
                actual,
                limit,
                index_path,
            } => Ok(Error::TooManyPacksInMultiIndex {
                actual: *actual,
                limit: *limit,
                index_path: index_path.try_clone(alloc)?,
            }),
            Error::Unsettled { begun, own, now } => Ok(Error::Unsettled {
                begun: *begun,
                own: *own,
                now: *now,
            }),
            Error::NoMemory => Ok(Error::NoMemory),
        }
    }
}
