//! Opening a store: its folders, replaced ids and options, and why it was refused.
ghost use Rattle.std.specs.Prelude.{◌≡◌, IfOk};
ghost use Rattle.gix_odb_calls.specs.Slots.{default_options, default_slots};

use crate::load_index;
use gix_hash::ObjectId;
use odb_base::{NoMemory, PathText, Sequence};
use std::alloc::Global;
use thiserror::Error;

/// Folders, in order.
pub type PathList = Sequence<PathText>;

/// Ids, each with its replacement, which is sought instead.
pub type IdPairs = Sequence<(ObjectId, ObjectId)>;

/// How many slots for indices a store has.
#[derive(Clone, Copy)]
pub enum Slots {
    Given(u16),
    /// By the indices that a listing finds when the store is opened: this percentage of their number, and at least
    /// the minimum.
    AsNeededByDiskState { percent: u32, minimum: u32 },
}

impl Default for Slots {
    fn default() -> Slots
        ensures { result ≡ default_slots }
    {
        Slots::AsNeededByDiskState {
            percent: 110,
            minimum: 32,
        }
    }
}

/// The options of a store.
#[derive(Clone, Copy)]
pub struct Options {
    pub slots: Slots,
    /// Whether the multi-pack indices of the folders are used.
    pub use_multi_pack_index: bool,
    /// The most bytes of an object's data that a find allows, and of a multi-pack index that is used, if there is a limit.
    pub alloc_limit_bytes: Option<u64>,
    /// The most changes of the list of indices that a call tolerates: at most 1,000,000.
    pub max_changes: u32,
}

impl Default for Options {
    fn default() -> Options
        ensures { result ≡ default_options }
    {
        Options {
            slots: Slots::default(),
            use_multi_pack_index: true,
            alloc_limit_bytes: None,
            max_changes: 16,
        }
    }
}

/// Why an opening was refused.
#[derive(Debug, Drop, Error)]
pub enum Error {
    /// The objects directory is no directory, links followed.
    #[error("the objects directory is not a directory")]
    NotADirectory,
    /// More than 32,767 slots.
    #[error("{asked} slots are too many")]
    TooManySlots { asked: u64 },
    /// A call of the disk failed.
    #[error("the objects directory could not be looked at")]
    Io,
    /// The indices of the store could not be listed.
    #[error("{0}")]
    LoadIndex(load_index::Error),
    #[error("out of memory")]
    NoMemory,
}

impl Error {
    /// A copy of the error.
    pub fn try_clone(&self, alloc: Global) -> Result<Error, NoMemory>
        ensures copied { IfOk result (λ copy. copy ≡ self.now) }
    {
        match self {
            Error::NotADirectory => Ok(Error::NotADirectory),
            Error::TooManySlots { asked } => Ok(Error::TooManySlots { asked: *asked }),
            Error::Io => Ok(Error::Io),
            Error::LoadIndex(error) => Ok(Error::LoadIndex(error.try_clone(alloc)?)),
            Error::NoMemory => Ok(Error::NoMemory),
        }
    }
}

/// A copy of a list of paths.
pub fn copy_of_paths(alloc: Global, paths: &PathList) -> Result<PathList, NoMemory>
    ensures copied { IfOk result (λ copy. copy ≡ paths.now) }
{
    let mut copy = PathList::new(alloc);
    for path in paths.as_slice() {
        copy.push(path.try_clone(alloc)?)?;
    }
    Ok(copy)
}

/// A copy of a list of pairs of ids.
pub fn copy_of_pairs(alloc: Global, pairs: &IdPairs) -> Result<IdPairs, NoMemory>
    ensures copied { IfOk result (λ copy. copy ≡ pairs.now) }
{
    let mut copy = IdPairs::new(alloc);
    for pair in pairs.as_slice() {
        copy.push(*pair)?;
    }
    Ok(copy)
}
