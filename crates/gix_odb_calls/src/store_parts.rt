//! The parts of a store, which handles share.
use crate::init::{PathList, Slots};
use crate::replacements::Replacements;
use odb_base::PathText;

/// The parts of a store, one value for all handles on it.
#[derive(Drop)]
pub struct StoreParts {
    /// The objects directory, which is the first folder of the store.
    pub objects: PathText,
    /// The alternates: the other folders, in the order in which they are searched.
    pub folders: PathList,
    /// The hash of the store's ids, with which it hashes what it writes.
    pub object_hash: gix_hash::Kind,
    /// The ids that are sought in the place of others.
    pub replacements: Replacements,
    /// Whether the multi-pack indices of the folders are used.
    pub use_multi_pack_index: bool,
    /// The most bytes of an object's data that a find allows, and of a multi-pack index that is used, if there is a limit.
    pub alloc_limit_bytes: Option<u64>,
    pub slots: Slots,
}
