//! Walks and their entries, under the names of `fs::walkdir` of the original.
// A module can't have the name of a used crate, so this one is named as `read_dir` is.
pub use super::wrapped::{DirEntryIter, Parallelism, WalkDir, walkdir_new, walkdir_sorted_new};
pub use walkdir::Error;

/// An entry of a walk.
pub type DirEntry = super::DirEntry<walkdir::DirEntry>;
