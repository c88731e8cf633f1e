//! Walks whose names can be composed.

mod api;
mod composed;
mod entry;
mod order;
pub mod read_dir;
pub mod walk_dir;
mod wrapped;

pub use api::DirEntryApi;
pub use entry::DirEntry;
pub use order::GitOrder;
pub use wrapped::{
    DirEntryIter, Parallelism, WalkDir, WalkDirIter, walkdir_new, walkdir_sorted_new,
};
