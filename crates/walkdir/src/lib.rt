//! Walks of folder trees, as the crate `walkdir` 2.5 makes them, over any disk.
//!
//! [`WalkDir`] builds a walk, [`IntoIter`] makes it on a disk, [`DirEntry`] is what it gives, and [`Error`] what went
//! wrong at one place while the walk goes on. `specs/Walk.antt` says what a walk gives.
//! ```rust
//! let root = PathText::parse(alloc, "/src")?;
//! let walk = WalkDir::new(alloc, &root)?.sort_by_file_name();
//! for entry in walk.into_iter_on(alloc, &mut disk)? {
//!     println!(rt; "{}", entry?.path())?;
//! }
//! ```
#![tactic(auto)]

mod builder;
mod dent;
mod directory;
mod error;
mod filter;
mod iter;
mod read;
mod sort;
mod stack;

pub use builder::WalkDir;
pub use dent::{DirEntry, DirEntryExt};
pub use error::Error;
pub use filter::FilterEntry;
pub use iter::{IntoIter, OnDisk, Steps, Walk};
pub use odb_disk::Disk;
pub use odb_mem_disk::{DiskError, Kind, Meta, PathText};
pub use sort::{ByKey, ByName, KeyOf, NoSort, Sorter};
pub use stack::Stack;

/// What a walk gives at each place.
pub type Result<T> = std::result::Result<T, Error>;
