//! A disk over std's files.
//!
//! `HostDisk` makes each call of a disk on the folders of the computer. It reports no state, since no contract of std
//! says what a folder holds; how it turns each answer of the system into its own is stated.
//! ```rust
//! let mut disk = HostDisk::new(alloc, rt);
//! let path = PathText::parse(alloc, "/tmp")?;
//! let meta = disk.look(alloc, &path, true)?;             // a directory
//! ```
#![tactic(auto)]

mod host_answers;
mod host_calls;
mod host_disk;
mod host_listing;

pub use host_disk::HostDisk;
