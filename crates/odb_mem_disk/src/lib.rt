//! A disk in memory, and its tree.
//!
//! It answers by its tree, and fails exactly at the listed calls. Read `mem_disk` first, then `tree`. What a tree and a disk
//! are is in `odb_disk`; its names, and those of `odb_base`, are re-exported here.
//! ```rust
//! let mut disk = MemDisk::new(alloc)?;
//! let path = PathText::parse(alloc, "/o")?;
//! disk.change(alloc, &Change::MakeDir { path, dev: 0 })?;
//! ```
#![tactic(auto)]

mod dir_streams;
mod mem_ask;
mod mem_disk;
mod node_map;
mod node_moves;
mod tree;

pub use dir_streams::DirStreams;
pub use mem_disk::MemDisk;
pub use odb_base::{
    BadPath, ByteList, Failed, MemSink, MemSource, NoMemory, PathName, PathText, ReadError, Sink,
    Source, StdSink, StdSource, read_file, write_all,
};
pub use odb_disk::{
    Change, DirId, Disk, DiskAnswer, DiskAsk, DiskError, Entry, EntryQueue, Impossible, Kind, Meta,
    Op,
};
pub use tree::{Tree, end_of};
