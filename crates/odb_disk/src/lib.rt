//! What a disk is: its tree, how a path is followed, what a change makes of the tree, what a directory lists, the calls of a
//! disk as values, and the trait of a disk.
//!
//! Each call of a disk answers by its tree, where the disk shows it, and fails only where the disk's count of faults rose.
//! Read `specs/Tree.antt` first, then `disk` and `ask`. A disk in memory is in `odb_mem_disk`, a real one in `odb_host`.
//! ```rust
//! let ask = DiskAsk::Read { path: PathText::parse(alloc, "/o/a")? };
//! let answer = ask.carry_out(alloc, &mut disk);
//! ```
#![tactic(auto)]

mod ask;
mod change;
mod disk;
mod disk_error;
mod entry;
mod meta;
mod node;

pub use ask::{DiskAnswer, DiskAsk, Op};
pub use change::{Change, Impossible};
pub use disk::{DirId, Disk};
pub use disk_error::DiskError;
pub use entry::{Entry, EntryQueue};
pub use meta::{Kind, Meta};
pub use node::{Content, Node};
