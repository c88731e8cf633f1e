//! A store of loose objects as a caller uses it: keeping bytes and finding them again, copying and checking objects.
//!
//! Each call is generic over disks: `HostDisk` for a real folder, `MemDisk` for one in memory. Where the disk reports
//! its tree, the answers are what the files hold; on every disk each error has its cause.
//! ```rust
//! let id = keep(alloc, &mut disk, &store, b"hello\n")?;
//! if condition_of(alloc, &mut disk, &store, &id)? == Condition::Sound {
//!     copy(alloc, &mut disk, &store, &other, &id)?;
//! }
//! ```
#![tactic(auto)]

mod asking;
mod error;
mod writing;

pub use asking::{Condition, condition_of, kinds_of};
pub use error::Error;
pub use writing::{copy, keep, put};
