//! What every crate of the object database uses: the error for running out of memory, lists of bytes and of other items,
//! values in boxes and with several owners, paths, decimal numbers, limits of sizes, and sources and sinks of bytes.
//!
//! A call that takes memory is passed the allocator, and returns `NoMemory` where none is left. Contracts see a list of bytes
//! as that list, whatever its capacity, and owners of one value as equal. A source or sink fails only where its count of faults
//! rose. A `SharedList` with another item at one place shares all but one of its blocks with the list before.
//! ```rust
//! let mut bytes = ByteList::from_slice(alloc, b"blob 0\0")?;
//! bytes.extend_from_slice(b"more")?;
//! let mut sink = MemSink::new(alloc);
//! write_all(&mut sink, bytes.as_slice())?;
//! ```
#![tactic(auto)]

mod bad_path;
mod boxed;
mod byte_list;
mod calls;
mod decimal;
mod filling;
mod limit;
mod no_memory;
mod path;
mod path_name;
mod sequence;
mod shared;
mod shared_list;
mod source;
mod std_stream;

pub use bad_path::BadPath;
pub use boxed::Boxed;
pub use byte_list::ByteList;
pub use calls::Calls;
pub use decimal::parse_decimal;
pub use limit::is_within;
pub use no_memory::NoMemory;
pub use path::PathText;
pub use path_name::PathName;
pub use sequence::Sequence;
pub use shared::Shared;
pub use shared_list::SharedList;
pub use source::{Failed, MemSink, MemSource, ReadError, Sink, Source, read_file, write_all};
pub use std_stream::{StdSink, StdSource};
