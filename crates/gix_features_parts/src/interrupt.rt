//! Work that ends early when a flag is set: iterators, reads and writes.
mod flag;
mod iter;
mod streams;

pub use flag::{AtomicFlag, Flag, SetAfter};
pub use iter::{Iter, IterWithErr};
pub use streams::{Error, Read, Write};
